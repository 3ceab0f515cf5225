// What kinds of entries and functions are called, and the numbers of lines.

ghost use Rattle.std.specs.Prelude.{◌≡◌};
ghost use Rattle.run_trace.specs.Line.{kind_name};
ghost use Rattle.run_names.specs.Names.{function_name, line_number};

use hh_lang::{Line, Program};
use run_trace::Kind;

/// The word of an entry's kind, as a trace has it.
pub fn kind_name(kind: Kind) -> &'static str
    ensures { result.now ≡ kind_name kind }
{
    match kind {
        Kind::Took(_) => "took",
        Kind::Ran(_, _) => "ran",
        Kind::Chunk(_) => "chunk",
        Kind::Begin(_) => "begin",
        Kind::End(_, _, _, _) => "end",
        Kind::PutOff(_) => "putoff",
        Kind::Mark(_) => "mark",
        Kind::More(_, _) => "some",
        Kind::Sweep(_, _) => "sweep",
        Kind::Fuel => "fuel",
    }
}

/// The name of a function of a program, and none where it has no such function.
pub fn function_name(program: &Program, function: u32) -> &[u8]
    ensures { result.now ≡ function_name program.now function }
{
    match program.functions().get(function as usize) {
        None => &[],
        Some(fun) => fun.name.as_slice(),
    }
}

/// The number of a line of a program; 0 for none.
pub fn line_number(line: Option<Line>) -> u32
    ensures { result ≡ line_number line }
{
    match line {
        None => 0,
        Some(line) => line.number,
    }
}
