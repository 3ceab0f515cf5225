// Programs that need version 2 of traces.

ghost use Rattle.std.specs.Prelude.{◌≡◌};
ghost use Rattle.std.specs.List.{list_any};
ghost use Rattle.trace_input.specs.Input.{is_newer_instr, is_added_name, is_newer_function, is_newer};

use hh_lang::{Fun, Instr, Line, Program};

fn is_newer_instr(instr: Instr) -> bool
    ensures { result ≡ is_newer_instr instr }
{
    match instr {
        Instr::Freeze(..) | Instr::Cas(..) => true,
        _ => false,
    }
}

fn has_newer_instr(code: &[Line]) -> bool
    ensures { result ≡ list_any (λ l. is_newer_instr l.instr) code.now }
{
    code.iter().any(|line| is_newer_instr(line.instr))
}

fn is_added_name(name: &[u8]) -> bool
    ensures { result ≡ is_added_name name.now }
{
    match name.last() {
        Some(byte) => *byte == b'?',
        None => false,
    }
}

fn is_newer_function(function: &Fun) -> bool
    ensures { result ≡ is_newer_function function.now }
{
    is_added_name(function.name.as_slice()) || has_newer_instr(function.code.as_slice())
}

/// Whether a program has `freeze`, `cas` or a parallel loop.
pub(crate) fn is_newer(program: &Program) -> bool
    ensures { result ≡ is_newer program.now }
{
    program
        .functions()
        .as_slice()
        .iter()
        .any(|function| is_newer_function(function))
}
