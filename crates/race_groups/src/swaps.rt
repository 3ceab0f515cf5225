// Whether a program has compare and swaps.

ghost use Rattle.std.specs.Prelude.{◌≡◌};
ghost use Rattle.std.specs.List.{list_any};
ghost use Rattle.race_groups.specs.Swaps.{is_swap, code_has_swap, has_swaps};

use hh_lang::{Fun, Instr, Line, Program};

fn is_swap(line: &Line) -> bool
    ensures { result ≡ is_swap line.now }
{
    matches!(line.instr, Instr::Cas(_, _, _, _, _))
}

fn code_has_swap(function: &Fun) -> bool
    ensures { result ≡ code_has_swap function.now }
{
    function.code.as_slice().iter().any(|line| is_swap(line))
}

/// Whether an instruction of a program is a compare and swap.
pub fn has_swaps(program: &Program) -> bool
    ensures { result ≡ has_swaps program.now }
{
    program
        .functions()
        .as_slice()
        .iter()
        .any(|function| code_has_swap(function))
}
