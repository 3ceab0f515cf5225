// Whether functions form a program: every index in range, a return at every end, and a main.

ghost use Rattle.std.specs.Prelude.{◌≡◌, ◌↔◌, IsTrue, All, IsSomeAnd, length, slice_get, codes};
ghost use Rattle.hh_lang.specs.Form.{NamesExist, IsReturn, EndsWithReturn, IsFunction, IsProgram};

use crate::instr::Instr;
use crate::program::{Fun, Line};

/// A function has fewer places than this, and a program fewer functions: their numbers fit in 32 bits.
const COUNT_LIMIT: usize = 1 << 32;

/// The number of registers of each kind.
const REGISTERS: usize = 16;

// Whether the places, functions and registers that an instruction names exist.
fn names_exist(instr: Instr, functions: usize, places: usize) -> bool
    ensures { IsTrue result ↔ NamesExist functions places instr }
{
    match instr {
        Instr::Pack(_, references, numbers) => references.count() <= REGISTERS
            && numbers.count() <= REGISTERS,
        Instr::Jmp(to) | Instr::Jz(_, to) => (to as usize) < places,
        Instr::Call(function) => (function as usize) < functions,
        Instr::Par(left, right) => (left as usize) < functions && (right as usize) < functions,
        _ => true,
    }
}

fn is_return(instr: Instr) -> bool
    ensures { IsTrue result ↔ IsReturn instr }
{
    match instr {
        Instr::Ret => true,
        _ => false,
    }
}

fn ends_with_return(code: &[Line]) -> bool
    ensures { IsTrue result ↔ EndsWithReturn code.now }
{
    match code.last() {
        Some(line) => is_return(line.instr),
        None => false,
    }
}

fn all_names_exist(code: &[Line], functions: usize) -> bool
    ensures { IsTrue result ↔ All (λ l. NamesExist functions (length code.now) l.instr) code.now }
{
    for line in code {
        if !names_exist(line.instr, functions, code.len()) {
            return false;
        }
    }
    true
}

// Whether this is a function of a program with this many functions.
fn is_function(fun: &Fun, functions: usize) -> bool
    ensures { IsTrue result ↔ IsFunction functions fun.now }
{
    let code = fun.code.as_slice();
    code.len() < COUNT_LIMIT && ends_with_return(code) && all_names_exist(code, functions)
}

fn all_functions(functions: &[Fun]) -> bool
    ensures { IsTrue result ↔ All (IsFunction (length functions.now)) functions.now }
{
    for fun in functions {
        if !is_function(fun, functions.len()) {
            return false;
        }
    }
    true
}

// Whether the function of this number exists and is named main.
fn is_main(functions: &[Fun], main: u32) -> bool
    ensures { IsTrue result ↔ IsSomeAnd (slice_get functions.now main) (λ f. f.name ≡ codes "main") }
{
    match functions.get(main as usize) {
        Some(fun) => fun.name.as_slice() == b"main".as_slice(),
        None => false,
    }
}

/// Whether these functions, the one of this number being main, form a program. Linear in the size of the code.
pub fn is_program(functions: &[Fun], main: u32) -> bool
    ensures { IsTrue result ↔ IsProgram (record { functions = functions.now; main = main }) }
{
    functions.len() < COUNT_LIMIT && is_main(functions, main) && all_functions(functions)
}
