// The functions of loops.

ghost use Rattle.std.specs.Prelude.{◌≡◌, ◌<◌, ◌+◌, ◌^◌, ◌++◌, ◌∷◌, [], length, codes, IfOk, OnOk, MatchOption, slice_get};
ghost use Rattle.program_reader.specs.Names.{noted_name_of};
ghost use Rattle.program_reader.specs.Sense.{OutlineIsSmall, loop_function};
ghost use Rattle.hh_lang.specs.Loop.{whole_code, left_code, right_code};
ghost use Rattle.program_reader.specs.Program.{function_of, loop_from, on_line, loop_functions, loops_from, function_number};

use crate::sense::Outline;
use hh_lang::{Fun, Instr, IntReg, Line, Operator, RefReg};
use plain_vec::Listed;
use std::alloc::{AllocError, Global};

// Instructions that all have the same line.
fn lines_on(alloc: Global, number: u32, instrs: &[Instr]) -> Result<Listed<Line>, AllocError>
    ensures { IfOk result (λ code. code ≡ on_line number instrs.now) }
{
    let mut code = Listed::new(alloc);
    for instr in instrs {
        code.push(Line {
            instr: *instr,
            number,
        })?;
    }
    Ok(code)
}

// The function with this name followed by a sign.
fn function_on(
    alloc: Global,
    name: &[u8],
    sign: u8,
    number: u32,
    instrs: &[Instr],
) -> Result<Fun, AllocError>
    ensures { IfOk result (λ f. f ≡ function_of (name.now ++ sign ∷ []) number instrs.now) }
{
    let mut whole = name.to_vec(alloc)?;
    whole.push(sign)?;
    Ok(Fun {
        name: Listed::from_vec(whole),
        code: lines_on(alloc, number, instrs)?,
    })
}

// `f?`: calls f if one number is left, forks both halves if there are more, and returns 0 if there is none.
fn whole_function(
    alloc: Global,
    name: &[u8],
    number: u32,
    function: u32,
    first: u32,
) -> Result<Fun, AllocError>
    requires { first + 2 < 2 ^ 32 }
    ensures { IfOk result (λ f. f ≡ function_of (name.now ++ codes "?") number (whole_code (loop_from function first))) }
{
    let low = IntReg::new(0);
    let high = IntReg::new(1);
    let one = IntReg::new(13);
    let test = IntReg::new(14);
    let answer = RefReg::new(0);
    let code = [
        Instr::Calc(Operator::Lt, test, low, high),
        Instr::Jz(test, 13),
        Instr::Set(one, 1),
        Instr::Calc(Operator::Add, test, low, one),
        Instr::Calc(Operator::Eq, test, test, high),
        Instr::Jz(test, 9),
        Instr::Call(function),
        Instr::Nil(answer),
        Instr::Ret,
        Instr::Par(first + 1, first + 2),
        Instr::Calc(Operator::Add, low, low, high),
        Instr::Nil(answer),
        Instr::Ret,
        Instr::Set(low, 0),
        Instr::Nil(answer),
        Instr::Ret,
    ];
    function_on(alloc, name, b'?', number, &code)
}

// `f<`, which loops over the first half.
fn left_function(alloc: Global, name: &[u8], number: u32, first: u32) -> Result<Fun, AllocError>
    ensures { IfOk result (λ f. f ≡ function_of (name.now ++ codes "<") number (left_code first)) }
{
    let low = IntReg::new(0);
    let high = IntReg::new(1);
    let two = IntReg::new(13);
    let half = IntReg::new(14);
    let code = [
        Instr::Set(two, 2),
        Instr::Calc(Operator::Sub, half, high, low),
        Instr::Calc(Operator::Div, half, half, two),
        Instr::Calc(Operator::Add, high, low, half),
        Instr::Call(first),
        Instr::Ret,
    ];
    function_on(alloc, name, b'<', number, &code)
}

// `f>`, which loops over the second half.
fn right_function(alloc: Global, name: &[u8], number: u32, first: u32) -> Result<Fun, AllocError>
    ensures { IfOk result (λ f. f ≡ function_of (name.now ++ codes ">") number (right_code first)) }
{
    let low = IntReg::new(0);
    let high = IntReg::new(1);
    let two = IntReg::new(13);
    let half = IntReg::new(14);
    let code = [
        Instr::Set(two, 2),
        Instr::Calc(Operator::Sub, half, high, low),
        Instr::Calc(Operator::Div, half, half, two),
        Instr::Calc(Operator::Add, low, low, half),
        Instr::Call(first),
        Instr::Ret,
    ];
    function_on(alloc, name, b'>', number, &code)
}

/// The number of the function of this name.
pub(crate) fn number_in(outline: &Outline<'_>, name: &[u8]) -> u32
    requires { OutlineIsSmall outline.now }
    ensures { result ≡ function_number outline.now name.now }
{
    match outline.functions.find(name) {
        Some(place) => place as u32,
        None => 0,
    }
}

// Adds the functions of a loop, given the number of the first.
fn add_named(
    alloc: Global,
    outline: &Outline<'_>,
    functions: &mut Listed<Fun>,
    name: &[u8],
    number: u32,
    first: u32,
) -> Result<(), AllocError>
    requires small { OutlineIsSmall outline.now }
    requires fits { first + 2 < 2 ^ 32 }
    ensures { OnOk result (functions.new ≡ functions.old ++ loop_functions outline.now first (noted_name_of name.now number)) }
{
    let function = number_in(outline, name);
    functions.push(whole_function(alloc, name, number, function, first)?)?;
    functions.push(left_function(alloc, name, number, first)?)?;
    functions.push(right_function(alloc, name, number, first)?)?;
    Ok(())
}

// Adds the functions of the loop at an index.
fn add_loop(
    alloc: Global,
    outline: &Outline<'_>,
    functions: &mut Listed<Fun>,
    place: usize,
) -> Result<(), AllocError>
    requires small { OutlineIsSmall outline.now }
    requires there { place < length outline.now.loops }
    ensures { OnOk result (MatchOption (slice_get outline.now.loops place) (functions.new ≡ functions.old) (λ e. functions.new ≡ functions.old ++ loop_functions outline.now (loop_function outline.now place) e)) }
{
    match outline.loops.entry(place) {
        None => Ok(()),
        Some((name, number)) => {
            let first = (outline.functions.len() + 3 * place) as u32;
            add_named(alloc, outline, functions, name, number, first)
        }
    }
}

/// Adds the functions of all loops.
pub(crate) fn add_loops(
    alloc: Global,
    outline: &Outline<'_>,
    functions: &mut Listed<Fun>,
) -> Result<(), AllocError>
    requires { OutlineIsSmall outline.now }
    ensures { OnOk result (functions.new ≡ functions.old ++ loops_from outline.now 0 outline.now.loops) }
{
    for place in 0..outline.loops.len() {
        add_loop(alloc, outline, functions, place)?;
    }
    Ok(())
}
