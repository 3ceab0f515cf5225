// The next instruction of a part, by its own frames and heap.

ghost use Rattle.std.specs.Prelude.{◌≡◌, ◌<◌, ◌^◌, length, IfSome};
ghost use Rattle.refinement_laws.specs.below.hh_model.{counts_in, place_in};
ghost use Rattle.refinement_laws.specs.below.task_frames.{int_of};
ghost use Rattle.refinement_laws.specs.below.task_machine.{IsSafe};
ghost use Rattle.core_invariant.specs.Next.{ending, instr_asks, on_own, part_asks, unwritten};

use refinement_laws::{Instr, IntReg, Private, Program, RefReg, Trap};

// Two numbers as counts of fields, if neither is negative and their sum is within the limit.
fn field_counts(limit: u32, refs: i64, ints: i64) -> Option<(u32, u32)>
    ensures { result ≡ counts_in limit refs ints }
{
    if refs < 0 || ints < 0 {
        return None;
    }
    let (refs, ints) = (refs as u64, ints as u64);
    let limit = limit as u64;
    if refs <= limit && ints <= limit - refs {
        Some((refs as u32, ints as u32))
    } else {
        None
    }
}

fn asked_by(part: &Private, instr: Instr) -> Option<u32>
    requires { part.now.field_limit < 2 ^ 20 }
    ensures asked { result ≡ instr_asks part.now.field_limit part.now.frames.top instr }
    ensures few { IfSome result (λ words. words < 2 ^ 22) }
{
    match instr {
        Instr::Newm(_, refs, ints) => {
            match field_counts(part.field_limit, part.int(refs), part.int(ints)) {
                Some((refs, ints)) => Some(2 + refs + ints),
                None => None,
            }
        }
        Instr::Pack(_, refs, ints) => Some(2 + refs.count() as u32 + ints.count() as u32),
        _ => None,
    }
}

/// The words that the next step of a part allocates, if it allocates.
pub fn words_asked(part: &Private, program: &Program) -> Option<u32>
    requires { part.now.field_limit < 2 ^ 20 }
    ensures asked { result ≡ part_asks program.now part.now }
    ensures few { IfSome result (λ words. words < 2 ^ 22) }
{
    match program.line(part.frames.fun(), part.frames.next()) {
        Some(line) => asked_by(part, line.instr),
        None => None,
    }
}

/// What the next step of a part does, if it isn't private.
#[derive(Clone, Copy)]
pub enum Ending {
    /// It prints a number.
    Prints(i64),
    /// The last frame returns.
    Returns,
    /// It traps.
    Traps(Trap),
    /// It forks, or works on an object that isn't the task's own.
    Beyond,
}

/// A number as an index below the number of fields.
pub fn field_index(count: u32, index: i64) -> Option<u32>
    ensures { result ≡ place_in count index }
{
    if index < 0 {
        return None;
    }
    let index = index as u64;
    if index < count as u64 {
        Some(index as u32)
    } else {
        None
    }
}

// A read of an own object that traps: the field doesn't exist.
fn reading(part: &Private, object: RefReg) -> Ending
    ensures { result ≡ on_own part.now object (λ c. Ending.Traps Trap.Range) }
{
    let Some(object) = part.reference(object) else {
        return Ending::Traps(Trap::Nil);
    };
    if part.heap.owns(object) {
        Ending::Traps(Trap::Range)
    } else {
        Ending::Beyond
    }
}

// What an own object always allows.
fn allowed(part: &Private, object: RefReg) -> Ending
    ensures { result ≡ on_own part.now object (λ c. Ending.Beyond) }
{
    match part.reference(object) {
        None => Ending::Traps(Trap::Nil),
        Some(_) => Ending::Beyond,
    }
}

// A write that traps: the field doesn't exist, or the object is immutable.
fn unwritten(field: Option<u32>) -> Ending
    ensures { result ≡ unwritten field }
{
    match field {
        None => Ending::Traps(Trap::Range),
        Some(_) => Ending::Traps(Trap::Frozen),
    }
}

fn writing_reference(part: &Private, object: RefReg, index: IntReg) -> Ending
    requires { IsSafe part.now }
    ensures { result ≡ on_own part.now object (λ c. unwritten (place_in (length c.refs) (int_of part.now.frames.top index))) }
{
    let Some(object) = part.reference(object) else {
        return Ending::Traps(Trap::Nil);
    };
    if !part.heap.owns(object) {
        return Ending::Beyond;
    }
    let count = part.heap.own_header(object).nrefs;
    unwritten(field_index(count, part.int(index)))
}

fn writing_number(part: &Private, object: RefReg, index: IntReg) -> Ending
    requires { IsSafe part.now }
    ensures { result ≡ on_own part.now object (λ c. unwritten (place_in (length c.ints) (int_of part.now.frames.top index))) }
{
    let Some(object) = part.reference(object) else {
        return Ending::Traps(Trap::Nil);
    };
    if !part.heap.owns(object) {
        return Ending::Beyond;
    }
    let count = part.heap.own_header(object).nints;
    unwritten(field_index(count, part.int(index)))
}

/// What an instruction does that isn't a private step.
pub fn last_step(part: &Private, instr: Instr) -> Ending
    requires { IsSafe part.now }
    ensures { result ≡ ending part.now instr }
{
    match instr {
        Instr::Out(register) => Ending::Prints(part.int(register)),
        Instr::Ret => Ending::Returns,
        Instr::Calc(_, _, _, _) => Ending::Traps(Trap::Div),
        Instr::Newm(_, _, _) => Ending::Traps(Trap::Size),
        Instr::Call(_) => Ending::Traps(Trap::Depth),
        Instr::Getr(_, object, _) => reading(part, object),
        Instr::Geti(_, object, _) => reading(part, object),
        Instr::Putr(object, index, _) => writing_reference(part, object, index),
        Instr::Puti(object, index, _) => writing_number(part, object, index),
        Instr::Cas(_, object, index, _, _) => writing_reference(part, object, index),
        Instr::Cntr(_, object) => allowed(part, object),
        Instr::Cnti(_, object) => allowed(part, object),
        Instr::Freeze(object) => allowed(part, object),
        _ => Ending::Beyond,
    }
}
