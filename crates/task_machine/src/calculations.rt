// Steps that only calculate, one after the other, on the top frame.

ghost use Rattle.std.specs.Prelude.{◌≡◌, ◌≤◌, ◌<◌, ◌+◌, ◌^◌, false, None, option_copied};
ghost use Rattle.hh_lang.specs.Form.{line_at};
ghost use Rattle.task_machine.specs.Calculations.{calculates_next, calculation, is_calculation, next_with_int, next_with_ref, FrameLeads};
ghost use Rattle.task_machine.specs.Plan.{taken, with_top};

use crate::part::Private;
use crate::plan::Plan;
use hh_lang::{Instr, IntReg, Line, Operator, Program, RefReg};
use hh_model::calculate;
use object_layout::{Addr, is_same_reference};
use task_frames::CallFrame;

/// Sets a number register, and goes on with the next instruction.
#[inline(always)]
pub(crate) fn set_int(frame: &mut CallFrame, target: IntReg, value: i64)
    requires { frame.old.next + 1 < 2 ^ 32 }
    ensures { frame.new ≡ next_with_int frame.old target value }
{
    frame.set_int(target, value);
    frame.next += 1;
}

/// Sets a reference register, and goes on with the next instruction.
#[inline(always)]
pub(crate) fn set_reference(frame: &mut CallFrame, target: RefReg, value: Option<Addr>)
    requires { frame.old.next + 1 < 2 ^ 32 }
    ensures { frame.new ≡ next_with_ref frame.old target value }
{
    frame.set_reference(target, value);
    frame.next += 1;
}

// Sets a register by an operator and goes on with the next instruction, or leaves the frame unchanged if that divides
// by 0.
#[inline(always)]
fn calc(
    frame: &mut CallFrame,
    operator: Operator,
    target: IntReg,
    left: IntReg,
    right: IntReg,
) -> bool
    requires { frame.old.next + 1 < 2 ^ 32 }
    ensures only { result ≡ is_calculation frame.old (Instr.Calc operator target left right) }
    ensures makes { frame.new ≡ calculation (Instr.Calc operator target left right) frame.old }
    ensures stays { result ≡ false → frame.new ≡ frame.old }
    ensures function { frame.new.function ≡ frame.old.function }
{
    match calculate(operator, frame.int(left), frame.int(right)) {
        Some(value) => {
            set_int(frame, target, value);
            true
        }
        None => false,
    }
}

// Goes on elsewhere if a register is 0, otherwise with the next instruction.
#[inline(always)]
fn jump_at_zero(frame: &mut CallFrame, tested: IntReg, to: u32)
    requires { frame.old.next + 1 < 2 ^ 32 }
    ensures makes { frame.new ≡ calculation (Instr.Jz tested to) frame.old }
    ensures function { frame.new.function ≡ frame.old.function }
{
    if frame.int(tested) == 0 {
        frame.next = to;
    } else {
        frame.next += 1;
    }
}

// Executes an instruction that only calculates, or leaves the frame unchanged.
#[inline(always)]
fn calculate_once(frame: &mut CallFrame, instr: &Instr) -> bool
    requires { frame.old.next + 1 < 2 ^ 32 }
    ensures only { result ≡ is_calculation frame.old instr.now }
    ensures makes { frame.new ≡ calculation instr.now frame.old }
    ensures stays { result ≡ false → frame.new ≡ frame.old }
    ensures function { frame.new.function ≡ frame.old.function }
{
    match instr {
        Instr::Set(target, value) => set_int(frame, *target, *value),
        Instr::Mov(target, source) => set_int(frame, *target, frame.int(*source)),
        Instr::Movr(target, source) => set_reference(frame, *target, frame.reference(*source)),
        Instr::Nil(target) => set_reference(frame, *target, None),
        Instr::Calc(operator, target, left, right) => {
            return calc(frame, *operator, *target, *left, *right);
        }
        Instr::Same(target, left, right) => {
            let same = is_same_reference(frame.reference(*left), frame.reference(*right));
            set_int(frame, *target, if same { 1 } else { 0 });
        }
        Instr::Jmp(to) => frame.next = *to,
        Instr::Jz(tested, to) => jump_at_zero(frame, *tested, *to),
        _ => return false,
    }
    true
}

/// Whether an instruction only calculates.
pub(crate) fn calculates(frame: &CallFrame, instr: &Instr) -> bool
    ensures { result ≡ is_calculation frame.now instr.now }
{
    match instr {
        Instr::Calc(operator, _, left, right) => {
            calculate(*operator, frame.int(*left), frame.int(*right)).is_some()
        }
        Instr::Set(_, _)
        | Instr::Mov(_, _)
        | Instr::Movr(_, _)
        | Instr::Nil(_)
        | Instr::Same(_, _, _)
        | Instr::Jmp(_)
        | Instr::Jz(_, _) => true,
        _ => false,
    }
}

// Calculates as long as the next instruction is a calculation, at most `most` times: returns how many times, and the
// next line, unless the budget is used up.
fn calculate_on<'a>(
    frame: &mut CallFrame,
    program: &'a Program,
    most: u32,
) -> (u32, Option<&'a Line>)
    ensures most { result.0 ≤ most }
    ensures leads { FrameLeads program.now frame.old result.0 frame.new }
    ensures line { result.0 < most → option_copied result.1 ≡ line_at program.now frame.new.function frame.new.next }
    ensures all { result.0 < most → calculates_next program.now frame.new ≡ false }
    ensures spent { result.0 ≡ most → result.1 ≡ None }
{
    program.form();
    let Some(function) = program.functions().get(frame.function as usize) else {
        return (0, None);
    };
    for done in 0..most {
        let Some(line) = function.code.get(frame.next as usize) else {
            return (done, None);
        };
        if !calculate_once(frame, &line.instr) {
            return (done, Some(line));
        }
    }
    (most, None)
}

impl Private {
    /// Takes a step that only calculates.
    pub(crate) fn calculate_one(&mut self, instr: &Instr)
        requires next { self.old.frames.top.next + 1 < 2 ^ 32 }
        requires fresh { self.old.fresh + 1 < 2 ^ 32 }
        ensures { self.new ≡ taken self.old (Plan.Calculate instr.now) }
    {
        calculate_once(self.frames.top_mut(), instr);
        self.fresh += 1;
    }

    /// Takes steps as long as they only calculate, at most `most`: returns how many, and the next line, unless the
    /// budget is used up.
    pub(crate) fn calculate<'a>(
        &mut self,
        program: &'a Program,
        most: u32,
    ) -> (u32, Option<&'a Line>)
        requires { self.old.fresh + most < 2 ^ 32 }
        ensures most { result.0 ≤ most }
        ensures leads { FrameLeads program.now self.old.frames.top result.0 self.new.frames.top }
        ensures rest { self.new ≡ record (with_top self.old self.new.frames.top) { fresh = self.old.fresh + result.0 } }
        ensures line { result.0 < most → option_copied result.1 ≡ line_at program.now self.new.frames.top.function self.new.frames.top.next }
        ensures all { result.0 < most → calculates_next program.now self.new.frames.top ≡ false }
        ensures spent { result.0 ≡ most → result.1 ≡ None }
    {
        let (done, line) = calculate_on(self.frames.top_mut(), program, most);
        self.fresh += done;
        (done, line)
    }
}
