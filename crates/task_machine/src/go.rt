// Plans executed at once.

ghost use Rattle.std.specs.Prelude.{◌≡◌, ◌<◌, ◌+◌, ◌^◌};
ghost use Rattle.task_machine.specs.Plan.{planned};
ghost use Rattle.task_machine.specs.Ready.{PlanIsReady, IsSafe, HasCopiedRegisters};
ghost use Rattle.task_machine.specs.Run.{ComesOf};

use crate::part::{Paused, Private};
use crate::plan::{Plan, StepResult};
use hh_lang::Instr;

impl Private {
    // Executes a plan, or returns why it pauses.
    fn take(&mut self, plan: Plan) -> StepResult
        requires next { self.old.frames.top.next + 1 < 2 ^ 32 }
        requires fresh { self.old.fresh + 1 < 2 ^ 32 }
        requires few { self.old.allocations + 1 < 2 ^ 32 }
        requires safe { IsSafe self.old }
        requires ready { PlanIsReady self.old plan }
        ensures { ComesOf self.old plan self.new result }
    {
        match plan {
            Plan::Pause(why) => return StepResult::Stopped(why),
            Plan::Calculate(instr) => self.calculate_one(&instr),
            Plan::SetInt(target, value) => self.set_int(target, value),
            Plan::SetReference(target, value) => self.set_reference(target, value),
            Plan::Call(function) => return self.take_call(function),
            Plan::Return => self.come_back(),
            Plan::New(target, refs, ints) => self.make_new(target, refs, ints),
            Plan::Pack(target, refs, ints) => self.make_pack(target, refs, ints),
            Plan::WriteReference(own, at, value) => self.write_reference(own, at, value),
            Plan::WriteInt(own, at, value) => self.write_int(own, at, value),
            Plan::Swap(target, own, at, value) => self.swap(target, own, at, value),
            Plan::Freeze(own) => self.freeze(own),
        }
        StepResult::Taken
    }

    // Calls a function.
    fn take_call(&mut self, function: u32) -> StepResult
        requires next { self.old.frames.top.next + 1 < 2 ^ 32 }
        requires fresh { self.old.fresh + 1 < 2 ^ 32 }
        requires ready { PlanIsReady self.old (Plan.Call function) }
        ensures { ComesOf self.old (Plan.Call function) self.new result }
    {
        match self.call(function) {
            Ok(()) => StepResult::Taken,
            Err(_) => StepResult::OutOfMemory,
        }
    }

    // Makes the plan of an instruction, and executes it.
    #[inline(never)]
    fn go_slowly(&mut self, instr: &Instr) -> StepResult
        requires next { self.old.frames.top.next + 1 < 2 ^ 32 }
        requires fresh { self.old.fresh + 1 < 2 ^ 32 }
        requires few { self.old.allocations + 1 < 2 ^ 32 }
        requires safe { IsSafe self.old }
        requires limit { self.old.field_limit < 2 ^ 20 }
        ensures wide { HasCopiedRegisters self.old instr.now }
        ensures ready { PlanIsReady self.old (planned self.old instr.now) }
        ensures comes { ComesOf self.old (planned self.old instr.now) self.new result }
    {
        let plan = self.decide(*instr);
        self.take(plan)
    }

    // Executes the plan of a read. It is inlined for each instruction that reads, as the next function is for those that
    // write or allocate, so that no register is shared with arms that the instruction never takes.
    #[inline(always)]
    fn read_quickly(&mut self, plan: Plan, instr: &Instr) -> StepResult
        requires next { self.old.frames.top.next + 1 < 2 ^ 32 }
        requires fresh { self.old.fresh + 1 < 2 ^ 32 }
        requires few { self.old.allocations + 1 < 2 ^ 32 }
        requires safe { IsSafe self.old }
        requires limit { self.old.field_limit < 2 ^ 20 }
        requires same { plan ≡ planned self.old instr.now }
        requires ready { PlanIsReady self.old plan }
        ensures { ComesOf self.old plan self.new result }
    {
        match plan {
            Plan::SetInt(target, value) => self.set_int(target, value),
            Plan::SetReference(target, value) => self.set_reference(target, value),
            _ => return self.go_slowly(instr),
        }
        StepResult::Taken
    }

    // Executes the plan of a write or an allocation.
    #[inline(always)]
    fn write_quickly(&mut self, plan: Plan, instr: &Instr) -> StepResult
        requires next { self.old.frames.top.next + 1 < 2 ^ 32 }
        requires fresh { self.old.fresh + 1 < 2 ^ 32 }
        requires few { self.old.allocations + 1 < 2 ^ 32 }
        requires safe { IsSafe self.old }
        requires limit { self.old.field_limit < 2 ^ 20 }
        requires same { plan ≡ planned self.old instr.now }
        requires ready { PlanIsReady self.old plan }
        ensures { ComesOf self.old plan self.new result }
    {
        match plan {
            Plan::WriteInt(own, at, value) => self.write_int(own, at, value),
            Plan::WriteReference(own, at, value) => self.write_reference(own, at, value),
            Plan::New(target, refs, ints) => self.make_new(target, refs, ints),
            _ => return self.go_slowly(instr),
        }
        StepResult::Taken
    }

    // Executes the plan of a call or a return, or pauses for it.
    #[inline(always)]
    fn call_quickly(&mut self, plan: Plan, instr: &Instr) -> StepResult
        requires next { self.old.frames.top.next + 1 < 2 ^ 32 }
        requires fresh { self.old.fresh + 1 < 2 ^ 32 }
        requires few { self.old.allocations + 1 < 2 ^ 32 }
        requires safe { IsSafe self.old }
        requires limit { self.old.field_limit < 2 ^ 20 }
        requires same { plan ≡ planned self.old instr.now }
        requires ready { PlanIsReady self.old plan }
        ensures { ComesOf self.old plan self.new result }
    {
        match plan {
            Plan::Pause(why) => StepResult::Stopped(why),
            Plan::Call(function) => self.take_call(function),
            Plan::Return => {
                self.come_back();
                StepResult::Taken
            }
            _ => self.go_slowly(instr),
        }
    }

    /// Takes the step of an instruction, or returns why there is none: mostly it works on an object, since calculations
    /// were done before.
    #[inline(never)]
    pub(crate) fn go(&mut self, instr: &Instr) -> StepResult
        requires next { self.old.frames.top.next + 1 < 2 ^ 32 }
        requires fresh { self.old.fresh + 1 < 2 ^ 32 }
        requires few { self.old.allocations + 1 < 2 ^ 32 }
        requires safe { IsSafe self.old }
        requires limit { self.old.field_limit < 2 ^ 20 }
        ensures wide { HasCopiedRegisters self.old instr.now }
        ensures ready { PlanIsReady self.old (planned self.old instr.now) }
        ensures comes { ComesOf self.old (planned self.old instr.now) self.new result }
    {
        match instr {
            Instr::Newm(target, refs, ints) => {
                let plan = self.decide_newm(*target, *refs, *ints);
                self.write_quickly(plan, instr)
            }
            Instr::Getr(target, object, index) => {
                let plan = self.decide_getr(*target, *object, *index);
                self.read_quickly(plan, instr)
            }
            Instr::Geti(target, object, index) => {
                let plan = self.decide_geti(*target, *object, *index);
                self.read_quickly(plan, instr)
            }
            Instr::Putr(object, index, value) => {
                let plan = self.decide_putr(*object, *index, *value);
                self.write_quickly(plan, instr)
            }
            Instr::Puti(object, index, value) => {
                let plan = self.decide_puti(*object, *index, *value);
                self.write_quickly(plan, instr)
            }
            Instr::Call(function) => {
                let plan = self.decide_call(*function);
                self.call_quickly(plan, instr)
            }
            Instr::Ret => {
                let plan = self.decide_ret();
                self.call_quickly(plan, instr)
            }
            Instr::Par(_, _) => StepResult::Stopped(Paused::Shared),
            _ => self.go_slowly(instr),
        }
    }
}
