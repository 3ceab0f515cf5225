// Changes of a task's frames.

ghost use Rattle.std.specs.Prelude.{◌≡◌, ◌<◌, ◌+◌, ◌^◌, ◌++◌, ◌∷◌, [], length, slice_get, IfSome, OnOk, OnErr, IfNone};
ghost use Rattle.hh_model.specs.Effect.{onward, with_int, with_ref};
ghost use Rattle.hh_model.specs.Step.{with_task, called, entry_frame, last_of, front_of};

use crate::data::{End, Frame, MachineState, Name, Trap};
use hh_lang::{FRAME_LIMIT, IntReg, RefReg};
use std::alloc::AllocError;

impl MachineState {
    /// A frame that has waited becomes a task's top one, with what was returned to it.
    pub(crate) fn come_back(&mut self, t: u32, caller: Frame, handed_back: (i64, Option<Name>))
        requires { t < length self.old.tasks }
        ensures { IfSome (slice_get self.old.tasks t) (λ x. self.new ≡ with_task self.old t (record x { top = with_ref (with_int caller 0 handed_back.0) 0 handed_back.1 })) }
    {
        let task = self.tasks.at_mut(t as usize);
        task.top = caller;
        task.top.take_result(0, handed_back);
    }

    /// A task goes on with the next instruction.
    #[inline(always)]
    pub(crate) fn advance(&mut self, t: u32)
        requires made { t < length self.old.tasks }
        requires next { IfSome (slice_get self.old.tasks t) (λ x. x.top.next + 1 < 2 ^ 32) }
        ensures { IfSome (slice_get self.old.tasks t) (λ x. self.new ≡ with_task self.old t (record x { top = onward x.top })) }
    {
        self.tasks.at_mut(t as usize).top.advance();
    }

    /// A number register of a task gets a value.
    #[inline(always)]
    pub(crate) fn set_int(&mut self, t: u32, target: IntReg, value: i64)
        requires made { t < length self.old.tasks }
        requires next { IfSome (slice_get self.old.tasks t) (λ x. x.top.next + 1 < 2 ^ 32) }
        ensures { IfSome (slice_get self.old.tasks t) (λ x. self.new ≡ with_task self.old t (record x { top = onward (with_int x.top target value) })) }
    {
        let task = self.tasks.at_mut(t as usize);
        task.top.set_int(target, value);
        task.top.advance();
    }

    /// A reference register of a task gets a value.
    #[inline(always)]
    pub(crate) fn set_reference(&mut self, t: u32, target: RefReg, value: Option<Name>)
        requires made { t < length self.old.tasks }
        requires next { IfSome (slice_get self.old.tasks t) (λ x. x.top.next + 1 < 2 ^ 32) }
        ensures { IfSome (slice_get self.old.tasks t) (λ x. self.new ≡ with_task self.old t (record x { top = onward (with_ref x.top target value) })) }
    {
        let task = self.tasks.at_mut(t as usize);
        task.top.set_reference(target, value);
        task.top.advance();
    }

    /// The top frame is pushed, and a function's frame takes its place.
    #[tactic(auto, using(crate::proofs::Lists::set_got))]
    fn push_frame(&mut self, t: u32, waiting: Frame, function: u32) -> Result<(), AllocError>
        requires { t < length self.old.tasks }
        ensures ok { OnOk result (IfSome (slice_get self.old.tasks t) (λ x. self.new ≡ with_task self.old t (record x { top = entry_frame function x.top; below = x.below ++ waiting ∷ [] }))) }
        ensures err { OnErr result (self.new ≡ self.old) }
    {
        let task = self.tasks.at_mut(t as usize);
        task.below.push(waiting)?;
        task.top.function = function;
        task.top.next = 0;
        Ok(())
    }

    /// A function is called.
    pub(crate) fn call(&mut self, t: u32, function: u32, line: u32) -> Result<(), AllocError>
        requires made { t < length self.old.tasks }
        requires next { IfSome (slice_get self.old.tasks t) (λ x. x.top.next + 1 < 2 ^ 32) }
        ensures ok { OnOk result (IfSome (slice_get self.old.tasks t) (λ x. self.new ≡ called self.old t x function line)) }
        ensures err { OnErr result (self.new ≡ self.old) }
    {
        let task = self.tasks.at(t as usize);
        if task.below.len() >= FRAME_LIMIT - 1 {
            self.finish(End::Trapped(Trap::Depth, t, line));
            return Ok(());
        }
        let mut caller = task.top;
        caller.advance();
        self.push_frame(t, caller, function)
    }

    /// Pops the frame that was pushed last, if there is one.
    #[tactic(auto, using(crate::proofs::Lists::last_push, crate::proofs::Lists::front_push, crate::proofs::Lists::set_got))]
    pub(crate) fn pop_frame(&mut self, t: u32) -> Option<Frame>
        requires { t < length self.old.tasks }
        ensures none { IfNone result (self.new ≡ self.old) }
        ensures some { IfSome (slice_get self.old.tasks t) (λ x. IfSome result (λ f. self.new ≡ with_task self.old t (record x { below = front_of x.below }))) }
        ensures last { IfSome (slice_get self.old.tasks t) (λ x. result ≡ last_of x.below) }
    {
        self.tasks.at_mut(t as usize).below.pop()
    }
}
