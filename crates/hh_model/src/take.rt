// What the instructions of a running task do.

ghost use Rattle.std.specs.Prelude.{◌≡◌, ◌<◌, ◌+◌, ◌^◌, ◌++◌, ◌∷◌, [], length, slice_get, slice_set, IfSome, OnOk, OnErr, ℕ, true, false};
ghost use Rattle.hh_model.specs.Calculations.{is_calculation};
ghost use Rattle.hh_model.specs.Effect.{effect, int_in, onward};
ghost use Rattle.hh_model.specs.Machine.{IsSoundState};
ghost use Rattle.hh_model.specs.Step.{follow, is_running, setting};

use crate::data::{End, MachineState, Trap};
use hh_lang::{Instr, IntReg};
use std::alloc::{AllocError, Global};

impl MachineState {
    /// A task executes an instruction that only calculates; otherwise the state is unchanged.
    #[tactic(auto, using(crate::proofs::Lists::set_got))]
    #[inline(always)]
    fn calculate(&mut self, t: u32, instr: &Instr) -> bool
        requires made { t < length self.old.tasks }
        requires next { IfSome (slice_get self.old.tasks t) (λ x. x.top.next + 1 < 2 ^ 32) }
        ensures only { IfSome (slice_get self.old.tasks t) (λ x. result ≡ is_calculation x.top instr.now) }
        ensures done { result ≡ true → IfSome (slice_get self.old.tasks t) (λ x. (line : ℕ) → self.new ≡ follow self.old t x line (effect (setting self.old t x) x.top self.old.store instr.now)) }
        ensures stays { result ≡ false → self.new ≡ self.old }
    {
        self.tasks.at_mut(t as usize).top.calculate(*instr)
    }

    /// A task appends what a register holds to the outputs.
    fn print(&mut self, t: u32, source: IntReg) -> Result<(), AllocError>
        requires made { t < length self.old.tasks }
        requires next { IfSome (slice_get self.old.tasks t) (λ x. x.top.next + 1 < 2 ^ 32) }
        ensures ok { OnOk result (IfSome (slice_get self.old.tasks t) (λ x. self.new ≡ record self.old { tasks = slice_set self.old.tasks t (record x { top = onward x.top }); outputs = self.old.outputs ++ int_in x.top source ∷ [] })) }
        ensures err { OnErr result (self.new ≡ self.old) }
    {
        let value = self.tasks.at(t as usize).top.int(source);
        self.outputs.push(value)?;
        self.advance(t);
        Ok(())
    }

    /// Executes an instruction of a running task.
    #[inline(always)]
    pub(crate) fn act(
        &mut self,
        alloc: Global,
        t: u32,
        line: u32,
        instr: Instr,
    ) -> Result<(), AllocError>
        requires made { t < length self.old.tasks }
        requires running { is_running (slice_get self.old.tasks t) ≡ true }
        requires sound { IsSoundState self.old }
        requires next { IfSome (slice_get self.old.tasks t) (λ x. x.top.next + 1 < 2 ^ 32) }
        ensures ok { OnOk result (IfSome (slice_get self.old.tasks t) (λ x. self.new ≡ follow self.old t x line (effect (setting self.old t x) x.top self.old.store instr))) }
        ensures err { OnErr result (self.new ≡ self.old) }
    {
        if self.calculate(t, &instr) {
            return Ok(());
        }
        match instr {
            Instr::Newm(target, refs, ints) => return self.make_object(
                alloc, t, line, target, refs, ints,
            ),
            Instr::Pack(target, refs, ints) => return self.make_immutable(
                alloc, t, target, refs, ints,
            ),
            Instr::Getr(target, object, index) => self.read_reference(
                t, line, target, object, index,
            ),
            Instr::Geti(target, object, index) => self.read_int(t, line, target, object, index),
            Instr::Putr(object, index, value) => self.put_reference(t, line, object, index, value),
            Instr::Puti(object, index, value) => self.put_int(t, line, object, index, value),
            Instr::Cntr(target, object) => self.count_references(t, line, target, object),
            Instr::Cnti(target, object) => self.count_ints(t, line, target, object),
            Instr::Freeze(object) => self.freeze_own(t, line, object),
            Instr::Cas(target, object, index, expected, value) => self.compare_and_swap(
                t, line, target, object, index, expected, value,
            ),
            Instr::Call(function) => return self.call(t, function, line),
            Instr::Par(left, right) => return self.fork(alloc, t, left, right, line),
            Instr::Ret => return self.return_frame(t),
            Instr::Out(source) => return self.print(t, source),
            // The only calculation left is a division by 0.
            _ => self.finish(End::Trapped(Trap::Div, t, line)),
        }
        Ok(())
    }
}
