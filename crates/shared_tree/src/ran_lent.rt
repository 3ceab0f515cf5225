// A part's steps are committed with its next one, which isn't private, unless that one gives the part up.

ghost use Rattle.std.specs.Prelude.{◌≡◌, ◌≢◌, ◌<◌, ℕ, None};
ghost use Rattle.entry_calls.specs.below.core_invariant.{refused, WorkerPartFits};
ghost use Rattle.entry_calls.specs.below.step_commit.{alone_entry, IsShared};
ghost use Rattle.entry_calls.specs.Calls.{EntersLent};
ghost use Rattle.shared_tree.specs.StepEnd.{HasNextLine, MayBeEntered};

use crate::shared::Shared;
use entry_calls::{
    End, Ending, Instr, Leaving, Lent, NotEntered, Private, Refused, first_cause, last_step,
};

impl Shared {
    // Why the entry is refused.
    fn alone_refused(&self, worker: u32, part: &Private) -> Option<Refused>
        requires fits { WorkerPartFits self.now worker part.now }
        requires shared { IsShared self.now part.now }
        ensures { result ≡ refused self.now (alone_entry worker part.now) }
    {
        let first = first_cause(self.end, self.steps, self.settings, worker, false);
        if first.is_some() {
            return first;
        }
        if part.begun.is_some() {
            Some(Refused::Collecting)
        } else {
            None
        }
    }

    // The instruction of the part's next step, and its line in the text.
    pub(crate) fn next_line(&self, part: &Private) -> (Instr, u32)
        requires out { MayBeEntered self.now part.now }
        requires shared { IsShared self.now part.now }
        ensures { HasNextLine self.now part.now result.0 result.1 }
    {
        match self.program.line(part.frames.fun(), part.frames.next()) {
            Some(line) => (line.instr, line.number),
            None => unreachable!(),
        }
    }

    // Commits the steps with the next one, which doesn't give the part up.
    fn ran_on(
        &mut self,
        worker: u32,
        part: &mut Private,
        instr: &Instr,
        number: u32,
    ) -> Result<Lent, NotEntered>
        requires room { 0 < self.old.journal.room }
        requires fits { WorkerPartFits self.old worker part.old }
        requires shared { IsShared self.old part.old }
        requires free { refused self.old (alone_entry worker part.old) ≡ None }
        requires next { HasNextLine self.old part.old instr.now number }
        requires no_fork { (left : ℕ) (right : ℕ) → instr.now ≢ Instr.Par left right }
        requires no_return { instr.now ≢ Instr.Ret }
        ensures { EntersLent self.old self.new worker part.old part.new result }
    {
        self.stands();
        match last_step(part, *instr) {
            Ending::Prints(value) => {
                self.enter_output(worker, part, value)?;
                Ok(Lent::Goes)
            }
            Ending::Traps(kind) => {
                let end = End::Trapped(kind, part.task, number);
                self.enter_halt(worker, part, end);
                Ok(Lent::Over)
            }
            Ending::Beyond => {
                let does = self.next_other(part, instr);
                self.enter_other(worker, part, does, number)
            }
            Ending::Returns => unreachable!(),
        }
    }

    /// Commits the fresh steps of a part and its next one, which isn't private, unless that one gives the part up. If
    /// it does, or an allocation fails, nothing is committed, though heaps and sets may have spare capacity.
    pub fn ran_lent(&mut self, worker: u32, part: &mut Private) -> Result<Lent, NotEntered>
        requires room { 0 < self.old.journal.room }
        requires fits { WorkerPartFits self.old worker part.old }
        requires shared { IsShared self.old part.old }
        ensures { EntersLent self.old self.new worker part.old part.new result }
    {
        if let Some(cause) = self.alone_refused(worker, part) {
            return Err(NotEntered::Refuses(cause));
        }
        self.stands();
        let (instr, number) = self.next_line(part);
        match instr {
            Instr::Par(_, _) => Ok(Lent::Leaves(Leaving::Forks)),
            Instr::Ret if part.task == 0 => Ok(Lent::Leaves(Leaving::Finishes)),
            Instr::Ret => Ok(Lent::Leaves(Leaving::Ends)),
            _ => self.ran_on(worker, part, &instr, number),
        }
    }
}
