// The steps of one entry.

ghost use Rattle.std.specs.Prelude.{◌≡◌, ◌≤◌, ◌<◌, ◌+◌, ◌-◌, ◌||◌, ◌&&◌, not, if◌then◌else◌, false, IfOk};
ghost use Rattle.hh_model.specs.Calculations.{calculates};
ghost use Rattle.run_ledger.specs.Steps.{task_step, task_steps, is_due, is_in_need, most_steps, standing};
ghost use Rattle.run_ledger.specs.Heaps.{in_use};
ghost use Rattle.next_steps.specs.Own.{is_own};
ghost use Rattle.run_accounts.specs.Accounts.{Steady, StaysSteady, stood, after_stood, used_after, went_on};
ghost use Rattle.run_accounts.specs.declared.ran.Stood.TheVariants.{More, Last};

use crate::accounts::Accounts;
use next_steps::next_step;
use std::alloc::AllocError;

/// Whether the next step of a task fits in an entry, and whether a further one fits after it.
#[derive(Clone, Copy)]
pub(crate) enum Stood {
    /// It doesn't: it is due or in need.
    Not,
    /// It fits, and none fits after it.
    Last,
    /// It fits, and a further one does.
    More,
}

// How a taken step fitted: by whether it was the task's own, and whether the machine ended with it.
fn stood_by(own: bool, ended: bool) -> Stood
    ensures { result ≡ (if own && not ended then More else Last) }
{
    if own && !ended {
        Stood::More
    } else {
        Stood::Last
    }
}

impl<'p> Accounts<'p> {
    // The next calculations of a task, at most `most`: they fit, and a further step fits after each.
    fn calculate(&mut self, t: u32, most: u32) -> u32
        requires few { most ≤ most_steps }
        requires steady { StaysSteady self.old.settings self.old.program self.old.ledger t most }
        requires used { self.old.used ≡ in_use self.old.ledger }
        ensures most { result ≤ most }
        ensures standing { standing self.old.settings self.old.program self.old.ledger t most ≡ result + standing self.old.settings self.old.program (task_steps self.old.program self.old.ledger t result) t (most - result) }
        ensures all { result < most → calculates self.old.program self.new.ledger.machine t ≡ false }
        ensures after { self.new ≡ went_on self.old (task_steps self.old.program self.old.ledger t result) }
    {
        let count = self.machine.calculate(t, most);
        self.steps += count as u64;
        count
    }

    // One step of the entry, if it fits.
    fn stand(&mut self, t: u32) -> Result<Stood, AllocError>
        requires before { Steady self.old.ledger }
        requires after { (is_due self.old.settings self.old.program self.old.ledger t || is_in_need self.old.program self.old.ledger t) ≡ false → Steady (task_step self.old.program self.old.ledger t) }
        requires used { self.old.used ≡ in_use self.old.ledger }
        requires next { (is_due self.old.settings self.old.program self.old.ledger t || is_in_need self.old.program self.old.ledger t) ≡ false → used_after self.old.program self.old.ledger t ≡ in_use (task_step self.old.program self.old.ledger t) }
        ensures stood { IfOk result (λ how. how ≡ stood self.old.settings self.old.program self.old.ledger t) }
        ensures after { IfOk result (λ how. self.new ≡ went_on self.old (after_stood self.old.program self.old.ledger t how)) }
    {
        let ahead = next_step(self.program, self.machine.state(), t);
        if self.is_due_by(t, ahead.words) || self.is_in_need_by(t, ahead.words) {
            return Ok(Stood::Not);
        }
        self.step(t, ahead.words)?;
        let ended = self.machine.end().is_some();
        Ok(stood_by(ahead.own, ended))
    }

    /// Takes the first of `steps` steps of a task, as many as fit in one entry, and returns how many.
    pub(crate) fn ran(&mut self, t: u32, steps: u32) -> Result<u32, AllocError>
        requires few { steps ≤ most_steps }
        requires steady { StaysSteady self.old.settings self.old.program self.old.ledger t steps }
        requires used { self.old.used ≡ in_use self.old.ledger }
        ensures standing { IfOk result (λ count. count ≡ standing self.old.settings self.old.program self.old.ledger t steps) }
        ensures most { IfOk result (λ count. count ≤ steps) }
        ensures after { IfOk result (λ count. self.new ≡ went_on self.old (task_steps self.old.program self.old.ledger t count)) }
    {
        let mut done = self.calculate(t, steps);
        while done < steps {
            match self.stand(t)? {
                Stood::Not => return Ok(done),
                Stood::Last => return Ok(done + 1),
                Stood::More => {}
            }
            done += 1;
            done += self.calculate(t, steps - done);
        }
        Ok(steps)
    }
}
