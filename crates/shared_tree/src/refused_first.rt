// The program, and why an entry is refused whatever its kind.

ghost use Rattle.std.specs.Prelude.{◌≡◌, false};
ghost use Rattle.entry_calls.specs.below.core_invariant.{first_cause};

use crate::shared::Shared;
use entry_calls::{Program, Refused, first_cause};

impl Shared {
    /// The program that is run.
    pub fn program(&self) -> &Program
        ensures { result.now ≡ self.now.program }
    {
        &self.program
    }

    /// Why a worker may make no entry except the end without fuel: the run has ended, its fuel is used up, or there is
    /// no such worker.
    pub fn refused_first(&self, worker: u32) -> Option<Refused>
        ensures { result ≡ first_cause self.now.end self.now.steps self.now.settings worker false }
    {
        first_cause(self.end, self.steps, self.settings, worker, false)
    }
}
