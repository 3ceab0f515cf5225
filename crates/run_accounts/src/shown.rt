// What accounts show to their owners.

ghost use Rattle.std.specs.Prelude.{◌≡◌};

use crate::accounts::Accounts;
use hh_model::MachineState;
use plain_vec::Listed;
use run_ledger::{Heap, RunEnd};
use run_trace::Settings;
use std::alloc::Global;

impl<'p> Accounts<'p> {
    /// Their allocator.
    pub fn allocator(&self) -> Global {
        self.alloc
    }

    /// The settings of the run.
    pub fn settings(&self) -> Settings
        ensures { result ≡ self.now.settings }
    {
        self.settings
    }

    /// How the run ended, if it has.
    pub fn end(&self) -> Option<RunEnd>
        ensures { result ≡ self.now.ledger.end }
    {
        self.end
    }

    /// The steps taken.
    pub fn steps(&self) -> u64
        ensures { result ≡ self.now.ledger.steps }
    {
        self.steps
    }

    /// What the steps have printed, the oldest first.
    pub fn outputs(&self) -> &[i64]
        ensures { result.now ≡ self.now.ledger.machine.outputs }
    {
        self.machine.outputs()
    }

    /// The heaps by task.
    pub fn heaps(&self) -> &Listed<Heap>
        ensures { result.now ≡ self.now.ledger.heaps }
    {
        &self.heaps
    }

    /// The machine that never collects, after the steps so far.
    pub fn state(&self) -> &MachineState
        ensures { result.now ≡ self.now.ledger.machine }
    {
        self.machine.state()
    }
}
