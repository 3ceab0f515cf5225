// What a run leaves, and its journal.

ghost use Rattle.std.specs.Prelude.{◌≡◌};
ghost use Rattle.entry_calls.specs.below.core_invariant.{without_journal};

use crate::shared::Shared;
use entry_calls::{Entry, Heaps, Listed, Program, RunEnd, Settings, Tree};
use std::marker::Model;

/// What a run leaves beside its journal: the slots of tasks, and the totals. No entry can be made any more.
#[derive(Drop)]
pub struct Remains {
    program: Program,
    settings: Settings,
    tree: Tree,
    heaps: Heaps,
    tasks_out: Listed<Option<u32>>,
    outputs: Listed<i64>,
    steps: u64,
    end: Option<RunEnd>,
    halted: bool,
}

impl Model for Remains {
    ghost use Rattle.std.specs.Prelude.{[]};
    ghost use Rattle.entry_calls.specs.below.core_invariant.{SharedValue};

    ghost Value = { SharedValue };

    ghost view = { λ s. record { program = s.program; settings = s.settings; tree = s.tree; pool = s.heaps.pool; rests = s.heaps.task_slots.rests; sets = s.heaps.task_slots.sets; marks = s.heaps.task_slots.marks; tasks_out = s.tasks_out; outputs = s.outputs; journal = record { items = []; room = 0 }; steps = s.steps; end = s.end; halted = s.halted } };
}

impl Remains {
    /// What was printed.
    pub fn outputs(&self) -> &[i64]
        ensures { result.now ≡ self.now.outputs }
    {
        self.outputs.as_slice()
    }

    /// The steps taken.
    pub fn steps(&self) -> u64
        ensures { result ≡ self.now.steps }
    {
        self.steps
    }

    /// How the run has ended, if it has.
    pub fn ended(&self) -> Option<RunEnd>
        ensures { result ≡ self.now.end }
    {
        self.end
    }

    /// Whether an allocation of some worker has failed.
    pub fn halted(&self) -> bool
        ensures { result ≡ self.now.halted }
    {
        self.halted
    }
}

impl Shared {
    /// Takes the journal out: no entry can be made after it.
    pub fn take_journal(self) -> (Listed<Entry>, Remains)
        ensures journal { result.0 ≡ self.journal.items }
        ensures rest { result.1 ≡ without_journal self }
    {
        let Shared {
            program,
            settings,
            tree,
            heaps,
            tasks_out,
            outputs,
            journal,
            steps,
            end,
            halted,
            room,
        } = self;
        drop(room);
        let remains = Remains {
            program,
            settings,
            tree,
            heaps,
            tasks_out,
            outputs,
            steps,
            end,
            halted,
        };
        (journal.into_listed(), remains)
    }
}
