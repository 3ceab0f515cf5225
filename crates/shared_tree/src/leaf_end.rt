// The leaf collection of a part ends.

ghost use Rattle.std.specs.Prelude.{◌≡◌, ◌<◌, None};
ghost use Rattle.entry_calls.specs.below.core_invariant.{refused, Enters, WorkerPartFits, OthersFit};
ghost use Rattle.entry_calls.specs.below.leaf_collections.{end_entry, without_collection, FitsCopied};
ghost use Rattle.entry_calls.specs.Calls.{EndsLeaf};

use crate::shared::Shared;
use entry_calls::{Entry, Kind, Moved, NotEnded, Private, Refused, first_cause, give_all, lead};

impl Shared {
    // Makes the entry.
    fn enter_leaf_end(&mut self, worker: u32, part: &mut Private, moved: Moved)
        requires room { 0 < self.old.journal.room }
        requires fits { FitsCopied self.old worker part.old moved }
        requires free { refused self.old (end_entry worker part.old moved) ≡ None }
        ensures part { part.new ≡ without_collection part.old }
        ensures enters { Enters self.old self.new (end_entry worker part.old moved) }
        ensures fits { WorkerPartFits self.new worker part.new }
        ensures others { OthersFit self.old self.new worker }
    {
        let task = part.task;
        let Moved {
            moved,
            taken,
            given,
            left,
            back,
        } = moved;
        lead(&mut self.heaps, task, &moved);
        give_all(&mut self.heaps.pool, back);
        part.begun = None;
        self.journal
            .push_reserved(Entry::new(worker, Kind::End(task, taken, given, left)));
    }

    /// The leaf collection of a part ends, after its heap was copied: fields that still hold old addresses are updated,
    /// and the chunks that aren't needed are released. It doesn't allocate.
    pub fn leaf_end(
        &mut self,
        worker: u32,
        part: &mut Private,
        moved: Moved,
    ) -> Result<(), NotEnded>
        requires room { 0 < self.old.journal.room }
        requires fits { FitsCopied self.old worker part.old moved }
        ensures { EndsLeaf self.old self.new worker part.old part.new moved result }
    {
        match first_cause(self.end, self.steps, self.settings, worker, false) {
            Some(cause) => Err(NotEnded { cause, moved }),
            None => {
                self.enter_leaf_end(worker, part, moved);
                Ok(())
            }
        }
    }
}
