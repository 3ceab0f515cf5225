// A part gets a chunk.

ghost use Rattle.std.specs.Prelude.{◌≡◌, ◌<◌, OnErr, OnOk, None};
ghost use Rattle.entry_calls.specs.below.core_invariant.{refused, Enters, IsSamePart, WorkerPartFits, OthersFit};
ghost use Rattle.entry_calls.specs.Calls.{GetsChunk};

use crate::shared::Shared;
use entry_calls::{
    Entry, Kind, NotEntered, NotTaken, Private, Refused, RunEnd, cause_by, first_cause, units_for,
    words_asked,
};
use std::alloc::AllocError;

impl Shared {
    // Why the entry is refused.
    fn chunk_refused(&self, worker: u32, part: &Private) -> Option<Refused>
        requires fits { WorkerPartFits self.now worker part.now }
        requires fresh { part.now.fresh ≡ 0 }
        ensures { result ≡ refused self.now (record { worker = worker; kind = Kind.Chunk part.now.task }) }
    {
        let first = first_cause(self.end, self.steps, self.settings, worker, false);
        if first.is_some() {
            return first;
        }
        cause_by(part, words_asked(part, &self.program))
    }

    // Makes the entry.
    fn give_chunk(&mut self, worker: u32, part: &mut Private) -> Result<(), AllocError>
        requires room { 0 < self.old.journal.room }
        requires fits { WorkerPartFits self.old worker part.old }
        requires fresh { part.old.fresh ≡ 0 }
        requires free { refused self.old (record { worker = worker; kind = Kind.Chunk part.old.task }) ≡ None }
        ensures same { OnErr result (self.new ≡ self.old) }
        ensures back { OnErr result (IsSamePart part.old part.new) }
        ensures rest { part.new ≡ record part.old { heap = part.new.heap } }
        ensures enters { OnOk result (Enters self.old self.new (record { worker = worker; kind = Kind.Chunk part.old.task })) }
        ensures fits { WorkerPartFits self.new worker part.new }
        ensures others { OnOk result (OthersFit self.old self.new worker) }
    {
        let task = part.task;
        let units = units_for(words_asked(part, &self.program));
        part.heap.make_room(1)?;
        match self.heaps.pool.take(task, units) {
            Ok(chunk) => {
                part.heap.add_spare(chunk);
                self.journal
                    .push_reserved(Entry::new(worker, Kind::Chunk(task)));
                Ok(())
            }
            Err(NotTaken::Full) => {
                self.end = Some(RunEnd::Pool(self.heaps.pool.in_use()));
                self.journal
                    .push_reserved(Entry::new(worker, Kind::Chunk(task)));
                Ok(())
            }
            Err(NotTaken::NoMemory) => Err(AllocError),
        }
    }

    /// A part gets the chunk that its next step needs. If too few units are free the run ends.
    pub fn chunk(&mut self, worker: u32, part: &mut Private) -> Result<(), NotEntered>
        requires room { 0 < self.old.journal.room }
        requires fits { WorkerPartFits self.old worker part.old }
        requires fresh { part.old.fresh ≡ 0 }
        ensures { GetsChunk self.old self.new worker part.old part.new result }
    {
        if let Some(cause) = self.chunk_refused(worker, part) {
            return Err(NotEntered::Refuses(cause));
        }
        self.give_chunk(worker, part)?;
        Ok(())
    }
}
