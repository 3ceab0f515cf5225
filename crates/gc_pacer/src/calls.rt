// The calls that make entries: each gives what its worker owes, and is recorded.

ghost use Rattle.std.specs.Prelude.{◌≡◌};
ghost use Rattle.run_statistics.specs.below.core_invariant.{refused, IsCaused};

use crate::noting::{idle_paces, note_mark, note_other, note_ran, reserve_mark};
use crate::owing::owed;
use crate::paced::{Paced, Pacer};
use run_statistics::{
    Addr, BlockSource, Counted, EntryCalls, Kind, Leaving, LegalCalls, Lent, Moved, NotEnded,
    NotEntered, NotLeft, Owed, PartBlock, PartInBlock, Private, Program, Ran, Refused, RunEnd,
    Settings, Shared, ToChunks,
};
use std::alloc::{AllocError, Global};

// Why the entry that begins a marking isn't made, if there is no memory to record it.
fn no_place(shared: &Shared, worker: u32, t: u32) -> NotEntered
    ensures { IsCaused result (refused shared.now (record { worker = worker; kind = Kind.Mark t })) }
{
    match shared.mark_refused(worker, t) {
        Some(cause) => NotEntered::Refuses(cause),
        None => NotEntered::NoMemory,
    }
}

// The left child that a step has made, or 0.
fn left_in(ran: &Ran) -> u32 {
    match ran {
        Ran::Forked { left, .. } => *left,
        _ => 0,
    }
}

impl EntryCalls for Paced {
    ghost value = { λ p. p };

    fn new(alloc: Global, program: &Program, settings: Settings) -> Result<Paced, AllocError> {
        let counted = Counted::new(alloc, program, settings)?;
        let paces = idle_paces(alloc, settings.workers())?;
        let pacer = Pacer { counted, paces }.boxed(alloc)?;
        Ok(Paced { pacer })
    }

    fn reserve(&mut self) -> Result<(), AllocError> {
        self.pacer.get_mut().counted.reserve()
    }

    fn halt(&mut self) {
        self.pacer.get_mut().counted.halt();
    }

    fn took(&mut self, worker: u32, t: u32, block: PartBlock) -> Result<PartInBlock, Refused> {
        let pacer = self.pacer.get_mut();
        pacer.counted.stands();
        let part = pacer.counted.took(worker, t, block)?;
        note_other(&mut pacer.paces, worker);
        Ok(part)
    }

    fn ran_private(&mut self, worker: u32, part: &mut Private) -> Result<(), Refused> {
        let pacer = self.pacer.get_mut();
        pacer.counted.stands();
        let task = part.task;
        pacer.counted.ran_private(worker, part)?;
        note_ran(pacer.counted.shared(), &mut pacer.paces, worker, task, 0);
        Ok(())
    }

    fn ran_lent(&mut self, worker: u32, part: &mut Private) -> Result<Lent, NotEntered> {
        let pacer = self.pacer.get_mut();
        pacer.counted.stands();
        let task = part.task;
        let lent = pacer.counted.ran_lent(worker, part)?;
        match lent {
            Lent::Leaves(_) => return Ok(lent),
            _ => note_ran(pacer.counted.shared(), &mut pacer.paces, worker, task, 0),
        }
        Ok(lent)
    }

    fn ran_leaving(
        &mut self,
        blocks: &mut BlockSource,
        worker: u32,
        part: PartInBlock,
        leaving: Leaving,
    ) -> Result<Ran, NotLeft> {
        let pacer = self.pacer.get_mut();
        pacer.counted.stands();
        let task = part.task();
        let ran = pacer.counted.ran_leaving(blocks, worker, part, leaving)?;
        let left = left_in(&ran);
        note_ran(pacer.counted.shared(), &mut pacer.paces, worker, task, left);
        Ok(ran)
    }

    fn fuel(&mut self, worker: u32) -> Result<(), Refused> {
        let pacer = self.pacer.get_mut();
        pacer.counted.stands();
        pacer.counted.fuel(worker)
    }

    fn chunk(&mut self, worker: u32, part: &mut Private) -> Result<(), NotEntered> {
        let pacer = self.pacer.get_mut();
        pacer.counted.stands();
        pacer.counted.chunk(worker, part)?;
        note_other(&mut pacer.paces, worker);
        Ok(())
    }

    fn leaf_begin(
        &mut self,
        worker: u32,
        part: &mut Private,
    ) -> Result<(Vec<Addr>, ToChunks), NotEntered> {
        let pacer = self.pacer.get_mut();
        pacer.counted.stands();
        let begun = pacer.counted.leaf_begin(worker, part)?;
        note_other(&mut pacer.paces, worker);
        Ok(begun)
    }

    fn leaf_end(&mut self, worker: u32, part: &mut Private, moved: Moved) -> Result<(), NotEnded> {
        let pacer = self.pacer.get_mut();
        pacer.counted.stands();
        pacer.counted.leaf_end(worker, part, moved)?;
        note_other(&mut pacer.paces, worker);
        Ok(())
    }

    fn put_off(&mut self, worker: u32, part: &mut Private) -> Result<(), Refused> {
        let pacer = self.pacer.get_mut();
        pacer.counted.stands();
        pacer.counted.put_off(worker, part)?;
        note_other(&mut pacer.paces, worker);
        Ok(())
    }

    fn mark(&mut self, worker: u32, t: u32) -> Result<(), NotEntered> {
        let pacer = self.pacer.get_mut();
        pacer.counted.stands();
        if reserve_mark(&mut pacer.paces, worker).is_err() {
            return Err(no_place(pacer.counted.shared(), worker, t));
        }
        pacer.counted.mark(worker, t)?;
        note_mark(pacer.counted.shared(), &mut pacer.paces, worker, t);
        Ok(())
    }

    fn mark_objects(&mut self, worker: u32, t: u32, n: u32) -> Result<u32, Refused> {
        let pacer = self.pacer.get_mut();
        pacer.counted.stands();
        let count = pacer.counted.mark_objects(worker, t, n)?;
        note_other(&mut pacer.paces, worker);
        Ok(count)
    }

    fn sweep(&mut self, worker: u32, t: u32, given: u32) -> Result<(), Refused> {
        let pacer = self.pacer.get_mut();
        pacer.counted.stands();
        pacer.counted.sweep(worker, t, given)?;
        note_other(&mut pacer.paces, worker);
        Ok(())
    }

    fn owed(&self, worker: u32) -> Owed {
        owed(self.shared(), self.pacer.get().paces.at(worker as usize))
    }

    fn refused_first(&self, worker: u32) -> Option<Refused> {
        self.shared().refused_first(worker)
    }

    fn pool_enough(&self, part: &Private) -> bool {
        self.shared().pool_enough(part)
    }

    fn would_give(&self, t: u32) -> u32 {
        self.shared().would_give(t)
    }

    fn ended(&self) -> Option<RunEnd> {
        self.shared().ended()
    }

    fn has_ended(&self) -> bool {
        self.shared().has_ended()
    }

    fn halted(&self) -> bool {
        self.shared().halted()
    }

    fn entries(&self) -> u64 {
        self.shared().journal().len() as u64
    }

    fn stands(&self) {
        self.pacer.get().counted.stands();
    }
}
