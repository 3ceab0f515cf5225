// The calls that make entries: each makes one and counts it.

use crate::counted::Counted;
use crate::counting::JournalCounts;
use crate::held_words::words_held;
use heap_reading::{Addr, Moved, Private, Program, Refused, Settings, ToChunks};
use legal_calls::LegalCalls;
use shared_tree::{
    BlockSource, Leaving, Lent, NotEnded, NotEntered, NotLeft, PartBlock, PartInBlock, Ran, Shared,
};
use std::alloc::{AllocError, Global};

impl LegalCalls for Counted {
    ghost value = { λ c. c };

    fn new(alloc: Global, program: &Program, settings: Settings) -> Result<Counted, AllocError> {
        let shared = Shared::new(alloc, program, settings)?;
        let counts = JournalCounts::none(alloc, settings.workers())?;
        Ok(Counted { shared, counts })
    }

    fn reserve(&mut self) -> Result<(), AllocError> {
        self.shared.reserve()
    }

    fn took(&mut self, worker: u32, t: u32, block: PartBlock) -> Result<PartInBlock, Refused> {
        self.shared.stands();
        let part = self.shared.took(worker, t, block)?;
        self.counts.count(&self.shared, 0);
        Ok(part)
    }

    fn ran_private(&mut self, worker: u32, part: &mut Private) -> Result<(), Refused> {
        self.shared.stands();
        self.shared.ran_private(worker, part)?;
        self.counts.count(&self.shared, 0);
        Ok(())
    }

    fn ran_lent(&mut self, worker: u32, part: &mut Private) -> Result<Lent, NotEntered> {
        self.shared.stands();
        let lent = self.shared.ran_lent(worker, part)?;
        match lent {
            Lent::Leaves(_) => Ok(lent),
            _ => {
                self.counts.count(&self.shared, 0);
                Ok(lent)
            }
        }
    }

    fn ran_leaving(
        &mut self,
        blocks: &mut BlockSource,
        worker: u32,
        part: PartInBlock,
        leaving: Leaving,
    ) -> Result<Ran, NotLeft> {
        self.shared.stands();
        let ran = self.shared.ran_leaving(blocks, worker, part, leaving)?;
        self.counts.count(&self.shared, 0);
        Ok(ran)
    }

    fn fuel(&mut self, worker: u32) -> Result<(), Refused> {
        self.shared.stands();
        self.shared.fuel(worker)?;
        self.counts.count(&self.shared, 0);
        Ok(())
    }

    fn chunk(&mut self, worker: u32, part: &mut Private) -> Result<(), NotEntered> {
        self.shared.stands();
        self.shared.chunk(worker, part)?;
        self.counts.count(&self.shared, 0);
        Ok(())
    }

    fn leaf_begin(
        &mut self,
        worker: u32,
        part: &mut Private,
    ) -> Result<(Vec<Addr>, ToChunks), NotEntered> {
        self.shared.stands();
        let words = part.heap.words();
        let begun = self.shared.leaf_begin(worker, part)?;
        self.counts.count(&self.shared, words);
        Ok(begun)
    }

    fn leaf_end(&mut self, worker: u32, part: &mut Private, moved: Moved) -> Result<(), NotEnded> {
        self.shared.stands();
        self.shared.leaf_end(worker, part, moved)?;
        self.counts.count(&self.shared, 0);
        Ok(())
    }

    fn put_off(&mut self, worker: u32, part: &mut Private) -> Result<(), Refused> {
        self.shared.stands();
        self.shared.put_off(worker, part)?;
        self.counts.count(&self.shared, 0);
        Ok(())
    }

    fn mark(&mut self, worker: u32, t: u32) -> Result<(), NotEntered> {
        self.shared.stands();
        self.shared.mark(worker, t)?;
        self.counts.count(&self.shared, 0);
        Ok(())
    }

    fn mark_objects(&mut self, worker: u32, t: u32, n: u32) -> Result<u32, Refused> {
        self.shared.stands();
        let count = self.shared.mark_objects(worker, t, n)?;
        self.counts.count(&self.shared, 0);
        Ok(count)
    }

    fn sweep(&mut self, worker: u32, t: u32, given: u32) -> Result<(), Refused> {
        self.shared.stands();
        let words = words_held(&self.shared, t);
        self.shared.sweep(worker, t, given)?;
        self.counts.count(&self.shared, words);
        Ok(())
    }

    fn program(&self) -> &Program {
        self.shared.program()
    }

    fn refused_first(&self, worker: u32) -> Option<Refused> {
        self.shared.refused_first(worker)
    }

    fn may_run(&self, worker: u32, part: &Private) {
        self.shared.may_run(worker, part);
    }

    fn stands(&self) {
        self.shared.stands();
    }
}
