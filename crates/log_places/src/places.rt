// Which locations are accessed, in stretches.

use crate::numbers::{NumberError, Numbers};
use crate::page::{PAGE_SIZE, Page, PageKey};
use crate::region::Region;
use crate::stretch::Stretch;
use indexmap::IndexSet;
use std::alloc::{AllocError, Global};
use std::marker::Model;

/// The stretches of all locations that are accessed. Each access touches a stretch whole or not at all.
#[derive(Drop)]
pub struct Places {
    alloc: Global,
    known: IndexSet<PageKey>,
    pages: Vec<Page>,
    spare: Vec<Stretch>,
}

impl Model for Places {
    ghost use Rattle.std.specs.Prelude.{◌≡◌, length};
    ghost use Rattle.log_places.specs.Places.{PlacesValue};
    ghost use Rattle.log_places.specs.Blocks.{PagesAreInRange};

    ghost Value = { PlacesValue };

    ghost view = { λ p. record { keys = p.known.keys; pages = p.pages.items } };

    ghost invariant = { λ p. (length p.known.keys ≡ length p.pages.items) × PagesAreInRange p.known.keys };
}

impl Places {
    ghost use Rattle.std.specs.Prelude.{◌≡◌, ◌+◌, ◌-◌, ◌*◌, ◌^◌, ◌<◌, ◌≤◌, ℕ, List, [], ◌∷◌, ◌++◌, min, false, IfOk, OnOk, OnErr, Err};
    ghost use Rattle.log_places.specs.declared.page.PageKey.{PageKey};
    ghost use Rattle.log_places.specs.Stretches.{marked, Ascending, AreCut};
    ghost use Rattle.log_places.specs.declared.region.Region.{Region};
    ghost use Rattle.log_places.specs.Numbers.{stretch_count};
    ghost use Rattle.log_places.specs.Counting.{AreDifferent, AreMarked, HaveStretches};
    ghost use Rattle.log_places.specs.Places.{at, page_key, same_page, IsFirstPage, IsRegion, IsRegionCut, IsRunCut, KeepsCuts};
    ghost use Rattle.log_places.specs.Runs.{first_on, end_on, IsRunMarked};

    /// No location is accessed yet.
    pub fn new(alloc: Global) -> Places
        ensures value { result ≡ record { keys = []; pages = [] } }
        ensures marked { AreMarked [] result }
    {
        Places {
            alloc,
            known: IndexSet::new(alloc),
            pages: Vec::new(alloc),
            spare: Vec::new(alloc),
        }
    }

    // The number of a page, which is made if it isn't there.
    fn page(&mut self, key: PageKey) -> Result<usize, AllocError>
        requires { key.page * 4096 ≤ 2 ^ 60 }
        ensures ok { IfOk result (λ i. IsFirstPage self.new.keys key i) }
        ensures kept { (k : PageKey) → at self.new k ≡ at self.old k }
        ensures different { OnOk result (AreDifferent self.old.keys → AreDifferent self.new.keys) }
    {
        self.pages.reserve(1)?;
        let (i, is_new) = self.known.insert_full(key)?;
        if is_new {
            self.pages.push_reserved(Page::new(self.alloc));
        }
        Ok(i)
    }

    // Marks locations of a page.
    fn mark_page(&mut self, key: PageKey, start: u16, end: u16) -> Result<(), AllocError>
        requires near { key.page * 4096 ≤ 2 ^ 60 }
        requires some { start < end }
        ensures ok { OnOk result (at self.new key ≡ marked start end (at self.old key)) }
        ensures err { OnErr result (at self.new key ≡ at self.old key) }
        ensures others { (k : PageKey) → same_page k key ≡ false → at self.new k ≡ at self.old k }
        ensures order { OnOk result (Ascending 0 (at self.old key)) }
        ensures different { OnOk result (AreDifferent self.old.keys → AreDifferent self.new.keys) }
    {
        let i = self.page(key)?;
        self.pages[i].mark(&mut self.spare, start, end)
    }

    // Marks those locations of a block from `start` up to `end` that lie in a page.
    fn mark_part(&mut self, block: u64, page: u64, start: u64, end: u64) -> Result<(), AllocError>
        requires within { end ≤ 2 ^ 60 }
        requires some { start < end }
        requires not_before { page * 4096 < end }
        requires not_behind { start < page * 4096 + 4096 }
        ensures keeps { KeepsCuts self.old self.new }
        ensures cut { OnOk result (AreCut (at self.new (page_key block page)) (start - page * 4096) (min 4096 (end - page * 4096))) }
        ensures page { OnOk result (at self.new (page_key block page) ≡ marked (first_on start page) (end_on end page) (at self.old (page_key block page))) }
        ensures others { (k : PageKey) → same_page k (page_key block page) ≡ false → at self.new k ≡ at self.old k }
        ensures different { OnOk result (AreDifferent self.old.keys → AreDifferent self.new.keys) }
    {
        let base = page * PAGE_SIZE;
        let first = if base < start { start - base } else { 0 };
        let last = (end - base).min(PAGE_SIZE);
        self.mark_page(PageKey { block, page }, first as u16, last as u16)
    }

    // Marks the locations of a block from `start` up to `end`.
    fn mark_run(&mut self, block: u64, start: u64, end: u64) -> Result<(), AllocError>
        requires within { end ≤ 2 ^ 60 }
        requires some { start < end }
        ensures keeps { KeepsCuts self.old self.new }
        ensures cut { OnOk result (IsRunCut self.new block start end) }
        ensures run { OnOk result (IsRunMarked self.old self.new block start end) }
        ensures different { OnOk result (AreDifferent self.old.keys → AreDifferent self.new.keys) }
    {
        for page in start / PAGE_SIZE..(end - 1) / PAGE_SIZE + 1 {
            self.mark_part(block, page, start, end)?;
        }
        Ok(())
    }

    /// Marks the locations of a region: each stretch has all of them or none from then on, and stretches are cut nowhere
    /// else. What was marked before stays marked, also on an `Err`; a part of the region may then be marked.
    pub fn mark(&mut self, region: Region) -> Result<(), AllocError>
        requires { IsRegion region }
        ensures keeps { KeepsCuts self.old self.new }
        ensures cut { OnOk result (IsRegionCut self.new region) }
        ensures marked { OnOk result ((past : List Region) → AreMarked past self.old → AreMarked (past ++ region ∷ []) self.new) }
    {
        for run in 0..region.runs {
            let start = region.run_start(run);
            self.mark_run(region.block, start, start + region.length)?;
        }
        Ok(())
    }

    /// Numbers all stretches, of which there may be so many at most.
    pub fn number(self, limit: usize) -> Result<Numbers, NumberError>
        ensures value { IfOk result (λ n. n ≡ self) }
        ensures within { OnOk result (stretch_count self ≤ limit) }
        ensures over { result ≡ Err NumberError.OverLimit → limit < stretch_count self }
        ensures count { (regions : List Region) → AreMarked regions self → HaveStretches regions (stretch_count self) }
    {
        let Places {
            alloc,
            known,
            pages,
            spare,
        } = self;
        drop(spare);
        Numbers::new(alloc, known, pages, limit)
    }
}
