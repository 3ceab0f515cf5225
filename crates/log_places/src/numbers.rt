// The numbers of stretches.

ghost use Rattle.std.specs.Prelude.{◌≡◌, ◌+◌, ◌^◌, ◌<◌, ◌≤◌, ◌++◌, ◌∷◌, [], length, sum_by, IfOk, OnOk, Err};
ghost use Rattle.log_places.specs.Numbers.{firsts_from};
ghost use Rattle.log_places.specs.Blocks.{slots_of_page};

use crate::links::{PageLinks, key_at, links_of};
use crate::page::{PAGE_SIZE, Page, PageKey};
use crate::stretch::{Stretch, stretch_with};
use indexmap::IndexSet;
use std::alloc::{AllocError, Global};
use std::marker::Model;

/// The stretch of a location: the number of its cell, and where in the block it begins and ends.
#[derive(Clone, Copy)]
pub struct LocationSlot {
    pub number: usize,
    pub start: u64,
    /// The first location behind it.
    pub end: u64,
}

/// Why stretches have no numbers.
#[derive(Clone, Copy)]
pub enum NumberError {
    /// There are more than the limit.
    OverLimit,
    NoMemory,
}

impl From<AllocError> for NumberError {
    ghost use Rattle.std.specs.Prelude.{◌≡◌};
    ghost use Rattle.log_places.specs.declared.numbers.NumberError.TheVariants.{NoMemory};

    ghost from_gives = { λ _ e. e ≡ NoMemory };

    fn from(_error: AllocError) -> NumberError {
        NumberError::NoMemory
    }
}

// So many locations behind another one.
fn behind(base: u64, count: u16) -> u64
    requires { base ≤ 2 ^ 60 }
    ensures { result ≡ base + count }
{
    base + u64::from(count)
}

// A sum that is below a number, so that it fits.
fn sum_below(first: usize, place: usize, count: usize) -> usize
    requires { first + place < count }
    ensures { result ≡ first + place }
{
    first + place
}

// Adds a number.
fn push(numbers: &mut Vec<usize>, number: usize) -> Result<(), AllocError>
    ensures { OnOk result (numbers.new.items ≡ numbers.old.items ++ number ∷ []) }
{
    numbers.push(number)?;
    Ok(())
}

// The number of each page's first stretch, and how many stretches there are.
fn firsts_of(
    alloc: Global,
    pages: &Vec<Page>,
    limit: usize,
) -> Result<(Vec<usize>, usize), NumberError>
    ensures firsts { IfOk result (λ r. r.0.items ≡ firsts_from 0 pages.now.items) }
    ensures count { IfOk result (λ r. r.1 ≡ sum_by length pages.now.items) }
    ensures within { OnOk result (sum_by length pages.now.items ≤ limit) }
    ensures over { result ≡ Err NumberError.OverLimit → limit < sum_by length pages.now.items }
{
    let mut firsts = Vec::new(alloc);
    firsts.reserve_exact(pages.len())?;
    let mut next = 0;
    for page in pages {
        let count = page.stretches().len();
        if limit - next < count {
            return Err(NumberError::OverLimit);
        }
        push(&mut firsts, next)?;
        next += count;
    }
    Ok((firsts, next))
}

// Adds a slot.
fn push_slot(slots: &mut Vec<LocationSlot>, slot: LocationSlot) -> Result<(), AllocError>
    ensures { OnOk result (slots.new.items ≡ slots.old.items ++ slot ∷ []) }
{
    slots.push(slot)?;
    Ok(())
}

// Adds the slots of a page's stretches, where the page begins at `base` and the first stretch has a number.
fn add_slots(
    stretches: &[Stretch],
    base: u64,
    first: usize,
    count: usize,
    slots: &mut Vec<LocationSlot>,
) -> Result<(), AllocError>
    requires near { base ≤ 2 ^ 60 }
    requires counted { first + length stretches.now ≤ count }
    ensures { OnOk result (slots.new.items ≡ slots.old.items ++ slots_of_page base first stretches.now) }
{
    let mut number = first;
    for stretch in stretches {
        let slot = LocationSlot {
            number,
            start: behind(base, stretch.start),
            end: behind(base, stretch.end),
        };
        push_slot(slots, slot)?;
        number += 1;
    }
    Ok(())
}

/// The stretches of all locations that are accessed, each with a number.
#[derive(Drop)]
pub struct Numbers {
    known: IndexSet<PageKey>,
    pages: Vec<Page>,
    firsts: Vec<usize>,
    count: usize,
    links: PageLinks,
}

impl Model for Numbers {
    ghost use Rattle.std.specs.Prelude.{◌≡◌, length, sum_by};
    ghost use Rattle.log_places.specs.Places.{PlacesValue};
    ghost use Rattle.log_places.specs.Numbers.{firsts_from};
    ghost use Rattle.log_places.specs.Blocks.{ArePageLinks, PagesAreInRange};

    ghost Value = { PlacesValue };

    ghost view = { λ n. record { keys = n.known.keys; pages = n.pages.items } };

    ghost invariant = { λ n. (length n.known.keys ≡ length n.pages.items) × (n.firsts.items ≡ firsts_from 0 n.pages.items)
        × (n.count ≡ sum_by length n.pages.items) × ArePageLinks n.known.keys n.links × PagesAreInRange n.known.keys };
}

impl Numbers {
    ghost use Rattle.std.specs.Prelude.{◌≡◌, ◌<◌, ◌≤◌, ◌^◌, ◌+◌, [], length, drop, slice_get, List, Some, IfOk, OnOk, IfSome, IfNone, Err};
    ghost use Rattle.plain_vec.specs.Members.{In};
    ghost use Rattle.log_places.specs.declared.page.PageKey.{PageKey};
    ghost use Rattle.log_places.specs.declared.stretch.Stretch.{Stretch};
    ghost use Rattle.log_places.specs.Stretches.{Has};
    ghost use Rattle.log_places.specs.Places.{at, IsFirstPage, IsIn};
    ghost use Rattle.log_places.specs.Numbers.{stretch_count, IsSlot, IsSlotAt};
    ghost use Rattle.log_places.specs.Blocks.{next_page, slots_of_block, AddsPage, PagesAreInRange};

    // Numbers the stretches of pages.
    pub(crate) fn new(
        alloc: Global,
        known: IndexSet<PageKey>,
        pages: Vec<Page>,
        limit: usize,
    ) -> Result<Numbers, NumberError>
        requires size { length known.keys ≡ length pages.items }
        requires near { PagesAreInRange known.keys }
        ensures value { IfOk result (λ n. n ≡ record { keys = known.keys; pages = pages.items }) }
        ensures within { OnOk result (stretch_count (record { keys = known.keys; pages = pages.items }) ≤ limit) }
        ensures over { result ≡ Err NumberError.OverLimit
            → limit < stretch_count (record { keys = known.keys; pages = pages.items }) }
    {
        let (firsts, count) = firsts_of(alloc, &pages, limit)?;
        let links = links_of(alloc, &known)?;
        Ok(Numbers {
            known,
            pages,
            firsts,
            count,
            links,
        })
    }

    /// How many stretches there are.
    pub fn len(&self) -> usize
        ensures { result ≡ stretch_count self.now }
    {
        self.count
    }

    /// The slot of a location, if the location is accessed.
    pub fn find(&self, block: u64, location: u64) -> Option<LocationSlot>
        requires { location < 2 ^ 60 }
        ensures slot { IfSome result (λ slot. IsSlot self.now block location slot) }
        ensures none { IfNone result ((s : Stretch) → IsIn self.now block location s → ⊥) }
    {
        let page = location / PAGE_SIZE;
        let i = self.page(PageKey { block, page })?;
        self.slot(i, page * PAGE_SIZE, (location % PAGE_SIZE) as u16)
    }

    // The place of a page.
    fn page(&self, key: PageKey) -> Option<usize>
        ensures some { IfSome result (λ i. IsFirstPage self.now.keys key i) }
        ensures there { IfSome result (λ i. i < length self.now.pages) }
        ensures none { IfNone result (at self.now key ≡ []) }
    {
        self.known.get_index_of(&key)
    }

    // The slot of a location of the page at a place, which begins at `base`.
    fn slot(&self, i: usize, base: u64, location: u16) -> Option<LocationSlot>
        requires there { i < length self.now.pages }
        requires within { base ≤ 2 ^ 60 }
        ensures some { IfSome result (λ slot. IsSlotAt self.now.pages i base location slot) }
        ensures none { IfNone result ((ss : List Stretch) → slice_get self.now.pages i ≡ Some ss → (s : Stretch) → In ss s → Has s location → ⊥) }
    {
        let stretches = self.pages[i].stretches();
        let (place, stretch) = stretch_with(stretches, location)?;
        let number = sum_below(self.firsts[i], place, self.count);
        Some(LocationSlot {
            number,
            start: behind(base, stretch.start),
            end: behind(base, stretch.end),
        })
    }

    /// The slots of all stretches of a block, in the place of what was there. It takes a step for each of them, and one
    /// for each page of the block.
    pub fn slots_of_block(
        &self,
        block: u64,
        slots: &mut Vec<LocationSlot>,
    ) -> Result<(), AllocError>
        ensures { OnOk result (slots.new.items ≡ slots_of_block self.now block) }
    {
        slots.clear();
        let mut at = self.first_page(block);
        while let Some(i) = at {
            self.add_page(i, slots)?;
            at = self.next_page(i);
        }
        Ok(())
    }

    // The place of a block's first page.
    fn first_page(&self, block: u64) -> Option<usize>
        ensures place { result ≡ next_page block 0 self.now.keys }
        ensures size { length self.now.keys ≡ length self.now.pages }
        ensures there { IfSome result (λ i. i < length self.now.pages) }
    {
        self.links.heads.get(&block).copied()
    }

    // The place of the next page of the block that has the page at a place.
    fn next_page(&self, i: usize) -> Option<usize>
        requires { i < length self.now.pages }
        ensures place { (k : PageKey) → slice_get self.now.keys i ≡ Some k → result ≡ next_page k.block (i + 1) (drop (i + 1) self.now.keys) }
        ensures there { IfSome result (λ j. j < length self.now.pages) }
    {
        *self.links.nexts.at(i)
    }

    // Adds the slots of the page at a place.
    fn add_page(&self, i: usize, slots: &mut Vec<LocationSlot>) -> Result<(), AllocError>
        requires { i < length self.now.pages }
        ensures { OnOk result (AddsPage self.now i slots.old.items slots.new.items) }
    {
        let key = key_at(&self.known, i);
        let stretches = self.pages[i].stretches();
        add_slots(
            stretches,
            key.page * PAGE_SIZE,
            self.firsts[i],
            self.count,
            slots,
        )
    }
}
