// The pool of chunks: a limit in units, and an owner for each number in use.

ghost use Rattle.std.specs.Prelude.{◌≡◌, ℕ, ◌+◌, ◌*◌, ◌^◌, ◌<◌, ◌≤◌, ◌↔◌, [], OnErr, OnOk, IfOk, Err, Some, IsSome};
ghost use Rattle.object_layout.specs.Cell.{chunk_words};
ghost use Rattle.chunk_pool.specs.PoolValue.{slot_at, owner_of, units_in_use, AreChunks, Reserves, TakesAll, Releases, Relabels};

use crate::numbers::{blank_chunks, chunk_of, keep, make_numbers, make_places, number_all};
use object_layout::Chunk;
use slab::Slab;
use std::alloc::Global;
use std::marker::Model;

/// The slot of a chunk in use: the task that owns it, and its units of 1,024 words.
#[derive(Clone, Copy)]
pub struct Slot {
    pub owner: u32,
    pub units: u32,
}

/// Why no chunk was taken.
#[derive(Clone, Copy)]
pub enum NotTaken {
    /// The units in use and those asked for exceed the limit.
    Full,
    /// Out of memory.
    NoMemory,
}

/// The chunks in use, up to a limit in units of 1,024 words.
///
/// Released chunks of one unit are cached without their objects and reused: with those in use, they are never more than
/// were once in use.
pub struct Pool {
    limit: u32,
    used: u32,
    slots: Slab<Slot>,
    kept: Vec<Chunk>,
    alloc: Global,
}

impl Drop for Pool {
    fn drop(self) {
        let Pool {
            limit: _,
            used: _,
            slots: _,
            kept: _,
            alloc: _,
        } = self;
    }
}

impl Model for Pool {
    ghost use Rattle.std.specs.Prelude.{All};
    ghost use Rattle.chunk_pool.specs.PoolValue.{PoolValue, IsBlank, UnitsAreCounted};

    ghost Value = { PoolValue };

    ghost view = { λ p. record { limit = p.limit; slots = p.slots.slots } };

    ghost invariant = { λ p. UnitsAreCounted p.limit p.used p.slots.slots × All IsBlank p.kept.items };
}

impl Pool {
    /// A pool without chunks in use. The limit is in units of 1,024 words.
    pub fn new(alloc: Global, limit: u32) -> Pool
        requires { limit < 2 ^ 22 }
        ensures { result ≡ record { limit = limit; slots = [] } }
    {
        Pool {
            limit,
            used: 0,
            slots: Slab::new(alloc),
            kept: Vec::new(alloc),
            alloc,
        }
    }

    /// An empty chunk of `units` units for this owner, with a number that wasn't in use.
    ///
    /// The limit is checked before memory is allocated.
    pub fn take(&mut self, owner: u32, units: u32) -> Result<Chunk, NotTaken>
        requires some { 0 < units }
        requires few { units < 2 ^ 22 }
        ensures full { (result ≡ Err NotTaken.Full) ↔ (self.old.limit < units_in_use self.old + units) }
        ensures taken { IfOk result (λ chunk. Reserves self.old self.new chunk.number (record { owner = owner; units = units })) }
        ensures chunk { IfOk result (λ chunk. chunk ≡ record { number = chunk.number; size = chunk_words * units; cells = [] }) }
        ensures err { OnErr result (self.new ≡ self.old) }
    {
        if units > self.limit - self.used {
            return Err(NotTaken::Full);
        }
        if make_places(&mut self.kept, self.used, units).is_err() {
            return Err(NotTaken::NoMemory);
        }
        if self.slots.reserve(1).is_err() {
            return Err(NotTaken::NoMemory);
        }
        // Without a 32-bit number it fails as if out of memory.
        let Ok(number) = u32::try_from(self.slots.vacant_key()) else {
            return Err(NotTaken::NoMemory);
        };
        let Ok(chunk) = chunk_of(self.alloc, &mut self.kept, number, units) else {
            return Err(NotTaken::NoMemory);
        };
        self.slots.insert_reserved(Slot { owner, units });
        self.used += units;
        Ok(chunk)
    }

    /// Appends `count` empty chunks of one unit, for this owner, to a list. All of them or none are taken: the limit is
    /// checked before memory is allocated, and memory is allocated before the first is taken.
    pub fn take_all(
        &mut self,
        owner: u32,
        count: u32,
        list: &mut Vec<Chunk>,
    ) -> Result<(), NotTaken>
        requires { count < 2 ^ 22 }
        ensures full { (result ≡ Err NotTaken.Full) ↔ (self.old.limit < units_in_use self.old + count) }
        ensures taken { OnOk result (TakesAll self.old self.new owner count list.old.items list.new.items) }
        ensures err { OnErr result (self.new ≡ self.old) }
        ensures err_list { OnErr result (list.new.items ≡ list.old.items) }
    {
        if count > self.limit - self.used {
            return Err(NotTaken::Full);
        }
        if make_places(&mut self.kept, self.used, count).is_err() {
            return Err(NotTaken::NoMemory);
        }
        let Ok(mut blank) = blank_chunks(self.alloc, &mut self.kept, count) else {
            return Err(NotTaken::NoMemory);
        };
        if list.reserve(count as usize).is_err() {
            return Err(NotTaken::NoMemory);
        }
        if make_numbers(&mut self.slots, count).is_err() {
            return Err(NotTaken::NoMemory);
        }
        number_all(&mut self.slots, owner, &mut blank, list);
        self.used += count;
        Ok(())
    }

    /// Releases a chunk. Its number is no longer in use.
    pub fn give(&mut self, chunk: Chunk)
        requires { IsSome (slot_at self.old chunk.number) }
        ensures { Releases self.old self.new chunk.number }
    {
        let number = chunk.number() as usize;
        let held = self.slots.remove(number);
        self.used -= held.units;
        keep(&mut self.kept, chunk);
    }

    /// The slot of a number, if that is in use.
    pub fn slot(&self, number: u32) -> Option<Slot>
        ensures { result ≡ slot_at self.now number }
    {
        self.slots.get(number as usize).copied()
    }

    /// An exclusive upper bound of the numbers in use, which fit in 32 bits; each chunk in use has at least one unit.
    pub fn numbers(&self) -> usize
        ensures below { (number : ℕ) → IsSome (slot_at self.now number) → number < result }
        ensures chunks { AreChunks self.now.slots }
    {
        self.slots.capacity()
    }

    /// The task that owns the chunk of a number.
    pub fn owner(&self, number: u32) -> u32
        requires { IsSome (slot_at self.now number) }
        ensures { owner_of self.now number ≡ Some result }
    {
        match self.slots.get(number as usize) {
            Some(held) => held.owner,
            None => unreachable!(),
        }
    }

    /// Changes the owner of the chunk of a number.
    pub fn relabel(&mut self, number: u32, owner: u32)
        requires { IsSome (slot_at self.old number) }
        ensures { Relabels self.old self.new number owner }
    {
        match self.slots.get_mut(number as usize) {
            Some(held) => held.owner = owner,
            None => unreachable!(),
        }
    }

    /// How many units the chunks in use have together.
    pub fn in_use(&self) -> u32
        ensures units { result ≡ units_in_use self.now }
        ensures within { result ≤ self.now.limit }
    {
        self.used
    }
}
