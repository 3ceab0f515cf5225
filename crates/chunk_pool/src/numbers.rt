// Many chunks at once: all are allocated before the first of them gets a number.

ghost use Rattle.std.specs.Prelude.{◌≡◌, ◌+◌, ◌*◌, ◌^◌, ◌<◌, ◌≤◌, [], All, IfOk, None, OnOk, Some, length, vec_capacity, vec_len};
ghost use Rattle.slab.specs.Slab.{slab_len, HasRoomFor, Updates};
ghost use Rattle.object_layout.specs.Cell.{chunk_words};
ghost use Rattle.chunk_pool.specs.PoolValue.{slot_in, one_unit, AreChunks, IsBlank, NumbersBehind};

use crate::pool::Slot;
use object_layout::{CHUNK_WORDS, Chunk};
use slab::Slab;
use std::alloc::{AllocError, Global};

// How many words a chunk of one unit has.
const UNIT: u32 = CHUNK_WORDS as u32;

/// An empty chunk with this number and these units: a cached one if it has one unit, or a new one.
pub fn chunk_of(
    alloc: Global,
    kept: &mut Vec<Chunk>,
    number: u32,
    units: u32,
) -> Result<Chunk, AllocError>
    requires few { units < 2 ^ 22 }
    requires blank { All IsBlank kept.old.items }
    ensures chunk { IfOk result (λ c. c ≡ record { number = number; size = chunk_words * units; cells = [] }) }
    ensures blank { All IsBlank kept.new.items }
{
    if units == 1 {
        if let Some(mut chunk) = kept.pop() {
            chunk.renumber(number);
            return Ok(chunk);
        }
    }
    Chunk::new(alloc, number, units)
}

/// `count` empty chunks of one unit, without numbers of their own: cached ones as far as they go, and new ones.
pub fn blank_chunks(
    alloc: Global,
    kept: &mut Vec<Chunk>,
    count: u32,
) -> Result<Vec<Chunk>, AllocError>
    requires { All IsBlank kept.old.items }
    ensures count { IfOk result (λ v. length v.items ≡ count) }
    ensures blank { IfOk result (λ v. All IsBlank v.items) }
    ensures kept { All IsBlank kept.new.items }
{
    let mut blank = Vec::new(alloc);
    for _ in 0..count {
        let chunk = chunk_of(alloc, kept, 0, 1)?;
        blank.push(chunk)?;
    }
    Ok(blank)
}

/// Reserves capacity to cache all chunks in use, should they be released, once `more` units are taken.
pub fn make_places(kept: &mut Vec<Chunk>, used: u32, more: u32) -> Result<(), AllocError>
    ensures { kept.new.items ≡ kept.old.items }
{
    kept.reserve(used as usize + more as usize)
}

/// Caches a chunk of one unit, without its objects, if there is capacity; otherwise drops it.
pub fn keep(kept: &mut Vec<Chunk>, mut chunk: Chunk)
    requires { All IsBlank kept.old.items }
    ensures { All IsBlank kept.new.items }
{
    if chunk.size() == UNIT && kept.len() < kept.capacity() {
        chunk.clear();
        kept.push_reserved(chunk);
    }
}

/// Reserves capacity for more numbers of 32 bits. Without enough such numbers it fails as if out of memory.
pub fn make_numbers(slots: &mut Slab<Slot>, count: u32) -> Result<(), AllocError>
    ensures slots { slots.new.slots ≡ slots.old.slots }
    ensures room { OnOk result (HasRoomFor slots.new count) }
    ensures small { OnOk result (slots.new.capacity ≤ 2 ^ 32) }
{
    slots.reserve(count as usize)?;
    if slots.capacity() > u32::MAX as usize {
        return Err(AllocError);
    }
    Ok(())
}

// Gives a chunk the next number that isn't in use.
fn number_one(slots: &mut Slab<Slot>, owner: u32, chunk: &mut Chunk)
    requires room { HasRoomFor slots.old 1 }
    requires small { slots.old.capacity ≤ 2 ^ 32 }
    ensures chunk { chunk.new ≡ record chunk.old { number = chunk.new.number } }
    ensures was_free { slot_in slots.old.slots chunk.new.number ≡ None }
    ensures updates { Updates slots.old slots.new chunk.new.number (Some (one_unit owner)) }
    ensures short { chunk.new.number < 2 ^ 32 }
    ensures len { slab_len slots.new ≡ slab_len slots.old + 1 }
    ensures capacity { slots.new.capacity ≡ slots.old.capacity }
{
    let number = slots.insert_reserved(Slot { owner, units: 1 });
    chunk.renumber(number as u32);
}

/// Numbers all chunks of a list for an owner, and appends them to another list.
pub fn number_all(slots: &mut Slab<Slot>, owner: u32, blank: &mut Vec<Chunk>, list: &mut Vec<Chunk>)
    requires room { HasRoomFor slots.old (length blank.old.items) }
    requires small { slots.old.capacity ≤ 2 ^ 32 }
    requires places { vec_len list.old + length blank.old.items ≤ vec_capacity list.old }
    requires blank { All IsBlank blank.old.items }
    ensures numbered { NumbersBehind slots.old.slots slots.new.slots owner (length blank.old.items) list.old.items list.new.items }
    ensures chunks { AreChunks slots.old.slots → AreChunks slots.new.slots }
{
    while let Some(mut chunk) = blank.pop() {
        number_one(slots, owner, &mut chunk);
        list.push_reserved(chunk);
    }
}
