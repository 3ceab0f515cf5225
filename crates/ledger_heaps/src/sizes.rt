// Words, and the chunks in use, in units of 1,024 words.

ghost use Rattle.std.specs.Prelude.{◌≡◌, ◌↔◌, ◌+◌, ◌<◌, ◌≤◌, ◌^◌, IsTrue, min};
ghost use Rattle.run_ledger.specs.Heaps.{words_at, words_sum, units_sum, words_in, units_in, take_of, small_in};

use chunk_sizes::units;
use hh_model::{MachineState, Name};
use run_ledger::Heap;

/// The words of a chunk that is one unit.
pub const CHUNK_WORDS: usize = chunk_sizes::CHUNK_WORDS as usize;

/// The words of a name's object, 0 if there is none.
pub fn words_at(machine: &MachineState, name: Name) -> usize
    ensures value { result ≡ words_at machine.now name }
    ensures bound { result < 2 ^ 62 }
{
    match machine.object(name) {
        None => 0,
        Some(object) => 2 + object.refs.as_slice().len() + object.ints.as_slice().len(),
    }
}

/// The words of some names' objects together.
pub fn words_sum(machine: &MachineState, names: &[Name]) -> u64
    requires { words_sum machine.now names.now < 2 ^ 62 }
    ensures { result ≡ words_sum machine.now names.now }
{
    names
        .iter()
        .map(|name| words_at(machine, *name) as u64)
        .sum()
}

// The units of some large objects' chunks together.
pub(crate) fn units_sum(machine: &MachineState, names: &[Name]) -> u64
    requires { units_sum machine.now names.now < 2 ^ 62 }
    ensures { result ≡ units_sum machine.now names.now }
{
    names
        .iter()
        .map(|name| units(words_at(machine, *name) as u64))
        .sum()
}

/// Whether the words of a heap fit in their type, as the calls here require.
pub fn is_countable(machine: &MachineState, heap: &Heap) -> bool
    ensures { IsTrue result ↔ (words_in machine.now heap.now < 2 ^ 62) }
{
    let mut words = 0;
    for names in heap.chunks.as_slice() {
        words = capped_sum(machine, words, names.as_slice());
    }
    capped_sum(machine, words, heap.large.as_slice()) < 1 << 62
}

// These words and those of some names' objects, saturating at the cap.
fn capped_sum(machine: &MachineState, words: u64, names: &[Name]) -> u64
    requires { words ≤ 2 ^ 62 }
    ensures { result ≡ min (words + words_sum machine.now names.now) (2 ^ 62) }
{
    let mut sum = words;
    for name in names {
        sum = (sum + words_at(machine, *name) as u64).min(1 << 62);
    }
    sum
}

/// The words of all that a heap holds.
pub fn words_in(machine: &MachineState, heap: &Heap) -> u64
    requires { words_in machine.now heap.now < 2 ^ 62 }
    ensures { result ≡ words_in machine.now heap.now }
{
    small_words(machine, heap) + words_sum(machine, heap.large.as_slice())
}

fn small_words(machine: &MachineState, heap: &Heap) -> u64
    requires { words_sum machine.now (small_in heap.now) < 2 ^ 62 }
    ensures { result ≡ words_sum machine.now (small_in heap.now) }
{
    let mut words = 0;
    for names in heap.chunks.as_slice() {
        words += words_sum(machine, names.as_slice());
    }
    words
}

#[tactic(auto, using(crate::proofs::Kept::large_units))]
/// The chunks that a heap uses, in units.
pub fn units_in(machine: &MachineState, heap: &Heap) -> u64
    requires { words_in machine.now heap.now < 2 ^ 62 }
    ensures { result ≡ units_in machine.now heap.now }
{
    heap.chunks.as_slice().len() as u64
        + units_sum(machine, heap.large.as_slice())
        + heap.reserved as u64
        + heap.begun.unwrap_or(0) as u64
}

/// How many chunks a leaf collection of a heap takes.
pub fn take_of(machine: &MachineState, heap: &Heap) -> u64
    requires { words_in machine.now heap.now < 2 ^ 62 }
    ensures { result ≡ take_of machine.now heap.now }
{
    2 * units(small_words(machine, heap)).max(1) - 1
}
