// What an entry tells of heaps.

ghost use Rattle.std.specs.Prelude.{◌≡◌, ◌∷◌, ◌++◌, [], OnOk};
ghost use Rattle.std.specs.Fmt.{decimal};
ghost use Rattle.std.specs.List.{flat_map};
ghost use Rattle.run_ledger.specs.Heaps.{begun_in, marked_in};
ghost use Rattle.run_deltas.specs.News.{Taken, Laid, Snapped, units_given, news_in, tells_of, news_for, news_of};
ghost use Rattle.page_data.specs.Values.{name, more, between};
ghost use Rattle.page_data.specs.Deltas.{more_number};
ghost use Rattle.page_data.specs.Heaps.{names_list, chunks_list, about, news_text, closing};

use crate::act::{add_count, more_number};
use crate::values::add_name;
use hh_model::Name;
use plain_vec::Listed;
use run_ledger::Heap;
use run_trace::Kind;
use std::alloc::{AllocError, Global};

/// Adds further names.
pub(crate) fn more_names(alloc: Global, text: &mut Vec<u8>, rest: &[Name]) -> Result<(), AllocError>
    ensures { OnOk result (text.new.items ≡ text.old.items ++ flat_map (λ n. more (name n)) rest.now) }
{
    for of in rest {
        text.push(b',')?;
        add_name(alloc, text, *of)?;
    }
    Ok(())
}

// Adds names with commas between them.
fn names_between(alloc: Global, text: &mut Vec<u8>, names: &[Name]) -> Result<(), AllocError>
    ensures { OnOk result (text.new.items ≡ text.old.items ++ between name names.now) }
{
    match names {
        [] => Ok(()),
        [first, rest @ ..] => {
            add_name(alloc, text, *first)?;
            more_names(alloc, text, rest)
        }
    }
}

#[tactic(auto, unfolding(crate::specs::Heaps::names_list))]
// Adds names as a list.
fn add_names(alloc: Global, text: &mut Vec<u8>, names: &[Name]) -> Result<(), AllocError>
    ensures { OnOk result (text.new.items ≡ text.old.items ++ names_list names.now) }
{
    text.push(b'[')?;
    names_between(alloc, text, names)?;
    text.push(b']')?;
    Ok(())
}

// Adds further chunks.
fn more_chunks(alloc: Global, text: &mut Vec<u8>, rest: &[Listed<Name>]) -> Result<(), AllocError>
    ensures { OnOk result (text.new.items ≡ text.old.items ++ flat_map (λ names. more (names_list names)) rest.now) }
{
    for of in rest {
        text.push(b',')?;
        add_names(alloc, text, of.as_slice())?;
    }
    Ok(())
}

// Adds chunks with commas between them.
fn chunks_between(
    alloc: Global,
    text: &mut Vec<u8>,
    chunks: &[Listed<Name>],
) -> Result<(), AllocError>
    ensures { OnOk result (text.new.items ≡ text.old.items ++ between names_list chunks.now) }
{
    match chunks {
        [] => Ok(()),
        [first, rest @ ..] => {
            add_names(alloc, text, first.as_slice())?;
            more_chunks(alloc, text, rest)
        }
    }
}

#[tactic(auto, unfolding(crate::specs::Heaps::chunks_list))]
// Adds chunks as a list of lists.
fn add_chunks(alloc: Global, text: &mut Vec<u8>, chunks: &[Listed<Name>]) -> Result<(), AllocError>
    ensures { OnOk result (text.new.items ≡ text.old.items ++ chunks_list chunks.now) }
{
    text.push(b'[')?;
    chunks_between(alloc, text, chunks)?;
    text.push(b']')?;
    Ok(())
}

// Begins a member of a task.
fn begin(alloc: Global, text: &mut Vec<u8>, head: &[u8], t: u32) -> Result<(), AllocError>
    ensures { OnOk result (text.new.items ≡ text.old.items ++ (head.now ++ decimal t)) }
{
    text.extend_from_slice(head)?;
    add_count(alloc, text, t as u64)
}

// Adds further names as a list, and ends the member.
fn end_names(alloc: Global, text: &mut Vec<u8>, names: &[Name]) -> Result<(), AllocError>
    ensures { OnOk result (text.new.items ≡ text.old.items ++ (more (names_list names.now) ++ 93 ∷ [])) }
{
    text.push(b',')?;
    add_names(alloc, text, names)?;
    text.push(b']')?;
    Ok(())
}

#[tactic(auto, unfolding(crate::specs::Heaps::about))]
// Adds a member of a task and a number.
fn add_number_of(
    alloc: Global,
    text: &mut Vec<u8>,
    head: &[u8],
    t: u32,
    number: u32,
) -> Result<(), AllocError>
    ensures { OnOk result (text.new.items ≡ text.old.items ++ about head.now t (more_number number)) }
{
    begin(alloc, text, head, t)?;
    more_number(alloc, text, number as u64)?;
    text.push(b']')?;
    Ok(())
}

#[tactic(auto, unfolding(crate::specs::Heaps::about))]
// Adds what a leaf collection has taken and keeps.
fn add_taken(alloc: Global, text: &mut Vec<u8>, t: u32, heap: &Heap) -> Result<(), AllocError>
    ensures { OnOk result (text.new.items ≡ text.old.items ++ news_text (Taken t (begun_in heap.now) heap.now.survivors)) }
{
    begin(alloc, text, b",\"take\":[", t)?;
    more_number(alloc, text, heap.begun.unwrap_or(0) as u64)?;
    end_names(alloc, text, heap.survivors.as_slice())
}

#[tactic(auto, unfolding(crate::specs::Heaps::about))]
// Adds the chunks and large objects of a heap.
fn add_laid(alloc: Global, text: &mut Vec<u8>, t: u32, heap: &Heap) -> Result<(), AllocError>
    ensures { OnOk result (text.new.items ≡ text.old.items ++ news_text (Laid t heap.now.chunks heap.now.large)) }
{
    begin(alloc, text, b",\"heap\":[", t)?;
    text.push(b',')?;
    add_chunks(alloc, text, heap.chunks.as_slice())?;
    end_names(alloc, text, heap.large.as_slice())
}

#[tactic(auto, unfolding(crate::specs::Heaps::about))]
// Adds the objects that a marking is of.
fn add_snapped(alloc: Global, text: &mut Vec<u8>, t: u32, heap: &Heap) -> Result<(), AllocError>
    ensures { OnOk result (text.new.items ≡ text.old.items ++ news_text (Snapped t heap.now.snapshot)) }
{
    begin(alloc, text, b",\"snap\":[", t)?;
    end_names(alloc, text, heap.snapshot.as_slice())
}

fn units_given(heap: &Heap) -> u32
    ensures { result ≡ units_given heap.now }
{
    if heap.reserved == 0 { 1 } else { heap.reserved }
}

// Adds what an entry of a leaf collection or a marking tells, by the heap behind it.
fn add_of_heap(alloc: Global, text: &mut Vec<u8>, kind: Kind, heap: &Heap) -> Result<(), AllocError>
    ensures { OnOk result (text.new.items ≡ text.old.items ++ news_text (news_in kind heap.now)) }
{
    match kind {
        Kind::Chunk(t) => add_number_of(alloc, text, b",\"give\":[", t, units_given(heap)),
        Kind::Begin(t) => add_taken(alloc, text, t, heap),
        Kind::End(t, _, _, _) => add_laid(alloc, text, t, heap),
        Kind::Mark(t) => add_snapped(alloc, text, t, heap),
        Kind::More(t, _) => {
            let marked = heap.marked.unwrap_or(0);
            add_number_of(alloc, text, b",\"mark\":[", t, marked)
        }
        Kind::Sweep(t, _) => add_laid(alloc, text, t, heap),
        _ => Ok(()),
    }
}

// The task of whose heap an entry tells.
fn tells_of(over: bool, kind: Kind) -> Option<u32>
    ensures { result ≡ tells_of over kind }
{
    match kind {
        Kind::Chunk(t) => { if over { None } else { Some(t) } }
        Kind::Begin(t) => Some(t),
        Kind::End(t, _, _, _) => Some(t),
        Kind::Mark(t) => Some(t),
        Kind::More(t, _) => Some(t),
        Kind::Sweep(t, _) => Some(t),
        _ => None,
    }
}

// Adds what an entry tells of heaps.
fn add_news(
    alloc: Global,
    text: &mut Vec<u8>,
    kind: Kind,
    over: bool,
    heaps: &Listed<Heap>,
) -> Result<(), AllocError>
    ensures { OnOk result (text.new.items ≡ text.old.items ++ news_text (news_of kind over heaps.now)) }
{
    let Some(t) = tells_of(over, kind) else {
        return Ok(());
    };
    match heaps.get(t as usize) {
        None => Ok(()),
        Some(heap) => add_of_heap(alloc, text, kind, heap),
    }
}

#[tactic(auto, unfolding(crate::specs::Heaps::closing))]
/// Adds what an entry tells of heaps, by the heaps behind it and whether the run is over, and ends the entry.
pub fn close_entry(
    alloc: Global,
    text: &mut Vec<u8>,
    kind: Kind,
    over: bool,
    heaps: &Listed<Heap>,
) -> Result<(), AllocError>
    ensures { OnOk result (text.new.items ≡ text.old.items ++ closing (news_of kind over heaps.now)) }
{
    add_news(alloc, text, kind, over, heaps)?;
    text.push(b'}')?;
    Ok(())
}
