// What heaps hold, and which are drawn.

ghost use Rattle.std.specs.Prelude.{◌≡◌, ◌≤◌, ◌+◌, OnOk, length};
ghost use Rattle.image_check.specs.Read.{IsSized};
ghost use Rattle.image_check.specs.ImageTasks.{owner_at};
ghost use Rattle.text_lines.specs.Lines.{lines_of};
ghost use Rattle.image_check.specs.Line.{most_fields};
ghost use Rattle.heap_graph.specs.HeapTotals.{is_path_relation, is_drawn, held_of, with_chunk, totals_with_object, with_object_of, held_with, held_by};

use image_check::{ImageLine, ImageObject, ImageTable, Read, Relation, owner_of, read_line};
use saturating_counts::raised_by;
use std::alloc::{AllocError, Global};
use text_lines::next_line;

/// What a heap holds, in saturating 64-bit counts.
#[derive(Clone, Copy)]
pub(crate) struct HeapTotals {
    pub(crate) chunks: u64,
    pub(crate) objects: u64,
    pub(crate) words: u64,
}

fn is_path_relation(relation: Relation) -> bool
    ensures { result ≡ is_path_relation relation }
{
    match relation {
        Relation::Own => true,
        Relation::Above => true,
        _ => false,
    }
}

/// Whether the heap of a task is drawn: all are, or those on the path from the root to a task.
pub(crate) fn is_drawn(read: &Read, path: Option<u64>, task: u64) -> bool
    ensures { result ≡ is_drawn read.now path task }
{
    match path {
        None => true,
        Some(end) => is_path_relation(read.tasks.relation(end, task)),
    }
}

/// What the heap of a task holds.
pub(crate) fn held_of(heaps: &ImageTable<HeapTotals>, task: u64) -> HeapTotals
    ensures { result ≡ held_of heaps.now task }
{
    match heaps.find(task) {
        Some(held) => *held,
        None => HeapTotals {
            chunks: 0,
            objects: 0,
            words: 0,
        },
    }
}

// Adds a chunk.
fn with_chunk(held: HeapTotals) -> HeapTotals
    ensures { result ≡ with_chunk held }
{
    HeapTotals {
        chunks: raised_by(held.chunks, 1),
        objects: held.objects,
        words: held.words,
    }
}

// Adds an object.
fn totals_with_object(held: HeapTotals, object: &ImageObject) -> HeapTotals
    requires { length object.now.references + object.now.numbers ≤ most_fields }
    ensures { result ≡ totals_with_object held object.now }
{
    let words = 2 + object.references.len() as u64 + object.numbers;
    HeapTotals {
        chunks: held.chunks,
        objects: raised_by(held.objects, 1),
        words: raised_by(held.words, words),
    }
}

// Counts an object.
fn add_object(
    heaps: &mut ImageTable<HeapTotals>,
    read: &Read,
    object: &ImageObject,
) -> Result<(), AllocError>
    requires { length object.now.references + object.now.numbers ≤ most_fields }
    ensures { OnOk result (heaps.new ≡ with_object_of heaps.old object.now (owner_at read.now.chunks object.now.address)) }
{
    match owner_of(&read.chunks, object.address) {
        None => Ok(()),
        Some(task) => {
            let held = totals_with_object(held_of(heaps, task), object);
            heaps.put(task, held)
        }
    }
}

// Counts what a line says.
fn add_said(
    heaps: &mut ImageTable<HeapTotals>,
    read: &Read,
    said: &ImageLine,
) -> Result<(), AllocError>
    requires { IsSized said.now }
    ensures { OnOk result (heaps.new ≡ held_with read.now heaps.old said.now) }
{
    match said {
        ImageLine::OfChunk(chunk) => {
            let held = with_chunk(held_of(heaps, chunk.owner));
            heaps.put(chunk.owner, held)
        }
        ImageLine::OfObject(object) => add_object(heaps, read, object),
        _ => Ok(()),
    }
}

/// Counts what the lines of a text say.
pub(crate) fn add_all(
    alloc: Global,
    heaps: &mut ImageTable<HeapTotals>,
    read: &Read,
    text: &[u8],
) -> Result<(), AllocError>
    ensures { OnOk result (heaps.new ≡ held_by read.now heaps.old (lines_of text.now)) }
{
    let mut rest = text;
    loop {
        let (line, lines) = next_line(rest);
        let said = read_line(alloc, line)?;
        add_said(heaps, read, &said)?;
        match lines {
            None => return Ok(()),
            Some(more) => rest = more,
        }
    }
}
