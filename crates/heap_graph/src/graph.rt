// The graph of an image.

ghost use Rattle.std.specs.Prelude.{◌≡◌, ◌++◌, [], None, OnOk, IfOk, IfErr};
ghost use Rattle.std.specs.List.{flat_map};
ghost use Rattle.text_lines.specs.Lines.{lines_of};
ghost use Rattle.image_check.specs.ImageFault.{Reports, image_fault};
ghost use Rattle.image_check.specs.Sound.{all_read};
ghost use Rattle.heap_graph.specs.HeapTotals.{held_by};
ghost use Rattle.heap_graph.specs.Graph.{settings, overview, is_large, statements_of, graph_of};
ghost use Rattle.dot_text.specs.Dot.{dot};

use crate::held::HeapTotals;
use crate::links::DrawnLinks;
use crate::overview::{add_heaps, add_links, count_links};
use crate::{draw, held};
use dot_text::{begin_graph, end_braces, set_attribute};
use image_check::{ImageFault, ImageTable, OrNoMemory, Read, read_image};
use std::alloc::{AllocError, Global};

// Adds what all graphs have.
fn add_settings(graph: &mut Vec<u8>) -> Result<(), AllocError>
    ensures { OnOk result (graph.new.items ≡ graph.old.items ++ flat_map dot settings) }
{
    set_attribute(graph, b"compound", b"true")?;
    set_attribute(graph, b"rankdir", b"LR")
}

// Adds an image heap by heap.
fn add_overview(
    alloc: Global,
    graph: &mut Vec<u8>,
    read: &Read,
    heaps: &ImageTable<HeapTotals>,
    path: Option<u64>,
    text: &[u8],
) -> Result<(), AllocError>
    requires { heaps.now ≡ held_by read.now [] (lines_of text.now) }
    ensures { OnOk result (graph.new.items ≡ graph.old.items ++ flat_map dot (overview read.now path (lines_of text.now))) }
{
    let mut links = DrawnLinks::new(alloc);
    count_links(alloc, &mut links, read, path, text)?;
    add_heaps(alloc, graph, read, heaps, path, text)?;
    add_links(alloc, graph, read, &links)
}

// Whether an image has more objects, or more tasks, than the limit.
fn is_large(read: &Read, limit: u64) -> bool
    ensures { result ≡ is_large read.now limit }
{
    limit < read.objects.len() as u64 || limit < read.tasks.len() as u64
}

// Adds an image, heap by heap if it is large, otherwise object by object.
fn add_image(
    alloc: Global,
    graph: &mut Vec<u8>,
    read: &Read,
    path: Option<u64>,
    limit: u64,
    text: &[u8],
) -> Result<(), AllocError>
    ensures { OnOk result (graph.new.items ≡ graph.old.items ++ flat_map dot (statements_of read.now path limit (lines_of text.now))) }
{
    let mut heaps = ImageTable::new(alloc);
    held::add_all(alloc, &mut heaps, read, text)?;
    if is_large(read, limit) {
        add_overview(alloc, graph, read, &heaps, path, text)
    } else {
        draw::add_all(alloc, graph, read, &heaps, path, text)
    }
}

// The graph of an image that was read.
fn graph_from(
    alloc: Global,
    read: &Read,
    path: Option<u64>,
    limit: u64,
    text: &[u8],
) -> Result<Vec<u8>, AllocError>
    requires { read.now ≡ all_read (lines_of text.now) }
    ensures { IfOk result (λ graph. graph.items ≡ graph_of path limit text.now) }
{
    let mut graph = Vec::new(alloc);
    begin_graph(&mut graph, b"heaps")?;
    add_settings(&mut graph)?;
    add_image(alloc, &mut graph, read, path, limit, text)?;
    end_braces(&mut graph)?;
    Ok(graph)
}

/// The graph of an image without a fault, or its first fault: of all its heaps, or of those on the path from the root
/// to a task; heap by heap if it has more objects, or more tasks, than the limit.
pub fn graph_text(
    alloc: Global,
    path: Option<u64>,
    limit: u64,
    text: &[u8],
) -> Result<Vec<u8>, OrNoMemory<ImageFault>>
    ensures sound { OnOk result (image_fault text.now ≡ None) }
    ensures graph { IfOk result (λ graph. graph.items ≡ graph_of path limit text.now) }
    ensures fault { IfErr result (Reports (image_fault text.now)) }
{
    let read = read_image(alloc, text)?;
    Ok(graph_from(alloc, &read, path, limit, text)?)
}
