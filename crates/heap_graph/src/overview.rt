// An image, heap by heap.

ghost use Rattle.std.specs.Prelude.{◌≡◌, ◌++◌, OnOk};
ghost use Rattle.std.specs.List.{flat_map};
ghost use Rattle.image_check.specs.ImageTasks.{owner_at};
ghost use Rattle.text_lines.specs.Lines.{lines_of};
ghost use Rattle.heap_graph.specs.Overview.{heap_node, tree_edges, heap_drawn, heap_by, heaps_drawn, with_links, with_links_of, links_with, links_by, style_of, link_attributes, link_edge, links_drawn};
ghost use Rattle.quoted_text.specs.Labels.{task_name};
ghost use Rattle.heap_graph.specs.Names.{port_name};
ghost use Rattle.dot_text.specs.Dot.{attribute, edge_begin, dot};

use crate::edges::add_kind;
use crate::held::{HeapTotals, held_of, is_drawn};
use crate::links::DrawnLinks;
use crate::names::{heap_title, port_name, task_name};
use dot_text::{add_attribute, begin_edge, begin_node, end_statement};
use image_check::{
    ImageLine, ImageObject, ImageTable, ImageTask, Read, Relation, owner_of, read_line,
};
use std::alloc::{AllocError, Global};
use text_lines::next_line;

// Adds a heap.
fn add_heap_node(
    alloc: Global,
    text: &mut Vec<u8>,
    heaps: &ImageTable<HeapTotals>,
    task: &ImageTask,
) -> Result<(), AllocError>
    ensures { OnOk result (text.new.items ≡ text.old.items ++ dot (heap_node heaps.now task.now)) }
{
    let name = task_name(alloc, task.number)?;
    let title = heap_title(alloc, task, held_of(heaps, task.number))?;
    begin_node(text, name.as_bytes())?;
    add_attribute(text, b"shape", b"record")?;
    add_attribute(text, b"label", title.as_bytes())?;
    end_statement(text)
}

// Begins an edge from a heap to a heap.
fn begin_link(alloc: Global, text: &mut Vec<u8>, task: u64, other: u64) -> Result<(), AllocError>
    ensures { OnOk result (text.new.items ≡ text.old.items ++ edge_begin (task_name task) (port_name 0) (task_name other)) }
{
    let source = task_name(alloc, task)?;
    let port = port_name(alloc, 0)?;
    let target = task_name(alloc, other)?;
    begin_edge(text, source.as_bytes(), port.as_bytes(), target.as_bytes())
}

// Adds a line from the parent's heap, if there is a parent.
fn add_tree_edge(
    alloc: Global,
    text: &mut Vec<u8>,
    task: u64,
    parent: Option<u64>,
) -> Result<(), AllocError>
    ensures { OnOk result (text.new.items ≡ text.old.items ++ flat_map dot (tree_edges task parent)) }
{
    let Some(parent) = parent else {
        return Ok(());
    };
    begin_link(alloc, text, parent, task)?;
    add_attribute(text, b"style", b"dotted")?;
    add_attribute(text, b"arrowhead", b"none")?;
    end_statement(text)
}

// Adds a heap, and a line from its parent's.
fn add_heap(
    alloc: Global,
    text: &mut Vec<u8>,
    heaps: &ImageTable<HeapTotals>,
    task: &ImageTask,
) -> Result<(), AllocError>
    ensures { OnOk result (text.new.items ≡ text.old.items ++ flat_map dot (heap_drawn heaps.now task.now)) }
{
    add_heap_node(alloc, text, heaps, task)?;
    add_tree_edge(alloc, text, task.number, task.parent)
}

// Adds the heap of the task that a line says.
fn add_said_heap(
    alloc: Global,
    text: &mut Vec<u8>,
    read: &Read,
    heaps: &ImageTable<HeapTotals>,
    path: Option<u64>,
    said: &ImageLine,
) -> Result<(), AllocError>
    ensures { OnOk result (text.new.items ≡ text.old.items ++ flat_map dot (heap_by read.now heaps.now path said.now)) }
{
    match said {
        ImageLine::OfTask(task) => {
            if is_drawn(read, path, task.number) {
                add_heap(alloc, text, heaps, task)
            } else {
                Ok(())
            }
        }
        _ => Ok(()),
    }
}

/// Adds the heaps of the tasks that the lines of a text say.
pub(crate) fn add_heaps(
    alloc: Global,
    graph: &mut Vec<u8>,
    read: &Read,
    heaps: &ImageTable<HeapTotals>,
    path: Option<u64>,
    text: &[u8],
) -> Result<(), AllocError>
    ensures { OnOk result (graph.new.items ≡ graph.old.items ++ flat_map dot (heaps_drawn read.now heaps.now path (lines_of text.now))) }
{
    let mut rest = text;
    loop {
        let (line, lines) = next_line(rest);
        let said = read_line(alloc, line)?;
        add_said_heap(alloc, graph, read, heaps, path, &said)?;
        match lines {
            None => return Ok(()),
            Some(more) => rest = more,
        }
    }
}

// Counts the references of a heap's object.
fn count_references(
    links: &mut DrawnLinks,
    read: &Read,
    task: u64,
    references: &[u64],
) -> Result<(), AllocError>
    ensures { OnOk result (links.new ≡ with_links read.now links.old task references.now) }
{
    for reference in references {
        links.add_to(task, owner_of(&read.chunks, *reference))?;
    }
    Ok(())
}

// Counts the references of an object, if its heap is drawn.
fn count_object(
    links: &mut DrawnLinks,
    read: &Read,
    path: Option<u64>,
    object: &ImageObject,
) -> Result<(), AllocError>
    ensures { OnOk result (links.new ≡ with_links_of read.now path links.old object.now (owner_at read.now.chunks object.now.address)) }
{
    match owner_of(&read.chunks, object.address) {
        None => Ok(()),
        Some(task) => {
            if is_drawn(read, path, task) {
                count_references(links, read, task, object.references.as_slice())
            } else {
                Ok(())
            }
        }
    }
}

// Counts the references of the object that a line says.
fn count_said(
    links: &mut DrawnLinks,
    read: &Read,
    path: Option<u64>,
    said: &ImageLine,
) -> Result<(), AllocError>
    ensures { OnOk result (links.new ≡ links_with read.now path links.old said.now) }
{
    match said {
        ImageLine::OfObject(object) => count_object(links, read, path, object),
        _ => Ok(()),
    }
}

/// Counts the references of the objects that the lines of a text say.
pub(crate) fn count_links(
    alloc: Global,
    links: &mut DrawnLinks,
    read: &Read,
    path: Option<u64>,
    text: &[u8],
) -> Result<(), AllocError>
    ensures { OnOk result (links.new ≡ links_by read.now path links.old (lines_of text.now)) }
{
    let mut rest = text;
    loop {
        let (line, lines) = next_line(rest);
        let said = read_line(alloc, line)?;
        count_said(links, read, path, &said)?;
        match lines {
            None => return Ok(()),
            Some(more) => rest = more,
        }
    }
}

fn style_of(runs: bool) -> &'static str
    ensures { result.now ≡ style_of runs }
{
    if runs { "dashed" } else { "solid" }
}

// Adds the attributes of an edge that represents n references.
fn add_link_attributes(
    alloc: Global,
    text: &mut Vec<u8>,
    runs: bool,
    count: u64,
    kind: Relation,
) -> Result<(), AllocError>
    ensures { OnOk result (text.new.items ≡ text.old.items ++ flat_map attribute (link_attributes runs count kind)) }
{
    let number = format!(in alloc; "{count}")?;
    add_attribute(text, b"style", style_of(runs).as_bytes())?;
    add_attribute(text, b"label", number.as_bytes())?;
    add_kind(text, kind)
}

// Adds the edge of n references from a heap to a heap.
fn add_link(
    alloc: Global,
    text: &mut Vec<u8>,
    read: &Read,
    link: ((u64, u64), u64),
) -> Result<(), AllocError>
    ensures { OnOk result (text.new.items ≡ text.old.items ++ dot (link_edge read.now link)) }
{
    let ((task, other), count) = link;
    begin_link(alloc, text, task, other)?;
    let kind = read.tasks.relation(task, other);
    add_link_attributes(alloc, text, read.tasks.runs(other), count, kind)?;
    end_statement(text)
}

/// Adds the edges of references between heaps.
pub(crate) fn add_links(
    alloc: Global,
    text: &mut Vec<u8>,
    read: &Read,
    links: &DrawnLinks,
) -> Result<(), AllocError>
    ensures { OnOk result (text.new.items ≡ text.old.items ++ flat_map dot (links_drawn read.now links.now)) }
{
    for place in 0..links.len() {
        let Some(link) = links.entry(place) else {
            return Ok(());
        };
        add_link(alloc, text, read, link)?;
    }
    Ok(())
}
