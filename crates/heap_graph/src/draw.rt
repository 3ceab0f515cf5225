// What the lines of an image add to its graph, object by object.

ghost use Rattle.std.specs.Prelude.{◌≡◌, ◌++◌, ◌∷◌, [], List, OnOk, IfOk, option_copied};
ghost use Rattle.std.specs.List.{flat_map};
ghost use Rattle.image_check.specs.Read.{IsSized};
ghost use Rattle.image_check.specs.Place.{chunk_number};
ghost use Rattle.image_check.specs.ImageTasks.{owner_at};
ghost use Rattle.text_lines.specs.Lines.{lines_of};
ghost use Rattle.heap_graph.specs.Drawn.{path, path_above, path_to, inside, point, titled_box, task_box, task_drawn, chunk_box, node_by, lies_elsewhere, nodes_in, lines_behind, edges_drawn, drawn_task, drawn_chunk, drawn, undrawn_after, all_drawn};
ghost use Rattle.heap_graph.specs.Pieces.{opened, optional_lines};
ghost use Rattle.dot_text.specs.Dot.{Statement, braces_end, dot};

use crate::edges::add_edges;
use crate::held::{HeapTotals, held_of, is_drawn};
use crate::names::{chunk_cluster, chunk_name, chunk_title, task_cluster, task_name, task_title};
use crate::objects::add_node;
use chunk_sizes::CHUNK_WORDS;
use dot_text::{
    add_attribute, begin_cluster, begin_node, end_braces, end_statement, set_attribute,
};
use image_check::{
    ImageChunk, ImageLine, ImageObject, ImageTable, ImageTask, ImageTasks, Read, owner_of,
    read_line,
};
use std::alloc::{AllocError, Global};
use text_lines::next_line;

// Adds a task at the end.
fn add_last(way: &mut Vec<u64>, task: u64) -> Result<(), AllocError>
    ensures { OnOk result (way.new.items ≡ way.old.items ++ task ∷ []) }
{
    way.push(task)?;
    Ok(())
}

// Adds the tasks from the root to one, but at most the last n.
fn add_path(
    way: &mut Vec<u64>,
    tasks: &ImageTasks,
    task: u64,
    links: usize,
) -> Result<(), AllocError>
    ensures { OnOk result (way.new.items ≡ way.old.items ++ path links tasks.now task) }
{
    if links == 0 {
        return Ok(());
    }
    match tasks.parent(task) {
        None => add_last(way, task),
        Some(parent) => {
            add_path(way, tasks, parent, links - 1)?;
            add_last(way, task)
        }
    }
}

// The tasks from the root to one.
fn path_to(alloc: Global, tasks: &ImageTasks, task: Option<u64>) -> Result<Vec<u64>, AllocError>
    ensures { IfOk result (λ way. way.items ≡ path_above (path_to tasks.now) task) }
{
    let mut way = Vec::new(alloc);
    match task {
        None => {}
        Some(task) => add_path(&mut way, tasks, task, tasks.len())?,
    }
    Ok(way)
}

// Begins the box of a task.
fn begin_box(alloc: Global, text: &mut Vec<u8>, task: u64) -> Result<(), AllocError>
    ensures { OnOk result (text.new.items ≡ text.old.items ++ opened task) }
{
    let name = task_cluster(alloc, task)?;
    begin_cluster(text, name.as_bytes())
}

// Begins the boxes of tasks, each inside the one before.
fn begin_boxes(alloc: Global, text: &mut Vec<u8>, way: &[u64]) -> Result<(), AllocError>
    ensures { OnOk result (text.new.items ≡ text.old.items ++ flat_map opened way.now) }
{
    for task in way {
        begin_box(alloc, text, *task)?;
    }
    Ok(())
}

// Ends n boxes.
fn end_boxes(text: &mut Vec<u8>, way: &[u64]) -> Result<(), AllocError>
    ensures { OnOk result (text.new.items ≡ text.old.items ++ flat_map (λ _. braces_end) way.now) }
{
    for _ in way {
        end_braces(text)?;
    }
    Ok(())
}

// Adds an invisible point.
fn add_point(text: &mut Vec<u8>, name: &[u8]) -> Result<(), AllocError>
    ensures { OnOk result (text.new.items ≡ text.old.items ++ dot (point name.now)) }
{
    begin_node(text, name)?;
    add_attribute(text, b"shape", b"point")?;
    add_attribute(text, b"style", b"invis")?;
    end_statement(text)
}

// Adds a text.
fn add_text(text: &mut Vec<u8>, more: &[u8]) -> Result<(), AllocError>
    ensures { OnOk result (text.new.items ≡ text.old.items ++ more.now) }
{
    text.extend_from_slice(more)
}

// Adds a box with a title, a point and the text of its contents.
fn add_titled(
    text: &mut Vec<u8>,
    cluster: &[u8],
    name: &[u8],
    title: &[u8],
    within: &[u8],
) -> Result<(), AllocError>
    ensures { (ss : List Statement) → within.now ≡ flat_map dot ss → OnOk result (text.new.items ≡ text.old.items ++ dot (titled_box cluster.now name.now title.now ss)) }
{
    begin_cluster(text, cluster)?;
    set_attribute(text, b"label", title)?;
    add_point(text, name)?;
    add_text(text, within)?;
    end_braces(text)
}

// Adds the box of a task.
fn add_task_box(
    alloc: Global,
    text: &mut Vec<u8>,
    task: &ImageTask,
    held: HeapTotals,
) -> Result<(), AllocError>
    ensures { OnOk result (text.new.items ≡ text.old.items ++ dot (task_box task.now held)) }
{
    let cluster = task_cluster(alloc, task.number)?;
    let name = task_name(alloc, task.number)?;
    let title = task_title(alloc, task, held)?;
    add_titled(
        text,
        cluster.as_bytes(),
        name.as_bytes(),
        title.as_bytes(),
        b"",
    )
}

// Adds a task.
fn add_task(
    alloc: Global,
    text: &mut Vec<u8>,
    read: &Read,
    heaps: &ImageTable<HeapTotals>,
    task: &ImageTask,
) -> Result<(), AllocError>
    ensures { OnOk result (text.new.items ≡ text.old.items ++ dot (task_drawn read.now heaps.now task.now)) }
{
    let way = path_to(alloc, &read.tasks, task.parent)?;
    begin_boxes(alloc, text, way.as_slice())?;
    add_task_box(alloc, text, task, held_of(heaps, task.number))?;
    end_boxes(text, way.as_slice())
}

// Adds the box of a chunk with these objects.
fn add_chunk_box(
    alloc: Global,
    text: &mut Vec<u8>,
    chunk: &ImageChunk,
    within: &[u8],
) -> Result<(), AllocError>
    ensures { (ss : List Statement) → within.now ≡ flat_map dot ss → OnOk result (text.new.items ≡ text.old.items ++ dot (chunk_box chunk.now ss)) }
{
    let cluster = chunk_cluster(alloc, chunk.number)?;
    let name = chunk_name(alloc, chunk.number)?;
    let title = chunk_title(alloc, chunk)?;
    add_titled(
        text,
        cluster.as_bytes(),
        name.as_bytes(),
        title.as_bytes(),
        within,
    )
}

// Adds a chunk with these objects, in the boxes of its tasks.
fn add_chunk(
    alloc: Global,
    text: &mut Vec<u8>,
    read: &Read,
    chunk: &ImageChunk,
    within: &[u8],
) -> Result<(), AllocError>
    ensures { (ss : List Statement) → within.now ≡ flat_map dot ss → OnOk result (text.new.items ≡ text.old.items ++ dot (inside read.now.tasks chunk.now.owner (chunk_box chunk.now ss))) }
{
    let way = path_to(alloc, &read.tasks, Some(chunk.owner))?;
    begin_boxes(alloc, text, way.as_slice())?;
    add_chunk_box(alloc, text, chunk, within)?;
    end_boxes(text, way.as_slice())
}

// The number of the chunk of an address.
fn chunk_number(address: u64) -> u64
    ensures { result ≡ chunk_number address }
{
    address.saturating_sub(1) / CHUNK_WORDS
}

// Whether a line says an object outside a chunk.
fn lies_elsewhere(chunk: u64, said: &ImageLine) -> bool
    ensures { result ≡ lies_elsewhere chunk said.now }
{
    match said {
        ImageLine::OfObject(object) => chunk_number(object.address) != chunk,
        _ => false,
    }
}

// Adds the object that a line says.
fn add_said_node(
    alloc: Global,
    text: &mut Vec<u8>,
    line: &[u8],
    said: &ImageLine,
) -> Result<(), AllocError>
    requires { IsSized said.now }
    ensures { OnOk result (text.new.items ≡ text.old.items ++ flat_map dot (node_by line.now said.now)) }
{
    match said {
        ImageLine::OfObject(object) => add_node(alloc, text, line, object),
        _ => Ok(()),
    }
}

// Adds the objects of lines up to the first one in another chunk, and returns the lines from that one on.
fn add_nodes<'t>(
    alloc: Global,
    text: &mut Vec<u8>,
    chunk: u64,
    objects: Option<&'t [u8]>,
) -> Result<Option<&'t [u8]>, AllocError>
    ensures nodes { OnOk result (text.new.items ≡ text.old.items ++ flat_map dot (nodes_in chunk (optional_lines (option_copied objects.entry)))) }
    ensures left { IfOk result (λ left. optional_lines (option_copied left) ≡ lines_behind chunk (optional_lines (option_copied objects.entry))) }
{
    let mut left = objects;
    loop {
        let Some(lines) = left else {
            return Ok(None);
        };
        let (line, more) = next_line(lines);
        let said = read_line(alloc, line)?;
        if lies_elsewhere(chunk, &said) {
            return Ok(Some(lines));
        }
        add_said_node(alloc, text, line, &said)?;
        left = more;
    }
}

// Adds a chunk with its objects, and returns the lines whose objects aren't drawn yet.
fn add_chunk_with<'t>(
    alloc: Global,
    text: &mut Vec<u8>,
    read: &Read,
    path: Option<u64>,
    chunk: &ImageChunk,
    objects: Option<&'t [u8]>,
) -> Result<Option<&'t [u8]>, AllocError>
    ensures drawn { OnOk result (text.new.items ≡ text.old.items ++ flat_map dot (drawn_chunk read.now path chunk.now (optional_lines (option_copied objects.entry)))) }
    ensures left { IfOk result (λ left. optional_lines (option_copied left) ≡ lines_behind chunk.now.number (optional_lines (option_copied objects.entry))) }
{
    let mut within = Vec::new(alloc);
    let left = add_nodes(alloc, &mut within, chunk.number, objects)?;
    if is_drawn(read, path, chunk.owner) {
        add_chunk(alloc, text, read, chunk, within.as_slice())?;
    }
    Ok(left)
}

// Adds the edges of an object, if its heap is drawn.
fn add_object(
    alloc: Global,
    text: &mut Vec<u8>,
    read: &Read,
    path: Option<u64>,
    object: &ImageObject,
) -> Result<(), AllocError>
    ensures { OnOk result (text.new.items ≡ text.old.items ++ flat_map dot (edges_drawn read.now path object.now (owner_at read.now.chunks object.now.address))) }
{
    match owner_of(&read.chunks, object.address) {
        None => Ok(()),
        Some(task) => {
            if is_drawn(read, path, task) {
                add_edges(alloc, text, read, task, object)
            } else {
                Ok(())
            }
        }
    }
}

// Adds a task, if its heap is drawn.
fn add_task_with(
    alloc: Global,
    text: &mut Vec<u8>,
    read: &Read,
    heaps: &ImageTable<HeapTotals>,
    path: Option<u64>,
    task: &ImageTask,
) -> Result<(), AllocError>
    ensures { OnOk result (text.new.items ≡ text.old.items ++ flat_map dot (drawn_task read.now heaps.now path task.now)) }
{
    if is_drawn(read, path, task.number) {
        add_task(alloc, text, read, heaps, task)
    } else {
        Ok(())
    }
}

// Adds what a line says, and returns the lines whose objects aren't drawn yet.
fn add_said<'t>(
    alloc: Global,
    text: &mut Vec<u8>,
    read: &Read,
    heaps: &ImageTable<HeapTotals>,
    path: Option<u64>,
    said: &ImageLine,
    objects: Option<&'t [u8]>,
) -> Result<Option<&'t [u8]>, AllocError>
    ensures drawn { OnOk result (text.new.items ≡ text.old.items ++ flat_map dot (drawn read.now heaps.now path (optional_lines (option_copied objects.entry)) said.now)) }
    ensures left { IfOk result (λ left. optional_lines (option_copied left) ≡ undrawn_after said.now (optional_lines (option_copied objects.entry))) }
{
    match said {
        ImageLine::OfTask(task) => {
            add_task_with(alloc, text, read, heaps, path, task)?;
            Ok(objects)
        }
        ImageLine::OfChunk(chunk) => add_chunk_with(alloc, text, read, path, chunk, objects),
        ImageLine::OfObject(object) => {
            add_object(alloc, text, read, path, object)?;
            Ok(objects)
        }
        _ => Ok(objects),
    }
}

/// Adds what the lines of a text say.
pub(crate) fn add_all(
    alloc: Global,
    graph: &mut Vec<u8>,
    read: &Read,
    heaps: &ImageTable<HeapTotals>,
    path: Option<u64>,
    text: &[u8],
) -> Result<(), AllocError>
    ensures { OnOk result (graph.new.items ≡ graph.old.items ++ flat_map dot (all_drawn read.now heaps.now path (lines_of text.now) (lines_of text.now))) }
{
    let mut rest = text;
    let mut objects = Some(text);
    loop {
        let (line, lines) = next_line(rest);
        let said = read_line(alloc, line)?;
        objects = add_said(alloc, graph, read, heaps, path, &said, objects)?;
        match lines {
            None => return Ok(()),
            Some(more) => rest = more,
        }
    }
}
