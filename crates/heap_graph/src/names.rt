// The names of tasks, chunks, objects and fields in a graph.

ghost use Rattle.std.specs.Prelude.{◌≡◌, IfOk, string_bytes};
ghost use Rattle.quoted_text.specs.Labels.{task_name};
ghost use Rattle.heap_graph.specs.Names.{task_cluster, chunk_name, chunk_cluster, object_name, port_name, task_title, words_held, chunk_title, heap_title};

use crate::held::HeapTotals;
use image_check::{ImageChunk, ImageState, ImageTask};
use std::alloc::{AllocError, Global};

pub(crate) fn task_name(alloc: Global, task: u64) -> Result<String, AllocError>
    ensures { IfOk result (λ text. string_bytes text ≡ task_name task) }
{
    format!(in alloc; "task {task}")
}

pub(crate) fn task_cluster(alloc: Global, task: u64) -> Result<String, AllocError>
    ensures { IfOk result (λ text. string_bytes text ≡ task_cluster task) }
{
    format!(in alloc; "cluster task {task}")
}

pub(crate) fn chunk_name(alloc: Global, chunk: u64) -> Result<String, AllocError>
    ensures { IfOk result (λ text. string_bytes text ≡ chunk_name chunk) }
{
    format!(in alloc; "chunk {chunk}")
}

pub(crate) fn chunk_cluster(alloc: Global, chunk: u64) -> Result<String, AllocError>
    ensures { IfOk result (λ text. string_bytes text ≡ chunk_cluster chunk) }
{
    format!(in alloc; "cluster chunk {chunk}")
}

pub(crate) fn object_name(alloc: Global, address: u64) -> Result<String, AllocError>
    ensures { IfOk result (λ text. string_bytes text ≡ object_name address) }
{
    format!(in alloc; "{address}")
}

pub(crate) fn port_name(alloc: Global, place: u64) -> Result<String, AllocError>
    ensures { IfOk result (λ text. string_bytes text ≡ port_name place) }
{
    format!(in alloc; "f{place}")
}

// The words that a task's heap holds; nothing for a running task.
fn words_held(alloc: Global, state: ImageState, words: u64) -> Result<String, AllocError>
    ensures { IfOk result (λ text. string_bytes text ≡ words_held state words) }
{
    match state {
        ImageState::Running => Ok(String::new(alloc)),
        _ => format!(in alloc; ", {words} words"),
    }
}

pub(crate) fn task_title(
    alloc: Global,
    task: &ImageTask,
    held: HeapTotals,
) -> Result<String, AllocError>
    ensures { IfOk result (λ text. string_bytes text ≡ task_title task.now held) }
{
    let state = task.state.word();
    let words = words_held(alloc, task.state, held.words)?;
    let words = words.as_str();
    format!(in alloc; "task {} {state}{words}", task.number)
}

pub(crate) fn chunk_title(alloc: Global, chunk: &ImageChunk) -> Result<String, AllocError>
    ensures { IfOk result (λ text. string_bytes text ≡ chunk_title chunk.now) }
{
    format!(in alloc; "chunk {} of {} words", chunk.number, chunk.words)
}

pub(crate) fn heap_title(
    alloc: Global,
    task: &ImageTask,
    held: HeapTotals,
) -> Result<String, AllocError>
    ensures { IfOk result (λ text. string_bytes text ≡ heap_title task.now held) }
{
    let title = task_title(alloc, task, held)?;
    let title = title.as_str();
    format!(in alloc;
        "<f0> {title}|objects: {}|chunks: {}",
        held.objects, held.chunks
    )
}
