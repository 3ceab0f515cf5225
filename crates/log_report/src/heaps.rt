// What is told of the heaps of a run's tasks, and its lines.

ghost use Rattle.std.specs.Prelude.{◌≡◌, ◌++◌, IfOk, OnOk, string_bytes};
ghost use Rattle.std.specs.List.{flat_map};
ghost use Rattle.log_report.specs.HeapLines.{depth_line, stores_line, heaps_text_if};

use crate::label::add;
use plain_vec::Listed;
use std::alloc::{AllocError, Global};

/// The blocks that tasks of one depth bear.
#[derive(Clone, Copy)]
pub struct HeapDepth {
    /// How many spawns lead from the root to each of the tasks.
    pub depth: u32,
    pub blocks: u64,
    pub words: u64,
    /// How many of the words are of blocks that no other task names.
    pub own: u64,
}

/// What a manager of hierarchical heaps would meet on a run.
#[derive(Drop)]
pub struct LogHeaps {
    /// For each depth at which blocks are born, in ascending order.
    pub depths: Listed<HeapDepth>,
    /// How many references other than nil are stored.
    pub stores: u64,
    /// How many of them are down-pointers.
    pub down: u64,
}

// The line on a depth.
fn depth_line(alloc: Global, row: HeapDepth) -> Result<String, AllocError>
    ensures { IfOk result (λ text. string_bytes text ≡ depth_line row) }
{
    format!(in alloc;
        "heaps depth {} blocks {} words {} own {}\n",
        row.depth, row.blocks, row.words, row.own
    )
}

// The line on references.
fn stores_line(alloc: Global, stores: u64, down: u64) -> Result<String, AllocError>
    ensures { IfOk result (λ text. string_bytes text ≡ stores_line stores down) }
{
    format!(in alloc; "heaps stores {stores} down {down}\n")
}

// Adds the line on a depth.
fn add_depth(alloc: Global, text: &mut Vec<u8>, row: HeapDepth) -> Result<(), AllocError>
    ensures { OnOk result (text.new.items ≡ text.old.items ++ depth_line row) }
{
    let line = depth_line(alloc, row)?;
    add(text, line.as_str())
}

// Adds the lines on all depths.
fn add_depths(alloc: Global, text: &mut Vec<u8>, rows: &[HeapDepth]) -> Result<(), AllocError>
    ensures { OnOk result (text.new.items ≡ text.old.items ++ flat_map depth_line rows.now) }
{
    for row in rows {
        add_depth(alloc, text, *row)?;
    }
    Ok(())
}

/// Adds the lines on heaps, if they are told.
pub(crate) fn add_heaps(
    alloc: Global,
    text: &mut Vec<u8>,
    heaps: &Option<LogHeaps>,
) -> Result<(), AllocError>
    ensures { OnOk result (text.new.items ≡ text.old.items ++ heaps_text_if heaps.now) }
{
    let Some(heaps) = heaps else {
        return Ok(());
    };
    add_depths(alloc, text, heaps.depths.as_slice())?;
    let line = stores_line(alloc, heaps.stores, heaps.down)?;
    add(text, line.as_str())
}
