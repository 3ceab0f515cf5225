// What is told of heaps, as values.

ghost use Rattle.std.specs.Prelude.{◌≡◌, ◌++◌, IfOk, OnOk};
ghost use Rattle.std.specs.List.{flat_map};
ghost use Rattle.log_json.specs.Pieces.{depth_piece, heaps_piece_if};

use crate::value::{add, add_array, add_number};
use log_report::{HeapDepth, LogHeaps};
use std::alloc::{AllocError, Global};

// Adds a comma, and the blocks that tasks of one depth bear.
fn add_depth(alloc: Global, text: &mut Vec<u8>, row: HeapDepth) -> Result<(), AllocError>
    ensures { OnOk result (text.new.items ≡ text.old.items ++ depth_piece row) }
{
    add_number(alloc, text, ",\n{\"depth\":", row.depth as u128)?;
    add_number(alloc, text, ",\"blocks\":", row.blocks as u128)?;
    add_number(alloc, text, ",\"words\":", row.words as u128)?;
    add_number(alloc, text, ",\"own\":", row.own as u128)?;
    add(text, "}")
}

// All depths, each after a comma.
fn depths_text(alloc: Global, rows: &[HeapDepth]) -> Result<Vec<u8>, AllocError>
    ensures { IfOk result (λ text. text.items ≡ flat_map depth_piece rows.now) }
{
    let mut text = Vec::new(alloc);
    for row in rows {
        add_depth(alloc, &mut text, *row)?;
    }
    Ok(text)
}

/// Adds what is told of heaps, if anything is.
pub(crate) fn add_heaps(
    alloc: Global,
    text: &mut Vec<u8>,
    heaps: &Option<LogHeaps>,
) -> Result<(), AllocError>
    ensures { OnOk result (text.new.items ≡ text.old.items ++ heaps_piece_if heaps.now) }
{
    let Some(heaps) = heaps else {
        return Ok(());
    };
    let further = depths_text(alloc, heaps.depths.as_slice())?;
    add(text, ",\"heaps\":{\"depths\":")?;
    add_array(text, further.as_slice())?;
    add_number(alloc, text, ",\"stores\":", heaps.stores as u128)?;
    add_number(alloc, text, ",\"down\":", heaps.down as u128)?;
    add(text, "}")
}
