// Entangled and stale uses as values, each after a comma.

ghost use Rattle.std.specs.Prelude.{◌≡◌, ◌++◌, OnOk, IfOk, string_bytes};
ghost use Rattle.std.specs.List.{flat_map};
ghost use Rattle.log_sites.specs.Names.{name_of};
ghost use Rattle.log_json.specs.Pieces.{block_piece, since_piece, use_piece, use_group_piece, uses_piece};

use crate::line::{add_line, add_position};
use crate::value::{add, add_number};
use json_text::add_word;
use log_form::LogPosition;
use log_groups::Group;
use log_report::{ToldUse, UseFault, since_of, use_groups};
use log_sites::SiteNames;
use std::alloc::{AllocError, Global};

// A comma, and the block.
fn block_piece(alloc: Global, block: u64) -> Result<String, AllocError>
    ensures { IfOk result (λ text. string_bytes text ≡ block_piece block) }
{
    format!(in alloc; ",\n{{\"block\":{block},\"use\":")
}

// Adds a comma, and the block.
fn add_block(alloc: Global, text: &mut Vec<u8>, block: u64) -> Result<(), AllocError>
    ensures { OnOk result (text.new.items ≡ text.old.items ++ block_piece block) }
{
    let piece = block_piece(alloc, block)?;
    add(text, piece.as_str())
}

// Adds the line of a block's birth or release.
fn add_since(
    alloc: Global,
    text: &mut Vec<u8>,
    fault: UseFault,
    at: LogPosition,
) -> Result<(), AllocError>
    ensures { OnOk result (text.new.items ≡ text.old.items ++ since_piece fault at) }
{
    add(text, ",")?;
    add_word(text, since_of(fault).as_bytes())?;
    add(text, ":{")?;
    add_position(alloc, text, at)
}

// Adds uses of one block, kind and site.
fn add_use(
    alloc: Global,
    text: &mut Vec<u8>,
    names: &SiteNames,
    fault: UseFault,
    told: ToldUse,
    total: u128,
) -> Result<(), AllocError>
    ensures { OnOk result (text.new.items ≡ text.old.items ++ use_piece (name_of names.now) fault told total) }
{
    add_block(alloc, text, told.block)?;
    add_line(alloc, text, names, told.line)?;
    add_since(alloc, text, fault, told.other)?;
    add_number(alloc, text, ",\"lines\":", total)?;
    add(text, "}")
}

// Adds a group.
fn add_group(
    alloc: Global,
    text: &mut Vec<u8>,
    names: &SiteNames,
    fault: UseFault,
    uses: &[ToldUse],
    group: Group,
) -> Result<(), AllocError>
    ensures { OnOk result (text.new.items ≡ text.old.items ++ use_group_piece (name_of names.now) fault uses.now group) }
{
    match uses.get(group.first.place) {
        None => Ok(()),
        Some(told) => add_use(alloc, text, names, fault, *told, group.total),
    }
}

// All groups.
fn groups_text(
    alloc: Global,
    names: &SiteNames,
    fault: UseFault,
    uses: &[ToldUse],
    groups: &[Group],
) -> Result<Vec<u8>, AllocError>
    ensures { IfOk result (λ text. text.items ≡ flat_map (use_group_piece (name_of names.now) fault uses.now) groups.now) }
{
    let mut text = Vec::new(alloc);
    for group in groups {
        add_group(alloc, &mut text, names, fault, uses, *group)?;
    }
    Ok(text)
}

/// The uses of a kind, each after a comma.
pub(crate) fn uses_text(
    alloc: Global,
    names: &SiteNames,
    fault: UseFault,
    uses: &[ToldUse],
) -> Result<Vec<u8>, AllocError>
    ensures { IfOk result (λ text. text.items ≡ uses_piece (name_of names.now) fault uses.now) }
{
    let groups = use_groups(alloc, uses)?;
    groups_text(alloc, names, fault, uses, groups.as_slice())
}
