// Entangled and stale lines by blocks, kinds and sites.

ghost use Rattle.std.specs.Prelude.{◌≡◌, ◌++◌, OnOk, IfOk, string_bytes};
ghost use Rattle.std.specs.List.{flat_map};
ghost use Rattle.log_groups.specs.Groups.{groups_of};
ghost use Rattle.log_sites.specs.Names.{name_of};
ghost use Rattle.log_report.specs.Uses.{use_key, use_item, use_items, what_of, since_of, use_head, use_other, use_tail, use_line, use_group_line, use_lines};

use crate::label::{add, add_label, add_line};
use crate::told::{ToldUse, label_kind, label_site};
use log_groups::{Group, GroupKey, Item, group_items};
use log_sites::SiteNames;
use plain_vec::Listed;
use std::alloc::{AllocError, Global};

/// What is wrong with uses of a block.
#[derive(Clone, Copy)]
pub enum UseFault {
    /// The block's birth doesn't happen before the read that yields it.
    EntangledRead,
    /// Nor before its use.
    EntangledUse,
    /// The block's release happens before its use.
    StaleUse,
}

fn what_of(fault: UseFault) -> &'static str
    ensures { result.now ≡ what_of fault }
{
    match fault {
        UseFault::EntangledRead => "entangled read",
        UseFault::EntangledUse => "entangled use",
        UseFault::StaleUse => "stale use",
    }
}

/// What the other line does to the block.
pub fn since_of(fault: UseFault) -> &'static str
    ensures { result.now ≡ since_of fault }
{
    match fault {
        UseFault::EntangledRead => "born",
        UseFault::EntangledUse => "born",
        UseFault::StaleUse => "released",
    }
}

// What uses are gathered by.
fn use_key(told: ToldUse) -> GroupKey
    ensures { result ≡ use_key told }
{
    GroupKey {
        block: told.block,
        first_kind: label_kind(told.line),
        first_site: label_site(told.line),
        second_kind: 0,
        second_site: 0,
    }
}

fn use_item(told: ToldUse, place: usize) -> Item
    ensures { result ≡ use_item told place }
{
    Item {
        key: use_key(told),
        size: 1,
        place,
    }
}

fn use_items(alloc: Global, uses: &[ToldUse]) -> Result<Listed<Item>, AllocError>
    ensures { IfOk result (λ items. items ≡ use_items 0 uses.now) }
{
    let mut items = Listed::new(alloc);
    for (place, told) in uses.iter().enumerate() {
        items.push(use_item(*told, place))?;
    }
    Ok(items)
}

fn use_head(alloc: Global, fault: UseFault, block: u64) -> Result<String, AllocError>
    ensures { IfOk result (λ text. string_bytes text ≡ use_head fault block) }
{
    let what = what_of(fault);
    format!(in alloc; "{what} {block}: ")
}

fn use_other(alloc: Global, fault: UseFault) -> Result<String, AllocError>
    ensures { IfOk result (λ text. string_bytes text ≡ use_other fault) }
{
    let since = since_of(fault);
    format!(in alloc; ", {since}")
}

fn use_tail(alloc: Global, total: u128) -> Result<String, AllocError>
    ensures { IfOk result (λ text. string_bytes text ≡ use_tail total) }
{
    format!(in alloc; "; lines {total}\n")
}

// Adds the line of uses.
fn add_use(
    alloc: Global,
    text: &mut Vec<u8>,
    names: &SiteNames,
    fault: UseFault,
    told: ToldUse,
    total: u128,
) -> Result<(), AllocError>
    ensures { OnOk result (text.new.items ≡ text.old.items ++ use_line (name_of names.now) fault told total) }
{
    let head = use_head(alloc, fault, told.block)?;
    add(text, head.as_str())?;
    add_label(alloc, text, names, told.line)?;
    let other = use_other(alloc, fault)?;
    add(text, other.as_str())?;
    add_line(alloc, text, told.other)?;
    let tail = use_tail(alloc, total)?;
    add(text, tail.as_str())
}

// Adds the line of a group.
fn add_use_group(
    alloc: Global,
    text: &mut Vec<u8>,
    names: &SiteNames,
    fault: UseFault,
    uses: &[ToldUse],
    group: Group,
) -> Result<(), AllocError>
    ensures { OnOk result (text.new.items ≡ text.old.items ++ use_group_line (name_of names.now) fault uses.now group) }
{
    match uses.get(group.first.place) {
        None => Ok(()),
        Some(told) => add_use(alloc, text, names, fault, *told, group.total),
    }
}

// Adds the lines of groups.
fn add_use_groups(
    alloc: Global,
    text: &mut Vec<u8>,
    names: &SiteNames,
    fault: UseFault,
    uses: &[ToldUse],
    groups: &[Group],
) -> Result<(), AllocError>
    ensures { OnOk result (text.new.items ≡ text.old.items ++ flat_map (use_group_line (name_of names.now) fault uses.now) groups.now) }
{
    for group in groups {
        add_use_group(alloc, text, names, fault, uses, *group)?;
    }
    Ok(())
}

/// The groups of uses of one block, and of the same kind and site.
pub fn use_groups(alloc: Global, uses: &[ToldUse]) -> Result<Listed<Group>, AllocError>
    ensures { IfOk result (λ groups. groups ≡ groups_of (use_items 0 uses.now)) }
{
    let items = use_items(alloc, uses)?;
    group_items(alloc, items.as_slice())
}

/// Adds a line for each block, kind and site.
pub(crate) fn add_use_lines(
    alloc: Global,
    text: &mut Vec<u8>,
    names: &SiteNames,
    fault: UseFault,
    uses: &[ToldUse],
) -> Result<(), AllocError>
    ensures { OnOk result (text.new.items ≡ text.old.items ++ use_lines (name_of names.now) fault uses.now) }
{
    let groups = use_groups(alloc, uses)?;
    add_use_groups(alloc, text, names, fault, uses, groups.as_slice())
}
