// The races by blocks, kinds and sites.

ghost use Rattle.std.specs.Prelude.{◌≡◌, ◌++◌, ◌≤◌, ◌<◌, OnOk, IfOk, drop, length, slice_get, string_bytes};
ghost use Rattle.std.specs.List.{flat_map};
ghost use Rattle.log_groups.specs.Groups.{groups_of};
ghost use Rattle.log_sites.specs.Names.{name_of};
ghost use Rattle.log_report.specs.Races.{same_line, follows, run_end, run_length, race_key, race_item, race_items, head_text, pair_text, tail_text, race_line, group_line, race_lines};

use crate::label::{add, add_label};
use crate::told::{ToldRace, label_kind, label_site};
use log_form::LogPosition;
use log_groups::{Group, GroupKey, Item, group_items};
use log_sites::SiteNames;
use plain_vec::Listed;
use std::alloc::{AllocError, Global};

fn same_line(one: LogPosition, other: LogPosition) -> bool
    ensures { result ≡ same_line one other }
{
    one.file == other.file && one.line == other.line
}

// Whether a race is of the locations behind another one's, and of the same lines.
fn follows(one: ToldRace, other: ToldRace) -> bool
    ensures { result ≡ follows one other }
{
    one.block == other.block
        && one.end == other.start
        && same_line(one.first.at, other.first.at)
        && same_line(one.second.at, other.second.at)
}

// Where the locations end that race as those of a race do, without a gap, by the races from a place on.
fn run_end(races: &[ToldRace], first: ToldRace, from: usize) -> u64
    requires { from ≤ length races.now }
    ensures { result ≡ run_end first (drop from races.now) }
{
    let mut last = first;
    for at in from..races.len() {
        let race = races[at];
        if !follows(last, race) {
            return last.end;
        }
        last = race;
    }
    last.end
}

// What races are gathered by.
fn race_key(race: ToldRace) -> GroupKey
    ensures { result ≡ race_key race }
{
    GroupKey {
        block: race.block,
        first_kind: label_kind(race.first),
        first_site: label_site(race.first),
        second_kind: label_kind(race.second),
        second_site: label_site(race.second),
    }
}

// A race as it is gathered.
fn race_item(race: ToldRace, place: usize) -> Item
    ensures { result ≡ race_item race place }
{
    Item {
        key: race_key(race),
        size: race.locations(),
        place,
    }
}

fn race_items(alloc: Global, races: &[ToldRace]) -> Result<Listed<Item>, AllocError>
    ensures { IfOk result (λ items. items ≡ race_items 0 races.now) }
{
    let mut items = Listed::new(alloc);
    for (place, race) in races.iter().enumerate() {
        items.push(race_item(*race, place))?;
    }
    Ok(items)
}

// The block, the first location, and how many race alike from there on.
fn head_text(alloc: Global, race: ToldRace, count: u64) -> Result<String, AllocError>
    ensures { IfOk result (λ text. string_bytes text ≡ head_text race count) }
{
    format!(in alloc; "race {} {} {count}: ", race.block, race.start)
}

// Adds both lines of a race.
pub(crate) fn add_pair(
    alloc: Global,
    text: &mut Vec<u8>,
    names: &SiteNames,
    race: ToldRace,
) -> Result<(), AllocError>
    ensures { OnOk result (text.new.items ≡ text.old.items ++ pair_text (name_of names.now) race) }
{
    add_label(alloc, text, names, race.first)?;
    add(text, ", ")?;
    add_label(alloc, text, names, race.second)
}

// How many locations race so.
fn tail_text(alloc: Global, total: u128) -> Result<String, AllocError>
    ensures { IfOk result (λ text. string_bytes text ≡ tail_text total) }
{
    format!(in alloc; "; locations {total}\n")
}

// Adds the line of a race.
fn add_race(
    alloc: Global,
    text: &mut Vec<u8>,
    names: &SiteNames,
    race: ToldRace,
    count: u64,
    total: u128,
) -> Result<(), AllocError>
    ensures { OnOk result (text.new.items ≡ text.old.items ++ race_line (name_of names.now) race count total) }
{
    let head = head_text(alloc, race, count)?;
    add(text, head.as_str())?;
    add_pair(alloc, text, names, race)?;
    let tail = tail_text(alloc, total)?;
    add(text, tail.as_str())
}

/// How many locations race as the first one of a race does, from that one on.
pub fn run_length(races: &[ToldRace], race: ToldRace, place: usize) -> u64
    requires { place < length races.now }
    ensures { result ≡ run_length races.now race place }
{
    run_end(races, race, place + 1).saturating_sub(race.start)
}

// Adds the line of a group.
fn add_group(
    alloc: Global,
    text: &mut Vec<u8>,
    names: &SiteNames,
    races: &[ToldRace],
    group: Group,
) -> Result<(), AllocError>
    ensures { OnOk result (text.new.items ≡ text.old.items ++ group_line (name_of names.now) races.now group) }
{
    let place = group.first.place;
    match races.get(place) {
        None => Ok(()),
        Some(race) => {
            let count = run_length(races, *race, place);
            add_race(alloc, text, names, *race, count, group.total)
        }
    }
}

/// The groups of races of one block, and of the same kinds and sites.
pub fn race_groups(alloc: Global, races: &[ToldRace]) -> Result<Listed<Group>, AllocError>
    ensures { IfOk result (λ groups. groups ≡ groups_of (race_items 0 races.now)) }
{
    let items = race_items(alloc, races)?;
    group_items(alloc, items.as_slice())
}

/// Adds a line for each block and pair of kinds and sites.
pub(crate) fn add_race_lines(
    alloc: Global,
    text: &mut Vec<u8>,
    names: &SiteNames,
    races: &[ToldRace],
) -> Result<(), AllocError>
    ensures { OnOk result (text.new.items ≡ text.old.items ++ race_lines (name_of names.now) races.now) }
{
    let groups = race_groups(alloc, races)?;
    add_groups(alloc, text, names, races, groups.as_slice())
}

// Adds the lines of groups.
fn add_groups(
    alloc: Global,
    text: &mut Vec<u8>,
    names: &SiteNames,
    races: &[ToldRace],
    groups: &[Group],
) -> Result<(), AllocError>
    ensures { OnOk result (text.new.items ≡ text.old.items ++ flat_map (group_line (name_of names.now) races.now) groups.now) }
{
    for group in groups {
        add_group(alloc, text, names, races, *group)?;
    }
    Ok(())
}
