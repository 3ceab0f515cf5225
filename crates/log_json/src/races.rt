// Races as values, each after a comma.
ghost use Rattle.std.specs.Prelude.{◌≡◌, ◌++◌, ◌-◌, OnOk, IfOk, string_bytes};
ghost use Rattle.std.specs.List.{flat_map};
ghost use Rattle.log_sites.specs.Names.{name_of};
ghost use Rattle.log_json.specs.Pieces.{pair_piece, place_piece, merged_piece, location_piece, pieces_from, group_piece, locations_piece, races_piece};

use crate::line::add_line;
use crate::value::{add, add_number};
use log_groups::Group;
use log_report::{Detail, ToldRace, race_groups, run_length};
use log_sites::SiteNames;
use std::alloc::{AllocError, Global};

// A comma, the block and a location.
fn place_piece(alloc: Global, block: u64, location: u64) -> Result<String, AllocError>
    ensures { IfOk result (λ text. string_bytes text ≡ place_piece block location) }
{
    format!(in alloc; ",\n{{\"block\":{block},\"offset\":{location}")
}

// Adds a comma, the block and a location.
fn add_place(alloc: Global, text: &mut Vec<u8>, block: u64, location: u64) -> Result<(), AllocError>
    ensures { OnOk result (text.new.items ≡ text.old.items ++ place_piece block location) }
{
    let place = place_piece(alloc, block, location)?;
    add(text, place.as_str())
}

// Adds both lines of a race.
fn add_pair(
    alloc: Global,
    text: &mut Vec<u8>,
    names: &SiteNames,
    race: ToldRace,
) -> Result<(), AllocError>
    ensures { OnOk result (text.new.items ≡ text.old.items ++ pair_piece (name_of names.now) race) }
{
    add(text, ",\"first\":")?;
    add_line(alloc, text, names, race.first)?;
    add(text, ",\"second\":")?;
    add_line(alloc, text, names, race.second)
}

// Adds races of one block, kinds and sites.
fn add_merged(
    alloc: Global,
    text: &mut Vec<u8>,
    names: &SiteNames,
    race: ToldRace,
    count: u64,
    total: u128,
) -> Result<(), AllocError>
    ensures { OnOk result (text.new.items ≡ text.old.items ++ merged_piece (name_of names.now) race count total) }
{
    add_place(alloc, text, race.block, race.start)?;
    add_number(alloc, text, ",\"count\":", count as u128)?;
    add_pair(alloc, text, names, race)?;
    add_number(alloc, text, ",\"locations\":", total)?;
    add(text, "}")
}

// Adds the race of a location.
fn add_location(
    alloc: Global,
    text: &mut Vec<u8>,
    names: &SiteNames,
    race: ToldRace,
    location: u64,
) -> Result<(), AllocError>
    ensures { OnOk result (text.new.items ≡ text.old.items ++ location_piece (name_of names.now) race location) }
{
    add_place(alloc, text, race.block, location)?;
    add_pair(alloc, text, names, race)?;
    add(text, "}")
}

// Adds a group.
fn add_group(
    alloc: Global,
    text: &mut Vec<u8>,
    names: &SiteNames,
    races: &[ToldRace],
    group: Group,
) -> Result<(), AllocError>
    ensures { OnOk result (text.new.items ≡ text.old.items ++ group_piece (name_of names.now) races.now group) }
{
    let place = group.first.place;
    match races.get(place) {
        None => Ok(()),
        Some(race) => {
            let count = run_length(races, *race, place);
            add_merged(alloc, text, names, *race, count, group.total)
        }
    }
}

// All groups.
fn groups_text(
    alloc: Global,
    names: &SiteNames,
    races: &[ToldRace],
    groups: &[Group],
) -> Result<Vec<u8>, AllocError>
    ensures { IfOk result (λ text. text.items ≡ flat_map (group_piece (name_of names.now) races.now) groups.now) }
{
    let mut text = Vec::new(alloc);
    for group in groups {
        add_group(alloc, &mut text, names, races, *group)?;
    }
    Ok(text)
}

// Adds the races of all locations of a race.
fn add_locations(
    alloc: Global,
    text: &mut Vec<u8>,
    names: &SiteNames,
    race: ToldRace,
) -> Result<(), AllocError>
    ensures { OnOk result (text.new.items ≡ text.old.items ++ locations_piece (name_of names.now) race) }
{
    for location in race.start..race.end {
        add_location(alloc, text, names, race, location)?;
    }
    Ok(())
}

// The races of all locations.
fn locations_text(
    alloc: Global,
    names: &SiteNames,
    races: &[ToldRace],
) -> Result<Vec<u8>, AllocError>
    ensures { IfOk result (λ text. text.items ≡ flat_map (locations_piece (name_of names.now)) races.now) }
{
    let mut text = Vec::new(alloc);
    for race in races {
        add_locations(alloc, &mut text, names, *race)?;
    }
    Ok(text)
}

/// The races, each after a comma.
pub(crate) fn races_text(
    alloc: Global,
    names: &SiteNames,
    detail: Detail,
    races: &[ToldRace],
) -> Result<Vec<u8>, AllocError>
    ensures { IfOk result (λ text. text.items ≡ races_piece (name_of names.now) detail races.now) }
{
    match detail {
        Detail::Merged => {
            let groups = race_groups(alloc, races)?;
            groups_text(alloc, names, races, groups.as_slice())
        }
        Detail::Locations => locations_text(alloc, names, races),
    }
}
