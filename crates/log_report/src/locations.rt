// The races of all locations, each on a line.

ghost use Rattle.std.specs.Prelude.{◌≡◌, ◌++◌, ◌-◌, OnOk, IfOk, string_bytes};
ghost use Rattle.std.specs.List.{flat_map};
ghost use Rattle.log_sites.specs.Names.{name_of};
ghost use Rattle.log_report.specs.Locations.{location_head, location_line, lines_from, location_lines, all_lines};

use crate::label::add;
use crate::races::add_pair;
use crate::told::ToldRace;
use log_sites::SiteNames;
use std::alloc::{AllocError, Global};

// The block and a location.
fn location_head(alloc: Global, block: u64, location: u64) -> Result<String, AllocError>
    ensures { IfOk result (λ text. string_bytes text ≡ location_head block location) }
{
    format!(in alloc; "race {block} {location}: ")
}

// Adds the line of a location.
fn add_location(
    alloc: Global,
    text: &mut Vec<u8>,
    names: &SiteNames,
    race: ToldRace,
    location: u64,
) -> Result<(), AllocError>
    ensures { OnOk result (text.new.items ≡ text.old.items ++ location_line (name_of names.now) race location) }
{
    let head = location_head(alloc, race.block, location)?;
    add(text, head.as_str())?;
    add_pair(alloc, text, names, race)?;
    add(text, "\n")
}

// Adds a line for each location of a race.
fn add_locations(
    alloc: Global,
    text: &mut Vec<u8>,
    names: &SiteNames,
    race: ToldRace,
) -> Result<(), AllocError>
    ensures { OnOk result (text.new.items ≡ text.old.items ++ location_lines (name_of names.now) race) }
{
    for location in race.start..race.end {
        add_location(alloc, text, names, race, location)?;
    }
    Ok(())
}

/// Adds a line for each location.
pub(crate) fn add_all_lines(
    alloc: Global,
    text: &mut Vec<u8>,
    names: &SiteNames,
    races: &[ToldRace],
) -> Result<(), AllocError>
    ensures { OnOk result (text.new.items ≡ text.old.items ++ all_lines (name_of names.now) races.now) }
{
    for race in races {
        add_locations(alloc, text, names, *race)?;
    }
    Ok(())
}
