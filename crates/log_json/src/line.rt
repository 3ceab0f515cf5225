// Lines of the log.

ghost use Rattle.std.specs.Prelude.{◌≡◌, ◌++◌, ◌∷◌, OnOk, IfOk, codes, string_bytes};
ghost use Rattle.std.specs.Fmt.{decimal};
ghost use Rattle.json_text.specs.below.quoted_text.{quoted};
ghost use Rattle.log_sites.specs.Names.{name_of};
ghost use Rattle.log_json.specs.Values.{site_word};
ghost use Rattle.log_json.specs.Pieces.{site_piece, position_piece, line_piece};

use crate::value::add;
use json_text::add_word;
use log_form::LogPosition;
use log_report::{Told, kind_word};
use log_sites::SiteNames;
use std::alloc::{AllocError, Global};

// Adds a site without a name.
fn add_site_number(alloc: Global, text: &mut Vec<u8>, site: u64) -> Result<(), AllocError>
    ensures { OnOk result (text.new.items ≡ text.old.items ++ quoted (64 ∷ decimal site)) }
{
    let number = format!(in alloc; "@{site}")?;
    add_word(text, number.as_bytes())
}

// Adds the name of a site, or its number.
fn add_site_word(
    alloc: Global,
    text: &mut Vec<u8>,
    names: &SiteNames,
    site: u64,
) -> Result<(), AllocError>
    ensures { OnOk result (text.new.items ≡ text.old.items ++ quoted (site_word (name_of names.now site) site)) }
{
    match names.get(site) {
        Some(name) => add_word(text, name),
        None => add_site_number(alloc, text, site),
    }
}

// Adds a site, if there is one, after a comma.
fn add_site(
    alloc: Global,
    text: &mut Vec<u8>,
    names: &SiteNames,
    site: Option<u64>,
) -> Result<(), AllocError>
    ensures { OnOk result (text.new.items ≡ text.old.items ++ site_piece (name_of names.now) site) }
{
    match site {
        None => Ok(()),
        Some(site) => {
            add(text, ",\"site\":")?;
            add_site_word(alloc, text, names, site)
        }
    }
}

// The file and the line, and the end of an object.
fn position_piece(alloc: Global, at: LogPosition) -> Result<String, AllocError>
    ensures { IfOk result (λ text. string_bytes text ≡ position_piece at) }
{
    format!(in alloc; "\"file\":{},\"line\":{}}}", at.file as u128 + 1, at.line)
}

/// Adds the file and the line, and the end of an object.
pub(crate) fn add_position(
    alloc: Global,
    text: &mut Vec<u8>,
    at: LogPosition,
) -> Result<(), AllocError>
    ensures { OnOk result (text.new.items ≡ text.old.items ++ position_piece at) }
{
    let position = position_piece(alloc, at)?;
    add(text, position.as_str())
}

/// Adds what a line does, its site, and where it stands.
pub(crate) fn add_line(
    alloc: Global,
    text: &mut Vec<u8>,
    names: &SiteNames,
    told: Told,
) -> Result<(), AllocError>
    ensures { OnOk result (text.new.items ≡ text.old.items ++ line_piece (name_of names.now) told) }
{
    add(text, "{\"kind\":")?;
    add_word(text, kind_word(told.kind).as_bytes())?;
    add_site(alloc, text, names, told.site)?;
    add(text, ",")?;
    add_position(alloc, text, told.at)
}
