// What is written of a line.

ghost use Rattle.std.specs.Prelude.{◌≡◌, ◌++◌, ◌∷◌, OnOk, IfOk, Some, codes, string_bytes};
ghost use Rattle.std.specs.Fmt.{decimal};
ghost use Rattle.log_sites.specs.Names.{name_of};
ghost use Rattle.log_report.specs.Labels.{kind_word, site_text, line_text, label_text};

use crate::told::{LineKind, Told};
use log_form::LogPosition;
use log_sites::SiteNames;
use std::alloc::{AllocError, Global};

/// The word of a kind.
pub fn kind_word(kind: LineKind) -> &'static str
    ensures { result.now ≡ kind_word kind }
{
    match kind {
        LineKind::Read => "read",
        LineKind::Write => "write",
        LineKind::AtomicRead => "atomic read",
        LineKind::AtomicWrite => "atomic write",
        LineKind::Release => "release",
    }
}

/// Adds a text.
pub(crate) fn add(text: &mut Vec<u8>, more: &str) -> Result<(), AllocError>
    ensures { OnOk result (text.new.items ≡ text.old.items ++ more.now) }
{
    text.extend_from_slice(more.as_bytes())
}

// Adds a site without a name.
fn add_number(alloc: Global, text: &mut Vec<u8>, site: u64) -> Result<(), AllocError>
    ensures { OnOk result (text.new.items ≡ text.old.items ++ (codes " @" ++ decimal site)) }
{
    let number = format!(in alloc; " @{site}")?;
    add(text, number.as_str())
}

// Adds a name.
fn add_name(text: &mut Vec<u8>, name: &[u8]) -> Result<(), AllocError>
    ensures { OnOk result (text.new.items ≡ text.old.items ++ 32 ∷ name.now) }
{
    text.push(b' ')?;
    text.extend_from_slice(name)
}

// Adds a site, by its name or its number.
fn add_known(
    alloc: Global,
    text: &mut Vec<u8>,
    names: &SiteNames,
    site: u64,
) -> Result<(), AllocError>
    ensures { OnOk result (text.new.items ≡ text.old.items ++ site_text (name_of names.now) (Some site)) }
{
    match names.get(site) {
        Some(name) => add_name(text, name),
        None => add_number(alloc, text, site),
    }
}

// Adds a site, if there is one.
fn add_site(
    alloc: Global,
    text: &mut Vec<u8>,
    names: &SiteNames,
    site: Option<u64>,
) -> Result<(), AllocError>
    ensures { OnOk result (text.new.items ≡ text.old.items ++ site_text (name_of names.now) site) }
{
    match site {
        Some(site) => add_known(alloc, text, names, site),
        None => Ok(()),
    }
}

// Where a line stands.
fn line_text(alloc: Global, at: LogPosition) -> Result<String, AllocError>
    ensures { IfOk result (λ text. string_bytes text ≡ line_text at) }
{
    format!(in alloc; " line {}:{}", at.file as u128 + 1, at.line)
}

/// Adds where a line stands.
pub(crate) fn add_line(alloc: Global, text: &mut Vec<u8>, at: LogPosition) -> Result<(), AllocError>
    ensures { OnOk result (text.new.items ≡ text.old.items ++ line_text at) }
{
    let line = line_text(alloc, at)?;
    add(text, line.as_str())
}

/// Adds what a line does, its site, and where it stands.
pub(crate) fn add_label(
    alloc: Global,
    text: &mut Vec<u8>,
    names: &SiteNames,
    told: Told,
) -> Result<(), AllocError>
    ensures { OnOk result (text.new.items ≡ text.old.items ++ label_text (name_of names.now) told) }
{
    add(text, kind_word(told.kind))?;
    add_site(alloc, text, names, told.site)?;
    add_line(alloc, text, told.at)
}
