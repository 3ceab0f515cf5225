// Writes the lines of a log.

ghost use Rattle.std.specs.Prelude.{◌≡◌, ◌∷◌, ◌++◌, [], OnOk};
ghost use Rattle.std.specs.List.{flat_map};
ghost use Rattle.std.specs.Fmt.{decimal};
ghost use Rattle.run_log.specs.Writing.{is_location, spaced_numbers, place_text, site_text, access_letter, access_text, reference_text, letter_text, act_text, line_text, written};

use log_lines::{Access, AccessKind, Act, LogLine, LogPlace, Reference};
use std::alloc::{AllocError, Global};

// Adds a number, with a space before it.
fn add_number(alloc: Global, text: &mut Vec<u8>, number: u64) -> Result<(), AllocError>
    ensures { OnOk result (text.new.items ≡ text.old.items ++ 32 ∷ decimal number) }
{
    let word = format!(in alloc; " {number}")?;
    text.extend_from_slice(word.as_bytes())
}

// Adds numbers, with a space before each.
fn add_numbers(alloc: Global, text: &mut Vec<u8>, numbers: &[u64]) -> Result<(), AllocError>
    ensures { OnOk result (text.new.items ≡ text.old.items ++ spaced_numbers numbers.now) }
{
    for number in numbers {
        add_number(alloc, text, *number)?;
    }
    Ok(())
}

// Adds a letter, and numbers behind it.
fn add_letter(
    alloc: Global,
    text: &mut Vec<u8>,
    letter: u8,
    numbers: &[u64],
) -> Result<(), AllocError>
    ensures { OnOk result (text.new.items ≡ text.old.items ++ letter_text letter numbers.now) }
{
    text.push(letter)?;
    add_numbers(alloc, text, numbers)
}

// Whether a place is one location.
fn is_location(place: &LogPlace) -> bool
    ensures { result ≡ is_location place.now }
{
    place.length == 1 && place.runs == 1 && place.apart == 1
}

// Adds a place.
fn add_place(alloc: Global, text: &mut Vec<u8>, place: &LogPlace) -> Result<(), AllocError>
    ensures { OnOk result (text.new.items ≡ text.old.items ++ place_text place.now) }
{
    if is_location(place) {
        add_numbers(alloc, text, &[place.block, place.offset])
    } else {
        let numbers = [
            place.block,
            place.offset,
            place.length,
            place.runs,
            place.apart,
        ];
        add_numbers(alloc, text, &numbers)
    }
}

// Adds a site, if there is one.
fn add_site(alloc: Global, text: &mut Vec<u8>, site: Option<u64>) -> Result<(), AllocError>
    ensures { OnOk result (text.new.items ≡ text.old.items ++ site_text site) }
{
    match site {
        None => Ok(()),
        Some(number) => {
            let word = format!(in alloc; " @{number}")?;
            text.extend_from_slice(word.as_bytes())
        }
    }
}

fn access_letter(kind: AccessKind) -> u8
    ensures { result ≡ access_letter kind }
{
    match kind {
        AccessKind::Read => b'r',
        AccessKind::Write => b'w',
        AccessKind::AtomicRead => b'R',
        AccessKind::AtomicWrite => b'W',
    }
}

fn add_access(alloc: Global, text: &mut Vec<u8>, access: &Access) -> Result<(), AllocError>
    ensures { OnOk result (text.new.items ≡ text.old.items ++ access_text access.now) }
{
    text.push(access_letter(access.kind))?;
    add_place(alloc, text, &access.place)?;
    add_site(alloc, text, access.site)
}

fn add_reference(
    alloc: Global,
    text: &mut Vec<u8>,
    letter: u8,
    reference: &Reference,
) -> Result<(), AllocError>
    ensures { OnOk result (text.new.items ≡ text.old.items ++ reference_text letter reference.now) }
{
    let numbers = [reference.block, reference.offset, reference.target];
    add_letter(alloc, text, letter, &numbers)?;
    add_site(alloc, text, reference.site)
}

fn add_act(alloc: Global, text: &mut Vec<u8>, act: &Act) -> Result<(), AllocError>
    ensures { OnOk result (text.new.items ≡ text.old.items ++ act_text act.now) }
{
    match act {
        Act::Access(access) => add_access(alloc, text, access),
        Act::Yield(reference) => add_reference(alloc, text, b'g', reference),
        Act::Store(reference) => add_reference(alloc, text, b'p', reference),
        Act::Birth { block, length } => add_letter(alloc, text, b'a', &[*block, *length]),
        Act::Release(block) => add_letter(alloc, text, b'f', &[*block]),
        Act::Work(units) => add_letter(alloc, text, b'k', &[*units]),
        Act::Spawn(task) => add_letter(alloc, text, b'+', &[*task as u64]),
        Act::Join(task) => add_letter(alloc, text, b'-', &[*task as u64]),
        Act::Finish => add_letter(alloc, text, b'.', &[]),
    }
}

// Adds the name of a site, which is left empty.
fn add_name(alloc: Global, text: &mut Vec<u8>, site: u64) -> Result<(), AllocError>
    ensures { OnOk result (text.new.items ≡ text.old.items ++ letter_text 64 (site ∷ []) ++ 32 ∷ []) }
{
    add_letter(alloc, text, b'@', &[site])?;
    text.push(b' ')?;
    Ok(())
}

// Adds a line without its line feed.
fn add_bare_line(alloc: Global, text: &mut Vec<u8>, line: &LogLine) -> Result<(), AllocError>
    ensures { OnOk result (text.new.items ≡ text.old.items ++ line_text line.now) }
{
    match line {
        LogLine::Version => text.extend_from_slice(b"hhlog 1"),
        LogLine::Strand { task, strand } => {
            add_letter(alloc, text, b's', &[*task as u64, *strand as u64])
        }
        LogLine::Act(act) => add_act(alloc, text, act),
        LogLine::Name(site) => add_name(alloc, text, *site),
        LogLine::Comment => text.extend_from_slice(b"#"),
        LogLine::End => text.extend_from_slice(b"end"),
    }
}

/// Adds a line with its line feed; the name of a site is left empty.
pub fn add_line(alloc: Global, text: &mut Vec<u8>, line: &LogLine) -> Result<(), AllocError>
    ensures { OnOk result (text.new.items ≡ text.old.items ++ written line.now) }
{
    add_bare_line(alloc, text, line)?;
    text.push(b'\n')?;
    Ok(())
}
