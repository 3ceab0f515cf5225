// Faults as a JSON value.

ghost use Rattle.std.specs.Prelude.{◌≡◌, ◌++◌, OnOk, IfOk};
ghost use Rattle.std.specs.List.{flat_map};
ghost use Rattle.fault_lines.specs.Json.{near_piece, fault_piece, further_piece, pieces, array_text, faults_json};

use crate::expected::expected;
use json_text::{first_number, more_number, more_word};
use plain_vec::Listed;
use std::alloc::{AllocError, Global};
use text_faults::Fault;

// Adds what may have been meant, if that is known.
fn add_near(text: &mut Vec<u8>, near: &Option<Listed<u8>>) -> Result<(), AllocError>
    ensures { OnOk result (text.new.items ≡ text.old.items ++ near_piece near.now) }
{
    match near {
        None => Ok(()),
        Some(near) => more_word(text, b"near", near.as_slice()),
    }
}

// Adds the object of a fault.
fn add_fault(alloc: Global, text: &mut Vec<u8>, fault: &Fault) -> Result<(), AllocError>
    ensures { OnOk result (text.new.items ≡ text.old.items ++ fault_piece fault.now) }
{
    let wanted = expected(alloc, fault.wrong)?;
    text.push(b'{')?;
    first_number(alloc, text, b"line", fault.line as u64)?;
    more_number(alloc, text, b"column", fault.column as u64)?;
    more_word(text, b"word", fault.word.as_slice())?;
    more_word(text, b"cause", fault.wrong.cause().text().as_bytes())?;
    more_word(text, b"expected", wanted.as_bytes())?;
    add_near(text, &fault.near)?;
    text.push(b'}')?;
    Ok(())
}

// The object of a fault after a comma.
fn add_further(alloc: Global, text: &mut Vec<u8>, fault: &Fault) -> Result<(), AllocError>
    ensures { OnOk result (text.new.items ≡ text.old.items ++ further_piece fault.now) }
{
    text.push(b',')?;
    text.push(b'\n')?;
    add_fault(alloc, text, fault)
}

// The objects of faults, each after a comma.
fn further_text(alloc: Global, faults: &[Fault]) -> Result<Vec<u8>, AllocError>
    ensures { IfOk result (λ text. text.items ≡ flat_map further_piece faults.now) }
{
    let mut text = Vec::new(alloc);
    for fault in faults {
        add_further(alloc, &mut text, fault)?;
    }
    Ok(text)
}

// Adds the objects of a fault and of those after it, with commas between them.
fn add_some(
    alloc: Global,
    text: &mut Vec<u8>,
    first: &Fault,
    more: &[Fault],
) -> Result<(), AllocError>
    ensures { OnOk result (text.new.items ≡ text.old.items ++ (fault_piece first.now ++ flat_map further_piece more.now)) }
{
    let further = further_text(alloc, more)?;
    add_fault(alloc, text, first)?;
    text.extend_from_slice(further.as_slice())?;
    Ok(())
}

// Adds the objects of faults, with commas between them.
fn add_all(alloc: Global, text: &mut Vec<u8>, faults: &[Fault]) -> Result<(), AllocError>
    ensures { OnOk result (text.new.items ≡ text.old.items ++ pieces faults.now) }
{
    match faults {
        [] => Ok(()),
        [first, more @ ..] => add_some(alloc, text, first, more),
    }
}

// All faults between brackets.
fn array_text(alloc: Global, faults: &[Fault]) -> Result<Vec<u8>, AllocError>
    ensures { IfOk result (λ text. text.items ≡ array_text faults.now) }
{
    let mut text = Vec::new(alloc);
    text.push(b'[')?;
    add_all(alloc, &mut text, faults)?;
    text.push(b']')?;
    text.push(b'\n')?;
    Ok(text)
}

/// All faults as a JSON array of objects, and a line feed.
pub fn faults_json(alloc: Global, faults: &[Fault]) -> Result<Vec<u8>, AllocError>
    ensures { IfOk result (λ text. text.items ≡ faults_json faults.now) }
{
    array_text(alloc, faults)
}
