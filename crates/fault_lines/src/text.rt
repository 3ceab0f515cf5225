// The lines that are shown of faults.

ghost use Rattle.std.specs.Prelude.{◌≡◌, ◌++◌, OnOk, IfOk, string_bytes};
ghost use Rattle.fault_lines.specs.Text.{line_and_column, word_text, near_text, where_text, what_text, fault_line, faults_text};

use crate::expected::expected;
use plain_vec::Listed;
use quoted_text::add_quoted;
use std::alloc::{AllocError, Global};
use text_faults::Fault;

fn line_and_column(alloc: Global, line: u32, column: usize) -> Result<String, AllocError>
    ensures { IfOk result (λ text. string_bytes text ≡ line_and_column line column) }
{
    format!(in alloc; "line {line}, column {column}: ")
}

// Adds the word, if there is one.
fn add_word(text: &mut Vec<u8>, word: &[u8]) -> Result<(), AllocError>
    ensures { OnOk result (text.new.items ≡ text.old.items ++ word_text word.now) }
{
    match word {
        [] => Ok(()),
        [_, ..] => {
            add_quoted(text, word)?;
            text.extend_from_slice(b": ")
        }
    }
}

// Adds the word that may have been meant.
fn add_near(text: &mut Vec<u8>, near: &Option<Listed<u8>>) -> Result<(), AllocError>
    ensures { OnOk result (text.new.items ≡ text.old.items ++ near_text near.now) }
{
    let Some(near) = near else {
        return Ok(());
    };
    text.extend_from_slice(b"; did you mean ")?;
    add_quoted(text, near.as_slice())?;
    text.extend_from_slice(b"?")
}

// Adds where a fault is.
fn add_where(alloc: Global, text: &mut Vec<u8>, fault: &Fault) -> Result<(), AllocError>
    ensures { OnOk result (text.new.items ≡ text.old.items ++ where_text fault.now) }
{
    let place = line_and_column(alloc, fault.line, fault.column)?;
    text.extend_from_slice(place.as_bytes())?;
    add_word(text, fault.word.as_slice())
}

// Adds what is expected there.
fn add_what(alloc: Global, text: &mut Vec<u8>, fault: &Fault) -> Result<(), AllocError>
    ensures { OnOk result (text.new.items ≡ text.old.items ++ what_text fault.now) }
{
    let wanted = expected(alloc, fault.wrong)?;
    text.extend_from_slice(b"expected ")?;
    text.extend_from_slice(wanted.as_bytes())?;
    add_near(text, &fault.near)?;
    text.push(b'\n')?;
    Ok(())
}

// Adds the line of a fault.
fn add_fault(alloc: Global, text: &mut Vec<u8>, fault: &Fault) -> Result<(), AllocError>
    ensures { OnOk result (text.new.items ≡ text.old.items ++ fault_line fault.now) }
{
    add_where(alloc, text, fault)?;
    add_what(alloc, text, fault)
}

/// A line for each fault: where it is, the word, what is expected there, and what may have been meant.
pub fn faults_text(alloc: Global, faults: &[Fault]) -> Result<Vec<u8>, AllocError>
    ensures { IfOk result (λ text. text.items ≡ faults_text faults.now) }
{
    let mut text = Vec::new(alloc);
    for fault in faults {
        add_fault(alloc, &mut text, fault)?;
    }
    Ok(text)
}
