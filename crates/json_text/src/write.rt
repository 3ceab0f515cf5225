// Values and members, written piece by piece.

ghost use Rattle.std.specs.Prelude.{◌≡◌, ◌++◌, OnOk};
ghost use Rattle.json_text.specs.Json.{Number, Word, json, first_member, more_member};

use quoted_text::add_quoted;
use std::alloc::{AllocError, Global};

/// Adds a number.
pub fn add_number(alloc: Global, text: &mut Vec<u8>, number: u64) -> Result<(), AllocError>
    ensures { OnOk result (text.new.items ≡ text.old.items ++ json (Number number)) }
{
    let digits = format!(in alloc; "{number}")?;
    text.extend_from_slice(digits.as_bytes())
}

/// Adds a word, whatever its bytes are.
pub fn add_word(text: &mut Vec<u8>, word: &[u8]) -> Result<(), AllocError>
    ensures { OnOk result (text.new.items ≡ text.old.items ++ json (Word word.now)) }
{
    add_quoted(text, word)
}

/// Adds the first member of an object, a word.
pub fn first_word(text: &mut Vec<u8>, name: &[u8], word: &[u8]) -> Result<(), AllocError>
    ensures { OnOk result (text.new.items ≡ text.old.items ++ first_member name.now (Word word.now)) }
{
    add_quoted(text, name)?;
    text.push(b':')?;
    add_word(text, word)
}

/// Adds the first member of an object, a number.
pub fn first_number(
    alloc: Global,
    text: &mut Vec<u8>,
    name: &[u8],
    number: u64,
) -> Result<(), AllocError>
    ensures { OnOk result (text.new.items ≡ text.old.items ++ first_member name.now (Number number)) }
{
    add_quoted(text, name)?;
    text.push(b':')?;
    add_number(alloc, text, number)
}

/// Adds a further member of an object, a word.
pub fn more_word(text: &mut Vec<u8>, name: &[u8], word: &[u8]) -> Result<(), AllocError>
    ensures { OnOk result (text.new.items ≡ text.old.items ++ more_member name.now (Word word.now)) }
{
    text.push(b',')?;
    first_word(text, name, word)
}

/// Adds a further member of an object, a number.
pub fn more_number(
    alloc: Global,
    text: &mut Vec<u8>,
    name: &[u8],
    number: u64,
) -> Result<(), AllocError>
    ensures { OnOk result (text.new.items ≡ text.old.items ++ more_member name.now (Number number)) }
{
    text.push(b',')?;
    first_number(alloc, text, name, number)
}
