// Parts of values.

ghost use Rattle.std.specs.Prelude.{◌≡◌, ◌++◌, OnOk, drop};
ghost use Rattle.std.specs.Fmt.{decimal};
ghost use Rattle.log_json.specs.Pieces.{array_piece};

use std::alloc::{AllocError, Global};

/// Adds a text.
pub(crate) fn add(text: &mut Vec<u8>, more: &str) -> Result<(), AllocError>
    ensures { OnOk result (text.new.items ≡ text.old.items ++ more.now) }
{
    text.extend_from_slice(more.as_bytes())
}

/// Adds a number behind a text.
pub(crate) fn add_number(
    alloc: Global,
    text: &mut Vec<u8>,
    name: &str,
    number: u128,
) -> Result<(), AllocError>
    ensures { OnOk result (text.new.items ≡ text.old.items ++ (name.now ++ decimal number)) }
{
    let digits = format!(in alloc; "{number}")?;
    add(text, name)?;
    add(text, digits.as_str())
}

// The values without the comma and the line feed before the first.
fn without_comma(further: &[u8]) -> &[u8]
    ensures { result.now ≡ drop 2 further.now }
{
    if further.len() < 2 {
        &[]
    } else {
        &further[2..]
    }
}

/// Adds the array of values that are each written after a comma.
pub(crate) fn add_array(text: &mut Vec<u8>, further: &[u8]) -> Result<(), AllocError>
    ensures { OnOk result (text.new.items ≡ text.old.items ++ array_piece further.now) }
{
    text.push(b'[')?;
    text.extend_from_slice(without_comma(further))?;
    text.push(b']')?;
    Ok(())
}
