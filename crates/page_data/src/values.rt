// Names, references, numbers and fields in the page's data.

ghost use Rattle.std.specs.Prelude.{◌≡◌, ◌++◌, OnOk};
ghost use Rattle.page_data.specs.Values.{name, reference, is_safe, number, value, more};

use hh_model::Name;
use run_deltas::Value;
use std::alloc::{AllocError, Global};

/// The greatest number up to which a browser knows each whole number.
const SAFE_LIMIT: i64 = 9007199254740991;

#[tactic(auto, unfolding(crate::specs::Values::name))]
/// Adds a birth name.
pub(crate) fn add_name(alloc: Global, text: &mut Vec<u8>, of: Name) -> Result<(), AllocError>
    ensures { OnOk result (text.new.items ≡ text.old.items ++ name of) }
{
    let (task, count) = (of.task, of.count);
    let task = format!(in alloc; "{task}")?;
    let count = format!(in alloc; "{count}")?;
    text.push(b'"')?;
    text.extend_from_slice(task.as_bytes())?;
    text.push(b'.')?;
    text.extend_from_slice(count.as_bytes())?;
    text.push(b'"')?;
    Ok(())
}

/// Adds a reference.
pub(crate) fn add_reference(
    alloc: Global,
    text: &mut Vec<u8>,
    of: Option<Name>,
) -> Result<(), AllocError>
    ensures { OnOk result (text.new.items ≡ text.old.items ++ reference of) }
{
    match of {
        None => text.extend_from_slice(b"0"),
        Some(name) => add_name(alloc, text, name),
    }
}

// Whether a browser reads a number as it is.
fn is_safe(number: i64) -> bool
    ensures { result ≡ is_safe number }
{
    -SAFE_LIMIT <= number && number <= SAFE_LIMIT
}

#[tactic(auto, unfolding(crate::specs::Values::number))]
/// Adds a number that a field holds, or that was printed.
pub(crate) fn add_number(alloc: Global, text: &mut Vec<u8>, of: i64) -> Result<(), AllocError>
    ensures { OnOk result (text.new.items ≡ text.old.items ++ number of) }
{
    let digits = format!(in alloc; "{of}")?;
    if is_safe(of) {
        return text.extend_from_slice(digits.as_bytes());
    }
    text.push(b'"')?;
    text.extend_from_slice(digits.as_bytes())?;
    text.push(b'"')?;
    Ok(())
}

/// Adds what a field holds.
pub(crate) fn add_value(alloc: Global, text: &mut Vec<u8>, of: Value) -> Result<(), AllocError>
    ensures { OnOk result (text.new.items ≡ text.old.items ++ value of) }
{
    match of {
        Value::Reference(reference) => add_reference(alloc, text, reference),
        Value::Number(number) => add_number(alloc, text, number),
    }
}
