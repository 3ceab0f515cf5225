// The lines printed about races.

ghost use Rattle.std.specs.Prelude.{◌≡◌, ◌++◌, ◌∷◌, [], codes, IfOk, OnOk};
ghost use Rattle.std.specs.String.{string_bytes};
ghost use Rattle.std.specs.List.{flat_map};
ghost use Rattle.std.specs.Fmt.{decimal};
ghost use Rattle.run_journal.specs.below.run_trace.{spaced};
ghost use Rattle.run_journal.specs.below.run_ledger.{end_line};
ghost use Rattle.race_report.specs.Text.{kind_word, field_words, pair_line, races_text};

use crate::data::Race;
use std::alloc::{AllocError, Global};

// The word for the kind of a field.
fn kind(is_ref: bool) -> &'static str
    ensures { result.now ≡ kind_word is_ref }
{
    if is_ref { "ref" } else { "num" }
}

// The field of a race.
fn field_text(alloc: Global, race: &Race) -> Result<String, AllocError>
    ensures { IfOk result (λ text. string_bytes text ≡ spaced (field_words race.now)) }
{
    let word = kind(race.is_ref);
    format!(in alloc; "{} {} {word} {}", race.task, race.count, race.index)
}

// The line of a race, after a word.
fn race_text(alloc: Global, word: &str, race: &Race) -> Result<String, AllocError>
    ensures { IfOk result (λ text. string_bytes text ≡ pair_line word.now race.now) }
{
    let field = field_text(alloc, race)?;
    let (first, first_line) = race.first;
    let (second, second_line) = race.second;
    format!(in alloc; "{word} {field} tasks {first} {second} lines {first_line} {second_line}\n")
}

// Adds the line of a race, after a word.
fn add_race(alloc: Global, text: &mut Vec<u8>, word: &str, race: &Race) -> Result<(), AllocError>
    ensures { OnOk result (text.new.items ≡ text.old.items ++ pair_line word.now race.now) }
{
    let line = race_text(alloc, word, race)?;
    text.extend_from_slice(line.as_bytes())
}

/// A line for each race, after a word.
pub fn pair_lines(alloc: Global, word: &str, races: &[Race]) -> Result<Vec<u8>, AllocError>
    ensures { IfOk result (λ text. text.items ≡ flat_map (pair_line word.now) races.now) }
{
    let mut text = Vec::new(alloc);
    for race in races {
        add_race(alloc, &mut text, word, race)?;
    }
    Ok(text)
}

// The end line with the number of races.
fn count_text(alloc: Global, count: usize) -> Result<String, AllocError>
    ensures { IfOk result (λ text. string_bytes text ≡ end_line (codes "races" ∷ decimal count ∷ [])) }
{
    format!(in alloc; "end: races {count}\n")
}

/// A line for each race, and the end line with their number.
pub fn races_text(alloc: Global, races: &[Race]) -> Result<Vec<u8>, AllocError>
    ensures { IfOk result (λ text. text.items ≡ races_text races.now) }
{
    let mut text = pair_lines(alloc, "race", races)?;
    let line = count_text(alloc, races.len())?;
    text.extend_from_slice(line.as_bytes())?;
    Ok(text)
}
