// What is shown of the races of a run.

ghost use Rattle.std.specs.Prelude.{◌≡◌, ◌++◌, ◌&&◌, ◌||◌, not, length, map, codes, string_bytes, IfOk, OnOk};
ghost use Rattle.std.specs.List.{flat_map};
ghost use Rattle.std.specs.Fmt.{decimal};
ghost use Rattle.text_lines.specs.Lines.{lines_of};
ghost use Rattle.race_report.specs.Text.{kind_word};
ghost use Rattle.race_groups.specs.Text.{plural, on_lines, head_line, shown_line, source_of, swap_note, field_text, tasks_text, example_line, group_place, group_example, group_text, lock_note, count_line, groups_text};

use crate::group::RaceGroup;
use crate::source::{add_words, is_swap_line, lines_in, source_line};
use race_report::Race;
use std::alloc::{AllocError, Global};

fn plural(count: usize) -> &'static str
    ensures { result.now ≡ plural count }
{
    if count == 1 { "" } else { "s" }
}

// The lines of a group.
fn on_lines(alloc: Global, first: u32, second: u32) -> Result<String, AllocError>
    ensures { IfOk result (λ text. string_bytes text ≡ on_lines first second) }
{
    if first == second {
        format!(in alloc; "line {first} twice: ")
    } else {
        format!(in alloc; "lines {first} and {second}: ")
    }
}

// The first line of a group.
fn head_line(alloc: Global, group: &RaceGroup) -> Result<String, AllocError>
    ensures { IfOk result (λ text. string_bytes text ≡ head_line group.now) }
{
    let (_, first) = group.example.first;
    let (_, second) = group.example.second;
    let place = on_lines(alloc, first, second)?;
    let end = plural(group.fields);
    format!(in alloc; "{place}{} field{end}\n", group.fields)
}

// Adds a line of the source with its number.
fn add_shown(
    alloc: Global,
    text: &mut Vec<u8>,
    lines: &[&[u8]],
    number: u32,
) -> Result<(), AllocError>
    ensures { OnOk result (text.new.items ≡ text.old.items ++ shown_line (map (λ l. l.now) lines.now) number) }
{
    let head = format!(in alloc; "  {number}:")?;
    text.extend_from_slice(head.as_bytes())?;
    add_words(text, source_line(lines, number))?;
    text.push(b'\n')?;
    Ok(())
}

// Adds the lines of a group, or its one line.
fn add_source(
    alloc: Global,
    text: &mut Vec<u8>,
    lines: &[&[u8]],
    first: u32,
    second: u32,
) -> Result<(), AllocError>
    ensures { OnOk result (text.new.items ≡ text.old.items ++ source_of (map (λ l. l.now) lines.now) first second) }
{
    add_shown(alloc, text, lines, first)?;
    if first == second {
        return Ok(());
    }
    add_shown(alloc, text, lines, second)
}

// What a compare and swap on one of these lines means.
fn swap_note(lines: &[&[u8]], first: u32, second: u32) -> &'static str
    ensures { result.now ≡ swap_note (map (λ l. l.now) lines.now) first second }
{
    let swaps = is_swap_line(source_line(lines, first)) || is_swap_line(source_line(lines, second));
    if swaps {
        "  cas races with other accesses; only two cas never race\n"
    } else {
        ""
    }
}

// The word for the kind of a field.
fn kind_word(is_ref: bool) -> &'static str
    ensures { result.now ≡ kind_word is_ref }
{
    if is_ref { "ref" } else { "num" }
}

// The field of a race.
fn field_text(alloc: Global, race: &Race) -> Result<String, AllocError>
    ensures { IfOk result (λ text. string_bytes text ≡ field_text race.now) }
{
    let kind = kind_word(race.is_ref);
    format!(in alloc;
        "{kind} {} of object {} {}",
        race.index, race.task, race.count
    )
}

// The tasks of a race, and their lines.
fn tasks_text(alloc: Global, race: &Race) -> Result<String, AllocError>
    ensures { IfOk result (λ text. string_bytes text ≡ tasks_text race.now) }
{
    let (first, first_line) = race.first;
    let (second, second_line) = race.second;
    format!(in alloc;
        "task {first} on line {first_line}, later task {second} on line {second_line}"
    )
}

// A race in words.
fn example_line(alloc: Global, race: &Race) -> Result<String, AllocError>
    ensures { IfOk result (λ text. string_bytes text ≡ example_line race.now) }
{
    let field = field_text(alloc, race)?;
    let tasks = tasks_text(alloc, race)?;
    format!(in alloc; "  example: {field}, {tasks}\n")
}

// Adds the lines of a group with their text.
fn add_place(
    alloc: Global,
    text: &mut Vec<u8>,
    lines: &[&[u8]],
    group: &RaceGroup,
) -> Result<(), AllocError>
    ensures { OnOk result (text.new.items ≡ text.old.items ++ group_place (map (λ l. l.now) lines.now) group.now) }
{
    let (_, first) = group.example.first;
    let (_, second) = group.example.second;
    let head = head_line(alloc, group)?;
    text.extend_from_slice(head.as_bytes())?;
    add_source(alloc, text, lines, first, second)
}

// Adds a text.
fn add_text(text: &mut Vec<u8>, more: &str) -> Result<(), AllocError>
    ensures { OnOk result (text.new.items ≡ text.old.items ++ more.now) }
{
    text.extend_from_slice(more.as_bytes())
}

// Adds one of the races of a group.
fn add_example(
    alloc: Global,
    text: &mut Vec<u8>,
    lines: &[&[u8]],
    group: &RaceGroup,
) -> Result<(), AllocError>
    ensures { OnOk result (text.new.items ≡ text.old.items ++ group_example (map (λ l. l.now) lines.now) group.now) }
{
    let (_, first) = group.example.first;
    let (_, second) = group.example.second;
    let example = example_line(alloc, &group.example)?;
    add_text(text, example.as_str())?;
    add_text(text, swap_note(lines, first, second))
}

// Adds a group.
fn add_group(
    alloc: Global,
    text: &mut Vec<u8>,
    lines: &[&[u8]],
    group: &RaceGroup,
) -> Result<(), AllocError>
    ensures { OnOk result (text.new.items ≡ text.old.items ++ group_text (map (λ l. l.now) lines.now) group.now) }
{
    add_place(alloc, text, lines, group)?;
    add_example(alloc, text, lines, group)
}

// Adds all groups.
fn add_groups(
    alloc: Global,
    text: &mut Vec<u8>,
    lines: &[&[u8]],
    groups: &[RaceGroup],
) -> Result<(), AllocError>
    ensures { OnOk result (text.new.items ≡ text.old.items ++ flat_map (group_text (map (λ l. l.now) lines.now)) groups.now) }
{
    for group in groups {
        add_group(alloc, text, lines, group)?;
    }
    Ok(())
}

// Why accesses under a lock by compare and swaps race.
fn lock_note(swaps: bool, races: usize) -> &'static str
    ensures { result.now ≡ lock_note swaps races }
{
    if swaps && races != 0 {
        "note: only forks and joins put accesses in order, and cas doesn't. So accesses that a lock by cas guards\n      are races: which task gets the lock first differs from schedule to schedule.\n"
    } else {
        ""
    }
}

// The end line.
fn count_line(alloc: Global, races: usize, groups: usize) -> Result<String, AllocError>
    ensures { IfOk result (λ text. string_bytes text ≡ count_line races groups) }
{
    let end = plural(groups);
    format!(in alloc; "end: races {races} on {groups} pair{end} of lines\n")
}

/// Each group with the text of its lines, what compare and swaps mean for them, and the end line with the number of races
/// and that of groups.
///
/// `source` is a text that begins with the program's, and `swaps` says whether that has compare and swaps.
pub fn groups_text(
    alloc: Global,
    source: &[u8],
    swaps: bool,
    races: usize,
    groups: &[RaceGroup],
) -> Result<Vec<u8>, AllocError>
    ensures { IfOk result (λ text. text.items ≡ groups_text (lines_of source.now) swaps races groups.now) }
{
    let lines = lines_in(alloc, source)?;
    let count = count_line(alloc, races, groups.len())?;
    let mut text = Vec::new(alloc);
    add_groups(alloc, &mut text, lines.as_slice(), groups)?;
    text.extend_from_slice(lock_note(swaps, races).as_bytes())?;
    text.extend_from_slice(count.as_bytes())?;
    Ok(text)
}
