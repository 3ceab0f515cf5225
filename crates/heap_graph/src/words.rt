// The words of an object's line.

ghost use Rattle.std.specs.Prelude.{◌≡◌, ◌++◌, drop, OnOk};
ghost use Rattle.std.specs.List.{flat_map};
ghost use Rattle.text_lines.specs.Lines.{words_of};
ghost use Rattle.heap_graph.specs.Drawn.{word_field, first_point, kind_title};

use std::alloc::AllocError;
use text_lines::next_word;

/// The line after `count` words.
pub(crate) fn words_behind(line: &[u8], count: usize) -> &[u8]
    ensures { words_of result.now ≡ drop count (words_of line.now) }
{
    let mut rest = line;
    for _ in 0..count {
        match next_word(rest) {
            None => return rest,
            Some((_, more)) => rest = more,
        }
    }
    rest
}

// The first word, if there is one.
fn first_point(line: &[u8]) -> &[u8]
    ensures { result.now ≡ first_point (words_of line.now) }
{
    match next_word(line) {
        None => &[],
        Some((word, _)) => word,
    }
}

// Adds a field that says a word.
fn add_field(title: &mut Vec<u8>, word: &[u8]) -> Result<(), AllocError>
    ensures { OnOk result (title.new.items ≡ title.old.items ++ word_field word.now) }
{
    title.push(b'|')?;
    title.extend_from_slice(word)
}

/// Adds the field of an object's kind.
pub(crate) fn add_kind_title(title: &mut Vec<u8>, line: &[u8]) -> Result<(), AllocError>
    ensures { OnOk result (title.new.items ≡ title.old.items ++ kind_title line.now) }
{
    add_field(title, first_point(words_behind(line, 4)))
}

/// Adds a field for each word of a line.
pub(crate) fn add_fields(title: &mut Vec<u8>, line: &[u8]) -> Result<(), AllocError>
    ensures { OnOk result (title.new.items ≡ title.old.items ++ flat_map word_field (words_of line.now)) }
{
    let mut rest = line;
    loop {
        match next_word(rest) {
            None => return Ok(()),
            Some((word, more)) => {
                add_field(title, word)?;
                rest = more;
            }
        }
    }
}
