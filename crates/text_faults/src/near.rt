// What may have been meant.

ghost use Rattle.std.specs.Prelude.{◌≡◌, ◌∷◌, [], codes, map, option_map, IfOk};
ghost use Rattle.near_words.specs.Near.{nearest};
ghost use Rattle.text_faults.specs.Near.{line_words, first_names};

use near_words::nearest;
use plain_vec::Listed;
use program_reader::NameTable;
use std::alloc::{AllocError, Global};

/// The most names that are compared.
const MOST_NAMES: usize = 100;

/// An owned copy of a word.
pub(crate) fn own(alloc: Global, word: &[u8]) -> Result<Listed<u8>, AllocError>
    ensures { IfOk result (λ o. o ≡ word.now) }
{
    let copy = word.to_vec(alloc)?;
    Ok(Listed::from_vec(copy))
}

/// An owned copy of a word, if there is one.
pub(crate) fn own_if(alloc: Global, word: Option<&[u8]>) -> Result<Option<Listed<u8>>, AllocError>
    ensures { IfOk result (λ o. o ≡ option_map (λ w. w.now) word.entry) }
{
    match word {
        None => Ok(None),
        Some(word) => {
            let copy = own(alloc, word)?;
            Ok(Some(copy))
        }
    }
}

// The first names of a table.
fn first_names<'a>(alloc: Global, table: &NameTable<'a>) -> Result<Vec<&'a [u8]>, AllocError>
    ensures { IfOk result (λ names. map (λ n. n.now) names.items ≡ first_names table.now) }
{
    let mut names = Vec::new(alloc);
    for place in 0..MOST_NAMES {
        let Some((name, _)) = table.entry(place) else {
            return Ok(names);
        };
        names.push(name)?;
    }
    Ok(names)
}

/// The nearest name of a table.
pub(crate) fn nearest_name(
    alloc: Global,
    table: &NameTable<'_>,
    word: &[u8],
) -> Result<Option<Listed<u8>>, AllocError>
    ensures { IfOk result (λ o. o ≡ nearest word.now (first_names table.now)) }
{
    let names = first_names(alloc, table)?;
    own_if(alloc, nearest(word, names.as_slice()))
}

/// The nearest of the words that a line in a function begins with.
pub(crate) fn nearest_line_word(word: &[u8]) -> Option<&'static [u8]>
    ensures { option_map (λ w. w.now) result ≡ nearest word.now line_words }
{
    let words: [&'static [u8]; 32] = [
        b"set", b"mov", b"add", b"sub", b"mul", b"div", b"rem", b"lt", b"eq", b"movr", b"nil",
        b"same", b"newm", b"pack", b"getr", b"geti", b"putr", b"puti", b"cntr", b"cnti", b"freeze",
        b"cas", b"jmp", b"jz", b"call", b"par", b"pfor", b"ret", b"out", b"lab", b"end", b"fn",
    ];
    nearest(word, &words)
}

/// `fn`, if the word is near to it.
pub(crate) fn nearest_begin(word: &[u8]) -> Option<&'static [u8]>
    ensures { option_map (λ w. w.now) result ≡ nearest word.now (codes "fn" ∷ []) }
{
    let words: [&'static [u8]; 1] = [b"fn"];
    nearest(word, &words)
}
