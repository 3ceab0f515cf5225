// Names, and tables of them.

ghost use Rattle.std.specs.Prelude.{◌≡◌, [], length, take, OnOk, OnErr, option_map, slice_get};
ghost use Rattle.std.specs.List.{list_all};
ghost use Rattle.program_reader.specs.Names.{is_letter, is_name_byte, is_name, begins_name, is_noted, with_name, name_index, numbered_of, noted_name_of};

use indexmap::IndexMap;
use std::alloc::{AllocError, Global};
use std::marker::Model;

fn is_letter_byte(byte: u8) -> bool
    ensures { result ≡ is_letter byte }
{
    matches!(byte, b'a'..=b'z' | b'A'..=b'Z')
}

fn is_name_part(byte: u8) -> bool
    ensures { result ≡ is_name_byte byte }
{
    is_letter_byte(byte) || matches!(byte, b'0'..=b'9') || byte == b'_'
}

// Whether a word begins with a letter or an underscore.
fn begins_as_name(word: &[u8]) -> bool
    ensures { result ≡ begins_name word.now }
{
    match word {
        [] => false,
        [first, ..] => is_letter_byte(*first) || *first == b'_',
    }
}

fn are_name_parts(word: &[u8]) -> bool
    ensures { result ≡ list_all is_name_byte word.now }
{
    word.iter().all(|byte| is_name_part(*byte))
}

/// Whether a word is a name: 1 to 32 ASCII letters, digits or `_`, of which the first is no digit.
pub fn is_name_word(word: &[u8]) -> bool
    ensures { result ≡ is_name word.now }
{
    begins_as_name(word) && word.len() <= 32 && are_name_parts(word)
}

/// Names without duplicates, in the order in which they were noted, each with a number.
#[derive(Drop)]
pub struct NameTable<'a> {
    numbers: IndexMap<&'a [u8], u32>,
}

impl<'a> Model for NameTable<'a> {
    ghost use Rattle.std.specs.Prelude.{List, map};
    ghost use Rattle.program_reader.specs.Names.{NotedName, noted_name_of};

    ghost Value = { List NotedName };

    ghost view = { λ t. map (λ e. noted_name_of e.0.now e.1) t.numbers.entries };
}

impl<'a> NameTable<'a> {
    /// No names.
    pub fn new(alloc: Global) -> NameTable<'a>
        ensures { result ≡ [] }
    {
        NameTable {
            numbers: IndexMap::new(alloc),
        }
    }

    /// The number of names.
    pub(crate) fn len(&self) -> usize
        ensures { result ≡ length self.now }
    {
        self.numbers.len()
    }

    /// The index of a name.
    pub(crate) fn find(&self, name: &[u8]) -> Option<usize>
        ensures { result ≡ name_index self.now name.now }
    {
        self.numbers.get_index_of(name)
    }

    /// The name at an index, and its number.
    pub fn entry(&self, place: usize) -> Option<(&'a [u8], u32)>
        ensures { option_map (λ e. noted_name_of e.0.now e.1) result ≡ slice_get self.now place }
    {
        let (name, number) = self.numbers.get_index(place)?;
        Some((*name, *number))
    }

    /// Whether a name is there.
    pub fn has(&self, name: &[u8]) -> bool
        ensures { result ≡ is_noted self.now name.now }
    {
        self.numbers.contains_key(name)
    }

    /// Whether a name is among the first n.
    pub(crate) fn has_among_first(&self, count: usize, name: &[u8]) -> bool
        ensures { result ≡ is_noted (take count self.now) name.now }
    {
        match self.find(name) {
            None => false,
            Some(place) => place < count,
        }
    }

    /// The number that was noted with a name.
    pub fn number(&self, name: &[u8]) -> Option<u32>
        ensures { result ≡ numbered_of self.now name.now }
    {
        self.numbers.get(name).copied()
    }

    /// Notes a name with a number, unless the name is there.
    pub fn note(&mut self, name: &'a [u8], number: u32) -> Result<(), AllocError>
        ensures ok { OnOk result (self.new ≡ with_name self.old name.now number) }
        ensures err { OnErr result (self.new ≡ self.old) }
    {
        if self.numbers.get_index_of(name).is_none() {
            self.numbers.insert(name, number)?;
        }
        Ok(())
    }
}
