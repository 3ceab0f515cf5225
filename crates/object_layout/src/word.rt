// An address, a birth name and a header, and the words that hold them.

ghost use Rattle.std.specs.Prelude.{◌≡◌, ◌<◌, ◌≤◌, ◌^◌, false};
ghost use Rattle.object_layout.specs.Cell.{BeginsInFirstUnit, IsRef};
ghost use Rattle.object_layout.specs.Layout.{word_of_ref, ref_of_word, word_of_birth, birth_of_word, header_word, nrefs_of, nints_of, mutable_of, gone_of};

use chunk_sizes::CHUNK_WORDS;

/// Where an object is: a chunk's number, and the word of that chunk at which the object begins.
#[derive(Clone, Copy, PartialEq, Eq, PartialOrd, Ord, Hash)]
pub struct Addr {
    pub chunk: u32,
    pub offset: u32,
}

/// The name of an object: the task that made it, and how many that task had made before.
#[derive(Clone, Copy, PartialEq, Eq, PartialOrd, Ord)]
pub struct Birth {
    pub task: u32,
    pub count: u32,
}

/// The kind of an object: how many references and numbers it has, and whether they may be written.
#[derive(Clone, Copy, PartialEq, Eq)]
pub struct Header {
    pub nrefs: u32,
    pub nints: u32,
    pub mutable: bool,
}

// Bit 40 of a header: the object may be written.
pub(crate) const MUTABLE: u64 = 1 << 40;

// Bit 41 of a header: the object was moved, or is a hole.
pub(crate) const GONE: u64 = 1 << 41;

/// The word of a reference: 0 for nil.
pub fn ref_to_word(reference: Option<Addr>) -> u64
    requires { BeginsInFirstUnit reference }
    ensures word { result ≡ word_of_ref reference }
    ensures fits { IsRef reference }
{
    match reference {
        None => 0,
        Some(to) => to.chunk as u64 * CHUNK_WORDS + to.offset as u64 + 1,
    }
}

/// The reference that a word holds.
pub fn ref_from_word(word: u64) -> Option<Addr>
    requires { word ≤ 2 ^ 42 }
    ensures { result ≡ ref_of_word word }
{
    if word == 0 {
        None
    } else {
        Some(Addr {
            chunk: ((word - 1) / CHUNK_WORDS) as u32,
            offset: ((word - 1) % CHUNK_WORDS) as u32,
        })
    }
}

/// The word of a birth name.
pub fn birth_to_word(birth: Birth) -> u64
    ensures word { result ≡ word_of_birth birth }
    ensures fits { (birth.task < 2 ^ 32) × (birth.count < 2 ^ 32) }
{
    ((birth.task as u64) << 32) + birth.count as u64
}

/// The birth name that a word holds.
pub fn birth_from_word(word: u64) -> Birth
    ensures { result ≡ birth_of_word word }
{
    Birth {
        task: (word >> 32) as u32,
        count: (word & 0xFFFF_FFFF) as u32,
    }
}

/// The header word of a new object of this kind.
pub fn header_to_word(header: Header) -> u64
    requires refs { header.nrefs < 2 ^ 20 }
    requires ints { header.nints < 2 ^ 20 }
    ensures { result ≡ header_word header.nrefs header.nints header.mutable false }
{
    let flag = if header.mutable { 1 << 40 } else { 0 };
    header.nrefs as u64 + ((header.nints as u64) << 20) + flag
}

/// The kind in a header word.
pub fn header_from_word(word: u64) -> Header
    ensures { result ≡ record { nrefs = nrefs_of word; nints = nints_of word; mutable = mutable_of word } }
{
    Header {
        nrefs: (word & 0xF_FFFF) as u32,
        nints: (word >> 20 & 0xF_FFFF) as u32,
        mutable: word >> 40 & 1 == 1,
    }
}

/// Whether a header word marks its object as moved, or as a hole.
pub fn is_gone_word(word: u64) -> bool
    ensures { result ≡ gone_of word }
{
    word >> 41 & 1 == 1
}
