// All bytes of a source, up to a limit.

ghost use Rattle.std.specs.Prelude.{◌≡◌, ◌<◌, ◌≤◌, ◌+◌, ◌^◌, length, drop, IfOk, OnOk, IfErr, Some, List, ℕ, option_map};
ghost use Rattle.io_traits.specs.Fault.{HasRisen};
ghost use Rattle.read_write_all.specs.Bytes.{source_bytes, input_of, Grows};

use io_traits::{Failed, Source};
use std::alloc::{AllocError, Global};

// How many bytes are asked for at once.
const PIECE: usize = 4096;

/// Why an input couldn't be read.
#[derive(Clone, Copy)]
pub enum ReadError {
    /// The source failed.
    Fault,
    /// Out of memory.
    NoMemory,
}

impl From<Failed> for ReadError {
    ghost use Rattle.std.specs.Prelude.{◌≡◌};
    ghost use Rattle.read_write_all.specs.declared.read.ReadError.TheVariants.{Fault};

    ghost from_gives = { λ _ e. e ≡ Fault };

    fn from(_: Failed) -> ReadError {
        ReadError::Fault
    }
}

impl From<AllocError> for ReadError {
    ghost use Rattle.std.specs.Prelude.{◌≡◌};
    ghost use Rattle.read_write_all.specs.declared.read.ReadError.TheVariants.{NoMemory};

    ghost from_gives = { λ _ e. e ≡ NoMemory };

    fn from(_: AllocError) -> ReadError {
        ReadError::NoMemory
    }
}

// Reads some more bytes of a source, at most one past the limit, and returns how many.
fn take_more<S: Source>(
    source: &mut S,
    input: &mut Vec<u8>,
    limit: usize,
) -> Result<usize, ReadError>
    requires within { length input.old.items ≤ limit }
    requires limit { limit < 2 ^ 63 }
    ensures within { OnOk result (length input.new.items ≤ limit + 1) }
    ensures grows { IfOk result (Grows (S.left source.old) (S.left source.new) input.old.items input.new.items) }
    ensures failed { IfErr result (λ e. e ≡ ReadError.Fault → HasRisen (S.faults source.old) (S.faults source.new)) }
    ensures names { (n : List ℕ) → S.named source.new n ≡ S.named source.old n }
    ensures never_falls { S.faults source.old ≤ S.faults source.new }
{
    let mut piece = [0u8; PIECE];
    let room = PIECE.min(limit + 1 - input.len());
    let count = source.take(&mut piece[..room])?;
    input.extend_from_slice(&piece[..count])?;
    Ok(count)
}

// Reads what a source has left, or limit + 1 bytes of it.
fn read_left<S: Source>(alloc: Global, source: &mut S, limit: usize) -> Result<Vec<u8>, ReadError>
    requires { limit < 2 ^ 63 }
    ensures within { IfOk result (λ input. length input.items ≤ limit + 1) }
    ensures input { IfOk result (λ input. (whole : List ℕ) → S.left source.old ≡ Some whole → input.items ≡ input_of limit whole) }
    ensures taken { OnOk result ((whole : List ℕ) → S.left source.old ≡ Some whole → S.left source.new ≡ Some (drop (limit + 1) whole)) }
    ensures failed { IfErr result (λ e. e ≡ ReadError.Fault → HasRisen (S.faults source.old) (S.faults source.new)) }
    ensures names { (n : List ℕ) → S.named source.new n ≡ S.named source.old n }
    ensures never_falls { S.faults source.old ≤ S.faults source.new }
{
    let mut input = Vec::new(alloc);
    while input.len() <= limit {
        if take_more(source, &mut input, limit)? == 0 {
            return Ok(input);
        }
    }
    Ok(input)
}

// Opens a file at its beginning; standard input stays where it is.
fn open<S: Source>(source: &mut S, file: Option<&str>) -> Result<(), ReadError>
    ensures told { OnOk result (S.left source.new ≡ source_bytes (S.left source.old) (S.named source.old) (option_map (λ s. s.now) file.entry)) }
    ensures failed { IfErr result (λ e. HasRisen (S.faults source.old) (S.faults source.new)) }
    ensures names { (n : List ℕ) → S.named source.new n ≡ S.named source.old n }
    ensures never_falls { S.faults source.old ≤ S.faults source.new }
{
    if let Some(name) = file {
        source.find(name)?;
    }
    Ok(())
}

/// Reads a file, or, if none is named, what is left of the source, up to the caller's limit and one byte past it.
pub fn read_file<S: Source>(
    alloc: Global,
    source: &mut S,
    file: Option<&str>,
    limit: usize,
) -> Result<Vec<u8>, ReadError>
    requires { limit < 2 ^ 63 }
    ensures within { IfOk result (λ input. length input.items ≤ limit + 1) }
    ensures input { IfOk result (λ input. (whole : List ℕ) → source_bytes (S.left source.old) (S.named source.old) (option_map (λ s. s.now) file.entry) ≡ Some whole → input.items ≡ input_of limit whole) }
    ensures taken { OnOk result ((whole : List ℕ) → source_bytes (S.left source.old) (S.named source.old) (option_map (λ s. s.now) file.entry) ≡ Some whole → S.left source.new ≡ Some (drop (limit + 1) whole)) }
    ensures failed { IfErr result (λ e. e ≡ ReadError.Fault → HasRisen (S.faults source.old) (S.faults source.new)) }
    ensures names { (n : List ℕ) → S.named source.new n ≡ S.named source.old n }
    ensures never_falls { S.faults source.old ≤ S.faults source.new }
{
    open(source, file)?;
    read_left(alloc, source, limit)
}
