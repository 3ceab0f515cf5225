// Reads the files of a log.

ghost use Rattle.std.specs.Prelude.{◌≡◌, ◌≢◌, ◌≤◌, ℕ, List, [], Some, IfOk, IfErr, OnErr, map, string_bytes};
ghost use Rattle.std.specs.List.{position_or_len};
ghost use Rattle.io_traits.specs.Fault.{HasRisen};
ghost use Rattle.log_form.specs.Text.{is_zero, text_of};
ghost use Rattle.whole_call.specs.Input.{HasRead, ReadsUpTo};
ghost use Rattle.log_command.specs.Files.{most_file_bytes, HasReadFiles};

use io_traits::Source;
use plain_vec::Listed;
use read_write_all::{ReadError, read_file};
use std::alloc::Global;

/// At most one byte more of a file is read.
const MOST_FILE_BYTES: usize = 1 << 62;

// Where the first zero byte of a file stands, or where the file ends.
fn zero_place(file: &[u8]) -> usize
    ensures { result ≡ position_or_len is_zero file.now }
{
    for (i, byte) in file.iter().enumerate() {
        if *byte == 0 {
            return i;
        }
    }
    file.len()
}

// The text of a file.
fn text_of(file: Vec<u8>) -> Listed<u8>
    ensures { result ≡ text_of file.items }
{
    let end = zero_place(file.as_slice());
    let mut text = Listed::from_vec(file);
    text.truncate(end);
    text
}

// Reads the text of a file.
fn read_text<S: Source>(alloc: Global, source: &mut S, name: &str) -> Result<Listed<u8>, ReadError>
    ensures text { IfOk result (λ text. (input : List ℕ) × HasRead (ReadsUpTo most_file_bytes (Some name.now)) (record { left = S.left source.old; named = S.named source.old; faults = S.faults source.old }) (record { left = S.left source.new; named = S.named source.new; faults = S.faults source.new }) input × (text ≡ text_of input)) }
    ensures failed { IfErr result (λ e. e ≡ ReadError.Fault → HasRisen (S.faults source.old) (S.faults source.new)) }
    ensures names { (n : List ℕ) → S.named source.new n ≡ S.named source.old n }
    ensures never_falls { S.faults source.old ≤ S.faults source.new }
{
    let file = read_file(alloc, source, Some(name), MOST_FILE_BYTES)?;
    Ok(text_of(file))
}

/// Reads the texts of files.
pub(crate) fn read_texts<S: Source>(
    alloc: Global,
    source: &mut S,
    names: &[String],
) -> Result<Listed<Listed<u8>>, ReadError>
    ensures texts { IfOk result (HasReadFiles (map string_bytes names.now) (record { left = S.left source.old; named = S.named source.old; faults = S.faults source.old }) (record { left = S.left source.new; named = S.named source.new; faults = S.faults source.new })) }
    ensures failed { IfErr result (λ e. e ≡ ReadError.Fault → HasRisen (S.faults source.old) (S.faults source.new)) }
    ensures some { OnErr result (map string_bytes names.now ≢ []) }
{
    let mut texts = Listed::new(alloc);
    for name in names {
        let text = read_text(alloc, source, name.as_str())?;
        texts.push(text)?;
    }
    Ok(texts)
}
