// Registers, counts and names as operands.

ghost use Rattle.std.specs.Prelude.{◌≡◌, ◌<◌, IfSome, option_copied};
ghost use Rattle.program_reader.specs.Operands.{register_number, int_register, ref_register, field_count};
ghost use Rattle.program_reader.specs.Sense.{only_name};
ghost use Rattle.text_lines.specs.Lines.{words_of};

use crate::names::is_name_word;
use hh_lang::{FieldCount, IntReg, RefReg, read_u32};
use text_lines::next_word;

// The number of a register, after its letter.
fn read_register(digits: &[u8]) -> Option<u8>
    ensures value { result ≡ register_number digits.now }
    ensures below { IfSome result (λ n. n < 16) }
{
    match digits {
        [digit @ b'0'..=b'9'] => Some(*digit - b'0'),
        [b'1', digit @ b'0'..=b'5'] => Some(10 + (*digit - b'0')),
        _ => None,
    }
}

/// The number register that a word names.
pub fn read_int_register(word: &[u8]) -> Option<IntReg>
    ensures { result ≡ int_register word.now }
{
    match word {
        [b'i', digits @ ..] => Some(IntReg::new(read_register(digits)?)),
        _ => None,
    }
}

/// The reference register that a word names.
pub fn read_ref_register(word: &[u8]) -> Option<RefReg>
    ensures { result ≡ ref_register word.now }
{
    match word {
        [b'r', digits @ ..] => Some(RefReg::new(read_register(digits)?)),
        _ => None,
    }
}

/// The number of registers of a `pack`.
pub fn read_field_count(word: &[u8]) -> Option<FieldCount>
    ensures { result ≡ field_count word.now }
{
    let count = read_u32(word)?;
    if count <= 16 {
        Some(FieldCount::new(count as u8))
    } else {
        None
    }
}

/// The name that is all of the rest of a line.
pub(crate) fn read_only_name(rest: &[u8]) -> Option<&[u8]>
    ensures { option_copied result ≡ only_name (words_of rest.now) }
{
    let (name, rest) = next_word(rest)?;
    if is_name_word(name) && next_word(rest).is_none() {
        Some(name)
    } else {
        None
    }
}
