// Whether a word is an operand of a kind.

ghost use Rattle.std.specs.Prelude.{◌≡◌};
ghost use Rattle.text_faults.specs.Operands.{is_operand};

use crate::fault::Operand;
use hh_lang::read_i64;
use program_reader::{is_name_word, read_field_count, read_int_register, read_ref_register};

/// Whether a word is an operand of this kind.
pub(crate) fn is_operand(operand: Operand, word: &[u8]) -> bool
    ensures { result ≡ is_operand operand word.now }
{
    match operand {
        Operand::IntRegister => read_int_register(word).is_some(),
        Operand::RefRegister => read_ref_register(word).is_some(),
        Operand::Number => read_i64(word).is_some(),
        Operand::FieldCount => read_field_count(word).is_some(),
        Operand::Label | Operand::Function | Operand::NewFunction | Operand::NewLabel =>
            is_name_word(word),
    }
}
