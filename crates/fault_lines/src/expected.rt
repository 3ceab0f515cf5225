// What is expected in place of a word.

ghost use Rattle.std.specs.Prelude.{◌≡◌, IfOk, string_bytes};
ghost use Rattle.fault_lines.specs.Expected.{operand_text, taken_text, expected};

use std::alloc::{AllocError, Global};
use text_faults::{Operand, Wrong};

fn operand_text(operand: Operand) -> &'static str
    ensures { result.now ≡ operand_text operand }
{
    match operand {
        Operand::IntRegister => "an int register i0 to i15",
        Operand::RefRegister => "a reference register r0 to r15",
        Operand::Number => "a number from -9223372036854775808 to 9223372036854775807",
        Operand::FieldCount => "a number from 0 to 16",
        Operand::Label => "a label of this function",
        Operand::Function => "a function of this text",
        Operand::NewFunction =>
            "a name of 1 to 32 letters, digits or _, the first of them no digit",
        Operand::NewLabel => "a name of 1 to 32 letters, digits or _, the first of them no digit",
    }
}

// An owned text.
fn own(alloc: Global, text: &str) -> Result<String, AllocError>
    ensures { IfOk result (λ own. string_bytes own ≡ text.now) }
{
    format!(in alloc; "{text}")
}

// Another name, since this one is taken on a line.
fn taken_text(alloc: Global, what: &str, line: u32) -> Result<String, AllocError>
    ensures { IfOk result (λ text. string_bytes text ≡ taken_text what.now line) }
{
    format!(in alloc; "another name: {what} has this one on line {line}")
}

/// What is expected, in the words of the language.
pub(crate) fn expected(alloc: Global, wrong: Wrong) -> Result<String, AllocError>
    ensures { IfOk result (λ text. string_bytes text ≡ expected wrong) }
{
    match wrong {
        Wrong::NotUtf8 => own(alloc, "a line of UTF-8"),
        Wrong::OutsideFunction => own(alloc, "fn and a name: no function is open"),
        Wrong::UnknownWord => own(alloc, "an instruction, lab or end"),
        Wrong::Missing(operand) => own(alloc, operand_text(operand)),
        Wrong::NotOne(operand) => own(alloc, operand_text(operand)),
        Wrong::Extra => own(alloc, "the end of the line"),
        Wrong::InsideFunction => own(alloc, "end before it: a function is open"),
        Wrong::OpenFunction => own(alloc, "end behind it: a function is open"),
        Wrong::SecondFunction(line) => taken_text(alloc, "a function", line),
        Wrong::SecondLabel(line) => taken_text(alloc, "a label of this function", line),
        Wrong::UnknownFunction => own(alloc, "a function of this text"),
        Wrong::UnknownLabel => own(alloc, "a label of this function"),
        Wrong::NoMain => own(alloc, "a function main in this text"),
        Wrong::ManyFunctions => own(alloc, "at most 1024 functions"),
        Wrong::ManyInstructions => own(alloc, "at most 65536 instructions"),
    }
}
