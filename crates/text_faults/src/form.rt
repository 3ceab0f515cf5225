// The operands of each kind of line.

ghost use Rattle.std.specs.Prelude.{◌≡◌};
ghost use Rattle.text_faults.specs.Forms.{verb_form, head_form};

use crate::fault::Operand;
use program_reader::{Head, Verb};

// The operands of an instruction.
fn verb_form(verb: Verb) -> &'static [Operand]
    ensures { result.now ≡ verb_form verb }
{
    use Operand::{FieldCount, Function, IntRegister, Label, Number, RefRegister};
    match verb {
        Verb::Set => &[IntRegister, Number],
        Verb::Mov => &[IntRegister, IntRegister],
        Verb::Movr => &[RefRegister, RefRegister],
        Verb::Nil | Verb::Freeze => &[RefRegister],
        Verb::Calc(_) => &[IntRegister, IntRegister, IntRegister],
        Verb::Same => &[IntRegister, RefRegister, RefRegister],
        Verb::Jmp => &[Label],
        Verb::Jz => &[IntRegister, Label],
        Verb::Newm | Verb::Puti => &[RefRegister, IntRegister, IntRegister],
        Verb::Pack => &[RefRegister, FieldCount, FieldCount],
        Verb::Getr => &[RefRegister, RefRegister, IntRegister],
        Verb::Geti => &[IntRegister, RefRegister, IntRegister],
        Verb::Putr => &[RefRegister, IntRegister, RefRegister],
        Verb::Cntr | Verb::Cnti => &[IntRegister, RefRegister],
        Verb::Cas => &[
            IntRegister,
            RefRegister,
            IntRegister,
            RefRegister,
            RefRegister,
        ],
        Verb::Call | Verb::Pfor => &[Function],
        Verb::Par => &[Function, Function],
        Verb::Ret => &[],
        Verb::Out => &[IntRegister],
    }
}

/// The operands of a line of this kind.
pub(crate) fn line_form(head: Head) -> &'static [Operand]
    ensures { result.now ≡ head_form head }
{
    match head {
        Head::Begin => &[Operand::NewFunction],
        Head::Label => &[Operand::NewLabel],
        Head::Order(verb) => verb_form(verb),
        _ => &[],
    }
}
