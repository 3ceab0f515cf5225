// A fault, and what is wrong.

ghost use Rattle.std.specs.Prelude.{◌≡◌};
ghost use Rattle.text_faults.specs.Faults.{cause_of_wrong};

use plain_vec::Listed;
use program_reader::Cause;

/// What an operand has to be.
#[derive(Clone, Copy)]
pub enum Operand {
    /// `i0` to `i15`.
    IntRegister,
    /// `r0` to `r15`.
    RefRegister,
    /// A number of 64 bits with a sign.
    Number,
    /// How many registers a `pack` takes, 0 to 16.
    FieldCount,
    /// The name of a label of the function.
    Label,
    /// The name of a function.
    Function,
    /// A name for the function that begins.
    NewFunction,
    /// A name for the label that stands here.
    NewLabel,
}

/// What is wrong.
#[derive(Clone, Copy)]
pub enum Wrong {
    /// The line isn't UTF-8.
    NotUtf8,
    /// Outside a function a line begins with another word than `fn`.
    OutsideFunction,
    /// In a function a line begins with an unknown word.
    UnknownWord,
    /// The line ends before an operand of this kind.
    Missing(Operand),
    /// The word isn't an operand of this kind.
    NotOne(Operand),
    /// The line has a word more than its operands.
    Extra,
    /// A function begins in another one.
    InsideFunction,
    /// No line follows, and a function is open.
    OpenFunction,
    /// A function has this name already, on this line.
    SecondFunction(u32),
    /// A label of the function has this name already, on this line.
    SecondLabel(u32),
    /// No function has this name.
    UnknownFunction,
    /// No label of the function has this name.
    UnknownLabel,
    /// No line follows, and no function is called `main`.
    NoMain,
    /// The line begins a function more than there may be.
    ManyFunctions,
    /// The line is an instruction more than there may be.
    ManyInstructions,
}

/// A fault of a text.
#[derive(Drop)]
pub struct Fault {
    /// The number of its line, from 1.
    pub line: u32,
    /// The number of the word's first byte in the line, from 1.
    pub column: usize,
    /// The word; empty if one is missing, and on a line without words.
    pub word: Listed<u8>,
    pub wrong: Wrong,
    /// The known word that may have been meant, if one is near to an unknown one.
    pub near: Option<Listed<u8>>,
}

impl Wrong {
    /// The cause that the reader of programs gives.
    pub fn cause(self) -> Cause
        ensures { result ≡ cause_of_wrong self }
    {
        match self {
            Wrong::NotUtf8 => Cause::NotUtf8,
            Wrong::OutsideFunction | Wrong::UnknownWord => Cause::Word,
            Wrong::Missing(_) | Wrong::NotOne(_) | Wrong::Extra => Cause::Operand,
            Wrong::InsideFunction | Wrong::OpenFunction => Cause::NoEnd,
            Wrong::SecondFunction(_) | Wrong::SecondLabel(_) => Cause::TwoNames,
            Wrong::UnknownFunction => Cause::NoName,
            Wrong::UnknownLabel => Cause::NoLabel,
            Wrong::NoMain => Cause::NoMain,
            Wrong::ManyFunctions | Wrong::ManyInstructions => Cause::TooMany,
        }
    }
}
