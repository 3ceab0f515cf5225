// Why a text is refused.

ghost use Rattle.std.specs.Prelude.{◌≡◌};
ghost use Rattle.program_reader.specs.Cause.{text_of_cause};

/// Why a line is refused, in the order in which the causes are looked for.
#[derive(Clone, Copy, PartialEq, Eq)]
pub enum Cause {
    /// More bytes came than the limit. The caller, who knows the limit, reports this at line 0.
    TooLong,
    /// The line isn't UTF-8.
    NotUtf8,
    /// The first word isn't allowed here.
    Word,
    /// The number of operands is wrong, or one isn't of its kind.
    Operand,
    /// A function begins in another one, or isn't closed at the last line.
    NoEnd,
    /// A second function with the same name, or a second label in one function.
    TwoNames,
    /// No function has the name.
    NoName,
    /// No label of the function has the name.
    NoLabel,
    /// No function is main; reported at the last line.
    NoMain,
    /// More than 1,024 functions, or more than 65,536 instructions.
    TooMany,
}

/// The first line with a fault, counted from 1, and its first cause.
#[derive(Clone, Copy)]
pub struct TextFault {
    pub line: u32,
    pub cause: Cause,
}

impl Cause {
    /// The cause in lower case without spaces.
    pub fn text(self) -> &'static str
        ensures { result.now ≡ text_of_cause self }
    {
        match self {
            Cause::TooLong => "toolong",
            Cause::NotUtf8 => "notutf8",
            Cause::Word => "word",
            Cause::Operand => "operand",
            Cause::NoEnd => "noend",
            Cause::TwoNames => "twonames",
            Cause::NoName => "noname",
            Cause::NoLabel => "nolabel",
            Cause::NoMain => "nomain",
            Cause::TooMany => "toomany",
        }
    }
}
