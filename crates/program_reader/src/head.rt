// What the first word of a line says.

ghost use Rattle.std.specs.Prelude.{◌≡◌};
ghost use Rattle.program_reader.specs.Head.{number_verb, object_verb, flow_verb, verb_of, head_of_word};

use hh_lang::Operator;
use text_lines::word_is;

/// The word that an instruction begins with.
#[derive(Clone, Copy)]
pub enum Verb {
    Set,
    Mov,
    Movr,
    Nil,
    Calc(Operator),
    Same,
    Jmp,
    Jz,
    Newm,
    Pack,
    Getr,
    Geti,
    Putr,
    Puti,
    Cntr,
    Cnti,
    Freeze,
    Cas,
    Call,
    Par,
    Pfor,
    Ret,
    Out,
}

/// What kind of line a line is, by its first word.
#[derive(Clone, Copy)]
pub enum Head {
    /// It has no word.
    Blank,
    /// `fn`
    Begin,
    /// `end`
    End,
    /// `lab`
    Label,
    Order(Verb),
    /// Any other word.
    Unknown,
}

// An instruction on numbers.
fn number_verb_of(word: &[u8]) -> Option<Verb>
    ensures { result ≡ number_verb word.now }
{
    if word_is(word, b"set") {
        Some(Verb::Set)
    } else if word_is(word, b"mov") {
        Some(Verb::Mov)
    } else if word_is(word, b"add") {
        Some(Verb::Calc(Operator::Add))
    } else if word_is(word, b"sub") {
        Some(Verb::Calc(Operator::Sub))
    } else if word_is(word, b"mul") {
        Some(Verb::Calc(Operator::Mul))
    } else if word_is(word, b"div") {
        Some(Verb::Calc(Operator::Div))
    } else if word_is(word, b"rem") {
        Some(Verb::Calc(Operator::Rem))
    } else if word_is(word, b"lt") {
        Some(Verb::Calc(Operator::Lt))
    } else if word_is(word, b"eq") {
        Some(Verb::Calc(Operator::Eq))
    } else {
        None
    }
}

// An instruction on references and objects.
fn object_verb_of(word: &[u8]) -> Option<Verb>
    ensures { result ≡ object_verb word.now }
{
    if word_is(word, b"movr") {
        Some(Verb::Movr)
    } else if word_is(word, b"nil") {
        Some(Verb::Nil)
    } else if word_is(word, b"same") {
        Some(Verb::Same)
    } else if word_is(word, b"newm") {
        Some(Verb::Newm)
    } else if word_is(word, b"pack") {
        Some(Verb::Pack)
    } else if word_is(word, b"getr") {
        Some(Verb::Getr)
    } else if word_is(word, b"geti") {
        Some(Verb::Geti)
    } else if word_is(word, b"putr") {
        Some(Verb::Putr)
    } else if word_is(word, b"puti") {
        Some(Verb::Puti)
    } else if word_is(word, b"cntr") {
        Some(Verb::Cntr)
    } else if word_is(word, b"cnti") {
        Some(Verb::Cnti)
    } else if word_is(word, b"freeze") {
        Some(Verb::Freeze)
    } else if word_is(word, b"cas") {
        Some(Verb::Cas)
    } else {
        None
    }
}

// An instruction on control flow, or the output.
fn flow_verb_of(word: &[u8]) -> Option<Verb>
    ensures { result ≡ flow_verb word.now }
{
    if word_is(word, b"jmp") {
        Some(Verb::Jmp)
    } else if word_is(word, b"jz") {
        Some(Verb::Jz)
    } else if word_is(word, b"call") {
        Some(Verb::Call)
    } else if word_is(word, b"par") {
        Some(Verb::Par)
    } else if word_is(word, b"pfor") {
        Some(Verb::Pfor)
    } else if word_is(word, b"ret") {
        Some(Verb::Ret)
    } else if word_is(word, b"out") {
        Some(Verb::Out)
    } else {
        None
    }
}

fn verb_of_word(word: &[u8]) -> Option<Verb>
    ensures { result ≡ verb_of word.now }
{
    if let Some(verb) = number_verb_of(word) {
        return Some(verb);
    }
    if let Some(verb) = object_verb_of(word) {
        return Some(verb);
    }
    flow_verb_of(word)
}

/// What kind of line begins with this word.
pub fn head_of(word: &[u8]) -> Head
    ensures { result ≡ head_of_word word.now }
{
    if word_is(word, b"fn") {
        Head::Begin
    } else if word_is(word, b"end") {
        Head::End
    } else if word_is(word, b"lab") {
        Head::Label
    } else {
        match verb_of_word(word) {
            Some(verb) => Head::Order(verb),
            None => Head::Unknown,
        }
    }
}
