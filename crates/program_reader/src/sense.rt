// What the operands of a line say.

ghost use Rattle.std.specs.Prelude.{◌≡◌};
ghost use Rattle.text_lines.specs.Lines.{words_of};
ghost use Rattle.program_reader.specs.Sense.{plain, jump, jump_on_zero, call, fork, loop_over, order_alone, order_one, order_two, ordered_sense, only_name, sense_of_name, alone, sense_of, OutlineIsSmall};

use crate::head::{Head, Verb};
use crate::names::{NameTable, is_name_word};
use crate::operands::{read_int_register, read_only_name};
use crate::plain::{read_plain_five, read_plain_one, read_plain_three, read_plain_two};
use hh_lang::{Instr, IntReg};
use text_lines::next_word;

/// What the operands of a line say.
#[derive(Drop)]
pub enum Sense {
    /// They are valid, and the line isn't an instruction.
    Fits,
    /// They are valid, and the line is this instruction.
    Does(Instr),
    WrongOperand,
    NoSuchFunction,
    NoSuchLabel,
}

/// The names of the functions of a text, and of those that its loops name, each with the line on which it first occurs.
#[derive(Drop)]
pub struct Outline<'a> {
    pub functions: NameTable<'a>,
    pub loops: NameTable<'a>,
}

fn plainly(instr: Option<Instr>) -> Sense
    ensures { result ≡ plain instr }
{
    match instr {
        Some(instr) => Sense::Does(instr),
        None => Sense::WrongOperand,
    }
}

fn read_jump(labels: &NameTable<'_>, name: &[u8]) -> Sense
    ensures { result ≡ jump labels.now name.now }
{
    if !is_name_word(name) {
        return Sense::WrongOperand;
    }
    match labels.number(name) {
        Some(place) => Sense::Does(Instr::Jmp(place)),
        None => Sense::NoSuchLabel,
    }
}

fn read_jump_on_zero(labels: &NameTable<'_>, register: Option<IntReg>, name: &[u8]) -> Sense
    ensures { result ≡ jump_on_zero labels.now register name.now }
{
    let Some(register) = register else {
        return Sense::WrongOperand;
    };
    if !is_name_word(name) {
        return Sense::WrongOperand;
    }
    match labels.number(name) {
        Some(place) => Sense::Does(Instr::Jz(register, place)),
        None => Sense::NoSuchLabel,
    }
}

fn read_call(outline: &Outline<'_>, name: &[u8]) -> Sense
    requires { OutlineIsSmall outline.now }
    ensures { result ≡ call outline.now name.now }
{
    if !is_name_word(name) {
        return Sense::WrongOperand;
    }
    match outline.functions.find(name) {
        Some(function) => Sense::Does(Instr::Call(function as u32)),
        None => Sense::NoSuchFunction,
    }
}

fn read_fork(outline: &Outline<'_>, left: &[u8], right: &[u8]) -> Sense
    requires { OutlineIsSmall outline.now }
    ensures { result ≡ fork outline.now left.now right.now }
{
    if !is_name_word(left) || !is_name_word(right) {
        return Sense::WrongOperand;
    }
    match (outline.functions.find(left), outline.functions.find(right)) {
        (Some(left), Some(right)) => Sense::Does(Instr::Par(left as u32, right as u32)),
        _ => Sense::NoSuchFunction,
    }
}

fn read_loop(outline: &Outline<'_>, name: &[u8]) -> Sense
    requires { OutlineIsSmall outline.now }
    ensures { result ≡ loop_over outline.now name.now }
{
    if !is_name_word(name) {
        return Sense::WrongOperand;
    }
    match (outline.functions.find(name), outline.loops.find(name)) {
        (Some(_), Some(place)) => {
            let first = outline.functions.len() + 3 * place;
            Sense::Does(Instr::Call(first as u32))
        }
        _ => Sense::NoSuchFunction,
    }
}

// An instruction without operands.
fn read_alone(verb: Verb) -> Sense
    ensures { result ≡ order_alone verb }
{
    match verb {
        Verb::Ret => Sense::Does(Instr::Ret),
        _ => Sense::WrongOperand,
    }
}

// An instruction with one operand.
fn read_one(outline: &Outline<'_>, labels: &NameTable<'_>, verb: Verb, a: &[u8]) -> Sense
    requires { OutlineIsSmall outline.now }
    ensures { result ≡ order_one outline.now labels.now verb a.now }
{
    match verb {
        Verb::Jmp => read_jump(labels, a),
        Verb::Call => read_call(outline, a),
        Verb::Pfor => read_loop(outline, a),
        _ => plainly(read_plain_one(verb, a)),
    }
}

// An instruction with two operands.
fn read_two(outline: &Outline<'_>, labels: &NameTable<'_>, verb: Verb, a: &[u8], b: &[u8]) -> Sense
    requires { OutlineIsSmall outline.now }
    ensures { result ≡ order_two outline.now labels.now verb a.now b.now }
{
    match verb {
        Verb::Jz => read_jump_on_zero(labels, read_int_register(a), b),
        Verb::Par => read_fork(outline, a, b),
        _ => plainly(read_plain_two(verb, a, b)),
    }
}

// What the operands of an instruction say.
fn read_order(outline: &Outline<'_>, labels: &NameTable<'_>, verb: Verb, rest: &[u8]) -> Sense
    requires { OutlineIsSmall outline.now }
    ensures { result ≡ ordered_sense outline.now labels.now verb (words_of rest.now) }
{
    let Some((a, rest)) = next_word(rest) else {
        return read_alone(verb);
    };
    let Some((b, rest)) = next_word(rest) else {
        return read_one(outline, labels, verb, a);
    };
    let Some((c, rest)) = next_word(rest) else {
        return read_two(outline, labels, verb, a, b);
    };
    let Some((d, rest)) = next_word(rest) else {
        return plainly(read_plain_three(verb, a, b, c));
    };
    let Some((e, rest)) = next_word(rest) else {
        return Sense::WrongOperand;
    };
    match next_word(rest) {
        None => plainly(read_plain_five(verb, a, b, c, d, e)),
        Some(_) => Sense::WrongOperand,
    }
}

fn read_no_operand(rest: &[u8]) -> Sense
    ensures { result ≡ alone (words_of rest.now) }
{
    match next_word(rest) {
        None => Sense::Fits,
        Some(_) => Sense::WrongOperand,
    }
}

fn read_name_operand(rest: &[u8]) -> Sense
    ensures { result ≡ sense_of_name (only_name (words_of rest.now)) }
{
    match read_only_name(rest) {
        Some(_) => Sense::Fits,
        None => Sense::WrongOperand,
    }
}

/// What the rest of a line of this kind says, after its first word.
pub(crate) fn read_operands(
    outline: &Outline<'_>,
    labels: &NameTable<'_>,
    head: Head,
    rest: &[u8],
) -> Sense
    requires { OutlineIsSmall outline.now }
    ensures { result ≡ sense_of outline.now labels.now head (words_of rest.now) }
{
    match head {
        Head::Begin | Head::Label => read_name_operand(rest),
        Head::Order(verb) => read_order(outline, labels, verb, rest),
        _ => read_no_operand(rest),
    }
}
