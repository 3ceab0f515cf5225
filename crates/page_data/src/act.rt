// The last step of an entry.

ghost use Rattle.std.specs.Prelude.{◌≡◌, ◌++◌, OnOk, Some};
ghost use Rattle.std.specs.Fmt.{decimal};
ghost use Rattle.page_data.specs.Values.{name, value, more};
ghost use Rattle.page_data.specs.Deltas.{word, more_number, operator_word, instr_word, flag_digit, deed, last};

use crate::values::{add_name, add_reference, add_value};
use hh_lang::{Instr, Operator};
use hh_model::Name;
use run_deltas::{Deed, StepAct, Value};
use std::alloc::{AllocError, Global};

/// Adds a number without a sign.
pub(crate) fn add_count(alloc: Global, text: &mut Vec<u8>, of: u64) -> Result<(), AllocError>
    ensures { OnOk result (text.new.items ≡ text.old.items ++ decimal of) }
{
    let digits = format!(in alloc; "{of}")?;
    text.extend_from_slice(digits.as_bytes())
}

/// Adds a further number without a sign.
pub(crate) fn more_number(alloc: Global, text: &mut Vec<u8>, of: u64) -> Result<(), AllocError>
    ensures { OnOk result (text.new.items ≡ text.old.items ++ more_number of) }
{
    text.push(b',')?;
    add_count(alloc, text, of)
}

/// Adds a further word in quotes.
pub(crate) fn more_word(text: &mut Vec<u8>, of: &[u8]) -> Result<(), AllocError>
    ensures { OnOk result (text.new.items ≡ text.old.items ++ more (word of.now)) }
{
    text.extend_from_slice(b",\"")?;
    text.extend_from_slice(of)?;
    text.push(b'"')?;
    Ok(())
}

/// Adds a further 1 or 0.
pub(crate) fn more_flag(text: &mut Vec<u8>, of: bool) -> Result<(), AllocError>
    ensures { OnOk result (text.new.items ≡ text.old.items ++ more (flag_digit of)) }
{
    if of {
        text.extend_from_slice(b",1")
    } else {
        text.extend_from_slice(b",0")
    }
}

// Adds a further name.
fn more_name(alloc: Global, text: &mut Vec<u8>, of: Name) -> Result<(), AllocError>
    ensures { OnOk result (text.new.items ≡ text.old.items ++ more (name of)) }
{
    text.push(b',')?;
    add_name(alloc, text, of)
}

// Adds a further field and what it holds.
fn more_field(
    alloc: Global,
    text: &mut Vec<u8>,
    of: Name,
    at: usize,
    holds: Value,
) -> Result<(), AllocError>
    ensures { OnOk result (text.new.items ≡ text.old.items ++ (more (name of) ++ more_number at ++ more (value holds))) }
{
    more_name(alloc, text, of)?;
    more_number(alloc, text, at as u64)?;
    text.push(b',')?;
    add_value(alloc, text, holds)
}

// Adds a compare and swap.
fn more_swap(
    alloc: Global,
    text: &mut Vec<u8>,
    of: Name,
    at: usize,
    new: Option<Name>,
    swapped: bool,
) -> Result<(), AllocError>
    ensures { OnOk result (text.new.items ≡ text.old.items ++ deed (Some (Deed.Swaps of at new swapped))) }
{
    more_name(alloc, text, of)?;
    more_number(alloc, text, at as u64)?;
    text.push(b',')?;
    add_reference(alloc, text, new)?;
    more_flag(text, swapped)
}

// Adds what a step does.
fn add_deed(alloc: Global, text: &mut Vec<u8>, did: Option<Deed>) -> Result<(), AllocError>
    ensures { OnOk result (text.new.items ≡ text.old.items ++ deed did) }
{
    match did {
        None => Ok(()),
        Some(Deed::Allocates(name)) => more_name(alloc, text, name),
        Some(Deed::Reads(name, at, holds)) => more_field(alloc, text, name, at, holds),
        Some(Deed::Counts(name)) => more_name(alloc, text, name),
        Some(Deed::Writes(name, at, holds)) => more_field(alloc, text, name, at, holds),
        Some(Deed::Swaps(name, at, new, swapped)) => more_swap(alloc, text, name, at, new, swapped),
        Some(Deed::Freezes(name)) => more_name(alloc, text, name),
        Some(Deed::Prints(_)) => Ok(()),
    }
}

fn operator_word(operator: Operator) -> &'static str
    ensures { result.now ≡ operator_word operator }
{
    match operator {
        Operator::Add => "add",
        Operator::Sub => "sub",
        Operator::Mul => "mul",
        Operator::Div => "div",
        Operator::Rem => "rem",
        Operator::Lt => "lt",
        Operator::Eq => "eq",
    }
}

fn instr_word(instr: Instr) -> &'static str
    ensures { result.now ≡ instr_word instr }
{
    match instr {
        Instr::Set(_, _) => "set",
        Instr::Mov(_, _) => "mov",
        Instr::Movr(_, _) => "movr",
        Instr::Nil(_) => "nil",
        Instr::Calc(operator, _, _, _) => operator_word(operator),
        Instr::Same(_, _, _) => "same",
        Instr::Jmp(_) => "jmp",
        Instr::Jz(_, _) => "jz",
        Instr::Newm(_, _, _) => "newm",
        Instr::Pack(_, _, _) => "pack",
        Instr::Getr(_, _, _) => "getr",
        Instr::Geti(_, _, _) => "geti",
        Instr::Putr(_, _, _) => "putr",
        Instr::Puti(_, _, _) => "puti",
        Instr::Cntr(_, _) => "cntr",
        Instr::Cnti(_, _) => "cnti",
        Instr::Freeze(_) => "freeze",
        Instr::Cas(_, _, _, _, _) => "cas",
        Instr::Call(_) => "call",
        Instr::Par(_, _) => "par",
        Instr::Ret => "ret",
        Instr::Out(_) => "out",
    }
}

// Adds a step as the last one.
fn add_act(alloc: Global, text: &mut Vec<u8>, act: StepAct) -> Result<(), AllocError>
    ensures { OnOk result (text.new.items ≡ text.old.items ++ last (Some act)) }
{
    text.extend_from_slice(b",\"at\":[")?;
    add_count(alloc, text, act.line as u64)?;
    more_word(text, instr_word(act.instr).as_bytes())?;
    add_deed(alloc, text, act.deed)?;
    text.push(b']')?;
    Ok(())
}

/// Adds the last step, if there is one.
pub(crate) fn add_last(
    alloc: Global,
    text: &mut Vec<u8>,
    act: Option<StepAct>,
) -> Result<(), AllocError>
    ensures { OnOk result (text.new.items ≡ text.old.items ++ last act) }
{
    match act {
        None => Ok(()),
        Some(act) => add_act(alloc, text, act),
    }
}
