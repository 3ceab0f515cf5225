// Instructions that name nothing, by the number of their operands.

ghost use Rattle.std.specs.Prelude.{◌≡◌};
ghost use Rattle.program_reader.specs.Sense.{plain_one, plain_two, plain_three, plain_five};

use crate::head::Verb;
use crate::operands::{read_field_count, read_int_register, read_ref_register};
use hh_lang::{Instr, Operator, read_i64};

/// An instruction with one operand that names nothing.
pub(crate) fn read_plain_one(verb: Verb, a: &[u8]) -> Option<Instr>
    ensures { result ≡ plain_one verb a.now }
{
    match verb {
        Verb::Nil => Some(Instr::Nil(read_ref_register(a)?)),
        Verb::Freeze => Some(Instr::Freeze(read_ref_register(a)?)),
        Verb::Out => Some(Instr::Out(read_int_register(a)?)),
        _ => None,
    }
}

/// An instruction with two operands that names nothing.
pub(crate) fn read_plain_two(verb: Verb, a: &[u8], b: &[u8]) -> Option<Instr>
    ensures { result ≡ plain_two verb a.now b.now }
{
    match verb {
        Verb::Set => Some(Instr::Set(read_int_register(a)?, read_i64(b)?)),
        Verb::Mov => Some(Instr::Mov(read_int_register(a)?, read_int_register(b)?)),
        Verb::Movr => Some(Instr::Movr(read_ref_register(a)?, read_ref_register(b)?)),
        Verb::Cntr => Some(Instr::Cntr(read_int_register(a)?, read_ref_register(b)?)),
        Verb::Cnti => Some(Instr::Cnti(read_int_register(a)?, read_ref_register(b)?)),
        _ => None,
    }
}

// An instruction with three operands, of which the first two are number registers.
fn read_calculation(operator: Operator, a: &[u8], b: &[u8], c: &[u8]) -> Option<Instr>
    ensures { result ≡ plain_three (Verb.Calc operator) a.now b.now c.now }
{
    match (
        read_int_register(a),
        read_int_register(b),
        read_int_register(c),
    ) {
        (Some(target), Some(left), Some(right)) => Some(Instr::Calc(operator, target, left, right)),
        _ => None,
    }
}

// A read of a reference.
fn read_getr(a: &[u8], b: &[u8], c: &[u8]) -> Option<Instr>
    ensures { result ≡ plain_three Verb.Getr a.now b.now c.now }
{
    Some(Instr::Getr(
        read_ref_register(a)?,
        read_ref_register(b)?,
        read_int_register(c)?,
    ))
}

// A read of a number.
fn read_geti(a: &[u8], b: &[u8], c: &[u8]) -> Option<Instr>
    ensures { result ≡ plain_three Verb.Geti a.now b.now c.now }
{
    Some(Instr::Geti(
        read_int_register(a)?,
        read_ref_register(b)?,
        read_int_register(c)?,
    ))
}

// A write of a reference.
fn read_putr(a: &[u8], b: &[u8], c: &[u8]) -> Option<Instr>
    ensures { result ≡ plain_three Verb.Putr a.now b.now c.now }
{
    Some(Instr::Putr(
        read_ref_register(a)?,
        read_int_register(b)?,
        read_ref_register(c)?,
    ))
}

// A write of a number.
fn read_puti(a: &[u8], b: &[u8], c: &[u8]) -> Option<Instr>
    ensures { result ≡ plain_three Verb.Puti a.now b.now c.now }
{
    Some(Instr::Puti(
        read_ref_register(a)?,
        read_int_register(b)?,
        read_int_register(c)?,
    ))
}

/// An instruction with three operands.
pub(crate) fn read_plain_three(verb: Verb, a: &[u8], b: &[u8], c: &[u8]) -> Option<Instr>
    ensures { result ≡ plain_three verb a.now b.now c.now }
{
    match verb {
        Verb::Calc(operator) => read_calculation(operator, a, b, c),
        Verb::Same => Some(Instr::Same(
            read_int_register(a)?,
            read_ref_register(b)?,
            read_ref_register(c)?,
        )),
        Verb::Newm => Some(Instr::Newm(
            read_ref_register(a)?,
            read_int_register(b)?,
            read_int_register(c)?,
        )),
        Verb::Pack => Some(Instr::Pack(
            read_ref_register(a)?,
            read_field_count(b)?,
            read_field_count(c)?,
        )),
        Verb::Getr => read_getr(a, b, c),
        Verb::Geti => read_geti(a, b, c),
        Verb::Putr => read_putr(a, b, c),
        Verb::Puti => read_puti(a, b, c),
        _ => None,
    }
}

// A compare and swap.
fn read_cas(a: &[u8], b: &[u8], c: &[u8], d: &[u8], e: &[u8]) -> Option<Instr>
    ensures { result ≡ plain_five Verb.Cas a.now b.now c.now d.now e.now }
{
    let target = read_int_register(a)?;
    let object = read_ref_register(b)?;
    let index = read_int_register(c)?;
    let expected = read_ref_register(d)?;
    let value = read_ref_register(e)?;
    Some(Instr::Cas(target, object, index, expected, value))
}

/// An instruction with five operands.
pub(crate) fn read_plain_five(
    verb: Verb,
    a: &[u8],
    b: &[u8],
    c: &[u8],
    d: &[u8],
    e: &[u8],
) -> Option<Instr>
    ensures { result ≡ plain_five verb a.now b.now c.now d.now e.now }
{
    match verb {
        Verb::Cas => read_cas(a, b, c, d, e),
        _ => None,
    }
}
