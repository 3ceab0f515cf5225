// Numbers: operators, counts of fields and indices of fields.

ghost use Rattle.std.specs.Prelude.{◌≡◌};
ghost use Rattle.hh_model.specs.Effect.{calculated, counts_in, place_in, same_name};

use crate::data::Name;
use hh_lang::Operator;

/// The result of an operator, or none if it divides by 0.
#[inline(always)]
pub fn calculate(operator: Operator, x: i64, y: i64) -> Option<i64>
    ensures { result ≡ calculated operator x y }
{
    match operator {
        Operator::Add => Some(x.wrapping_add(y)),
        Operator::Sub => Some(x.wrapping_sub(y)),
        Operator::Mul => Some(x.wrapping_mul(y)),
        Operator::Div => {
            if y == 0 {
                None
            } else {
                Some(x.wrapping_div(y))
            }
        }
        Operator::Rem => {
            if y == 0 {
                None
            } else {
                Some(x.wrapping_rem(y))
            }
        }
        Operator::Lt => Some(if x < y { 1 } else { 0 }),
        Operator::Eq => Some(if x == y { 1 } else { 0 }),
    }
}

/// Two numbers as counts of fields, if neither is negative and their sum is within the limit.
pub fn field_counts(limit: u32, refs: i64, ints: i64) -> Option<(usize, usize)>
    ensures { result ≡ counts_in limit refs ints }
{
    if refs < 0 || ints < 0 {
        return None;
    }
    let (refs, ints) = (refs as usize, ints as usize);
    let limit = limit as usize;
    if refs <= limit && ints <= limit - refs {
        Some((refs, ints))
    } else {
        None
    }
}

/// A number as an index below the number of fields.
#[inline(always)]
pub fn field_index(count: usize, index: i64) -> Option<usize>
    ensures { result ≡ place_in count index }
{
    if index < 0 {
        return None;
    }
    let index = index as usize;
    if index < count { Some(index) } else { None }
}

/// Whether both are nil, or the same object.
#[inline(always)]
pub fn is_same(left: Option<Name>, right: Option<Name>) -> bool
    ensures { result ≡ same_name left right }
{
    match (left, right) {
        (None, None) => true,
        (Some(m), Some(n)) => m.task == n.task && m.count == n.count,
        _ => false,
    }
}
