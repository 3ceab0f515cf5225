// Sums that may not fit in 64 bits.

ghost use Rattle.std.specs.Prelude.{◌≡◌, codes};
ghost use Rattle.log_pieces.specs.Pieces.{acts_in};
ghost use Rattle.log_strands.specs.Acts.{acts_by};
ghost use Rattle.log_weights.specs.Weights.{units_of, work_of};
ghost use Rattle.log_weights.specs.Sums.{fitting, plus};

use log_strands::{Act, next_act_by};

/// The sum of two numbers, if they and it fit.
pub(crate) fn plus(one: Option<u64>, other: Option<u64>) -> Option<u64>
    ensures { result ≡ plus one other }
{
    one?.checked_add(other?)
}

// The units of work of an act.
fn units_of(act: Act) -> u64
    ensures { result ≡ units_of act }
{
    match act {
        Act::Work(units) => units,
        _ => 0,
    }
}

// The work of the acts of a text whose lines begin with the letter of work, if it fits.
fn lettered_work(text: &[u8]) -> Option<u64>
    ensures { result ≡ fitting (work_of (acts_by (codes "k") text.now)) }
{
    let mut work: u64 = 0;
    let mut left = text;
    while let Some((act, rest)) = next_act_by(left, b"k") {
        work = work.checked_add(units_of(act))?;
        left = rest;
    }
    Some(work)
}

/// The work of the acts of a text, if it fits.
pub(crate) fn text_work(text: &[u8]) -> Option<u64>
    ensures { result ≡ fitting (work_of (acts_in text.now)) }
{
    lettered_work(text)
}
