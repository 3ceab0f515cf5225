// The first pass over the pieces of a log: which locations are accessed, and how acts are numbered.

ghost use Rattle.std.specs.Prelude.{◌≡◌, ◌+◌, ◌^◌, ◌<◌, ◌≤◌, ◌++◌, List, IfOk, IfErr, OnOk, length};
ghost use Rattle.log_lines.specs.Grammar.{line_of};
ghost use Rattle.log_lines.specs.Limits.{IsAct};
ghost use Rattle.log_pieces.specs.Pieces.{act_said, acts_in, events_of_pieces};
ghost use Rattle.log_places.specs.declared.region.Region.{Region};
ghost use Rattle.log_places.specs.Counting.{AreMarked};
ghost use Rattle.log_touches.specs.Accesses.{regions_of_act, regions_of_acts};
ghost use Rattle.log_touches.specs.Strands.{regions_of_events};
ghost use Rattle.log_touches.specs.Chains.{firsts_from};
ghost use Rattle.log_touches.specs.Limits.{most_acts, AreTooMany};

use crate::access::access_of;
use crate::numbers::RacesError;
use log_lines::{Act, next_line};
use log_pieces::{LogPiece, act_in, piece_lines};
use log_places::Places;
use plain_vec::Listed;
use std::alloc::{AllocError, Global};

/// There are at most so many acts.
const MOST_ACTS: u64 = 1 << 32;

// The locations of an act are marked.
fn mark_act(places: &mut Places, act: Act) -> Result<(), AllocError>
    requires { IsAct act }
    ensures { OnOk result ((past : List Region) → AreMarked past places.old → AreMarked (past ++ regions_of_act act) places.new) }
{
    match access_of(act) {
        Some(access) => places.mark(access.region),
        None => Ok(()),
    }
}

// The locations of a line are marked; the number of the next act.
fn mark_line(places: &mut Places, line: &[u8], number: u64) -> Result<u64, RacesError>
    requires { number ≤ most_acts }
    ensures marked { OnOk result ((past : List Region) → AreMarked past places.old → AreMarked (past ++ regions_of_acts (act_said (line_of line.now))) places.new) }
    ensures number { IfOk result (λ n. n ≡ number + length (act_said (line_of line.now))) }
    ensures few { IfOk result (λ n. n ≤ most_acts) }
    ensures refused { IfErr result (AreTooMany (number + length (act_said (line_of line.now)))) }
{
    let Some(act) = act_in(line) else {
        return Ok(number);
    };
    if number == MOST_ACTS {
        return Err(RacesError::TooLong);
    }
    mark_act(places, act)?;
    Ok(number + 1)
}

// The locations of a text are marked, whose first act has a number; the number of the next act.
fn mark_text(places: &mut Places, text: &[u8], first: u64) -> Result<u64, RacesError>
    requires { first ≤ most_acts }
    ensures marked { OnOk result ((past : List Region) → AreMarked past places.old → AreMarked (past ++ regions_of_acts (acts_in text.now)) places.new) }
    ensures number { IfOk result (λ n. n ≡ first + length (acts_in text.now)) }
    ensures few { IfOk result (λ n. n ≤ most_acts) }
    ensures refused { IfErr result (AreTooMany (first + length (acts_in text.now))) }
{
    let mut left = text;
    let mut number = first;
    'lines: loop {
        let (line, rest) = next_line(left);
        number = mark_line(places, line, number)?;
        match rest {
            None => return Ok(number),
            Some(rest) => left = rest,
        }
    }
}

/// Marks the locations that the acts of pieces access; with the number of each piece's first act.
pub fn mark_pieces(
    alloc: Global,
    texts: &[Listed<u8>],
    pieces: &[LogPiece],
) -> Result<(Places, Listed<u64>), RacesError>
    ensures marked { IfOk result (λ r. AreMarked (regions_of_events (events_of_pieces texts.now pieces.now)) r.0) }
    ensures firsts { IfOk result (λ r. r.1 ≡ firsts_from texts.now 0 pieces.now) }
    ensures few { OnOk result (length (events_of_pieces texts.now pieces.now) ≤ most_acts) }
    ensures refused { IfErr result (AreTooMany (length (events_of_pieces texts.now pieces.now))) }
{
    let mut places = Places::new(alloc);
    let mut firsts = Listed::new(alloc);
    let mut number = 0;
    for piece in pieces {
        firsts.push(number)?;
        number = mark_text(&mut places, piece_lines(texts, *piece), number)?;
    }
    Ok((places, firsts))
}
