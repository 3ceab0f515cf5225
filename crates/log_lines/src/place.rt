// The place of an access.

ghost use Rattle.std.specs.Prelude.{◌≡◌, ◌<◌, ◌^◌, IfOk};
ghost use Rattle.log_lines.specs.Grammar.{is_small, checked_place, place_of_runs, place_of_run, place_of_length, place_at};
ghost use Rattle.log_lines.specs.Limits.{IsLogNumber, IsLogPlace};
ghost use Rattle.log_lines.specs.Rest.{operands, ReadsAs};

use crate::cause::LogCause;
use crate::line::LogPlace;
use crate::words::{goes_on, number_at};

const ACCESS_LIMIT: u64 = 1 << 28;

const LOCATION_LIMIT: u64 = 1 << 60;

// Whether a place is within the limits.
fn is_small(place: LogPlace) -> bool
    requires { IsLogNumber place.offset }
    ensures { result ≡ is_small place }
{
    if place.length == 0 || place.runs == 0 {
        return false;
    }
    let Some(locations) = place.length.checked_mul(place.runs) else {
        return false;
    };
    let Some(span) = (place.runs - 1).checked_mul(place.apart) else {
        return false;
    };
    locations <= ACCESS_LIMIT
        && span <= LOCATION_LIMIT
        && place.offset + span + place.length <= LOCATION_LIMIT
}

// The place itself, where it is within the limits and its runs don't overlap.
fn checked_place(place: LogPlace) -> Result<LogPlace, LogCause>
    requires { IsLogNumber place.offset }
    ensures { result ≡ checked_place place }
{
    if !is_small(place) {
        Err(LogCause::OverLimit)
    } else if place.length <= place.apart {
        Ok(place)
    } else {
        Err(LogCause::RunsOverlap)
    }
}

// A place of several runs: their number and how far apart they are are read.
fn place_of_runs(
    block: u64,
    offset: u64,
    length: u64,
    rest: &[u8],
) -> Result<(LogPlace, &[u8]), LogCause>
    requires { IsLogNumber offset }
    ensures { ReadsAs (λ x. (x.0, operands x.1.now)) result (place_of_runs block offset length (operands rest.now)) }
{
    let (runs, rest) = number_at(rest)?;
    let (apart, rest) = number_at(rest)?;
    let place = checked_place(LogPlace {
        block,
        offset,
        length,
        runs,
        apart,
    })?;
    Ok((place, rest))
}

// A place of one run.
fn place_of_run(
    block: u64,
    offset: u64,
    length: u64,
    rest: &[u8],
) -> Result<(LogPlace, &[u8]), LogCause>
    requires { IsLogNumber offset }
    ensures { ReadsAs (λ x. (x.0, operands x.1.now)) result (place_of_run block offset length (operands rest.now)) }
{
    let place = checked_place(LogPlace {
        block,
        offset,
        length,
        runs: 1,
        apart: length,
    })?;
    Ok((place, rest))
}

// A place whose length is read.
fn place_of_length(block: u64, offset: u64, rest: &[u8]) -> Result<(LogPlace, &[u8]), LogCause>
    requires { IsLogNumber offset }
    ensures { ReadsAs (λ x. (x.0, operands x.1.now)) result (place_of_length block offset (operands rest.now)) }
{
    let (length, rest) = number_at(rest)?;
    if goes_on(rest) {
        place_of_runs(block, offset, length, rest)
    } else {
        place_of_run(block, offset, length, rest)
    }
}

/// The place that the next words write, and the rest.
pub(crate) fn place_at(rest: &[u8]) -> Result<(LogPlace, &[u8]), LogCause>
    ensures { ReadsAs (λ x. (x.0, operands x.1.now)) result (place_at (operands rest.now)) }
{
    let (block, rest) = number_at(rest)?;
    let (offset, rest) = number_at(rest)?;
    if goes_on(rest) {
        place_of_length(block, offset, rest)
    } else {
        place_of_run(block, offset, 1, rest)
    }
}
