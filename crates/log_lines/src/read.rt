// Reads a line.

ghost use Rattle.std.specs.Prelude.{◌≡◌, ◌≤◌, ◌^◌, IfOk};
ghost use Rattle.log_lines.specs.Grammar.{act_of_access, reference_of, act_of_birth, number_alone, below, task_alone, line_of_strand, line_of_name, line_of_version, act_by, line_by, line_behind, line_of};
ghost use Rattle.log_lines.specs.Limits.{IsLine};
ghost use Rattle.log_lines.specs.Rest.{operands};

use crate::cause::LogCause;
use crate::line::{Access, AccessKind, Act, LogLine, Reference};
use crate::place::place_at;
use crate::verb::{ActVerb, LogVerb, verb_of};
use crate::words::{first_word, has_word, nothing_left, number_at, site_at};

const TASK_LIMIT: u64 = 1 << 32;

const STRAND_LIMIT: u64 = 1 << 31;

// An access of a kind.
fn act_of_access(kind: AccessKind, rest: &[u8]) -> Result<Act, LogCause>
    ensures { result ≡ act_of_access kind (operands rest.now) }
{
    let (place, rest) = place_at(rest)?;
    let site = site_at(rest)?;
    Ok(Act::Access(Access { kind, place, site }))
}

// A location and the reference in it.
fn reference_of(rest: &[u8]) -> Result<Reference, LogCause>
    ensures { result ≡ reference_of (operands rest.now) }
{
    let (block, rest) = number_at(rest)?;
    let (offset, rest) = number_at(rest)?;
    let (target, rest) = number_at(rest)?;
    let site = site_at(rest)?;
    Ok(Reference {
        block,
        offset,
        target,
        site,
    })
}

// The birth of a block.
fn act_of_birth(rest: &[u8]) -> Result<Act, LogCause>
    ensures { result ≡ act_of_birth (operands rest.now) }
{
    let (block, rest) = number_at(rest)?;
    let (length, rest) = number_at(rest)?;
    nothing_left(rest)?;
    Ok(Act::Birth { block, length })
}

// The only number.
fn number_alone(rest: &[u8]) -> Result<u64, LogCause>
    ensures { result ≡ number_alone (operands rest.now) }
{
    let (number, rest) = number_at(rest)?;
    nothing_left(rest)?;
    Ok(number)
}

// A number below a limit of 32 bits.
fn below(limit: u64, number: u64) -> Result<u32, LogCause>
    requires { limit ≤ 2 ^ 32 }
    ensures { result ≡ below limit number }
{
    if number < limit {
        Ok(number as u32)
    } else {
        Err(LogCause::OverLimit)
    }
}

// A task alone.
fn task_alone(rest: &[u8]) -> Result<u32, LogCause>
    ensures { result ≡ task_alone (operands rest.now) }
{
    below(TASK_LIMIT, number_alone(rest)?)
}

// Which strand of which task follows.
fn line_of_strand(rest: &[u8]) -> Result<LogLine, LogCause>
    ensures { result ≡ line_of_strand (operands rest.now) }
{
    let (task, rest) = number_at(rest)?;
    let strand = number_alone(rest)?;
    let task = below(TASK_LIMIT, task)?;
    let strand = below(STRAND_LIMIT, strand)?;
    Ok(LogLine::Strand { task, strand })
}

// A site and its name.
fn line_of_name(rest: &[u8]) -> Result<LogLine, LogCause>
    ensures { result ≡ line_of_name (operands rest.now) }
{
    let (site, rest) = number_at(rest)?;
    if has_word(rest) {
        Ok(LogLine::Name(site))
    } else {
        Err(LogCause::WrongCount)
    }
}

// The version of the format.
fn line_of_version(rest: &[u8]) -> Result<LogLine, LogCause>
    ensures { result ≡ line_of_version (operands rest.now) }
{
    if number_alone(rest)? == 1 {
        Ok(LogLine::Version)
    } else {
        Err(LogCause::UnknownVersion)
    }
}

// What a strand does, by the first word and the rest.
fn act_by(verb: ActVerb, rest: &[u8]) -> Result<Act, LogCause>
    ensures { result ≡ act_by verb (operands rest.now) }
{
    match verb {
        ActVerb::Access(kind) => act_of_access(kind, rest),
        ActVerb::Yield => Ok(Act::Yield(reference_of(rest)?)),
        ActVerb::Store => Ok(Act::Store(reference_of(rest)?)),
        ActVerb::Birth => act_of_birth(rest),
        ActVerb::Release => Ok(Act::Release(number_alone(rest)?)),
        ActVerb::Work => Ok(Act::Work(number_alone(rest)?)),
        ActVerb::Spawn => Ok(Act::Spawn(task_alone(rest)?)),
        ActVerb::Join => Ok(Act::Join(task_alone(rest)?)),
        ActVerb::Finish => {
            nothing_left(rest)?;
            Ok(Act::Finish)
        }
    }
}

// What a line says, by its first word and the rest.
fn line_by(verb: LogVerb, rest: &[u8]) -> Result<LogLine, LogCause>
    ensures { result ≡ line_by verb (operands rest.now) }
{
    match verb {
        LogVerb::Act(verb) => Ok(LogLine::Act(act_by(verb, rest)?)),
        LogVerb::Strand => line_of_strand(rest),
        LogVerb::Name => line_of_name(rest),
        LogVerb::Version => line_of_version(rest),
        LogVerb::End => {
            nothing_left(rest)?;
            Ok(LogLine::End)
        }
    }
}

// What a line says, whatever its numbers.
fn line_of(line: &[u8]) -> Result<LogLine, LogCause>
    ensures { result ≡ line_of line.now }
{
    if line.is_empty() || line[0] == b'#' {
        return Ok(LogLine::Comment);
    }
    let (word, rest) = first_word(line);
    match verb_of(word) {
        None => Err(LogCause::BadWord),
        Some(verb) => line_by(verb, rest),
    }
}

/// What a line says, or why it says nothing; its line feed isn't part of it.
pub fn read_line(line: &[u8]) -> Result<LogLine, LogCause>
    ensures says { result ≡ line_of line.now }
    ensures within { IfOk result IsLine }
{
    line_of(line)
}
