// The walk along a log's files.

ghost use Rattle.std.specs.Prelude.{◌≡◌, ◌≤◌, ◌<◌, ◌+◌, ◌||◌, [], ◌∷◌, ◌++◌, ℕ, List, Option, IfOk, OnOk, MatchOption, None, Some, Ok, Result, drop, length, map};
ghost use Rattle.log_lines.specs.Grammar.{line_of};
ghost use Rattle.log_form.specs.Text.{lines_in};
ghost use Rattle.log_form.specs.Events.{Event, Spot, spot_behind_all, file_begin, file_end, events_of, is_cut};
ghost use Rattle.log_form.specs.Faults.{first_fault, fault_from, fault_of_lines, log_fault};
ghost use Rattle.log_pieces.specs.Claims.{ClaimsHold};
ghost use Rattle.log_pieces.specs.LineWalk.{IsAtSpot, OpenStrandIsSmall, cut_of};
ghost use Rattle.log_pieces.specs.Pieces.{text_at, events_of_pieces, IsLineAt, Cuts, WalkTells};

use crate::walk::LineWalk;
use log_form::{LocatedFault, LogFault, LogPosition};
use log_lines::{LogCause, LogLine, line_end, read_line};
use plain_vec::Listed;
use std::alloc::AllocError;

// The first line feed from a place on.
fn next_feed(text: &[u8], at: usize) -> Option<usize>
    requires { at ≤ length text.now }
    ensures { MatchOption result (lines_in (drop at text.now) ≡ []) (IsLineAt text.now at) }
{
    let rest = &text[at..];
    let end = line_end(rest);
    if end == rest.len() {
        None
    } else {
        Some(at + end)
    }
}

// Why a line may not be the first one of a file.
fn first_fault(line: &[u8]) -> Option<LogFault>
    ensures { result ≡ first_fault (line_of line.now) }
{
    match read_line(line) {
        Ok(LogLine::Version) => None,
        Err(LogCause::UnknownVersion) => Some(LogFault::NoLine(LogCause::UnknownVersion)),
        _ => Some(LogFault::NoVersion),
    }
}

fn either(one: bool, other: bool) -> bool
    ensures { result ≡ (one || other) }
{
    one || other
}

// A fault at a line of a file.
fn found(file: usize, line: usize, fault: LogFault) -> LocatedFault
    ensures { result ≡ record { at = record { file = file; line = line }; fault = fault } }
{
    LocatedFault {
        at: LogPosition { file, line },
        fault,
    }
}

impl LineWalk {
    // Goes along the lines of a text from a place on, that of its second line.
    fn take_lines(&mut self, text: &[u8], from: usize) -> Result<Option<LocatedFault>, AllocError>
        requires small { OpenStrandIsSmall self.old.here }
        requires from { (1 ≤ from) × (from ≤ length text.now) }
        ensures found { IfOk result (λ found. (spot : Spot) → IsAtSpot self.old spot → found ≡ fault_from self.old.file spot 2 (lines_in (drop from text.now))) }
        ensures after { IfOk result (λ found. found ≡ None → (spot : Spot) → IsAtSpot self.old spot → IsAtSpot self.new (spot_behind_all spot (lines_in (drop from text.now)))) }
        ensures pieces { IfOk result (λ found. found ≡ None → (spot : Spot) → IsAtSpot self.old spot → (texts : List (List ℕ)) → text_at texts self.old.file ≡ text.now → Cuts texts text.now (cut_of self.old) from spot.events
            → events_of_pieces texts self.new.pieces ≡ (spot_behind_all spot (lines_in (drop from text.now))).events) }
        ensures file { self.new.file ≡ self.old.file }
    {
        let mut at = from;
        let mut line = 2;
        while let Some(end) = next_feed(text, at) {
            match self.take_line(&text[at..end], at, end + 1)? {
                Some(fault) => return Ok(Some(found(self.file, line, fault))),
                None => {
                    at = end + 1;
                    line += 1;
                }
            }
        }
        self.close(at)?;
        Ok(None)
    }

    // Goes along a file.
    fn take_file(&mut self, text: &[u8]) -> Result<Option<LocatedFault>, AllocError>
        ensures found { IfOk result (λ found. (before : List Event) → ClaimsHold self.old.claims before → found ≡ fault_of_lines self.old.file before (lines_in text.now)) }
        ensures after { IfOk result (λ found. found ≡ None → (before : List Event) → ClaimsHold self.old.claims before → IsAtSpot self.new (file_end before text.now)) }
        ensures pieces { IfOk result (λ found. found ≡ None → (before : List Event) → ClaimsHold self.old.claims before → (texts : List (List ℕ)) → text_at texts self.old.file ≡ text.now
            → events_of_pieces texts self.old.pieces ≡ before → events_of_pieces texts self.new.pieces ≡ (file_end before text.now).events) }
        ensures file { self.new.file ≡ self.old.file }
    {
        let Some(end) = next_feed(text, 0) else {
            return Ok(Some(found(self.file, 1, LogFault::NoVersion)));
        };
        match first_fault(&text[0..end]) {
            Some(fault) => Ok(Some(found(self.file, 1, fault))),
            None => {
                self.here = None;
                self.closed = false;
                self.take_lines(text, end + 1)
            }
        }
    }

    /// Goes along all files, and says whether one of them was cut off.
    pub(crate) fn take_files(
        &mut self,
        texts: &[Listed<u8>],
    ) -> Result<Result<bool, LocatedFault>, AllocError>
        requires knows { ClaimsHold self.old.claims [] }
        requires pieces { self.old.pieces ≡ [] }
        ensures found { IfOk result (λ read. WalkTells read (log_fault texts.now) (is_cut texts.now)) }
        ensures pieces { IfOk result (λ read. OnOk read (events_of_pieces texts.now self.new.pieces ≡ events_of texts.now)) }
    {
        let mut cut = false;
        for (file, text) in texts.iter().enumerate() {
            self.file = file;
            match self.take_file(text.as_slice())? {
                Some(found) => return Ok(Err(found)),
                None => cut = either(cut, !self.closed),
            }
        }
        Ok(Ok(cut))
    }
}
