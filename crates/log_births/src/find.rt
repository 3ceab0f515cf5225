// Finds all acts that see a block too early, or use it too late.

ghost use Rattle.std.specs.Prelude.{◌≡◌, ◌<◌, ◌+◌, ◌^◌, [], ℕ, List, Some, None, IfOk, IfErr, IfSome, OnOk, length, slice_get};
ghost use Rattle.fork_graph.specs.declared.graph.GraphStrand.{GraphStrand};
ghost use Rattle.fork_graph.specs.declared.fault.Extent.{Extent};
ghost use Rattle.log_pieces.specs.Pieces.{acts_in, events_of_pieces};
ghost use Rattle.log_tasks.specs.declared.tasks.LogTasks.{LogTasks};
ghost use Rattle.log_tasks.specs.Log.{IsLog};
ghost use Rattle.log_strands.specs.Places.{IsPlaceOf, ArePiecePlaces};
ghost use Rattle.log_strands.specs.below.log_form.{Event, events_of, log_fault};
ghost use Rattle.log_births.specs.Lines.{IsPart};
ghost use Rattle.log_births.specs.Checks.{AreBothWithin};
ghost use Rattle.log_births.specs.Findings.{AreFindings};
ghost use Rattle.log_births.specs.Found.{IsScene, AreFoundBelow, IsTooLong};

use crate::findings::Findings;
use crate::lines::{Lifetimes, lifetimes_of};
use crate::some_lifetime::have_lifetimes;
use log_pieces::LogPiece;
use log_strands::{has_few_acts, next_act, piece_places};
use log_tasks::{LogTasks, piece_text};
use log_walk::SerialWalk;
use plain_vec::Listed;
use std::alloc::{AllocError, Global};

/// Why the findings of a log aren't known.
#[derive(Clone, Copy)]
pub enum FindError {
    /// The log has 2^32 acts or more.
    TooLong,
    /// Out of memory.
    NoMemory,
}

impl From<AllocError> for FindError {
    ghost use Rattle.std.specs.Prelude.{◌≡◌};
    ghost use Rattle.log_births.specs.declared.find.FindError.TheVariants.{NoMemory};

    ghost from_gives = { λ _ e. e ≡ NoMemory };

    fn from(_: AllocError) -> FindError {
        FindError::NoMemory
    }
}

impl Findings {
    // Nothing was found.
    fn new(alloc: Global) -> Findings
        ensures { result ≡ record { reads = []; uses = []; stale = [] } }
    {
        Findings {
            reads: Listed::new(alloc),
            uses: Listed::new(alloc),
            stale: Listed::new(alloc),
        }
    }

    // The acts of a text, by the place of their strand and the number of the first one.
    fn take_text(
        &mut self,
        walk: &SerialWalk,
        lines: &Lifetimes,
        text: &[u8],
        place: Option<usize>,
        first: u32,
    ) -> Result<u32, AllocError>
        requires room { first + length (acts_in text.now) < 2 ^ 32 }
        requires place { IfSome place (λ p. p < length walk.now.order) }
        requires within { AreBothWithin walk.now lines.now }
        ensures line { IfOk result (λ line. line ≡ first + length (acts_in text.now)) }
        ensures found { IfOk result (λ line. (tasks : LogTasks) (events : List Event) (s : GraphStrand) → IsScene tasks events walk.now lines.now → IsPlaceOf tasks walk.now.order s place
            → IsPart events first s (acts_in text.now) → AreFoundBelow events tasks first self.old → AreFoundBelow events tasks line self.new) }
    {
        let mut line = first;
        let mut left = text;
        while let Some((act, rest)) = next_act(left) {
            self.take_act(walk, lines, act, place, line)?;
            line += 1;
            left = rest;
        }
        Ok(line)
    }

    // The acts of all pieces.
    fn take_pieces(
        &mut self,
        walk: &SerialWalk,
        lines: &Lifetimes,
        texts: &[Listed<u8>],
        pieces: &[LogPiece],
        places: &[Option<usize>],
    ) -> Result<(), AllocError>
        requires places { length places.now ≡ length pieces.now }
        requires few { length (events_of_pieces texts.now pieces.now) < 2 ^ 32 }
        requires there { (k p : ℕ) → slice_get places.now k ≡ Some (Some p) → p < length walk.now.order }
        requires within { AreBothWithin walk.now lines.now }
        ensures { OnOk result ((tasks : LogTasks) → IsScene tasks (events_of_pieces texts.now pieces.now) walk.now lines.now → ArePiecePlaces tasks walk.now.order pieces.now places.now
            → AreFoundBelow (events_of_pieces texts.now pieces.now) tasks 0 self.old → AreFoundBelow (events_of_pieces texts.now pieces.now) tasks (length (events_of_pieces texts.now pieces.now)) self.new) }
    {
        let mut line = 0;
        for at in 0..pieces.len() {
            let text = piece_text(texts, pieces[at]);
            line = self.take_text(walk, lines, text, places[at], line)?;
        }
        Ok(())
    }
}

// What is found where blocks are born or released.
fn uses_of(
    alloc: Global,
    texts: &[Listed<u8>],
    pieces: &[LogPiece],
    tasks: &LogTasks,
    walk: &SerialWalk,
) -> Result<Findings, FindError>
    requires pieces { events_of_pieces texts.now pieces.now ≡ events_of texts.now }
    requires whole { log_fault texts.now ≡ None }
    requires tasks { (extent : Extent) × IsLog (events_of texts.now) extent tasks.now }
    requires walk { walk.now.tasks ≡ tasks.now.turns }
    ensures found { IfOk result (AreFindings (events_of texts.now) tasks.now) }
    ensures too_long { IfErr result (IsTooLong (events_of texts.now)) }
{
    if !has_few_acts(texts, pieces) {
        return Err(FindError::TooLong);
    }
    let places = piece_places(alloc, tasks, walk.order(), pieces)?;
    let lines = lifetimes_of(alloc, texts, pieces, places.as_slice())?;
    let mut found = Findings::new(alloc);
    found.take_pieces(walk, &lines, texts, pieces, places.as_slice())?;
    Ok(found)
}

/// Finds all reads of a log that yield a block, and all accesses of one, whose birth doesn't happen before them, and all
/// accesses whose block's release happens before them on another strand.
pub fn find_uses(
    alloc: Global,
    texts: &[Listed<u8>],
    pieces: &[LogPiece],
    tasks: &LogTasks,
    walk: &SerialWalk,
) -> Result<Findings, FindError>
    requires pieces { events_of_pieces texts.now pieces.now ≡ events_of texts.now }
    requires whole { log_fault texts.now ≡ None }
    requires tasks { (extent : Extent) × IsLog (events_of texts.now) extent tasks.now }
    requires walk { walk.now.tasks ≡ tasks.now.turns }
    ensures found { IfOk result (AreFindings (events_of texts.now) tasks.now) }
    ensures too_long { IfErr result (IsTooLong (events_of texts.now)) }
{
    if !have_lifetimes(texts, pieces) {
        return Ok(Findings::new(alloc));
    }
    uses_of(alloc, texts, pieces, tasks, walk)
}
