// What is counted of the acts of a log.

ghost use Rattle.std.specs.Prelude.{◌≡◌, ◌<◌, ◌+◌, ◌^◌, ◌++◌, [], ℕ, List, Some, IfOk, OnOk, IfSome, false, length, slice_get, is_some, option_to_list};
ghost use Rattle.log_births.specs.below.fork_graph.{GraphStrand};
ghost use Rattle.log_pieces.specs.Pieces.{acts_in, events_of_pieces};
ghost use Rattle.log_tasks.specs.declared.tasks.LogTasks.{LogTasks};
ghost use Rattle.log_strands.specs.Places.{IsPlaceOf, ArePiecePlaces};
ghost use Rattle.log_strands.specs.below.log_form.{Event};
ghost use Rattle.log_births.specs.Checks.{LinesAreWithin, AreBothWithin};
ghost use Rattle.log_births.specs.Lines.{IsPart};
ghost use Rattle.log_births.specs.Found.{IsScene};
ghost use Rattle.log_heaps.specs.Acts.{stored};
ghost use Rattle.log_heaps.specs.Homes.{foreign};
ghost use Rattle.log_heaps.specs.Tally.{IsDownIf, counted, is_shared, shared_after, AreTakenAt, AreTaken, HasFew, AreTallied};

use crate::acts::{referred, stored, stored_into};
use crate::births::{BlockBirth, birth_at};
use crate::homes::{foreign, leads_down};
use crate::shared::SharedBlocks;
use log_births::{BlockLines, Lifetimes, LineAt, released, used};
use log_pieces::LogPiece;
use log_strands::{Act, next_act};
use log_tasks::piece_text;
use log_walk::SerialWalk;
use plain_vec::Listed;
use std::alloc::{AllocError, Global};

/// The births, the blocks that several tasks name, the stored references and how many of them lead down.
#[derive(Drop)]
pub(crate) struct Tally {
    pub(crate) births: Listed<BlockBirth>,
    pub(crate) shared: SharedBlocks,
    pub(crate) stores: u64,
    pub(crate) down: u64,
}

// Whether an act stores a reference that leads down.
fn is_down(walk: &SerialWalk, births: &BlockLines, act: Act, place: usize) -> bool
    requires place { place < length walk.now.order }
    requires within { LinesAreWithin walk.now births.now }
    ensures { IsDownIf walk.now births.now place act result }
{
    match (stored_into(act), stored(act)) {
        (Some(block), Some(target)) => leads_down(walk, births, block, target, place),
        _ => false,
    }
}

// A count, and one more if something is so.
fn counted(count: u64, more: bool) -> u64
    requires { count + 1 < 2 ^ 64 }
    ensures { result ≡ counted count more }
{
    if more { count + 1 } else { count }
}

// A birth is added.
fn add(births: &mut Listed<BlockBirth>, birth: Option<BlockBirth>) -> Result<(), AllocError>
    ensures { OnOk result (births.new ≡ births.old ++ option_to_list birth) }
{
    match birth {
        Some(birth) => births.push(birth),
        None => Ok(()),
    }
}

// The blocks of other tasks that an act names are shared.
fn share(
    shared: &mut SharedBlocks,
    walk: &SerialWalk,
    births: &BlockLines,
    act: Act,
    place: usize,
) -> Result<(), AllocError>
    requires place { place < length walk.now.order }
    requires within { LinesAreWithin walk.now births.now }
    ensures { OnOk result ((b : ℕ) → is_shared shared.new b ≡ shared_after (foreign walk.now.order births.now place) act shared.old b) }
{
    shared.note(foreign(walk, births, used(act), place))?;
    shared.note(foreign(walk, births, referred(act), place))?;
    shared.note(foreign(walk, births, released(act), place))
}

impl Tally {
    /// Nothing is counted.
    pub(crate) fn new(alloc: Global) -> Tally
        ensures births { result.births ≡ [] }
        ensures shared { (b : ℕ) → is_shared result.shared b ≡ false }
        ensures stores { result.stores ≡ 0 }
        ensures down { result.down ≡ 0 }
    {
        Tally {
            births: Listed::new(alloc),
            shared: SharedBlocks::new(alloc),
            stores: 0,
            down: 0,
        }
    }

    // An act of a strand that has a place.
    fn take(
        &mut self,
        walk: &SerialWalk,
        births: &BlockLines,
        act: Act,
        at: LineAt,
    ) -> Result<(), AllocError>
        requires place { at.place < length walk.now.order }
        requires within { LinesAreWithin walk.now births.now }
        requires stores { self.old.stores + 1 < 2 ^ 64 }
        requires down { self.old.down + 1 < 2 ^ 64 }
        ensures { OnOk result (AreTakenAt walk.now births.now act at.place at.line self.old self.new) }
    {
        add(&mut self.births, birth_at(walk, act, at.place, at.line))?;
        share(&mut self.shared, walk, births, act, at.place)?;
        self.stores = counted(self.stores, stored(act).is_some());
        self.down = counted(self.down, is_down(walk, births, act, at.place));
        Ok(())
    }

    // An act, by the place of its strand.
    fn take_act(
        &mut self,
        walk: &SerialWalk,
        births: &BlockLines,
        act: Act,
        place: Option<usize>,
        line: u32,
    ) -> Result<(), AllocError>
        requires place { IfSome place (λ p. p < length walk.now.order) }
        requires within { LinesAreWithin walk.now births.now }
        requires few { HasFew self.old line }
        ensures taken { OnOk result (AreTaken walk.now births.now act place line self.old self.new) }
        ensures few { OnOk result (HasFew self.new (line + 1)) }
    {
        match place {
            Some(place) => self.take(walk, births, act, LineAt { place, line }),
            None => Ok(()),
        }
    }

    // The acts of a text, by the place of their strand and the number of the first one.
    fn take_text(
        &mut self,
        walk: &SerialWalk,
        lines: &Lifetimes,
        text: &[u8],
        place: Option<usize>,
        first: u32,
    ) -> Result<u32, AllocError>
        requires room { first + length (acts_in text.now) < 2 ^ 32 }
        requires place { IfSome place (λ p. p < length walk.now.order) }
        requires within { AreBothWithin walk.now lines.now }
        requires few { HasFew self.old first }
        ensures line { IfOk result (λ line. line ≡ first + length (acts_in text.now)) }
        ensures few { IfOk result (HasFew self.new) }
        ensures tallied { IfOk result (λ line. (tasks : LogTasks) (events : List Event) (s : GraphStrand) → IsScene tasks events walk.now lines.now → IsPlaceOf tasks walk.now.order s place
            → IsPart events first s (acts_in text.now) → AreTallied events tasks first self.old → AreTallied events tasks line self.new) }
    {
        let mut line = first;
        let mut left = text;
        while let Some((act, rest)) = next_act(left) {
            self.take_act(walk, &lines.births, act, place, line)?;
            line += 1;
            left = rest;
        }
        Ok(line)
    }

    /// The acts of all pieces.
    pub(crate) fn take_pieces(
        &mut self,
        walk: &SerialWalk,
        lines: &Lifetimes,
        texts: &[Listed<u8>],
        pieces: &[LogPiece],
        places: &[Option<usize>],
    ) -> Result<(), AllocError>
        requires places { length places.now ≡ length pieces.now }
        requires few { length (events_of_pieces texts.now pieces.now) < 2 ^ 32 }
        requires there { (k p : ℕ) → slice_get places.now k ≡ Some (Some p) → p < length walk.now.order }
        requires within { AreBothWithin walk.now lines.now }
        requires none { HasFew self.old 0 }
        ensures { OnOk result ((tasks : LogTasks) → IsScene tasks (events_of_pieces texts.now pieces.now) walk.now lines.now → ArePiecePlaces tasks walk.now.order pieces.now places.now
            → AreTallied (events_of_pieces texts.now pieces.now) tasks 0 self.old → AreTallied (events_of_pieces texts.now pieces.now) tasks (length (events_of_pieces texts.now pieces.now)) self.new) }
    {
        let mut line = 0;
        for at in 0..pieces.len() {
            let text = piece_text(texts, pieces[at]);
            line = self.take_text(walk, lines, text, places[at], line)?;
        }
        Ok(())
    }
}
