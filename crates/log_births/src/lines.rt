// The births and releases of a log's blocks.

ghost use Rattle.std.specs.Prelude.{◌≡◌, ◌<◌, ◌+◌, ◌^◌, ℕ, List, Option, IfOk, OnOk, length};
ghost use Rattle.fork_graph.specs.declared.graph.GraphStrand.{GraphStrand};
ghost use Rattle.log_pieces.specs.Pieces.{acts_in, events_of_pieces};
ghost use Rattle.log_tasks.specs.declared.tasks.LogTasks.{LogTasks};
ghost use Rattle.log_strands.specs.Places.{IsPlaceOf, ArePiecePlaces};
ghost use Rattle.log_strands.specs.below.log_form.{Event};
ghost use Rattle.log_births.specs.Blocks.{born, released};
ghost use Rattle.log_births.specs.Lines.{line_told, birth_noted, IsPart, KnowAll};

use crate::acts::{born, released};
use log_pieces::LogPiece;
use log_strands::{Act, next_act};
use log_tasks::piece_text;
use plain_vec::Listed;
use std::alloc::{AllocError, Global};
use std::collections::HashMap;

/// Where an act stands: the place of its strand in the serial order, and its number in the log.
#[derive(Clone, Copy)]
pub struct LineAt {
    pub place: usize,
    pub line: u32,
}

/// For each block of some an act that does something to it.
#[derive(Drop)]
pub struct BlockLines {
    pub(crate) lines: HashMap<u64, LineAt>,
}

impl BlockLines {
    // An act of a strand that has a place does something to a block.
    fn note(
        &mut self,
        block: Option<u64>,
        place: Option<usize>,
        line: u32,
    ) -> Result<(), AllocError>
        ensures { OnOk result ((b : ℕ) → line_told self.new b ≡ birth_noted block place line b (line_told self.old b)) }
    {
        match (block, place) {
            (Some(block), Some(place)) => {
                self.lines.insert(block, LineAt { place, line })?;
                Ok(())
            }
            _ => Ok(()),
        }
    }

    /// The act that does something to a block.
    pub fn line(&self, block: u64) -> Option<LineAt>
        ensures { result ≡ line_told self.now block }
    {
        self.lines.get(&block).copied()
    }
}

/// The births and releases of blocks.
#[derive(Drop)]
pub struct Lifetimes {
    pub births: BlockLines,
    pub releases: BlockLines,
}

impl Lifetimes {
    // An act, by the place of its strand.
    fn take_act(&mut self, act: Act, place: Option<usize>, line: u32) -> Result<(), AllocError>
        ensures births { OnOk result ((b : ℕ) → line_told self.new.births b ≡ birth_noted (born act) place line b (line_told self.old.births b)) }
        ensures releases { OnOk result ((b : ℕ) → line_told self.new.releases b ≡ birth_noted (released act) place line b (line_told self.old.releases b)) }
    {
        self.births.note(born(act), place, line)?;
        self.releases.note(released(act), place, line)
    }

    // The acts of a text, by the place of their strand and the number of the first one.
    fn take_text(
        &mut self,
        text: &[u8],
        place: Option<usize>,
        first: u32,
    ) -> Result<u32, AllocError>
        requires { first + length (acts_in text.now) < 2 ^ 32 }
        ensures line { IfOk result (λ line. line ≡ first + length (acts_in text.now)) }
        ensures lines { IfOk result (λ line. (tasks : LogTasks) (order : List GraphStrand) (events : List Event) (s : GraphStrand) → IsPlaceOf tasks order s place → IsPart events first s (acts_in text.now)
            → KnowAll tasks order events first self.old → KnowAll tasks order events line self.new) }
    {
        let mut line = first;
        let mut left = text;
        while let Some((act, rest)) = next_act(left) {
            self.take_act(act, place, line)?;
            line += 1;
            left = rest;
        }
        Ok(line)
    }
}

/// The births and releases of all blocks, by strands that have places.
pub fn lifetimes_of(
    alloc: Global,
    texts: &[Listed<u8>],
    pieces: &[LogPiece],
    places: &[Option<usize>],
) -> Result<Lifetimes, AllocError>
    requires places { length places.now ≡ length pieces.now }
    requires few { length (events_of_pieces texts.now pieces.now) < 2 ^ 32 }
    ensures { IfOk result (λ lines. (tasks : LogTasks) (order : List GraphStrand) → ArePiecePlaces tasks order pieces.now places.now
        → KnowAll tasks order (events_of_pieces texts.now pieces.now) (length (events_of_pieces texts.now pieces.now)) lines) }
{
    let mut lines = Lifetimes {
        births: BlockLines {
            lines: HashMap::new(alloc),
        },
        releases: BlockLines {
            lines: HashMap::new(alloc),
        },
    };
    let mut line = 0;
    for at in 0..pieces.len() {
        line = lines.take_text(piece_text(texts, pieces[at]), places[at], line)?;
    }
    Ok(lines)
}
