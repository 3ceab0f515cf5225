// The work of each strand of a log.

ghost use Rattle.std.specs.Prelude.{◌≡◌, ℕ, [], List, IfOk, OnOk, if◌then◌else◌};
ghost use Rattle.log_strands.specs.below.log_form.{Event};
ghost use Rattle.log_pieces.specs.Claims.{is_that};
ghost use Rattle.log_pieces.specs.Pieces.{events_of_pieces};
ghost use Rattle.log_weights.specs.Weights.{weight_of};
ghost use Rattle.log_weights.specs.Sums.{fitting, plus};
ghost use Rattle.log_weights.specs.Known.{KnowsWork, work_known};

use crate::sums::{plus, text_work};
use fork_graph::GraphStrand;
use log_pieces::{LogPiece, StrandHasher};
use log_strands::{is_known, strand_in_log};
use log_tasks::{LogTasks, piece_lines};
use plain_vec::Listed;
use std::alloc::{AllocError, Global};
use std::collections::HashMap;
use std::hash::BuildHasherDefault;

/// The work that is known of strands of a log, by task and number, or None where it doesn't fit; the others have none.
#[derive(Drop)]
pub(crate) struct StrandWork {
    pub(crate) units: HashMap<(u32, u32), Option<u64>, BuildHasherDefault<StrandHasher>>,
}

impl StrandWork {
    // The work of a strand of the log.
    fn of(&self, strand: GraphStrand) -> Option<u64>
        ensures { result ≡ work_known self.now strand.task strand.index }
    {
        match self.units.get(&(strand.task, strand.index)) {
            Some(units) => *units,
            None => Some(0),
        }
    }

    // A strand works further.
    fn add(&mut self, strand: GraphStrand, units: Option<u64>) -> Result<(), AllocError>
        requires { (n : ℕ) × units ≡ fitting n }
        ensures { OnOk result ((t i : ℕ) → work_known self.new t i ≡ (if is_that strand t i then plus (work_known self.old t i) units else work_known self.old t i)) }
    {
        let key = (strand.task, strand.index);
        let before = self.units.insert(key, units)?;
        if let Some(work) = before {
            self.units.insert(key, plus(work, units))?;
        }
        Ok(())
    }

    // The work of pieces is added.
    fn take_pieces(&mut self, texts: &[Listed<u8>], pieces: &[LogPiece]) -> Result<(), AllocError>
        requires { KnowsWork self.old [] }
        ensures { OnOk result (KnowsWork self.new (events_of_pieces texts.now pieces.now)) }
    {
        for piece in pieces {
            let work = text_work(piece_lines(texts, *piece));
            self.add(piece.strand, work)?;
        }
        Ok(())
    }

    /// The weight of a strand of the graph, if it fits.
    pub(crate) fn weight(&self, tasks: &LogTasks, strand: GraphStrand) -> Option<u64>
        ensures { (events : List Event) → KnowsWork self.now events → result ≡ fitting (weight_of events tasks.now strand) }
    {
        if is_known(tasks, strand) {
            self.of(strand_in_log(tasks, strand))
        } else {
            Some(0)
        }
    }
}

/// The work of all strands; there is room for as many.
pub(crate) fn work_of(
    alloc: Global,
    texts: &[Listed<u8>],
    pieces: &[LogPiece],
    strands: usize,
) -> Result<StrandWork, AllocError>
    ensures { IfOk result (λ work. KnowsWork work (events_of_pieces texts.now pieces.now)) }
{
    let mut work = StrandWork {
        units: HashMap::with_capacity_and_hasher(alloc, strands, BuildHasherDefault::new())?,
    };
    work.take_pieces(texts, pieces)?;
    Ok(work)
}
