// Where the strands of a log stand in the serial order of its graph.

ghost use Rattle.std.specs.Prelude.{◌≡◌, ℕ, IfOk, OnOk};
ghost use Rattle.log_tasks.specs.Numbers.{log_strand};
ghost use Rattle.log_strands.specs.Places.{is_known, ArePiecePlaces};
ghost use Rattle.log_strands.specs.Table.{KnowsPlaces, place_told, noted_place, noted_if};

use fork_graph::GraphStrand;
use log_pieces::{LogPiece, StrandHasher};
use log_tasks::LogTasks;
use plain_vec::Listed;
use std::alloc::{AllocError, Global};
use std::collections::HashMap;
use std::hash::BuildHasherDefault;

/// Whether the log tells how the strand's task came to it.
pub fn is_known(log: &LogTasks, strand: GraphStrand) -> bool
    ensures { result ≡ is_known log.now strand }
{
    match log.known.get(strand.task as usize) {
        Some(known) => strand.index as usize <= *known,
        None => false,
    }
}

/// The strand as the log has it.
pub fn strand_in_log(log: &LogTasks, strand: GraphStrand) -> GraphStrand
    ensures { result ≡ log_strand log.now.numbers strand }
{
    match log.numbers.get(strand.task as usize) {
        Some(number) => GraphStrand {
            task: *number,
            index: strand.index,
        },
        None => GraphStrand {
            task: 0,
            index: strand.index,
        },
    }
}

/// The places of the log's strands in an order, by task and number.
#[derive(Drop)]
pub(crate) struct PlaceTable {
    pub(crate) places: HashMap<(u32, u32), usize, BuildHasherDefault<StrandHasher>>,
}

impl PlaceTable {
    // A strand of the log stands at a place.
    fn note(&mut self, strand: GraphStrand, place: usize) -> Result<(), AllocError>
        ensures { OnOk result ((t i : ℕ) → place_told self.new t i ≡ noted_place self.old strand place t i) }
    {
        self.places.insert((strand.task, strand.index), place)?;
        Ok(())
    }

    // The strand of the graph at a place is noted, if it is known.
    fn take(&mut self, log: &LogTasks, strand: GraphStrand, place: usize) -> Result<(), AllocError>
        ensures { OnOk result ((t i : ℕ) → place_told self.new t i ≡ noted_if (is_known log.now strand) self.old (log_strand log.now.numbers strand) place t i) }
    {
        if !is_known(log, strand) {
            return Ok(());
        }
        self.note(strand_in_log(log, strand), place)
    }

    // The place of a strand of the log.
    fn place(&self, strand: GraphStrand) -> Option<usize>
        ensures { result ≡ place_told self.now strand.task strand.index }
    {
        self.places.get(&(strand.task, strand.index)).copied()
    }
}

// The places of all strands of an order.
fn table_of(alloc: Global, log: &LogTasks, order: &[GraphStrand]) -> Result<PlaceTable, AllocError>
    ensures { IfOk result (λ table. KnowsPlaces table log.now order.now) }
{
    let mut table = PlaceTable {
        places: HashMap::with_capacity_and_hasher(alloc, order.len(), BuildHasherDefault::new())?,
    };
    for place in 0..order.len() {
        table.take(log, order[place], place)?;
    }
    Ok(table)
}

/// The place of each piece's strand in an order of the graph's strands; None if it has none, as what a cut log tells of
/// strands after a gap.
pub fn piece_places(
    alloc: Global,
    log: &LogTasks,
    order: &[GraphStrand],
    pieces: &[LogPiece],
) -> Result<Listed<Option<usize>>, AllocError>
    ensures { IfOk result (ArePiecePlaces log.now order.now pieces.now) }
{
    let table = table_of(alloc, log, order)?;
    let mut places = Listed::new(alloc);
    for piece in pieces {
        places.push(table.place(piece.strand))?;
    }
    Ok(places)
}
