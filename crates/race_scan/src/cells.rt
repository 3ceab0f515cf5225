// The cells of all stretches, and the races that were found.

use log_places::LocationSlot;
use race_cells::{Cell, CellAccess, CellRace, Strands};
use std::alloc::{AllocError, Global};
use std::marker::Model;

/// The race of the locations of a stretch: all of them have the same accesses.
#[derive(Clone, Copy)]
pub struct FoundRace {
    pub block: u64,
    /// The stretch.
    pub slot: LocationSlot,
    pub race: CellRace,
}

/// A cell for each stretch, and the races that were found so far, in that order.
#[derive(Drop)]
pub(crate) struct Cells {
    cells: Vec<Cell>,
    races: Vec<FoundRace>,
}

impl Model for Cells {
    ghost use Rattle.race_scan.specs.Value.{ScanValue};

    ghost Value = { ScanValue };

    ghost view = { λ c. record { cells = c.cells.items; races = c.races.items } };
}

impl Cells {
    ghost use Rattle.std.specs.Prelude.{◌≡◌, ◌<◌, [], Some, IfOk, OnOk, OnErr, length, fold, replicate, All};
    ghost use Rattle.race_cells.specs.Scan.{no_stacks};
    ghost use Rattle.race_scan.specs.Value.{visited};

    /// So many cells, of which none was accessed yet.
    pub(crate) fn new(alloc: Global, count: usize) -> Result<Cells, AllocError>
        ensures { IfOk result (λ c. c ≡ record { cells = replicate count (Some no_stacks); races = [] }) }
    {
        let mut cells = Vec::new(alloc);
        cells.reserve_exact(count)?;
        for _ in 0..count {
            cells.push_reserved(Cell::new());
        }
        Ok(Cells {
            cells,
            races: Vec::new(alloc),
        })
    }

    /// The races that were found.
    pub(crate) fn races(&self) -> &[FoundRace]
        ensures { result.now ≡ self.now.races }
    {
        &self.races
    }

    // A stretch is accessed. On an `Err` nothing has changed.
    fn visit<S: Strands>(
        &mut self,
        alloc: Global,
        order: &S,
        block: u64,
        slot: LocationSlot,
        access: CellAccess,
    ) -> Result<(), AllocError>
        requires { slot.number < length self.old.cells }
        ensures ok { OnOk result (self.new ≡ visited (S.order order.now) block access self.old slot) }
        ensures err { OnErr result (self.new ≡ self.old) }
    {
        self.races.reserve(1)?;
        if let Some(race) = self.cells[slot.number].access(alloc, order, access)? {
            self.races.push_reserved(FoundRace { block, slot, race });
        }
        Ok(())
    }

    /// Stretches of a block are accessed.
    pub(crate) fn visit_all<S: Strands>(
        &mut self,
        alloc: Global,
        order: &S,
        block: u64,
        slots: &[LocationSlot],
        access: CellAccess,
    ) -> Result<(), AllocError>
        requires { All (λ s. s.number < length self.old.cells) slots.now }
        ensures ok { OnOk result (self.new ≡ fold (visited (S.order order.now) block access) self.old slots.now) }
        ensures size { length self.new.cells ≡ length self.old.cells }
    {
        for slot in slots {
            self.visit(alloc, order, block, *slot, access)?;
        }
        Ok(())
    }
}
