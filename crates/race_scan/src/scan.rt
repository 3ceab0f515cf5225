// The scan of all accesses of a log.

use crate::cells::{Cells, FoundRace};
use crate::slots::slots_of;
use crate::touch::Touch;
use log_places::{LocationSlot, Numbers};
use race_cells::{CellAccess, CellAccessKind, Strands};
use std::alloc::{AllocError, Global};
use std::marker::Model;

/// What is known of the accesses so far of all locations: a cell for each stretch, and the races that were found.
#[derive(Drop)]
pub struct RaceScan {
    cells: Cells,
    spare: Vec<LocationSlot>,
}

impl Model for RaceScan {
    ghost use Rattle.race_scan.specs.Value.{ScanValue};

    ghost Value = { ScanValue };

    ghost view = { λ s. s.cells };
}

impl RaceScan {
    ghost use Rattle.std.specs.Prelude.{◌≡◌, [], ◌∷◌, ◌++◌, List, IfOk, OnOk, length, true};
    ghost use Rattle.race_cells.specs.Order.{StrandOrder};
    ghost use Rattle.log_places.specs.Places.{IsRegion, IsRegionCut};
    ghost use Rattle.log_places.specs.declared.region.Region.{Region};
    ghost use Rattle.log_places.specs.Numbers.{stretch_count};
    ghost use Rattle.log_places.specs.Counting.{AreMarked};
    ghost use Rattle.race_scan.specs.declared.touch.Touch.{Touch};
    ghost use Rattle.race_scan.specs.Touches.{touches_of_release};
    ghost use Rattle.race_scan.specs.Scan.{HasScanned};

    /// Nothing was accessed yet.
    pub fn new(alloc: Global, numbers: &Numbers) -> Result<RaceScan, AllocError>
        ensures { IfOk result (λ scan. (o : StrandOrder) → HasScanned o numbers.entry.now [] scan) }
    {
        Ok(RaceScan {
            cells: Cells::new(alloc, numbers.len())?,
            spare: Vec::new(alloc),
        })
    }

    /// The next access, whose region was marked before stretches were numbered. It takes the time of a step for each
    /// stretch of the region. After an `Err` the scan is of no more use.
    pub fn touch<S: Strands>(
        &mut self,
        alloc: Global,
        order: &S,
        numbers: &Numbers,
        touch: Touch,
    ) -> Result<(), AllocError>
        requires region { IsRegion touch.region }
        requires cut { IsRegionCut numbers.now touch.region }
        requires size { length self.old.cells ≡ stretch_count numbers.now }
        ensures ok { OnOk result ((past : List Touch) → HasScanned (S.order order.now) numbers.now past self.old
            → HasScanned (S.order order.now) numbers.now (past ++ touch ∷ []) self.new) }
        ensures size { length self.new.cells ≡ length self.old.cells }
    {
        slots_of(numbers, touch.region, &mut self.spare)?;
        self.cells.visit_all(alloc, order, touch.region.block, &self.spare, touch.access)
    }

    /// A block is released: a plain write of each of its locations that was marked before stretches were numbered. It
    /// takes the time of a step for each stretch of the block. After an `Err` the scan is of no more use.
    pub fn release<S: Strands>(
        &mut self,
        alloc: Global,
        order: &S,
        numbers: &Numbers,
        block: u64,
        strand: u32,
        line: u32,
    ) -> Result<(), AllocError>
        requires known { (S.order order.now).before strand strand ≡ true }
        requires size { length self.old.cells ≡ stretch_count numbers.now }
        ensures ok { OnOk result ((regions : List Region) (past : List Touch) → AreMarked regions numbers.now
            → HasScanned (S.order order.now) numbers.now past self.old
            → HasScanned (S.order order.now) numbers.now (past ++ touches_of_release regions block strand line) self.new) }
        ensures size { length self.new.cells ≡ length self.old.cells }
    {
        numbers.slots_of_block(block, &mut self.spare)?;
        let access = CellAccess {
            strand,
            kind: CellAccessKind::PlainWrite,
            line,
        };
        self.cells
            .visit_all(alloc, order, block, &self.spare, access)
    }

    /// The races of the accesses so far: one for each stretch of which two accesses race.
    pub fn races(&self) -> &[FoundRace]
        ensures { result.now ≡ self.now.races }
    {
        self.cells.races()
    }
}
