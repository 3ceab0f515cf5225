// The scan of a list of accesses.

ghost use Rattle.std.specs.Prelude.{◌≡◌, IfOk, Err, All};
ghost use Rattle.log_places.specs.Places.{IsRegion, IsRegionCut};
ghost use Rattle.log_places.specs.Counting.{AreMarked, AreOver};
ghost use Rattle.race_scan.specs.Touches.{regions_of};
ghost use Rattle.race_scan.specs.Scan.{HasScanned};

use crate::scan::RaceScan;
use crate::touch::Touch;
use log_places::{NumberError, Numbers, Places};
use race_cells::Strands;
use std::alloc::{AllocError, Global};

/// The stretches of the locations of accesses, of which there may be so many at most.
pub fn number_all(alloc: Global, touches: &[Touch], limit: usize) -> Result<Numbers, NumberError>
    requires { All (λ t. IsRegion t.region) touches.now }
    ensures cut { IfOk result (λ numbers. All (λ t. IsRegionCut numbers t.region) touches.now) }
    ensures marked { IfOk result (AreMarked (regions_of touches.now)) }
    ensures over { result ≡ Err NumberError.OverLimit → AreOver (regions_of touches.now) limit }
{
    let mut places = Places::new(alloc);
    for touch in touches {
        places.mark(touch.region)?;
    }
    places.number(limit)
}

/// Scans accesses in the serial order of their strands.
pub fn scan_all<S: Strands>(
    alloc: Global,
    order: &S,
    numbers: &Numbers,
    touches: &[Touch],
) -> Result<RaceScan, AllocError>
    requires regions { All (λ t. IsRegion t.region) touches.now }
    requires cut { All (λ t. IsRegionCut numbers.now t.region) touches.now }
    ensures { IfOk result (HasScanned (S.order order.now) numbers.now touches.now) }
{
    let mut scan = RaceScan::new(alloc, numbers)?;
    for touch in touches {
        scan.touch(alloc, order, numbers, *touch)?;
    }
    Ok(scan)
}
