// The slots of a region's stretches.

ghost use Rattle.std.specs.Prelude.{◌≡◌, ◌+◌, ◌<◌, ◌≤◌, ◌++◌, ◌∷◌, [], OnOk};
ghost use Rattle.log_places.specs.Places.{run_start, IsRegion, IsRegionCut};
ghost use Rattle.log_places.specs.Numbers.{IsSlot};
ghost use Rattle.race_scan.specs.Touches.{covers};
ghost use Rattle.race_scan.specs.Slots.{AreSlots, AreUpto};

use log_places::{LocationSlot, Numbers, Region};
use std::alloc::AllocError;

// Adds a slot.
fn push(slots: &mut Vec<LocationSlot>, slot: LocationSlot) -> Result<(), AllocError>
    ensures { OnOk result (slots.new.items ≡ slots.old.items ++ slot ∷ []) }
{
    slots.push(slot)?;
    Ok(())
}

// The slot of a location of a run.
fn slot_at(numbers: &Numbers, region: Region, run: u64, at: u64) -> LocationSlot
    requires region { IsRegion region }
    requires cut { IsRegionCut numbers.now region }
    requires run { run < region.runs }
    requires from { run_start region run ≤ at }
    requires below { at < run_start region run + region.length }
    ensures { IsSlot numbers.now region.block at result }
{
    match numbers.find(region.block, at) {
        Some(slot) => slot,
        None => unreachable!(),
    }
}

// Adds the slots of the stretches of a run.
fn add_run(
    numbers: &Numbers,
    region: Region,
    run: u64,
    slots: &mut Vec<LocationSlot>,
) -> Result<(), AllocError>
    requires region { IsRegion region }
    requires cut { IsRegionCut numbers.now region }
    requires run { run < region.runs }
    requires before { AreUpto numbers.now region (run_start region run) slots.old.items }
    ensures { OnOk result (AreUpto numbers.now region (run_start region run + region.length) slots.new.items) }
{
    let mut at = region.run_start(run);
    let end = at + region.length;
    while at < end {
        let slot = slot_at(numbers, region, run, at);
        push(slots, slot)?;
        at = slot.end;
    }
    Ok(())
}

/// The slots of the stretches of a region, in the place of what was there.
pub(crate) fn slots_of(
    numbers: &Numbers,
    region: Region,
    slots: &mut Vec<LocationSlot>,
) -> Result<(), AllocError>
    requires region { IsRegion region }
    requires cut { IsRegionCut numbers.now region }
    ensures { OnOk result (AreSlots numbers.now region.block (covers region region.block) slots.new.items) }
{
    slots.clear();
    for run in 0..region.runs {
        add_run(numbers, region, run, slots)?;
    }
    Ok(())
}
