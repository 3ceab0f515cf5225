// Births summed up by depth.

ghost use Rattle.std.specs.Prelude.{◌≡◌, ◌≤◌, ◌<◌, ◌+◌, ◌^◌, ◌++◌, ℕ, Bool, List, IfOk, IfErr, OnOk, MatchOption, not, length, option_to_list};
ghost use Rattle.log_report.specs.declared.heaps.HeapDepth.{HeapDepth};
ghost use Rattle.log_heaps.specs.declared.births.BlockBirth.{BlockBirth};
ghost use Rattle.log_heaps.specs.Heaps.{AreThose, IsDepthRow};
ghost use Rattle.log_heaps.specs.Tally.{is_shared, IsBelow};
ghost use Rattle.log_heaps.specs.Sums.{added, row_if, HasSums, AreAbove, IsTooManyAt};

use crate::births::BlockBirth;
use crate::error::HeapsError;
use crate::shared::SharedBlocks;
use log_report::HeapDepth;
use plain_vec::Listed;
use std::alloc::{AllocError, Global};

/// The sums of the births of a depth.
#[derive(Clone, Copy)]
pub(crate) struct DepthSums {
    pub(crate) blocks: u64,
    pub(crate) words: u64,
    pub(crate) own: u64,
}

// A depth below all births.
fn depth_below(births: &[BlockBirth]) -> usize
    ensures above { AreAbove births.now result }
    ensures small { result ≤ 2 ^ 32 }
{
    let mut deepest = 0;
    for birth in births {
        deepest = deepest.max(birth.depth as usize + 1);
    }
    deepest
}

// The sums with one birth more, if its words fit.
fn added(sums: DepthSums, birth: BlockBirth, own: bool) -> Option<DepthSums>
    requires blocks { sums.blocks + 1 < 2 ^ 64 }
    requires own { sums.own ≤ sums.words }
    ensures { MatchOption result (2 ^ 64 ≤ sums.words + birth.words) (λ more. more ≡ added sums birth own) }
{
    let words = sums.words.checked_add(birth.words)?;
    let more = if own { birth.words } else { 0 };
    Some(DepthSums {
        blocks: sums.blocks + 1,
        words,
        own: sums.own + more,
    })
}

/// The sums of all births, by depth.
pub(crate) fn sums_of(
    alloc: Global,
    births: &[BlockBirth],
    shared: &SharedBlocks,
) -> Result<Listed<DepthSums>, HeapsError>
    ensures sums { IfOk result (HasSums births.now (λ b. not (is_shared shared.now b))) }
    ensures above { IfOk result (λ sums. AreAbove births.now (length sums)) }
    ensures small { IfOk result (λ sums. length sums ≤ 2 ^ 32) }
    ensures too_many { IfErr result (IsTooManyAt births.now) }
{
    let none = DepthSums {
        blocks: 0,
        words: 0,
        own: 0,
    };
    let mut sums = Listed::from_vec(vec![in alloc; none; depth_below(births)]?);
    for birth in births {
        let at = birth.depth as usize;
        let own = !shared.has(birth.block);
        match added(*sums.at(at), *birth, own) {
            Some(more) => sums.set(at, more),
            None => return Err(HeapsError::TooManyWords),
        }
    }
    Ok(sums)
}

// Adds the row on a depth, if blocks are born there.
fn add_row(rows: &mut Listed<HeapDepth>, depth: u32, sums: DepthSums) -> Result<(), AllocError>
    ensures { OnOk result (rows.new ≡ rows.old ++ option_to_list (row_if depth sums)) }
{
    if sums.blocks == 0 {
        return Ok(());
    }
    rows.push(HeapDepth {
        depth,
        blocks: sums.blocks,
        words: sums.words,
        own: sums.own,
    })
}

/// The rows on depths at which blocks are born.
pub(crate) fn rows_of(alloc: Global, sums: &[DepthSums]) -> Result<Listed<HeapDepth>, AllocError>
    requires { length sums.now ≤ 2 ^ 32 }
    ensures { IfOk result (λ rows. (births : List BlockBirth) (own : ℕ → Bool) → HasSums births own sums.now
        → AreThose (λ (row : HeapDepth). row.depth) (IsBelow (λ (row : HeapDepth). row.depth) (IsDepthRow births own) (length sums.now)) rows) }
{
    let mut rows = Listed::new(alloc);
    for depth in 0..sums.len() {
        add_row(&mut rows, depth as u32, sums[depth])?;
    }
    Ok(rows)
}
