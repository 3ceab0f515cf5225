// Whether an act sees a block too early, or uses it too late.

ghost use Rattle.std.specs.Prelude.{◌≡◌, ◌<◌, ◌++◌, OnOk, IfSome, length, option_to_list};
ghost use Rattle.log_births.specs.Blocks.{yielded, used};
ghost use Rattle.log_births.specs.Lines.{line_told};
ghost use Rattle.log_births.specs.Checks.{LinesAreWithin, AreBothWithin, IsEarly, IsLate, IsFindingAt, IsAdded, AreAdded};

use crate::acts::{used, yielded};
use crate::findings::{Finding, Findings};
use crate::lines::{BlockLines, Lifetimes, LineAt};
use log_strands::Act;
use log_walk::SerialWalk;
use plain_vec::Listed;
use std::alloc::AllocError;

// What is found where an act sees a block: that the block's birth doesn't happen before it.
fn early(walk: &SerialWalk, births: &BlockLines, block: Option<u64>, at: LineAt) -> Option<Finding>
    requires place { at.place < length walk.now.order }
    requires within { LinesAreWithin walk.now births.now }
    ensures { IsFindingAt (IsEarly walk.now) (line_told births.now) block at result }
{
    let block = block?;
    let birth = births.line(block)?;
    if walk.precedes(birth.place, at.place) {
        return None;
    }
    Some(Finding {
        block,
        line: at.line,
        other: birth.line,
    })
}

// What is found where an act uses a block: that the block's release happens before it, on another strand.
fn late(walk: &SerialWalk, releases: &BlockLines, block: Option<u64>, at: LineAt) -> Option<Finding>
    requires place { at.place < length walk.now.order }
    requires within { LinesAreWithin walk.now releases.now }
    ensures { IsFindingAt (IsLate walk.now) (line_told releases.now) block at result }
{
    let block = block?;
    let release = releases.line(block)?;
    if release.place == at.place || !walk.precedes(release.place, at.place) {
        return None;
    }
    Some(Finding {
        block,
        line: at.line,
        other: release.line,
    })
}

// What is found is added.
fn add(found: &mut Listed<Finding>, finding: Option<Finding>) -> Result<(), AllocError>
    ensures { OnOk result (found.new ≡ found.old ++ option_to_list finding) }
{
    match finding {
        Some(finding) => found.push(finding),
        None => Ok(()),
    }
}

impl Findings {
    // An act of a strand that has a place.
    fn take(
        &mut self,
        walk: &SerialWalk,
        lines: &Lifetimes,
        act: Act,
        at: LineAt,
    ) -> Result<(), AllocError>
        requires place { at.place < length walk.now.order }
        requires within { AreBothWithin walk.now lines.now }
        ensures reads { OnOk result (IsAdded (IsEarly walk.now) (line_told lines.now.births) (yielded act) at self.old.reads self.new.reads) }
        ensures uses { OnOk result (IsAdded (IsEarly walk.now) (line_told lines.now.births) (used act) at self.old.uses self.new.uses) }
        ensures stale { OnOk result (IsAdded (IsLate walk.now) (line_told lines.now.releases) (used act) at self.old.stale self.new.stale) }
    {
        add(
            &mut self.reads,
            early(walk, &lines.births, yielded(act), at),
        )?;
        add(&mut self.uses, early(walk, &lines.births, used(act), at))?;
        add(&mut self.stale, late(walk, &lines.releases, used(act), at))
    }

    /// An act, by the place of its strand.
    pub(crate) fn take_act(
        &mut self,
        walk: &SerialWalk,
        lines: &Lifetimes,
        act: Act,
        place: Option<usize>,
        line: u32,
    ) -> Result<(), AllocError>
        requires place { IfSome place (λ p. p < length walk.now.order) }
        requires within { AreBothWithin walk.now lines.now }
        ensures { OnOk result (AreAdded walk.now lines.now act place line self.old self.new) }
    {
        match place {
            Some(place) => self.take(walk, lines, act, LineAt { place, line }),
            None => Ok(()),
        }
    }
}
