// Which lines are told.

ghost use Rattle.std.specs.Prelude.{◌≡◌, ◌++◌, ◌∷◌, [], IfOk, OnOk};
ghost use Rattle.std.specs.List.{flat_map};
ghost use Rattle.log_told.specs.Told.{lines_of_race, lines_of_finding, all_lines};

use log_births::{Finding, Findings};
use race_scan::FoundRace;
use std::alloc::{AllocError, Global};

// Adds both lines of something.
fn add_both(lines: &mut Vec<u32>, one: u32, other: u32) -> Result<(), AllocError>
    ensures { OnOk result (lines.new.items ≡ lines.old.items ++ one ∷ (other ∷ [])) }
{
    lines.push(one)?;
    lines.push(other)?;
    Ok(())
}

// Adds the lines of races.
fn add_races(lines: &mut Vec<u32>, races: &[FoundRace]) -> Result<(), AllocError>
    ensures { OnOk result (lines.new.items ≡ lines.old.items ++ flat_map lines_of_race races.now) }
{
    for found in races {
        add_both(lines, found.race.first.line, found.race.second.line)?;
    }
    Ok(())
}

// Adds the lines of findings.
fn add_findings(lines: &mut Vec<u32>, findings: &[Finding]) -> Result<(), AllocError>
    ensures { OnOk result (lines.new.items ≡ lines.old.items ++ flat_map lines_of_finding findings.now) }
{
    for finding in findings {
        add_both(lines, finding.line, finding.other)?;
    }
    Ok(())
}

/// The lines of all that was found.
pub(crate) fn all_lines(
    alloc: Global,
    races: &[FoundRace],
    findings: &Findings,
) -> Result<Vec<u32>, AllocError>
    ensures { IfOk result (λ lines. lines.items ≡ all_lines races.now findings.now) }
{
    let mut lines = Vec::new(alloc);
    add_races(&mut lines, races)?;
    add_findings(&mut lines, findings.reads.as_slice())?;
    add_findings(&mut lines, findings.uses.as_slice())?;
    add_findings(&mut lines, findings.stale.as_slice())?;
    Ok(lines)
}
