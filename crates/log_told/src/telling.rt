// What is told of all that was found.

ghost use Rattle.std.specs.Prelude.{◌≡◌, IfOk};
ghost use Rattle.log_told.specs.Told.{told_findings};

use crate::lines::all_lines;
use crate::table::LineTable;
use log_births::Findings;
use log_report::{ToldRace, ToldUse};
use plain_vec::Listed;
use race_scan::FoundRace;
use std::alloc::{AllocError, Global};

/// What is told of the races and of the entangled and stale lines of a log.
#[derive(Drop)]
pub struct ToldFindings {
    pub races: Listed<ToldRace>,
    pub entangled_reads: Listed<ToldUse>,
    pub entangled_uses: Listed<ToldUse>,
    pub stale_uses: Listed<ToldUse>,
}

/// What is told of races and of entangled and stale lines that were found in a log. It takes one pass over the texts of
/// the log's files.
pub fn tell(
    alloc: Global,
    texts: &[Listed<u8>],
    races: &[FoundRace],
    findings: &Findings,
) -> Result<ToldFindings, AllocError>
    ensures { IfOk result (λ told. told ≡ told_findings texts.now races.now findings.now) }
{
    let wanted = all_lines(alloc, races, findings)?;
    let table = LineTable::new(alloc, texts, wanted)?;
    Ok(ToldFindings {
        races: table.races(alloc, races)?,
        entangled_reads: table.findings(alloc, findings.reads.as_slice())?,
        entangled_uses: table.findings(alloc, findings.uses.as_slice())?,
        stale_uses: table.findings(alloc, findings.stale.as_slice())?,
    })
}
