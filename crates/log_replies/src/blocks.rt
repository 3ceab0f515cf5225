// The findings of some blocks.

ghost use Rattle.std.specs.Prelude.{◌≡◌, ◌==◌, filter};
ghost use Rattle.std.specs.List.{list_any};
ghost use Rattle.log_replies.specs.Blocks.{is_shown, of_blocks};

use log_json::Listed;
use log_report::{LogReport, ToldRace, ToldUse};

// Whether a block is one of these.
fn is_among(blocks: &[u64], block: u64) -> bool
    ensures { result ≡ list_any (λ shown. shown == block) blocks.now }
{
    blocks.iter().any(|shown| *shown == block)
}

// Whether findings of a block are shown.
fn is_shown(blocks: &[u64], block: u64) -> bool
    ensures { result ≡ is_shown blocks.now block }
{
    blocks.is_empty() || is_among(blocks, block)
}

fn races_of(races: Listed<ToldRace>, blocks: &[u64]) -> Listed<ToldRace>
    ensures { result ≡ filter (λ race. is_shown blocks.now race.block) races }
{
    let mut shown = races.into_vec();
    shown.retain(|race| is_shown(blocks, race.block));
    Listed::from_vec(shown)
}

fn uses_of(uses: Listed<ToldUse>, blocks: &[u64]) -> Listed<ToldUse>
    ensures { result ≡ filter (λ told. is_shown blocks.now told.block) uses }
{
    let mut shown = uses.into_vec();
    shown.retain(|told| is_shown(blocks, told.block));
    Listed::from_vec(shown)
}

/// The report with the findings of these blocks alone, or with all if there are none.
pub(crate) fn of_blocks(report: LogReport, blocks: &[u64]) -> LogReport
    ensures { result ≡ of_blocks blocks.now report }
{
    let LogReport {
        races,
        entangled_reads,
        entangled_uses,
        stale_uses,
        work,
        span,
        heaps,
        left_out,
    } = report;
    LogReport {
        races: races_of(races, blocks),
        entangled_reads: uses_of(entangled_reads, blocks),
        entangled_uses: uses_of(entangled_uses, blocks),
        stale_uses: uses_of(stale_uses, blocks),
        work,
        span,
        heaps,
        left_out,
    }
}
