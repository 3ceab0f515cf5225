// What the report speaks of.

ghost use Rattle.std.specs.Prelude.{◌≡◌};
ghost use Rattle.log_report.specs.Told.{kind_number, label_kind, label_site};

use crate::heaps::LogHeaps;
use log_form::LogPosition;
use plain_vec::Listed;

/// What a line does to locations.
#[derive(Clone, Copy)]
pub enum LineKind {
    Read,
    Write,
    AtomicRead,
    AtomicWrite,
    /// It releases their block.
    Release,
}

/// A line that the report names.
#[derive(Clone, Copy)]
pub struct Told {
    pub kind: LineKind,
    pub site: Option<u64>,
    /// The number of its file, from 0, and that of the line in it, from 1.
    pub at: LogPosition,
}

/// The race of all locations of a block from `start` up to `end`. The first line comes earlier in serial order.
#[derive(Clone, Copy)]
pub struct ToldRace {
    pub block: u64,
    pub start: u64,
    pub end: u64,
    pub first: Told,
    pub second: Told,
}

/// A line that is yielded a block, or uses it, and the line of the block's birth or release.
#[derive(Clone, Copy)]
pub struct ToldUse {
    pub block: u64,
    pub line: Told,
    pub other: LogPosition,
}

/// What is reported of a log.
#[derive(Drop)]
pub struct LogReport {
    /// The races of stretches of locations.
    pub races: Listed<ToldRace>,
    pub entangled_reads: Listed<ToldUse>,
    pub entangled_uses: Listed<ToldUse>,
    pub stale_uses: Listed<ToldUse>,
    pub work: u64,
    pub span: u64,
    /// What is told of heaps, if they are asked for.
    pub heaps: Option<LogHeaps>,
    /// How many strands were left out, if the log was cut off.
    pub left_out: Option<usize>,
}

fn kind_number(kind: LineKind) -> u64
    ensures { result ≡ kind_number kind }
{
    match kind {
        LineKind::Read => 0,
        LineKind::Write => 1,
        LineKind::AtomicRead => 2,
        LineKind::AtomicWrite => 3,
        LineKind::Release => 4,
    }
}

/// What tells the kind of a line, and whether it has a site.
pub(crate) fn label_kind(told: Told) -> u64
    ensures { result ≡ label_kind told }
{
    match told.site {
        None => 2 * kind_number(told.kind),
        Some(_) => 2 * kind_number(told.kind) + 1,
    }
}

/// The site of a line, or 0.
pub(crate) fn label_site(told: Told) -> u64
    ensures { result ≡ label_site told }
{
    match told.site {
        None => 0,
        Some(site) => site,
    }
}

impl ToldRace {
    ghost use Rattle.std.specs.Prelude.{◌≡◌, ◌<◌, ◌^◌};
    ghost use Rattle.log_report.specs.Told.{locations_of};

    /// How many locations race so.
    pub(crate) fn locations(self) -> u64
        ensures value { result ≡ locations_of self }
        ensures small { result < 2 ^ 64 }
    {
        self.end.saturating_sub(self.start)
    }
}
