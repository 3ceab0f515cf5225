// What is told of one line.

ghost use Rattle.std.specs.Prelude.{◌≡◌};
ghost use Rattle.log_told.specs.Told.{kind_of_access, told_kind, told_line};

use act_lines::{ActLine, site_of};
use log_form::LogPosition;
use log_lines::{AccessKind, Act};
use log_report::{LineKind, Told};

fn kind_of_access(kind: AccessKind) -> LineKind
    ensures { result ≡ kind_of_access kind }
{
    match kind {
        AccessKind::Read => LineKind::Read,
        AccessKind::Write => LineKind::Write,
        AccessKind::AtomicRead => LineKind::AtomicRead,
        AccessKind::AtomicWrite => LineKind::AtomicWrite,
    }
}

// What an act does to locations.
fn told_kind(act: Act) -> LineKind
    ensures { result ≡ told_kind act }
{
    match act {
        Act::Access(access) => kind_of_access(access.kind),
        Act::Store(_) => LineKind::Write,
        Act::Release(_) => LineKind::Release,
        Act::Yield(_)
        | Act::Birth { .. }
        | Act::Work(_)
        | Act::Spawn(_)
        | Act::Join(_)
        | Act::Finish => LineKind::Read,
    }
}

/// What is told of a line.
pub(crate) fn told_line(line: Option<ActLine>) -> Told
    ensures { result ≡ told_line line }
{
    match line {
        Some(line) => Told {
            kind: told_kind(line.act),
            site: site_of(line.act),
            at: line.at,
        },
        None => Told {
            kind: LineKind::Read,
            site: None,
            at: LogPosition { file: 0, line: 0 },
        },
    }
}
