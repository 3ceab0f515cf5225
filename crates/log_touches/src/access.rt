// What an act accesses.

ghost use Rattle.std.specs.Prelude.{◌≡◌, IfSome, option_to_list};
ghost use Rattle.log_lines.specs.Limits.{IsAct, IsLogPlace, IsLogReference};
ghost use Rattle.log_places.specs.Places.{IsRegion};
ghost use Rattle.log_touches.specs.Accesses.{cell_kind_of, region_of, location_of, access_of, touch_by};

use log_lines::{Act, LogPlace, Reference};
use log_places::Region;
use race_scan::{CellAccess, CellAccessKind, Touch};

/// Which locations an act accesses, and how.
#[derive(Clone, Copy)]
pub struct ActAccess {
    pub region: Region,
    pub kind: CellAccessKind,
}

// The kind of an access, as the scan of a location has it.
fn cell_kind_of(kind: log_lines::AccessKind) -> CellAccessKind
    ensures { result ≡ cell_kind_of kind }
{
    match kind {
        log_lines::AccessKind::Read => CellAccessKind::PlainRead,
        log_lines::AccessKind::Write => CellAccessKind::PlainWrite,
        log_lines::AccessKind::AtomicRead => CellAccessKind::AtomicRead,
        log_lines::AccessKind::AtomicWrite => CellAccessKind::AtomicWrite,
    }
}

// The locations of a place.
fn region_of(place: LogPlace) -> Region
    requires { IsLogPlace place }
    ensures value { result ≡ region_of place }
    ensures region { IsRegion result }
{
    Region {
        block: place.block,
        offset: place.offset,
        length: place.length,
        runs: place.runs,
        apart: place.apart,
    }
}

// The location of a reference.
fn location_of(reference: Reference) -> Region
    requires { IsLogReference reference }
    ensures value { result ≡ location_of reference }
    ensures region { IsRegion result }
{
    Region {
        block: reference.block,
        offset: reference.offset,
        length: 1,
        runs: 1,
        apart: 1,
    }
}

/// What an act accesses, if it accesses locations.
pub(crate) fn access_of(act: Act) -> Option<ActAccess>
    requires { IsAct act }
    ensures value { result ≡ access_of act }
    ensures region { IfSome result (λ a. IsRegion a.region) }
{
    match act {
        Act::Access(access) => Some(ActAccess {
            region: region_of(access.place),
            kind: cell_kind_of(access.kind),
        }),
        Act::Yield(reference) => Some(ActAccess {
            region: location_of(reference),
            kind: CellAccessKind::PlainRead,
        }),
        Act::Store(reference) => Some(ActAccess {
            region: location_of(reference),
            kind: CellAccessKind::PlainWrite,
        }),
        Act::Birth { .. }
        | Act::Release(_)
        | Act::Work(_)
        | Act::Spawn(_)
        | Act::Join(_)
        | Act::Finish => None,
    }
}

/// The access as one by the strand of a serial number, told by the act of a number.
pub(crate) fn touch_by(strand: u32, line: u32, access: ActAccess) -> Touch
    ensures { result ≡ touch_by strand line access }
{
    Touch {
        region: access.region,
        access: CellAccess {
            strand,
            kind: access.kind,
            line,
        },
    }
}
