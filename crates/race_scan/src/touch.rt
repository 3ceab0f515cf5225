// Accesses of locations.

use log_places::Region;
use race_cells::CellAccess;

/// An access of all locations of a region.
#[derive(Clone, Copy)]
pub struct Touch {
    pub region: Region,
    pub access: CellAccess,
}
