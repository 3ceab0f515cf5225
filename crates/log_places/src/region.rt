// The locations that an access touches.

/// Locations of a block: `runs` runs of `length` locations each, of which one begins every `apart` locations, the first
/// at `offset`.
#[derive(Clone, Copy)]
pub struct Region {
    pub block: u64,
    pub offset: u64,
    pub length: u64,
    pub runs: u64,
    pub apart: u64,
}

impl Region {
    ghost use Rattle.std.specs.Prelude.{◌≡◌, ◌+◌, ◌<◌, ◌≤◌, ◌^◌};
    ghost use Rattle.log_places.specs.Places.{run_start, IsRegion};

    /// Where a run begins.
    pub fn run_start(self, run: u64) -> u64
        requires region { IsRegion self }
        requires there { run < self.runs }
        ensures value { result ≡ run_start self run }
        ensures within { result + self.length ≤ 2 ^ 60 }
    {
        self.offset + run * self.apart
    }
}
