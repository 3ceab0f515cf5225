// Programs whose schedules differ, though some run of each has no race: what a run needs to determine all of them.

use crate::runs::{Run, runs_as};
use hh_model::{End, Trap};

// A run that traps ends before accesses that other schedules make: it isn't a whole run. The compare and swaps of two
// tasks, of which `races` reports none, are among the programs that freeze and swap.
const TRAPS_OR_ENTANGLES: &str = "\
    fn left / set i1 1 / newm r1 i15 i1 / putr r2 i15 r1 / div i0 i1 i15 / end / \
    fn right / getr r1 r2 i15 / end / \
    fn main / set i1 1 / newm r2 i1 i15 / par left right / end";

const RUNS: &[Run] = &[
    (
        TRAPS_OR_ENTANGLES,
        &[(0, 3), (1, 4)],
        (&[], Some(End::Trapped(Trap::Div, 1, 5))),
    ),
    (
        TRAPS_OR_ENTANGLES,
        &[(0, 3), (1, 3), (2, 1)],
        (&[], Some(End::Entangled(2, 1))),
    ),
    (
        TRAPS_OR_ENTANGLES,
        &[(0, 3), (2, 2), (1, 4)],
        (&[], Some(End::Trapped(Trap::Div, 1, 5))),
    ),
];

#[test]
fn runs_without_races(rt: HostRuntime) {
    for &run in RUNS {
        assert!(rt; runs_as(rt.alloc(), run), "{:?}: {}", run.1, run.0);
    }
}
