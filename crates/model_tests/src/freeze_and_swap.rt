// Programs that freeze objects, and that compare and swap.

use crate::runs::{Run, runs_as};
use hh_model::{End, Trap};

const WRITE_FROZEN: &str =
    "fn main / set i0 0 / set i1 1 / newm r0 i0 i1 / freeze r0 / puti r0 i0 i1 / ret / end";

const FREEZE_ANOTHERS: &str = "\
    fn left / freeze r0 / ret / end / \
    fn right / ret / end / \
    fn main / set i0 1 / set i1 0 / newm r0 i0 i1 / par left right / ret / end";

const READ_FROZEN: &str = "\
    fn kid / set i1 0 / getr r1 r0 i1 / geti i0 r1 i1 / ret / end / \
    fn main / set i0 0 / set i1 1 / newm r1 i0 i1 / set i2 9 / puti r1 i0 i2 / newm r0 i1 i0 / \
    putr r0 i0 r1 / freeze r0 / par kid kid / add i0 i0 i1 / out i0 / ret / end";

const TWO_SWAPS: &str = "\
    fn left / set i0 0 / set i1 1 / newm r1 i0 i1 / nil r2 / cas i0 r0 i0 r2 r1 / ret / end / \
    fn right / set i0 0 / set i1 1 / newm r1 i0 i1 / nil r2 / cas i0 r0 i0 r2 r1 / ret / end / \
    fn main / set i0 1 / set i1 0 / newm r0 i0 i1 / par left right / add i2 i0 i1 / out i2 / out i0 / \
    ret / end";

const SWAP_AT_NIL: &str = "fn main / cas i0 r0 i1 r2 r3 / end";

// The index register is the target too; then a swap that expects nil, and one that expects the object present.
const SWAPS_OF_ONE_TASK: &str = "\
    fn main / set i0 1 / set i1 0 / newm r0 i0 i1 / newm r1 i0 i1 / cas i1 r0 i1 r2 r1 / out i1 / \
    set i2 0 / cas i3 r0 i2 r2 r0 / out i3 / cas i3 r0 i2 r1 r0 / out i3 / getr r3 r0 i2 / \
    same i4 r3 r0 / out i4 / ret / end";

const DONE: Option<End> = Some(End::Done);

const RUNS: &[Run] = &[
    (
        WRITE_FROZEN,
        &[(0, 5)],
        (&[], Some(End::Trapped(Trap::Frozen, 0, 6))),
    ),
    (
        FREEZE_ANOTHERS,
        &[(0, 4), (1, 1)],
        (&[], Some(End::Trapped(Trap::Frozen, 1, 2))),
    ),
    (
        READ_FROZEN,
        &[(0, 9), (1, 4), (2, 4), (0, 3)],
        (&[18], DONE),
    ),
    (
        TWO_SWAPS,
        &[(0, 4), (1, 6), (2, 6), (0, 4)],
        (&[1, 1], DONE),
    ),
    (
        TWO_SWAPS,
        &[(0, 4), (2, 6), (1, 6), (0, 4)],
        (&[1, 0], DONE),
    ),
    (
        SWAP_AT_NIL,
        &[(0, 1)],
        (&[], Some(End::Trapped(Trap::Nil, 0, 2))),
    ),
    (SWAPS_OF_ONE_TASK, &[(0, 15)], (&[1, 0, 1, 1], DONE)),
];

#[test]
fn frozen_and_swapped(rt: HostRuntime) {
    for &run in RUNS {
        assert!(rt; runs_as(rt.alloc(), run), "{:?}: {}", run.1, run.0);
    }
}
