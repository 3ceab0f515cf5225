// Why a task's private steps pause: the first reason that applies.

use part_scenes::{AMPLE, Pause, Setup, pause_of};
use task_machine::Paused;

// A due collection comes with the second object.
const TWO_OBJECTS: &str = "fn main\nset i1 14\nnewm r0 i0 i1\nnewm r0 i0 i1\nend";

// The second object doesn't fit either.
const TWO_CHUNKS: &str = "fn main\nset i1 1000\nnewm r0 i0 i1\nnewm r0 i0 i1\nend";

const TOO_LARGE: &str = "fn main\nset i1 14\nset i2 -1\nnewm r0 i0 i1\nnewm r0 i0 i2\nend";

const TOO_LARGE_FIRST: &str = "fn main\nset i1 -1\nnewm r0 i0 i1\nend";

const LARGE_OBJECT: &str = "fn main\nset i1 2000\nnewm r0 i0 i1\nset i0 5\nend";

// 256 private steps, and then an output.
const LONG_LOOP: &str =
    "fn main\nset i1 1\nset i0 85\nlab a\nsub i0 i0 i1\njz i0 b\njmp a\nlab b\nout i0\nend";

const ENDLESS: &str = "fn main\nset i1 1\nlab a\nadd i0 i0 i1\njmp a\nend";

const DUE_SOON: Setup = Setup {
    leaf: 16,
    fields: 1022,
    units: 1,
};

const DUE_LATER: Setup = Setup {
    leaf: 17,
    fields: 1022,
    units: 1,
};

const NO_CHUNK: Setup = Setup {
    leaf: 16,
    fields: 1022,
    units: 0,
};

const LARGE: Setup = Setup {
    leaf: 4096,
    fields: 5000,
    units: 2,
};

const SMALL_CHUNK: Setup = Setup {
    leaf: 4096,
    fields: 5000,
    units: 1,
};

// A program, its setup and budget; why it pauses, after how many steps, and its i0.
const PAUSES: &[(&str, Setup, u32, Pause)] = &[
    (ENDLESS, NO_CHUNK, 5, (Paused::Spent, 5, 2)),
    (ENDLESS, NO_CHUNK, 0, (Paused::Spent, 0, 0)),
    (TWO_OBJECTS, AMPLE, 256, (Paused::Shared, 3, 0)),
    (TWO_OBJECTS, AMPLE, 3, (Paused::Shared, 3, 0)),
    (TWO_OBJECTS, DUE_SOON, 256, (Paused::Due, 2, 0)),
    (TWO_OBJECTS, DUE_SOON, 2, (Paused::Due, 2, 0)),
    (TWO_OBJECTS, DUE_LATER, 256, (Paused::Shared, 3, 0)),
    (TWO_OBJECTS, NO_CHUNK, 256, (Paused::NeedChunk, 1, 0)),
    (TWO_OBJECTS, NO_CHUNK, 1, (Paused::NeedChunk, 1, 0)),
    (TWO_CHUNKS, DUE_SOON, 256, (Paused::Due, 2, 0)),
    (TWO_CHUNKS, AMPLE, 256, (Paused::NeedChunk, 2, 0)),
    (TOO_LARGE, DUE_SOON, 3, (Paused::Shared, 3, 0)),
    (TOO_LARGE_FIRST, NO_CHUNK, 256, (Paused::Shared, 1, 0)),
    (LARGE_OBJECT, LARGE, 256, (Paused::Shared, 3, 5)),
    (LARGE_OBJECT, SMALL_CHUNK, 256, (Paused::NeedChunk, 1, 0)),
    (LONG_LOOP, NO_CHUNK, 256, (Paused::Shared, 256, 0)),
];

#[test]
fn pauses(rt: HostRuntime) {
    for &(text, setup, budget, pause) in PAUSES {
        let (leaf, units) = (setup.leaf, setup.units);
        assert!(rt;
            pause_of(rt.alloc(), text, setup, budget) == Some(pause),
            "leaf {leaf}, units {units}, budget {budget}: {text}"
        );
    }
}
