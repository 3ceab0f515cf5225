// The trials: five texts, each by one worker and by four.

use run_trace::Version;

/// A call, and how a journal that it returns is replayed.
#[derive(Clone, Copy)]
pub(crate) struct Trial {
    /// The words of the call.
    pub words: &'static str,
    /// Those of the replay.
    pub replay: &'static str,
    /// The program; if empty, the one that `make` writes.
    pub program: &'static str,
    /// The trace after it, of version 1, if the call replays one.
    pub trace: &'static str,
}

// It adds what two tasks return.
const FORK: &str =
    "fn left\nset i1 10\nadd i0 i1 i2\nend\nfn right\nset i1 20\nadd i0 i1 i2\nend\nfn main\nset i2 3\npar left right\nadd i0 i0 i1\nout i0\nend\n";

// An object of a grandchild hangs on the root's; it is lifted at a join, and updated when a collection moves it.
const LIFTED: &str =
    "fn nop\nret\nend\nfn store\nset i0 0\nset i1 1\nnewm r1 i0 i1\nset i2 7\nputi r1 i0 i2\nputr r0 i0 r1\nret\nend\nfn mid\npar nop store\nset i2 0\nset i3 18\nnewm r2 i2 i3\nnewm r2 i2 i3\nret\nend\nfn main\nset i0 1\nset i1 0\nnewm r0 i0 i1\nmovr r5 r0\npar mid nop\nset i2 0\ngetr r3 r5 i2\ngeti i4 r3 i2\nout i4\nret\nend\n";

// The heap of a task that waits is marked and swept.
const MARKED: &str =
    "fn left\nset i0 0\ngetr r1 r0 i0\nnil r2\nputr r0 i0 r2\ngeti i0 r1 i0\nret\nend\nfn right\nret\nend\nfn main\nset i0 1\nset i1 0\nnewm r0 i0 i1\nset i0 0\nset i1 14\nnewm r1 i0 i1\nset i2 5\nputi r1 i0 i2\nputr r0 i0 r1\nnil r1\npar left right\nout i0\nret\nend\n";

// A field is overwritten while a collection is under way.
const COLLECTED: &str =
    "fn left\nset i0 0\nset i1 14\nnewm r1 i0 i1\nputr r0 i0 r1\nnil r1\nnewm r2 i0 i1\nret\nend\nfn right\nset i0 0\nnil r1\nputr r0 i0 r1\nret\nend\nfn main\nset i0 1\nset i1 0\nnewm r0 i0 i1\npar left right\nset i2 0\ngetr r3 r0 i2\nnil r4\nsame i3 r3 r4\nout i3\nret\nend\n";

const ENTRIES: &str =
    "trace 1\n0 took 0\n0 ran 0 2\n0 chunk 0\n0 ran 0 2\n0 took 1\n1 took 2\n0 ran 1 2\n0 chunk 1\n0 ran 1 2\n0 ran 1 1\n0 begin 1\n1 ran 2 3\n0 end 1 1 1 16\n0 ran 1 2\n1 ran 2 1\n1 took 0\n1 ran 0 5\n1 ran 0 1\n";

const BY_ONE: &[Trial] = &[
    Trial {
        words: "run --trace",
        replay: "replay",
        program: FORK,
        trace: "",
    },
    Trial {
        words: "run --leaf 16",
        replay: "replay --leaf 16",
        program: LIFTED,
        trace: "",
    },
    Trial {
        words: "run --inner 16",
        replay: "replay --inner 16",
        program: MARKED,
        trace: "",
    },
    Trial {
        words: "replay --workers 2 --leaf 16",
        replay: "replay --workers 2 --leaf 16",
        program: COLLECTED,
        trace: ENTRIES,
    },
    Trial {
        words: "make 1 20 --run",
        replay: "replay",
        program: "",
        trace: "",
    },
];

const BY_FOUR: &[Trial] = &[
    Trial {
        words: "run --workers 4",
        replay: "replay --workers 4",
        program: FORK,
        trace: "",
    },
    Trial {
        words: "run --workers 4 --leaf 16",
        replay: "replay --workers 4 --leaf 16",
        program: LIFTED,
        trace: "",
    },
    Trial {
        words: "run --workers 4 --inner 16",
        replay: "replay --workers 4 --inner 16",
        program: MARKED,
        trace: "",
    },
    Trial {
        words: "replay --workers 4 --leaf 16",
        replay: "replay --workers 4 --leaf 16",
        program: COLLECTED,
        trace: ENTRIES,
    },
    Trial {
        words: "run --workers 4",
        replay: "replay --workers 4",
        program: "",
        trace: "",
    },
];

/// The trial with this number, from 1 on, with one worker or with four.
pub(crate) fn trial_of(number: u64, workers: u64) -> Option<Trial> {
    let trials = if workers == 4 { BY_FOUR } else { BY_ONE };
    let mut left = number;
    for &trial in trials {
        if left == 1 {
            return Some(trial);
        }
        left = left.saturating_sub(1);
    }
    None
}

impl Trial {
    /// The version of the trace of its journal.
    pub(crate) fn version(self) -> Version {
        if self.trace.is_empty() {
            Version::Two
        } else {
            Version::One
        }
    }
}
