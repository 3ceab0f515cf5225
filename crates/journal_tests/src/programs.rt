// The programs whose journals are replayed, limits of their runs, and how both are read.

use run_journal::{Settings, Version};
use std::alloc::Global;
use trace_input::{TraceInput, read_trace_input};

pub(crate) const PRINTS: &str = "fn main\nset i0 7\nout i0\nret\nend\n";

/// The root of any program is taken.
pub(crate) const TOOK: &str = "trace 1\n0 took 0\n";

// Its left child allocates 16 words, and is about to allocate more.
pub(crate) const COLLECTS: &str =
    "fn left\nset i0 0\nset i1 14\nnewm r1 i0 i1\nputr r0 i0 r1\nnil r1\nnewm r2 i0 i1\nret\nend\nfn right\nset i0 0\nnil r1\nputr r0 i0 r1\nret\nend\nfn main\nset i0 1\nset i1 0\nnewm r0 i0 i1\npar left right\nset i2 0\ngetr r3 r0 i2\nnil r4\nsame i3 r3 r4\nout i3\nret\nend\n";

pub(crate) const TO_BEGIN: &str =
    "trace 1\n0 took 0\n0 ran 0 2\n0 chunk 0\n0 ran 0 2\n0 took 1\n1 took 2\n0 ran 1 2\n0 chunk 1\n0 ran 1 2\n0 ran 1 1\n";

// It forks with two objects of 19 words together in its heap.
pub(crate) const MARKS: &str =
    "fn left\nset i0 0\ngetr r1 r0 i0\nnil r2\nputr r0 i0 r2\ngeti i0 r1 i0\nret\nend\nfn right\nret\nend\nfn main\nset i0 1\nset i1 0\nnewm r0 i0 i1\nset i0 0\nset i1 14\nnewm r1 i0 i1\nset i2 5\nputi r1 i0 i2\nputr r0 i0 r1\nnil r1\npar left right\nout i0\nret\nend\n";

pub(crate) const TO_FORK: &str = "trace 1\n0 took 0\n0 ran 0 2\n0 chunk 0\n0 ran 0 9\n";

/// It makes two objects of 16 words.
pub(crate) const TWO_OBJECTS: &str =
    "fn main\nset i0 1\nset i1 13\nnewm r0 i0 i1\nset i2 0\nputr r0 i2 r0\nmovr r1 r0\nnewm r2 i0 i1\ngetr r3 r0 i2\nsame i3 r0 r1\nsame i4 r3 r1\nout i3\nout i4\nret\nend\n";

/// It makes objects of 600 words for ever, each of which refers to the last one.
pub(crate) const LISTS: &str =
    "fn main\nset i0 1\nset i1 597\nlab top\nnewm r1 i0 i1\nset i2 0\nputr r1 i2 r0\nmovr r0 r1\njmp top\nend\n";

/// It forks with an object of 502 words, and one of 1,002 that it no longer holds, in its heap.
pub(crate) const SWEEPS: &str =
    "fn kid\nout i0\nret\nend\nfn main\nset i0 0\nset i1 1000\nnewm r0 i0 i1\nnil r0\nset i1 500\nnewm r1 i0 i1\npar kid kid\nret\nend\n";

/// It makes an object of 1,025 words.
pub(crate) const LARGE: &str = "fn main\nset i0 0\nset i1 1023\nnewm r0 i0 i1\nret\nend\n";

/// It makes a large object, and two small ones.
pub(crate) const LARGE_AND_SMALL: &str =
    "fn main\nset i0 1\nset i1 2000\nnewm r0 i0 i1\nset i1 1\nnewm r1 i0 i1\nset i2 0\nputr r0 i2 r1\nnil r1\nnewm r1 i0 i1\nret\nend\n";

/// The limits of a run: its workers, its fuel, the most chunks, and the words at which collections of leaf heaps and of
/// inner heaps are due.
pub(crate) type Limits = (u32, u64, u32, u32, u32);

/// The settings of a version 1 run with these limits; the usual ones if a limit is out of its range.
pub(crate) fn settings((workers, fuel, chunks, leaf, inner): Limits) -> Settings {
    if workers < 1 || 64 < workers || fuel < 1 || 1_000_000_000 < fuel || chunks < 2 {
        return Settings::usual();
    }
    if 65_536 < chunks || leaf < 16 || 1_000_000 < leaf || inner < 16 || 1_000_000 < inner {
        return Settings::usual();
    }
    Settings::new(Version::One, workers, fuel, chunks, leaf, inner)
}

/// All these parts, concatenated.
pub(crate) fn joined(alloc: Global, first: &str, rest: &[&str]) -> Option<String> {
    let Ok(mut text) = String::from_str(alloc, first) else {
        return None;
    };
    for part in rest {
        if text.push_str(part).is_err() {
            return None;
        }
    }
    Some(text)
}

/// A program and a journal of its run, whose text has these parts.
pub(crate) fn read(alloc: Global, program: &str, journal: &[&str]) -> Option<TraceInput> {
    let input = joined(alloc, program, journal)?;
    read_trace_input(alloc, input.as_bytes()).ok()
}
