// Calls of `image` and `verify`.

use crate::calls::sink_of;
use crate::neighbours::{COLLECTS, Call, ENTANGLES, answers, check_calls, exits};
use std::alloc::{AllocError, Global};
use std::sync::Wait;
use std::thread::Threads;

// The left task's object hangs on the root's, and both tasks have joined.
const JOINED: &str =
    "fn left\nset i0 0\nset i1 1\nnewm r1 i0 i1\nputr r0 i0 r1\nret\nend\nfn right\nset i0 0\ngetr r1 r0 i0\nret\nend\nfn main\nset i0 1\nset i1 0\nnewm r0 i0 i1\npar left right\nret\nend\ntrace 1\n0 took 0\n0 ran 0 2\n0 chunk 0\n0 ran 0 2\n0 took 2\n0 ran 2 2\n0 ran 2 1\n0 took 1\n0 ran 1 2\n0 chunk 1\n0 ran 1 2\n0 ran 1 1\n0 took 0\n0 ran 0 1\n";

// When the read is stopped the tasks still exist.
const WRITTEN: &[Call] = &[
    (
        "image",
        JOINED,
        0,
        "image 1\ntask 0 - ended\nchunk 0 0 1024\nchunk 1 0 1024\nobject 1 0 0 mut 1 0 1025\nobject 1025 1 0 mut 0 1 0\nend: image 2\n",
    ),
    (
        "image",
        ENTANGLES,
        0,
        "image 1\ntask 0 - waiting\ntask 1 0 ended\ntask 2 0 running\nchunk 0 0 1024\nchunk 1 1 1024\nobject 1 0 0 mut 1 0 1025\nobject 1025 1 0 mut 0 1 0\nremembered 1 1 0\nend: image 2\n",
    ),
];

#[test]
fn images_are_written(rt: HostRuntime) {
    check_calls(&rt, WRITTEN);
}

// A call that writes an image, its input, and what `verify` writes for the image.
type Verified = (&'static str, &'static str, &'static str);

// Whether `verify` writes the expected text for the image.
fn is_verified<R: AllocGlobal + Threads + Wait + Sync>(
    rt: &R,
    (line, input, bytes): Verified,
) -> bool {
    let mut sink = sink_of(rt.alloc());
    exits(rt, line, input.as_bytes(), &mut sink, 0)
        && answers(rt, "verify", sink.written(), 0, bytes.as_bytes())
}

const VERIFIED: &[Verified] = &[
    ("image", JOINED, "end: verified 2\n"),
    ("image --workers 2 --leaf 16", COLLECTS, "end: verified 3\n"),
    ("image p.hh", ENTANGLES, "end: verified 2\n"),
];

#[test]
fn written_images_are_verified(rt: HostRuntime) {
    for &case in VERIFIED {
        assert!(rt; is_verified(&rt, case), "{}: {}", case.0, case.1);
    }
}

const REFUSED: &[Call] = &[
    (
        "image",
        "fn main\nset i0 7\nout i0\nret\nend\ntrace 1\n0 took 0\n0 ran 0 2\n",
        11,
        "end: trace refused short\n",
    ),
    (
        "image",
        "fn main\nset i0 7\nout i0\nret\nend\ntrace 1\n0 took 0\n0 ran 0 3\n",
        11,
        "end: trace refused entry 2 long 2\n",
    ),
    (
        "image",
        "fn main\nset i0 7\nout i0\nret\nend\ntrace 1\n0 took 0\n0 ran 0\n",
        11,
        "end: trace refused line 8\n",
    ),
    (
        "image",
        "fn main\n",
        3,
        "end: source refused line 2 noend\n",
    ),
    (
        "image --trace",
        "fn main\nset i0 7\nout i0\nret\nend\n",
        2,
        "end: words refused\n",
    ),
];

#[test]
fn images_are_refused_as_traces_are(rt: HostRuntime) {
    check_calls(&rt, REFUSED);
}

const IMAGES: &[Call] = &[
    (
        "verify",
        "image 1\ntask 0 - ended\nchunk 0 0 1024\nobject 1 0 0 mut 1 0 4\nobject 4 0 1 mut 0 1 5\nend: image 2\n",
        0,
        "end: verified 2\n",
    ),
    (
        "verify",
        "image 1\ntask 0 - ended\nchunk 0 0 1024\nobject 1 0 0 mut 1 0 5\nobject 4 0 1 mut 0 1 5\nend: image 2\n",
        13,
        "end: image refused line 4 ref\n",
    ),
    (
        "verify",
        "image 1\ntask 0 - ended\nchunk 0 0 1024\nobject 1 0 0 mut 1 0 0\nobject 3 0 1 mut 0 1 5\nend: image 2\n",
        13,
        "end: image refused line 5 place\n",
    ),
    (
        "verify a.image",
        "image 1\n# nothing\ntask 0 - ended\nend: image 0",
        0,
        "end: verified 0\n",
    ),
    ("verify", "", 13, "end: image refused line 1 line\n"),
];

#[test]
fn images_are_verified(rt: HostRuntime) {
    check_calls(&rt, IMAGES);
}

// Three tasks: 0 waits for 1 and 2, of which 2 runs.
const TASKS: &str = "image 1\ntask 0 - waiting\ntask 1 0 ended\ntask 2 0 running\n";

// The tasks, and these lines after them.
fn image_of(alloc: Global, lines: &str) -> Result<String, AllocError> {
    let mut image = String::from_str(alloc, TASKS)?;
    image.push_str(lines)?;
    Ok(image)
}

// The lines of an image after those of the tasks, the exit status of `verify`, and what it writes.
type Told = (&'static str, u8, &'static str);

fn is_told<R: AllocGlobal + Threads + Wait + Sync>(rt: &R, (lines, status, bytes): Told) -> bool {
    match image_of(rt.alloc(), lines) {
        Ok(image) => answers(rt, "verify", image.as_bytes(), status, bytes.as_bytes()),
        Err(_) => false,
    }
}

const CAUSES: &[Told] = &[
    (
        "chunk 0 0 1024\nchunk 1 1 2048\nobject 1 0 0 mut 2 0 1025 0 # up\nobject 1025 1 0 imm 1 1 1 -7\nremembered 1 1 0\nend: image 2",
        0,
        "end: verified 2\n",
    ),
    (
        "chunk 1 0 1024\nchunk 0 0 1024\nend: image 0",
        13,
        "end: image refused line 6 line\n",
    ),
    (
        "chunk 0 0 1025\nend: image 0",
        13,
        "end: image refused line 5 line\n",
    ),
    ("end: image 0\n\nx", 13, "end: image refused line 7 line\n"),
    ("chunk 0 0 1024", 13, "end: image refused line 5 line\n"),
    (
        "task 4 3 ended\nend: image 0",
        13,
        "end: image refused line 5 notask\n",
    ),
    (
        "chunk 0 5 1024\nend: image 0",
        13,
        "end: image refused line 5 notask\n",
    ),
    (
        "chunk 0 0 1024\nobject 1 0 0 mut 0 0\nobject 3 0 0 mut 0 0\nend: image 2",
        13,
        "end: image refused line 7 twice\n",
    ),
    (
        "chunk 0 0 1024\nobject 1025 0 0 mut 0 0\nend: image 1",
        13,
        "end: image refused line 6 nochunk\n",
    ),
    (
        "chunk 0 0 1024\nobject 0 0 0 mut 0 0\nend: image 1",
        13,
        "end: image refused line 6 nochunk\n",
    ),
    (
        "chunk 0 0 1024\nobject 1023 0 0 mut 0 1 7\nend: image 1",
        13,
        "end: image refused line 6 place\n",
    ),
    (
        "chunk 0 2 1024\nobject 1 0 0 mut 0 0\nend: image 1",
        13,
        "end: image refused line 6 running\n",
    ),
    (
        "chunk 0 0 1024\nobject 1 0 0 mut 1 0 9\nend: image 1",
        13,
        "end: image refused line 6 ref\n",
    ),
    (
        "chunk 0 1 1024\nchunk 1 2 1024\nobject 1 0 0 mut 1 0 1030\nend: image 1",
        13,
        "end: image refused line 7 cross\n",
    ),
    (
        "chunk 0 0 1024\nchunk 1 2 1024\nobject 1 0 0 mut 1 0 1030\nend: image 1",
        13,
        "end: image refused line 7 down\n",
    ),
    (
        "chunk 0 0 1024\nchunk 1 2 1024\nobject 1 0 0 mut 1 0 1030\nremembered 2 1 0\nend: image 1",
        0,
        "end: verified 1\n",
    ),
    (
        "chunk 0 0 1024\nobject 1 0 0 mut 1 0 0\nremembered 2 1 1\nend: image 1",
        13,
        "end: image refused line 7 field\n",
    ),
    (
        "chunk 0 0 1024\nobject 1 0 0 mut 1 0 0\nremembered 0 1 0\nend: image 1",
        13,
        "end: image refused line 7 field\n",
    ),
    (
        "chunk 0 0 1024\nchunk 1 2 1024\nremembered 2 1 0\nobject 1 0 0 mut 1 0 1030\nend: image 1",
        13,
        "end: image refused line 8 line\n",
    ),
    (
        "chunk 0 0 1024\nchunk 1 2 1024\nremembered 2 1 1\nobject 1 0 0 mut 1 0 1030\nend: image 1",
        13,
        "end: image refused line 7 field\n",
    ),
    (
        "chunk 0 0 1024\nremembered 2 1 0\nend: image 0",
        13,
        "end: image refused line 6 field\n",
    ),
    (
        "chunk 0 0 1024\nobject 1 0 0 mut 1 0 0\nend: image 2",
        13,
        "end: image refused line 7 count\n",
    ),
];

#[test]
fn each_cause_is_told(rt: HostRuntime) {
    for &case in CAUSES {
        assert!(rt; is_told(&rt, case), "{}", case.0);
    }
}
