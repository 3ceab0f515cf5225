// Frames at their limit, and the registers of each.

use object_layout::Addr;
use std::alloc::Global;
use task_frames::{Frames, NotPushed};

const NOWHERE: Option<Addr> = None;

const THERE: Option<Addr> = Some(Addr {
    chunk: 3,
    offset: 9,
});

// A frame of the function 4 whose registers are empty.
fn started(alloc: Global) -> Option<Frames> {
    Frames::start(alloc, 4, &[0; 16], &[NOWHERE; 16]).ok()
}

// Whether n calls fit.
fn can_push(frames: &mut Frames, calls: u32) -> bool {
    for _ in 0..calls {
        if frames.push(5).is_err() {
            return false;
        }
    }
    true
}

// Whether 999 calls fit, the depth of the frames then, whether one more call is too deep, and the running function.
fn at_the_limit(alloc: Global) -> Option<(bool, u32, bool, u32)> {
    let mut frames = started(alloc)?;
    let (pushed, depth) = (can_push(&mut frames, 999), frames.depth());
    let deep = frames.push(6) == Err(NotPushed::Deep);
    Some((pushed, depth, deep, frames.fun()))
}

#[test]
fn to_the_limit(rt: HostRuntime) {
    assert!(rt; at_the_limit(rt.alloc()) == Some((true, 1000, true, 5)));
}

// A number register, a reference register, and the top frame's function, its next instruction and its depth.
type Top = (i64, Option<Addr>, u32, u32, u32);

// All that for a top frame.
fn top(frames: &Frames) -> Top {
    let (number, reference) = (frames.int(15), frames.reference(0));
    (
        number,
        reference,
        frames.fun(),
        frames.next(),
        frames.depth(),
    )
}

// The top frame within a call, and after it has written its registers and returned.
fn call(frames: &mut Frames) -> Option<(Top, Top)> {
    frames.set_int(15, -7);
    frames.set_reference(0, THERE);
    frames.set_next(2);
    let Ok(()) = frames.push(8) else {
        return None;
    };
    let within = top(frames);
    frames.set_int(15, 3);
    frames.set_reference(0, None);
    frames.pop();
    Some((within, top(frames)))
}

fn first_call(alloc: Global) -> Option<(Top, Top)> {
    let mut frames = started(alloc)?;
    call(&mut frames)
}

// A call begins with the registers of its caller, and leaves the caller's unchanged.
#[test]
fn registers_of_a_call(rt: HostRuntime) {
    let expected = ((-7, THERE, 8, 0, 2), (-7, THERE, 4, 2, 1));
    assert!(rt; first_call(rt.alloc()) == Some(expected));
}

// Register 1 of the top frame, and of the oldest one after a write to that; and register 4 of the top frame, after a
// write to all its registers.
fn written(frames: &mut Frames) -> Option<(Option<Addr>, Option<Addr>, Option<Addr>)> {
    let Ok(()) = frames.push(8) else {
        return None;
    };
    if frames.depth() != 2 {
        return None;
    }
    let mut oldest = frames.references_in(0);
    oldest[1] = THERE;
    frames.set_references_in(0, &oldest);
    if frames.depth() != 2 {
        return None;
    }
    let (above, below) = (frames.reference(1), frames.references_in(0)[1]);
    frames.set_references_in(1, &[THERE; 16]);
    Some((above, below, frames.reference(4)))
}

fn written_at_first(alloc: Global) -> Option<(Option<Addr>, Option<Addr>, Option<Addr>)> {
    let mut frames = started(alloc)?;
    written(&mut frames)
}

// The oldest frame is frame 0.
#[test]
fn references_of_each(rt: HostRuntime) {
    assert!(rt; written_at_first(rt.alloc()) == Some((None, THERE, THERE)));
}
