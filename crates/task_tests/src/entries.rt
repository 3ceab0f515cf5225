// A task that continues: after a collection that was put off, and after a call that ran out of memory.

ghost use Rattle.std.specs.Prelude.{◌≡◌, None};
ghost use Rattle.task_machine.specs.Ready.{FitsSome};

use boxed::BoxedSlot;
use hh_lang::Program;
use part_scenes::{AMPLE, Pause, Setup, pause, program_of, root_of};
use plain_vec::Listed;
use std::alloc::Global;
use task_machine::{Begun, Paused, Private};

// Two objects of 16 words, before the second of which a collection is due.
const TWO_OBJECTS: &str = "fn main\nset i1 14\nnewm r0 i0 i1\nnewm r1 i0 i1\nout i1\nend";

const DUE_SOON: Setup = Setup {
    leaf: 16,
    fields: 1022,
    units: 1,
};

// Ends the collection that has begun, and returns what it took.
fn end_collection(part: &mut Private) -> Option<BoxedSlot<Begun>>
    ensures changed { part.new ≡ record part.old { begun = None } }
{
    part.begun.take()
}

// A collection begins and ends, and another entry begins: what the collection took.
fn collected(alloc: Global, program: &Program, part: &mut Private) -> Option<BoxedSlot<Begun>>
    requires fits { FitsSome program.now part.old }
    requires idle { part.old.begun ≡ None }
    ensures fits { FitsSome program.now part.new }
    ensures idle { part.new.begun ≡ None }
{
    let nothing = Begun {
        roots: Listed::new(alloc),
        news: Listed::new(alloc),
    };
    let Ok(block) = BoxedSlot::new(alloc, nothing) else {
        return None;
    };
    part.begin_collection(block);
    let begun = end_collection(part);
    part.reset_since();
    part.begin_entry();
    begun
}

// A part's pause, and the number of words it has placed then.
type Placed = (Option<Pause>, u64);

// A part's pause before a collection, whether that was made and what it left, its allocations, and its pause after it.
fn around_collection(
    alloc: Global,
    program: &Program,
    part: &mut Private,
) -> (Placed, bool, u64, u32, Placed)
    requires fits { FitsSome program.now part.old }
    requires idle { part.old.begun ≡ None }
{
    let due = pause(part, program, 256);
    let placed = part.heap.since();
    let made = collected(alloc, program, part).is_some();
    let (left, allocations) = (part.heap.since(), part.allocations);
    let shared = pause(part, program, 256);
    (
        (due, placed),
        made,
        left,
        allocations,
        (shared, part.heap.since()),
    )
}

// Whether both pauses and the collection are the expected ones.
fn collects(alloc: Global, program: &Program) -> bool {
    match root_of(alloc, program, DUE_SOON) {
        Some(mut part) => {
            let (due, made, left, allocations, shared) = around_collection(
                alloc, program, &mut part,
            );
            due == (Some((Paused::Due, 2, 0)), 16)
                && made
                && left == 0
                && allocations == 1
                && shared == (Some((Paused::Shared, 1, 0)), 16)
        }
        None => false,
    }
}

fn collects_two_objects(alloc: Global) -> bool {
    match program_of(alloc, TWO_OBJECTS) {
        Some(program) => collects(alloc, &program),
        None => false,
    }
}

#[test]
fn a_due_collection(rt: HostRuntime) {
    assert!(rt; collects_two_objects(rt.alloc()));
}

const CALL: &str = "fn f\nend\nfn main\nset i0 7\ncall f\nout i0\nend";

// The steps since the last entry, the next instruction, and the number of frames.
fn stand(part: &Private) -> (u32, u32, u32) {
    (part.fresh, part.frames.next(), part.frames.depth())
}

// Whether the part is before the call, and the call is taken when there is memory.
fn calls_later(program: &Program, part: &mut Private) -> bool
    requires fits { FitsSome program.now part.old }
    requires idle { part.old.begun ≡ None }
{
    stand(part) == (1, 1, 1)
        && part.frames.int(0) == 7
        && part.allocations == 0
        && pause(part, program, 200).is_some()
}

// Whether the call is taken, now or later.
fn calls(program: &Program, part: &mut Private) -> bool
    requires fits { FitsSome program.now part.old }
    requires idle { part.old.begun ≡ None }
{
    let called = pause(part, program, 256).is_some();
    (called || calls_later(program, part)) && stand(part) == (3, 2, 1)
}

fn root_calls(alloc: Global, program: &Program) -> bool {
    match root_of(alloc, program, AMPLE) {
        Some(mut part) => calls(program, &mut part),
        None => false,
    }
}

fn call_is_taken(alloc: Global) -> bool {
    match program_of(alloc, CALL) {
        Some(program) => root_calls(alloc, &program),
        None => false,
    }
}

// If the call's frame has no memory (as with `rt try --test --fail-alloc`), the part is before the call, and the call
// is taken when there is memory.
#[test]
fn a_call_without_memory(rt: HostRuntime) {
    assert!(rt; call_is_taken(rt.alloc()));
}
