// Each private instruction, and each way to a shared step.

ghost use Rattle.std.specs.Prelude.{◌≡◌, None};
ghost use Rattle.task_machine.specs.Ready.{FitsSome};

use hh_lang::Program;
use part_scenes::{AMPLE, Pause, pause, pause_of, program_of, root_of};
use std::alloc::Global;
use task_machine::{Paused, Private};

// Each private instruction once, and then an output.
const EVERY: &str = "\
fn twice
add i0 i0 i0
end
fn main
set i1 6
mov i2 i1
add i0 i1 i2
sub i3 i0 i1
mul i3 i3 i1
div i3 i3 i2
rem i4 i0 i3
lt i5 i4 i3
eq i6 i1 i2
newm r0 i5 i6
pack r1 1 2
movr r2 r0
same i7 r0 r2
putr r0 i4 r1
getr r3 r0 i4
geti i8 r3 i5
puti r0 i4 i8
cntr i9 r3
cnti i10 r3
nil r4
cas i11 r0 i4 r1 r4
freeze r0
jz i4 next
set i0 99
lab next
jmp over
set i0 98
lab over
call twice
out i0
end";

// The number registers at the end.
const REGISTERS: [i64; 16] = [24, 6, 6, 6, 0, 1, 1, 1, 6, 1, 2, 1, 0, 0, 0, 0];

// The first number register with an unexpected value.
fn wrong_register(part: &Private, expected: &[i64; 16]) -> Option<u32> {
    for i in 0..16 {
        if part.frames.int(i) != expected[i as usize] {
            return Some(i);
        }
    }
    None
}

// Why and when a part pauses, the number of objects it has allocated and of their words, and its first wrong register.
type Outcome = (Option<Pause>, u32, u64, Option<u32>);

fn run_part(part: &mut Private, program: &Program) -> Outcome
    requires fits { FitsSome program.now part.old }
    requires idle { part.old.begun ≡ None }
{
    let pause = pause(part, program, 256);
    (
        pause,
        part.allocations,
        part.heap.since(),
        wrong_register(part, &REGISTERS),
    )
}

fn run_root(alloc: Global, program: &Program) -> Option<Outcome> {
    match root_of(alloc, program, AMPLE) {
        Some(mut part) => Some(run_part(&mut part, program)),
        None => None,
    }
}

fn run_every(alloc: Global) -> Option<Outcome> {
    match program_of(alloc, EVERY) {
        Some(program) => run_root(alloc, &program),
        None => None,
    }
}

#[test]
fn every_instruction(rt: HostRuntime) {
    let outcome = run_every(rt.alloc());
    assert!(rt; outcome == Some((Some((Paused::Shared, 27, 24)), 2, 4 + 5, None)));
}

// A program that pauses at a shared step, and the number of private steps before it.
const SHARED: &[(&str, Pause)] = &[
    ("fn main\nout i0\nend", (Paused::Shared, 0, 0)),
    (
        "fn kid\nend\nfn main\npar kid kid\nend",
        (Paused::Shared, 0, 0),
    ),
    ("fn main\nend", (Paused::Shared, 0, 0)),
    ("fn main\ngetr r0 r1 i0\nend", (Paused::Shared, 0, 0)),
    ("fn main\ncnti i0 r1\nend", (Paused::Shared, 0, 0)),
    ("fn main\ndiv i1 i0 i0\nend", (Paused::Shared, 0, 0)),
    (
        "fn main\nset i1 -1\nnewm r0 i0 i1\nend",
        (Paused::Shared, 1, 0),
    ),
    (
        "fn main\nset i1 1023\nnewm r0 i0 i1\nend",
        (Paused::Shared, 1, 0),
    ),
    (
        "fn main\nnewm r0 i0 i0\ngeti i1 r0 i0\nend",
        (Paused::Shared, 1, 0),
    ),
    (
        "fn main\nset i1 1\nnewm r0 i0 i1\nfreeze r0\nputi r0 i0 i1\nend",
        (Paused::Shared, 3, 0),
    ),
    ("fn main\ncall main\nend", (Paused::Shared, 999, 0)),
];

#[test]
fn shared_steps(rt: HostRuntime) {
    for &(text, pause) in SHARED {
        assert!(rt;
            pause_of(rt.alloc(), text, AMPLE, 1000) == Some(pause),
            "{text}"
        );
    }
}
