// Programs with the order of their tasks, their outputs and their ends.

use crate::runs::{Run, comes_to, is_at, runs_as, takes};
use crate::texts::program;
use hh_lang::Program;
use hh_model::{End, Machine, Trap};
use std::alloc::Global;

const SEVEN: &str = "fn main / set i0 7 / out i0 / ret / end";

const FORK_AND_SUM: &str = "\
    fn left / set i1 10 / add i0 i1 i2 / ret / end / \
    fn right / set i1 20 / add i0 i1 i2 / ret / end / \
    fn main / set i2 3 / par left right / add i0 i0 i1 / out i0 / ret / end";

// The left child stores an object of its own into the root's object; the right child reads it there.
const ENTANGLED_READ: &str = "\
    fn left / set i0 0 / set i1 1 / newm r1 i0 i1 / putr r0 i0 r1 / ret / end / \
    fn right / set i0 0 / getr r1 r0 i0 / ret / end / \
    fn main / set i0 1 / set i1 0 / newm r0 i0 i1 / par left right / ret / end";

const HUNDRED_OBJECTS: &str = "\
    fn main / set i0 0 / set i1 8 / set i2 1 / set i3 100 / lab a / newm r0 i0 i1 / sub i3 i3 i2 / \
    jz i3 b / jmp a / lab b / ret / end";

const OWN_DOWN_POINTER: &str = "\
    fn left / set i0 0 / set i1 1 / newm r1 i0 i1 / set i2 42 / puti r1 i0 i2 / putr r0 i0 r1 / \
    getr r2 r0 i0 / geti i0 r2 i0 / ret / end / \
    fn right / set i0 0 / ret / end / \
    fn main / set i0 1 / set i1 0 / newm r0 i0 i1 / par left right / out i0 / ret / end";

// What a grandchild stored is read once both levels have joined.
const LIFTED_ENTRY: &str = "\
    fn nop / ret / end / \
    fn store / set i0 0 / set i1 1 / newm r1 i0 i1 / set i2 7 / puti r1 i0 i2 / putr r0 i0 r1 / ret / \
    end / \
    fn mid / par nop store / set i2 0 / set i3 18 / newm r2 i2 i3 / newm r2 i2 i3 / ret / end / \
    fn main / set i0 1 / set i1 0 / newm r0 i0 i1 / movr r5 r0 / par mid nop / set i2 0 / \
    getr r3 r5 i2 / geti i4 r3 i2 / out i4 / ret / end";

const CLEARED_WHILE_COLLECTING: &str = "\
    fn left / set i0 0 / set i1 14 / newm r1 i0 i1 / putr r0 i0 r1 / nil r1 / newm r2 i0 i1 / ret / \
    end / \
    fn right / set i0 0 / nil r1 / putr r0 i0 r1 / ret / end / \
    fn main / set i0 1 / set i1 0 / newm r0 i0 i1 / par left right / set i2 0 / getr r3 r0 i2 / \
    nil r4 / same i3 r3 r4 / out i3 / ret / end";

const SELF_REFERENCE: &str = "\
    fn main / set i0 1 / set i1 13 / newm r0 i0 i1 / set i2 0 / putr r0 i2 r0 / movr r1 r0 / \
    newm r2 i0 i1 / getr r3 r0 i2 / same i3 r0 r1 / same i4 r3 r1 / out i3 / out i4 / ret / end";

// A register keeps the object whose last field its task clears.
const OVERWRITTEN_BEFORE_MARK: &str = "\
    fn left / set i0 0 / getr r1 r0 i0 / nil r2 / putr r0 i0 r2 / geti i0 r1 i0 / ret / end / \
    fn right / ret / end / \
    fn main / set i0 1 / set i1 0 / newm r0 i0 i1 / set i0 0 / set i1 14 / newm r1 i0 i1 / set i2 5 / \
    puti r1 i0 i2 / putr r0 i0 r1 / nil r1 / par left right / out i0 / ret / end";

// The object was made by a child of task 1 that has joined.
const JOINED_CHILDS_OBJECT: &str = "\
    fn nop / ret / end / \
    fn mk / set i0 0 / set i1 1 / newm r1 i0 i1 / putr r0 i0 r1 / ret / end / \
    fn left / par mk nop / ret / end / \
    fn right / set i0 0 / getr r1 r0 i0 / ret / end / \
    fn main / set i0 1 / set i1 0 / newm r0 i0 i1 / par left right / ret / end";

const ENDLESS_LIST: &str = "\
    fn main / set i0 1 / set i1 597 / lab a / newm r1 i0 i1 / set i2 0 / putr r1 i2 r0 / movr r0 r1 / \
    jmp a / end";

const MARK_AND_SWEEP: &str = "\
    fn kid / out i0 / ret / end / \
    fn main / set i0 0 / set i1 1000 / newm r0 i0 i1 / nil r0 / set i1 500 / newm r1 i0 i1 / \
    par kid kid / ret / end";

const LEAST_NUMBER: &str = "\
    fn main / set i0 -9223372036854775808 / set i1 -1 / div i2 i0 i1 / out i2 / rem i3 i0 i1 / \
    out i3 / add i2 i0 i1 / out i2 / set i1 0 / div i2 i0 i1 / ret / end";

// The callee has the caller's registers; the caller gets back only i0 and r0.
const CALL_AND_RETURN: &str = "\
    fn f / out i3 / set i0 11 / set i3 12 / newm r0 i3 i3 / nil r4 / ret / end / \
    fn main / set i3 4 / mov i4 i3 / newm r4 i3 i4 / call f / out i0 / out i3 / cntr i5 r0 / out i5 / \
    cnti i6 r4 / out i6 / ret / end";

// An immutable object holds the first registers of each kind.
const PACKED: &str = "\
    fn main / set i0 0 / set i1 1 / set i2 -7 / set i3 2 / newm r1 i1 i0 / pack r2 2 3 / cntr i4 r2 / \
    out i4 / cnti i4 r2 / out i4 / geti i5 r2 i3 / out i5 / getr r3 r2 i1 / same i6 r3 r1 / out i6 / \
    same i6 r3 r2 / out i6 / ret / end";

const OPERATORS: &str = "\
    fn main / set i0 -7 / set i1 2 / div i2 i0 i1 / out i2 / rem i2 i0 i1 / out i2 / sub i2 i1 i0 / \
    out i2 / mul i2 i0 i1 / out i2 / lt i2 i0 i1 / out i2 / lt i2 i0 i0 / out i2 / eq i2 i0 i0 / \
    out i2 / eq i2 i0 i1 / out i2 / ret / end";

// Each turn of the loop calls, makes an object, and writes a field of each kind.
const LOOP: &str = "\
    fn f / newm r1 i1 i1 / puti r1 i0 i1 / putr r1 i0 r0 / movr r0 r1 / ret / end / \
    fn main / set i1 1 / lab a / call f / jmp a / end";

const RECURSION: &str = "fn main / call main / end";

const DONE: Option<End> = Some(End::Done);

const RUNS: &[Run] = &[
    (SEVEN, &[(0, 2), (0, 1)], (&[7], DONE)),
    (
        FORK_AND_SUM,
        &[(0, 2), (1, 3), (2, 3), (0, 2), (0, 1)],
        (&[36], DONE),
    ),
    (
        ENTANGLED_READ,
        &[(0, 4), (1, 2), (1, 2), (1, 1), (2, 2)],
        (&[], Some(End::Entangled(2, 1))),
    ),
    (
        ENTANGLED_READ,
        &[(0, 4), (2, 2), (2, 1), (1, 4), (1, 1), (0, 1)],
        (&[], DONE),
    ),
    (HUNDRED_OBJECTS, &[(0, 404)], (&[], DONE)),
    (
        OWN_DOWN_POINTER,
        &[(0, 4), (1, 9), (2, 2), (0, 2)],
        (&[42], DONE),
    ),
    (
        LIFTED_ENTRY,
        &[(0, 5), (1, 1), (3, 1), (4, 7), (1, 5), (2, 1), (0, 5)],
        (&[7], DONE),
    ),
    (
        CLEARED_WHILE_COLLECTING,
        &[(0, 4), (1, 5), (2, 3), (1, 2), (2, 1), (0, 6)],
        (&[1], DONE),
    ),
    (
        SELF_REFERENCE,
        &[(0, 6), (0, 5), (0, 1), (0, 1)],
        (&[1, 1], DONE),
    ),
    (
        OVERWRITTEN_BEFORE_MARK,
        &[(0, 11), (1, 6), (2, 1), (0, 1), (0, 1)],
        (&[5], DONE),
    ),
    (
        JOINED_CHILDS_OBJECT,
        &[(0, 4), (1, 1), (3, 5), (4, 1), (1, 1), (2, 2)],
        (&[], Some(End::Entangled(2, 1))),
    ),
    (ENDLESS_LIST, &[(0, 502)], (&[], None)),
    (
        MARK_AND_SWEEP,
        &[(0, 7), (1, 2), (2, 2), (0, 1)],
        (&[0, 0], DONE),
    ),
    (
        LEAST_NUMBER,
        &[(0, 10)],
        (
            &[-9223372036854775808, 0, 9223372036854775807],
            Some(End::Trapped(Trap::Div, 0, 11)),
        ),
    ),
    (CALL_AND_RETURN, &[(0, 17)], (&[4, 11, 4, 12, 4], DONE)),
    (PACKED, &[(0, 18)], (&[2, 3, -7, 1, 0], DONE)),
    (OPERATORS, &[(0, 19)], (&[-3, -1, 9, -14, 1, 0, 1, 0], DONE)),
    (RECURSION, &[(0, 999)], (&[], None)),
    (
        RECURSION,
        &[(0, 1000)],
        (&[], Some(End::Trapped(Trap::Depth, 0, 2))),
    ),
    (LOOP, &[(0, 1_000_000)], (&[], None)),
];

#[test]
fn runs_of_programs(rt: HostRuntime) {
    for &run in RUNS {
        assert!(rt; runs_as(rt.alloc(), run), "{:?}: {}", run.1, run.0);
    }
}

const SIZE_TRAP: Option<End> = Some(End::Trapped(Trap::Size, 0, 4));

// The most fields, the lines that set the numbers of references and of numbers, and how the run ended.
const LARGEST: &[(u32, &str, Option<End>)] = &[
    (1022, "set i0 0 / set i1 1022", None),
    (1022, "set i0 0 / set i1 1023", SIZE_TRAP),
    (1000000, "set i0 0 / set i1 1023", None),
    (1000000, "set i0 0 / set i1 1000000", None),
    (1000000, "set i0 0 / set i1 1000001", SIZE_TRAP),
    (1000000, "set i0 1 / set i1 1000000", SIZE_TRAP),
];

fn is_as_large(alloc: Global, limit: u32, counts: &str, end: Option<End>) -> bool {
    let text = ["fn main / ", counts, " / newm r0 i0 i1 / ret / end"];
    comes_to(alloc, &text, limit, &[(0, 3)], (&[], end))
}

#[test]
fn the_largest_object(rt: HostRuntime) {
    for &(limit, counts, end) in LARGEST {
        assert!(rt;
            is_as_large(rt.alloc(), limit, counts, end),
            "{limit}: {counts}"
        );
    }
}

// The left child of the root forks, then the left child of each task that has forked.
fn forks_below(machine: &mut Machine<'_>) -> bool {
    for level in 0..999 {
        if !takes(machine, (2 * level + 1, 1)) {
            return false;
        }
    }
    true
}

// A thousand nested forks are taken, and the next one isn't.
fn forks_to_the_end(machine: &mut Machine<'_>) -> bool {
    takes(machine, (0, 1))
        && forks_below(machine)
        && is_at(machine, (&[], None))
        && machine.state().tasks.len() == 2001
        && takes(machine, (1999, 1))
        && is_at(machine, (&[], Some(End::Trapped(Trap::Depth, 1999, 2))))
        && machine.steps() == 1001
}

fn run_forks(alloc: Global, program: &Program) -> bool {
    match Machine::start(alloc, program, 1022) {
        Ok(mut machine) => forks_to_the_end(&mut machine),
        Err(_) => false,
    }
}

fn deepest_forks(alloc: Global) -> bool {
    match program(alloc, &["fn main / par main main / end"]) {
        Some(program) => run_forks(alloc, &program),
        None => false,
    }
}

#[test]
fn the_deepest_forks(rt: HostRuntime) {
    assert!(rt; deepest_forks(rt.alloc()));
}
