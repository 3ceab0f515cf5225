// Each trap, and which of two comes first.

use crate::runs::comes_to;
use hh_model::{End, Trap};
use std::alloc::Global;

// r0 is nil, r1 a mutable object with a field of each kind, r2 an immutable one; i0 is 0, i1 is 1, i2 is -1, i3 the
// most fields of an object, i4 the largest number.
const SETUP: &str =
    "fn main / set i1 1 / set i2 -1 / set i3 1022 / set i4 9223372036854775807 / newm r1 i1 i1 / pack r2 1 1";

const TRAPS: &[(&str, Trap)] = &[
    ("div i5 i1 i0", Trap::Div),
    ("rem i5 i1 i0", Trap::Div),
    ("newm r3 i2 i0", Trap::Size),
    ("newm r3 i0 i2", Trap::Size),
    ("newm r3 i2 i2", Trap::Size),
    ("newm r3 i3 i1", Trap::Size),
    ("newm r3 i1 i3", Trap::Size),
    ("newm r3 i4 i4", Trap::Size),
    ("getr r3 r0 i0", Trap::Nil),
    ("getr r3 r0 i2", Trap::Nil),
    ("getr r3 r1 i1", Trap::Range),
    ("getr r3 r1 i2", Trap::Range),
    ("geti i5 r0 i0", Trap::Nil),
    ("geti i5 r0 i2", Trap::Nil),
    ("geti i5 r1 i1", Trap::Range),
    ("geti i5 r1 i2", Trap::Range),
    ("putr r0 i0 r1", Trap::Nil),
    ("putr r0 i2 r1", Trap::Nil),
    ("putr r1 i1 r1", Trap::Range),
    ("putr r1 i2 r1", Trap::Range),
    ("putr r2 i1 r1", Trap::Range),
    ("putr r2 i2 r1", Trap::Range),
    ("putr r2 i0 r1", Trap::Frozen),
    ("puti r0 i0 i1", Trap::Nil),
    ("puti r0 i2 i1", Trap::Nil),
    ("puti r1 i1 i1", Trap::Range),
    ("puti r1 i2 i1", Trap::Range),
    ("puti r2 i1 i1", Trap::Range),
    ("puti r2 i2 i1", Trap::Range),
    ("puti r2 i0 i1", Trap::Frozen),
    ("cas i5 r0 i0 r0 r1", Trap::Nil),
    ("cas i5 r0 i2 r0 r1", Trap::Nil),
    ("cas i5 r1 i1 r0 r1", Trap::Range),
    ("cas i5 r1 i2 r0 r1", Trap::Range),
    ("cas i5 r2 i1 r0 r1", Trap::Range),
    ("cas i5 r2 i0 r0 r1", Trap::Frozen),
    ("cas i5 r2 i0 r1 r1", Trap::Frozen),
    ("cntr i5 r0", Trap::Nil),
    ("cnti i5 r0", Trap::Nil),
    ("freeze r0", Trap::Nil),
];

// Whether the instruction after the setup, which is the seventh step, has this end.
fn ends_so(alloc: Global, instr: &str, end: Option<End>) -> bool {
    comes_to(
        alloc,
        &[SETUP, " / ", instr, " / end"],
        1022,
        &[(0, 7)],
        (&[], end),
    )
}

#[test]
fn which_trap_comes(rt: HostRuntime) {
    for &(instr, trap) in TRAPS {
        assert!(rt;
            ends_so(rt.alloc(), instr, Some(End::Trapped(trap, 0, 8))),
            "{instr}"
        );
    }
}

// Near misses of traps.
const NO_TRAPS: &[&str] = &[
    "newm r3 i3 i0",
    "getr r3 r2 i0",
    "geti i5 r2 i0",
    "putr r1 i0 r1",
    "puti r1 i0 i1",
    "cas i5 r1 i0 r1 r1",
    "freeze r2",
];

#[test]
fn no_trap_comes(rt: HostRuntime) {
    for &instr in NO_TRAPS {
        assert!(rt; ends_so(rt.alloc(), instr, None), "{instr}");
    }
}

// What another task owns can't be frozen, immutable or not; the trap for nil comes before that.
const FREEZES: &[(&str, Trap)] = &[
    ("freeze r0", Trap::Nil),
    ("freeze r1", Trap::Frozen),
    ("freeze r2", Trap::Frozen),
];

// Whether the right child's first instruction has this trap, after the setup and a fork of its parent.
fn traps_the_child(alloc: Global, instr: &str, trap: Trap) -> bool {
    let text = [
        "fn kid / ",
        instr,
        " / end / ",
        SETUP,
        " / par kid kid / end",
    ];
    let end = Some(End::Trapped(trap, 2, 2));
    comes_to(alloc, &text, 1022, &[(0, 7), (2, 1)], (&[], end))
}

#[test]
fn another_tasks_object(rt: HostRuntime) {
    for &(instr, trap) in FREEZES {
        assert!(rt; traps_the_child(rt.alloc(), instr, trap), "{instr}");
    }
}
