// Two workers that meet: gates that record where each task has come, and hold a task for a limited time.

use crate::calls::{answers, source_of};
use io_traits::{Gate, Point};
use std::hint::spin_loop;
use std::sync::Wait;
use std::sync::atomic::{AtomicBool, Ordering};
use std::thread::Threads;

// The most iterations of the loop in which a task waits.
const MOST_TURNS: u32 = 10_000_000;

// What a task has done at the gate.
#[derive(Drop)]
struct Visit {
    // It has come to the place where it waits.
    came: AtomicBool,
    // What it waited for there has happened in time.
    met: AtomicBool,
}

impl Visit {
    fn new() -> Visit {
        Visit {
            came: AtomicBool::new(false),
            met: AtomicBool::new(false),
        }
    }

    // A task comes, and waits for the other one the first time.
    fn comes(&self, other: &AtomicBool) {
        if !self.came.swap(true, Ordering::SeqCst) {
            self.met.store(is_set_in_time(other), Ordering::SeqCst);
        }
    }

    fn has_met(&self) -> bool {
        self.met.load(Ordering::SeqCst)
    }
}

// Waits until the flag is set, but for a limited time.
fn is_set_in_time(flag: &AtomicBool) -> bool {
    for _ in 0..MOST_TURNS {
        if flag.load(Ordering::SeqCst) {
            return true;
        }
        spin_loop();
    }
    false
}

// Before their first instructions, tasks 1 and 2 wait for each other.
#[derive(Drop)]
struct SideBySide {
    left: Visit,
    right: Visit,
}

impl Gate for SideBySide {
    fn pass(&self, _worker: u32, task: u32, point: Point) {
        match (point, task) {
            (Point::BeforeLocal, 1) => self.left.comes(&self.right.came),
            (Point::BeforeLocal, 2) => self.right.comes(&self.left.came),
            _ => {}
        }
    }
}

// Before its first instructions, task 2 waits until task 1 is about to copy. There task 1 waits until task 2 has had a
// turn after those instructions.
#[derive(Drop)]
struct TurnWhileCopying {
    copies: Visit,
    runs: Visit,
    had_turn: AtomicBool,
}

impl TurnWhileCopying {
    fn after_turn(&self) {
        if self.runs.came.load(Ordering::SeqCst) {
            self.had_turn.store(true, Ordering::SeqCst);
        }
    }
}

impl Gate for TurnWhileCopying {
    fn pass(&self, _worker: u32, task: u32, point: Point) {
        match (point, task) {
            (Point::AfterBegin, 1) => self.copies.comes(&self.had_turn),
            (Point::BeforeLocal, 2) => self.runs.comes(&self.copies.came),
            (Point::AfterTurn, 2) => self.after_turn(),
            _ => {}
        }
    }
}

const FORKS: &str =
    "fn left\nset i1 10\nadd i0 i1 i2\nret\nend\nfn right\nset i1 20\nadd i0 i1 i2\nret\nend\nfn main\nset i2 3\npar left right\nadd i0 i0 i1\nout i0\nret\nend\n";

// Its left child's collection is due once it has allocated 16 words.
const COLLECTS: &str =
    "fn left\nset i0 0\nset i1 14\nnewm r1 i0 i1\nputr r0 i0 r1\nnil r1\nnewm r2 i0 i1\nret\nend\nfn right\nset i0 0\nnil r1\nputr r0 i0 r1\nret\nend\nfn main\nset i0 1\nset i1 0\nnewm r0 i0 i1\npar left right\nset i2 0\ngetr r3 r0 i2\nnil r4\nsame i3 r3 r4\nout i3\nret\nend\n";

// Whether a run whose workers pass a gate is done, and writes exactly this.
fn runs_through<R: AllocGlobal + Threads + Wait + Sync, G: Gate>(
    rt: &R,
    (options, input, bytes): (&str, &str, &str),
    gate: &G,
) -> bool {
    match source_of(rt.alloc(), input.as_bytes()) {
        Ok(mut source) => {
            let answer = (0, bytes.as_bytes());
            answers(rt, ("run", options), &mut source, gate, answer)
        }
        Err(_) => false,
    }
}

// Instructions of two tasks run at the same time, neither one after the other nor by turns.
#[test]
fn both_run_at_once(rt: HostRuntime) {
    let gate = SideBySide {
        left: Visit::new(),
        right: Visit::new(),
    };
    let run = ("--workers 2", FORKS, "36\nend: done\n");
    let ran = runs_through(&rt, run, &gate);
    let met = (gate.left.has_met(), gate.right.has_met());
    assert!(rt; (ran, met) == (true, (true, true)));
}

// A worker has a turn while another's collection copies.
#[test]
fn copying_outside_the_turn(rt: HostRuntime) {
    let gate = TurnWhileCopying {
        copies: Visit::new(),
        runs: Visit::new(),
        had_turn: AtomicBool::new(false),
    };
    let run = ("--workers 2 --leaf 16", COLLECTS, "1\nend: done\n");
    let ran = runs_through(&rt, run, &gate);
    let met = (gate.copies.has_met(), gate.runs.has_met());
    assert!(rt; (ran, met) == (true, (true, true)));
}
