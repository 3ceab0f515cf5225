// Calls `command` with one allocation refused, and prints the result. `scripts/out_of_memory.bash` builds it so that
// allocation number REFUSED is refused, and runs it for each allocation of each trial.
#![tactic(auto)]

mod call;
mod judge;
mod trials;

use crate::judge::{Told, told_of};
use crate::trials::trial_of;
use std::io;
use std::io::Read;
use std::sync::Wait;
use std::thread::Threads;

/// The number of the allocation of this program that is refused.
const REFUSED: u64 = 5000;

// The numbers of a line; missing ones are 0.
fn numbers_of(line: &[u8]) -> (u64, u64, u64) {
    let mut numbers = (0u64, 0u64, 0u64);
    for byte in line {
        if byte.is_ascii_digit() {
            numbers.2 = numbers
                .2
                .saturating_mul(10)
                .saturating_add((*byte - b'0') as u64);
        } else if *byte == b' ' {
            numbers = (numbers.1, numbers.2, 0);
        }
    }
    numbers
}

// The numbers of a trial and of its workers, and the number, from its beginning, of the allocation that is refused.
fn read_case<R: Input>(rt: &R) -> (u64, u64, u64) {
    let mut line = [0u8; 32];
    match rt.reader().read(&mut line) {
        Ok(count) => numbers_of(&line[..count]),
        Err(_) => (0, 0, 0),
    }
}

fn tell<R: AllocGlobal + Threads + Wait + Sync>(
    rt: &R,
    (trial, workers, at): (u64, u64, u64),
) -> Told {
    match trial_of(trial, workers) {
        Some(trial) => told_of(rt, trial, REFUSED.saturating_sub(at), at),
        None => Told::Wrong,
    }
}

fn main(rt: HostRuntime) -> io::Result<()> {
    let told = tell(&rt, read_case(&rt));
    println!(rt; "{} {}", told.text(), told.count())
}
