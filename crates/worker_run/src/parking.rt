//! How workers that found no task wait for one.

use std::sync::{Condvar, Mutex, Wait};

/// Wakes workers when there may be a task to find, and when the run is over. A worker that has found nothing sleeps
/// until then.
#[derive(Drop)]
pub struct Parker {
    rings: Mutex<u64>,
    rung: Condvar,
}

impl Parker {
    /// A parker that hasn't been signalled.
    pub fn new() -> Parker {
        Parker {
            rings: Mutex::new(0),
            rung: Condvar::new(),
        }
    }

    /// How often it was signalled.
    pub fn rings<R: Wait>(&self, rt: &R) -> u64 {
        *self.rings.lock(rt)
    }

    // Counts one signal.
    fn count<R: Wait>(&self, rt: &R) {
        let mut rings = self.rings.lock(rt);
        *rings = rings.wrapping_add(1);
    }

    /// If a worker owes a signal, signals a task that waits on its deque: one waiting worker wakes.
    pub fn ring_if<R: Wait>(&self, rt: &R, is_owed: bool) {
        if is_owed {
            self.count(rt);
            self.rung.notify_one();
        }
    }

    /// Signals the end: all waiting workers wake.
    pub fn ring_all<R: Wait>(&self, rt: &R) {
        self.count(rt);
        self.rung.notify_all();
    }

    /// Waits until it has been signalled more often than `rings` times.
    pub fn wait_past<R: Wait>(&self, rt: &R, rings: u64) {
        let guard = self
            .rung
            .wait_while(rt, self.rings.lock(rt), |now| *now == rings);
        drop(guard);
    }
}
