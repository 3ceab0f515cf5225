//! Which signals a worker has seen, and which it owes.

/// How many turns a task lies on its worker's deque before that one signals it. Most tasks of a few steps are taken back
/// before. No other number was measured.
const PATIENCE: u32 = 16;

/// What a worker knows of signals.
#[derive(Drop)]
pub struct Signals {
    /// How many the worker had seen when it last looked for a task of others.
    heard: u64,
    /// How many tasks the worker has put, neither taken back nor signalled; some may be stolen.
    owed: u32,
    /// How many turns the worker has made since it owes one.
    turns: u32,
}

impl Signals {
    /// As a run begins.
    pub fn new() -> Signals {
        Signals {
            heard: 0,
            owed: 0,
            turns: 0,
        }
    }

    /// How many the worker had seen when it last looked for a task of others.
    pub fn heard(&self) -> u64 {
        self.heard
    }

    /// A task was put on the own deque.
    pub(crate) fn put(&mut self) {
        self.owed = self.owed.saturating_add(1);
    }

    /// The newest own task was taken back.
    pub(crate) fn took_back(&mut self) {
        self.owed = self.owed.saturating_sub(1);
        if self.owed == 0 {
            self.turns = 0;
        }
    }

    /// No own task is left, and so many signals were seen.
    pub(crate) fn looked(&mut self, heard: u64) {
        self.heard = heard;
        self.owed = 0;
        self.turns = 0;
    }

    /// Whether the worker owes a signal, which it then gives: before it works for long without a turn.
    pub(crate) fn pay(&mut self) -> bool {
        if self.owed == 0 {
            return false;
        }
        self.owed -= 1;
        self.turns = 0;
        true
    }

    /// Whether the worker owes a signal that is due after another turn, and gives it.
    pub(crate) fn pay_if_due(&mut self) -> bool {
        if self.owed == 0 {
            return false;
        }
        if self.turns < PATIENCE {
            self.turns += 1;
            return false;
        }
        self.pay()
    }
}
