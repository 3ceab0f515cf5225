// Tests of the faults of texts, and of nearest words. It has no code of its own.
#![tactic(auto)]

#[cfg(test)]
mod faults;
#[cfg(test)]
mod nearest;
