// Tests of graphs of fork-join runs: their first faults, which of their strands precede which, work and span. It has no
// code of its own.
#![tactic(auto)]

#[cfg(test)]
mod faults;
#[cfg(test)]
mod orders;
#[cfg(test)]
mod runs;
#[cfg(test)]
mod spans;
