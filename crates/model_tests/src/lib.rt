// Tests of the machine that never collects, on whole programs; it has no code of its own.
#![tactic(auto)]

#[cfg(test)]
mod freeze_and_swap;
#[cfg(test)]
mod programs;
#[cfg(test)]
mod runs;
#[cfg(test)]
mod schedules;
#[cfg(test)]
mod texts;
#[cfg(test)]
mod traps;
