// Tests that run a task on its own part; it has no code of its own.
#![tactic(auto)]

#[cfg(test)]
mod entries;
#[cfg(test)]
mod instructions;
#[cfg(test)]
mod pauses;
