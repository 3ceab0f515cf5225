// Tests of workers by their states. It has no code of its own.
#![tactic(auto)]

#[cfg(test)]
mod threads;
#[cfg(test)]
mod worker_states;
