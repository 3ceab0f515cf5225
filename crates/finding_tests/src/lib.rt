// Tests of what is found in logs: work and span, and early reads and late uses. It has no code of its own.
#![tactic(auto)]

#[cfg(test)]
mod findings;
