// Tests of what threads share without the turn: deques. It has no code of its own.
#![tactic(auto)]

#[cfg(test)]
mod deques;
