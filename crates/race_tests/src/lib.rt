// Tests of the races of whole logs, and of the lines that tell of them. It has no code of its own.
#![tactic(auto)]

#[cfg(test)]
mod logs;
