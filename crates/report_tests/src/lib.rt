// Tests of the report of a log. It has no code of its own.
#![tactic(auto)]

#[cfg(test)]
mod texts;
