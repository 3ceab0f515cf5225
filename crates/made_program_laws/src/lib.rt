// Every text that `make` writes is a program.
#![tactic(auto)]

mod laws;

pub use laws::made_are_programs;
