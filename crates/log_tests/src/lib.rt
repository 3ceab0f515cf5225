// Tests of lines, of whole logs and of calls of the program that checks logs. It has no code of its own.
#![tactic(auto)]

#[cfg(test)]
mod calls;
#[cfg(test)]
mod heaps;
#[cfg(test)]
mod lines;
#[cfg(test)]
mod logs;
#[cfg(test)]
mod tasks;
