// Tests of whole calls of the view, over sources and sinks in memory. It has no code of its own.
#![tactic(auto)]

#[cfg(test)]
mod calls;
#[cfg(test)]
mod faults;
#[cfg(test)]
mod races;
#[cfg(test)]
mod views;
