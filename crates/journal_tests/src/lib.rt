// Journals of whole runs, replayed, what is written of them, and the accounts of heaps. It has no code of its own.
#![tactic(auto)]

// What the tests begin with.
#[cfg(test)]
mod machines;
#[cfg(test)]
mod programs;

// The accounts of heaps.
#[cfg(test)]
mod accounts;
#[cfg(test)]
mod joins;

// Entries that are refused.
#[cfg(test)]
mod orders;
#[cfg(test)]
mod refusals;

// What is written of runs.
#[cfg(test)]
mod outputs;
#[cfg(test)]
mod reports;
