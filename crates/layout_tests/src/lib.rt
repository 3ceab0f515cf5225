// Tests of layout: chunks, pieces, registers, leaf heaps and what tasks see of them. It has no code of its own.
#![tactic(auto)]

#[cfg(test)]
mod chunks;
#[cfg(test)]
mod heaps;
#[cfg(test)]
mod pieces;
#[cfg(test)]
mod registers;
#[cfg(test)]
mod views;
