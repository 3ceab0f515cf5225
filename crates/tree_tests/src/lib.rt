// Tests of trees of heaps, of the read barrier and of the write barrier. It has no code of its own.
#![tactic(auto)]

#[cfg(test)]
mod trees;
#[cfg(test)]
mod writes;
