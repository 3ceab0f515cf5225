// Tests of collections, sweeps and joins, and of remembered sets. It has no code of its own.
#![tactic(auto)]

#[cfg(test)]
mod collecting;
#[cfg(test)]
mod collections;
#[cfg(test)]
mod families;
#[cfg(test)]
mod joins;
#[cfg(test)]
mod remembered;
#[cfg(test)]
mod sweeps;
