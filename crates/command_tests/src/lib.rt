// Tests of whole calls: command lines over sources and sinks in memory. It has no code of its own.
#![tactic(auto)]

// What the tests are made of: calls of the whole program, and gates at which workers meet.
#[cfg(test)]
mod calls;
#[cfg(test)]
mod gates;

// Runs of programs.
#[cfg(test)]
mod above;
#[cfg(test)]
mod made;
#[cfg(test)]
mod runs;
#[cfg(test)]
mod texts;

// Replays, images and races.
#[cfg(test)]
mod images;
#[cfg(test)]
mod neighbours;
#[cfg(test)]
mod replays;

// Sources and sinks, and what a call leaves.
#[cfg(test)]
mod hostile;
#[cfg(test)]
mod outside;
