// Tests of texts, command lines, sources and sinks. It has no code of its own.
#![tactic(auto)]

// Programs: their words, lines and faults.
#[cfg(test)]
mod faults;
#[cfg(test)]
mod instructions;
#[cfg(test)]
mod made;
#[cfg(test)]
mod words;

// Other texts: command lines, images and traces.
#[cfg(test)]
mod command_lines;
#[cfg(test)]
mod images;
#[cfg(test)]
mod traces;

// Lists, sources and sinks.
#[cfg(test)]
mod lists;
#[cfg(test)]
mod outside;
