// What is written of a log: why it is refused, or its report.
#![tactic(auto)]

mod blocks;
mod report;
mod show;
mod size;

pub use show::show_log;
