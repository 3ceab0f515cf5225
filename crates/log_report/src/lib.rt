// The report of a log: its races by blocks, kinds and sites, its entangled and stale uses, its work and its span.
#![tactic(auto)]

mod cost;
mod end;
mod heaps;
mod label;
mod locations;
mod order;
mod races;
mod report;
mod told;
mod uses;

pub use cost::parallelism_text;
pub use end::racing_locations;
pub use heaps::{HeapDepth, LogHeaps};
pub use label::kind_word;
pub use order::in_order;
pub use races::{race_groups, run_length};
pub use report::{Detail, report_text};
pub use told::{LineKind, LogReport, Told, ToldRace, ToldUse};
pub use uses::{UseFault, since_of, use_groups};
