// What is reported of a log: its races, its entangled and stale uses, its work and its span, its heaps.
#![tactic(auto)]

mod error;
mod find;

pub use error::ReportError;
pub use find::report_log;
pub use log_left::Extent;
