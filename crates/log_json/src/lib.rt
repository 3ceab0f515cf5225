// The report of a log as a JSON object.
#![tactic(auto)]

mod cost;
mod heaps;
mod line;
mod races;
mod report;
mod uses;
mod value;

pub use log_sites::{SiteNames, site_names};
pub use plain_vec::Listed;
pub use report::report_json;
