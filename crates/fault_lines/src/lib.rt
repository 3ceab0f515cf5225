// The faults of a text as they are shown: lines for people, and JSON.
#![tactic(auto)]

mod expected;
mod json;
mod shown;
mod text;

pub use json::faults_json;
pub use shown::shown_faults;
pub use text::faults_text;
