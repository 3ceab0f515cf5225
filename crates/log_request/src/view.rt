// What is shown of a log.

use log_report::Detail;
use plain_vec::Listed;

/// How a report is written.
#[derive(Clone, Copy)]
pub enum ReportForm {
    /// As lines.
    Lines,
    /// As a JSON object.
    Json,
}

/// What is shown of a log's report.
#[derive(Drop)]
pub struct LogView {
    pub detail: Detail,
    pub form: ReportForm,
    /// Whether heaps are told.
    pub heaps: bool,
    /// The blocks whose findings are shown; without any, those of all blocks are.
    pub blocks: Listed<u64>,
}
