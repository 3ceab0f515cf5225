// The races of a journal: accesses to one field that forks and joins leave unordered.
#![tactic(auto)]

// The report of a journal's races: data, text and laws.
mod data;
mod laws;
mod report;
mod text;

// The access of a step, and the label of its strand.
mod access;
mod bounds;
mod label;

// The records during a scan of a journal's steps.
mod firsts;
mod scan;
mod sight;
mod watch;

pub use data::{Field, FieldAccess, Race, Sight};
pub use laws::{labels_tell_precedence, raceless_journals_are_disentangled, stopped_reads_race};
pub use report::{races, races_of, races_of_run};
pub use run_journal::{
    End, Entry, Listed, OrNoMemory, PROGRAM_LIMIT, Program, Refused, RefusedAt, RunEnd, Settings,
    trace_text,
};
pub use text::{pair_lines, races_text};
