// What the arguments ask for.

ghost use Rattle.std.specs.Prelude.{◌≡◌, string_bytes};

use crate::title::PageTitle;
use run_trace::Settings;
use std::marker::Model;

/// The name of a file.
#[derive(Drop)]
pub struct InputFile {
    name: String,
}

impl Model for InputFile {
    ghost use Rattle.std.specs.Prelude.{ℕ, List, string_bytes};

    ghost Value = { List ℕ };

    ghost view = { λ f. string_bytes f.name };
}

impl InputFile {
    pub(crate) fn new(name: String) -> InputFile
        ensures { result ≡ string_bytes name }
    {
        InputFile { name }
    }

    pub fn as_str(&self) -> &str
        ensures { result.now ≡ self.now }
    {
        self.name.as_str()
    }
}

/// A view of a run, which is read from a program with its trace.
#[derive(Clone, Copy)]
pub enum RunView {
    /// The timeline.
    Timeline,
    /// The tasks.
    Tasks,
    /// What the run says about all schedules.
    Schedules,
    /// Its races, by pairs of lines.
    Races,
    /// The run as a log of a fork-join program.
    Log,
}

/// What is shown of an input.
#[derive(Drop)]
pub enum Picture {
    /// The heaps of an image, or those on the path from the root to a task; heap by heap if there are more objects than
    /// the limit.
    Heaps {
        path: Option<u64>,
        limit: u64,
    },
    /// A view of a run with these settings.
    Run {
        view: RunView,
        settings: Settings,
    },
    /// A run with these settings as a page; without a title it has the file's name.
    Page {
        title: Option<PageTitle>,
        settings: Settings,
    },
    /// The faults of the text of a program, as lines or as JSON.
    Faults {
        json: bool,
    },
}

/// What the arguments ask for. Without a file standard input is read.
#[derive(Drop)]
pub enum ViewCall {
    /// How to call the program.
    Usage,
    /// A picture of an input.
    Of {
        file: Option<InputFile>,
        picture: Picture,
    },
}
