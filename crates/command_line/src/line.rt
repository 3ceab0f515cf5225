// What a command line asks for.

ghost use Rattle.std.specs.Prelude.{◌≡◌, option_map};

use run_trace::Settings;
use std::marker::Model;

/// The name of a file, as a word of the command line gives it.
#[derive(Drop)]
pub struct FileName<'w> {
    text: &'w str,
}

impl<'w> Model for FileName<'w> {
    ghost use Rattle.std.specs.Prelude.{ℕ, List};

    ghost Value = { List ℕ };

    ghost view = { λ n. n.text.now };
}

impl<'w> FileName<'w> {
    pub(crate) fn new(text: &'w str) -> FileName<'w>
        ensures { result ≡ text.entry.now }
    {
        FileName { text }
    }

    pub fn as_str(&self) -> &'w str
        ensures { result.now ≡ self.now }
    {
        self.text
    }
}

/// The name of a file, if one is given.
pub fn name_of<'a>(file: &'a Option<FileName>) -> Option<&'a str>
    ensures { option_map (λ s. s.now) result ≡ file.now }
{
    match file {
        None => None,
        Some(name) => Some(name.as_str()),
    }
}

/// How to run a program, and what to write besides its outputs.
#[derive(Clone, Copy)]
pub struct Options {
    pub settings: Settings,
    /// Write the report.
    pub report: bool,
    /// Write the trace.
    pub trace: bool,
}

/// A command with its values. Without a file it reads standard input.
#[derive(Drop)]
pub enum CommandLine<'w> {
    /// Reads a program.
    Check {
        file: Option<FileName<'w>>,
    },
    /// Runs a program.
    Run {
        file: Option<FileName<'w>>,
        options: Options,
    },
    /// Runs a program by its trace, entry by entry.
    Replay {
        file: Option<FileName<'w>>,
        options: Options,
    },
    /// Runs a program with its trace by the definitions alone.
    Model {
        file: Option<FileName<'w>>,
        options: Options,
    },
    /// Reports the races of a program with its trace.
    Races {
        file: Option<FileName<'w>>,
        settings: Settings,
    },
    /// Writes the heaps that a program with its trace leaves.
    Image {
        file: Option<FileName<'w>>,
        settings: Settings,
    },
    /// Writes the program of this seed and this size, 1 to 1,000; or runs it, and writes what its run writes.
    Make {
        seed: u32,
        size: u32,
        run: bool,
    },
    /// Checks an image.
    Verify {
        file: Option<FileName<'w>>,
    },
}
