// The search for the lines of acts.

ghost use Rattle.std.specs.Prelude.{◌≡◌, ◌+◌, ◌^◌, ◌<◌, ◌++◌, ◌∷◌, [], Some, List, IfOk, OnOk, length, map, slice_get};
ghost use Rattle.std.specs.List.Sorted.{IsStrictlyIncreasing};
ghost use Rattle.log_lines.specs.Grammar.{line_of};
ghost use Rattle.log_form.specs.Text.{lines_in};
ghost use Rattle.act_lines.specs.declared.line.ActLine.{ActLine};
ghost use Rattle.act_lines.specs.ActLines.{act_line_at, act_lines_from, act_lines, act_line};
ghost use Rattle.act_lines.specs.Search.{HasFound, IsSearch};

use crate::line::ActLine;
use log_form::LogPosition;
use log_lines::{LogLine, next_line, read_line};
use plain_vec::Listed;
use std::alloc::{AllocError, Global};

/// How far a search for the lines of acts has come.
#[derive(Drop)]
pub(crate) struct Search {
    /// The lines of the first of the numbers.
    pub(crate) found: Listed<Option<ActLine>>,
    /// How many acts came so far, as long as a number is left.
    pub(crate) count: u64,
}

// The number at a place, if there is one.
fn number_at(numbers: &[u32], place: usize) -> Option<u32>
    ensures { result ≡ slice_get numbers.now place }
{
    numbers.get(place).copied()
}

impl Search {
    // The next act has the next number.
    fn find(&mut self, line: ActLine) -> Result<(), AllocError>
        requires { self.old.count < 2 ^ 32 }
        ensures { OnOk result (self.new ≡ record { found = self.old.found ++ Some line ∷ []; count = self.old.count + 1 }) }
    {
        self.found.push(Some(line))?;
        self.count += 1;
        Ok(())
    }

    // It hasn't.
    fn pass(&mut self)
        requires { self.old.count < 2 ^ 32 }
        ensures { self.new ≡ record { found = self.old.found; count = self.old.count + 1 } }
    {
        self.count += 1;
    }

    // The line of the next act.
    fn take(&mut self, numbers: &[u32], line: ActLine) -> Result<(), AllocError>
        requires ascending { IsStrictlyIncreasing numbers.now }
        requires some { IsSearch numbers.now self.old }
        ensures { OnOk result ((seen : List ActLine) → HasFound numbers.now seen self.old → HasFound numbers.now (seen ++ line ∷ []) self.new) }
    {
        let Some(number) = number_at(numbers, self.found.len()) else {
            return Ok(());
        };
        if u64::from(number) != self.count {
            self.pass();
            return Ok(());
        }
        self.find(line)
    }

    // A line that stands somewhere.
    fn take_line(&mut self, numbers: &[u32], at: LogPosition, line: &[u8]) -> Result<(), AllocError>
        requires ascending { IsStrictlyIncreasing numbers.now }
        requires some { IsSearch numbers.now self.old }
        ensures { OnOk result ((seen : List ActLine) → HasFound numbers.now seen self.old → HasFound numbers.now (seen ++ act_line_at at (line_of line.now)) self.new) }
    {
        match read_line(line) {
            Ok(LogLine::Act(act)) => self.take(numbers, ActLine { at, act }),
            _ => Ok(()),
        }
    }
}

impl Search {
    // The lines of a text, which is that of a file, as far as a number is left.
    fn take_text(&mut self, numbers: &[u32], file: usize, text: &[u8]) -> Result<(), AllocError>
        requires ascending { IsStrictlyIncreasing numbers.now }
        requires some { IsSearch numbers.now self.old }
        ensures { OnOk result ((seen : List ActLine) → HasFound numbers.now seen self.old
            → HasFound numbers.now (seen ++ act_lines_from file 1 (lines_in text.now)) self.new) }
    {
        let mut left = text;
        let mut line = 1;
        'lines: loop {
            if self.found.len() == numbers.len() {
                return Ok(());
            }
            let (said, rest) = next_line(left);
            match rest {
                None => return Ok(()),
                Some(rest) => {
                    self.take_line(numbers, LogPosition { file, line }, said)?;
                    line += 1;
                    left = rest;
                }
            }
        }
    }

    // What is left isn't there.
    fn finish(self, numbers: &[u32]) -> Result<Listed<Option<ActLine>>, AllocError>
        ensures { IfOk result (λ found. (seen : List ActLine) → HasFound numbers.now seen self → found ≡ map (slice_get seen) numbers.now) }
    {
        let Search { found, count: _ } = self;
        let mut found = found;
        while found.len() < numbers.len() {
            found.push(None)?;
        }
        Ok(found)
    }
}

/// The lines of acts by their numbers in a log, which ascend: number 0 is the first line that is an act. It takes one
/// pass over the texts of the log's files, up to the last of these lines.
pub fn lines_of_acts(
    alloc: Global,
    texts: &[Listed<u8>],
    numbers: &[u32],
) -> Result<Listed<Option<ActLine>>, AllocError>
    requires { IsStrictlyIncreasing numbers.now }
    ensures { IfOk result (λ lines. lines ≡ map (act_line texts.now) numbers.now) }
{
    let mut search = Search {
        found: Listed::new(alloc),
        count: 0,
    };
    for (file, text) in texts.iter().enumerate() {
        search.take_text(numbers, file, text.as_slice())?;
    }
    search.finish(numbers)
}
