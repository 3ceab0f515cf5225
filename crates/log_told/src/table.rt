// The lines that are told, by their numbers.

ghost use Rattle.std.specs.Prelude.{◌≡◌, ℕ, List, Option, Some, IfOk, Contains, All, map, slice_get};
ghost use Rattle.act_lines.specs.declared.line.ActLine.{ActLine};
ghost use Rattle.log_told.specs.Told.{told_at, told_race, told_use};
ghost use Rattle.log_told.specs.Table.{IsTable, IsToldRace, IsToldUse};

use crate::line::told_line;
use act_lines::{ActLine, lines_of_acts};
use log_births::Finding;
use log_report::{Told, ToldRace, ToldUse};
use log_tasks::each_once;
use plain_vec::Listed;
use race_scan::FoundRace;
use std::alloc::{AllocError, Global};

/// Numbers of acts in ascending order, and their lines.
#[derive(Drop)]
pub(crate) struct LineTable {
    pub(crate) numbers: Listed<u32>,
    pub(crate) lines: Listed<Option<ActLine>>,
}

impl LineTable {
    /// The lines of acts by their numbers in a log.
    pub(crate) fn new(
        alloc: Global,
        texts: &[Listed<u8>],
        wanted: Vec<u32>,
    ) -> Result<LineTable, AllocError>
        ensures { IfOk result (IsTable texts.now wanted.items) }
    {
        let numbers = each_once(wanted);
        let lines = lines_of_acts(alloc, texts, numbers.as_slice())?;
        Ok(LineTable {
            numbers: Listed::from_vec(numbers),
            lines,
        })
    }

    // The line at a place.
    fn line(&self, place: usize) -> Option<ActLine>
        ensures { (line : Option ActLine) → slice_get self.now.lines place ≡ Some line → result ≡ line }
    {
        match self.lines.get(place) {
            Some(line) => *line,
            None => None,
        }
    }

    // What is told of the line of an act.
    fn told(&self, number: u32) -> Told
        ensures { (texts : List (List ℕ)) (wanted : List ℕ) → IsTable texts wanted self.now → Contains wanted number → result ≡ told_at texts number }
    {
        match self.numbers.as_slice().binary_search(&number) {
            Ok(place) => told_line(self.line(place)),
            Err(_) => told_line(None),
        }
    }

    // What is told of a race.
    fn race(&self, found: FoundRace) -> ToldRace
        ensures { (texts : List (List ℕ)) (wanted : List ℕ) → IsTable texts wanted self.now → IsToldRace wanted found → result ≡ told_race texts found }
    {
        ToldRace {
            block: found.block,
            start: found.slot.start,
            end: found.slot.end,
            first: self.told(found.race.first.line),
            second: self.told(found.race.second.line),
        }
    }

    // What is told of an entangled or a stale line.
    fn finding(&self, finding: Finding) -> ToldUse
        ensures { (texts : List (List ℕ)) (wanted : List ℕ) → IsTable texts wanted self.now → IsToldUse wanted finding → result ≡ told_use texts finding }
    {
        ToldUse {
            block: finding.block,
            line: self.told(finding.line),
            other: self.told(finding.other).at,
        }
    }

    /// What is told of races.
    pub(crate) fn races(
        &self,
        alloc: Global,
        races: &[FoundRace],
    ) -> Result<Listed<ToldRace>, AllocError>
        ensures { IfOk result (λ told. (texts : List (List ℕ)) (wanted : List ℕ) → IsTable texts wanted self.now → All (IsToldRace wanted) races.now → told ≡ map (told_race texts) races.now) }
    {
        let mut told = Listed::new(alloc);
        for found in races {
            told.push(self.race(*found))?;
        }
        Ok(told)
    }

    /// What is told of entangled or stale lines.
    pub(crate) fn findings(
        &self,
        alloc: Global,
        findings: &[Finding],
    ) -> Result<Listed<ToldUse>, AllocError>
        ensures { IfOk result (λ told. (texts : List (List ℕ)) (wanted : List ℕ) → IsTable texts wanted self.now → All (IsToldUse wanted) findings.now → told ≡ map (told_use texts) findings.now) }
    {
        let mut told = Listed::new(alloc);
        for finding in findings {
            told.push(self.finding(*finding))?;
        }
        Ok(told)
    }
}
