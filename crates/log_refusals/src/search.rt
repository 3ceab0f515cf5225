// The line at which a strand acts last.

ghost use Rattle.std.specs.Prelude.{◌≡◌, ◌≤◌, ◌<◌, ◌+◌, ◌^◌, ℕ, None, IfSome, fold, option_map, if◌then◌else◌};
ghost use Rattle.log_lines.specs.Grammar.{line_of};
ghost use Rattle.log_form.specs.Text.{lines_in};
ghost use Rattle.log_form.specs.Events.{strand_behind};
ghost use Rattle.log_refusals.specs.Placed.{placed_act, placed_said, placed_lines, here_behind_act, here_behind, later_of, last_line};
ghost use Rattle.log_refusals.specs.Search.{open_strand, is_here, IsUpTo};

use fork_graph::GraphStrand;
use log_form::LogPosition;
use log_lines::{Act, LogLine, read_line};
use plain_vec::Listed;
use text_lines::next_line;

/// The strand on which a line stands.
#[derive(Clone, Copy)]
pub(crate) struct Open {
    pub(crate) task: u32,
    pub(crate) index: u64,
}

/// How far a search for the lines of a strand has come.
#[derive(Clone, Copy)]
pub(crate) struct Search {
    pub(crate) strand: GraphStrand,
    pub(crate) here: Option<Open>,
    /// The last line at which the strand acts.
    pub(crate) found: Option<LogPosition>,
}

// The strand that is open behind an act of the one that is open.
fn strand_behind(here: Open, act: Act) -> Option<Open>
    requires { here.index < 2 ^ 63 + 2 ^ 62 }
    ensures behind { option_map open_strand result ≡ strand_behind (open_strand here) act }
    ensures next { IfSome result (λ h. h.index ≤ here.index + 1) }
{
    match act {
        Act::Spawn(_) | Act::Join(_) => Some(Open {
            task: here.task,
            index: here.index + 1,
        }),
        Act::Finish => None,
        Act::Access(_)
        | Act::Yield(_)
        | Act::Store(_)
        | Act::Birth { .. }
        | Act::Release(_)
        | Act::Work(_) => Some(here),
    }
}

// Whether this is the strand.
fn is_here(strand: GraphStrand, here: Open) -> bool
    ensures { result ≡ is_here strand (open_strand here) }
{
    here.task == strand.task && here.index == strand.index as u64
}

impl Search {
    // The open strand acts.
    fn take_act(&mut self, at: LogPosition, here: Open, act: Act)
        requires { here.index < 2 ^ 63 + 2 ^ 62 }
        ensures here { option_map open_strand self.new.here ≡ strand_behind (open_strand here) act }
        ensures next { IfSome self.new.here (λ h. h.index ≤ here.index + 1) }
        ensures found { self.new.found ≡ (if is_here self.old.strand (open_strand here) then Some at else self.old.found) }
        ensures strand { self.new.strand ≡ self.old.strand }
    {
        if is_here(self.strand, here) {
            self.found = Some(at);
        }
        self.here = strand_behind(here, act);
    }

    // The open strand acts, if one is open.
    fn take_open(&mut self, at: LogPosition, act: Act)
        requires { IsUpTo (2 ^ 63 + 2 ^ 61) self.old.here }
        ensures here { option_map open_strand self.new.here ≡ here_behind_act (option_map open_strand self.old.here) act }
        ensures next { (n : ℕ) → IsUpTo n self.old.here → IsUpTo (n + 1) self.new.here }
        ensures found { self.new.found ≡ fold (later_of self.old.strand) self.old.found (placed_act at (option_map open_strand self.old.here) act) }
        ensures strand { self.new.strand ≡ self.old.strand }
    {
        match self.here {
            Some(here) => self.take_act(at, here, act),
            None => {}
        }
    }

    // A strand is opened.
    fn open(&mut self, task: u32, index: u32)
        ensures { self.new ≡ record self.old { here = Some (record { task = task; index = index }) } }
    {
        self.here = Some(Open {
            task,
            index: index as u64,
        });
    }

    // A line.
    fn take_line(&mut self, at: LogPosition, line: &[u8])
        requires { IsUpTo (2 ^ 63 + 2 ^ 61) self.old.here }
        ensures here { option_map open_strand self.new.here ≡ here_behind (option_map open_strand self.old.here) (line_of line.now) }
        ensures next { (n : ℕ) → 2 ^ 31 ≤ n → IsUpTo n self.old.here → IsUpTo (n + 1) self.new.here }
        ensures found { self.new.found ≡ fold (later_of self.old.strand) self.old.found (placed_said at (option_map open_strand self.old.here) (line_of line.now)) }
        ensures strand { self.new.strand ≡ self.old.strand }
    {
        match read_line(line) {
            Ok(LogLine::Strand { task, strand }) => self.open(task, strand),
            Ok(LogLine::Act(act)) => self.take_open(at, act),
            Ok(LogLine::Version) => {}
            Ok(LogLine::Name(_)) => {}
            Ok(LogLine::Comment) => {}
            Ok(LogLine::End) => {}
            Err(_) => {}
        }
    }

    // The lines of a file.
    fn take_text(&mut self, file: usize, text: &[u8])
        ensures found { self.new.found ≡ fold (later_of self.old.strand) self.old.found (placed_lines file None 1 (lines_in text.now)) }
        ensures strand { self.new.strand ≡ self.old.strand }
    {
        self.here = None;
        let mut left = text;
        let mut line = 1;
        'lines: loop {
            let (first, rest) = next_line(left);
            match rest {
                None => return,
                Some(rest) => {
                    self.take_line(LogPosition { file, line }, first);
                    left = rest;
                    line += 1;
                }
            }
        }
    }
}

/// The last line, in the order of files, that says what a strand does.
pub fn last_line(texts: &[Listed<u8>], strand: GraphStrand) -> Option<LogPosition>
    ensures { result ≡ last_line texts.now strand }
{
    let mut search = Search {
        strand,
        here: None,
        found: None,
    };
    for (file, text) in texts.iter().enumerate() {
        search.take_text(file, text.as_slice());
    }
    search.found
}
