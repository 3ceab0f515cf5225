// What the pieces of a log tell of its strands and tasks.

ghost use Rattle.std.specs.Prelude.{◌≡◌, ◌==◌, ◌||◌, ◌&&◌, ◌++◌, ℕ, [], List, Some, OnOk, IfOk, true, is_some};
ghost use Rattle.std.specs.List.{list_any};
ghost use Rattle.log_lines.specs.Grammar.{line_of};
ghost use Rattle.log_form.specs.Events.{Event};
ghost use Rattle.log_form.specs.Faults.{spawns};
ghost use Rattle.log_pieces.specs.Pieces.{act_said, acts_in, on_strand, events_of_pieces};
ghost use Rattle.log_tasks.specs.Ends.{end_by, first_end};
ghost use Rattle.log_tasks.specs.Told.{KnowsEvents, NotesTasks, is_told, greater, index_of, index_if, end_told, top_told, task_told, end_after};

use crate::ending::StrandEnd;
use crate::numbers::is_own_place;
use fork_graph::{GraphStrand, GraphTurn};
use log_lines::{Act, LogLine, begins_with, next_line, read_line};
use log_pieces::{LogPiece, StrandHasher, act_in, piece_lines};
use plain_vec::Listed;
use std::alloc::{AllocError, Global};
use std::collections::HashMap;
use std::hash::BuildHasherDefault;

/// What the pieces so far tell.
#[derive(Drop)]
pub(crate) struct Told {
    /// How strands end, by task and number.
    pub(crate) ends: HashMap<(u32, u32), StrandEnd, BuildHasherDefault<StrandHasher>>,
    /// The greatest number of a strand that does something, by task.
    pub(crate) tops: HashMap<u32, u32, BuildHasherDefault<StrandHasher>>,
    /// The root, the tasks that do something, and those that are spawned, some of them more than once.
    pub(crate) tasks: Listed<u32>,
}

// Whether a line is an act.
fn is_act(line: &[u8]) -> bool
    ensures { result ≡ is_told (act_said (line_of line.now)) }
{
    matches!(read_line(line), Ok(LogLine::Act(_)))
}

// Whether a text says an act.
fn is_told(text: &[u8]) -> bool
    ensures { result ≡ is_told (acts_in text.now) }
{
    let mut left = text;
    'lines: loop {
        let (line, rest) = next_line(left);
        if is_act(line) {
            return true;
        }
        match rest {
            None => return false,
            Some(rest) => left = rest,
        }
    }
}

// The same of a text of which it is known that it does, or nothing.
fn is_told_if(known: bool, text: &[u8]) -> bool
    requires { known ≡ true → is_told (acts_in text.now) ≡ true }
    ensures { result ≡ is_told (acts_in text.now) }
{
    if known {
        return true;
    }
    is_told(text)
}

fn either(one: bool, other: bool) -> bool
    ensures { result ≡ (one || other) }
{
    one || other
}

impl Told {
    /// Nothing is told; the root is there. There is room for the ends of as many strands.
    pub(crate) fn new(alloc: Global, strands: usize) -> Result<Told, AllocError>
        ensures { IfOk result (λ told. KnowsEvents told []) }
    {
        let mut tasks = Listed::new(alloc);
        tasks.push(0)?;
        Ok(Told {
            ends: HashMap::with_capacity_and_hasher(alloc, strands, BuildHasherDefault::new())?,
            tops: HashMap::with_hasher(alloc, BuildHasherDefault::new()),
            tasks,
        })
    }

    // A strand ends, unless it did before.
    fn end(&mut self, strand: GraphStrand, end: StrandEnd) -> Result<(), AllocError>
        ensures ends { OnOk result ((t i : ℕ) → end_told self.new t i ≡ end_after self.old strand (Some end) t i) }
        ensures rest { self.new ≡ record self.old { ends = self.new.ends } }
    {
        let key = (strand.task, strand.index);
        let before = self.ends.insert(key, end)?;
        if let Some(first) = before {
            self.ends.insert(key, first)?;
        }
        Ok(())
    }

    // A strand spawns a task.
    fn spawn(&mut self, strand: GraphStrand, child: u32) -> Result<(), AllocError>
        ensures ends { OnOk result ((t i : ℕ) → end_told self.new t i ≡ end_after self.old strand (Some (StrandEnd.Turns (GraphTurn.Spawn child))) t i) }
        ensures tasks { OnOk result ((t : ℕ) → task_told self.new t ≡ (task_told self.old t || (child == t))) }
        ensures tops { self.new.tops ≡ self.old.tops }
    {
        self.tasks.push(child)?;
        self.end(strand, StrandEnd::Turns(GraphTurn::Spawn(child)))
    }

    // A strand acts.
    fn take_act(&mut self, strand: GraphStrand, act: Act) -> Result<(), AllocError>
        ensures ends { OnOk result ((t i : ℕ) → end_told self.new t i ≡ end_after self.old strand (end_by act) t i) }
        ensures tasks { OnOk result ((t : ℕ) → task_told self.new t ≡ (task_told self.old t || spawns t act)) }
        ensures tops { self.new.tops ≡ self.old.tops }
    {
        match act {
            Act::Spawn(child) => self.spawn(strand, child),
            Act::Join(child) => self.end(strand, StrandEnd::Turns(GraphTurn::Join(child))),
            Act::Finish => self.end(strand, StrandEnd::Finishes),
            Act::Access(_)
            | Act::Yield(_)
            | Act::Store(_)
            | Act::Birth { .. }
            | Act::Release(_)
            | Act::Work(_) => Ok(()),
        }
    }

    // A line of a piece; whether it ends the strand.
    fn take_line(&mut self, strand: GraphStrand, line: &[u8]) -> Result<bool, AllocError>
        ensures ends { OnOk result ((t i : ℕ) → end_told self.new t i ≡ end_after self.old strand (first_end (act_said (line_of line.now))) t i) }
        ensures tasks { OnOk result ((t : ℕ) → task_told self.new t ≡ (task_told self.old t || list_any (spawns t) (act_said (line_of line.now)))) }
        ensures tops { self.new.tops ≡ self.old.tops }
        ensures told { IfOk result (λ ends. ends ≡ true → is_told (act_said (line_of line.now)) ≡ true) }
    {
        if !begins_with(line, b"+-.") {
            return Ok(false);
        }
        match act_in(line) {
            Some(act) => {
                self.take_act(strand, act)?;
                Ok(true)
            }
            None => Ok(false),
        }
    }

    // The lines of a piece; whether one of them ends the strand.
    fn take_lines(&mut self, strand: GraphStrand, text: &[u8]) -> Result<bool, AllocError>
        ensures ends { OnOk result ((t i : ℕ) → end_told self.new t i ≡ end_after self.old strand (first_end (acts_in text.now)) t i) }
        ensures tasks { OnOk result ((t : ℕ) → task_told self.new t ≡ (task_told self.old t || list_any (spawns t) (acts_in text.now))) }
        ensures tops { self.new.tops ≡ self.old.tops }
        ensures told { IfOk result (λ ends. ends ≡ true → is_told (acts_in text.now) ≡ true) }
    {
        let mut left = text;
        let mut ends = false;
        'lines: loop {
            let (line, rest) = next_line(left);
            let here = self.take_line(strand, line)?;
            ends = either(ends, here);
            match rest {
                None => return Ok(ends),
                Some(rest) => left = rest,
            }
        }
    }

    // A strand's number is noted; the greatest one of its task's before.
    fn raise(&mut self, strand: GraphStrand) -> Result<Option<u32>, AllocError>
        ensures before { IfOk result (λ before. before ≡ top_told self.old strand.task) }
        ensures tops { OnOk result ((t : ℕ) → top_told self.new t ≡ greater (top_told self.old t) (index_of strand t)) }
        ensures rest { self.new ≡ record self.old { tops = self.new.tops } }
    {
        let before = self.tops.insert(strand.task, strand.index)?;
        if let Some(top) = before
            && strand.index < top
        {
            self.tops.insert(strand.task, top)?;
        }
        Ok(before)
    }

    // A task does something; one of which a strand did so before is there already.
    fn note_task(&mut self, task: u32, before: Option<u32>) -> Result<(), AllocError>
        requires { is_some before ≡ true → task_told self.old task ≡ true }
        ensures tasks { OnOk result ((t : ℕ) → task_told self.new t ≡ (task_told self.old t || (task == t))) }
        ensures rest { self.new ≡ record self.old { tasks = self.new.tasks } }
    {
        if before.is_some() {
            return Ok(());
        }
        if is_own_place(self.tasks.as_slice(), task) {
            return Ok(());
        }
        self.tasks.push(task)
    }

    // A strand does something.
    fn note(&mut self, strand: GraphStrand) -> Result<(), AllocError>
        requires { NotesTasks self.old }
        ensures tops { OnOk result ((t : ℕ) → top_told self.new t ≡ greater (top_told self.old t) (index_of strand t)) }
        ensures tasks { OnOk result ((t : ℕ) → task_told self.new t ≡ (task_told self.old t || (strand.task == t))) }
        ensures ends { self.new.ends ≡ self.old.ends }
    {
        let before = self.raise(strand)?;
        self.note_task(strand.task, before)
    }

    // A strand does something, or nothing.
    fn note_if(&mut self, strand: GraphStrand, told: bool) -> Result<(), AllocError>
        requires { NotesTasks self.old }
        ensures tops { OnOk result ((t : ℕ) → top_told self.new t ≡ greater (top_told self.old t) (index_if told strand t)) }
        ensures tasks { OnOk result ((t : ℕ) → task_told self.new t ≡ (task_told self.old t || (told && (strand.task == t)))) }
        ensures ends { self.new.ends ≡ self.old.ends }
    {
        if told {
            self.note(strand)?;
        }
        Ok(())
    }

    // A piece of a strand, by its text.
    fn take_piece(&mut self, strand: GraphStrand, text: &[u8]) -> Result<(), AllocError>
        requires { (events : List Event) × KnowsEvents self.old events }
        ensures { OnOk result ((events : List Event) → KnowsEvents self.old events → KnowsEvents self.new (events ++ on_strand strand (acts_in text.now))) }
    {
        let ends = self.take_lines(strand, text)?;
        let told = is_told_if(ends, text);
        self.note_if(strand, told)
    }

    /// All pieces of texts.
    pub(crate) fn take_pieces(
        &mut self,
        texts: &[Listed<u8>],
        pieces: &[LogPiece],
    ) -> Result<(), AllocError>
        requires { KnowsEvents self.old [] }
        ensures { OnOk result (KnowsEvents self.new (events_of_pieces texts.now pieces.now)) }
    {
        for piece in pieces {
            let text = piece_lines(texts, *piece);
            self.take_piece(piece.strand, text)?;
        }
        Ok(())
    }
}
