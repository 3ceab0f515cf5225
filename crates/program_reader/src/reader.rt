// How far a text was read.

ghost use Rattle.std.specs.Prelude.{◌≡◌, ◌≤◌, ◌&&◌, Bool, not, codes, length, IfOk, IfNone, OnOk};
ghost use Rattle.std.specs.Str.{is_utf8};
ghost use Rattle.text_lines.specs.Lines.{lines_of, words_of, most_bytes};
ghost use Rattle.program_reader.specs.Names.{is_noted};
ghost use Rattle.program_reader.specs.Sense.{only_name, OutlineIsSmall};
ghost use Rattle.program_reader.specs.Around.{is_open_after};
ghost use Rattle.program_reader.specs.Fault.{line_cause, is_misplaced, has_wrong_operand, is_begin, names_no_function, names_no_label, fault_on};

use crate::cause::Cause;
use crate::head::Head;
use crate::labels::{Labels, read_labels};
use crate::operands::read_only_name;
use crate::outline::split_line;
use crate::sense::{Outline, Sense, read_operands};
use hh_lang::{Fun, Instr, Line};
use plain_vec::Listed;
use std::alloc::{AllocError, Global};
use std::mem;

/// The most functions of a text.
pub const FUNCTION_LIMIT: usize = 1024;

/// The most instructions of a text.
pub const ORDER_LIMIT: u32 = 65536;

/// What the lines so far made: the functions that are closed, and the open one.
#[derive(Drop)]
pub(crate) struct Reader<'a> {
    /// Whether a function is open.
    pub inside: bool,
    /// The number of functions begun.
    pub begun: usize,
    /// The number of labels passed in the open function.
    pub labeled: usize,
    /// The number of instructions passed.
    pub orders: u32,
    /// All labels of the open function.
    pub labels: Labels<'a>,
    /// The open function's name, and its code so far.
    pub name: Listed<u8>,
    pub code: Listed<Line>,
    pub done: Listed<Fun>,
}

// Whether a line of this kind isn't allowed here.
fn misplaced(inside: bool, head: Head) -> bool
    ensures { result ≡ is_misplaced inside head }
{
    match head {
        Head::Blank | Head::Begin => false,
        Head::Unknown => true,
        _ => !inside,
    }
}

fn wrong_operand(sense: &Sense) -> bool
    ensures { result ≡ has_wrong_operand sense.now }
{
    matches!(sense, Sense::WrongOperand)
}

fn no_function(sense: &Sense) -> bool
    ensures { result ≡ names_no_function sense.now }
{
    matches!(sense, Sense::NoSuchFunction)
}

fn no_label(sense: &Sense) -> bool
    ensures { result ≡ names_no_label sense.now }
{
    matches!(sense, Sense::NoSuchLabel)
}

/// Whether a line of this kind begins a function.
pub fn begins_function(head: Head) -> bool
    ensures { result ≡ is_begin head }
{
    matches!(head, Head::Begin)
}

/// Whether a function is open after a line of this kind.
pub fn open_after(head: Head, inside: bool) -> bool
    ensures { result ≡ is_open_after head inside }
{
    match head {
        Head::Begin => true,
        Head::End => false,
        _ => inside,
    }
}

/// Whether bytes are UTF-8.
pub fn is_text(line: &[u8]) -> bool
    ensures { result ≡ is_utf8 line.now }
{
    match str::from_utf8(line) {
        Ok(_) => true,
        Err(_) => false,
    }
}

// Whether no line follows, and no function is main.
fn main_is_missing(outline: &Outline<'_>, last: bool) -> bool
    ensures { result ≡ (last && not (is_noted outline.now.functions (codes "main"))) }
{
    last && !outline.functions.has(b"main")
}

impl<'a> Reader<'a> {
    ghost use Rattle.program_reader.specs.Fault.{leaves_open, is_second, is_too_many};
    ghost use Rattle.program_reader.specs.Reading.{spot_in, after_begin, after_end, after_order, after_line, line_taken, IsCounted};

    // Whether a function is open when none may be.
    fn stays_open(&self, head: Head, last: bool) -> bool
        ensures { (o : Outline) → result ≡ leaves_open (spot_in o self.now last) head }
    {
        (self.inside && begins_function(head)) || (last && open_after(head, self.inside))
    }

    // Whether a line gives a name that occurs above.
    fn is_again(&self, outline: &Outline<'_>, head: Head, rest: &[u8]) -> bool
        ensures { (last : Bool) → result ≡ is_second (spot_in outline.now self.now last) head (words_of rest.now) }
    {
        let Some(name) = read_only_name(rest) else {
            return false;
        };
        match head {
            Head::Begin => outline.functions.has_among_first(self.begun, name),
            Head::Label => self.labels.entries.has_among_first(self.labeled, name),
            _ => false,
        }
    }

    // Whether a line exceeds a limit.
    fn passes_limit(&self, head: Head) -> bool
        ensures { (o : Outline) (last : Bool) → result ≡ is_too_many (spot_in o self.now last) head }
    {
        match head {
            Head::Begin => self.begun >= FUNCTION_LIMIT,
            Head::Order(_) => self.orders >= ORDER_LIMIT,
            _ => false,
        }
    }

    // The first cause on a line that is UTF-8, if it has a fault.
    fn fault(
        &self,
        outline: &Outline<'_>,
        head: Head,
        rest: &[u8],
        sense: &Sense,
        last: bool,
    ) -> Option<Cause>
        ensures { result ≡ line_cause outline.now (spot_in outline.now self.now last) head (words_of rest.now) sense.now }
    {
        if misplaced(self.inside, head) {
            Some(Cause::Word)
        } else if wrong_operand(sense) {
            Some(Cause::Operand)
        } else if self.stays_open(head, last) {
            Some(Cause::NoEnd)
        } else if self.is_again(outline, head, rest) {
            Some(Cause::TwoNames)
        } else if no_function(sense) {
            Some(Cause::NoName)
        } else if no_label(sense) {
            Some(Cause::NoLabel)
        } else if main_is_missing(outline, last) {
            Some(Cause::NoMain)
        } else if self.passes_limit(head) {
            Some(Cause::TooMany)
        } else {
            None
        }
    }

    // Begins a function, given the rest of its line and the lines below.
    fn begin(&mut self, alloc: Global, rest: &[u8], below: &'a [u8]) -> Result<(), AllocError>
        requires counted { IsCounted self.old }
        requires sized { length below.now ≤ most_bytes }
        ensures { OnOk result (self.new ≡ after_begin self.old (only_name (words_of rest.now)) (lines_of below.now)) }
    {
        let Some(name) = read_only_name(rest) else {
            return Ok(());
        };
        let name = Listed::from_vec(name.to_vec(alloc)?);
        let labels = read_labels(alloc, below)?;
        self.inside = true;
        self.begun += 1;
        self.labeled = 0;
        self.labels = labels;
        self.name = name;
        self.code = Listed::new(alloc);
        Ok(())
    }

    // Ends the open function with a return on this line.
    fn end(&mut self, alloc: Global, number: u32) -> Result<(), AllocError>
        ensures { OnOk result (self.new ≡ after_end self.old number) }
    {
        let name = mem::replace(&mut self.name, Listed::new(alloc));
        let mut code = mem::replace(&mut self.code, Listed::new(alloc));
        code.push(Line {
            instr: Instr::Ret,
            number,
        })?;
        self.done.push(Fun { name, code })?;
        self.inside = false;
        Ok(())
    }

    // Adds the instruction of this line.
    fn order(&mut self, sense: &Sense, number: u32) -> Result<(), AllocError>
        requires { IsCounted self.old }
        ensures { OnOk result (self.new ≡ after_order self.old sense.now number) }
    {
        match sense {
            Sense::Does(instr) => {
                self.code.push(Line {
                    instr: *instr,
                    number,
                })?;
                self.orders += 1;
                Ok(())
            }
            _ => Ok(()),
        }
    }

    // Takes a line without a fault.
    fn take_line(
        &mut self,
        alloc: Global,
        head: Head,
        rest: &[u8],
        sense: &Sense,
        number: u32,
        below: &'a [u8],
    ) -> Result<(), AllocError>
        requires counted { IsCounted self.old }
        requires sized { length below.now ≤ most_bytes }
        ensures { OnOk result (self.new ≡ after_line self.old head (words_of rest.now) sense.now number (lines_of below.now)) }
    {
        match head {
            Head::Begin => self.begin(alloc, rest, below),
            Head::End => self.end(alloc, number),
            Head::Label => {
                self.labeled += 1;
                Ok(())
            }
            Head::Order(_) => self.order(sense, number),
            _ => Ok(()),
        }
    }

    /// Takes a line, or returns its first cause, and then takes nothing.
    pub(crate) fn read_line(
        &mut self,
        alloc: Global,
        outline: &Outline<'_>,
        number: u32,
        line: &[u8],
        last: bool,
        below: &'a [u8],
    ) -> Result<Option<Cause>, AllocError>
        requires counted { IsCounted self.old }
        requires small { OutlineIsSmall outline.now }
        requires sized { length below.now ≤ most_bytes }
        ensures fault { IfOk result (λ fault. fault ≡ fault_on outline.now (spot_in outline.now self.old last) line.now) }
        ensures taken { IfOk result (λ fault. IfNone fault (self.new ≡ line_taken outline.now self.old number line.now (lines_of below.now))) }
    {
        if !is_text(line) {
            return Ok(Some(Cause::NotUtf8));
        }
        let (head, rest) = split_line(line);
        let sense = read_operands(outline, &self.labels.entries, head, rest);
        match self.fault(outline, head, rest, &sense, last) {
            Some(cause) => Ok(Some(cause)),
            None => {
                self.take_line(alloc, head, rest, &sense, number, below)?;
                Ok(None)
            }
        }
    }
}
