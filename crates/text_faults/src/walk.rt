// What the lines above a line say, and all that is wrong on the line.

ghost use Rattle.std.specs.Prelude.{◌≡◌, [], option_map};
ghost use Rattle.text_faults.specs.WordFault.{wronged_of, if_read};

use crate::fault::{Fault, Operand, Wrong};
use crate::found::{WordFault, first_wrong, misplaced, word_place, wrong_at, wrong_if};
use crate::near::{nearest_begin, nearest_line_word, nearest_name, own, own_if};
use crate::parsed::Parsed;
use crate::placed::next_placed;
use plain_vec::Listed;
use program_reader::{
    FUNCTION_LIMIT, Head, Labels, NameTable, ORDER_LIMIT, Outline, begins_function, is_text,
    note_if, open_after, read_labels,
};
use std::alloc::{AllocError, Global};

/// The labels of the open function: those above, each with its line, and all of them.
#[derive(Drop)]
pub(crate) struct BodyLabels<'a> {
    pub above: NameTable<'a>,
    pub all: Labels<'a>,
}

/// What the lines above say.
#[derive(Drop)]
pub(crate) struct LinesAbove<'a> {
    /// Whether a function is open.
    pub inside: bool,
    /// How many functions began.
    pub begun: usize,
    /// How many instructions were passed.
    pub orders: usize,
    /// The functions of the whole text.
    pub outline: Outline<'a>,
    /// The functions above, each with its line.
    pub named: NameTable<'a>,
    pub labels: BodyLabels<'a>,
}

fn not_utf8<'a>() -> WordFault<'a>
    ensures { wronged_of result ≡ record { column = 1; word = []; wrong = Wrong.NotUtf8 } }
{
    WordFault {
        column: 1,
        word: b"",
        wrong: Wrong::NotUtf8,
    }
}

// What is wrong on a line that can be read.
fn if_read<'a>(
    unreadable: Option<WordFault<'_>>,
    found: Option<WordFault<'a>>,
) -> Option<WordFault<'a>>
    ensures { option_map wronged_of result ≡ if_read (option_map wronged_of unreadable.entry) (option_map wronged_of found.entry) }
{
    match unreadable {
        Some(_) => None,
        None => found,
    }
}

impl<'a> BodyLabels<'a> {
    ghost use Rattle.program_reader.specs.Around.{no_labels};

    /// No labels.
    pub(crate) fn new(alloc: Global) -> BodyLabels<'a>
        ensures { result ≡ record { above = []; all = no_labels } }
    {
        BodyLabels {
            above: NameTable::new(alloc),
            all: Labels::new(alloc),
        }
    }
}

impl<'a> LinesAbove<'a> {
    ghost use Rattle.std.specs.Prelude.{◌≡◌, ◌≤◌, ◌++◌, [], length, map, option_map, IfOk, OnOk};
    ghost use Rattle.text_lines.specs.Lines.{lines_of, most_bytes};
    ghost use Rattle.text_faults.specs.Placed.{placed_words};
    ghost use Rattle.text_faults.specs.Lines.{head_of, form_of, first_placed_word, behind_first};
    ghost use Rattle.text_faults.specs.Parsed.{IsParse};
    ghost use Rattle.text_faults.specs.WordFault.{wronged_of, unreadable, nested, left_open, name_wrong, first_misnamed, main_missing, too_many, with_wronged};
    ghost use Rattle.text_faults.specs.Near.{meant};
    ghost use Rattle.text_faults.specs.Faults.{fault_of, faults_on, walked, walked_by};
    ghost use Rattle.text_faults.specs.Counted.{CountsLinesAbove};

    // What makes a line unreadable.
    fn unreadable<'b>(&self, parsed: &Parsed<'b>) -> Option<WordFault<'b>>
        requires { IsParse parsed.now }
        ensures { option_map wronged_of result ≡ unreadable self.now.inside parsed.now.line.now (placed_words parsed.now.line.now) }
    {
        if !is_text(parsed.line) {
            return Some(not_utf8());
        }
        match misplaced(self.inside, parsed.head) {
            Some(wrong) => Some(wrong_at(parsed.first, wrong)),
            None => first_wrong(parsed),
        }
    }

    // A function that begins in another one.
    fn nested<'b>(&self, parsed: &Parsed<'b>) -> Option<WordFault<'b>>
        requires { IsParse parsed.now }
        ensures { option_map wronged_of result ≡ nested self.now (placed_words parsed.now.line.now) }
    {
        let test = self.inside && begins_function(parsed.head);
        wrong_if(test, parsed.first, Wrong::InsideFunction)
    }

    // A function that is open after the last line.
    fn left_open<'b>(&self, parsed: &Parsed<'b>, last: bool) -> Option<WordFault<'b>>
        requires { IsParse parsed.now }
        ensures { option_map wronged_of result ≡ left_open self.now last (placed_words parsed.now.line.now) }
    {
        let test = last && open_after(parsed.head, self.inside);
        wrong_if(test, word_place(parsed.first), Wrong::OpenFunction)
    }

    // Why an operand of this kind may not be this name.
    fn name_wrong(&self, operand: Operand, name: &[u8]) -> Option<Wrong>
        ensures { result ≡ name_wrong self.now operand name.now }
    {
        match operand {
            Operand::Function if self.outline.functions.has(name) => None,
            Operand::Function => Some(Wrong::UnknownFunction),
            Operand::Label if self.labels.all.entries.has(name) => None,
            Operand::Label => Some(Wrong::UnknownLabel),
            Operand::NewFunction => Some(Wrong::SecondFunction(self.named.number(name)?)),
            Operand::NewLabel => Some(Wrong::SecondLabel(self.labels.above.number(name)?)),
            _ => None,
        }
    }

    // The first operand whose name is wrong.
    fn first_misnamed<'b>(&self, parsed: &Parsed<'b>) -> Option<WordFault<'b>>
        requires { IsParse parsed.now }
        ensures { option_map wronged_of result ≡ first_misnamed self.now (form_of (placed_words parsed.now.line.now)) (behind_first (placed_words parsed.now.line.now)) }
    {
        let line = parsed.line;
        let mut form = parsed.form;
        let mut at = parsed.rest;
        while let [operand, others @ ..] = form {
            let (placed, next) = next_placed(line, at)?;
            if let Some(wrong) = self.name_wrong(*operand, placed.word) {
                return Some(wrong_at(placed, wrong));
            }
            at = next;
            form = others;
        }
        None
    }

    // No line follows, and no function is main.
    fn main_missing<'b>(&self, parsed: &Parsed<'b>, last: bool) -> Option<WordFault<'b>>
        requires { IsParse parsed.now }
        ensures { option_map wronged_of result ≡ main_missing self.now last (placed_words parsed.now.line.now) }
    {
        let test = last && !self.outline.functions.has(b"main");
        wrong_if(test, word_place(parsed.first), Wrong::NoMain)
    }

    // The line is one more than there may be.
    fn too_many<'b>(&self, parsed: &Parsed<'b>) -> Option<WordFault<'b>>
        requires { IsParse parsed.now }
        ensures { option_map wronged_of result ≡ too_many self.now (head_of (placed_words parsed.now.line.now)) (first_placed_word (placed_words parsed.now.line.now)) }
    {
        match parsed.head {
            Head::Begin => {
                let test = self.begun >= FUNCTION_LIMIT;
                wrong_if(test, parsed.first, Wrong::ManyFunctions)
            }
            Head::Order(_) => {
                let test = self.orders >= ORDER_LIMIT as usize;
                wrong_if(test, parsed.first, Wrong::ManyInstructions)
            }
            _ => None,
        }
    }

    // The word that may have been meant.
    fn meant(&self, alloc: Global, found: WordFault<'_>) -> Result<Option<Listed<u8>>, AllocError>
        ensures { IfOk result (λ o. o ≡ meant self.now found.entry.wrong found.entry.word.now) }
    {
        match found.wrong {
            Wrong::UnknownWord => own_if(alloc, nearest_line_word(found.word)),
            Wrong::OutsideFunction => own_if(alloc, nearest_begin(found.word)),
            Wrong::UnknownFunction => nearest_name(alloc, &self.outline.functions, found.word),
            Wrong::UnknownLabel => nearest_name(alloc, &self.labels.all.entries, found.word),
            _ => Ok(None),
        }
    }

    // Adds a fault, if something was found.
    fn add(
        &self,
        alloc: Global,
        faults: &mut Listed<Fault>,
        number: u32,
        found: Option<WordFault<'_>>,
    ) -> Result<(), AllocError>
        ensures { OnOk result (faults.new ≡ faults.old ++ map (fault_of self.now number) (with_wronged (option_map wronged_of found.entry) [])) }
    {
        let Some(found) = found else {
            return Ok(());
        };
        let near = self.meant(alloc, found)?;
        let word = own(alloc, found.word)?;
        faults.push(Fault {
            line: number,
            column: found.column,
            word,
            wrong: found.wrong,
            near,
        })
    }

    /// Adds the faults of a line.
    pub(crate) fn add_faults(
        &self,
        alloc: Global,
        faults: &mut Listed<Fault>,
        number: u32,
        last: bool,
        parsed: &Parsed<'_>,
    ) -> Result<(), AllocError>
        requires { IsParse parsed.now }
        ensures { OnOk result (faults.new ≡ faults.old ++ faults_on self.now number last parsed.now.line.now) }
    {
        let unreadable = self.unreadable(parsed);
        self.add(alloc, faults, number, unreadable)?;
        self.add(alloc, faults, number, self.nested(parsed))?;
        self.add(alloc, faults, number, self.left_open(parsed, last))?;
        self.add(
            alloc,
            faults,
            number,
            if_read(unreadable, self.first_misnamed(parsed)),
        )?;
        self.add(alloc, faults, number, self.main_missing(parsed, last))?;
        self.add(
            alloc,
            faults,
            number,
            if_read(unreadable, self.too_many(parsed)),
        )
    }

    // A function begins.
    fn begin(
        &mut self,
        alloc: Global,
        number: u32,
        parsed: &Parsed<'a>,
        below: &'a [u8],
    ) -> Result<(), AllocError>
        requires counted { CountsLinesAbove self.old }
        requires parsed { IsParse parsed.now }
        requires sized { length below.now ≤ most_bytes }
        ensures { OnOk result (self.new ≡ walked_by self.old number Head.Begin (behind_first (placed_words parsed.now.line.now)) (lines_of below.now)) }
    {
        let all = read_labels(alloc, below)?;
        note_if(&mut self.named, parsed.lone_name(), number)?;
        self.labels = BodyLabels {
            above: NameTable::new(alloc),
            all,
        };
        self.inside = true;
        self.begun += 1;
        Ok(())
    }

    /// Passes a line.
    pub(crate) fn pass(
        &mut self,
        alloc: Global,
        number: u32,
        parsed: &Parsed<'a>,
        below: &'a [u8],
    ) -> Result<(), AllocError>
        requires counted { CountsLinesAbove self.old }
        requires parsed { IsParse parsed.now }
        requires sized { length below.now ≤ most_bytes }
        ensures { OnOk result (self.new ≡ walked self.old number parsed.now.line.now (lines_of below.now)) }
    {
        match parsed.head {
            Head::Begin => self.begin(alloc, number, parsed, below),
            Head::End => {
                self.inside = false;
                Ok(())
            }
            Head::Label => note_if(&mut self.labels.above, parsed.lone_name(), number),
            Head::Order(_) => {
                self.orders += 1;
                Ok(())
            }
            _ => Ok(()),
        }
    }
}
