// Reads a whole text.

ghost use Rattle.std.specs.Prelude.{◌≡◌, ◌≤◌, length, IfOk, IfNone};
ghost use Rattle.hh_lang.specs.Form.{IsProgram};
ghost use Rattle.text_lines.specs.Lines.{lines_of, most_bytes};
ghost use Rattle.program_reader.specs.Sense.{OutlineIsSmall};
ghost use Rattle.program_reader.specs.Around.{no_names, outline_of};
ghost use Rattle.program_reader.specs.Fault.{first_fault};
ghost use Rattle.program_reader.specs.Program.{reading_of, unless_refused, functions_from};
ghost use Rattle.program_reader.specs.Reading.{program_in, nothing_read};

use crate::cause::TextFault;
use crate::labels::Labels;
use crate::loops::{add_loops, number_in};
use crate::reader::Reader;
use crate::sense::Outline;
use hh_lang::{Fun, Program};
use plain_vec::Listed;
use std::alloc::{AllocError, Global};
use text_lines::{behind, line_end};

// Nothing was read yet.
fn new_reader<'a>(alloc: Global) -> Reader<'a>
    ensures { result ≡ nothing_read }
{
    Reader {
        inside: false,
        begun: 0,
        labeled: 0,
        orders: 0,
        labels: Labels::new(alloc),
        name: Listed::new(alloc),
        code: Listed::new(alloc),
        done: Listed::new(alloc),
    }
}

// The program of these functions and those of the loops.
fn finish(
    alloc: Global,
    outline: &Outline<'_>,
    mut functions: Listed<Fun>,
) -> Result<Program, AllocError>
    requires small { OutlineIsSmall outline.now }
    requires form { IsProgram (program_in outline.now functions) }
    ensures { IfOk result (λ p. p ≡ program_in outline.now functions) }
{
    add_loops(alloc, outline, &mut functions)?;
    Ok(Program::new(functions, number_in(outline, b"main")))
}

// The result for a text with this first fault, or otherwise these functions.
fn reading_by(
    alloc: Global,
    outline: &Outline<'_>,
    fault: Option<TextFault>,
    functions: Listed<Fun>,
) -> Result<Result<Program, TextFault>, AllocError>
    requires small { OutlineIsSmall outline.now }
    requires form { IfNone fault (IsProgram (program_in outline.now functions)) }
    ensures { IfOk result (λ reading. reading ≡ unless_refused fault (program_in outline.now functions)) }
{
    match fault {
        Some(refused) => Ok(Err(refused)),
        None => Ok(Ok(finish(alloc, outline, functions)?)),
    }
}

// Takes the lines of a text up to its first fault.
fn read_lines<'a>(
    alloc: Global,
    outline: &Outline<'_>,
    reader: &mut Reader<'a>,
    text: &'a [u8],
) -> Result<Option<TextFault>, AllocError>
    requires sized { length text.now ≤ most_bytes }
    requires outline { outline.now ≡ outline_of text.now }
    requires small { OutlineIsSmall outline.now }
    requires nothing { reader.old ≡ nothing_read }
    ensures fault { IfOk result (λ fault. fault ≡ first_fault text.now) }
    ensures form { IfOk result (λ fault. IfNone fault (IsProgram (program_in outline.now reader.new.done))) }
    ensures functions { IfOk result (λ fault. IfNone fault (reader.new.done ≡ functions_from outline.now 1 (lines_of text.now))) }
{
    let mut rest = text;
    let mut number: u32 = 1;
    loop {
        let end = line_end(rest);
        let last = end == rest.len();
        let below = behind(rest, end);
        let line = &rest[..end];
        match reader.read_line(alloc, outline, number, line, last, below)? {
            Some(cause) => {
                return Ok(Some(TextFault {
                    line: number,
                    cause,
                }));
            }
            None if last => return Ok(None),
            None => {
                rest = below;
                number += 1;
            }
        }
    }
}

// Reads the program of a text with this outline.
fn read_by(
    alloc: Global,
    outline: &Outline<'_>,
    text: &[u8],
) -> Result<Result<Program, TextFault>, AllocError>
    requires sized { length text.now ≤ most_bytes }
    requires outline { outline.now ≡ outline_of text.now }
    requires small { OutlineIsSmall outline.now }
    ensures { IfOk result (λ reading. reading ≡ reading_of text.now) }
{
    let mut reader = new_reader(alloc);
    let fault = read_lines(alloc, outline, &mut reader, text)?;
    reading_by(alloc, outline, fault, reader.done)
}

// Reads the program of a text; what its lines name is read first.
fn read_onto<'a>(
    alloc: Global,
    outline: &mut Outline<'a>,
    text: &'a [u8],
) -> Result<Result<Program, TextFault>, AllocError>
    requires sized { length text.now ≤ most_bytes }
    requires nothing { outline.old ≡ no_names }
    ensures { IfOk result (λ reading. reading ≡ reading_of text.now) }
{
    outline.add_lines(text)?;
    read_by(alloc, outline, text)
}

/// Reads a program: the program that the text is, or the first line with a fault and its first cause. Fails if out of
/// memory.
pub fn read_program(alloc: Global, text: &[u8]) -> Result<Result<Program, TextFault>, AllocError>
    requires { length text.now ≤ most_bytes }
    ensures { IfOk result (λ reading. reading ≡ reading_of text.now) }
{
    let mut outline = Outline::new(alloc);
    read_onto(alloc, &mut outline, text)
}
