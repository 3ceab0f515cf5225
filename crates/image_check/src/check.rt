// Checks images.

ghost use Rattle.std.specs.Prelude.{◌≡◌, ◌≤◌, length, IfOk, IfErr, IfNone, IsErr, IsOkAnd, MatchResult, None};
ghost use Rattle.text_lines.specs.Lines.{lines_of, most_bytes};
ghost use Rattle.image_check.specs.Line.{line_meaning};
ghost use Rattle.image_check.specs.Read.{after_line, nothing_had, nothing_read, whole_of};
ghost use Rattle.image_check.specs.ImageFault.{cause_on, fault_from_line, after_lines, lines_fault, image_fault, objects_in, Reports, Verifies};

use crate::cause::{ImageCause, ImageFault};
use crate::faults::first_cause;
use crate::line::read_line;
use crate::read::Read;
use crate::whole::Whole;
use or_no_memory::OrNoMemory;
use std::alloc::{AllocError, Global};
use text_lines::{MOST_BYTES, next_line};

/// The most bytes of a text.
const TOO_LONG: ImageFault = ImageFault {
    line: 0,
    cause: ImageCause::TooLong,
};

// The first cause on a line, given what was read before; a line without one is read too.
fn check_line(
    alloc: Global,
    whole: &Whole,
    read: &mut Read,
    is_last: bool,
    line: &[u8],
) -> Result<Option<ImageCause>, AllocError>
    ensures cause { IfOk result (λ cause. cause ≡ cause_on whole.now read.old is_last (line_meaning line.now)) }
    ensures read { IfOk result (λ cause. IfNone cause (read.new ≡ after_line read.old (line_meaning line.now))) }
{
    let said = read_line(alloc, line)?;
    match first_cause(whole, read, is_last, &said) {
        Some(cause) => Ok(Some(cause)),
        None => {
            read.add(&said)?;
            Ok(None)
        }
    }
}

// The first fault of the lines of a text; without one all lines are read too.
fn check_lines(
    alloc: Global,
    whole: &Whole,
    read: &mut Read,
    text: &[u8],
) -> Result<Option<ImageFault>, AllocError>
    requires { length text.now ≤ most_bytes }
    ensures fault { IfOk result (λ fault. fault ≡ fault_from_line whole.now read.old 1 (lines_of text.now)) }
    ensures read { IfOk result (λ fault. IfNone fault (read.new ≡ after_lines read.old (lines_of text.now))) }
{
    let mut rest = text;
    let mut number: u32 = 1;
    loop {
        let (line, lines) = next_line(rest);
        match check_line(alloc, whole, read, lines.is_none(), line)? {
            Some(cause) => return Ok(Some(ImageFault {
                line: number,
                cause,
            })),
            None => {}
        }
        match lines {
            None => return Ok(None),
            Some(more) => rest = more,
        }
        number += 1;
    }
}

// Checks an image from its first line, given what the whole text says.
fn read_within(alloc: Global, whole: &Whole, text: &[u8]) -> Result<Read, OrNoMemory<ImageFault>>
    requires sized { length text.now ≤ most_bytes }
    requires whole { whole.now ≡ whole_of text.now }
    ensures read { IfOk result (λ read. (lines_fault text.now ≡ None) × (read ≡ after_lines nothing_read (lines_of text.now))) }
    ensures fault { IfErr result (Reports (lines_fault text.now)) }
{
    let mut read = Read::new(alloc);
    match check_lines(alloc, whole, &mut read, text)? {
        None => Ok(read),
        Some(fault) => Err(OrNoMemory::Refused(fault)),
    }
}

// The answer for a text with this first fault or this number of objects.
fn answer_to(
    fault: Result<Option<ImageFault>, AllocError>,
    objects: u64,
) -> Result<Result<u64, ImageFault>, AllocError>
    ensures { MatchResult fault (λ fault. IsOkAnd result (Verifies fault objects)) (λ error. IsErr result) }
{
    match fault? {
        Some(fault) => Ok(Err(fault)),
        None => Ok(Ok(objects)),
    }
}

// The number of objects or the first fault, given what the whole text says.
fn check_within(
    alloc: Global,
    whole: &Whole,
    text: &[u8],
) -> Result<Result<u64, ImageFault>, AllocError>
    requires sized { length text.now ≤ most_bytes }
    requires whole { whole.now ≡ whole_of text.now }
    ensures { IfOk result (Verifies (lines_fault text.now) (objects_in text.now)) }
{
    let mut read = Read::new(alloc);
    let fault = check_lines(alloc, whole, &mut read, text);
    answer_to(fault, read.objects.len() as u64)
}

// The number of objects or the first fault; reads what the whole text says first.
fn check_onto(
    alloc: Global,
    whole: &mut Whole,
    text: &[u8],
) -> Result<Result<u64, ImageFault>, AllocError>
    requires sized { length text.now ≤ most_bytes }
    requires nothing { whole.old ≡ nothing_had }
    ensures { IfOk result (Verifies (lines_fault text.now) (objects_in text.now)) }
{
    whole.add_lines(alloc, text)?;
    check_within(alloc, whole, text)
}

// The number of objects of a text, or its first fault.
fn check_text(alloc: Global, text: &[u8]) -> Result<Result<u64, ImageFault>, AllocError>
    requires { length text.now ≤ most_bytes }
    ensures { IfOk result (Verifies (lines_fault text.now) (objects_in text.now)) }
{
    let mut whole = Whole::new(alloc);
    check_onto(alloc, &mut whole, text)
}

/// Checks the text of an image: returns the number of objects, or the first fault.
pub fn verify(alloc: Global, text: &[u8]) -> Result<u64, OrNoMemory<ImageFault>>
    ensures verified { IfOk result (λ count. (image_fault text.now ≡ None) × (count ≡ objects_in text.now)) }
    ensures fault { IfErr result (Reports (image_fault text.now)) }
{
    if text.len() > MOST_BYTES {
        return Err(OrNoMemory::Refused(TOO_LONG));
    }
    match check_text(alloc, text)? {
        Ok(count) => Ok(count),
        Err(fault) => Err(OrNoMemory::Refused(fault)),
    }
}

// Reads an image that isn't too long.
fn read_text(alloc: Global, text: &[u8]) -> Result<Read, OrNoMemory<ImageFault>>
    requires { length text.now ≤ most_bytes }
    ensures read { IfOk result (λ read. (lines_fault text.now ≡ None) × (read ≡ after_lines nothing_read (lines_of text.now))) }
    ensures fault { IfErr result (Reports (lines_fault text.now)) }
{
    let mut whole = Whole::new(alloc);
    whole.add_lines(alloc, text)?;
    read_within(alloc, &whole, text)
}

/// Checks the text of an image: returns all that its lines say, or the first fault.
pub fn read_image(alloc: Global, text: &[u8]) -> Result<Read, OrNoMemory<ImageFault>>
    ensures read { IfOk result (λ read. (image_fault text.now ≡ None) × (read ≡ after_lines nothing_read (lines_of text.now))) }
    ensures fault { IfErr result (Reports (image_fault text.now)) }
{
    if text.len() > MOST_BYTES {
        return Err(OrNoMemory::Refused(TOO_LONG));
    }
    read_text(alloc, text)
}
