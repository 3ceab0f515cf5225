// Reads an input of a program and a trace.

ghost use Rattle.std.specs.Prelude.{◌≡◌, ◌≤◌, ◌+◌, length, IfOk, IfErr, None};
ghost use Rattle.text_lines.specs.Lines.{lines_of, most_bytes};
ghost use Rattle.run_trace.specs.Trace.{AreTraceLines};
ghost use Rattle.program_reader.specs.Program.{program_of};
ghost use Rattle.trace_input.specs.Cut.{program_part, trace_lines};
ghost use Rattle.or_no_memory.specs.Refusals.{Reports};
ghost use Rattle.trace_input.specs.Input.{IsInput, FailsTrace, input_fault, parts_fault, trace_bad};

use crate::cut::cut;
use crate::newer::is_newer;
use hh_lang::Program;
use or_no_memory::OrNoMemory;
use program_reader::{Cause, TextFault, read_program};
use run_trace::{Trace, Version, read_trace, read_version};
use std::alloc::{AllocError, Global};
use text_lines::{MOST_BYTES, next_line};

/// The refusal of a program with more bytes than its limit.
pub const TOO_LONG: TextFault = TextFault {
    line: 0,
    cause: Cause::TooLong,
};

/// What an input says.
#[derive(Drop)]
pub struct TraceInput {
    pub program: Program,
    pub trace: Trace,
}

/// The first fault of an input; those of the program come before those of the trace.
#[derive(Clone, Copy)]
pub enum InputFault {
    /// The program is refused.
    Source(TextFault),
    /// This line isn't one of a trace; it may be the trace line itself, or the last line if there is no trace line.
    BadLine(u32),
}

// The answer at a bad line.
fn bad_line_error(line: u32) -> OrNoMemory<InputFault>
    ensures { result ≡ OrNoMemory.Refused (InputFault.BadLine line) }
{
    OrNoMemory::Refused(InputFault::BadLine(line))
}

// The number of lines of a text.
fn count_lines(text: &[u8]) -> u32
    requires { length text.now ≤ most_bytes }
    ensures { result ≡ length (lines_of text.now) }
{
    let mut rest = text;
    let mut count: u32 = 1;
    loop {
        match next_line(rest).1 {
            None => return count,
            Some(below) => rest = below,
        }
        count += 1;
    }
}

// Reads a trace for a program; n is the number of the trace line.
fn read_for(
    alloc: Global,
    program: &Program,
    number: u32,
    text: &[u8],
) -> Result<Trace, OrNoMemory<InputFault>>
    requires sized { length text.now ≤ most_bytes }
    requires numbered { number ≤ most_bytes + 1 }
    ensures read { IfOk result (λ t. AreTraceLines (lines_of text.now) t × (trace_bad number program.now (lines_of text.now) ≡ None)) }
    ensures bad { IfErr result (λ e. FailsTrace (trace_bad number program.now (lines_of text.now)) e) }
{
    match read_version(next_line(text).0) {
        Some(Version::One) if is_newer(program) => return Err(bad_line_error(number)),
        _ => {}
    }
    match read_trace(alloc, text, number) {
        Ok(trace) => Ok(trace),
        Err(OrNoMemory::NoMemory) => Err(OrNoMemory::NoMemory),
        Err(OrNoMemory::Refused(line)) => Err(bad_line_error(line)),
    }
}

// Reads an input that isn't too long.
fn read_parts(alloc: Global, input: &[u8]) -> Result<TraceInput, OrNoMemory<InputFault>>
    requires { length input.now ≤ most_bytes }
    ensures read { IfOk result (λ t. (parts_fault input.now ≡ None) × (t.program ≡ program_of (program_part input.now)) × AreTraceLines (trace_lines (lines_of input.now)) t.trace) }
    ensures fault { IfErr result (Reports (parts_fault input.now)) }
{
    let (above, trace) = cut(input);
    let program = match read_program(alloc, above)? {
        Ok(program) => program,
        Err(refused) => return Err(OrNoMemory::Refused(InputFault::Source(refused))),
    };
    match trace {
        None => Err(bad_line_error(count_lines(input))),
        Some((number, text)) => {
            let trace = read_for(alloc, &program, number, text)?;
            Ok(TraceInput { program, trace })
        }
    }
}

/// Reads an input: the program before the first line whose first word is `trace`, and the trace from there on. A
/// program with `freeze`, `cas` or a parallel loop has no trace of version 1: its trace line is then bad.
pub fn read_trace_input(alloc: Global, input: &[u8]) -> Result<TraceInput, OrNoMemory<InputFault>>
    ensures read { IfOk result (IsInput input.now) }
    ensures fault { IfErr result (Reports (input_fault input.now)) }
{
    if input.len() > MOST_BYTES {
        return Err(OrNoMemory::Refused(InputFault::Source(TOO_LONG)));
    }
    read_parts(alloc, input)
}
