// Reads an input.

ghost use Rattle.std.specs.Prelude.{◌≡◌, ◌≤◌, ◌+◌, true, false, length, drop, IfOk, OnOk, IfErr, Some, List, ℕ};
ghost use Rattle.made_program_laws.specs.below.text_lines.{most_bytes};
ghost use Rattle.read_write_all.specs.below.io_traits.{HasRisen};
ghost use Rattle.read_write_all.specs.Bytes.{input_of, source_bytes};
ghost use Rattle.command_answers.specs.Input.{limit_of, is_reading, program_in, source_bytes_for};

use command_line::{CommandLine, FileName, name_of};
use heap_picture::MOST_BYTES;
use race_report::{PROGRAM_LIMIT, Program};
use read_write_all::{ReadError, Source, read_file};
use refusal_lines::{TOO_LONG, TextFault, read_program};
use std::alloc::{AllocError, Global};

/// The program that an input is, or why it is refused.
pub fn program_in(alloc: Global, input: &[u8]) -> Result<Result<Program, TextFault>, AllocError>
    ensures { IfOk result (λ program. program ≡ program_in input.now) }
{
    if input.len() > PROGRAM_LIMIT {
        return Ok(Err(TOO_LONG));
    }
    read_program(alloc, input)
}

// Reads a file, or standard input.
fn read_named<S: Source>(
    alloc: Global,
    source: &mut S,
    file: &Option<FileName>,
    limit: usize,
) -> Result<Vec<u8>, ReadError>
    requires { limit ≤ most_bytes }
    ensures within { IfOk result (λ input. length input.items ≤ limit + 1) }
    ensures input { IfOk result (λ input. (whole : List ℕ) → source_bytes (S.left source.old) (S.named source.old) file.now ≡ Some whole → input.items ≡ input_of limit whole) }
    ensures taken { OnOk result ((whole : List ℕ) → source_bytes (S.left source.old) (S.named source.old) file.now ≡ Some whole → S.left source.new ≡ Some (drop (limit + 1) whole)) }
    ensures failed { IfErr result (λ e. e ≡ ReadError.Fault → HasRisen (S.faults source.old) (S.faults source.new)) }
{
    read_file(alloc, source, name_of(file), limit)
}

/// Reads the input of a command.
pub fn read_input<S: Source>(
    alloc: Global,
    source: &mut S,
    line: &CommandLine,
) -> Result<Vec<u8>, ReadError>
    ensures within { IfOk result (λ input. length input.items ≤ limit_of line.now + 1) }
    ensures input { IfOk result (λ input. (whole : List ℕ) → source_bytes_for (S.left source.old) (S.named source.old) line.now ≡ Some whole → input.items ≡ input_of (limit_of line.now) whole) }
    ensures taken { OnOk result (is_reading line.now ≡ true → (whole : List ℕ) → source_bytes_for (S.left source.old) (S.named source.old) line.now ≡ Some whole → S.left source.new ≡ Some (drop (limit_of line.now + 1) whole)) }
    ensures untouched { is_reading line.now ≡ false → S.left source.new ≡ S.left source.old }
    ensures failed { IfErr result (λ e. e ≡ ReadError.Fault → (is_reading line.now ≡ true) × HasRisen (S.faults source.old) (S.faults source.new)) }
{
    match line {
        CommandLine::Check { file } => read_named(alloc, source, file, PROGRAM_LIMIT),
        CommandLine::Run { file, options: _ } => read_named(alloc, source, file, PROGRAM_LIMIT),
        CommandLine::Replay { file, options: _ } => read_named(alloc, source, file, MOST_BYTES),
        CommandLine::Model { file, options: _ } => read_named(alloc, source, file, MOST_BYTES),
        CommandLine::Races { file, settings: _ } => read_named(alloc, source, file, MOST_BYTES),
        CommandLine::Image { file, settings: _ } => read_named(alloc, source, file, MOST_BYTES),
        CommandLine::Make {
            seed: _,
            size: _,
            run: _,
        } => Ok(Vec::new(alloc)),
        CommandLine::Verify { file } => read_named(alloc, source, file, MOST_BYTES),
    }
}
