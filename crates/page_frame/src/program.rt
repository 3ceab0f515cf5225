// What the data of a run begins with: the title and the program's lines.

ghost use Rattle.std.specs.Prelude.{◌≡◌, ◌∷◌, ◌++◌, [], OnOk};
ghost use Rattle.std.specs.List.{flat_map};
ghost use Rattle.text_lines.specs.Lines.{lines_of};
ghost use Rattle.trace_input.specs.Cut.{lines_above};
ghost use Rattle.quoted_text.specs.Guarded.{guarded};
ghost use Rattle.page_frame.specs.Frame.{beginning, listed, program_lines, title_line};

use quoted_text::add_guarded;
use std::alloc::AllocError;
use text_lines::next_line;
use trace_input::begins_trace;

// Adds a line of the program.
fn add_line(text: &mut Vec<u8>, line: &[u8]) -> Result<(), AllocError>
    ensures { OnOk result (text.new.items ≡ text.old.items ++ (guarded line.now ++ 44 ∷ [])) }
{
    add_guarded(text, line)?;
    text.push(b',')?;
    Ok(())
}

// Adds the lines of an input that stand before the trace line.
fn add_lines(text: &mut Vec<u8>, input: &[u8]) -> Result<(), AllocError>
    ensures { OnOk result (text.new.items ≡ text.old.items ++ flat_map (λ l. guarded l ++ 44 ∷ []) (lines_above (lines_of input.now))) }
{
    let mut rest = input;
    loop {
        let (line, lines) = next_line(rest);
        if begins_trace(line) {
            return Ok(());
        }
        add_line(text, line)?;
        match lines {
            None => return Ok(()),
            Some(below) => rest = below,
        }
    }
}

// Adds the program's lines.
#[tactic(auto, unfolding(crate::specs::Frame::program_lines))]
fn add_program(text: &mut Vec<u8>, input: &[u8]) -> Result<(), AllocError>
    ensures { OnOk result (text.new.items ≡ text.old.items ++ program_lines input.now) }
{
    add_lines(text, input)?;
    text.extend_from_slice(b"\"\"")
}

// Adds the member with the title.
#[tactic(auto, unfolding(crate::specs::Frame::title_line))]
fn add_titled(text: &mut Vec<u8>, title: &[u8]) -> Result<(), AllocError>
    ensures { OnOk result (text.new.items ≡ text.old.items ++ title_line title.now) }
{
    text.extend_from_slice(b"{\"run\":1,\"title\":")?;
    add_guarded(text, title)
}

// Adds the member with the program's lines.
#[tactic(auto, unfolding(crate::specs::Frame::listed))]
fn add_listed(text: &mut Vec<u8>, input: &[u8]) -> Result<(), AllocError>
    ensures { OnOk result (text.new.items ≡ text.old.items ++ listed input.now) }
{
    text.extend_from_slice(b",\n\"program\":[")?;
    add_program(text, input)
}

/// Adds the title and the program's lines. The input is the program's text with a trace after it.
#[tactic(auto, unfolding(crate::specs::Frame::beginning))]
pub(crate) fn add_beginning(
    text: &mut Vec<u8>,
    title: &[u8],
    input: &[u8],
) -> Result<(), AllocError>
    ensures { OnOk result (text.new.items ≡ text.old.items ++ beginning title.now input.now) }
{
    add_titled(text, title)?;
    add_listed(text, input)
}
