// Where the program ends and the trace begins.

ghost use Rattle.std.specs.Prelude.{◌≡◌, ◌≤◌, ◌+◌, length, IfSome, option_map};
ghost use Rattle.text_lines.specs.Lines.{most_bytes};
ghost use Rattle.trace_input.specs.Cut.{is_trace_line, program_part, CutsTrace};

use text_lines::{next_line, next_word};

/// Whether the first word of a line is `trace`.
pub fn begins_trace(line: &[u8]) -> bool
    ensures { result ≡ is_trace_line line.now }
{
    match next_word(line) {
        Some((word, _)) => word == b"trace".as_slice(),
        None => false,
    }
}

/// The bytes of the program; and the trace line's number with the bytes from that line on.
pub(crate) fn cut(input: &[u8]) -> (&[u8], Option<(u32, &[u8])>)
    requires { length input.now ≤ most_bytes }
    ensures program { result.0.now ≡ program_part input.now }
    ensures trace { CutsTrace input.now (option_map (λ t. (t.0, t.1.now)) result.1) }
    ensures sized { length result.0.now ≤ length input.now }
    ensures within { IfSome result.1 (λ t. (length t.1.now ≤ length input.now) × (t.0 ≤ most_bytes + 1)) }
{
    let mut rest = input;
    let mut number: u32 = 1;
    loop {
        let (line, lines) = next_line(rest);
        if begins_trace(line) {
            return (&input[..input.len() - rest.len()], Some((number, rest)));
        }
        match lines {
            None => return (input, None),
            Some(below) => rest = below,
        }
        number += 1;
    }
}
