// Reads the input of a call.

ghost use Rattle.std.specs.Prelude.{◌≡◌, ◌≤◌, IfOk, IfErr, option_map};
ghost use Rattle.text_lines.specs.Lines.{most_bytes};
ghost use Rattle.io_traits.specs.Fault.{HasRisen};
ghost use Rattle.whole_call.specs.Input.{HasRead, ReadsUpTo};

use io_traits::Source;
use read_write_all::{ReadError, read_file};
use std::alloc::Global;

/// Reads a file, or, if none is named, what is left of the source, up to one byte past the limit.
pub fn read_up_to<S: Source>(
    alloc: Global,
    source: &mut S,
    limit: usize,
    file: Option<&str>,
) -> Result<Vec<u8>, ReadError>
    requires { limit ≤ most_bytes }
    ensures read { IfOk result (λ input. HasRead (ReadsUpTo limit (option_map (λ s. s.now) file.entry)) (record { left = S.left source.old; named = S.named source.old; faults = S.faults source.old }) (record { left = S.left source.new; named = S.named source.new; faults = S.faults source.new }) input.items) }
    ensures failed { IfErr result (λ e. e ≡ ReadError.Fault → HasRisen (S.faults source.old) (S.faults source.new)) }
{
    read_file(alloc, source, file, limit)
}
