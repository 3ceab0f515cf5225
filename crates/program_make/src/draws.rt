// The random number generator.

ghost use Rattle.std.specs.Prelude.{◌≡◌, ◌<◌};
ghost use Rattle.program_make.specs.Draws.{next_value, drawn};

/// Draws the next number below `bound` from the upper bits of the generator's next value.
pub(crate) fn draw(value: &mut u32, bound: u32) -> u32
    requires { 0 < bound }
    ensures moved { value.new ≡ next_value value.old }
    ensures drawn_below { result ≡ drawn value.new bound }
{
    let moved = (*value as u64 * 1664525 + 1013904223) % 4294967296;
    *value = moved as u32;
    *value / 65536 % bound
}
