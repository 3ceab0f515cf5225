// The letters that lines begin with.

ghost use Rattle.std.specs.Prelude.{◌≡◌};
ghost use Rattle.log_lines.specs.Letters.{is_among, begins_with};

// Whether a byte is one of some letters.
#[inline(always)]
fn is_among(letters: &[u8], byte: u8) -> bool
    ensures { result ≡ is_among letters.now byte }
{
    for letter in letters {
        if *letter == byte {
            return true;
        }
    }
    false
}

/// Whether a line begins with one of some letters.
///
/// Acts and names of sites begin with the letters of their verbs. So who looks for those of some letters alone needn't
/// read a line that begins with none of these.
#[inline(always)]
pub fn begins_with(line: &[u8], letters: &[u8]) -> bool
    ensures { result ≡ begins_with letters.now line.now }
{
    !line.is_empty() && is_among(letters, line[0])
}
