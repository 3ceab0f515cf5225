// Decimal numbers.

ghost use Rattle.std.specs.Prelude.{◌≡◌, ◌<◌, ◌≤◌, length, IfSome};
ghost use Rattle.std.specs.Char.{is_ascii_digit};
ghost use Rattle.log_lines.specs.Words.{numeral_value, has_length, has_leading_zero, digits_number};
ghost use Rattle.log_lines.specs.Limits.{IsLogNumber};

/// A number has at most so many digits.
const MOST_DIGITS: usize = 18;

// Whether a byte is a decimal digit.
fn is_digit(byte: u8) -> bool
    ensures { result ≡ is_ascii_digit byte }
{
    b'0' <= byte && byte <= b'9'
}

// The number that decimal digits write.
fn read_digits(digits: &[u8]) -> Option<u64>
    requires { length digits.now ≤ 18 }
    ensures number { result ≡ digits_number digits.now }
    ensures below { IfSome result IsLogNumber }
{
    let mut number: u64 = 0;
    for byte in digits {
        if !is_digit(*byte) {
            return None;
        }
        number = number * 10 + u64::from(*byte - b'0');
    }
    Some(number)
}

// Whether a text has as many bytes as a number.
fn has_length(word: &[u8]) -> bool
    ensures { result ≡ has_length word.now }
{
    !word.is_empty() && word.len() <= MOST_DIGITS
}

// Whether a text of several bytes begins with a zero.
fn has_leading_zero(word: &[u8]) -> bool
    ensures { result ≡ has_leading_zero word.now }
{
    word.len() > 1 && word[0] == b'0'
}

/// The number that a word writes, if it writes one.
pub fn read_number(word: &[u8]) -> Option<u64>
    ensures number { result ≡ numeral_value word.now }
    ensures below { IfSome result IsLogNumber }
{
    if !has_length(word) || has_leading_zero(word) {
        return None;
    }
    read_digits(word)
}
