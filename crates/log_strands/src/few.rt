// Whether pieces say few acts.

ghost use Rattle.std.specs.Prelude.{◌≡◌, ◌^◌, length, nat_lt};
ghost use Rattle.log_pieces.specs.Pieces.{events_of_pieces};
ghost use Rattle.log_strands.specs.Acts.{bytes_of};

use crate::acts::count_acts;
use log_pieces::LogPiece;
use log_tasks::piece_text;
use plain_vec::Listed;

const BYTES_LIMIT: usize = 1 << 32;

// Whether pieces have fewer than 2^32 bytes.
fn has_few_bytes(texts: &[Listed<u8>], pieces: &[LogPiece]) -> bool
    ensures { result ≡ nat_lt (bytes_of texts.now pieces.now) (2 ^ 32) }
{
    let mut bytes = 0;
    for piece in pieces {
        bytes += piece_text(texts, *piece).len();
        if bytes >= BYTES_LIMIT {
            return false;
        }
    }
    true
}

/// Whether pieces say fewer than 2^32 acts. They are counted only where there are as many bytes.
pub fn has_few_acts(texts: &[Listed<u8>], pieces: &[LogPiece]) -> bool
    ensures { result ≡ nat_lt (length (events_of_pieces texts.now pieces.now)) (2 ^ 32) }
{
    if has_few_bytes(texts, pieces) {
        return true;
    }
    match count_acts(texts, pieces) {
        Some(_count) => true,
        None => false,
    }
}
