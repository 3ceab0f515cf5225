// Whether blocks are born or released.

ghost use Rattle.std.specs.Prelude.{◌≡◌};
ghost use Rattle.std.specs.List.{list_any};
ghost use Rattle.log_pieces.specs.Pieces.{acts_in, events_of_pieces};
ghost use Rattle.log_births.specs.Blocks.{is_lifetime};

use log_pieces::LogPiece;
use log_strands::next_act_by;
use log_tasks::piece_lines;
use plain_vec::Listed;

// Whether a text says that a block is born or released.
fn says_lifetime(text: &[u8]) -> bool
    ensures { result ≡ list_any is_lifetime (acts_in text.now) }
{
    next_act_by(text, b"af").is_some()
}

/// Whether pieces say that a block is born or released.
pub(crate) fn have_lifetimes(texts: &[Listed<u8>], pieces: &[LogPiece]) -> bool
    ensures { result ≡ list_any (λ e. is_lifetime e.act) (events_of_pieces texts.now pieces.now) }
{
    for piece in pieces {
        if says_lifetime(piece_lines(texts, *piece)) {
            return true;
        }
    }
    false
}
