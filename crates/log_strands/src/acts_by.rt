// The acts of texts that begin with some letters.

ghost use Rattle.std.specs.Prelude.{◌≡◌, ◌<◌, ◌∷◌, [], length, IfSome, MatchOption, filter, option_to_list};
ghost use Rattle.log_pieces.specs.Pieces.{act_said};
ghost use Rattle.log_strands.specs.Acts.{is_by, acts_by};
ghost use Rattle.log_strands.specs.below.log_lines.{line_of};

use crate::acts::after;
use log_lines::{Act, begins_with, next_line};
use log_tasks::act_in;

// The act that a line says, if it begins with one of some letters.
fn act_by(line: &[u8], letters: &[u8]) -> Option<Act>
    ensures { option_to_list result ≡ filter (is_by letters.now) (act_said (line_of line.now)) }
{
    if begins_with(line, letters) {
        act_in(line)
    } else {
        None
    }
}

/// The first act that a text says in a line that begins with one of some letters, and what follows its line.
pub fn next_act_by<'t>(text: &'t [u8], letters: &[u8]) -> Option<(Act, &'t [u8])>
    ensures acts { MatchOption result (acts_by letters.now text.now ≡ []) (λ r. acts_by letters.now text.now ≡ r.0 ∷ acts_by letters.now r.1.now) }
    ensures shorter { IfSome result (λ r. length r.1.now < length text.now) }
{
    let mut left = text;
    'lines: loop {
        let (line, rest) = next_line(left);
        if let Some(act) = act_by(line, letters) {
            return Some((act, after(rest)));
        }
        match rest {
            None => return None,
            Some(rest) => left = rest,
        }
    }
}
