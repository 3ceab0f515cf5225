// Lines and words of texts: lines are cut at line feeds; words are runs of other bytes than space, tab and carriage
// return, up to a word that begins with `#`.
#![tactic(auto)]

mod lines;
mod words;

pub use lines::{MOST_BYTES, line_end, next_line};
pub use words::{behind, next_word, word_is};
