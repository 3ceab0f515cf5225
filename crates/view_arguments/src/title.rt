// The title of a page.

ghost use Rattle.std.specs.Prelude.{◌≡◌, string_bytes};

use std::marker::Model;

/// The title of a page.
#[derive(Drop)]
pub struct PageTitle {
    words: String,
}

impl Model for PageTitle {
    ghost use Rattle.std.specs.Prelude.{ℕ, List, string_bytes};

    ghost Value = { List ℕ };

    ghost view = { λ t. string_bytes t.words };
}

impl PageTitle {
    pub(crate) fn new(words: String) -> PageTitle
        ensures { result ≡ string_bytes words }
    {
        PageTitle { words }
    }

    pub fn as_str(&self) -> &str
        ensures { result.now ≡ self.now }
    {
        self.words.as_str()
    }
}
