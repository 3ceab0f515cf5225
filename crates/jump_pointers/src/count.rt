// A ghost count of the links that climbs follow.

ghost use Rattle.std.specs.Prelude.{◌≡◌, ◌+◌, ◌<◌};

use std::marker::Model;
use std::sync::ledger::{Blank, Book, Ledger, Share};

/// How many links were followed. It has no size, and does nothing at run time.
#[derive(Drop)]
pub struct LinkCount<L: Ledger> {
    book: Book<L>,
    share: Share<L>,
}

impl<L: Ledger> Model for LinkCount<L> {
    ghost use Rattle.std.specs.Prelude.{ℕ, ◌<◌};

    ghost Value = { ℕ };

    ghost view = { λ links. links.book.total };

    ghost invariant = { λ links. 0 < links.share.parts };
}

impl<L: Ledger> LinkCount<L> {
    /// A count of 0.
    pub fn new(blank: Blank) -> LinkCount<L>
        requires name { blank.name ≡ L.name }
        requires parts { blank.parts ≡ L.parts }
        requires some { 0 < blank.parts }
        ensures { result ≡ 0 }
    {
        let (book, share) = blank.open::<L>();
        LinkCount { book, share }
    }

    // Counts one more link.
    pub(crate) fn tick(&mut self)
        ensures { self.new ≡ self.old + 1 }
    {
        self.book.add(&mut self.share, 1);
    }
}
