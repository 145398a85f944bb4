use std::marker::Model;
use std::sync::ledger::{Blank, Book, Ledger, Share};

/// How many steps were taken. It takes no bytes, and only [`Steps::tick`] changes it.
///
/// A step is one building of a definition. A caller that counts nothing calls a function that is given a `Blank::new(1)`.
#[derive(Drop)]
pub struct Steps<G: Ledger> {
    book: Book<G>,
    share: Share<G>,
}

impl<G: Ledger> Model for Steps<G> {
    ghost use Rattle.std.specs.Prelude.{ℕ, ◌<◌};

    ghost Value = { ℕ };

    ghost view = { λ s. s.book.total };

    ghost invariant = { λ s. 0 < s.share.parts };
}

impl<G: Ledger> Steps<G> {
    ghost use Rattle.std.specs.Prelude.{◌≡◌, ◌<◌, ◌+◌};

    /// No steps yet, in a ledger of which this is the blank.
    pub fn new(blank: Blank) -> Steps<G>
        requires name { blank.name ≡ G.name }
        requires parts { blank.parts ≡ G.parts }
        requires some { 0 < G.parts }
        ensures { result ≡ 0 }
    {
        let (book, share) = blank.open::<G>();
        Steps { book, share }
    }

    /// One step more.
    pub fn tick(&mut self)
        ensures { self.new ≡ self.old + 1 }
    {
        self.book.add(&mut self.share, 1);
    }
}
