//! How the steps of engines are counted.

ghost use Rattle.std.specs.Prelude.{◌≡◌, ◌+◌, ◌<◌};

use std::marker::Model;
use std::sync::ledger::{Blank, Book, Ledger, Share};

/// How many steps engines have taken. It takes no bytes, and only `tick` and `tick_by` change it.
#[derive(Drop)]
pub struct Steps<L: Ledger> {
    book: Book<L>,
    share: Share<L>,
}

impl<L: Ledger> Model for Steps<L> {
    ghost use Rattle.std.specs.Prelude.{ℕ, ◌<◌};

    ghost Value = { ℕ };

    ghost view = { λ s. s.book.total };

    ghost invariant = { λ s. 0 < s.share.parts };
}

impl<L: Ledger> Steps<L> {
    /// A counter at 0, for a ledger that nothing else counts in: that is a brand, which a function takes as a type of
    /// its own, with a blank of as many parts.
    ///
    /// # Cost
    ///
    /// No memory, and nothing at run time: steps are counted for the proofs alone.
    ///
    /// # Examples
    ///
    /// ```
    /// let mut steps = Steps::<L>::open(blank);
    /// stream.write(&database, &mut scratch, b"foo", &mut told, &mut steps)?;
    /// ```
    pub fn open(blank: Blank) -> Steps<L>
        requires name { blank.name ≡ L.name }
        requires parts { blank.parts ≡ L.parts }
        requires some { 0 < L.parts }
        ensures { result ≡ 0 }
    {
        let (book, share) = blank.open::<L>();
        Steps { book, share }
    }

    /// Counts one step.
    pub fn tick(&mut self)
        ensures { self.new ≡ self.old + 1 }
    {
        self.book.add(&mut self.share, 1);
    }

    /// Counts so many steps.
    pub fn tick_by(&mut self, count: u64)
        ensures { self.new ≡ self.old + count }
    {
        self.book.add(&mut self.share, count);
    }
}
