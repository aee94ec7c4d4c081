//! Counters that exist only in contracts.
ghost use Rattle.std.specs.Prelude.{◌≡◌, ◌+◌};
ghost use Rattle.ps_grid.specs.Blanks.{IsBlankOf};

use std::marker::Model;
use std::sync::ledger::{Blank, Book, Ledger, Share};

/// A counter that exists only in contracts: at run time it takes no bytes and does nothing.
///
/// The counter never falls and has no greatest value. A ledger stores the count: a sum in std that only contracts see.
#[derive(Drop)]
pub struct GhostCount<L: Ledger> {
    /// the count, as the total of a ledger
    book: Book<L>,
    /// the right to add to the book
    share: Share<L>,
}

impl<L: Ledger> Model for GhostCount<L> {
    ghost use Rattle.std.specs.Prelude.{ℕ, ◌<◌};

    ghost Value = { ℕ };

    ghost view = { λ count. count.book.total };

    ghost invariant = { λ count. 0 < count.share.parts };
}

impl<L: Ledger> GhostCount<L> {
    /// Creates a counter at 0. `blank` is the right to open the ledger `L`, which stores the count.
    pub fn new(blank: Blank) -> GhostCount<L>
        requires { IsBlankOf blank L.name L.parts }
        ensures { result ≡ 0 }
    {
        let (book, share) = blank.open();
        GhostCount { book, share }
    }

    /// Raises the counter by 1.
    pub fn rise(&mut self)
        ensures { self.new ≡ self.old + 1 }
    {
        self.add(1);
    }

    /// Raises the counter by `amount`.
    pub fn add(&mut self, amount: u64)
        ensures { self.new ≡ self.old + amount }
    {
        self.book.add(&mut self.share, amount);
    }
}
