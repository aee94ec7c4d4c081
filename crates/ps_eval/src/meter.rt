//! A count of evaluations for contracts.

ghost use Rattle.std.specs.Prelude.{◌≡◌, ◌+◌, ◌^◌, ◌<◌};
ghost use Rattle.ps_grid.specs.Blanks.{IsBlankOf};

use ps_grid::GhostCount;
use std::marker::Model;
use std::sync::ledger::{Blank, Ledger};

/// A count of evaluations that only contracts see. It takes no bytes and has no greatest value.
///
/// A meter counts nothing but evaluations: each call of `eval` or `eval_number` adds one, and `add` adds the count of
/// other meters. The type `L` names the count.
pub struct Meter<L: Ledger> {
    ticks: GhostCount<L>,
}

impl<L: Ledger> Model for Meter<L> {
    ghost use Rattle.std.specs.Prelude.{ℕ};

    ghost Value = { ℕ };

    ghost view = { λ m. m.ticks };
}

/// The number of evaluations that one or several meters had counted when they ended. `Meter::finish` creates a
/// `Counted`, which one thread may send to another.
pub struct Counted {
    ticks: u64,
}

impl Model for Counted {
    ghost use Rattle.std.specs.Prelude.{ℕ};

    ghost Value = { ℕ };

    ghost view = { λ c. c.ticks };
}

impl<L: Ledger> Meter<L> {
    /// Creates a meter with the count 0. `blank` is the right to start the one ghost count that the type `L` names.
    pub fn new(blank: Blank) -> Meter<L>
        requires { IsBlankOf blank L.name L.parts }
        ensures { result ≡ 0 }
    {
        Meter {
            ticks: GhostCount::new(blank),
        }
    }

    /// Ends the meter and returns its count. The caller passes the same count as `ticks`, since a meter stores no
    /// number.
    pub fn finish(self, ticks: u64) -> Counted
        requires { ticks ≡ self }
        ensures { result ≡ self }
    {
        self.end();
        Counted { ticks }
    }

    /// Ends the meter and drops its count. The function that created a meter calls `end` once nothing needs the count
    /// any more.
    pub fn end(self) {
        let Meter { ticks } = self;
        drop(ticks);
    }

    /// Adds to this meter the count of other meters that ended, for example of worker threads.
    pub fn add(&mut self, counted: Counted)
        ensures { self.new ≡ self.old + counted }
    {
        let Counted { ticks } = counted;
        self.ticks.add(ticks);
    }

    /// Counts one more evaluation.
    pub(crate) fn tick(&mut self)
        ensures { self.new ≡ self.old + 1 }
    {
        self.ticks.rise();
    }
}

impl Counted {
    /// Returns the sum of this count and `other`.
    pub fn with(self, other: Counted) -> Counted
        requires { self + other < 2 ^ 64 }
        ensures { result ≡ self + other }
    {
        let Counted { ticks: one } = self;
        let Counted { ticks: more } = other;
        Counted { ticks: one + more }
    }
}
