//! An exact sum, which may grow past 128 bits.

ghost use Rattle.std.specs.Prelude.{◌≡◌, ◌+◌, ◌^◌, ◌<◌, ◌≤◌, pos, ◌+ℤ◌, unsigned_abs};
ghost use Rattle.ps_eval.specs.Number.{exact};

use ps_value::Fault;
use std::marker::Model;

/// One turn, 2^126: a total is stored as a rest plus a count of turns.
const TURN: i128 = 0x4000_0000_0000_0000_0000_0000_0000_0000;

const HALF: i128 = 0x2000_0000_0000_0000_0000_0000_0000_0000;

/// The greatest `i64`, and below it the least one.
const GREATEST: i128 = 0x7fff_ffff_ffff_ffff;

const LEAST: i128 = -0x8000_0000_0000_0000;

/// A whole number, stored as `rest + turns * TURN`. The first `requires` of `add` bounds it.
#[derive(Drop)]
pub(crate) struct Total {
    /// from minus half a turn up to, and without, half a turn
    rest: i128,
    /// how many turns to add to the rest
    turns: i128,
}

impl Model for Total {
    ghost use Rattle.std.specs.Prelude.{◌^◌, ℤ, pos, neg_ℤ, ◌+ℤ◌, ◌*ℤ◌, ◌≤ℤ◌, ◌<ℤ◌};

    ghost Value = { ℤ };

    ghost view = { λ t. t.rest +ℤ t.turns *ℤ pos (2 ^ 126) };

    ghost invariant = { λ t. (neg_ℤ (pos (2 ^ 125)) ≤ℤ t.rest) × (t.rest <ℤ pos (2 ^ 125)) };
}

impl Total {
    /// Creates the sum of nothing, 0.
    pub(crate) fn new() -> Total
        ensures { result ≡ pos 0 }
    {
        Total { rest: 0, turns: 0 }
    }

    /// Adds a number. The rest seldom leaves its range, so the last branch is the common one.
    #[inline]
    pub(crate) fn add(&mut self, number: i128)
        requires room { unsigned_abs self.old < 2 ^ 180 }
        requires small { unsigned_abs number ≤ 2 ^ 125 }
        ensures { self.new ≡ self.old +ℤ number }
    {
        let sum = self.rest + number;
        if sum >= HALF {
            self.rest = sum - TURN;
            self.turns += 1;
        } else if sum < -HALF {
            self.rest = sum + TURN;
            self.turns -= 1;
        } else {
            self.rest = sum;
        }
    }

    /// Returns the number; `Fault::Num` if it doesn't fit into an `i64`.
    pub(crate) fn value(&self) -> Result<i64, Fault>
        ensures { result ≡ exact self.now }
    {
        let rest = self.rest;
        if self.turns == 0 && LEAST <= rest && rest <= GREATEST {
            Ok(rest as i64)
        } else {
            Err(Fault::Num)
        }
    }
}
