//! The traits `Join`, for states that can be joined, and `Linear`, for values in a linear order.

ghost use Rattle.std.specs.Prelude.{◌≡◌, ◌↔◌, IsTrue, OnOk, OnErr, IfErr};
ghost use Rattle.ps_grid.specs.declared.refusal.Refusal.{Refusal};
ghost use Rattle.std.specs.declared.cmp.Ordering.{Ordering};

use ps_grid::{Cell, Refusal};
use std::alloc::Global;

/// A join-semilattice: any two states have a least state above both, their join. A state is *above* another if the
/// other adds nothing new to it.
///
/// States may be joined in any order, in any groups and repeatedly: the result is the same.
pub trait Join: Sized {
    ghost joined: { Self → Self → Self };

    /// Joins the other state into this one.
    ///
    /// Refused only when out of memory, and then this state stays as it was.
    ///
    /// Cost: linear in the sizes of both states.
    fn join(&mut self, alloc: Global, other: &Self) -> Result<(), Refusal>
        ensures ok { OnOk result (self.new ≡ joined self.old other.now) }
        ensures err { OnErr result (self.new ≡ self.old) }
        ensures memory { IfErr result (λ e. e ≡ Refusal.Memory) };

    /// Returns whether this state adds nothing new to `other`: joining it into `other` would change nothing.
    ///
    /// Cost: at most one search in `other` for each part of this state; no memory.
    fn below(&self, other: &Self) -> bool
        ensures { IsTrue result ↔ (joined other.now self.now ≡ other.now) };

    ghost associative: { (x y z : Self) → joined (joined x y) z ≡ joined x (joined y z) };

    ghost commutative: { (x y : Self) → joined x y ≡ joined y x };

    ghost idempotent: { (x : Self) → joined x x ≡ x };
}

/// A type of values in a linear order: of two different values, one is always the greater.
pub trait Linear: Ord {
    ghost no_ties: { (x y : Self) → Self.cmp x y ≡ Ordering.Equal → x ≡ y };
}

impl Linear for u8 {
    ghost use Rattle.std.specs.FinMap.{nat_cmp-IsAntisymmetric};

    ghost no_ties = { nat_cmp-IsAntisymmetric };
}

impl Linear for Cell {
    ghost use Rattle.std.specs.FinMap.{nat_cmp-IsAntisymmetric};

    ghost no_ties = { nat_cmp-IsAntisymmetric };
}
