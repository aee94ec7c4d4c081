//! Copies of values that may own memory.

ghost use Rattle.std.specs.Prelude.{◌≡◌, IfOk, Err};
ghost use Rattle.ps_grid.specs.declared.refusal.Refusal.{Refusal};

use crate::refusal::Refusal;
use std::alloc::Global;

/// A value that can be copied, unless memory runs out: a `Clone` that can fail.
pub trait Twin: Sized {
    /// Returns a copy that equals this value. Refused only when out of memory.
    ///
    /// Cost: at most linear in the size of the value.
    fn twin(&self, alloc: Global) -> Result<Self, Refusal>
        ensures equal { IfOk result (λ t. t ≡ self.now) }
        ensures memory { (e : Refusal) → result ≡ Err e → e ≡ Refusal.Memory };
}

impl Twin for bool {
    fn twin(&self, _alloc: Global) -> Result<bool, Refusal> {
        Ok(*self)
    }
}
