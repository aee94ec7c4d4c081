//! A change, as `Region::mark` reads it.

ghost use Rattle.std.specs.Prelude.{◌≡◌, length, true, false, slice_index_or};
ghost use Rattle.ps_grid.specs.declared.size.TheConstants.{CELLS as ALL};

use crate::after::After;
use crate::cell_set::CellSet;
use ps_grid::Cell;
use ps_index::Index;

/// A change, and what is noted about its touched cells.
#[derive_where(Clone, Copy)]
pub(crate) struct MarkedChange<'a, A> {
    /// lists the formulas after the change, and at most those that touched cells had before
    pub index: &'a Index,
    pub after: &'a A,
    pub touched: &'a [Cell],
    /// the cyclic cells outside the region; it may have any cells of the region too
    pub outside: &'a CellSet,
    /// for each cell whether it is touched
    pub fresh: &'a [bool],
    /// for each cell whether it is touched and has no formula
    pub plain: &'a [bool],
}

/// Returns whether the cell `e`, which the index lists for the cell `d`, refers to `d` after the change. An untouched
/// cell always does, so only the formula of a touched one is looked at.
pub(crate) fn still_refers<A: After>(change: &MarkedChange<'_, A>, e: Cell, d: Cell) -> bool
    requires length { length change.now.fresh.now ≡ ALL }
    requires known { slice_index_or change.now.fresh.now e false ≡ false
        → A.refers change.now.after.now e d ≡ true }
    ensures { result ≡ A.refers change.now.after.now e d }
{
    !change.fresh[e.index()] || change.after.refers(e, d)
}
