//! The formulas after a change.

ghost use Rattle.std.specs.Prelude.{◌≡◌, ◌<◌, ℕ, Bool, true};
ghost use Rattle.ps_grid.specs.declared.size.TheConstants.{CELLS};
ghost use Rattle.ps_grid.specs.Chains.{References};
ghost use Rattle.ps_grid.specs.Rectangle.{is_inside};
ghost use Rattle.std.specs.List.{list_any};

use ps_grid::{Cell, Rect};

/// The formulas after a change, as the caller of `Region::mark` knows them: which cells have one, and what each formula
/// refers to.
pub trait After {
    /// whether the formula of the first cell refers to the second
    ghost refers: { Self → References };

    /// whether a cell has a formula
    ghost formula: { Self → ℕ → Bool };

    /// Returns whether the formula of `c` refers to `d`; `false` if `c` has no formula.
    fn refers(&self, c: Cell, d: Cell) -> bool
        ensures { result ≡ refers self.now c d };

    /// Returns rectangles that together contain exactly the cells that the formula of `c` refers to. The rectangles may
    /// overlap. If `c` has no formula, they contain no cell.
    fn rects(&self, c: Cell) -> &[Rect]
        ensures { (d : ℕ) → d < CELLS → list_any (λ r. is_inside r d) result.now ≡ refers self.now c d };

    /// Returns whether the cell has a formula.
    fn is_formula(&self, c: Cell) -> bool
        ensures { result ≡ formula self.now c };

    // only cells with a formula refer to cells
    ghost refers_formula: { (after : Self) (c d : ℕ) → refers after c d ≡ true → formula after c ≡ true };

    // only cells of the grid are referred to
    ghost refers_below: { (after : Self) (c d : ℕ) → refers after c d ≡ true → d < CELLS };

    // only cells of the grid refer to cells
    ghost below: { (after : Self) (c d : ℕ) → refers after c d ≡ true → c < CELLS };
}
