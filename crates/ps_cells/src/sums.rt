//! The sums of long ranges (of `LONG` rows or more). They are remembered before a level of formulas is evaluated, as
//! the workers of the level may only read what the cells show.
//!
//! Contracts don't see the remembered sums. A sheet that never had a formula with a long range pays one test a level.

ghost use Rattle.std.specs.Prelude.{◌≡◌};

use crate::contents::formula_of;
use crate::screen::Screen;
use ps_delta::{CellState, Grid};
use ps_grid::Cell;

/// Notes whether the formula of a touched cell has long ranges.
pub(crate) fn expect_sums(state: &CellState, shown: &mut Screen)
    ensures { shown.new ≡ shown.old }
{
    if let Some(formula) = formula_of(state) {
        for rect in formula.rects() {
            shown.expect(*rect);
        }
    }
}

/// Remembers what the formulas of the cells sum, if a long range was ever expected.
pub(crate) fn remember_sums(grid: &Grid, cells: &[Cell], shown: &mut Screen)
    ensures { shown.new ≡ shown.old }
{
    if shown.expects_long() {
        for cell in cells {
            remember_of(grid.at(*cell), shown);
        }
    }
}

/// Remembers what the formula of a cell of the grid sums, if a long range was ever expected.
#[inline(always)]
pub(crate) fn remember_sums_of(grid: &Grid, cell: Cell, shown: &mut Screen)
    ensures { shown.new ≡ shown.old }
{
    if shown.expects_long() {
        remember_of(grid.at(cell), shown);
    }
}

/// Remembers what the formula of a cell sums.
fn remember_of(state: &CellState, shown: &mut Screen)
    ensures { shown.new ≡ shown.old }
{
    if let Some(formula) = formula_of(state) {
        for rect in formula.rects() {
            shown.remember(*rect);
        }
    }
}
