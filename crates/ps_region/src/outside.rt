//! The references of a region's formulas to the cyclic cells outside it.

ghost use Rattle.std.specs.Prelude.{◌≡◌, ◌<◌, [], length, ℕ, true, false, slice_index, slice_index_or, ◌&&◌};
ghost use Rattle.ps_grid.specs.declared.size.TheConstants.{CELLS as ALL};
ghost use Rattle.ps_grid.specs.Chains.{In};
ghost use Rattle.ps_grid.specs.Rectangle.{is_inside};
ghost use Rattle.ps_region.specs.CellSets.{has_cell};
ghost use Rattle.ps_region.specs.Inside.Cells.{Marked};
ghost use Rattle.ps_region.specs.Inside.Counts.{cells_left, count_below, is_in};
ghost use Rattle.ps_region.specs.Inside.LevelWalk.{is_pending};
ghost use Rattle.ps_region.specs.Inside.Outside.{in_rows, is_covered, is_new, is_outside};
ghost use Rattle.ps_region.specs.Inside.Touched.{not_plain};

use crate::after::After;
use crate::cell_set::{CellSet, HIGH};
use crate::change::MarkedChange;
use crate::members::has_formula;
use ps_grid::{Cell, Rect};

/// Whether one of the rectangles has the cell.
fn cover(rects: &[Rect], d: Cell) -> bool
    ensures { result ≡ is_covered rects.now d }
{
    rects.iter().any(|rect| rect.contains(d))
}

/// Whether a cell is in the set, outside the region and in none of the rectangles.
fn is_new_cell(set: &CellSet, marks: &[bool], rects: &[Rect], d: Cell) -> bool
    requires { length marks.now ≡ ALL }
    ensures { result ≡ is_new set.now marks.now rects.now d }
{
    set.contains(d) && !marks[d.index()] && !cover(rects, d)
}

/// Returns how many new cells (those that pass `is_new_cell`) the column `across` of the rectangle has. It skips the
/// blocks in which the set has no cell.
fn count_rows(set: &CellSet, marks: &[bool], before: &[Rect], rect: Rect, across: usize) -> u32
    requires marks_length { length marks.now ≡ ALL }
    requires across { across < rect.width }
    ensures { result ≡ count_below
        (λ d. in_rows rect across rect.height d && is_new set.now marks.now before.now d) ALL }
{
    // for the fact that the rectangle lies in the grid
    let _ = rect.area();
    let height = rect.height();
    let mut count = 0;
    let mut down = 0;
    while down < height {
        let c = rect.at(across, down);
        if set.is_clear(c) {
            down += HIGH - (c.row() as usize - 1) % HIGH;
        } else {
            if is_new_cell(set, marks, before, c) {
                count += 1;
            }
            down += 1;
        }
    }
    count
}

/// Returns how many new cells the rectangle has: those of the set, outside the region, that no rectangle before it has.
fn count_new(set: &CellSet, marks: &[bool], before: &[Rect], rect: Rect) -> u32
    requires { length marks.now ≡ ALL }
    ensures { result ≡ count_below (λ d. is_inside rect d && is_new set.now marks.now before.now d) ALL }
{
    let mut count = 0;
    for across in 0..rect.width() {
        count += count_rows(set, marks, before, rect, across);
    }
    count
}

/// How many cells of the set outside the region the rectangles have, each counted once.
fn count_covered(set: &CellSet, marks: &[bool], rects: &[Rect]) -> u32
    requires { length marks.now ≡ ALL }
    ensures { result ≡ count_below (λ d. is_covered rects.now d && is_outside set.now marks.now d) ALL }
{
    let mut count = 0;
    for i in 0..rects.len() {
        count += count_new(set, marks, &rects[..i], rects[i]);
    }
    count
}

/// Adds to the count of each formula cell of the region its references to cyclic cells outside the region. If the set
/// of cyclic cells is empty, it looks at no formula.
pub(crate) fn count_outside<A: After>(
    change: &MarkedChange<'_, A>,
    marks: &[bool],
    members: &[Cell],
    left: &mut [u32],
)
    requires plain_length { length change.now.plain.now ≡ ALL }
    requires marks_length { length marks.now ≡ ALL }
    requires left_length { length left.old ≡ ALL }
    requires marked { Marked marks.now members.now }
    requires formula { (c : ℕ) → In members.now c
        → not_plain change.now.plain.now c ≡ A.formula change.now.after.now c }
    requires counted { (c : ℕ) → slice_index_or marks.now c false ≡ true → slice_index left.old c
        ≡ cells_left (A.refers change.now.after.now)
        (is_pending (A.formula change.now.after.now) (is_in []) marks.now) [] ALL c }
    ensures counts { (c : ℕ) → slice_index_or marks.now c false ≡ true → slice_index left.new c
        ≡ cells_left (A.refers change.now.after.now)
        (is_pending (A.formula change.now.after.now) (has_cell change.now.outside.now) marks.now) [] ALL c }
{
    if change.outside.is_empty() {
        return;
    }
    for c in members {
        if has_formula(change.plain, *c) {
            left[c.index()] += count_covered(change.outside, marks, change.after.rects(*c));
        }
    }
}
