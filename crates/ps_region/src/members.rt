//! The members of a region, and what is noted about the touched cells.

ghost use Rattle.std.specs.Prelude.{◌≡◌, ◌≤◌, [], length, ℕ, true, false, slice_index_or, vec_capacity};
ghost use Rattle.ps_grid.specs.declared.size.TheConstants.{CELLS as ALL};
ghost use Rattle.ps_grid.specs.Chains.{In};
ghost use Rattle.ps_region.specs.Inside.Counts.{counted_in};
ghost use Rattle.ps_region.specs.Inside.Cells.{Marked, with_cell, with_all};
ghost use Rattle.ps_region.specs.Inside.Touched.{FlagsTouched, IsPlain, not_plain};

use crate::after::After;
use ps_grid::Cell;

/// Puts a cell into the region, with no reference counted, if it is not there yet.
pub(crate) fn enter(marks: &mut [bool], left: &mut [u32], members: &mut Vec<Cell>, c: Cell)
    requires marks_length { length marks.old ≡ ALL }
    requires left_length { length left.old ≡ ALL }
    requires marked { Marked marks.old members.old.items }
    requires room { ALL ≤ vec_capacity members.old }
    ensures members { members.new.items ≡ with_cell members.old.items c }
    ensures marked { Marked marks.new members.new.items }
    ensures room { ALL ≤ vec_capacity members.new }
    ensures counts { (q : ℕ) → counted_in members.new.items left.new q ≡ counted_in members.old.items left.old q }
{
    let place = c.index();
    if !marks[place] {
        marks[place] = true;
        left[place] = 0;
        members.push_reserved(c);
    }
}

/// Puts each cell of a list into the region.
pub(crate) fn enter_all(
    marks: &mut [bool],
    left: &mut [u32],
    members: &mut Vec<Cell>,
    cells: &[Cell],
)
    requires marks_length { length marks.old ≡ ALL }
    requires left_length { length left.old ≡ ALL }
    requires marked { Marked marks.old members.old.items }
    requires room { ALL ≤ vec_capacity members.old }
    ensures members { members.new.items ≡ with_all members.old.items cells.now }
    ensures marked { Marked marks.new members.new.items }
    ensures room { ALL ≤ vec_capacity members.new }
    ensures counts { (q : ℕ) → counted_in members.new.items left.new q ≡ counted_in members.old.items left.old q }
{
    for c in cells {
        enter(marks, left, members, *c);
    }
}

/// Notes which cells are touched, and which of these have no formula.
pub(crate) fn note_touched<A: After>(
    after: &A,
    touched: &[Cell],
    fresh: &mut [bool],
    plain: &mut [bool],
)
    requires fresh_length { length fresh.old ≡ ALL }
    requires plain_length { length plain.old ≡ ALL }
    requires no_fresh { (c : ℕ) → slice_index_or fresh.old c false ≡ false }
    requires no_plain { (c : ℕ) → slice_index_or plain.old c false ≡ false }
    ensures fresh { FlagsTouched fresh.new touched.now }
    ensures plain { IsPlain (A.formula after.now) plain.new touched.now }
{
    for c in touched {
        let place = c.index();
        fresh[place] = true;
        plain[place] = !after.is_formula(*c);
    }
}

/// Whether a cell of the region has a formula.
pub(crate) fn has_formula(plain: &[bool], c: Cell) -> bool
    requires { length plain.now ≡ ALL }
    ensures { result ≡ not_plain plain.now c }
{
    !plain[c.index()]
}

/// Clears all marks and notes.
pub(crate) fn clear(
    marks: &mut [bool],
    fresh: &mut [bool],
    plain: &mut [bool],
    members: &mut Vec<Cell>,
)
    requires marks_length { length marks.old ≡ ALL }
    requires fresh_length { length fresh.old ≡ ALL }
    requires plain_length { length plain.old ≡ ALL }
    requires marked { Marked marks.old members.old.items }
    requires fresh_members { (c : ℕ) → slice_index_or fresh.old c false ≡ true → In members.old.items c }
    requires plain_members { (c : ℕ) → slice_index_or plain.old c false ≡ true → In members.old.items c }
    ensures marked { Marked marks.new [] }
    ensures no_fresh { (c : ℕ) → slice_index_or fresh.new c false ≡ false }
    ensures no_plain { (c : ℕ) → slice_index_or plain.new c false ≡ false }
    ensures members { members.new.items ≡ [] }
    ensures room { vec_capacity members.old ≤ vec_capacity members.new }
{
    for c in members.iter() {
        let place = c.index();
        marks[place] = false;
        fresh[place] = false;
        plain[place] = false;
    }
    members.clear();
}
