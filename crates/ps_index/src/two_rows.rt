//! The walk of the cells that refer to a row of a column where all spans of several rows are stored at one level.

ghost use Rattle.std.specs.Prelude.{◌≡◌, ℕ, ◌+◌, ◌<◌, ◌≤◌, length, min};
ghost use Rattle.std.specs.Iterator.{YieldsFirst, item_count};
ghost use Rattle.ps_grid.specs.declared.size.TheConstants.{CELLS as ALL};
ghost use Rattle.ps_index.specs.Inside.Columns.{AreBelow, IsColumn};
ghost use Rattle.ps_index.specs.Inside.Nodes.{node_of};
ghost use Rattle.ps_index.specs.Inside.Walks.{IsAt, IsOn};
ghost use Rattle.ps_index.specs.Spans.{cell_of, cells_from, refers_at};
ghost use Rattle.ps_index.specs.declared.span.Span.{Span as TheSpan};

use crate::counts::RowCounts;
use crate::spans::Spans;
use crate::walk::passed;
use ps_grid::{CELLS, Cell, ROWS};
use std::marker::Model;

/// The first span left of a run (the spans stored at one row): its place, and its cell. The cell is `CELLS` if nothing
/// is left.
#[derive(Clone, Copy)]
struct Head {
    place: usize,
    cell: usize,
}

/// An iterator over the cells that refer to one cell, in whose column all spans of several rows are stored at one level
/// of the tree of rows (see the crate). It yields them in the order of their indices and each once.
///
/// The spans that contain the cell's row are stored at two rows: the cell's row, and the one row of that level above it
/// in the tree. A contract sees the iterator as the list of the cells that are still to come.
///
/// Cost: a step passes over the spans of the cell that it yields. It also passes over spans that don't contain the row,
/// up to the next cell.
#[derive(Drop)]
pub struct TwoRowReaders<'a> {
    /// the spans of the column
    spans: &'a Spans,
    /// the row that is referred to
    row: usize,
    /// of the spans stored at the row itself, the first that is left and has the row
    own: Head,
    /// the place after the last of these
    own_end: usize,
    /// of the spans stored at the row above it, the first that is left and has the row
    upper: Head,
    /// the place after the last of these
    upper_end: usize,
}

impl<'a> Model for TwoRowReaders<'a> {
    ghost use Rattle.std.specs.Prelude.{List, ℕ, min};
    ghost use Rattle.ps_grid.specs.declared.size.TheConstants.{CELLS};
    ghost use Rattle.ps_index.specs.Inside.Walks.{AreHeads};
    ghost use Rattle.ps_index.specs.Spans.{cells_from, refers_at};

    ghost Value = { List ℕ };

    ghost view = { λ w. cells_from (refers_at w.spans.now w.row) (min w.own.cell w.upper.cell) CELLS };

    ghost invariant = { λ w. AreHeads w.spans.now w.row w.own.place w.own_end w.own.cell w.upper.place w.upper_end
        w.upper.cell };
}

impl<'a> TwoRowReaders<'a> {
    /// The walk of the cells that refer to a row, at its beginning. Ranges are stored at one level alone, and `key` is
    /// the row of that level on the way down to this one.
    #[inline(always)]
    pub(crate) fn new(
        spans: &'a Spans,
        column: &RowCounts,
        row: usize,
        key: usize,
    ) -> TwoRowReaders<'a>
        requires column { (level above : ℕ) × (IsColumn spans.now column.now level) × (AreBelow spans.now above)
            × (above ≡ level + 1) × (key ≡ node_of row level) }
        requires some { 1 ≤ row }
        requires in_grid { row ≤ ROWS }
        requires key_some { 1 ≤ key }
        requires key_in_grid { key ≤ ROWS }
        ensures { result ≡ cells_from (refers_at spans.now row) 0 ALL }
    {
        let at_row = column.kept_at(row);
        let above = column.kept_at(key);
        let own_end = at_row.to as usize;
        let upper_end = above.to as usize;
        let own = head_from(spans, row, 0, at_row.from as usize, own_end);
        let upper = head_from(spans, row, 0, above.from as usize, upper_end);
        TwoRowReaders {
            spans,
            row,
            own,
            own_end,
            upper,
            upper_end,
        }
    }
}

impl Iterator for TwoRowReaders<'_> {
    type Item = Cell;

    ghost next_gives = { YieldsFirst (λ rest. rest) };

    ghost remaining = { item_count (λ rest. rest) };

    #[inline(always)]
    fn next(&mut self) -> Option<Cell> {
        let first = self.own.cell.min(self.upper.cell);
        let cell = Cell::from_index(first)?;
        let own = past(self.spans, self.row, first, self.own, self.own_end);
        let upper = past(self.spans, self.row, first, self.upper, self.upper_end);
        self.own = own;
        self.upper = upper;
        Some(cell)
    }
}

/// The first of these spans that has the row and a cell which isn't below `least`.
#[inline(always)]
fn head_from(spans: &Spans, row: usize, least: usize, from: usize, to: usize) -> Head
    requires ordered { from ≤ to }
    requires within { to ≤ length spans.now }
    requires least { least ≤ ALL }
    ensures { IsOn spans.now row least from to result.place result.cell }
{
    let place = passed(spans, row, least, from, to);
    Head {
        place,
        cell: cell_at(spans, place, to),
    }
}

/// Returns the head of a run once the iterator has yielded the cell `first`. No cell that is left is below `first`.
#[inline(always)]
fn past(spans: &Spans, row: usize, first: usize, head: Head, end: usize) -> Head
    requires at { IsAt spans.now row head.place end head.cell }
    requires ordered { head.place ≤ end }
    requires within { end ≤ length spans.now }
    requires first { first ≤ head.cell }
    requires small { first < ALL }
    ensures { IsOn spans.now row (first + 1) head.place end result.place result.cell }
{
    if head.cell == first {
        head_from(spans, row, first + 1, head.place + 1, end)
    } else {
        head
    }
}

/// The cell of the span at a place; `CELLS` if that is the end.
#[inline(always)]
fn cell_at(spans: &Spans, place: usize, end: usize) -> usize
    requires { end ≤ length spans.now }
    ensures small { result ≤ ALL }
    ensures none { end ≤ place → result ≡ ALL }
    ensures there { place < end → (d : TheSpan) → cell_of spans.now place d ≡ result }
{
    if place < end {
        spans.at(place).cell.index()
    } else {
        CELLS
    }
}
