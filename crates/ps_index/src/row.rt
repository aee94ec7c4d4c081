//! The walk of the cells that refer to a row of a column where no span has more rows than one.

ghost use Rattle.std.specs.Prelude.{◌≡◌, ℕ, ◌<◌, ◌≤◌, length};
ghost use Rattle.std.specs.Iterator.{YieldsFirst, item_count};
ghost use Rattle.ps_grid.specs.declared.size.TheConstants.{CELLS as ALL};
ghost use Rattle.ps_index.specs.Inside.Columns.{IsColumn};
ghost use Rattle.ps_index.specs.Spans.{cell_of, cells_from, refers_at};
ghost use Rattle.ps_index.specs.declared.span.Span.{Span as TheSpan};

use crate::counts::RowCounts;
use crate::nodes::LEVELS;
use crate::spans::Spans;
use ps_grid::{Cell, ROWS};
use std::marker::Model;

/// An iterator over the cells that refer to one cell, whose column never had a span of several rows. It yields them in
/// the order of their indices and each once.
///
/// A contract sees the iterator as the list of the cells that are still to come.
///
/// Cost: a step looks at one span. If several formulas are put in for the cell that the step before yielded, the step
/// first passes over the further spans of that cell.
#[derive(Drop)]
pub struct RowReaders<'a> {
    /// the spans of the column
    spans: &'a Spans,
    /// the row that is referred to; all its spans stand together
    row: usize,
    /// the place of the next span
    place: usize,
    /// the place after the row's last span
    end: usize,
    /// the cells below this one came already
    least: usize,
}

impl<'a> Model for RowReaders<'a> {
    ghost use Rattle.std.specs.Prelude.{List, ℕ};
    ghost use Rattle.ps_grid.specs.declared.size.TheConstants.{CELLS};
    ghost use Rattle.ps_index.specs.Inside.Walks.{IsRowWalk};
    ghost use Rattle.ps_index.specs.Spans.{cells_from, refers_at};

    ghost Value = { List ℕ };

    ghost view = { λ w. cells_from (refers_at w.spans.now w.row) w.least CELLS };

    ghost invariant = { λ w. IsRowWalk w.spans.now w.row w.place w.end w.least };
}

impl<'a> RowReaders<'a> {
    /// The walk of the cells that refer to a row, at its beginning.
    #[inline]
    pub(crate) fn new(spans: &'a Spans, column: &RowCounts, row: usize) -> RowReaders<'a>
        requires column { IsColumn spans.now column.now LEVELS }
        requires some { 1 ≤ row }
        requires in_grid { row ≤ ROWS }
        ensures { result ≡ cells_from (refers_at spans.now row) 0 ALL }
    {
        let kept = column.kept_at(row);
        RowReaders {
            spans,
            row,
            place: kept.from as usize,
            end: kept.to as usize,
            least: 0,
        }
    }
}

impl Iterator for RowReaders<'_> {
    type Item = Cell;

    ghost next_gives = { YieldsFirst (λ rest. rest) };

    ghost remaining = { item_count (λ rest. rest) };

    #[inline]
    fn next(&mut self) -> Option<Cell> {
        let place = first_from(self.spans, self.least, self.place, self.end);
        if place == self.end {
            return None;
        }
        let cell = self.spans.at(place).cell;
        self.place = place + 1;
        self.least = cell.index() + 1;
        Some(cell)
    }
}

/// The first of these places whose span has a cell that isn't below `least`.
#[inline]
fn first_from(spans: &Spans, least: usize, from: usize, to: usize) -> usize
    requires ordered { from ≤ to }
    requires within { to ≤ length spans.now }
    ensures from { from ≤ result }
    ensures to { result ≤ to }
    ensures passed { (i : ℕ) (d : TheSpan) → from ≤ i → i < result → cell_of spans.now i d < least }
    ensures from_least { result < to → (d : TheSpan) → least ≤ cell_of spans.now result d }
{
    let mut place = from;
    while place < to {
        if least <= spans.at(place).cell.index() {
            return place;
        }
        place += 1;
    }
    place
}
