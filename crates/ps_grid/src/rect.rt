//! Rectangles of cells.

ghost use Rattle.std.specs.Prelude.{◌≡◌, ℕ, ◌<◌, ◌≤◌, nat_eq};
ghost use Rattle.ps_grid.specs.Rectangle.{area, cell_within, cells_of, first_cell, LiesInGrid, is_inside};
ghost use Rattle.ps_grid.specs.Rectangle.{last_cell, nth_cell, spanned};
ghost use Rattle.std.specs.Iterator.{YieldsFirst, item_count};
ghost use Rattle.std.specs.List.{IsDistinct, list_any};

use crate::cell::Cell;
use crate::size::{COLUMNS, ROWS};
use std::marker::Model;

/// A rectangle of at least one cell. Contracts see a rectangle as its `Area`: its left column and its top row, both
/// counted from 0, and how many columns and rows it has.
#[derive(Clone, Copy, Debug, PartialEq, Eq, PartialOrd, Ord, Hash)]
pub struct Rect {
    left: u8,
    top: u16,
    width: u8,
    height: u16,
}

impl Model for Rect {
    ghost use Rattle.ps_grid.specs.Rectangle.{Area, LiesInGrid};

    ghost Value = { Area };

    ghost view = { λ r. record { left = r.left; top = r.top; width = r.width; height = r.height } };

    ghost invariant = { λ r. LiesInGrid (record { left = r.left; top = r.top; width = r.width; height = r.height }) };

    ghost inverse = { λ a. record { left = a.left; top = a.top; width = a.width; height = a.height } };
}

impl Rect {
    /// Returns the smallest rectangle that contains both cells. The cells are opposite corners, given in any order.
    pub fn new(a: Cell, b: Cell) -> Rect
        ensures spanned { result ≡ spanned a b }
        ensures in_grid { LiesInGrid result }
    {
        let left = a.column().min(b.column());
        let right = a.column().max(b.column());
        let upper = a.row().min(b.row());
        let lower = a.row().max(b.row());
        Rect {
            left,
            top: upper - 1,
            width: right - left + 1,
            height: lower - upper + 1,
        }
    }

    /// Returns whether the cell lies in the rectangle.
    pub fn contains(self, cell: Cell) -> bool
        ensures { result ≡ is_inside self cell }
    {
        let column = cell.column();
        let row = cell.row() - 1;
        self.left <= column
            && column < self.left + self.width
            && self.top <= row
            && row < self.top + self.height
    }

    /// Returns how many columns the rectangle has, at least 1.
    pub fn width(self) -> usize
        ensures width { result ≡ self.width }
        ensures some { 1 ≤ result }
        ensures in_grid { result ≤ COLUMNS }
    {
        self.width as usize
    }

    /// Returns how many rows the rectangle has, at least 1.
    pub fn height(self) -> usize
        ensures height { result ≡ self.height }
        ensures some { 1 ≤ result }
        ensures in_grid { result ≤ ROWS }
    {
        self.height as usize
    }

    /// Returns how many cells the rectangle has.
    pub fn area(self) -> usize
        ensures area { result ≡ area self }
        ensures in_grid { LiesInGrid self }
    {
        self.width as usize * self.height as usize
    }

    /// Returns the cell at the top left.
    pub fn top_left(self) -> Cell
        ensures { result ≡ first_cell self }
    {
        Cell::at(self.left as usize, self.top as usize)
    }

    /// Returns the cell at the bottom right.
    pub fn bottom_right(self) -> Cell
        ensures { result ≡ last_cell self }
    {
        let column = self.left as usize + self.width as usize - 1;
        let row = self.top as usize + self.height as usize - 1;
        Cell::at(column, row)
    }

    /// Returns an iterator over the cells of the rectangle, row by row, each once.
    ///
    /// Cost: linear in the cells, without a division.
    pub fn cells(self) -> RectCells
        ensures cells { result ≡ cells_of self }
        ensures inside { (c : ℕ) → list_any (nat_eq c) result ≡ is_inside self c }
        ensures once { IsDistinct nat_eq result }
        ensures in_grid { LiesInGrid self }
    {
        RectCells {
            rect: self,
            left: self.area(),
            place: self.top_left().index(),
            across: 0,
        }
    }

    /// Returns the cell `across` columns to the right of the rectangle's left column and `down` rows below its top row.
    pub fn at(self, across: usize, down: usize) -> Cell
        requires across { across < self.width }
        requires down { down < self.height }
        ensures { result ≡ cell_within self across down }
    {
        Cell::at(self.left as usize + across, self.top as usize + down)
    }
}

/// An iterator over the cells of a rectangle, row by row. Contracts see the list of the cells still to come.
#[derive(Drop)]
pub struct RectCells {
    rect: Rect,
    /// how many cells are still to come
    left: usize,
    /// the index of the next cell
    place: usize,
    /// how many cells of the rectangle come before it in its row
    across: usize,
}

impl Model for RectCells {
    ghost use Rattle.std.specs.Prelude.{List, ℕ};
    ghost use Rattle.ps_grid.specs.Inside.Walking.{IsAt, last_cells};

    ghost Value = { List ℕ };

    ghost view = { λ w. last_cells w.rect w.left };

    ghost invariant = { λ w. IsAt w.rect w.left w.place w.across };
}

impl Iterator for RectCells {
    type Item = Cell;

    ghost next_gives = { YieldsFirst (λ rest. rest) };

    ghost remaining = { item_count (λ rest. rest) };

    fn next(&mut self) -> Option<Cell> {
        if self.left == 0 {
            return None;
        }
        let cell = Cell::with_index(self.place);
        self.left -= 1;
        self.place += 1;
        self.across += 1;
        if self.across == self.rect.width() {
            self.across = 0;
            self.place += COLUMNS - self.rect.width();
        }
        Some(cell)
    }
}
