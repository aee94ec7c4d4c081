//! Where evaluation gets the values of cells from.

ghost use Rattle.std.specs.Prelude.{◌≡◌, ℕ};
ghost use Rattle.ps_value.specs.Operand.{operand_of};
ghost use Rattle.ps_eval.specs.Items.{range_items};
ghost use Rattle.ps_eval.specs.Summarized.{Summarizes};

use crate::summary::Summary;
use ps_grid::{Cell, Rect};
use ps_value::{Operand, Value};

/// A source of the values that cells show.
pub trait Look {
    ghost use Rattle.ps_value.specs.declared.value.Value.{Value as CellValue};

    /// The value that each cell shows.
    ghost value_at: { Self → ℕ → CellValue };

    /// Returns the value that a cell shows.
    fn at(&self, cell: Cell) -> Value
        ensures { result ≡ value_at self.now cell };

    /// Returns the part of the cell's value that evaluation needs: a number, a fault, or only that the value is a text
    /// or nothing.
    ///
    /// For a cell that shows a set of options, the number is how many options are chosen.
    fn operand(&self, cell: Cell) -> Operand
        ensures { result ≡ operand_of (value_at self.now cell) };

    /// Returns the summary of the numbers and faults that the cells of a range show. Calls `operand` for each cell, row
    /// by row.
    ///
    /// Cost: one call for each cell of the range.
    fn summary_by_cells(&self, rect: Rect) -> Summary
        ensures { Summarizes (range_items (value_at self.now) rect) result }
    {
        let mut summary = Summary::new();
        for cell in rect.cells() {
            summary.take_cell(self.operand(cell));
        }
        summary
    }

    /// Returns the same summary as `summary_by_cells`. The default body calls `summary_by_cells`; an implementation may
    /// have a faster body.
    ///
    /// Cost: for the default body, linear in the cells of the range.
    fn summary(&self, rect: Rect) -> Summary
        ensures { Summarizes (range_items (value_at self.now) rect) result }
    {
        self.summary_by_cells(rect)
    }
}
