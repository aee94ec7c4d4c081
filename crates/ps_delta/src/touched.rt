//! A list of cells with room for every cell of the grid.

ghost use Rattle.std.specs.Prelude.{◌≡◌, ◌<◌, ◌++◌, [], ◌∷◌, IfOk, IfErr};
ghost use Rattle.std.specs.List.{All};
ghost use Rattle.ps_grid.specs.declared.refusal.Refusal.{Refusal};
ghost use Rattle.ps_grid.specs.declared.size.TheConstants.{CELLS};

use ps_grid::{CELLS, Cell, Refusal};
use std::alloc::Global;
use std::marker::Model;

/// A list of the cells whose state a join would change, ascending. A contract sees a `Touched` as the list of its
/// cells.
///
/// `Grid::touched` fills the list. The list has room for every cell of the grid, so `Grid::touched` takes no memory. A
/// sheet calls `Grid::changes_by` instead, which lists the same cells with their states.
#[derive(Drop)]
pub struct Touched {
    cells: Vec<Cell>,
}

impl Model for Touched {
    ghost use Rattle.std.specs.Prelude.{ℕ, List};

    ghost Value = { List ℕ };

    ghost use Rattle.ps_delta.specs.Room.{HasRoom};

    ghost view = { λ t. t.cells.items };

    ghost invariant = { λ t. HasRoom t.cells };
}

impl Touched {
    /// Creates an empty list, with room for the whole grid.
    ///
    /// Refused only when out of memory.
    ///
    /// Cost: one allocation, of four bytes for each cell of the grid.
    pub fn new(alloc: Global) -> Result<Touched, Refusal>
        ensures empty { IfOk result (λ t. t ≡ []) }
        ensures memory { IfErr result (λ e. e ≡ Refusal.Memory) }
    {
        let cells = Vec::with_capacity(alloc, CELLS)?;
        Ok(Touched { cells })
    }

    /// Returns the listed cells, ascending.
    pub fn cells(&self) -> &[Cell]
        ensures value { result.now ≡ self.now }
        ensures in_grid { All (λ c. c < CELLS) result.now }
    {
        &self.cells
    }

    /// Removes all cells.
    pub(crate) fn clear(&mut self)
        ensures { self.new ≡ [] }
    {
        self.cells.clear();
    }

    /// Adds a cell that comes after all the others.
    pub(crate) fn add(&mut self, cell: Cell)
        requires in_grid { cell < CELLS }
        requires above { All (λ c. c < cell) self.old }
        ensures { self.new ≡ self.old ++ cell ∷ [] }
    {
        self.cells.push_reserved(cell);
    }
}
