//! The cells at which two states differ.
ghost use Rattle.std.specs.Prelude.{◌≡◌, ◌↔◌, ◌+◌, ◌<◌, ◌≤◌, ℕ, IfErr, IfOk, IsTrue, OnOk};
ghost use Rattle.ps_grid.specs.declared.refusal.Refusal.TheVariants.{Memory};
ghost use Rattle.ps_grid.specs.declared.size.TheConstants.{CELLS};
ghost use Rattle.ps_delta.specs.State.{AreTouched, state_at};
ghost use Rattle.ps_step.specs.Inside.{AreApart};

use ps_delta::{CellState, Grid};
use ps_grid::{CELLS, Cell, Refusal};
use ps_lattice::Join;
use std::alloc::Global;

/// Returns whether two cells hold the same.
fn holds_same(one: &CellState, other: &CellState) -> bool
    ensures { IsTrue result ↔ (one.now ≡ other.now) }
{
    one.below(other) && other.below(one)
}

/// Adds the cell at `index` to `cells`, if the two states differ there.
fn add_cell(one: &Grid, other: &Grid, index: usize, cells: &mut Vec<Cell>) -> Result<(), Refusal>
    requires in_grid { index < CELLS }
    requires before { AreApart (state_at one.now) (state_at other.now) index cells.old.items }
    ensures more { OnOk result (AreApart (state_at one.now) (state_at other.now) (index + 1) cells.new.items) }
    ensures outside { (c : ℕ) → CELLS ≤ c → state_at one.now c ≡ state_at other.now c }
    ensures memory { IfErr result (λ e. e ≡ Memory) }
{
    let cell = Cell::from_index(index).unwrap();
    if holds_same(one.at(cell), other.at(cell)) {
        return Ok(());
    }
    cells.push(cell)?;
    Ok(())
}

/// Returns the cells at which two states differ, in order. Fails only when out of memory.
///
/// Cost: the cells of the grid.
pub(crate) fn cells_apart(alloc: Global, one: &Grid, other: &Grid) -> Result<Vec<Cell>, Refusal>
    ensures apart { IfOk result (λ cells. AreTouched (state_at one.now) (state_at other.now) cells.items) }
    ensures memory { IfErr result (λ e. e ≡ Memory) }
{
    let mut cells = Vec::new(alloc);
    for index in 0..CELLS {
        add_cell(one, other, index, &mut cells)?;
    }
    Ok(cells)
}
