//! Lists the cells of a grid that aren't empty.

ghost use Rattle.std.specs.Prelude.{◌≡◌, ◌<◌, ◌+◌, ◌*◌, IfOk, IfErr, OnOk};
ghost use Rattle.ps_grid.specs.declared.refusal.Refusal.{Refusal};
ghost use Rattle.ps_grid.specs.declared.size.TheConstants.{CELLS};
ghost use Rattle.ps_delta.specs.State.{state_at};
ghost use Rattle.ps_delta.specs.Deltas.{AreEntries, state_of};
ghost use Rattle.ps_delta.specs.Inside.Firsts.{AreFirst};
ghost use Rattle.ps_delta.specs.declared.block.TheConstants.{BLOCK};
ghost use Rattle.ps_delta.specs.declared.grid.TheConstants.{BLOCKS};

use crate::block::BLOCK;
use crate::cell_state::CellState;
use crate::grid::Grid;
use ps_grid::{Cell, Refusal, Twin};
use std::alloc::Global;

impl Grid {
    /// Returns the cells whose state isn't empty, ascending, each with its state.
    ///
    /// Refused only when out of memory.
    ///
    /// Cost: linear in the blocks of the grid. A block with states takes 64 steps, one for each of its cells, and a
    /// copy of each state that isn't empty.
    pub fn entries(&self, alloc: Global) -> Result<Vec<(Cell, CellState)>, Refusal>
        ensures entries { IfOk result (λ entries. AreEntries entries.items) }
        ensures same { IfOk result (λ entries. state_of entries.items ≡ state_at self.now) }
        ensures memory { IfErr result (λ e. e ≡ Refusal.Memory) }
    {
        let mut entries = Vec::new(alloc);
        for index in 0..self.blocks().len() {
            add_block(alloc, self, index, &mut entries)?;
        }
        Ok(entries)
    }
}

/// Appends those cells of the block at the index whose state isn't empty. `entries` has the cells before the block.
fn add_block(
    alloc: Global,
    grid: &Grid,
    index: usize,
    entries: &mut Vec<(Cell, CellState)>,
) -> Result<(), Refusal>
    requires in_grid { index < BLOCKS }
    requires before { AreFirst (state_at grid.now) (index * BLOCK) entries.old.items }
    ensures more { OnOk result (AreFirst (state_at grid.now) ((index + 1) * BLOCK) entries.new.items) }
    ensures memory { IfErr result (λ e. e ≡ Refusal.Memory) }
{
    if grid.blocks()[index].is_unmade() {
        return Ok(());
    }
    for place in 0..BLOCK {
        add_cell(alloc, grid, index * BLOCK + place, entries)?;
    }
    Ok(())
}

/// Adds the cell at the index to those before it, if it holds something.
fn add_cell(
    alloc: Global,
    grid: &Grid,
    index: usize,
    entries: &mut Vec<(Cell, CellState)>,
) -> Result<(), Refusal>
    requires in_grid { index < CELLS }
    requires before { AreFirst (state_at grid.now) index entries.old.items }
    ensures more { OnOk result (AreFirst (state_at grid.now) (index + 1) entries.new.items) }
    ensures memory { IfErr result (λ e. e ≡ Refusal.Memory) }
{
    let cell = Cell::from_index(index).unwrap();
    let state = grid.at(cell);
    if state.is_empty() {
        return Ok(());
    }
    entries.push((cell, state.twin(alloc)?))?;
    Ok(())
}
