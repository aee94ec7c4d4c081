//! The join of what a selection takes of deltas.
ghost use Rattle.std.specs.Prelude.{◌≡◌, ◌∷◌, [], IfErr, IfOk, OnOk};
ghost use Rattle.ps_grid.specs.declared.refusal.Refusal.TheVariants as refusals;
ghost use Rattle.ps_delta.specs.State.{joined_state, state_at};
ghost use Rattle.ps_delta.specs.Deltas.{state_of};
ghost use Rattle.ps_squash.specs.Selected.{delta_without};
ghost use Rattle.ps_squash.specs.Inside.{sum_after, sum_before, sum_of};

use crate::selection::{LeftOut, Selection};
use crate::without::cell_without;
use ps_delta::{CellState, Delta, Grid};
use ps_grid::{CELLS, Cell, Refusal};
use ps_lattice::Join;
use std::alloc::Global;

/// The join of what a selection takes of the deltas so far.
#[derive(Drop)]
pub(crate) struct Taken {
    /// The join.
    pub state: Grid,
    /// The selection of the deltas to come.
    pub still: Selection,
    /// The number of deltas so far; 2^64 - 1 stands for more, too.
    pub read: u64,
    /// The number of deltas that were left out whole; 2^64 - 1 stands for more, too.
    pub passed: u64,
    /// For each cell of the grid, by index, whether it lost a part of a replica; empty if no replica is left out.
    pub lost: Vec<bool>,
}

impl Taken {
    /// Creates the join of nothing.
    ///
    /// Fails as `Memory`.
    pub(crate) fn new(alloc: Global, selection: Selection) -> Result<Taken, Refusal>
        ensures before { IfOk result (λ t. sum_of (state_at t.state) t.still ≡ sum_before selection) }
        ensures memory { IfErr result (λ e. e ≡ refusals.Memory) }
    {
        let state = Grid::new(alloc)?;
        let mut lost = Vec::new(alloc);
        if selection.without.is_some() {
            lost.resize(CELLS, false)?;
        }
        Ok(Taken {
            state,
            still: selection,
            read: 0,
            passed: 0,
            lost,
        })
    }

    /// Counts one more delta, and joins what the selection takes of it.
    ///
    /// Fails as `Memory`.
    pub(crate) fn add(&mut self, alloc: Global, delta: &Delta) -> Result<(), Refusal>
        ensures joined { OnOk result (sum_of (state_at self.new.state) self.new.still
            ≡ sum_after (sum_of (state_at self.old.state) self.old.still) (delta.now ∷ [])) }
        ensures memory { IfErr result (λ e. e ≡ refusals.Memory) }
    {
        self.read = self.read.saturating_add(1);
        if !self.still.count_one() {
            self.passed = self.passed.saturating_add(1);
            return Ok(());
        }
        match self.still.without {
            None => self.state.join(alloc, delta),
            Some(replica) => {
                join_without(alloc, replica, delta, &mut self.state, &mut self.lost)
            }
        }
    }

    /// Returns what was left out so far.
    pub(crate) fn left_out(&self) -> LeftOut {
        let mut cells = 0u64;
        for is_lost in self.lost.as_slice() {
            if *is_lost {
                cells = cells.saturating_add(1);
            }
        }
        LeftOut {
            read: self.read,
            lines: self.passed,
            cells,
        }
    }
}

/// Joins a delta without the parts of a replica into `state`, and marks in `lost` each cell that lost a part.
///
/// Fails as `Memory`.
fn join_without(
    alloc: Global,
    replica: u8,
    delta: &Delta,
    state: &mut Grid,
    lost: &mut Vec<bool>,
) -> Result<(), Refusal>
    ensures joined { OnOk result (state_at state.new
        ≡ joined_state (state_at state.old) (state_of (delta_without replica delta.now))) }
    ensures memory { IfErr result (λ e. e ≡ refusals.Memory) }
{
    let mut left = delta.parts();
    'cells: while let Some((entry, rest)) = left.split_first() {
        join_cell(alloc, replica, entry, state, lost)?;
        left = rest;
    }
    Ok(())
}

/// Joins a cell without the parts of a replica into `state`, and marks the cell in `lost` if it lost a part.
///
/// Fails as `Memory`.
fn join_cell(
    alloc: Global,
    replica: u8,
    entry: &(Cell, CellState),
    state: &mut Grid,
    lost: &mut Vec<bool>,
) -> Result<(), Refusal>
    ensures joined { OnOk result (state_at state.new
        ≡ joined_state (state_at state.old) (state_of (delta_without replica (entry.now ∷ [])))) }
    ensures memory { IfErr result (λ e. e ≡ refusals.Memory) }
{
    let kept = cell_without(alloc, &entry.1, replica)?;
    if !entry.1.below(&kept) {
        mark(entry.0, lost);
    }
    if kept.is_empty() {
        return Ok(());
    }
    state.join(alloc, &Delta::of_filled(entry.0, kept))
}

/// Marks a cell, if there is a mark for each cell.
fn mark(cell: Cell, marks: &mut Vec<bool>) {
    if let Some(is_marked) = marks.get_mut(cell.index()) {
        *is_marked = true;
    }
}
