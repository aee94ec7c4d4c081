//! Cells with their states, as a delta stores them.

ghost use Rattle.std.specs.Prelude.{◌≡◌, ◌<◌, IfOk, IfErr, OnErr, length};
ghost use Rattle.ps_grid.specs.declared.refusal.Refusal.{Refusal};
ghost use Rattle.ps_delta.specs.Inside.DeltaCells.{kept_entries};

use crate::cell_state::CellState;
use ps_grid::{Cell, Refusal, Twin};
use std::alloc::Global;
use std::slice;
use std::sync::Arc;

/// Cells with their states, which nobody changes any more.
///
/// Most deltas have one cell. It lies in this value itself, without an allocation. Several cells lie in a list with any
/// number of owners.
#[derive(Drop)]
pub(crate) enum DeltaCells {
    One((Cell, CellState)),
    Several(Arc<Vec<(Cell, CellState)>>),
}

impl DeltaCells {
    /// Stores the cells of the list, and frees its spare capacity.
    pub(crate) fn new(
        alloc: Global,
        mut cells: Vec<(Cell, CellState)>,
    ) -> Result<DeltaCells, Refusal>
        requires some { 0 < length cells.items }
        ensures kept { IfOk result (λ d. kept_entries d ≡ cells.items) }
        ensures memory { IfErr result (λ e. e ≡ Refusal.Memory) }
        ensures several { OnErr result (1 < length cells.items) }
    {
        if cells.len() == 1 {
            return Ok(DeltaCells::One(cells.swap_remove(0)));
        }
        cells.shrink_to_fit();
        Ok(DeltaCells::Several(Arc::new(alloc, cells)?))
    }

    /// Returns the cells with their states.
    pub(crate) fn as_slice(&self) -> &[(Cell, CellState)]
        ensures { result.now ≡ kept_entries self.now }
    {
        match self {
            DeltaCells::One(entry) => slice::from_ref(entry),
            DeltaCells::Several(cells) => cells,
        }
    }

    /// Returns a copy that shares the list of cells or, for one cell, what its state owns. It takes no memory.
    #[inline(always)]
    pub(crate) fn share(&self, alloc: Global) -> Result<DeltaCells, Refusal>
        ensures equal { IfOk result (λ d. kept_entries d ≡ kept_entries self.now) }
        ensures memory { IfErr result (λ e. e ≡ Refusal.Memory) }
    {
        match self {
            DeltaCells::One(entry) => Ok(DeltaCells::One((entry.0, entry.1.twin(alloc)?))),
            DeltaCells::Several(cells) => Ok(DeltaCells::Several(cells.clone()?)),
        }
    }
}
