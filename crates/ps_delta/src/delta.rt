//! Deltas: the changes that replicas exchange.

ghost use Rattle.std.specs.Prelude.{◌≡◌, ◌≢◌, ◌↔◌, ◌<◌, [], ◌∷◌, IsTrue, IfOk, IfErr, OnErr, length};
ghost use Rattle.std.specs.Bool.{OnTrue};
ghost use Rattle.std.specs.Option.{SomeIff};
ghost use Rattle.ps_grid.specs.declared.refusal.Refusal.{Refusal};
ghost use Rattle.ps_delta.specs.State.{empty_cell};
ghost use Rattle.ps_delta.specs.Deltas.{AreEntries, AreInGrid, IsDelta, joined_history, state_of};

use crate::cell_state::CellState;
use crate::delta_cells::DeltaCells;
use crate::joining::{in_order, joined_in_order};
use ps_grid::{Cell, Refusal, Twin};
use ps_lattice::is_ascending;
use std::alloc::Global;
use std::marker::Model;

/// A delta: one or more cells, ascending and distinct, each with a state that isn't empty.
///
/// A delta stands for the state of a grid in which all other cells are empty. A contract sees a delta as the list of
/// its cells with their states.
pub struct Delta {
    cells: DeltaCells,
}

impl Model for Delta {
    ghost use Rattle.ps_delta.specs.Deltas.{Entries, IsDelta, AreInGrid};
    ghost use Rattle.ps_delta.specs.Inside.DeltaCells.{kept_entries};
    ghost use Rattle.ps_delta.specs.contracts.cell_state.CellState as cell_state;
    ghost use Rattle.std.specs.Coded.{codes};

    ghost Value = { Entries };

    ghost coded = { Prim.hlevel (codes, cell_state.the_row.coded) };

    ghost view = { λ d. kept_entries d.cells };

    ghost invariant = { λ d. IsDelta (kept_entries d.cells) × AreInGrid (kept_entries d.cells) };
}

impl Delta {
    /// Returns the delta of these cells with their states, and frees the spare capacity of the list.
    ///
    /// Returns `None` if there are no cells, if they aren't ascending and distinct, or if one has an empty state.
    ///
    /// Refused only when out of memory. A list of one cell, or a list for which the result is `None`, is never refused.
    ///
    /// Cost: linear in the number of cells; one allocation, or none for one cell.
    pub fn new(alloc: Global, cells: Vec<(Cell, CellState)>) -> Result<Option<Delta>, Refusal>
        ensures made { IfOk result (λ o. SomeIff o (IsDelta cells.items) cells.items) }
        ensures memory { IfErr result (λ e. e ≡ Refusal.Memory) }
        ensures asked { OnErr result (IsDelta cells.items × (1 < length cells.items)) }
    {
        if cells.is_empty() || !are_entries(&cells) {
            return Ok(None);
        }
        Ok(Some(Delta {
            cells: DeltaCells::new(alloc, cells)?,
        }))
    }

    /// Returns the delta of one cell; `None` if the state is empty. It takes no memory.
    #[inline(always)]
    pub fn of_one(cell: Cell, state: CellState) -> Option<Delta>
        ensures { SomeIff result (IsDelta ((cell, state) ∷ [])) ((cell, state) ∷ []) }
    {
        if state.is_empty() {
            None
        } else {
            Some(Delta::of_filled(cell, state))
        }
    }

    /// Returns the delta of one cell, whose state isn't empty. It takes no memory.
    #[inline(always)]
    pub fn of_filled(cell: Cell, state: CellState) -> Delta
        requires { state ≢ empty_cell }
        ensures made { result ≡ (cell, state) ∷ [] }
        ensures delta { IsDelta result }
    {
        // it tells the prover that the cell is in the grid
        let _ = cell.index();
        Delta {
            cells: DeltaCells::One((cell, state)),
        }
    }

    /// Returns the join of one or more deltas.
    ///
    /// Refused only when out of memory.
    ///
    /// Cost: n log n for n cells in all deltas together, and for each of these cells one copy or one join of its state.
    pub fn joined(alloc: Global, deltas: &[Delta]) -> Result<Delta, Refusal>
        requires { 0 < length deltas.now }
        ensures joined { IfOk result (λ d. state_of d ≡ joined_history deltas.now) }
        ensures memory { IfErr result (λ e. e ≡ Refusal.Memory) }
    {
        let entries = in_order(alloc, deltas)?;
        let cells = joined_in_order(alloc, &entries)?;
        Ok(Delta {
            cells: DeltaCells::new(alloc, cells)?,
        })
    }

    /// Returns the delta of these cells; `None` if there are none. Unlike `new`, it relies on their order and states.
    pub(crate) fn of_list(
        alloc: Global,
        cells: Vec<(Cell, CellState)>,
    ) -> Result<Option<Delta>, Refusal>
        requires { AreEntries cells.items × AreInGrid cells.items }
        ensures made { IfOk result (λ o. SomeIff o (0 < length cells.items) cells.items) }
        ensures memory { IfErr result (λ e. e ≡ Refusal.Memory) }
        ensures asked { OnErr result (0 < length cells.items) }
    {
        if cells.is_empty() {
            return Ok(None);
        }
        Ok(Some(Delta {
            cells: DeltaCells::new(alloc, cells)?,
        }))
    }

    /// Returns the cells of the delta, ascending, with their states.
    pub fn parts(&self) -> &[(Cell, CellState)]
        ensures value { result.now ≡ self.now }
        ensures delta { IsDelta result.now }
        ensures in_grid { AreInGrid result.now }
    {
        self.cells.as_slice()
    }
}

/// A twin shares what the delta owns, and takes no memory.
impl Twin for Delta {
    #[inline(always)]
    fn twin(&self, alloc: Global) -> Result<Delta, Refusal> {
        Ok(Delta {
            cells: self.cells.share(alloc)?,
        })
    }
}

/// Frees the cells with the delta. It is a function so that callers needn't know what a delta may hold.
impl Drop for Delta {
    fn drop(self) {
        let Delta { cells: _ } = self;
    }
}

/// Whether the cells are ascending and distinct, and none has an empty state.
fn are_entries(cells: &[(Cell, CellState)]) -> bool
    ensures entries { IsTrue result ↔ AreEntries cells.now }
    ensures in_grid { OnTrue result (AreInGrid cells.now) }
{
    if !is_ascending(cells) {
        return false;
    }
    for entry in cells {
        // it tells the prover that the cell is in the grid
        let _ = entry.0.index();
        if entry.1.is_empty() {
            return false;
        }
    }
    true
}
