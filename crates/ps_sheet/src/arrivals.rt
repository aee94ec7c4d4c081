//! Deltas that a sheet accepts together.

ghost use Rattle.std.specs.Prelude.{◌≡◌, ◌≤◌, ◌⊎◌, ◌↔◌, ◌++◌, [], List, true, Err};
ghost use Rattle.std.specs.Prelude.{IfOk, IfErr, IsErrOf, IsOk, OnErr, OnOk};
ghost use Rattle.ps_delta.specs.Deltas.{Entries, joined_history};
ghost use Rattle.ps_sheet.specs.Arrivals.{Follow, IsMade, IsTakenIn};
ghost use Rattle.ps_sheet.specs.Edits.{delta_of_edit};
ghost use Rattle.ps_sheet.specs.Sheet.{IsSheet};

use crate::edit_delta::delta_of;
use crate::sheet::Sheet;
use ps_delta::{Delta, Edit, Grid};
use ps_grid::{REPLICAS, Refusal};
use ps_lattice::Join;
use std::alloc::Global;
use std::marker::Model;

/// A list of deltas to append to the history of a sheet, by [`Sheet::receive_all`].
///
/// Each delta adds something new to the join of the history and of the deltas before it. Each is joined when it is
/// added to the list, and nothing is evaluated before `receive_all`. A contract sees the list as its `ArrivalsView`.
#[derive(Drop)]
pub struct Arrivals {
    /// the deltas, in the order in which they came
    pub(crate) deltas: Vec<Delta>,
    /// the join of the sheet's history and of the deltas
    pub(crate) grid: Grid,
}

impl Model for Arrivals {
    ghost use Rattle.ps_sheet.specs.Arrivals.{ArrivalsView};

    ghost Value = { ArrivalsView };

    ghost use Rattle.ps_sheet.specs.ArrivalsCode.{arrivals_code};

    ghost coded = { arrivals_code };

    ghost view = { λ a. record { deltas = a.deltas.items; grid = a.grid } };
}

impl Arrivals {
    /// Creates an empty list, for deltas that come after the history of `sheet`.
    ///
    /// Fails only when out of memory.
    ///
    /// Cost: linear in the blocks of 64 cells that the grid has, and in the cells of those blocks in which the sheet
    /// ever changed a cell.
    pub fn after(alloc: Global, sheet: &Sheet) -> Result<Arrivals, Refusal>
        ensures none { IfOk result (λ a. a.deltas ≡ []) }
        ensures follow { IfOk result (Follow sheet.now.history) }
        ensures sheet { IsSheet sheet.now }
        ensures memory { IfErr result (λ e. e ≡ Refusal.Memory) }
    {
        // for the fact that it is a sheet (`IsSheet`)
        let _ = sheet.version();
        let mut grid = Grid::new(alloc)?;
        Join::join(&mut grid, alloc, sheet.grid())?;
        Ok(Arrivals {
            deltas: Vec::new(alloc),
            grid,
        })
    }

    /// Adds a delta at the end of the list, and returns true.
    ///
    /// Returns false, and adds nothing, if the delta adds nothing new to the join of the history and of the list.
    ///
    /// Fails only when out of memory, and then the list is as before.
    ///
    /// Cost: that of [`Grid::join`].
    pub fn receive(&mut self, alloc: Global, delta: Delta) -> Result<bool, Refusal>
        ensures taken { IfOk result (λ is. (h : List Entries) → Follow h self.old
            → IsTakenIn h self.old self.new delta is) }
        ensures follow { (h : List Entries) → Follow h self.old → Follow h self.new }
        ensures kept { OnErr result (self.new.deltas ≡ self.old.deltas) }
        ensures memory { IfErr result (λ e. e ≡ Refusal.Memory) }
    {
        if self.grid.covers(&delta) {
            return Ok(false);
        }
        self.deltas.reserve(1)?;
        self.grid.join(alloc, &delta)?;
        self.deltas.push_reserved(delta);
        Ok(true)
    }

    /// Returns whether the list has no delta.
    pub fn is_empty(&self) -> bool
        ensures { (result ≡ true) ↔ (self.now.deltas ≡ []) }
    {
        self.deltas.is_empty()
    }

    /// Makes the delta of an edit at a replica, over the join of the history and of the list, and adds it to the list.
    ///
    /// Fails with the refusal that [`Sheet::edit`] would return after the sheet had appended the list. The list is then
    /// as before.
    ///
    /// Cost: that of the delta, and of [`Grid::join`].
    pub fn edit(&mut self, alloc: Global, replica: u8, edit: Edit) -> Result<(), Refusal>
        requires replica { (1 ≤ replica) × (replica ≤ REPLICAS) }
        ensures made { OnOk result ((h : List Entries) → Follow h self.old
            → IsMade replica h self.old edit self.new) }
        ensures follow { (h : List Entries) → Follow h self.old → Follow h self.new }
        ensures kept { OnErr result (self.new.deltas ≡ self.old.deltas) }
        ensures refused { IfErr result (λ e. (e ≡ Refusal.Memory) ⊎ ((h : List Entries) → Follow h self.old
            → delta_of_edit replica (joined_history (h ++ self.old.deltas)) edit ≡ Err e)) }
        ensures asked { IsErrOf result Refusal.Memory → (h : List Entries) → Follow h self.old
            → IsOk (delta_of_edit replica (joined_history (h ++ self.old.deltas)) edit) }
    {
        let delta = delta_of(alloc, &self.grid, replica, edit)?;
        self.deltas.reserve(1)?;
        self.grid.join(alloc, &delta)?;
        self.deltas.push_reserved(delta);
        Ok(())
    }
}
