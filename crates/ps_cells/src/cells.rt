//! What the cells of one replica hold and show, where at most one change is staged.

ghost use Rattle.std.specs.Prelude.{◌≡◌, ◌+◌, ◌<◌, ◌≤◌, [], ◌∷◌, true, is_some, map, None};
ghost use Rattle.std.specs.Prelude.{IfOk, IfErr, IfSome, OnOk, OnErr};
ghost use Rattle.ps_grid.specs.declared.parties.TheConstants.{WORKERS};
ghost use Rattle.ps_delta.specs.State.{IsInGrid, empty_state, joined_state};
ghost use Rattle.ps_delta.specs.Deltas.{state_of};
ghost use Rattle.ps_shown.specs.Shown.{shown_at};
ghost use Rattle.ps_cells.specs.Cells.{AreTheSame, shown_before, shown_now, state_before, state_now};
ghost use Rattle.ps_cells.specs.ChangedCells.{IsChanged};
ghost use Rattle.ps_cells.specs.Recalculated.{IsRecalculated};
ghost use Rattle.ps_cells.specs.Settled.{IsSettled};

use crate::change::Lists;
use crate::tables::{Tables, Work};
use ps_delta::{Delta, Grid};
use ps_eval::Meter;
use ps_grid::{Cell, Refusal};
use ps_shown::Shown;
use ps_value::Value;
use ps_workers::Gate;
use std::alloc::Global;
use std::marker::Model;
use std::sync::ledger::Ledger;
use std::thread::Threads;

/// What the cells of one replica hold and show. A change of the cells is staged, and then committed or cancelled.
///
/// A contract sees a `Cells` as a `CellsView`.
#[derive(Drop)]
pub struct Cells {
    tables: Tables,
    /// lists of the cells that the staged change gave a new state; `states` has the state that each had before
    lists: Lists,
    /// whether a change is staged
    is_staged: bool,
}

impl Model for Cells {
    ghost use Rattle.ps_cells.specs.Cells.{CellsView};

    ghost Value = { CellsView };

    ghost use Rattle.ps_cells.specs.CellsCode.{cells_code};

    ghost coded = { cells_code };

    ghost use Rattle.ps_cells.specs.Inside.Views.{view_of, AreCells};

    ghost view = { view_of };

    ghost invariant = { AreCells };
}

impl Cells {
    /// Returns cells that hold and show nothing.
    ///
    /// `workers`, from 1 to `WORKERS`, is the greatest number of threads that evaluate formulas at once. A change uses
    /// several threads only for many formulas that don't refer to one another.
    ///
    /// Fails only when out of memory.
    ///
    /// Cost: linear in the cells of the grid.
    pub fn new(alloc: Global, workers: usize) -> Result<Cells, Refusal>
        requires workers { (0 < workers) × (workers ≤ WORKERS) }
        ensures empty { IfOk result (λ x. state_now x ≡ empty_state) }
        ensures settled { IfOk result (λ x. IsSettled (state_now x) (shown_now x)) }
        ensures none { IfOk result (λ x. (x.staged ≡ None) × (x.olds ≡ [])) }
        ensures workers { IfOk result (λ x. x.workers ≡ workers) }
        ensures memory { IfErr result (λ e. e ≡ Refusal.Memory) }
    {
        Ok(Cells {
            tables: Tables::new(alloc, workers)?,
            lists: Lists::new(alloc),
            is_staged: false,
        })
    }

    /// Joins a delta to what the cells hold, recalculates what they show, and returns how much was recalculated.
    ///
    /// The change stays staged until `commit` or `cancel`. `rt` starts the workers' threads, and each worker calls the
    /// hook `gate` before each of its evaluations. `meter` counts the evaluations.
    ///
    /// Fails only when out of memory, and then the cells hold and show what they did before the call.
    ///
    /// Cost: the join, and the work for the region (the cells whose values may change). That is the region's cells, the
    /// references to them, and the evaluations, which workers share. If any cell shows `#CYCLE!`, the call also looks
    /// up the references of the region's formulas.
    pub fn stage<R: Threads + Sync, G: Gate, L: Ledger>(
        &mut self,
        rt: &R,
        gate: &G,
        alloc: Global,
        delta: &Delta,
        meter: &mut Meter<L>,
    ) -> Result<Work, Refusal>
        requires none { self.old.staged ≡ None }
        ensures joined { OnOk result (state_now self.new ≡ joined_state (state_now self.old) (state_of delta.now)) }
        ensures in_grid { OnOk result (IsInGrid (state_now self.new)) }
        ensures settled { OnOk result (IsSettled (state_now self.new) (shown_now self.new)) }
        ensures staged { OnOk result (is_some self.new.staged ≡ true) }
        ensures before { OnOk result ((state_before self.new ≡ state_now self.old)
            × (shown_before self.new ≡ shown_now self.old)) }
        ensures work { IfOk result (λ w. IsRecalculated (state_now self.old) (state_now self.new)
            (shown_now self.old) (shown_now self.new) w.evaluated w.cyclic w.levels) }
        ensures metered { IfOk result (λ w. meter.new ≡ meter.old + w.evaluated) }
        ensures workers { self.new.workers ≡ self.old.workers }
        ensures memory { IfErr result (λ e. e ≡ Refusal.Memory) }
        ensures kept { OnErr result (AreTheSame self.old self.new) }
        ensures unmetered { OnErr result (meter.new ≡ meter.old) }
    {
        let work = self
            .tables
            .join(rt, gate, alloc, delta, &mut self.lists, meter)?;
        self.is_staged = true;
        Ok(work)
    }

    /// Commits the staged change, so that it can't be cancelled any more. The call allocates no memory.
    ///
    /// Cost: the cells that the delta changed, with the references of their old formulas, and the cells whose values
    /// were written.
    #[inline(always)]
    pub fn commit(&mut self)
        requires staged { is_some self.old.staged ≡ true }
        ensures none { (self.new.staged ≡ None) × (self.new.olds ≡ []) }
        ensures kept { (self.new.grid ≡ self.old.grid) × (self.new.shown ≡ self.old.shown) }
        ensures workers { self.new.workers ≡ self.old.workers }
    {
        self.tables.leave(&mut self.lists.states);
        self.is_staged = false;
    }

    /// Cancels the staged change: the cells hold and show what they did before that change. The call allocates no
    /// memory.
    ///
    /// Cost: the cells that the delta changed, with the references of their new formulas, and the cells whose values
    /// were written.
    pub fn cancel(&mut self)
        requires staged { is_some self.old.staged ≡ true }
        ensures none { (self.new.staged ≡ None) × (self.new.olds ≡ []) }
        ensures state { state_now self.new ≡ state_before self.old }
        ensures shown { shown_now self.new ≡ shown_before self.old }
        ensures workers { self.new.workers ≡ self.old.workers }
    {
        self.tables.take_back(&mut self.lists.states);
        self.lists.states.clear();
        self.is_staged = false;
    }

    /// Lists the cells that show another value than before the staged change. [`Cells::changed`] returns the list. The
    /// list is empty if no change is staged.
    ///
    /// Cost: the cells whose values the change wrote, and sorting the listed ones.
    pub fn list_changed(&mut self)
        ensures changed { IsChanged (shown_before self.old) (shown_now self.old) self.new.changed }
        ensures kept { (self.new.grid ≡ self.old.grid) × (self.new.shown ≡ self.old.shown)
            × (self.new.olds ≡ self.old.olds) × (self.new.staged ≡ self.old.staged)
            × (self.new.workers ≡ self.old.workers) }
    {
        self.tables.shown.list_changed();
    }

    /// Returns the cell that shows another value than before the staged change, if the change wrote the value of no
    /// other cell.
    ///
    /// `None` doesn't say that no value changed: the change may have written several values. So after `None`, call
    /// [`Cells::list_changed`] to know.
    #[inline]
    pub fn one_changed(&self) -> Option<Cell>
        ensures changed { IfSome result (λ c. IsChanged (shown_before self.now) (shown_now self.now) (c ∷ [])) }
    {
        self.tables.shown.one_changed()
    }

    /// Lists the cells that [`Cells::list_changed`] listed last, each with the value that it shows now.
    /// [`Cells::changes`] returns the list.
    ///
    /// Only a caller that needs cells and values in one slice calls `list_values`. Any other caller looks up values in
    /// [`Cells::shown`].
    ///
    /// Cost: linear in the listed cells.
    pub fn list_values(&mut self)
        ensures values { self.new.changes ≡ map (λ c. (c, shown_now self.old c)) self.old.changed }
        ensures kept { (self.new.grid ≡ self.old.grid) × (self.new.shown ≡ self.old.shown)
            × (self.new.olds ≡ self.old.olds) × (self.new.staged ≡ self.old.staged)
            × (self.new.workers ≡ self.old.workers) × (self.new.changed ≡ self.old.changed) }
    {
        self.tables.shown.list_values();
    }

    /// Returns the cells that [`Cells::list_changed`] listed last, ascending.
    pub fn changed(&self) -> &[Cell]
        ensures changed { result.now ≡ self.now.changed }
    {
        self.tables.shown.changed()
    }

    /// Returns the list that [`Cells::list_values`] made last: cells, each with the value that it showed at that call.
    pub fn changes(&self) -> &[(Cell, Value)]
        ensures changes { result.now ≡ self.now.changes }
    {
        self.tables.shown.changes()
    }

    /// Returns what each cell holds.
    pub fn grid(&self) -> &Grid
        ensures grid { result.now ≡ self.now.grid }
    {
        &self.tables.grid
    }

    /// Returns what each cell shows.
    pub fn shown(&self) -> &Shown
        ensures shown { result.now ≡ self.now.shown }
    {
        self.tables.shown.shown()
    }

    /// Returns whether a change is staged, and so neither committed nor cancelled yet.
    pub fn is_staged(&self) -> bool
        ensures staged { result ≡ is_some self.now.staged }
    {
        self.is_staged
    }
}
