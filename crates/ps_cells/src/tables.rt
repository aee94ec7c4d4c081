//! What the cells of a sheet hold and show, with the tables that make a change cost only its region.

ghost use Rattle.std.specs.Prelude.{◌≡◌, ◌+◌, ◌<◌, ◌≤◌, ◌∷◌, [], ℕ, true, false, length, nat_eq, ◌&&◌, ◌||◌};
ghost use Rattle.std.specs.Prelude.{not, IfOk, IfErr, OnOk, OnErr};
ghost use Rattle.std.specs.List.{list_all, list_any};
ghost use Rattle.ps_grid.specs.declared.parties.TheConstants.{WORKERS};
ghost use Rattle.ps_shown.specs.Shown.{shown_at};
ghost use Rattle.ps_delta.specs.State.{State, empty_state, joined_state, state_at};
ghost use Rattle.ps_delta.specs.Deltas.{Entries, state_of};
ghost use Rattle.ps_cells.specs.Recalculated.{IsRecalculated};
ghost use Rattle.ps_cells.specs.Inside.Steps.{flag_at};
ghost use Rattle.ps_cells.specs.Inside.Screens.{before_of, cells_in};
ghost use Rattle.ps_cells.specs.Inside.Kept.{IsWhole, MayRecalculate, Recalculates};
ghost use Rattle.ps_cells.specs.Inside.Pending.{IsPending};
ghost use Rattle.ps_cells.specs.Inside.Alone.{are_alone, firsts_by, is_alone};
ghost use Rattle.ps_cells.specs.Inside.Walk.{formula_at};
ghost use Rattle.ps_region.specs.CellSets.{has_cell};
ghost use Rattle.ps_region.specs.Listed.{listed};

use crate::change::{Beginning, Lists, begin, drop_formulas, take_formulas};
use crate::level::{Inputs, Level, Workers};
use crate::region::find_region;
use crate::screen::Screen;
use crate::walk::{clear, close_all, put_all_first, settle_frame, show_all_first};
use ps_delta::{CellState, Delta, Grid};
use ps_eval::Meter;
use ps_grid::{CELLS, Cell, Refusal};
use ps_index::Index;
use ps_region::{CellSet, Region};
use ps_shown::Kept;
use ps_workers::Gate;
use std::alloc::Global;
use std::sync::ledger::Ledger;
use std::thread::Threads;

/// What the cells hold and show, and the tables by which a change is recalculated.
#[derive(Drop)]
pub(crate) struct Tables {
    /// what each cell holds
    pub(crate) grid: Grid,
    /// which formulas refer to a cell
    index: Index,
    /// what each cell shows
    pub(crate) shown: Screen,
    /// the region of the last change
    region: Region,
    /// the cell that alone was touched when `region` was found, as long as that is still its region
    source: Option<Cell>,
    /// the cells that show `#CYCLE!`
    pub(crate) cyclic: CellSet,
    /// which cells are due, while a change is made: to be evaluated, as they or a cell that they refer to changed
    flags: Vec<bool>,
    /// the due cells of one level
    level: Level,
    /// how many workers evaluate a level
    pub(crate) workers: usize,
}

/// How much work a recalculation did.
#[derive(Drop)]
pub struct Work {
    /// how many formulas were evaluated
    pub evaluated: u64,
    /// how many formula cells of the region (the cells that the change reaches) are cyclic, as they reach a cycle
    pub cyclic: u64,
    /// how many levels the other formula cells of the region have; the cells of a level don't refer to one another
    pub levels: u64,
}

impl Work {
    /// Returns a `Work` whose counts are all 0.
    #[inline(always)]
    pub fn none() -> Work
        ensures evaluated { result.evaluated ≡ 0 }
        ensures cyclic { result.cyclic ≡ 0 }
        ensures levels { result.levels ≡ 0 }
    {
        Work {
            evaluated: 0,
            cyclic: 0,
            levels: 0,
        }
    }
}

impl Tables {
    /// Returns tables of cells that hold and show nothing.
    ///
    /// Fails only when out of memory.
    pub(crate) fn new(alloc: Global, workers: usize) -> Result<Tables, Refusal>
        requires workers { (0 < workers) × (workers ≤ WORKERS) }
        ensures whole { IfOk result IsWhole }
        ensures empty { IfOk result (λ x. state_at x.grid ≡ empty_state) }
        ensures workers { IfOk result (λ x. x.workers ≡ workers) }
        ensures memory { IfErr result (λ e. e ≡ Refusal.Memory) }
    {
        let flags = no_flags(alloc, CELLS)?;
        let cyclic = CellSet::new(alloc)?;
        let level = Level::new(alloc)?;
        Ok(Tables {
            grid: Grid::new(alloc)?,
            index: Index::new(alloc)?,
            shown: Screen::new(alloc)?,
            region: Region::new(alloc)?,
            source: None,
            cyclic,
            flags,
            level,
            workers,
        })
    }

    /// Joins a delta to what the cells hold, and recalculates what they show. Returns how much was recalculated. Lists
    /// the touched cells in `lists`, each with the state that it had.
    ///
    /// Fails only when out of memory, and then the cells hold and show what they did.
    pub(crate) fn join<R: Threads + Sync, G: Gate, L: Ledger>(
        &mut self,
        rt: &R,
        gate: &G,
        alloc: Global,
        delta: &Delta,
        lists: &mut Lists,
        meter: &mut Meter<L>,
    ) -> Result<Work, Refusal>
        requires whole { IsWhole self.old }
        ensures pending { OnOk result (IsPending (state_at self.old.grid) self.new lists.new.states.items) }
        ensures before { OnOk result (before_of self.new.shown ≡ shown_at self.old.shown.kept) }
        ensures joined { OnOk result (state_at self.new.grid
            ≡ joined_state (state_at self.old.grid) (state_of delta.now)) }
        ensures work { IfOk result (λ w. IsRecalculated (state_at self.old.grid) (state_at self.new.grid)
            (shown_at self.old.shown.kept) (shown_at self.new.shown.kept) w.evaluated w.cyclic w.levels) }
        ensures metered { IfOk result (λ w. meter.new ≡ meter.old + w.evaluated) }
        ensures memory { IfErr result (λ e. e ≡ Refusal.Memory) }
        ensures workers { self.new.workers ≡ self.old.workers }
        ensures whole { OnErr result (IsWhole self.new) }
        ensures kept { OnErr result ((state_at self.new.grid ≡ state_at self.old.grid)
            × (self.new.shown ≡ self.old.shown)) }
        ensures unmetered { OnErr result (meter.new ≡ meter.old) }
    {
        let how = begin(
            alloc,
            &mut self.grid,
            &mut self.index,
            &self.cyclic,
            lists,
            delta,
        )?;
        self.grid.exchange(&mut lists.states);
        Ok(self.recalculate(rt, gate, how, &lists.touched, &mut lists.first, meter))
    }

    /// Commits a change. `olds` has the touched cells with the states that they had, and is emptied. It takes no
    /// memory.
    #[inline(always)]
    pub(crate) fn leave(&mut self, olds: &mut Vec<(Cell, CellState)>)
        requires pending { (s : State) × IsPending s self.old olds.old.items }
        ensures whole { IsWhole self.new }
        ensures grid { self.new.grid ≡ self.old.grid }
        ensures shown { self.new.shown.kept ≡ self.old.shown.kept }
        ensures workers { self.new.workers ≡ self.old.workers }
    {
        drop_formulas(&mut self.index, olds);
        self.shown.keep();
    }

    /// Cancels a change. `olds` has the touched cells with the states that they had, and gets those that the change
    /// gave them. It takes no memory.
    pub(crate) fn take_back(&mut self, olds: &mut [(Cell, CellState)])
        requires pending { (s : State) × IsPending s self.old olds.old }
        ensures whole { IsWhole self.new }
        ensures back { (s : State) → IsPending s self.old olds.old → state_at self.new.grid ≡ s }
        ensures shown { shown_at self.new.shown.kept ≡ before_of self.old.shown }
        ensures workers { self.new.workers ≡ self.old.workers }
    {
        self.grid.exchange(olds);
        take_formulas(&mut self.index, olds);
        self.shown.restore_cyclic(&mut self.cyclic);
        self.shown.take_back();
        self.source = None;
    }

    /// Recalculates what the cells show, once the touched cells hold their new states. `how` is what `begin` returned.
    #[inline(always)]
    fn recalculate<R: Threads + Sync, G: Gate, L: Ledger>(
        &mut self,
        rt: &R,
        gate: &G,
        how: Beginning,
        touched: &[Cell],
        first: &mut Vec<(Cell, Kept)>,
        meter: &mut Meter<L>,
    ) -> Work
        requires may { MayRecalculate self.old (cells_in (firsts_by how first.old.items))
            (firsts_by how first.old.items) }
        requires touched { are_alone how ≡ false → touched.now ≡ cells_in (firsts_by how first.old.items) }
        requires alone { are_alone how ≡ true → ((c : ℕ) → has_cell self.old.cyclic c ≡ false)
            × (list_all (is_alone (formula_at (state_at self.old.grid)) (listed self.old.index))
            (cells_in (firsts_by how first.old.items)) ≡ true) }
        ensures done { Recalculates self.old self.new (cells_in (firsts_by how first.old.items)) result.evaluated
            result.cyclic result.levels }
        ensures before { before_of self.new.shown ≡ before_of self.old.shown }
        ensures metered { meter.new ≡ meter.old + result.evaluated }
    {
        match how {
            Beginning::Sole(cell, kept) => self.show_sole(cell, kept),
            Beginning::Alone => self.show_alone(first),
            Beginning::Region => self.recalculate_region(rt, gate, touched, first, meter),
        }
    }

    /// Shows the value of the one touched cell. It has no formula, no formula refers to it, and no cell was cyclic: so
    /// the cell is the region, and shows its first value.
    #[inline(always)]
    fn show_sole(&mut self, cell: Cell, kept: Kept) -> Work
        requires may { MayRecalculate self.old (cell ∷ []) ((cell, kept) ∷ []) }
        requires alone { list_all (is_alone (formula_at (state_at self.old.grid)) (listed self.old.index)) (cell ∷ [])
            ≡ true }
        requires none { (c : ℕ) → has_cell self.old.cyclic c ≡ false }
        ensures done { Recalculates self.old self.new (cell ∷ []) result.evaluated result.cyclic result.levels }
        ensures before { before_of self.new.shown ≡ before_of self.old.shown }
        ensures idle { result.evaluated ≡ 0 }
    {
        self.shown.put(cell, kept);
        self.source = None;
        Work::none()
    }

    /// As `show_sole`, for any number of touched cells, which are listed with their first values.
    fn show_alone(&mut self, first: &mut Vec<(Cell, Kept)>) -> Work
        requires may { MayRecalculate self.old (cells_in first.old.items) first.old.items }
        requires alone { list_all (is_alone (formula_at (state_at self.old.grid)) (listed self.old.index))
            (cells_in first.old.items) ≡ true }
        requires none { (c : ℕ) → has_cell self.old.cyclic c ≡ false }
        ensures done { Recalculates self.old self.new (cells_in first.old.items) result.evaluated result.cyclic
            result.levels }
        ensures before { before_of self.new.shown ≡ before_of self.old.shown }
        ensures idle { result.evaluated ≡ 0 }
    {
        put_all_first(first, &mut self.shown);
        self.source = None;
        Work::none()
    }

    /// Recalculates what the cells show, by the region of the change. It isn't inlined, so that a change of cells that
    /// are alone makes no room for its locals.
    #[inline(never)]
    fn recalculate_region<R: Threads + Sync, G: Gate, L: Ledger>(
        &mut self,
        rt: &R,
        gate: &G,
        touched: &[Cell],
        first: &mut [(Cell, Kept)],
        meter: &mut Meter<L>,
    ) -> Work
        requires { MayRecalculate self.old touched.now first.old }
        ensures done { Recalculates self.old self.new touched.now result.evaluated result.cyclic result.levels }
        ensures before { before_of self.new.shown ≡ before_of self.old.shown }
        ensures metered { meter.new ≡ meter.old + result.evaluated }
    {
        find_region(
            &self.grid,
            &self.index,
            touched,
            &self.cyclic,
            &mut self.region,
            &mut self.source,
        );
        show_all_first(
            &self.grid,
            &self.index,
            first,
            &mut self.shown,
            &mut self.flags,
        );
        close_all(self.region.cyclic(), &mut self.shown);
        let workers = Workers {
            rt,
            count: self.workers,
            gate,
        };
        let inputs = Inputs {
            grid: &self.grid,
            index: &self.index,
        };
        let evaluated = settle_frame(
            &workers,
            &inputs,
            &self.region,
            &mut self.level,
            &mut self.shown,
            &mut self.flags,
            meter,
        );
        clear(self.region.members(), &mut self.flags);
        renew(&self.region, &mut self.cyclic);
        Work {
            evaluated,
            cyclic: self.region.cyclic().len() as u64,
            levels: self.region.levels() as u64,
        }
    }
}

/// A table of `n` flags, all clear.
pub(crate) fn no_flags(alloc: Global, n: usize) -> Result<Vec<bool>, Refusal>
    ensures length { IfOk result (λ v. length v.items ≡ n) }
    ensures off { IfOk result (λ v. (c : ℕ) → flag_at v.items c ≡ false) }
    ensures memory { IfErr result (λ e. e ≡ Refusal.Memory) }
{
    let flags = vec![in alloc; false; n]?;
    Ok(flags)
}

/// Updates the set of cyclic cells: of the region's cells, it then has those that the region found cyclic.
fn renew(region: &Region, cyclic: &mut CellSet)
    ensures { (c : ℕ) → has_cell cyclic.new c ≡ ((has_cell cyclic.old c && not (list_any (nat_eq c) region.now.members))
        || list_any (nat_eq c) region.now.cyclic) }
{
    leave_outside(region, cyclic);
    cyclic.insert_all(region.cyclic());
}

/// Takes the cells of the region out of a set.
fn leave_outside(region: &Region, cyclic: &mut CellSet)
    ensures { (c : ℕ) → has_cell cyclic.new c ≡ (has_cell cyclic.old c
        && not (list_any (nat_eq c) region.now.members)) }
{
    if !cyclic.is_empty() {
        cyclic.remove_all(region.members());
    }
}
