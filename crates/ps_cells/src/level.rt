//! One level of a recalculation: formulas that don't refer to one another. Workers evaluate its due cells together, and
//! then each cell shows its value, one after the other. The cell of a level of one is evaluated and shown at once.

ghost use Rattle.std.specs.Prelude.{◌≡◌, ◌+◌, ◌<◌, ◌≤◌, ◌∷◌, ◌++◌, [], List, ℕ, Bool, false, true};
ghost use Rattle.std.specs.Prelude.{filter, length, vec_capacity, IfOk, IfErr};
ghost use Rattle.std.specs.List.{IsDistinct};
ghost use Rattle.ps_grid.specs.Chains.{In};
ghost use Rattle.ps_grid.specs.declared.parties.TheConstants.{WORKERS};
ghost use Rattle.ps_shown.specs.Kept.{value_of as value_kept};
ghost use Rattle.ps_shown.specs.Shown.{shown_at};
ghost use Rattle.ps_delta.specs.State.{state_at};
ghost use Rattle.ps_region.specs.Listed.{listed};
ghost use Rattle.ps_workers.specs.Level.{kept_values};
ghost use Rattle.ps_cells.specs.Inside.Screens.{before_of};
ghost use Rattle.ps_cells.specs.Inside.Walk.{formula_at};
ghost use Rattle.ps_cells.specs.Inside.Steps.{flag_at, HasRoom, ShowsAll, StepsLevel, values_at};

use crate::contents::formula_of;
use crate::screen::Screen;
use crate::sums::{remember_sums, remember_sums_of};
use crate::walk::show;
use ps_delta::{Grid, grids_are_shared};
use ps_eval::{Look, Meter, Summary};
use ps_formula::{Formula, Formulas};
use ps_grid::{CELLS, Cell, Rect, Refusal};
use ps_index::Index;
use ps_shown::Kept;
use ps_value::{Operand, Value};
use ps_workers::{Gate, eval_cell, eval_level, workers_worth};
use std::alloc::Global;
use std::mem;
use std::sync::ledger::Ledger;
use std::thread::Threads;

/// The workers of a recalculation.
#[derive_where(Clone, Copy)]
pub(crate) struct Workers<'a, R, G> {
    /// what starts their threads
    pub(crate) rt: &'a R,
    /// how many there are
    pub(crate) count: usize,
    /// the gate that each worker passes before each of its evaluations
    pub(crate) gate: &'a G,
}

/// What a recalculation reads and leaves as it is.
#[derive(Clone, Copy)]
pub(crate) struct Inputs<'a> {
    /// what each cell holds
    pub(crate) grid: &'a Grid,
    /// which formulas refer to a cell
    pub(crate) index: &'a Index,
}

/// One step of a recalculation: a level.
#[derive(Clone, Copy)]
pub(crate) struct Step<'a> {
    /// its cells
    pub(crate) cells: &'a [Cell],
    /// whether no step comes after it
    pub(crate) is_last: bool,
}

/// The due cells of a level, and places for their new values.
#[derive(Drop)]
pub(crate) struct Level {
    /// the cells
    due: Vec<Cell>,
    /// as many places as the largest level had due cells; between two levels they store nothing
    values: Vec<Kept>,
}

/// What the cells show, as a formula looks at them.
#[derive(Drop)]
struct ScreenLook<'a> {
    shown: &'a Screen,
}

impl Look for ScreenLook<'_> {
    ghost use Rattle.ps_shown.specs.Shown.{shown_at};

    ghost value_at = { λ s. shown_at s.shown.now.kept };

    fn at(&self, cell: Cell) -> Value {
        self.shown.at(cell)
    }

    fn operand(&self, cell: Cell) -> Operand {
        self.shown.operand(cell)
    }

    fn summary(&self, rect: Rect) -> Summary {
        self.shown.summary(rect)
    }
}

/// The formulas that the cells hold.
#[derive(Drop)]
struct GridFormulas<'a> {
    grid: &'a Grid,
}

impl Formulas for GridFormulas<'_> {
    ghost use Rattle.ps_content.specs.Order.{formula_in};
    ghost use Rattle.ps_delta.specs.State.{state_at};
    ghost use Rattle.ps_cells.specs.Settled.{content_of};

    ghost formula_at = { λ h c. formula_in (content_of (state_at h.grid.now c)) };

    fn formula(&self, cell: Cell) -> Option<&Formula> {
        formula_of(self.grid.at(cell))
    }
}

impl Level {
    /// A level without cells, with room for each cell of the grid.
    ///
    /// Fails only when out of memory.
    pub(crate) fn new(alloc: Global) -> Result<Level, Refusal>
        ensures room { IfOk result (HasRoom CELLS) }
        ensures memory { IfErr result (λ e. e ≡ Refusal.Memory) }
    {
        Ok(Level {
            due: Vec::with_capacity(alloc, CELLS)?,
            values: Vec::with_capacity(alloc, CELLS)?,
        })
    }

    /// Recalculates the due (flagged) cells of a level, by workers. Returns how many were evaluated.
    ///
    /// The last level sets no flags, since no cell that is still to be evaluated refers to a cell of it. A chain of
    /// formulas has levels of one cell. Such a cell is recalculated by itself, without lists, places and threads.
    pub(crate) fn settle<R: Threads + Sync, G: Gate, L: Ledger>(
        &mut self,
        workers: &Workers<'_, R, G>,
        inputs: &Inputs<'_>,
        step: &Step<'_>,
        shown: &mut Screen,
        flags: &mut [bool],
        meter: &mut Meter<L>,
    ) -> usize
        requires workers { (0 < workers.now.count) × (workers.now.count ≤ WORKERS) }
        requires whole { length flags.old ≡ CELLS }
        requires room { HasRoom CELLS self.old }
        requires few { length step.now.cells.now ≤ CELLS }
        requires formulas { (c : ℕ) → In step.now.cells.now c → formula_at (state_at inputs.now.grid.now) c ≡ true }
        ensures settled { StepsLevel (state_at inputs.now.grid.now) (listed inputs.now.index.now)
            step.now.cells.now step.now.is_last (shown_at shown.old.kept) (shown_at shown.new.kept)
            (flag_at flags.old) (flag_at flags.new) result }
        ensures before { before_of shown.new ≡ before_of shown.old }
        ensures metered { meter.new ≡ meter.old + result }
        ensures room { HasRoom CELLS self.new }
    {
        if let [cell] = step.cells {
            return settle_one(workers, inputs, *cell, step.is_last, shown, flags, meter);
        }
        list_due(step.cells, flags, &mut self.due);
        make_places(self.due.len(), &mut self.values);
        let due = &Step {
            cells: &self.due,
            is_last: step.is_last,
        };
        settle_due(workers, inputs, due, &mut self.values, shown, flags, meter);
        self.due.len()
    }
}

/// Recalculates the only cell of a level, as worker 0. Returns how many were evaluated.
#[inline(always)]
fn settle_one<R: Threads + Sync, G: Gate, L: Ledger>(
    workers: &Workers<'_, R, G>,
    inputs: &Inputs<'_>,
    cell: Cell,
    is_last: bool,
    shown: &mut Screen,
    flags: &mut [bool],
    meter: &mut Meter<L>,
) -> usize
    requires whole { length flags.old ≡ CELLS }
    requires formula { formula_at (state_at inputs.now.grid.now) cell ≡ true }
    ensures settled { StepsLevel (state_at inputs.now.grid.now) (listed inputs.now.index.now) (cell ∷ []) is_last
        (shown_at shown.old.kept) (shown_at shown.new.kept) (flag_at flags.old) (flag_at flags.new) result }
    ensures before { before_of shown.new ≡ before_of shown.old }
    ensures metered { meter.new ≡ meter.old + result }
{
    if !flags[cell.index()] {
        return 0;
    }
    settle_due_one(workers.gate, inputs, cell, is_last, shown, flags, meter);
    1
}

/// Evaluates the only cell of a level, which is due, and lets it show its value. Flags the cells that are due then,
/// unless the level is the last.
#[inline(always)]
fn settle_due_one<G: Gate, L: Ledger>(
    gate: &G,
    inputs: &Inputs<'_>,
    cell: Cell,
    is_last: bool,
    shown: &mut Screen,
    flags: &mut [bool],
    meter: &mut Meter<L>,
)
    requires whole { length flags.old ≡ CELLS }
    requires formula { formula_at (state_at inputs.now.grid.now) cell ≡ true }
    ensures shows { ShowsAll is_last (listed inputs.now.index.now) (cell ∷ [])
        (values_at (state_at inputs.now.grid.now) (shown_at shown.old.kept) (cell ∷ []))
        (shown_at shown.old.kept) (shown_at shown.new.kept) (flag_at flags.old) (flag_at flags.new) }
    ensures before { before_of shown.new ≡ before_of shown.old }
    ensures metered { meter.new ≡ meter.old + 1 }
{
    remember_sums_of(inputs.grid, cell, shown);
    let kept = evaluate_one(gate, inputs.grid, cell, shown, meter);
    show_one(inputs.index, cell, kept, is_last, shown, flags);
}

/// Returns the value of a cell's formula, evaluated as worker 0.
#[inline(always)]
fn evaluate_one<G: Gate, L: Ledger>(
    gate: &G,
    grid: &Grid,
    cell: Cell,
    shown: &Screen,
    meter: &mut Meter<L>,
) -> Kept
    requires formula { formula_at (state_at grid.now) cell ≡ true }
    ensures value { value_kept result ∷ [] ≡ values_at (state_at grid.now) (shown_at shown.now.kept) (cell ∷ []) }
    ensures metered { meter.new ≡ meter.old + 1 }
{
    eval_cell(
        cell,
        &GridFormulas { grid },
        &ScreenLook { shown },
        gate,
        meter,
    )
}

/// Lets the only due cell of a level show its value, and flags the cells that are due then, unless the level is the
/// last.
#[inline(always)]
fn show_one(
    index: &Index,
    cell: Cell,
    kept: Kept,
    is_last: bool,
    shown: &mut Screen,
    flags: &mut [bool],
)
    requires whole { length flags.old ≡ CELLS }
    ensures shows { ShowsAll is_last (listed index.now) (cell ∷ []) (value_kept kept ∷ []) (shown_at shown.old.kept)
        (shown_at shown.new.kept) (flag_at flags.old) (flag_at flags.new) }
    ensures before { before_of shown.new ≡ before_of shown.old }
{
    if is_last {
        shown.put(cell, kept);
    } else {
        show(index, cell, kept, shown, flags);
    }
}

/// Lists the flagged cells.
fn list_due(cells: &[Cell], flags: &[bool], due: &mut Vec<Cell>)
    requires whole { length flags.now ≡ CELLS }
    requires room { length cells.now ≤ vec_capacity due.old }
    ensures due { due.new.items ≡ filter (flag_at flags.now) cells.now }
    ensures room { vec_capacity due.old ≤ vec_capacity due.new }
{
    due.clear();
    for cell in cells {
        if flags[cell.index()] {
            due.push_reserved(*cell);
        }
    }
}

/// Adds places until there are `count`.
fn make_places(count: usize, values: &mut Vec<Kept>)
    requires room { count ≤ vec_capacity values.old }
    ensures places { count ≤ length values.new.items }
    ensures room { vec_capacity values.old ≤ vec_capacity values.new }
{
    'places: while values.len() < count {
        values.push_reserved(Kept::Empty);
    }
}

/// Evaluates the due cells of a level into the first of the places, and lets each show its value.
fn settle_due<R: Threads + Sync, G: Gate, L: Ledger>(
    workers: &Workers<'_, R, G>,
    inputs: &Inputs<'_>,
    due: &Step<'_>,
    places: &mut [Kept],
    shown: &mut Screen,
    flags: &mut [bool],
    meter: &mut Meter<L>,
)
    requires workers { (0 < workers.now.count) × (workers.now.count ≤ WORKERS) }
    requires whole { length flags.old ≡ CELLS }
    requires formulas { (c : ℕ) → In due.now.cells.now c → formula_at (state_at inputs.now.grid.now) c ≡ true }
    requires places { length due.now.cells.now ≤ length places.old }
    ensures shows { ShowsAll due.now.is_last (listed inputs.now.index.now) due.now.cells.now
        (values_at (state_at inputs.now.grid.now) (shown_at shown.old.kept) due.now.cells.now)
        (shown_at shown.old.kept) (shown_at shown.new.kept) (flag_at flags.old) (flag_at flags.new) }
    ensures before { before_of shown.new ≡ before_of shown.old }
    ensures metered { meter.new ≡ meter.old + length due.now.cells.now }
{
    let (values, _) = places.split_at_mut(due.cells.len());
    remember_sums(inputs.grid, due.cells, shown);
    evaluate(workers, inputs.grid, due.cells, shown, values, meter);
    show_due(inputs.index, due.cells, values, due.is_last, shown, flags);
}

/// Evaluates the formulas of the cells into their places.
fn evaluate<R: Threads + Sync, G: Gate, L: Ledger>(
    workers: &Workers<'_, R, G>,
    grid: &Grid,
    cells: &[Cell],
    shown: &Screen,
    values: &mut [Kept],
    meter: &mut Meter<L>,
)
    requires workers { (0 < workers.now.count) × (workers.now.count ≤ WORKERS) }
    requires formulas { (c : ℕ) → In cells.now c → formula_at (state_at grid.now) c ≡ true }
    requires places { length values.old ≡ length cells.now }
    ensures values { kept_values values.new ≡ values_at (state_at grid.now) (shown_at shown.now.kept) cells.now }
    ensures metered { meter.new ≡ meter.old + length cells.now }
{
    // for the fact that the workers may read the grid together
    grids_are_shared();
    let worth = workers_worth(cells.len(), workers.count);
    eval_level(
        workers.rt,
        cells,
        &GridFormulas { grid },
        &ScreenLook { shown },
        values,
        worth,
        workers.gate,
        meter,
    );
}

/// Lets each due cell of a level show the value of its place, and flags the cells that are due then, unless the level
/// is the last.
fn show_due(
    index: &Index,
    cells: &[Cell],
    values: &mut [Kept],
    is_last: bool,
    shown: &mut Screen,
    flags: &mut [bool],
)
    requires whole { length flags.old ≡ CELLS }
    requires places { length values.old ≡ length cells.now }
    ensures shows { ShowsAll is_last (listed index.now) cells.now (kept_values values.old) (shown_at shown.old.kept)
        (shown_at shown.new.kept) (flag_at flags.old) (flag_at flags.new) }
    ensures before { before_of shown.new ≡ before_of shown.old }
{
    if is_last {
        put_all(cells, values, shown);
    } else {
        show_all(index, cells, values, shown, flags);
    }
}

/// Lets each cell of the last level show the value of its place.
fn put_all(cells: &[Cell], values: &mut [Kept], shown: &mut Screen)
    requires places { length values.old ≡ length cells.now }
    ensures shows { (lists : ℕ → List ℕ) (flags : ℕ → Bool) → ShowsAll true lists cells.now (kept_values values.old)
        (shown_at shown.old.kept) (shown_at shown.new.kept) flags flags }
    ensures before { before_of shown.new ≡ before_of shown.old }
{
    for i in 0..cells.len() {
        let kept = mem::replace(&mut values[i], Kept::Empty);
        shown.put(cells[i], kept);
    }
}

/// Lets each cell show the value of its place, and flags the cells that refer to those whose value changed.
fn show_all(
    index: &Index,
    cells: &[Cell],
    values: &mut [Kept],
    shown: &mut Screen,
    flags: &mut [bool],
)
    requires whole { length flags.old ≡ CELLS }
    requires places { length values.old ≡ length cells.now }
    ensures shows { ShowsAll false (listed index.now) cells.now (kept_values values.old) (shown_at shown.old.kept)
        (shown_at shown.new.kept) (flag_at flags.old) (flag_at flags.new) }
    ensures before { before_of shown.new ≡ before_of shown.old }
{
    for i in 0..cells.len() {
        let kept = mem::replace(&mut values[i], Kept::Empty);
        show(index, cells[i], kept, shown, flags);
    }
}
