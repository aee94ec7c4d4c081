//! What the cells show, and what the cells that a change put showed before it.

ghost use Rattle.std.specs.Prelude.{◌≡◌, ◌<◌, ◌≤◌, [], ◌∷◌, ℕ, true, false, length, slice_set};
ghost use Rattle.std.specs.Prelude.{vec_capacity, IfOk, IfErr, IfSome, map, nat_eq};
ghost use Rattle.std.specs.List.{IsDistinct};
ghost use Rattle.ps_grid.specs.Chains.{In};
ghost use Rattle.ps_value.specs.Operand.{operand_of};
ghost use Rattle.ps_value.specs.declared.value.Value.TheVariants.{Empty as Nothing};
ghost use Rattle.ps_shown.specs.Kept.{value_of as value_kept};
ghost use Rattle.ps_shown.specs.Shown.{shown_at, with_value};
ghost use Rattle.ps_cells.specs.Inside.Steps.{flag_at};
ghost use Rattle.ps_eval.specs.Summarized.{Summarizes};
ghost use Rattle.ps_eval.specs.Items.{Assignment, range_items};
ghost use Rattle.ps_cells.specs.Inside.Screens.{Differ, HoldsAsKept, IsNoted, ListsDiffering, ShowCycle};
ghost use Rattle.ps_cells.specs.Inside.Screens.{before_of, cells_in, put_back};
ghost use Rattle.ps_cells.specs.Inside.Waiting.{is_waiting};
ghost use Rattle.ps_cells.specs.ChangedCells.{IsChanged};

use crate::tables::no_flags;
use ps_eval::Summary;
use ps_grid::{CELLS, Cell, Rect, Refusal};
use ps_region::CellSet;
use ps_shown::{Kept, LONG, Shown};
use ps_value::{Fault, Operand, Value};
use std::alloc::Global;
use std::marker::Model;

/// What each cell shows. It also stores what cells showed before the change in progress, for the cells that were put
/// (given a value by `put`) since the last `keep` or `take_back`.
#[derive(Drop)]
pub(crate) struct Screen {
    /// what each cell shows
    shown: Shown,
    /// whether a formula with a long range ever came, so that the sums of formulas are to be remembered
    expects_long: bool,
    /// the cells that were put, each once, with what they showed before; there is room for all
    olds: Vec<(Cell, Kept)>,
    /// whether a cell is among these
    is_put: Vec<bool>,
    /// the cells that were listed last as showing another value; there is room for all
    cells: Vec<Cell>,
    /// the values that were listed last; there is room for all cells
    changes: Vec<(Cell, Value)>,
}

impl Model for Screen {
    ghost use Rattle.std.specs.Prelude.{◌≤◌, length, vec_capacity};
    ghost use Rattle.ps_grid.specs.declared.size.TheConstants.{CELLS};
    ghost use Rattle.ps_cells.specs.Inside.Screens.{ScreenView, IsNoted};
    ghost use Rattle.ps_cells.specs.ScreenCode.{screen_code};

    ghost Value = { ScreenView };

    ghost coded = { screen_code };

    ghost view = { λ s. record {
      kept = s.shown;
      olds = s.olds.items;
      changed = s.cells.items;
      changes = s.changes.items;
    } };

    ghost invariant = { λ s. IsNoted s.olds.items s.is_put.items × (CELLS ≤ vec_capacity s.olds)
        × (CELLS ≤ vec_capacity s.cells) × (CELLS ≤ vec_capacity s.changes)
        × (length s.cells.items ≤ CELLS) };
}

impl Screen {
    /// Returns a screen where each cell shows nothing.
    ///
    /// Fails only when out of memory.
    pub(crate) fn new(alloc: Global) -> Result<Screen, Refusal>
        ensures empty { IfOk result (λ s. shown_at s.kept ≡ λ _. Nothing) }
        ensures still { IfOk result (λ s. s.olds ≡ []) }
        ensures memory { IfErr result (λ e. e ≡ Refusal.Memory) }
    {
        let is_put = no_flags(alloc, CELLS)?;
        let olds = Vec::with_capacity(alloc, CELLS)?;
        let cells = Vec::with_capacity(alloc, CELLS)?;
        let changes = Vec::with_capacity(alloc, CELLS)?;
        let shown = Shown::new(alloc)?;
        Ok(Screen {
            shown,
            expects_long: false,
            olds,
            is_put,
            cells,
            changes,
        })
    }

    /// Returns what each cell shows.
    pub(crate) fn shown(&self) -> &Shown
        ensures shown { result.now ≡ self.now.kept }
    {
        &self.shown
    }

    /// Returns what a cell shows.
    pub(crate) fn at(&self, cell: Cell) -> Value
        ensures { result ≡ shown_at self.now.kept cell }
    {
        self.shown.at(cell)
    }

    /// What is stored for a cell.
    #[inline]
    pub(crate) fn kept(&self, cell: Cell) -> &Kept
        ensures { value_kept result.now ≡ shown_at self.now.kept cell }
    {
        self.shown.kept(cell)
    }

    /// Returns what evaluation reads of the value that a cell shows.
    #[inline]
    pub(crate) fn operand(&self, cell: Cell) -> Operand
        ensures { result ≡ operand_of (shown_at self.now.kept cell) }
    {
        self.shown.operand(cell)
    }

    /// Returns what SUM, MIN, MAX and COUNT need to know of the items of a range.
    #[inline]
    pub(crate) fn summary(&self, rect: Rect) -> Summary
        ensures { Summarizes (range_items (shown_at self.now.kept) rect) result }
    {
        self.shown.summary(rect)
    }

    /// Notes that a formula refers to this range; only a long one makes a difference.
    pub(crate) fn expect(&mut self, rect: Rect)
        ensures { self.new ≡ self.old }
    {
        if rect.height() >= LONG {
            self.expects_long = true;
        }
    }

    /// Whether a long range was ever expected.
    #[inline]
    pub(crate) fn expects_long(&self) -> bool {
        self.expects_long
    }

    /// Remembers the sums of a range, if it is a long one.
    pub(crate) fn remember(&mut self, rect: Rect)
        ensures { self.new ≡ self.old }
    {
        if rect.height() >= LONG {
            self.shown.remember(rect);
        }
    }

    /// Turns the set of the cells that show `#CYCLE!` into the set of those that showed it before.
    ///
    /// Cost: the cells that were put.
    pub(crate) fn restore_cyclic(&self, cyclic: &mut CellSet)
        requires now { ShowCycle (shown_at self.now.kept) cyclic.old }
        ensures before { ShowCycle (before_of self.now) cyclic.new }
    {
        restore_each(&self.olds, cyclic);
    }

    /// Puts a value: the cell shows it from now on.
    #[inline(always)]
    pub(crate) fn put(&mut self, cell: Cell, kept: Kept)
        ensures shown { shown_at self.new.kept ≡ with_value (shown_at self.old.kept) cell (value_kept kept) }
        ensures before { before_of self.new ≡ before_of self.old }
    {
        let old = self.shown.put(cell, kept);
        note(&mut self.olds, &mut self.is_put, cell, old);
    }

    /// Returns the cells that `list_changed` listed last.
    pub(crate) fn changed(&self) -> &[Cell]
        ensures changed { result.now ≡ self.now.changed }
    {
        &self.cells
    }

    /// Returns what `list_values` listed last.
    pub(crate) fn changes(&self) -> &[(Cell, Value)]
        ensures changes { result.now ≡ self.now.changes }
    {
        &self.changes
    }

    /// Lists the cells that show another value than before, ascending.
    #[inline]
    pub(crate) fn list_changed(&mut self)
        ensures kept { self.new.kept ≡ self.old.kept }
        ensures olds { self.new.olds ≡ self.old.olds }
        ensures changed { IsChanged (before_of self.old) (shown_at self.old.kept) self.new.changed }
    {
        list_differing(&self.olds, &self.shown, &mut self.cells);
        self.cells.sort_unstable();
    }

    /// Returns the cell that shows another value than before, if it is the only one that was put. `None` means that no
    /// cell shows another value or that several were put.
    #[inline]
    pub(crate) fn one_changed(&self) -> Option<Cell>
        ensures changed { IfSome result (λ c. IsChanged (before_of self.now) (shown_at self.now.kept) (c ∷ [])) }
    {
        one_differing(&self.olds, &self.shown)
    }

    /// Lists the cells that `list_changed` listed last, each with the value that it shows.
    pub(crate) fn list_values(&mut self)
        ensures kept { self.new.kept ≡ self.old.kept }
        ensures olds { self.new.olds ≡ self.old.olds }
        ensures changed { self.new.changed ≡ self.old.changed }
        ensures values { self.new.changes ≡ map (λ c. (c, shown_at self.old.kept c)) self.old.changed }
    {
        list_values(&self.cells, &self.shown, &mut self.changes);
    }

    /// Forgets what was shown before.
    pub(crate) fn keep(&mut self)
        ensures kept { self.new.kept ≡ self.old.kept }
        ensures still { self.new.olds ≡ [] }
    {
        forget(&mut self.olds, &mut self.is_put);
    }

    /// Shows again what was shown before.
    pub(crate) fn take_back(&mut self)
        ensures shown { shown_at self.new.kept ≡ before_of self.old }
        ensures still { self.new.olds ≡ [] }
    {
        put_olds(&mut self.olds, &mut self.is_put, &mut self.shown);
    }
}

/// Whether a cell stores `#CYCLE!`.
fn is_cycle(kept: &Kept) -> bool
    ensures { result ≡ is_waiting (value_kept kept.now) }
{
    matches!(kept, Kept::Err(Fault::Cycle))
}

/// Puts the cells whose old value is `#CYCLE!` into a set, and takes the others of `olds` out.
fn restore_each(olds: &[(Cell, Kept)], cyclic: &mut CellSet)
    requires once { IsDistinct nat_eq (cells_in olds.now) }
    ensures before { (w : Assignment) → ShowCycle w cyclic.old → ShowCycle (put_back olds.now w) cyclic.new }
{
    for old in olds {
        restore_one(old, cyclic);
    }
}

/// Puts the cell of an old value into a set if the value is `#CYCLE!`, or else takes it out.
fn restore_one(old: &(Cell, Kept), cyclic: &mut CellSet)
    ensures { HoldsAsKept old.now cyclic.old cyclic.new }
{
    if is_cycle(&old.1) {
        cyclic.insert(old.0);
    } else {
        cyclic.remove(old.0);
    }
}

/// Lists the cells that don't show their old value any more.
#[inline]
fn list_differing(olds: &[(Cell, Kept)], shown: &Shown, cells: &mut Vec<Cell>)
    requires once { IsDistinct nat_eq (cells_in olds.now) }
    requires room { length olds.now ≤ vec_capacity cells.old }
    ensures differ { Differ (shown_at shown.now) (put_back olds.now (shown_at shown.now)) cells.new.items }
    ensures few { length cells.new.items ≤ length olds.now }
    ensures room { vec_capacity cells.old ≤ vec_capacity cells.new }
{
    cells.clear();
    for entry in olds {
        list_one(entry, shown, cells);
    }
}

/// Lists the cell of an old value if it doesn't show that any more.
#[inline]
fn list_one(old: &(Cell, Kept), shown: &Shown, cells: &mut Vec<Cell>)
    requires room { length cells.old.items < vec_capacity cells.old }
    ensures listed { ListsDiffering old.now (shown_at shown.now) cells.old.items cells.new.items }
    ensures room { vec_capacity cells.old ≤ vec_capacity cells.new }
{
    if !old.1.is_same(shown.kept(old.0)) {
        cells.push_reserved(old.0);
    }
}

/// Returns the cell of the only old value, if the cell doesn't show that any more.
#[inline]
fn one_differing(olds: &[(Cell, Kept)], shown: &Shown) -> Option<Cell>
    ensures changed { IfSome result
        (λ c. IsChanged (put_back olds.now (shown_at shown.now)) (shown_at shown.now) (c ∷ [])) }
{
    if let [old] = olds {
        return other(old, shown);
    }
    None
}

/// Returns the cell of an old value, if the cell doesn't show that any more.
#[inline]
fn other(old: &(Cell, Kept), shown: &Shown) -> Option<Cell>
    ensures other { IfSome result
        (λ c. (c ≡ old.now.0) × (¬ (shown_at shown.now old.now.0 ≡ value_kept old.now.1))) }
{
    if old.1.is_same(shown.kept(old.0)) {
        return None;
    }
    Some(old.0)
}

/// Lists cells with what they show.
fn list_values(cells: &[Cell], shown: &Shown, changes: &mut Vec<(Cell, Value)>)
    requires room { length cells.now ≤ vec_capacity changes.old }
    ensures values { changes.new.items ≡ map (λ c. (c, shown_at shown.now c)) cells.now }
    ensures room { vec_capacity changes.old ≤ vec_capacity changes.new }
{
    changes.clear();
    for cell in cells {
        changes.push_reserved((*cell, shown.at(*cell)));
    }
}

/// Notes what a cell showed, unless that is noted already.
#[inline(always)]
fn note(olds: &mut Vec<(Cell, Kept)>, is_put: &mut [bool], cell: Cell, old: Kept)
    requires noted { IsNoted olds.old.items is_put.old }
    requires room { CELLS ≤ vec_capacity olds.old }
    ensures noted { IsNoted olds.new.items is_put.new }
    ensures back { (v : Assignment) (y : Value) → value_kept old ≡ v cell
        → put_back olds.new.items (with_value v cell y) ≡ put_back olds.old.items v }
    ensures room { vec_capacity olds.old ≤ vec_capacity olds.new }
{
    let place = cell.index();
    if !is_put[place] {
        is_put[place] = true;
        olds.push_reserved((cell, old));
    }
}

/// Forgets old values, the last one first.
fn forget(olds: &mut Vec<(Cell, Kept)>, is_put: &mut [bool])
    requires whole { length is_put.old ≡ CELLS }
    requires noted { (c : ℕ) → flag_at is_put.old c ≡ true → In (cells_in olds.old.items) c }
    ensures none { olds.new.items ≡ [] }
    ensures off { (c : ℕ) → flag_at is_put.new c ≡ false }
    ensures room { vec_capacity olds.old ≤ vec_capacity olds.new }
{
    'olds: while let Some(last) = olds.pop() {
        is_put[last.0.index()] = false;
    }
}

/// Puts old values back, the last one first.
fn put_olds(olds: &mut Vec<(Cell, Kept)>, is_put: &mut [bool], shown: &mut Shown)
    requires whole { length is_put.old ≡ CELLS }
    requires noted { (c : ℕ) → flag_at is_put.old c ≡ true → In (cells_in olds.old.items) c }
    ensures back { shown_at shown.new ≡ put_back olds.old.items (shown_at shown.old) }
    ensures none { olds.new.items ≡ [] }
    ensures off { (c : ℕ) → flag_at is_put.new c ≡ false }
    ensures room { vec_capacity olds.old ≤ vec_capacity olds.new }
{
    'olds: while let Some(last) = olds.pop() {
        put_one(last, is_put, shown);
    }
}

/// Puts one old value back.
fn put_one(old: (Cell, Kept), is_put: &mut [bool], shown: &mut Shown)
    requires whole { length is_put.old ≡ CELLS }
    ensures back { shown_at shown.new ≡ with_value (shown_at shown.old) old.0 (value_kept old.1) }
    ensures flag { is_put.new ≡ slice_set is_put.old old.0 false }
    ensures inside { old.0 < CELLS }
{
    let (cell, kept) = old;
    is_put[cell.index()] = false;
    // what it showed meanwhile is forgotten
    let _ = shown.put(cell, kept);
}
