//! The order of a recalculation: the touched and the cyclic cells first, then level after level. A flag says that a
//! cell is due: to be evaluated when its level comes.

ghost use Rattle.std.specs.Prelude.{◌≡◌, ◌+◌, ◌<◌, ◌≤◌, ◌||◌, ℕ, List, true, false, length, map, nat_eq};
ghost use Rattle.std.specs.Iterator.{AlwaysYields, IsFinite};
ghost use Rattle.std.specs.List.{list_any, All, IsDistinct};
ghost use Rattle.ps_grid.specs.Chains.{In};
ghost use Rattle.ps_grid.specs.declared.parties.TheConstants.{WORKERS};
ghost use Rattle.ps_shown.specs.Kept.{value_of as value_kept};
ghost use Rattle.ps_shown.specs.Shown.{shown_at};
ghost use Rattle.ps_delta.specs.State.{state_at};
ghost use Rattle.ps_region.specs.Found.{level_cells, level_count};
ghost use Rattle.ps_region.specs.Listed.{listed};
ghost use Rattle.ps_cells.specs.Inside.Waiting.{first_value};
ghost use Rattle.ps_cells.specs.Inside.Walk.{formula_at, Shows};
ghost use Rattle.ps_cells.specs.Inside.Steps.{BeginsAll, ClosesAll, flag_at, HasRoom, IsFirst, MayWalk};
ghost use Rattle.ps_cells.specs.Inside.Steps.{StepsLevels};
ghost use Rattle.ps_cells.specs.Inside.Screens.{before_of, put_back};

use crate::contents::holds_formula;
use crate::level::{Inputs, Level, Step, Workers};
use crate::screen::Screen;
use crate::sums::expect_sums;
use ps_delta::Grid;
use ps_eval::Meter;
use ps_grid::{CELLS, Cell};
use ps_index::{Index, Readers};
use ps_region::Region;
use ps_shown::Kept;
use ps_value::Fault;
use ps_workers::Gate;
use std::mem;
use std::sync::ledger::Ledger;
use std::thread::Threads;

/// Flags the cells that `walk` yields.
fn flag_each<W: Iterator<Item = Cell> + Drop>(walk: W, flags: &mut [bool])
    requires can { W.can_next walk }
    requires ends { IsFinite (W.remaining walk) }
    requires whole { length flags.old ≡ CELLS }
    ensures flagged { (cells : List ℕ) → AlwaysYields W.next_gives (λ c. c) walk cells
        → (c : ℕ) → flag_at flags.new c ≡ (flag_at flags.old c || list_any (nat_eq c) cells) }
{
    for dependent in walk {
        flags[dependent.index()] = true;
    }
}

/// Flags the cells that the index lists for a cell.
#[inline(always)]
fn flag_dependents(index: &Index, cell: Cell, flags: &mut [bool])
    requires whole { length flags.old ≡ CELLS }
    ensures flagged { (c : ℕ) → flag_at flags.new c
        ≡ (flag_at flags.old c || list_any (nat_eq c) (listed index.now cell)) }
{
    match index.readers(cell) {
        Readers::Nobody => {}
        Readers::One(reader) => flags[reader.index()] = true,
        Readers::Row(walk) => flag_each(walk, flags),
        Readers::TwoRows(walk) => flag_each(walk, flags),
        Readers::Several => flag_each(index.dependents(cell), flags),
    }
}

/// Lets a cell show a value. If it showed another one before, flags the cells that refer to it.
#[inline(always)]
pub(crate) fn show(index: &Index, cell: Cell, kept: Kept, shown: &mut Screen, flags: &mut [bool])
    requires whole { length flags.old ≡ CELLS }
    ensures shows { Shows cell (value_kept kept) (listed index.now cell) (shown_at shown.old.kept)
        (shown_at shown.new.kept)
        (flag_at flags.old) (flag_at flags.new) }
    ensures before { before_of shown.new ≡ before_of shown.old }
{
    let same = kept.is_same(shown.kept(cell));
    shown.put(cell, kept);
    if !same {
        flag_dependents(index, cell, flags);
    }
}

/// Lets cells show their first values, and empties the list.
#[inline(always)]
pub(crate) fn put_all_first(first: &mut Vec<(Cell, Kept)>, shown: &mut Screen)
    ensures put { shown_at shown.new.kept ≡ put_back first.old.items (shown_at shown.old.kept) }
    ensures before { before_of shown.new ≡ before_of shown.old }
{
    'first: while let Some(last) = first.pop() {
        shown.put(last.0, last.1);
    }
}

/// Flags a touched cell if it has a formula, or else lets it show its value.
#[inline(always)]
fn show_first(
    grid: &Grid,
    index: &Index,
    cell: Cell,
    kept: Kept,
    shown: &mut Screen,
    flags: &mut [bool],
)
    requires whole { length flags.old ≡ CELLS }
    ensures first { IsFirst (state_at grid.now) cell (value_kept kept) (listed index.now cell) (shown_at shown.old.kept)
        (shown_at shown.new.kept) (flag_at flags.old) (flag_at flags.new) }
    ensures before { before_of shown.new ≡ before_of shown.old }
{
    if holds_formula(grid.at(cell)) {
        expect_sums(grid.at(cell), shown);
        flags[cell.index()] = true;
    } else {
        show(index, cell, kept, shown, flags);
    }
}

/// Flags the touched cells that have a formula, and lets the others show their first values. The entries of the list
/// then store nothing.
#[inline(always)]
pub(crate) fn show_all_first(
    grid: &Grid,
    index: &Index,
    first: &mut [(Cell, Kept)],
    shown: &mut Screen,
    flags: &mut [bool],
)
    requires whole { length flags.old ≡ CELLS }
    requires once { IsDistinct nat_eq (map (λ e. e.0) first.old) }
    requires values { All (λ e. value_kept e.1 ≡ first_value (state_at grid.now e.0)) first.old }
    ensures begun { BeginsAll (state_at grid.now) (listed index.now) (map (λ e. e.0) first.old)
        (shown_at shown.old.kept)
        (shown_at shown.new.kept) (flag_at flags.old) (flag_at flags.new) }
    ensures before { before_of shown.new ≡ before_of shown.old }
{
    for i in 0..first.len() {
        let entry = &mut first[i];
        let kept = mem::replace(&mut entry.1, Kept::Empty);
        show_first(grid, index, entry.0, kept, shown, flags);
    }
}

/// Lets cells show `#CYCLE!`.
pub(crate) fn close_all(cells: &[Cell], shown: &mut Screen)
    ensures closed { ClosesAll cells.now (shown_at shown.old.kept) (shown_at shown.new.kept) }
    ensures before { before_of shown.new ≡ before_of shown.old }
{
    for cell in cells {
        shown.put(*cell, Kept::Err(Fault::Cycle));
    }
}

/// Recalculates the region's formula cells that reach no cycle, level after level. Returns how many were evaluated.
pub(crate) fn settle_frame<R: Threads + Sync, G: Gate, L: Ledger>(
    workers: &Workers<'_, R, G>,
    inputs: &Inputs<'_>,
    region: &Region,
    level: &mut Level,
    shown: &mut Screen,
    flags: &mut [bool],
    meter: &mut Meter<L>,
) -> u64
    requires workers { (0 < workers.now.count) × (workers.now.count ≤ WORKERS) }
    requires whole { length flags.old ≡ CELLS }
    requires room { HasRoom CELLS level.old }
    requires begun { MayWalk (state_at inputs.now.grid.now) (listed inputs.now.index.now) (level_cells region.now)
        (level_count region.now) (shown_at shown.old.kept) (flag_at flags.old) }
    ensures settled { StepsLevels (state_at inputs.now.grid.now) (listed inputs.now.index.now)
        (level_cells region.now) (level_count region.now) (level_count region.now + 1) (shown_at shown.old.kept)
        (shown_at shown.new.kept) (flag_at flags.old) (flag_at flags.new) result }
    ensures before { before_of shown.new ≡ before_of shown.old }
    ensures metered { meter.new ≡ meter.old + result }
    ensures room { HasRoom CELLS level.new }
{
    let mut evaluated = 0;
    let levels = region.levels();
    for before in 0..levels {
        let cells = region.level(before + 1);
        let is_last = before + 1 == levels;
        let step = &Step { cells, is_last };
        evaluated += level.settle(workers, inputs, step, shown, flags, meter) as u64;
    }
    evaluated
}

/// Clears the flags of cells.
pub(crate) fn clear(cells: &[Cell], flags: &mut [bool])
    requires whole { length flags.old ≡ CELLS }
    requires within { (c : ℕ) → flag_at flags.old c ≡ true → In cells.now c }
    ensures clear { (c : ℕ) → flag_at flags.new c ≡ false }
{
    for cell in cells {
        flags[cell.index()] = false;
    }
}
