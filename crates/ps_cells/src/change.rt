//! The beginning of a change: everything that needs memory, so that the rest of the change can't fail.
//!
//! A cell is alone if it has no formula and no formula refers to it. Touched cells are those that the change gives a
//! new state.

ghost use Rattle.std.specs.Prelude.{◌≡◌, ℕ, [], true, false, OnOk, OnErr, IfOk, IfErr};
ghost use Rattle.std.specs.List.{list_all};
ghost use Rattle.ps_index.specs.Stands.{Puts, Stands, with_put};
ghost use Rattle.ps_region.specs.CellSets.{has_cell};
ghost use Rattle.ps_region.specs.Listed.{listed};
ghost use Rattle.ps_content.specs.Order.{formula_in};
ghost use Rattle.ps_delta.specs.State.{state_at};
ghost use Rattle.ps_delta.specs.Deltas.{cells_of, state_of};
ghost use Rattle.ps_delta.specs.Changes.{AreChangesBy, HasRoomFor};
ghost use Rattle.ps_cells.specs.Settled.{content_of};
ghost use Rattle.ps_cells.specs.Inside.Alone.{are_alone, firsts_by, is_alone_entry, is_empty};
ghost use Rattle.ps_cells.specs.Inside.Formulas.{firsts, shown_firsts, with_puts};

use crate::contents::{first_of, formula_of, holds_formula};
use ps_delta::{CellState, Delta, Grid};
use ps_grid::{Cell, Refusal};
use ps_index::{Index, Readers};
use ps_region::CellSet;
use ps_shown::Kept;
use std::alloc::Global;

/// Lists of the touched cells of a change. They are reused: a change lets them grow only if it touches more cells than
/// all changes before.
#[derive(Drop)]
pub(crate) struct Lists {
    /// the touched cells, unless they are alone
    pub(crate) touched: Vec<Cell>,
    /// the touched cells, each with what it shows at first, except a sole one that is alone; between two changes it
    /// stores no values, unless the last one failed
    pub(crate) first: Vec<(Cell, Kept)>,
    /// the touched cells, ascending, each with its state: the new one until the cells have got these, and from then on
    /// the one that it had; between two changes empty, unless the last one failed
    pub(crate) states: Vec<(Cell, CellState)>,
}

/// How to recalculate the cells of a change that has begun.
#[derive(Drop)]
pub(crate) enum Beginning {
    /// Only this cell is touched, and it is alone. It shows this value.
    Sole(Cell, Kept),
    /// The touched cells are alone; `Lists::first` has the values that they show.
    Alone,
    /// The touched cells aren't all alone, or some cell is cyclic: the change has a region.
    Region,
}

impl Lists {
    /// Lists without a cell.
    pub(crate) fn new(alloc: Global) -> Lists {
        Lists {
            touched: Vec::new(alloc),
            first: Vec::new(alloc),
            states: Vec::new(alloc),
        }
    }
}

/// Begins the change that a delta makes. Lists the touched cells with their new states and with what they show at
/// first. Returns how to recalculate. For `Beginning::Region`, it also puts the new formulas into the index beside the
/// old ones.
///
/// Fails only when out of memory, and then the index stands for what it stood for.
pub(crate) fn begin(
    alloc: Global,
    grid: &mut Grid,
    index: &mut Index,
    cyclic: &CellSet,
    lists: &mut Lists,
    delta: &Delta,
) -> Result<Beginning, Refusal>
    requires stands { (forms : Puts) × Stands index.old forms }
    ensures changes { OnOk result (AreChangesBy (state_at grid.old) (state_of delta.now) lists.new.states.items) }
    ensures ready { OnOk result (HasRoomFor grid.new lists.new.states.items) }
    ensures touched { IfOk result (λ how. are_alone how ≡ false
        → lists.new.touched.items ≡ cells_of lists.new.states.items) }
    ensures first { IfOk result (λ how. shown_firsts (firsts_by how lists.new.first.items)
        ≡ firsts lists.new.states.items) }
    ensures alone { IfOk result (λ how. are_alone how ≡ true → ((c : ℕ) → has_cell cyclic.now c ≡ false)
        × (list_all (is_alone_entry (listed index.new)) lists.new.states.items ≡ true)) }
    ensures put { OnOk result ((forms : Puts) → Stands index.old forms
        → Stands index.new (with_puts lists.new.states.items forms)) }
    ensures undone { OnErr result ((forms : Puts) → Stands index.old forms → Stands index.new forms) }
    ensures same { state_at grid.new ≡ state_at grid.old }
    ensures memory { IfErr result (λ e. e ≡ Refusal.Memory) }
{
    grid.changes_by(alloc, delta, &mut lists.states)?;
    if cyclic.is_empty() && are_alone(index, &lists.states) {
        return begin_alone(alloc, &lists.states, &mut lists.first);
    }
    list_first(alloc, &lists.states, &mut lists.first)?;
    list_cells(&lists.states, &mut lists.touched)?;
    put_formulas(index, &lists.states)?;
    Ok(Beginning::Region)
}

/// Begins a change of cells that are alone. If it is only one cell, its value is returned and not listed.
#[inline(always)]
fn begin_alone(
    alloc: Global,
    cells: &[(Cell, CellState)],
    first: &mut Vec<(Cell, Kept)>,
) -> Result<Beginning, Refusal>
    ensures first { IfOk result (λ how. shown_firsts (firsts_by how first.new.items) ≡ firsts cells.now) }
    ensures alone { IfOk result (λ how. are_alone how ≡ true) }
    ensures memory { IfErr result (λ e. e ≡ Refusal.Memory) }
{
    if let [entry] = cells {
        let kept = first_of(alloc, &entry.1)?;
        return Ok(Beginning::Sole(entry.0, kept));
    }
    list_first(alloc, cells, first)?;
    Ok(Beginning::Alone)
}

/// Returns whether all cells are alone: no new state has a formula, and no formula refers to one of the cells.
fn are_alone(index: &Index, cells: &[(Cell, CellState)]) -> bool
    ensures { result ≡ list_all (is_alone_entry (listed index.now)) cells.now }
{
    cells.iter().all(|entry| is_alone(index, entry))
}

/// Returns whether the cell is alone: its new state has no formula, and no formula refers to the cell.
fn is_alone(index: &Index, entry: &(Cell, CellState)) -> bool
    ensures { result ≡ is_alone_entry (listed index.now) entry.now }
{
    !holds_formula(&entry.1) && is_unread(index, entry.0)
}

/// Whether no formula refers to the cell.
fn is_unread(index: &Index, cell: Cell) -> bool
    ensures { result ≡ is_empty (listed index.now cell) }
{
    match index.readers(cell) {
        Readers::Nobody => true,
        Readers::One(_) => false,
        Readers::Row(mut walk) => walk.next().is_none(),
        Readers::TwoRows(mut walk) => walk.next().is_none(),
        Readers::Several => index.dependents(cell).next().is_none(),
    }
}

/// Copies the cells, without their states, into a list.
fn list_cells(cells: &[(Cell, CellState)], alone: &mut Vec<Cell>) -> Result<(), Refusal>
    ensures cells { OnOk result (alone.new.items ≡ cells_of cells.now) }
    ensures memory { IfErr result (λ e. e ≡ Refusal.Memory) }
{
    alone.clear();
    for (cell, _) in cells {
        alone.push(*cell)?;
    }
    Ok(())
}

/// Lists the cells, each with what it shows at first.
fn list_first(
    alloc: Global,
    cells: &[(Cell, CellState)],
    first: &mut Vec<(Cell, Kept)>,
) -> Result<(), Refusal>
    ensures first { OnOk result (shown_firsts first.new.items ≡ firsts cells.now) }
    ensures memory { IfErr result (λ e. e ≡ Refusal.Memory) }
{
    first.clear();
    for (cell, state) in cells {
        let kept = first_of(alloc, state)?;
        first.push((*cell, kept))?;
    }
    Ok(())
}

/// Puts the formulas of the new states into the index. If one can't be put in, takes out those before it again.
fn put_formulas(index: &mut Index, cells: &[(Cell, CellState)]) -> Result<(), Refusal>
    requires stands { (forms : Puts) × Stands index.old forms }
    ensures put { OnOk result ((forms : Puts) → Stands index.old forms
        → Stands index.new (with_puts cells.now forms)) }
    ensures undone { OnErr result ((forms : Puts) → Stands index.old forms → Stands index.new forms) }
    ensures memory { IfErr result (λ e. e ≡ Refusal.Memory) }
{
    for (i, (cell, state)) in cells.iter().enumerate() {
        if let Err(refusal) = index.set(*cell, None, formula_of(state)) {
            take_formulas(index, &cells[..i]);
            return Err(refusal);
        }
    }
    Ok(())
}

/// Takes the formulas of the cells out of the index, and empties the list.
#[inline(always)]
pub(crate) fn drop_formulas(index: &mut Index, cells: &mut Vec<(Cell, CellState)>)
    requires stands { (forms : Puts) × Stands index.old (with_puts cells.old.items forms) }
    ensures taken { (forms : Puts) → Stands index.old (with_puts cells.old.items forms) → Stands index.new forms }
    ensures none { cells.new.items ≡ [] }
{
    'cells: while let Some(last) = cells.pop() {
        take_formula(index, &last);
    }
}

/// Takes the formula of a cell out of the index, if it has one.
#[inline(always)]
fn take_formula(index: &mut Index, entry: &(Cell, CellState))
    requires stands { (forms : Puts) × Stands index.old
        (with_put entry.now.0 (formula_in (content_of entry.now.1)) forms) }
    ensures taken { (forms : Puts) → Stands index.old
        (with_put entry.now.0 (formula_in (content_of entry.now.1)) forms) → Stands index.new forms }
{
    if let Some(formula) = formula_of(&entry.1) {
        index.remove(entry.0, formula);
    }
}

/// Takes the formulas of the cells out of the index.
pub(crate) fn take_formulas(index: &mut Index, cells: &[(Cell, CellState)])
    requires stands { (forms : Puts) × Stands index.old (with_puts cells.now forms) }
    ensures taken { (forms : Puts) → Stands index.old (with_puts cells.now forms) → Stands index.new forms }
{
    let mut left = cells.len();
    while left > 0 {
        left -= 1;
        let (cell, state) = &cells[left];
        if let Some(formula) = formula_of(state) {
            index.remove(*cell, formula);
        }
    }
}
