//! What an edit of a cell, or of several, adds to a state: its delta.

ghost use Rattle.std.specs.Prelude.{◌≡◌, ◌≤◌, Ok, Err, if◌then◌else◌, nat_le};
ghost use Rattle.std.specs.List.{list_any};
ghost use Rattle.ps_grid.specs.declared.refusal.Refusal.{Refusal};
ghost use Rattle.ps_delta.specs.State.{state_at};
ghost use Rattle.ps_lattice.specs.Tally.{is_amount};
ghost use Rattle.ps_cells.specs.Settled.{content_of};
ghost use Rattle.ps_delta.specs.Batches.{IsBatch};
ghost use Rattle.ps_sheet.specs.Edits.{counted, paired, registered, delta_of_batch, delta_of_edit};
ghost use Rattle.ps_sheet.specs.Edits.{holds_choice, holds_tally, is_clock_full};
ghost use Rattle.ps_sheet.specs.Inside.Makes.{MakesDelta};
ghost use Rattle.ps_delta.specs.declared.edit.Edit.TheVariants.{Choose, Unchoose};

use crate::contents::is_clock_full;
use ps_cells::content;
use ps_content::Content;
use ps_delta::{CellState, Delta, Edit, Grid};
use ps_grid::{Cell, REPLICAS, Refusal};
use ps_lattice::{AMOUNT_LIMIT, Choice, OPTIONS, Register, Tally};
use std::alloc::Global;

/// Returns the delta that an edit at a replica makes over a grid, or the first refusal that holds.
#[inline(always)]
pub(crate) fn delta_of(
    alloc: Global,
    grid: &Grid,
    replica: u8,
    edit: Edit,
) -> Result<Delta, Refusal>
    requires { (1 ≤ replica) × (replica ≤ REPLICAS) }
    ensures { MakesDelta (delta_of_edit replica (state_at grid.now) edit) result }
{
    match edit {
        Edit::Set(cell, content) => {
            let register = grid.at(cell).register.assign(replica, content)?;
            Ok(Delta::of_filled(cell, with_register(alloc, register)))
        }
        Edit::SetAll(batch) => all_assigned(alloc, grid, replica, batch.into_cells()),
        Edit::Add(cell, amount) => {
            let state = grid.at(cell);
            check_tally(state, amount)?;
            let tally = state.tally.add(alloc, replica, amount)?;
            Ok(Delta::of_filled(cell, with_tally(alloc, tally)))
        }
        Edit::Sub(cell, amount) => {
            let state = grid.at(cell);
            check_tally(state, amount)?;
            let tally = state.tally.sub(alloc, replica, amount)?;
            Ok(Delta::of_filled(cell, with_tally(alloc, tally)))
        }
        Edit::Choose(cell, option) => chosen(alloc, grid, replica, cell, option),
        Edit::Unchoose(cell, option) => unchosen(alloc, grid, replica, cell, option),
    }
}

/// The delta of putting an option into the set of a cell.
// Not inlined, nor are `unchosen` and `all_assigned`: more common edits then don't clear the stack space that these
// need.
#[inline(never)]
fn chosen(
    alloc: Global,
    grid: &Grid,
    replica: u8,
    cell: Cell,
    option: u64,
) -> Result<Delta, Refusal>
    requires { (1 ≤ replica) × (replica ≤ REPLICAS) }
    ensures { MakesDelta (delta_of_edit replica (state_at grid.now) (Choose cell option)) result }
{
    let state = grid.at(cell);
    check_choice(state, option)?;
    let choice = state.choice.choose(alloc, replica, option)?;
    Ok(Delta::of_filled(cell, with_choice(alloc, choice)))
}

/// The delta of taking an option out of the set of a cell.
#[inline(never)]
fn unchosen(
    alloc: Global,
    grid: &Grid,
    replica: u8,
    cell: Cell,
    option: u64,
) -> Result<Delta, Refusal>
    requires { (1 ≤ replica) × (replica ≤ REPLICAS) }
    ensures { MakesDelta (delta_of_edit replica (state_at grid.now) (Unchoose cell option)) result }
{
    let state = grid.at(cell);
    check_choice(state, option)?;
    let choice = state.choice.unchoose(alloc, option)?;
    Ok(Delta::of_filled(cell, with_choice(alloc, choice)))
}

/// The delta of assigning contents to cells. The times of all their registers are checked before anything is allocated.
#[inline(never)]
fn all_assigned(
    alloc: Global,
    grid: &Grid,
    replica: u8,
    cells: Vec<(Cell, Content)>,
) -> Result<Delta, Refusal>
    requires replica { (1 ≤ replica) × (replica ≤ REPLICAS) }
    requires batch { IsBatch cells.items }
    ensures { MakesDelta (delta_of_batch replica (state_at grid.now) cells.items) result }
{
    if is_any_full(grid, &cells) {
        return Err(Refusal::ClockFull);
    }
    let mut entries = Vec::with_capacity(alloc, cells.len())?;
    for (cell, content) in cells {
        let register = grid.at(cell).register.assign(replica, content)?;
        entries.push((cell, with_register(alloc, register)))?;
    }
    match Delta::new(alloc, entries)? {
        Some(delta) => Ok(delta),
        None => unreachable!(),
    }
}

/// Whether the time of the register of any of the cells is `LAST_TIME`.
fn is_any_full(grid: &Grid, cells: &[(Cell, Content)]) -> bool
    ensures { result ≡ list_any (λ e. is_clock_full (state_at grid.now e.0)) cells.now }
{
    cells.iter().any(|entry| is_clock_full(grid.at(entry.0)))
}

/// Refuses an amount that is out of range, and a cell whose register doesn't hold a counter.
fn check_tally(state: &CellState, amount: u64) -> Result<(), Refusal>
    ensures { result ≡ (if is_amount amount
        then (if holds_tally (content_of state.now) then Ok tt else Err Refusal.NotTally)
        else Err Refusal.Amount) }
{
    if amount < 1 || amount > AMOUNT_LIMIT {
        return Err(Refusal::Amount);
    }
    match content(state) {
        Some(Content::Tally) => Ok(()),
        _ => Err(Refusal::NotTally),
    }
}

/// Refuses an option that is out of range, and a cell whose register doesn't hold a set.
fn check_choice(state: &CellState, option: u64) -> Result<(), Refusal>
    ensures { result ≡ (if nat_le OPTIONS option
        then Err Refusal.OptionRange
        else (if holds_choice (content_of state.now) then Ok tt else Err Refusal.NotChoice)) }
{
    if option >= OPTIONS {
        return Err(Refusal::OptionRange);
    }
    match content(state) {
        Some(Content::Choice) => Ok(()),
        _ => Err(Refusal::NotChoice),
    }
}

/// The state of a cell that has only a register.
#[inline(always)]
fn with_register(alloc: Global, register: Register<Content>) -> CellState
    ensures { result ≡ registered register }
{
    CellState {
        register,
        tally: Tally::empty(alloc),
        choice: Choice::empty(alloc),
    }
}

/// The state of a cell that has only the counts of a counter.
fn with_tally(alloc: Global, tally: Tally) -> CellState
    ensures { result ≡ counted tally }
{
    CellState {
        register: Register::empty(),
        tally,
        choice: Choice::empty(alloc),
    }
}

/// The state of a cell that has only the pairs of a set, each an option and the tag of its choice.
fn with_choice(alloc: Global, choice: Choice) -> CellState
    ensures { result ≡ paired choice }
{
    CellState {
        register: Register::empty(),
        tally: Tally::empty(alloc),
        choice,
    }
}
