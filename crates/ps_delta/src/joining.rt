//! The join of the entries of several deltas.

ghost use Rattle.std.specs.Prelude.{◌≡◌, ◌-◌, ◌^◌, ◌++◌, ◌≤◌, ◌<◌, [], ◌∷◌, IfOk, IfErr, OnOk, length, map};
ghost use Rattle.std.specs.Prelude.{min, sum_by};
ghost use Rattle.std.specs.List.{All};
ghost use Rattle.std.specs.List.Sorted.{IsNonDecreasingBy};
ghost use Rattle.ps_grid.specs.declared.refusal.Refusal.{Refusal};
ghost use Rattle.ps_delta.specs.State.{joined_state};
ghost use Rattle.ps_delta.specs.Deltas.{AreEntries, AreInGrid, joined_history, state_of};
ghost use Rattle.ps_delta.specs.Inside.Joining.{IsEntry, joined_entries};

use crate::cell_state::CellState;
use crate::delta::Delta;
use ps_grid::{Cell, Refusal, Twin};
use ps_lattice::Join;
use std::alloc::Global;

/// Returns the entries (cells with states) of all deltas, in the order of their cells.
pub(crate) fn in_order<'a>(
    alloc: Global,
    deltas: &'a [Delta],
) -> Result<Vec<&'a (Cell, CellState)>, Refusal>
    ensures joined { IfOk result (λ v. joined_entries (map (λ e. e.now) v.items)
        ≡ joined_history deltas.now) }
    ensures entries { IfOk result (λ v. All IsEntry (map (λ e. e.now) v.items)) }
    ensures order { IfOk result (λ v. IsNonDecreasingBy (λ e. e.0) (map (λ e. e.now) v.items)) }
    ensures some { IfOk result (λ v. 0 < length deltas.now → 0 < length v.items) }
    ensures memory { IfErr result (λ e. e ≡ Refusal.Memory) }
{
    let mut entries = gathered(alloc, deltas)?;
    // the entries of each delta are in order already, and the sort merges such runs
    entries.sort_by_key(|entry| entry.0)?;
    Ok(entries)
}

/// The entries of the deltas, one delta after another.
fn gathered<'a>(alloc: Global, deltas: &'a [Delta]) -> Result<Vec<&'a (Cell, CellState)>, Refusal>
    ensures joined { IfOk result (λ v. joined_entries (map (λ e. e.now) v.items)
        ≡ joined_history deltas.now) }
    ensures entries { IfOk result (λ v. All IsEntry (map (λ e. e.now) v.items)) }
    ensures some { IfOk result (λ v. 0 < length deltas.now → 0 < length v.items) }
    ensures memory { IfErr result (λ e. e ≡ Refusal.Memory) }
{
    let mut entries = Vec::with_capacity(alloc, cell_count(deltas))?;
    for delta in deltas {
        append(&mut entries, delta.parts())?;
    }
    Ok(entries)
}

/// How many cells the deltas have together, or 2^64 - 1 where there are more.
fn cell_count(deltas: &[Delta]) -> usize
    ensures { result ≡ min (sum_by length deltas.now) (2 ^ 64 - 1) }
{
    let mut count = 0usize;
    for delta in deltas {
        count = count.saturating_add(delta.parts().len());
    }
    count
}

/// Appends the cells to the list.
fn append<'a>(
    entries: &mut Vec<&'a (Cell, CellState)>,
    cells: &'a [(Cell, CellState)],
) -> Result<(), Refusal>
    ensures added { OnOk result (map (λ e. e.now) entries.new.items
        ≡ map (λ e. e.now) entries.old.items ++ cells.now) }
    ensures memory { IfErr result (λ e. e ≡ Refusal.Memory) }
{
    for cell in cells {
        entries.push(cell)?;
    }
    Ok(())
}

/// Returns the join of entries that are in the order of their cells.
pub(crate) fn joined_in_order(
    alloc: Global,
    entries: &[&(Cell, CellState)],
) -> Result<Vec<(Cell, CellState)>, Refusal>
    requires entries { All IsEntry (map (λ e. e.now) entries.now) }
    requires order { IsNonDecreasingBy (λ e. e.0) (map (λ e. e.now) entries.now) }
    ensures joined { IfOk result (λ v. state_of v.items ≡ joined_entries (map (λ e. e.now) entries.now)) }
    ensures entries { IfOk result (λ v. AreEntries v.items × AreInGrid v.items) }
    ensures some { IfOk result (λ v. 0 < length entries.now → 0 < length v.items) }
    ensures memory { IfErr result (λ e. e ≡ Refusal.Memory) }
{
    let mut cells = Vec::with_capacity(alloc, entries.len())?;
    for entry in entries {
        add(alloc, &mut cells, entry)?;
    }
    Ok(cells)
}

/// Joins an entry into the list. The entry's cell is the last cell of the list, or comes after all of them.
fn add(
    alloc: Global,
    cells: &mut Vec<(Cell, CellState)>,
    entry: &(Cell, CellState),
) -> Result<(), Refusal>
    requires cells { AreEntries cells.old.items × AreInGrid cells.old.items }
    requires entry { IsEntry entry.now }
    requires last { All (λ e. e.0 ≤ entry.now.0) cells.old.items }
    ensures joined { OnOk result (state_of cells.new.items
        ≡ joined_state (state_of cells.old.items) (state_of (entry.now ∷ []))) }
    ensures cells { OnOk result (AreEntries cells.new.items × AreInGrid cells.new.items) }
    ensures last { OnOk result (All (λ e. e.0 ≤ entry.now.0) cells.new.items) }
    ensures some { OnOk result (0 < length cells.new.items) }
    ensures memory { IfErr result (λ e. e ≡ Refusal.Memory) }
{
    let count = cells.len();
    if count > 0 && cells[count - 1].0 == entry.0 {
        cells[count - 1].1.join(alloc, &entry.1)?;
        return Ok(());
    }
    cells.push((entry.0, entry.1.twin(alloc)?))?;
    Ok(())
}
