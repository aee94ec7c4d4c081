//! Finds how many deltas may share a line, judged by the lengths of their contents.
//!
//! Here the floor of a cell is a lower bound: the fewest bytes that a line takes for the cell, whichever of the deltas'
//! contents a join keeps. Deltas whose floors together exceed a line have no line together.

ghost use Rattle.std.specs.Prelude.{◌≡◌, ◌↔◌, ℕ, ◌+◌, ◌-◌, ◌<◌, ◌≤◌, None, IsTrue, IfOk, IfErr, IfSome, length};
ghost use Rattle.std.specs.Prelude.{sum_by, take};
ghost use Rattle.std.specs.List.{All};
ghost use Rattle.ps_grid.specs.declared.size.TheConstants.{CELLS};
ghost use Rattle.ps_wire.specs.Inside.{AreAbove, AreFloors, AreListed, Overspends, Spends, cell_floor, floor_at};
ghost use Rattle.ps_wire.specs.Length.{HasNoLine};
ghost use Rattle.ps_wire.specs.declared.TheConstants.{DELTA_LINE_LIMIT};

use crate::DELTA_LINE_LIMIT;
use crate::length::unescaped_size;
use ps_delta::{CellState, Delta};
use ps_grid::{CELLS, Cell, Refusal};
use std::alloc::Global;

/// A number of cells whose floors always fit one line.
const FEW_CELLS: usize = 512;

/// Returns how many of the first `most` deltas, counted from the first delta on, may share a line as their join.
///
/// The number is an upper bound. A join of more of the first `most` deltas is too long for a line. A join of exactly
/// this number of deltas may be too long or not. The function finds the bound without a join, from the shortest content
/// that these deltas have for each cell.
///
/// Fails only when out of memory.
///
/// Cost: linear in the cells of the deltas and of the grid, and memory for one number per cell of the grid. With one
/// delta, or at most 512 cells in all deltas, linear in the number of deltas, and no memory.
pub fn may_share_line(alloc: Global, deltas: &[Delta], most: usize) -> Result<usize, Refusal>
    ensures most { IfOk result (λ n. n ≤ most) }
    ensures within { IfOk result (λ n. n ≤ length deltas.now) }
    ensures more { IfOk result (λ n. (k : ℕ) → n < k → k ≤ most → k ≤ length deltas.now
        → HasNoLine (take k deltas.now)) }
    ensures memory { IfErr result (λ e. e ≡ Refusal.Memory) }
{
    let count = most.min(deltas.len());
    let group = &deltas[..count];
    if count < 2 || !have_more_cells(group, FEW_CELLS) {
        return Ok(count);
    }
    let mut floors = floors_of(alloc, group)?;
    Ok(room_for(group, &mut floors))
}

/// Returns whether the deltas have more than `most` cells. A cell counts once for each delta that has it.
fn have_more_cells(deltas: &[Delta], most: usize) -> bool
    ensures { IsTrue result ↔ (most < sum_by length deltas.now) }
{
    let mut left = most;
    for delta in deltas {
        match left.checked_sub(delta.parts().len()) {
            Some(rest) => left = rest,
            None => return true,
        }
    }
    false
}

/// Returns the floor of each cell of the grid, by index; that of a cell in none of the deltas is `usize::MAX`.
fn floors_of(alloc: Global, deltas: &[Delta]) -> Result<Vec<usize>, Refusal>
    ensures whole { IfOk result (λ floors. length floors.items ≡ CELLS) }
    ensures floors { IfOk result (λ floors. AreFloors floors.items deltas.now) }
    ensures memory { IfErr result (λ e. e ≡ Refusal.Memory) }
{
    let mut floors = vec![in alloc; usize::MAX; CELLS]?;
    for delta in deltas {
        lower(delta.parts(), &mut floors);
    }
    Ok(floors)
}

/// Lowers the floor of each cell to what its content takes here, if that is less.
fn lower(cells: &[(Cell, CellState)], floors: &mut [usize])
    requires whole { length floors.old ≡ CELLS }
    ensures whole { length floors.new ≡ CELLS }
    ensures above { AreAbove floors.new cells.now }
    ensures lower { (c : ℕ) → floor_at floors.new c ≤ floor_at floors.old c }
{
    for entry in cells {
        let at = entry.0.index();
        floors[at] = floors[at].min(cell_floor(&entry.1));
    }
}

/// Returns the fewest bytes that a line takes for a cell with this state's content, whatever else the cell holds.
///
/// Of these, 12 are two brackets, three commas, the quotes of the name, the brackets of the counts and of the pairs,
/// and the comma or bracket after the cell.
fn cell_floor(state: &CellState) -> usize
    ensures { result ≡ cell_floor state.now }
{
    12 + unescaped_size(state.parts().0)
}

/// Returns how many of the deltas, from the first on, have floors that fit one line. It sets the floors that it counts
/// to 0.
fn room_for(deltas: &[Delta], floors: &mut [usize]) -> usize
    requires whole { length floors.old ≡ CELLS }
    ensures within { result ≤ length deltas.now }
    ensures more { result < length deltas.now
        → Overspends (λ listed. All (AreListed listed) (take (result + 1) deltas.now)) floors.old
        (DELTA_LINE_LIMIT - 1) }
{
    let mut left = DELTA_LINE_LIMIT - 1;
    let mut count = 0;
    'deltas: while count < deltas.len() {
        match spend(deltas[count].parts(), floors, left) {
            Some(rest) => left = rest,
            None => return count,
        }
        count += 1;
    }
    count
}

/// Returns how many of `room` bytes the floors of the cells leave, or `None` if they need more. It sets these floors to
/// 0, so that a later delta with the same cell doesn't count it again.
fn spend(cells: &[(Cell, CellState)], floors: &mut [usize], room: usize) -> Option<usize>
    requires whole { length floors.old ≡ CELLS }
    ensures whole { length floors.new ≡ CELLS }
    ensures left { IfSome result (λ left. Spends (λ listed. AreListed listed cells.now) floors.old room floors.new
        left) }
    ensures none { result ≡ None → Overspends (λ listed. AreListed listed cells.now) floors.old room }
{
    let mut left = room;
    for entry in cells {
        let at = entry.0.index();
        left = left.checked_sub(floors[at])?;
        floors[at] = 0;
    }
    Some(left)
}
