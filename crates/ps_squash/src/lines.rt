//! Writes cells as change lines, as few as possible.
ghost use Rattle.std.specs.Prelude.{◌≡◌, ◌≢◌, ◌⊎◌, ◌+◌, ◌<◌, ◌≤◌, ◌++◌, List, Err, IfOk, IfErr, OnOk, length};
ghost use Rattle.std.specs.Prelude.{◌∷◌, [], map as each, take, sum_by};
ghost use Rattle.std.specs.List.{All};
ghost use Rattle.ps_grid.specs.declared.refusal.Refusal.TheVariants as refusals;
ghost use Rattle.ps_delta.specs.Deltas.{AreEntries, Entries, IsDelta};
ghost use Rattle.ps_delta.specs.State.{empty_cell};
ghost use Rattle.ps_wire.specs.Fits.{FitsLine};
ghost use Rattle.ps_wire.specs.Line.{IsLine, delta_text};
ghost use Rattle.ps_wire.specs.declared.TheConstants.{DELTA_LINE_LIMIT};
ghost use Rattle.ps_squash.specs.Squashed.{Divide, ended_line, push_lines};
ghost use Rattle.ps_squash.specs.Inside.{HasWide, cell_size, ended_size};

use ps_delta::{CellState, Delta};
use ps_grid::{Cell, Refusal, Twin};
use ps_lines::put_push_line;
use ps_wire::{DELTA_LINE_LIMIT, encode};
use std::alloc::Global;

/// Appends the change lines for these cells to `text`, in order, each with as many cells as fit.
///
/// Fails as `TooLong` if one cell alone is too long for a line, and as `Memory` when out of memory.
///
/// Cost: twice that of the text, and memory for it.
pub(crate) fn put_lines(
    alloc: Global,
    entries: &[(Cell, CellState)],
    text: &mut Vec<u8>,
) -> Result<(), Refusal>
    requires entries { AreEntries entries.now }
    ensures lines { OnOk result ((deltas : List Entries) × Divide deltas entries.now
        × (text.new.items ≡ text.old.items ++ push_lines deltas)) }
    ensures wide { IfErr result (λ e. e ≡ refusals.TooLong → HasWide entries.now) }
    ensures refused { IfErr result (λ e. (e ≡ refusals.TooLong) ⊎ (e ≡ refusals.Memory)) }
{
    match sizes_of(alloc, entries) {
        Ok(sizes) => divide(alloc, entries, &sizes, text),
        Err(refusal) => Err(refusal),
    }
}

/// Returns how many bytes the text of each cell has. Fails as `TooLong` if one cell alone is too long for a line.
fn sizes_of(alloc: Global, entries: &[(Cell, CellState)]) -> Result<Vec<usize>, Refusal>
    requires entries { AreEntries entries.now }
    ensures sizes { IfOk result (λ sizes. sizes.items ≡ each cell_size entries.now) }
    ensures fit { IfOk result (λ sizes. All (λ n. n + 2 ≤ DELTA_LINE_LIMIT) sizes.items) }
    ensures wide { IfErr result (λ e. e ≡ refusals.TooLong → HasWide entries.now) }
    ensures refused { IfErr result (λ e. (e ≡ refusals.TooLong) ⊎ (e ≡ refusals.Memory)) }
{
    let mut sizes = Vec::with_capacity(alloc, entries.len())?;
    for entry in entries {
        match size_of(alloc, entry) {
            Ok(size) => sizes.push(size)?,
            Err(refusal) => return Err(refusal),
        }
    }
    Ok(sizes)
}

/// Returns how many bytes the text of the cell has. Fails as `TooLong` if the cell alone is too long for a line.
fn size_of(alloc: Global, entry: &(Cell, CellState)) -> Result<usize, Refusal>
    requires some { entry.now.1 ≢ empty_cell }
    ensures size { IfOk result (λ n. n ≡ cell_size entry.now) }
    ensures fits { IfOk result (λ n. n + 2 ≤ DELTA_LINE_LIMIT) }
    ensures wide { IfErr result (λ e. e ≡ refusals.TooLong → ¬ FitsLine (entry.now ∷ [])) }
    ensures refused { IfErr result (λ e. (e ≡ refusals.TooLong) ⊎ (e ≡ refusals.Memory)) }
{
    let delta = delta_of_one(alloc, entry)?;
    let mut line = Vec::new(alloc);
    encode(alloc, &delta, &mut line)?;
    // without the brackets round the cells
    Ok(line.len() - 2)
}

/// Returns the delta of this cell alone.
fn delta_of_one(alloc: Global, entry: &(Cell, CellState)) -> Result<Delta, Refusal>
    requires { entry.now.1 ≢ empty_cell }
    ensures delta { IfOk result (λ d. d ≡ entry.now ∷ []) }
    ensures memory { IfErr result (λ e. e ≡ refusals.Memory) }
{
    let state = entry.1.twin(alloc)?;
    Ok(Delta::of_filled(entry.0, state))
}

/// Returns the delta of these cells.
fn delta_of(alloc: Global, entries: &[(Cell, CellState)]) -> Result<Delta, Refusal>
    requires { IsDelta entries.now }
    ensures delta { IfOk result (λ d. d ≡ entries.now) }
    ensures memory { IfErr result (λ e. e ≡ refusals.Memory) }
{
    let mut cells = Vec::with_capacity(alloc, entries.len())?;
    for entry in entries {
        cells.push((entry.0, entry.1.twin(alloc)?))?;
    }
    let delta = Delta::new(alloc, cells)?;
    Ok(delta.unwrap())
}

/// Appends the change lines for these cells to `text`, each with as many cells as fit. `sizes` has the length of each
/// cell's text.
fn divide(
    alloc: Global,
    entries: &[(Cell, CellState)],
    sizes: &[usize],
    text: &mut Vec<u8>,
) -> Result<(), Refusal>
    requires entries { AreEntries entries.now }
    requires sizes { sizes.now ≡ each cell_size entries.now }
    requires fit { All (λ n. n + 2 ≤ DELTA_LINE_LIMIT) sizes.now }
    ensures lines { OnOk result ((deltas : List Entries) × Divide deltas entries.now
        × (text.new.items ≡ text.old.items ++ push_lines deltas)) }
    ensures memory { IfErr result (λ e. e ≡ refusals.Memory) }
{
    let mut left = entries;
    let mut left_sizes = sizes;
    'lines: while !left.is_empty() {
        let count = count_with_room(left_sizes);
        let (line, rest) = left.split_at(count);
        put_line(alloc, line, text)?;
        left = rest;
        left_sizes = left_sizes.split_at(count).1;
    }
    Ok(())
}

/// Returns how many cells, from the first on, have texts that fit on one line.
fn count_with_room(sizes: &[usize]) -> usize
    requires fit { All (λ n. n + 2 ≤ DELTA_LINE_LIMIT) sizes.now }
    ensures some { 0 < length sizes.now → 0 < result }
    ensures within { result ≤ length sizes.now }
    ensures fits { 1 + sum_by ended_size (take result sizes.now) ≤ DELTA_LINE_LIMIT }
    ensures full { result < length sizes.now
        → DELTA_LINE_LIMIT < 1 + sum_by ended_size (take (result + 1) sizes.now) }
{
    let mut left = DELTA_LINE_LIMIT - 1;
    let mut count = 0;
    'cells: while count < sizes.len() && sizes[count] < left {
        left -= sizes[count] + 1;
        count += 1;
    }
    count
}

/// Appends one change line with these cells to `text`.
fn put_line(alloc: Global, cells: &[(Cell, CellState)], text: &mut Vec<u8>) -> Result<(), Refusal>
    requires delta { IsDelta cells.now }
    requires fits { FitsLine cells.now }
    ensures line { OnOk result (text.new.items ≡ text.old.items ++ ended_line cells.now) }
    ensures is_line { OnOk result (IsLine (delta_text cells.now) cells.now) }
    ensures memory { IfErr result (λ e. e ≡ refusals.Memory) }
{
    let delta = delta_of(alloc, cells)?;
    put_push_line(alloc, &delta, text)?;
    text.push(b'\n')?;
    Ok(())
}
