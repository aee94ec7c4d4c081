//! Which cells refer to a cell, noted in one number: none, one, or two if the index of the first is below `FIRSTS`.

ghost use Rattle.std.specs.Prelude.{◌≡◌, ◌≢◌, ◌+◌, ◌-◌, ◌*◌, ◌/◌, ◌%◌, ◌^◌, ◌<◌, ◌≤◌};
ghost use Rattle.ps_grid.specs.declared.size.TheConstants.{CELLS as ALL};

use ps_grid::{CELLS, Cell};

/// The number for a cell that no cell refers to.
pub(crate) const NONE: u32 = CELLS as u32;

/// The number for a cell that several cells refer to, if it doesn't say which.
pub(crate) const SEVERAL: u32 = CELLS as u32 + 1;

/// Two cells fit into the number if the index of the first is below this.
const FIRSTS: u32 = 40_000;

/// Returns the number that notes the cells of the number `noted` and the cell `e`: `e` alone after `NONE`, and both
/// cells after one with an index below `FIRSTS`. Otherwise it is `SEVERAL`.
#[inline]
pub(crate) fn noted_with(noted: u32, e: Cell) -> u32
    ensures first { noted ≡ ALL → result ≡ e }
    ensures second { noted < FIRSTS → result ≡ ALL + 2 + noted * ALL + e }
    ensures more { noted ≢ ALL → FIRSTS ≤ noted → result ≡ ALL + 1 }
    ensures in_grid { e < ALL }
{
    // known by its contract: the cell is in the grid
    let place = e.index() as u32;
    // mostly there are several already
    if noted > NONE {
        SEVERAL
    } else if noted == NONE {
        place
    } else if noted < FIRSTS {
        SEVERAL + 1 + noted * NONE + place
    } else {
        SEVERAL
    }
}

/// The two cells that a number notes.
#[inline]
pub(crate) fn pair_of(noted: u32) -> (Cell, Cell)
    requires two { ALL + 1 < noted }
    ensures first { result.0 ≡ (noted - (ALL + 2)) / ALL }
    ensures second { result.1 ≡ (noted - (ALL + 2)) % ALL }
{
    let both = (noted - SEVERAL - 1) as usize;
    match (
        Cell::from_index(both / CELLS),
        Cell::from_index(both % CELLS),
    ) {
        (Some(first), Some(second)) => (first, second),
        _ => unreachable!(),
    }
}
