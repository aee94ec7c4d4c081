//! Whether anything more can be assigned to a cell.

ghost use Rattle.std.specs.Prelude.{◌≡◌};
ghost use Rattle.ps_sheet.specs.Edits.{is_clock_full};

use ps_delta::CellState;
use ps_lattice::LAST_TIME;

/// Whether the time of a cell's register is `LAST_TIME`, so that nothing more can be assigned.
pub(crate) fn is_clock_full(state: &CellState) -> bool
    ensures { result ≡ is_clock_full state.now }
{
    state.register.time() == LAST_TIME
}
