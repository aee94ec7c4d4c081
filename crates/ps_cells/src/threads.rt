//! Proof that `Cells` may go to another thread.
//!
//! The prover doesn't find this proof for the whole type at once, so the function names its parts one after another.
ghost use denote.Param.Send.{IsSend, IsSync};
ghost use Rattle.ps_cells.specs.contracts.cells.Cells as cells;

use crate::level::Level;
use crate::screen::Screen;
use ps_delta::{CellState, Grid};
use ps_index::Index;
use ps_region::{CellSet, Region};

/// States that a type with the bounds `Send` and `Sync` is what they say.
fn is_send_and_sync<T: Send + Sync>()
    ensures send { IsSend T.row }
    ensures sync { IsSync T.row }
{}

/// States that a `Cells` value may be sent to another thread (`IsSend`).
pub fn cells_are_send()
    ensures { IsSend cells.the_row }
{
    is_send_and_sync::<CellState>();
    is_send_and_sync::<Grid>();
    is_send_and_sync::<Index>();
    is_send_and_sync::<Screen>();
    is_send_and_sync::<Region>();
    is_send_and_sync::<CellSet>();
    is_send_and_sync::<Level>();
}
