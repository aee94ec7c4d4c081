//! Proof that a `Staging` may move to another thread (`Send`).
//!
//! The prover doesn't find this proof for the whole type at once, so the functions here prove it for its parts first.
ghost use denote.Param.Send.{IsSend, IsSync};
ghost use Rattle.ps_sheet.specs.contracts.staging.Staging as staging;

use ps_cells::cells_are_send;
use ps_delta::CellState;

/// States for the prover what the bounds `Send` and `Sync` say of a type.
fn is_send_and_sync<T: Send + Sync>()
    ensures send { IsSend T.row }
    ensures sync { IsSync T.row }
{}

/// States that a `Staging` may move to another thread (`Send`). It does nothing.
///
/// Callers that share a `Staging` between threads call this first, so that the prover has this fact.
pub fn staging_is_send()
    ensures { IsSend staging.the_row }
{
    is_send_and_sync::<CellState>();
    cells_are_send();
}
