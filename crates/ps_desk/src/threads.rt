//! States that threads may share a desk.
//!
//! The prover finds no proof of this fact for the whole desk at once, so the functions here prove it part by part.
ghost use denote.Param.Send.{IsSend, IsSync};
ghost use Rattle.ps_desk.specs.contracts.desk.Desk as desk;
ghost use Rattle.ps_desk.specs.contracts.state.DeskState as state;

use crate::name::DeskName;
use ps_face::writer_is_send;
use ps_sheet::staging_is_send;
use std::sync::Wait;
use std::sync::ledger::Book;

/// States what the bound `Send` says of a type.
fn is_send<T: Send>()
    ensures { IsSend T.row }
{}

/// States that the data under a desk's lock may go to another thread.
fn state_is_send<L: DeskName, W: Wait + Drop + Send>()
    ensures { IsSend (state.the_row L.row W.row (record { replica = L.replica })
        (record { book = L.book; opening = L.opening }) L.Ledger) }
{
    staging_is_send();
    writer_is_send::<L, W>();
    is_send::<Book<L>>();
}

/// Does nothing; its contract states that threads may share a desk. A caller calls it for this fact, before it shares a
/// desk with another thread.
pub fn desk_is_sync<L: DeskName, W: Wait + Drop + Send>()
    ensures { IsSync (desk.the_row L.row W.row (record { replica = L.replica })
        (record { book = L.book; opening = L.opening }) L.Ledger) }
{
    state_is_send::<L, W>();
}
