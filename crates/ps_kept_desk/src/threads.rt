//! Threads may share the keeper of a desk.
//!
//! The prover's search finds no proof of this for the whole keeper at once. So its parts are proved first, one after
//! another.
ghost use denote.Param.Send.{IsSend, IsSync};
ghost use Rattle.ps_kept_desk.specs.contracts.keeper.DeskKeeper as keeper;
ghost use Rattle.ps_kept_desk.specs.contracts.record.Record as record_row;

use crate::record::DurablePosition;
use ps_desk::{DeskName, ShownPosition};
use ps_keep::{Device, Journal};

/// States that a type with the bound `Send` may go to another thread.
fn is_send<T: Send>()
    ensures { IsSend T.row }
{}

/// States that the record under the lock of a keeper may go to another thread.
fn record_is_send<L: DeskName + Send, D: Device + Drop + Send>()
    ensures { IsSend (record_row.the_row L.row D.row (record { replica = L.replica })
        (record { book = L.book; opening = L.opening }) L.Ledger
        (record {
          written = D.written;
          synced = D.synced;
          has_failed = D.has_failed;
          is_cut = D.is_cut;
          cut_failed = D.cut_failed;
        })) }
{
    is_send::<Journal<D>>();
    is_send::<DurablePosition<L>>();
    is_send::<ShownPosition<L>>();
}

/// States that threads may share a [`DeskKeeper`](crate::DeskKeeper), if `L` and `D` may move to another thread. The
/// function does nothing at run time. Callers call it before they share a keeper, so that the prover has the fact.
pub fn keeper_is_sync<L: DeskName + Send, D: Device + Drop + Send>()
    ensures { IsSync (keeper.the_row L.row D.row (record { replica = L.replica })
        (record { book = L.book; opening = L.opening }) L.Ledger
        (record {
          written = D.written;
          synced = D.synced;
          has_failed = D.has_failed;
          is_cut = D.is_cut;
          cut_failed = D.cut_failed;
        })) }
{
    record_is_send::<L, D>();
}
