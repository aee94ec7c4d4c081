//! Proof that the writer of published copies may move to another thread (`Send`).
//!
//! The prover doesn't find this proof for the whole writer at once, so the functions here prove it for its parts first.
ghost use denote.Param.Send.{IsSend, IsSync};
ghost use Rattle.ps_face.specs.contracts.patch.KeptPatch as patch;
ghost use Rattle.ps_face.specs.contracts.writer.FaceWriter as writer;

use crate::book::{BookPrefix, Head};
use crate::face::{Face, Operation};
use crate::name::Named;
use crate::patch::KeptPatch;
use crate::rule::{Law, View};
use crate::waiting::Waiting;
use left_right::writer::Writer;
use ps_delta::CellState;
use std::sync::Wait;

/// States for the prover what the bound `Send` says of a type.
fn is_send<T: Send>()
    ensures { IsSend T.row }
{}

/// States for the prover what the bounds `Send` and `Sync` say of a type.
fn is_send_and_sync<T: Send + Sync>()
    ensures send { IsSend T.row }
    ensures sync { IsSync T.row }
{}

/// States that a stored patch may move to another thread.
fn patch_is_send()
    ensures { IsSend patch.the_row }
{
    is_send_and_sync::<CellState>();
}

/// States that a `FaceWriter` may move to another thread (`Send`) if its `R`, by which it waits for readers, may move.
/// The function does nothing at run time.
///
/// Callers that share a writer between threads call this function first, so that the prover has the fact.
pub fn writer_is_send<L: Named, R: Wait + Drop + Send>()
    ensures { IsSend (writer.the_row L.row R.row (record { book = L.book; opening = L.opening }) L.Ledger) }
{
    patch_is_send();
    is_send_and_sync::<Face>();
    is_send::<Operation>();
    is_send::<Writer<Face, Operation, View, Law<L>>>();
    is_send::<Head>();
    is_send::<BookPrefix>();
    is_send::<Vec<KeptPatch>>();
    is_send::<Waiting>();
}
