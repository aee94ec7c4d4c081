//! Merges one delta of an intake at the server.
ghost use Rattle.std.specs.Prelude.{◌≡◌, ◌≢◌, ◌<◌, Err, IfOk, IfSome, OnErr, OnOk, true};
ghost use Rattle.std.specs.Io.KnownBytes.{Consumes};
ghost use Rattle.ps_grid.specs.declared.refusal.Refusal.TheVariants as Refusal;
ghost use Rattle.ps_join.specs.Joins.{merge_text};
ghost use Rattle.ps_join.specs.Relays.{IsTaken};
ghost use Rattle.ps_lines.specs.Feeding.{without_return};
ghost use Rattle.ps_lines.specs.Streams.{TakesLine};
ghost use Rattle.ps_peers.specs.Peers.{IsReplied, PutsSome};
ghost use Rattle.ps_peers.specs.declared.peer_pull.SyncFault.TheVariants.{Refused};

use crate::intake::Intake;
use crate::merging::merge_pieces;
use ps_device::{Sink, Source};
use ps_grid::Refusal;
use ps_lines::reply_words::{ERR, OK, SAME};
use ps_peers::{Peer, SyncFault, fault_of, number_after, refused};
use std::alloc::Global;

/// The reply of a server without a free session slot. Such a server merges nothing, so the delta isn't settled.
const NO_SEAT: &[u8] = b"err 21 seat";

/// What became of a delta that came in.
#[derive(Clone, Copy)]
pub(crate) enum Brought {
    /// It became the server's change with this number.
    Anew(u64),
    /// The server knew all of it, and has this many changes.
    Known(u64),
    /// The server refused it.
    Refused,
}

/// Returns what became of a delta, by the server's reply to its merge. Returns `None` if the reply doesn't fit: the
/// number of an `ok` has to be greater than the position.
fn brought_by(reply: &[u8], position: u64) -> Option<Brought>
    ensures { IfSome result (IsTaken position reply.now) }
{
    match number_after(reply, OK) {
        Some(number) if position < number => return Some(Brought::Anew(number)),
        Some(_) => return None,
        None => {}
    }
    match number_after(reply, SAME) {
        Some(number) => return Some(Brought::Known(number)),
        None => {}
    }
    if reply.starts_with(ERR) && reply != NO_SEAT {
        Some(Brought::Refused)
    } else {
        None
    }
}

/// Returns the fault for a reply that doesn't fit a merge: `PeerRefused` if the server has no free session slot, else
/// `Line`.
fn untaken(alloc: Global, reply: &[u8]) -> SyncFault
    ensures { result ≢ Refused Refusal.Device }
{
    if reply == NO_SEAT {
        refused(alloc, "err 21 seat")
    } else {
        SyncFault::Refused(Refusal::Line)
    }
}

/// Merges the delta in hand at a server, and settles it. If no reply comes that fits, the delta stays in hand.
pub(crate) fn bring<S: Source + Drop, K: Sink + Drop, I: Intake>(
    alloc: Global,
    server: &mut Peer<S, K>,
    intake: &mut I,
    position: u64,
) -> Result<Brought, SyncFault>
    requires held { I.holds intake.old ≡ true }
    ensures replied { OnOk result (IsReplied (merge_text (I.held intake.old)) server.old server.new) }
    ensures taken { IfOk result (IsTaken position (without_return server.new.line)) }
    ensures settled { OnOk result (Consumes (I.to_come intake.old) (I.to_come intake.new)
        (merge_text (I.held intake.old))) }
    ensures put { PutsSome server.old.asked server.new.asked (merge_text (I.held intake.old)) }
    ensures broken { OnErr result (TakesLine server.old.to_come server.new.to_come) }
    ensures same { OnErr result (intake.new ≡ intake.old) }
    ensures failed { result ≡ Err (Refused Refusal.Device) → server.old.failures < server.new.failures }
{
    let request = merge_pieces(intake.delta());
    match server.ask(request.as_slice()) {
        Ok(()) => {}
        Err(fault) => return Err(fault_of(fault)),
    }
    let brought = match brought_by(server.reply(), position) {
        Some(brought) => brought,
        None => return Err(untaken(alloc, server.reply())),
    };
    match brought {
        Brought::Anew(_) | Brought::Known(_) => intake.settle(None),
        Brought::Refused => intake.settle(Some(str::from_utf8(server.reply()).unwrap_or("err"))),
    }
    Ok(brought)
}
