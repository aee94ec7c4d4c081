//! Merges one delta at a peer.
ghost use Rattle.std.specs.Prelude.{◌≡◌, ◌<◌, Err, IfOk, IfSome, OnErr, flat_map};
ghost use Rattle.ps_grid.specs.declared.refusal.Refusal.TheVariants as Refusal;
ghost use Rattle.ps_join.specs.Joins.{IsMerged, Moves, merge_text};
ghost use Rattle.ps_lines.specs.Feeding.{without_return};
ghost use Rattle.ps_lines.specs.Streams.{TakesLine};
ghost use Rattle.ps_peers.specs.Peers.{IsReplied, PutsSome};
ghost use Rattle.ps_peers.specs.declared.peer_pull.SyncFault.TheVariants.{Refused};

use ps_device::{Sink, Source};
use ps_grid::Refusal;
use ps_lines::reply_words::{OK, SAME};
use ps_peers::{Peer, PeerReply, SyncFault, fault_of, number_after, read_reply, refused};
use std::alloc::Global;

/// Returns the position at a peer after a merge that became the peer's change with this number.
///
/// Only the number right after the position moves it. Before a later one lie changes of others, which are still to be
/// pulled.
fn moved(position: u64, number: u64) -> u64
    ensures { Moves position number result }
{
    if number > position && number - position == 1 {
        number
    } else {
        position
    }
}

/// Returns the position at a peer after its reply to a merge. Returns `None` if the reply isn't `ok` or `same` with a
/// number.
fn position_after(reply: &[u8], position: u64) -> Option<u64>
    ensures { IfSome result (IsMerged position reply.now) }
{
    match number_after(reply, OK) {
        Some(number) => Some(moved(position, number)),
        None => match number_after(reply, SAME) {
            Some(_) => Some(position),
            None => None,
        },
    }
}

/// Returns the pieces of a merge line: `merge`, the delta's line and a line feed.
pub(crate) fn merge_pieces(delta: &[u8]) -> [&[u8]; 3]
    ensures { flat_map (λ piece. piece.now) result ≡ merge_text delta.now }
{
    [b"merge ", delta, b"\n"]
}

/// Merges a delta at a peer, and returns the position there afterwards.
pub(crate) fn merge<S: Source + Drop, K: Sink + Drop>(
    alloc: Global,
    peer: &mut Peer<S, K>,
    delta: &[u8],
    position: u64,
) -> Result<u64, SyncFault>
    ensures merged { IfOk result (λ next. IsReplied (merge_text delta.now) peer.old peer.new
        × IsMerged position (without_return peer.new.line) next) }
    ensures put { PutsSome peer.old.asked peer.new.asked (merge_text delta.now) }
    ensures taken { OnErr result (TakesLine peer.old.to_come peer.new.to_come) }
    ensures failed { result ≡ Err (Refused Refusal.Device) → peer.old.failures < peer.new.failures }
{
    let request = merge_pieces(delta);
    match peer.ask(request.as_slice()) {
        Ok(()) => {}
        Err(fault) => return Err(fault_of(fault)),
    }
    match position_after(peer.reply(), position) {
        Some(next) => Ok(next),
        None => match read_reply(peer.reply()) {
            Some(PeerReply::Refused(reply)) => Err(refused(alloc, reply)),
            Some(
                PeerReply::Taken | PeerReply::Delta(..) | PeerReply::End(_) | PeerReply::Version(_),
            )
            | None => Err(SyncFault::Refused(Refusal::Line)),
        },
    }
}
