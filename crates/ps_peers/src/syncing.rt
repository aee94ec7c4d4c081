//! Pulls all changes of one peer, and pushes them to another.
ghost use Rattle.std.specs.Prelude.{◌≡◌, ◌⊎◌, ◌<◌, ⊤, Err, OnErr, OnOk};
ghost use Rattle.ps_grid.specs.declared.refusal.Refusal.TheVariants as Refusal;
ghost use Rattle.ps_peers.specs.Exchange.{IsAll, IsHalted};
ghost use Rattle.ps_peers.specs.Peers.{IsReplied, PutsSome};
ghost use Rattle.ps_lines.specs.PushLine.{push_text};
ghost use Rattle.ps_peers.specs.declared.peer_pull.SyncFault.TheVariants.{Refused};

use crate::peer::Peer;
use crate::peer_pull::{Due, SyncFault, fault_of, next_due, refused};
use crate::peer_reply::{PeerReply, read_reply};
use ps_device::{Sink, Source};
use ps_grid::Refusal;
use ps_lines::{LARGEST_GROUP, push_pieces};
use std::alloc::Global;

/// Pushes the line of a delta to a peer. Fails unless the peer replies `ok`.
fn push<S: Source + Drop, K: Sink + Drop>(
    alloc: Global,
    to: &mut Peer<S, K>,
    delta: &[u8],
) -> Result<(), SyncFault>
    ensures pushed { OnOk result (IsReplied (push_text delta.now) to.old to.new) }
    ensures put { PutsSome to.old.asked to.new.asked (push_text delta.now) }
    ensures failed { result ≡ Err (Refused Refusal.Device) → to.old.failures < to.new.failures }
{
    let request = push_pieces(delta);
    match to.ask(request.as_slice()) {
        Ok(()) => {}
        Err(fault) => return Err(fault_of(fault)),
    }
    match read_reply(to.reply()) {
        Some(PeerReply::Taken) => Ok(()),
        Some(PeerReply::Refused(reply)) => Err(refused(alloc, reply)),
        Some(PeerReply::Delta(..) | PeerReply::End(_) | PeerReply::Version(_)) | None => {
            Err(SyncFault::Refused(Refusal::Line))
        }
    }
}

/// Pulls all changes of `from`, pushes them to `to`, and returns how many lines it pushed. A line is a group of deltas,
/// joined as one pull returned them.
///
/// The version in a `delta` reply has to be greater than the version in its pull, and the version of an `end` has to
/// equal the version in its pull. So the exchange ends, whatever the peers reply. Lines pushed before a fault stay
/// pushed.
///
/// # Errors
///
/// - `Device`: a connection failed.
/// - `Line`: a reply doesn't fit its request, a connection ended within a reply, `from` closed its connection before
///   its `end`, or an earlier call on a peer failed.
/// - `Memory`: allocation failed.
/// - `PeerRefused`: a peer replied `err`.
/// - `Closed`: `to` closed the connection instead of replying.
///
/// Cost: linear in the bytes of the lines, besides the wait for the peers.
pub fn sync<S: Source + Drop, K: Sink + Drop, T: Source + Drop, M: Sink + Drop>(
    alloc: Global,
    from: &mut Peer<S, K>,
    to: &mut Peer<T, M>,
) -> Result<u64, SyncFault>
    ensures all { OnOk result (IsAll ⊥ 0 from.old from.new to.old.asked to.new.asked) }
    ensures halted { OnErr result (IsHalted ⊥ ⊤ 0 from.old from.new to.old.asked to.new.asked) }
    ensures calm { OnOk result ((from.new.failures ≡ from.old.failures) × (to.new.failures ≡ to.old.failures)) }
    ensures failed { result ≡ Err (Refused Refusal.Device)
        → (from.old.failures < from.new.failures) ⊎ (to.old.failures < to.new.failures) }
{
    let mut version = 0u64;
    let mut pushed = 0u64;
    'pulls: loop {
        match next_due(alloc, from, version, LARGEST_GROUP) {
            Ok(Due::Group(last, start)) => {
                match push(alloc, to, &from.reply()[start..]) {
                    Ok(()) => {}
                    Err(fault) => return Err(fault),
                }
                version = last;
                pushed = pushed.saturating_add(1);
            }
            Ok(Due::End) => return Ok(pushed),
            Ok(Due::Closed) => return Err(SyncFault::Refused(Refusal::Line)),
            Err(fault) => return Err(fault),
        }
    }
}
