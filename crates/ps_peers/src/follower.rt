//! Writes all changes that a peer has, and then each change that the peer gets.
ghost use Rattle.std.specs.Prelude.{◌≡◌, ◌⊎◌, ◌<◌, [], Err, IfErr, OnErr, OnOk, false, true};
ghost use Rattle.std.specs.Io.KnownBytes.{Appends};
ghost use Rattle.ps_grid.specs.declared.refusal.Refusal.TheVariants as Refusal;
ghost use Rattle.ps_peers.specs.Exchange.{IsAll, IsHalted, IsOwn, IsUntilClosed};
ghost use Rattle.ps_lines.specs.Feeding.{without_return};
ghost use Rattle.ps_peers.specs.Peers.{PutsSome};
ghost use Rattle.ps_lines.specs.PushLine.{push_text};
ghost use Rattle.ps_peers.specs.declared.peer_pull.SyncFault.TheVariants.{Refused};

use crate::peer::{Peer, send_whole};
use crate::peer_pull::{Due, SyncFault, await_news, next_due};
use ps_device::{Failed, Sink, Source};
use ps_grid::Refusal;
use ps_lines::{LARGEST_GROUP, push_pieces};
use std::alloc::Global;

/// Writes a delta's line as a change line, and flushes it.
fn write_push<O: Sink>(delta: &[u8], out: &mut O) -> Result<(), Failed>
    ensures sent { OnOk result (Appends (O.contents out.old) (O.contents out.new) (push_text delta.now)) }
    ensures flushed { OnOk result (O.waiting out.new ≡ []) }
    ensures put { OnErr result (PutsSome (O.contents out.old) (O.contents out.new) (push_text delta.now)) }
    ensures calm { OnOk result (O.failures out.new ≡ O.failures out.old) }
    ensures failed { OnErr result (O.failures out.old < O.failures out.new) }
{
    let line = push_pieces(delta);
    send_whole(line.as_slice(), out)
}

/// Writes all changes of a peer after its first `after` changes, and then each change that the peer gets. The changes
/// are pulled in groups, and each group is written to `out` as one change line: `push` and the join of its deltas.
///
/// Each line is flushed before the next pull. When the peer has no more changes, `follow` sends it a `wait`, which the
/// peer answers once it has more changes, or after some time.
///
/// With `until_now`, `follow` returns when the peer first replies `end`. Without `until_now`, it returns when the peer
/// closes the connection between two replies. Lines written before a fault stay written.
///
/// # Errors
///
/// - `Device`: the connection or `out` failed.
/// - `Line`: a reply doesn't fit its request, the connection ended within a reply, or an earlier call on the peer
///   failed. With `until_now` also: the peer closed the connection before an `end`.
/// - `Memory`: allocation failed.
/// - `PeerRefused`: the peer replied `err`. A peer with fewer than `after` changes does so.
///
/// Cost: linear in the bytes of the lines, besides the wait for the peer.
pub fn follow<S: Source + Drop, K: Sink + Drop, O: Sink>(
    alloc: Global,
    from: &mut Peer<S, K>,
    out: &mut O,
    after: u64,
    until_now: bool,
) -> Result<(), SyncFault>
    ensures all { OnOk result (until_now ≡ true
        → IsAll (until_now ≡ false) after from.old from.new (O.contents out.old) (O.contents out.new)) }
    ensures left { OnOk result (until_now ≡ false
        → IsUntilClosed (until_now ≡ false) after from.old from.new (O.contents out.old) (O.contents out.new)) }
    ensures halted { OnErr result (IsHalted (until_now ≡ false) (O.failures out.old < O.failures out.new)
        after from.old from.new (O.contents out.old) (O.contents out.new)) }
    ensures flushed { O.waiting out.old ≡ []
        → (O.waiting out.new ≡ []) ⊎ (O.failures out.old < O.failures out.new) }
    ensures calm { OnOk result ((from.new.failures ≡ from.old.failures)
        × (O.failures out.new ≡ O.failures out.old)) }
    ensures failed { result ≡ Err (Refused Refusal.Device)
        → (from.old.failures < from.new.failures) ⊎ (O.failures out.old < O.failures out.new) }
    ensures own { IfErr result (λ fault. IsOwn fault (without_return from.new.line)) }
{
    let mut version = after;
    'pulls: loop {
        match next_due(alloc, from, version, LARGEST_GROUP) {
            Ok(Due::Group(last, start)) => {
                match write_push(&from.reply()[start..], out) {
                    Ok(()) => {}
                    Err(_) => return Err(SyncFault::Refused(Refusal::Device)),
                }
                version = last;
            }
            Ok(Due::End) if until_now => return Ok(()),
            Ok(Due::End) => match await_news(alloc, from, version) {
                Ok(true) => {}
                Ok(false) => return Ok(()),
                Err(late) => return Err(late),
            },
            Ok(Due::Closed) if until_now => return Err(SyncFault::Refused(Refusal::Line)),
            Ok(Due::Closed) => return Ok(()),
            Err(fault) => return Err(fault),
        }
    }
}
