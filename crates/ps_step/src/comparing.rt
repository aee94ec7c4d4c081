//! Compares what two peers hold.
ghost use Rattle.std.specs.Prelude.{◌≡◌, ◌⊎◌, ◌<◌, Err, IfOk, OnOk};
ghost use Rattle.ps_grid.specs.declared.refusal.Refusal.TheVariants as Refusal;
ghost use Rattle.ps_peers.specs.declared.peer_pull.SyncFault.TheVariants.{Refused};
ghost use Rattle.ps_step.specs.Steps.{IsCompared, WasAsked};

use crate::apart::cells_apart;
use crate::pulling::pull_all;
use crate::step::Step;
use ps_device::{Sink, Source};
use ps_peers::{Peer, SyncFault};
use std::alloc::Global;

/// Pulls all deltas of two peers, first those of `from`, and returns both versions and the cells at which the peers
/// differ.
///
/// The call sends only `pull` requests, so it changes nothing at either peer.
///
/// # Errors
///
/// - `Device`: a connection failed.
/// - `Line`: a reply doesn't fit its `pull`, broke off, or has no valid delta.
/// - `PeerRefused`: a peer replied `err`.
/// - `Closed`: a peer closed the connection before its reply `end`.
/// - `Memory`: out of memory.
///
/// Cost: linear in the pulled lines, with the join of each delta; then a comparison of each cell of the grid. The call
/// takes memory for two states of the grid.
pub fn compare<S: Source + Drop, K: Sink + Drop, T: Source + Drop, M: Sink + Drop>(
    alloc: Global,
    from: &mut Peer<S, K>,
    to: &mut Peer<T, M>,
) -> Result<Step, SyncFault>
    ensures compared { IfOk result (λ step. IsCompared from.old from.new to.old to.new
        step.from step.to step.apart.items) }
    ensures from_asked { WasAsked from.old from.new }
    ensures to_asked { WasAsked to.old to.new }
    ensures calm { OnOk result ((from.new.failures ≡ from.old.failures) × (to.new.failures ≡ to.old.failures)) }
    ensures failed { result ≡ Err (Refused Refusal.Device)
        → (from.old.failures < from.new.failures) ⊎ (to.old.failures < to.new.failures) }
{
    let first = match pull_all(alloc, from) {
        Ok(first) => first,
        Err(fault) => return Err(fault),
    };
    let second = match pull_all(alloc, to) {
        Ok(second) => second,
        Err(fault) => return Err(fault),
    };
    match cells_apart(alloc, &first.state, &second.state) {
        Ok(apart) => Ok(Step {
            from: first.version,
            to: second.version,
            apart,
        }),
        Err(refusal) => Err(SyncFault::Refused(refusal)),
    }
}
