//! Joins two peers: each gets the changes of the other.
ghost use Rattle.std.specs.Prelude.{◌≡◌, ◌<◌, ◌≤◌, IfErr, IfOk, OnOk, false, true};
ghost use Rattle.ps_grid.specs.declared.refusal.Refusal.TheVariants as Refusal;
ghost use Rattle.ps_join.specs.Joins.{IsBothWays, IsFailed, IsJoined, IsStopped, Later};
ghost use Rattle.ps_lines.specs.Feeding.{without_return};
ghost use Rattle.ps_peers.specs.Exchange.{TellsEnd};
ghost use Rattle.ps_peers.specs.declared.peer_pull.SyncFault.TheVariants.{Refused};

use crate::carrying::{Positions, carry, turned_fault};
use crate::fault::JoinFault;
use crate::waiting::{Attention, await_either};
use ps_device::{Sink, Source};
use ps_peers::Peer;
use std::alloc::Global;

/// Merges at `to` what `from` has after its position, and then at `from` what `to` has after its own. Returns the new
/// positions.
fn carry_both<S: Source + Drop, K: Sink + Drop, T: Source + Drop, M: Sink + Drop>(
    alloc: Global,
    from: &mut Peer<S, K>,
    to: &mut Peer<T, M>,
    start: Positions,
) -> Result<Positions, JoinFault>
    ensures carried { IfOk result (λ at. Later start from.old to.old (λ waits whole from0 to0.
        IsBothWays waits at from0 from.new to0 to.new)) }
    ensures ended { IfOk result (λ at. TellsEnd (without_return to.new.line) at.to) }
    ensures stopped { IfErr result (λ f. Later start from.old to.old (λ waits whole from0 to0.
        IsStopped waits f.end from0 from.new to0 to.new)) }
    ensures calm { OnOk result ((from.new.failures ≡ from.old.failures) × (to.new.failures ≡ to.old.failures)) }
    ensures falls { OnOk result (from.new.left < from.old.left) }
    ensures failed { IfErr result (λ f. f.fault ≡ Refused Refusal.Device
        → IsFailed f.end from.old from.new to.old to.new) }
{
    let there = match carry(alloc, from, to, start) {
        Ok(there) => there,
        Err(fault) => return Err(fault),
    };
    match carry(alloc, to, from, there.turned()) {
        Ok(back) => Ok(back.turned()),
        Err(fault) => Err(turned_fault(fault)),
    }
}

/// Merges all changes of `from` at `to`, and then all changes of `to` at `from`. Changes travel in groups, and each
/// group is merged before the next group is pulled.
///
/// The way back leaves out the first changes of `to` if the replies to the merges show that these changes came from
/// `from`. Groups merged before a fault stay merged.
///
/// # Errors
///
/// The fault names the peer at which it happened.
///
/// - `Device`: the connection to the peer failed.
/// - `Line`: a reply of the peer doesn't fit its request, the connection ended within a reply, or an earlier call on
///   the peer failed.
/// - `Memory`: allocation failed.
/// - `PeerRefused`: the peer replied `err`.
/// - `Closed`: the peer closed its connection.
///
/// Cost: linear in the bytes of the lines, besides the wait for the peers.
pub fn join_once<S: Source + Drop, K: Sink + Drop, T: Source + Drop, M: Sink + Drop>(
    alloc: Global,
    from: &mut Peer<S, K>,
    to: &mut Peer<T, M>,
) -> Result<(), JoinFault>
    ensures joined { OnOk result (IsJoined from.old from.new to.old to.new) }
    ensures stopped { IfErr result (λ f. IsStopped false f.end from.old from.new to.old to.new) }
    ensures calm { OnOk result ((from.new.failures ≡ from.old.failures) × (to.new.failures ≡ to.old.failures)) }
    ensures failed { IfErr result (λ f. f.fault ≡ Refused Refusal.Device
        → IsFailed f.end from.old from.new to.old to.new) }
{
    match carry_both(alloc, from, to, Positions { from: 0, to: 0 }) {
        Ok(_) => Ok(()),
        Err(fault) => Err(fault),
    }
}

/// Joins two peers as [`join_once`] does, and then merges each change that one of them gets at the other. Goes on until
/// a fault, and returns the fault: one of the errors of [`join_once`].
///
/// Between changes `join` sends both peers a `wait` for more changes, and `attention` says which peer's reply to read
/// first. An empty line then ends the wait of the other peer.
///
/// Cost: linear in the bytes of the lines, besides the wait for the peers.
pub fn join<S: Source + Drop, K: Sink + Drop, T: Source + Drop, M: Sink + Drop, A: Attention>(
    alloc: Global,
    from: &mut Peer<S, K>,
    to: &mut Peer<T, M>,
    attention: &mut A,
) -> JoinFault
    ensures stopped { IsStopped true result.end from.old from.new to.old to.new }
    ensures failed { result.fault ≡ Refused Refusal.Device
        → IsFailed result.end from.old from.new to.old to.new }
{
    let mut at = Positions { from: 0, to: 0 };
    'rounds: loop {
        match carry_both(alloc, from, to, at) {
            Ok(next) => at = next,
            Err(fault) => return fault,
        }
        match await_either(alloc, from, to, at, attention) {
            Ok(()) => {}
            Err(fault) => return fault,
        }
    }
}
