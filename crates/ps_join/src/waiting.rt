//! A wait for changes at both peers.
ghost use Rattle.std.specs.Prelude.{◌≡◌, ◌<◌, ◌∷◌, [], Err, IfErr, OnErr, OnOk, flat_map};
ghost use Rattle.ps_grid.specs.declared.refusal.Refusal.TheVariants as Refusal;
ghost use Rattle.ps_join.specs.Joins.{AreUnended, AreUnwaited, IsEnded, IsFailed, IsUnended, IsWaited};
ghost use Rattle.ps_peers.specs.declared.peer_pull.SyncFault.TheVariants.{Refused};

use crate::carrying::{Positions, turned_fault};
use crate::fault::{End, JoinFault};
use ps_device::{Sink, Source};
use ps_peers::{Peer, SyncFault, due_news, fault_of, put_wait};
use std::alloc::Global;

/// Says which of two waiting peers to read first. The join is correct with any answer, but it waits longer if the named
/// peer has sent nothing.
///
/// Both peers were sent a `wait`, and reply once they have more changes, or after some time.
pub trait Attention {
    /// Returns a peer that sent something, or whose connection ended. If for a while there is no such peer, returns
    /// either of the two.
    ///
    /// Cost: the implementation's own, and the time until a peer sends something.
    fn next(&mut self) -> End;
}

/// Sends a waiting peer `more`, and reads its reply to the wait. `more` is nothing, or an empty line, which ends the
/// wait and has no reply of its own.
pub(crate) fn end_wait<S: Source + Drop, K: Sink + Drop>(
    alloc: Global,
    peer: &mut Peer<S, K>,
    position: u64,
    more: &[&[u8]],
) -> Result<(), SyncFault>
    ensures replied { OnOk result (IsEnded (flat_map (λ piece. piece.now) more.now) position peer.old peer.new) }
    ensures broken { OnErr result (IsUnended (flat_map (λ piece. piece.now) more.now) peer.old peer.new) }
    ensures failed { result ≡ Err (Refused Refusal.Device) → peer.old.failures < peer.new.failures }
{
    match peer.ask(more) {
        Ok(()) => due_news(alloc, peer.reply(), position),
        Err(fault) => Err(fault_of(fault)),
    }
}

/// Reads the reply of the peer that spoke, and then ends the wait of the other. In the positions and the fault, the
/// peer that spoke is `From`.
fn end_waits<S: Source + Drop, K: Sink + Drop, T: Source + Drop, M: Sink + Drop>(
    alloc: Global,
    spoke: &mut Peer<S, K>,
    silent: &mut Peer<T, M>,
    at: Positions,
) -> Result<(), JoinFault>
    ensures replied { OnOk result (IsEnded [] at.from spoke.old spoke.new
        × IsEnded (10 ∷ []) at.to silent.old silent.new) }
    ensures broken { IfErr result (λ f. AreUnended f.end at spoke.old spoke.new silent.old silent.new) }
    ensures failed { IfErr result (λ f. f.fault ≡ Refused Refusal.Device
        → IsFailed f.end spoke.old spoke.new silent.old silent.new) }
{
    let nothing: [&[u8]; 0] = [];
    match end_wait(alloc, spoke, at.from, nothing.as_slice()) {
        Ok(()) => {}
        Err(fault) => return Err(JoinFault {
            end: End::From,
            fault,
        }),
    }
    let empty_line: [&[u8]; 1] = [b"\n"];
    match end_wait(alloc, silent, at.to, empty_line.as_slice()) {
        Ok(()) => Ok(()),
        Err(fault) => Err(JoinFault {
            end: End::To,
            fault,
        }),
    }
}

/// Waits until one of two peers has more changes, or its wait ends, and ends the wait of the other.
pub(crate) fn await_either<
    S: Source + Drop,
    K: Sink + Drop,
    T: Source + Drop,
    M: Sink + Drop,
    A: Attention,
>(
    alloc: Global,
    from: &mut Peer<S, K>,
    to: &mut Peer<T, M>,
    at: Positions,
    attention: &mut A,
) -> Result<(), JoinFault>
    ensures waited { OnOk result (IsWaited at.from from.old from.new × IsWaited at.to to.old to.new) }
    ensures broken { IfErr result (λ f. AreUnwaited f.end at from.old from.new to.old to.new) }
    ensures failed { IfErr result (λ f. f.fault ≡ Refused Refusal.Device
        → IsFailed f.end from.old from.new to.old to.new) }
{
    match put_wait(from, at.from) {
        Ok(()) => {}
        Err(fault) => return Err(JoinFault {
            end: End::From,
            fault,
        }),
    }
    match put_wait(to, at.to) {
        Ok(()) => {}
        Err(fault) => return Err(JoinFault {
            end: End::To,
            fault,
        }),
    }
    match attention.next() {
        End::From => end_waits(alloc, from, to, at),
        End::To => match end_waits(alloc, to, from, at.turned()) {
            Ok(()) => Ok(()),
            Err(fault) => Err(turned_fault(fault)),
        },
    }
}
