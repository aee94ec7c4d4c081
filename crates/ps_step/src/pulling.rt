//! Pulls all that a peer has, and joins it.
ghost use Rattle.std.specs.Prelude.{◌≡◌, ◌≢◌, ◌<◌, Err, IfErr, IfOk, OnOk};
ghost use Rattle.ps_grid.specs.declared.refusal.Refusal.TheVariants as Refusal;
ghost use Rattle.ps_delta.specs.Deltas.{Entries, state_of};
ghost use Rattle.ps_delta.specs.State.{joined_state, state_at};
ghost use Rattle.ps_wire.specs.Line.{IsLine};
ghost use Rattle.ps_peers.specs.declared.peer_pull.SyncFault.TheVariants.{Refused};
ghost use Rattle.ps_step.specs.Steps.{HasGivenAll, WasAsked};

use ps_delta::Grid;
use ps_device::{Sink, Source};
use ps_grid::Refusal;
use ps_lines::LARGEST_GROUP;
use ps_peers::{Due, Peer, SyncFault, next_due};
use ps_wire::Decoder;
use std::alloc::Global;

/// What a peer holds: the join of all deltas that it returned, and its version.
#[derive(Drop)]
pub(crate) struct Holding {
    pub state: Grid,
    pub version: u64,
}

/// Joins the delta of a line into a state. Fails as `Line` if the line is no delta, and as `Memory`.
fn join_line(
    alloc: Global,
    decoder: &mut Decoder,
    line: &[u8],
    state: &mut Grid,
) -> Result<(), SyncFault>
    ensures joined { OnOk result ((delta : Entries) × IsLine line.now delta
        × (state_at state.new ≡ joined_state (state_at state.old) (state_of delta))) }
    ensures device { IfErr result (λ fault. fault ≢ Refused Refusal.Device) }
{
    let delta = match decoder.decode(alloc, line) {
        Ok(delta) => delta,
        Err(Refusal::Memory) => return Err(SyncFault::Refused(Refusal::Memory)),
        Err(_) => return Err(SyncFault::Refused(Refusal::Line)),
    };
    match state.join(alloc, &delta) {
        Ok(()) => Ok(()),
        Err(refusal) => Err(SyncFault::Refused(refusal)),
    }
}

/// Pulls all that a peer has, from version 0 on, and joins it.
///
/// # Errors
///
/// - `Device`: the connection failed.
/// - `Line`: a reply doesn't fit its pull or broke off, or its line is no delta.
/// - `PeerRefused`: the peer replied `err`.
/// - `Closed`: the peer closed before its `end`.
/// - `Memory`: allocation failed.
///
/// Cost: linear in the lines, with the join of each delta, and the memory of a state of the grid.
pub(crate) fn pull_all<S: Source + Drop, K: Sink + Drop>(
    alloc: Global,
    peer: &mut Peer<S, K>,
) -> Result<Holding, SyncFault>
    ensures all { IfOk result (λ held. HasGivenAll peer.old peer.new held.version (state_at held.state)) }
    ensures asked { WasAsked peer.old peer.new }
    ensures calm { OnOk result (peer.new.failures ≡ peer.old.failures) }
    ensures failed { result ≡ Err (Refused Refusal.Device) → peer.old.failures < peer.new.failures }
{
    let mut state = match Grid::new(alloc) {
        Ok(state) => state,
        Err(refusal) => return Err(SyncFault::Refused(refusal)),
    };
    let mut decoder = Decoder::new(alloc);
    let mut version = 0u64;
    'pulls: loop {
        match next_due(alloc, peer, version, LARGEST_GROUP) {
            Ok(Due::Group(last, start)) => {
                match join_line(alloc, &mut decoder, &peer.reply()[start..], &mut state) {
                    Ok(()) => version = last,
                    Err(fault) => return Err(fault),
                }
            }
            Ok(Due::End) => return Ok(Holding { state, version }),
            Ok(Due::Closed) => return Err(SyncFault::Closed),
            Err(fault) => return Err(fault),
        }
    }
}
