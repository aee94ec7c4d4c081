//! Carries what one peer has to the other: pulls it, and merges it there.
ghost use Rattle.std.specs.Prelude.{◌≡◌, ◌<◌, ◌≤◌, IfErr, IfOk, OnOk};
ghost use Rattle.ps_grid.specs.declared.refusal.Refusal.TheVariants as Refusal;
ghost use Rattle.ps_join.specs.Joins.{IsCarried, IsFailed, IsStopped, Later, turned_end};
ghost use Rattle.ps_lines.specs.Feeding.{without_return};
ghost use Rattle.ps_peers.specs.Exchange.{TellsEnd};
ghost use Rattle.ps_peers.specs.declared.peer_pull.SyncFault.TheVariants.{Refused};

use crate::fault::{End, JoinFault};
use crate::merging::merge;
use ps_device::{Sink, Source};
use ps_grid::Refusal;
use ps_lines::LARGEST_GROUP;
use ps_peers::{Due, Peer, SyncFault, next_due};
use std::alloc::Global;

/// The positions at both peers. A position is how many of a peer's changes, from the first on, were pulled or came from
/// the other peer.
#[derive(Clone, Copy)]
pub(crate) struct Positions {
    pub from: u64,
    pub to: u64,
}

impl Positions {
    /// Returns the positions with the two peers exchanged.
    pub(crate) fn turned(self) -> Positions
        ensures from { result.from ≡ self.to }
        ensures to { result.to ≡ self.from }
    {
        Positions {
            from: self.to,
            to: self.from,
        }
    }
}

/// Returns the fault with the two peers exchanged.
pub(crate) fn turned_fault(fault: JoinFault) -> JoinFault
    ensures end { result.end ≡ turned_end fault.end }
    ensures fault { result.fault ≡ fault.fault }
{
    JoinFault {
        end: match fault.end {
            End::From => End::To,
            End::To => End::From,
        },
        fault: fault.fault,
    }
}

/// Pulls what `from` has after its position, to its `end`, and merges each group at `to`. Returns the new positions.
pub(crate) fn carry<S: Source + Drop, K: Sink + Drop, T: Source + Drop, M: Sink + Drop>(
    alloc: Global,
    from: &mut Peer<S, K>,
    to: &mut Peer<T, M>,
    start: Positions,
) -> Result<Positions, JoinFault>
    ensures carried { IfOk result (λ at. Later start from.old to.old (λ waits whole from0 to0.
        IsCarried waits whole at from0 from.new to0 to.new)) }
    ensures ended { IfOk result (λ at. TellsEnd (without_return from.new.line) at.from) }
    ensures stopped { IfErr result (λ f. Later start from.old to.old (λ waits whole from0 to0.
        IsStopped waits f.end from0 from.new to0 to.new)) }
    ensures calm { OnOk result ((from.new.failures ≡ from.old.failures) × (to.new.failures ≡ to.old.failures)) }
    ensures falls { OnOk result ((from.new.left < from.old.left) × (to.new.left ≤ to.old.left)) }
    ensures failed { IfErr result (λ f. f.fault ≡ Refused Refusal.Device
        → IsFailed f.end from.old from.new to.old to.new) }
{
    let mut at = start;
    'pulls: loop {
        match next_due(alloc, from, at.from, LARGEST_GROUP) {
            Ok(Due::Group(last, first)) => {
                match merge(alloc, to, &from.reply()[first..], at.to) {
                    Ok(next) => at = Positions {
                        from: last,
                        to: next,
                    },
                    Err(fault) => return Err(JoinFault {
                        end: End::To,
                        fault,
                    }),
                }
            }
            Ok(Due::End) => return Ok(at),
            Ok(Due::Closed) => return Err(JoinFault {
                end: End::From,
                fault: SyncFault::Closed,
            }),
            Err(fault) => return Err(JoinFault {
                end: End::From,
                fault,
            }),
        }
    }
}
