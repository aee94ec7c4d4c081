//! Merges at a server what comes in, and writes what the server gets from others.
ghost use Rattle.std.specs.Prelude.{◌≡◌, ◌⊎◌, ◌<◌, ◌≤◌, [], ℕ, List, Err, IfErr, IfOk, OnErr, OnOk, true};
ghost use Rattle.std.specs.Io.KnownBytes.{Appends};
ghost use Rattle.ps_join.specs.Joins.{IsUnwaited, IsWaited, merge_text};
ghost use Rattle.ps_grid.specs.declared.refusal.Refusal.TheVariants as Refusal;
ghost use Rattle.ps_join.specs.Relays.{HasFailed, IsAt, IsHalted, IsOnward, IsRelayed, IsUnwritten};
ghost use Rattle.ps_join.specs.Relays.{IsWritten, Onward, RelayView, seen};
ghost use Rattle.ps_peers.specs.Peers.{PutsSome};
ghost use Rattle.ps_peers.specs.declared.peer_pull.SyncFault.TheVariants.{Refused};

use crate::bringing::{Brought, bring};
use crate::fault::RelayFault;
use crate::intake::{Came, Intake};
use crate::merging::merge_pieces;
use crate::waiting::end_wait;
use ps_device::{Failed, Sink, Source, hand_on};
use ps_grid::Refusal;
use ps_lines::{LARGEST_GROUP, send_pieces};
use ps_peers::{Due, Peer, SyncFault, next_due, put_wait};
use std::alloc::Global;

/// Writes a delta's line as a merge line, and flushes it.
fn write_merge<O: Sink>(delta: &[u8], out: &mut O) -> Result<(), Failed>
    ensures sent { OnOk result (Appends (O.contents out.old) (O.contents out.new) (merge_text delta.now)) }
    ensures flushed { OnOk result (O.waiting out.new ≡ []) }
    ensures put { OnErr result (PutsSome (O.contents out.old) (O.contents out.new) (merge_text delta.now)) }
    ensures calm { OnOk result (O.failures out.new ≡ O.failures out.old) }
    ensures failed { OnErr result (O.failures out.old < O.failures out.new) }
{
    let line = merge_pieces(delta);
    send_pieces(line.as_slice(), out)?;
    match hand_on(out) {
        Ok(()) => Ok(()),
        Err(failed) => Err(failed),
    }
}

/// Pulls at most `most` changes after a position, and writes them as a merge line. Returns the position after them, or
/// `None` if there are none.
fn write_group<S: Source + Drop, K: Sink + Drop, O: Sink>(
    alloc: Global,
    server: &mut Peer<S, K>,
    out: &mut O,
    position: u64,
    most: u64,
) -> Result<Option<u64>, RelayFault>
    ensures written { IfOk result (IsWritten position most server.old server.new (O.contents out.old)
        (O.contents out.new)) }
    ensures unwritten { IfErr result (λ fault. IsUnwritten fault position most server.old server.new
        (O.contents out.old) (O.contents out.new)) }
    ensures flushed { O.waiting out.old ≡ []
        → (O.waiting out.new ≡ []) ⊎ (O.failures out.old < O.failures out.new) }
    ensures calm { OnOk result ((server.new.failures ≡ server.old.failures)
        × (O.failures out.new ≡ O.failures out.old)) }
    ensures failed { IfErr result (λ fault. HasFailed fault (server.old.failures < server.new.failures)
        (O.failures out.old < O.failures out.new)) }
{
    match next_due(alloc, server, position, most) {
        Ok(Due::Group(last, start)) if last - position <= most => {
            match write_merge(&server.reply()[start..], out) {
                Ok(()) => Ok(Some(last)),
                Err(_) => Err(RelayFault::Output),
            }
        }
        Ok(Due::Group(..)) => Err(RelayFault::Server(SyncFault::Refused(Refusal::Line))),
        Ok(Due::End) => Ok(None),
        Ok(Due::Closed) => Err(RelayFault::Server(SyncFault::Closed)),
        Err(fault) => Err(RelayFault::Server(fault)),
    }
}

/// Pulls the changes after number `start` and up to number `limit`, and writes them.
fn write_between<S: Source + Drop, K: Sink + Drop, O: Sink>(
    alloc: Global,
    server: &mut Peer<S, K>,
    out: &mut O,
    start: u64,
    limit: u64,
) -> Result<(), RelayFault>
    requires within { start ≤ limit }
    ensures written { OnOk result (Onward start limit server.old (O.contents out.old) (λ first to_come course.
        IsOnward limit course.numbers first (seen server.new to_come (O.contents out.new)))) }
    ensures halted { IfErr result (λ fault. Onward start limit server.old (O.contents out.old)
        (λ first to_come course. (held : List ℕ)
        → IsHalted fault held first (seen server.new to_come (O.contents out.new)))) }
    ensures flushed { O.waiting out.old ≡ []
        → (O.waiting out.new ≡ []) ⊎ (O.failures out.old < O.failures out.new) }
    ensures calm { OnOk result ((server.new.failures ≡ server.old.failures)
        × (O.failures out.new ≡ O.failures out.old)) }
    ensures falls { OnOk result (server.new.left ≤ server.old.left) }
    ensures failed { IfErr result (λ fault. HasFailed fault (server.old.failures < server.new.failures)
        (O.failures out.old < O.failures out.new)) }
{
    let mut position = start;
    'pulls: while position < limit {
        let most = (limit - position).min(LARGEST_GROUP);
        match write_group(alloc, server, out, position, most) {
            Ok(Some(last)) => position = last,
            Ok(None) => return Err(RelayFault::Server(SyncFault::Refused(Refusal::Line))),
            Err(fault) => return Err(fault),
        }
    }
    Ok(())
}

/// Merges the delta in hand at the server, and writes the changes of others up to the number in the server's reply.
/// Returns the position after them, and after the change that the delta became.
fn take_in<S: Source + Drop, K: Sink + Drop, I: Intake, O: Sink>(
    alloc: Global,
    server: &mut Peer<S, K>,
    intake: &mut I,
    out: &mut O,
    position: u64,
) -> Result<u64, RelayFault>
    requires held { I.holds intake.old ≡ true }
    ensures at { IfOk result (λ next. (first : RelayView)
        → IsAt position first (seen server.old (I.to_come intake.old) (O.contents out.old))
        → IsAt next first (seen server.new (I.to_come intake.new) (O.contents out.new))) }
    ensures halted { IfErr result (λ fault. (first : RelayView)
        → IsAt position first (seen server.old (I.to_come intake.old) (O.contents out.old))
        → IsHalted fault (I.held intake.new) first (seen server.new (I.to_come intake.new) (O.contents out.new))) }
    ensures flushed { O.waiting out.old ≡ []
        → (O.waiting out.new ≡ []) ⊎ (O.failures out.old < O.failures out.new) }
    ensures calm { OnOk result ((server.new.failures ≡ server.old.failures)
        × (O.failures out.new ≡ O.failures out.old)) }
    ensures falls { OnOk result (server.new.left < server.old.left) }
    ensures failed { IfErr result (λ fault. HasFailed fault (server.old.failures < server.new.failures)
        (O.failures out.old < O.failures out.new)) }
{
    match bring(alloc, server, intake, position) {
        Ok(Brought::Anew(number)) => {
            match write_between(alloc, server, out, position, number - 1) {
                Ok(()) => Ok(number),
                Err(fault) => Err(fault),
            }
        }
        Ok(Brought::Known(number)) if position < number => {
            match write_between(alloc, server, out, position, number) {
                Ok(()) => Ok(number),
                Err(fault) => Err(fault),
            }
        }
        Ok(Brought::Known(_)) => Ok(position),
        Ok(Brought::Refused) => Ok(position),
        Err(fault) => Err(RelayFault::Server(fault)),
    }
}

/// Waits until a delta comes in or the server has more changes, and ends the wait at the server.
fn await_more<S: Source + Drop, K: Sink + Drop, I: Intake>(
    alloc: Global,
    server: &mut Peer<S, K>,
    intake: &mut I,
    position: u64,
) -> Result<(), SyncFault>
    ensures waited { OnOk result (IsWaited position server.old server.new) }
    ensures broken { OnErr result (IsUnwaited position server.old server.new) }
    ensures same { I.to_come intake.new ≡ I.to_come intake.old }
    ensures failed { result ≡ Err (Refused Refusal.Device) → server.old.failures < server.new.failures }
{
    match put_wait(server, position) {
        Ok(()) => {}
        Err(fault) => return Err(fault),
    }
    intake.await_more();
    let empty_line: [&[u8]; 1] = [b"\n"];
    end_wait(alloc, server, position, empty_line.as_slice())
}

/// Merges each delta of `intake` at a server, and writes the server's other changes to `out` as merge lines, from the
/// server's first change on. Each line is flushed at once.
///
/// The relay returns once `intake` has ended and the server has no more changes. Until then it waits for a delta or a
/// change. For a change it sends the server a `wait`, and ends that wait with an empty line.
///
/// The reply `ok n` to a merge says that the delta became change `n` of the server. So the relay pulls and writes the
/// changes before change `n`, and leaves out change `n`. A delta that the server refuses is settled with the refusal,
/// and the relay goes on with the next delta.
///
/// # Errors
///
/// - `Output`: `out` failed.
/// - `Server`: the connection failed or was closed, a reply doesn't fit its request, or the server refused a pull or a
///   wait or has no free session slot. Also when out of memory. A delta in hand stays in hand unless a reply that fits
///   has settled it.
///
/// Cost: linear in the bytes of the lines, besides the wait for the server and for the intake.
pub fn relay<S: Source + Drop, K: Sink + Drop, I: Intake, O: Sink>(
    alloc: Global,
    server: &mut Peer<S, K>,
    intake: &mut I,
    out: &mut O,
) -> Result<(), RelayFault>
    ensures relayed { OnOk result (IsRelayed (seen server.old (I.to_come intake.old) (O.contents out.old))
        (seen server.new (I.to_come intake.new) (O.contents out.new))) }
    ensures halted { IfErr result (λ fault. IsHalted fault (I.held intake.new)
        (seen server.old (I.to_come intake.old) (O.contents out.old))
        (seen server.new (I.to_come intake.new) (O.contents out.new))) }
    ensures flushed { O.waiting out.old ≡ []
        → (O.waiting out.new ≡ []) ⊎ (O.failures out.old < O.failures out.new) }
    ensures calm { OnOk result ((server.new.failures ≡ server.old.failures)
        × (O.failures out.new ≡ O.failures out.old)) }
    ensures failed { IfErr result (λ fault. HasFailed fault (server.old.failures < server.new.failures)
        (O.failures out.old < O.failures out.new)) }
{
    let mut position = 0u64;
    'rounds: loop {
        let came = intake.next();
        if let Came::Delta = came {
            match take_in(alloc, server, intake, out, position) {
                Ok(next) => position = next,
                Err(fault) => return Err(fault),
            }
            continue;
        }
        match write_group(alloc, server, out, position, LARGEST_GROUP) {
            Ok(Some(last)) => position = last,
            Ok(None) => match came {
                Came::Ended => return Ok(()),
                Came::Delta | Came::Nothing => {
                    match await_more(alloc, server, intake, position) {
                        Ok(()) => {}
                        Err(fault) => return Err(RelayFault::Server(fault)),
                    }
                }
            },
            Err(fault) => return Err(fault),
        }
    }
}
