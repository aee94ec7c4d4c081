//! One pull of a peer's deltas, or one wait for more: the request, and what its reply says.
ghost use Rattle.std.specs.Prelude.{◌≡◌, ◌≢◌, ◌<◌, ℕ, List, Err, IfErr, IfOk, OnErr, OnOk};
ghost use Rattle.ps_grid.specs.declared.refusal.Refusal.TheVariants as Refusal;
ghost use Rattle.ps_peers.specs.Exchange.{IsAwaited, IsDue, IsNext, IsOwn, TellsNews, pull_most, wait_text};
ghost use Rattle.ps_lines.specs.Feeding.{without_return};
ghost use Rattle.ps_peers.specs.Peers.{IsClosed, IsPut, IsReplied, PutsSome};
ghost use Rattle.ps_lines.specs.Streams.{TakesLine};
ghost use Rattle.ps_peers.specs.declared.peer_pull.SyncFault.TheVariants.{Refused};

use crate::peer::{Peer, PeerFault};
use crate::peer_reply::{PeerReply, read_reply};
use itoa::Buffer;
use ps_device::{Sink, Source};
use ps_grid::Refusal;
use ps_lines::{PULL, WAIT};
use std::alloc::{AllocError, Global};

/// Why an exchange with a peer ended early.
#[derive(Debug, Drop)]
pub enum SyncFault {
    /// `Device`: a device or connection failed. `Line`: a peer's reply doesn't fit its request, the connection ended
    /// within a reply, or an earlier call on the peer failed. `Memory`: allocation failed.
    Refused(Refusal),
    /// A peer refused a request. The field is the peer's whole `err` reply.
    PeerRefused(String),
    /// A peer closed its connection instead of replying.
    Closed,
}

/// The outcome of a pull.
#[derive(Clone, Copy)]
pub enum Due {
    /// Deltas, joined on one line. The first field is the version after these deltas. The second field is the index of
    /// the byte in the reply at which the text of the join begins; this text goes on to the end of the reply.
    Group(u64, usize),
    /// The peer has no more deltas.
    End,
    /// The peer closed its connection instead of replying.
    Closed,
}

/// Returns the [`SyncFault`] that stands for `fault`, the reason why a request had no reply.
pub fn fault_of(fault: PeerFault) -> SyncFault
    ensures device { result ≡ Refused Refusal.Device → fault ≡ PeerFault.Device }
    ensures own { (line : List ℕ) → IsOwn result line }
{
    match fault {
        PeerFault::Device => SyncFault::Refused(Refusal::Device),
        PeerFault::Closed => SyncFault::Closed,
        PeerFault::Line => SyncFault::Refused(Refusal::Line),
    }
}

/// Returns the fault for a request that a peer refused: `PeerRefused` with a copy of the reply. Returns `Refused` as
/// `Memory` instead when out of memory.
///
/// Cost: linear in the reply's bytes.
pub fn refused(alloc: Global, reply: &str) -> SyncFault
    ensures device { result ≢ Refused Refusal.Device }
    ensures own { IsOwn result reply.now }
{
    match reply.to_string(alloc) {
        Ok(text) => SyncFault::PeerRefused(text),
        Err(AllocError) => SyncFault::Refused(Refusal::Memory),
    }
}

/// Asks a peer for at most `most` deltas after a version, and waits for its reply.
fn ask_after<S: Source + Drop, K: Sink + Drop>(
    from: &mut Peer<S, K>,
    version: u64,
    most: u64,
) -> Result<(), PeerFault>
    ensures replied { OnOk result (IsReplied (pull_most version most) from.old from.new) }
    ensures closed { result ≡ Err PeerFault.Closed → IsClosed (pull_most version most) from.old from.new }
    ensures put { PutsSome from.old.asked from.new.asked (pull_most version most) }
    ensures taken { OnErr result (TakesLine from.old.to_come from.new.to_come) }
    ensures failed { result ≡ Err PeerFault.Device → from.old.failures < from.new.failures }
{
    let mut after = Buffer::new();
    let mut group = Buffer::new();
    let request: [&[u8]; 6] = [
        PULL.as_bytes(),
        b" ",
        after.format(version).as_bytes(),
        b" ",
        group.format(most).as_bytes(),
        b"\n",
    ];
    from.ask(request.as_slice())
}

/// Sends a peer a `wait`, which the peer answers once it has more than `version` changes, or after some time. Doesn't
/// wait for that reply.
///
/// Fails as [`Peer::put`] does: `Device` if the connection failed, `Line` if an earlier call on the peer failed.
pub fn put_wait<S: Source + Drop, K: Sink + Drop>(
    from: &mut Peer<S, K>,
    version: u64,
) -> Result<(), SyncFault>
    ensures put { OnOk result (IsPut (wait_text version) from.old from.new) }
    ensures some { PutsSome from.old.asked from.new.asked (wait_text version) }
    ensures unread { from.new.to_come ≡ from.old.to_come }
    ensures failed { result ≡ Err (Refused Refusal.Device) → from.old.failures < from.new.failures }
{
    let mut number = Buffer::new();
    let request: [&[u8]; 4] = [
        WAIT.as_bytes(),
        b" ",
        number.format(version).as_bytes(),
        b"\n",
    ];
    match from.put(request.as_slice()) {
        Ok(()) => Ok(()),
        Err(fault) => Err(fault_of(fault)),
    }
}

/// Asks a peer to reply once it has more than `version` changes, and waits for that reply.
fn ask_news<S: Source + Drop, K: Sink + Drop>(
    from: &mut Peer<S, K>,
    version: u64,
) -> Result<(), PeerFault>
    ensures replied { OnOk result (IsReplied (wait_text version) from.old from.new) }
    ensures closed { result ≡ Err PeerFault.Closed → IsClosed (wait_text version) from.old from.new }
    ensures taken { OnErr result (TakesLine from.old.to_come from.new.to_come) }
    ensures failed { result ≡ Err PeerFault.Device → from.old.failures < from.new.failures }
{
    let mut number = Buffer::new();
    let request: [&[u8]; 4] = [
        WAIT.as_bytes(),
        b" ",
        number.format(version).as_bytes(),
        b"\n",
    ];
    from.ask(request.as_slice())
}

/// Reads the reply to a pull after `version`.
///
/// # Errors
///
/// - `Line`: the reply is neither a delta that leads up to a version greater than `version`, nor `end` and `version`.
/// - `PeerRefused`: the peer replied `err`.
/// - `Memory`: out of memory for the text of that `err`.
fn due_reply(alloc: Global, reply: &[u8], version: u64) -> Result<Due, SyncFault>
    ensures due { IfOk result (IsDue version reply.now) }
    ensures device { IfErr result (λ fault. fault ≢ Refused Refusal.Device) }
    ensures own { IfErr result (λ fault. IsOwn fault reply.now) }
{
    match read_reply(reply) {
        Some(PeerReply::Delta(last, delta)) if version < last => {
            Ok(Due::Group(last, reply.len() - delta.len()))
        }
        Some(PeerReply::End(last)) if last == version => Ok(Due::End),
        Some(PeerReply::Refused(text)) => Err(refused(alloc, text)),
        Some(PeerReply::Delta(..) | PeerReply::End(_) | PeerReply::Version(_) | PeerReply::Taken)
        | None => Err(SyncFault::Refused(Refusal::Line)),
    }
}

/// Pulls at most `most` deltas after the first `version` changes of a peer, and returns what the reply holds.
///
/// A reply with deltas has to name a version greater than `version`, the version after these deltas. An `end` has to
/// name `version` itself. Any other reply doesn't fit.
///
/// # Errors
///
/// - `Device`: the connection failed.
/// - `Line`: the reply doesn't fit, the connection ended within it, or an earlier call on the peer failed.
/// - `Memory`: allocation failed.
/// - `PeerRefused`: the peer replied `err`.
///
/// Cost: linear in the bytes of the request and of the reply, besides the wait for the peer.
pub fn next_due<S: Source + Drop, K: Sink + Drop>(
    alloc: Global,
    from: &mut Peer<S, K>,
    version: u64,
    most: u64,
) -> Result<Due, SyncFault>
    ensures next { IfOk result (IsNext version most from.old from.new) }
    ensures put { PutsSome from.old.asked from.new.asked (pull_most version most) }
    ensures taken { TakesLine from.old.to_come from.new.to_come }
    ensures failed { result ≡ Err (Refused Refusal.Device) → from.old.failures < from.new.failures }
    ensures own { IfErr result (λ fault. IsOwn fault (without_return from.new.line)) }
{
    match ask_after(from, version, most) {
        Ok(()) => due_reply(alloc, from.reply(), version),
        Err(PeerFault::Closed) => Ok(Due::Closed),
        Err(fault) => Err(fault_of(fault)),
    }
}

/// Checks that `reply` answers a `wait` for more than `version` changes: the word `version`, and a number.
///
/// The number has to be at least `version`. It may equal `version`, since a wait may end without a change.
///
/// # Errors
///
/// - `Line`: the reply is neither such an answer nor an `err`.
/// - `PeerRefused`: the peer replied `err`.
/// - `Memory`: out of memory for a copy of the `err`.
pub fn due_news(alloc: Global, reply: &[u8], version: u64) -> Result<(), SyncFault>
    ensures due { OnOk result (TellsNews version reply.now) }
    ensures device { IfErr result (λ fault. fault ≢ Refused Refusal.Device) }
    ensures own { IfErr result (λ fault. IsOwn fault reply.now) }
{
    match read_reply(reply) {
        Some(PeerReply::Version(number)) if version <= number => Ok(()),
        Some(PeerReply::Refused(text)) => Err(refused(alloc, text)),
        Some(PeerReply::Delta(..) | PeerReply::End(_) | PeerReply::Version(_) | PeerReply::Taken)
        | None => Err(SyncFault::Refused(Refusal::Line)),
    }
}

/// Returns true once a peer has more than `version` changes, or has ended the wait without more changes. Returns false
/// if the peer closed the connection instead of replying.
///
/// # Errors
///
/// - `Device`: the connection failed.
/// - `Line`: the reply isn't `version` with a number of at least `version`, the connection ended within the reply, or
///   an earlier call on the peer failed.
/// - `Memory`: allocation failed.
/// - `PeerRefused`: the peer replied `err`.
///
/// Cost: the wait for the peer.
pub fn await_news<S: Source + Drop, K: Sink + Drop>(
    alloc: Global,
    from: &mut Peer<S, K>,
    version: u64,
) -> Result<bool, SyncFault>
    ensures news { IfOk result (IsAwaited version from.old from.new) }
    ensures taken { TakesLine from.old.to_come from.new.to_come }
    ensures failed { result ≡ Err (Refused Refusal.Device) → from.old.failures < from.new.failures }
    ensures own { IfErr result (λ fault. IsOwn fault (without_return from.new.line)) }
{
    match ask_news(from, version) {
        Ok(()) => match due_news(alloc, from.reply(), version) {
            Ok(()) => Ok(true),
            Err(fault) => Err(fault),
        },
        Err(PeerFault::Closed) => Ok(false),
        Err(fault) => Err(fault_of(fault)),
    }
}
