//! A peer that replies to each request by a line, or by several.
ghost use Rattle.std.specs.Prelude.{◌≡◌, ◌<◌, ◌≤◌, ◌+◌, [], Err, IfOk, OnErr, OnOk, flat_map, length};
ghost use Rattle.std.specs.Io.KnownBytes.{Appends};
ghost use Rattle.ps_peers.specs.Peers.{IsClosed, IsPut, IsReadOn, IsReplied, PutsSome};
ghost use Rattle.ps_lines.specs.Streams.{TakesLine};
ghost use Rattle.ps_lines.specs.Feeding.{without_return};

use ps_device::{Failed, Sink, Source, hand_on};
use ps_lines::{Incoming, LineFault, send_pieces};
use std::alloc::{AllocError, Global};
use std::marker::Model;

/// Why a request had no reply.
#[derive(Clone, Copy, PartialEq, Eq)]
pub enum PeerFault {
    /// The request couldn't be sent, or the source of the replies failed.
    Device,
    /// The peer closed the connection after a whole reply, instead of sending the next reply.
    Closed,
    /// The connection ended within a reply, a line of a reply is too long, or an earlier call failed.
    Line,
}

/// A connection to a peer: the sink for requests, and the source of replies.
///
/// After a call that failed, each later call fails as [`PeerFault::Line`], and sends nothing.
#[derive(Drop)]
pub struct Peer<S: Source + Drop, K: Sink + Drop> {
    incoming: Incoming<S>,
    sink: K,
    /// whether no call has failed, so that the next byte to come begins a line
    is_ready: bool,
}

impl<S: Source + Drop, K: Sink + Drop> Model for Peer<S, K> {
    ghost use Rattle.std.specs.Prelude.{◌≡◌, ◌+◌, [], true};
    ghost use Rattle.ps_lines.specs.Incomings.{IsBetweenLines, due, line_read, lines_left, source_of};
    ghost use Rattle.ps_peers.specs.Peers.{PeerView};

    ghost Value = { PeerView };

    ghost view = { λ p. record {
      to_come = due S.remaining p.incoming;
      asked = K.contents p.sink;
      line = line_read p.incoming;
      failures = S.failures (source_of p.incoming) + K.failures p.sink;
      left = lines_left S.left p.incoming;
    } };

    ghost invariant = { λ p. p.is_ready ≡ true → IsBetweenLines p.incoming };
}

/// Puts these pieces on a sink, one after another, and flushes it.
pub(crate) fn send_whole<K: Sink>(line: &[&[u8]], sink: &mut K) -> Result<(), Failed>
    ensures sent { OnOk result (Appends (K.contents sink.old) (K.contents sink.new)
        (flat_map (λ piece. piece.now) line.now)) }
    ensures flushed { OnOk result (K.waiting sink.new ≡ []) }
    ensures put { PutsSome (K.contents sink.old) (K.contents sink.new) (flat_map (λ piece. piece.now) line.now) }
    ensures calm { OnOk result (K.failures sink.new ≡ K.failures sink.old) }
    ensures failed { OnErr result (K.failures sink.old < K.failures sink.new) }
{
    send_pieces(line, sink)?;
    hand_on(sink)?;
    Ok(())
}

impl<S: Source + Drop, K: Sink + Drop> Peer<S, K> {
    /// Creates a peer from the source of its replies and the sink for requests. Sends nothing. Fails only when out of
    /// memory.
    ///
    /// Cost: the memory of one line, and of the bytes that are read at once.
    pub fn new(alloc: Global, source: S, sink: K) -> Result<Peer<S, K>, AllocError>
        ensures to_come { IfOk result (λ peer. peer.to_come ≡ S.remaining source) }
        ensures asked { IfOk result (λ peer. peer.asked ≡ K.contents sink) }
        ensures failures { IfOk result (λ peer. peer.failures ≡ S.failures source + K.failures sink) }
    {
        Ok(Peer {
            incoming: Incoming::new(alloc, source)?,
            sink,
            is_ready: true,
        })
    }

    /// Sends a request, and waits for the first line of the reply. [`Peer::reply`] then returns that line.
    ///
    /// The pieces of `request`, joined, are a line with its line feed. Without pieces, `ask` only waits for the reply
    /// to an earlier [`Peer::put`].
    ///
    /// Cost: linear in the bytes of the request and of the line, besides the wait for the peer.
    pub fn ask(&mut self, request: &[&[u8]]) -> Result<(), PeerFault>
        ensures replied { OnOk result (IsReplied (flat_map (λ piece. piece.now) request.now) self.old self.new) }
        ensures closed { result ≡ Err PeerFault.Closed
            → IsClosed (flat_map (λ piece. piece.now) request.now) self.old self.new }
        ensures put { PutsSome self.old.asked self.new.asked (flat_map (λ piece. piece.now) request.now) }
        ensures taken { OnErr result (TakesLine self.old.to_come self.new.to_come) }
        ensures failed { result ≡ Err PeerFault.Device → self.old.failures < self.new.failures }
    {
        if !self.is_ready {
            return Err(PeerFault::Line);
        }
        self.is_ready = false;
        match send_whole(request, &mut self.sink) {
            Ok(()) => {}
            Err(_) => return Err(PeerFault::Device),
        }
        match self.incoming.read_line() {
            Ok(()) => {
                self.is_ready = true;
                Ok(())
            }
            Err(LineFault::Failed) => Err(PeerFault::Device),
            Err(LineFault::Ended) => Err(PeerFault::Closed),
            Err(LineFault::Broken) => Err(PeerFault::Line),
        }
    }

    /// Sends a request, and doesn't wait for its reply. A later [`Peer::ask`] reads that reply. That `ask` must send
    /// nothing that has a reply of its own: no pieces, or an empty line.
    ///
    /// Cost: linear in the bytes of the request.
    pub fn put(&mut self, request: &[&[u8]]) -> Result<(), PeerFault>
        ensures put { OnOk result (IsPut (flat_map (λ piece. piece.now) request.now) self.old self.new) }
        ensures some { PutsSome self.old.asked self.new.asked (flat_map (λ piece. piece.now) request.now) }
        ensures unread { self.new.to_come ≡ self.old.to_come }
        ensures failed { result ≡ Err PeerFault.Device → self.old.failures < self.new.failures }
    {
        if !self.is_ready {
            return Err(PeerFault::Line);
        }
        self.is_ready = false;
        match send_whole(request, &mut self.sink) {
            Ok(()) => {
                self.is_ready = true;
                Ok(())
            }
            Err(_) => Err(PeerFault::Device),
        }
    }

    /// Waits for the next line of the last reply. [`Peer::reply`] then returns that line.
    ///
    /// Cost: linear in the bytes of the line, besides the wait for the peer.
    pub fn read_more(&mut self) -> Result<(), PeerFault>
        ensures more { OnOk result (IsReadOn self.old self.new) }
        ensures unasked { self.new.asked ≡ self.old.asked }
        ensures taken { OnErr result (TakesLine self.old.to_come self.new.to_come) }
        ensures failed { result ≡ Err PeerFault.Device → self.old.failures < self.new.failures }
    {
        if !self.is_ready {
            return Err(PeerFault::Line);
        }
        self.is_ready = false;
        match self.incoming.read_line() {
            Ok(()) => {
                self.is_ready = true;
                Ok(())
            }
            Err(LineFault::Failed) => Err(PeerFault::Device),
            Err(LineFault::Ended | LineFault::Broken) => Err(PeerFault::Line),
        }
    }

    /// Returns the line of a reply that was read last, without its line feed, and without a carriage return at its end.
    pub fn reply(&self) -> &[u8]
        ensures { result.now ≡ without_return self.now.line }
    {
        self.incoming.line()
    }
}
