//! How a session puts its replies on a sink.
ghost use Rattle.std.specs.Prelude.{◌≡◌, ◌<◌, [], ℕ, List, Option, OnErr, OnOk};
ghost use Rattle.std.specs.Io.KnownBytes.{Keeps};
ghost use Rattle.ps_device.specs.Device.{HoldsBack, Sends};
ghost use Rattle.ps_lines.specs.Replies.{reply_text};

use crate::held_output::HeldOutput;
use ps_device::{Failed, Sink, hand_on};
use ps_lines::{Reply, send};
use std::sync::ledger::Ledger;

/// A way to put replies on a sink of type `K`, and to send them. Bytes that are put may wait until they are sent.
pub trait Delivery<K> {
    /// The bytes put so far, if the sink shows them.
    ghost contents: { K → Option (List ℕ) };

    /// The bytes that are put, and aren't sent yet.
    ghost waiting: { K → List ℕ };

    /// The number of failed calls.
    ghost failures: { K → ℕ };

    /// Holds if no reply is sent before the sink is flushed.
    ghost holds_back: { Type 0 };

    /// Puts a reply with its line feed. If the sink fails, only a beginning of these bytes is put.
    fn put_reply(reply: &Reply, sink: &mut K) -> Result<(), Failed>
        ensures sent { Sends (contents sink.old) (contents sink.new) result (reply_text reply.now) }
        ensures calm { OnOk result (failures sink.new ≡ failures sink.old) }
        ensures failed { OnErr result (failures sink.old < failures sink.new) }
        ensures held { holds_back
            → HoldsBack (contents sink.old) (contents sink.new) (waiting sink.old) (waiting sink.new) };

    /// Returns how many bytes of replies wait for a flush. Returns 0 if replies may be sent at any time.
    fn waits(sink: &K) -> usize
        ensures held { 0 < result → holds_back };

    /// Sends all bytes that wait.
    fn flush(sink: &mut K) -> Result<(), Failed>
        ensures same { Keeps (contents sink.old) (contents sink.new) }
        ensures flushed { OnOk result (waiting sink.new ≡ []) }
        ensures calm { OnOk result (failures sink.new ≡ failures sink.old) }
        ensures failed { OnErr result (failures sink.old < failures sink.new) };
}

/// The delivery for a sink that may send replies at any time.
pub struct AtOnce;

impl<K: Sink> Delivery<K> for AtOnce {
    ghost contents = { K.contents };

    ghost waiting = { K.waiting };

    ghost failures = { K.failures };

    ghost holds_back = { ⊥ };

    #[inline(always)]
    fn put_reply(reply: &Reply, sink: &mut K) -> Result<(), Failed> {
        send(reply, sink)
    }

    fn waits(_sink: &K) -> usize {
        0
    }

    fn flush(sink: &mut K) -> Result<(), Failed> {
        hand_on(sink)
    }
}

/// The delivery for a [`HeldOutput`], which holds replies back until it is flushed.
pub struct HeldBack;

impl<K: Sink + Drop, L: Ledger> Delivery<HeldOutput<K, L>> for HeldBack {
    ghost use Rattle.std.specs.Prelude.{⊤};
    ghost use Rattle.ps_session.specs.HeldOutputs.{held_contents, held_failures, held_waiting};

    ghost contents = { held_contents K.contents };

    ghost waiting = { held_waiting K.waiting };

    ghost failures = { held_failures };

    ghost holds_back = { ⊤ };

    fn put_reply(reply: &Reply, sink: &mut HeldOutput<K, L>) -> Result<(), Failed> {
        // `send` gets the buffer alone, so it can't reach the sink below
        send(reply, &mut sink.room)
    }

    fn waits(sink: &HeldOutput<K, L>) -> usize {
        sink.room.bytes.len()
    }

    fn flush(sink: &mut HeldOutput<K, L>) -> Result<(), Failed> {
        hand_on(sink)
    }
}
