//! Puts the reply to a line on the sink, after the watcher saw the line.
ghost use Rattle.std.specs.Prelude.{◌≡◌, ◌<◌, OnErr, OnOk};
ghost use Rattle.ps_device.specs.Device.{HoldsBack, Sends};
ghost use Rattle.ps_lines.specs.Replies.{refusal_text, reply_text};

use crate::delivery::Delivery;
use ps_device::Failed;
use ps_grid::Refusal;
use ps_lines::{Reply, Watcher};

/// Shows the watcher a line with its outcome, and puts the reply.
///
/// It is inlined: where the reply is made at the call, its variant is then known there, and the `Reply` needs no memory
/// of its own.
#[inline(always)]
pub(crate) fn tell<W: Watcher, K, D: Delivery<K>>(
    line: &[u8],
    reply: Reply,
    watcher: &mut W,
    sink: &mut K,
) -> Result<(), Failed>
    ensures sent { Sends (D.contents sink.old) (D.contents sink.new) result (reply_text reply) }
    ensures calm { OnOk result (D.failures sink.new ≡ D.failures sink.old) }
    ensures failed { OnErr result (D.failures sink.old < D.failures sink.new) }
    ensures held { D.holds_back → HoldsBack (D.contents sink.old) (D.contents sink.new)
        (D.waiting sink.old) (D.waiting sink.new) }
{
    watcher.saw(line, reply.outcome());
    D::put_reply(&reply, sink)
}

/// Does what [`tell`] does, in one piece of code for all replies that aren't put where they are made.
pub(crate) fn tell_other<W: Watcher, K, D: Delivery<K>>(
    line: &[u8],
    reply: Reply,
    watcher: &mut W,
    sink: &mut K,
) -> Result<(), Failed>
    ensures sent { Sends (D.contents sink.old) (D.contents sink.new) result (reply_text reply) }
    ensures calm { OnOk result (D.failures sink.new ≡ D.failures sink.old) }
    ensures failed { OnErr result (D.failures sink.old < D.failures sink.new) }
    ensures held { D.holds_back → HoldsBack (D.contents sink.old) (D.contents sink.new)
        (D.waiting sink.old) (D.waiting sink.new) }
{
    tell::<W, K, D>(line, reply, watcher, sink)
}

/// Shows the watcher that a line was refused, and puts the refusal.
#[inline(never)]
pub(crate) fn refuse<W: Watcher, K, D: Delivery<K>>(
    line: &[u8],
    refusal: Refusal,
    watcher: &mut W,
    sink: &mut K,
) -> Result<(), Failed>
    ensures sent { Sends (D.contents sink.old) (D.contents sink.new) result (refusal_text refusal) }
    ensures calm { OnOk result (D.failures sink.new ≡ D.failures sink.old) }
    ensures failed { OnErr result (D.failures sink.old < D.failures sink.new) }
    ensures held { D.holds_back → HoldsBack (D.contents sink.old) (D.contents sink.new)
        (D.waiting sink.old) (D.waiting sink.new) }
{
    tell::<W, K, D>(line, Reply::Refused(refusal), watcher, sink)
}
