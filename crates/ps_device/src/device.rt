//! The traits of devices: a `Source` gives bytes, and a `Sink` takes them.
ghost use Rattle.std.specs.Prelude.{◌≡◌, ℕ, ◌+◌, ◌<◌, ◌≤◌, List, [], Option, length, IfOk, OnOk, OnErr};
ghost use Rattle.std.specs.Io.KnownBytes.{Keeps, ReadConsumes, WriteAppends};
ghost use Rattle.ps_device.specs.Device.{failed_take, failed_put, failed_flush, HoldsBack, Sends};

/// The error that a failed call of a [`Source`] or a [`Sink`] returns. It doesn't say why the call failed.
#[derive(Clone, Copy, Debug, PartialEq, Eq)]
pub struct Failed;

/// Where bytes come from: standard input, a file, a connection.
///
/// A call of [`Source::take`] has failed if it returned an error. Contracts see the bytes still to come, how many calls
/// have failed, and a bound on how many more calls return bytes.
pub trait Source {
    /// The bytes still to come; `None` if the source doesn't show them to contracts.
    ghost remaining: { Self → Option (List ℕ) };

    /// How many calls failed so far.
    ghost failures: { Self → ℕ };

    /// A bound on how many more calls return bytes. The bound falls with each of these calls and never rises, so a loop
    /// of reads ends.
    ghost left: { Self → ℕ };

    /// Reads the next bytes into the front of `piece`, and returns how many bytes it read.
    ///
    /// A 0 means that the input has ended, unless `piece` is empty.
    ///
    /// Cost: linear in the bytes read, besides the time of the device.
    fn take(&mut self, piece: &mut [u8]) -> Result<usize, Failed>
        ensures within { IfOk result (λ count. count ≤ length piece.new) }
        ensures bytes { ReadConsumes (remaining self.old) (remaining self.new) result piece.new }
        ensures counted { failures self.new ≡ failures self.old + failed_take result }
        ensures kept { left self.new ≤ left self.old }
        ensures falls { IfOk result (λ count. 0 < count → left self.new < left self.old) };
}

/// Where bytes go: memory, standard output, a file, a connection.
///
/// A call has failed if it returned an error. A call of [`Sink::put`] has also failed if it took no byte of a `piece`
/// that isn't empty. Contracts see the bytes put so far, which of them still wait to be sent, and how many calls have
/// failed.
pub trait Sink {
    /// The bytes put so far, with the waiting bytes last; `None` if the sink doesn't show them to contracts.
    ghost contents: { Self → Option (List ℕ) };

    /// The bytes that were put and wait for a flush.
    ghost waiting: { Self → List ℕ };

    /// How many calls failed so far.
    ghost failures: { Self → ℕ };

    /// Whether the sink sends no byte before a flush, so that every byte put waits for a flush.
    ghost holds_back: { Type 0 };

    /// Takes bytes from the front of `piece`, and returns how many it took, which may be fewer than all.
    ///
    /// Cost: linear in the bytes taken, besides the time of the device.
    fn put(&mut self, piece: &[u8]) -> Result<usize, Failed>
        ensures within { IfOk result (λ count. count ≤ length piece.now) }
        ensures bytes { WriteAppends (contents self.old) (contents self.new) result piece.now }
        ensures counted { failures self.new ≡ failures self.old + failed_put result piece.now }
        ensures held { holds_back
            → HoldsBack (contents self.old) (contents self.new) (waiting self.old) (waiting self.new) };

    /// Sends all bytes that wait. Even if the call fails, the bytes put so far (`contents`) stay the same.
    ///
    /// Cost: linear in the bytes that wait, besides the time of the device.
    fn flush(&mut self) -> Result<(), Failed>
        ensures same { Keeps (contents self.old) (contents self.new) }
        ensures flushed { OnOk result (waiting self.new ≡ []) }
        ensures counted { failures self.new ≡ failures self.old + failed_flush result };
}

/// Puts all of these bytes on the sink. If the sink fails, only a beginning of the bytes was put, or none of them.
///
/// Cost: linear in the bytes, in as many calls as the sink needs.
#[inline]
pub fn put_all<K: Sink>(sink: &mut K, bytes: &[u8]) -> Result<(), Failed>
    ensures sent { Sends (K.contents sink.old) (K.contents sink.new) result bytes.now }
    ensures calm { OnOk result (K.failures sink.new ≡ K.failures sink.old) }
    ensures failed { OnErr result (K.failures sink.old < K.failures sink.new) }
    ensures held { K.holds_back
        → HoldsBack (K.contents sink.old) (K.contents sink.new) (K.waiting sink.old) (K.waiting sink.new) }
{
    let mut start = 0;
    while start < bytes.len() {
        let count = sink.put(&bytes[start..])?;
        if count == 0 {
            return Err(Failed);
        }
        // most sinks take all bytes at once: this ends the loop without another test
        if count == bytes.len() - start {
            return Ok(());
        }
        start += count;
    }
    Ok(())
}

/// Sends all bytes that wait in the sink, by one call of [`Sink::flush`]. Fails if the flush fails.
///
/// Only the contract differs from that of `flush`: one clause states the count of failures after Ok, another one after
/// an error, as in [`put_all`].
pub fn hand_on<K: Sink>(sink: &mut K) -> Result<(), Failed>
    ensures same { Keeps (K.contents sink.old) (K.contents sink.new) }
    ensures flushed { OnOk result (K.waiting sink.new ≡ []) }
    ensures calm { OnOk result (K.failures sink.new ≡ K.failures sink.old) }
    ensures failed { OnErr result (K.failures sink.old < K.failures sink.new) }
{
    sink.flush()?;
    Ok(())
}
