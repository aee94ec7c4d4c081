//! An output that holds back all that is put until it is flushed.
ghost use Rattle.std.specs.Prelude.{◌≡◌, ◌≤◌, [], ℕ, IfErr, IfOk, OnOk, drop, length};
ghost use Rattle.std.specs.Io.KnownBytes.{Keeps, append_known};
ghost use Rattle.ps_grid.specs.Blanks.{IsBlankOf};
ghost use Rattle.ps_grid.specs.declared.refusal.Refusal.TheVariants.{Memory};

use ps_device::{Failed, MemorySink, Sink};
use ps_grid::Refusal;
use std::alloc::Global;
use std::sync::ledger::{Blank, Ledger};

/// A sink in front of another sink. It holds back all bytes until a flush, which puts them on the other sink.
///
/// The bytes on the other sink, followed by the waiting bytes, are all bytes that were put, in order. The buffer of the
/// waiting bytes grows as needed. A put fails when out of memory, and counts as a failed call. After a failed flush,
/// the bytes that the other sink didn't get still wait.
#[derive(Drop)]
pub struct HeldOutput<K: Sink + Drop, L: Ledger> {
    /// the other sink, which gets the waiting bytes at a flush
    sink: K,
    /// the buffer; `sink` has its first `sent` bytes already; it also counts all failed calls
    pub(crate) room: MemorySink<L>,
    sent: usize,
    ghost within: { sent ≤ length room.bytes.items },
}

impl<K: Sink + Drop, L: Ledger> HeldOutput<K, L> {
    ghost use Rattle.ps_session.specs.HeldOutputs.{held_contents, held_failures, held_waiting, sink_of};

    /// Creates an output in front of `sink` that holds nothing back yet. Takes no memory. `blank` opens the ledger in
    /// which contracts count the output's failed calls.
    pub fn new(alloc: Global, sink: K, blank: Blank) -> HeldOutput<K, L>
        requires { IsBlankOf blank L.name L.parts }
        ensures sink { sink_of result ≡ sink }
        ensures contents { Keeps (K.contents sink) (held_contents K.contents result) }
        ensures waiting { held_waiting K.waiting result ≡ K.waiting sink }
        ensures calm { held_failures result ≡ 0 }
    {
        HeldOutput {
            sink,
            room: MemorySink::new(alloc, blank),
            sent: 0,
        }
    }

    /// Creates an output as [`new`](HeldOutput::new) does, with a buffer that has room for `room` waiting bytes.
    ///
    /// Fails only as `Memory`, when out of memory.
    ///
    /// Cost: allocates `room` bytes.
    pub fn with_room(
        alloc: Global,
        sink: K,
        blank: Blank,
        room: usize,
    ) -> Result<HeldOutput<K, L>, Refusal>
        requires { IsBlankOf blank L.name L.parts }
        ensures sink { IfOk result (λ output. sink_of output ≡ sink) }
        ensures contents { IfOk result (λ output. Keeps (K.contents sink) (held_contents K.contents output)) }
        ensures waiting { IfOk result (λ output. held_waiting K.waiting output ≡ K.waiting sink) }
        ensures calm { IfOk result (λ output. held_failures output ≡ 0) }
        ensures memory { IfErr result (λ e. e ≡ Memory) }
    {
        let mut output = HeldOutput::new(alloc, sink, blank);
        output.room.bytes.reserve(room)?;
        Ok(output)
    }

    /// Puts the waiting bytes on the other sink, and flushes it.
    fn send_on(&mut self) -> Result<(), Failed>
        ensures same { Keeps (held_contents K.contents self.old) (held_contents K.contents self.new) }
        ensures flushed { OnOk result (held_waiting K.waiting self.new ≡ []) }
        ensures counted { held_failures self.new ≡ held_failures self.old }
    {
        while self.sent < self.room.bytes.len() {
            let count = self.sink.put(&self.room.bytes[self.sent..])?;
            if count == 0 {
                return Err(Failed);
            }
            self.sent += count;
        }
        self.room.bytes.clear();
        self.sent = 0;
        self.sink.flush()
    }
}

impl<K: Sink + Drop, L: Ledger> Sink for HeldOutput<K, L> {
    ghost use Rattle.std.specs.Prelude.{⊤};
    ghost use Rattle.ps_session.specs.HeldOutputs.{held_contents, held_failures, held_waiting};

    ghost contents = { held_contents K.contents };

    ghost waiting = { held_waiting K.waiting };

    ghost failures = { held_failures };

    ghost holds_back = { ⊤ };

    /// Holds back the whole piece, and doesn't call the sink below.
    ///
    /// Cost: O(n) in its bytes, with the memory for them.
    fn put(&mut self, piece: &[u8]) -> Result<usize, Failed> {
        self.room.put(piece)
    }

    /// Puts the waiting bytes on the sink below, and flushes it.
    ///
    /// Cost: as many calls of the sink below as it takes for the bytes, and one more.
    fn flush(&mut self) -> Result<(), Failed> {
        let sent = self.send_on();
        if sent.is_err() {
            self.room.failed.rise();
        }
        sent
    }
}
