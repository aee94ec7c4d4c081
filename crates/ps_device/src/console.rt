//! A buffered sink over a writer: bytes wait in memory until a flush, or until the buffer is full.
//!
//! A session flushes its sink before each read. So the replies to all lines of one read can go out in one write, and no
//! reply stays in the buffer while a peer waits for it.
ghost use Rattle.std.specs.Prelude.{◌≡◌, ◌<◌, ◌≤◌, ◌+◌, [], IfErr, IfOk, IsErr, IsOk, IsTrue, OnOk, drop, false};
ghost use Rattle.std.specs.Prelude.{is_err, length, vec_capacity, vec_len};
ghost use Rattle.std.specs.Io.KnownBytes.{Keeps, WriteAppends, append_known};
ghost use Rattle.ps_device.specs.Device.{failed_put, failed_flush};
ghost use Rattle.ps_device.specs.declared.TheConstants.{PIECE_BYTES};
ghost use Rattle.ps_grid.specs.Blanks.{IsBlankOf};

use crate::PIECE_BYTES;
use crate::device::{Failed, Sink};
use crate::stream::Writing;
use ps_grid::Refusal;
use std::alloc::Global;
use std::io::Write;
use std::sync::ledger::{Blank, Ledger};

/// A buffered sink over a writer: bytes wait in the buffer until a flush, or until the buffer is full.
///
/// The writer gets the bytes put in order and without a gap, and the last of them may still wait. After a failure the
/// sink writes nothing more, and every further call fails. A flush also flushes the writer, but no clause shows this.
#[derive(Drop)]
pub struct ConsoleOutput<W: Write + Drop, L: Ledger> {
    /// the writer, and the count of all failures
    sink: Writing<W, L>,
    /// the bytes put last; the writer has the first `sent` of them already
    bytes: Vec<u8>,
    sent: usize,
    /// whether a call failed
    is_stopped: bool,
    ghost within: { vec_len bytes ≤ PIECE_BYTES },
    ghost reserved: { PIECE_BYTES ≤ vec_capacity bytes },
    ghost sent_within: { sent ≤ vec_len bytes },
    ghost sent_whole: { is_stopped ≡ false → sent ≡ 0 },
}

impl<W: Write + Drop, L: Ledger> ConsoleOutput<W, L> {
    ghost use Rattle.ps_device.specs.Writers.{console_contents, console_waiting, console_writer, has_failed};

    /// Creates a sink over this writer, with a buffer of `PIECE_BYTES` bytes. Refused only when out of memory.
    ///
    /// `blank` is the right to open the ledger `L`, in which contracts count the failed calls.
    ///
    /// Cost: one allocation.
    pub fn new(alloc: Global, writer: W, blank: Blank) -> Result<ConsoleOutput<W, L>, Refusal>
        requires { IsBlankOf blank L.name L.parts }
        ensures memory { IfErr result (λ refusal. refusal ≡ Refusal.Memory) }
        ensures writer { IfOk result (λ output. console_writer output ≡ writer) }
        ensures waiting { IfOk result (λ output. console_waiting output ≡ []) }
        ensures contents { IfOk result (λ output.
            Keeps (W.contents writer) (⟦<ConsoleOutput<W, L> as Sink>⟧.contents output)) }
        ensures calm { IfOk result (λ output. ⟦<ConsoleOutput<W, L> as Sink>⟧.failures output ≡ 0) }
        ensures open { IfOk result (λ output. has_failed output ≡ false) }
    {
        let bytes = Vec::with_capacity(alloc, PIECE_BYTES)?;
        Ok(ConsoleOutput {
            sink: Writing::new(writer, blank),
            bytes,
            sent: 0,
            is_stopped: false,
        })
    }

    /// Writes the bytes that wait to the writer, and doesn't flush the writer.
    fn send(&mut self) -> Result<(), Failed>
        ensures same { Keeps (console_contents W.contents self.old) (console_contents W.contents self.new) }
        ensures sent { OnOk result (self.new.bytes.items ≡ []) }
        ensures counted { self.new.sink.failed ≡ self.old.sink.failed + failed_flush result }
        ensures stops { has_failed self.new ≡ is_err result }
    {
        // stays so if a write fails
        self.is_stopped = true;
        while self.sent < self.bytes.len() {
            let count = self.sink.put(&self.bytes[self.sent..])?;
            if count == 0 {
                return Err(Failed);
            }
            self.sent += count;
        }
        self.bytes.clear();
        self.sent = 0;
        self.is_stopped = false;
        Ok(())
    }

    /// Takes bytes from the front of a piece that may not fit. Writes the buffer out first if it is full.
    #[cold]
    #[inline(never)]
    fn put_front(&mut self, piece: &[u8]) -> Result<usize, Failed>
        ensures within { IfOk result (λ count. count ≤ length piece.now) }
        ensures bytes { WriteAppends (console_contents W.contents self.old) (console_contents W.contents self.new)
            result piece.now }
        ensures counted { self.new.sink.failed ≡ self.old.sink.failed + failed_put result piece.now }
        ensures some { IfOk result (λ count. 0 < length piece.now → 0 < count) }
        ensures waits { has_failed self.old ≡ false → length (console_waiting self.old) < PIECE_BYTES
            → IsOk result × (console_writer self.new ≡ console_writer self.old) }
        ensures stops { has_failed self.new ≡ is_err result }
        ensures stopped { IsTrue (has_failed self.old)
            → IsErr result × (console_writer self.new ≡ console_writer self.old) }
    {
        if self.is_stopped {
            self.sink.fail();
            return Err(Failed);
        }
        if self.bytes.len() == PIECE_BYTES {
            self.send()?;
        }
        let count = piece.len().min(PIECE_BYTES - self.bytes.len());
        self.bytes.extend_from_slice(&piece[..count]).unwrap();
        Ok(count)
    }
}

impl<W: Write + Drop, L: Ledger> Sink for ConsoleOutput<W, L> {
    ghost use Rattle.ps_device.specs.Writers.{console_contents, console_waiting, console_writer, has_failed};

    ghost contents = { λ output. append_known (W.contents output.sink.writer) (drop output.sent output.bytes.items) };

    ghost waiting = { λ output. drop output.sent output.bytes.items };

    ghost failures = { λ output. output.sink.failed };

    ghost holds_back = { ⊥ };

    /// Takes bytes from the front of the piece, and returns how many: at least one, unless the piece is empty.
    ///
    /// Writes the buffer out first if it is full.
    ///
    /// Cost: linear in the bytes taken. The writer is called only when the buffer is full.
    #[inline]
    fn put(&mut self, piece: &[u8]) -> Result<usize, Failed>
        ensures within { IfOk result (λ count. count ≤ length piece.now) }
        ensures bytes { WriteAppends (console_contents W.contents self.old) (console_contents W.contents self.new)
            result piece.now }
        ensures counted { self.new.sink.failed ≡ self.old.sink.failed + failed_put result piece.now }
        ensures some { IfOk result (λ count. 0 < length piece.now → 0 < count) }
        ensures waits { has_failed self.old ≡ false → length (console_waiting self.old) < PIECE_BYTES
            → IsOk result × (console_writer self.new ≡ console_writer self.old) }
        ensures stops { has_failed self.new ≡ is_err result }
        ensures stopped { IsTrue (has_failed self.old)
            → IsErr result × (console_writer self.new ≡ console_writer self.old) }
    {
        if self.is_stopped || PIECE_BYTES - self.bytes.len() < piece.len() {
            return self.put_front(piece);
        }
        self.bytes.extend_from_slice(piece).unwrap();
        Ok(piece.len())
    }

    /// Writes the bytes that wait to the writer, and flushes the writer.
    ///
    /// Cost: as many writes as the writer needs for the bytes, and one flush.
    fn flush(&mut self) -> Result<(), Failed>
        ensures same { Keeps (console_contents W.contents self.old) (console_contents W.contents self.new) }
        ensures flushed { OnOk result (console_waiting self.new ≡ []) }
        ensures counted { self.new.sink.failed ≡ self.old.sink.failed + failed_flush result }
        ensures stops { has_failed self.new ≡ is_err result }
        ensures stopped { IsTrue (has_failed self.old)
            → IsErr result × (console_writer self.new ≡ console_writer self.old) }
    {
        if self.is_stopped {
            self.sink.fail();
            return Err(Failed);
        }
        self.send()?;
        let flushed = self.sink.flush();
        self.is_stopped = flushed.is_err();
        flushed
    }
}
