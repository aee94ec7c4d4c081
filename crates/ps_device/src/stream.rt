//! Devices over the readers and writers of std: standard input and output, files, TCP streams.
ghost use Rattle.std.specs.Prelude.{◌≡◌, ◌+◌, []};
ghost use Rattle.ps_device.specs.Writers.{writer_of};
ghost use Rattle.ps_grid.specs.Blanks.{IsBlankOf};

use crate::device::{Failed, Sink, Source};
use ps_grid::GhostCount;
use std::io::{ErrorKind, Read, Write};
use std::sync::ledger::{Blank, Ledger};

/// A source over a reader. A read that a signal interrupts is tried again, and is no failure.
#[derive(Drop)]
pub struct Reading<R: Read + Drop, L: Ledger> {
    reader: R,
    /// how many more reads are made before the source fails for good
    tries: u64,
    failed: GhostCount<L>,
}

impl<R: Read + Drop, L: Ledger> Reading<R, L> {
    /// Creates a source over this reader, without an allocation. After 2^64 - 1 reads, all further calls fail.
    ///
    /// `blank` is the right to open the ledger `L`, in which contracts count the failed calls.
    pub fn new(reader: R, blank: Blank) -> Reading<R, L>
        requires { IsBlankOf blank L.name L.parts }
        ensures calm { ⟦<Reading<R, L> as Source>⟧.failures result ≡ 0 }
        ensures remaining { ⟦<Reading<R, L> as Source>⟧.remaining result ≡ R.remaining reader }
    {
        Reading {
            reader,
            tries: u64::MAX,
            failed: GhostCount::new(blank),
        }
    }
}

impl<R: Read + Drop, L: Ledger> Source for Reading<R, L> {
    ghost remaining = { λ source. R.remaining source.reader };

    ghost failures = { λ source. source.failed };

    ghost left = { λ source. source.tries };

    fn take(&mut self, piece: &mut [u8]) -> Result<usize, Failed> {
        while self.tries > 0 {
            self.tries -= 1;
            match self.reader.read(piece) {
                Ok(count) => return Ok(count),
                Err(error) if error.kind() == ErrorKind::Interrupted => {}
                Err(_) => break,
            }
        }
        self.failed.rise();
        Err(Failed)
    }
}

/// A sink over a writer, without a buffer: no bytes wait in it.
///
/// A write or a flush that a signal interrupts is tried again, and is no failure. A write that takes no byte of a piece
/// that isn't empty is a failure.
#[derive(Drop)]
pub struct Writing<W: Write + Drop, L: Ledger> {
    writer: W,
    /// how many more writes and flushes are made before the sink fails for good
    tries: u64,
    failed: GhostCount<L>,
}

impl<W: Write + Drop, L: Ledger> Writing<W, L> {
    /// Creates a sink over this writer, without an allocation. After 2^64 - 1 writes and flushes, any more fail.
    ///
    /// `blank` is the right to open the ledger `L`, in which contracts count the failed calls.
    pub fn new(writer: W, blank: Blank) -> Writing<W, L>
        requires { IsBlankOf blank L.name L.parts }
        ensures calm { ⟦<Writing<W, L> as Sink>⟧.failures result ≡ 0 }
        ensures writer { writer_of result ≡ writer }
        ensures contents { ⟦<Writing<W, L> as Sink>⟧.contents result ≡ W.contents writer }
    {
        Writing {
            writer,
            tries: u64::MAX,
            failed: GhostCount::new(blank),
        }
    }

    /// Counts a failed call, without calling the writer.
    pub(crate) fn fail(&mut self)
        ensures writer { self.new.writer ≡ self.old.writer }
        ensures counted { self.new.failed ≡ self.old.failed + 1 }
    {
        self.failed.rise();
    }
}

impl<W: Write + Drop, L: Ledger> Sink for Writing<W, L> {
    ghost contents = { λ sink. W.contents sink.writer };

    ghost waiting = { λ sink. [] };

    ghost failures = { λ sink. sink.failed };

    ghost holds_back = { ⊥ };

    fn put(&mut self, piece: &[u8]) -> Result<usize, Failed> {
        if piece.is_empty() {
            return Ok(0);
        }
        while self.tries > 0 {
            self.tries -= 1;
            match self.writer.write(piece) {
                Ok(0) => break,
                Ok(count) => return Ok(count),
                Err(error) if error.kind() == ErrorKind::Interrupted => {}
                Err(_) => break,
            }
        }
        self.failed.rise();
        Err(Failed)
    }

    fn flush(&mut self) -> Result<(), Failed> {
        while self.tries > 0 {
            self.tries -= 1;
            match self.writer.flush() {
                Ok(()) => return Ok(()),
                Err(error) if error.kind() == ErrorKind::Interrupted => {}
                Err(_) => break,
            }
        }
        self.failed.rise();
        Err(Failed)
    }
}
