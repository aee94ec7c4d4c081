//! A flush of a console also flushes the writer below it.
ghost use Rattle.ps_grid.specs.Blanks.{IsBlankOf};

use ps_device::{ConsoleOutput, hand_on, put_all};
use ps_grid::Refusal;
use std::alloc::Global;
use std::io;
use std::io::Write;
use std::marker::Brand;
use std::sync::ledger::{Blank, Ledger};

/// A writer that sends its bytes only at a flush. It counts the bytes given and the bytes sent.
#[derive(Drop)]
struct HoldsBack {
    given: usize,
    sent: usize,
}

impl Write for HoldsBack {
    fn write(&mut self, buf: &[u8]) -> io::Result<usize> {
        self.given = self.given.wrapping_add(buf.len());
        Ok(buf.len())
    }

    fn flush(&mut self) -> io::Result<()> {
        self.sent = self.given;
        Ok(())
    }
}

/// Puts the bytes on a console over a writer, and flushes the console.
fn hands_on<L: Ledger>(
    alloc: Global,
    writer: &mut HoldsBack,
    bytes: &[u8],
    blank: Blank,
) -> Result<(), Refusal>
    requires { IsBlankOf blank L.name L.parts }
{
    let mut sink = ConsoleOutput::<&mut HoldsBack, L>::new(alloc, writer, blank)?;
    put_all(&mut sink, bytes).map_err(|_| Refusal::Device)?;
    hand_on(&mut sink).map_err(|_| Refusal::Device)
}

/// Returns how many of the bytes the writer has sent.
fn sent(alloc: Global, bytes: &[u8]) -> Result<usize, Refusal> {
    let mut writer = HoldsBack { given: 0, sent: 0 };
    hands_on::<Brand>(alloc, &mut writer, bytes, Blank::new(1))?;
    Ok(writer.sent)
}

/// A flush of the console gives the writer all bytes that wait, and then flushes it.
#[test]
fn flushed(rt: HostRuntime) {
    assert!(rt; sent(rt.alloc(), b"ok 1\n") == Ok(5));
}
