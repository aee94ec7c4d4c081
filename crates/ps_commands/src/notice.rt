//! Lines that report what a command does.
ghost use Rattle.std.specs.Prelude.{◌≡◌, ◌<◌, ◌++◌, [], IfErr, OnErr, OnOk, decimal};
ghost use Rattle.std.specs.Io.KnownBytes.{Appends};
ghost use Rattle.ps_grid.specs.declared.refusal.Refusal.TheVariants.{Device};
ghost use Rattle.ps_commands.specs.Commands.{notice};
ghost use Rattle.ps_commands.specs.declared.fault.ProgramFault.TheVariants.{Refused};

use crate::fault::ProgramFault;
use itoa::Buffer;
use ps_device::{Sink, hand_on, put_all};
use std::alloc::Global;
use std::fmt::Display;
use std::io::Write;

/// Writes a word with its space, a number and a line feed, and flushes the sink. Fails as `Device` if the sink fails.
pub(crate) fn tell<K: Sink>(word: &[u8], number: u64, out: &mut K) -> Result<(), ProgramFault>
    ensures printed { OnOk result (Appends (K.contents out.old) (K.contents out.new) (notice word.now number)) }
    ensures flushed { OnOk result (K.waiting out.new ≡ []) }
    ensures calm { OnOk result (K.failures out.new ≡ K.failures out.old) }
    ensures failed { OnErr result (K.failures out.old < K.failures out.new) }
    ensures refused { IfErr result (λ f. f ≡ Refused Device) }
{
    tell_between(word, number, b"\n", out)
}

/// Writes a whole line, and flushes the sink. Fails as `Device` if the sink fails.
pub(crate) fn tell_whole<K: Sink>(line: &[u8], out: &mut K) -> Result<(), ProgramFault>
    ensures printed { OnOk result (Appends (K.contents out.old) (K.contents out.new) line.now) }
    ensures flushed { OnOk result (K.waiting out.new ≡ []) }
    ensures calm { OnOk result (K.failures out.new ≡ K.failures out.old) }
    ensures failed { OnErr result (K.failures out.old < K.failures out.new) }
    ensures refused { IfErr result (λ f. f ≡ Refused Device) }
{
    put_all(out, line)?;
    hand_on(out)?;
    Ok(())
}

/// Writes a number between two texts, and flushes the sink. Fails as `Device` if the sink fails.
pub(crate) fn tell_between<K: Sink>(
    first: &[u8],
    number: u64,
    last: &[u8],
    out: &mut K,
) -> Result<(), ProgramFault>
    ensures printed { OnOk result (Appends (K.contents out.old) (K.contents out.new)
        (first.now ++ decimal number ++ last.now)) }
    ensures flushed { OnOk result (K.waiting out.new ≡ []) }
    ensures calm { OnOk result (K.failures out.new ≡ K.failures out.old) }
    ensures failed { OnErr result (K.failures out.old < K.failures out.new) }
    ensures refused { IfErr result (λ f. f ≡ Refused Device) }
{
    let mut digits = Buffer::new();
    put_all(out, first)?;
    put_all(out, digits.format(number).as_bytes())?;
    put_all(out, last)?;
    hand_on(out)?;
    Ok(())
}

/// Writes a text as a line, at once. It is lost if it can't be written, or if allocation fails.
pub(crate) fn tell_line<T: Display, W: Write>(alloc: Global, text: &T, out: &mut W) {
    if let Ok(line) = format!(in alloc; "{text}\n") {
        let _ = out.write_all(line.as_bytes());
    }
}
