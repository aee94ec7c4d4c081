//! Replaces a kept file by a shorter one that says the same.
ghost use Rattle.std.specs.Prelude.{◌≡◌, ◌⊎◌, ◌-◌, ◌≤◌, List, IfErr, IfOk, length};
ghost use Rattle.std.specs.List.{All};
ghost use Rattle.ps_grid.specs.Blanks.{IsBlankOf};
ghost use Rattle.ps_grid.specs.declared.parties.TheConstants.{REPLICAS, WORKERS};
ghost use Rattle.ps_delta.specs.Deltas.{Entries};
ghost use Rattle.ps_lines.specs.Feeding.{without_return};
ghost use Rattle.ps_keep.specs.Lines.{text as text_of, whole_lines};
ghost use Rattle.ps_kept.specs.Starts.{Reads};
ghost use Rattle.ps_squash.specs.Squashed.{IsSquashed};
ghost use Rattle.ps_shorten.specs.Shortened.{HasChanges, IsShortened, TellsTheSame, is_worth};
ghost use Rattle.ps_shorten.specs.declared.fault.ShortenFault.TheVariants.{Device};

use crate::fault::ShortenFault;
use crate::named::Replace;
use ps_device::{MemorySink, Reading};
use ps_eval::Meter;
use ps_keep::{MemoryFile, first_line, reading_twice};
use ps_kept::{KeepFault, open_kept, squashed_files_read_the_same};
use ps_squash::{SquashFault, squash};
use std::alloc::Global;
use std::marker::Brand;
use std::sync::ledger::{Blank, Ledger};
use std::thread::Threads;

/// How much shorter a file must get for [`shorten`] to replace it.
#[derive(Clone, Copy, Debug, PartialEq, Eq)]
pub enum Worth {
    /// The new file has fewer bytes than the old one.
    Less,
    /// The new file has at most half the bytes of the old one.
    Half,
}

/// Returns whether a file of `old` bytes is replaced by one of `new` bytes.
fn is_worth(worth: Worth, old: usize, new: usize) -> bool
    ensures { result ≡ is_worth worth old new }
{
    match worth {
        Worth::Less => new < old,
        Worth::Half => new <= old / 2,
    }
}

/// A request to shorten a kept file.
#[derive(Clone, Copy, PartialEq, Eq)]
pub struct Shortening {
    /// The replica that the file belongs to, 1 to `REPLICAS`.
    pub replica: u8,
    /// How much shorter the file must get to be replaced.
    pub worth: Worth,
    ghost replica_in_range: { (1 ≤ replica) × (replica ≤ REPLICAS) },
}

/// How many changes a start read from a file before [`shorten`], and reads after it. Both numbers are equal if the file
/// wasn't replaced.
#[derive(Clone, Copy, Debug, PartialEq, Eq)]
pub struct Shortened {
    /// The number of changes before.
    pub before: u64,
    /// The number of changes after.
    pub after: u64,
}

/// Returns how many changes a start of this replica reads from these bytes. Fails if a start refuses them.
fn count_read<R: Threads + Sync, L: Ledger>(
    rt: &R,
    alloc: Global,
    bytes: &[u8],
    replica: u8,
    meter: &mut Meter<L>,
) -> Result<u64, ShortenFault>
    requires replica { (1 ≤ replica) × (replica ≤ REPLICAS) }
    ensures { IfOk result (HasChanges replica bytes.now) }
{
    let mut copy = Vec::new(alloc);
    copy.extend_from_slice(bytes)?;
    let found = MemoryFile {
        bytes: copy,
        calls: u64::MAX,
    };
    let fault = match open_kept(rt, alloc, found, replica, 1, meter) {
        Ok((sheet, keeper)) => {
            drop(keeper);
            return Ok(sheet.version());
        }
        Err((fault, back)) => {
            drop(back);
            fault
        }
    };
    match fault {
        KeepFault::Memory => Err(ShortenFault::Memory),
        // (a file in memory fails only when out of memory)
        KeepFault::Device => Err(ShortenFault::Memory),
        KeepFault::Line(number) => Err(ShortenFault::Line(number)),
        KeepFault::Replica(number) => Err(ShortenFault::Replica(number)),
    }
}

/// Returns the whole lines of these bytes, without a piece after the last line feed. Fails at a line that ends in a
/// carriage return: no law says that a start reads such a line as the line without it.
fn plain_lines(alloc: Global, bytes: &[u8]) -> Result<Vec<u8>, ShortenFault>
    ensures lines { IfOk result (λ plain. plain.items ≡ text_of (whole_lines bytes.now)) }
    ensures no_return { IfOk result (λ _. All (λ line. without_return line ≡ line) (whole_lines bytes.now)) }
{
    let mut plain = Vec::new(alloc);
    let mut left = bytes;
    let mut number = 1u64;
    'lines: while let Some((line, rest)) = first_line(left) {
        if line.ends_with(b"\r") {
            return Err(ShortenFault::Line(number));
        }
        plain.extend_from_slice(line)?;
        plain.extend_from_slice(b"\n")?;
        left = rest;
        number = number.saturating_add(1);
    }
    Ok(plain)
}

/// Returns what `squash` makes of these lines.
fn squashed(alloc: Global, lines: &[u8]) -> Result<Vec<u8>, ShortenFault>
    ensures { IfOk result (λ made. IsSquashed lines.now made.items) }
{
    squashed_counted::<Brand, Brand>(alloc, lines, Blank::new(1), Blank::new(1))
}

/// Returns what `squash` makes of these lines. The source and the sink between count their failures, in ghost ledgers
/// over `input` and `output`.
fn squashed_counted<I: Ledger, O: Ledger>(
    alloc: Global,
    lines: &[u8],
    input: Blank,
    output: Blank,
) -> Result<Vec<u8>, ShortenFault>
    requires input { IsBlankOf input I.name I.parts }
    requires output { IsBlankOf output O.name O.parts }
    ensures { IfOk result (λ made. IsSquashed lines.now made.items) }
{
    let mut source = Reading::<&[u8], I>::new(lines, input);
    let mut sink = MemorySink::<O>::new(alloc, output);
    match squash(alloc, &mut source, &mut sink) {
        Ok(()) => {}
        Err(SquashFault::Line(number)) => return Err(ShortenFault::Line(number)),
        Err(SquashFault::TooLong) => return Err(ShortenFault::TooLong),
        // (reading from memory never fails, and a sink over memory fails only when out of memory)
        Err(SquashFault::Memory | SquashFault::Source | SquashFault::Sink) => {
            return Err(ShortenFault::Memory);
        }
    }
    let MemorySink { bytes, failed } = sink;
    drop(failed);
    Ok(bytes)
}

/// Returns how many changes these bytes have: the number of whole lines after the first.
fn count_changes(bytes: &[u8]) -> u64
    ensures { result ≡ length (whole_lines bytes.now) - 1 }
{
    let mut left = bytes;
    let mut count = 0u64;
    'lines: while let Some((_, rest)) = first_line(left) {
        left = rest;
        count += 1;
    }
    count.saturating_sub(1)
}

/// Returns how many changes a start reads from a kept file, and what `squash` makes of its whole lines.
fn read_and_squash<R: Threads + Sync, L: Ledger>(
    rt: &R,
    alloc: Global,
    bytes: &[u8],
    replica: u8,
    meter: &mut Meter<L>,
) -> Result<(u64, Vec<u8>), ShortenFault>
    requires replica { (1 ≤ replica) × (replica ≤ REPLICAS) }
    ensures read { IfOk result (λ made. HasChanges replica bytes.now made.0) }
    ensures squashed { IfOk result (λ made. IsSquashed (text_of (whole_lines bytes.now)) made.1.items) }
    ensures no_return { IfOk result (λ _. All (λ line. without_return line ≡ line) (whole_lines bytes.now)) }
{
    let before = match count_read(rt, alloc, bytes, replica, meter) {
        Ok(before) => before,
        Err(fault) => return Err(fault),
    };
    let lines = match plain_lines(alloc, bytes) {
        Ok(lines) => lines,
        Err(fault) => return Err(fault),
    };
    match squashed(alloc, &lines) {
        Ok(text) => Ok((before, text)),
        Err(fault) => Err(fault),
    }
}

/// Replaces a kept file by what `squash` makes of its whole lines, if the file gets as short as `asked.worth` demands.
/// Returns how many changes the file had before and has after. The history that a start of the program then reads joins
/// to the same state as before. `meter` counts evaluations, for contracts.
///
/// # Errors
///
/// - `Line`: a start refuses the line of this number, or the line ends in a carriage return.
/// - `Replica`: the file belongs to the replica of this number, not to `asked.replica`.
/// - `TooLong`: the joined state of one cell is too long for a line.
/// - `Memory`: out of memory.
/// - `Device`: replacing the file failed. The file is as it was, or it has been replaced and its name may not be
///   durable yet.
///
/// After every other error the file is as it was.
///
/// Cost: that of a start, and of [`squash`]. It takes memory for three times the file's bytes.
pub fn shorten<R: Threads + Sync, P: Replace, L: Ledger>(
    rt: &R,
    alloc: Global,
    file: &mut P,
    asked: Shortening,
    meter: &mut Meter<L>,
) -> Result<Shortened, ShortenFault>
    ensures shortened { IfOk result (λ changes. IsShortened asked.worth asked.replica
        (P.content file.old) (P.content file.new) changes) }
    ensures same { IfErr result (λ fault. (P.content file.new ≡ P.content file.old)
        ⊎ ((fault ≡ Device) × TellsTheSame asked.replica (P.content file.old) (P.content file.new))) }
{
    // for the laws that whole lines read as such again, and that the squashed lines say the same
    reading_twice();
    squashed_files_read_the_same();
    let bytes = file.bytes();
    let old = bytes.len();
    let (before, text) = match read_and_squash(rt, alloc, bytes, asked.replica, meter) {
        Ok(made) => made,
        Err(fault) => return Err(fault),
    };
    if !is_worth(asked.worth, old, text.len()) {
        return Ok(Shortened {
            before,
            after: before,
        });
    }
    let after = count_changes(&text);
    match file.replace(text) {
        Ok(()) => Ok(Shortened { before, after }),
        Err(_) => Err(ShortenFault::Device),
    }
}
