//! A file with digest lines, which its callers read and write as a file without them.
ghost use Rattle.md5.specs.Md5.{Holds};
ghost use Rattle.std.specs.Prelude.{◌≡◌, ◌++◌, ◌-◌, ◌≤◌, ℕ, List, IfOk, IfErr, drop, length, nat_lt, slice_get, take};
ghost use Rattle.std.specs.List.{count_by};
ghost use Rattle.ps_keep.specs.Digests.{AreNumbered, HaveNoDigests, IsClean, ReadsAfterCrashes, ReadsAs};
ghost use Rattle.ps_keep.specs.Digests.{WrongAfterTears, others};
ghost use Rattle.ps_keep.specs.Digested.{IsCovered, IsFault, IsRead};
ghost use Rattle.ps_keep.specs.Lines.{whole_lines};

use crate::device::{Device, Found};
use crate::digest::{is_digest_line, next_digest_line};
use crate::journal::append_line;
use crate::opening::{count_whole, first_line};
use crate::trace::Trace;
use md5::{Digest, Md5};
use ps_device::Failed;
use std::alloc::{AllocError, Global};
use std::marker::Model;

/// Why [`DigestedFile::read`] failed.
#[derive(Clone, Copy, Debug, PartialEq, Eq)]
pub enum DigestFault {
    /// Out of memory.
    Memory,
    /// A digest line is wrong: it isn't the digest of the bytes before it.
    Line(Damage),
}

/// Where a file with a wrong digest line is damaged. Both numbers are those of lines among all lines of the file,
/// counted from 1.
#[derive(Clone, Copy, Debug, PartialEq, Eq)]
pub struct Damage {
    /// The number of the first wrong digest line.
    pub wrong: u64,
    /// The number of the last digest line before that one; it is right, as are all before it. 0 if there is none.
    pub intact: u64,
}

impl From<AllocError> for DigestFault {
    ghost use Rattle.std.specs.Prelude.{◌≡◌};
    ghost use Rattle.ps_keep.specs.declared.digested.DigestFault.TheVariants as faults;

    ghost from_gives = { λ _ f. f ≡ faults.Memory };

    fn from(_: AllocError) -> DigestFault {
        DigestFault::Memory
    }
}

/// The lines of a file that aren't digest lines, and what is known of the others.
#[derive(Drop)]
struct CleanLines {
    clean: Vec<u8>,
    /// how many bytes the file's whole lines have
    whole: usize,
    /// a hasher of the whole lines from the last digest line on
    hasher: Md5,
    numbers: LineNumbers,
}

/// The positions of digest lines in a file, by which [`LineNumbers::in_file`] converts line numbers.
#[derive(Drop)]
pub struct LineNumbers {
    /// for each digest line, how many other lines stand before it
    before: Vec<u64>,
}

/// Returns how many of these numbers are below that one.
fn count_below(numbers: &[u64], number: u64) -> usize
    ensures { result ≡ count_by (λ n. nat_lt n number) numbers.now }
{
    numbers.iter().filter(|n| **n < number).count()
}

impl Model for LineNumbers {
    ghost use Rattle.std.specs.Prelude.{ℕ, List};

    ghost Value = { List ℕ };

    ghost view = { λ n. n.before.items };
}

impl LineNumbers {
    /// Converts a line number of the file without its digest lines into a line number of the whole file, and returns
    /// it. Both numbers count from 1. If `number` is past the last line, the file is taken to go on with lines that
    /// aren't digest lines.
    ///
    /// Cost: linear in the number of digest lines.
    pub fn in_file(&self, number: u64) -> u64
        ensures { (lines : List (List ℕ)) → AreNumbered lines self.now → 1 ≤ number → number ≤ length (others lines)
            → slice_get lines (result - 1) ≡ slice_get (others lines) (number - 1) }
    {
        let passed = count_below(self.before.as_slice(), number);
        number.saturating_add(passed as u64)
    }
}

/// Has a hasher take in the bytes from this place on.
fn hash_from(hasher: &mut Md5, bytes: &[u8], start: usize)
    requires within { start ≤ length bytes.now }
    ensures hashed { (held : List ℕ) → Holds hasher.old held → Holds hasher.new (held ++ drop start bytes.now) }
{
    hasher.update(&bytes[start..]);
}

/// Checks the digest lines of these bytes, and copies the others.
fn read_lines(alloc: Global, bytes: &[u8]) -> Result<CleanLines, DigestFault>
    ensures read { IfOk result (λ r. IsRead bytes.now r.clean.items r.whole r.hasher) }
    ensures numbers { IfOk result (λ r. AreNumbered (whole_lines bytes.now) r.numbers) }
    ensures fault { IfErr result (IsFault (whole_lines bytes.now)) }
{
    let mut clean = Vec::with_capacity(alloc, bytes.len())?;
    let mut before = Vec::new(alloc);
    let mut hasher = Md5::new();
    let mut hashed = 0;
    let mut rest = bytes;
    let mut number = 0;
    let mut intact = 0;
    let mut others = 0;
    'lines: while let Some((line, after)) = first_line(rest) {
        number += 1;
        if is_digest_line(line) {
            hash_from(&mut hasher, clean.as_slice(), hashed);
            hashed = clean.len();
            let expected = next_digest_line(&mut hasher);
            if line != &expected[..expected.len() - 1] {
                return Err(DigestFault::Line(Damage {
                    wrong: number,
                    intact,
                }));
            }
            intact = number;
            before.reserve(1)?;
            before.push_reserved(others);
        } else {
            append_line(&mut clean, line)?;
            others += 1;
        }
        rest = after;
    }
    hash_from(&mut hasher, clean.as_slice(), hashed);
    let whole = count_whole(bytes);
    if whole == 0 {
        clean.extend_from_slice(bytes)?;
    }
    Ok(CleanLines {
        clean,
        whole,
        hasher,
        numbers: LineNumbers { before },
    })
}

/// A found file with digest lines, which shows only the bytes of its other lines.
///
/// A contract sees a `DigestedFile` as a `FoundView`: the bytes of the file, and the bytes that it shows.
#[derive(Drop)]
pub struct DigestedFile<F: Found + Drop> {
    found: F,
    clean: Vec<u8>,
    /// how many bytes the file's whole lines have
    whole: usize,
    /// a hasher of the whole lines from the last digest line on
    hasher: Md5,
}

impl<F: Found + Drop> Model for DigestedFile<F> {
    ghost use Rattle.ps_keep.specs.Digested.{FoundView, IsRead};

    ghost Value = { FoundView };

    ghost view = { λ f. record { raw = F.bytes f.found; clean = f.clean.items } };

    ghost invariant = { λ f. IsRead (F.bytes f.found) f.clean.items f.whole f.hasher };
}

impl<F: Found + Drop> DigestedFile<F> {
    /// Checks the digest lines of `found`, and returns the file with a copy of its other lines, and a converter of line
    /// numbers. Bytes after the last line feed aren't copied, unless the file has no line feed at all.
    ///
    /// The call doesn't change the file.
    ///
    /// # Errors
    ///
    /// - `Line`: a digest line isn't the digest of the bytes before it. The fault has the number of the first such
    ///   line, and that of the digest line before it.
    /// - `Memory`: out of memory.
    ///
    /// Both errors come with `found`, unchanged.
    ///
    /// Cost: linear in the file, and its memory once more.
    pub fn read(alloc: Global, found: F) -> Result<(DigestedFile<F>, LineNumbers), (DigestFault, F)>
        ensures raw { IfOk result (λ r. r.0.raw ≡ F.bytes found) }
        ensures clean { IfOk result (λ r. IsClean (F.bytes found) r.0.clean) }
        ensures numbers { IfOk result (λ r. AreNumbered (whole_lines (F.bytes found)) r.1) }
        ensures fault { IfErr result (λ e. IsFault (whole_lines (F.bytes found)) e.0) }
        ensures same { IfErr result (λ e. e.1 ≡ found) }
    {
        match read_lines(alloc, found.bytes()) {
            Ok(read) => {
                let CleanLines {
                    clean,
                    whole,
                    hasher,
                    numbers,
                } = read;
                let file = DigestedFile {
                    found,
                    clean,
                    whole,
                    hasher,
                };
                Ok((file, numbers))
            }
            Err(fault) => Err((fault, found)),
        }
    }
}

impl<F: Found + Drop> Found for DigestedFile<F> {
    type Device = DigestedDevice<F::Device>;

    ghost bytes = { λ f. f.clean };

    fn bytes(&self) -> &[u8] {
        self.clean.as_slice()
    }

    /// Cuts the file after its last whole line. Fails if `count` isn't the number of bytes of all whole lines that this
    /// file shows, or if the inner file fails. ([`open`](crate::open) passes no other count.)
    fn keep(self, count: usize) -> Result<DigestedDevice<F::Device>, Failed> {
        let DigestedFile {
            found,
            clean,
            whole,
            hasher,
        } = self;
        if count != count_whole(clean.as_slice()) {
            return Err(Failed);
        }
        let inner = found.keep(whole)?;
        let mut trace = Trace::new();
        trace.note(&[], &clean[..count]);
        trace.note(&[1], &[]);
        let mut opened = Trace::new();
        opened.note(&[], &clean[..count]);
        Ok(DigestedDevice {
            inner,
            hasher,
            trace,
            opened,
        })
    }
}

/// A device that adds a digest line to its file after each write that ends a line. A contract sees a `DigestedDevice`
/// as a `DeviceView`.
///
/// As a [`Device`] its written bytes are those that the caller wrote, without the digest lines. After a failed call the
/// file may lack the last of these bytes.
#[derive(Drop)]
pub struct DigestedDevice<D: Device + Drop> {
    inner: D,
    /// a hasher of all bytes from the last digest line on
    hasher: Md5,
    /// what the caller wrote
    trace: Trace,
    /// the first of it, that the file had at the start
    opened: Trace,
}

impl<D: Device + Drop> Model for DigestedDevice<D> {
    ghost use Rattle.ps_keep.specs.Digested.{DeviceView, IsCovered, IsDigested};

    ghost Value = { DeviceView };

    ghost view = { λ d. record {
      raw = D.written d.inner;
      on_disk = D.synced d.inner;
      written = d.trace.given.written;
      synced = d.trace.given.synced;
      opened = d.opened.given.written;
      has_failed = D.has_failed d.inner;
      is_cut = D.is_cut d.inner;
      cut_failed = D.cut_failed d.inner;
    } };

    ghost invariant = { λ d. IsDigested (D.written d.inner) (D.synced d.inner) d.trace.given.written
        d.trace.given.synced (D.has_failed d.inner) d.hasher
        × IsCovered d.opened.given.written (D.written d.inner) d.trace.given.written (D.has_failed d.inner) };
}

impl<D: Device + Drop> Device for DigestedDevice<D> {
    ghost written = { λ d. d.written };

    ghost synced = { λ d. d.synced };

    ghost has_failed = { λ d. d.has_failed };

    ghost is_cut = { λ d. d.is_cut };

    ghost cut_failed = { λ d. d.cut_failed };

    fn append(&mut self, bytes: &[u8]) -> Result<(), Failed> {
        self.trace.note(&[], bytes);
        self.inner.append(bytes)?;
        self.hasher.update(bytes);
        if bytes.ends_with(b"\n") {
            let line = next_digest_line(&mut self.hasher);
            self.inner.append(&line)?;
        }
        Ok(())
    }

    fn sync(&mut self) -> Result<(), Failed> {
        self.inner.sync()?;
        self.trace.note(&[1], &[]);
        Ok(())
    }

    fn cut(&mut self) -> Result<(), Failed> {
        self.inner.cut()
    }
}

/// Shows what a start finds in a file that was written with digest lines. All this holds only if the caller's own lines
/// don't have the form of digest lines.
///
/// - After a crash the digest lines that are left are right, and a start reads what a crash could leave of the bytes
///   that the caller wrote.
/// - After a cut a start reads the synced bytes.
/// - If the caller has written something that ends a line, and no call has failed, the file ends in a digest line.
/// - If a crash has torn the end of the file, so that any bytes stand after the synced ones, a wrong digest line can
///   only stand after all synced lines.
pub fn digested_files_survive<D: Device + Drop>(device: &DigestedDevice<D>)
    ensures crashes { HaveNoDigests (whole_lines device.now.written)
        → ReadsAfterCrashes device.now.raw device.now.on_disk device.now.written device.now.synced }
    ensures cut { HaveNoDigests (whole_lines device.now.written)
        → ReadsAs (take device.now.on_disk device.now.raw) (take device.now.synced device.now.written) }
    ensures covered { IsCovered device.now.opened device.now.raw device.now.written device.now.has_failed }
    ensures tears { HaveNoDigests (whole_lines device.now.written) → WrongAfterTears device.now.raw device.now.on_disk }
{
    // for the fact that its invariant holds
    let _ = &device.inner;
}
