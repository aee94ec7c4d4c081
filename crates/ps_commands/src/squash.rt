//! The command `squash`: reads delta lines and writes fewer change lines with the same join, or squashes a kept file in
//! its place.
ghost use Rattle.std.specs.Prelude.{◌≡◌, ◌≢◌, ◌⊎◌, ◌<◌, ◌≤◌, ℕ, List, [], Err, IfErr, IfOk, OnOk, take};
ghost use Rattle.std.specs.Io.KnownBytes.{Appends, Consumes, IsAtEnd};
ghost use Rattle.ps_grid.specs.declared.parties.TheConstants.{REPLICAS};
ghost use Rattle.ps_grid.specs.declared.refusal.Refusal.TheVariants as refusals;
ghost use Rattle.ps_squash.specs.Squashed.{FirstFault, HasWideCell, IsSquashed};
ghost use Rattle.ps_squash.specs.Selected.{HasWideCellInPart, IsSquashedInPart};
ghost use Rattle.ps_commands.specs.Commands.{selection_of};
ghost use Rattle.ps_commands.specs.declared.fault.ProgramFault.TheVariants.{DeltaRefused, Refused};

use crate::fault::ProgramFault;
use crate::kept::{KeptName, KeptTrouble, not_taken, open_file, with_reason};
use crate::notice::tell_line;
use ps_device::{Sink, Source};
use ps_eval::Meter;
use ps_grid::Refusal;
use ps_keep::{FailureReason, FileCause, Found, LineNumbers, first_line};
use ps_lines::{KeptLine, read_kept_line};
use ps_session::Resources;
use ps_shorten::{NamedFile, ShortenFault, Shortened, Shortening, Worth, shorten};
use ps_squash::{LeftOut, Selection, SquashFault, squash, squash_in_part};
use ps_wire::Decoder;
use ps_words::SquashOptions;
use std::alloc::{AllocError, Global};
use std::fmt;
use std::fs::File;
use std::io::Write;
use std::rt::{Files, HostRuntime};
use std::sync::ledger::Ledger;
use std::thread::Threads;

/// Reads delta lines to the end of the source, and writes change lines that join into the same state, with as many
/// cells in a line as it has room for.
///
/// Nothing is written before all is read. At the end the sink is flushed. If the sink failed, it got a beginning of the
/// text.
///
/// # Errors
///
/// - [`ProgramFault::DeltaRefused`], with the line's number, if a line is no delta line.
/// - `Device` if the source or the sink fails.
/// - `TooLong` if the joined state of one cell is too long for a line.
/// - `Memory` if allocation fails.
///
/// Cost: that of [`squash`].
pub fn squash_on<S: Source, K: Sink>(
    alloc: Global,
    source: &mut S,
    sink: &mut K,
) -> Result<(), ProgramFault>
    ensures squashed { OnOk result ((read : List ℕ) × (text : List ℕ)
        × Consumes (S.remaining source.old) (S.remaining source.new) read × IsAtEnd (S.remaining source.new)
        × IsSquashed read text × Appends (K.contents sink.old) (K.contents sink.new) text) }
    ensures flushed { OnOk result (K.waiting sink.new ≡ []) }
    ensures calm { OnOk result ((S.failures source.new ≡ S.failures source.old)
        × (K.failures sink.new ≡ K.failures sink.old)) }
    ensures faulty { (number : ℕ) → result ≡ Err (DeltaRefused number)
        → (read : List ℕ) × Consumes (S.remaining source.old) (S.remaining source.new) read
        × FirstFault (IsAtEnd (S.remaining source.new)) read number }
    ensures wide { result ≡ Err (Refused refusals.TooLong)
        → (read : List ℕ) × Consumes (S.remaining source.old) (S.remaining source.new) read
        × IsAtEnd (S.remaining source.new) × HasWideCell read }
    ensures device { result ≡ Err (Refused refusals.Device)
        → ((S.failures source.old < S.failures source.new) × (sink.new ≡ sink.old))
        ⊎ ((K.failures sink.old < K.failures sink.new) × (read : List ℕ) × (text : List ℕ) × (count : ℕ)
        × Consumes (S.remaining source.old) (S.remaining source.new) read × IsAtEnd (S.remaining source.new)
        × IsSquashed read text × Appends (K.contents sink.old) (K.contents sink.new) (take count text)) }
    ensures unwritten { IfErr result (λ f. f ≢ Refused refusals.Device → sink.new ≡ sink.old) }
{
    match squash(alloc, source, sink) {
        Ok(()) => Ok(()),
        Err(SquashFault::Line(number)) => Err(ProgramFault::DeltaRefused(number)),
        Err(SquashFault::TooLong) => Err(ProgramFault::Refused(Refusal::TooLong)),
        Err(SquashFault::Memory) => Err(ProgramFault::Refused(Refusal::Memory)),
        Err(SquashFault::Source) => Err(ProgramFault::Refused(Refusal::Device)),
        Err(SquashFault::Sink) => Err(ProgramFault::Refused(Refusal::Device)),
    }
}

/// Returns what the options ask for of the lines.
fn selection_of(options: SquashOptions<'_>) -> Selection
    ensures { result ≡ selection_of options.entry }
{
    let until = match options.until {
        Some(count) => Some(u64::from(count)),
        None => None,
    };
    Selection {
        until,
        without: options.without,
    }
}

/// Squashes the part of the lines that `options.until` and `options.without` select, as [`squash_on`] squashes all
/// lines, and returns what was left out.
///
/// # Errors
///
/// Those of [`squash_on`].
///
/// Cost: that of [`squash_in_part`].
pub fn squash_part_on<S: Source, K: Sink>(
    alloc: Global,
    source: &mut S,
    sink: &mut K,
    options: SquashOptions<'_>,
) -> Result<LeftOut, ProgramFault>
    ensures squashed { OnOk result ((read : List ℕ) × (text : List ℕ)
        × Consumes (S.remaining source.old) (S.remaining source.new) read × IsAtEnd (S.remaining source.new)
        × IsSquashedInPart (selection_of options.entry) read text
        × Appends (K.contents sink.old) (K.contents sink.new) text) }
    ensures flushed { OnOk result (K.waiting sink.new ≡ []) }
    ensures calm { OnOk result ((S.failures source.new ≡ S.failures source.old)
        × (K.failures sink.new ≡ K.failures sink.old)) }
    ensures faulty { (number : ℕ) → result ≡ Err (DeltaRefused number)
        → (read : List ℕ) × Consumes (S.remaining source.old) (S.remaining source.new) read
        × FirstFault (IsAtEnd (S.remaining source.new)) read number }
    ensures wide { result ≡ Err (Refused refusals.TooLong)
        → (read : List ℕ) × Consumes (S.remaining source.old) (S.remaining source.new) read
        × IsAtEnd (S.remaining source.new) × HasWideCellInPart (selection_of options.entry) read }
    ensures unwritten { IfErr result (λ f. f ≢ Refused refusals.Device → sink.new ≡ sink.old) }
{
    match squash_in_part(alloc, source, sink, selection_of(options)) {
        Ok(left_out) => Ok(left_out),
        Err(SquashFault::Line(number)) => Err(ProgramFault::DeltaRefused(number)),
        Err(SquashFault::TooLong) => Err(ProgramFault::Refused(Refusal::TooLong)),
        Err(SquashFault::Memory) => Err(ProgramFault::Refused(Refusal::Memory)),
        Err(SquashFault::Source) => Err(ProgramFault::Refused(Refusal::Device)),
        Err(SquashFault::Sink) => Err(ProgramFault::Refused(Refusal::Device)),
    }
}

/// The lines that were left out: a line for standard error, without its line feed.
#[derive(Clone, Copy, Debug)]
struct LostLines(LeftOut);

impl fmt::Display for LostLines {
    fn fmt<W: fmt::Write>(&self, f: &mut fmt::Formatter<W>) -> fmt::Result {
        let LeftOut { read, lines, .. } = self.0;
        write!(f, "squash: left out {lines} of {read} lines")
    }
}

/// The cells that lost a part: a line for standard error, without its line feed.
#[derive(Clone, Copy, Debug)]
struct LostParts(LeftOut);

impl fmt::Display for LostParts {
    fn fmt<W: fmt::Write>(&self, f: &mut fmt::Formatter<W>) -> fmt::Result {
        let LeftOut { cells, .. } = self.0;
        write!(f, "squash: left out parts of {cells} cells")
    }
}

/// Writes to `messages` how many lines `options.until` left out, and from how many cells `options.without` left out a
/// part. It writes one line for each of the two options that is given. A line is lost if it can't be written, or if
/// allocation fails.
pub fn tell_left_out<W: Write>(
    alloc: Global,
    options: SquashOptions<'_>,
    left_out: LeftOut,
    messages: &mut W,
) {
    if options.until.is_some() {
        tell_line(alloc, &LostLines(left_out), messages);
    }
    if options.without.is_some() {
        tell_line(alloc, &LostParts(left_out), messages);
    }
}

/// The report that a kept file was squashed. Its text is a line for standard error, without the line feed.
#[derive(Clone, Copy, Debug)]
pub struct SquashedFile<'a> {
    /// The path of the file, as it was given.
    pub path: &'a str,
    /// The number of changes that the file had before, and has after.
    pub changes: Shortened,
}

impl fmt::Display for SquashedFile<'_> {
    fn fmt<W: fmt::Write>(&self, f: &mut fmt::Formatter<W>) -> fmt::Result {
        let Shortened { before, after } = self.changes;
        write!(f, "squashed {}, {before} changes to {after}", self.path)
    }
}

/// The fault of a file that isn't squashed.
fn not_squashed(
    alloc: Global,
    name: KeptName<'_>,
    numbers: &LineNumbers,
    fault: ShortenFault,
) -> ProgramFault {
    let path = name.path;
    match fault {
        ShortenFault::Memory => ProgramFault::Refused(Refusal::Memory),
        ShortenFault::Device => with_reason(alloc, name, ProgramFault::Refused(Refusal::Device)),
        ShortenFault::TooLong => ProgramFault::Refused(Refusal::TooLong),
        ShortenFault::Line(number) => {
            let trouble = KeptTrouble::Line(numbers.in_file(number));
            not_taken(alloc, path, trouble)
        }
        ShortenFault::Replica(number) => not_taken(alloc, path, KeptTrouble::Replica(number)),
    }
}

/// Returns the replica that the first line of these bytes names, or 1 if it names none. Fails when out of memory.
fn replica_told(alloc: Global, bytes: &[u8]) -> Result<u8, AllocError>
    ensures { IfOk result (λ replica. (1 ≤ replica) × (replica ≤ REPLICAS)) }
{
    let Some((line, _)) = first_line(bytes) else {
        return Ok(1);
    };
    let mut decoder = Decoder::new(alloc);
    match read_kept_line(alloc, &mut decoder, line) {
        Ok(Some(KeptLine::Replica(replica))) => Ok(replica),
        Err(Refusal::Memory) => Err(AllocError),
        // (a start of any replica refuses it)
        Ok(Some(KeptLine::Push(_)) | None) | Err(_) => Ok(1),
    }
}

/// Squashes a kept file in its place, as [`shorten`] does, and writes its number of changes before and after to
/// `messages`.
///
/// # Errors
///
/// - [`ProgramFault::KeptFailed`] if the file's content is refused. A line isn't allowed where it stands
///   ([`KeptTrouble::Line`]), a line ends in a carriage return, or a digest line doesn't match the lines before it.
/// - [`ProgramFault::KeptFailed`] also if another program has the file, there is no such file, it is no regular file,
///   or the system can't read or replace it and gives the reason.
/// - `Device` if the file can't be replaced, without a reason of the system.
/// - `TooLong` if the joined state of one cell is too long for a line.
/// - `Memory` if allocation fails.
///
/// Cost: that of [`shorten`].
pub fn squash_kept<R: Files<File = File> + Threads + Sync, L: Ledger, W: Write>(
    system: HostRuntime,
    resources: Resources<'_, R>,
    path: &str,
    meter: &mut Meter<L>,
    messages: &mut W,
) -> Result<(), ProgramFault> {
    let Resources { threads, alloc } = resources;
    // (opened, it would be made)
    match threads.metadata(path) {
        Ok(_) => {}
        Err(error) => {
            let trouble = KeptTrouble::Unusable(FileCause::of(&error));
            return Err(not_taken(alloc, path, trouble));
        }
    }
    let reason = FailureReason::new(alloc)?;
    let name = KeptName {
        system,
        path,
        reason: &reason,
    };
    let (found, numbers) = match open_file(alloc, name) {
        Ok(opened) => opened,
        Err(fault) => return Err(fault),
    };
    let replica = replica_told(alloc, found.bytes())?;
    let mut file = NamedFile::new(threads, alloc, path, found, reason.share()?);
    let asked = Shortening {
        replica,
        worth: Worth::Less,
    };
    match shorten(threads, alloc, &mut file, asked, meter) {
        Ok(changes) => {
            tell_line(alloc, &SquashedFile { path, changes }, messages);
            Ok(())
        }
        Err(fault) => Err(not_squashed(alloc, name, &numbers, fault)),
    }
}

/// Squashes the kept file of this name where that makes it at most half as long. Where it can't be squashed it stays:
/// the start that follows says why it isn't taken, if it isn't.
///
/// Cost: that of [`shorten`].
pub(crate) fn squash_first<R: Files<File = File> + Threads + Sync, L: Ledger>(
    resources: Resources<'_, R>,
    name: KeptName<'_>,
    replica: u8,
    meter: &mut Meter<L>,
)
    requires { (1 ≤ replica) × (replica ≤ REPLICAS) }
{
    let Resources { threads, alloc } = resources;
    // (why it can't be squashed is nobody's matter)
    let Ok(reason) = FailureReason::new(alloc) else {
        return;
    };
    let Ok(own) = reason.share() else {
        return;
    };
    let quiet = KeptName {
        system: name.system,
        path: name.path,
        reason: &reason,
    };
    if let Ok((found, _)) = open_file(alloc, quiet) {
        let mut file = NamedFile::new(threads, alloc, name.path, found, own);
        let asked = Shortening {
            replica,
            worth: Worth::Half,
        };
        let _ = shorten(threads, alloc, &mut file, asked, meter);
    }
}
