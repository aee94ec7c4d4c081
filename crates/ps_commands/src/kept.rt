//! Opens the kept file of a sheet, and says why such a file is refused, or why it failed later.
ghost use Rattle.std.specs.Prelude.{◌≡◌, ◌⊎◌, ℕ, List, IfErr, IfOk};
ghost use Rattle.ps_kept.specs.Starts.{Reads};
ghost use Rattle.ps_keep.specs.Digests.{IsClean};
ghost use Rattle.ps_commands.specs.Kept.{IsFileRefusal, IsInFile, IsKeptSheet, IsMoved, IsUnusable, ReadsFile};
ghost use Rattle.ps_commands.specs.Kept.{RefusesFile};
ghost use Rattle.ps_commands.specs.Kept.{TellsDamage, TellsDamageOf, TellsLoss, TellsTrouble};
ghost use Rattle.ps_commands.specs.Status.{kept_status};
ghost use Rattle.ps_commands.specs.declared.fault.ProgramFault.TheVariants.{Refused};

use crate::fault::ProgramFault;
use crate::squash::squash_first;
use ps_eval::Meter;
use ps_grid::Refusal;
use ps_keep::{
    Damage, DigestFault, DigestedDevice, DigestedFile, FailureReason, FileCause, FileFault, Found,
    FoundFile, KeptFile, LineNumbers,
};
use ps_kept::{KeepFault, SheetKeeper, open_kept};
use ps_session::Resources;
use ps_sheet::Sheet;
use ps_words::SheetOptions;
use std::alloc::{AllocError, Global};
use std::fmt;
use std::fs::File;
use std::rt::{Files, HostRuntime};
use std::sync::ledger::Ledger;
use std::thread::Threads;

/// The path of a kept file, with the reason of its first failed call, which the fault names.
#[derive(Clone, Copy)]
pub struct KeptName<'a> {
    /// The system that the file is on.
    pub system: HostRuntime,
    /// The path of the file, as it was given.
    pub path: &'a str,
    /// Why the first failed call on the file failed; empty as long as no call has failed.
    pub reason: &'a FailureReason,
}

/// Why a kept file is refused at the start, or failed later.
#[derive(Clone, Copy, Debug, PartialEq, Eq)]
pub enum KeptTrouble {
    /// The line with this number, counted from 1, isn't allowed where it stands. Line 1 has to name the replica, and
    /// each later line has to push a delta that adds something new.
    Line(u64),
    /// A digest line doesn't match the lines before it.
    Damaged(Damage),
    /// The file has the sheet of another replica, which has this number.
    Replica(u8),
    /// Another program holds the file's lock.
    Busy,
    /// The file can't be opened, read or written, for this cause.
    Unusable(FileCause),
    /// The file failed after it was opened: it couldn't be written, or was removed, moved, replaced or cut. The cause
    /// is `None` if memory for a line of the file was lacking.
    Lost(Option<FileCause>),
}

/// A kept file that is refused at the start or failed later, and why. Its text is two lines, without the last line
/// feed: `err` with a refusal's number and name, then what is wrong with the file.
#[derive(Debug, Drop)]
pub struct FileNotTaken {
    /// The path of the file, as it was given.
    pub path: String,
    /// What is wrong with the file.
    pub trouble: KeptTrouble,
}

impl FileNotTaken {
    /// Returns the program's exit status for this fault: 1 if another program has the file, if it can't be used, or if
    /// it failed later. If the file's content is refused, it is 3.
    pub fn status(&self) -> u8
        ensures { result ≡ kept_status self.now.trouble }
    {
        match self.trouble {
            KeptTrouble::Busy | KeptTrouble::Unusable(_) | KeptTrouble::Lost(_) => 1,
            KeptTrouble::Line(_) | KeptTrouble::Damaged(_) | KeptTrouble::Replica(_) => 3,
        }
    }
}

impl fmt::Display for FileNotTaken {
    fn fmt<W: fmt::Write>(&self, f: &mut fmt::Formatter<W>) -> fmt::Result {
        let path = self.path.as_str();
        match self.trouble {
            KeptTrouble::Line(1) => {
                let refusal = Refusal::Delta;
                write!(f, "{refusal}\nline 1 of {path}: it is no kept sheet")
            }
            KeptTrouble::Line(number) => {
                let refusal = Refusal::Delta;
                write!(f, "{refusal}\nline {number} of {path}")
            }
            KeptTrouble::Damaged(Damage { wrong, intact }) => {
                let refusal = Refusal::Delta;
                write!(
                    f,
                    "{refusal}\nline {wrong} of {path}: it is not the digest of the lines before it"
                )?;
                match intact {
                    0 => write!(f, ". No line is known to be whole"),
                    intact => write!(f, ". Lines 1 to {intact} are whole"),
                }?;
                f.write_str(": see docs/USING.md, \"A damaged file\"")
            }
            KeptTrouble::Replica(number) => {
                let refusal = Refusal::Replica;
                write!(f, "{refusal}\n{path} is of replica {number}")
            }
            KeptTrouble::Busy => {
                let refusal = Refusal::Device;
                write!(f, "{refusal}\n{path} is kept by another program")
            }
            KeptTrouble::Unusable(cause) => {
                let refusal = Refusal::Device;
                write!(f, "{refusal}\n{path}: {cause}")
            }
            KeptTrouble::Lost(Some(cause)) => {
                let refusal = Refusal::Device;
                write!(f, "{refusal}\n{path} isn't kept any more: {cause}")
            }
            KeptTrouble::Lost(None) => {
                let refusal = Refusal::Device;
                write!(
                    f,
                    "{refusal}\n{path} isn't kept any more: there is no memory for its lines"
                )
            }
        }
    }
}

/// Returns the fault that names a file and its trouble, or `Refused(Memory)` when out of memory.
pub(crate) fn not_taken(alloc: Global, path: &str, trouble: KeptTrouble) -> ProgramFault
    ensures { TellsTrouble trouble result }
{
    match path.to_string(alloc) {
        Ok(path) => ProgramFault::KeptFailed(FileNotTaken { path, trouble }),
        Err(AllocError) => ProgramFault::Refused(Refusal::Memory),
    }
}

/// Returns the fault for a kept file that failed after it was opened: [`ProgramFault::KeptFailed`] with the path and
/// the cause that `name` has.
///
/// If allocation of the path fails, it returns `Refused(Device)`, which names no file.
///
/// Cost: linear in the length of the path.
pub fn lost_file(alloc: Global, name: KeptName<'_>) -> ProgramFault
    ensures { TellsLoss result }
{
    let trouble = KeptTrouble::Lost(name.reason.cause());
    match name.path.to_string(alloc) {
        Ok(path) => ProgramFault::KeptFailed(FileNotTaken { path, trouble }),
        Err(AllocError) => ProgramFault::Refused(Refusal::Device),
    }
}

/// Returns `fault`, but replaces `Refused(Device)` by the fault that names the file and the reason, if `name` has one.
pub(crate) fn with_reason(alloc: Global, name: KeptName<'_>, fault: ProgramFault) -> ProgramFault
    ensures { (result ≡ fault) ⊎ IsUnusable result }
{
    match (name.reason.cause(), fault) {
        (Some(cause), ProgramFault::Refused(Refusal::Device)) => {
            not_taken(alloc, name.path, KeptTrouble::Unusable(cause))
        }
        (_, fault) => fault,
    }
}

/// A kept file as it was found: its lines without the digest lines, and their numbers in the file.
pub(crate) type OpenFile = (DigestedFile<FoundFile>, LineNumbers);

/// Opens or creates the file of `name`, reads it, and checks its digest lines.
///
/// # Errors
///
/// - [`ProgramFault::KeptFailed`] if another program has the file, or a digest line doesn't match the lines before it.
/// - [`ProgramFault::KeptFailed`], too, if it is no regular file, or can't be opened for reading and writing.
/// - `Memory`.
///
/// Cost: linear in the file, and twice its memory.
pub(crate) fn open_file(alloc: Global, name: KeptName<'_>) -> Result<OpenFile, ProgramFault>
    ensures clean { IfOk result (λ f. IsClean f.0.raw f.0.clean) }
    ensures refused { IfErr result (λ f. IsUnusable f ⊎ TellsTrouble KeptTrouble.Busy f ⊎ TellsDamage f) }
{
    let path = name.path;
    let reason = name.reason.share()?;
    let found = match FoundFile::open(name.system, alloc, path, reason) {
        Ok(found) => found,
        Err(FileFault::Memory) => return Err(ProgramFault::Refused(Refusal::Memory)),
        Err(FileFault::Device(cause)) => {
            return Err(not_taken(alloc, path, KeptTrouble::Unusable(cause)));
        }
        Err(FileFault::Busy) => return Err(not_taken(alloc, path, KeptTrouble::Busy)),
    };
    read_digested(alloc, path, found)
}

/// Checks the digest lines of a found file.
fn read_digested<F: Found + Drop>(
    alloc: Global,
    path: &str,
    found: F,
) -> Result<(DigestedFile<F>, LineNumbers), ProgramFault>
    ensures clean { IfOk result (λ f. IsClean f.0.raw f.0.clean) }
    ensures refused { IfErr result (λ f. IsUnusable f ⊎ TellsDamageOf (F.bytes found) f) }
{
    let fault = match DigestedFile::read(alloc, found) {
        Ok(read) => return Ok(read),
        Err((fault, back)) => {
            drop(back);
            fault
        }
    };
    match fault {
        DigestFault::Memory => Err(ProgramFault::Refused(Refusal::Memory)),
        DigestFault::Line(damage) => Err(not_taken(alloc, path, KeptTrouble::Damaged(damage))),
    }
}

/// The same trouble, with the number of the line in the file.
fn moved(numbers: &LineNumbers, kept: FileNotTaken) -> FileNotTaken
    ensures { IsMoved kept result }
{
    let FileNotTaken { path, trouble } = kept;
    let trouble = match trouble {
        KeptTrouble::Line(number) => KeptTrouble::Line(numbers.in_file(number)),
        other => other,
    };
    FileNotTaken { path, trouble }
}

/// The fault of a file's lines, with the number of the line in the file.
fn in_file(numbers: &LineNumbers, fault: ProgramFault) -> ProgramFault
    ensures { IsInFile fault result }
{
    match fault {
        ProgramFault::KeptFailed(kept) => ProgramFault::KeptFailed(moved(numbers, kept)),
        fault => fault,
    }
}

/// Reads a sheet from its file `found`, as [`open_kept`] does, and returns it with the keeper that logs its changes in
/// the file.
///
/// The sheet has the replica and the workers of `options`. A fault names the file by `path`.
///
/// # Errors
///
/// - [`ProgramFault::KeptFailed`] if a line isn't allowed where it stands ([`KeptTrouble::Line`]), or if the file is
///   another replica's. Then the file stays as it was.
/// - `Device` if the device fails.
/// - `Memory` if allocation fails.
///
/// Cost: that of [`open_kept`].
pub fn keep_sheet<R: Threads + Sync, F: Found + Drop, L: Ledger>(
    resources: Resources<'_, R>,
    found: F,
    path: &str,
    options: SheetOptions,
    meter: &mut Meter<L>,
) -> Result<(Sheet, SheetKeeper<F::Device>), ProgramFault>
    ensures read { IfOk result (λ r. Reads options.replica (F.bytes found) r.0.history) }
    ensures kept { IfOk result (λ r. IsKeptSheet options.replica options.workers r.0 r.1) }
    ensures refused { IfErr result (IsFileRefusal options.replica (F.bytes found)) }
{
    let Resources { threads, alloc } = resources;
    let workers = usize::from(options.workers);
    let fault = match open_kept(threads, alloc, found, options.replica, workers, meter) {
        Ok(kept) => return Ok(kept),
        Err((fault, back)) => {
            drop(back);
            fault
        }
    };
    match fault {
        KeepFault::Memory => Err(ProgramFault::Refused(Refusal::Memory)),
        KeepFault::Device => Err(ProgramFault::Refused(Refusal::Device)),
        KeepFault::Line(number) => Err(not_taken(alloc, path, KeptTrouble::Line(number))),
        KeepFault::Replica(number) => Err(not_taken(alloc, path, KeptTrouble::Replica(number))),
    }
}

/// Opens or creates the file `name.path`, and returns its sheet with the keeper that logs the sheet's changes in the
/// file.
///
/// The sheet has the replica and the workers of `options`. With `options.squash` the file is squashed first, if that
/// makes it at most half as long. A failure to squash it is ignored.
///
/// # Errors
///
/// - [`ProgramFault::KeptFailed`] if the file's content is refused. A line isn't allowed where it stands
///   ([`KeptTrouble::Line`]), a digest line doesn't match the lines before it, or the file is another replica's.
/// - [`ProgramFault::KeptFailed`] also if another program has the file, it is no regular file, or the system can't
///   open, read or write it and gives the reason.
/// - `Device` if the device fails without a reason of the system.
/// - `Memory` if allocation fails.
///
/// Cost: that of [`keep_sheet`], and memory for twice the file's bytes. With `options.squash`, also that of
/// [`squash_kept`](crate::squash_kept).
pub fn open_kept_sheet<R: Files<File = File> + Threads + Sync, L: Ledger>(
    resources: Resources<'_, R>,
    name: KeptName<'_>,
    options: SheetOptions,
    meter: &mut Meter<L>,
) -> Result<(Sheet, SheetKeeper<DigestedDevice<KeptFile>>), ProgramFault>
    ensures read { IfOk result (λ r. (raw : List ℕ) × ReadsFile options.replica raw r.0.history) }
    ensures kept { IfOk result (λ r. IsKeptSheet options.replica options.workers r.0 r.1) }
    ensures refused { IfErr result (λ f. IsUnusable f ⊎ TellsTrouble KeptTrouble.Busy f ⊎ TellsDamage f
        ⊎ ((raw : List ℕ) × RefusesFile options.replica raw f)) }
{
    if options.squash {
        squash_first(resources, name, options.replica, meter);
    }
    let (found, numbers) = match open_file(resources.alloc, name) {
        Ok(opened) => opened,
        Err(fault) => return Err(fault),
    };
    match keep_sheet(resources, found, name.path, options, meter) {
        Ok(kept) => Ok(kept),
        Err(fault) => {
            let fault = in_file(&numbers, fault);
            Err(with_reason(resources.alloc, name, fault))
        }
    }
}

/// The report that a kept file was opened. Its text is a line for standard error, without the line feed.
#[derive(Clone, Copy, Debug)]
pub struct OpenedFile<'a> {
    /// The path of the file, as it was given.
    pub path: &'a str,
    /// The number of changes that the file has.
    pub changes: u64,
}

impl fmt::Display for OpenedFile<'_> {
    fn fmt<W: fmt::Write>(&self, f: &mut fmt::Formatter<W>) -> fmt::Result {
        write!(f, "opened {}, {} changes", self.path, self.changes)
    }
}
