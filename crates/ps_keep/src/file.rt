//! A file of the operating system.
ghost use Rattle.std.specs.Prelude.{◌≡◌, ◌≤◌, length};

use crate::device::{Device, Found};
use crate::reason::FailureReason;
use crate::trace::Trace;
use ps_device::Failed;
use std::alloc::{AllocError, Global};
use std::fs::{File, Metadata, OpenOptions, TryLockError, metadata};
use std::io::{ErrorKind, Read, Write};
use std::os::unix::fs::MetadataExt;
use std::path::{AsPath, Path};
use std::rt::HostRuntime;
use std::{fmt, io};

/// Why [`FoundFile::open`] failed.
#[derive(Clone, Copy, Debug, PartialEq, Eq)]
pub enum FileFault {
    /// Out of memory.
    Memory,
    /// A system call failed, or the file can't be used, for this cause.
    Device(FileCause),
    /// Another process has locked the file.
    Busy,
}

/// Why a file can't be used. Displaying a cause writes text that makes sense after the file's path.
#[derive(Clone, Copy, Debug, PartialEq, Eq)]
pub enum FileCause {
    /// A system call failed with this error number (`errno`).
    System(i32),
    /// The file isn't regular: it is a device, a pipe or the like.
    NotRegular,
    /// The file was removed or replaced while [`FoundFile::open`] opened it.
    Removed,
    /// The file was removed or replaced after it was opened.
    Unnamed,
    /// The path no longer leads to the opened file, but to no file or to another one.
    Moved,
    /// The file's length isn't what was written: somebody else has cut the file or written to it.
    Resized,
    /// The system gave no error number.
    Unknown,
}

impl fmt::Display for FileCause {
    fn fmt<W: fmt::Write>(&self, f: &mut fmt::Formatter<W>) -> fmt::Result {
        match self {
            FileCause::System(code) => {
                let error = io::Error::from_raw_os_error(*code);
                write!(f, "{error}")
            }
            FileCause::NotRegular => write!(f, "it is no regular file"),
            FileCause::Removed => write!(f, "it was removed meanwhile"),
            FileCause::Unnamed => write!(f, "it was removed or replaced"),
            FileCause::Moved => write!(f, "its path doesn't lead to it any more"),
            FileCause::Resized => write!(f, "it was cut, or another program wrote to it"),
            FileCause::Unknown => write!(f, "it can't be read or written"),
        }
    }
}

impl FileCause {
    /// Returns the cause for `error`, which a failed system call has returned.
    pub fn of(error: &io::Error) -> FileCause {
        match error.raw_os_error() {
            Some(code) => FileCause::System(code),
            None => FileCause::Unknown,
        }
    }
}

/// The fault of a call of the system that failed.
fn fault_of(error: &io::Error) -> FileFault {
    if error.kind() == ErrorKind::OutOfMemory {
        FileFault::Memory
    } else {
        FileFault::Device(FileCause::of(error))
    }
}

/// The path by which a file was opened, and the system that opened it.
#[derive(Drop)]
struct FilePlace {
    system: HostRuntime,
    path: String,
}

impl FilePlace {
    /// Returns why the path doesn't lead to this file, if it doesn't.
    fn trouble(&self, file: &Metadata) -> Option<FileCause> {
        match metadata(&self.system, self.path.as_str()) {
            Ok(named) if named.dev() == file.dev() && named.ino() == file.ino() => None,
            Ok(_) => Some(FileCause::Moved),
            Err(error) if error.kind() == ErrorKind::NotFound => Some(FileCause::Moved),
            Err(error) => Some(FileCause::of(&error)),
        }
    }
}

/// A file that was opened, locked and read, and hasn't been changed yet. The lock only keeps out processes that lock
/// the file themselves.
#[derive(Drop)]
pub struct FoundFile {
    file: File,
    /// where it was opened
    place: FilePlace,
    /// what was read of it
    bytes: Vec<u8>,
    reason: FailureReason,
}

impl FoundFile {
    /// Opens the file at `path`, or creates it if there is none, locks and reads it, and returns it. The folder is
    /// synced, so that the file's name is durable. If a later call on the file fails, `reason` stores why.
    ///
    /// # Errors
    ///
    /// - `Memory`: out of memory.
    /// - `Busy`: another process has locked the file.
    /// - `Device`: a system call failed, the file isn't regular, or it was removed meanwhile.
    ///
    /// Cost: linear in the file, and its memory; one sync of the folder.
    pub fn open(
        system: HostRuntime,
        alloc: Global,
        path: &str,
        reason: FailureReason,
    ) -> Result<FoundFile, FileFault> {
        let place = match path.to_string(alloc) {
            Ok(path) => FilePlace { system, path },
            Err(AllocError) => return Err(FileFault::Memory),
        };
        let mut file = open_or_make(&system, path)?;
        match file.try_lock() {
            Ok(()) => {}
            Err(TryLockError::WouldBlock) => return Err(FileFault::Busy),
            Err(TryLockError::Error(error)) => return Err(fault_of(&error)),
        }
        match file.metadata() {
            // (a device may have bytes without end)
            Ok(about) if !about.is_file() => {
                return Err(FileFault::Device(FileCause::NotRegular));
            }
            Ok(about) if about.nlink() == 0 => return Err(FileFault::Device(FileCause::Removed)),
            Ok(_) => {}
            Err(error) => return Err(fault_of(&error)),
        }
        sync_folder(&system, path)?;
        let mut bytes = Vec::new(alloc);
        match file.read_to_end(&mut bytes) {
            Ok(_) => Ok(FoundFile {
                file,
                place,
                bytes,
                reason,
            }),
            Err(error) => Err(fault_of(&error)),
        }
    }
}

/// Opens the file of this path for reading and appending; made where there is none.
fn open_or_make(system: &HostRuntime, path: &str) -> Result<File, FileFault> {
    match open_there(system, path, false) {
        Ok(file) => Ok(file),
        Err(error) if error.kind() == ErrorKind::NotFound => match open_there(system, path, true) {
            Ok(file) => Ok(file),
            // another process was quicker
            Err(error) if error.kind() == ErrorKind::AlreadyExists => {
                match open_there(system, path, false) {
                    Ok(file) => Ok(file),
                    Err(error) => Err(fault_of(&error)),
                }
            }
            Err(error) => Err(fault_of(&error)),
        },
        Err(error) => Err(fault_of(&error)),
    }
}

/// Opens a file for reading and appending: one that is there, or one that is made now, in the very folder that the path
/// names.
fn open_there(system: &HostRuntime, path: &str, is_new: bool) -> io::Result<File> {
    OpenOptions::new()
        .read(true)
        .append(true)
        .create_new(is_new)
        .open(system, path)
}

/// Has the names of the file's folder on the disk, so that the file is there after a crash. At each start, since a
/// crash may have come before an earlier one did so.
fn sync_folder(system: &HostRuntime, path: &str) -> Result<(), FileFault> {
    let folder = match Path::new(path).parent() {
        Some(parent) if !parent.path_text().is_empty() => parent,
        _ => Path::new("."),
    };
    match File::open(system, folder) {
        Ok(folder) => match folder.sync_all() {
            Ok(()) => Ok(()),
            Err(error) => Err(fault_of(&error)),
        },
        Err(error) => Err(fault_of(&error)),
    }
}

impl Found for FoundFile {
    type Device = KeptFile;

    ghost bytes = { λ f. f.bytes.items };

    fn bytes(&self) -> &[u8] {
        self.bytes.as_slice()
    }

    fn keep(self, count: usize) -> Result<KeptFile, Failed> {
        let FoundFile {
            file,
            place,
            bytes,
            reason,
        } = self;
        if count < bytes.len() {
            noted(&reason, file.set_len(count as u64))?;
        }
        noted(&reason, file.sync_all())?;
        let mut trace = Trace::new();
        trace.note(&[], &bytes[..count]);
        trace.note(&[1], &[]);
        Ok(KeptFile {
            file,
            place,
            reason,
            trace,
            synced: count as u64,
            end: count as u64,
            is_broken: false,
            is_cut: false,
            cut_failed: false,
        })
    }
}

/// Notes why a call of the system failed.
fn noted(reason: &FailureReason, done: io::Result<()>) -> Result<(), Failed> {
    match done {
        Ok(()) => Ok(()),
        Err(error) => {
            reason.note_error(&error);
            Err(Failed)
        }
    }
}

/// A file of the operating system that is appended to. Its contracts say what system calls returned. It is trusted that
/// the system did what its calls returned.
///
/// A sync also fails if the file was removed, moved or replaced, or if its length isn't what was written. The next
/// start might not find the synced bytes then. A file whose length isn't what was written isn't cut: its cut fails.
#[derive(Drop)]
pub struct KeptFile {
    file: File,
    place: FilePlace,
    reason: FailureReason,
    trace: Trace,
    /// how many bytes it had when it was last synced
    synced: u64,
    /// how many it has, where nobody else writes to it
    end: u64,
    is_broken: bool,
    is_cut: bool,
    cut_failed: bool,
    ghost within: { (synced ≡ trace.given.synced) × (synced ≤ end) },
    ghost whole: { end ≡ length trace.given.written },
}

impl KeptFile {
    /// Returns whether the path leads to the open file, and this has the length that was written.
    ///
    /// A change that comes later isn't seen, and none that leaves the length as it was.
    fn is_in_place(&self) -> bool {
        match self.trouble() {
            Some(cause) => {
                self.reason.note(cause);
                false
            }
            None => true,
        }
    }

    /// Returns why the file isn't in its place, or why nobody can tell, if it is so.
    fn trouble(&self) -> Option<FileCause> {
        match self.file.metadata() {
            Ok(about) if about.nlink() == 0 => Some(FileCause::Unnamed),
            Ok(about) if about.len() != self.end => Some(FileCause::Resized),
            Ok(about) => self.place.trouble(&about),
            Err(error) => Some(FileCause::of(&error)),
        }
    }
}

impl Device for KeptFile {
    ghost written = { λ f. f.trace.given.written };

    ghost synced = { λ f. f.trace.given.synced };

    ghost has_failed = { λ f. f.is_broken };

    ghost is_cut = { λ f. f.is_cut };

    ghost cut_failed = { λ f. f.cut_failed };

    fn append(&mut self, bytes: &[u8]) -> Result<(), Failed> {
        self.is_broken = true;
        let mut start = 0;
        let mut tries = u64::MAX;
        'parts: while start < bytes.len() {
            if tries == 0 {
                return Err(Failed);
            }
            tries -= 1;
            match self.file.write(&bytes[start..]) {
                Ok(0) => {
                    self.reason.note(FileCause::Unknown);
                    return Err(Failed);
                }
                Ok(count) => {
                    match self.end.checked_add(count as u64) {
                        Some(end) => self.end = end,
                        None => return Err(Failed),
                    }
                    self.trace.note(&[], &bytes[start..start + count]);
                    start += count;
                }
                Err(error) if error.kind() == ErrorKind::Interrupted => {}
                Err(error) => {
                    self.reason.note_error(&error);
                    return Err(Failed);
                }
            }
        }
        self.is_broken = false;
        Ok(())
    }

    fn sync(&mut self) -> Result<(), Failed> {
        match self.file.sync_data() {
            Ok(()) if self.is_in_place() => {
                self.trace.note(&[1], &[]);
                self.synced = self.end;
                Ok(())
            }
            Ok(()) => {
                self.is_broken = true;
                Err(Failed)
            }
            Err(error) => {
                self.reason.note_error(&error);
                self.is_broken = true;
                Err(Failed)
            }
        }
    }

    fn cut(&mut self) -> Result<(), Failed> {
        match self.file.metadata() {
            // (a longer one has what somebody else wrote, who knows where)
            Ok(about) if about.len() == self.end && self.file.set_len(self.synced).is_ok() => {
                self.is_cut = true;
                Ok(())
            }
            _ => {
                self.cut_failed = true;
                Err(Failed)
            }
        }
    }
}
