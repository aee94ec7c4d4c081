//! A named file that is replaced by another one, whole.
ghost use Rattle.std.specs.Prelude.{◌≡◌, ◌⊎◌, List, OnErr, OnOk, ℕ, option_map};
ghost use Rattle.ps_shorten.specs.Shortened.{content_of};

use ps_device::Failed;
use ps_keep::{FailureReason, FileCause, Found};
use std::alloc::Global;
use std::fs::{File, OpenOptions, TryLockError, remove_file, rename};
use std::io;
use std::io::Write;
use std::os::unix::fs::MetadataExt;
use std::path::{AsPath, Path, PathBuf};
use std::rt::Files;

/// The ending of a new file's name until it replaces the old file.
const UNFINISHED: &str = ".squashing";

/// A file with a name, which is read whole and replaced whole.
pub trait Replace {
    /// The bytes that a start finds under the file's name.
    ghost content: { Self → List ℕ };

    /// Returns the bytes that a start finds under the file's name.
    fn bytes(&self) -> &[u8]
        ensures { result.now ≡ content self.now };

    /// Replaces the file by a new one with the bytes `text`, and syncs these bytes and the file's name. At each moment
    /// the name leads to the whole old file or to the whole new one, also after a crash. If the call fails, the name
    /// leads to either.
    ///
    /// Cost: linear in the bytes, and the time that the device takes.
    fn replace(&mut self, text: Vec<u8>) -> Result<(), Failed>
        ensures replaced { OnOk result (content self.new ≡ text.items) }
        ensures whole { OnErr result ((content self.new ≡ content self.old) ⊎ (content self.new ≡ text.items)) };
}

/// The file that replaced another one; its lock ends when it is dropped.
#[derive(Drop)]
struct NewFile {
    file: File,
    bytes: Vec<u8>,
}

/// A file of the operating system, under its name. It is trusted that the system does what its calls report: contracts
/// only repeat their results.
///
/// A `NamedFile` holds the lock of the old file, which it was made from, and of the new file that replaces the old one.
/// It holds both locks until it is dropped, and locks the new file before that file gets the name. So the file under
/// the name is locked all that time, and a start of the program meanwhile fails, because another process has the file.
///
/// A start that opened the old file before the replacement may lock that file once the `NamedFile` is dropped. This
/// start also fails, since the old file no longer has a name.
#[derive(Drop)]
pub struct NamedFile<'a, R: Files<File = File>, F: Found + Drop> {
    rt: &'a R,
    alloc: Global,
    path: &'a str,
    /// the file that was found, with its lock
    found: F,
    /// the file that replaced it
    new: Option<NewFile>,
    reason: FailureReason,
}

impl<'a, R: Files<File = File>, F: Found + Drop> NamedFile<'a, R, F> {
    /// Creates the `NamedFile` of the file at `path`, which was opened as `found`. If a system call fails while the
    /// file is replaced, `reason` stores why.
    pub fn new(
        rt: &'a R,
        alloc: Global,
        path: &'a str,
        found: F,
        reason: FailureReason,
    ) -> NamedFile<'a, R, F>
        ensures { ⟦<NamedFile<'a, R, F> as Replace>⟧.content result ≡ F.bytes found }
    {
        NamedFile {
            rt,
            alloc,
            path,
            found,
            new: None,
            reason,
        }
    }
}

impl<R: Files<File = File>, F: Found + Drop> Replace for NamedFile<'_, R, F> {
    ghost content = { λ f. content_of (F.bytes f.found) (option_map (λ n. n.bytes.items) f.new) };

    fn bytes(&self) -> &[u8] {
        match &self.new {
            Some(new) => new.bytes.as_slice(),
            None => self.found.bytes(),
        }
    }

    fn replace(&mut self, text: Vec<u8>) -> Result<(), Failed> {
        // (a symbolic link stays one, and the file that it leads to is replaced)
        let path = noted(&self.reason, self.rt.canonicalize(self.alloc, self.path))?;
        let file = put_in_place(self.rt, self.alloc, &self.reason, &path, &text)?;
        self.new = Some(NewFile { file, bytes: text });
        sync_folder(self.rt, &self.reason, &path)
    }
}

/// Returns the result of a system call, or stores in `reason` why the call failed.
fn noted<T: Drop>(reason: &FailureReason, done: io::Result<T>) -> Result<T, Failed> {
    match done {
        Ok(made) => Ok(made),
        Err(error) => {
            reason.note_error(&error);
            Err(Failed)
        }
    }
}

/// Writes a new file of these bytes, renames it to this path, and returns it locked. If this fails, the path still
/// leads to the old file.
fn put_in_place<R: Files<File = File>>(
    rt: &R,
    alloc: Global,
    reason: &FailureReason,
    path: &PathBuf,
    bytes: &[u8],
) -> Result<File, Failed> {
    let name = path.path_text();
    let Ok(beside) = format!(in alloc; "{name}{UNFINISHED}") else {
        return Err(Failed);
    };
    let beside = beside.as_str();
    let file = new_file(rt, reason, name, beside)?;
    if write_whole(reason, &file, bytes).is_ok()
        && noted(reason, rename(rt, beside, name)).is_ok()
    {
        return Ok(file);
    }
    // (if the new file stays, it does no harm, and the next call removes it)
    let _ = remove_file(rt, beside);
    Err(Failed)
}

/// Creates an empty file named `beside`, locks it, and gives it the owner and the permissions of the file `name`. A
/// file that an earlier, killed program left under the name `beside` is removed first.
fn new_file<R: Files<File = File>>(
    rt: &R,
    reason: &FailureReason,
    name: &str,
    beside: &str,
) -> Result<File, Failed> {
    let about = noted(reason, rt.metadata(name))?;
    let _ = remove_file(rt, beside);
    let opened = OpenOptions::new()
        .write(true)
        .create_new(true)
        .open(rt, beside);
    let file = noted(reason, opened)?;
    match file.try_lock() {
        Ok(()) => {}
        Err(TryLockError::WouldBlock) => {
            reason.note(FileCause::Unknown);
            return Err(Failed);
        }
        Err(TryLockError::Error(error)) => {
            reason.note_error(&error);
            return Err(Failed);
        }
    }
    let own = noted(reason, file.metadata())?;
    if (own.uid(), own.gid()) != (about.uid(), about.gid()) {
        let done = rt.chown(beside, Some(about.uid()), Some(about.gid()));
        noted(reason, done)?;
    }
    noted(reason, file.set_permissions(about.permissions()))?;
    Ok(file)
}

/// Writes these bytes to the file, and syncs it.
fn write_whole(reason: &FailureReason, file: &File, bytes: &[u8]) -> Result<(), Failed> {
    let mut writer = file;
    noted(reason, writer.write_all(bytes))?;
    noted(reason, file.sync_all())
}

/// Syncs the folder of the file at `path`, so that the file's new name is durable.
fn sync_folder<R: Files<File = File>>(
    rt: &R,
    reason: &FailureReason,
    path: &PathBuf,
) -> Result<(), Failed> {
    let Some(parent) = Path::new(path.path_text()).parent() else {
        return Err(Failed);
    };
    let folder = noted(reason, File::open(rt, parent))?;
    noted(reason, folder.sync_all())
}
