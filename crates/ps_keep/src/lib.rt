//! A journal: lines that outlive a crash.
//!
//! A [`Journal`] is a file that lines are appended to. A line is noted first, and acknowledged after a sync of all
//! noted lines; so one sync serves many lines. At the start [`first_line`] reads the whole lines of the file one after
//! another. Then [`open`] makes the file a journal, and cuts off the bytes after the last line feed, which a crash
//! during a write has left.
//!
//! This crate is not the sheet: it knows no deltas and no replicas, and its caller decides which lines a file may have.
//! It starts no thread. Its only lock is that of the file, which ends with the process.
//!
//! The contracts to use are those of [`Journal::sync`], [`open`] and [`DigestedFile::read`], the laws of the file after
//! a crash (`laws.rt`), and [`digested_files_survive`].
//!
//! A [`DigestedFile`] is a found file that has digest lines, by which a start sees damage. A digest line is the word
//! `replica`, a space and 16 hex digits. The digits are the first 8 bytes of the MD5 of all bytes from the previous
//! digest line on, this line included, or from the file's beginning. A start calls [`DigestedFile::read`], which checks
//! each digest line, and fails with the number of the first wrong one and that of the last right one before it. If all
//! are right, the returned file shows only its other lines. Its device appends a digest line after each write that ends
//! a line. So a journal knows nothing of digests, and each sync of a journal with new lines writes a digest line. A
//! file without digest lines gets them from the next sync on. The lines after the last digest line, left by a crash,
//! aren't checked. MD5 shows accidents, not intent.
//!
//! Only [`open`] cuts a found file. So a caller that reads a file and then refuses it leaves the file as it was.
//!
//! There are two kinds of files: in memory ([`MemoryFile`], [`MemoryDevice`]), which can be made to fail, and of the
//! operating system ([`FoundFile`], [`KeptFile`]). Contracts of the latter say what system calls returned. It is
//! trusted that the system keeps what it synced, in order. A sync of a [`KeptFile`] also fails if the file's path no
//! longer leads to the file, or if the file's length isn't what was written. No contract says so. A journal has its
//! device until the journal is dropped. A caller that needs the device afterwards passes a [`Found`] of its own that
//! borrows the device.
//!
//! Say a file has the lines `ab` and `cd`, and then `e` without a line feed. [`first_line`] returns `ab`, then `cd`,
//! then `None`, and [`open`] cuts `e` off. After `fg` is noted and synced, the file has `ab`, `cd` and `fg`, each with
//! its line feed.
//!
//! Cost: a found file has its bytes in memory. Each sync of a journal is one append to the file and one sync of the
//! file. With digest lines the file is in memory twice until [`open`] takes it, and each sync appends twice.
#![tactic(auto)]

mod device;
mod digest;
mod digested;
mod file;
mod journal;
mod laws;
mod memory;
mod opening;
mod reason;
mod trace;

pub use device::{Device, Found};
pub use digested::{
    Damage, DigestFault, DigestedDevice, DigestedFile, LineNumbers, digested_files_survive,
};
pub use file::{FileCause, FileFault, FoundFile, KeptFile};
pub use journal::Journal;
pub use laws::{
    a_start_may_crash, crashes_keep_the_acknowledged, failed_journals_leave_the_acknowledged,
    reading_twice, tears_keep_the_acknowledged,
};
pub use memory::{MemoryDevice, MemoryFile};
pub use opening::{first_line, open};
pub use reason::FailureReason;
