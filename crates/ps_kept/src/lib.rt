//! A sheet that is stored in a file, so that it outlives a crash.
//!
//! The file, a kept file, is text. Its first line names the replica. Each other line pushes one change of the history,
//! in order, so a session that reads the file as its input shows the sheet. The start is [`open_kept`]: it reads the
//! sheet of a file, and returns it with a [`SheetKeeper`]. The keeper makes a session's changes durable before the
//! session sends the replies about them.
//!
//! This crate isn't the session: it carries out no commands and writes no replies. The crate isn't the journal
//! (`ps_keep`) either, which appends lines to the file and syncs it. It takes no lock. It decides which lines a file
//! may have:
//!
//! - The first line names the replica that was asked for.
//! - Each later line pushes a delta, in any spelling, that adds something to the deltas before it. So each of these
//!   lines is one change of the history.
//!
//! The contracts to use:
//!
//! - [`open_kept`]: the sheet's history is what the lines push, and all of it is durable. If the file has a line or a
//!   replica that can't be accepted, `open_kept` names this line or replica, and returns the file unchanged.
//! - [`SheetKeeper`]'s `sync`: the whole history is durable. At whatever moment a crash comes, the next start reads
//!   a beginning of the history that has all that was durable (`Outlives`).
//! - The laws: a file has at most one history, and no start refuses the file after a crash. Two starts in a row read
//!   the same from a file. From the squashed lines of a file a start reads a history with the same join. After a crash
//!   a start also reads a file with digest lines (`DigestedFile` of `ps_keep`), with all durable changes.
//!
//! Code that shares a sheet between sessions adds lines by [`note_deltas`].
//!
//! Say replica 1 gives A1 the number 5. Once that is synced the file is `replica 1` and `push
//! [["A1",[1,1,"5"],[],[]]]`, each with its line feed. A crash in the next write may leave `push [["B1` after them. The
//! next start reads the one change, and cuts the torn line off.
//!
//! Cost: a start is linear in the file, whose bytes are in memory once meanwhile. It evaluates each formula once, after
//! the last line. A sync is linear in the new lines: one append to the file, and one sync of it.
#![tactic(auto)]

mod fault;
mod keeper;
mod laws;
mod noting;
mod opening;
mod reading;

pub use fault::KeepFault;
pub use keeper::SheetKeeper;
pub use laws::{
    crashes_keep_digested_sheets, crashes_keep_sheets, faults_come_after_the_kept,
    longer_histories_fit, one_history_is_read, squashed_files_read_the_same, starts_read_the_same,
};
pub use noting::note_deltas;
pub use opening::open_kept;
