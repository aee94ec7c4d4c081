//! Reads the lines of a session and of a kept file, and writes the replies. A kept file stores a sheet's changes as
//! lines of text.
//!
//! - A [`LineBuffer`] joins bytes into lines, however the input is cut into pieces. An [`Incoming`] reads the lines of
//!   a source.
//! - A [`Command`] is what a line asks for, and a [`Verb`] is the first word of such a line.
//! - A [`Reply`] is the answer to a line. [`send`] writes it. A [`Watcher`] observes lines and their outcomes.
//! - A [`KeptLine`] is what a line of a kept file says. [`is_digest_line`] recognizes the checksum lines of a kept
//!   file.
//! - [`deltas_after`] and [`greatest_group`] find the answer to a `pull` in a list of deltas. A delta is one change of
//!   a sheet. A history is the list of a sheet's deltas, in order, and its length is the sheet's version.
//!
//! This crate has no sheet: the session decides what a command does and what its reply holds.
//!
//! The contract to use is that of [`Command::read`]: what a line asks for, or the first refusal that holds
//! (`ReadsLine`, in `specs/Commands.antt`). A line is refused as out of memory only if reading it allocates. The
//! contract of [`LineBuffer::feed`] (`Feeds`, in `specs/Feeding.antt`) says that it doesn't matter where a line is cut
//! into pieces.
//!
//! The line `set A1 5` is a command, and `ok 1` with a line feed a reply. The line `push [["A1",[1,1,"5"],[],[]]]`
//! pushes a delta, in a session and in a kept file.
//!
//! Cost: linear in the bytes of a line. A reader allocates the room for its lines once, when it is created.
#![tactic(auto)]

mod command;
mod digest_line;
mod group;
mod history;
mod incoming;
mod kept_line;
mod laws;
mod line_buffer;
mod push_line;
mod replica_line;
mod reply;
pub mod reply_words;
mod verb;
mod watcher;
mod words;

pub use command::{Command, LARGEST_GROUP};
pub use digest_line::is_digest_line;
pub use group::greatest_group;
pub use history::deltas_after;
pub use incoming::{Incoming, LineFault, NextLine};
pub use kept_line::{KeptLine, read_kept_line};
pub use laws::{bytes_divide_one_way, pulls_return_deltas};
pub use line_buffer::{Fed, LINE_LIMIT, Line, LineBuffer, trimmed};
pub use push_line::{push_pieces, put_push_line};
pub use replica_line::{line_of_replica, put_replica_line};
pub use reply::{Reply, send, send_pieces};
pub use verb::{PULL, Verb, WAIT};
pub use watcher::{Outcome, Unwatched, Watcher};
pub use words::{read_whole, split_part, split_word};
