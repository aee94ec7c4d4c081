//! Sessions: lines in, replies out.
//!
//! - A [`Board`] answers commands, with a method for each. A sheet is a board.
//! - [`converse`] is the one loop of all sessions. It reads a source to its end, carries out each line and writes its
//!   reply, in order. A `Watcher` observes each line. Before replies are sent, a [`Keeper`] shows the board's changes
//!   to others, or makes them durable.
//! - [`talk`] is [`converse`] without watcher and keeper. [`run`] is [`talk`] for a sheet.
//! - [`sync`], from `ps_peers`, is a client's loop. It pulls from a session at the other end of a connection, and
//!   pushes to another such session.
//!
//! [`Command`], [`Reply`] and [`Session`], the buffer that puts a session's lines together, come from `ps_lines`.
//!
//! This crate opens no device, and it leaves to the sheet what an edit or a delta does.
//!
//! The contract to use is that of [`converse`], and of [`run`] for a sheet alone. `specs/Transcript.antt` has the
//! replies and the board that an input calls for, `specs/Keeping.antt` what the keeper covers before they are sent.
//!
//! For example, the reply to `set A1 5` is `ok 1`, and to `get A1` then `val 5`. The reply to `pull 0` is
//! `delta 1 [["A1",[1,1,"5"],[],[]]]`; the line in it can be pushed to another sheet.
//!
//! Cost: a line costs its bytes and what its board takes. Reading takes the memory of one line, and once more that of
//! the longest delta that is pushed.
#![tactic(auto)]

mod board;
mod delivery;
mod held_output;
mod keeper;
mod laws;
mod obey;
mod reading;
mod resources;
mod sheet_board;
mod sheet_session;
mod telling;
mod tools;
mod transcript;

pub use board::{Board, Merged};
pub use delivery::{AtOnce, Delivery, HeldBack};
pub use held_output::HeldOutput;
pub use keeper::{Keeper, Unkept};
pub use laws::{edit_lines_fit, transcript_is_decided};
pub use ps_lines::{Command, LineBuffer as Session, Reply};
pub use ps_peers::sync;
pub use reading::converse;
pub use resources::Resources;
pub use sheet_session::run;
pub use transcript::{RunFault, talk};
