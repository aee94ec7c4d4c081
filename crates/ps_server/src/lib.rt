//! A server: the sessions of one sheet, each over a connection of its own.
//!
//! - [`serve_in_memory`] accepts connections, and closes the sheet once as many sessions as were asked for have ended.
//!   [`serve_with_journal`] does the same, and makes each change durable in a journal.
//! - [`attend_lines`] and [`attend_kept`] run one session, over any source and sink.
//! - [`admit`] tells HTTP requests from lines, so that no session carries out any part of a request.
//!
//! Words of `ps_desk`: a desk is a sheet that sessions share under a lock. A session slot has a pass to the desk. The
//! pass records what the slot's sessions have seen and appended. A slot's next session gets the same pass.
//!
//! The first bytes of a connection decide what the connection is. The server answers an HTTP request with the page, the
//! facts about the sheet, a refusal or a WebSocket, as `ps_page` says. Any other connection is a session of lines. A
//! session over a WebSocket or of lines waits for a free slot, and runs in a thread of its own.
//!
//! A WebSocket for the news (the number of changes) takes neither a slot nor a thread. One thread of the server sleeps
//! until there are changes. Another thread sleeps until a browser sends something on a WebSocket for the news, or a
//! client sends something while the client's session waits for changes.
//!
//! This crate is not the program: it knows no command line and no exit status, opens no port and no file, and writes
//! only replies and refusals on connections. `ps_session` decides what a line means.
//!
//! The contracts to use:
//!
//! - [`serve_in_memory`] returns the sheet that it was given, with the changes that its slots' passes appended through
//!   all their sessions (`IsServed`).
//! - If [`serve_with_journal`] succeeds, the journal has all of the sheet's history.
//! - What a session reads and writes in [`attend_lines`] is the transcript of a `Seat`, a session at the desk.
//! - [`attend_kept`] sends only what is durable, however the session ends (`IsCovered`, of `ps_session`).
//!
//! For example, two sessions of one server answer `set A1 5` with `ok 1` and `set A2 6` with `ok 2`. The server returns
//! the sheet with these two changes after those that it had before, in this order, and no others.
//!
//! Cost: that of the sessions.
#![tactic(auto)]

mod arrival;
mod attend;
mod bell;
mod connection;
mod counts;
mod guard;
mod line_stream;
mod listener;
mod lobby;
mod marker;
mod options;
mod reception;
mod server;
mod sessions;
mod shared;
mod slot;
mod warning;
mod watchers;

pub use connection::{Attended, DeskSession, KeptSession, attend_kept, attend_lines};
pub use counts::Counts;
pub use guard::{FRONT_LIMIT, Unadmitted, admit, resume};
pub use options::ServerOptions;
pub use server::{Closed, serve_in_memory, serve_with_journal};
pub use warning::{Unwarned, Warn};
