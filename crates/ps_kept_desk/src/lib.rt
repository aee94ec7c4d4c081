//! A desk whose changes outlive a crash.
//!
//! A desk (`ps_desk`) is one sheet that several sessions share. It publishes its changes as a list, in order. This
//! crate puts a journal (`ps_keep`) beside the desk, under a lock of its own. The journal's first line names the
//! replica. Each later line is a change line (`push`) for a delta of the desk's history, in order.
//!
//! Before a session sends its replies, its [`SessionKeeper`] makes all changes durable that the session has seen,
//! whichever session made them. The first session to come writes and syncs for all sessions that wait. Changes that
//! arrive meanwhile go into the next sync, all at once. While the device is at work, edits go on.
//!
//! This crate makes no change and answers no line: the desk does. The crate doesn't read the file.
//!
//! The contracts to use:
//!
//! - [`SessionKeeper`]'s `sync`: the list that the session has seen is a beginning of the list that is reported as
//!   durable.
//! - [`DeskKeeper::close`]: the journal's durable lines are those of a beginning of the closed sheet's history. This
//!   beginning has all that any session reported as durable. If the last sync succeeded, it is the whole history.
//!
//! A [`DurablePosition`] is a token for a durable beginning of the published list, and stores only the beginning's
//! length. Such a token is made only while the journal's durable lines are those of the history that this beginning
//! stands for.
//!
//! Cost: a sync costs the bytes of the lines that aren't durable yet, one append and one sync of the file. The file
//! isn't touched if another session has made all these lines durable already.
#![tactic(auto)]

mod keeper;
mod record;
mod threads;

pub use keeper::{DeskKeeper, SessionKeeper};
pub use record::{DurablePosition, Ended};
pub use threads::keeper_is_sync;
