//! A client of the line protocol. A peer is the session at the other end of a connection.
//!
//! A request to a [`Peer`] is one line. A reply is one line or several.
//!
//! - [`sync`] pulls all changes of one peer and pushes them to another.
//! - [`follow`] writes all changes that a peer has, and then each change that the peer gets.
//! - [`ask_lines`] sends a peer the lines of an input, and writes the replies.
//!
//! This crate knows no sheet, and opens no connection: a peer is a source of bytes and a sink. It doesn't decode
//! deltas. It only finds where in a reply a delta's line begins.
//!
//! The contracts to use are those of [`sync`] and [`follow`]. Both pull groups of deltas, and write each group once, in
//! order: [`sync`] to the other peer, [`follow`] to a sink. They go on up to the `end` of the pulled peer (`IsAll`, in
//! `specs/Exchange.antt`), or up to a fault (`IsHalted`).
//!
//! For example, the reply to `pull 0 16` is `delta 2 [["A1",[1,1,"5"],[],[]]]`. [`sync`] sends it as
//! `push [["A1",[1,1,"5"],[],[]]]`, and its next pull is `pull 2 16`. The reply `end 2` ends the exchange.
//!
//! Cost: linear in the bytes of the lines. Each peer takes the memory of one line and one piece of input.
#![tactic(auto)]

mod asking;
mod follower;
mod peer;
mod peer_pull;
mod peer_reply;
mod syncing;

pub use asking::{ask_lines, number_after};
pub use follower::follow;
pub use peer::{Peer, PeerFault};
pub use peer_pull::{Due, SyncFault, await_news, due_news, fault_of, next_due, put_wait, refused};
pub use peer_reply::{PeerReply, read_reply};
pub use syncing::sync;
