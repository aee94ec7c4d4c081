//! Joins two peers of the line protocol: each gets the changes of the other.
//!
//! - [`join_once`] merges all changes of one peer at the other, and then the other way round.
//! - [`join`] does the same, and then goes on with each change that either peer gets. It ends when one of them fails,
//!   refuses or closes.
//! - [`relay`] has a stream of lines instead of the second peer. It merges the deltas of an [`Intake`] at a server, and
//!   writes the server's other changes.
//!
//! This crate knows no sheet, and opens no connection: a peer is a `Peer` of `ps_peers`. A group of changes is passed
//! on as the peer wrote it, in a line `merge`.
//!
//! The contracts to use are those of [`join_once`] and [`join`] (`specs/Joins.antt`), and that of [`relay`]
//! (`specs/Relays.antt`). A fault names the peer where it happened.
//!
//! For example, one peer replies `delta 2 [["A1",[1,1,"5"],[],[]]]` to `pull 0 16`. The join sends the other peer
//! `merge [["A1",[1,1,"5"],[],[]]]`. The reply `ok 1` says that this delta became the other peer's first change. So
//! the next pull from the other peer is `pull 1 16`, and the change doesn't come back.
//!
//! Cost: linear in the bytes of the lines.
#![tactic(auto)]

mod bringing;
mod carrying;
mod fault;
mod intake;
mod joining;
mod merging;
mod relaying;
mod waiting;

pub use fault::{End, JoinFault, RelayFault};
pub use intake::{Came, Intake};
pub use joining::{join, join_once};
pub use relaying::relay;
pub use waiting::Attention;
