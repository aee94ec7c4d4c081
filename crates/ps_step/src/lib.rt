//! Whether two peers of the line protocol hold the same.
//!
//! [`compare`] pulls all that each of two peers has, joins it, and finds the cells that differ. It compares what the
//! cells hold: contents, counters and sets, shown or not. So two peers that took the same changes in another order, or
//! in other groups, hold the same, whatever their versions. They are then *in step*.
//!
//! This crate merges nothing into a peer, pushes nothing, and opens no connection: the caller passes each peer as an
//! open `Peer` (`ps_peers`).
//!
//! The contract to use is that of [`compare`]. The cells of a [`Step`] are exactly those at which the joins of all
//! deltas that each peer returned differ, in order (`IsCompared`, in `specs/Steps.antt`). Also after a fault, a peer
//! was only asked for its deltas (`WasAsked`).
//!
//! Say one peer returns `delta 1 [["A1",[1,1,"5"],[],[]]]` and then `end 1`, and the other peer returns `end 0`. The
//! two differ at `A1`, and [`Step::line`] returns `differ 1 A1`. If both peers return the delta, [`Step::line`] returns
//! `in step at 1 and 1`.
//!
//! Cost: linear in the lines, with the join of each delta; then a comparison of each cell of the grid. It takes the
//! memory of a state of the grid for each peer.
#![tactic(auto)]

mod apart;
mod comparing;
mod pulling;
mod step;

pub use comparing::compare;
pub use step::{MOST_NAMES, Step};
