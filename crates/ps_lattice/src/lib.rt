//! Three join-semilattices for states that replicas exchange, after Shapiro, Preguica, Baquero and Zawirski, INRIA
//! RR-7506: `Register`, a last-writer register, `Tally`, a PN-counter, and `Choice`, an observed-remove set.
//!
//! An edit makes a delta, a small state of the same type, after Almeida, Shoker and Baquero, 2018. The state after the
//! edit is the state before it joined with the delta. Deltas may be joined in any order, in any groups and repeatedly.
//!
//! This crate sends nothing and knows no sheet. The caller says which replica edits, and stores which cell a state
//! belongs to.
//!
//! The contract to use: `Join` joins two states, and says whether one state is *below* the other (adds nothing new to
//! the other). The three laws of `Join` hold for all states. Each edit's clause `ok` names the delta that the edit
//! makes, and other clauses describe the state after the edit. The clause `fresh` says that the edit changes something.
//! `parts` returns the parts of a state, and `from_parts` makes a state from its parts.
//!
//! In a counter, P is the total that a replica added, and N the total that it subtracted. Replica 1 adds 5 to an empty
//! counter: the delta holds `(1, P = 5, N = 0)`. Replica 2 subtracts 2 from the same empty counter: the delta holds
//! `(2, P = 0, N = 2)`. After a join with both deltas, in either order and repeatedly, the counter's value is 3.
//!
//! Cost: a join is linear in both states. If one counter or choice is below the other, the join copies nothing: the
//! result shares the list of the other. A twin (a copy) shares the list of its original, and takes no memory. An empty
//! state takes no memory on the heap. Nor does a counter that only one replica has changed while both its counts are
//! below 2^32. A counter and a choice are two words each, and a register takes two words more than its content.
#![tactic(auto)]

mod choice;
mod counts;
mod entries;
mod join;
mod laws;
mod limits;
mod register;
mod shared;
mod tally;

pub use choice::{Choice, Pair};
pub use entries::{Merge, is_ascending};
pub use join::{Join, Linear};
pub use laws::{
    choices_join_by_union, choices_new_by_pair, empty_is_least, tallies_join_by_maximum,
    tallies_new_by_entry,
};
pub use limits::{AMOUNT_LIMIT, COUNT_LIMIT, LAST_TIME, OPTIONS, SEQUENCES};
pub use register::{Assignment, Register};
pub use tally::{Count, Tally, TallyParts};
