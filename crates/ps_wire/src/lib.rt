//! Deltas as lines of JSON.
//!
//! A delta (`ps_delta`) is what a change adds to the states of some cells. It travels as one line: a JSON array
//! (RFC 8259) of one or more cells, ascending and distinct. Each cell is an array of four: its name, its register, the
//! counts of its counter and the pairs of its set. A pair is an option and the tag of its choice.
//!
//! This crate knows no commands, no replies and no sheet. It stores nothing between two calls.
//!
//! The contract to use:
//!
//! - [`decode`] and a [`Decoder`] return the one delta that the bytes are a line of (`IsLine`). They refuse the bytes
//!   as `Delta` only if the bytes are no delta's line.
//! - [`encode`] appends the delta's compact text, which is a line of the delta and has no line feed
//!   ([`delta_texts_are_one_line`]). Unless out of memory, it refuses only a delta whose text is too long.
//!   [`decoded_lines_fit`] and [`edited_lines_fit`] say which deltas never have a text that is too long.
//! - [`fits_line`] returns whether a delta's text fits a line, without writing it.
//! - [`outgrows_line`] returns true only if every join of a delta with others is too long for a line.
//! - [`may_share_line`] returns how many deltas may share a line as their join, without joining them. A join of more
//!   of these deltas is too long for a line.
//!
//! Say replica 2 assigned 5 to `A1` at time 1. The delta of this assignment has the line `[["A1",[1,2,"5"],[],[]]]`.
//! Every other spelling of the same JSON value, for example with blanks between the tokens, is also a line of this
//! delta. `[["A1",null,[],[]]]` says nothing of A1 and is no line of a delta.
//!
//! serde_json writes every line, and checks every line that is read. A reader first guesses the delta of a line, as if
//! `encode` had written the line. The reader accepts the guess if serde_json writes the same bytes for this delta.
//! Otherwise it reads the line as a `serde_json::Value`, and takes the delta from this tree.
//!
//! Cost: linear in the line, by a guess or not. Writing takes memory for the line. Reading takes memory for the delta
//! and its line, or for the tree of values.
#![tactic(auto)]

mod cells;
mod compact;
mod decoder;
mod entries;
mod laws;
mod length;
mod line;
mod parts;
mod room;
mod sharing;
mod states;
mod write;

pub use decoder::{Decoder, decode};
pub use laws::{
    decoded_lines_fit, delta_texts_are_one_line, edited_lines_fit, news_lines_fit,
    values_and_deltas_agree,
};
pub use length::outgrows_line;
pub use line::encode;
pub use room::fits_line;
pub use sharing::may_share_line;

/// The most bytes that a delta's line may have, without its line feed.
///
/// A batch that assigns to all `COLUMNS` cells of a row has to fit: each cell takes at most 1,613 bytes and a comma
/// ([`edited_lines_fit`]). With twice the columns this limit would be too low. `LINE_LIMIT` of `ps_lines`, the most
/// bytes of a session's line, is greater, since a session's line has a word such as `push` before the delta.
pub const DELTA_LINE_LIMIT: usize = 262_144;
