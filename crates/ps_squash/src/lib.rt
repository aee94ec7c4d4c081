//! Rewrites many delta lines as few lines whose deltas have the same join.
//!
//! A delta is what a change adds to the states of some cells. A replica's lines only ever grow: each edit adds one, and
//! a cell that was changed a hundred times stands in a hundred lines. What such a cell holds is the join of all its
//! deltas. [`squash`] reads the lines and writes the lines of the join: cell after cell, as many in each line as fit.
//! If the first line names a replica, as in a kept file, `squash` writes this line first, so that the result is a kept
//! file of the same replica.
//!
//! This crate has no sheet: it stores no history, makes no edits and evaluates nothing. It opens no device, and the
//! caller decides what becomes of the lines that were read.
//!
//! The contract to use is that of [`squash`]. If it is Ok, `IsSquashed` (in `specs/Squashed.antt`) says of the lines
//! written:
//!
//! - their deltas have the same joined history as those of the lines read;
//! - they come after the line of the replica, if the first line read names one;
//! - their deltas divide the cells in order, and each has a line;
//! - no line has room for the first cell of the next.
//!
//! [`squash_in_part`] squashes only the first lines, or leaves out what one replica assigned, counted and chose
//! (`IsSquashedInPart`, in `specs/Selected.antt`).
//!
//! A [`SquashFault`] says which line is faulty, and then nothing was written.
//!
//! For example, `[["A1",[1,1,"5"],[],[]]]`, `push [["A1",[2,1,"6"],[],[]]]` and `push [["B1",[1,1,"7"],[],[]]]` become
//! one line, `push [["A1",[2,1,"6"],[],[]],["B1",[1,1,"7"],[],[]]]`. If `replica 1` stands before the three lines,
//! `squash` writes `replica 1` before the one line. Anywhere after the first line, `replica 1` is faulty. A line with a
//! digest, such as `replica 0123456789abcdef`, is skipped.
//!
//! Cost: that of the lines and of joining their deltas, of the cells of the grid, and of the text that is written.
#![tactic(auto)]

mod fault;
mod intake;
mod lines;
mod selection;
mod taken;
mod whole;
mod without;

pub use fault::SquashFault;
pub use selection::{LeftOut, Selection};
pub use whole::{squash, squash_in_part};
