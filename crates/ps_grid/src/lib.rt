//! What all other crates build on: the size of the grid, its cells and rectangles, and numbers in decimal digits. This
//! crate also has the limits on replicas, workers and sessions, and the refusals: the reasons why calls fail. It has
//! `GhostCount`, a counter for contracts, and `Twin`, for copies that can run out of memory. Its definitions say what a
//! chain of references is.
//!
//! This crate is not the sheet: it knows no values, no formulas and no edits.
//!
//! The cell `B3` has column 1, counted from 0, and row 3, counted from 1. So its index is `2 * 104 + 1 = 209`. The
//! rectangle from `A2` to `B3` has the four cells `A2`, `B2`, `A3`, `B3`, in this order.
//!
//! The contract to use: contracts see a `Cell` as its index, below `CELLS`. `Cell::read` returns exactly the cell that
//! the text names. Contracts see a `Rect` as its `Area`: left column, top row, width and height, inside the grid.
//! `Rect::cells` yields exactly the rectangle's cells, each once.
//!
//! Cost: going through a rectangle's cells takes time linear in the number of cells. `read_digits` takes time linear in
//! the bytes, and `twin` at most in the size of the value. Every other call takes constant time.
#![tactic(auto)]

mod cell;
mod digits;
mod ghost_count;
mod laws;
mod parties;
mod rect;
mod refusal;
mod size;
mod twin;

pub use cell::Cell;
pub use digits::read_digits;
pub use ghost_count::GhostCount;
pub use laws::{long_chains_repeat, refusal_numbers_differ};
pub use parties::{REPLICAS, SEATS, WORKERS};
pub use rect::{Rect, RectCells};
pub use refusal::Refusal;
pub use size::{CELLS, COLUMNS, NAME_BYTES, ROWS};
pub use twin::Twin;
