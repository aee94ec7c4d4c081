//! What the cells of a sheet show, in a compact table: 16 bytes a cell. The bytes of a text are shared with its other
//! owners, and aren't copied.
//!
//! The table knows no contents, no formulas and no edits, and it evaluates nothing.
//!
//! Use the contract of `Shown`. It speaks of the table by `shown_at`, the value that each cell shows:
//!
//! - A fresh table shows `Empty` everywhere.
//! - `at` returns what a cell shows.
//! - `put` changes `shown_at` by `with_value`: one cell shows the new value, and every other cell shows what it showed
//!   before.
//!
//! Say `A1` shows the text `x` and `B1` the number 7. `Shown::at` of `A1` is the text `x`, and `Shown::operand` of `A1`
//! says only that there is a text. `Shown::operand` of `B1` is the number 7. `Shown::put` of `Kept::Num(1)` at `A1`
//! returns the stored text `x`. A second `Shown::put`, of this text at `A1`, restores what the table shows.
//!
//! For SUM, MIN, MAX and COUNT the table stores summaries of blocks. A block is 57 rows of a column; a column's last
//! block has 55. `remember` makes the summaries for a range, and `summary` reads them. `put` updates the summary of its
//! cell's block. It drops the summary if the block had a fault, or if the old number was the block's least or greatest.
//! The table's own invariant says that each stored summary matches the cells of its block. No contract of a caller
//! mentions stored summaries.
//!
//! Cost: a new table allocates 2 MB. It writes them, column after column, only up to the last cell of any `put`. A copy
//! of the table by `Twin::twin` does the same, and starts without stored summaries. No other call allocates memory.
//! Each call takes constant time, except for that writing, for `twin`, and for two functions:
//!
//! - `summary` takes one step for each block of its range that has a stored summary, and one for each cell outside
//!   these blocks. If the range has a fault, it takes about as many steps again.
//! - `remember` reads the cells of those blocks of its range that have no summary.
#![tactic(auto)]

mod blocks;
mod faults;
mod kept;
mod run;
mod runs;
mod shown;

pub use blocks::LONG;
pub use kept::Kept;
pub use shown::Shown;
