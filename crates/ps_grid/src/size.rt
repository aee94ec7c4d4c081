//! The size of the grid, and what depends on it.
//!
//! - `COLUMNS`: a column is a `u8`, and so is a rectangle's width, so both stay below 256. A column's name has one
//!   letter or two, so there are at most `LETTERS + LETTERS * LETTERS` columns, which is 702.
//! - `ROWS`: a row is a `u16`, and so is a rectangle's height. In a name its digits follow two letters, so rows stay
//!   below 10,000 while `NAME_BYTES` is 6.
//! - `CELLS`: an index is stored in a `u32`. A new sheet allocates lists with a position for each cell. The most bytes
//!   of an imported table grow with this number.
//! - `NAME_BYTES`: every buffer for a name has this many bytes.
//!
//! So `COLUMNS` can double, and nothing else changes here. From 10,000 rows on, `NAME_BYTES` has to grow.

/// The number of columns, which are named A to CZ.
pub const COLUMNS: usize = 104;

/// The number of rows, which are numbered from 1.
pub const ROWS: usize = 1_024;

/// The number of cells in the grid.
pub const CELLS: usize = ROWS * COLUMNS;

/// The number of different letters that occur in names of columns: A to Z.
pub const LETTERS: usize = 26;

/// The most bytes of a cell's name: two letters and four digits.
pub const NAME_BYTES: usize = 6;

const _: () = prove!(COLUMNS <= LETTERS + LETTERS * LETTERS);

const _: () = prove!(COLUMNS < 256);

const _: () = prove!(ROWS < 10_000);
