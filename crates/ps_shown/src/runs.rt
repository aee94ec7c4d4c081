//! For each column, a run of blocks whose summaries are stored, so that `Shown::remember` needn't test each of them.
//!
//! It is a hint: no contract rests on it. If a block is missing from the run, `remember` tests that block once more.
ghost use Rattle.std.specs.Prelude.{◌<◌};

use crate::blocks::BLOCK;
use ps_grid::{COLUMNS, ROWS};

/// How many blocks a column has.
const COLUMN_BLOCKS: usize = (ROWS + BLOCK - 1) / BLOCK;

/// One run of remembered blocks (those with a stored summary) for each column. Blocks are numbered across columns.
#[derive(Drop)]
pub(crate) struct Runs {
    /// the first block of the column's run
    firsts: [usize; COLUMNS],
    /// the block after the last one of the column's run
    ends: [usize; COLUMNS],
}

impl Runs {
    /// Creates empty runs: no block is remembered.
    pub(crate) fn new() -> Runs {
        Runs {
            firsts: [0; COLUMNS],
            ends: [0; COLUMNS],
        }
    }

    /// Returns the first block, from `block` on, that isn't in the column's run.
    #[inline]
    pub(crate) fn past(&self, column: usize, block: usize) -> usize
        requires { column < COLUMNS }
    {
        if self.firsts[column] <= block && block < self.ends[column] {
            self.ends[column]
        } else {
            block
        }
    }

    /// Adds the remembered blocks `first..end` to the column's run. If there is a gap between them and the run, they
    /// replace it.
    pub(crate) fn extend(&mut self, column: usize, first: usize, end: usize)
        requires { column < COLUMNS }
    {
        if first <= self.ends[column] && self.firsts[column] <= end {
            self.firsts[column] = self.firsts[column].min(first);
            self.ends[column] = self.ends[column].max(end);
        } else {
            self.firsts[column] = first;
            self.ends[column] = end;
        }
    }

    /// Removes a block, and all blocks after it, from its column's run.
    pub(crate) fn cut(&mut self, block: usize) {
        let column = block / COLUMN_BLOCKS;
        if column < COLUMNS && self.firsts[column] <= block && block < self.ends[column] {
            self.ends[column] = block;
        }
    }
}
