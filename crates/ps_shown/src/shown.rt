//! The table of what each cell shows.
ghost use Rattle.std.specs.Prelude.{◌≡◌, ◌^◌, ◌<◌, ◌≤◌, ℕ, length, slice_index_or, vec_capacity, IfOk, IfErr};
ghost use Rattle.std.specs.Prelude.{List, ◌∷◌};
ghost use Rattle.ps_grid.specs.declared.size.TheConstants.{CELLS as ALL};
ghost use Rattle.ps_grid.specs.Rectangle.{LiesInGrid};
ghost use Rattle.ps_grid.specs.declared.refusal.Refusal.TheVariants.{Memory};
ghost use Rattle.ps_value.specs.declared.value.Value.TheVariants.{Empty as Nothing};
ghost use Rattle.ps_value.specs.Operand.{operand_of};
ghost use Rattle.ps_shown.specs.declared.kept.Kept.TheVariants.{Empty};
ghost use Rattle.ps_shown.specs.Kept.{value_of};
ghost use Rattle.ps_shown.specs.Shown.{LieBelow, place_of, shown_at, with_value};
ghost use Rattle.ps_shown.specs.Sums.{column_items, items_by_columns};
ghost use Rattle.ps_eval.specs.Number.{Number};
ghost use Rattle.ps_eval.specs.Summarized.{Summarizes, numbers_taken};
ghost use Rattle.ps_eval.specs.Items.{first_fault, range_items};

use crate::blocks::{BLOCK, follow, remember_blocks, summary_between};
use crate::faults::{fault_at, place_of_fault};
use crate::kept::Kept;
use crate::runs::Runs;
use ps_eval::{Look, Summary};
use ps_grid::{COLUMNS, Cell, ROWS, Rect, Refusal, Twin};
use ps_value::{Fault, Operand, Value};
use std::alloc::Global;
use std::marker::Model;
use std::mem;

/// The places from the top of one column to the top of the next: whole blocks, enough for the rows of a column.
const STRIDE: usize = (ROWS + BLOCK - 1) / BLOCK * BLOCK;

/// `summary` reads a range of several columns row by row if it has fewer rows than this, else column by column. So few
/// rows of a column aren't worth the preparation.
const FEW_ROWS: usize = 4;

/// The number of places of a table.
const PLACES: usize = STRIDE * COLUMNS;

/// The number of blocks of a table.
const BLOCKS: usize = PLACES / BLOCK;

/// The table of what each cell shows. A contract sees the table as a list of stored values (`Kept`), and `shown_at`
/// gives the value that a cell shows by this list.
#[derive(Drop)]
pub struct Shown {
    /// the cells, column after column, up to the last one that was ever put; its capacity is all places
    kept: Vec<Kept>,
    /// the stored summaries of blocks, else `None`, up to the last block that ever had one; its capacity is all blocks
    sums: Vec<Option<Summary>>,
    /// a run of blocks with stored summaries for each column
    runs: Runs,
    /// what `kept` returns for a cell beyond the end of the list
    empty: Kept,
}

impl Model for Shown {
    ghost use Rattle.std.specs.Prelude.{◌≡◌, ◌≤◌, List, vec_capacity};
    ghost use Rattle.ps_shown.specs.declared.kept.Kept.{Kept};
    ghost use Rattle.ps_shown.specs.declared.kept.Kept.TheVariants.{Empty};
    ghost use Rattle.ps_shown.specs.declared.shown.TheConstants.{BLOCKS, PLACES};
    ghost use Rattle.ps_shown.specs.Blocks.{AreRemembered};
    ghost use Rattle.ps_shown.specs.Shown.{KeepsCells};

    ghost Value = { List Kept };

    ghost view = { λ s. s.kept.items };

    ghost invariant = { λ s. (PLACES ≤ vec_capacity s.kept) × (s.empty ≡ Empty)
        × (BLOCKS ≤ vec_capacity s.sums) × AreRemembered s.kept.items s.sums.items × KeepsCells s.kept.items };
}

/// The place of a cell in the table.
#[inline]
fn place(cell: Cell) -> usize
    ensures place { result ≡ place_of cell }
    ensures within { result < PLACES }
    ensures in_grid { cell < ALL }
{
    let index = cell.index();
    index % COLUMNS * STRIDE + index / COLUMNS
}

/// How many places below its last row a range also covers in each column. A range that reaches the bottom row covers
/// the empty places up to the column's end, so that its last block is whole. Any other range covers none.
fn places_below(rect: Rect) -> usize
    ensures { LieBelow rect result }
{
    // tells the prover that the range lies in the grid
    let _ = rect.area();
    if rect.bottom_right().index() >= (ROWS - 1) * COLUMNS {
        STRIDE - ROWS
    } else {
        0
    }
}

/// Extends the list with empty places up to this one.
fn reach(kept: &mut Vec<Kept>, place: usize)
    requires room { place < vec_capacity kept.old }
    ensures reached { place < length kept.new.items }
    ensures same { (p : ℕ) → slice_index_or kept.new.items p Empty ≡ slice_index_or kept.old.items p Empty }
    ensures capacity { vec_capacity kept.old ≤ vec_capacity kept.new }
{
    while kept.len() <= place {
        kept.push_reserved(Kept::Empty);
    }
}

/// The summary of a fault, followed by the items of another summary.
fn led_by(fault: Fault, others: &Summary) -> Summary
    requires room { numbers_taken others.now < 2 ^ 60 }
    ensures { (items : List Number) → Summarizes items others.now → Summarizes (Err fault ∷ items) result }
{
    let mut summary = Summary::new();
    summary.take_cell(Operand::Err(fault));
    summary.join(others);
    summary
}

impl Shown {
    /// Creates a table where each cell shows nothing. Fails only when out of memory.
    ///
    /// Cost: two allocations, 2 MB together; nothing is written to them yet.
    pub fn new(alloc: Global) -> Result<Shown, Refusal>
        ensures empty { IfOk result (λ s. shown_at s ≡ λ _. Nothing) }
        ensures memory { IfErr result (λ e. e ≡ Memory) }
    {
        let kept = Vec::with_capacity(alloc, PLACES)?;
        let sums = Vec::with_capacity(alloc, BLOCKS)?;
        Ok(Shown {
            kept,
            sums,
            runs: Runs::new(),
            empty: Kept::Empty,
        })
    }

    /// Returns the value that a cell shows. The bytes of a text are copied.
    pub fn at(&self, cell: Cell) -> Value
        ensures { result ≡ shown_at self.now cell }
    {
        self.kept(cell).value()
    }

    /// Returns the stored form of what a cell shows, without a copy.
    #[inline]
    pub fn kept(&self, cell: Cell) -> &Kept
        ensures { value_of result.now ≡ shown_at self.now cell }
    {
        let place = place(cell);
        if place < self.kept.len() {
            &self.kept[place]
        } else {
            &self.empty
        }
    }

    /// Returns the part of a cell's value that evaluation needs. For a text that is only the fact that there is a text,
    /// and for options it is how many are chosen.
    #[inline]
    pub fn operand(&self, cell: Cell) -> Operand
        ensures { result ≡ operand_of (shown_at self.now cell) }
    {
        self.kept(cell).operand()
    }

    /// Returns what SUM, MIN, MAX and COUNT need to know of the numbers and faults in a range. If the range has several
    /// faults, the summary has the first one, row by row.
    ///
    /// Cost: a step for each block with a stored summary that lies in the range as a whole, and one for each other cell
    /// of the range. A block has 57 rows of a column, and a column's last block has 55. If a range of several columns
    /// has a fault, the search for the first fault costs at most as much again, and a step for each cell of one more
    /// block in each column.
    pub fn summary(&self, rect: Rect) -> Summary
        ensures { Summarizes (range_items (shown_at self.now) rect) result }
    {
        // tells the prover that the range lies in the grid
        let _ = rect.area();
        if rect.width() == 1 {
            return self.column(rect, 0, places_below(rect));
        }
        if rect.height() < FEW_ROWS {
            return self.summary_by_cells(rect);
        }
        let summary = self.columns(rect);
        if !summary.has_fault() {
            return summary;
        }
        match self.first_fault(rect) {
            Some(fault) => led_by(fault, &summary),
            None => summary,
        }
    }

    /// The first fault of a range, row by row. In each column it reads only the rows above the faults found so far.
    fn first_fault(&self, rect: Rect) -> Option<Fault>
        ensures { result ≡ first_fault (range_items (shown_at self.now) rect) }
    {
        // tells the prover that the range lies in the grid
        let _ = rect.area();
        let columns = rect.width();
        let mut rows = rect.height();
        let mut first = None;
        let mut across = 0;
        'search: while across < columns {
            let top = place(rect.at(across, 0));
            let end = top + rows;
            let found = place_of_fault(&self.kept, &self.sums, top, end);
            across += 1;
            if found < end {
                first = fault_at(&self.kept, found);
                rows = found - top;
            }
        }
        first
    }

    /// The summary of a range, column after column. So its first fault may not be the first one row by row.
    fn columns(&self, rect: Rect) -> Summary
        ensures summary { Summarizes (items_by_columns (shown_at self.now) rect rect.width) result }
        ensures in_grid { LiesInGrid rect }
    {
        // tells the prover that the range lies in the grid
        let _ = rect.area();
        let below = places_below(rect);
        let mut summary = Summary::new();
        for across in 0..rect.width() {
            summary.join(&self.column(rect, across, below));
        }
        summary
    }

    /// The summary of one column of a range, and of the `below` empty places after the column's rows.
    fn column(&self, rect: Rect, across: usize, below: usize) -> Summary
        requires across { across < rect.width }
        requires below { LieBelow rect below }
        ensures { Summarizes (column_items (shown_at self.now) rect across) result }
    {
        // tells the prover that the range lies in the grid
        let _ = rect.area();
        let top = place(rect.at(across, 0));
        summary_between(&self.kept, &self.sums, top, top + rect.height() + below)
    }

    /// Stores the summary of each block that lies in the range as a whole. What the cells show stays the same, and the
    /// call allocates no memory. A block has 57 rows of a column, and a column's last block has 55.
    ///
    /// Until `put` drops the summary of a block, `summary` reads it in place of the block's cells.
    ///
    /// Cost: linear in the blocks of the range, and in the cells of those blocks that have no stored summary yet. A
    /// column costs constant time if the table has noted that all its blocks in the range have summaries.
    pub fn remember(&mut self, rect: Rect)
        ensures { self.new ≡ self.old }
    {
        let below = places_below(rect);
        for column in 0..rect.width() {
            self.remember_column(rect, column, below);
        }
    }

    /// Stores the summaries for one column of the range and the `below` empty places after its rows.
    fn remember_column(&mut self, rect: Rect, across: usize, below: usize)
        requires across { across < rect.width }
        requires below { LieBelow rect below }
        ensures { self.new ≡ self.old }
    {
        // tells the prover that the range lies in the grid
        let _ = rect.area();
        let top = place(rect.at(across, 0));
        let first = top.div_ceil(BLOCK);
        let end = (top + rect.height() + below) / BLOCK;
        let column = top / STRIDE;
        let from = self.runs.past(column, first);
        if from < end {
            remember_blocks(&self.kept, &mut self.sums, from, end);
            self.runs.extend(column, first, end);
        }
    }

    /// Stores what a cell shows from now on, and returns what the cell showed before. The call allocates no memory.
    ///
    /// If the cell's block has a stored summary, `put` updates the summary. In two cases it drops the summary instead:
    ///
    /// - Before the call, some cell of the block showed a fault; that may be the cell itself.
    /// - The cell's old number was the least or the greatest of the block, even if the new number is the same.
    ///
    /// After a drop, the next `remember` of the block reads all its cells.
    ///
    /// Cost: a put beyond the last place of all earlier puts also writes the places between. All these writes together
    /// cover the table once at most.
    #[inline(always)]
    pub fn put(&mut self, cell: Cell, kept: Kept) -> Kept
        ensures shown { shown_at self.new ≡ with_value (shown_at self.old) cell (value_of kept) }
        ensures old { value_of result ≡ shown_at self.old cell }
    {
        let place = place(cell);
        reach(&mut self.kept, place);
        follow(&self.kept, &mut self.sums, &mut self.runs, place, &kept);
        mem::replace(&mut self.kept[place], kept)
    }
}

/// Evaluation reads the table directly; `summary` uses the stored summaries of blocks.
impl Look for Shown {
    ghost use Rattle.ps_shown.specs.Shown.{shown_at};

    ghost value_at = { λ s. shown_at s };

    fn at(&self, cell: Cell) -> Value {
        self.kept(cell).value()
    }

    fn operand(&self, cell: Cell) -> Operand {
        self.kept(cell).operand()
    }

    fn summary(&self, rect: Rect) -> Summary {
        Shown::summary(self, rect)
    }
}

/// The twin shares each text, and starts without stored summaries.
impl Twin for Shown {
    fn twin(&self, alloc: Global) -> Result<Shown, Refusal> {
        let mut kept = Vec::with_capacity(alloc, PLACES)?;
        let sums = Vec::with_capacity(alloc, BLOCKS)?;
        for one in &self.kept {
            kept.push(one.twin(alloc)?)?;
        }
        Ok(Shown {
            kept,
            sums,
            runs: Runs::new(),
            empty: Kept::Empty,
        })
    }
}
