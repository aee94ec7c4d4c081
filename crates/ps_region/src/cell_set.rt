//! Sets of cells.

ghost use Rattle.std.specs.Prelude.{◌≡◌, ◌+◌, ◌*◌, ◌/◌, ◌%◌, ◌<◌, ◌≤◌, ℕ, true, false, IfOk, IfErr, length};
ghost use Rattle.std.specs.Prelude.{nat_eq, ◌||◌, ◌&&◌, not};
ghost use Rattle.std.specs.List.{list_any};
ghost use Rattle.ps_grid.specs.declared.refusal.Refusal.TheVariants.{Memory};
ghost use Rattle.ps_grid.specs.declared.size.TheConstants.{CELLS as ALL};
ghost use Rattle.ps_region.specs.CellSets.{has_cell};
ghost use Rattle.ps_region.specs.Inside.Tallies.{block_of};

use ps_grid::{CELLS, COLUMNS, Cell, ROWS, Refusal};
use std::alloc::Global;
use std::marker::Model;

/// How many rows a block has.
pub(crate) const HIGH: usize = 64;

/// How many blocks a column has.
pub(crate) const BLOCKS: usize = ROWS / HIGH;

const _: () = prove!(BLOCKS * HIGH == ROWS);

/// A set of cells of the grid.
///
/// For each block (64 rows of one column) the set also counts how many of the block's cells it has. So a scan of a
/// range skips blocks without cells of the set. A contract sees the set as a table: for each cell of the grid, whether
/// that cell is in the set.
#[derive(Drop)]
pub struct CellSet {
    // for each cell whether it is in the set
    cells: Vec<bool>,
    // for each block how many of its cells are in the set
    blocks: Vec<u32>,
    // how many cells are in the set
    all: u32,
}

impl Model for CellSet {
    ghost use Rattle.std.specs.Prelude.{List, Bool};
    ghost use Rattle.ps_region.specs.Inside.Tallies.{IsTallied};

    ghost Value = { List Bool };

    ghost view = { λ s. s.cells.items };

    ghost invariant = { λ s. IsTallied s.cells.items s.blocks.items s.all };
}

/// The number of a cell's block.
#[inline]
fn block_at(c: Cell) -> usize
    ensures block { result ≡ block_of c }
    ensures below { result < COLUMNS * BLOCKS }
    ensures in_grid { c < ALL }
{
    // for the fact that the cell is in the grid
    let _place = c.index();
    c.column() as usize * BLOCKS + (c.row() as usize - 1) / HIGH
}

impl CellSet {
    /// Returns a set without cells.
    ///
    /// Fails only when out of memory. No other call of a set allocates memory.
    ///
    /// Cost: linear in the cells of the grid.
    pub fn new(alloc: Global) -> Result<CellSet, Refusal>
        ensures empty { IfOk result (λ s. (c : ℕ) → has_cell s c ≡ false) }
        ensures memory { IfErr result (λ e. e ≡ Memory) }
    {
        let cells = vec![in alloc; false; CELLS]?;
        let blocks = vec![in alloc; 0; COLUMNS * BLOCKS]?;
        Ok(CellSet {
            cells,
            blocks,
            all: 0,
        })
    }

    /// Returns whether the cell is in the set.
    #[inline]
    pub fn contains(&self, c: Cell) -> bool
        ensures { result ≡ has_cell self.now c }
    {
        self.cells[c.index()]
    }

    /// Returns whether no cell is in the set.
    #[inline]
    pub fn is_empty(&self) -> bool
        ensures none { result ≡ true → (c : ℕ) → has_cell self.now c ≡ false }
        ensures some { result ≡ false → (c : ℕ) × (has_cell self.now c ≡ true) }
    {
        self.all == 0
    }

    /// Returns whether no cell of the block of `c` is in the set.
    #[inline]
    pub(crate) fn is_clear(&self, c: Cell) -> bool
        ensures { result ≡ true → (d : ℕ) → block_of d ≡ block_of c → has_cell self.now d ≡ false }
    {
        self.blocks[block_at(c)] == 0
    }

    /// Puts a cell into the set. If the cell is in the set already, the call changes nothing.
    pub fn insert(&mut self, c: Cell)
        ensures { (d : ℕ) → has_cell self.new d ≡ (has_cell self.old d || nat_eq d c) }
    {
        let place = c.index();
        let block = block_at(c);
        if !self.cells[place] {
            self.cells[place] = true;
            self.blocks[block] += 1;
            self.all += 1;
        }
    }

    /// Takes a cell out of the set. If the cell isn't in the set, the call changes nothing.
    pub fn remove(&mut self, c: Cell)
        ensures { (d : ℕ) → has_cell self.new d ≡ (has_cell self.old d && not (nat_eq d c)) }
    {
        let place = c.index();
        let block = block_at(c);
        if self.cells[place] {
            self.cells[place] = false;
            self.blocks[block] -= 1;
            self.all -= 1;
        }
    }

    /// Puts each cell of a list into the set.
    pub fn insert_all(&mut self, cells: &[Cell])
        ensures { (d : ℕ) → has_cell self.new d ≡ (has_cell self.old d || list_any (nat_eq d) cells.now) }
    {
        for c in cells {
            self.insert(*c);
        }
    }

    /// Takes each cell of a list out of the set.
    pub fn remove_all(&mut self, cells: &[Cell])
        ensures { (d : ℕ) → has_cell self.new d ≡ (has_cell self.old d && not (list_any (nat_eq d) cells.now)) }
    {
        for c in cells {
            self.remove(*c);
        }
    }
}
