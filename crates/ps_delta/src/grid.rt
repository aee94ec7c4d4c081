//! The state of each cell of a sheet.

ghost use Rattle.std.specs.Prelude.{◌≡◌, ◌↔◌, ℕ, [], ◌∷◌, IsTrue, IfOk, IfErr, OnOk, OnErr};
ghost use Rattle.std.specs.List.Sorted.{IsStrictlyIncreasing};
ghost use Rattle.std.specs.Option.{IfSome, is_none};
ghost use Rattle.ps_lattice.specs.News.{IsNewsOf};
ghost use Rattle.ps_grid.specs.declared.refusal.Refusal.{Refusal};
ghost use Rattle.ps_delta.specs.State.{AreTouched, empty_state, HasPlace, IsBelow};
ghost use Rattle.ps_delta.specs.State.{IsInGrid, joined_blocks, joined_state};
ghost use Rattle.ps_delta.specs.State.{state_at, with_cell};
ghost use Rattle.ps_delta.specs.Deltas.{AreEntries, AreInGrid, IsDelta, cells_of, overlaid, state_of};
ghost use Rattle.ps_delta.specs.Changes.{AreChangesBy, HasRoomFor, entries_from};
ghost use Rattle.std.specs.Prelude.{length};
ghost use Rattle.ps_delta.specs.declared.grid.TheConstants.{BLOCKS};

use crate::block::{BLOCK, Block};
use crate::cell_state::CellState;
use crate::delta::Delta;
use crate::places;
use crate::touched::Touched;
use ps_grid::{CELLS, Cell, Refusal, Twin};
use ps_lattice::Join;
use std::alloc::Global;
use std::marker::Model;

/// The number of blocks of the grid.
const BLOCKS: usize = CELLS / BLOCK;

/// The state of each cell of the grid. A contract sees a grid as a list of blocks of 64 cells, and writes `state_at`
/// for the function from a cell to its state.
#[derive(Drop)]
pub struct Grid {
    // The cells by their index, 64 a block; a block has no states until a change first names one of its cells.
    blocks: Vec<Block>,
    // what `at` returns for each cell of a block without states
    empty: CellState,
}

impl Model for Grid {
    ghost use Rattle.std.specs.Prelude.{◌≡◌, length};
    ghost use Rattle.ps_delta.specs.State.{Blocks, empty_cell};
    ghost use Rattle.ps_delta.specs.declared.grid.TheConstants.{BLOCKS};
    ghost use Rattle.ps_delta.specs.contracts.cell_state.CellState as cell_state;
    ghost use Rattle.std.specs.Coded.{codes};

    ghost Value = { Blocks };

    ghost coded = { Prim.hlevel (codes, cell_state.the_row.coded) };

    ghost view = { λ g. g.blocks.items };

    ghost invariant = { λ g. (length g.blocks.items ≡ BLOCKS) × (g.empty ≡ empty_cell) };
}

impl Grid {
    /// Creates a grid in which each cell has the empty state.
    ///
    /// Refused only when out of memory.
    ///
    /// Cost: one allocation, for a table of the grid's blocks.
    pub fn new(alloc: Global) -> Result<Grid, Refusal>
        ensures empty { IfOk result (λ g. state_at g ≡ empty_state) }
        ensures memory { IfErr result (λ e. e ≡ Refusal.Memory) }
    {
        let mut blocks = Vec::with_capacity(alloc, BLOCKS)?;
        for _ in 0..BLOCKS {
            blocks.push(Block::new(alloc))?;
        }
        let empty = CellState::empty(alloc);
        Ok(Grid { blocks, empty })
    }

    /// Returns the state of the cell, which is empty if nobody has ever changed the cell.
    pub fn at(&self, cell: Cell) -> &CellState
        ensures value { result.now ≡ state_at self.now cell }
        ensures in_grid { IsInGrid (state_at self.now) }
    {
        let index = cell.index();
        self.blocks[index / BLOCK].at(index % BLOCK, &self.empty)
    }

    /// Returns all blocks of the grid.
    pub(crate) fn blocks(&self) -> &[Block]
        ensures same { result.now ≡ self.now }
        ensures all { length self.now ≡ BLOCKS }
    {
        &self.blocks
    }

    /// Joins the delta into the grid.
    ///
    /// This function is for callers that have a grid and no sheet. A sheet calls `changes_by` and then `exchange`
    /// instead, so that the sheet can undo a change that is cancelled.
    ///
    /// Refused only when out of memory, and then no cell's state is changed.
    ///
    /// Cost: as for `changes_by`, and memory for the list of the changed cells.
    pub fn join(&mut self, alloc: Global, delta: &Delta) -> Result<(), Refusal>
        ensures ok { OnOk result (state_at self.new ≡ joined_state (state_at self.old) (state_of delta.now)) }
        ensures err { OnErr result (state_at self.new ≡ state_at self.old) }
        ensures memory { IfErr result (λ e. e ≡ Refusal.Memory) }
    {
        let mut changes = Vec::new(alloc);
        self.changes_by(alloc, delta, &mut changes)?;
        self.exchange(&mut changes);
        Ok(())
    }

    /// Returns whether the delta is covered: joining the delta into the grid would change nothing.
    ///
    /// Cost: for each count and each pair of a cell in the delta, one search in the state that the grid has for the
    /// cell; no memory.
    pub fn covers(&self, delta: &Delta) -> bool
        ensures { IsTrue result ↔ IsBelow (state_of delta.now) (state_at self.now) }
    {
        let parts = delta.parts();
        for entry in parts {
            if !entry.1.below(self.at(entry.0)) {
                return false;
            }
        }
        true
    }

    /// Clears `touched` and fills it with the cells whose state a join of the delta would change. A cell is listed even
    /// if it would show the same value as before.
    ///
    /// This function is for a caller that asks before a join. A sheet gets the same cells from `changes_by`.
    ///
    /// Cost: as for `covers`.
    pub fn touched(&self, delta: &Delta, touched: &mut Touched)
        ensures { AreTouched (state_at self.now) (joined_state (state_at self.now) (state_of delta.now)) touched.new }
    {
        touched.clear();
        let parts = delta.parts();
        for change in parts {
            if !change.1.below(self.at(change.0)) {
                touched.add(change.0);
            }
        }
    }

    /// Returns the part of the delta that the grid doesn't have yet: the least delta that changes the grid as `delta`
    /// does.
    ///
    /// Returns `None` if the delta is covered, since the grid then has all of it.
    ///
    /// Refused only when out of memory, and never if the delta is covered.
    ///
    /// Cost: as for `covers`, and memory for the result.
    pub fn news(&self, alloc: Global, delta: &Delta) -> Result<Option<Delta>, Refusal>
        ensures news { IfOk result (λ o. IfSome o (λ d.
            IsNewsOf joined_state (state_at self.now) (state_of delta.now) (state_of d))) }
        ensures delta { IfOk result (λ o. IfSome o IsDelta) }
        ensures none { IfOk result (λ o. IsTrue (is_none o) ↔ IsBelow (state_of delta.now) (state_at self.now)) }
        ensures memory { IfErr result (λ e. e ≡ Refusal.Memory) }
        ensures asked { OnErr result (¬ IsBelow (state_of delta.now) (state_at self.now)) }
    {
        let parts = delta.parts();
        if parts.len() == 1 {
            return self.news_of_one(alloc, &parts[0]);
        }
        let cells = self.news_of(alloc, parts)?;
        Delta::of_list(alloc, cells)
    }

    /// As `news`, for a delta with one entry: a cell and its state.
    #[inline(always)]
    fn news_of_one(&self, alloc: Global, part: &(Cell, CellState)) -> Result<Option<Delta>, Refusal>
        ensures news { IfOk result (λ o. IfSome o (λ d.
            IsNewsOf joined_state (state_at self.now) (state_of (part.now ∷ [])) (state_of d))) }
        ensures delta { IfOk result (λ o. IfSome o IsDelta) }
        ensures none { IfOk result (λ o. IsTrue (is_none o) ↔ IsBelow (state_of (part.now ∷ [])) (state_at self.now)) }
        ensures memory { IfErr result (λ e. e ≡ Refusal.Memory) }
        ensures asked { OnErr result (¬ IsBelow (state_of (part.now ∷ [])) (state_at self.now)) }
    {
        let here = self.at(part.0);
        if part.1.below(here) {
            return Ok(None);
        }
        let new = here.news(alloc, &part.1)?;
        Ok(Some(Delta::of_filled(part.0, new)))
    }

    /// For each entry, the part that the grid doesn't have yet. Covered entries are left out.
    fn news_of(
        &self,
        alloc: Global,
        parts: &[(Cell, CellState)],
    ) -> Result<Vec<(Cell, CellState)>, Refusal>
        requires { IsDelta parts.now × AreInGrid parts.now }
        ensures news { IfOk result (λ v. IsNewsOf joined_state (state_at self.now) (state_of parts.now)
            (state_of v.items)) }
        ensures entries { IfOk result (λ v. AreEntries v.items × AreInGrid v.items) }
        ensures memory { IfErr result (λ e. e ≡ Refusal.Memory) }
        ensures asked { OnErr result (¬ IsBelow (state_of parts.now) (state_at self.now)) }
    {
        let mut cells = Vec::new(alloc);
        for part in parts {
            let here = self.at(part.0);
            if !part.1.below(here) {
                let new = here.news(alloc, &part.1)?;
                cells.push((part.0, new))?;
            }
        }
        Ok(cells)
    }

    /// Clears `list` and fills it with the cells that a join of the delta would change, ascending, each with the state
    /// that the cell would have after the join.
    ///
    /// No cell's state changes. The grid gets room for the delta's cells, so a later `exchange` takes no memory. A list
    /// that is reused grows only if `delta` has more cells than the delta of any earlier call.
    ///
    /// Refused only when out of memory, and then `list` may have only some of the cells.
    ///
    /// Cost: linear in the counts and pairs that the delta's cells have in the delta and in the grid. A block of the
    /// grid that has no states yet gets its 64 states.
    #[inline(always)]
    pub fn changes_by(
        &mut self,
        alloc: Global,
        delta: &Delta,
        list: &mut Vec<(Cell, CellState)>,
    ) -> Result<(), Refusal>
        ensures changes { OnOk result (AreChangesBy (state_at self.old) (state_of delta.now) list.new.items) }
        ensures ready { OnOk result (HasRoomFor self.new list.new.items) }
        ensures same { state_at self.new ≡ state_at self.old }
        ensures memory { IfErr result (λ e. e ≡ Refusal.Memory) }
    {
        let parts = delta.parts();
        list.clear();
        list.reserve(parts.len())?;
        for part in parts {
            self.make_place(alloc, part.0)?;
            let here = self.at(part.0);
            if !part.1.below(here) {
                let state = here.joined(alloc, &part.1)?;
                list.push((part.0, state))?;
            }
        }
        Ok(())
    }

    /// Swaps, for each cell of the list, the state in the grid with the state in the list. A second call with the same
    /// list undoes the first.
    ///
    /// Cost: linear in the number of listed cells; no memory.
    pub fn exchange(&mut self, cells: &mut [(Cell, CellState)])
        requires ready { HasRoomFor self.old cells.old }
        requires once { IsStrictlyIncreasing (cells_of cells.old) }
        ensures given { state_at self.new ≡ overlaid (state_at self.old) cells.old }
        ensures taken { cells.new ≡ entries_from (state_at self.old) cells.old }
        ensures ready { HasRoomFor self.new cells.new }
    {
        for i in 0..cells.len() {
            let entry = &mut cells[i];
            self.swap(entry.0, &mut entry.1);
        }
    }

    /// Swaps the state of the cell with `state`.
    fn swap(&mut self, cell: Cell, state: &mut CellState)
        requires { HasPlace self.old cell }
        ensures given { state_at self.new ≡ with_cell (state_at self.old) cell state.old }
        ensures taken { state.new ≡ state_at self.old cell }
        ensures places { (c : ℕ) → HasPlace self.old c → HasPlace self.new c }
    {
        let index = cell.index();
        self.blocks[index / BLOCK].swap(index % BLOCK, state);
    }

    /// Gives the cell's block its states, if it has none.
    fn make_place(&mut self, alloc: Global, cell: Cell) -> Result<(), Refusal>
        ensures same { state_at self.new ≡ state_at self.old }
        ensures places { (c : ℕ) → HasPlace self.old c → HasPlace self.new c }
        ensures place { OnOk result (HasPlace self.new cell) }
        ensures memory { IfErr result (λ e. e ≡ Refusal.Memory) }
    {
        self.blocks[cell.index() / BLOCK].fill(alloc)
    }
}

/// Grids are joined cell by cell.
///
/// Contracts distinguish a block with 64 empty states from one without states. All new blocks are made before any of
/// them replaces an old one, so a refused join changes nothing.
///
/// A sheet doesn't call it: it joins only deltas.
impl Join for Grid {
    ghost use Rattle.ps_delta.specs.State.{joined_blocks};
    ghost use Rattle.ps_delta.specs.CellLaws.{joined_blocks-comm, joined_blocks-assoc, joined_blocks-idem};

    ghost joined = { joined_blocks };

    fn join(&mut self, alloc: Global, other: &Grid) -> Result<(), Refusal>
        ensures ok { OnOk result (self.new ≡ joined_blocks self.old other.now) }
        ensures cells { OnOk result (state_at self.new ≡ joined_state (state_at self.old) (state_at other.now)) }
        ensures err { OnErr result (self.new ≡ self.old) }
        ensures memory { IfErr result (λ e. e ≡ Refusal.Memory) }
    {
        self.blocks = places::joined(alloc, &self.blocks, &other.blocks)?;
        Ok(())
    }

    fn below(&self, other: &Grid) -> bool {
        places::are_below(&self.blocks, &other.blocks)
    }

    ghost associative = { joined_blocks-assoc };

    ghost commutative = { joined_blocks-comm };

    ghost idempotent = { joined_blocks-idem };
}
