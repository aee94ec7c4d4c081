//! Cell states in blocks.

ghost use Rattle.std.specs.Prelude.{◌≡◌, ◌↔◌, ◌<◌, ◌≤◌, ℕ, [], IsTrue, IfOk, IfErr, OnOk, length, slice_index_or};
ghost use Rattle.std.specs.Prelude.{slice_set};
ghost use Rattle.ps_grid.specs.declared.refusal.Refusal.{Refusal};
ghost use Rattle.ps_delta.specs.State.{empty_cell};

use crate::cell_state::CellState;
use crate::places;
use ps_grid::{Refusal, Twin};
use ps_lattice::{Join, Merge};
use std::alloc::Global;
use std::marker::Model;
use std::mem;

/// How many cells a block has.
pub(crate) const BLOCK: usize = 64;

/// The states of the 64 cells of a block, or no states until a change first names one of its cells.
#[derive(Drop)]
pub(crate) struct Block {
    cells: Vec<CellState>,
}

impl Model for Block {
    ghost use Rattle.std.specs.Prelude.{List};
    ghost use Rattle.ps_delta.specs.declared.cell_state.CellState.{CellState};
    ghost use Rattle.ps_delta.specs.contracts.cell_state.CellState as cell_state;
    ghost use Rattle.std.specs.Coded.{codes};

    ghost Value = { List CellState };

    ghost coded = { Prim.hlevel (codes, cell_state.the_row.coded) };

    ghost view = { λ b. b.cells.items };
}

impl Block {
    /// Creates a block without states: all its cells are empty. It takes no memory.
    pub(crate) fn new(alloc: Global) -> Block
        ensures { result ≡ [] }
    {
        Block {
            cells: Vec::new(alloc),
        }
    }

    /// Returns whether the block has no states, so that all its cells are empty.
    pub(crate) fn is_unmade(&self) -> bool
        ensures { IsTrue result ↔ (self.now ≡ []) }
    {
        self.cells.is_empty()
    }

    /// Returns the state at a position, or `empty` if the block has no state there.
    pub(crate) fn at<'a>(&'a self, place: usize, empty: &'a CellState) -> &'a CellState
        ensures { result.now ≡ slice_index_or self.now place empty.now }
    {
        if place < self.cells.len() {
            &self.cells[place]
        } else {
            empty
        }
    }

    /// Swaps the state at a position with `state`.
    pub(crate) fn swap(&mut self, place: usize, state: &mut CellState)
        requires { place < length self.old }
        ensures given { self.new ≡ slice_set self.old place state.old }
        ensures taken { state.new ≡ slice_index_or self.old place empty_cell }
    {
        mem::swap(&mut self.cells[place], state);
    }

    /// Adds empty states if the block has fewer than 64.
    #[inline(always)]
    pub(crate) fn fill(&mut self, alloc: Global) -> Result<(), Refusal>
        ensures same { (p : ℕ) → slice_index_or self.new p empty_cell ≡ slice_index_or self.old p empty_cell }
        ensures longer { length self.old ≤ length self.new }
        ensures full { OnOk result (BLOCK ≤ length self.new) }
        ensures memory { IfErr result (λ e. e ≡ Refusal.Memory) }
    {
        if self.cells.len() < BLOCK {
            self.add_cells(alloc)?;
        }
        Ok(())
    }

    /// Adds empty states until the block has 64.
    #[inline(never)]
    fn add_cells(&mut self, alloc: Global) -> Result<(), Refusal>
        ensures same { (p : ℕ) → slice_index_or self.new p empty_cell ≡ slice_index_or self.old p empty_cell }
        ensures longer { length self.old ≤ length self.new }
        ensures full { OnOk result (BLOCK ≤ length self.new) }
        ensures memory { IfErr result (λ e. e ≡ Refusal.Memory) }
    {
        self.cells
            .reserve_exact(BLOCK.saturating_sub(self.cells.len()))?;
        while self.cells.len() < BLOCK {
            self.cells.push(CellState::empty(alloc))?;
        }
        Ok(())
    }
}

impl Twin for Block {
    fn twin(&self, alloc: Global) -> Result<Block, Refusal> {
        let mut cells = Vec::with_capacity(alloc, self.cells.len())?;
        for state in &self.cells {
            cells.push(state.twin(alloc)?)?;
        }
        Ok(Block { cells })
    }
}

/// Blocks are joined position by position.
impl Join for Block {
    ghost use Rattle.ps_delta.specs.State.{joined_cells};
    ghost use Rattle.ps_delta.specs.CellLaws.{joined_cells-comm, joined_cells-assoc, joined_cells-idem};

    ghost joined = { joined_cells };

    fn join(&mut self, alloc: Global, other: &Block) -> Result<(), Refusal> {
        *self = self.joined_with(alloc, other)?;
        Ok(())
    }

    fn below(&self, other: &Block) -> bool {
        places::are_below(&self.cells, &other.cells)
    }

    ghost associative = { joined_cells-assoc };

    ghost commutative = { joined_cells-comm };

    ghost idempotent = { joined_cells-idem };
}

impl Merge for Block {
    fn joined_with(&self, alloc: Global, other: &Block) -> Result<Block, Refusal> {
        Ok(Block {
            cells: places::joined(alloc, &self.cells, &other.cells)?,
        })
    }
}
