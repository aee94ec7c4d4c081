//! The state of a cell: a register, a counter and a set.

ghost use Rattle.std.specs.Prelude.{◌≡◌, ◌↔◌, IsTrue, IfOk, IfErr};
ghost use Rattle.ps_grid.specs.declared.refusal.Refusal.{Refusal};
ghost use Rattle.ps_lattice.specs.News.{IsNewsOf};
ghost use Rattle.ps_delta.specs.State.{empty_cell, joined_cell};

use ps_content::Content;
use ps_grid::{Refusal, Twin};
use ps_lattice::{Choice, Join, Merge, Register, Tally};
use std::alloc::Global;

/// The state of a cell: a register, a counter and a set. All three are stored, whichever of them the cell shows.
#[derive(Drop)]
pub struct CellState {
    /// The register: the cell's content, with the time and the replica of its assignment.
    pub register: Register<Content>,
    /// The counter.
    pub tally: Tally,
    /// The set of options.
    pub choice: Choice,
}

impl CellState {
    /// Creates the state of a cell that nobody has ever changed. It takes no memory.
    #[tactic(auto, unfolding(crate::specs::State::empty_cell))]
    pub fn empty(alloc: Global) -> CellState
        ensures { result ≡ empty_cell }
    {
        CellState {
            register: Register::empty(),
            tally: Tally::empty(alloc),
            choice: Choice::empty(alloc),
        }
    }

    /// Creates the state that has this register, counter and set.
    pub fn from_parts(register: Register<Content>, tally: Tally, choice: Choice) -> CellState
        ensures register { result.register ≡ register }
        ensures tally { result.tally ≡ tally }
        ensures choice { result.choice ≡ choice }
    {
        CellState {
            register,
            tally,
            choice,
        }
    }

    /// Returns the register, the counter and the set.
    pub fn parts(&self) -> (&Register<Content>, &Tally, &Choice)
        ensures register { result.0.now ≡ self.now.register }
        ensures tally { result.1.now ≡ self.now.tally }
        ensures choice { result.2.now ≡ self.now.choice }
    {
        (&self.register, &self.tally, &self.choice)
    }

    /// Returns whether nobody has ever changed the cell: nothing was assigned, counted or chosen there.
    #[tactic(auto, using(crate::specs::CellLaws::empty_from_parts), unfolding(crate::specs::State::empty_cell))]
    pub fn is_empty(&self) -> bool
        ensures { IsTrue result ↔ (self.now ≡ empty_cell) }
    {
        self.register.is_empty() && self.tally.is_empty() && self.choice.is_empty()
    }
}

impl CellState {
    /// Returns the join of this state and `other`: the joins of their registers, counters and sets.
    ///
    /// Refused only when out of memory.
    ///
    /// Cost: linear in the counts of both counters and the pairs of both sets.
    #[tactic(auto, unfolding(crate::specs::State::joined_cell))]
    #[inline(always)]
    pub fn joined(&self, alloc: Global, other: &CellState) -> Result<CellState, Refusal>
        ensures ok { IfOk result (λ s. s ≡ joined_cell self.now other.now) }
        ensures memory { IfErr result (λ e. e ≡ Refusal.Memory) }
    {
        Ok(CellState {
            register: self.register.joined(alloc, &other.register)?,
            tally: self.tally.joined(alloc, &other.tally)?,
            choice: self.choice.joined(alloc, &other.choice)?,
        })
    }

    /// Returns the part of `delta` that this state doesn't have yet: the new part of the register, of the counter and
    /// of the set. The result is an empty state if nothing is new.
    ///
    /// Refused only when out of memory.
    ///
    /// Cost: one search in this state for each count of `delta`'s counter and each pair of its set.
    pub fn news(&self, alloc: Global, delta: &CellState) -> Result<CellState, Refusal>
        ensures ok { IfOk result (λ s. IsNewsOf joined_cell self.now delta.now s) }
        ensures memory { IfErr result (λ e. e ≡ Refusal.Memory) }
    {
        Ok(CellState {
            register: self.register.news(alloc, &delta.register)?,
            tally: self.tally.news(alloc, &delta.tally)?,
            choice: self.choice.news(alloc, &delta.choice)?,
        })
    }
}

impl Twin for CellState {
    #[inline(always)]
    fn twin(&self, alloc: Global) -> Result<CellState, Refusal> {
        Ok(CellState {
            register: self.register.twin(alloc)?,
            tally: self.tally.twin(alloc)?,
            choice: self.choice.twin(alloc)?,
        })
    }
}

impl Join for CellState {
    ghost use Rattle.ps_delta.specs.State.{joined_cell};
    ghost use Rattle.ps_delta.specs.CellLaws.{joined_cell-comm, joined_cell-assoc, joined_cell-idem};

    ghost joined = { joined_cell };

    #[inline(always)]
    fn join(&mut self, alloc: Global, other: &CellState) -> Result<(), Refusal> {
        *self = self.joined(alloc, other)?;
        Ok(())
    }

    #[tactic(auto, using(crate::specs::CellLaws::below_from_parts), unfolding(crate::specs::State::joined_cell))]
    #[inline(always)]
    fn below(&self, other: &CellState) -> bool {
        self.register.below(&other.register)
            && self.tally.below(&other.tally)
            && self.choice.below(&other.choice)
    }

    ghost associative = { joined_cell-assoc };

    ghost commutative = { joined_cell-comm };

    ghost idempotent = { joined_cell-idem };
}

impl Merge for CellState {
    #[inline(always)]
    fn joined_with(&self, alloc: Global, other: &CellState) -> Result<CellState, Refusal> {
        self.joined(alloc, other)
    }
}
