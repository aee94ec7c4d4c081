//! The region of the last change.

ghost use Rattle.std.specs.Prelude.{◌≡◌, ◌⊎◌, ◌<◌, ◌≤◌, ℕ, [], true, false, nat_eq, if◌then◌else◌, Some, None, IfOk};
ghost use Rattle.std.specs.Prelude.{IfErr, length, slice_index, slice_index_or, vec_capacity};
ghost use Rattle.std.specs.List.{list_any};
ghost use Rattle.ps_grid.specs.declared.refusal.Refusal.TheVariants.{Memory};
ghost use Rattle.ps_grid.specs.declared.size.TheConstants.{CELLS as ALL};
ghost use Rattle.ps_grid.specs.Chains.{In, InRegion, IsCyclic};
ghost use Rattle.ps_region.specs.CellSets.{has_cell};
ghost use Rattle.ps_region.specs.Found.{IsFound, has_left, level_cells, level_count};
ghost use Rattle.ps_region.specs.Listed.{listed};

use crate::after::After;
use crate::cell_set::CellSet;
use crate::change::MarkedChange;
use crate::grow::grow;
use crate::levels::{assign_levels, first_level, list_held};
use crate::members::{clear, note_touched};
use crate::outside::count_outside;
use ps_grid::{CELLS, Cell, Refusal};
use ps_index::Index;
use std::alloc::Global;
use std::marker::Model;

/// The region of the last marked change (the cells whose values may change), with its levels and its cyclic cells.
///
/// It owns the working memory of [`Region::mark`]. A contract sees it as what the last mark found (`Found`).
#[derive(Drop)]
pub struct Region {
    // for each cell whether it is a member; this table and the next five are empty until the first mark
    marks: Vec<bool>,
    // for each cell whether it was touched
    fresh: Vec<bool>,
    // for each cell whether it is a member without a formula
    plain: Vec<bool>,
    // for each member how many of the cells that it refers to have no level
    left: Vec<u32>,
    // for each cell of a level the level's number
    level: Vec<u32>,
    // for each member the number that notes which cells refer to it, if they are one or two (see `noted`)
    sole: Vec<u32>,
    // the cells of the region, each once
    members: Vec<Cell>,
    // the cells of the levels, one level after the other
    order: Vec<Cell>,
    // the place where each level begins, and at the end the place after the last one
    starts: Vec<u32>,
    // the cyclic cells of the region
    cyclic: Vec<Cell>,
}

impl Model for Region {
    ghost use Rattle.ps_region.specs.Found.{Found};

    ghost Value = { Found };

    ghost use Rattle.ps_region.specs.Inside.Scratch.{IsScratch, found_of};

    ghost view = { found_of };

    ghost invariant = { IsScratch };
}

impl Region {
    /// Returns a region without cells, levels or cyclic cells, with room for the whole grid. No other call allocates.
    ///
    /// Fails only when out of memory.
    ///
    /// Cost: ten allocations, 3.3 MB together; nothing is written yet.
    pub fn new(alloc: Global) -> Result<Region, Refusal>
        ensures empty { IfOk result (λ r. r.members ≡ []) }
        ensures no_level { IfOk result (λ r. level_count r ≡ 0) }
        ensures no_cyclic { IfOk result (λ r. r.cyclic ≡ []) }
        ensures memory { IfErr result (λ e. e ≡ Memory) }
    {
        let marks = Vec::with_capacity(alloc, CELLS)?;
        let fresh = Vec::with_capacity(alloc, CELLS)?;
        let plain = Vec::with_capacity(alloc, CELLS)?;
        let left = Vec::with_capacity(alloc, CELLS)?;
        let level = Vec::with_capacity(alloc, CELLS)?;
        let sole = Vec::with_capacity(alloc, CELLS)?;
        let members = Vec::with_capacity(alloc, CELLS)?;
        let order = Vec::with_capacity(alloc, CELLS)?;
        let starts = Vec::with_capacity(alloc, CELLS + 1)?;
        let cyclic = Vec::with_capacity(alloc, CELLS)?;
        Ok(Region {
            marks,
            fresh,
            plain,
            left,
            level,
            sole,
            members,
            order,
            starts,
            cyclic,
        })
    }

    /// Finds the region of a change, its levels and its cyclic cells. They replace those of the last mark. The call
    /// allocates no memory.
    ///
    /// - `touched` has the cells that the change gives a new state.
    /// - `after` has the formulas after the change.
    /// - `index` has the formulas of `after`, and may still have formulas that touched cells had before the change.
    /// - `cyclic` has each cell outside the region that is cyclic after the change. It may also have cells of the
    ///   region, cyclic or not; they make no difference.
    ///
    /// Cost: the cells of the region and the references to them. If `cyclic` isn't empty, also the references of the
    /// region's formulas. The first mark also writes six tables of the grid's size.
    pub fn mark<A: After>(&mut self, index: &Index, after: &A, touched: &[Cell], cyclic: &CellSet)
        requires lists_all { (c d : ℕ) → A.refers after.now c d ≡ true → In (listed index.now d) c }
        requires extra { (c d : ℕ) → d < ALL → In (listed index.now d) c
            → (A.refers after.now c d ≡ true) ⊎ In touched.now c }
        requires outside_yes { (c : ℕ) → (InRegion (A.refers after.now) touched.now c → ⊥)
            → has_cell cyclic.now c ≡ true → IsCyclic (A.refers after.now) c }
        requires outside_no { (c : ℕ) → (InRegion (A.refers after.now) touched.now c → ⊥)
            → IsCyclic (A.refers after.now) c → has_cell cyclic.now c ≡ true }
        ensures found { IsFound (A.refers after.now) (A.formula after.now) touched.now self.new }
    {
        fill(&mut self.marks, false);
        fill(&mut self.fresh, false);
        fill(&mut self.plain, false);
        fill(&mut self.left, 0);
        fill(&mut self.level, 0);
        fill(&mut self.sole, 0);
        let marks: &mut [bool] = &mut self.marks;
        let fresh: &mut [bool] = &mut self.fresh;
        let plain: &mut [bool] = &mut self.plain;
        let left: &mut [u32] = &mut self.left;
        let level: &mut [u32] = &mut self.level;
        let sole: &mut [u32] = &mut self.sole;
        let members = &mut self.members;
        let order = &mut self.order;
        let starts = &mut self.starts;
        clear(marks, fresh, plain, members);
        note_touched(after, touched, fresh, plain);
        let change = MarkedChange {
            index,
            after,
            touched,
            outside: cyclic,
            fresh,
            plain,
        };
        grow(&change, marks, left, members, sole);
        count_outside(&change, marks, members, left);
        order.clear();
        first_level(plain, left, level, members, order);
        starts.clear();
        assign_levels(&change, marks, sole, left, level, order, starts);
        self.cyclic.clear();
        list_held(plain, left, members, &mut self.cyclic);
    }

    /// Returns whether the cell is in the region.
    pub fn contains(&self, c: Cell) -> bool
        ensures { result ≡ list_any (nat_eq c) self.now.members }
    {
        let place = c.index();
        place < self.marks.len() && self.marks[place]
    }

    /// Returns the cells of the region, each once, in unspecified order.
    pub fn members(&self) -> &[Cell]
        ensures { result.now ≡ self.now.members }
    {
        &self.members
    }

    /// Returns how many levels the region has; see [`Region::level`].
    pub fn levels(&self) -> usize
        ensures { result ≡ level_count self.now }
    {
        self.starts.len().saturating_sub(1)
    }

    /// Returns the cells of level `n`, each once: those to evaluate in step `n` of a recalculation.
    ///
    /// Levels are counted from 1 to `levels()`; for any other `n` the slice is empty. The levels together have the
    /// formula cells of the region that reach no cycle. A cell's level is the number of cells in the longest chain of
    /// references that begins at the cell and has only cells of the levels. So a cell refers only to cells of lower
    /// levels and to cells without a level.
    pub fn level(&self, n: usize) -> &[Cell]
        ensures inside { 0 < n → n ≤ level_count self.now → result.now ≡ level_cells self.now n }
        ensures other { level_count self.now < n → result.now ≡ [] }
        ensures none { n ≡ 0 → result.now ≡ [] }
    {
        if n == 0 || n >= self.starts.len() {
            return &[];
        }
        let from = self.starts[n - 1] as usize;
        let to = self.starts[n] as usize;
        &self.order[from..to]
    }

    /// Returns the formula cells of the region that reach a cycle, each once, in unspecified order.
    pub fn cyclic(&self) -> &[Cell]
        ensures { result.now ≡ self.now.cyclic }
    {
        &self.cyclic
    }

    /// Returns whether the cell is in the region and has a formula after the change.
    pub fn is_formula(&self, c: Cell) -> bool
        ensures { result ≡ has_left self.now c }
    {
        self.contains(c) && !self.plain[c.index()]
    }

    /// Returns how many cyclic cells the formula of a cell refers to, or `None` if the cell isn't a formula cell of the
    /// region. The count of a cell in a level is 0.
    ///
    /// Nothing in the program calls `left`. It is part of the public interface, and shows the counts by which a mark
    /// tells cells of levels from cyclic cells.
    pub fn left(&self, c: Cell) -> Option<usize>
        ensures { result ≡ (if has_left self.now c then Some (slice_index self.now.left c) else None) }
    {
        if self.is_formula(c) {
            Some(self.left[c.index()] as usize)
        } else {
            None
        }
    }
}

/// Extends a table that no mark has written yet to the whole grid, with this value for each new cell.
#[inline]
fn fill<T: Copy>(table: &mut Vec<T>, value: T)
    requires short { length table.old.items ≤ ALL }
    requires room { ALL ≤ vec_capacity table.old }
    ensures length { length table.new.items ≡ ALL }
    ensures same { (c : ℕ) → slice_index_or table.new.items c value ≡ slice_index_or table.old.items c value }
    ensures room { ALL ≤ vec_capacity table.new }
{
    if table.len() < CELLS {
        // there is room, so it doesn't fail
        let _ = table.resize(CELLS, value);
    }
}
