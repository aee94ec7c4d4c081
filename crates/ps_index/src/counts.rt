//! How many spans of a column are stored up to each row.

ghost use Rattle.std.specs.Prelude.{◌≡◌, ℕ, ◌+◌, ◌-◌, ◌^◌, ◌<◌, ◌≤◌, cond, nat_le, length, get_or, max, min};
ghost use Rattle.std.specs.Prelude.{IfOk, IfErr, vec_capacity};
ghost use Rattle.ps_grid.specs.declared.refusal.Refusal.TheVariants.{Memory};
ghost use Rattle.ps_grid.specs.declared.size.TheConstants.{ROWS};

use ps_grid::{ROWS, Refusal};
use std::alloc::Global;
use std::marker::Model;

/// Where the spans of a row stand among those of a column.
#[derive(Clone, Copy)]
pub(crate) struct Places {
    /// the place of the first
    pub(crate) from: u32,
    /// the place after the last
    pub(crate) to: u32,
}

/// How many spans of a column are stored up to each row. A contract sees it as the list of these counts, from row 0 on.
///
/// Counts are stored up to the last row at which a span was ever stored. Each later row has that row's count.
#[derive(Drop)]
pub(crate) struct RowCounts {
    /// the counts of the rows from 0 up to the last one; there is room for all
    ends: Vec<u32>,
}

impl Model for RowCounts {
    ghost use Rattle.std.specs.Prelude.{◌+◌, ◌-◌, ◌<◌, ◌≤◌, List, ℕ, length, vec_capacity};
    ghost use Rattle.ps_grid.specs.declared.size.TheConstants.{ROWS};
    ghost use Rattle.ps_index.specs.Inside.Counts.{all_counts};

    ghost Value = { List ℕ };

    ghost view = { λ c. all_counts c.ends.items (length c.ends.items - 1) };

    ghost invariant = { λ c. (0 < length c.ends.items) × (length c.ends.items ≤ ROWS + 1)
        × (ROWS + 1 ≤ vec_capacity c.ends) };
}

impl RowCounts {
    /// The counts where no span is stored. Fails only when out of memory.
    pub(crate) fn new(alloc: Global) -> Result<RowCounts, Refusal>
        ensures size { IfOk result (λ c. length c ≡ ROWS + 1) }
        ensures none { IfOk result (λ c. (j : ℕ) → j ≤ ROWS → get_or c j 0 ≡ 0) }
        ensures memory { IfErr result (λ e. e ≡ Memory) }
    {
        let mut ends = Vec::with_capacity(alloc, ROWS + 1)?;
        ends.push_reserved(0);
        Ok(RowCounts { ends })
    }

    /// Returns the places of the spans that are stored at a row.
    #[inline(always)]
    pub(crate) fn kept_at(&self, row: usize) -> Places
        requires some { 1 ≤ row }
        requires in_grid { row ≤ ROWS }
        ensures from { result.from ≡ get_or self.now (row - 1) 0 }
        ensures to { result.to ≡ get_or self.now row 0 }
    {
        if row < self.ends.len() {
            Places {
                from: self.ends[row - 1],
                to: self.ends[row],
            }
        } else {
            let all = self.ends[self.ends.len() - 1];
            Places { from: all, to: all }
        }
    }

    /// Counts one more at the row and at each row after it.
    pub(crate) fn raise(&mut self, row: usize)
        requires in_grid { row ≤ ROWS }
        requires room { (j : ℕ) → j < length self.old → get_or self.old j 0 + 1 < 2 ^ 32 }
        ensures length { length self.new ≡ length self.old }
        ensures raised { (j : ℕ) → j < length self.old
            → get_or self.new j 0 ≡ get_or self.old j 0 + cond (nat_le row j) 1 0 }
    {
        extend(&mut self.ends, row);
        raise_from(&mut self.ends, row);
    }

    /// Counts one less at a row at which a span is stored, and at each row after it.
    pub(crate) fn lower(&mut self, row: usize)
        requires in_grid { row ≤ ROWS }
        requires there { get_or self.old (row - 1) 0 < get_or self.old row 0 }
        requires some { (j : ℕ) → row ≤ j → j < length self.old → 0 < get_or self.old j 0 }
        ensures length { length self.new ≡ length self.old }
        ensures lowered { (j : ℕ) → j < length self.old
            → get_or self.new j 0 + cond (nat_le row j) 1 0 ≡ get_or self.old j 0 }
    {
        lower_from(&mut self.ends, row);
    }
}

/// Extends the counts to this row, if they end before it: each new count is the last one.
fn extend(ends: &mut Vec<u32>, row: usize)
    requires some { 0 < length ends.old.items }
    requires room { row < vec_capacity ends.old }
    ensures longer { length ends.new.items ≡ max (length ends.old.items) (row + 1) }
    ensures extended { (j : ℕ) → j < length ends.new.items
        → get_or ends.new.items j 0 ≡ get_or ends.old.items (min j (length ends.old.items - 1)) 0 }
    ensures room { vec_capacity ends.old ≤ vec_capacity ends.new }
{
    let count = ends[ends.len() - 1];
    while ends.len() <= row {
        ends.push_reserved(count);
    }
}

/// Counts one more at this row and at each row after it.
fn raise_from(ends: &mut [u32], row: usize)
    requires room { (j : ℕ) → row ≤ j → j < length ends.old → get_or ends.old j 0 + 1 < 2 ^ 32 }
    ensures length { length ends.new ≡ length ends.old }
    ensures raised { (j : ℕ) → j < length ends.old
        → get_or ends.new j 0 ≡ get_or ends.old j 0 + cond (nat_le row j) 1 0 }
{
    for j in row..ends.len() {
        ends[j] += 1;
    }
}

/// Counts one less at this row and at each row after it.
fn lower_from(ends: &mut [u32], row: usize)
    requires some { (j : ℕ) → row ≤ j → j < length ends.old → 0 < get_or ends.old j 0 }
    ensures length { length ends.new ≡ length ends.old }
    ensures lowered { (j : ℕ) → j < length ends.old
        → get_or ends.new j 0 + cond (nat_le row j) 1 0 ≡ get_or ends.old j 0 }
{
    for j in row..ends.len() {
        ends[j] -= 1;
    }
}
