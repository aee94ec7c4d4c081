//! The region of a change: the cells whose values may change, the order in which to evaluate their formulas, and which
//! of these cells reach a cycle.
//!
//! This crate evaluates nothing, and knows no values and no contents. It reads what the formulas refer to from an index
//! and from an implementation of `After`. The caller evaluates the formulas.
//!
//! A cell is cyclic if its formula reaches a cycle: some chain of references that begins at the cell has a cell twice.
//! Touched cells are those that the change itself gives a new state.
//!
//! With `=[.A1]` in `B1`, `=[.B1]` in `C1` and `=[.C1]+[.B1]` in `D1`, a change of `A1`, which holds a number, has the
//! region `A1`, `B1`, `C1`, `D1`. Level 1 is `B1`, level 2 `C1`, level 3 `D1`; `A1` is in no level, as it has no
//! formula. If `B1` becomes `=[.D1]`, the three formulas form a cycle: there is no level, all three cells are cyclic,
//! and `Region::left` of `D1` is 2, as `D1` refers to two of them.
//!
//! Use the contract of `Region::mark`. `IsFound` of `specs/Found.antt` defines what a mark finds, by chains of
//! references alone. Cells of one level don't refer to each other, so that they can be evaluated at the same time.
//!
//! Cost: `Region::new` allocates the tables, 31 bytes for each cell of the grid, and writes nothing to them. The first
//! `Region::mark` writes the tables that are read by cell, 15 bytes for each cell of the grid. No later mark passes
//! over the grid.
//!
//! For each cell of the region, a mark iterates over the cells that refer to that cell. It does so twice if they are
//! three or more, once if they are none or one, and mostly once if they are two. If the caller's set of cyclic cells
//! isn't empty, the mark also looks up each reference of the region's formulas in that set. It looks up a range in
//! blocks of 64 rows, and cell by cell only in blocks that have a cyclic cell. Cyclic cells in other blocks cost
//! nothing.
#![tactic(auto)]

mod after;
mod cell_set;
mod change;
mod grow;
mod laws;
mod levels;
mod members;
mod noted;
mod outside;
mod region;

pub use after::After;
pub use cell_set::CellSet;
pub use laws::{
    cells_outside_keep_their_values, cycles_stay_outside, listed_cells_refer,
    old_and_new_give_one_region, quiet_cells_keep_their_values,
};
pub use region::Region;
