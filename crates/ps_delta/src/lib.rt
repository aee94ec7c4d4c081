//! The replicated state: what a cell holds, the deltas that replicas exchange, and how deltas join into the state.
//!
//! A cell holds a register, a counter and a set; all three are stored, whichever of them is shown. A counter has
//! *counts*: for each replica, what it added and subtracted. A set has *pairs*, one for each time that somebody chose
//! an option.
//!
//! A delta names cells in order, each with a state that isn't empty. The grid has a state for each cell. Deltas may be
//! joined in any order, in any groups and repeatedly: only the set of joined deltas matters. A delta is *covered* by a
//! grid if joining the delta into the grid changes nothing.
//!
//! This crate evaluates nothing, makes no edits and stores no history.
//!
//! The contract to use: after `Grid::join` the grid's state is `joined_state` of its old state and the delta's. After a
//! refused `Grid::join` the grid's state is exactly its old state. `Grid::covers` says whether a join would change
//! nothing, and `Grid::touched` which cells a join would change. Two grids join by the laws of `Join`. The functions of
//! `laws.rt` state that the joined state of a history depends only on the set of its deltas.
//!
//! Say `A1` holds 3 with the stamp (time 1, replica 1). A delta arrives that gives `A1` the content 4 with the same
//! stamp, and adds 5 by replica 2 to the counter of `A1`. `Grid::touched` lists `A1`. After `Grid::join`, `A1` has the
//! content 4, the greater one, and a counter with the added 5. The same delta again is covered, and changes nothing.
//!
//! Cost: joining or testing a delta depends on its cells and the size of their states, but not on the size of the grid.
//! A fresh grid has only a table of blocks; a block gets its 64 states when a change first names one of its cells.
//! Counts and pairs lie in lists outside the cell's state, except the small counts of a counter that only one replica
//! has changed. Copies of a state share these lists and the formula. Copies of a delta of several cells share its list
//! of cells.
#![tactic(auto)]

mod block;
mod cell_state;
mod delta;
mod delta_cells;
mod edit;
mod entries;
mod grid;
mod joining;
mod laws;
mod places;
mod touched;

pub use cell_state::CellState;
pub use delta::Delta;
pub use edit::{Batch, Change, Edit};
pub use grid::Grid;
pub use laws::{
    covered_changes_nothing, grids_are_shared, groups_join, history_is_a_set, news_is_least,
    states_join,
};
pub use touched::Touched;
