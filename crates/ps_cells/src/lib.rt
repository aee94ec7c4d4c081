//! What the cells of one replica hold and show: a state, and the settled value of each cell.
//!
//! [`Cells::stage`] makes a change from a delta: it joins the delta to the state, and recalculates the cells that the
//! delta can reach. Then the caller commits the change, or cancels it as if it had never been. This crate decides which
//! formulas are evaluated for a change. It knows no history, no replica and no edit.
//!
//! Use the contract of [`Cells::stage`]. What the cells show after the call is settled (`IsSettled`): each cell shows
//! what evaluating every formula from scratch gives. `IsRecalculated` defines which formulas the call evaluates.
//!
//! Say B1 holds `=[.A1]*2`, and a delta that gives A1 the number 5 is staged. Then B1 shows 10, the formula of one cell
//! was evaluated, and [`Cells::list_changed`] lists A1 and B1. After a cancel both cells show what they showed before.
//!
//! Cost: memory for each cell of the grid, for what the cell holds, what it shows and some numbers for recalculating. A
//! change costs its join and its region: the cells that the change reaches, their references, and the evaluations,
//! which workers share. How many cells outside the region show `#CYCLE!` makes no difference.
#![tactic(auto)]

mod cells;
mod change;
mod contents;
mod level;
mod region;
mod screen;
mod sums;
mod tables;
mod threads;
mod walk;

pub use cells::Cells;
pub use contents::content;
pub use tables::Work;
pub use threads::cells_are_send;
