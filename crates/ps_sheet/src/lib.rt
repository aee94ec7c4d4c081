//! The sheet of one replica: the deltas that it accepted, and what each cell shows.
//!
//! A sheet turns edits into deltas, and accepts deltas of other replicas in any order and as often as they come. It
//! shows the settled value of each cell: `#CYCLE!` exactly if a chain of references from the cell has some cell twice,
//! and otherwise the value of what the cell holds.
//!
//! This crate alone makes deltas of edits. It depends on `ps_cells`, which works out which formulas a change evaluates.
//! A sheet knows no bytes, no lines and no other sheet, and it sends nothing.
//!
//! A delta touches a cell if it changes the cell's state. The region of a change is the touched cells and all cells
//! that refer to them, directly or through others. The region's formulas are evaluated level by level: the formulas of
//! a level don't refer to one another, and come after the formulas that they refer to.
//!
//! Workers share the formulas of a level: one worker for each 4,096 formulas, up to the number that the sheet was
//! opened with. What the sheet shows, refuses and reports is the same for every number of workers. A call that changes
//! a sheet takes `rt`, the handle that starts threads. All threads that a call starts have ended when it returns.
//!
//! Use the contracts of [`Sheet::edit`], [`Sheet::receive`] and [`Sheet::merge`]:
//!
//! - An edit appends exactly the delta that `delta_of_edit` gives over the joined history (the state that the accepted
//!   deltas join to), or returns the first refusal that holds.
//! - A received delta is appended, unless it adds nothing new to the joined history. Contracts say that such a delta is
//!   below the joined history. A merge appends only the part of a delta that is new.
//! - After each of these calls, as after [`Sheet::open`], the sheet is an `IsSheet`: what it shows is settled for the
//!   joined history.
//! - After a refusal everything is as before. A call returns `Memory` only if it had a delta to append.
//! - Settled values exist ([`settled_at_least_once`]), are the only ones ([`settled_at_most_once`]), and depend on the
//!   set of deltas alone ([`same_deltas_show_the_same`]).
//!
//! [`Arrivals`] collect many deltas, as a start reads from a file, or many edits, as a table has them:
//!
//! - [`Arrivals::receive`] joins a delta to those before it, and returns whether it adds something.
//! - [`Arrivals::edit`] makes the delta of an edit.
//! - [`Sheet::receive_all`] appends all of them and settles once, after the last.
//!
//! [`Sheet::prepare`] works a change out before it is made. A [`Prepared`] has the delta, the cells that will show
//! another value, and the report. Two calls end it, and neither takes memory:
//!
//! - [`Prepared::commit`] returns the sheet with the change made.
//! - [`Prepared::cancel`] returns the sheet with the history and the shown values from before.
//!
//! So a caller can first log or send the change, and give it up if that fails.
//!
//! A [`Staging`] owns a sheet, and does the same for one change after another:
//!
//! - [`Staging::stage`] works a change out in place.
//! - [`Staging::list_changed`] lists the cells that show another value.
//! - [`Staging::one_changed`] returns the one cell that shows another value, without a list, if the change wrote no
//!   other cell's shown value.
//! - [`Staging::commit`] or [`Staging::cancel`] ends the change.
//!
//! [`Sheet::edit`], [`Sheet::receive`] and [`Sheet::merge`] stage a change and commit it.
//!
//! Say replica 1 gives A1 the number 5 and B1 the formula `=[.A1]*2`: two edits, so `version` is 2 and B1 shows 10.
//! Then a delta of replica 2 comes that gives A1 the number 7 at time 1, as replica 1 did. The greater replica wins: A1
//! shows 7 and B1 shows 14, and `version` is 3. The same delta adds nothing when it comes once more: `version` stays 3.
//!
//! A change evaluates those formulas of its region that reach no cycle, and are touched or refer to a cell whose value
//! changed. The [`Report`] says how many, and the meter rises by as much. In the example the second replica's delta
//! touches A1 and reaches B1: one evaluation, one level, no cyclic cell.
//!
//! Cost: a sheet stores its deltas, and for each cell of the grid what it shows and some numbers for recalculating. A
//! change costs its delta and its region: the region's cells, the references to them, and the evaluations, which the
//! workers of a wide level share. If a cell of the region has a formula or showed `#CYCLE!`, the change also looks once
//! at each cell that shows `#CYCLE!`. Preparing a change also sorts the cells that changed. Cancelling a change costs
//! the cells whose shown value it wrote. Reading what a cell shows takes constant time.
#![tactic(auto)]

mod arrivals;
mod contents;
mod edit_delta;
mod laws;
mod own;
mod prepared;
mod sheet;
mod staging;
mod threads;

pub use arrivals::Arrivals;
pub use laws::{
    accepted_deltas_join, cells_outside_show_the_same, edits_are_fresh, quiet_cells_show_the_same,
    same_deltas_show_the_same, same_join_shows_the_same, settled_at_least_once,
    settled_at_most_once,
};
pub use prepared::Prepared;
pub use ps_delta::{Batch, Change, Edit};
pub use sheet::{Report, Sheet};
pub use staging::Staging;
pub use threads::staging_is_send;
