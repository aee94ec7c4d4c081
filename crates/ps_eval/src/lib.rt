//! The value of a formula, given the value that each cell shows.
//!
//! Only this crate evaluates formulas. It knows no edits, no replicas and no threads, finds no cycles, and stores
//! nothing between two calls.
//!
//! Where A1 shows 5 and A2 a text, `=SUM([.A1:.A2];7)*2` has the value 24: the text is passed over. `=[.A2]*2` has the
//! value `#VALUE!`, and `=9223372036854775807+1` the value `#NUM!`.
//!
//! Numbers are whole, in the range of `i64`. Each operation tests once whether its exact result is in this range. SUM
//! tests only the final sum. The caller passes a `Meter`, which counts the evaluations for contracts.
//!
//! *Items* are what SUM, MIN, MAX and COUNT take from their arguments: numbers and faults. Each cell of a range, and
//! the cell of an argument that is a single reference, gives one item, or none if the cell is empty or shows a text.
//! Any other argument gives one item.
//!
//! The contract to use is that of `eval`. The value is what `ev` of `specs/Value.antt` gives for the formula's tree and
//! the values that the cells show, and the meter has counted one more evaluation. `eval_number` returns the same value,
//! as a number or a fault: the value of a formula is never a text, options or nothing.
//!
//! Cost: no memory; time linear in the nodes of the formula's tree and the cells of its ranges.
#![tactic(auto)]

mod arguments_summary;
mod arithmetic;
mod laws;
mod look;
mod meter;
mod summary;
mod total;
mod tree;
mod truths;

pub use laws::{cycle_comes_from_references, depends_on_references_alone};
pub use look::Look;
pub use meter::{Counted, Meter};
pub use summary::Summary;
pub use tree::{eval, eval_number};
