//! The evaluation of one level by several workers at once. A level is a list of cells whose formulas don't refer to one
//! another. Each worker evaluates a part of the cells: the first worker in the caller's thread, and each other worker
//! in a thread of its own.
//!
//! This crate finds no levels, stores no values, and knows no edits. The workers share the formulas and what the cells
//! show. Each worker writes its values into a part of the output slice that no other worker has.
//!
//! Use the contract of `eval_level`. The output has the value of each cell's formula, and the meter counts one
//! evaluation for each cell, whatever the number of workers and whatever the gate does. A `Gate` is a hook that each
//! worker calls before each evaluation. `eval_cell` does the same as `eval_level` for a level of one cell, without an
//! output slice and without threads.
//!
//! The five formulas `=1+1` to `=1+5` as one level give 2, 3, 4, 5, 6 with one worker and with sixteen. With two
//! workers the first has three of the cells, and the second two.
//!
//! A small level isn't worth the start of a thread. `workers_worth` returns how many workers to use.
//!
//! Cost: the evaluations, divided among the workers, and the start of a thread for each worker but one.
#![tactic(auto)]

mod gate;
mod level;
mod worth;

pub use gate::{Gate, Open};
pub use level::{eval_cell, eval_level};
pub use worth::{CELLS_OF_A_WORKER, workers_worth};
