//! The values that cells show, and their text.
//!
//! This crate knows no formulas, no edits and no replicas. Other crates say what a cell holds, such as a formula.
//!
//! A `Choice`, a set of options, with bits 1 and 4 set is shown as `{1,4}`. The fault of a division by zero is shown
//! as `#DIV/0!`.
//!
//! The contract to use is the one of `write_shown`. This function writes exactly `shown_text` of the value, or returns
//! `Refusal::Device` because the sink failed.
//!
//! Cost: a value is copied in constant time, and takes no memory on the heap. A `SharedLabel` is a label on the heap
//! with any number of owners, and takes one allocation for all of them.
#![tactic(auto)]

mod label;
mod operand;
mod shared;
mod shown;
mod value;

pub use label::Label;
pub use operand::Operand;
pub use shared::SharedLabel;
pub use shown::write_shown;
pub use value::{Fault, Value};

/// The greatest number of bytes in a label.
pub const LABEL_BYTES: usize = 64;
