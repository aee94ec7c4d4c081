//! The formulas of the sheet: their grammar, their trees, their canonical texts, and the cells that they refer to.
//!
//! This crate evaluates nothing and knows no values. `Formula::read` parses bytes once. A `Formula` stores its tree,
//! its canonical text and its references. The canonical text is the one spelling that all formulas with that tree
//! share.
//!
//! The bytes `= sum( [.$B$2:.A1] ; -007)` are a formula. The tree is a call of `SUM` with a range and a signed
//! number. The canonical text is `=SUM([.A1:.B2];-7)`, and the only rectangle is the one from A1 to B2.
//!
//! The contract to use is the one of `Formula::read`. Contracts see a formula as its tree. By the grammar of
//! `specs/Grammar.antt`, a formula that `read` returns has the tree of the bytes. `read` fails with `Refusal::Formula`
//! only if the bytes have no tree.
//!
//! Cost: reading is linear in the bytes, which are at most 512. A comparison is linear in the shorter canonical text.
//! Every other call takes constant time.
#![tactic(auto)]

mod expr;
mod formula;
mod kept;
mod laws;
mod order;
mod parser;
mod rects;

pub use expr::{Argument, Expr, Operands, Sign};
pub use formula::{Formula, Formulas, LONGEST_ENTRY, LONGEST_TEXT};
pub use laws::{canonical_text_has_tree, one_tree, ordered_by_text};
