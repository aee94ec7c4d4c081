//! CSV tables: imports a table's entries into a sheet, and exports what the cells of a rectangle show or hold.
//!
//! This crate is not a session: it knows no lines and no replies. The crate `csv` parses and writes a table's text.
//!
//! Use the contracts of [`import`] and [`export`]:
//!
//! - After [`import`] returns Ok, the sheet's history has grown by one edit for each record with a field that isn't
//!   empty, in order, and by nothing else.
//! - [`import`] fails when out of memory, if reading the source fails, if the source has too many bytes, or with
//!   exactly the table's first fault in reading order. A failed import assigns nothing, with one exception: if
//!   allocation fails while the edits' deltas are made, the earlier records stay assigned, and the fault counts them.
//! - An error of `csv`'s own reader is marked in the fault ([`ImportFault`]).
//! - [`export`] writes the table that `csv` writes for the shown values. If the sink fails, only a beginning of this
//!   text was written.
//! - [`export_entries`] does the same for the entries, the canonical texts of what the cells hold.
//!
//! The table of `2,=[.A1]*3` and `"x,y",@tally` gives A1 the number 2, B1 the formula, A2 the text `x,y` and B2 a
//! counter, by two edits. The rectangle from A1 to B2 is then written as `2,6` and `"x,y",0`.
//!
//! Cost: linear in the bytes of the text, which imports and exports hold in memory as a whole. An import makes an edit
//! for each record, and recalculates the sheet once, after the last.
#![tactic(auto)]

mod apply;
mod bytes;
mod entries;
mod fault;
mod fields;
mod holds;
mod incoming;
mod laws;
mod rows;
mod shown;
mod table;
mod watcher;

pub use bytes::LONGEST_TABLE;
pub use entries::{entries_text, entry_of, export_entries};
pub use fault::ImportFault;
pub use holds::Holds;
pub use incoming::{Imported, import, import_watched};
pub use laws::{entries_come_back, one_count_fits};
pub use shown::{export, exported_text};
pub use watcher::{TableWatcher, UnwatchedTable};
