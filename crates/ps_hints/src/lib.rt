//! Hints: what to do about a refused line or entry, and about an entry that looks like a number or a formula but is a
//! text.
//!
//! A hint doesn't decide whether a line is refused, or why: the caller passes the refusal. The functions look for what
//! people write by habit, such as `A1` for `[.A1]`, so a hint may miss what was meant. The functions have no contract:
//! they are safe, they end, and they take no memory.
//!
//! - [`line_note`] returns the note about a line of a session: its number, why it was refused, and what to do about it.
//! - [`field_note`] returns such a note about a field of a table, and [`record_note`] about a whole record.
//!
//! `Display` writes a note as text. For example, line 291 is `set B1 =A1+1`, which is refused as a formula. Its note is
//! `line 291: err 3 formula: A1 is written [.A1]`. Line 12 is `set B1 12.50`, which is carried out. Its note is
//! `line 12: 12.50 is kept as a text: numbers are whole`.
//!
//! Cost: O(n) in the n bytes of the line or the field; O(n * n) for a refused formula, which has at most 512 bytes.
#![tactic(auto)]

mod bytes;
mod case;
mod entry;
mod entry_hint;
mod formula;
mod formula_hint;
mod habit;
mod hint;
mod line;
mod line_hint;
mod names;
mod note;

pub use entry::hint_of_entry;
pub use entry_hint::EntryHint;
pub use formula_hint::FormulaHint;
pub use habit::Habit;
pub use hint::Hint;
pub use line::hint_of_line;
pub use line_hint::LineHint;
pub use note::{HintNote, HintPlace, field_note, line_note, record_note};
