//! A hint of any kind.

use crate::entry_hint::EntryHint;
use crate::formula_hint::FormulaHint;
use crate::line_hint::LineHint;
use std::fmt;

/// A hint: what to do about a refused line or entry, or about an entry that became a text. `Display` writes the hint
/// without a line feed.
#[derive(Clone, Copy, Debug)]
pub enum Hint<'a> {
    /// About a refused formula.
    Formula(FormulaHint<'a>),
    /// About an entry that was refused for its bytes or its length, or that became a text.
    Entry(EntryHint<'a>),
    /// About the words of a line, about what the sheet refused, or about a record of a table.
    Line(LineHint<'a>),
}

impl fmt::Display for Hint<'_> {
    fn fmt<W: fmt::Write>(&self, f: &mut fmt::Formatter<W>) -> fmt::Result {
        match self {
            Hint::Formula(hint) => write!(f, "{hint}"),
            Hint::Entry(hint) => write!(f, "{hint}"),
            Hint::Line(hint) => write!(f, "{hint}"),
        }
    }
}
