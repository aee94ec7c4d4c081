//! Notes: hints with the lines, fields or records that they are about.

use crate::entry::hint_of_entry;
use crate::hint::Hint;
use crate::line::hint_of_line;
use crate::line_hint::LineHint;
use ps_grid::{COLUMNS, Cell, NAME_BYTES, ROWS, Refusal};
use std::fmt;

/// What a note is about, by its position in the input.
#[derive(Clone, Copy, Debug)]
pub enum HintPlace {
    /// The line with this number, from 1 on.
    Line(u64),
    /// The field of a table that becomes this cell's entry.
    Field(Cell),
    /// The record of a table with this number, from 1 on.
    Record(u64),
}

/// A hint, with its position and the refusal. `Display` writes it as one line, without a line feed.
#[derive(Clone, Copy, Debug)]
pub struct HintNote<'a> {
    /// The position of the line, the field or the record.
    pub place: HintPlace,
    /// Why the line, the field's entry or the record was refused; `None` if it was accepted.
    pub refusal: Option<Refusal>,
    /// The hint: what to do about the line, the field or the record.
    pub hint: Hint<'a>,
}

/// Returns the note about line `number`, counted from 1, or `None` if there is nothing to say. `refusal` is why the
/// line was refused, or `None` if it was carried out.
///
/// A line that was carried out has a note only if its entry became a text although it looks like a number or a formula.
///
/// Cost: that of [`hint_of_line`].
pub fn line_note(number: u64, line: &[u8], refusal: Option<Refusal>) -> Option<HintNote<'_>> {
    Some(HintNote {
        place: HintPlace::Line(number),
        refusal,
        hint: hint_of_line(line, refusal)?,
    })
}

/// Returns the note about a table's field for `cell`, or `None` if there is nothing to say. `refusal` is why the
/// field's entry was refused, or `None` if it was accepted.
///
/// An accepted entry has a note only if it became a text although it looks like a number or a formula.
///
/// Cost: that of [`hint_of_entry`].
pub fn field_note(cell: Cell, field: &[u8], refusal: Option<Refusal>) -> Option<HintNote<'_>> {
    Some(HintNote {
        place: HintPlace::Field(cell),
        refusal,
        hint: hint_of_entry(field, refusal)?,
    })
}

/// Returns the note about record `number` of a table, counted from 1, that was refused as `Csv`. If `number` is past
/// the grid's last row, the note is about too many records, otherwise about too many fields.
pub fn record_note<'a>(number: u64) -> HintNote<'a> {
    let hint = if number > ROWS as u64 {
        LineHint::Records(ROWS)
    } else {
        LineHint::Fields(COLUMNS)
    };
    HintNote {
        place: HintPlace::Record(number),
        refusal: Some(Refusal::Csv),
        hint: Hint::Line(hint),
    }
}

impl fmt::Display for HintPlace {
    fn fmt<W: fmt::Write>(&self, f: &mut fmt::Formatter<W>) -> fmt::Result {
        match self {
            HintPlace::Line(number) => write!(f, "line {number}"),
            HintPlace::Field(cell) => {
                write!(f, "row {}, column ", cell.row())?;
                write_column(*cell, f)
            }
            HintPlace::Record(number) => write!(f, "row {number}"),
        }
    }
}

/// Writes the letters of a cell's column.
fn write_column<W: fmt::Write>(cell: Cell, f: &mut fmt::Formatter<W>) -> fmt::Result {
    let mut name = [0; NAME_BYTES];
    let length = cell.write(&mut name);
    for byte in &name[..length] {
        if byte.is_ascii_alphabetic() {
            f.write_char(char::from(*byte))?;
        }
    }
    Ok(())
}

impl fmt::Display for HintNote<'_> {
    fn fmt<W: fmt::Write>(&self, f: &mut fmt::Formatter<W>) -> fmt::Result {
        write!(f, "{}: ", self.place)?;
        if let Some(refusal) = self.refusal {
            write!(f, "{refusal}: ")?;
        }
        write!(f, "{}", self.hint)
    }
}
