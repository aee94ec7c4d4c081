//! Notes with hints about lines of a session, and about fields of a table, written while they are read.
//!
//! An [`Observer`] changes no reply and no cell. A note is lost if it can't be written, or if allocation fails.

use crate::fault::ProgramFault;
use crate::notice::tell_line;
use ps_csv::TableWatcher;
use ps_grid::{Cell, Refusal};
use ps_hints::{field_note, line_note, record_note};
use ps_lines::{Outcome, Watcher};
use std::alloc::Global;
use std::io::Write;

/// An observer that writes notes with hints for the user, about lines of a session, or about fields and records of a
/// table.
///
/// A line or field has a note if it was refused and `ps_hints` has a hint for it, or if its entry looks like a number
/// or a formula but became a text. In a session the observer also counts the lines and the refused lines.
#[derive(Drop)]
pub struct Observer<W: Write + Drop> {
    alloc: Global,
    /// The writer of the notes, if any are to be written.
    out: Option<W>,
    /// The number of lines so far. 2^64 - 1 also stands for any greater number.
    lines: u64,
    /// The number of refused lines so far. 2^64 - 1 also stands for any greater number.
    refused: u64,
}

impl<W: Write + Drop> Observer<W> {
    /// Returns an observer that has seen nothing and writes notes to `out`. If `out` is `None`, it only counts lines.
    pub fn new(alloc: Global, out: Option<W>) -> Observer<W> {
        Observer {
            alloc,
            out,
            lines: 0,
            refused: 0,
        }
    }

    /// Fails with [`ProgramFault::LinesRefused`] if `strict` is true and a line of the session was refused.
    pub fn end(&self, strict: bool) -> Result<(), ProgramFault> {
        if strict && self.refused > 0 {
            return Err(ProgramFault::LinesRefused(self.refused));
        }
        Ok(())
    }

    /// Returns the writer of the notes, or `None` if the observer only counts.
    pub fn into_out(self) -> Option<W> {
        let Observer { out, .. } = self;
        out
    }
}

impl<W: Write + Drop> Watcher for Observer<W> {
    #[inline]
    fn saw(&mut self, line: &[u8], outcome: Outcome) {
        self.lines = self.lines.saturating_add(1);
        let refusal = match outcome {
            Outcome::Refused(refusal) => Some(refusal),
            Outcome::Answered | Outcome::Elsewhere => None,
        };
        if refusal.is_some() {
            self.refused = self.refused.saturating_add(1);
        }
        if let Some(out) = &mut self.out {
            tell_hint(self.alloc, self.lines, line, refusal, out);
        }
    }
}

/// Writes the note about a line, if it has a hint.
// Not inlined, so that a session without notes needs no stack space for them.
#[inline(never)]
fn tell_hint<W: Write>(
    alloc: Global,
    number: u64,
    line: &[u8],
    refusal: Option<Refusal>,
    out: &mut W,
) {
    if let Some(note) = line_note(number, line, refusal) {
        tell_line(alloc, &note, out);
    }
}

impl<W: Write + Drop> TableWatcher for Observer<W> {
    fn saw_field(&mut self, cell: Cell, field: &[u8], refusal: Option<Refusal>) {
        if let Some(out) = &mut self.out {
            if let Some(note) = field_note(cell, field, refusal) {
                tell_line(self.alloc, &note, out);
            }
        }
    }

    fn saw_past(&mut self, record: u64) {
        if let Some(out) = &mut self.out {
            tell_line(self.alloc, &record_note(record), out);
        }
    }
}
