//! Finds whether a line has room for a delta.
//!
//! A cell is brief if it holds no counts, no pairs, no text and no formula. Bytes are counted only if some cell isn't
//! brief, or if there are too many cells.

ghost use Rattle.std.specs.Prelude.{◌↔◌, ◌<◌, ◌≤◌, map as each, IsTrue};
ghost use Rattle.std.specs.Bool.{OnTrue};
ghost use Rattle.std.specs.Fmt.{signed_decimal};
ghost use Rattle.serde_json.specs.Data.{string};
ghost use Rattle.ps_content.specs.Content.{canonical_text};
ghost use Rattle.ps_wire.specs.Fits.{FitsLine};
ghost use Rattle.ps_wire.specs.Length.{size};
ghost use Rattle.ps_wire.specs.Value.{array_of, register_value, cell_value};

use crate::DELTA_LINE_LIMIT;
use crate::length::array_left;
use ps_content::Content;
use ps_delta::{CellState, Delta};
use ps_grid::Cell;
use ps_lattice::Register;

/// The most bytes of a brief cell and the comma after it. Its brackets and commas take five, the name at most 8, the
/// register at most 44, and two empty arrays take four.
const BRIEF_CELL: usize = 62;

/// How many brief cells always fit in a line, with the line's two brackets.
const BRIEF_CELLS: usize = (DELTA_LINE_LIMIT - 2) / BRIEF_CELL;

/// Returns whether the compact text of the delta has at most `DELTA_LINE_LIMIT` bytes, so that it fits a line.
///
/// Cost: at most that of the cells, counts and pairs that one line can hold, however many the delta has. The function
/// takes no memory.
#[tactic(auto, unfolding(crate::specs::Line::delta_text, crate::specs::Value::delta_value))]
pub fn fits_line(delta: &Delta) -> bool
    ensures { IsTrue result ↔ FitsLine delta.now }
{
    let cells = delta.parts();
    are_brief(cells) || array_left(cells, DELTA_LINE_LIMIT).is_some()
}

/// Returns whether the cells are all brief, as most are, and few enough for a line.
fn are_brief(cells: &[(Cell, CellState)]) -> bool
    ensures { OnTrue result (size (array_of (each cell_value cells.now)) ≤ DELTA_LINE_LIMIT) }
{
    if cells.len() > BRIEF_CELLS {
        return false;
    }
    for cell in cells {
        if !is_brief(cell) {
            return false;
        }
    }
    true
}

/// Returns whether a cell is brief: it holds no counts, no pairs, no text and no formula.
#[tactic(auto, unfolding(crate::specs::Value::cell_value))]
fn is_brief(cell: &(Cell, CellState)) -> bool
    ensures { OnTrue result (size (cell_value cell.now) < BRIEF_CELL) }
{
    // for the fact that the cell is in the grid
    let _ = cell.0.index();
    let (register, tally, choice) = cell.1.parts();
    if !tally.parts().as_slice().is_empty() || !choice.parts().is_empty() {
        return false;
    }
    has_brief_content(register)
}

/// Returns whether the register holds neither a text nor a formula.
fn has_brief_content(register: &Register<Content>) -> bool
    ensures { OnTrue result (size (register_value register.now) ≤ 44) }
{
    match register.parts() {
        None => true,
        Some(assignment) => is_brief_content(assignment.content),
    }
}

/// Returns whether the content is neither a text nor a formula.
fn is_brief_content(content: &Content) -> bool
    ensures { OnTrue result (size (string (canonical_text content.now)) ≤ 22) }
{
    match content {
        Content::Blank => true,
        Content::Number(number) => {
            number_is_brief(*number);
            true
        }
        Content::Text(_) => false,
        Content::Formula(_) => false,
        Content::Tally => true,
        Content::Choice => true,
    }
}

/// Does nothing. Its contract says that a number of 64 bits has at most 20 bytes, and two quotes.
fn number_is_brief(number: i64)
    ensures { size (string (signed_decimal number)) ≤ 22 }
{}
