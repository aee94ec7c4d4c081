//! Computes how long the line of a delta is, without writing it.

ghost use Rattle.std.specs.Prelude.{◌≡◌, ◌↔◌, ℕ, ◌+◌, ◌*◌, ◌-◌, ◌<◌, ◌≤◌, map as each, length, IsTrue, SomeIff};
ghost use Rattle.std.specs.Bool.{OnTrue};
ghost use Rattle.json.specs.Print.{escape_byte, escape_letter};
ghost use Rattle.serde_json.specs.Data.{Data, string};
ghost use Rattle.ps_grid.specs.Place.{cell_name};
ghost use Rattle.ps_formula.specs.declared.formula.TheConstants.{LONGEST_TEXT};
ghost use Rattle.ps_content.specs.Content.{canonical_text};
ghost use Rattle.ps_delta.specs.Deltas.{Entries, IsDelta, state_of};
ghost use Rattle.ps_delta.specs.State.{IsBelow};
ghost use Rattle.ps_wire.specs.Inside.{unescaped_size};
ghost use Rattle.ps_wire.specs.Length.{OutgrowsLine, bare_value, lasting_size, size};
ghost use Rattle.ps_wire.specs.Value.{array_of, whole, register_value, count_value, pair_value, cell_value};

use crate::DELTA_LINE_LIMIT;
use itoa::Buffer;
use ps_content::Content;
use ps_delta::{CellState, Delta};
use ps_grid::{Cell, NAME_BYTES};
use ps_lattice::{Count, Pair, Register};

/// Returns true if the delta holds so much that every join of it with other deltas is too long for a line.
///
/// The function counts the bytes of the delta's text with each register as `null`, since a join may bring a shorter
/// register. Joins never shorten the rest of the text. If the result is false, a join may still be too long for a line.
///
/// Cost: at most that of the cells, counts and pairs that one line can hold, however many the delta has. The function
/// takes no memory.
pub fn outgrows_line(delta: &Delta) -> bool
    ensures lasting { IsTrue result ↔ (DELTA_LINE_LIMIT < lasting_size delta.now) }
    ensures outgrows { OnTrue result (OutgrowsLine delta.now) }
{
    match bare_cells_left(delta.parts(), DELTA_LINE_LIMIT) {
        Some(_) => false,
        None => true,
    }
}

/// Returns how many of `room` bytes the text of the cells leaves, each with its register as `null`; `None` if the text
/// is longer.
fn bare_cells_left(cells: &[(Cell, CellState)], room: usize) -> Option<usize>
    requires { 0 < length cells.now }
    ensures { SomeIff result (size (array_of (each bare_value cells.now)) ≤ room)
        (room - size (array_of (each bare_value cells.now))) }
{
    let mut left = room.checked_sub(1)?;
    for cell in cells {
        // a comma or the last bracket comes after it
        left = bare_left(cell, left)?.checked_sub(1)?;
    }
    Some(left)
}

/// Returns how many of `left` bytes the text of the cell leaves, with its register as `null`; `None` if the text is
/// longer.
fn bare_left(cell: &(Cell, CellState), left: usize) -> Option<usize>
    ensures { SomeIff result (size (bare_value cell.now) ≤ left) (left - size (bare_value cell.now)) }
{
    let (_, tally, choice) = cell.1.parts();
    let left = left.checked_sub(9 + name_size(cell.0))?;
    let left = array_left(tally.parts().as_slice(), left)?;
    array_left(choice.parts(), left)
}

/// A part of a delta that is an item of an array.
pub(crate) trait Part {
    // the value that stands for it
    ghost spelled: { Self → Data };

    /// Returns how many of `left` bytes the part's text leaves, or `None` if the text is longer.
    fn left_after(&self, left: usize) -> Option<usize>
        ensures { SomeIff result (size (spelled self.now) ≤ left) (left - size (spelled self.now)) };
}

/// A replica with its two counts: two brackets, two commas and the numbers.
impl Part for (u8, Count) {
    ghost spelled = { count_value };

    fn left_after(&self, left: usize) -> Option<usize> {
        let (replica, count) = *self;
        let counts = digits(count.added) + digits(count.subtracted);
        left.checked_sub(4 + digits(u64::from(replica)) + counts)
    }
}

/// A pair, and whether it is gone: two brackets, three commas, the numbers and one digit.
impl Part for (Pair, bool) {
    ghost spelled = { pair_value };

    fn left_after(&self, left: usize) -> Option<usize> {
        let (pair, _) = *self;
        let tag = digits(u64::from(pair.replica)) + digits(u64::from(pair.sequence));
        left.checked_sub(6 + digits(u64::from(pair.option)) + tag)
    }
}

/// A cell with its state: two brackets, three commas and the four parts.
impl Part for (Cell, CellState) {
    ghost spelled = { cell_value };

    #[tactic(auto, unfolding(crate::specs::Value::cell_value))]
    fn left_after(&self, left: usize) -> Option<usize> {
        let (register, tally, choice) = self.1.parts();
        let left = left.checked_sub(5 + name_size(self.0) + register_size(register))?;
        let left = array_left(tally.parts().as_slice(), left)?;
        array_left(choice.parts(), left)
    }
}

/// Returns how many of `room` bytes the text of an array of these parts leaves, or `None` if the text is longer.
pub(crate) fn array_left<P: Part>(parts: &[P], room: usize) -> Option<usize>
    ensures { SomeIff result (size (array_of (each P.spelled parts.now)) ≤ room)
        (room - size (array_of (each P.spelled parts.now))) }
{
    let mut left = room.checked_sub(1)?;
    if parts.is_empty() {
        return left.checked_sub(1);
    }
    for part in parts {
        // a comma or the last bracket comes after it
        left = part.left_after(left)?.checked_sub(1)?;
    }
    Some(left)
}

/// Returns how many bytes the name of a cell takes as a JSON string.
fn name_size(cell: Cell) -> usize
    ensures value { result ≡ size (string (cell_name cell)) }
    ensures few { result ≤ 2 + 6 * LONGEST_TEXT }
{
    let mut name = [0; NAME_BYTES];
    let len = cell.write(&mut name);
    string_size(&name[..len])
}

/// Returns how many bytes the JSON value of a register takes.
fn register_size(register: &Register<Content>) -> usize
    ensures value { result ≡ size (register_value register.now) }
    ensures few { result ≤ 46 + 6 * LONGEST_TEXT }
{
    match register.parts() {
        None => 4,
        Some(assignment) => {
            let stamp = digits(assignment.time) + digits(u64::from(assignment.replica));
            4 + stamp + content_size(assignment.content)
        }
    }
}

/// Returns how many bytes the JSON value of a register takes if no byte of its content is escaped.
pub(crate) fn unescaped_size(register: &Register<Content>) -> usize
    ensures value { result ≡ unescaped_size register.now }
    ensures few { result ≤ 46 + LONGEST_TEXT }
{
    match register.parts() {
        None => 4,
        Some(assignment) => {
            let stamp = digits(assignment.time) + digits(u64::from(assignment.replica));
            6 + stamp + content_length(assignment.content)
        }
    }
}

/// Returns how many bytes the canonical text of a content has.
#[tactic(auto, using(crate::proofs::SizeLemmas::label_is_short))]
fn content_length(content: &Content) -> usize
    ensures value { result ≡ length (canonical_text content.now) }
    ensures few { result ≤ LONGEST_TEXT }
{
    match content {
        Content::Blank => 0,
        Content::Number(number) => Buffer::new().format(*number).len(),
        Content::Text(label) => 1 + label.label().bytes().len(),
        Content::Formula(formula) => formula.formula().text().len(),
        Content::Tally => 6,
        Content::Choice => 7,
    }
}

/// Returns how many bytes the JSON string of a content takes.
#[tactic(auto, using(crate::proofs::SizeLemmas::label_is_short))]
fn content_size(content: &Content) -> usize
    ensures value { result ≡ size (string (canonical_text content.now)) }
    ensures few { result ≤ 2 + 6 * LONGEST_TEXT }
{
    match content {
        Content::Blank => 2,
        Content::Number(number) => string_size(Buffer::new().format(*number).as_bytes()),
        Content::Text(label) => 1 + string_size(label.label().bytes()),
        Content::Formula(formula) => string_size(formula.formula().text()),
        Content::Tally => 8,
        Content::Choice => 9,
    }
}

/// Returns how many bytes the JSON string of `bytes` takes: these bytes, the quotes, and what escapes add.
fn string_size(bytes: &[u8]) -> usize
    requires { length bytes.now ≤ LONGEST_TEXT }
    ensures value { result ≡ size (string bytes.now) }
    ensures few { result ≤ 2 + 6 * length bytes.now }
{
    let mut size = 2;
    for byte in bytes {
        size += escaped_size(*byte);
    }
    size
}

/// Returns how many bytes of a JSON string stand for the byte.
fn escaped_size(byte: u8) -> usize
    ensures value { result ≡ length (escape_byte byte) }
    ensures few { result ≤ 6 }
{
    if escape_letter(byte) > 0 {
        return 2;
    }
    if byte < 32 { 6 } else { 1 }
}

/// Returns the letter of the byte's short escape, or 0 if it has none.
fn escape_letter(byte: u8) -> u8
    ensures { result ≡ escape_letter byte }
{
    match byte {
        b'"' | b'\\' => byte,
        8 => b'b',
        9 => b't',
        10 => b'n',
        12 => b'f',
        13 => b'r',
        _ => 0,
    }
}

/// Returns how many digits a number has.
fn digits(number: u64) -> usize
    ensures value { result ≡ size (whole number) }
    ensures few { result ≤ 20 }
{
    let mut rest = number;
    let mut count = 1;
    'digits: while rest >= 10 {
        rest /= 10;
        count += 1;
    }
    count
}
