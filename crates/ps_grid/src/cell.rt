//! Cells of the grid: their index, column, row and name.

ghost use Rattle.std.specs.Prelude.{◌≡◌, ◌↔◌, ℕ, ◌+◌, ◌*◌, ◌<◌, ◌≤◌, ◌++◌, drop, length, take, take_while, IfSome};
ghost use Rattle.std.specs.Char.{is_ascii_uppercase};
ghost use Rattle.std.specs.Fmt.{decimal};
ghost use Rattle.std.specs.Option.{SomeIff};
ghost use Rattle.ps_grid.specs.Place.{cell_at, cell_name, column_name, column_of, letter_of, row_of};

use crate::digits::read_digits;
use crate::size::{CELLS, COLUMNS, LETTERS, NAME_BYTES, ROWS};
use std::marker::Model;

/// A cell of the grid. Contracts see a cell as its index, which is below `CELLS`.
///
/// The index counts the cells from 0: row by row from the top, and in each row from the left.
#[derive(Clone, Copy, Debug, PartialEq, Eq, PartialOrd, Ord, Hash)]
pub struct Cell {
    place: u32,
}

impl Model for Cell {
    ghost use Rattle.std.specs.Prelude.{ℕ, ◌<◌};
    ghost use Rattle.ps_grid.specs.declared.size.TheConstants.{CELLS};

    ghost Value = { ℕ };

    ghost view = { λ c. c.place };

    ghost invariant = { λ c. c.place < CELLS };

    ghost inverse = { λ n. record { place = n } };
}

impl Cell {
    /// Returns the cell at a column, counted from 0, and a row, counted from 1; `None` outside the grid.
    pub fn new(column: u8, row: u16) -> Option<Cell>
        ensures { SomeIff result ((column < COLUMNS) × (1 ≤ row) × (row ≤ ROWS)) (cell_at column row) }
    {
        if (column as usize) < COLUMNS && row >= 1 && row as usize <= ROWS {
            Some(Cell {
                place: (row as u32 - 1) * COLUMNS as u32 + column as u32,
            })
        } else {
            None
        }
    }

    /// Returns the cell at a column and a row, both counted from 0.
    pub(crate) fn at(column: usize, row: usize) -> Cell
        requires column { column < COLUMNS }
        requires row { row < ROWS }
        ensures { result ≡ row * COLUMNS + column }
    {
        Cell {
            place: (row * COLUMNS + column) as u32,
        }
    }

    /// Returns the index of the cell, counted from 0: row by row from the top, and in each row from the left.
    pub fn index(self) -> usize
        ensures index { result ≡ self }
        ensures in_grid { result < CELLS }
    {
        self.place as usize
    }

    /// Returns the cell with this index, as [`Cell::index`] counts; `None` if the index is `CELLS` or more.
    pub fn from_index(index: usize) -> Option<Cell>
        ensures { SomeIff result (index < CELLS) index }
    {
        if index < CELLS {
            Some(Cell::with_index(index))
        } else {
            None
        }
    }

    /// Returns the cell at an index of the grid.
    pub(crate) fn with_index(index: usize) -> Cell
        requires { index < CELLS }
        ensures { result ≡ index }
    {
        Cell {
            place: index as u32,
        }
    }

    /// Returns the cell that the text names, such as `B3`; `None` if the text names no cell.
    ///
    /// A name is the upper-case letters of a column, A to CZ, and then the digits of a row, 1 to 1024. The row has no
    /// leading zero, and the name has no other bytes. A text of more than `NAME_BYTES` bytes names no cell and isn't
    /// read.
    pub fn read(text: &[u8]) -> Option<Cell>
        ensures { (c : ℕ) → (result ≡ Some c) ↔ ((c < CELLS) × (text.now ≡ cell_name c)) }
    {
        // a name has at least a letter and a digit
        if text.len() < 2 {
            return None;
        }
        if text.len() > NAME_BYTES {
            return None;
        }
        let (letters, digits) = text.split_at(letter_count(text));
        Cell::named(letters, digits)
    }

    /// Returns the cell whose column has the name `letters` and whose row is written in `digits`.
    ///
    /// Returns `None` if `letters` isn't a column, A to CZ, or if `digits` isn't a row, 1 to 1024, in decimal without a
    /// leading zero. More than `NAME_BYTES` digits are no row, and aren't read.
    #[inline(always)]
    pub fn named(letters: &[u8], digits: &[u8]) -> Option<Cell>
        ensures { (c : ℕ) → (result ≡ Some c)
            ↔ ((c < CELLS) × (letters.now ≡ column_name (column_of c)) × (digits.now ≡ decimal (row_of c))) }
    {
        let column = column_named(letters)?;
        let row = row_named(digits)?;
        Some(Cell::at(usize::from(column), usize::from(row) - 1))
    }

    /// Writes the name of the cell at the front of `out`, and returns the length of the name in bytes.
    ///
    /// The name is the letters of the column, A to CZ, and the row in decimal, 1 to 1024. The bytes of `out` after the
    /// name stay as they are.
    pub fn write(self, out: &mut [u8; NAME_BYTES]) -> usize
        ensures name { take result out.new ≡ cell_name self }
        ensures rest { drop result out.new ≡ drop result out.old }
        ensures length { result ≡ length (cell_name self) }
        ensures fits { result ≤ NAME_BYTES }
    {
        let column = self.column() as usize;
        let row = self.row();
        if column < LETTERS {
            out[0] = letter(column);
            put_decimal(out, 1, row)
        } else {
            out[0] = letter(column / LETTERS - 1);
            out[1] = letter(column % LETTERS);
            put_decimal(out, 2, row)
        }
    }

    /// Returns the column of the cell, counted from 0.
    pub fn column(self) -> u8
        ensures column { result ≡ column_of self }
        ensures in_grid { result < COLUMNS }
    {
        (self.place % COLUMNS as u32) as u8
    }

    /// Returns the row of the cell, counted from 1.
    pub fn row(self) -> u16
        ensures row { result ≡ row_of self }
        ensures above { 1 ≤ result }
        ensures in_grid { result ≤ ROWS }
    {
        (self.place / COLUMNS as u32) as u16 + 1
    }
}

/// Returns how many upper-case letters a text begins with, at most two.
#[inline(always)]
fn letter_count(text: &[u8]) -> usize
    ensures counted { result ≡ length (take_while is_ascii_uppercase (take 2 text.now)) }
    ensures within { result ≤ length text.now }
{
    match text {
        [first, second, ..] if first.is_ascii_uppercase() && second.is_ascii_uppercase() => 2,
        [first, ..] if first.is_ascii_uppercase() => 1,
        _ => 0,
    }
}

/// Returns the column that the letters name, from 0; `None` if the grid has no such column.
#[inline(always)]
fn column_named(letters: &[u8]) -> Option<u8>
    ensures { (column : ℕ) → (result ≡ Some column) ↔ ((column < COLUMNS) × (letters.now ≡ column_name column)) }
{
    let column = column_number(letters)?;
    if column < COLUMNS {
        Some(column as u8)
    } else {
        None
    }
}

/// Returns the column that one or two letters name, from 0, even if it lies outside the grid.
#[inline(always)]
fn column_number(letters: &[u8]) -> Option<usize>
    ensures { (column : ℕ) → (result ≡ Some column)
        ↔ ((column < LETTERS + LETTERS * LETTERS) × (letters.now ≡ column_name column)) }
{
    match *letters {
        [only] => letter_number(only),
        [first, last] => {
            let first = letter_number(first)?;
            let last = letter_number(last)?;
            Some((first + 1) * LETTERS + last)
        }
        _ => None,
    }
}

/// Returns the number of an upper-case letter: 0 for A, to 25 for Z. Returns `None` for any other byte.
#[inline(always)]
fn letter_number(letter: u8) -> Option<usize>
    ensures number { (number : ℕ) → (result ≡ Some number) ↔ ((number < LETTERS) × (letter ≡ letter_of number)) }
    ensures below { IfSome result (λ number. number < LETTERS) }
{
    if letter.is_ascii_uppercase() {
        Some(usize::from(letter - b'A'))
    } else {
        None
    }
}

/// Returns the row that the digits stand for, from 1; `None` if the grid has no such row.
#[inline(always)]
fn row_named(digits: &[u8]) -> Option<u16>
    ensures { (row : ℕ) → (result ≡ Some row) ↔ ((1 ≤ row) × (row ≤ ROWS) × (digits.now ≡ decimal row)) }
{
    if digits.len() > NAME_BYTES {
        return None;
    }
    if digits.is_empty() {
        return None;
    }
    if digits[0] == b'0' {
        return None;
    }
    let row = read_digits(digits)?;
    if row > ROWS as u64 {
        return None;
    }
    Some(row as u16)
}

/// Returns the letter of a number: A for 0, to Z for 25.
fn letter(number: usize) -> u8
    requires { number < LETTERS }
    ensures { result ≡ letter_of number }
{
    b'A' + number as u8
}

/// Writes the row in decimal from position `place` of `out` on, and returns the position after its last digit.
fn put_decimal(out: &mut [u8; NAME_BYTES], place: usize, row: u16) -> usize
    requires { place + length (decimal row) ≤ NAME_BYTES }
    ensures digits { take result out.new ≡ take place out.old ++ decimal row }
    ensures rest { drop result out.new ≡ drop result out.old }
    ensures length { result ≡ place + length (decimal row) }
{
    if row < 10 {
        out[place] = b'0' + row as u8;
        place + 1
    } else {
        let end = put_decimal(out, place, row / 10);
        out[end] = b'0' + (row % 10) as u8;
        end + 1
    }
}
