//! The text of a rectangle as a CSV table: a record for each row, a field for each cell.

ghost use Rattle.std.specs.Prelude.{◌≡◌, ◌<◌, ◌∷◌, ◌++◌, [], ℕ, List, length, IfOk, IfErr, OnOk};
ghost use Rattle.ps_grid.specs.Blanks.{IsBlankOf};
ghost use Rattle.ps_grid.specs.declared.size.TheConstants.{COLUMNS};
ghost use Rattle.csv.specs.Writing.{default_writer, row_text};
ghost use Rattle.ps_csv.specs.Exports.{CellTexts, WritesOut, row_record, tabled};
ghost use Rattle.ps_csv.specs.Inside.{HasWritten, IsWriting};
ghost use Rattle.ps_csv.specs.Records.{Record};

use csv::{Error, Writer, WriterBuilder};
use ps_device::{Failed, MemorySink, Sink, put_all};
use ps_grid::{Cell, Rect, Refusal};
use std::alloc::Global;
use std::marker::Brand;
use std::sync::ledger::{Blank, Ledger};

/// A type that has a text for each cell, which becomes the cell's field.
pub(crate) trait CellText {
    /// The text of each cell.
    ghost text_at: { Self → CellTexts };

    /// Appends the text of a cell to the sink's bytes. Fails only when out of memory.
    fn put<L: Ledger>(&self, cell: Cell, text: &mut MemorySink<L>) -> Result<(), Refusal>
        ensures put { OnOk result (text.new.bytes.items ≡ text.old.bytes.items ++ text_at self.now cell) }
        ensures memory { IfErr result (λ e. e ≡ Refusal.Memory) };
}

/// Writes to `sink` the table of the texts of a rectangle's cells.
pub(crate) fn export_rows<T: CellText, K: Sink>(
    alloc: Global,
    texts: &T,
    rect: Rect,
    sink: &mut K,
) -> Result<(), Refusal>
    ensures { WritesOut K.contents K.failures (tabled (T.text_at texts.now) rect) sink.old sink.new result }
{
    let text = rows_text(alloc, texts, rect)?;
    match put_all(sink, &text) {
        Ok(()) => Ok(()),
        Err(Failed) => Err(Refusal::Device),
    }
}

/// The table of the texts of a rectangle's cells. Fails only when out of memory.
pub(crate) fn rows_text<T: CellText>(
    alloc: Global,
    texts: &T,
    rect: Rect,
) -> Result<Vec<u8>, Refusal>
    ensures text { IfOk result (λ t. t.items ≡ tabled (T.text_at texts.now) rect) }
    ensures memory { IfErr result (λ e. e ≡ Refusal.Memory) }
{
    text_with::<T, Brand>(Blank::new(1), alloc, texts, rect)
}

/// The table, as [`rows_text`] returns it. `L` counts the failures of the sink in memory that each field is written to.
fn text_with<T: CellText, L: Ledger>(
    blank: Blank,
    alloc: Global,
    texts: &T,
    rect: Rect,
) -> Result<Vec<u8>, Refusal>
    requires { IsBlankOf blank L.name L.parts }
    ensures text { IfOk result (λ t. t.items ≡ tabled (T.text_at texts.now) rect) }
    ensures memory { IfErr result (λ e. e ≡ Refusal.Memory) }
{
    let mut field = MemorySink::<L>::new(alloc, blank);
    let mut writer = new_writer(alloc);
    for k in 0..rect.height() {
        put_row(texts, rect, k, &mut field, &mut writer)?;
    }
    finish(writer)
}

/// A writer of `csv` that has written nothing.
fn new_writer(alloc: Global) -> Writer<Vec<u8>>
    ensures { HasWritten result [] }
{
    WriterBuilder::new().from_writer(Vec::new(alloc))
}

/// Writes the record of the rectangle's row `k`, counted from 0. `field` is room for the text of one field.
fn put_row<T: CellText, L: Ledger>(
    texts: &T,
    rect: Rect,
    k: usize,
    field: &mut MemorySink<L>,
    writer: &mut Writer<Vec<u8>>,
) -> Result<(), Refusal>
    requires { k < rect.height }
    ensures written { OnOk result ((text : List ℕ) → HasWritten writer.old text
        → HasWritten writer.new (text ++ row_text default_writer (row_record (T.text_at texts.now) rect k))) }
    ensures memory { IfErr result (λ e. e ≡ Refusal.Memory) }
{
    for j in 0..rect.width() {
        put_field(texts, rect.at(j, k), field, writer)?;
    }
    match writer.end_record() {
        Ok(()) => Ok(()),
        Err(error) => Err(refusal_of(error)),
    }
}

/// Writes the text of a cell as the next field of the record. `field` is room for the text.
fn put_field<T: CellText, L: Ledger>(
    texts: &T,
    cell: Cell,
    field: &mut MemorySink<L>,
    writer: &mut Writer<Vec<u8>>,
) -> Result<(), Refusal>
    ensures written { OnOk result ((text : List ℕ) (fields : Record) → length fields < COLUMNS
        → IsWriting writer.old text fields
        → IsWriting writer.new text (fields ++ T.text_at texts.now cell ∷ [])) }
    ensures memory { IfErr result (λ e. e ≡ Refusal.Memory) }
{
    field.bytes.clear();
    texts.put(cell, field)?;
    match writer.write_field(field.bytes.as_slice()) {
        Ok(()) => Ok(()),
        Err(error) => Err(refusal_of(error)),
    }
}

/// The text that the writer has written.
fn finish(writer: Writer<Vec<u8>>) -> Result<Vec<u8>, Refusal>
    ensures text { IfOk result (λ t. (text : List ℕ) → HasWritten writer text → t.items ≡ text) }
    ensures memory { IfErr result (λ e. e ≡ Refusal.Memory) }
{
    match writer.into_inner() {
        Ok(text) => Ok(text),
        Err(error) => Err(refusal_of(error.into_error())),
    }
}

/// The refusal for an error of `csv`'s writer: out of memory.
///
/// No contract of `csv` states that it can't be another error. The writer fails with the errors of what it writes to,
/// and with `UnequalLengths`. Here it writes to a `Vec`. The contract of std states that its `write` fails only as
/// `OutOfMemory` (clause `kind`), and that its `flush` doesn't fail (clause `ok`). All records of a rectangle have the
/// same number of fields.
fn refusal_of(_error: Error) -> Refusal
    ensures { result ≡ Refusal.Memory }
{
    Refusal::Memory
}
