//! The records of a table, read from its text.

ghost use Rattle.std.specs.Prelude.{◌≡◌, ◌⊎◌, ◌∷◌, ◌++◌, [], List, length, IfOk, IfErr, IfNone, IfSome, OnOk};
ghost use Rattle.csv.specs.Records.{fields_of};
ghost use Rattle.ps_delta.specs.Deltas.{joined_history};
ghost use Rattle.ps_csv.specs.Faults.{FirstFault, NextFault, ReaderFails};
ghost use Rattle.ps_csv.specs.Records.{IsTable, Record};
ghost use Rattle.ps_csv.specs.Inside.{HasRead, HasReadNothing};

use crate::fault::{ImportFault, fault_of};
use crate::fields::read_record;
use crate::watcher::TableWatcher;
use csv::{ByteRecord, Reader, ReaderBuilder};
use ps_content::Content;
use ps_grid::{Cell, ROWS, Refusal};
use ps_sheet::Sheet;
use std::alloc::Global;

/// The contents that the records of a table give the cells.
#[derive(Drop)]
pub(crate) struct Table {
    /// for each record, its cells with their contents
    pub(crate) batches: Vec<Vec<(Cell, Content)>>,
    /// the most fields of a record
    pub(crate) fields: usize,
}

/// The contents that the records of a text give the cells of the sheet, or the first fault in reading order.
pub(crate) fn read_table<W: TableWatcher>(
    alloc: Global,
    sheet: &Sheet,
    bytes: &[u8],
    watcher: &mut W,
) -> Result<Table, ImportFault>
    ensures read { IfOk result (λ t. (table : List Record) × IsTable bytes.now table
        × HasRead (joined_history sheet.now.history) table t) }
    ensures fault { IfErr result (λ f. IfNone f.reader_error
        ((f.refusal ≡ Refusal.Memory) ⊎ FirstFault (joined_history sheet.now.history) bytes.now f.refusal)) }
    ensures reader { IfErr result (λ f. IfSome f.reader_error (λ error. (f.refusal ≡ Refusal.Csv)
        × ReaderFails (joined_history sheet.now.history) bytes.now error)) }
    ensures none { IfErr result (λ f. f.applied ≡ 0) }
{
    let mut table = Table {
        batches: Vec::new(alloc),
        fields: 0,
    };
    for row in new_reader(alloc, bytes).into_byte_records() {
        match row {
            Ok(row) => take_record(alloc, sheet, &row, &mut table, watcher)?,
            Err(error) => return Err(fault_of(error)),
        }
    }
    Ok(table)
}

/// A reader of the text's records. There is no header row, and records may have different numbers of fields.
fn new_reader(alloc: Global, bytes: &[u8]) -> Reader<&[u8]>
    ensures { HasReadNothing bytes.now result }
{
    ReaderBuilder::new()
        .has_headers(false)
        .flexible(true)
        .from_reader(alloc, bytes)
}

/// Appends the contents of the next record to the table.
fn take_record<W: TableWatcher>(
    alloc: Global,
    sheet: &Sheet,
    fields: &ByteRecord,
    table: &mut Table,
    watcher: &mut W,
) -> Result<(), Refusal>
    ensures read { OnOk result ((before : List Record)
        → HasRead (joined_history sheet.now.history) before table.old
        → HasRead (joined_history sheet.now.history) (before ++ fields_of fields.now ∷ []) table.new) }
    ensures fault { IfErr result (λ e. (before : List Record)
        → HasRead (joined_history sheet.now.history) before table.old → (e ≡ Refusal.Memory)
        ⊎ NextFault (joined_history sheet.now.history) (length before) (fields_of fields.now) e) }
{
    let n = table.batches.len();
    if n >= ROWS {
        watcher.saw_past((n as u64).saturating_add(1));
        return Err(Refusal::Csv);
    }
    let cells = read_record(alloc, sheet, n, fields, watcher)?;
    table.batches.push(cells)?;
    table.fields = table.fields.max(fields.len());
    Ok(())
}
