//! The import of a table of entries into a sheet.

ghost use Rattle.std.specs.Prelude.{◌≡◌, ◌≢◌, ◌⊎◌, ◌<◌, ◌≤◌, ℕ, List, length, IfOk, IfErr, IfNone, IfSome, OnOk};
ghost use Rattle.std.specs.Io.KnownBytes.{Consumes, IsAtEnd};
ghost use Rattle.ps_delta.specs.Deltas.{joined_history};
ghost use Rattle.ps_sheet.specs.Sheet.{IsSheet};
ghost use Rattle.ps_csv.specs.Faults.{TableFault, TableReaderFails};
ghost use Rattle.ps_csv.specs.Records.{IsTable, Record};
ghost use Rattle.ps_csv.specs.Inside.{HasRead};
ghost use Rattle.ps_csv.specs.TakesIn.{TakesIn};
ghost use Rattle.ps_csv.specs.declared.bytes.TheConstants.{LONGEST_TABLE};

use crate::apply::apply;
use crate::bytes::read_all;
use crate::fault::ImportFault;
use crate::table::{Table, read_table};
use crate::watcher::{TableWatcher, UnwatchedTable};
use ps_device::Source;
use ps_eval::Meter;
use ps_grid::Refusal;
use ps_sheet::Sheet;
use std::alloc::Global;
use std::sync::ledger::Ledger;
use std::thread::Threads;

/// The size of a table that was imported.
#[derive(Clone, Copy, Debug, PartialEq, Eq)]
pub struct Imported {
    /// The number of records.
    pub records: usize,
    /// The number of fields of the record that has the most; 0 for a table without records.
    pub fields: usize,
}

/// Imports a CSV table of entries into the sheet, and returns the table's size.
///
/// Field j of record n is an entry for the cell in column j and row n. An empty field leaves its cell unchanged.
/// Each record with a field that isn't empty becomes one edit. The source is read to its end, and all fields are
/// checked, before anything is assigned.
///
/// The program calls [`import_watched`] instead, with a watcher that reports hints. `import` is part of the public
/// interface.
///
/// # Errors
///
/// Returns the first of these:
///
/// - `Device` if the source fails.
/// - `Csv` if the source has more than `LONGEST_TABLE` bytes.
/// - The first field or record at fault in reading order: `Csv` for a record past the last row or a field past the last
///   column, the refusal of `read_entry`, or `ClockFull` if the cell's register has the last time, `LAST_TIME`.
///
/// The contracts of `csv` don't exclude that the crate's own reader fails, even over bytes in memory. This failure is
/// also returned as `Csv`. It alone has a `reader_error`, which is the reader's error.
///
/// If allocation fails at any step, the import returns `Memory`. A failed import assigns nothing, with one exception:
/// if allocation fails while the edits' deltas are made, the first `applied` records stay assigned.
///
/// Cost: linear in the bytes of the source, plus that of one edit of all cells that are assigned, and that of copying
/// the sheet's state. It takes memory for the bytes, and twice for the contents that the bytes stand for.
pub fn import<R: Threads + Sync, S: Source, L: Ledger>(
    rt: &R,
    alloc: Global,
    source: &mut S,
    sheet: &mut Sheet,
    meter: &mut Meter<L>,
) -> Result<Imported, ImportFault>
    ensures { TakesIn S.remaining S.failures source.old source.new sheet.old sheet.new meter.old meter.new result }
{
    import_watched(rt, alloc, source, sheet, meter, &mut UnwatchedTable)
}

/// Imports a CSV table of entries into the sheet as [`import`] does, and shows `watcher` each field when it is read.
///
/// The watcher sees each field that isn't empty, up to and including the first field that is refused. The watcher also
/// sees the first record that is past the last row or has a field past the last column.
///
/// Cost: that of [`import`], and of the watcher's calls.
pub fn import_watched<R: Threads + Sync, S: Source, L: Ledger, W: TableWatcher>(
    rt: &R,
    alloc: Global,
    source: &mut S,
    sheet: &mut Sheet,
    meter: &mut Meter<L>,
    watcher: &mut W,
) -> Result<Imported, ImportFault>
    ensures { TakesIn S.remaining S.failures source.old source.new sheet.old sheet.new meter.old meter.new result }
{
    let table = match checked(alloc, source, sheet, watcher) {
        Ok(table) => table,
        Err(fault) => return Err(fault),
    };
    let Table { batches, fields } = table;
    let records = batches.len();
    match apply(rt, alloc, batches, sheet, meter) {
        Ok(()) => Ok(Imported { records, fields }),
        Err(fault) => Err(fault),
    }
}

/// The contents that the source's table says, or the first fault of the source and its table.
fn checked<S: Source, W: TableWatcher>(
    alloc: Global,
    source: &mut S,
    sheet: &Sheet,
    watcher: &mut W,
) -> Result<Table, ImportFault>
    ensures read { IfOk result (λ t. (bytes : List ℕ) × (table : List Record)
        × Consumes (S.remaining source.old) (S.remaining source.new) bytes × IsAtEnd (S.remaining source.new)
        × (length bytes ≤ LONGEST_TABLE) × IsTable bytes table
        × HasRead (joined_history sheet.now.history) table t) }
    ensures calm { OnOk result (S.failures source.new ≡ S.failures source.old) }
    ensures refused { IfErr result (λ f. IfNone f.reader_error
        (TableFault (joined_history sheet.now.history) (S.remaining source.old) (S.remaining source.new) f.refusal)) }
    ensures reader { IfErr result (λ f. IfSome f.reader_error
        (TableReaderFails (joined_history sheet.now.history) (S.remaining source.old) (S.remaining source.new)
        f.refusal)) }
    ensures none { IfErr result (λ f. f.applied ≡ 0) }
    ensures device { IfErr result (λ f. f.refusal ≡ Refusal.Device → S.failures source.old < S.failures source.new) }
    ensures steady { IfErr result (λ f. f.refusal ≢ Refusal.Device
        → S.failures source.new ≡ S.failures source.old) }
    ensures sheet { IsSheet sheet.now }
{
    // for the fact `IsSheet`, which the contract of `version` states
    let _ = sheet.version();
    let bytes = match read_all(alloc, source) {
        Ok(bytes) => bytes,
        Err(refusal) => return Err(refusal.into()),
    };
    read_table(alloc, sheet, &bytes, watcher)
}
