//! The command `table`: reads a CSV table of entries, and writes what its cells show, or their entries, as CSV.
ghost use Rattle.std.specs.Prelude.{◌≡◌, ◌≢◌, ◌<◌, ◌≤◌, ◌⊎◌, ℕ, List, [], IfErr, IfOk, OnOk, Err, take};
ghost use Rattle.std.specs.Io.KnownBytes.{Appends, Consumes, IsAtEnd};
ghost use Rattle.std.specs.Option.{SomeIff};
ghost use Rattle.ps_grid.specs.declared.size.TheConstants.{COLUMNS, ROWS};
ghost use Rattle.ps_commands.specs.Commands.{IsCauseOf, IsTableOf, cells_text, from_first, table_of};
ghost use Rattle.ps_commands.specs.declared.fault.ProgramFault.TheVariants.{Refused};

use crate::fault::{ProgramFault, fault_of_import};
use crate::unfreed::leave_unfreed;
use ps_csv::{Imported, TableWatcher, export, export_entries, import_watched};
use ps_device::{Failed, Sink, Source, hand_on};
use ps_eval::Meter;
use ps_grid::{Cell, Rect, Refusal};
use ps_session::Resources;
use ps_sheet::Sheet;
use ps_words::TableOptions;
use std::alloc::Global;
use std::sync::ledger::Ledger;
use std::thread::Threads;

/// Reads a CSV table of entries into an empty sheet of replica 1, and writes what the sheet's cells show as a CSV
/// table.
///
/// With `options.entries` it writes the cells' entries instead. The written table has as many records as the table
/// read, and as many columns as its longest record has fields. If there is no record, nothing is written. At the end
/// the sink is flushed.
///
/// Nothing is written before the whole table is read. `watcher` sees the fields that are read. The sheet isn't freed,
/// since the program ends next.
///
/// # Errors
///
/// - `Device` if the source or the sink fails. If the source failed, nothing was written. If the sink failed, a
///   beginning of the table was written.
/// - `Csv` if the source has more than `LONGEST_TABLE` bytes (of `ps_csv`).
/// - The refusal of the first faulty field or record of the table, in reading order.
/// - [`ProgramFault::ReaderFailed`] if the reader of the crate `csv` failed.
/// - `Memory` if allocation fails. It may be returned instead of any other error.
///
/// Cost: that of an import and an export, and that of `watcher`.
pub fn table_on<R: Threads + Sync, S: Source, K: Sink, L: Ledger, W: TableWatcher>(
    resources: Resources<'_, R>,
    source: &mut S,
    sink: &mut K,
    meter: &mut Meter<L>,
    options: TableOptions,
    watcher: &mut W,
) -> Result<(), ProgramFault>
    ensures done { OnOk result ((bytes : List ℕ) × (text : List ℕ)
        × Consumes (S.remaining source.old) (S.remaining source.new) bytes × IsAtEnd (S.remaining source.new)
        × IsTableOf options.entries bytes text × Appends (K.contents sink.old) (K.contents sink.new) text) }
    ensures calm { OnOk result ((S.failures source.new ≡ S.failures source.old)
        × (K.failures sink.new ≡ K.failures sink.old)) }
    ensures refused { IfErr result (λ f. IsCauseOf (S.remaining source.old) (S.remaining source.new) f) }
    ensures flushed { OnOk result (K.waiting sink.new ≡ []) }
    ensures device { result ≡ Err (Refused Refusal.Device)
        → ((S.failures source.old < S.failures source.new) × (sink.new ≡ sink.old))
        ⊎ ((K.failures sink.old < K.failures sink.new) × (bytes : List ℕ) × (text : List ℕ) × (count : ℕ)
        × Consumes (S.remaining source.old) (S.remaining source.new) bytes × IsAtEnd (S.remaining source.new)
        × IsTableOf options.entries bytes text
        × Appends (K.contents sink.old) (K.contents sink.new) (take count text)) }
    ensures unwritten { IfErr result (λ f. f ≢ Refused Refusal.Device → sink.new ≡ sink.old) }
{
    let (sheet, imported) = taken_in(resources, source, meter, options, watcher)?;
    let done = put_table(resources.alloc, &sheet, options.entries, imported, sink);
    leave_unfreed(sheet);
    match done {
        Ok(()) => Ok(()),
        Err(refusal) => Err(ProgramFault::Refused(refusal)),
    }
}

/// Returns an empty sheet of replica 1 that has read the table of `source`, with the table's records and fields.
fn taken_in<R: Threads + Sync, S: Source, L: Ledger, W: TableWatcher>(
    resources: Resources<'_, R>,
    source: &mut S,
    meter: &mut Meter<L>,
    options: TableOptions,
    watcher: &mut W,
) -> Result<(Sheet, Imported), ProgramFault>
    ensures taken { IfOk result (λ t. (bytes : List ℕ)
        × Consumes (S.remaining source.old) (S.remaining source.new) bytes × IsAtEnd (S.remaining source.new)
        × IsTableOf options.entries bytes (table_of options.entries t.1.records t.1.fields t.0)) }
    ensures workers { IfOk result (λ t. t.0.workers ≡ options.workers) }
    ensures extent { IfOk result (λ t. (t.1.records ≤ ROWS) × (t.1.fields ≤ COLUMNS)
        × (0 < t.1.records → 0 < t.1.fields)) }
    ensures calm { OnOk result (S.failures source.new ≡ S.failures source.old) }
    ensures refused { IfErr result (λ f. IsCauseOf (S.remaining source.old) (S.remaining source.new) f) }
    ensures device { result ≡ Err (Refused Refusal.Device) → S.failures source.old < S.failures source.new }
{
    let Resources { threads, alloc } = resources;
    let mut sheet = Sheet::open(alloc, 1, usize::from(options.workers))?;
    match import_watched(threads, alloc, source, &mut sheet, meter, watcher) {
        Ok(imported) => Ok((sheet, imported)),
        Err(fault) => Err(fault_of_import(fault)),
    }
}

/// Writes the table of a sheet from A1 to the last record and the most fields, and flushes the sink. The table is of
/// the entries if `entries` is true, else of what the sheet shows.
fn put_table<K: Sink>(
    alloc: Global,
    sheet: &Sheet,
    entries: bool,
    imported: Imported,
    sink: &mut K,
) -> Result<(), Refusal>
    requires records { imported.records ≤ ROWS }
    requires fields { imported.fields ≤ COLUMNS }
    requires some { 0 < imported.records → 0 < imported.fields }
    ensures written { OnOk result (Appends (K.contents sink.old) (K.contents sink.new)
        (table_of entries imported.records imported.fields sheet.now)) }
    ensures flushed { OnOk result (K.waiting sink.new ≡ []) }
    ensures calm { OnOk result (K.failures sink.new ≡ K.failures sink.old) }
    ensures device { IfErr result (λ e. e ≡ Refusal.Device → (count : ℕ)
        × Appends (K.contents sink.old) (K.contents sink.new)
        (take count (table_of entries imported.records imported.fields sheet.now))) }
    ensures failed { IfErr result (λ e. e ≡ Refusal.Device → K.failures sink.old < K.failures sink.new) }
    ensures memory { IfErr result (λ e. e ≡ Refusal.Memory → sink.new ≡ sink.old) }
    ensures refused { IfErr result (λ e. (e ≡ Refusal.Memory) ⊎ (e ≡ Refusal.Device)) }
{
    match extent(imported) {
        Some(rect) => put_cells(alloc, sheet, entries, rect, sink)?,
        None => {}
    }
    match hand_on(sink) {
        Ok(()) => Ok(()),
        Err(Failed) => Err(Refusal::Device),
    }
}

/// Writes the table of a rectangle: of its entries if `entries` is true, else of what it shows.
fn put_cells<K: Sink>(
    alloc: Global,
    sheet: &Sheet,
    entries: bool,
    rect: Rect,
    sink: &mut K,
) -> Result<(), Refusal>
    ensures written { OnOk result (Appends (K.contents sink.old) (K.contents sink.new)
        (cells_text entries rect sheet.now)) }
    ensures calm { OnOk result (K.failures sink.new ≡ K.failures sink.old) }
    ensures device { IfErr result (λ e. e ≡ Refusal.Device → (count : ℕ)
        × Appends (K.contents sink.old) (K.contents sink.new) (take count (cells_text entries rect sheet.now))) }
    ensures failed { IfErr result (λ e. e ≡ Refusal.Device → K.failures sink.old < K.failures sink.new) }
    ensures memory { IfErr result (λ e. e ≡ Refusal.Memory → sink.new ≡ sink.old) }
    ensures refused { IfErr result (λ e. (e ≡ Refusal.Memory) ⊎ (e ≡ Refusal.Device)) }
{
    if entries {
        export_entries(alloc, sheet, rect, sink)
    } else {
        export(alloc, sheet, rect, sink)
    }
}

/// Returns the cells from A1 to the last record and the most fields; none if there is no record.
fn extent(imported: Imported) -> Option<Rect>
    requires records { imported.records ≤ ROWS }
    requires fields { imported.fields ≤ COLUMNS }
    requires some { 0 < imported.records → 0 < imported.fields }
    ensures { SomeIff result (0 < imported.records) (from_first imported.records imported.fields) }
{
    if imported.records == 0 {
        return None;
    }
    let first = Cell::new(0, 1).unwrap();
    let last = Cell::new(imported.fields as u8 - 1, imported.records as u16).unwrap();
    Some(Rect::new(first, last))
}
