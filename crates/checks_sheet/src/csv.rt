//! The import of a table while an allocation may fail. The expected texts are worked out by hand. Other tables are
//! tested with the whole program (`tests/test_table.py`).

ghost use Rattle.ps_grid.specs.Blanks.{IsBlankOf};

use ps_csv::{ImportFault, Imported, exported_text, import};
use ps_device::Reading;
use ps_eval::Meter;
use ps_grid::{Cell, Rect, Refusal};
use ps_sheet::Sheet;
use std::alloc::Global;
use std::io::Read;
use std::marker::Brand;
use std::sync::ledger::{Blank, Ledger};
use std::thread::Threads;

/// Imports a reader's table. The blanks start the counts of failures and of evaluations, which contracts read.
fn taken<R: Threads + Sync, T: Read + Drop, I: Ledger, M: Ledger>(
    rt: &R,
    alloc: Global,
    reader: T,
    sheet: &mut Sheet,
    input: Blank,
    evaluations: Blank,
) -> Result<Imported, ImportFault>
    requires input { IsBlankOf input I.name I.parts }
    requires evaluations { IsBlankOf evaluations M.name M.parts }
{
    let mut source = Reading::<T, I>::new(reader, input);
    let mut meter = Meter::<M>::new(evaluations);
    let imported = import(rt, alloc, &mut source, sheet, &mut meter);
    meter.end();
    imported
}

/// The refusal of a fault, and the number of records that were applied.
fn refused(fault: ImportFault) -> (Refusal, usize) {
    (fault.refusal, fault.applied)
}

/// Imports a reader's table, with counts of its own.
fn take_from<R: Threads + Sync, T: Read + Drop>(
    rt: &R,
    alloc: Global,
    reader: T,
    sheet: &mut Sheet,
) -> Result<Imported, (Refusal, usize)> {
    match taken::<R, T, Brand, Brand>(rt, alloc, reader, sheet, Blank::new(1), Blank::new(1)) {
        Ok(imported) => Ok(imported),
        Err(fault) => Err(refused(fault)),
    }
}

/// The first five rows of the sheet, as a table.
fn table_of(alloc: Global, sheet: &Sheet) -> Result<Vec<u8>, Refusal> {
    let first = Cell::read(b"A1").ok_or(Refusal::Cell)?;
    let last = Cell::read(b"B5").ok_or(Refusal::Cell)?;
    exported_text(alloc, sheet, Rect::new(first, last))
}

/// Five records. The second one refers to the third.
const FIVE: &[u8] = b"1,=[.A1]*3\ntext,=[.A3]\n7,@tally\n@choice,=SUM([.A1:.A3])\n=MOD(1;0),\n";

/// What the sheet shows after the first 0, 1, 2 .. 5 records, as a table.
static TABLES: [&[u8]; 6] = [
    b",\n,\n,\n,\n,\n",
    b"1,3\n,\n,\n,\n,\n",
    b"1,3\ntext,0\n,\n,\n,\n",
    b"1,3\ntext,7\n7,0\n,\n,\n",
    b"1,3\ntext,7\n7,0\n{},8\n,\n",
    b"1,3\ntext,7\n7,0\n{},8\n#DIV/0!,\n",
];

/// Whether the sheet shows what exactly the first `count` of the five records give.
fn stand(alloc: Global, sheet: &Sheet, count: usize) -> Result<bool, Refusal> {
    let table = table_of(alloc, sheet)?;
    Ok(
        TABLES
            .get(count)
            .is_some_and(|due| *due == table.as_slice()),
    )
}

/// Imports the five records. Returns whether the sheet then shows them all, and has this version.
fn import_all<R: Threads + Sync>(
    rt: &R,
    alloc: Global,
    sheet: &mut Sheet,
    version: u64,
) -> Result<bool, Refusal> {
    let ended = take_from(rt, alloc, FIVE, sheet);
    let whole = Imported {
        records: 5,
        fields: 2,
    };
    Ok(ended == Ok(whole) && sheet.version() == version && stand(alloc, sheet, 5)?)
}

/// Imports the five records, and calls again if the first call is out of memory. Returns whether the sheet first had
/// exactly the records that the error counts, and then all.
fn import_again<R: Threads + Sync>(
    rt: &R,
    alloc: Global,
    sheet: &mut Sheet,
) -> Result<bool, Refusal> {
    match take_from(rt, alloc, FIVE, sheet) {
        Ok(_) => Ok(sheet.version() == 5 && stand(alloc, sheet, 5)?),
        Err((refusal, applied)) => {
            let is_part = refusal == Refusal::Memory
                && sheet.version() == applied as u64
                && stand(alloc, sheet, applied)?;
            let due = (applied as u64).saturating_add(5);
            Ok(is_part && import_all(rt, alloc, sheet, due)?)
        }
    }
}

/// Imports the five records into an empty sheet, as `import_again` does.
fn refuse_import<R: Threads + Sync>(rt: &R, alloc: Global) -> Result<bool, Refusal> {
    let mut sheet = Sheet::open(alloc, 1, 1)?;
    let ended = import_again(rt, alloc, &mut sheet);
    drop(sheet);
    ended
}

/// A refused import is `Memory`, and exactly the records that it counts as applied are in the sheet. The next import
/// assigns all records.
#[test]
fn refused_import(rt: HostRuntime) {
    let mut found = refuse_import(&rt, rt.alloc());
    if found == Err(Refusal::Memory) {
        found = refuse_import(&rt, rt.alloc());
    }
    assert!(rt; found == Ok(true));
}
