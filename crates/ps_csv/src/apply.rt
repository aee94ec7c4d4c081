//! The contents of a table, assigned to a sheet.

ghost use Rattle.std.specs.Prelude.{◌≡◌, ◌≢◌, ◌⊎◌, ◌↔◌, ◌<◌, ◌≤◌, ◌∷◌, ◌++◌, [], List, true, None, Err};
ghost use Rattle.std.specs.Prelude.{IfErr, OnOk, OnErr, drop, length, map, take};
ghost use Rattle.std.specs.List.Sorted.{IsStrictlyIncreasing};
ghost use Rattle.ps_grid.specs.declared.parties.TheConstants.{REPLICAS};
ghost use Rattle.ps_delta.specs.Deltas.{Entries, joined_history};
ghost use Rattle.ps_sheet.specs.Arrivals.{Follow};
ghost use Rattle.ps_sheet.specs.Edits.{delta_of_edit};
ghost use Rattle.ps_sheet.specs.Sheet.{IsSheet};
ghost use Rattle.ps_delta.specs.declared.edit.Edit.TheVariants.{SetAll};
ghost use Rattle.ps_csv.specs.Records.{Record, RecordsSay};
ghost use Rattle.ps_csv.specs.Inside.{cells_of_each};
ghost use Rattle.ps_csv.specs.Imports.{Assigned, BeginsFilled};

use crate::fault::ImportFault;
use ps_content::Content;
use ps_delta::{Batch, Edit};
use ps_eval::Meter;
use ps_grid::{Cell, Refusal};
use ps_sheet::{Arrivals, Sheet};
use std::alloc::Global;
use std::sync::ledger::Ledger;
use std::thread::Threads;

/// Assigns the contents of each record, one record after another, and recalculates the sheet once, after the last.
pub(crate) fn apply<R: Threads + Sync, L: Ledger>(
    rt: &R,
    alloc: Global,
    batches: Vec<Vec<(Cell, Content)>>,
    sheet: &mut Sheet,
    meter: &mut Meter<L>,
) -> Result<(), ImportFault>
    requires said { (table : List Record)
        × RecordsSay (joined_history sheet.old.history) 0 table (cells_of_each batches.items) }
    requires sheet { IsSheet sheet.old }
    ensures assigned { OnOk result
        (Assigned sheet.old.replica sheet.old.history (cells_of_each batches.items) sheet.new.history) }
    ensures stopped { IfErr result (λ f. Assigned sheet.old.replica sheet.old.history
        (take f.applied (cells_of_each batches.items)) sheet.new.history) }
    ensures next { IfErr result (λ f. 0 < f.applied
        → BeginsFilled (drop f.applied (cells_of_each batches.items))) }
    ensures grown { IfErr result (λ f. 0 < f.applied → length sheet.old.history < length sheet.new.history) }
    ensures memory { IfErr result (λ f. (f.refusal ≡ Refusal.Memory) × (f.reader_error ≡ None)) }
    ensures none { IfErr result (λ f. f.applied ≡ 0 → (sheet.new ≡ sheet.old) × (meter.new ≡ meter.old)) }
    ensures replica { sheet.new.replica ≡ sheet.old.replica }
    ensures workers { sheet.new.workers ≡ sheet.old.workers }
    ensures sheet { IsSheet sheet.new }
{
    if has_none(&batches) {
        return Ok(());
    }
    let mut arrivals = match Arrivals::after(alloc, sheet) {
        Ok(arrivals) => arrivals,
        Err(refusal) => return Err(refusal.into()),
    };
    let made = make_all(alloc, sheet, batches, &mut arrivals);
    match settle(rt, alloc, arrivals, sheet, meter) {
        Ok(()) => made,
        Err(refusal) => Err(refusal.into()),
    }
}

/// Whether there are no records.
fn has_none(batches: &Vec<Vec<(Cell, Content)>>) -> bool
    ensures { (result ≡ true) ↔ (batches.now.items ≡ []) }
{
    batches.is_empty()
}

/// Appends the deltas that were made, and recalculates the sheet once. Does nothing if there are none.
fn settle<R: Threads + Sync, L: Ledger>(
    rt: &R,
    alloc: Global,
    arrivals: Arrivals,
    sheet: &mut Sheet,
    meter: &mut Meter<L>,
) -> Result<(), Refusal>
    requires follow { Follow sheet.old.history arrivals }
    requires sheet { IsSheet sheet.old }
    ensures appended { OnOk result (sheet.new.history ≡ sheet.old.history ++ arrivals.deltas) }
    ensures none { arrivals.deltas ≡ [] → (sheet.new ≡ sheet.old) × (meter.new ≡ meter.old) }
    ensures memory { IfErr result (λ e. e ≡ Refusal.Memory) }
    ensures kept { OnErr result ((sheet.new ≡ sheet.old) × (meter.new ≡ meter.old)) }
    ensures replica { sheet.new.replica ≡ sheet.old.replica }
    ensures workers { sheet.new.workers ≡ sheet.old.workers }
    ensures sheet { IsSheet sheet.new }
{
    if arrivals.is_empty() {
        return Ok(());
    }
    match sheet.receive_all(rt, alloc, arrivals, meter) {
        Ok(_) => Ok(()),
        Err(refusal) => Err(refusal),
    }
}

/// Adds to `arrivals` the delta of each record that has contents, in order. If allocation fails, the deltas made so far
/// stay there, and the fault counts their records.
fn make_all(
    alloc: Global,
    sheet: &Sheet,
    batches: Vec<Vec<(Cell, Content)>>,
    arrivals: &mut Arrivals,
) -> Result<(), ImportFault>
    requires said { (table : List Record)
        × RecordsSay (joined_history sheet.now.history) 0 table (cells_of_each batches.items) }
    requires sheet { IsSheet sheet.now }
    requires none { arrivals.old.deltas ≡ [] }
    requires follow { Follow sheet.now.history arrivals.old }
    ensures assigned { OnOk result (Assigned sheet.now.replica sheet.now.history (cells_of_each batches.items)
        (sheet.now.history ++ arrivals.new.deltas)) }
    ensures stopped { IfErr result (λ f. Assigned sheet.now.replica sheet.now.history
        (take f.applied (cells_of_each batches.items)) (sheet.now.history ++ arrivals.new.deltas)) }
    ensures next { IfErr result (λ f. 0 < f.applied
        → BeginsFilled (drop f.applied (cells_of_each batches.items))) }
    ensures some { IfErr result (λ f. 0 < f.applied → arrivals.new.deltas ≢ []) }
    ensures memory { IfErr result (λ f. (f.refusal ≡ Refusal.Memory) × (f.reader_error ≡ None)) }
    ensures none { IfErr result (λ f. f.applied ≡ 0 → arrivals.new.deltas ≡ []) }
    ensures follow { Follow sheet.now.history arrivals.new }
{
    let mut applied = 0;
    for cells in batches {
        match assign(alloc, sheet.replica(), cells, arrivals) {
            Ok(()) => {}
            Err(refusal) => {
                let applied = count_of(applied, arrivals);
                return Err(ImportFault {
                    refusal,
                    applied,
                    reader_error: None,
                });
            }
        }
        applied += 1;
    }
    Ok(())
}

/// The number of records to report when memory ends after this many: 0 if they have no contents, so no deltas either.
fn count_of(applied: usize, arrivals: &Arrivals) -> usize
    ensures { ((arrivals.now.deltas ≡ []) × (result ≡ 0)) ⊎ ((arrivals.now.deltas ≢ []) × (result ≡ applied)) }
{
    if arrivals.is_empty() { 0 } else { applied }
}

/// Adds the delta of one record to `arrivals`, if the record has any contents.
fn assign(
    alloc: Global,
    replica: u8,
    cells: Vec<(Cell, Content)>,
    arrivals: &mut Arrivals,
) -> Result<(), Refusal>
    requires ascending { IsStrictlyIncreasing (map (λ e. e.0) cells.items) }
    requires replica { (1 ≤ replica) × (replica ≤ REPLICAS) }
    ensures assigned { OnOk result ((h : List Entries) → Follow h arrivals.old
        → Assigned replica (h ++ arrivals.old.deltas) (cells.items ∷ []) (h ++ arrivals.new.deltas)) }
    ensures follow { (h : List Entries) → Follow h arrivals.old → Follow h arrivals.new }
    ensures refused { IfErr result (λ e. (e ≡ Refusal.Memory) ⊎ ((h : List Entries) → Follow h arrivals.old
        → delta_of_edit replica (joined_history (h ++ arrivals.old.deltas)) (SetAll cells.items) ≡ Err e)) }
    ensures kept { OnErr result (arrivals.new.deltas ≡ arrivals.old.deltas) }
    ensures filled { OnErr result (cells.items ≢ []) }
{
    match Batch::new(cells) {
        Some(batch) => match arrivals.edit(alloc, replica, Edit::SetAll(batch)) {
            Ok(()) => Ok(()),
            Err(refusal) => Err(refusal),
        },
        None => Ok(()),
    }
}
