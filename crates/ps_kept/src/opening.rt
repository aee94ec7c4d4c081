//! The start: reads a sheet from its file, and makes it durable there from then on.
ghost use Rattle.std.specs.Prelude.{◌≡◌, ◌≢◌, ◌⊎◌, ◌+◌, ◌≤◌, [], IfOk, IfErr, false, length};
ghost use Rattle.ps_grid.specs.declared.parties.TheConstants.{REPLICAS, WORKERS};
ghost use Rattle.std.specs.List.{All};
ghost use Rattle.ps_sheet.specs.Sheet.{IsSheet};
ghost use Rattle.ps_lines.specs.PullReplies.{HasLine};
ghost use Rattle.ps_keep.specs.Journals.{IsJournal};
ghost use Rattle.ps_keep.specs.Lines.{whole_lines};
ghost use Rattle.ps_kept.specs.Kept.{IsKept, IsNoted, started};
ghost use Rattle.ps_kept.specs.Starts.{IsRefusal, Reads};
ghost use Rattle.ps_kept.specs.Inside.{IsDue, IsKeepFault};

use crate::fault::KeepFault;
use crate::keeper::SheetKeeper;
use crate::reading::read_sheet;
use ps_eval::Meter;
use ps_keep::{Device, Found, Journal, first_line, open};
use ps_lines::line_of_replica;
use ps_sheet::Sheet;
use std::alloc::Global;
use std::sync::ledger::Ledger;
use std::thread::Threads;

/// Writes the first line, which names the replica, into an empty journal, and syncs it.
fn begin<D: Device + Drop>(
    alloc: Global,
    mut journal: Journal<D>,
    replica: u8,
) -> Result<Journal<D>, KeepFault>
    requires empty { journal.lines ≡ [] }
    requires journal { IsJournal journal }
    ensures lines { IfOk result (λ j. j.lines ≡ started replica []) }
    ensures kept { IfOk result (λ j. j.kept ≡ started replica []) }
    ensures open { IfOk result (λ j. j.has_failed ≡ false) }
    ensures journal { IfOk result IsJournal }
    ensures fault { IfErr result (IsKeepFault []) }
{
    let first = line_of_replica(alloc, replica)?;
    journal.note(first.as_slice())?;
    match journal.sync() {
        Ok(()) => Ok(journal),
        Err(_) => Err(KeepFault::Device),
    }
}

/// Opens a file as a journal, writes its first line if it has none, and returns the keeper that continues it. `changes`
/// is the number of changes that the file has.
fn keep_on<F: Found + Drop>(
    alloc: Global,
    found: F,
    replica: u8,
    changes: usize,
) -> Result<SheetKeeper<F::Device>, KeepFault>
    requires due { IsDue changes (whole_lines (F.bytes found)) }
    ensures lines { IfOk result (λ k. k.lines ≡ started replica (whole_lines (F.bytes found))) }
    ensures kept { IfOk result (λ k. k.kept ≡ started replica (whole_lines (F.bytes found))) }
    ensures open { IfOk result (λ k. k.has_failed ≡ false) }
    ensures journal { IfOk result IsJournal }
    ensures fault { IfErr result (IsKeepFault (whole_lines (F.bytes found))) }
{
    let is_begun = first_line(found.bytes()).is_some();
    let journal = match open(alloc, found) {
        Ok(journal) => journal,
        Err(_) => return Err(KeepFault::Device),
    };
    if is_begun {
        return Ok(SheetKeeper::new(journal, changes as u64));
    }
    match begin(alloc, journal, replica) {
        Ok(journal) => Ok(SheetKeeper::new(journal, 0)),
        Err(fault) => Err(fault),
    }
}

/// Reads the sheet of `replica`, 1 to 32, from the file `found`. Returns the sheet and a keeper that writes to this
/// file from then on.
///
/// The sheet evaluates formulas in up to `workers` threads at once, 1 to `WORKERS`. `meter` counts the formulas that
/// are evaluated.
///
/// The first line has to be `replica ` and the replica's number. Each later line has to push a delta that adds
/// something to the deltas before it. Bytes after the last line feed come from a crash during a write, and are cut
/// off. A file without a whole line must be empty or hold a beginning of the first line, which is then written.
///
/// Each change of the history fits a line, so a reply to `pull` never fails because a change is too long.
///
/// # Errors
///
/// - `Line`: the number of the first line that breaks the rules above, counted from 1. The number is 1 for a file
///   without a whole line that isn't a beginning of the first line.
/// - `Replica`: the file belongs to this other replica.
/// - `Memory`: out of memory.
/// - `Device`: the device failed.
///
/// With `Line` and `Replica` the error holds the file, unchanged to the byte. With `Memory` the error holds the file
/// unless the file had no whole line yet.
///
/// Cost: linear in the file. Each formula that the sheet has in the end is evaluated once.
pub fn open_kept<R: Threads + Sync, F: Found + Drop, L: Ledger>(
    rt: &R,
    alloc: Global,
    found: F,
    replica: u8,
    workers: usize,
    meter: &mut Meter<L>,
) -> Result<(Sheet, SheetKeeper<F::Device>), (KeepFault, Option<F>)>
    requires replica { (1 ≤ replica) × (replica ≤ REPLICAS) }
    requires workers { (1 ≤ workers) × (workers ≤ WORKERS) }
    ensures read { IfOk result (λ r. Reads replica (F.bytes found) r.0.history) }
    ensures replica { IfOk result (λ r. r.0.replica ≡ replica) }
    ensures workers { IfOk result (λ r. r.0.workers ≡ workers) }
    ensures sheet { IfOk result (λ r. IsSheet r.0) }
    ensures have_lines { IfOk result (λ r. All HasLine r.0.history) }
    ensures lines { IfOk result (λ r. r.1.lines ≡ started replica (whole_lines (F.bytes found))) }
    ensures synced { IfOk result (λ r. r.1.kept ≡ started replica (whole_lines (F.bytes found))) }
    ensures open { IfOk result (λ r. r.1.has_failed ≡ false) }
    ensures noted { IfOk result (λ r. IsNoted replica r.0.history r.1) }
    ensures kept { IfOk result (λ r. IsKept replica r.0.history r.1) }
    ensures refused { IfErr result (λ e. IsRefusal F.bytes replica (F.bytes found) e.0 e.1) }
{
    let sheet = match read_sheet(rt, alloc, found.bytes(), replica, workers, meter) {
        Ok(sheet) => sheet,
        Err(fault) => return Err((fault, Some(found))),
    };
    match keep_on(alloc, found, replica, sheet.history().len()) {
        Ok(keeper) => Ok((sheet, keeper)),
        Err(fault) => Err((fault, None)),
    }
}
