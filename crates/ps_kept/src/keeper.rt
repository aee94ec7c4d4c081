//! The keeper of a sheet: it makes the changes of a session durable.
ghost use Rattle.std.specs.Prelude.{◌≡◌, ◌+◌, ◌≤◌, ℕ, List, OnOk, OnErr, false, length, take, ⊤};
ghost use Rattle.ps_delta.specs.Deltas.{Entries};
ghost use Rattle.ps_sheet.specs.Sheet.{IsFresh, SheetView};
ghost use Rattle.ps_kept.specs.Inside.{later};
ghost use Rattle.ps_kept.specs.Kept.{IsKept, IsNoted, Notes};
ghost use Rattle.ps_kept.specs.Starts.{Outlives};

use crate::noting::note_deltas;
use ps_delta::Delta;
use ps_device::Failed;
use ps_keep::{Device, Journal};
use ps_session::Keeper;
use ps_sheet::Sheet;
use std::alloc::Global;
use std::marker::Model;

/// A keeper that makes the sheet of one replica durable in a journal, a file to which lines are appended. The first
/// line names the replica, and each later one pushes one change of the history. A contract sees the keeper as its
/// journal, a `JournalView`.
#[derive(Drop)]
pub struct SheetKeeper<D: Device + Drop> {
    journal: Journal<D>,
    /// how many changes of the history are in the journal
    noted: u64,
}

impl<D: Device + Drop> Model for SheetKeeper<D> {
    ghost use Rattle.std.specs.Prelude.{◌≡◌, ◌+◌, length};
    ghost use Rattle.ps_keep.specs.Journals.{JournalView};

    ghost Value = { JournalView };

    ghost view = { λ k. k.journal };

    // (the first line names the replica)
    ghost invariant = { λ k. length k.journal.lines ≡ k.noted + 1 };
}

impl<D: Device + Drop> SheetKeeper<D> {
    /// Creates a keeper that continues this journal, which has the replica's line and the lines of `noted` changes.
    pub(crate) fn new(journal: Journal<D>, noted: u64) -> SheetKeeper<D>
        requires { length journal.lines ≡ noted + 1 }
        ensures { result ≡ journal }
    {
        SheetKeeper { journal, noted }
    }

    /// Adds the changes that the journal doesn't have yet, without a sync.
    fn note_later(&mut self, alloc: Global, history: &[Delta]) -> Result<(), Failed>
        requires within { length self.old.lines ≤ length history.now + 1 }
        ensures all { OnOk result (Notes self.old (later self.old.lines history.now) self.new) }
        ensures part { OnErr result ((n : ℕ)
            × Notes self.old (take n (later self.old.lines history.now)) self.new) }
    {
        let later = &history[self.noted as usize..];
        note_deltas(alloc, &mut self.journal, later, &mut self.noted)
    }

    /// Returns the journal that the keeper wrote to.
    pub fn into_journal(self) -> Journal<D>
        ensures { result ≡ self }
    {
        let SheetKeeper { journal, .. } = self;
        journal
    }
}

impl<D: Device + Drop> Keeper<Sheet> for SheetKeeper<D> {
    ghost use Rattle.std.specs.Prelude.{◌≡◌, false, ⊤};
    ghost use Rattle.ps_kept.specs.Kept.{IsKept, IsNoted};

    // from the file after any crash, the next start reads the whole history
    ghost covers = { λ k sheet. IsKept sheet.replica sheet.history k };

    ghost fits = { λ k sheet. IsNoted sheet.replica sheet.history k × (k.has_failed ≡ false) };

    ghost can_fail = { ⊤ };

    /// Adds the changes that the journal doesn't have yet, and syncs the file, so that the whole history is durable.
    ///
    /// Fails when the device fails, when out of memory, and when a change is too long for a line. Whether the call
    /// fails or not, and at whatever moment a crash comes, the next start reads a beginning of the history. This
    /// beginning has all changes that were durable before the call.
    ///
    /// Cost: linear in the lines that are added; at most one append and one sync, and none if there is no new change.
    fn sync(&mut self, alloc: Global, board: &mut Sheet) -> Result<(), Failed>
        requires fits { IsNoted board.old.replica board.old.history self.old × (self.old.has_failed ≡ false) }
        ensures same { board.new ≡ board.old }
        ensures covered { OnOk result (IsKept board.new.replica board.new.history self.new) }
        ensures fits { OnOk result (IsNoted board.new.replica board.new.history self.new
            × (self.new.has_failed ≡ false)) }
        ensures stays { (state : SheetView) → IsKept state.replica state.history self.old
            → IsKept state.replica state.history self.new }
        ensures failed { OnErr result ⊤ }
        ensures any_moment { (kept : List Entries) → IsKept board.old.replica kept self.old
            → IsFresh board.old.history
            → Outlives board.old.replica kept board.old.history self.new.written self.old.synced }
    {
        match self.note_later(alloc, board.history()) {
            Ok(()) => self.journal.sync(),
            Err(failed) => Err(failed),
        }
    }
}
