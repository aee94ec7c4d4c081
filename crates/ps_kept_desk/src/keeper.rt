//! The keeper of a desk, and the keepers of its sessions.

ghost use Rattle.std.specs.Prelude.{◌≡◌, ◌+◌, ◌≤◌, [], false, length, vec_len, IfOk, OnOk};
ghost use mathlib.Core.List.{IsPrefix};
ghost use Rattle.ps_sheet.specs.Sheet.{IsSheet};
ghost use Rattle.ps_desk.specs.Closing.{HistoryBegins, IsClosed, appended_of};
ghost use Rattle.ps_desk.specs.Opening.{new_passes};
ghost use Rattle.ps_keep.specs.Journals.{IsJournal};
ghost use Rattle.ps_kept.specs.Kept.{TellHistory};
ghost use Rattle.ps_kept_desk.specs.Records.{EndsKept};

use crate::record::{DurablePosition, Ended, Record};
use ps_desk::{Desk, DeskName, Pass, Position, Seat};
use ps_device::Failed;
use ps_keep::{Device, Journal};
use ps_session::Keeper;
use std::alloc::Global;
use std::marker::Model;
use std::sync::{Mutex, Wait};

/// A keeper that makes the changes of a desk durable in a journal, for all the desk's sessions.
#[derive(Drop)]
pub struct DeskKeeper<L: DeskName, D: Device + Drop> {
    record: Mutex<Record<L, D>>,
}

impl<L: DeskName, D: Device + Drop> DeskKeeper<L, D> {
    /// Creates the keeper of a desk that was just opened. `passes` are the passes that the desk was opened with, and
    /// `changes` is the number of changes that its sheet had then. The journal's lines are the replica line and one
    /// line for each of these changes, all durable.
    pub fn new<W: Wait + Drop>(
        journal: Journal<D>,
        desk: &Desk<L, W>,
        passes: &[Pass<L>],
        changes: u64,
    ) -> DeskKeeper<L, D>
        requires told { TellHistory L.replica journal.lines L.opening }
        requires kept { journal.kept ≡ journal.lines }
        requires open { journal.has_failed ≡ false }
        requires journal { IsJournal journal }
        requires passes { passes.now ≡ new_passes desk.now }
        requires changes { changes ≡ length L.opening }
    {
        // for its contract: there is at least one slot
        let _ = desk.seats();
        DeskKeeper {
            record: Mutex::new(Record::new(journal, passes[0].shown().unwrap(), changes)),
        }
    }

    /// Makes the published list durable up to a position, unless it is already. Returns the token for what is durable.
    fn keep<W: Wait + Drop, V: Wait>(
        &self,
        wait: &V,
        alloc: Global,
        desk: &Desk<L, W>,
        position: &Position<L>,
    ) -> Result<DurablePosition<L>, Failed>
        ensures { IfOk result (λ k. IsPrefix position.now k × (length position.now ≤ length k)) }
    {
        let mut guard = self.record.lock(wait);
        let record = &mut *guard;
        if record.has(position) {
            return Ok(record.kept());
        }
        record.advance(wait, alloc, desk)?;
        // (never so: no position is beyond the end of the list)
        if !record.has(position) {
            return Err(Failed);
        }
        Ok(record.kept())
    }

    /// Makes all published changes durable, for a caller without a session slot, and returns the token for the durable
    /// list. The call fails if the device fails or has failed before, or when out of memory.
    ///
    /// Cost: that of a sync if some change isn't durable yet. The call may wait while sessions sync, for the desk's
    /// lock, and for readers of an older copy.
    pub fn keep_shown<W: Wait + Drop, V: Wait>(
        &self,
        wait: &V,
        alloc: Global,
        desk: &Desk<L, W>,
    ) -> Result<DurablePosition<L>, Failed> {
        let mut guard = self.record.lock(wait);
        let record = &mut *guard;
        record.advance(wait, alloc, desk)?;
        Ok(record.kept())
    }

    /// Ends the desk and its keeper, and returns the sheet and the journal.
    ///
    /// `passes` are the passes of all slots, and `reported` the tokens of what the sessions reported as durable. Unless
    /// the device failed before, the call adds the lines that aren't durable yet, and syncs the journal once more.
    /// Whether this last sync succeeded is `synced` of the result.
    ///
    /// The sheet is what [`Desk::close`] would return. The journal's durable lines are those of a beginning of the
    /// sheet's history, and this beginning has all changes that `reported` stands for. If the last sync succeeded, the
    /// beginning is the whole history.
    ///
    /// Cost: that of freeing the published copies, and of a sync.
    pub fn close<W: Wait + Drop, V: Wait>(
        self,
        wait: &V,
        alloc: Global,
        desk: Desk<L, W>,
        passes: Vec<Pass<L>>,
        reported: &[DurablePosition<L>],
    ) -> Ended<D>
        requires passes { vec_len passes ≡ desk }
        ensures replica { result.sheet.replica ≡ L.replica }
        ensures begins { HistoryBegins L.opening result.sheet.history passes.items }
        ensures grown { length result.sheet.history ≡ length L.opening + appended_of passes.items }
        ensures one { IsClosed L.opening result.sheet.history passes.items }
        ensures sheet { IsSheet result.sheet }
        ensures reported { EndsKept L.replica L.opening result.sheet.history reported.now result.journal.kept }
        ensures all { OnOk result.synced (TellHistory L.replica result.journal.kept result.sheet.history) }
        ensures journal { IsJournal result.journal }
    {
        let DeskKeeper { record } = self;
        record
            .into_inner()
            .close(wait, alloc, desk, passes, reported)
    }
}

/// The keeper of one session at a desk. A contract sees the keeper as the beginning of the desk's published list that
/// the keeper knows to be durable.
#[derive(Drop)]
pub struct SessionKeeper<'a, L: DeskName, W: Wait + Drop, D: Device + Drop, V: Wait> {
    keeper: &'a DeskKeeper<L, D>,
    desk: &'a Desk<L, W>,
    /// the means by which it waits for the locks
    wait: &'a V,
    kept: DurablePosition<L>,
}

impl<'a, L: DeskName, W: Wait + Drop, D: Device + Drop, V: Wait> Model
    for SessionKeeper<'a, L, W, D, V> {
    ghost use Rattle.std.specs.Prelude.{List};
    ghost use Rattle.std.specs.Coded.{codes};
    ghost use Rattle.ps_face.specs.declared.patch.Note.{Note};
    ghost use Rattle.ps_face.specs.contracts.patch.Note as note;

    ghost Value = { List Note };

    ghost coded = { Prim.hlevel (codes, note.the_row.coded) };

    ghost view = { λ k. k.kept };
}

impl<'a, L: DeskName, W: Wait + Drop, D: Device + Drop, V: Wait> SessionKeeper<'a, L, W, D, V> {
    /// Creates the keeper of a session that begins. The call may wait while other sessions sync.
    pub fn new(
        keeper: &'a DeskKeeper<L, D>,
        desk: &'a Desk<L, W>,
        wait: &'a V,
    ) -> SessionKeeper<'a, L, W, D, V> {
        let kept = keeper.record.lock(wait).kept();
        SessionKeeper {
            keeper,
            desk,
            wait,
            kept,
        }
    }

    /// Ends the keeper, and returns the token for the list that this keeper knows to be durable.
    pub fn leave(self) -> DurablePosition<L>
        ensures { result ≡ self.entry }
    {
        let SessionKeeper { kept, .. } = self;
        kept
    }

    /// Makes the published list durable up to a position.
    fn keep(&mut self, alloc: Global, position: &Position<L>) -> Result<(), Failed>
        ensures covered { OnOk result (IsPrefix position.now self.new) }
        ensures later { IsPrefix self.old self.new }
    {
        if self.kept.has(position) {
            return Ok(());
        }
        let kept = self.keeper.keep(self.wait, alloc, self.desk, position)?;
        // for its contract: the list reported before is a beginning of this one
        let _ = self.kept.begins(&kept);
        self.kept = kept;
        Ok(())
    }
}

/// The sync of a session at a desk. After it all changes that the session has seen are shown to everyone and durable,
/// whichever session made them.
impl<L: DeskName, W: Wait + Drop, D: Device + Drop, V: Wait, U: Wait> Keeper<Seat<'_, L, W, U>>
    for SessionKeeper<'_, L, W, D, V> {
    ghost use Rattle.std.specs.Prelude.{⊤};
    ghost use mathlib.Core.List.{IsPrefix};

    ghost covers = { λ keeper seat. IsPrefix seat.list keeper };

    ghost fits = { λ keeper seat. ⊤ };

    ghost can_fail = { ⊤ };

    fn sync(&mut self, alloc: Global, board: &mut Seat<'_, L, W, U>) -> Result<(), Failed> {
        self.keep(alloc, &board.position())?;
        board.note_shown(self.kept.shown());
        Ok(())
    }
}
