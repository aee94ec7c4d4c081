//! How much of a desk's published list is durable.

ghost use Rattle.std.specs.Prelude.{◌≡◌, ◌+◌, ◌<◌, ◌≤◌, ◌^◌, [], true, false, All, drop, length, vec_len};
ghost use Rattle.std.specs.Prelude.{MatchBool, OnOk, OnErr};
ghost use mathlib.Core.List.{IsPrefix};
ghost use Rattle.ps_face.specs.Legal.{history_of};
ghost use Rattle.ps_keep.specs.Journals.{IsJournal};
ghost use Rattle.ps_kept.specs.Kept.{TellHistory};
ghost use Rattle.ps_sheet.specs.Sheet.{IsSheet};
ghost use Rattle.ps_desk.specs.Closing.{HistoryBegins, IsClosed, appended_of};
ghost use Rattle.ps_kept_desk.specs.Records.{EndsKept, IsRecord};

use ps_delta::Delta;
use ps_desk::{Desk, DeskName, Pass, Position, ShownPosition};
use ps_device::Failed;
use ps_keep::{Device, Journal};
use ps_kept::note_deltas;
use ps_sheet::Sheet;
use std::alloc::Global;
use std::marker::Model;
use std::sync::Wait;

/// A token for a beginning of a desk's published list that is shown to everyone and durable. A contract sees the token
/// as this beginning.
///
/// Only the keeper of a desk creates a new token, for what the keeper has made durable.
#[derive(Drop)]
pub struct DurablePosition<L: DeskName> {
    shown: ShownPosition<L>,
}

impl<L: DeskName> Model for DurablePosition<L> {
    ghost use Rattle.std.specs.Prelude.{List};
    ghost use Rattle.std.specs.Coded.{codes};
    ghost use Rattle.ps_face.specs.declared.patch.Note.{Note};
    ghost use Rattle.ps_face.specs.contracts.patch.Note as note;

    ghost Value = { List Note };

    ghost coded = { Prim.hlevel (codes, note.the_row.coded) };

    ghost view = { λ k. k.shown };
}

impl<L: DeskName> DurablePosition<L> {
    /// Returns a second token for the same beginning.
    pub fn again(&self) -> DurablePosition<L>
        ensures { result ≡ self.now }
    {
        DurablePosition {
            shown: self.shown.again(),
        }
    }

    /// Returns the token which proves that the same beginning is shown to everyone.
    pub fn shown(&self) -> &ShownPosition<L>
        ensures { result.now ≡ self.now }
    {
        &self.shown
    }

    /// Returns whether this durable beginning is at least as long as `position`, so that the list is durable up to
    /// `position`.
    pub fn has(&self, position: &Position<L>) -> bool
        ensures { MatchBool result
            (IsPrefix position.now self.now × (length position.now ≤ length self.now))
            (length self.now < length position.now) }
    {
        self.shown.has(position)
    }

    /// Returns whether the beginning of `other` begins with this one. Both are beginnings of the same list, so the call
    /// compares only their lengths.
    pub fn begins(&self, other: &DurablePosition<L>) -> bool
        ensures { MatchBool result
            (IsPrefix self.now other.now × (length self.now ≤ length other.now))
            (length other.now < length self.now) }
    {
        other.shown.has(self.shown.position())
    }
}

/// The sheet and the journal that [`DeskKeeper::close`](crate::DeskKeeper::close) returns.
#[derive(Drop)]
pub struct Ended<D: Device + Drop> {
    /// The desk's sheet.
    pub sheet: Sheet,
    /// The desk's journal.
    pub journal: Journal<D>,
    /// `Ok` if the last sync succeeded, so that the whole history is durable.
    pub synced: Result<(), Failed>,
}

/// A journal of a desk's history, and how much of it is durable. A contract sees it as its `RecordView`.
#[derive(Drop)]
pub(crate) struct Record<L: DeskName, D: Device + Drop> {
    journal: Journal<D>,
    /// the beginning of the list that is durable
    kept: DurablePosition<L>,
    /// the beginning of the list that the record has seen
    seen: ShownPosition<L>,
    /// how many deltas of the history are in the journal
    noted: u64,
    /// whether the device failed, and isn't used any more
    is_stopped: bool,
}

impl<L: DeskName, D: Device + Drop> Model for Record<L, D> {
    ghost use Rattle.std.specs.Prelude.{◌≡◌};
    ghost use Rattle.std.specs.Coded.{codes};
    ghost use Rattle.ps_face.specs.contracts.patch.Note as note;
    ghost use Rattle.ps_kept_desk.specs.Records.{IsRecord, RecordView};

    ghost Value = { RecordView };

    ghost coded = { Prim.hlevel (codes, note.the_row.coded) };

    ghost view = { λ r. record {
      journal = r.journal;
      kept = r.kept;
      seen = r.seen;
      noted = r.noted;
    } };

    ghost invariant = { λ r. (r.journal.has_failed ≡ r.is_stopped)
        × IsRecord L.replica L.opening (record {
          journal = r.journal;
          kept = r.kept;
          seen = r.seen;
          noted = r.noted;
        }) };
}

impl<L: DeskName, D: Device + Drop> Record<L, D> {
    /// Creates the record of a desk whose opening history is durable.
    pub(crate) fn new(journal: Journal<D>, shown: ShownPosition<L>, noted: u64) -> Record<L, D>
        requires told { TellHistory L.replica journal.lines L.opening }
        requires kept { journal.kept ≡ journal.lines }
        requires open { journal.has_failed ≡ false }
        requires journal { IsJournal journal }
        requires shown { shown ≡ [] }
        requires noted { noted ≡ length L.opening }
        ensures { result ≡ record { journal = journal; kept = []; seen = []; noted = noted } }
    {
        Record {
            journal,
            kept: DurablePosition {
                shown: shown.again(),
            },
            seen: shown,
            noted,
            is_stopped: false,
        }
    }

    /// Returns the token for what is durable.
    pub(crate) fn kept(&self) -> DurablePosition<L>
        ensures kept { result ≡ self.now.kept }
        ensures record { IsRecord L.replica L.opening self.now }
    {
        self.kept.again()
    }

    /// Returns whether the list is durable up to this position.
    pub(crate) fn has(&self, position: &Position<L>) -> bool
        ensures { MatchBool result
            (IsPrefix position.now self.now.kept × (length position.now ≤ length self.now.kept))
            (length self.now.kept < length position.now) }
    {
        self.kept.has(position)
    }

    /// Makes all published changes durable. If it fails, no more is known to be durable than before.
    pub(crate) fn advance<W: Wait + Drop, V: Wait>(
        &mut self,
        wait: &V,
        alloc: Global,
        desk: &Desk<L, W>,
    ) -> Result<(), Failed>
        ensures later { IsPrefix self.old.kept self.new.kept }
        ensures all { OnOk result (self.new.kept ≡ self.new.seen) }
        ensures not_yet { OnErr result (self.new.kept ≡ self.old.kept) }
        ensures stopped { self.old.journal.has_failed ≡ true → self.new ≡ self.old }
    {
        if self.is_stopped {
            return Err(Failed);
        }
        match desk.later(wait, alloc, &mut self.seen, self.noted) {
            Ok(deltas) => self.add(alloc, &deltas),
            Err(_) => Err(Failed),
        }
    }

    /// Adds these deltas to the journal, and syncs it.
    fn add(&mut self, alloc: Global, deltas: &[Delta]) -> Result<(), Failed>
        requires rest { deltas.now ≡ drop self.old.noted (history_of L.opening self.old.seen) }
        requires bound { length (history_of L.opening self.old.seen) < 2 ^ 64 }
        requires open { self.old.journal.has_failed ≡ false }
        ensures seen { self.new.seen ≡ self.old.seen }
        ensures all { OnOk result (self.new.kept ≡ self.old.seen) }
        ensures not_yet { OnErr result (self.new.kept ≡ self.old.kept) }
    {
        self.note(alloc, deltas)?;
        self.sync()
    }

    /// Adds these deltas to the journal. If it fails, a beginning of them was added.
    fn note(&mut self, alloc: Global, deltas: &[Delta]) -> Result<(), Failed>
        requires rest { deltas.now ≡ drop self.old.noted (history_of L.opening self.old.seen) }
        requires bound { length (history_of L.opening self.old.seen) < 2 ^ 64 }
        ensures same { (self.new.seen ≡ self.old.seen) × (self.new.kept ≡ self.old.kept) }
        ensures calm { self.new.journal.has_failed ≡ self.old.journal.has_failed }
        ensures all { OnOk result (self.new.noted ≡ length (history_of L.opening self.old.seen)) }
    {
        note_deltas(alloc, &mut self.journal, deltas, &mut self.noted)
    }

    /// Syncs the journal, which has all that the record has seen, and reports that as durable.
    fn sync(&mut self) -> Result<(), Failed>
        requires all { self.old.noted ≡ length (history_of L.opening self.old.seen) }
        requires open { self.old.journal.has_failed ≡ false }
        ensures seen { self.new.seen ≡ self.old.seen }
        ensures all { OnOk result (self.new.kept ≡ self.old.seen) }
        ensures not_yet { OnErr result (self.new.kept ≡ self.old.kept) }
    {
        match self.journal.sync() {
            Ok(()) => {
                self.kept = DurablePosition {
                    shown: self.seen.again(),
                };
                Ok(())
            }
            Err(Failed) => {
                self.is_stopped = true;
                Err(Failed)
            }
        }
    }

    /// Ends the desk, makes the rest of its history durable, and returns the sheet and the journal.
    pub(crate) fn close<W: Wait + Drop, V: Wait>(
        mut self,
        wait: &V,
        alloc: Global,
        desk: Desk<L, W>,
        passes: Vec<Pass<L>>,
        reported: &[DurablePosition<L>],
    ) -> Ended<D>
        requires passes { vec_len passes ≡ desk }
        ensures replica { result.sheet.replica ≡ L.replica }
        ensures begins { HistoryBegins L.opening result.sheet.history passes.items }
        ensures grown { length result.sheet.history ≡ length L.opening + appended_of passes.items }
        ensures one { IsClosed L.opening result.sheet.history passes.items }
        ensures sheet { IsSheet result.sheet }
        ensures reported { EndsKept L.replica L.opening result.sheet.history reported.now result.journal.kept }
        ensures all { OnOk result.synced (TellHistory L.replica result.journal.kept result.sheet.history) }
        ensures journal { IsJournal result.journal }
    {
        let sheet = desk.close_at(wait, passes, &mut self.seen);
        let synced = self.finish(alloc, sheet.history());
        self.audit(wait, reported);
        let Record { journal, .. } = self;
        Ended {
            sheet,
            journal,
            synced,
        }
    }

    /// Makes the rest of the closed desk's history durable.
    fn finish(&mut self, alloc: Global, history: &[Delta]) -> Result<(), Failed>
        requires history { history.now ≡ history_of L.opening self.old.seen }
        ensures seen { self.new.seen ≡ self.old.seen }
        ensures all { OnOk result (self.new.kept ≡ self.old.seen) }
        ensures not_yet { OnErr result (self.new.kept ≡ self.old.kept) }
    {
        if self.is_stopped {
            return Err(Failed);
        }
        let noted = self.noted as usize;
        self.add(alloc, &history[noted..])
    }

    /// Confirms that each list in `reported` is durable. It always is. For one that isn't, the call would wait for
    /// ever.
    fn audit<V: Wait>(&self, wait: &V, reported: &[DurablePosition<L>])
        ensures { All (λ list. IsPrefix list self.now.kept) reported.now }
    {
        for kept in reported {
            if !kept.begins(&self.kept) {
                for _ in wait.forever() {}
                unreachable!()
            }
        }
    }
}
