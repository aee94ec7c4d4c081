//! A change of a sheet that is worked out, and then made or given up.

ghost use Rattle.std.specs.Prelude.{◌≡◌, ◌+◌, ◌⊎◌, IsSomeAnd, IfOk, IfErr, OnErr};
ghost use Rattle.ps_shown.specs.Shown.{shown_at};
ghost use Rattle.ps_delta.specs.Deltas.{joined_history};
ghost use Rattle.ps_sheet.specs.Sheet.{IsSheet};
ghost use Rattle.ps_sheet.specs.Prepared.{IsDeltaOf, IsOf, IsPrepared, IsRefusedBy, IsToAppend};
ghost use Rattle.ps_sheet.specs.Prepared.{history_after, shown_after, shown_before};
ghost use Rattle.ps_sheet.specs.Staging.{IsWorkedOut, prepared_of};
ghost use Rattle.ps_sheet.specs.Inside.Kept.{Prepares};

use crate::sheet::{Report, Sheet};
use crate::staging::Staging;
use ps_delta::{Change, Delta};
use ps_eval::Meter;
use ps_grid::{Cell, Refusal};
use ps_shown::Shown;
use ps_value::Value;
use ps_workers::{Gate, Open};
use std::alloc::Global;
use std::marker::Model;
use std::sync::ledger::Ledger;
use std::thread::Threads;

/// A change of a sheet that is worked out, and not yet made. It owns the sheet until [`Prepared::commit`] or
/// [`Prepared::cancel`] returns the sheet.
///
/// This type is part of the public interface, for callers that want to see a change before it is made, and can do
/// without the sheet meanwhile. The program doesn't use this type: it stages changes in place, by a [`Staging`].
///
/// A contract sees a `Prepared` as its `PreparedView`.
pub struct Prepared {
    /// the sheet, with the change staged
    staging: Staging,
}

impl Model for Prepared {
    ghost use Rattle.ps_sheet.specs.Prepared.{PreparedView};

    ghost Value = { PreparedView };

    ghost use Rattle.ps_sheet.specs.PreparedCode.{prepared_code};

    ghost coded = { prepared_code };

    ghost use Rattle.ps_sheet.specs.Inside.Kept.{prepared_by, StagesPrepared};

    ghost view = { λ p. prepared_by p.staging p.staging.staged };

    ghost invariant = { λ p. StagesPrepared p.staging };
}

impl Sheet {
    /// Works out a change without making it, and allocates all that making it needs.
    ///
    /// If the change's delta adds nothing new to the state, the result isn't [`Prepared::fresh`], and making it changes
    /// nothing. The formulas are evaluated and counted here, whether the change is then made or given up.
    ///
    /// Nothing in the program calls this function, as the program stages changes in place. The function is part of the
    /// public interface, for callers that want to see a change before it is made.
    ///
    /// Fails as [`Sheet::edit`], [`Sheet::receive`] or [`Sheet::merge`] would, and then returns the sheet as it was.
    ///
    /// Cost: that of [`Sheet::edit`], [`Sheet::receive`] or [`Sheet::merge`], and of sorting the cells that show
    /// another value.
    pub fn prepare<R: Threads + Sync, L: Ledger>(
        self,
        rt: &R,
        alloc: Global,
        change: Change,
        meter: &mut Meter<L>,
    ) -> Result<Prepared, (Sheet, Refusal)>
        ensures prepared { IfOk result IsPrepared }
        ensures workers { IfOk result (λ p. p.workers ≡ self.workers) }
        ensures of { IfOk result (λ p. (p.replica ≡ self.replica) × (p.history ≡ self.history)
            × (shown_before p ≡ shown_at self.shown)) }
        ensures delta { IfOk result (λ p. IsDeltaOf self.replica (joined_history self.history) change p.delta) }
        ensures metered { IfOk result (λ p. meter.new ≡ meter.old + p.report.evaluated) }
        ensures kept { IfErr result (λ e. e.0 ≡ self) }
        ensures refused { IfErr result (λ e. (e.1 ≡ Refusal.Memory)
            ⊎ IsRefusedBy self.replica (joined_history self.history) change e.1) }
        ensures asked { IfErr result (λ e. e.1 ≡ Refusal.Memory
            → IsToAppend self.replica (joined_history self.history) change) }
        ensures unmetered { OnErr result (meter.new ≡ meter.old) }
    {
        self.prepare_by(rt, &Open, alloc, change, meter)
    }

    /// Works out a change as [`Sheet::prepare`] does, with a `gate`: a hook that each worker thread calls before each
    /// formula that it evaluates.
    ///
    /// This function is part of the public interface. Nothing in the program calls it.
    ///
    /// Cost: that of [`Sheet::prepare`], and of the calls of `gate`.
    pub fn prepare_by<R: Threads + Sync, G: Gate, L: Ledger>(
        self,
        rt: &R,
        gate: &G,
        alloc: Global,
        change: Change,
        meter: &mut Meter<L>,
    ) -> Result<Prepared, (Sheet, Refusal)>
        ensures prepared { IfOk result IsPrepared }
        ensures workers { IfOk result (λ p. p.workers ≡ self.workers) }
        ensures of { IfOk result (λ p. (p.replica ≡ self.replica) × (p.history ≡ self.history)
            × (shown_before p ≡ shown_at self.shown)) }
        ensures delta { IfOk result (λ p. IsDeltaOf self.replica (joined_history self.history) change p.delta) }
        ensures metered { IfOk result (λ p. meter.new ≡ meter.old + p.report.evaluated) }
        ensures kept { IfErr result (λ e. e.0 ≡ self) }
        ensures refused { IfErr result (λ e. (e.1 ≡ Refusal.Memory)
            ⊎ IsRefusedBy self.replica (joined_history self.history) change e.1) }
        ensures asked { IfErr result (λ e. e.1 ≡ Refusal.Memory
            → IsToAppend self.replica (joined_history self.history) change) }
        ensures unmetered { OnErr result (meter.new ≡ meter.old) }
    {
        let Sheet { mut staging } = self;
        match staging.stage(rt, gate, alloc, change, meter) {
            Err(refusal) => Err((Sheet { staging }, refusal)),
            Ok(_report) => Ok(Prepared::of(staging)),
        }
    }
}

impl Prepared {
    /// The staged change, after listing the cells that show another value and what they show.
    fn of(mut staging: Staging) -> Prepared
        requires staged { IsSomeAnd staging.staged (λ p. IsWorkedOut (prepared_of staging p)) }
        ensures of { IsSomeAnd staging.staged (λ p. Prepares (prepared_of staging p) result) }
        ensures prepared { IsPrepared result }
    {
        staging.list_changed();
        staging.list_values();
        Prepared { staging }
    }

    /// Returns the change's delta. For a merge this is only the news, the part of the delta that the state doesn't have
    /// yet. If a merge has no news, this is the whole delta.
    pub fn delta(&self) -> &Delta
        ensures delta { result.now ≡ self.now.delta }
        ensures prepared { IsPrepared self.now }
    {
        self.staging.delta()
    }

    /// Returns whether the delta adds something new to the state. Only then does [`Prepared::commit`] append it to the
    /// history.
    pub fn fresh(&self) -> bool
        ensures fresh { result ≡ self.now.fresh }
        ensures prepared { IsPrepared self.now }
    {
        self.staging.fresh()
    }

    /// Returns each cell whose shown value the change alters, with the new value; ascending.
    pub fn changes(&self) -> &[(Cell, Value)]
        ensures changes { result.now ≡ self.now.changes }
        ensures prepared { IsPrepared self.now }
    {
        self.staging.changes()
    }

    /// Returns what each cell shows after the change.
    pub fn shown_after(&self) -> &Shown
        ensures shown { shown_at result.now ≡ shown_after self.now }
        ensures prepared { IsPrepared self.now }
    {
        self.staging.all_shown()
    }

    /// Returns the report of the change.
    pub fn report(&self) -> Report
        ensures report { result ≡ self.now.report }
        ensures prepared { IsPrepared self.now }
    {
        self.staging.report()
    }

    /// Makes the change, and returns the sheet and the report. It takes no memory.
    ///
    /// Cost: the touched cells (those whose state the delta changes) with the references in their formulas, and the
    /// cells whose shown value was written.
    pub fn commit(self) -> (Sheet, Report)
        ensures of { IsOf result.0 self.replica (history_after self) (shown_after self) }
        ensures workers { result.0.workers ≡ self.workers }
        ensures sheet { IsSheet result.0 }
        ensures report { result.1 ≡ self.report }
        ensures prepared { IsPrepared self }
    {
        let Prepared { mut staging } = self;
        let report = staging.commit();
        (Sheet { staging }, report)
    }

    /// Gives up the change, and returns the sheet with the history and the shown values from before. It takes no
    /// memory.
    ///
    /// Cost: the touched cells (those whose state the delta changes) with the references in their formulas, the cells
    /// whose shown value was written, and those that showed `#CYCLE!`.
    pub fn cancel(self) -> Sheet
        ensures of { IsOf result self.replica self.history (shown_before self) }
        ensures workers { result.workers ≡ self.workers }
        ensures sheet { IsSheet result }
        ensures prepared { IsPrepared self }
    {
        let Prepared { mut staging } = self;
        staging.cancel();
        Sheet { staging }
    }
}
