//! A sheet in which at most one change is staged: worked out, and not yet made.

ghost use Rattle.std.specs.Prelude.{◌≡◌, ◌+◌, ◌≤◌, ◌⊎◌, ◌↔◌, [], ◌∷◌, ◌++◌, true, false, is_some, length, map};
ghost use Rattle.std.specs.Prelude.{None, IfOk, IfErr, IfSome, IsSomeAnd, IsTrue, OnOk, OnErr};
ghost use Rattle.std.specs.Option.{is_none, option_copied, option_map};
ghost use Rattle.ps_grid.specs.declared.parties.TheConstants.{WORKERS};
ghost use Rattle.ps_shown.specs.Shown.{shown_at};
ghost use Rattle.ps_delta.specs.State.{IsBelow, state_at};
ghost use Rattle.ps_delta.specs.Deltas.{joined_history, state_of};
ghost use Rattle.ps_cells.specs.ChangedCells.{IsChanged};
ghost use Rattle.ps_sheet.specs.Arrivals.{Follow};
ghost use Rattle.ps_sheet.specs.Edits.{delta_of_edit, is_clock_full};
ghost use Rattle.ps_sheet.specs.Own.{has_own};
ghost use Rattle.ps_sheet.specs.Inside.Kept.{HasRoomAfter};
ghost use Rattle.ps_sheet.specs.Inside.Makes.{MakesDelta};
ghost use Rattle.ps_sheet.specs.Merges.{IsMergedAs, IsNewsDelta};
ghost use Rattle.ps_sheet.specs.Prepared.{IsDeltaOf, IsOf, IsRefusedBy, IsToAppend, history_after, shown_before};
ghost use Rattle.ps_sheet.specs.Reports.{IsReport};
ghost use Rattle.ps_sheet.specs.Sheet.{IsSheet};
ghost use Rattle.ps_sheet.specs.Staging.{IsIdle, IsListed, IsStaging, Stages};
ghost use Rattle.ps_sheet.specs.Staging.{prepared_of, sheet_of, staging_of};

use crate::arrivals::Arrivals;
use crate::edit_delta::delta_of;
use crate::sheet::{Report, Sheet};
use crate::{contents, own};
use ps_cells::{Cells, Work, content};
use ps_content::Content;
use ps_delta::{Change, Delta, Edit, Grid};
use ps_eval::Meter;
use ps_grid::{Cell, REPLICAS, Refusal};
use ps_shown::Shown;
use ps_value::Value;
use ps_workers::{Gate, Open};
use std::alloc::Global;
use std::marker::Model;
use std::sync::ledger::Ledger;
use std::thread::Threads;

/// A sheet in which at most one change at a time is staged: worked out, and not yet made. After the change is committed
/// or cancelled, the next one may be staged.
///
/// A contract sees it as its `StagingView`.
#[derive(Drop)]
pub struct Staging {
    replica: u8,
    /// the accepted deltas that changed the state, without the staged delta; there is room for that one
    history: Vec<Delta>,
    /// the state and the shown values, with the staged change
    cells: Cells,
    /// the staged change; if its delta adds nothing new to the state, nothing is staged in `cells`
    staged: Option<Staged>,
}

/// The delta of a staged change, and its report.
#[derive(Drop)]
pub(crate) struct Staged {
    delta: Delta,
    report: Report,
}

impl Model for Staging {
    ghost use Rattle.ps_sheet.specs.Staging.{StagingView};

    ghost Value = { StagingView };

    ghost use Rattle.ps_sheet.specs.StagingCode.{staging_code};

    ghost coded = { staging_code };

    ghost use Rattle.ps_sheet.specs.Inside.Kept.{view_of, IsKept};

    ghost view = { view_of };

    ghost invariant = { IsKept };
}

impl Staging {
    /// The empty sheet of a replica.
    ///
    /// Fails only when out of memory.
    pub(crate) fn open(alloc: Global, replica: u8, workers: usize) -> Result<Staging, Refusal>
        requires workers { (1 ≤ workers) × (workers ≤ WORKERS) }
        requires replica { (1 ≤ replica) × (replica ≤ REPLICAS) }
        ensures opened { IfOk result (λ s. (s.history ≡ []) × (s.replica ≡ replica) × (s.workers ≡ workers)
            × (s.staged ≡ None)) }
        ensures sheet { IfOk result (λ s. IsSheet (sheet_of s)) }
        ensures memory { IfErr result (λ e. e ≡ Refusal.Memory) }
    {
        let cells = Cells::new(alloc, workers)?;
        Ok(Staging {
            replica,
            history: Vec::new(alloc),
            cells,
            staged: None,
        })
    }

    /// Creates a `Staging` that owns `sheet`, with nothing staged.
    pub fn new(sheet: Sheet) -> Staging
        ensures staging { result ≡ staging_of sheet }
        ensures sheet { IsSheet sheet }
    {
        let Sheet { staging } = sheet;
        // for the fact that it is a sheet (`IsSheet`)
        let _ = staging.version();
        staging
    }

    /// Returns the sheet. Call it only while no change is staged.
    pub fn into_sheet(self) -> Sheet
        requires none { self.staged ≡ None }
        ensures same { result ≡ sheet_of self }
        ensures sheet { IsSheet result }
    {
        // for the fact that it is a sheet (`IsSheet`)
        let _ = self.version();
        Sheet { staging: self }
    }

    /// Works out a change without making it, and allocates all that making it needs.
    ///
    /// If the change's delta adds nothing new to the state, the staged change isn't [`Staging::fresh`], and committing
    /// it changes nothing. `gate` is a hook that each worker thread calls before each formula that it evaluates. The
    /// formulas are evaluated and counted here, whether the change is then committed or cancelled.
    ///
    /// Fails as [`Sheet::edit`], [`Sheet::receive`] or [`Sheet::merge`] would, and then nothing is staged.
    ///
    /// Cost: that of [`Sheet::edit`], [`Sheet::receive`] or [`Sheet::merge`], and of the calls of `gate`.
    #[inline(always)]
    pub fn stage<R: Threads + Sync, G: Gate, L: Ledger>(
        &mut self,
        rt: &R,
        gate: &G,
        alloc: Global,
        change: Change,
        meter: &mut Meter<L>,
    ) -> Result<Report, Refusal>
        requires none { self.old.staged ≡ None }
        ensures staged { IfOk result (λ r. Stages self.old self.new r) }
        ensures delta { OnOk result (IsSomeAnd self.new.staged
            (λ p. IsDeltaOf self.old.replica (joined_history self.old.history) change p.delta)) }
        ensures fresh { OnOk result (IsSomeAnd self.new.staged
            (λ p. IsToAppend self.old.replica (joined_history self.old.history) change → p.fresh ≡ true)) }
        ensures idle { IfOk result (λ r. IsSomeAnd self.new.staged
            (λ p. p.fresh ≡ false → IsIdle (sheet_of self.old) (sheet_of self.new) r)) }
        ensures metered { IfOk result (λ r. meter.new ≡ meter.old + r.evaluated) }
        ensures kept { OnErr result (self.new ≡ self.old) }
        ensures refused { IfErr result (λ e. (e ≡ Refusal.Memory)
            ⊎ IsRefusedBy self.old.replica (joined_history self.old.history) change e) }
        ensures asked { IfErr result (λ e. e ≡ Refusal.Memory
            → IsToAppend self.old.replica (joined_history self.old.history) change) }
        ensures unmetered { OnErr result (meter.new ≡ meter.old) }
    {
        match change {
            // (a `match`, as `?` would move the delta once more)
            Change::Edit(edit) => match self.edit_delta(alloc, edit) {
                Ok(delta) => self.stage_fresh(rt, gate, alloc, delta, meter),
                Err(refusal) => Err(refusal),
            },
            Change::Delta(delta) => self.stage_delta(rt, gate, alloc, delta, meter),
            Change::Merge(delta) => self.stage_merge(rt, gate, alloc, delta, meter),
        }
    }

    /// Stages a delta, whether it adds something new to the state or not.
    fn stage_delta<R: Threads + Sync, G: Gate, L: Ledger>(
        &mut self,
        rt: &R,
        gate: &G,
        alloc: Global,
        delta: Delta,
        meter: &mut Meter<L>,
    ) -> Result<Report, Refusal>
        requires none { self.old.staged ≡ None }
        ensures staged { IfOk result (λ r. Stages self.old self.new r) }
        ensures delta { OnOk result (IsSomeAnd self.new.staged (λ p. p.delta ≡ delta)) }
        ensures fresh { OnOk result (IsSomeAnd self.new.staged
            (λ p. ¬ IsBelow (state_of delta) (joined_history self.old.history) → p.fresh ≡ true)) }
        ensures idle { IfOk result (λ r. IsSomeAnd self.new.staged
            (λ p. p.fresh ≡ false → IsIdle (sheet_of self.old) (sheet_of self.new) r)) }
        ensures metered { IfOk result (λ r. meter.new ≡ meter.old + r.evaluated) }
        ensures kept { OnErr result (self.new ≡ self.old) }
        ensures memory { IfErr result (λ e. e ≡ Refusal.Memory) }
        ensures asked { IfErr result (λ e. ¬ IsBelow (state_of delta) (joined_history self.old.history)) }
        ensures unmetered { OnErr result (meter.new ≡ meter.old) }
    {
        if self.covers(&delta) {
            return Ok(self.stage_idle(delta));
        }
        self.stage_fresh(rt, gate, alloc, delta, meter)
    }

    /// Stages what is new in a delta. If nothing is new, it stages the whole delta, which changes nothing.
    fn stage_merge<R: Threads + Sync, G: Gate, L: Ledger>(
        &mut self,
        rt: &R,
        gate: &G,
        alloc: Global,
        delta: Delta,
        meter: &mut Meter<L>,
    ) -> Result<Report, Refusal>
        requires none { self.old.staged ≡ None }
        ensures staged { IfOk result (λ r. Stages self.old self.new r) }
        ensures delta { OnOk result (IsSomeAnd self.new.staged
            (λ p. IsMergedAs (joined_history self.old.history) delta p.delta)) }
        ensures fresh { OnOk result (IsSomeAnd self.new.staged
            (λ p. ¬ IsBelow (state_of delta) (joined_history self.old.history) → p.fresh ≡ true)) }
        ensures idle { IfOk result (λ r. IsSomeAnd self.new.staged
            (λ p. p.fresh ≡ false → IsIdle (sheet_of self.old) (sheet_of self.new) r)) }
        ensures metered { IfOk result (λ r. meter.new ≡ meter.old + r.evaluated) }
        ensures kept { OnErr result (self.new ≡ self.old) }
        ensures memory { IfErr result (λ e. e ≡ Refusal.Memory) }
        ensures asked { OnErr result (¬ IsBelow (state_of delta) (joined_history self.old.history)) }
        ensures unmetered { OnErr result (meter.new ≡ meter.old) }
    {
        match self.news(alloc, &delta) {
            Ok(Some(news)) => self.stage_fresh(rt, gate, alloc, news, meter),
            Ok(None) => Ok(self.stage_idle(delta)),
            Err(refusal) => Err(refusal),
        }
    }

    /// Stages a delta that adds something new to the state.
    #[inline(always)]
    fn stage_fresh<R: Threads + Sync, G: Gate, L: Ledger>(
        &mut self,
        rt: &R,
        gate: &G,
        alloc: Global,
        delta: Delta,
        meter: &mut Meter<L>,
    ) -> Result<Report, Refusal>
        requires none { self.old.staged ≡ None }
        requires fresh { ¬ IsBelow (state_of delta) (joined_history self.old.history) }
        ensures staged { IfOk result (λ r. Stages self.old self.new r) }
        ensures delta { OnOk result (IsSomeAnd self.new.staged (λ p. p.delta ≡ delta)) }
        ensures fresh { OnOk result (IsSomeAnd self.new.staged (λ p. p.fresh ≡ true)) }
        ensures metered { IfOk result (λ r. meter.new ≡ meter.old + r.evaluated) }
        ensures kept { OnErr result (self.new ≡ self.old) }
        ensures memory { IfErr result (λ e. e ≡ Refusal.Memory) }
        ensures unmetered { OnErr result (meter.new ≡ meter.old) }
    {
        self.history.reserve(1)?;
        let work = self.cells.stage(rt, gate, alloc, &delta, meter)?;
        let report = Report::of(self.history.len() as u64 + 1, work);
        self.staged = Some(Staged { delta, report });
        Ok(report)
    }

    /// Stages a delta that adds nothing new to the state, and so changes nothing.
    fn stage_idle(&mut self, delta: Delta) -> Report
        requires none { self.old.staged ≡ None }
        requires below { IsBelow (state_of delta) (joined_history self.old.history) }
        ensures staged { Stages self.old self.new result }
        ensures delta { IsSomeAnd self.new.staged (λ p. p.delta ≡ delta) }
        ensures idle { IsIdle (sheet_of self.old) (sheet_of self.new) result }
    {
        let report = Report::of(self.history.len() as u64, Work::none());
        self.staged = Some(Staged { delta, report });
        report
    }

    /// The delta of an edit over the sheet.
    #[inline(always)]
    fn edit_delta(&self, alloc: Global, edit: Edit) -> Result<Delta, Refusal>
        requires none { self.now.staged ≡ None }
        ensures made { MakesDelta (delta_of_edit self.now.replica (joined_history self.now.history) edit) result }
        ensures fresh { IfOk result (λ d. ¬ IsBelow (state_of d) (joined_history self.now.history)) }
        ensures staging { IsStaging self.now }
    {
        delta_of(alloc, self.cells.grid(), self.replica, edit)
    }

    /// Whether a delta adds nothing new to the state.
    fn covers(&self, delta: &Delta) -> bool
        requires none { self.now.staged ≡ None }
        ensures { IsTrue result ↔ IsBelow (state_of delta.now) (joined_history self.now.history) }
    {
        self.cells.grid().covers(delta)
    }

    /// The part of a delta that is new to the state, or `None` if nothing is.
    fn news(&self, alloc: Global, delta: &Delta) -> Result<Option<Delta>, Refusal>
        requires none { self.now.staged ≡ None }
        ensures news { IfOk result (λ o. IfSome o (IsNewsDelta (joined_history self.now.history) delta.now)) }
        ensures known { IfOk result (λ o. IsTrue (is_none o)
            ↔ IsBelow (state_of delta.now) (joined_history self.now.history)) }
        ensures memory { IfErr result (λ e. e ≡ Refusal.Memory) }
        ensures asked { OnErr result (¬ IsBelow (state_of delta.now) (joined_history self.now.history)) }
    {
        self.cells.grid().news(alloc, delta)
    }

    /// Whether the time of the cell's register is `LAST_TIME`, so that nothing more can be assigned.
    pub(crate) fn is_clock_full(&self, cell: Cell) -> bool
        requires none { self.now.staged ≡ None }
        ensures full { result ≡ is_clock_full (joined_history self.now.history cell) }
        ensures staging { IsStaging self.now }
    {
        contents::is_clock_full(self.cells.grid().at(cell))
    }

    /// Returns what the cell's register holds, or `None` if nothing was ever assigned to it. Call it only while no
    /// change is staged.
    pub fn content(&self, cell: Cell) -> Option<&Content>
        requires none { self.now.staged ≡ None }
        ensures held { option_copied result
            ≡ option_map (λ a. a.content) (joined_history self.now.history cell).register }
        ensures staging { IsStaging self.now }
    {
        content(self.cells.grid().at(cell))
    }

    /// Returns whether the state has everything in `delta` that is marked with the sheet's own replica. Call it only
    /// while no change is staged.
    ///
    /// If the result is false, another sheet uses the same replica number, or this sheet lost changes of its own. The
    /// call takes no memory.
    ///
    /// Cost: for each count in the delta, a pass over the counts that its cell has in the sheet. For each pair in the
    /// delta (an option and the tag of its choice), a binary search among the pairs that its cell has in the sheet.
    pub fn has_own(&self, delta: &Delta) -> bool
        requires none { self.now.staged ≡ None }
        ensures own { result ≡ has_own self.now.replica (joined_history self.now.history) delta.now }
        ensures staging { IsStaging self.now }
    {
        own::has_own(self.cells.grid(), delta, self.replica)
    }

    /// Makes the staged change, and returns its report. It takes no memory.
    ///
    /// Cost: the touched cells (those whose state the delta changes) with the references in their formulas, and the
    /// cells whose shown value was written.
    pub fn commit(&mut self) -> Report
        requires staged { is_some self.old.staged ≡ true }
        ensures of { IsSomeAnd self.old.staged (λ p. IsOf (sheet_of self.new) self.old.replica
            (history_after (prepared_of self.old p)) (shown_at self.old.shown)) }
        ensures report { IsSomeAnd self.old.staged (λ p. p.report ≡ result) }
        ensures idle { IsSomeAnd self.old.staged (λ p. p.fresh ≡ false → sheet_of self.new ≡ sheet_of self.old) }
        ensures none { self.new.staged ≡ None }
        ensures workers { self.new.workers ≡ self.old.workers }
        ensures sheet { IsSheet (sheet_of self.new) }
    {
        let report = self.report();
        self.make();
        report
    }

    /// Makes the staged change, as [`Staging::commit`] does, for callers that don't need the report or have read it.
    /// The call takes no memory.
    ///
    /// Cost: that of [`Staging::commit`].
    #[inline(always)]
    pub fn make(&mut self)
        requires staged { is_some self.old.staged ≡ true }
        ensures of { IsSomeAnd self.old.staged (λ p. IsOf (sheet_of self.new) self.old.replica
            (history_after (prepared_of self.old p)) (shown_at self.old.shown)) }
        ensures idle { IsSomeAnd self.old.staged (λ p. p.fresh ≡ false → sheet_of self.new ≡ sheet_of self.old) }
        ensures none { self.new.staged ≡ None }
        ensures workers { self.new.workers ≡ self.old.workers }
        ensures sheet { IsSheet (sheet_of self.new) }
    {
        let Some(staged) = self.staged.take() else {
            unreachable!()
        };
        let Staged { delta, report: _ } = staged;
        if self.cells.is_staged() {
            self.cells.commit();
            self.history.push_reserved(delta);
        }
    }

    /// Gives up the staged change: the sheet has the history and the shown values from before. It takes no memory.
    ///
    /// Cost: the touched cells (those whose state the delta changes) with the references in their formulas, the cells
    /// whose shown value was written, and those that showed `#CYCLE!`.
    pub fn cancel(&mut self)
        requires staged { is_some self.old.staged ≡ true }
        ensures of { IsSomeAnd self.old.staged (λ p. IsOf (sheet_of self.new) self.old.replica self.old.history
            (shown_before (prepared_of self.old p))) }
        ensures none { self.new.staged ≡ None }
        ensures workers { self.new.workers ≡ self.old.workers }
        ensures sheet { IsSheet (sheet_of self.new) }
    {
        self.staged = None;
        if self.cells.is_staged() {
            self.cells.cancel();
        }
    }

    /// Lists the cells whose shown value the staged change alters. [`Staging::changed`] then returns this list.
    ///
    /// The call takes no memory. Cost: that of sorting the list, and the cells whose shown value was written.
    pub fn list_changed(&mut self)
        requires staged { is_some self.old.staged ≡ true }
        ensures changed { IsSomeAnd self.new.staged (λ p.
            IsChanged (shown_before (prepared_of self.new p)) (shown_at self.new.shown) p.changed) }
        ensures same { IsListed self.old self.new }
    {
        self.cells.list_changed();
    }

    /// Returns the cell whose shown value the staged change alters, if the change wrote no other cell's shown value.
    ///
    /// `None` means that no cell shows another value, or that the change wrote several shown values. Then call
    /// [`Staging::list_changed`].
    #[inline(always)]
    pub fn one_changed(&self) -> Option<Cell>
        requires staged { is_some self.now.staged ≡ true }
        ensures changed { IsSomeAnd self.now.staged (λ p. IfSome result (λ c.
            IsChanged (shown_before (prepared_of self.now p)) (shown_at self.now.shown) (c ∷ []))) }
    {
        self.cells.one_changed()
    }

    /// Lists what the cells show that [`Staging::list_changed`] listed; [`Staging::changes`] then returns them.
    pub(crate) fn list_values(&mut self)
        requires staged { is_some self.old.staged ≡ true }
        ensures values { IsSomeAnd self.new.staged
            (λ p. p.changes ≡ map (λ c. (c, shown_at self.new.shown c)) p.changed) }
        ensures changed { IsSomeAnd self.old.staged (λ p. IsSomeAnd self.new.staged (λ q. q.changed ≡ p.changed)) }
        ensures same { IsListed self.old self.new }
    {
        self.cells.list_values();
    }

    /// Returns the delta of the staged change. For a merge this is only the news, the part of the delta that the state
    /// doesn't have yet. If a merge has no news, this is the whole delta.
    pub fn delta(&self) -> &Delta
        requires staged { is_some self.now.staged ≡ true }
        ensures delta { IsSomeAnd self.now.staged (λ p. result.now ≡ p.delta) }
        ensures staging { IsStaging self.now }
    {
        let Some(staged) = &self.staged else {
            unreachable!()
        };
        &staged.delta
    }

    /// Returns the report of the staged change.
    pub fn report(&self) -> Report
        requires staged { is_some self.now.staged ≡ true }
        ensures report { IsSomeAnd self.now.staged (λ p. result ≡ p.report) }
        ensures staging { IsStaging self.now }
    {
        let Some(staged) = &self.staged else {
            unreachable!()
        };
        staged.report
    }

    /// Returns whether the delta of the staged change adds something new to the state. Only then does committing append
    /// it to the history.
    pub fn fresh(&self) -> bool
        requires staged { is_some self.now.staged ≡ true }
        ensures fresh { IsSomeAnd self.now.staged (λ p. result ≡ p.fresh) }
        ensures staging { IsStaging self.now }
    {
        self.cells.is_staged()
    }

    /// Returns the cells that [`Staging::list_changed`] listed for this change, in the order of the grid, row by row.
    pub fn changed(&self) -> &[Cell]
        requires staged { is_some self.now.staged ≡ true }
        ensures changed { IsSomeAnd self.now.staged (λ p. result.now ≡ p.changed) }
        ensures staging { IsStaging self.now }
    {
        self.cells.changed()
    }

    /// Returns the cells that [`Staging::list_values`] listed, each with what it shows.
    pub(crate) fn changes(&self) -> &[(Cell, Value)]
        requires staged { is_some self.now.staged ≡ true }
        ensures changes { IsSomeAnd self.now.staged (λ p. result.now ≡ p.changes) }
    {
        self.cells.changes()
    }

    /// Returns what each cell shows; if a change is staged, what it shows after that change.
    pub fn all_shown(&self) -> &Shown
        ensures shown { shown_at result.now ≡ shown_at self.now.shown }
        ensures staging { IsStaging self.now }
    {
        self.cells.shown()
    }

    /// Returns the deltas that changed the state, the sheet's own and received ones, in the order of their acceptance.
    /// The staged delta isn't one of them.
    pub fn history(&self) -> &[Delta]
        ensures history { result.now ≡ self.now.history }
        ensures staging { IsStaging self.now }
    {
        &self.history
    }

    /// Returns the length of the history, without the staged delta.
    pub fn version(&self) -> u64
        ensures version { result ≡ length self.now.history }
        ensures staging { IsStaging self.now }
    {
        self.history.len() as u64
    }

    /// Returns the replica that the sheet was opened with.
    pub fn replica(&self) -> u8
        ensures replica { result ≡ self.now.replica }
        ensures staging { IsStaging self.now }
    {
        self.replica
    }
}

impl Staging {
    /// Appends the deltas of `arrivals` to the history, and recalculates once, after the last.
    pub(crate) fn receive_all<R: Threads + Sync, L: Ledger>(
        &mut self,
        rt: &R,
        alloc: Global,
        arrivals: Arrivals,
        meter: &mut Meter<L>,
    ) -> Result<Report, Refusal>
        requires none { self.old.staged ≡ None }
        requires follow { Follow self.old.history arrivals }
        ensures none { self.new.staged ≡ None }
        ensures appended { OnOk result (self.new.history ≡ self.old.history ++ arrivals.deltas) }
        ensures version { IfOk result (λ r. r.version ≡ length self.new.history) }
        ensures report { IfOk result (IsReport (joined_history self.old.history) (joined_history self.new.history)
            (shown_at self.old.shown) (shown_at self.new.shown)) }
        ensures metered { IfOk result (λ r. meter.new ≡ meter.old + r.evaluated) }
        ensures replica { self.new.replica ≡ self.old.replica }
        ensures workers { self.new.workers ≡ self.old.workers }
        ensures sheet { IsSheet (sheet_of self.new) }
        ensures memory { IfErr result (λ e. e ≡ Refusal.Memory) }
        ensures kept { OnErr result (self.new ≡ self.old) }
        ensures unmetered { OnErr result (meter.new ≡ meter.old) }
    {
        let Arrivals { deltas, grid } = arrivals;
        if deltas.is_empty() {
            return Ok(Report::of(self.history.len() as u64, Work::none()));
        }
        let entries = grid.entries(alloc)?;
        drop(grid);
        let Some(delta) = Delta::new(alloc, entries)? else {
            unreachable!()
        };
        make_room(&mut self.history, &deltas)?;
        let work = self.cells.stage(rt, &Open, alloc, &delta, meter)?;
        self.cells.commit();
        put_after(&mut self.history, deltas);
        Ok(Report::of(self.history.len() as u64, work))
    }

    /// Returns the state of each cell; no change may be staged.
    pub(crate) fn grid(&self) -> &Grid
        requires none { self.now.staged ≡ None }
        ensures state { state_at result.now ≡ joined_history self.now.history }
        ensures staging { IsStaging self.now }
    {
        self.cells.grid()
    }
}

/// Makes room in the history for later deltas. An empty history needs none: `put_after` replaces it by their list.
fn make_room(history: &mut Vec<Delta>, deltas: &[Delta]) -> Result<(), Refusal>
    ensures same { history.new.items ≡ history.old.items }
    ensures room { OnOk result (HasRoomAfter history.new (length deltas.now)) }
    ensures memory { IfErr result (λ e. e ≡ Refusal.Memory) }
{
    if history.is_empty() {
        return Ok(());
    }
    history.reserve(deltas.len())?;
    Ok(())
}

/// Appends later deltas to the history. If the history is empty, their list replaces it, and no delta is moved.
fn put_after(history: &mut Vec<Delta>, mut deltas: Vec<Delta>)
    requires room { HasRoomAfter history.old (length deltas.items) }
    ensures { history.new.items ≡ history.old.items ++ deltas.items }
{
    if history.is_empty() {
        *history = deltas;
        return;
    }
    // never fails, since there is room for these
    let _ = history.append(&mut deltas);
}
