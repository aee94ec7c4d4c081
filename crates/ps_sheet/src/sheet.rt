//! The sheet of one replica.

ghost use Rattle.std.specs.Prelude.{◌≡◌, ◌+◌, ◌<◌, ◌≤◌, ◌⊎◌, ◌↔◌, [], ◌∷◌, ◌++◌, length};
ghost use Rattle.std.specs.Prelude.{IfOk, IfErr, IsOk, IsOkAnd, IsErrOf, OnOk, OnErr};
ghost use Rattle.std.specs.Option.{option_copied, option_map};
ghost use Rattle.ps_grid.specs.declared.parties.TheConstants.{WORKERS};
ghost use Rattle.ps_delta.specs.State.{IsBelow, joined_state, state_at};
ghost use Rattle.ps_delta.specs.Deltas.{joined_history, state_of};
ghost use Rattle.ps_shown.specs.Shown.{shown_at};
ghost use Rattle.ps_cells.specs.Settled.{Cyclic};
ghost use Rattle.ps_sheet.specs.Reports.{IsReport, report_of};
ghost use Rattle.ps_sheet.specs.Arrivals.{Follow};
ghost use Rattle.ps_sheet.specs.Edits.{is_clock_full};
ghost use Rattle.ps_sheet.specs.Merges.{Merges};
ghost use Rattle.ps_sheet.specs.Own.{has_own};
ghost use Rattle.ps_sheet.specs.Prepared.{IsRefusedBy, IsToAppend};
ghost use Rattle.ps_sheet.specs.Inside.Kept.{Makes};

use crate::arrivals::Arrivals;
use crate::staging::Staging;
use ps_cells::Work;
use ps_content::Content;
use ps_delta::{Change, Delta, Edit, Grid};
use ps_eval::{Look, Meter};
use ps_grid::{Cell, REPLICAS, Refusal};
use ps_shown::Shown;
use ps_value::{Fault, Operand, Value};
use ps_workers::Open;
use std::alloc::Global;
use std::marker::Model;
use std::sync::ledger::Ledger;
use std::thread::Threads;

/// What an accepted change did: the length of the history after it, and how much was recalculated.
///
/// The region of a change is the cells that it touches, and all that refer to them, directly or through others.
#[derive(Clone, Copy, Debug, PartialEq, Eq)]
pub struct Report {
    /// The length of the history after the change.
    pub version: u64,
    /// The number of formulas that were evaluated.
    pub evaluated: u64,
    /// The number of formula cells in the region that show `#CYCLE!` after the change.
    pub cyclic: u64,
    /// The number of cells in the longest chain of references among those formula cells of the region that don't show
    /// `#CYCLE!` after the change.
    pub levels: u64,
}

impl Report {
    /// The report of this work, with the length of the history after it.
    #[inline(always)]
    pub(crate) fn of(version: u64, work: Work) -> Report
        ensures { result ≡ report_of version work }
    {
        Report {
            version,
            evaluated: work.evaluated,
            cyclic: work.cyclic,
            levels: work.levels,
        }
    }
}

/// The sheet of one replica: the deltas that it accepted, and what each cell shows.
///
/// A contract sees it as its `SheetView`.
#[derive(Drop)]
pub struct Sheet {
    /// the history and the cells, with nothing staged
    pub(crate) staging: Staging,
}

impl Model for Sheet {
    ghost use Rattle.ps_sheet.specs.Sheet.{SheetView};

    ghost Value = { SheetView };

    ghost use Rattle.ps_sheet.specs.SheetCode.{sheet_code};

    ghost coded = { sheet_code };

    ghost use Rattle.std.specs.Prelude.{◌≡◌, None};
    ghost use Rattle.ps_sheet.specs.Staging.{sheet_of};

    ghost view = { λ s. sheet_of s.staging };

    ghost invariant = { λ s. s.staging.staged ≡ None };
}

impl Look for Sheet {
    ghost use Rattle.ps_shown.specs.Shown.{shown_at};

    ghost value_at = { λ s. shown_at s.shown };

    fn at(&self, cell: Cell) -> Value {
        self.shown(cell)
    }

    fn operand(&self, cell: Cell) -> Operand {
        self.staging.all_shown().operand(cell)
    }
}

impl Sheet {
    ghost use Rattle.ps_sheet.specs.Edits.{delta_of_edit};
    ghost use Rattle.ps_sheet.specs.Sheet.{IsSheet, Takes};

    /// Creates the empty sheet of the replica with the number `replica`, 1 to 32.
    ///
    /// At most `workers` threads, 1 to `WORKERS`, evaluate formulas at the same time.
    ///
    /// # Errors
    ///
    /// - `Replica` if the replica's number is out of range.
    /// - `Memory` if allocation fails.
    ///
    /// Cost: linear in the cells of the grid.
    pub fn open(alloc: Global, replica: u8, workers: usize) -> Result<Sheet, Refusal>
        requires workers { (1 ≤ workers) × (workers ≤ WORKERS) }
        ensures opened { IfOk result (λ s. (s.history ≡ []) × (s.replica ≡ replica)) }
        ensures sheet { IfOk result IsSheet }
        ensures workers { IfOk result (λ s. s.workers ≡ workers) }
        ensures replica { (result ≡ Err Refusal.Replica) ↔ ((replica < 1) ⊎ (REPLICAS < replica)) }
        ensures other { IfErr result (λ e. (e ≡ Refusal.Replica) ⊎ (e ≡ Refusal.Memory)) }
    {
        if replica < 1 || replica > REPLICAS {
            return Err(Refusal::Replica);
        }
        Ok(Sheet {
            staging: Staging::open(alloc, replica, workers)?,
        })
    }

    /// Makes an edit at the sheet's replica: appends the edit's delta over the sheet's state to the history.
    ///
    /// # Errors
    ///
    /// Returns the first of these that holds, and changes nothing:
    ///
    /// - `Amount` or `OptionRange` if the amount or the option is out of range.
    /// - `NotTally` or `NotChoice` if the cell doesn't hold the counter or the set that the edit changes.
    /// - `TallyFull` if the replica's count in the counter would pass its limit.
    /// - `ChoiceFull` if the replica has used all sequence numbers that mark its choices in the set.
    /// - `NotChosen` if the option to take out isn't in the set.
    /// - `ClockFull` if the register of a cell that the edit assigns to has the last time that there is, `LAST_TIME`.
    /// - `Memory` if allocation fails.
    ///
    /// Cost: that of the delta and its join, and of the region: its cells, the references to them, and the evaluations
    /// that the report counts. The region is the touched cells, and all that refer to them, directly or through others.
    // Inlined: the caller that reads a line has the edit at hand, and needs only the report's version.
    #[inline(always)]
    pub fn edit<R: Threads + Sync, L: Ledger>(
        &mut self,
        rt: &R,
        alloc: Global,
        edit: Edit,
        meter: &mut Meter<L>,
    ) -> Result<Report, Refusal>
        ensures made { OnOk result (IsOkAnd (delta_of_edit self.old.replica (joined_history self.old.history) edit)
            (λ d. self.new.history ≡ self.old.history ++ d ∷ [])) }
        ensures taken { OnOk result (IsOkAnd (delta_of_edit self.old.replica (joined_history self.old.history) edit)
            (λ d. Takes d self.old.history self.new.history)) }
        ensures joined { OnOk result (IsOkAnd (delta_of_edit self.old.replica (joined_history self.old.history) edit)
            (λ d. joined_history self.new.history ≡ joined_state (joined_history self.old.history) (state_of d))) }
        ensures refused { IfErr result (λ e. (e ≡ Refusal.Memory)
            ⊎ (delta_of_edit self.old.replica (joined_history self.old.history) edit ≡ Err e)) }
        ensures asked { IsErrOf result Refusal.Memory
            → IsOk (delta_of_edit self.old.replica (joined_history self.old.history) edit) }
        ensures version { IfOk result (λ r. r.version ≡ length self.new.history) }
        ensures report { IfOk result (IsReport (joined_history self.old.history) (joined_history self.new.history)
            (shown_at self.old.shown) (shown_at self.new.shown)) }
        ensures metered { IfOk result (λ r. meter.new ≡ meter.old + r.evaluated) }
        ensures replica { self.new.replica ≡ self.old.replica }
        ensures workers { self.new.workers ≡ self.old.workers }
        ensures sheet { IsSheet self.new }
        ensures kept { OnErr result (self.new ≡ self.old) }
        ensures unmetered { OnErr result (meter.new ≡ meter.old) }
    {
        self.change(rt, alloc, Change::Edit(edit), meter)
    }

    /// Accepts a delta made elsewhere: appends it to the history, unless it adds nothing new to the state.
    ///
    /// Fails only when out of memory, and only if the delta was to be appended. It then changes nothing.
    ///
    /// Cost: that of joining the delta. If it is appended, also that of the region, as for [`Sheet::edit`].
    pub fn receive<R: Threads + Sync, L: Ledger>(
        &mut self,
        rt: &R,
        alloc: Global,
        delta: Delta,
        meter: &mut Meter<L>,
    ) -> Result<Report, Refusal>
        ensures taken { OnOk result (Takes delta self.old.history self.new.history) }
        ensures joined { OnOk result (joined_history self.new.history
            ≡ joined_state (joined_history self.old.history) (state_of delta)) }
        ensures below { IsBelow (state_of delta) (joined_history self.old.history)
            → IsOk result × (self.new ≡ self.old) × (meter.new ≡ meter.old) }
        ensures idle { IsBelow (state_of delta) (joined_history self.old.history)
            → IfOk result (λ r. (r.evaluated ≡ 0) × (r.cyclic ≡ 0) × (r.levels ≡ 0)) }
        ensures version { IfOk result (λ r. r.version ≡ length self.new.history) }
        ensures report { IfOk result (IsReport (joined_history self.old.history) (joined_history self.new.history)
            (shown_at self.old.shown) (shown_at self.new.shown)) }
        ensures metered { IfOk result (λ r. meter.new ≡ meter.old + r.evaluated) }
        ensures replica { self.new.replica ≡ self.old.replica }
        ensures workers { self.new.workers ≡ self.old.workers }
        ensures sheet { IsSheet self.new }
        ensures memory { IfErr result (λ e. e ≡ Refusal.Memory) }
        ensures kept { OnErr result (self.new ≡ self.old) }
        ensures unmetered { OnErr result (meter.new ≡ meter.old) }
    {
        self.change(rt, alloc, Change::Delta(delta), meter)
    }

    /// Merges a delta made elsewhere: appends only its news to the history.
    ///
    /// The news is the least delta that does to the state what the whole delta would. If the delta has no news, nothing
    /// changes, and the report has the old version.
    ///
    /// Fails only when out of memory, and only if there is news. It then changes nothing.
    ///
    /// Cost: for each replica in a counter of the delta, and each pair in a set (an option and the tag of its choice),
    /// a search in the sheet's state of that cell. If there is news, also that of its join, and of the region as for
    /// [`Sheet::edit`].
    pub fn merge<R: Threads + Sync, L: Ledger>(
        &mut self,
        rt: &R,
        alloc: Global,
        delta: Delta,
        meter: &mut Meter<L>,
    ) -> Result<Report, Refusal>
        ensures merged { OnOk result (Merges delta self.old.history self.new.history) }
        ensures joined { OnOk result (joined_history self.new.history
            ≡ joined_state (joined_history self.old.history) (state_of delta)) }
        ensures below { IsBelow (state_of delta) (joined_history self.old.history)
            → IsOk result × (self.new ≡ self.old) × (meter.new ≡ meter.old) }
        ensures idle { IsBelow (state_of delta) (joined_history self.old.history)
            → IfOk result (λ r. (r.evaluated ≡ 0) × (r.cyclic ≡ 0) × (r.levels ≡ 0)) }
        ensures known { IfOk result (λ r. (r.version ≡ length self.old.history)
            ↔ IsBelow (state_of delta) (joined_history self.old.history)) }
        ensures version { IfOk result (λ r. r.version ≡ length self.new.history) }
        ensures report { IfOk result (IsReport (joined_history self.old.history) (joined_history self.new.history)
            (shown_at self.old.shown) (shown_at self.new.shown)) }
        ensures metered { IfOk result (λ r. meter.new ≡ meter.old + r.evaluated) }
        ensures replica { self.new.replica ≡ self.old.replica }
        ensures workers { self.new.workers ≡ self.old.workers }
        ensures sheet { IsSheet self.new }
        ensures memory { IfErr result (λ e. e ≡ Refusal.Memory) }
        ensures kept { OnErr result (self.new ≡ self.old) }
        ensures unmetered { OnErr result (meter.new ≡ meter.old) }
    {
        self.change(rt, alloc, Change::Merge(delta), meter)
    }

    /// Stages a change, and commits it.
    #[inline(always)]
    fn change<R: Threads + Sync, L: Ledger>(
        &mut self,
        rt: &R,
        alloc: Global,
        change: Change,
        meter: &mut Meter<L>,
    ) -> Result<Report, Refusal>
        ensures made { IfOk result (λ r. Makes self.old self.new change r) }
        ensures version { IfOk result (λ r. r.version ≡ length self.new.history) }
        ensures report { IfOk result (IsReport (joined_history self.old.history) (joined_history self.new.history)
            (shown_at self.old.shown) (shown_at self.new.shown)) }
        ensures metered { IfOk result (λ r. meter.new ≡ meter.old + r.evaluated) }
        ensures replica { self.new.replica ≡ self.old.replica }
        ensures workers { self.new.workers ≡ self.old.workers }
        ensures sheet { IsSheet self.new }
        ensures refused { IfErr result (λ e. (e ≡ Refusal.Memory)
            ⊎ IsRefusedBy self.old.replica (joined_history self.old.history) change e) }
        ensures asked { IfErr result (λ e. e ≡ Refusal.Memory
            → IsToAppend self.old.replica (joined_history self.old.history) change) }
        ensures kept { OnErr result (self.new ≡ self.old) }
        ensures unmetered { OnErr result (meter.new ≡ meter.old) }
    {
        // for the fact that it is a sheet (`IsSheet`)
        let _ = self.staging.version();
        // (a `match`, as `?` would move the report once more)
        match self.staging.stage(rt, &Open, alloc, change, meter) {
            Ok(report) => {
                self.staging.make();
                Ok(report)
            }
            Err(refusal) => Err(refusal),
        }
    }

    /// Returns what a cell shows.
    pub fn shown(&self, cell: Cell) -> Value
        ensures value { result ≡ shown_at self.now.shown cell }
        ensures cycle { (result ≡ Value.Err Fault.Cycle) ↔ Cyclic (joined_history self.now.history) cell }
        ensures sheet { IsSheet self.now }
    {
        self.staging.all_shown().at(cell)
    }

    /// Returns what each cell shows.
    pub fn all_shown(&self) -> &Shown
        ensures shown { shown_at result.now ≡ shown_at self.now.shown }
        ensures sheet { IsSheet self.now }
    {
        self.staging.all_shown()
    }

    /// Returns whether the time of the cell's register is `LAST_TIME`: no edit can assign to the cell any more.
    pub fn is_clock_full(&self, cell: Cell) -> bool
        ensures full { result ≡ is_clock_full (joined_history self.now.history cell) }
        ensures sheet { IsSheet self.now }
    {
        self.staging.is_clock_full(cell)
    }

    /// Returns what the cell's register holds, or `None` if nothing was ever assigned to it.
    pub fn content(&self, cell: Cell) -> Option<&Content>
        ensures held { option_copied result
            ≡ option_map (λ a. a.content) (joined_history self.now.history cell).register }
        ensures sheet { IsSheet self.now }
    {
        self.staging.content(cell)
    }

    /// Returns whether the state has everything in `delta` that is marked with the sheet's own replica.
    ///
    /// If the result is false, another sheet uses the same replica number, or this sheet lost changes of its own. The
    /// call takes no memory.
    ///
    /// Cost: for each count in the delta, a pass over the counts that its cell has in the sheet. For each pair in the
    /// delta (an option and the tag of its choice), a binary search among the pairs that its cell has in the sheet.
    pub fn has_own(&self, delta: &Delta) -> bool
        ensures own { result ≡ has_own self.now.replica (joined_history self.now.history) delta.now }
        ensures sheet { IsSheet self.now }
    {
        self.staging.has_own(delta)
    }

    /// Returns the deltas that changed the state, the sheet's own and received ones, in the order of their acceptance.
    pub fn history(&self) -> &[Delta]
        ensures history { result.now ≡ self.now.history }
        ensures sheet { IsSheet self.now }
    {
        self.staging.history()
    }

    /// Returns the length of the history.
    pub fn version(&self) -> u64
        ensures version { result ≡ length self.now.history }
        ensures sheet { IsSheet self.now }
    {
        self.staging.version()
    }

    /// Returns the replica that the sheet was opened with.
    pub fn replica(&self) -> u8
        ensures replica { result ≡ self.now.replica }
        ensures sheet { IsSheet self.now }
    {
        self.staging.replica()
    }
}

impl Sheet {
    ghost use Rattle.ps_sheet.specs.Sheet.{IsSheet};

    /// Appends the deltas of `arrivals` to the history, in their order, and recalculates once, after the last.
    ///
    /// Fails only when out of memory, and then the sheet is as before.
    ///
    /// Cost: that of [`ps_delta::Grid::entries`], and the region of all deltas as one change.
    pub fn receive_all<R: Threads + Sync, L: Ledger>(
        &mut self,
        rt: &R,
        alloc: Global,
        arrivals: Arrivals,
        meter: &mut Meter<L>,
    ) -> Result<Report, Refusal>
        requires follow { Follow self.old.history arrivals }
        ensures appended { OnOk result (self.new.history ≡ self.old.history ++ arrivals.deltas) }
        ensures version { IfOk result (λ r. r.version ≡ length self.new.history) }
        ensures report { IfOk result (IsReport (joined_history self.old.history) (joined_history self.new.history)
            (shown_at self.old.shown) (shown_at self.new.shown)) }
        ensures metered { IfOk result (λ r. meter.new ≡ meter.old + r.evaluated) }
        ensures replica { self.new.replica ≡ self.old.replica }
        ensures workers { self.new.workers ≡ self.old.workers }
        ensures sheet { IsSheet self.new }
        ensures memory { IfErr result (λ e. e ≡ Refusal.Memory) }
        ensures kept { OnErr result (self.new ≡ self.old) }
        ensures unmetered { OnErr result (meter.new ≡ meter.old) }
    {
        // for the fact that it is a sheet (`IsSheet`)
        let _ = self.staging.version();
        self.staging.receive_all(rt, alloc, arrivals, meter)
    }

    /// Returns the state of each cell.
    pub(crate) fn grid(&self) -> &Grid
        ensures state { state_at result.now ≡ joined_history self.now.history }
        ensures sheet { IsSheet self.now }
    {
        self.staging.grid()
    }
}
