//! The desk: a lock round the sheet and the published copies that sessions share.

ghost use Rattle.std.specs.Prelude.{◌≡◌, ◌⊎◌, ◌+◌, ◌<◌, ◌≤◌, ◌^◌, true, if◌then◌else◌, drop, length, take};
ghost use Rattle.std.specs.Prelude.{List};
ghost use Rattle.std.specs.Prelude.{Ok, Err, IsOk, IfOk, IfErr, OnOk, OnErr};
ghost use mathlib.Core.List.{IsPrefix};
ghost use Rattle.ps_grid.specs.declared.refusal.Refusal.TheVariants.{Memory, Version};
ghost use Rattle.ps_delta.specs.State.{IsBelow};
ghost use Rattle.ps_delta.specs.Deltas.{joined_history, state_of};
ghost use Rattle.ps_sheet.specs.Edits.{delta_of_edit};
ghost use Rattle.ps_sheet.specs.Own.{has_own};
ghost use Rattle.ps_sheet.specs.Merges.{IsMergedAs};
ghost use Rattle.ps_csv.specs.Exports.{entry_text, exported_entries, held_in};
ghost use Rattle.ps_face.specs.declared.patch.Note.{Note};
ghost use Rattle.ps_face.specs.Legal.{IsLegal, history_of};
ghost use Rattle.ps_desk.specs.Receipts.{Encloses, IsAppended, IsReceipt, Made, Took, Unmade};

use crate::name::DeskName;
use crate::pass::Pass;
use crate::presence::{Alarm, Presence};
use crate::receipt::{Enclosure, Receipt};
use crate::shown_position::ShownPosition;
use crate::state::DeskState;
use ps_csv::entries_text;
use ps_delta::{Change, Delta, Edit};
use ps_eval::Meter;
use ps_grid::{Cell, Rect, Refusal};
use ps_sheet::edits_are_fresh;
use std::alloc::Global;
use std::marker::Model;
use std::sync::ledger::Ledger;
use std::sync::{Condvar, CondvarTimeouts, Mutex, Wait};
use std::thread::Threads;
use std::time::{Clock, Duration, Instant};

/// How long a session waits for more changes at most, in seconds.
const LONGEST: u64 = 25;

/// How long a waiting session sleeps at a time if no lookout watches its peer, in milliseconds.
const SLICE: u64 = 100;

/// How many times a waiting session sleeps at most.
const MOST_SLEEPS: u32 = 250;

/// A sheet that several sessions share, each with its [`Pass`]. Contracts see a desk as its number of session slots.
#[derive(Drop)]
pub struct Desk<L: DeskName, W: Wait + Drop> {
    state: Mutex<DeskState<L, W>>,
    /// notified once more changes are shown, and once an alarm is raised
    grown: Condvar,
    seats: usize,
    /// the sheet's replica number, which never changes
    replica: u8,
}

impl<L: DeskName, W: Wait + Drop> Model for Desk<L, W> {
    ghost use Rattle.std.specs.Prelude.{◌≡◌, ◌≤◌, ℕ};

    ghost Value = { ℕ };

    ghost view = { λ d. d.seats };

    ghost invariant = { λ d. (d.seats ≡ L.parts) × (1 ≤ d.seats) × (d.replica ≡ L.replica) };
}

impl<L: DeskName, W: Wait + Drop> Desk<L, W> {
    /// Creates a desk with this state under its lock.
    pub(crate) fn new(state: DeskState<L, W>, seats: usize, replica: u8) -> Desk<L, W>
        requires parts { seats ≡ L.parts }
        requires some { 1 ≤ seats }
        requires replica { replica ≡ L.replica }
        ensures { result ≡ seats }
    {
        Desk {
            state: Mutex::new(state),
            grown: Condvar::new(),
            seats,
            replica,
        }
    }

    /// Ends the desk, and returns its state.
    pub(crate) fn into_state(self) -> DeskState<L, W>
        ensures parts { self ≡ L.parts }
        ensures some { 1 ≤ self }
    {
        let Desk { state, .. } = self;
        state.into_inner()
    }

    /// Returns the number of session slots.
    pub fn seats(&self) -> usize
        ensures seats { result ≡ self.now }
        ensures parts { result ≡ L.parts }
        ensures some { 1 ≤ result }
    {
        self.seats
    }

    /// Returns the number of the sheet's replica. The call takes no lock.
    pub fn replica(&self) -> u8
        ensures replica { result ≡ L.replica }
    {
        self.replica
    }

    /// Makes an edit: makes the edit's delta over the sheet's state, appends the delta to the history, and shows the
    /// change to all readers.
    ///
    /// Returns a receipt, which holds the delta, or [`crate::Unenclosed`] if the caller doesn't want the delta back.
    ///
    /// The change is shown at once, with all changes that wait to be shown. There is one exception: at a
    /// [`crate::Seat`] with a keeper, a change that directly follows another one may wait. It waits until the session
    /// reads or sends its replies, or another session makes a change, at the latest.
    ///
    /// Refused for the reasons of [`ps_sheet::Sheet::edit`], over the whole history. An edit that nothing else refuses
    /// may still fail when out of memory. The pass has then seen the whole published list, even if the edit fails. The
    /// call may wait for the desk's lock, and for readers that still read an older copy.
    ///
    /// Cost: that of [`ps_sheet::Staging::stage`] and of showing the waiting changes, and linear in the cells that show
    /// another value after the edit.
    #[inline(always)]
    pub fn edit<R: Threads + Sync, V: Wait, M: Ledger, E: Enclosure + Drop>(
        &self,
        rt: &R,
        wait: &V,
        alloc: Global,
        pass: &mut Pass<L>,
        edit: Edit,
        meter: &mut Meter<M>,
    ) -> Result<Receipt<E>, Refusal>
        ensures took { Took L.opening pass.old pass.new }
        ensures fresh { IfOk result (λ r. r.fresh ≡ true) }
        ensures receipt { IfOk result (λ r. Encloses E.tells (IsAppended (λ s d. delta_of_edit L.replica s edit ≡ Ok d)
            L.opening pass.old.list pass.new.list pass.old.seat) r.number r.enclosed r.fresh) }
        ensures refused { IfErr result (λ e. (e ≡ Memory)
            ⊎ (delta_of_edit L.replica (joined_history (history_of L.opening pass.new.list)) edit ≡ Err e)) }
        ensures asked { IfErr result (λ e. e ≡ Memory
            → IsOk (delta_of_edit L.replica (joined_history (history_of L.opening pass.new.list)) edit)) }
        ensures counted { OnOk result (pass.new.appended ≡ pass.old.appended + 1) }
        ensures uncounted { OnErr result (pass.new.appended ≡ pass.old.appended) }
    {
        let receipt = self.change(rt, wait, alloc, pass, Change::Edit(edit), meter)?;
        // for the fact that an edit's delta is never below the state
        edits_are_fresh();
        Ok(receipt)
    }

    /// Accepts a delta made elsewhere. If the delta adds something new, the call appends the whole delta to the history
    /// and shows the change to all readers, at once or later as [`Desk::edit`] does.
    ///
    /// Fails only when out of memory, and only if the delta adds something new. The pass has then seen the whole
    /// published list, even if the call fails. The call may wait as [`Desk::edit`] may.
    ///
    /// Cost: that of [`ps_sheet::Staging::stage`] and of showing the waiting changes, and linear in the cells that show
    /// another value after the change.
    #[inline(always)]
    pub fn receive<R: Threads + Sync, V: Wait, M: Ledger, E: Enclosure + Drop>(
        &self,
        rt: &R,
        wait: &V,
        alloc: Global,
        pass: &mut Pass<L>,
        delta: Delta,
        meter: &mut Meter<M>,
    ) -> Result<Receipt<E>, Refusal>
        ensures took { Took L.opening pass.old pass.new }
        ensures receipt { IfOk result (λ r. Encloses E.tells (IsReceipt (λ s d. d ≡ delta) L.opening pass.old.list
            pass.new.list pass.old.seat) r.number r.enclosed r.fresh) }
        ensures memory { IfErr result (λ e. e ≡ Memory) }
        ensures asked { OnErr result (¬ IsBelow (state_of delta)
            (joined_history (history_of L.opening pass.new.list))) }
        ensures counted { IfOk result (λ r. pass.new.appended
            ≡ pass.old.appended + (if r.fresh then 1 else 0)) }
        ensures uncounted { OnErr result (pass.new.appended ≡ pass.old.appended) }
    {
        let receipt = self.change(rt, wait, alloc, pass, Change::Delta(delta), meter)?;
        Ok(receipt)
    }

    /// Merges a delta made elsewhere: appends only the part of the delta that the sheet lacks, and shows the change to
    /// all readers, at once or later as [`Desk::edit`] does.
    ///
    /// The receipt holds the appended part, if the caller wants it back. If the sheet lacks nothing, the call appends
    /// nothing, and the receipt holds the whole delta.
    ///
    /// Fails only when out of memory, and only if the sheet lacks a part. The pass has then seen the whole published
    /// list, even if the call fails. The call may wait as [`Desk::edit`] may.
    ///
    /// Cost: that of [`ps_sheet::Staging::stage`] and of showing the waiting changes, and linear in the cells that show
    /// another value after the change.
    #[inline(always)]
    pub fn merge<R: Threads + Sync, V: Wait, M: Ledger, E: Enclosure + Drop>(
        &self,
        rt: &R,
        wait: &V,
        alloc: Global,
        pass: &mut Pass<L>,
        delta: Delta,
        meter: &mut Meter<M>,
    ) -> Result<Receipt<E>, Refusal>
        ensures took { Took L.opening pass.old pass.new }
        ensures receipt { IfOk result (λ r. Encloses E.tells (IsReceipt (λ s d. IsMergedAs s delta d) L.opening
            pass.old.list pass.new.list pass.old.seat) r.number r.enclosed r.fresh) }
        ensures memory { IfErr result (λ e. e ≡ Memory) }
        ensures asked { OnErr result (¬ IsBelow (state_of delta)
            (joined_history (history_of L.opening pass.new.list))) }
        ensures counted { IfOk result (λ r. pass.new.appended
            ≡ pass.old.appended + (if r.fresh then 1 else 0)) }
        ensures uncounted { OnErr result (pass.new.appended ≡ pass.old.appended) }
    {
        let receipt = self.change(rt, wait, alloc, pass, Change::Merge(delta), meter)?;
        Ok(receipt)
    }

    /// Makes a change for [`Desk::edit`], [`Desk::receive`] and [`Desk::merge`], under the lock.
    #[inline(always)]
    fn change<R: Threads + Sync, V: Wait, M: Ledger, E: Enclosure + Drop>(
        &self,
        rt: &R,
        wait: &V,
        alloc: Global,
        pass: &mut Pass<L>,
        change: Change,
        meter: &mut Meter<M>,
    ) -> Result<Receipt<E>, Refusal>
        ensures took { Took L.opening pass.old pass.new }
        ensures made { IfOk result (λ r. Made E.tells L.replica L.opening change pass.old pass.new
            r.number r.enclosed r.fresh) }
        ensures unmade { IfErr result (Unmade L.replica L.opening change pass.old pass.new) }
    {
        let showing = pass.next_showing();
        let mut state = self.state.lock(wait);
        let made = state.make(rt, wait, alloc, pass, change, meter, showing);
        let shows_all = state.shows_all();
        drop(state);
        pass.has_changed();
        self.wake(shows_all);
        made
    }

    /// Shows readers all changes that the pass has seen, and returns a token which proves that these are shown.
    ///
    /// Only a change made at a [`crate::Seat`] with a keeper may wait to be shown: see [`Desk::edit`]. If the pass has
    /// seen a change that may still wait, this call shows all waiting changes. In this case the call may wait for the
    /// desk's lock, and for readers that still read an older copy.
    ///
    /// Cost: a constant for each slot, and twice the shown values that the waiting changes replace. Constant and
    /// without the lock if the pass knows that all changes it has seen are shown.
    #[inline]
    pub fn show<V: Wait>(&self, wait: &V, pass: &mut Pass<L>) -> ShownPosition<L>
        ensures shown { result ≡ pass.old.list }
        ensures same { pass.new ≡ pass.old }
    {
        pass.looks();
        match pass.shown() {
            Some(shown) => shown,
            None => self.show_all(wait, pass),
        }
    }

    /// Does what [`Desk::show`] does, under the lock.
    fn show_all<V: Wait>(&self, wait: &V, pass: &mut Pass<L>) -> ShownPosition<L>
        ensures shown { result ≡ pass.old.list }
        ensures same { pass.new ≡ pass.old }
    {
        let mut state = self.state.lock(wait);
        let shown = state.show();
        drop(state);
        self.wake(true);
        pass.note_shown(wait, &shown)
    }

    /// Returns the number of changes in the history. The pass has then seen the whole published list.
    ///
    /// The call shows all waiting changes to readers. It may wait for the desk's lock, and for readers that still read
    /// an older copy.
    ///
    /// Cost: that of showing the waiting changes, as for [`Desk::show`]; constant if none waits.
    pub fn count<V: Wait>(&self, wait: &V, pass: &mut Pass<L>) -> u64
        ensures later { IsPrefix pass.old.list pass.new.list }
        ensures legal { IsLegal L.opening pass.new.list }
        ensures number { result ≡ length (history_of L.opening pass.new.list) }
        ensures same { (pass.new.appended ≡ pass.old.appended) × (pass.new.seat ≡ pass.old.seat)
            × (pass.new.enters ≡ pass.old.enters) }
    {
        let mut state = self.state.lock(wait);
        state.look(wait, pass);
        state.version()
    }

    /// Waits until the history has more changes than `seen`, or the alarm is raised, for at most `patience`. Returns
    /// the number of changes.
    ///
    /// The caller needs no session slot, since the call doesn't change what any pass has seen. The call holds no lock
    /// while it waits for changes. After the wait it shows all waiting changes to readers. If the desk has a kept file,
    /// the counted changes needn't be durable yet.
    ///
    /// Cost: the time that the call waits, and that of showing the waiting changes.
    pub fn news<V: Wait + Clock>(
        &self,
        wait: &V,
        seen: u64,
        patience: Duration,
        alarm: &Alarm,
    ) -> u64
        ensures there { (list : List Note) × IsLegal L.opening list
            × (result ≡ length (history_of L.opening list)) }
    {
        let _ = self.has_more(wait, seen, patience, alarm);
        let mut state = self.state.lock(wait);
        let _ = state.show();
        state.version()
    }

    /// Raises an alarm, and ends the calls of this desk that wait with this alarm, such as [`Desk::news`].
    ///
    /// The call may wait for the desk's lock.
    pub fn raise<V: Wait>(&self, wait: &V, alarm: &Alarm) {
        alarm.raise();
        // once the lock is free, each call that found the alarm unraised sleeps, and can be woken
        drop(self.state.lock(wait));
        self.grown.notify_all();
    }

    /// Wakes all calls that wait for changes, if more may be shown now.
    fn wake(&self, is_more_shown: bool) {
        if is_more_shown {
            self.grown.notify_all();
        }
    }

    /// Waits until the history has more changes than `seen`, or the peer of a session waits no longer, at most 25
    /// seconds. It holds no lock meanwhile, and changes nothing.
    ///
    /// Cost: the time that it waits. If no lookout watches the peer, it also checks the peer's connection ten times a
    /// second.
    pub(crate) fn linger<V: Wait + Clock>(&self, wait: &V, seen: u64, presence: Presence<'_>) {
        let never = Alarm::new();
        let mut left = Duration::from_secs(LONGEST);
        if self.has_more(wait, seen, Duration::ZERO, &never) {
            return;
        }
        for _ in 0..MOST_SLEEPS {
            let begun = Instant::now(wait);
            let watched = presence.watch();
            let patience = match watched {
                Some(_) => left,
                None => left.min(Duration::from_millis(SLICE)),
            };
            let alarm = match watched {
                Some(alarm) => alarm,
                None => &never,
            };
            let has_more = self.has_more(wait, seen, patience, alarm);
            if has_more || !presence.is_waiting() {
                break;
            }
            left = match begun {
                Ok(begun) => left_after(wait, left, begun),
                Err(_) => Duration::ZERO,
            };
            if left.is_zero() {
                break;
            }
        }
        presence.unwatch();
    }

    /// Waits until the history has more changes than `seen`, or the alarm is raised, for at most `patience`. Returns
    /// whether the history has more.
    fn has_more<V: Wait + Clock>(
        &self,
        wait: &V,
        seen: u64,
        patience: Duration,
        alarm: &Alarm,
    ) -> bool {
        let state = self.state.lock(wait);
        let lacks = |state: &mut DeskState<L, W>| state.version() <= seen && !alarm.is_raised();
        let (state, _) = self.grown.wait_timeout_while(wait, state, patience, lacks);
        state.version() > seen
    }

    /// Returns the deltas of the history after the first `from`, in order, at most `at_most` of them.
    ///
    /// The call shows all waiting changes to readers. The pass has then seen the whole published list, even if the call
    /// fails. The call may wait for the desk's lock, and for readers that still read an older copy.
    ///
    /// Refused with `Version` if the history has fewer than `from` deltas. Fails with `Memory` when out of memory, and
    /// only if the history has more than `from`.
    ///
    /// Cost: linear in the returned deltas, and that of showing the waiting changes.
    pub fn pull<V: Wait>(
        &self,
        wait: &V,
        alloc: Global,
        pass: &mut Pass<L>,
        from: u64,
        at_most: usize,
    ) -> Result<Vec<Delta>, Refusal>
        ensures later { IsPrefix pass.old.list pass.new.list }
        ensures legal { IsLegal L.opening pass.new.list }
        ensures deltas { IfOk result (λ ds. ds.items ≡ take at_most (drop from (history_of L.opening pass.new.list))) }
        ensures there { IfOk result (λ _. from ≤ length (history_of L.opening pass.new.list)) }
        ensures bound { IfOk result (λ _. length (history_of L.opening pass.new.list) < 2 ^ 64) }
        ensures refused { IfErr result (λ e. (e ≡ Memory)
            ⊎ ((e ≡ Version) × (length (history_of L.opening pass.new.list) < from))) }
        ensures asked { IfErr result (λ e. e ≡ Memory → from < length (history_of L.opening pass.new.list)) }
        ensures same { (pass.new.appended ≡ pass.old.appended) × (pass.new.seat ≡ pass.old.seat)
            × (pass.new.enters ≡ pass.old.enters) }
    {
        let mut state = self.state.lock(wait);
        state.look(wait, pass);
        state.deltas_after(alloc, from, at_most)
    }

    /// Returns the deltas of the history after the first `from`, in order, to a caller without a session slot.
    ///
    /// The call shows all waiting changes to readers, and moves `position` to the end of the published list, even if
    /// the call fails. It doesn't change what any pass has seen. It may wait for the desk's lock, and for readers that
    /// still read an older copy.
    ///
    /// Refused with `Version` if the history has fewer than `from` deltas. Fails with `Memory` when out of memory, and
    /// only if the history has more than `from`.
    ///
    /// Cost: linear in the returned deltas, and that of showing the waiting changes.
    pub fn later<V: Wait>(
        &self,
        wait: &V,
        alloc: Global,
        position: &mut ShownPosition<L>,
        from: u64,
    ) -> Result<Vec<Delta>, Refusal>
        ensures later { IsPrefix position.old position.new }
        ensures legal { IsLegal L.opening position.new }
        ensures deltas { IfOk result (λ ds. ds.items ≡ drop from (history_of L.opening position.new)) }
        ensures bound { IfOk result (λ _. length (history_of L.opening position.new) < 2 ^ 64) }
        ensures refused { IfErr result (λ e. (e ≡ Memory)
            ⊎ ((e ≡ Version) × (length (history_of L.opening position.new) < from))) }
        ensures asked { IfErr result (λ e. e ≡ Memory → from < length (history_of L.opening position.new)) }
    {
        let mut state = self.state.lock(wait);
        let shown = state.show();
        position.catch_up(wait, shown);
        let deltas = state.deltas_after(alloc, from, usize::MAX);
        drop(state);
        // calls such as `count` show waiting changes and wake nobody, so this one does
        self.wake(true);
        deltas
    }

    /// Returns whether the sheet, at some moment of the call, has everything in `delta` that is marked with the sheet's
    /// own replica. If the result is false, another sheet uses the same replica number, or this sheet has lost changes.
    ///
    /// The call may wait for the desk's lock.
    ///
    /// Cost: that of [`ps_sheet::Staging::has_own`].
    pub fn has_own<V: Wait>(&self, wait: &V, delta: &Delta) -> bool
        ensures own { (list : List Note) × IsLegal L.opening list
            × (result ≡ has_own L.replica (joined_history (history_of L.opening list)) delta.now) }
    {
        self.state.lock(wait).has_own(delta)
    }

    /// Returns the entry of a cell: the text that people type for what the cell holds. Fails only when out of memory.
    ///
    /// The call shows all waiting changes to readers. The pass has then seen the whole published list, even if the call
    /// fails. The call may wait for the desk's lock, and for readers that still read an older copy.
    ///
    /// Cost: linear in the bytes of the entry, and that of showing the waiting changes.
    pub fn entry<V: Wait>(
        &self,
        wait: &V,
        alloc: Global,
        pass: &mut Pass<L>,
        cell: Cell,
    ) -> Result<Vec<u8>, Refusal>
        ensures later { IsPrefix pass.old.list pass.new.list }
        ensures legal { IsLegal L.opening pass.new.list }
        ensures text { IfOk result (λ t. t.items ≡ entry_text (held_in (history_of L.opening pass.new.list)) cell) }
        ensures memory { IfErr result (λ e. e ≡ Memory) }
        ensures same { (pass.new.appended ≡ pass.old.appended) × (pass.new.seat ≡ pass.old.seat)
            × (pass.new.enters ≡ pass.old.enters) }
    {
        let mut state = self.state.lock(wait);
        state.look(wait, pass);
        state.entry(alloc, cell)
    }

    /// Returns the entries of a rectangle's cells, as the text of a CSV table with a line for each row. Fails only when
    /// out of memory.
    ///
    /// The call shows all waiting changes to readers. The pass has then seen the whole published list, even if the call
    /// fails. The call may wait for the desk's lock, and for readers that still read an older copy. It holds the lock
    /// while it copies the contents of the cells, but not while it writes the text.
    ///
    /// Cost: the cells of the rectangle, the bytes of the text, and that of showing the waiting changes.
    pub fn entries<V: Wait>(
        &self,
        wait: &V,
        alloc: Global,
        pass: &mut Pass<L>,
        rect: Rect,
    ) -> Result<Vec<u8>, Refusal>
        ensures later { IsPrefix pass.old.list pass.new.list }
        ensures legal { IsLegal L.opening pass.new.list }
        ensures text { IfOk result (λ t. t.items
            ≡ exported_entries (held_in (history_of L.opening pass.new.list)) rect) }
        ensures memory { IfErr result (λ e. e ≡ Memory) }
        ensures same { (pass.new.appended ≡ pass.old.appended) × (pass.new.seat ≡ pass.old.seat)
            × (pass.new.enters ≡ pass.old.enters) }
    {
        let mut state = self.state.lock(wait);
        state.look(wait, pass);
        let copied = state.copied(alloc, rect);
        drop(state);
        // for the fact that it lies in the grid
        let _ = rect.area();
        entries_text(alloc, &copied?, rect)
    }
}

/// Returns `left` less the time since `begun`; zero if the clock can't be read.
fn left_after<V: Clock>(clock: &V, left: Duration, begun: Instant) -> Duration {
    match begun.elapsed(clock) {
        Ok(time) => left.saturating_sub(time),
        Err(_) => Duration::ZERO,
    }
}
