//! A session at a desk.

ghost use Rattle.std.specs.Prelude.{◌≡◌};

use crate::desk::Desk;
use crate::name::DeskName;
use crate::pass::Pass;
use crate::position::Position;
use crate::presence::Presence;
use crate::receipt::{Receipt, Unenclosed, merged};
use crate::shown_position::ShownPosition;
use ps_delta::{Delta, Edit};
use ps_eval::Meter;
use ps_grid::{Cell, Rect, Refusal};
use ps_session::{Board, Merged};
use ps_value::Value;
use std::alloc::Global;
use std::marker::Model;
use std::sync::Wait;
use std::sync::ledger::Ledger;
use std::thread::Threads;
use std::time::Clock;

/// A session at a desk: the desk and the session's pass, which together answer the lines of the session. A contract
/// sees a seat as the pass.
#[derive(Drop)]
pub struct Seat<'a, L: DeskName, W: Wait + Drop, V: Wait> {
    desk: &'a Desk<L, W>,
    /// the means to wait for the desk's lock
    wait: &'a V,
    pass: Pass<L>,
    /// the peer, which may stop waiting for a reply
    presence: Presence<'a>,
}

impl<'a, L: DeskName, W: Wait + Drop, V: Wait> Model for Seat<'a, L, W, V> {
    ghost use Rattle.std.specs.Coded.{codes};
    ghost use Rattle.ps_face.specs.contracts.patch.Note as note;
    ghost use Rattle.ps_desk.specs.Passes.{PassView};

    ghost Value = { PassView };

    ghost coded = { Prim.hlevel (codes, note.the_row.coded) };

    ghost view = { λ s. s.pass };
}

impl<'a, L: DeskName, W: Wait + Drop, V: Wait> Seat<'a, L, W, V> {
    /// Creates a session at a desk from its pass and its peer. `wait` is the means to wait for the desk's lock.
    pub fn new(
        desk: &'a Desk<L, W>,
        wait: &'a V,
        pass: Pass<L>,
        presence: Presence<'a>,
    ) -> Seat<'a, L, W, V>
        ensures { result ≡ pass }
    {
        Seat {
            desk,
            wait,
            pass,
            presence,
        }
    }

    /// Returns the position up to which the session has seen the published list.
    pub fn position(&self) -> Position<L>
        ensures { result ≡ self.now.list }
    {
        self.pass.position()
    }

    /// Shows readers all changes that the session has seen, its own included, and returns a token which proves that
    /// these are shown.
    ///
    /// Cost: that of [`Desk::show`].
    pub fn show(&mut self) -> ShownPosition<L>
        ensures shown { result ≡ self.old.list }
        ensures same { self.new ≡ self.old }
    {
        self.desk.show(self.wait, &mut self.pass)
    }

    /// Declares that the session has a keeper (`Keeper` of `ps_session`). Shows readers all changes that the session
    /// has seen, and returns a token which proves that these are shown.
    ///
    /// The keeper has to show the session's changes before the session's replies are sent. In return, changes that
    /// directly follow each other may be shown together. Without a keeper, each change is shown at once.
    ///
    /// Cost: that of [`Seat::show`].
    pub fn leave_to_keeper(&mut self) -> ShownPosition<L>
        ensures shown { result ≡ self.old.list }
        ensures same { self.new ≡ self.old }
    {
        self.pass.leave_to_keeper(true);
        self.show()
    }

    /// Records that all changes that the session has seen are shown to readers. `shown` has to cover these changes:
    /// otherwise the call never returns.
    pub fn note_shown(&mut self, shown: &ShownPosition<L>)
        ensures same { self.new ≡ self.old }
    {
        let _ = self.pass.note_shown(self.wait, shown);
    }

    /// Ends the session, and returns its pass.
    ///
    /// The call first shows readers all changes that the session has seen, its own included. The second result is a
    /// token which proves that these are shown.
    ///
    /// Cost: that of [`Desk::show`].
    pub fn leave(mut self) -> (Pass<L>, ShownPosition<L>)
        ensures pass { result.0 ≡ self.entry }
        ensures shown { result.1 ≡ result.0.list }
    {
        let shown = self.show();
        let Seat { mut pass, .. } = self;
        pass.leave_to_keeper(false);
        (pass, shown)
    }
}

impl<L: DeskName, W: Wait + Drop, V: Wait + Clock, M: Ledger> Board<Meter<M>>
    for Seat<'_, L, W, V> {
    ghost use Rattle.ps_desk.specs.Seats.{SeatAnswers, SeatCalls};

    ghost calls = { SeatCalls L.replica L.opening };

    ghost answers = { SeatAnswers L.replica L.opening };

    fn calls_answer_lines() {}

    fn apply_edit<R: Threads + Sync>(
        &mut self,
        rt: &R,
        alloc: Global,
        edit: Edit,
        meter: &mut Meter<M>,
    ) -> Result<u64, Refusal> {
        let desk = self.desk;
        let made: Receipt<Unenclosed> = desk.edit(
            rt,
            self.wait,
            alloc,
            &mut self.pass,
            edit,
            meter,
        )?;
        Ok(made.number)
    }

    fn has_own(&self, delta: &Delta) -> bool {
        self.desk.has_own(self.wait, delta)
    }

    fn apply_delta<R: Threads + Sync>(
        &mut self,
        rt: &R,
        alloc: Global,
        delta: Delta,
        meter: &mut Meter<M>,
    ) -> Result<u64, Refusal> {
        let desk = self.desk;
        let taken: Receipt<Unenclosed> = desk.receive(
            rt,
            self.wait,
            alloc,
            &mut self.pass,
            delta,
            meter,
        )?;
        Ok(taken.number)
    }

    fn apply_merge<R: Threads + Sync>(
        &mut self,
        rt: &R,
        alloc: Global,
        delta: Delta,
        meter: &mut Meter<M>,
    ) -> Result<Merged, Refusal> {
        let desk = self.desk;
        let made: Receipt<Unenclosed> = desk.merge(
            rt,
            self.wait,
            alloc,
            &mut self.pass,
            delta,
            meter,
        )?;
        Ok(merged(&made))
    }

    fn value(&mut self, cell: Cell) -> Result<Value, Refusal> {
        let _ = self.show();
        match self.pass.read(cell) {
            Some(shot) => Ok(shot.value),
            None => Err(Refusal::Seat),
        }
    }

    fn table(&mut self, alloc: Global, rect: Rect) -> Result<Vec<u8>, Refusal> {
        let _ = self.show();
        // for the fact that it lies in the grid
        let _ = rect.area();
        self.pass.table(alloc, rect)
    }

    fn entry(&mut self, alloc: Global, cell: Cell) -> Result<Vec<u8>, Refusal> {
        self.desk.entry(self.wait, alloc, &mut self.pass, cell)
    }

    fn entries(&mut self, alloc: Global, rect: Rect) -> Result<Vec<u8>, Refusal> {
        self.desk.entries(self.wait, alloc, &mut self.pass, rect)
    }

    fn pull(&mut self, alloc: Global, from: u64, most: usize) -> Result<Vec<Delta>, Refusal> {
        self.desk.pull(self.wait, alloc, &mut self.pass, from, most)
    }

    fn wait(&mut self, seen: u64, is_last: bool) -> u64 {
        // what the session changed is shown to all while it waits
        let _ = self.show();
        if is_last {
            self.desk.linger(self.wait, seen, self.presence);
        }
        self.desk.count(self.wait, &mut self.pass)
    }

    fn replica(&mut self) -> u8 {
        self.desk.replica()
    }
}
