//! A session's pass.

ghost use Rattle.std.specs.Prelude.{◌≡◌, ◌≢◌, ◌+◌, ◌<◌, ◌≤◌, ◌^◌, [], length, IfNone, IfSome, IsSome};
ghost use mathlib.Core.List.{IsPrefix};
ghost use Rattle.ps_grid.specs.Rectangle.{LiesInGrid};
ghost use Rattle.ps_grid.specs.declared.size.TheConstants.{CELLS};
ghost use Rattle.ps_face.specs.Legal.{IsLegal, Shows, history_of};
ghost use Rattle.ps_lines.specs.Commands.{with_part};
ghost use Rattle.ps_desk.specs.Closing.{EndsAt};
ghost use Rattle.ps_desk.specs.Passes.{IsShown, entered, owned_by, seen_by};
ghost use Rattle.ps_desk.specs.Seats.{GoesOn, Tabled};

use crate::copied::CopiedValues;
use crate::name::DeskName;
use crate::position::Position;
use crate::shot::Shot;
use crate::showing::{Showing, Stream};
use crate::shown_position::ShownPosition;
use ps_csv::exported_text;
use ps_face::{BookPrefix, FaceReader, Seen};
use ps_grid::{Cell, Rect, Refusal};
use ps_value::Value;
use std::alloc::Global;
use std::marker::Model;
use std::sync::Wait;
use std::sync::ledger::{Book, Share};

/// A session's pass to a desk: the right to change the sheet, and a record of what was seen and appended with the pass.
///
/// The record is the seen beginning of the desk's published list of patches, and a count of the appended deltas. The
/// next session of the slot gets the same pass, with its record. A contract sees a pass as a `PassView`.
#[derive(Drop)]
pub struct Pass<L: DeskName> {
    /// absent while a copy is read
    reader: Option<FaceReader<L>>,
    /// the beginning of the list that is known to be shown to all readers
    shown: ShownPosition<L>,
    /// this slot's part of what was appended
    share: Share<L>,
    appended: u64,
    seat: u64,
    /// what the session has done lately, which decides when its next change is shown
    stream: Stream,
}

impl<L: DeskName> Model for Pass<L> {
    ghost use Rattle.std.specs.Coded.{codes};
    ghost use Rattle.ps_face.specs.contracts.patch.Note as note;
    ghost use Rattle.ps_desk.specs.Passes.{IsPass, PassView, entered, seen_by};

    ghost Value = { PassView };

    ghost coded = { Prim.hlevel (codes, note.the_row.coded) };

    ghost view = { λ p. record {
      list = seen_by p.reader;
      enters = entered p.reader;
      appended = p.appended;
      seat = p.seat;
    } };

    ghost invariant = { λ p. IsPass p.reader p.share.parts p.share.amount p.appended p.seat };
}

impl<L: DeskName> Pass<L> {
    /// Creates a pass that has appended nothing, and has seen what its reader has.
    pub(crate) fn new(
        reader: FaceReader<L>,
        shown: ShownPosition<L>,
        share: Share<L>,
        seat: u64,
    ) -> Pass<L>
        requires parts { share.parts ≡ 1 }
        requires amount { share.amount ≡ 0 }
        ensures { result ≡ record { list = reader.list; enters = reader.enters; appended = 0; seat = seat } }
    {
        Pass {
            reader: Some(reader),
            shown,
            share,
            appended: 0,
            seat,
            stream: Stream::new(),
        }
    }

    /// Returns the number of deltas that all sessions with this pass have appended to the history. The patches that the
    /// pass has seen include at least as many of the pass's slot.
    pub fn appended(&self) -> u64
        ensures appended { result ≡ self.now.appended }
        ensures owned { result ≤ owned_by self.now.seat self.now.list }
    {
        self.appended
    }

    /// Returns the value that a cell shows now, and the version. Returns none if the desk is gone, or if the pass has
    /// seen a change that still waits to be shown ([`crate::Desk::show`] shows such changes).
    ///
    /// The value is settled: fully recalculated, over a history that has all that this pass had seen or appended. The
    /// version is the length of this history.
    ///
    /// The call takes no lock and no memory, and doesn't wait.
    pub fn read(&mut self, cell: Cell) -> Option<Shot>
        ensures later { IsPrefix self.old.list self.new.list }
        ensures legal { IfSome result (λ _. IsLegal L.opening self.new.list) }
        ensures step { IfSome result (λ _. self.new.enters ≡ self.old.enters + 1) }
        ensures version { IfSome result (λ s. s.version ≡ length (history_of L.opening self.new.list)) }
        ensures value { IfSome result (λ s. IsShown (history_of L.opening self.new.list) cell s.value) }
        ensures gone { IfNone result (self.new.list ≡ self.old.list) }
        ensures same { (self.new.appended ≡ self.old.appended) × (self.new.seat ≡ self.old.seat) }
    {
        let seen = enter(&mut self.reader)?;
        let shot = Shot {
            version: seen.version(),
            value: seen.at(cell),
        };
        // for the fact that the cell is in the grid
        let _ = cell.index();
        self.shown = ShownPosition::new(&seen.shown());
        self.reader = Some(seen.leave());
        Some(shot)
    }

    /// Writes the values that all cells show now to `values`, row by row, and returns the version. `values` has to have
    /// one element for each cell of the grid.
    ///
    /// Returns none, and leaves `values` unchanged, in the two cases of [`Pass::read`].
    ///
    /// All values are settled, over one history that has all that this pass had seen or appended. The version is the
    /// length of this history. The program itself doesn't call this function.
    ///
    /// Cost: linear in the cells of the grid. The call takes no lock and no memory, and doesn't wait.
    pub fn read_all(&mut self, values: &mut [Value]) -> Option<u64>
        requires room { length values.old ≡ CELLS }
        ensures later { IsPrefix self.old.list self.new.list }
        ensures legal { IfSome result (λ _. IsLegal L.opening self.new.list) }
        ensures step { IfSome result (λ _. self.new.enters ≡ self.old.enters + 1) }
        ensures version { IfSome result (λ n. n ≡ length (history_of L.opening self.new.list)) }
        ensures values { IfSome result (λ _. Shows (history_of L.opening self.new.list) values.new) }
        ensures room { length values.new ≡ CELLS }
        ensures gone { IfNone result ((self.new.list ≡ self.old.list) × (values.new ≡ values.old)) }
        ensures same { (self.new.appended ≡ self.old.appended) × (self.new.seat ≡ self.old.seat) }
    {
        let seen = enter(&mut self.reader)?;
        let version = seen.version();
        copy_all(&seen, values);
        self.shown = ShownPosition::new(&seen.shown());
        self.reader = Some(seen.leave());
        Some(version)
    }

    /// Returns what the cells of a rectangle show now, all at one version, as the text of a CSV table with a line for
    /// each row. A change that is published meanwhile waits while the values are copied, and not while the text is
    /// written.
    ///
    /// Refused if the desk is gone (`Seat`), and when out of memory.
    ///
    /// Cost: the cells of the rectangle, and the bytes of the table; no lock and no wait. It takes memory for both.
    pub(crate) fn table(&mut self, alloc: Global, rect: Rect) -> Result<Vec<u8>, Refusal>
        requires in_grid { LiesInGrid rect }
        ensures shown { Tabled L.opening self.old rect (with_part (λ text. text.items) result) self.new }
        ensures goes_on { GoesOn self.old self.new }
    {
        let Some(seen) = enter(&mut self.reader) else {
            return Err(Refusal::Seat);
        };
        let copied = CopiedValues::of(alloc, &seen, rect);
        self.shown = ShownPosition::new(&seen.shown());
        self.reader = Some(seen.leave());
        exported_text(alloc, &copied?, rect)
    }

    /// Returns the number of the pass's session slot, from 0.
    pub fn seat(&self) -> u64
        ensures { result ≡ self.now.seat }
    {
        self.seat
    }

    /// Returns the position up to which the pass has seen the published list.
    pub fn position(&self) -> Position<L>
        ensures { result ≡ self.now.list }
    {
        Position::new(self.reader.as_ref().unwrap().front().again())
    }

    /// Returns a token which proves that all changes the pass has seen are shown to readers; none if the pass doesn't
    /// know whether they are. A pass that has seen nothing always returns a token.
    pub fn shown(&self) -> Option<ShownPosition<L>>
        ensures shown { IfSome result (λ shown. shown ≡ self.now.list) }
        ensures unknown { IfNone result (self.now.list ≢ []) }
    {
        self.shown.part(self.position())
    }

    /// Records that all that the pass has seen is shown, and returns the token for it. `shown` has to cover all of
    /// that: otherwise the call never returns.
    pub(crate) fn note_shown<V: Wait>(
        &mut self,
        wait: &V,
        shown: &ShownPosition<L>,
    ) -> ShownPosition<L>
        ensures shown { result ≡ self.old.list }
        ensures same { self.new ≡ self.old }
    {
        let Some(own) = shown.part(self.position()) else {
            for _ in wait.forever() {}
            unreachable!()
        };
        self.shown = own.again();
        self.stream.has_changed = false;
        own
    }

    /// Returns whether the session's next change is shown at once or later.
    #[inline(always)]
    pub(crate) fn next_showing(&self) -> Showing {
        self.stream.next()
    }

    /// Records that the session has changed something.
    #[inline(always)]
    pub(crate) fn has_changed(&mut self)
        ensures { self.new ≡ self.old }
    {
        self.stream.has_changed = true;
    }

    /// Records that the session reads, or sends its replies.
    #[inline(always)]
    pub(crate) fn looks(&mut self)
        ensures { self.new ≡ self.old }
    {
        self.stream.has_changed = false;
    }

    /// Records whether the session has a keeper, which shows the session's changes before its replies are sent.
    pub(crate) fn leave_to_keeper(&mut self, is_kept: bool)
        ensures { self.new ≡ self.old }
    {
        self.stream.is_kept = is_kept;
    }

    /// Marks the published list as seen by this pass up to the position `shown`, if the pass hasn't seen more already.
    /// Each later read with this pass then has these changes. The function is public for callers that carry a position
    /// from one pass to another.
    pub fn learn(&mut self, shown: &ShownPosition<L>)
        ensures later { IsPrefix self.old.list self.new.list }
        ensures seen { IsPrefix shown.now self.new.list }
        ensures pass { self.new ≡ record self.old { list = self.new.list } }
    {
        let mut reader = self.reader.take().unwrap();
        let position = shown.position();
        if !position.front.begins(reader.front()) {
            let _ = reader.learn(&position.front);
        }
        self.reader = Some(reader);
    }

    /// Marks the published list as seen up to `front`, its end. The call never returns if the pass has seen more, but
    /// no pass has.
    pub(crate) fn catch_up<V: Wait>(&mut self, wait: &V, front: &BookPrefix)
        requires book { front.now.book ≡ L.book }
        requires legal { IsLegal L.opening front.now.list }
        ensures later { IsPrefix self.old.list front.now.list }
        ensures pass { self.new ≡ record self.old { list = front.now.list } }
    {
        let Some(reader) = &mut self.reader else {
            unreachable!()
        };
        if !reader.learn(front) {
            for _ in wait.forever() {}
            unreachable!()
        }
    }

    /// Counts one more appended delta, in the pass and in the desk's book. The pass has seen the delta's patch.
    pub(crate) fn count(&mut self, book: &mut Book<L>)
        requires room { book.old.total + 1 < 2 ^ 64 }
        requires owned { self.old.appended + 1 ≤ owned_by self.old.seat self.old.list }
        ensures pass { self.new ≡ record self.old { appended = self.old.appended + 1 } }
        ensures book { book.new.total ≡ book.old.total + 1 }
    {
        let Pass {
            share,
            appended,
            ..
        } = self;
        // for the fact that no pass appended more than all together
        book.audit(share);
        book.add(share, 1);
        *appended += 1;
    }

    /// Ends the pass, and returns its share of the desk's book: the number of deltas that it appended.
    pub(crate) fn end<V: Wait>(mut self, wait: &V, front: &BookPrefix) -> Share<L>
        requires book { front.now.book ≡ L.book }
        requires legal { IsLegal L.opening front.now.list }
        ensures ends { EndsAt front.now.list self }
        ensures share { (result.parts ≡ 1) × (result.amount ≡ self.appended) }
    {
        self.catch_up(wait, front);
        let Pass { share, .. } = self;
        share
    }
}

/// Enters the copy that is shown now. While the copy is read, `reader` is absent.
///
/// Returns none, and leaves `reader` there, if the desk is gone. The same happens if the pass has seen a change that
/// waits to be shown, but every caller has it shown first.
#[inline(always)]
fn enter<L: DeskName>(reader: &mut Option<FaceReader<L>>) -> Option<Seen<L>>
    requires here { IsSome reader.old }
    ensures later { IfSome result (λ seen. IsPrefix (seen_by reader.old) seen.list) }
    ensures legal { IfSome result (λ seen. IsLegal L.opening seen.list) }
    ensures whole { IfSome result (λ seen. Shows (history_of L.opening seen.list) seen.values) }
    ensures step { IfSome result (λ seen. seen.enters ≡ entered reader.old + 1) }
    ensures gone { IfNone result (IsSome reader.new × (seen_by reader.new ≡ seen_by reader.old)) }
{
    match reader.take().unwrap().enter() {
        Ok(seen) => Some(seen),
        Err(back) => {
            *reader = Some(back);
            None
        }
    }
}

/// Writes what all cells show to `values`, in the order of the grid.
fn copy_all<L: DeskName>(seen: &Seen<L>, values: &mut [Value])
    requires shows { Shows (history_of L.opening seen.now.list) seen.now.values }
    requires room { length values.old ≡ CELLS }
    ensures shows { Shows (history_of L.opening seen.now.list) values.new }
    ensures room { length values.new ≡ CELLS }
{
    for index in 0..values.len() {
        if let Some(cell) = Cell::from_index(index) {
            values[index] = seen.at(cell);
        }
    }
}
