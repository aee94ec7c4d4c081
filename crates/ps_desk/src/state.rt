//! The state that a desk's lock guards.

ghost use Rattle.std.specs.Prelude.{◌≡◌, ◌⊎◌, ◌↔◌, ◌<◌, ◌^◌, [], true, drop, length, take, Err, IfOk, IfErr, OnErr};
ghost use mathlib.Core.List.{IsPrefix};
ghost use Rattle.ps_grid.specs.declared.refusal.Refusal.TheVariants.{Memory, Version};
ghost use Rattle.ps_delta.specs.Deltas.{joined_history};
ghost use Rattle.ps_csv.specs.Exports.{entry_text, held_in};
ghost use Rattle.ps_sheet.specs.Own.{has_own};
ghost use Rattle.ps_sheet.specs.Sheet.{IsSheet};
ghost use Rattle.ps_face.specs.Legal.{IsLegal, history_of};
ghost use Rattle.ps_desk.specs.Copies.{SameIn, holds_in};
ghost use Rattle.ps_desk.specs.Receipts.{Made, Took, Unmade};
ghost use Rattle.ps_desk.specs.declared.showing.Showing.TheVariants.{AtOnce};

use crate::change::{finish, make_way, note_shown};
use crate::copied::CopiedContents;
use crate::name::DeskName;
use crate::pass::Pass;
use crate::receipt::{Enclosure, Receipt};
use crate::showing::Showing;
use crate::shown_position::ShownPosition;
use ps_content::Content;
use ps_csv::{Holds, entry_of};
use ps_delta::{Change, Delta};
use ps_eval::Meter;
use ps_face::{BookPrefix, FaceWriter};
use ps_grid::{Cell, Rect, Refusal};
use ps_lines::deltas_after;
use ps_sheet::{Sheet, Staging};
use ps_workers::Open;
use std::alloc::Global;
use std::marker::Model;
use std::sync::Wait;
use std::sync::ledger::{Book, Ledger, Share};
use std::thread::Threads;

/// The sheet, the writer of its published copies, and the book that counts what the passes appended. A contract sees it
/// as that writer.
///
/// Between two calls nothing is staged in the sheet. Readers are shown a beginning of the published list: all of it,
/// unless changes wait to be shown.
#[derive(Drop)]
pub(crate) struct DeskState<L: DeskName, W: Wait + Drop> {
    sheet: Staging,
    copies: FaceWriter<L, W>,
    book: Book<L>,
    /// the session slot whose changes may wait to be shown; `None` if all are shown
    waiting: Option<u64>,
}

impl<L: DeskName, W: Wait + Drop> Model for DeskState<L, W> {
    ghost use Rattle.std.specs.Prelude.{◌≡◌, None};
    ghost use Rattle.std.specs.Coded.{codes};
    ghost use Rattle.ps_face.specs.contracts.patch.Note as note;
    ghost use Rattle.ps_face.specs.Published.{Published};
    ghost use Rattle.ps_desk.specs.UnderLock.{IsUnderLock, Waits};

    ghost Value = { Published };

    ghost coded = { Prim.hlevel (codes, note.the_row.coded) };

    ghost view = { λ d. d.copies };

    ghost invariant = { λ d. (d.sheet.staged ≡ None)
        × IsUnderLock L.replica L.opening d.sheet.replica d.sheet.history d.copies d.book.total
        × Waits d.waiting d.copies };
}

impl<L: DeskName, W: Wait + Drop> DeskState<L, W> {
    /// Creates the state of a desk that opens.
    pub(crate) fn new(sheet: Sheet, copies: FaceWriter<L, W>, book: Book<L>) -> DeskState<L, W>
        requires replica { sheet.replica ≡ L.replica }
        requires history { sheet.history ≡ L.opening }
        requires copies { copies ≡ record { list = []; shown = []; pending = [] } }
        requires book { book.total ≡ 0 }
        ensures { result ≡ record { list = []; shown = []; pending = [] } }
    {
        DeskState {
            sheet: Staging::new(sheet),
            copies,
            book,
            waiting: None,
        }
    }

    /// Returns the token for the whole published list.
    pub(crate) fn front(&self) -> &BookPrefix
        ensures front { result.now ≡ record { book = L.book; list = self.now.list } }
        ensures legal { IsLegal L.opening self.now.list }
    {
        self.copies.front()
    }

    /// Returns the number of changes in the history.
    pub(crate) fn version(&self) -> u64
        ensures version { result ≡ length (history_of L.opening self.now.list) }
        ensures legal { IsLegal L.opening self.now.list }
    {
        // for the fact that the list is legal
        let _ = self.front();
        self.sheet.version()
    }

    /// Shows the whole published list to readers, and returns the token for it.
    pub(crate) fn show(&mut self) -> ShownPosition<L>
        ensures copies { self.new ≡ record self.old { shown = self.old.list } }
        ensures shown { result ≡ self.new.list }
    {
        self.copies.show();
        self.waiting = None;
        // for the fact that the list is legal
        let _ = self.copies.front();
        ShownPosition::new(&self.copies.shown())
    }

    /// Returns whether readers are shown the whole published list. The call may miss that they are.
    pub(crate) fn shows_all(&self) -> bool
        ensures shown { result ≡ true → self.now.shown ≡ self.now.list }
    {
        self.waiting.is_none()
    }

    /// Shows the whole published list to readers, and marks it as seen by the pass.
    pub(crate) fn look<V: Wait>(&mut self, wait: &V, pass: &mut Pass<L>)
        ensures copies { self.new ≡ record self.old { shown = self.old.list } }
        ensures later { IsPrefix pass.old.list self.new.list }
        ensures legal { IsLegal L.opening self.new.list }
        ensures pass { pass.new ≡ record pass.old { list = self.new.list } }
    {
        let shown = self.show();
        pass.catch_up(wait, self.front());
        let _ = pass.note_shown(wait, &shown);
    }

    /// Ends the desk's state, and returns the sheet. `all` is the merged share of all passes, which the book's total
    /// equals.
    pub(crate) fn end(self, all: &mut Share<L>) -> Sheet
        requires all { all.old.parts ≡ L.parts }
        ensures replica { result.replica ≡ L.replica }
        ensures history { result.history ≡ history_of L.opening self.list }
        ensures grown { length self.list ≡ all.old.amount }
        ensures sheet { IsSheet result }
    {
        let DeskState {
            sheet,
            copies: _,
            mut book,
            waiting: _,
        } = self;
        book.audit(all);
        sheet.into_sheet()
    }

    /// Makes a change for the session of a pass, and returns its receipt. The pass has then seen the whole published
    /// list. If the change is shown at once, all waiting changes are shown, too. If changes of another slot wait, the
    /// change is shown at once in any case.
    ///
    /// Refused as the sheet refuses the change. A change that adds something new may also fail when out of memory.
    /// After a refusal the published list is as before.
    #[inline(always)]
    pub(crate) fn make<R: Threads + Sync, V: Wait, M: Ledger, E: Enclosure + Drop>(
        &mut self,
        rt: &R,
        wait: &V,
        alloc: Global,
        pass: &mut Pass<L>,
        change: Change,
        meter: &mut Meter<M>,
        showing: Showing,
    ) -> Result<Receipt<E>, Refusal>
        ensures all { pass.new.list ≡ self.new.list }
        ensures shown { showing ≡ AtOnce → self.new.shown ≡ self.new.list }
        ensures kept { OnErr result (self.new.list ≡ self.old.list) }
        ensures took { Took L.opening pass.old pass.new }
        ensures made { IfOk result (λ r. Made E.tells L.replica L.opening change pass.old pass.new
            r.number r.enclosed r.fresh) }
        ensures unmade { IfErr result (Unmade L.replica L.opening change pass.old pass.new) }
    {
        let DeskState {
            sheet,
            copies,
            book,
            waiting,
        } = self;
        let showing = showing.beside(*waiting, pass.seat());
        *waiting = showing.waiting(pass.seat());
        make_way(copies, showing);
        pass.catch_up(wait, copies.front());
        let _report = sheet.stage(rt, &Open, alloc, change, meter)?;
        // for the fact that it is a delta
        let _ = sheet.delta().parts();
        let enclosed = E::of(wait, alloc, sheet.delta());
        let done = finish(wait, alloc, sheet, copies, book, pass, showing);
        note_shown(wait, copies, pass, showing);
        // for the fact that the list is legal
        let _ = copies.front();
        let standing = done?;
        Ok(standing.enclosing(enclosed))
    }

    /// Returns the deltas of the history after the first `from`, in order, at most `at_most` of them.
    ///
    /// Refused with `Version` if the history is shorter than `from`. If there are deltas to return, it may also fail
    /// when out of memory.
    pub(crate) fn deltas_after(
        &self,
        alloc: Global,
        from: u64,
        at_most: usize,
    ) -> Result<Vec<Delta>, Refusal>
        ensures deltas { IfOk result (λ ds. ds.items
            ≡ take at_most (drop from (history_of L.opening self.now.list))) }
        ensures above { (result ≡ Err Version) ↔ (length (history_of L.opening self.now.list) < from) }
        ensures other { IfErr result (λ e. (e ≡ Version) ⊎ (e ≡ Memory)) }
        ensures asked { result ≡ Err Memory → from < length (history_of L.opening self.now.list) }
        ensures bound { length (history_of L.opening self.now.list) < 2 ^ 64 }
    {
        // for the fact that a number counts the history
        let _ = self.sheet.version();
        deltas_after(alloc, self.sheet.history(), from, at_most)
    }
}

impl<L: DeskName, W: Wait + Drop> DeskState<L, W> {
    /// Returns whether the sheet has all parts of a delta that its own replica made.
    pub(crate) fn has_own(&self, delta: &Delta) -> bool
        ensures own { result ≡ has_own L.replica (joined_history (history_of L.opening self.now.list)) delta.now }
        ensures legal { IsLegal L.opening self.now.list }
    {
        // for the fact that the list is legal
        let _ = self.front();
        self.sheet.has_own(delta)
    }

    /// Returns the entry of a cell. Fails only when out of memory.
    pub(crate) fn entry(&self, alloc: Global, cell: Cell) -> Result<Vec<u8>, Refusal>
        ensures text { IfOk result (λ t. t.items
            ≡ entry_text (held_in (history_of L.opening self.now.list)) cell) }
        ensures memory { IfErr result (λ e. e ≡ Memory) }
    {
        entry_of(alloc, self, cell)
    }

    /// Copies what the cells of a rectangle hold. Fails only when out of memory.
    pub(crate) fn copied(&self, alloc: Global, rect: Rect) -> Result<CopiedContents, Refusal>
        ensures same { IfOk result (λ copy.
            SameIn rect (holds_in copy) (held_in (history_of L.opening self.now.list))) }
        ensures memory { IfErr result (λ e. e ≡ Memory) }
    {
        CopiedContents::of(alloc, self, rect)
    }
}

impl<L: DeskName, W: Wait + Drop> Holds for DeskState<L, W> {
    ghost use Rattle.ps_csv.specs.Exports.{held_in};
    ghost use Rattle.ps_face.specs.Legal.{history_of};

    ghost held_at = { λ d. held_in (history_of L.opening d.list) };

    fn held(&self, cell: Cell) -> Option<&Content> {
        self.sheet.content(cell)
    }
}
