//! Closing a desk.

ghost use Rattle.std.specs.Prelude.{◌≡◌, ◌+◌, ◌≤◌, All, length, vec_len};
ghost use mathlib.Core.List.{IsPrefix};
ghost use Rattle.ps_sheet.specs.Sheet.{IsSheet};
ghost use Rattle.ps_face.specs.Legal.{IsLegal, history_of};
ghost use Rattle.ps_desk.specs.Closing.{EndsAt, HistoryBegins, IsClosed, appended_of};

use crate::desk::Desk;
use crate::name::DeskName;
use crate::pass::Pass;
use crate::shown_position::ShownPosition;
use ps_face::BookPrefix;
use ps_sheet::Sheet;
use std::sync::Wait;
use std::sync::ledger::Share;

impl<L: DeskName, W: Wait + Drop> Desk<L, W> {
    /// Ends the desk, and returns its sheet. `passes` has the passes of all slots.
    ///
    /// The sheet's history begins with all that each pass has seen. Since the desk was opened, the history has grown by
    /// as many deltas as all passes appended together. If no two passes have the same slot, the history has as many new
    /// deltas of each slot as the slot's pass appended. So each new delta belongs to exactly one fresh
    /// [`crate::Receipt`], and has the receipt's number in the history.
    ///
    /// Cost: that of freeing the published copies.
    pub fn close<V: Wait>(self, wait: &V, passes: Vec<Pass<L>>) -> Sheet
        requires passes { vec_len passes ≡ self }
        ensures replica { result.replica ≡ L.replica }
        ensures begins { HistoryBegins L.opening result.history passes.items }
        ensures grown { length result.history ≡ length L.opening + appended_of passes.items }
        ensures one { IsClosed L.opening result.history passes.items }
        ensures sheet { IsSheet result }
    {
        let (sheet, _) = self.end(wait, passes);
        sheet
    }

    /// Ends the desk as [`Desk::close`] does, returns its sheet, and moves `position` to the end of the published list.
    /// The sheet's history is the history that the desk was opened with, followed by the deltas of the published list.
    ///
    /// Cost: that of freeing the published copies.
    pub fn close_at<V: Wait>(
        self,
        wait: &V,
        passes: Vec<Pass<L>>,
        position: &mut ShownPosition<L>,
    ) -> Sheet
        requires passes { vec_len passes ≡ self }
        ensures replica { result.replica ≡ L.replica }
        ensures begins { HistoryBegins L.opening result.history passes.items }
        ensures grown { length result.history ≡ length L.opening + appended_of passes.items }
        ensures one { IsClosed L.opening result.history passes.items }
        ensures sheet { IsSheet result }
        ensures later { IsPrefix position.old position.new }
        ensures end { result.history ≡ history_of L.opening position.new }
    {
        let (sheet, shown) = self.end(wait, passes);
        position.catch_up(wait, shown);
        sheet
    }

    /// Ends the desk, and returns its sheet and the token for the whole list, which is shown.
    fn end<V: Wait>(self, wait: &V, passes: Vec<Pass<L>>) -> (Sheet, ShownPosition<L>)
        requires passes { vec_len passes ≡ self }
        ensures replica { result.0.replica ≡ L.replica }
        ensures begins { HistoryBegins L.opening result.0.history passes.items }
        ensures grown { length result.0.history ≡ length L.opening + appended_of passes.items }
        ensures one { IsClosed L.opening result.0.history passes.items }
        ensures sheet { IsSheet result.0 }
        ensures end { result.0.history ≡ history_of L.opening result.1 }
    {
        let mut state = self.into_state();
        let shown = state.show();
        let mut all = gather(wait, state.front(), passes);
        (state.end(&mut all), shown)
    }
}

/// Returns the shares of all passes, merged into one.
fn gather<L: DeskName, V: Wait>(wait: &V, front: &BookPrefix, mut passes: Vec<Pass<L>>) -> Share<L>
    requires book { front.now.book ≡ L.book }
    requires legal { IsLegal L.opening front.now.list }
    requires some { 1 ≤ vec_len passes }
    ensures ends { All (EndsAt front.now.list) passes.items }
    ensures parts { result.parts ≡ vec_len passes }
    ensures amount { result.amount ≡ appended_of passes.items }
{
    let all = passes.pop().unwrap().end(wait, front);
    merge_all(wait, front, all, passes)
}

/// Returns this share, merged with the shares of these passes.
fn merge_all<L: DeskName, V: Wait>(
    wait: &V,
    front: &BookPrefix,
    mut all: Share<L>,
    passes: Vec<Pass<L>>,
) -> Share<L>
    requires book { front.now.book ≡ L.book }
    requires legal { IsLegal L.opening front.now.list }
    ensures ends { All (EndsAt front.now.list) passes.items }
    ensures parts { result.parts ≡ all.parts + vec_len passes }
    ensures amount { result.amount ≡ all.amount + appended_of passes.items }
{
    for pass in passes {
        all.merge(pass.end(wait, front));
    }
    all
}
