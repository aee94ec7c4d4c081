//! Boards answer the commands of a session.
ghost use Rattle.std.specs.Prelude.{◌+◌, ◌<◌, ◌^◌, ℕ, List, IfOk, length};
ghost use Rattle.std.specs.Thread.{IsSync};
ghost use Rattle.ps_session.specs.Boards.{BoardAnswers, Calls};
ghost use Rattle.ps_lines.specs.Streams.{Answering};
ghost use Rattle.ps_lines.specs.Commands.{with_part};

use ps_delta::{Delta, Edit};
use ps_grid::{Cell, Rect, Refusal};
use ps_value::Value;
use std::alloc::Global;
use std::thread::Threads;

/// What merging a delta did.
#[derive(Clone, Copy, Debug, PartialEq, Eq)]
pub enum Merged {
    /// Something in the delta was new, and became the change with this number; the reply is `ok`.
    New(u64),
    /// The board knew all of the delta, and its last change has this number; the reply is `same`.
    Known(u64),
}

/// Answers the commands of a session, with a method for each.
///
/// A board's changes are numbered from 1 on, in the order in which it made them or took them in.
///
/// The methods that change the board count formula evaluations on a meter `M`, and may start threads through `rt`. A
/// session replies with the refusal that a method returns. So a method may refuse as out of memory only if its work
/// takes memory.
pub trait Board<M> {
    /// What each method answers.
    ghost calls: { Calls Self };

    /// The reply to a line that isn't empty, and the board after the line.
    ghost answers: { Answering Self };

    /// Does nothing. Its contract states that the reply to a line is made from what the methods answer.
    fn calls_answer_lines()
        ensures { (old new : Self) (line text : List ℕ) → BoardAnswers calls old line text new
            → answers old line text new };

    /// Makes an edit, and returns the number of the new change, for the reply `ok`.
    ///
    /// Cost: that of the change, and of the other cells whose shown values it changes.
    fn apply_edit<R: Threads + Sync>(
        &mut self,
        rt: &R,
        alloc: Global,
        edit: Edit,
        meter: &mut M,
    ) -> Result<u64, Refusal>
        requires shared { IsSync R.row }
        ensures edited { calls.edits self.old edit result self.new };

    /// Returns whether the board already has all changes in a delta that are marked with the board's own replica. If
    /// not, the replica's number is used elsewhere too, or changes of this replica were lost.
    ///
    /// A session calls `has_own` before it takes the delta in, and reports false to its watcher (`Outcome::Elsewhere`).
    /// No reply depends on the result, so the method has no contract.
    ///
    /// Cost: for each count in the delta (of a counter), a pass over the board's counts of the same cell. For each pair
    /// in the delta (of a set), a search among the board's pairs of the same cell.
    fn has_own(&self, delta: &Delta) -> bool;

    /// Takes in a delta made elsewhere. Returns the number of the new change, or of the board's last change if the
    /// delta changes nothing, for the reply `ok`.
    ///
    /// Cost: that of the change, and of the other cells whose shown values it changes.
    fn apply_delta<R: Threads + Sync>(
        &mut self,
        rt: &R,
        alloc: Global,
        delta: Delta,
        meter: &mut M,
    ) -> Result<u64, Refusal>
        requires shared { IsSync R.row }
        ensures received { calls.receives self.old delta result self.new };

    /// Takes in the parts of a delta made elsewhere that are new to the board, and returns whether there were any.
    ///
    /// Cost: that of finding what is new, of the change, and of the other cells whose shown values it changes.
    fn apply_merge<R: Threads + Sync>(
        &mut self,
        rt: &R,
        alloc: Global,
        delta: Delta,
        meter: &mut M,
    ) -> Result<Merged, Refusal>
        requires shared { IsSync R.row }
        ensures merged { calls.merges self.old delta result self.new };

    /// Returns what a cell shows. Takes no memory.
    fn value(&mut self, cell: Cell) -> Result<Value, Refusal>
        ensures shown { calls.shows self.old cell result self.new };

    /// Returns what the cells of a rectangle show, as the text of a CSV table with a line for each row.
    ///
    /// Cost: the cells of the rectangle and the bytes of the text.
    fn table(&mut self, alloc: Global, rect: Rect) -> Result<Vec<u8>, Refusal>
        ensures shown { calls.tables self.old rect (with_part (λ text. text.items) result) self.new };

    /// Returns the entry of a cell: the text of what it holds, such as its formula.
    ///
    /// Cost: the bytes of the entry.
    fn entry(&mut self, alloc: Global, cell: Cell) -> Result<Vec<u8>, Refusal>
        ensures held { calls.holds self.old cell (with_part (λ text. text.items) result) self.new };

    /// Returns the entries of the cells of a rectangle, as the text of a CSV table with a line for each row.
    ///
    /// Cost: the cells of the rectangle and the bytes of the text.
    fn entries(&mut self, alloc: Global, rect: Rect) -> Result<Vec<u8>, Refusal>
        ensures held { calls.lists self.old rect (with_part (λ text. text.items) result) self.new };

    /// Returns the deltas that follow the first `from` deltas of the board's history, in order and at most `most`.
    ///
    /// Cost: the deltas that are returned.
    fn pull(&mut self, alloc: Global, from: u64, most: usize) -> Result<Vec<Delta>, Refusal>
        ensures pulled { calls.pulls self.old from most (with_part (λ deltas. deltas.items) result) self.new }
        ensures numbered { IfOk result (λ deltas. from + length deltas.items < 2 ^ 64) };

    /// Waits until the board has more than `seen` changes, or for some time, and returns how many changes it has.
    ///
    /// Returns at once if the client has already sent something after the line `wait` (`is_last` is false).
    ///
    /// Cost: the time that it waits.
    fn wait(&mut self, seen: u64, is_last: bool) -> u64
        ensures waited { calls.waits self.old seen result self.new };

    /// Returns the number of the board's own replica, 1 to 32. Takes no memory.
    fn replica(&mut self) -> u8
        ensures told { calls.replica self.old result self.new };
}
