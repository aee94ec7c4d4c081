//! Carries out a line through the methods of a board.
ghost use Rattle.std.specs.Prelude.{◌≡◌, ◌<◌, List, Ok, OnErr, OnOk, max};
ghost use Rattle.ps_device.specs.Device.{HoldsBack};
ghost use Rattle.ps_delta.specs.Deltas.{Entries};
ghost use Rattle.ps_session.specs.Boards.{Obeyed, TellsAnswer, merged_text};
ghost use Rattle.ps_lines.specs.PullReplies.{RepliesWith};
ghost use Rattle.ps_lines.specs.Commands.{Read};
ghost use Rattle.ps_session.specs.Inside.Holds.{Tells};
ghost use Rattle.ps_lines.specs.Replies.{done_text, entries_reply, entry_reply, reply_text, rows_text};

use crate::board::{Board, Merged};
use crate::delivery::Delivery;
use crate::resources::Resources;
use crate::telling::{refuse, tell, tell_other};
use crate::tools::Tools;
use ps_delta::Delta;
use ps_device::Failed;
use ps_grid::{Cell, Rect};
use ps_lines::{Command, Reply, Watcher, greatest_group};
use std::alloc::Global;
use std::thread::Threads;

/// Reads a line that isn't empty as a command, carries it out, and puts the reply. A line that is no command is
/// refused, and changes nothing.
#[inline(always)]
pub(crate) fn answer<R: Threads + Sync, B: Board<M>, M, W: Watcher, K, D: Delivery<K>>(
    tools: &mut Tools<'_, R>,
    line: &[u8],
    board: &mut B,
    meter: &mut M,
    watcher: &mut W,
    sink: &mut K,
) -> Result<(), Failed>
    ensures told { Tells (λ old reply new. B.answers old line.now reply new) board.old board.new
        (D.contents sink.old) (D.contents sink.new) result }
    ensures calm { OnOk result (D.failures sink.new ≡ D.failures sink.old) }
    ensures failed { OnErr result (D.failures sink.old < D.failures sink.new) }
    ensures held { D.holds_back → HoldsBack (D.contents sink.old) (D.contents sink.new)
        (D.waiting sink.old) (D.waiting sink.new) }
{
    // for its contract: the reply to a line is made from what the methods answer
    B::calls_answer_lines();
    match Command::read(tools.resources.alloc, &mut tools.decoder, line) {
        Ok(command) => {
            obey::<R, B, M, W, K, D>(tools, line, command, board, meter, watcher, sink)
        }
        Err(refusal) => refuse::<W, K, D>(line, refusal, watcher, sink),
    }
}

/// Carries out a command through the board's methods, and puts the reply.
#[inline(always)]
fn obey<R: Threads + Sync, B: Board<M>, M, W: Watcher, K, D: Delivery<K>>(
    tools: &Tools<'_, R>,
    line: &[u8],
    command: Command,
    board: &mut B,
    meter: &mut M,
    watcher: &mut W,
    sink: &mut K,
) -> Result<(), Failed>
    ensures told { Tells (λ old reply new. Obeyed B.calls old (Ok command) reply new) board.old board.new
        (D.contents sink.old) (D.contents sink.new) result }
    ensures calm { OnOk result (D.failures sink.new ≡ D.failures sink.old) }
    ensures failed { OnErr result (D.failures sink.old < D.failures sink.new) }
    ensures held { D.holds_back → HoldsBack (D.contents sink.old) (D.contents sink.new)
        (D.waiting sink.old) (D.waiting sink.new) }
{
    let Resources { threads, alloc } = tools.resources;
    // The replies to an edit and to `get` are put here. Any other is stored in `other` first.
    let other = match command {
        Command::Edit(edit) => {
            return match board.apply_edit(threads, alloc, edit, meter) {
                Ok(number) => tell::<W, K, D>(line, Reply::Done(number), watcher, sink),
                Err(refusal) => refuse::<W, K, D>(line, refusal, watcher, sink),
            };
        }
        Command::Get(cell) => {
            return match board.value(cell) {
                Ok(value) => tell::<W, K, D>(line, Reply::Shown(value), watcher, sink),
                Err(refusal) => refuse::<W, K, D>(line, refusal, watcher, sink),
            };
        }
        Command::Rows(first, last) => show_table(alloc, Rect::new(first, last), board),
        Command::Entry(cell) => show_entry(alloc, cell, board),
        Command::Entries(first, last) => list_entries(alloc, Rect::new(first, last), board),
        Command::Pull { from, most } => reply_to_pull(
            alloc,
            from,
            most.unwrap_or(1) as usize,
            board,
        ),
        Command::Push(delta) => take_in(threads, alloc, delta, board, meter),
        Command::Merge(delta) => merge_in(threads, alloc, delta, board, meter),
        Command::Replica(_) => Reply::Replica(board.replica()),
        Command::Wait(seen) => Reply::Version(board.wait(seen, tools.is_last)),
    };
    tell_other::<W, K, D>(line, other, watcher, sink)
}

/// Returns the reply with the entry of a cell.
fn show_entry<B: Board<M>, M>(alloc: Global, cell: Cell, board: &mut B) -> Reply
    ensures { TellsAnswer (λ answer. B.calls.holds board.old cell answer board.new) entry_reply (reply_text result) }
{
    match board.entry(alloc, cell) {
        Ok(entry) => Reply::Entry(entry),
        Err(refusal) => Reply::Refused(refusal),
    }
}

/// Returns the reply with the shown values of a rectangle, as a table.
fn show_table<B: Board<M>, M>(alloc: Global, rect: Rect, board: &mut B) -> Reply
    ensures { TellsAnswer (λ answer. B.calls.tables board.old rect answer board.new) (rows_text rect.height)
        (reply_text result) }
{
    match board.table(alloc, rect) {
        Ok(table) => Reply::Rows(rect.height() as u64, table),
        Err(refusal) => Reply::Refused(refusal),
    }
}

/// Returns the reply with the entries of a rectangle, as a table.
fn list_entries<B: Board<M>, M>(alloc: Global, rect: Rect, board: &mut B) -> Reply
    ensures { TellsAnswer (λ answer. B.calls.lists board.old rect answer board.new) (entries_reply rect.height)
        (reply_text result) }
{
    match board.entries(alloc, rect) {
        Ok(table) => Reply::Entries(rect.height() as u64, table),
        Err(refusal) => Reply::Refused(refusal),
    }
}

/// Returns the reply to a client that has the first `from` deltas: at most `most` of the next, as many as one line
/// holds.
#[inline(always)]
fn reply_to_pull<B: Board<M>, M>(alloc: Global, from: u64, most: usize, board: &mut B) -> Reply
    ensures { (answer : Read (List Entries)) × B.calls.pulls board.old from (max most 1) answer board.new
        × RepliesWith from most answer (reply_text result) }
{
    // at least one, so that no delta comes back only at the end
    let deltas = match board.pull(alloc, from, most.max(1)) {
        Ok(deltas) => deltas,
        Err(refusal) => return Reply::Refused(refusal),
    };
    if deltas.is_empty() {
        return Reply::End(from);
    }
    match greatest_group(alloc, &deltas, most) {
        Ok((count, line)) => Reply::Delta(from + count as u64, line),
        Err(refusal) => Reply::Refused(refusal),
    }
}

/// Takes in a delta made elsewhere, and returns the reply.
fn take_in<R: Threads + Sync, B: Board<M>, M>(
    rt: &R,
    alloc: Global,
    delta: Delta,
    board: &mut B,
    meter: &mut M,
) -> Reply
    ensures taken { TellsAnswer (λ answer. B.calls.receives board.old delta answer board.new) done_text
        (reply_text result) }
{
    let had_own = board.has_own(&delta);
    match board.apply_delta(rt, alloc, delta, meter) {
        Ok(number) if had_own => Reply::Done(number),
        Ok(number) => Reply::DoneElsewhere(number),
        Err(refusal) => Reply::Refused(refusal),
    }
}

/// Takes in what is new in a delta made elsewhere, and returns the reply.
fn merge_in<R: Threads + Sync, B: Board<M>, M>(
    rt: &R,
    alloc: Global,
    delta: Delta,
    board: &mut B,
    meter: &mut M,
) -> Reply
    ensures merged { TellsAnswer (λ answer. B.calls.merges board.old delta answer board.new) merged_text
        (reply_text result) }
{
    let had_own = board.has_own(&delta);
    match board.apply_merge(rt, alloc, delta, meter) {
        Ok(Merged::New(number)) if had_own => Reply::Done(number),
        Ok(Merged::New(number)) => Reply::DoneElsewhere(number),
        Ok(Merged::Known(number)) => Reply::Same(number),
        Err(refusal) => Reply::Refused(refusal),
    }
}
