//! Answers the lines of a session.
ghost use Rattle.std.specs.Prelude.{◌≡◌, ◌≢◌, [], ◌<◌, ◌≤◌, ◌+◌, ◌-◌, ◌^◌, ℕ, min, List, Option};
ghost use Rattle.std.specs.Prelude.{Err, IfOk, OnOk, OnErr, ⊤, codes, length, nat_eq, take, true};
ghost use Rattle.std.specs.List.{starts_with};
ghost use Rattle.std.specs.Io.KnownBytes.{Consumes, IsAtEnd};
ghost use Rattle.ps_device.specs.Device.{HoldsBack, Sends};
ghost use Rattle.ps_session.specs.Transcript.{Answered, Cut, Stopped, Transcribed};
ghost use Rattle.ps_lines.specs.Streams.{Lines, Replies, Run, with_last};
ghost use Rattle.ps_session.specs.Transcript.{has_reply, is_filled};
ghost use Rattle.ps_lines.specs.Replies.{refusal_text};
ghost use Rattle.ps_session.specs.Inside.Stands.{CutsShort, GoesOn, Stands};
ghost use Rattle.ps_lines.specs.Feeding.{Holds, kept, without_return};
ghost use Rattle.ps_session.specs.Inside.Holds.{Replied, as_one};
ghost use Rattle.ps_grid.specs.declared.refusal.Refusal.TheVariants as refusals;

use crate::board::Board;
use crate::delivery::{AtOnce, Delivery};
use crate::keeper::Unkept;
use crate::obey::answer;
use crate::reading::converse;
use crate::resources::Resources;
use crate::telling::refuse;
use crate::tools::Tools;
use ps_device::{Failed, PIECE_BYTES, Sink, Source};
use ps_grid::Refusal;
use ps_lines::{Line, LineBuffer, Outcome, Unwatched, WAIT, Watcher, trimmed};
use std::alloc::Global;
use std::thread::Threads;

/// The state of a running session, without its board and its devices.
#[derive(Drop)]
pub(crate) struct Conversation<'a, R> {
    /// The tools that read and obey its lines.
    pub(crate) tools: Tools<'a, R>,
    /// The line that is being read.
    pub(crate) session: LineBuffer,
    /// The number of lines that had a reply; 2^64 - 1 stands for that number and more.
    pub(crate) answered: u64,
}

/// Answers a line that isn't too long, and counts its reply; an empty line has none.
fn answer_line<R: Threads + Sync, B: Board<M>, M, W: Watcher, K, D: Delivery<K>>(
    tools: &mut Tools<'_, R>,
    line: &[u8],
    answered: &mut u64,
    board: &mut B,
    meter: &mut M,
    watcher: &mut W,
    sink: &mut K,
) -> Result<(), Failed>
    ensures replied { Replied (λ old reply new. Replies (B.answers) old line.now reply new)
        board.old board.new (as_one (is_filled line.now))
        (D.contents sink.old) (D.contents sink.new) answered.old answered.new result }
    ensures calm { OnOk result (D.failures sink.new ≡ D.failures sink.old) }
    ensures failed { OnErr result (D.failures sink.old < D.failures sink.new) }
    ensures held { D.holds_back → HoldsBack (D.contents sink.old) (D.contents sink.new)
        (D.waiting sink.old) (D.waiting sink.new) }
{
    let count = *answered;
    if line.is_empty() {
        watcher.saw(line, Outcome::Answered);
        return Ok(());
    }
    match answer::<R, B, M, W, K, D>(tools, line, board, meter, watcher, sink) {
        Ok(()) => {}
        Err(failed) => return Err(failed),
    }
    *answered = count.saturating_add(1);
    Ok(())
}

/// Returns whether held-back replies of `held` bytes are released before the rest of a piece is taken in.
///
/// They are at `PIECE_BYTES` bytes, and if the next line is a `wait`: the peer gets them before the session waits.
#[inline(always)]
fn is_to_release(held: usize, rest: &[u8]) -> bool
    ensures some { result ≡ true → 0 < held }
    ensures ahead { 0 < held → starts_with nat_eq rest.now (codes "wait") ≡ true → result ≡ true }
{
    held >= PIECE_BYTES || held > 0 && rest.starts_with(WAIT.as_bytes())
}

impl<R: Threads + Sync> Conversation<'_, R> {
    /// Answers the line that has ended, which isn't too long; an empty line has no reply.
    fn answer<B: Board<M>, M, W: Watcher, K, D: Delivery<K>>(
        &mut self,
        board: &mut B,
        meter: &mut M,
        watcher: &mut W,
        sink: &mut K,
    ) -> Result<(), Failed>
        ensures replied { Replied
            (λ old reply new. Replies (B.answers) old (without_return self.old.session.line) reply new)
            board.old board.new (as_one (is_filled (without_return self.old.session.line)))
            (D.contents sink.old) (D.contents sink.new) self.old.answered self.new.answered result }
        ensures calm { OnOk result (D.failures sink.new ≡ D.failures sink.old) }
        ensures failed { OnErr result (D.failures sink.old < D.failures sink.new) }
        ensures held { D.holds_back → HoldsBack (D.contents sink.old) (D.contents sink.new)
            (D.waiting sink.old) (D.waiting sink.new) }
        ensures session { self.new.session ≡ self.old.session }
    {
        answer_line::<R, B, M, W, K, D>(
            &mut self.tools,
            self.session.line(),
            &mut self.answered,
            board,
            meter,
            watcher,
            sink,
        )
    }

    /// Refuses a line that is too long.
    fn refuse<W: Watcher, K, D: Delivery<K>>(
        &mut self,
        watcher: &mut W,
        sink: &mut K,
    ) -> Result<(), Failed>
        ensures sent { Sends (D.contents sink.old) (D.contents sink.new) result (refusal_text refusals.Line) }
        ensures counted { OnOk result (self.new.answered ≡ min (self.old.answered + 1) (2 ^ 64 - 1)) }
        ensures calm { OnOk result (D.failures sink.new ≡ D.failures sink.old) }
        ensures failed { OnErr result (D.failures sink.old < D.failures sink.new) }
        ensures held { D.holds_back → HoldsBack (D.contents sink.old) (D.contents sink.new)
            (D.waiting sink.old) (D.waiting sink.new) }
        ensures session { self.new.session ≡ self.old.session }
    {
        let count = self.answered;
        refuse::<W, K, D>(b"", Refusal::Line, watcher, sink)?;
        self.answered = count.saturating_add(1);
        Ok(())
    }

    /// Answers a line that has ended.
    fn close<B: Board<M>, M, W: Watcher, K, D: Delivery<K>>(
        &mut self,
        line: Line,
        board: &mut B,
        meter: &mut M,
        watcher: &mut W,
        sink: &mut K,
    ) -> Result<(), Failed>
        ensures replied { (raw : List ℕ) → Holds line self.old.session raw
            → Replied (λ old reply new. Lines B.answers old raw reply new) board.old board.new
            (as_one (has_reply raw)) (D.contents sink.old) (D.contents sink.new)
            self.old.answered self.new.answered result }
        ensures calm { OnOk result (D.failures sink.new ≡ D.failures sink.old) }
        ensures failed { OnErr result (D.failures sink.old < D.failures sink.new) }
        ensures held { D.holds_back → HoldsBack (D.contents sink.old) (D.contents sink.new)
            (D.waiting sink.old) (D.waiting sink.new) }
        ensures session { self.new.session ≡ self.old.session }
    {
        match line {
            Line::None => Ok(()),
            Line::Full => self.answer::<B, M, W, K, D>(board, meter, watcher, sink),
            Line::TooLong => self.refuse::<W, K, D>(watcher, sink),
        }
    }

    /// Takes in a piece up to its first line feed, and answers the line that ends there. Returns how many bytes it
    /// took.
    #[inline(never)]
    fn turn_in_parts<B: Board<M>, M, W: Watcher, K, D: Delivery<K>>(
        &mut self,
        piece: &[u8],
        board: &mut B,
        meter: &mut M,
        watcher: &mut W,
        sink: &mut K,
    ) -> Result<usize, Failed>
        requires some { 0 < length piece.now }
        ensures within { IfOk result (λ taken. (0 < taken) × (taken ≤ length piece.now)) }
        ensures stands { IfOk result (λ taken. GoesOn (Lines B.answers) (take taken piece.now)
            board.old self.old.session.pending (D.contents sink.old) self.old.answered
            board.new self.new.session.pending (D.contents sink.new) self.new.answered) }
        ensures cut { OnErr result (CutsShort (Lines B.answers) piece.now
            board.old self.old.session.pending (D.contents sink.old) self.old.answered
            board.new (D.contents sink.new)) }
        ensures calm { OnOk result (D.failures sink.new ≡ D.failures sink.old) }
        ensures failed { OnErr result (D.failures sink.old < D.failures sink.new) }
        ensures held { D.holds_back → HoldsBack (D.contents sink.old) (D.contents sink.new)
            (D.waiting sink.old) (D.waiting sink.new) }
    {
        let fed = self.session.feed(piece);
        self.tools.is_last = fed.taken == piece.len();
        match fed.line {
            Line::None => {}
            line => self.close::<B, M, W, K, D>(line, board, meter, watcher, sink)?,
        }
        Ok(fed.taken)
    }

    /// Takes in a piece up to its first line feed, and answers the line that ends there. Returns how many bytes it
    /// took. A line that lies whole in the piece isn't copied.
    fn turn<B: Board<M>, M, W: Watcher, K, D: Delivery<K>>(
        &mut self,
        piece: &[u8],
        board: &mut B,
        meter: &mut M,
        watcher: &mut W,
        sink: &mut K,
    ) -> Result<usize, Failed>
        requires some { 0 < length piece.now }
        ensures within { IfOk result (λ taken. (0 < taken) × (taken ≤ length piece.now)) }
        ensures stands { IfOk result (λ taken. GoesOn (Lines B.answers) (take taken piece.now)
            board.old self.old.session.pending (D.contents sink.old) self.old.answered
            board.new self.new.session.pending (D.contents sink.new) self.new.answered) }
        ensures cut { OnErr result (CutsShort (Lines B.answers) piece.now
            board.old self.old.session.pending (D.contents sink.old) self.old.answered
            board.new (D.contents sink.new)) }
        ensures calm { OnOk result (D.failures sink.new ≡ D.failures sink.old) }
        ensures failed { OnErr result (D.failures sink.old < D.failures sink.new) }
        ensures held { D.holds_back → HoldsBack (D.contents sink.old) (D.contents sink.new)
            (D.waiting sink.old) (D.waiting sink.new) }
    {
        let Some(place) = self.session.whole_line(piece) else {
            return self.turn_in_parts::<B, M, W, K, D>(piece, board, meter, watcher, sink);
        };
        self.tools.is_last = place + 1 == piece.len();
        answer_line::<R, B, M, W, K, D>(
            &mut self.tools,
            trimmed(&piece[..place]),
            &mut self.answered,
            board,
            meter,
            watcher,
            sink,
        )?;
        Ok(place + 1)
    }

    /// Takes in a piece, answers each line that ends in it, and returns how many bytes it took.
    ///
    /// It stops at the end of the piece, once `PIECE_BYTES` bytes of replies are held back, or before a line `wait` if
    /// any are.
    pub(crate) fn answer_piece<B: Board<M>, M, W: Watcher, K, D: Delivery<K>>(
        &mut self,
        piece: &[u8],
        board: &mut B,
        meter: &mut M,
        watcher: &mut W,
        sink: &mut K,
    ) -> Result<usize, Failed>
        requires some { 0 < length piece.now }
        ensures within { IfOk result (λ taken. (0 < taken) × (taken ≤ length piece.now)) }
        ensures part { IfOk result (λ taken. taken < length piece.now → D.holds_back) }
        ensures stands { IfOk result (λ taken. GoesOn (Lines B.answers) (take taken piece.now)
            board.old self.old.session.pending (D.contents sink.old) self.old.answered
            board.new self.new.session.pending (D.contents sink.new) self.new.answered) }
        ensures cut { OnErr result (CutsShort (Lines B.answers) piece.now
            board.old self.old.session.pending (D.contents sink.old) self.old.answered
            board.new (D.contents sink.new)) }
        ensures calm { OnOk result (D.failures sink.new ≡ D.failures sink.old) }
        ensures failed { OnErr result (D.failures sink.old < D.failures sink.new) }
        ensures held { D.holds_back → HoldsBack (D.contents sink.old) (D.contents sink.new)
            (D.waiting sink.old) (D.waiting sink.new) }
    {
        let mut start = 0;
        'turns: while start < piece.len() {
            start += self.turn::<B, M, W, K, D>(&piece[start..], board, meter, watcher, sink)?;
            if is_to_release(D::waits(sink), &piece[start..]) {
                return Ok(start);
            }
        }
        Ok(start)
    }

    /// Answers what remains at the end of the input, if it is a line.
    pub(crate) fn finish<B: Board<M>, M, W: Watcher, K, D: Delivery<K>>(
        &mut self,
        board: &mut B,
        meter: &mut M,
        watcher: &mut W,
        sink: &mut K,
    ) -> Result<(), Failed>
        ensures transcribed { OnOk result ((first : B) (written : Option (List ℕ)) (read : List ℕ)
            → Stands (Lines B.answers) first written 0 read
            board.old self.old.session.pending (D.contents sink.old) self.old.answered
            → Transcribed (Lines B.answers) first written read board.new (D.contents sink.new) self.new.answered) }
        ensures cut { OnErr result ((first : B) (written : Option (List ℕ)) (read : List ℕ)
            → Stands (Lines B.answers) first written 0 read
            board.old self.old.session.pending (D.contents sink.old) self.old.answered
            → Cut (Lines B.answers) ⊤ first written read board.new (D.contents sink.new)) }
        ensures ran { (rest : List ℕ) → self.old.session.pending ≡ kept rest
            → (text : List ℕ) × Run (Lines B.answers) board.old (with_last [] rest) text board.new }
        ensures calm { OnOk result (D.failures sink.new ≡ D.failures sink.old) }
        ensures failed { OnErr result (D.failures sink.old < D.failures sink.new) }
        ensures held { D.holds_back → HoldsBack (D.contents sink.old) (D.contents sink.new)
            (D.waiting sink.old) (D.waiting sink.new) }
    {
        // nothing more is read, so nobody has to wait
        self.tools.is_last = false;
        match self.session.end() {
            Line::None => {}
            line => self.close::<B, M, W, K, D>(line, board, meter, watcher, sink)?,
        }
        Ok(())
    }
}

/// Why a session failed.
#[derive(Clone, Copy, PartialEq, Eq)]
pub enum RunFault {
    /// Allocation of the buffer for a line failed; nothing was read.
    Memory,
    /// The source failed.
    Source,
    /// The sink failed.
    Sink,
    /// The keeper couldn't keep what the session has seen; nothing more is sent.
    Keep,
}

/// Answers each line of a source on a sink, to the end of the input, and returns how many lines had a reply.
///
/// A result of 2^64 - 1 means that number or more. `talk` is [`converse`] without watcher and keeper. The sink may send
/// replies at any time. Before each read and at the end, `talk` sends all replies.
///
/// Cost: that of [`converse`].
pub fn talk<R: Threads + Sync, S: Source, B: Board<M>, M, K: Sink>(
    rt: &R,
    alloc: Global,
    source: &mut S,
    sink: &mut K,
    board: &mut B,
    meter: &mut M,
) -> Result<u64, RunFault>
    ensures transcribed { IfOk result (λ answered. (read : List ℕ)
        × Consumes (S.remaining source.old) (S.remaining source.new) read
        × IsAtEnd (S.remaining source.new)
        × Transcribed (Lines B.answers) board.old (K.contents sink.old) read board.new (K.contents sink.new)
        answered) }
    ensures sink { result ≡ Err RunFault.Sink
        → (read : List ℕ) × Consumes (S.remaining source.old) (S.remaining source.new) read
        × Stopped (Lines B.answers) (IsAtEnd (S.remaining source.new)) board.old (K.contents sink.old) read
        board.new (K.contents sink.new) }
    ensures source { result ≡ Err RunFault.Source
        → (read : List ℕ) × Consumes (S.remaining source.old) (S.remaining source.new) read
        × Answered (Lines B.answers) board.old (K.contents sink.old) read board.new (K.contents sink.new) }
    ensures keep { result ≢ Err RunFault.Keep }
    ensures flushed { OnOk result (K.waiting sink.new ≡ []) }
    ensures source_flushed { result ≡ Err RunFault.Source → K.waiting sink.new ≡ [] }
    ensures memory { result ≡ Err RunFault.Memory
        → (source.new ≡ source.old) × (sink.new ≡ sink.old) × (board.new ≡ board.old) }
    ensures calm { OnOk result ((S.failures source.new ≡ S.failures source.old)
        × (K.failures sink.new ≡ K.failures sink.old)) }
    ensures sink_failed { result ≡ Err RunFault.Sink → K.failures sink.old < K.failures sink.new }
    ensures source_failed { result ≡ Err RunFault.Source → S.failures source.old < S.failures source.new }
{
    converse::<R, S, B, M, Unwatched, K, AtOnce, Unkept>(
        Resources { threads: rt, alloc },
        source,
        sink,
        board,
        meter,
        &mut Unwatched,
        &mut Unkept,
    )
}
