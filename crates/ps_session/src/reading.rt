//! Reads a source to its end, and syncs what a session has seen before replies are sent.
ghost use Rattle.std.specs.Prelude.{◌≡◌, ◌≢◌, ◌⊎◌, [], ◌<◌, ◌≤◌, ◌++◌, ◌+◌, ◌-◌, ◌^◌, ℕ, List, Option, Result, Some};
ghost use Rattle.std.specs.Prelude.{Ok, Err, IfOk, IsErr, OnOk, OnErr, length, take};
ghost use Rattle.std.specs.Io.KnownBytes.{Consumes, IsAtEnd, Keeps};
ghost use Rattle.ps_session.specs.Transcript.{Answered, Stopped, Transcribed};
ghost use Rattle.ps_lines.specs.Streams.{Lines};
ghost use Rattle.ps_session.specs.Keeping.{Halted, IsCovered, StaysFit};
ghost use Rattle.ps_session.specs.Inside.Stands.{Breaks, GoesOn, IsUnderWay, Stands};

use crate::board::Board;
use crate::delivery::Delivery;
use crate::keeper::Keeper;
use crate::resources::Resources;
use crate::tools::Tools;
use crate::transcript::{Conversation, RunFault};
use ps_device::{PIECE_BYTES, Source};
use ps_lines::{LineBuffer, Watcher};
use ps_wire::Decoder;
use std::alloc::{AllocError, Global};
use std::thread::Threads;

/// Syncs the keeper with the board, and then sends the waiting replies. So whatever a reply reports is kept before the
/// reply is out.
fn release<B: Board<M>, M, K, D: Delivery<K>, Q: Keeper<B>>(
    alloc: Global,
    keeper: &mut Q,
    board: &mut B,
    sink: &mut K,
) -> Result<(), RunFault>
    requires fits { Q.fits keeper.old board.old }
    ensures same_board { board.new ≡ board.old }
    ensures fits { OnOk result (Q.fits keeper.new board.new) }
    ensures covered { result ≢ Err RunFault.Keep → Q.covers keeper.new board.new }
    ensures stays { (state : B) → Q.covers keeper.old state → Q.covers keeper.new state }
    ensures flushed { OnOk result (D.waiting sink.new ≡ []) }
    ensures same { Keeps (D.contents sink.old) (D.contents sink.new) }
    ensures keep { result ≡ Err RunFault.Keep → Q.can_fail × (sink.new ≡ sink.old) }
    ensures calm { OnOk result (D.failures sink.new ≡ D.failures sink.old) }
    ensures sink_failed { result ≡ Err RunFault.Sink → D.failures sink.old < D.failures sink.new }
    ensures faults { (result ≢ Err RunFault.Memory) × (result ≢ Err RunFault.Source) }
{
    match keeper.sync(alloc, board) {
        Ok(()) => {}
        Err(_) => return Err(RunFault::Keep),
    }
    match D::flush(sink) {
        Ok(()) => Ok(()),
        Err(_) => Err(RunFault::Sink),
    }
}

/// Answers each line that ends in a piece.
///
/// It releases held-back replies once `PIECE_BYTES` bytes of them wait, before a line `wait`, and at the end.
fn read_piece<R: Threads + Sync, B: Board<M>, M, W: Watcher, K, D: Delivery<K>, Q: Keeper<B>>(
    conversation: &mut Conversation<R>,
    piece: &[u8],
    board: &mut B,
    meter: &mut M,
    watcher: &mut W,
    sink: &mut K,
    keeper: &mut Q,
) -> Result<(), RunFault>
    requires fits { Q.fits keeper.old board.old }
    requires covers { Q.covers keeper.old board.old }
    requires flushed { D.waiting sink.old ≡ [] }
    requires stays { StaysFit (B.answers) Q.fits }
    requires under_way { IsUnderWay (Lines B.answers) board.old conversation.old.session.pending
        (D.contents sink.old) conversation.old.answered }
    ensures stands { OnOk result (GoesOn (Lines B.answers) piece.now
        board.old conversation.old.session.pending (D.contents sink.old) conversation.old.answered
        board.new conversation.new.session.pending (D.contents sink.new) conversation.new.answered) }
    ensures kept { OnOk result (Q.fits keeper.new board.new × Q.covers keeper.new board.new
        × (D.waiting sink.new ≡ [])) }
    ensures sink { result ≡ Err RunFault.Sink → (first : B) (written : Option (List ℕ)) (read : List ℕ)
        → Stands (Lines B.answers) first written 0 read
        board.old conversation.old.session.pending (D.contents sink.old) conversation.old.answered
        → Breaks (Lines B.answers) D.holds_back first written (read ++ piece.now)
        board.new (D.contents sink.new) }
    ensures keep { result ≡ Err RunFault.Keep → Q.can_fail × ((first : B) (written : Option (List ℕ)) (read : List ℕ)
        → Stands (Lines B.answers) first written 0 read
        board.old conversation.old.session.pending (D.contents sink.old) conversation.old.answered
        → Halted (Lines B.answers) ⊥ first written (read ++ piece.now) board.new (D.contents sink.new)) }
    ensures covered { IsErr result → D.holds_back → (first : B) (written : Option (List ℕ)) (read : List ℕ)
        → Stands (Lines B.answers) first written 0 read
        board.old conversation.old.session.pending (D.contents sink.old) conversation.old.answered
        → IsCovered (Lines B.answers) (Q.covers keeper.new) ⊥ first written (read ++ piece.now)
        board.new (D.contents sink.new) (D.waiting sink.new) }
    ensures calm { OnOk result (D.failures sink.new ≡ D.failures sink.old) }
    ensures sink_failed { result ≡ Err RunFault.Sink → D.failures sink.old < D.failures sink.new }
    ensures faults { (result ≢ Err RunFault.Memory) × (result ≢ Err RunFault.Source) }
{
    let mut start = 0;
    'parts: while start < piece.len() {
        match conversation.answer_piece::<B, M, W, K, D>(
            &piece[start..],
            board,
            meter,
            watcher,
            sink,
        ) {
            Ok(taken) => start += taken,
            Err(_) => return Err(RunFault::Sink),
        }
        release::<B, M, K, D, Q>(conversation.tools.resources.alloc, keeper, board, sink)?;
    }
    Ok(())
}

/// Reads the source to its end, and answers each line that ends in it. It releases waiting replies before each read.
fn read_on<
    R: Threads + Sync,
    S: Source,
    B: Board<M>,
    M,
    W: Watcher,
    K,
    D: Delivery<K>,
    Q: Keeper<B>,
>(
    conversation: &mut Conversation<R>,
    source: &mut S,
    board: &mut B,
    meter: &mut M,
    watcher: &mut W,
    sink: &mut K,
    keeper: &mut Q,
) -> Result<(), RunFault>
    requires fresh { (conversation.old.session.pending ≡ Some []) × (conversation.old.answered ≡ 0) }
    requires fits { Q.fits keeper.old board.old }
    requires stays { StaysFit (B.answers) Q.fits }
    ensures read { OnOk result ((read : List ℕ)
        × Consumes (S.remaining source.old) (S.remaining source.new) read × IsAtEnd (S.remaining source.new)
        × Stands (Lines B.answers) board.old (D.contents sink.old) 0 read
        board.new conversation.new.session.pending (D.contents sink.new) conversation.new.answered) }
    ensures kept { OnOk result (Q.fits keeper.new board.new × Q.covers keeper.new board.new
        × (D.waiting sink.new ≡ [])) }
    ensures sink { result ≡ Err RunFault.Sink
        → (read : List ℕ) × Consumes (S.remaining source.old) (S.remaining source.new) read
        × Breaks (Lines B.answers) D.holds_back board.old (D.contents sink.old) read
        board.new (D.contents sink.new) }
    ensures source { result ≡ Err RunFault.Source
        → (read : List ℕ) × Consumes (S.remaining source.old) (S.remaining source.new) read
        × Answered (Lines B.answers) board.old (D.contents sink.old) read board.new (D.contents sink.new) }
    ensures source_flushed { result ≡ Err RunFault.Source
        → (D.waiting sink.new ≡ []) × Q.covers keeper.new board.new }
    ensures keep { result ≡ Err RunFault.Keep → Q.can_fail
        × (read : List ℕ) × Consumes (S.remaining source.old) (S.remaining source.new) read
        × Halted (Lines B.answers) ⊥ board.old (D.contents sink.old) read board.new (D.contents sink.new) }
    ensures covered { IsErr result → D.holds_back
        → (read : List ℕ) × Consumes (S.remaining source.old) (S.remaining source.new) read
        × IsCovered (Lines B.answers) (Q.covers keeper.new) ⊥ board.old (D.contents sink.old) read
        board.new (D.contents sink.new) (D.waiting sink.new) }
    ensures memory { result ≢ Err RunFault.Memory }
    ensures calm { OnOk result ((S.failures source.new ≡ S.failures source.old)
        × (D.failures sink.new ≡ D.failures sink.old)) }
    ensures sink_failed { result ≡ Err RunFault.Sink → D.failures sink.old < D.failures sink.new }
    ensures source_failed { result ≡ Err RunFault.Source → S.failures source.old < S.failures source.new }
{
    release::<B, M, K, D, Q>(conversation.tools.resources.alloc, keeper, board, sink)?;
    let mut piece = [0u8; PIECE_BYTES];
    'pieces: loop {
        let count = match source.take(&mut piece) {
            Ok(count) => count,
            Err(_) => return Err(RunFault::Source),
        };
        if count == 0 {
            return Ok(());
        }
        read_piece::<R, B, M, W, K, D, Q>(
            conversation,
            &piece[..count],
            board,
            meter,
            watcher,
            sink,
            keeper,
        )?;
    }
}

/// Answers each line of a source from a board, to the end of the input, and returns how many lines had a reply.
///
/// A result of 2^64 - 1 means that number or more. The watcher sees each line after the line was carried out, and
/// before its reply is written. A line whose reply can't be written was carried out all the same.
///
/// The input is read in pieces of at most `PIECE_BYTES` bytes, and a line may lie in several pieces. Before each read
/// and at the end, `converse` syncs the keeper with the board, and then sends all replies.
///
/// If replies are [`HeldBack`](crate::HeldBack), it also syncs and sends once `PIECE_BYTES` bytes of replies wait, and
/// before a line `wait`. It sends no reply at another time, and none after a sync or the sink failed. So however the
/// session ends, all changes that the sent replies show or acknowledge are kept. Under [`AtOnce`](crate::AtOnce), a
/// reply may be sent before the sync.
///
/// Cost: O(n) in the n bytes of the input and the replies. In addition: what the board takes for each line, the memory
/// of one line and of the replies that wait, a decoder, the watcher's work, and a sync each time that replies are sent.
pub fn converse<
    R: Threads + Sync,
    S: Source,
    B: Board<M>,
    M,
    W: Watcher,
    K,
    D: Delivery<K>,
    Q: Keeper<B>,
>(
    resources: Resources<'_, R>,
    source: &mut S,
    sink: &mut K,
    board: &mut B,
    meter: &mut M,
    watcher: &mut W,
    keeper: &mut Q,
) -> Result<u64, RunFault>
    requires fits { Q.fits keeper.old board.old }
    requires stays { StaysFit (B.answers) Q.fits }
    ensures transcribed { IfOk result (λ answered. (read : List ℕ)
        × Consumes (S.remaining source.old) (S.remaining source.new) read
        × IsAtEnd (S.remaining source.new)
        × Transcribed (Lines B.answers) board.old (D.contents sink.old) read board.new (D.contents sink.new)
        answered) }
    ensures sink { result ≡ Err RunFault.Sink
        → (read : List ℕ) × Consumes (S.remaining source.old) (S.remaining source.new) read
        × (Stopped (Lines B.answers) (IsAtEnd (S.remaining source.new)) board.old (D.contents sink.old) read
        board.new (D.contents sink.new)
        ⊎ (D.holds_back × Halted (Lines B.answers) (IsAtEnd (S.remaining source.new)) board.old
        (D.contents sink.old) read board.new (D.contents sink.new))) }
    ensures source { result ≡ Err RunFault.Source
        → (read : List ℕ) × Consumes (S.remaining source.old) (S.remaining source.new) read
        × Answered (Lines B.answers) board.old (D.contents sink.old) read board.new (D.contents sink.new) }
    ensures keep { result ≡ Err RunFault.Keep → Q.can_fail
        × (read : List ℕ) × Consumes (S.remaining source.old) (S.remaining source.new) read
        × Halted (Lines B.answers) (IsAtEnd (S.remaining source.new)) board.old (D.contents sink.old) read
        board.new (D.contents sink.new) }
    ensures covered { D.holds_back
        → (read : List ℕ) × Consumes (S.remaining source.old) (S.remaining source.new) read
        × IsCovered (Lines B.answers) (Q.covers keeper.new) (IsAtEnd (S.remaining source.new))
        board.old (D.contents sink.old) read board.new (D.contents sink.new) (D.waiting sink.new) }
    ensures kept { OnOk result (Q.covers keeper.new board.new × Q.fits keeper.new board.new) }
    ensures source_kept { result ≡ Err RunFault.Source → Q.covers keeper.new board.new }
    ensures flushed { OnOk result (D.waiting sink.new ≡ []) }
    ensures source_flushed { result ≡ Err RunFault.Source → D.waiting sink.new ≡ [] }
    ensures memory { result ≡ Err RunFault.Memory → (source.new ≡ source.old) × (sink.new ≡ sink.old)
        × (board.new ≡ board.old) × (keeper.new ≡ keeper.old) }
    ensures calm { OnOk result ((S.failures source.new ≡ S.failures source.old)
        × (D.failures sink.new ≡ D.failures sink.old)) }
    ensures sink_failed { result ≡ Err RunFault.Sink → D.failures sink.old < D.failures sink.new }
    ensures source_failed { result ≡ Err RunFault.Source → S.failures source.old < S.failures source.new }
{
    let session = match LineBuffer::new(resources.alloc) {
        Ok(session) => session,
        Err(AllocError) => return Err(RunFault::Memory),
    };
    let mut conversation = Conversation {
        tools: Tools {
            resources,
            decoder: Decoder::new(resources.alloc),
            is_last: true,
        },
        session,
        answered: 0,
    };
    read_on::<R, S, B, M, W, K, D, Q>(
        &mut conversation,
        source,
        board,
        meter,
        watcher,
        sink,
        keeper,
    )?;
    match conversation.finish::<B, M, W, K, D>(board, meter, watcher, sink) {
        Ok(()) => {}
        Err(_) => return Err(RunFault::Sink),
    }
    release::<B, M, K, D, Q>(resources.alloc, keeper, board, sink)?;
    Ok(conversation.answered)
}
