//! Runs one session at a desk, over any source and sink.
ghost use Rattle.std.specs.Prelude.{◌≡◌, ◌≢◌, ◌⊎◌, ◌<◌, ℕ, List, [], Err, IfOk, OnOk};
ghost use Rattle.std.specs.Io.KnownBytes.{Consumes, IsAtEnd};
ghost use mathlib.Core.List.{IsPrefix};
ghost use Rattle.ps_session.specs.HeldOutputs.{held_contents, held_failures, held_waiting};
ghost use Rattle.ps_session.specs.Keeping.{Halted, IsCovered};
ghost use Rattle.ps_session.specs.Transcript.{Answered, Stopped, Transcribed};
ghost use Rattle.ps_desk.specs.Seats.{SeatLines};
ghost use Rattle.ps_server.specs.Sessions.{IsAttended};

use ps_desk::{Desk, DeskName, Pass, Presence, Seat, ShownPosition};
use ps_device::{Sink, Source};
use ps_eval::Meter;
use ps_keep::Device;
use ps_kept_desk::{DeskKeeper, DurablePosition, SessionKeeper};
use ps_lines::{Unwatched, Watcher};
use ps_session::{HeldBack, HeldOutput, Resources, RunFault, converse};
use std::sync::Wait;
use std::sync::ledger::Ledger;
use std::thread::Threads;
use std::time::Clock;

/// The outcome of a session at a desk. `K` is the type of the token `covered`.
#[derive(Drop)]
pub struct Attended<L: DeskName, K> {
    /// The session's pass, as its lines left it.
    pub pass: Pass<L>,
    /// The token which proves that all sessions see the changes that the sent replies report. A token of
    /// [`attend_kept`] also proves that these changes are durable.
    pub covered: K,
    /// The number of lines that had a reply, or why the session ended before the end of its input.
    pub ended: Result<u64, RunFault>,
}

/// A desk, with the pass and the peer of a session that begins at this desk.
#[derive(Drop)]
pub struct DeskSession<'a, L: DeskName, W: Wait + Drop> {
    /// The desk.
    pub desk: &'a Desk<L, W>,
    /// The pass of the session's slot.
    pub pass: Pass<L>,
    /// The peer of the session.
    pub presence: Presence<'a>,
}

/// Runs a session at a desk: answers each line of `source` on `sink`, to the end of the input or the first fault.
/// Returns the session's outcome.
///
/// Before a reply is sent, all sessions can see each change that this session has seen, whichever session made it.
///
/// However the session ends, `IsCovered` holds: there is a state of the session's `Seat`, between two lines, whose
/// list of patches is a beginning of the list that all sessions see. The sent replies are those to the lines before
/// this state. If contracts see the bytes of `source` and `sink`, the bytes read and written are the transcript of a
/// session at the desk.
///
/// Cost: that of [`converse`].
pub fn attend_lines<
    L: DeskName,
    W: Wait + Drop,
    R: Threads + Wait + Clock + Sync,
    S: Source,
    K: Sink + Drop,
    N: Ledger,
    M: Ledger,
>(
    resources: Resources<'_, R>,
    source: &mut S,
    sink: &mut HeldOutput<K, N>,
    at: DeskSession<'_, L, W>,
    meter: &mut Meter<M>,
) -> Attended<L, ShownPosition<L>>
    ensures transcribed { IfOk result.ended (λ answered. (read : List ℕ)
        × Consumes (S.remaining source.old) (S.remaining source.new) read
        × IsAtEnd (S.remaining source.new)
        × Transcribed (SeatLines L.replica L.opening) at.entry.pass (held_contents K.contents sink.old) read
        result.pass (held_contents K.contents sink.new) answered) }
    ensures sink { result.ended ≡ Err RunFault.Sink
        → (read : List ℕ) × Consumes (S.remaining source.old) (S.remaining source.new) read
        × (Stopped (SeatLines L.replica L.opening) (IsAtEnd (S.remaining source.new))
        at.entry.pass (held_contents K.contents sink.old) read result.pass (held_contents K.contents sink.new)
        ⊎ Halted (SeatLines L.replica L.opening) (IsAtEnd (S.remaining source.new))
        at.entry.pass (held_contents K.contents sink.old) read result.pass (held_contents K.contents sink.new)) }
    ensures source { result.ended ≡ Err RunFault.Source
        → (read : List ℕ) × Consumes (S.remaining source.old) (S.remaining source.new) read
        × Answered (SeatLines L.replica L.opening) at.entry.pass (held_contents K.contents sink.old) read
        result.pass (held_contents K.contents sink.new) }
    ensures covered { (read : List ℕ) × Consumes (S.remaining source.old) (S.remaining source.new) read
        × IsCovered (SeatLines L.replica L.opening) (λ seen. IsPrefix seen.list result.covered)
        (IsAtEnd (S.remaining source.new)) at.entry.pass (held_contents K.contents sink.old) read
        result.pass (held_contents K.contents sink.new) (held_waiting K.waiting sink.new) }
    ensures shown { OnOk result.ended (IsPrefix result.pass.list result.covered) }
    ensures keep { result.ended ≢ Err RunFault.Keep }
    ensures memory { result.ended ≡ Err RunFault.Memory
        → (source.new ≡ source.old) × (sink.new ≡ sink.old) × (result.pass ≡ at.entry.pass) }
    ensures flushed { OnOk result.ended (held_waiting K.waiting sink.new ≡ []) }
    ensures source_flushed { result.ended ≡ Err RunFault.Source → held_waiting K.waiting sink.new ≡ [] }
    ensures calm { OnOk result.ended ((S.failures source.new ≡ S.failures source.old)
        × (held_failures sink.new ≡ held_failures sink.old)) }
    ensures sink_failed { result.ended ≡ Err RunFault.Sink → held_failures sink.old < held_failures sink.new }
    ensures source_failed { result.ended ≡ Err RunFault.Source → S.failures source.old < S.failures source.new }
    ensures attended { IsAttended L.replica L.opening at.entry.pass result.pass }
{
    let DeskSession {
        desk,
        pass,
        presence,
    } = at;
    let mut seat = Seat::new(desk, resources.threads, pass, presence);
    let mut shown = seat.leave_to_keeper();
    let ended = converse::<
        R,
        S,
        Seat<'_, L, W, R>,
        Meter<M>,
        Unwatched,
        HeldOutput<K, N>,
        HeldBack,
        ShownPosition<L>,
    >(
        resources,
        source,
        sink,
        &mut seat,
        meter,
        &mut Unwatched,
        &mut shown,
    );
    let (pass, _) = seat.leave();
    Attended {
        pass,
        covered: shown,
        ended,
    }
}

/// The desk, pass and peer of a session that begins, with the keeper that makes the desk's changes durable.
#[derive(Drop)]
pub struct KeptSession<'a, L: DeskName, W: Wait + Drop, D: Device + Drop> {
    /// The desk, and the session's pass and peer.
    pub session: DeskSession<'a, L, W>,
    /// The keeper that was made for the desk.
    pub keeper: &'a DeskKeeper<L, D>,
}

/// Runs a session at a desk with a keeper: answers each line of `source` on `sink`, to the end of the input or the
/// first fault. Returns the session's outcome. `watcher` sees each line and its outcome.
///
/// Before a reply is sent, each change that this session has seen is durable, and all sessions can see the change,
/// whichever session made it.
///
/// However the session ends, `IsCovered` holds: there is a state of the session's `Seat`, between two lines, whose
/// list of patches is a beginning of the durable list. The sent replies are those to the lines before this state.
///
/// Cost: that of [`converse`]. The call may wait while another session syncs.
pub fn attend_kept<
    L: DeskName,
    W: Wait + Drop,
    R: Threads + Wait + Clock + Sync,
    S: Source,
    K: Sink + Drop,
    N: Ledger,
    M: Ledger,
    D: Device + Drop,
    V: Watcher,
>(
    resources: Resources<'_, R>,
    source: &mut S,
    sink: &mut HeldOutput<K, N>,
    at: KeptSession<'_, L, W, D>,
    meter: &mut Meter<M>,
    watcher: &mut V,
) -> Attended<L, DurablePosition<L>>
    ensures covered { (read : List ℕ) × Consumes (S.remaining source.old) (S.remaining source.new) read
        × IsCovered (SeatLines L.replica L.opening) (λ seen. IsPrefix seen.list result.covered)
        (IsAtEnd (S.remaining source.new)) at.entry.session.pass (held_contents K.contents sink.old) read
        result.pass (held_contents K.contents sink.new) (held_waiting K.waiting sink.new) }
    ensures kept { OnOk result.ended (IsPrefix result.pass.list result.covered) }
    ensures flushed { OnOk result.ended (held_waiting K.waiting sink.new ≡ []) }
    ensures attended { IsAttended L.replica L.opening at.entry.session.pass result.pass }
{
    let KeptSession {
        session: DeskSession {
            desk,
            pass,
            presence,
        },
        keeper,
    } = at;
    let mut seat = Seat::new(desk, resources.threads, pass, presence);
    let _ = seat.leave_to_keeper();
    let mut own = SessionKeeper::new(keeper, desk, resources.threads);
    let ended = converse::<
        R,
        S,
        Seat<'_, L, W, R>,
        Meter<M>,
        V,
        HeldOutput<K, N>,
        HeldBack,
        SessionKeeper<'_, L, W, D, R>,
    >(resources, source, sink, &mut seat, meter, watcher, &mut own);
    Attended {
        pass: seat.leave().0,
        covered: own.leave(),
        ended,
    }
}
