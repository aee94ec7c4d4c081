//! Runs one session over a connection, of lines or of a WebSocket.
ghost use Rattle.std.specs.Prelude.{◌≡◌, ℕ, List, Err, IfSome, IsSome, IsSomeAnd, OnOk};
ghost use Rattle.std.specs.Io.KnownBytes.{Consumes, IsAtEnd};
ghost use mathlib.Core.List.{IsPrefix};
ghost use Rattle.ps_grid.specs.Blanks.{IsBlankOf};
ghost use Rattle.ps_session.specs.HeldOutputs.{held_contents, held_waiting};
ghost use Rattle.ps_session.specs.Keeping.{IsCovered};
ghost use Rattle.ps_desk.specs.Seats.{SeatLines};
ghost use Rattle.ps_server.specs.Sessions.{IsAttended};

use crate::arrival::{Arrival, Speech};
use crate::connection::{Attended, DeskSession, KeptSession, attend_kept, attend_lines};
use crate::counts::Counts;
use crate::guard::resume;
use crate::line_stream::LineStream;
use crate::shared::SharedState;
use ps_desk::{Desk, DeskName, Pass, Presence, Watch};
use ps_device::{PIECE_BYTES, Sink, Source, Writing};
use ps_eval::Meter;
use ps_keep::Device;
use ps_kept_desk::DurablePosition;
use ps_lines::LINE_LIMIT;
use ps_page::{BrowserStream, MessageSink, MessageSource, drain};
use ps_session::{HeldOutput, Resources, RunFault};
use std::marker::Brand;
use std::net::{Shutdown, TcpStream};
use std::sync::Wait;
use std::sync::ledger::{Blank, Ledger};
use std::thread::Threads;
use std::time::{Clock, Duration};

/// The bytes that a session reserves at its start for replies: for those that are held back until they may be sent, and
/// for one more that is no longer.
const ROOM: usize = 2 * PIECE_BYTES;

/// How long a browser's unread input is read after its session has ended, in milliseconds. Otherwise the browser may
/// lose the reason of the end. The session's slot stays taken meanwhile.
const DRAIN: u64 = 1;

/// The outcome of a server's session. With a keeper it has the token that all that the session sent is durable.
pub(crate) type SessionEnd<L> = Attended<L, Option<DurablePosition<L>>>;

/// Answers each line of a connection at a slot of a desk, to the end of its input.
///
/// Once a reply is sent, all sessions can see the changes that it reports. With a keeper, these changes are durable,
/// too.
///
/// The session ends early if the connection fails. If there is no memory for its replies at the start, it ends without
/// reading a line. If what it has seen can't be made durable, it stops all sessions.
pub(crate) fn attend<
    L: DeskName,
    W: Wait + Drop,
    R: Threads + Wait + Clock + Sync,
    D: Device + Drop,
>(
    resources: Resources<'_, R>,
    desk: &Desk<L, W>,
    pass: Pass<L>,
    shared: &SharedState<L, D>,
    arrival: &Arrival,
    idle: Option<Duration>,
    watch: Option<Watch<'_>>,
) -> SessionEnd<L>
    ensures attended { IsAttended L.replica L.opening pass result.pass }
    ensures kept { IsSome shared.now.keeper
        → OnOk result.ended (IsSomeAnd result.covered (λ position. IsPrefix result.pass.list position)) }
{
    let Arrival { stream, speech } = arrival;
    let presence = Presence::of(stream).watched_by(watch);
    let at = DeskSession {
        desk,
        pass,
        presence,
    };
    let counts = Counts::new();
    let end = match speech {
        Speech::Lines(front) => attend_lines_of::<L, W, R, D, Brand, Brand, Brand, Brand>(
            resources,
            at,
            shared,
            front.as_slice(),
            LineStream::new(front.as_slice(), stream, idle),
            counts,
        ),
        Speech::Messages => {
            let browser = Browser { stream, idle };
            let end = attend_browser::<L, W, R, D, Brand, Brand, Brand, Brand>(
                resources, at, shared, browser, counts,
            );
            drain(resources.threads, stream, Duration::from_millis(DRAIN));
            end
        }
    };
    // the slot's handle to the connection would keep it open
    let _ = stream.shutdown(Shutdown::Both);
    end
}

/// The connection of a browser, and how long the browser may be silent.
#[derive(Clone, Copy)]
struct Browser<'a> {
    stream: &'a TcpStream,
    idle: Option<Duration>,
}

/// Answers each line of a connection whose first bytes, `front`, were read already. `counts` counts failures of the
/// connection and evaluations.
fn attend_lines_of<
    L: DeskName,
    W: Wait + Drop,
    R: Threads + Wait + Clock + Sync,
    D: Device + Drop,
    I: Ledger,
    O: Ledger,
    N: Ledger,
    M: Ledger,
>(
    resources: Resources<'_, R>,
    at: DeskSession<'_, L, W>,
    shared: &SharedState<L, D>,
    front: &[u8],
    stream: LineStream<'_>,
    counts: Counts,
) -> SessionEnd<L>
    requires input { IsBlankOf counts.input I.name I.parts }
    requires output { IsBlankOf counts.output O.name O.parts }
    requires held { IsBlankOf counts.held N.name N.parts }
    requires evaluations { IsBlankOf counts.evaluations M.name M.parts }
    ensures attended { IsAttended L.replica L.opening at.entry.pass result.pass }
    ensures kept { IsSome shared.now.keeper
        → OnOk result.ended (IsSomeAnd result.covered (λ position. IsPrefix result.pass.list position)) }
{
    let writer = stream.connection();
    let devices = Devices {
        source: resume::<LineStream<'_>, I>(front, stream, counts.input),
        sink: Writing::<&TcpStream, O>::new(writer, counts.output),
        held: counts.held,
        evaluations: counts.evaluations,
    };
    attend_over::<L, W, R, D, _, _, N, M>(resources, at, shared, devices)
}

/// Answers each message of a browser. `counts` counts failures of the connection and evaluations.
fn attend_browser<
    L: DeskName,
    W: Wait + Drop,
    R: Threads + Wait + Clock + Sync,
    D: Device + Drop,
    I: Ledger,
    O: Ledger,
    N: Ledger,
    M: Ledger,
>(
    resources: Resources<'_, R>,
    at: DeskSession<'_, L, W>,
    shared: &SharedState<L, D>,
    browser: Browser<'_>,
    counts: Counts,
) -> SessionEnd<L>
    requires input { IsBlankOf counts.input I.name I.parts }
    requires output { IsBlankOf counts.output O.name O.parts }
    requires held { IsBlankOf counts.held N.name N.parts }
    requires evaluations { IsBlankOf counts.evaluations M.name M.parts }
    ensures attended { IsAttended L.replica L.opening at.entry.pass result.pass }
    ensures kept { IsSome shared.now.keeper
        → OnOk result.ended (IsSomeAnd result.covered (λ position. IsPrefix result.pass.list position)) }
{
    let alloc = resources.alloc;
    let Browser { stream, idle } = browser;
    let reader = BrowserStream::new(stream, idle);
    let writer = BrowserStream::new(stream, idle);
    let devices = Devices {
        source: MessageSource::<BrowserStream<'_>, I>::new(alloc, reader, LINE_LIMIT, counts.input),
        sink: MessageSink::<BrowserStream<'_>, O>::new(alloc, writer, counts.output),
        held: counts.held,
        evaluations: counts.evaluations,
    };
    attend_over::<L, W, R, D, _, _, N, M>(resources, at, shared, devices)
}

/// The source of a session's lines and the sink of its replies, with the blanks for the failures of held-back replies
/// and for the evaluations.
#[derive(Drop)]
struct Devices<S: Source + Drop, K: Sink + Drop> {
    source: S,
    sink: K,
    held: Blank,
    evaluations: Blank,
}

/// Answers each line of a source on a sink, at a slot of a desk.
fn attend_over<
    L: DeskName,
    W: Wait + Drop,
    R: Threads + Wait + Clock + Sync,
    D: Device + Drop,
    S: Source + Drop,
    K: Sink + Drop,
    N: Ledger,
    M: Ledger,
>(
    resources: Resources<'_, R>,
    at: DeskSession<'_, L, W>,
    shared: &SharedState<L, D>,
    devices: Devices<S, K>,
) -> SessionEnd<L>
    requires held { IsBlankOf devices.held N.name N.parts }
    requires evaluations { IsBlankOf devices.evaluations M.name M.parts }
    ensures attended { IsAttended L.replica L.opening at.entry.pass result.pass }
    ensures kept { IsSome shared.now.keeper
        → OnOk result.ended (IsSomeAnd result.covered (λ position. IsPrefix result.pass.list position)) }
{
    let Devices {
        mut source,
        sink,
        held,
        evaluations,
    } = devices;
    let room = HeldOutput::<_, N>::with_room(resources.alloc, sink, held, ROOM);
    let Ok(mut sink) = room else {
        return unread(at.pass, RunFault::Memory);
    };
    let mut meter = Meter::<M>::new(evaluations);
    let end = answer(resources, &mut source, &mut sink, at, shared, &mut meter);
    meter.end();
    if matches!(end.ended, Err(RunFault::Keep)) {
        shared.stop();
    }
    end
}

/// Returns the outcome of a session that carried out no line.
fn unread<L: DeskName>(pass: Pass<L>, fault: RunFault) -> SessionEnd<L>
    ensures pass { result.pass ≡ pass }
    ensures attended { IsAttended L.replica L.opening pass result.pass }
    ensures ended { result.ended ≡ Err fault }
{
    Attended {
        pass,
        covered: None,
        ended: Err(fault),
    }
}

/// Answers each line of a source on an output at a slot of a desk, to the end of the input.
///
/// If the sessions have a keeper, all that this session has seen is made durable before any reply is sent.
fn answer<
    L: DeskName,
    W: Wait + Drop,
    R: Threads + Wait + Clock + Sync,
    D: Device + Drop,
    S: Source,
    K: Sink + Drop,
    N: Ledger,
    M: Ledger,
>(
    resources: Resources<'_, R>,
    source: &mut S,
    sink: &mut HeldOutput<K, N>,
    at: DeskSession<'_, L, W>,
    shared: &SharedState<L, D>,
    meter: &mut Meter<M>,
) -> SessionEnd<L>
    ensures attended { IsAttended L.replica L.opening at.entry.pass result.pass }
    ensures told { IsSome shared.now.keeper → IsSome result.covered }
    ensures covered { IfSome result.covered (λ position. (read : List ℕ)
        × Consumes (S.remaining source.old) (S.remaining source.new) read
        × IsCovered (SeatLines L.replica L.opening) (λ seen. IsPrefix seen.list position)
        (IsAtEnd (S.remaining source.new)) at.entry.pass (held_contents K.contents sink.old) read
        result.pass (held_contents K.contents sink.new) (held_waiting K.waiting sink.new)) }
    ensures kept { IsSome shared.now.keeper
        → OnOk result.ended (IsSomeAnd result.covered (λ position. IsPrefix result.pass.list position)) }
{
    let Some(keeper) = shared.keeper() else {
        let Attended { pass, ended, .. } = attend_lines(resources, source, sink, at, meter);
        return Attended {
            pass,
            covered: None,
            ended,
        };
    };
    let at = KeptSession {
        session: at,
        keeper,
    };
    let mut marker = shared.marker();
    let attended = attend_kept(resources, source, sink, at, meter, &mut marker);
    Attended {
        pass: attended.pass,
        covered: Some(attended.covered),
        ended: attended.ended,
    }
}
