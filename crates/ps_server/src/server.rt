//! A server: the sessions of a sheet, with or without a journal.
ghost use Rattle.std.specs.Prelude.{◌≡◌, ◌+◌, ◌⊎◌, ◌≤◌, IfErr, IfOk, IfSome, IsSome, None, Some, length, min, vec_len};
ghost use Rattle.ps_grid.specs.declared.parties.TheConstants.{SEATS};
ghost use Rattle.ps_grid.specs.declared.refusal.Refusal.TheVariants.{Device, Memory, Seat};
ghost use Rattle.ps_sheet.specs.Sheet.{IsSheet};
ghost use Rattle.ps_desk.specs.Closing.{HistoryBegins, IsClosed, appended_of};
ghost use Rattle.ps_desk.specs.Opening.{IsNamed, new_passes};
ghost use Rattle.ps_keep.specs.Journals.{IsJournal};
ghost use Rattle.ps_kept.specs.Kept.{TellHistory};
ghost use Rattle.ps_server.specs.Kept.{KeepsHistory};
ghost use Rattle.ps_server.specs.Sessions.{IsServed};

use crate::options::ServerOptions;
use crate::sessions::serve_all;
use crate::shared::SharedState;
use crate::warning::Warn;
use ps_desk::{Desk, DeskName, Parts, Pass};
use ps_device::Failed;
use ps_grid::Refusal;
use ps_keep::{Device, Journal, MemoryDevice};
use ps_kept_desk::{DeskKeeper, Ended};
use ps_session::Resources;
use ps_sheet::Sheet;
use std::marker::Brand;
use std::net::Net;
use std::sync::Wait;
use std::thread::Threads;
use std::time::Clock;

/// The result of a server that has ended. `J` is the type of the server's journal, or `()` if the server had none.
#[derive(Drop)]
pub struct Closed<J = ()> {
    /// The sheet, as its sessions left it.
    pub sheet: Sheet,
    /// The number of sessions that shared the sheet.
    pub sessions: u64,
    /// The journal, in which all of the sheet's history is durable; `()` if the server had no journal.
    pub journal: J,
}

/// Serves sessions on a sheet, each over a connection to the listener of `options`, and returns the closed sheet.
///
/// The call returns once as many sessions as `options` asks for have ended. If `options` has no number of sessions, the
/// call serves until the program is stopped.
///
/// - A session that ends leaves its slot to a later session, which begins with all that the slot's sessions have seen.
/// - A connection that finds no free slot waits for one. If it waits for longer than `options` allows, or if 512 others
///   already wait, the server closes it. A client of lines gets `err 21 seat` first, a browser the close code 1013.
/// - If a session's connection fails, or its peer is silent for longer than `idle` of `options` allows, only this
///   session ends.
/// - A page may follow the changes without a slot: the server sends the page the number of changes whenever it grows.
/// - Once as many sessions as `options` asks for have begun, the server still answers HTTP requests, until the last
///   session has ended.
/// - If `options` has no number of sessions, and the system has no file descriptor or no memory for a connection, the
///   server warns and tries again.
///
/// # Errors
///
/// - `Device`: a connection can't be accepted while sessions are still to begin, and the server doesn't try again. The
///   call returns this error once the sessions under way have ended.
/// - `Memory`: out of memory, before the first connection is accepted.
/// - `Seat`: no reader of the desk's published copies can be made for a slot, before the first connection is accepted.
///
/// Cost: that of answering the lines, and two threads that sleep. A session under way takes a thread and 0.2 MB of
/// memory, and up to 0.3 MB more if its client pushed a long line. A free slot takes next to nothing. Memory doesn't
/// grow with the number of sessions that have ended.
pub fn serve_in_memory<R: Net + Threads + Wait + Clock + Sync, W: Warn>(
    resources: Resources<'_, R>,
    options: ServerOptions<'_>,
    sheet: Sheet,
    warner: &mut W,
) -> Result<Closed, Refusal>
    ensures asked { IfOk result (λ closed. options.entry.sessions ≡ Some closed.sessions) }
    ensures served { IfOk result (λ closed. IsServed options.entry.seats closed.sessions sheet closed.sheet) }
    ensures refused { IfErr result (λ e. (e ≡ Memory) ⊎ (e ≡ Seat) ⊎ (e ≡ Device)) }
{
    let Closed {
        sheet,
        sessions,
        ..
    } = serve_with_journal_or_none::<R, MemoryDevice, W>(resources, options, sheet, None, warner)?;
    Ok(Closed {
        sheet,
        sessions,
        journal: (),
    })
}

/// Serves sessions on a sheet as [`serve_in_memory`] does, makes their changes durable in `journal`, and returns the
/// closed sheet and the journal.
///
/// All that a reply shows or acknowledges is durable before the reply is sent. At the end the journal has all of the
/// closed sheet's history. The server calls `warner` soon after a client pushed changes that are marked with the
/// sheet's own replica, and that the sheet lacked.
///
/// If the journal's device fails, or there is no memory for a line of the journal, the server ends all sessions, and
/// the result is `Device`. Even then no session sends what isn't durable. In one case the call still succeeds: only
/// memory was lacking, no session was left to begin, and the last sync, at the close, succeeds.
///
/// # Errors
///
/// `Device`, as above, and the errors of [`serve_in_memory`].
///
/// Cost: that of `serve_in_memory`, and that of the syncs. One sync serves all sessions that wait for a sync at that
/// time.
pub fn serve_with_journal<R: Net + Threads + Wait + Clock + Sync, D: Device + Drop + Send, W: Warn>(
    resources: Resources<'_, R>,
    options: ServerOptions<'_>,
    sheet: Sheet,
    journal: Journal<D>,
    warner: &mut W,
) -> Result<Closed<Journal<D>>, Refusal>
    requires { KeepsHistory sheet.replica sheet.history journal }
    ensures asked { IfOk result (λ closed. options.entry.sessions ≡ Some closed.sessions) }
    ensures served { IfOk result (λ closed. IsServed options.entry.seats closed.sessions sheet closed.sheet) }
    ensures kept { IfOk result (λ closed. TellHistory closed.sheet.replica closed.journal.kept closed.sheet.history) }
    ensures journal { IfOk result (λ closed. IsJournal closed.journal) }
    ensures refused { IfErr result (λ e. (e ≡ Memory) ⊎ (e ≡ Seat) ⊎ (e ≡ Device)) }
{
    let Closed {
        sheet,
        sessions,
        journal,
    } = serve_with_journal_or_none(resources, options, sheet, Some(journal), warner)?;
    Ok(Closed {
        sheet,
        sessions,
        journal: journal.unwrap(),
    })
}

/// Serves sessions on a sheet, with a journal or none, until as many as were asked for have ended.
fn serve_with_journal_or_none<
    R: Net + Threads + Wait + Clock + Sync,
    D: Device + Drop + Send,
    W: Warn,
>(
    resources: Resources<'_, R>,
    options: ServerOptions<'_>,
    sheet: Sheet,
    journal: Option<Journal<D>>,
    warner: &mut W,
) -> Result<Closed<Option<Journal<D>>>, Refusal>
    requires { IfSome journal (KeepsHistory sheet.replica sheet.history) }
    ensures asked { IfOk result (λ closed. options.entry.sessions ≡ Some closed.sessions) }
    ensures served { IfOk result (λ closed. IsServed options.entry.seats closed.sessions sheet closed.sheet) }
    ensures some { IfOk result (λ closed. IsSome journal → IsSome closed.journal) }
    ensures kept { IfOk result (λ closed. IfSome closed.journal
        (λ j. TellHistory closed.sheet.replica j.kept closed.sheet.history)) }
    ensures journal { IfOk result (λ closed. IfSome closed.journal (λ j. IsJournal j)) }
    ensures refused { IfErr result (λ e. (e ≡ Memory) ⊎ (e ≡ Seat) ⊎ (e ≡ Device)) }
{
    let changes = sheet.version();
    let parts = Parts::new(sheet, seats_for(options));
    serve_parts::<Brand, R, D, W>(resources, options, parts, journal, changes, warner)
}

/// Returns the number of slots: as many as are asked for, or as there are sessions, if these are fewer.
fn seats_for(options: ServerOptions<'_>) -> usize
    ensures range { (1 ≤ result) × (result ≤ SEATS) }
    ensures some { IfSome options.entry.sessions (λ n. result ≡ min n options.entry.seats) }
    ensures none { options.entry.sessions ≡ None → result ≡ options.entry.seats }
{
    match options.sessions {
        Some(sessions) => sessions.min(options.seats as u64) as usize,
        None => options.seats,
    }
}

/// Makes a desk from these parts, whose sheet has `changes` changes, serves its sessions, and returns the closed sheet.
fn serve_parts<
    L: DeskName + Send + Sync,
    R: Net + Threads + Wait + Clock + Sync,
    D: Device + Drop + Send,
    W: Warn,
>(
    resources: Resources<'_, R>,
    options: ServerOptions<'_>,
    parts: Parts,
    journal: Option<Journal<D>>,
    changes: u64,
    warner: &mut W,
) -> Result<Closed<Option<Journal<D>>>, Refusal>
    requires named { IsNamed L.name L.parts L.book L.opening L.replica parts }
    requires keeps { IfSome journal (KeepsHistory parts.sheet.replica parts.sheet.history) }
    requires changes { changes ≡ length parts.sheet.history }
    requires seats { IfSome options.sessions (λ n. parts.seats ≡ min n options.seats) }
    ensures asked { IfOk result (λ closed. options.entry.sessions ≡ Some closed.sessions) }
    ensures served { IfOk result (λ closed. IsServed options.entry.seats closed.sessions parts.sheet closed.sheet) }
    ensures some { IfOk result (λ closed. IsSome journal → IsSome closed.journal) }
    ensures kept { IfOk result (λ closed. IfSome closed.journal
        (λ j. TellHistory closed.sheet.replica j.kept closed.sheet.history)) }
    ensures journal { IfOk result (λ closed. IfSome closed.journal (λ j. IsJournal j)) }
    ensures refused { IfErr result (λ e. (e ≡ Memory) ⊎ (e ≡ Seat) ⊎ (e ≡ Device)) }
{
    let (desk, passes) = match Desk::<L, &R>::open(resources.threads, resources.alloc, parts) {
        Ok(opened) => opened,
        Err((_, refusal)) => return Err(refusal),
    };
    let shared = SharedState::new(keeper_of(journal, &desk, passes.as_slice(), changes));
    let (sessions, back) = match serve_all(resources, &desk, &shared, options, passes, warner) {
        Ok(served) => served,
        Err(refusal) => return Err(refusal),
    };
    match close(resources, desk, back, shared.into_keeper()) {
        Ok((sheet, journal)) => Ok(Closed {
            sheet,
            sessions,
            journal,
        }),
        Err(refusal) => Err(refusal),
    }
}

/// Returns the keeper of a desk that was just opened with `changes` changes, if there is a journal of them. The keeper
/// makes the desk's changes durable in it.
fn keeper_of<L: DeskName, W: Wait + Drop, D: Device + Drop>(
    journal: Option<Journal<D>>,
    desk: &Desk<L, W>,
    passes: &[Pass<L>],
    changes: u64,
) -> Option<DeskKeeper<L, D>>
    requires keeps { IfSome journal (KeepsHistory L.replica L.opening) }
    requires passes { passes.now ≡ new_passes desk.now }
    requires changes { changes ≡ length L.opening }
    ensures { IsSome journal → IsSome result }
{
    match journal {
        Some(journal) => Some(DeskKeeper::new(journal, desk, passes, changes)),
        None => None,
    }
}

/// Closes a desk to which all passes have returned, and syncs what isn't durable yet, if there is a keeper.
fn close<L: DeskName, W: Wait + Drop, D: Device + Drop, R: Wait>(
    resources: Resources<'_, R>,
    desk: Desk<L, W>,
    passes: Vec<Pass<L>>,
    keeper: Option<DeskKeeper<L, D>>,
) -> Result<(Sheet, Option<Journal<D>>), Refusal>
    requires passes { vec_len passes ≡ desk }
    ensures replica { IfOk result (λ r. r.0.replica ≡ L.replica) }
    ensures begins { IfOk result (λ r. HistoryBegins L.opening r.0.history passes.items) }
    ensures grown { IfOk result (λ r. length r.0.history ≡ length L.opening + appended_of passes.items) }
    ensures one { IfOk result (λ r. IsClosed L.opening r.0.history passes.items) }
    ensures sheet { IfOk result (λ r. IsSheet r.0) }
    ensures some { IfOk result (λ r. IsSome keeper → IsSome r.1) }
    ensures kept { IfOk result (λ r. IfSome r.1 (λ j. TellHistory r.0.replica j.kept r.0.history)) }
    ensures journal { IfOk result (λ r. IfSome r.1 (λ j. IsJournal j)) }
    ensures refused { IfErr result (λ e. e ≡ Device) }
{
    let Resources { threads, alloc } = resources;
    let Some(keeper) = keeper else {
        return Ok((desk.close(threads, passes), None));
    };
    // The close proves all of the history durable. So no tokens of sessions, each for a part of it, are passed in.
    let reported = Vec::new(alloc);
    let Ended {
        sheet,
        journal,
        synced,
    } = keeper.close(threads, alloc, desk, passes, reported.as_slice());
    // A sheet that isn't durable as a whole is dropped with its journal, so that nobody takes it for closed. The
    // failure carries no cause, so a lack of memory is reported as a device's failure, too.
    match synced {
        Ok(()) => Ok((sheet, Some(journal))),
        Err(Failed) => Err(Refusal::Device),
    }
}
