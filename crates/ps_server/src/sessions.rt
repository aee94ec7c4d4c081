//! Runs the sessions of one desk, each over a connection and in a thread of its own, in slots that they get in turn.
ghost use Rattle.std.specs.Prelude.{◌≡◌, ◌≤◌, ◌⊎◌, [], Some, IfErr, IfOk, IfSome, length, map, sum_by, vec_capacity};
ghost use Rattle.std.specs.Prelude.{vec_len};
ghost use Rattle.ps_grid.specs.declared.refusal.Refusal.TheVariants.{Device, Memory};
ghost use Rattle.ps_server.specs.Sessions.{AreBack, Back};

use crate::listener::{Listener, passes as is_passing};
use crate::lobby::Lobby;
use crate::options::ServerOptions;
use crate::reception;
use crate::shared::{Server, SharedState};
use crate::slot::{EndFlag, Slot};
use crate::warning::Warn;
use crate::watchers::{Watchers, start};
use ps_desk::{Desk, DeskName, Pass};
use ps_grid::Refusal;
use ps_keep::Device;
use ps_session::Resources;
use std::alloc::{AllocError, Global};
use std::net::Net;
use std::sync::Wait;
use std::sync::atomic::AtomicBool;
use std::thread::{Scope, Threads};
use std::time::{Clock, Instant};
use std::{io, thread};

/// The milliseconds between two looks for a connection, if the main thread can't sleep until one comes.
const PAUSE: u64 = 5;

/// The milliseconds until the next try, after the system had no file or no memory for a connection.
const CROWDED_PAUSE: u64 = 100;

/// Returns a flag for each of `count` slots, which the slot's session raises at its end.
fn end_flags(alloc: Global, count: usize) -> Result<Vec<AtomicBool>, AllocError>
    ensures { IfOk result (λ flags. vec_len flags ≡ count) }
{
    let mut flags = Vec::with_capacity(alloc, count)?;
    for made in 0..count {
        flags.push(AtomicBool::new(false))?;
    }
    Ok(flags)
}

/// Appends a new slot for each pass to `slots`, with a flag of its own.
fn set_up<'s, L: DeskName>(
    passes: Vec<Pass<L>>,
    flags: &'s [AtomicBool],
    slots: &mut Vec<Slot<'s, L>>,
)
    requires none { slots.old.items ≡ [] }
    requires flags { length flags.now ≡ vec_len passes }
    requires room { vec_len passes ≤ vec_capacity slots.old }
    ensures firsts { map (λ t. t.first) slots.new.items ≡ passes.items }
{
    for pass in passes {
        let number = slots.len();
        let flag = EndFlag::new(&flags[number]);
        slots.push_reserved(Slot::new(pass, flag, number));
    }
}

/// Returns the number of sessions that all slots have begun; none if it has more than 64 bits.
fn begun_by<L: DeskName>(slots: &Vec<Slot<'_, L>>) -> Option<u64>
    ensures { IfSome result (λ n. n ≡ sum_by (λ t. t.begun) slots.now.items) }
{
    let mut all = 0u64;
    for slot in slots {
        all = all.checked_add(slot.begun())?;
    }
    Some(all)
}

/// Returns how many of the `asked` sessions are still to begin; none if no number was asked for.
fn left_of<L: DeskName>(asked: Option<u64>, slots: &Vec<Slot<'_, L>>) -> Option<u64>
    ensures { result ≡ Some 0 → asked ≡ Some (sum_by (λ t. t.begun) slots.now.items) }
{
    asked?.checked_sub(begun_by(slots)?)
}

/// If `is_due`, takes back the passes of sessions that are over, and gives free slots to the connections that wait.
fn turn_all<
    's,
    E,
    L: DeskName + Send + Sync + 's,
    W: Wait + Drop + Send + 's,
    D: Device + Drop + Send + 's,
    R: Threads + Wait + Clock + Sync,
>(
    scope: &Scope<'s, E>,
    resources: Resources<'s, R>,
    server: &Server<'s, L, W, D>,
    slots: &mut Vec<Slot<'s, L>>,
    is_due: bool,
)
    ensures { map (λ t. t.first) slots.new.items ≡ map (λ t. t.first) slots.old.items }
{
    if is_due {
        for slot in slots.iter_mut() {
            slot.turn(scope, resources, server);
        }
    }
}

/// Lets one connection in, or waits until one comes or something happens. Returns whether a connection was let in, a
/// connection's first bytes came, or a session ended.
///
/// If the system has no file or no memory for a connection, it warns and waits before the next try. It fails if no
/// connection can be accepted for another reason, or for this one while a number of sessions is asked for.
fn let_in<
    's,
    E,
    L: DeskName + Send + Sync + 's,
    W: Wait + Drop + Send + 's,
    D: Device + Drop + Send + 's,
    R: Threads + Wait + Clock + Sync,
    T: Warn,
>(
    scope: &Scope<'s, E>,
    resources: Resources<'s, R>,
    server: &Server<'s, L, W, D>,
    listener: &mut Listener<'_>,
    warner: &mut T,
) -> io::Result<bool> {
    let rt = resources.threads;
    match listener.come(rt) {
        Ok(Some(stream)) => {
            if reception::let_in(scope, resources, server, stream) {
                return Ok(true);
            }
            warner.warn_of_crowd();
            Ok(server.lobby.pause(rt, CROWDED_PAUSE))
        }
        Ok(None) => Ok(rest(rt, server.lobby, listener)),
        Err(error) if server.asked.is_none() && is_passing(&error) => {
            warner.warn_of_crowd();
            Ok(server.lobby.pause(rt, CROWDED_PAUSE))
        }
        Err(error) => Err(error),
    }
}

/// Waits until a connection comes, the bell rings, or a connection has waited too long for a slot. Returns whether a
/// connection's first bytes came, or a session ended.
fn rest<R: Wait + Clock>(rt: &R, lobby: &Lobby, listener: &mut Listener<'_>) -> bool {
    if listener.sleep(lobby.patience_left(rt)) {
        lobby.has_changed(rt)
    } else {
        lobby.pause(rt, PAUSE)
    }
}

/// Gives the slots to the connections that come, until as many sessions as were asked for have begun, and returns their
/// number.
///
/// Returns none if a connection can't be accepted, or if sessions have to end. Meanwhile it warns as [`warn_by`] does.
fn give_slots<
    's,
    E,
    L: DeskName + Send + Sync + 's,
    W: Wait + Drop + Send + 's,
    D: Device + Drop + Send + 's,
    R: Threads + Wait + Clock + Sync,
    T: Warn,
>(
    scope: &Scope<'s, E>,
    resources: Resources<'s, R>,
    server: &Server<'s, L, W, D>,
    listener: &mut Listener<'_>,
    slots: &mut Vec<Slot<'s, L>>,
    warner: &mut T,
) -> Option<u64>
    ensures firsts { map (λ t. t.first) slots.new.items ≡ map (λ t. t.first) slots.old.items }
    ensures asked { IfSome result (λ n. (server.now.asked ≡ Some n) × (sum_by (λ t. t.begun) slots.new.items ≡ n)) }
{
    for _ in resources.threads.forever() {
        let left = left_of(server.asked, slots);
        if left == Some(0) {
            return server.asked;
        }
        if !server.shared.goes_on() {
            return None;
        }
        let Ok(happened) = let_in(scope, resources, server, listener, warner) else {
            return None;
        };
        // Read before slots are given: a connection that comes meanwhile isn't late, and can get a slot next time.
        let now = Instant::now(resources.threads).ok();
        let is_due = happened || server.lobby.has_waiting(resources.threads);
        turn_all(scope, resources, server, slots, is_due);
        server.lobby.turn_away_late(resources.threads, now);
        warn_by(server.shared, warner);
    }
    unreachable!()
}

/// Answers the requests that come while the last sessions are under way, and turns away connections that want a slot.
///
/// It returns once all sessions are over or have to end, or once no connection can be accepted.
fn see_out<
    's,
    E,
    L: DeskName + Send + Sync + 's,
    W: Wait + Drop + Send + 's,
    D: Device + Drop + Send + 's,
    R: Threads + Wait + Clock + Sync,
    T: Warn,
>(
    scope: &Scope<'s, E>,
    resources: Resources<'s, R>,
    server: &Server<'s, L, W, D>,
    listener: &mut Listener<'_>,
    slots: &Vec<Slot<'s, L>>,
    warner: &mut T,
) {
    server.lobby.close_slots(resources.threads);
    for _ in resources.threads.forever() {
        let is_over = slots.iter().all(|slot| slot.is_quiet());
        if is_over
            || !server.shared.goes_on()
            || let_in(scope, resources, server, listener, warner).is_err()
        {
            return;
        }
        warn_by(server.shared, warner);
    }
}

/// Warns if new changes of the desk's own replica were pushed to the sessions.
fn warn_by<L: DeskName, D: Device + Drop, T: Warn>(shared: &SharedState<L, D>, warner: &mut T) {
    if shared.is_elsewhere() {
        warner.warn();
    }
}

/// Closes the connections of the sessions that are under way, if sessions have to end.
fn hang_up<L: DeskName, D: Device + Drop>(shared: &SharedState<L, D>, slots: &Vec<Slot<'_, L>>) {
    if !shared.goes_on() {
        for slot in slots {
            slot.hang_up();
        }
    }
}

/// Waits for the end of each session that is under way, and appends the passes of all slots to `back`, in order.
fn end_all<L: DeskName, R: Threads>(rt: &R, slots: Vec<Slot<'_, L>>, back: &mut Vec<Pass<L>>)
    requires none { back.old.items ≡ [] }
    requires room { vec_len slots ≤ vec_capacity back.old }
    ensures len { vec_len back.new ≡ vec_len slots.entry }
    ensures each { Back L.replica L.opening slots.entry.items back.new.items }
{
    for slot in slots {
        back.push_reserved(slot.end(rt));
    }
}

/// Serves the connections that come, as many at a time as there are passes. Once as many sessions as were asked for
/// have ended, it returns their number and the passes.
///
/// # Errors
///
/// - `Memory`: out of memory, before the first connection is accepted.
/// - `Device`: a connection can't be accepted, or a sync failed while sessions were still to begin; returned once those
///   that were begun have ended. If a sync fails later, the result is `Ok`, and the sync at the close decides.
pub(crate) fn serve_all<
    L: DeskName + Send + Sync,
    W: Wait + Drop + Send,
    D: Device + Drop + Send,
    R: Net + Threads + Wait + Clock + Sync,
    T: Warn,
>(
    resources: Resources<'_, R>,
    desk: &Desk<L, W>,
    shared: &SharedState<L, D>,
    options: ServerOptions<'_>,
    passes: Vec<Pass<L>>,
    warner: &mut T,
) -> Result<(u64, Vec<Pass<L>>), Refusal>
    ensures len { IfOk result (λ r. vec_len r.1 ≡ vec_len passes) }
    ensures asked { IfOk result (λ r. options.entry.sessions ≡ Some r.0) }
    ensures back { IfOk result (λ r. AreBack L.replica L.opening r.0 passes.items r.1.items) }
    ensures refused { IfErr result (λ e. (e ≡ Memory) ⊎ (e ≡ Device)) }
{
    let end_flags = end_flags(resources.alloc, passes.len())?;
    let flags = end_flags.as_slice();
    let lobby = Lobby::new(resources.alloc, options)?;
    let lobby = &lobby;
    let (watchers, ears) = match Watchers::open(resources.threads, resources.alloc, passes.len()) {
        Some((watchers, ears)) => (Some(watchers), Some(ears)),
        None => (None, None),
    };
    let watchers = watchers.as_ref();
    thread::scope(
        thread::scope_env(),
        resources.threads,
        |scope| -> Result<(u64, Vec<Pass<L>>), Refusal>
            requires { length flags.now ≡ vec_len passes }
            ensures len { IfOk result (λ r. vec_len r.1 ≡ vec_len passes) }
            ensures asked { IfOk result (λ r. options.entry.sessions ≡ Some r.0) }
            ensures back { IfOk result (λ r. AreBack L.replica L.opening r.0 passes.items r.1.items) }
            ensures refused { IfErr result (λ e. (e ≡ Memory) ⊎ (e ≡ Device)) }
        {
            let mut slots = Vec::with_capacity(resources.alloc, passes.len())?;
            let mut back = Vec::with_capacity(resources.alloc, passes.len())?;
            let Ok(mut listener) = Listener::open(
                resources.threads,
                resources.alloc,
                options.listener,
                shared.bell(),
            ) else {
                return Err(Refusal::Device);
            };
            set_up(passes, flags, &mut slots);
            let asked = options.sessions;
            let watchers = start(scope, resources, desk, shared, watchers, ears);
            let server = Server {
                desk,
                shared,
                lobby,
                watchers,
                asked,
            };
            let given = give_slots(scope, resources, &server, &mut listener, &mut slots, warner);
            if given.is_some() {
                see_out(scope, resources, &server, &mut listener, &slots, warner);
            }
            lobby.close(resources.threads);
            listener.close();
            hang_up(shared, &slots);
            end_all(resources.threads, slots, &mut back);
            if let Some(watchers) = watchers {
                watchers.close(resources.threads, desk);
            }
            warn_by(shared, warner);
            match given {
                Some(sessions) => Ok((sessions, back)),
                None => Err(Refusal::Device),
            }
        },
    )
}
