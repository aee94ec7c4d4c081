//! A slot: room for one session at a time. The slot's next session begins once the last one is over.
ghost use Rattle.std.specs.Prelude.{◌≡◌, ◌+◌, ◌<◌, ◌^◌, true, MatchResult};
ghost use Rattle.ps_server.specs.Sessions.{Attended, IsAttended};

use crate::arrival::Arrival;
use crate::attend::attend;
use crate::shared::Server;
use ps_desk::{DeskName, Pass, Watch, desk_is_sync};
use ps_keep::Device;
use ps_kept_desk::keeper_is_sync;
use ps_session::Resources;
use std::marker::Model;
use std::net::{Shutdown, TcpStream};
use std::snapshot::Snapshot;
use std::sync::Wait;
use std::sync::atomic::{AtomicBool, Ordering};
use std::thread::{Promise, PromisedHandle, Scope, Threads};
use std::time::Clock;

/// The promise that a session's thread returns the pass that its lines have made of this one.
#[derive(Drop)]
struct ComesBack<L: DeskName>(Snapshot<Pass<L>>);

impl<L: DeskName> Promise<Pass<L>> for ComesBack<L> {
    ghost use Rattle.ps_server.specs.Sessions.{IsAttended};

    ghost kept_by = { λ p r. IsAttended L.replica L.opening p.0.value r };
}

/// The holder of a slot's pass: the thread of a session, or the slot itself while it is free.
type Holder<L> = Result<PromisedHandle<Pass<L>, ComesBack<L>>, Pass<L>>;

/// A flag of one slot, which the slot's session raises at its end. By it the main thread knows that it can take the
/// pass back without waiting.
#[derive(Clone, Copy)]
pub(crate) struct EndFlag<'s> {
    is_over: &'s AtomicBool,
}

impl<'s> EndFlag<'s> {
    /// Returns the flag that `is_over` stores.
    pub(crate) fn new(is_over: &'s AtomicBool) -> EndFlag<'s> {
        EndFlag { is_over }
    }

    fn is_up(self) -> bool {
        self.is_over.load(Ordering::SeqCst)
    }

    fn raise(self) {
        self.is_over.store(true, Ordering::SeqCst);
    }

    fn lower(self) {
        self.is_over.store(false, Ordering::SeqCst);
    }
}

/// A slot for one session at a time. The slot has its pass while it is free; otherwise the session's thread has it.
///
/// Contracts see the pass that the slot began with, and the number of sessions that it has begun.
#[derive(Drop)]
pub(crate) struct Slot<'s, L: DeskName> {
    first: Snapshot<Pass<L>>,
    begun: u64,
    flag: EndFlag<'s>,
    number: usize,
    /// a second handle to the connection of the last session, if it may have to be closed
    closing_handle: Option<TcpStream>,
    /// none only while it is replaced
    state: Option<Holder<L>>,
}

impl<'s, L: DeskName> Model for Slot<'s, L> {
    ghost use Rattle.std.specs.Prelude.{◌≡◌, ◌+◌, ℕ, IfSome, IsSome, MatchResult};
    ghost use Rattle.std.specs.Coded.{codes};
    ghost use Rattle.ps_face.specs.contracts.patch.Note as note;
    ghost use Rattle.ps_server.specs.Sessions.{Attended, Turns};

    ghost Value = { Turns };

    ghost coded = { Prim.hlevel (codes, note.the_row.coded) };

    ghost view = { λ c. record { first = c.first.value; begun = c.begun } };

    ghost invariant = { λ c. IsSome c.state × IfSome c.state (λ s. MatchResult s
        (λ h. (n : ℕ) × (c.begun ≡ n + 1) × Attended L.replica L.opening n c.first.value h.promise.0.value)
        (λ p. Attended L.replica L.opening c.begun c.first.value p)) };
}

impl<'s, L: DeskName> Slot<'s, L> {
    /// Creates a free slot with this number and pass, which has had no session.
    pub(crate) fn new(pass: Pass<L>, flag: EndFlag<'s>, number: usize) -> Slot<'s, L>
        ensures { result ≡ record { first = pass; begun = 0 } }
    {
        Slot {
            first: Snapshot::of(&pass),
            begun: 0,
            flag,
            number,
            closing_handle: None,
            state: Some(Err(pass)),
        }
    }

    /// Returns the number of sessions that the slot has begun.
    pub(crate) fn begun(&self) -> u64
        ensures { result ≡ self.now.begun }
    {
        self.begun
    }

    /// Returns whether the slot can begin a session: it has its pass, and can count one more.
    fn is_free(&self) -> bool
        ensures { result ≡ true → self.now.begun + 1 < 2 ^ 64 }
    {
        matches!(self.state, Some(Err(_))) && self.begun < u64::MAX
    }

    /// Returns whether no session is under way in the slot.
    pub(crate) fn is_quiet(&self) -> bool {
        self.flag.is_up() || matches!(self.state, Some(Err(_)))
    }

    /// Takes the pass back, if the session that has it is over.
    fn take_back<R: Threads>(&mut self, rt: &R)
        ensures { self.new ≡ self.old }
    {
        if self.flag.is_up() {
            let pass = given_back(rt, self.state.take().unwrap());
            self.state = Some(Err(pass));
            self.closing_handle = None;
        }
    }

    /// Closes the connection of the slot's session, if there is a handle to it, so that the session ends.
    pub(crate) fn hang_up(&self) {
        match &self.closing_handle {
            Some(stream) => {
                let _ = stream.shutdown(Shutdown::Both);
            }
            None => {}
        }
    }

    /// Waits for the end of the slot's session, and returns the pass.
    pub(crate) fn end<R: Threads>(self, rt: &R) -> Pass<L>
        ensures { Attended L.replica L.opening self.entry.begun self.entry.first result }
    {
        let Slot { state, .. } = self;
        given_back(rt, state.unwrap())
    }

    /// Takes the pass back, if the session that has it is over. If the slot is free then, begins a session over the
    /// connection that has waited longest, if any waits.
    pub(crate) fn turn<
        E,
        W: Wait + Drop + Send + 's,
        D: Device + Drop + Send + 's,
        R: Threads + Wait + Clock + Sync,
    >(&mut self, scope: &Scope<'s, E>, resources: Resources<'s, R>, server: &Server<'s, L, W, D>)
    where
        L: Send + Sync + 's,
        ensures { self.new.first ≡ self.old.first }
    {
        self.take_back(resources.threads);
        if self.is_free() {
            if let Some(arrival) = server.lobby.next(resources.threads) {
                self.begin(scope, resources, server, arrival);
            }
        }
    }

    /// Begins a session in the slot, over a connection.
    fn begin<
        E,
        W: Wait + Drop + Send + 's,
        D: Device + Drop + Send + 's,
        R: Threads + Wait + Clock + Sync,
    >(
        &mut self,
        scope: &Scope<'s, E>,
        resources: Resources<'s, R>,
        server: &Server<'s, L, W, D>,
        arrival: Arrival,
    )
    where
        L: Send + Sync + 's,
        requires { self.old.begun + 1 < 2 ^ 64 }
        ensures first { self.new.first ≡ self.old.first }
        ensures begun { self.new.begun ≡ self.old.begun + 1 }
    {
        let pass = given_back(resources.threads, self.state.take().unwrap());
        self.flag.lower();
        self.closing_handle = server.shared.closing_handle(&arrival.stream);
        let watch = server.watch(self.number);
        self.state = Some(begin(scope, resources, server, pass, arrival, self.flag, watch));
        self.begun += 1;
    }
}

/// Begins a session over a connection, in a thread of its own, and returns the pass's new holder. If no thread can be
/// started, this one runs the session to its end.
fn begin<
    's,
    E,
    L: DeskName + Send + Sync + 's,
    W: Wait + Drop + Send + 's,
    D: Device + Drop + Send + 's,
    R: Threads + Wait + Clock + Sync,
>(
    scope: &Scope<'s, E>,
    resources: Resources<'s, R>,
    server: &Server<'s, L, W, D>,
    pass: Pass<L>,
    arrival: Arrival,
    flag: EndFlag<'s>,
    watch: Option<Watch<'s>>,
) -> Holder<L>
    ensures { MatchResult result (λ h. h.promise.0.value ≡ pass) (λ p. IsAttended L.replica L.opening pass p) }
{
    // for the facts that threads may share the desk and the keeper
    desk_is_sync::<L, W>();
    keeper_is_sync::<L, D>();
    let desk = server.desk;
    let shared = server.shared;
    let lobby = server.lobby;
    let promise = ComesBack(Snapshot::of(&pass));
    let begun = scope.spawn_with(
        promise,
        move || -> Pass<L>
            ensures { IsAttended L.replica L.opening pass result }
        {
            lobby.has_slot(&arrival);
            let idle = lobby.idle();
            let end = attend(resources, desk, pass, shared, &arrival, idle, watch);
            flag.raise();
            lobby.is_over(resources.threads, arrival);
            shared.bell().ring();
            end.pass
        },
    );
    match begun {
        Ok(handle) => Ok(handle),
        Err(refused) => Err((refused.value)()),
    }
}

/// Returns the pass. If a session has it, waits for the session's end.
fn given_back<L: DeskName, R: Threads>(rt: &R, holder: Holder<L>) -> Pass<L>
    ensures { MatchResult holder
        (λ h. IsAttended L.replica L.opening h.promise.0.value result)
        (λ p. result ≡ p) }
{
    match holder {
        Ok(handle) => handle.join(rt),
        Err(pass) => pass,
    }
}
