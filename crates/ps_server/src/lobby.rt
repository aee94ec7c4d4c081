//! The connections of a server that have no slot yet. Their first bytes are awaited, or they wait for a slot.

use crate::arrival::{Arrival, Request, turn_away};
use crate::options::ServerOptions;
use ps_grid::Refusal;
use ps_page::About;
use std::alloc::{AllocError, Global};
use std::net::{Shutdown, TcpStream};
use std::sync::atomic::{AtomicU64, Ordering};
use std::sync::{Condvar, CondvarTimeouts, Mutex, Wait};
use std::time::{Clock, Duration, Instant};

/// The most connections that may wait for a slot at a time.
const MOST: usize = 512;

/// The most connections whose first bytes may be awaited at a time. Each has two file descriptors meanwhile.
const MOST_UNHEARD: usize = 200;

/// How long a new connection waits, in milliseconds, if as many as may be are awaited. It is enough to read the first
/// bytes of one that has sent them.
const SOON: u64 = 50;

/// A connection that waits for a slot.
#[derive(Drop)]
struct Waiting {
    arrival: Arrival,
    since: Instant,
}

/// A connection whose first bytes are awaited, by a thread of its own.
#[derive(Drop)]
struct Unheard {
    number: u64,
    /// a second handle to the connection, to close it
    handle: TcpStream,
}

/// The connections of a lobby, which the lobby has under its lock.
#[derive(Drop)]
struct Present {
    unheard: Vec<Unheard>,
    /// in the order of their arrival
    waiting: Vec<Waiting>,
    /// the number of the next connection
    next: u64,
    /// whether a connection's first bytes came, or a session ended, since the main thread last asked
    has_changed: bool,
    /// whether no slot is given any more
    has_no_slots: bool,
}

/// The connections that have no slot yet.
#[derive(Drop)]
pub(crate) struct Lobby {
    present: Mutex<Present>,
    /// notified when a connection's first bytes came, or a session ended
    changed: Condvar,
    alloc: Global,
    /// how long a connection may wait for a slot
    patience: Duration,
    /// how long the peer of a session may send nothing before the session ends
    idle: Option<Duration>,
    /// the line for a connection that gets no slot
    no_seat: String,
    title: String,
    /// how many browsers have a slot
    browsers: AtomicU64,
}

impl Present {
    /// Returns whether the first bytes of as many connections are awaited as may be.
    fn is_full(&self) -> bool {
        self.unheard.len() >= self.unheard.capacity()
    }

    /// Takes out the connection whose first bytes are awaited longest, if as many are awaited as may be.
    fn make_room(&mut self) -> Option<Unheard> {
        if self.is_full() && !self.unheard.is_empty() {
            Some(self.unheard.remove(0))
        } else {
            None
        }
    }
}

impl Lobby {
    /// Creates an empty lobby.
    pub(crate) fn new(alloc: Global, options: ServerOptions<'_>) -> Result<Lobby, AllocError> {
        let present = Present {
            unheard: Vec::with_capacity(alloc, MOST_UNHEARD)?,
            waiting: Vec::with_capacity(alloc, MOST)?,
            next: 0,
            has_changed: false,
            has_no_slots: false,
        };
        Ok(Lobby {
            present: Mutex::new(present),
            changed: Condvar::new(),
            alloc,
            patience: options.wait,
            idle: options.idle,
            no_seat: format!(in alloc; "{}\n", Refusal::Seat)?,
            title: options.title.to_string(alloc)?,
            browsers: AtomicU64::new(0),
        })
    }

    /// Returns how long the peer of a session may send nothing before the session ends.
    pub(crate) fn idle(&self) -> Option<Duration> {
        self.idle
    }

    /// Returns what a connection wants, by its first bytes. A request of HTTP is answered; one to follow the changes is
    /// refused unless `has_room` is true.
    pub(crate) fn hear<C: Clock>(&self, clock: &C, stream: TcpStream, has_room: bool) -> Request {
        let about = About {
            here: self.browsers.load(Ordering::SeqCst),
            title: self.title.as_str(),
            has_room,
        };
        Request::read(clock, self.alloc, self.idle, about, stream)
    }

    /// Tells a client that there is no slot, and closes its connection.
    pub(crate) fn turn_away(&self, stream: TcpStream) {
        turn_away(stream, self.no_seat.as_bytes());
    }

    /// Notes that the session of an arrival begins, to count the browsers.
    pub(crate) fn has_slot(&self, arrival: &Arrival) {
        if arrival.is_browser() {
            self.browsers.fetch_add(1, Ordering::SeqCst);
        }
    }

    /// Notes that the session of an arrival is over, and closes its connection.
    pub(crate) fn is_over<R: Wait>(&self, rt: &R, arrival: Arrival) {
        if arrival.is_browser() {
            self.browsers.fetch_sub(1, Ordering::SeqCst);
        }
        drop(arrival);
        self.note(rt);
    }

    /// Notes a connection whose first bytes are awaited, and returns a number for it; none if the system has no second
    /// handle to it, by which the lobby could close it later.
    ///
    /// If as many as may be are awaited, and none is heard soon, the one that was silent for longest is turned away.
    pub(crate) fn number<R: Wait + Clock>(&self, rt: &R, stream: &TcpStream) -> Option<u64> {
        let handle = stream.try_clone().ok()?;
        let present = self.present.lock(rt);
        let soon = Duration::from_millis(SOON);
        let while_full = |present: &mut Present| -> bool { present.is_full() };
        let (mut present, _) = self
            .changed
            .wait_timeout_while(rt, present, soon, while_full);
        let silent = present.make_room();
        let number = present.next;
        present.next = number.wrapping_add(1);
        if present.unheard.len() < present.unheard.capacity() {
            present.unheard.push_reserved(Unheard { number, handle });
        }
        drop(present);
        if let Some(silent) = silent {
            self.turn_away(silent.handle);
        }
        Some(number)
    }

    /// Notes that the first bytes of the connection with this number came, or that it ended.
    pub(crate) fn is_heard<R: Wait>(&self, rt: &R, number: u64) {
        let mut present = self.present.lock(rt);
        present.unheard.retain(|it| it.number != number);
        present.has_changed = true;
        drop(present);
        self.changed.notify_one();
    }

    /// Has an arrival wait for a slot. It is turned away if too many wait, if no slot is given any more, or if the
    /// clock fails.
    pub(crate) fn enter<R: Wait + Clock>(&self, rt: &R, arrival: Arrival) {
        let mut present = self.present.lock(rt);
        let has_room = present.waiting.len() < present.waiting.capacity();
        match Instant::now(rt) {
            Ok(since) if has_room && !present.has_no_slots => {
                present.waiting.push_reserved(Waiting { arrival, since });
            }
            _ => {
                drop(present);
                arrival.turn_away(self.alloc, self.no_seat.as_bytes());
            }
        }
    }

    /// Notes that a session ended, so that a pause ends.
    fn note<R: Wait>(&self, rt: &R) {
        self.present.lock(rt).has_changed = true;
        self.changed.notify_one();
    }

    /// Waits until a connection's first bytes come or a session ends, for `millis` milliseconds at most. Returns
    /// whether either happened since the last call of this or of [`Lobby::has_changed`].
    pub(crate) fn pause<R: Wait + Clock>(&self, rt: &R, millis: u64) -> bool {
        let present = self.present.lock(rt);
        let pause = Duration::from_millis(millis);
        let while_quiet = |present: &mut Present| -> bool { !present.has_changed };
        let (mut present, _) = self
            .changed
            .wait_timeout_while(rt, present, pause, while_quiet);
        let has_changed = present.has_changed;
        present.has_changed = false;
        has_changed
    }

    /// Returns whether a connection's first bytes came, or a session ended, since the last call of this or of
    /// [`Lobby::pause`].
    pub(crate) fn has_changed<R: Wait>(&self, rt: &R) -> bool {
        let mut present = self.present.lock(rt);
        let has_changed = present.has_changed;
        present.has_changed = false;
        has_changed
    }

    /// Returns how much longer the arrival that has waited longest may wait; none if no arrival waits.
    pub(crate) fn patience_left<R: Wait + Clock>(&self, rt: &R) -> Option<Duration> {
        let present = self.present.lock(rt);
        let since = present.waiting.first()?.since;
        drop(present);
        let Ok(now) = Instant::now(rt) else {
            return Some(Duration::ZERO);
        };
        match now.checked_duration_since(since) {
            Some(waited) => Some(self.patience.saturating_sub(waited)),
            None => Some(self.patience),
        }
    }

    /// Returns whether a connection waits for a slot.
    pub(crate) fn has_waiting<R: Wait>(&self, rt: &R) -> bool {
        !self.present.lock(rt).waiting.is_empty()
    }

    /// Takes out the arrival that has waited longest, if any waits.
    pub(crate) fn next<R: Wait>(&self, rt: &R) -> Option<Arrival> {
        let mut present = self.present.lock(rt);
        if present.waiting.is_empty() {
            return None;
        }
        Some(present.waiting.remove(0).arrival)
    }

    /// Takes out the arrival that has waited longest, if it has waited too long by `now`. If `now` is none, as the
    /// clock failed, it counts as late.
    fn next_late<R: Wait>(&self, rt: &R, now: Option<Instant>) -> Option<Arrival> {
        let mut present = self.present.lock(rt);
        let since = present.waiting.first()?.since;
        if self.is_late(since, now) {
            Some(present.waiting.remove(0).arrival)
        } else {
            None
        }
    }

    /// Returns whether an arrival since `since` has waited too long by `now`. An arrival after `now` hasn't.
    fn is_late(&self, since: Instant, now: Option<Instant>) -> bool {
        match now {
            Some(now) => match now.checked_duration_since(since) {
                Some(time) => time >= self.patience,
                None => false,
            },
            None => true,
        }
    }

    /// Turns away the arrivals that have waited too long by `now`; all if `now` is none.
    pub(crate) fn turn_away_late<R: Wait>(&self, rt: &R, now: Option<Instant>) {
        for _ in 0..MOST {
            match self.next_late(rt, now) {
                Some(arrival) => arrival.turn_away(self.alloc, self.no_seat.as_bytes()),
                None => return,
            }
        }
    }

    /// Closes the lobby: no connection is heard or gets a slot any more.
    pub(crate) fn close<R: Wait>(&self, rt: &R) {
        let present = self.present.lock(rt);
        for unheard in &present.unheard {
            let _ = unheard.handle.shutdown(Shutdown::Both);
        }
        drop(present);
        self.close_slots(rt);
    }

    /// Turns away the arrivals that wait for a slot, and those that come later.
    pub(crate) fn close_slots<R: Wait>(&self, rt: &R) {
        self.present.lock(rt).has_no_slots = true;
        for _ in 0..MOST {
            match self.next(rt) {
                Some(arrival) => arrival.turn_away(self.alloc, self.no_seat.as_bytes()),
                None => return,
            }
        }
    }
}
