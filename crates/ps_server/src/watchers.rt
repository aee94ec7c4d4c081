//! Two threads that wait for input and for changes, for all sessions and followers of a server.
//!
//! The listening thread sleeps until a watched connection has input: that of a follower (a browser with a WebSocket for
//! the news), or that of a session that waits for changes. The telling thread sleeps until there are changes. Then the
//! listening thread sends their number to each follower.

use crate::shared::SharedState;
use mio::unix::SourceFd;
use mio::{Events, Interest, Poll, Registry, Token, Waker};
use ps_desk::{Alarm, Desk, DeskName, Lookout, Watch, desk_is_sync};
use ps_keep::Device;
use ps_kept_desk::keeper_is_sync;
use ps_page::{NewsSocket, turn_browser_away};
use ps_session::Resources;
use std::alloc::Global;
use std::net::{Net, Shutdown, TcpStream};
use std::os::fd::AsRawFd;
use std::sync::atomic::{AtomicBool, AtomicU64, Ordering};
use std::sync::{Mutex, Wait};
use std::thread::{Parker, Scope, Threads};
use std::time::{Clock, Duration};

/// The most browsers that may follow the changes at a time.
const MOST_FOLLOWERS: u64 = 512;

/// The most connections that the system reports to the listening thread at a time.
const MOST_EVENTS: usize = 256;

/// The number of the event by which other threads wake the listening thread. Slots and followers have lower numbers.
const CALL: usize = usize::MAX;

/// How long the telling thread sleeps at most while nothing changes, in seconds.
const LONGEST: u64 = 86_400;

/// A browser that asked to follow the changes, and that the listening thread doesn't know yet.
#[derive(Drop)]
struct Newcomer {
    stream: TcpStream,
    /// how many changes there were when it came
    version: u64,
}

/// The poll in which the listening thread sleeps.
#[derive(Drop)]
pub(crate) struct Ears {
    poll: Poll,
    events: Events<Global>,
}

/// What the listening and the telling thread share with the other threads of a server.
#[derive(Drop)]
pub(crate) struct Watchers {
    lookout: Lookout,
    slots: usize,
    /// ends a sleep of the listening thread
    waker: Waker,
    /// ends a sleep of the telling thread while nobody follows the changes
    parker: Parker,
    /// ends its sleep at the desk
    alarm: Alarm,
    newcomers: Mutex<Vec<Newcomer>>,
    /// how many browsers follow the changes
    followers: AtomicU64,
    /// the number of changes to report to followers
    told: AtomicU64,
    /// whether changes are reported to followers; false once a sync failed, or at the close
    tells: AtomicBool,
    is_closed: AtomicBool,
}

/// The sockets of the followers. A follower's number comes after those of the slots.
type Followers = Vec<Option<NewsSocket>>;

impl Watchers {
    /// Creates what the threads share, and the poll of the listening thread. `slots` is the number of session slots.
    /// Returns none if the system refuses, or when out of memory.
    pub(crate) fn open<R: Net>(rt: &R, alloc: Global, slots: usize) -> Option<(Watchers, Ears)> {
        let poll = Poll::new(rt).ok()?;
        let events = Events::with_capacity(alloc, MOST_EVENTS).ok()?;
        let waker = Waker::new(poll.registry(), Token(CALL)).ok()?;
        let registry = poll.registry().try_clone().ok()?;
        let lookout = Lookout::new(alloc, registry, slots).ok()?;
        let watchers = Watchers {
            lookout,
            slots,
            waker,
            parker: Parker::new(),
            alarm: Alarm::new(),
            newcomers: Mutex::new(Vec::new(alloc)),
            followers: AtomicU64::new(0),
            told: AtomicU64::new(0),
            tells: AtomicBool::new(true),
            is_closed: AtomicBool::new(false),
        };
        Some((watchers, Ears { poll, events }))
    }

    /// Returns the watch of the slot with this number, which ends a session's wait once its client sends something.
    pub(crate) fn watch(&self, number: usize) -> Watch<'_> {
        Watch {
            lookout: &self.lookout,
            number,
        }
    }

    /// Returns whether one more browser may follow the changes.
    pub(crate) fn has_room(&self) -> bool {
        self.tells.load(Ordering::SeqCst) && self.followers.load(Ordering::SeqCst) < MOST_FOLLOWERS
    }

    /// Makes a browser a follower, which is sent the number of changes. With a keeper, these changes are made durable
    /// first.
    ///
    /// The browser is turned away if too many follow already, if changes are no longer reported, or if a sync fails.
    pub(crate) fn join<L: DeskName, W: Wait + Drop, D: Device + Drop, R: Wait + Clock>(
        &self,
        resources: Resources<'_, R>,
        desk: &Desk<L, W>,
        shared: &SharedState<L, D>,
        stream: TcpStream,
    ) {
        let Resources { threads, alloc } = resources;
        let has_room = self.followers.fetch_add(1, Ordering::SeqCst) < MOST_FOLLOWERS;
        let version = desk.news(threads, 0, Duration::ZERO, &self.alarm);
        let tells = self.tells.load(Ordering::SeqCst);
        if has_room && tells && shared.has_kept(resources, desk) {
            let mut newcomers = self.newcomers.lock(threads);
            if newcomers.push(Newcomer { stream, version }).is_err() {
                self.follows_no_more();
            }
            drop(newcomers);
        } else {
            self.follows_no_more();
            turn_browser_away(alloc, &stream);
            let _ = stream.shutdown(Shutdown::Both);
        }
        self.call();
    }

    /// Has both threads end, and closes the sockets of all followers.
    pub(crate) fn close<L: DeskName, W: Wait + Drop, R: Wait>(&self, rt: &R, desk: &Desk<L, W>) {
        self.is_closed.store(true, Ordering::SeqCst);
        self.tells.store(false, Ordering::SeqCst);
        desk.raise(rt, &self.alarm);
        self.call();
    }

    /// Wakes the listening thread, and the telling thread if that sleeps as it has no followers.
    fn call(&self) {
        self.parker.unpark();
        let _ = self.waker.wake();
    }

    fn is_closed(&self) -> bool {
        self.is_closed.load(Ordering::SeqCst)
    }

    /// Notes that a browser no longer follows the changes.
    fn follows_no_more(&self) {
        self.followers.fetch_sub(1, Ordering::SeqCst);
    }

    /// Handles input of a connection, by the number of its event. For a slot, raises the alarm that ends its session's
    /// wait. For a follower, skips the input, and closes the socket if the browser has left.
    fn heed<L: DeskName, W: Wait + Drop, R: Wait>(
        &self,
        rt: &R,
        desk: &Desk<L, W>,
        number: usize,
        followers: &mut Followers,
    ) {
        if let Some(alarm) = self.lookout.alarm(number) {
            desk.raise(rt, alarm);
            return;
        }
        let Some(place) = number.checked_sub(self.slots) else {
            return;
        };
        if let Some(follower) = followers.get_mut(place) {
            let stays = match follower {
                Some(socket) => socket.is_there(),
                None => true,
            };
            if !stays {
                self.let_go(follower);
            }
        }
    }

    /// Closes the socket of a follower, if it has one, and frees the entry.
    fn let_go(&self, follower: &mut Option<NewsSocket>) {
        if let Some(socket) = follower.take() {
            socket.leave();
            self.follows_no_more();
        }
    }

    /// Sends each follower the number of changes, and closes the sockets on which that fails. If changes are no longer
    /// reported, closes all.
    fn tell_all(&self, followers: &mut Followers) {
        let version = self.told.load(Ordering::SeqCst);
        let tells = self.tells.load(Ordering::SeqCst);
        for follower in followers.iter_mut() {
            let stays = match follower {
                Some(socket) => tells && socket.tell(version).is_ok(),
                None => true,
            };
            if !stays {
                self.let_go(follower);
            }
        }
    }

    /// Takes in the browsers that came since the last call.
    fn take_in<R: Wait>(
        &self,
        rt: &R,
        alloc: Global,
        registry: &Registry,
        followers: &mut Followers,
    ) {
        for _ in 0..MOST_FOLLOWERS {
            let mut newcomers = self.newcomers.lock(rt);
            let newcomer = newcomers.pop();
            drop(newcomers);
            match newcomer {
                Some(newcomer) => self.follow(alloc, registry, newcomer, followers),
                None => return,
            }
        }
    }

    /// Makes a newcomer a follower, and sends it the number of changes. Closes its socket if that fails.
    fn follow(
        &self,
        alloc: Global,
        registry: &Registry,
        newcomer: Newcomer,
        followers: &mut Followers,
    ) {
        let Newcomer { stream, version } = newcomer;
        let mut follower = Some(NewsSocket::new(alloc, stream));
        if let Some(place) = free_place(followers) {
            let number = self.slots.wrapping_add(place);
            let stays = match &mut follower {
                Some(socket) => is_heard(registry, socket, number) && socket.tell(version).is_ok(),
                None => false,
            };
            if let (true, Some(free)) = (stays, followers.get_mut(place)) {
                *free = follower.take();
            }
        }
        self.let_go(&mut follower);
    }
}

/// Has input of a follower wake the listening thread, with this number, and returns whether the system allows it.
fn is_heard(registry: &Registry, socket: &NewsSocket, number: usize) -> bool {
    let file = socket.connection().as_raw_fd();
    let mut source = SourceFd(&file);
    registry
        .register(&mut source, Token(number), Interest::READABLE)
        .is_ok()
}

/// Returns the index of an entry without a follower, of a new one if need be; none when out of memory.
fn free_place(followers: &mut Followers) -> Option<usize> {
    let mut place = 0;
    for follower in followers.iter() {
        if follower.is_none() {
            return Some(place);
        }
        place = place.wrapping_add(1);
    }
    followers.push(None).ok()?;
    Some(place)
}

/// Starts the two threads, and returns what they share; none if the listening thread can't be started. Without the
/// telling thread no changes are reported.
pub(crate) fn start<
    's,
    E,
    L: DeskName + Send + Sync + 's,
    W: Wait + Drop + Send + 's,
    D: Device + Drop + Send + 's,
    R: Threads + Wait + Clock + Sync,
>(
    scope: &Scope<'s, E>,
    resources: Resources<'s, R>,
    desk: &'s Desk<L, W>,
    shared: &'s SharedState<L, D>,
    watchers: Option<&'s Watchers>,
    ears: Option<Ears>,
) -> Option<&'s Watchers> {
    // for the facts that threads may share the desk and the keeper
    desk_is_sync::<L, W>();
    keeper_is_sync::<L, D>();
    let watchers = watchers?;
    let ears = ears?;
    if scope
        .spawn(move || listen(resources, desk, watchers, ears))
        .is_err()
    {
        return None;
    }
    if scope
        .spawn(move || tell(resources, desk, shared, watchers))
        .is_err()
    {
        watchers.tells.store(false, Ordering::SeqCst);
    }
    Some(watchers)
}

/// Runs the listening thread until the close. After each sleep it handles the input that came, takes in newcomers, and
/// sends followers the number of changes.
fn listen<L: DeskName, W: Wait + Drop, R: Wait>(
    resources: Resources<'_, R>,
    desk: &Desk<L, W>,
    watchers: &Watchers,
    ears: Ears,
) {
    let Resources { threads, alloc } = resources;
    let Ears {
        mut poll,
        mut events,
    } = ears;
    let mut followers = Vec::new(alloc);
    for _ in threads.forever() {
        if poll.poll(&mut events, None).is_err() {
            return;
        }
        for event in events.iter() {
            let Token(number) = event.token();
            watchers.heed(threads, desk, number, &mut followers);
        }
        watchers.take_in(threads, alloc, poll.registry(), &mut followers);
        watchers.tell_all(&mut followers);
        if watchers.is_closed() {
            return;
        }
    }
}

/// Runs the telling thread until the close. It sleeps until there are followers and more changes, and then wakes the
/// listening thread to report these.
///
/// With a keeper, changes are made durable before they are reported. If that fails, none are reported any more.
fn tell<L: DeskName, W: Wait + Drop, D: Device + Drop, R: Wait + Clock>(
    resources: Resources<'_, R>,
    desk: &Desk<L, W>,
    shared: &SharedState<L, D>,
    watchers: &Watchers,
) {
    let rt = resources.threads;
    let mut told = 0;
    for _ in rt.forever() {
        if watchers.is_closed() {
            return;
        }
        if watchers.followers.load(Ordering::SeqCst) == 0 {
            watchers.parker.park(rt);
        } else {
            let longest = Duration::from_secs(LONGEST);
            let version = desk.news(rt, told, longest, &watchers.alarm);
            if version > told {
                if !shared.has_kept(resources, desk) {
                    watchers.tells.store(false, Ordering::SeqCst);
                }
                told = version;
                watchers.told.store(version, Ordering::SeqCst);
                let _ = watchers.waker.wake();
            }
        }
    }
}
