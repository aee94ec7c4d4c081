//! Whether a session's peer still waits for its reply, and the alarms that end a wait early.

use mio::unix::SourceFd;
use mio::{Interest, Registry, Token};
use std::alloc::{AllocError, Global};
use std::io::ErrorKind;
use std::net::TcpStream;
use std::os::fd::AsRawFd;
use std::sync::atomic::{AtomicBool, Ordering};

/// A flag that ends a wait at a desk early, once [`crate::Desk::raise`] has raised it.
#[derive(Drop)]
pub struct Alarm {
    is_raised: AtomicBool,
}

impl Alarm {
    /// Creates an alarm that isn't raised.
    pub fn new() -> Alarm {
        Alarm {
            is_raised: AtomicBool::new(false),
        }
    }

    /// Raises the alarm, and wakes nobody.
    pub(crate) fn raise(&self) {
        self.is_raised.store(true, Ordering::SeqCst);
    }

    /// Returns whether the alarm is raised.
    pub(crate) fn is_raised(&self) -> bool {
        self.is_raised.load(Ordering::SeqCst)
    }

    /// Lowers the alarm.
    fn lower(&self) {
        self.is_raised.store(false, Ordering::SeqCst);
    }
}

/// Watches the connections of the sessions that wait, and has an alarm for each session slot.
///
/// The lookout's owner has a thread that sleeps until one of these connections has something to read. The system then
/// reports the number of the connection's slot, and the thread raises the alarm of this slot.
#[derive(Drop)]
pub struct Lookout {
    registry: Registry,
    /// one for each slot
    alarms: Vec<Alarm>,
}

impl Lookout {
    /// Creates a lookout for `slots` session slots. `registry` belongs to the `mio::Poll` that the owner's thread
    /// sleeps on. Fails when out of memory.
    pub fn new(alloc: Global, registry: Registry, slots: usize) -> Result<Lookout, AllocError> {
        let mut alarms = Vec::with_capacity(alloc, slots)?;
        for _ in 0..slots {
            alarms.push(Alarm::new())?;
        }
        Ok(Lookout { registry, alarms })
    }

    /// Returns the alarm of the slot with this number, counted from 0; none if there is no slot with this number.
    pub fn alarm(&self, number: usize) -> Option<&Alarm> {
        self.alarms.get(number)
    }

    /// Lowers the alarm of a slot, and registers the connection, so that the alarm is raised once the connection has
    /// something to read. Returns the alarm; none if there is no such slot or the system refuses.
    fn watch(&self, stream: &TcpStream, number: usize) -> Option<&Alarm> {
        self.forget(stream);
        let alarm = self.alarm(number)?;
        alarm.lower();
        let file = stream.as_raw_fd();
        let mut source = SourceFd(&file);
        match self
            .registry
            .register(&mut source, Token(number), Interest::READABLE)
        {
            Ok(()) => Some(alarm),
            Err(_) => None,
        }
    }

    /// Ends the registration of a connection.
    fn forget(&self, stream: &TcpStream) {
        let file = stream.as_raw_fd();
        let _ = self.registry.deregister(&mut SourceFd(&file));
    }
}

/// A lookout, and the number of the session slot whose peer the lookout watches.
#[derive(Clone, Copy)]
pub struct Watch<'a> {
    /// The lookout.
    pub lookout: &'a Lookout,
    /// The number of the session slot, from 0.
    pub number: usize,
}

/// A session's peer: the client at the other end of a connection.
#[derive(Clone, Copy)]
pub struct Presence<'a> {
    stream: &'a TcpStream,
    watch: Option<Watch<'a>>,
}

impl<'a> Presence<'a> {
    /// Returns the peer at the other end of this connection. While the result is in use, nothing else may read from the
    /// connection.
    pub fn of(stream: &'a TcpStream) -> Presence<'a> {
        Presence {
            stream,
            watch: None,
        }
    }

    /// Returns the same peer, which the lookout of `watch` watches while the peer's session waits. If `watch` is
    /// `None`, no lookout watches the peer.
    pub fn watched_by(self, watch: Option<Watch<'a>>) -> Presence<'a> {
        Presence {
            stream: self.stream,
            watch,
        }
    }

    /// Returns whether the peer still waits: it has neither closed the connection nor sent bytes that are still unread.
    /// Returns false if the system can't say.
    ///
    /// Cost: three system calls.
    pub fn is_waiting(&self) -> bool {
        is_silent(self.stream)
    }

    /// Returns an alarm that is raised once the peer closes the connection or sends more. Returns none if no lookout
    /// watches the peer; then the caller has to poll [`Presence::is_waiting`].
    ///
    /// The alarm may also be raised for something that happened earlier.
    pub(crate) fn watch(&self) -> Option<&'a Alarm> {
        let Watch { lookout, number } = self.watch?;
        lookout.watch(self.stream, number)
    }

    /// Ends the watch that [`Presence::watch`] began.
    pub(crate) fn unwatch(&self) {
        if let Some(watch) = self.watch {
            watch.lookout.forget(self.stream);
        }
    }
}

/// Returns whether a connection is open, and no byte has arrived.
fn is_silent(stream: &TcpStream) -> bool {
    if stream.set_nonblocking(true).is_err() {
        return false;
    }
    let mut byte = [0u8; 1];
    let seen = stream.peek(&mut byte);
    if stream.set_nonblocking(false).is_err() {
        return false;
    }
    match seen {
        Ok(_) => false,
        Err(fault) => fault.kind() == ErrorKind::WouldBlock,
    }
}
