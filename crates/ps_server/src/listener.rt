//! The listener of a server, and the sleep of the main thread until a connection comes.

use crate::bell::Bell;
use mio::unix::SourceFd;
use mio::{Events, Interest, Poll, Token, Waker};
use std::alloc::Global;
use std::io;
use std::io::ErrorKind;
use std::net::{Net, TcpListener, TcpStream};
use std::os::fd::AsRawFd;
use std::sync::Wait;
use std::time::Duration;

/// The system's error if the program has as many files open as it may have.
const EMFILE: i32 = 24;

/// The system's error if all programs together have as many files open as they may have.
const ENFILE: i32 = 23;

/// The system's error if it has no memory.
const ENOMEM: i32 = 12;

/// The number of the poll's event that a connection comes.
const COMES: usize = 0;

/// The number of the poll's event that the bell rings.
const RINGS: usize = 1;

/// A poll in which the main thread sleeps until a connection comes or the bell rings.
#[derive(Drop)]
struct Sleep {
    poll: Poll,
    events: Events<Global>,
}

impl Sleep {
    /// Creates a poll that a connection at `listener` ends, or a ring of `bell`. Returns none if the system refuses a
    /// part of it, or when out of memory.
    fn open<R: Net>(rt: &R, alloc: Global, listener: &TcpListener, bell: &Bell) -> Option<Sleep> {
        let poll = Poll::new(rt).ok()?;
        let events = Events::with_capacity(alloc, 2).ok()?;
        let file = listener.as_raw_fd();
        let mut source = SourceFd(&file);
        poll.registry()
            .register(&mut source, Token(COMES), Interest::READABLE)
            .ok()?;
        bell.wakes(Waker::new(poll.registry(), Token(RINGS)).ok()?);
        Some(Sleep { poll, events })
    }
}

/// A listener that doesn't block, and the poll in which the main thread waits for it.
#[derive(Drop)]
pub(crate) struct Listener<'a> {
    listener: &'a TcpListener,
    /// none if the main thread can't sleep until a connection comes
    sleep: Option<Sleep>,
}

impl<'a> Listener<'a> {
    /// Makes the listener non-blocking, and has the bell wake the main thread from now on.
    pub(crate) fn open<R: Net>(
        rt: &R,
        alloc: Global,
        listener: &'a TcpListener,
        bell: &Bell,
    ) -> io::Result<Listener<'a>> {
        listener.set_nonblocking(true)?;
        let sleep = Sleep::open(rt, alloc, listener, bell);
        Ok(Listener { listener, sleep })
    }

    /// Returns the next connection, if there is one.
    pub(crate) fn come<R: Wait>(&self, rt: &R) -> io::Result<Option<TcpStream>> {
        match accept(rt, self.listener) {
            Ok(stream) => Ok(Some(stream)),
            Err(error) => match error.kind() {
                ErrorKind::WouldBlock => Ok(None),
                _ => Err(error),
            },
        }
    }

    /// Sleeps until a connection comes or the bell rings, for `longest` at most. Returns false at once if the system
    /// doesn't allow that.
    ///
    /// A ring, or a connection since [`Listener::come`] last found none, ends the sleep at once. An earlier connection
    /// that wasn't accepted doesn't.
    pub(crate) fn sleep(&mut self, longest: Option<Duration>) -> bool {
        match &mut self.sleep {
            Some(sleep) => sleep.poll.poll(&mut sleep.events, longest).is_ok(),
            None => false,
        }
    }

    /// Makes the listener blocking again.
    pub(crate) fn close(&self) {
        let _ = self.listener.set_nonblocking(false);
    }
}

/// Returns whether the reason for which no connection can be accepted may pass: too many open files, or no memory.
pub(crate) fn passes(error: &io::Error) -> bool {
    match error.raw_os_error() {
        Some(number) => number == EMFILE || number == ENFILE || number == ENOMEM,
        None => false,
    }
}

/// Accepts the next connection of a listener. Tries again if the call was interrupted or the client has left meanwhile.
///
/// Any other failure is returned: `WouldBlock`, too, if a non-blocking listener has no connection.
fn accept<R: Wait>(rt: &R, listener: &TcpListener) -> io::Result<TcpStream> {
    for _ in rt.forever() {
        match listener.accept() {
            Ok((stream, _)) => return Ok(stream),
            Err(error) => match error.kind() {
                ErrorKind::Interrupted | ErrorKind::ConnectionAborted => {}
                _ => return Err(error),
            },
        }
    }
    unreachable!()
}
