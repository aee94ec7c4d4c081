//! What the system reports of an input and of a connection: that one of them has bytes.

use mio::unix::SourceFd;
use mio::{Events, Interest, Poll, Token};
use std::alloc::Global;
use std::net::{Net, TcpStream};
use std::os::fd::{AsRawFd, RawFd};
use std::time::Duration;

/// The number under which the input is reported.
const INPUT: usize = 0;

/// .. and the connection.
const SERVER: usize = 1;

/// How many reports are read at once.
const MOST_EVENTS: usize = 2;

/// How long to sleep at most. A connection has to show some life within that time.
const LONGEST_SLEEP: u64 = 30;

/// Sleeps until an input or a connection has bytes.
#[derive(Drop)]
pub(crate) struct Poller {
    poll: Poll,
    events: Events<Global>,
    input: RawFd,
    server: RawFd,
}

impl Poller {
    /// Returns a poller of the input with this descriptor, and of no connection yet; none if the system or the memory
    /// doesn't allow it.
    pub(crate) fn open<R: Net>(rt: &R, alloc: Global, input: RawFd) -> Option<Poller> {
        let poll = Poll::new(rt).ok()?;
        let events = Events::with_capacity(alloc, MOST_EVENTS).ok()?;
        Some(Poller {
            poll,
            events,
            input,
            server: input,
        })
    }

    /// Has what comes from this connection reported.
    pub(crate) fn watch(&mut self, stream: &TcpStream) {
        self.server = stream.as_raw_fd();
    }

    /// Has what this descriptor has now, or gets, reported under this number. Returns whether that can be: of a file it
    /// can't.
    fn listen(&self, file: RawFd, number: usize) -> bool {
        let mut source = SourceFd(&file);
        let registry = self.poll.registry();
        let _ = registry.deregister(&mut source);
        registry
            .register(&mut source, Token(number), Interest::READABLE)
            .is_ok()
    }

    /// Waits this long for a report, and returns whether one is about the input.
    fn has_input(&mut self, longest: Duration) -> bool {
        // (a wait that a signal ends has no reports)
        let _ = self.poll.poll(&mut self.events, Some(longest));
        for event in self.events.iter() {
            let Token(number) = event.token();
            if number == INPUT {
                return true;
            }
        }
        false
    }

    /// Returns whether a read of the input wouldn't wait.
    ///
    /// Cost: three system calls.
    pub(crate) fn is_ready(&mut self) -> bool {
        !self.listen(self.input, INPUT) || self.has_input(Duration::ZERO)
    }

    /// Sleeps until the input or the connection has bytes or has ended, for at most 30 seconds, and returns whether the
    /// input has. An input that can't be reported counts as if it had, at once.
    pub(crate) fn is_input_first(&mut self) -> bool {
        if !self.listen(self.input, INPUT) || !self.listen(self.server, SERVER) {
            return true;
        }
        self.has_input(Duration::from_secs(LONGEST_SLEEP))
    }

    /// Sleeps until the input or the connection has bytes or has ended, for at most 30 seconds.
    pub(crate) fn sleep(&mut self) {
        if self.listen(self.input, INPUT) && self.listen(self.server, SERVER) {
            self.has_input(Duration::from_secs(LONGEST_SLEEP));
        }
    }
}
