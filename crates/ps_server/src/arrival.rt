//! What a connection wants: a slot, the news, or neither.

use crate::guard::{Unadmitted, admit};
use ps_page::{About, Greeted, greet, turn_browser_away};
use std::alloc::Global;
use std::io::{Read, Write};
use std::net::{Shutdown, TcpStream};
use std::time::{Clock, Duration};

/// The most pieces that are read from a connection that is turned away.
const PIECES: usize = 64;

/// What a session's connection carries.
#[derive(Drop)]
pub(crate) enum Speech {
    /// Lines; the first bytes were read already.
    Lines(Vec<u8>),
    /// The messages of a WebSocket that was just opened.
    Messages,
}

/// A connection that wants a slot.
#[derive(Drop)]
pub(crate) struct Arrival {
    pub(crate) stream: TcpStream,
    pub(crate) speech: Speech,
}

/// What a connection wants, by its first bytes.
#[derive(Drop)]
pub(crate) enum Request {
    /// A slot.
    Slot(Arrival),
    /// The reports of changes, by a WebSocket that was just opened.
    News(TcpStream),
    /// Nothing more: it was answered, or its client has left.
    Nothing,
}

impl Request {
    /// Returns what a connection wants, by its first bytes. A request of HTTP is answered.
    pub(crate) fn read<C: Clock>(
        clock: &C,
        alloc: Global,
        idle: Option<Duration>,
        about: About<'_>,
        stream: TcpStream,
    ) -> Request {
        // otherwise the system may hold a reply back, to send it with a later one
        let _ = stream.set_nodelay(true);
        if idle.is_some() {
            let _ = stream.set_read_timeout(idle);
            let _ = stream.set_write_timeout(idle);
        }
        let mut front = Vec::new(alloc);
        let mut reader = &stream;
        let speech = match admit(&mut reader, &mut front) {
            Ok(()) => Speech::Lines(front),
            Err(Unadmitted::Failed) => return Request::Nothing,
            Err(Unadmitted::Request) => match greet(
                clock,
                alloc,
                front.as_slice(),
                &stream,
                about,
            ) {
                Greeted::Live => Speech::Messages,
                Greeted::News => return Request::News(stream),
                Greeted::Answered => return Request::Nothing,
            },
        };
        Request::Slot(Arrival { stream, speech })
    }
}

impl Arrival {
    /// Returns whether the connection is a browser's.
    pub(crate) fn is_browser(&self) -> bool {
        matches!(self.speech, Speech::Messages)
    }

    /// Closes the connection, and lets its client know that there is no slot: by the line `no_seat`, or to a browser by
    /// a close code.
    pub(crate) fn turn_away(self, alloc: Global, no_seat: &[u8]) {
        let Arrival { stream, speech } = self;
        match speech {
            Speech::Lines(_) => turn_away(stream, no_seat),
            Speech::Messages => {
                turn_browser_away(alloc, &stream);
                turn_away(stream, b"");
            }
        }
    }
}

/// Writes the bytes `last` on a connection that gets no slot, and closes the connection.
pub(crate) fn turn_away(mut stream: TcpStream, last: &[u8]) {
    let _ = stream.set_nonblocking(true);
    let _ = stream.write(last);
    let _ = stream.shutdown(Shutdown::Write);
    // With unread bytes the system would reset the connection, and its peer could lose what was sent.
    let mut piece = [0u8; 4096];
    for _ in 0..PIECES {
        match stream.read(&mut piece) {
            Ok(count) if 0 < count => {}
            _ => return,
        }
    }
}
