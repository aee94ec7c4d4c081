//! Reads and answers the request of a browser.
ghost use Rattle.std.specs.Prelude.{◌≡◌, true};
ghost use Rattle.ps_page.specs.Messages.{Greets};
ghost use Rattle.ps_page.specs.declared.greeting.Greeted.TheVariants as Greeted;

use crate::head::{Answer, Refused, read_head};
use crate::page::PAGE;
use crate::response::{About, respond, respond_about, respond_page};
use std::alloc::Global;
use std::io;
use std::io::{ErrorKind, Read, Write};
use std::net::{Shutdown, TcpStream};
use std::time::{Clock, Duration, Instant};
use websocket::handshake::server::write_response;

/// How long a head may take, in seconds.
const HEAD_SECONDS: u64 = 10;

/// How long a browser may leave a response unread, in seconds.
const UNREAD_SECONDS: u64 = 10;

/// How long the rest of the input is read after a response, in seconds.
const DRAIN_SECONDS: u64 = 1;

/// The most bytes of one read.
const PIECE_BYTES: usize = 4096;

/// What a browser's connection is used for after the browser's request.
#[derive(Clone, Copy, Debug, PartialEq, Eq)]
pub enum Greeted {
    /// Nothing more: the request was answered, or couldn't be read or answered.
    Answered,
    /// The WebSocket of a session, whose messages are lines and replies.
    Live,
    /// A WebSocket on which the server reports the number of changes.
    News,
}

/// A reader of a connection, which fails with `TimedOut` from `end` on.
#[derive(Drop)]
struct Timed<'a, C: Clock> {
    stream: &'a TcpStream,
    clock: &'a C,
    end: Instant,
}

impl<C: Clock> Read for Timed<'_, C> {
    fn read(&mut self, buf: &mut [u8]) -> io::Result<usize> {
        let now = Instant::now(self.clock)?;
        let left = self.end.duration_since(now);
        if left.is_zero() {
            return Err(io::Error::from(ErrorKind::TimedOut));
        }
        self.stream.set_read_timeout(Some(left))?;
        let mut stream = self.stream;
        stream.read(buf)
    }
}

/// Returns a reader of a connection that fails once `time` has passed; `None` if the clock fails.
fn until<'a, C: Clock>(
    clock: &'a C,
    stream: &'a TcpStream,
    time: Duration,
) -> Option<Timed<'a, C>> {
    let end = Instant::now(clock).ok()?.checked_add(time)?;
    Some(Timed { stream, clock, end })
}

/// Answers the request of a browser, and returns what the connection is used for next. `front` has the first bytes of
/// the request, which were read before.
///
/// The browser has ten seconds to send the rest of the head, and ten to take each write. Unless the call opens a
/// WebSocket, it ends with [`drain`] for at most a second. If the clock fails, the call only returns `Answered`.
///
/// Cost: linear in the bytes of the head and of the page, and the time that the browser takes.
pub fn greet<C: Clock>(
    clock: &C,
    alloc: Global,
    front: &[u8],
    stream: &TcpStream,
    about: About<'_>,
) -> Greeted {
    let _ = stream.set_write_timeout(Some(Duration::from_secs(UNREAD_SECONDS)));
    let Some(reader) = until(clock, stream, Duration::from_secs(HEAD_SECONDS)) else {
        return Greeted::Answered;
    };
    let mut reader = front.chain(reader);
    let mut writer = stream;
    let greeted = answer_request(alloc, &mut reader, &mut writer, about);
    if greeted == Greeted::Answered {
        drain(clock, stream, Duration::from_secs(DRAIN_SECONDS));
    }
    greeted
}

/// Reads the head of a request from `reader`, and writes the response to `writer`.
///
/// Returns `Live` or `News` if the call opened a WebSocket. Otherwise it returns `Answered`, also if a read or a write
/// failed, or when out of memory. [`greet`] calls this function on a connection, and limits the time.
///
/// Cost: linear in the bytes of the head and of the page, and the time that both sides take.
pub fn answer_request<R: Read, W: Write>(
    alloc: Global,
    reader: &mut R,
    writer: &mut W,
    about: About<'_>,
) -> Greeted
    ensures greets { Greets (R.remaining reader.old) (R.remaining reader.new) result }
    ensures room { result ≡ Greeted.News → about.entry.has_room ≡ true }
{
    match read_head(alloc, reader) {
        Some(Answer::Page) => {
            let _ = respond_page(writer, PAGE.as_bytes());
        }
        Some(Answer::About) => {
            if let Ok(lines) = about.lines(alloc) {
                let _ = respond_about(writer, lines.as_slice());
            }
        }
        Some(Answer::Live(accept)) => {
            if is_opened(alloc, &accept, writer) {
                return Greeted::Live;
            }
        }
        Some(Answer::News(accept)) => {
            if !about.has_room {
                let _ = respond(writer, Refused::Unavailable);
            } else if is_opened(alloc, &accept, writer) {
                return Greeted::News;
            }
        }
        Some(Answer::Refuse(refused)) => {
            let _ = respond(writer, refused);
        }
        Some(Answer::More) | None => {}
    }
    Greeted::Answered
}

/// Writes the response that opens a WebSocket, and returns whether that succeeded. `accept` is the value of
/// `Sec-WebSocket-Accept`.
fn is_opened<W: Write>(alloc: Global, accept: &[u8; 28], writer: &mut W) -> bool {
    let mut head = Vec::new(alloc);
    write_response(accept, &[], &mut head).is_ok() && writer.write_all(head.as_slice()).is_ok()
}

/// Shuts down the output of a connection, and drops its input: to the end, for at most `time`, in at most 256 reads.
/// Call it before a close: if a connection is closed with unread input, the system resets the connection, and the peer
/// may lose the response.
///
/// Cost: the reads, and the time that they wait.
pub fn drain<C: Clock>(clock: &C, stream: &TcpStream, time: Duration) {
    let _ = stream.shutdown(Shutdown::Write);
    let Some(mut reader) = until(clock, stream, time) else {
        return;
    };
    let mut piece = [0u8; PIECE_BYTES];
    for _ in 0..256 {
        match reader.read(&mut piece) {
            Ok(0) | Err(_) => return,
            Ok(_) => {}
        }
    }
}
