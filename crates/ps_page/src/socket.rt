//! A WebSocket as the source and the sink of a session. Each message of the browser is a line. The replies that a
//! session sends at once are one message to the browser.
ghost use Rattle.std.specs.Prelude.{◌≡◌, ◌+◌, ◌-◌, ◌==◌, ◌&&◌, ◌≤◌, [], None, OnOk, drop, length, min, not, take};
ghost use Rattle.std.specs.Prelude.{vec_len};
ghost use Rattle.std.specs.List.{list_all};
ghost use Rattle.websocket.specs.Connection.{write_step};
ghost use Rattle.websocket.specs.Content.{text};
ghost use Rattle.tungstenite.specs.Socket.{Writes};
ghost use Rattle.ps_grid.specs.Blanks.{IsBlankOf};
ghost use Rattle.ps_page.specs.Messages.{Hears, carriage_return, is_line, line_feed};

use ps_device::{Failed, Sink, Source};
use ps_grid::GhostCount;
use std::alloc::Global;
use std::io;
use std::io::{Read, Write};
use std::net::TcpStream;
use std::sync::ledger::{Blank, Ledger};
use std::time::Duration;
use tungstenite::{
    CloseCode, CloseFrame, Message, NoMask, Role, Utf8Bytes, WebSocket, WebSocketConfig,
};

/// The most bytes of one read, and of a browser's message on a WebSocket whose messages are ignored.
pub(crate) const PIECE_BYTES: usize = 4096;

/// How long a WebSocket may be open before its first message begins, in seconds.
const FIRST_SECONDS: u64 = 10;

/// How long a browser may be silent from then on, in seconds, unless its server says otherwise.
const SILENT_SECONDS: u64 = 300;

/// How long a browser may leave a reply unread, in seconds.
const UNREAD_SECONDS: u64 = 10;

/// The connection of a browser's WebSocket, with limits for the time that the browser takes.
///
/// Reads and writes fail once their time is over: see [`BrowserStream::new`].
#[derive(Drop)]
pub struct BrowserStream<'a> {
    stream: &'a TcpStream,
    /// how long the browser may be silent after its first bytes
    idle: Duration,
    is_heard: bool,
}

impl<'a> BrowserStream<'a> {
    /// Creates the stream over the connection of a WebSocket that was just opened.
    ///
    /// The browser's first message has to begin within ten seconds. From then on the browser may be silent for `idle`,
    /// or for five minutes if `idle` is none. The browser may leave a reply unread for ten seconds.
    pub fn new(stream: &'a TcpStream, idle: Option<Duration>) -> BrowserStream<'a> {
        let _ = stream.set_read_timeout(Some(Duration::from_secs(FIRST_SECONDS)));
        let _ = stream.set_write_timeout(Some(Duration::from_secs(UNREAD_SECONDS)));
        BrowserStream {
            stream,
            idle: idle.unwrap_or(Duration::from_secs(SILENT_SECONDS)),
            is_heard: false,
        }
    }
}

impl Read for BrowserStream<'_> {
    fn read(&mut self, buf: &mut [u8]) -> io::Result<usize> {
        let mut stream = self.stream;
        let count = stream.read(buf)?;
        if !self.is_heard {
            self.is_heard = true;
            stream.set_read_timeout(Some(self.idle))?;
        }
        Ok(count)
    }
}

impl Write for BrowserStream<'_> {
    fn write(&mut self, buf: &[u8]) -> io::Result<usize> {
        let mut stream = self.stream;
        stream.write(buf)
    }

    fn flush(&mut self) -> io::Result<()> {
        let mut stream = self.stream;
        stream.flush()
    }
}

/// Returns the server's side of a WebSocket over this stream. Reading a message of more than `limit` bytes fails.
pub(crate) fn socket_over<S: Read + Write + Drop>(
    alloc: Global,
    stream: S,
    limit: usize,
) -> WebSocket<S, NoMask> {
    let config = WebSocketConfig::default()
        .read_buffer_size(PIECE_BYTES)
        .max_message_size(Some(limit))
        .max_frame_size(Some(limit));
    WebSocket::from_raw_socket(alloc, stream, NoMask, Role::Server, Some(config))
}

/// Closes a WebSocket with a reason.
pub(crate) fn close<S: Read + Write + Drop>(
    socket: &mut WebSocket<S, NoMask>,
    code: CloseCode,
    reason: &'static str,
) {
    let reason = Utf8Bytes::from_static(reason);
    let _ = socket.close(Some(CloseFrame { code, reason }));
}

/// Closes a WebSocket that was just opened, with the code "try again later" (1013).
pub fn turn_browser_away(alloc: Global, stream: &TcpStream) {
    let mut socket = socket_over(alloc, BrowserStream::new(stream, None), PIECE_BYTES);
    close(&mut socket, CloseCode::Again, "no room");
}

/// The result of reading a browser's next message.
#[derive(Clone, Copy, Debug, PartialEq, Eq)]
pub enum Heard {
    /// A message that is one line.
    Line,
    /// A ping, a pong or a close, which a session ignores.
    Idle,
    /// A message that isn't one line, or one line for which there was no memory.
    NoLine,
    /// Nothing more: the browser left, its connection failed, or there was no memory to read the message. The same
    /// holds if the browser sent a frame that isn't allowed, or a message that is too long.
    Left,
}

/// Returns whether a message is one line: it isn't empty, and has no line feed and no carriage return.
fn is_line(line: &[u8]) -> bool
    ensures { result ≡ is_line line.now }
{
    !line.is_empty() && is_undivided(line)
}

/// Returns whether no byte is a line feed or a carriage return.
fn is_undivided(line: &[u8]) -> bool
    ensures { result ≡ list_all (λ b. not (b == line_feed) && not (b == carriage_return)) line.now }
{
    line.iter().all(|b| *b != b'\n' && *b != b'\r')
}

/// Reads the next message of a browser, and returns what was read. If the message is one line, `bytes` has exactly this
/// line and a line feed afterwards. The former bytes are dropped in any case.
///
/// Cost: linear in the bytes of the message, and the time that the browser takes.
pub fn hear<S: Read + Write + Drop>(socket: &mut WebSocket<S, NoMask>, bytes: &mut Vec<u8>) -> Heard
    ensures { Hears S.remaining socket.old socket.new bytes.new.items result }
{
    bytes.clear();
    let message = match socket.read() {
        Ok(message) => message,
        Err(_) => return Heard::Left,
    };
    let line = match &message {
        Message::Text(text) => text.as_str().as_bytes(),
        Message::Binary(_) => return Heard::NoLine,
        Message::Ping(_) | Message::Pong(_) | Message::Close(_) => return Heard::Idle,
    };
    if !is_line(line) {
        return Heard::NoLine;
    }
    if bytes.extend_from_slice(line).is_err() || bytes.push(b'\n').is_err() {
        return Heard::NoLine;
    }
    Heard::Line
}

/// Sends text to a browser, as one message. Fails if `bytes` aren't UTF-8, if the connection fails, or when out of
/// memory.
///
/// Cost: linear in the bytes, with the memory for them, and the time that the browser takes.
pub fn say<S: Read + Write + Drop>(
    alloc: Global,
    socket: &mut WebSocket<S, NoMask>,
    bytes: &[u8],
) -> Result<(), Failed>
    ensures { OnOk result (Writes S.contents socket.old socket.new (write_step socket.old.conn (text bytes.now))) }
{
    let Ok(text) = str::from_utf8(bytes) else {
        return Err(Failed);
    };
    let Ok(message) = Message::text(alloc, text) else {
        return Err(Failed);
    };
    match socket.send(message) {
        Ok(()) => Ok(()),
        Err(_) => Err(Failed),
    }
}

/// A source of the lines that a browser sends as messages. Contracts don't see the source's bytes: `remaining` is none.
#[derive(Drop)]
pub struct MessageSource<S: Read + Write + Drop, L: Ledger> {
    socket: WebSocket<S, NoMask>,
    /// how many more messages are read, or pieces returned, before the source fails for good
    tries: u64,
    failed: GhostCount<L>,
    /// the line that was read last
    line: Vec<u8>,
    /// how many of its bytes were returned
    given: usize,
    ghost within: { given ≤ vec_len line },
}

impl<S: Read + Write + Drop, L: Ledger> MessageSource<S, L> {
    /// Creates a source over a stream whose WebSocket is open. A message of more than `limit` bytes ends the source.
    /// `blank` starts the ghost count of the source's failures.
    pub fn new(alloc: Global, stream: S, limit: usize, blank: Blank) -> MessageSource<S, L>
        requires { IsBlankOf blank L.name L.parts }
        ensures { ⟦<MessageSource<S, L> as Source>⟧.failures result ≡ 0 }
    {
        MessageSource {
            socket: socket_over(alloc, stream, limit),
            tries: u64::MAX,
            failed: GhostCount::new(blank),
            line: Vec::new(alloc),
            given: 0,
        }
    }

    /// Copies the next bytes of the line to `piece`, as many as fit, and returns how many.
    fn give(&mut self, piece: &mut [u8]) -> usize
        ensures count { result ≡ min (vec_len self.old.line - self.old.given) (length piece.old) }
        ensures bytes { take result piece.new ≡ take result (drop self.old.given self.old.line.items) }
        ensures len { length piece.new ≡ length piece.old }
        ensures given { self.new.given ≡ self.old.given + result }
        ensures line { self.new.line ≡ self.old.line }
        ensures others { (self.new.socket ≡ self.old.socket) × (self.new.tries ≡ self.old.tries)
            × (self.new.failed ≡ self.old.failed) }
    {
        let rest = &self.line[self.given..];
        let count = rest.len().min(piece.len());
        piece[..count].copy_from_slice(&rest[..count]);
        self.given += count;
        count
    }
}

impl<S: Read + Write + Drop, L: Ledger> Source for MessageSource<S, L> {
    ghost remaining = { λ source. None };

    ghost failures = { λ source. source.failed };

    ghost left = { λ source. source.tries };

    fn take(&mut self, piece: &mut [u8]) -> Result<usize, Failed> {
        while self.tries > 0 {
            self.tries -= 1;
            if self.given < self.line.len() {
                return Ok(self.give(piece));
            }
            self.given = 0;
            match hear(&mut self.socket, &mut self.line) {
                Heard::Line | Heard::Idle => {}
                Heard::Left => return Ok(0),
                Heard::NoLine => {
                    close(&mut self.socket, CloseCode::Policy, "no line");
                    break;
                }
            }
        }
        self.failed.rise();
        Err(Failed)
    }
}

/// A sink that sends the bytes of each `put` as one message to a browser. Contracts don't see the sent bytes:
/// `contents` is none.
#[derive(Drop)]
pub struct MessageSink<S: Read + Write + Drop, L: Ledger> {
    alloc: Global,
    socket: WebSocket<S, NoMask>,
    failed: GhostCount<L>,
}

impl<S: Read + Write + Drop, L: Ledger> MessageSink<S, L> {
    /// Creates a sink over a stream whose WebSocket is open. `blank` starts the ghost count of the sink's failures.
    pub fn new(alloc: Global, stream: S, blank: Blank) -> MessageSink<S, L>
        requires { IsBlankOf blank L.name L.parts }
        ensures { ⟦<MessageSink<S, L> as Sink>⟧.failures result ≡ 0 }
    {
        MessageSink {
            alloc,
            socket: socket_over(alloc, stream, PIECE_BYTES),
            failed: GhostCount::new(blank),
        }
    }
}

impl<S: Read + Write + Drop, L: Ledger> Sink for MessageSink<S, L> {
    ghost contents = { λ sink. None };

    ghost waiting = { λ sink. [] };

    ghost failures = { λ sink. sink.failed };

    ghost holds_back = { ⊥ };

    fn put(&mut self, piece: &[u8]) -> Result<usize, Failed> {
        if piece.is_empty() {
            return Ok(0);
        }
        match say(self.alloc, &mut self.socket, piece) {
            Ok(()) => Ok(piece.len()),
            Err(Failed) => {
                self.failed.rise();
                Err(Failed)
            }
        }
    }

    fn flush(&mut self) -> Result<(), Failed> {
        Ok(())
    }
}
