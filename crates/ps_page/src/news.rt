//! A WebSocket that reports to a browser how many changes there are.
ghost use Rattle.std.specs.Prelude.{◌≡◌, IfOk, OnOk};
ghost use Rattle.tungstenite.specs.Socket.{Writes};
ghost use Rattle.websocket.specs.Connection.{write_step};
ghost use Rattle.websocket.specs.Content.{text};
ghost use Rattle.ps_page.specs.Messages.{version_text};

use crate::socket::{PIECE_BYTES, close, say, socket_over};
use itoa::Buffer;
use ps_device::Failed;
use std::alloc::{AllocError, Global};
use std::io::{ErrorKind, Read, Write};
use std::net::{Shutdown, TcpStream};
use tungstenite::{CloseCode, Error, Message, NoMask, WebSocket};

/// The most messages of a browser that one call skips. A page sends none.
const MOST_PASSED: usize = 1024;

/// A WebSocket on which the server reports the number of changes to a browser. The server ignores the browser's
/// messages, and no call waits for the browser.
#[derive(Drop)]
pub struct NewsSocket {
    alloc: Global,
    socket: WebSocket<TcpStream, NoMask>,
    /// the number that was reported last
    told: Option<u64>,
}

impl NewsSocket {
    /// Creates a news socket over the connection of a WebSocket that was just opened, and makes the connection
    /// non-blocking.
    pub fn new(alloc: Global, stream: TcpStream) -> NewsSocket {
        let _ = stream.set_nonblocking(true);
        NewsSocket {
            alloc,
            socket: socket_over(alloc, stream, PIECE_BYTES),
            told: None,
        }
    }

    /// Returns the connection of the WebSocket.
    pub fn connection(&self) -> &TcpStream {
        self.socket.get_ref()
    }

    /// Sends the browser the number of changes, `version`, unless an earlier call had the same or a higher number.
    ///
    /// Fails if the message can't be sent at once (the browser doesn't read, or has left), or when out of memory.
    pub fn tell(&mut self, version: u64) -> Result<(), Failed> {
        match self.told {
            Some(told) if version <= told => return Ok(()),
            _ => {}
        }
        self.told = Some(version);
        say_version(self.alloc, &mut self.socket, version)
    }

    /// Skips all messages that the browser has sent, and returns whether the browser is still connected. Pings are
    /// answered. A browser also counts as gone after 1,024 messages since the last call, or one of over 4,096 bytes.
    ///
    /// Cost: linear in the bytes that the browser has sent.
    pub fn is_there(&mut self) -> bool {
        pass_over(&mut self.socket)
    }

    /// Closes the WebSocket, with the reason that the server ends, and shuts down the connection.
    pub fn leave(mut self) {
        close(&mut self.socket, CloseCode::Away, "the server ends");
        let _ = self.connection().shutdown(Shutdown::Both);
    }
}

/// Returns the message with the number of changes, as `version 7`. Fails when out of memory.
fn version_text(alloc: Global, version: u64) -> Result<Vec<u8>, AllocError>
    ensures { IfOk result (λ bytes. bytes.items ≡ version_text version) }
{
    let mut digits = Buffer::new();
    let mut bytes = Vec::new(alloc);
    bytes.extend_from_slice(b"version ")?;
    bytes.extend_from_slice(digits.format(version).as_bytes())?;
    Ok(bytes)
}

/// Sends a browser the number of changes as one message, such as `version 7`. Fails if the message can't be sent, or
/// when out of memory.
///
/// Cost: the time that the browser takes.
pub fn say_version<S: Read + Write + Drop>(
    alloc: Global,
    socket: &mut WebSocket<S, NoMask>,
    version: u64,
) -> Result<(), Failed>
    ensures { OnOk result (Writes S.contents socket.old socket.new
        (write_step socket.old.conn (text (version_text version)))) }
{
    let Ok(bytes) = version_text(alloc, version) else {
        return Err(Failed);
    };
    say(alloc, socket, bytes.as_slice())
}

/// Skips all that a browser sent, and returns whether its connection goes on.
fn pass_over<S: Read + Write + Drop>(socket: &mut WebSocket<S, NoMask>) -> bool {
    for _ in 0..MOST_PASSED {
        match socket.read() {
            Ok(Message::Close(_)) => return false,
            Ok(_) => {}
            Err(Error::Io(error)) => return error.kind() == ErrorKind::WouldBlock,
            Err(_) => return false,
        }
    }
    false
}
