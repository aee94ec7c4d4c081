//! Connections to ports of this machine that break.

use crate::fault::ProgramFault;
use crate::port::Connection;
use ps_grid::Refusal;
use std::io::{ErrorKind, Read, Write};
use std::sync::atomic::{AtomicI32, AtomicU16, Ordering};
use std::{fmt, io};

/// No connection has broken. Reasons of the system are positive.
const NONE: i32 = 0;

const ENDED: i32 = -1;

const SILENT: i32 = -2;

const UNKNOWN: i32 = -3;

/// Notes a command's first connection that ended or failed. All connections of the command share one `BrokenConnection`
/// and note their end in it, since the error [`Failed`](ps_device::Failed) names no connection.
///
/// No contract says which connection is noted.
#[derive(Drop)]
pub struct BrokenConnection {
    port: AtomicU16,
    code: AtomicI32,
}

impl BrokenConnection {
    /// Creates a `BrokenConnection` that has noted no connection yet.
    pub fn new() -> BrokenConnection {
        BrokenConnection {
            port: AtomicU16::new(0),
            code: AtomicI32::new(NONE),
        }
    }

    /// Notes how the connection to a port ended, unless another one ended before.
    fn note(&self, port: u16, code: i32) {
        if self.code.load(Ordering::SeqCst) == NONE {
            self.port.store(port, Ordering::SeqCst);
            self.code.store(code, Ordering::SeqCst);
        }
    }

    /// Notes that a call of the connection to a port failed. A call that a signal interrupted is tried again.
    fn note_error(&self, port: u16, error: &io::Error) {
        match error.kind() {
            ErrorKind::Interrupted => {}
            ErrorKind::WouldBlock | ErrorKind::TimedOut => self.note(port, SILENT),
            _ => {
                let code = error.raw_os_error().filter(|code| *code > NONE);
                self.note(port, code.unwrap_or(UNKNOWN));
            }
        }
    }

    /// Forgets the connection that ended, once its end was reported.
    pub(crate) fn forget(&self) {
        self.code.store(NONE, Ordering::SeqCst);
    }

    /// Returns the first connection that ended or failed, with the reason, or `None` if none did.
    pub fn found(&self) -> Option<ConnectionFault> {
        let reason = match self.code.load(Ordering::SeqCst) {
            NONE => return None,
            ENDED => BreakReason::Ended,
            SILENT => BreakReason::Silent,
            code if code > NONE => BreakReason::System(code),
            _ => BreakReason::Unknown,
        };
        Some(ConnectionFault {
            port: self.port.load(Ordering::SeqCst),
            reason,
        })
    }
}

/// Returns the connection that `broken` has noted, if `fault` is `Refused(Device)` or `Refused(Line)`. A broken
/// connection causes no other fault, so the result is `None` for all others.
pub fn connection_fault(
    fault: &ProgramFault,
    broken: &BrokenConnection,
) -> Option<ConnectionFault> {
    match fault {
        ProgramFault::Refused(Refusal::Device | Refusal::Line) => broken.found(),
        _ => None,
    }
}

/// Why a connection ended or failed.
#[derive(Clone, Copy, Debug, PartialEq, Eq)]
pub enum BreakReason {
    /// The other end closed the connection.
    Ended,
    /// A read or a write waited for too long: 60 seconds, or the system's own limit.
    Silent,
    /// The system reported the error with this number (`errno`).
    System(i32),
    /// The connection failed, and the system gave no reason.
    Unknown,
}

/// A connection that ended or failed: its port and the reason. Its text is a line for standard error, without the line
/// feed.
#[derive(Clone, Copy, Debug, PartialEq, Eq)]
pub struct ConnectionFault {
    /// The port that the connection was opened to.
    pub port: u16,
    /// Why the connection ended or failed.
    pub reason: BreakReason,
}

impl fmt::Display for ConnectionFault {
    fn fmt<W: fmt::Write>(&self, f: &mut fmt::Formatter<W>) -> fmt::Result {
        let port = self.port;
        match self.reason {
            BreakReason::Ended => write!(f, "port {port}: the connection ended"),
            BreakReason::Silent => write!(f, "port {port}: it stood still for too long"),
            BreakReason::System(code) => {
                let error = io::Error::from_raw_os_error(code);
                write!(f, "port {port}: {error}")
            }
            BreakReason::Unknown => write!(f, "port {port}: the connection failed"),
        }
    }
}

/// The two directions of a connection, which notes how it ends.
#[derive(Clone, Copy)]
pub(crate) struct NotedStream<'a> {
    /// the connection
    pub connection: &'a Connection<'a>,
}

impl Read for NotedStream<'_> {
    fn read(&mut self, buf: &mut [u8]) -> io::Result<usize> {
        let connection = self.connection;
        let mut stream = &connection.stream;
        match stream.read(buf) {
            Ok(0) if !buf.is_empty() => {
                connection.broken.note(connection.port, ENDED);
                Ok(0)
            }
            Ok(count) => Ok(count),
            Err(error) => {
                connection.broken.note_error(connection.port, &error);
                Err(error)
            }
        }
    }
}

impl Write for NotedStream<'_> {
    fn write(&mut self, buf: &[u8]) -> io::Result<usize> {
        let connection = self.connection;
        let mut stream = &connection.stream;
        match stream.write(buf) {
            Ok(count) => Ok(count),
            Err(error) => {
                connection.broken.note_error(connection.port, &error);
                Err(error)
            }
        }
    }

    fn flush(&mut self) -> io::Result<()> {
        let mut stream = &self.connection.stream;
        stream.flush()
    }
}
