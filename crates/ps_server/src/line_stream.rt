//! The connection of a session of lines.

use std::io;
use std::io::Read;
use std::net::TcpStream;
use std::time::Duration;

/// How long a session may be silent before its first line is whole, in seconds. `--idle` sets another time.
const FIRST_SECONDS: u64 = 30;

/// The connection of a session of lines. Once the first line is whole, the client may be silent for longer.
#[derive(Drop)]
pub(crate) struct LineStream<'a> {
    stream: &'a TcpStream,
    /// whether the read timeout stays as it is
    is_settled: bool,
}

impl<'a> LineStream<'a> {
    /// Wraps the connection of a session whose client has sent the bytes `front`, and may be silent for `idle`, which
    /// is the connection's read timeout already.
    ///
    /// If `idle` is none, the client may be silent for half a minute until its first line is whole, and for ever after.
    pub(crate) fn new(
        front: &[u8],
        stream: &'a TcpStream,
        idle: Option<Duration>,
    ) -> LineStream<'a> {
        let is_settled = idle.is_some() || has_line(front);
        if !is_settled {
            let _ = stream.set_read_timeout(Some(Duration::from_secs(FIRST_SECONDS)));
        }
        LineStream { stream, is_settled }
    }

    /// Returns the connection.
    pub(crate) fn connection(&self) -> &'a TcpStream {
        self.stream
    }
}

/// Returns whether these bytes have the end of a line.
fn has_line(bytes: &[u8]) -> bool {
    bytes.contains(&b'\n')
}

impl Read for LineStream<'_> {
    fn read(&mut self, buf: &mut [u8]) -> io::Result<usize> {
        let mut stream = self.stream;
        let count = stream.read(buf)?;
        if !self.is_settled && has_line(&buf[..count]) {
            self.is_settled = true;
            stream.set_read_timeout(None)?;
        }
        Ok(count)
    }
}
