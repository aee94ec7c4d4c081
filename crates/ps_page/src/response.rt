//! Writes the responses of HTTP that don't open a WebSocket.
ghost use Rattle.std.specs.Prelude.{◌≡◌, ◌++◌, IfOk, OnOk};
ghost use Rattle.std.specs.Io.KnownBytes.{Appends};
ghost use Rattle.ps_page.specs.Messages.{about_lines, about_text};
ghost use Rattle.ps_page.specs.declared.page.TheConstants.{PAGE_HEAD};

use crate::head::Refused;
use crate::page::PAGE_HEAD;
use itoa::Buffer;
use std::alloc::{AllocError, Global};
use std::io;
use std::io::Write;

/// Writes the response with the page: a constant head, and then `page`. The head states the length of `PAGE`, so `page`
/// has to be of this length. Fails if a write fails.
///
/// Cost: linear in the bytes of the page.
pub fn respond_page<W: Write>(writer: &mut W, page: &[u8]) -> io::Result<()>
    ensures { OnOk result (Appends (W.contents writer.old) (W.contents writer.new) (PAGE_HEAD.now ++ page.now)) }
{
    writer.write_all(PAGE_HEAD)?;
    writer.write_all(page)?;
    writer.flush()
}

/// The beginning of the head of the response to `/about`. The value of `content-length` is written after it.
pub const ABOUT_HEAD: &[u8] = b"HTTP/1.1 200 OK\r\ncontent-type: text/plain; charset=utf-8\r\n\
    cache-control: no-store\r\nx-content-type-options: nosniff\r\nconnection: close\r\ncontent-length: ";

/// Facts that the answer to a request needs. A page asks for the first two at `/about`.
#[derive(Clone, Copy, Debug)]
pub struct About<'a> {
    /// The number of browsers that have a session.
    pub here: u64,
    /// The title of the page, in one line.
    pub title: &'a str,
    /// Whether one more browser may follow the changes over a WebSocket. The response to `/about` doesn't say this.
    pub has_room: bool,
}

impl About<'_> {
    /// Returns the body of the response to `/about`: a line with the number of browsers that have a session, and a line
    /// with the title. Fails when out of memory.
    ///
    /// Cost: linear in the bytes of the title, and their memory.
    pub fn lines(self, alloc: Global) -> Result<Vec<u8>, AllocError>
        ensures { IfOk result (λ lines. lines.items ≡ about_lines self.entry.here self.entry.title.now) }
    {
        let mut digits = Buffer::new();
        let mut lines = Vec::new(alloc);
        lines.extend_from_slice(digits.format(self.here).as_bytes())?;
        lines.push(b'\n')?;
        lines.extend_from_slice(self.title.as_bytes())?;
        lines.push(b'\n')?;
        Ok(lines)
    }
}

/// Writes the response to `/about`, with `lines` as its body. Fails if a write fails.
///
/// Cost: linear in the bytes of the lines.
pub fn respond_about<W: Write>(writer: &mut W, lines: &[u8]) -> io::Result<()>
    ensures { OnOk result (Appends (W.contents writer.old) (W.contents writer.new) (about_text lines.now)) }
{
    let mut digits = Buffer::new();
    writer.write_all(ABOUT_HEAD)?;
    writer.write_all(digits.format(lines.len()).as_bytes())?;
    writer.write_all(b"\r\n\r\n")?;
    writer.write_all(lines)?;
    writer.flush()
}

/// Returns the response that refuses a request.
fn refusal_text(refused: Refused) -> &'static [u8] {
    match refused {
        Refused::BadRequest =>
            b"HTTP/1.1 400 Bad Request\r\ncontent-length: 0\r\nconnection: close\r\n\r\n",
        Refused::Forbidden =>
            b"HTTP/1.1 403 Forbidden\r\ncontent-length: 0\r\nconnection: close\r\n\r\n",
        Refused::NotFound =>
            b"HTTP/1.1 404 Not Found\r\ncontent-length: 0\r\nconnection: close\r\n\r\n",
        Refused::NotAllowed =>
            b"HTTP/1.1 405 Method Not Allowed\r\nallow: GET\r\ncontent-length: 0\r\nconnection: close\r\n\r\n",
        Refused::TooLate =>
            b"HTTP/1.1 408 Request Timeout\r\ncontent-length: 0\r\nconnection: close\r\n\r\n",
        Refused::TooLarge =>
            b"HTTP/1.1 431 Request Header Fields Too Large\r\ncontent-length: 0\r\nconnection: close\r\n\r\n",
        Refused::Unavailable =>
            b"HTTP/1.1 503 Service Unavailable\r\ncontent-length: 0\r\nconnection: close\r\n\r\n",
    }
}

/// Writes the response that refuses a request for this reason. Fails if a write fails.
pub fn respond<W: Write>(writer: &mut W, refused: Refused) -> io::Result<()> {
    writer.write_all(refusal_text(refused))?;
    writer.flush()
}
