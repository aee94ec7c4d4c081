//! Tells sessions from HTTP requests. Any page in a browser can send an HTTP request to a server's port.
ghost use Rattle.std.specs.Prelude.{◌≡◌, ◌≢◌, ◌≤◌, ◌⊎◌, ◌++◌, ◌∷◌, ℕ, List, [], Err, OnOk, Option, Some, false, length};
ghost use Rattle.std.specs.Prelude.{true};
ghost use Rattle.std.specs.Io.KnownBytes.{Consumes, Keeps};
ghost use Rattle.ps_grid.specs.Blanks.{IsBlankOf};
ghost use Rattle.ps_lines.specs.Feeding.{HasNoFeed};
ghost use Rattle.ps_server.specs.declared.guard.TheConstants.{FRONT_LIMIT};
ghost use Rattle.ps_server.specs.declared.guard.Unadmitted.TheVariants as Unadmitted;
ghost use Rattle.ps_server.specs.Guards.{BeginsRequest, IsRequest, begins_command, begins_no_target, begins_small};
ghost use Rattle.ps_server.specs.Guards.{is_request_line};

use ps_device::{Reading, Source};
use ps_lines::{split_part, split_word};
use std::io::{Chain, ErrorKind, Read};
use std::sync::ledger::{Blank, Ledger};

/// The number of bytes after which a connection's first line counts as a request if its end hasn't come. A line that
/// begins as a session's command does, with its first word and an argument, never counts as a request.
pub const FRONT_LIMIT: usize = 8_192;

/// The most bytes of one read.
const AT_ONCE: usize = 4_096;

/// The reason for which [`admit`] doesn't take a connection as a session of lines.
#[derive(Clone, Copy, PartialEq, Eq)]
pub enum Unadmitted {
    /// The first line is that of an HTTP request, or has no end within [`FRONT_LIMIT`] bytes and doesn't begin as a
    /// command does.
    Request,
    /// The connection couldn't be read, or there was no memory for its first line.
    Failed,
}

/// Returns whether bytes begin with a small letter, a to z, as all commands of a session do.
fn begins_small(bytes: &[u8]) -> bool
    ensures { result ≡ begins_small bytes.now }
{
    match bytes.first() {
        Some(byte) => b'a' <= *byte && *byte <= b'z',
        None => false,
    }
}

/// Returns whether bytes begin with one that can't begin the target of a request of HTTP.
fn begins_no_target(bytes: &[u8]) -> bool
    ensures { result ≡ begins_no_target bytes.now }
{
    match bytes.first() {
        Some(byte) => *byte != b'/' && *byte != b'*',
        None => false,
    }
}

/// Returns whether bytes begin as a session's command with an argument does. They begin with a small letter, and the
/// byte after the first space can't begin the target of a request of HTTP.
fn begins_command(bytes: &[u8]) -> bool
    ensures { result ≡ begins_command bytes.now }
{
    let (_, rest) = split_word(bytes);
    begins_small(bytes) && begins_no_target(rest.unwrap_or(b""))
}

/// Returns whether a line is the first one of a request of HTTP: it doesn't begin as a command does, and its third word
/// begins with the name of the protocol.
///
/// A page can choose a method in small letters, so the first byte alone doesn't tell.
fn is_request_line(line: &[u8]) -> bool
    ensures { result ≡ is_request_line line.now }
{
    if begins_command(line) {
        return false;
    }
    let (_, rest) = split_word(line);
    let (_, version) = split_word(rest.unwrap_or(b""));
    version.unwrap_or(b"").starts_with(b"HTTP/")
}

/// Returns whether a connection whose bytes begin with `front` is a request; none if more bytes are needed.
///
/// A first line without an end within [`FRONT_LIMIT`] bytes counts as a request, so that no peer can fill the memory.
fn judge(front: &[u8]) -> Option<bool>
    ensures command { begins_command front.now ≡ true → HasNoFeed front.now → result ≡ Some false }
    ensures ended { (line more : List ℕ) → HasNoFeed line → front.now ≡ line ++ 10 ∷ more
        → result ≡ Some (is_request_line line) }
    ensures request { (rest : List ℕ) → IsRequest (front.now ++ rest) → result ≢ Some false }
    ensures cause { result ≡ Some true → IsRequest front.now ⊎ (FRONT_LIMIT ≤ length front.now) }
{
    let (line, rest) = split_part(front, b'\n');
    match rest {
        Some(_) => return Some(is_request_line(line)),
        None => {}
    }
    if begins_command(front) {
        return Some(false);
    }
    if front.len() >= FRONT_LIMIT {
        return Some(true);
    }
    None
}

/// Reads the beginning of a connection into `front`, and succeeds once the connection is known to be a session.
///
/// If the first line begins as a command does that has an argument, the connection is a session, and `admit` doesn't
/// wait for the end of this line. It reads any other first line to the end of the line or of the input, or to about
/// [`FRONT_LIMIT`] bytes.
/// `front` then has all bytes that were read, also after the error `Request`.
///
/// # Errors
///
/// - `Request`: the first line is that of an HTTP request, or has no end within [`FRONT_LIMIT`] bytes and doesn't begin
///   as a command does.
/// - `Failed`: the reader fails, or there is no memory for the first line.
///
/// Cost: linear in the bytes of the first line, and the time that the reader takes.
pub fn admit<R: Read>(reader: &mut R, front: &mut Vec<u8>) -> Result<(), Unadmitted>
    requires none { front.old.items ≡ [] }
    ensures read { OnOk result (Consumes (R.remaining reader.old) (R.remaining reader.new) front.new.items) }
    ensures front { result ≡ Err Unadmitted.Request
        → Consumes (R.remaining reader.old) (R.remaining reader.new) front.new.items }
    ensures request { OnOk result (BeginsRequest (R.remaining reader.old) → ⊥) }
    ensures cause { result ≡ Err Unadmitted.Request
        → IsRequest front.new.items ⊎ (FRONT_LIMIT ≤ length front.new.items) }
{
    let mut piece = [0u8; AT_ONCE];
    'reads: for _ in 0..u64::MAX {
        match judge(front) {
            Some(true) => return Err(Unadmitted::Request),
            Some(false) => return Ok(()),
            None => {}
        }
        match reader.read(&mut piece) {
            Ok(0) => return Ok(()),
            Ok(count) => match front.extend_from_slice(&piece[..count]) {
                Ok(()) => {}
                Err(_) => return Err(Unadmitted::Failed),
            },
            Err(error) if error.kind() == ErrorKind::Interrupted => {}
            Err(_) => return Err(Unadmitted::Failed),
        }
    }
    Err(Unadmitted::Failed)
}

/// Returns the source of a session's lines: first the bytes of `front`, which were read before, and then the bytes of
/// `reader`. `blank` starts the ghost count of the source's failures.
pub fn resume<'a, R: Read + Drop, L: Ledger>(
    front: &'a [u8],
    reader: R,
    blank: Blank,
) -> Reading<Chain<&'a [u8], R>, L>
    requires blank { IsBlankOf blank L.name L.parts }
    ensures whole { (old : Option (List ℕ)) → Consumes old (R.remaining reader) front.now
        → Keeps old (⟦<Reading<Chain<&'a [u8], R>, L> as Source>⟧.remaining result) }
{
    Reading::new(front.chain(reader), blank)
}
