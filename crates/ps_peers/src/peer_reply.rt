//! What a peer replied.
ghost use Rattle.std.specs.Prelude.{◌≡◌, ◌++◌, IfSome};
ghost use Rattle.ps_peers.specs.Exchange.{IsTold};

use ps_lines::reply_words::{DELTA, END, ERR, OK, VERSION};
use ps_lines::{read_whole, split_word};

/// What a peer replied to a `pull`, a `push` or a `wait`.
///
/// A peer's version is the number of changes in its history. A `delta` reply names the version after its deltas.
#[derive(Clone, Copy)]
pub enum PeerReply<'a> {
    /// `ok`: the peer has taken in the pushed changes.
    Taken,
    /// `delta`: the version after the returned deltas, and the text of their join.
    Delta(u64, &'a [u8]),
    /// `end`, with the peer's version: the peer has no more deltas.
    End(u64),
    /// `version`: the reply to a `wait`, with the peer's version.
    Version(u64),
    /// `err`: a refusal. The field is the whole line of the reply.
    Refused(&'a str),
}

/// Returns what the line of a reply says. Returns `None` if the line is no reply to a `pull`, a `push` or a `wait`.
pub fn read_reply(line: &[u8]) -> Option<PeerReply<'_>>
    ensures { IfSome result (IsTold line.now) }
{
    let text = str::from_utf8(line).ok()?;
    if let Some(rest) = after(line, DELTA) {
        let (digits, delta) = split_word(rest);
        return Some(PeerReply::Delta(read_whole(digits)?, delta?));
    }
    if let Some(digits) = after(line, END) {
        return Some(PeerReply::End(read_whole(digits)?));
    }
    if let Some(digits) = after(line, VERSION) {
        return Some(PeerReply::Version(read_whole(digits)?));
    }
    if let Some(digits) = after(line, OK) {
        read_whole(digits)?;
        return Some(PeerReply::Taken);
    }
    if line.starts_with(ERR) {
        return Some(PeerReply::Refused(text));
    }
    None
}

/// Returns the rest of a line that begins with `word`, whose last byte is a space.
fn after<'a>(line: &'a [u8], word: &[u8]) -> Option<&'a [u8]>
    ensures { IfSome result (λ rest. line.now ≡ word.now ++ rest.now) }
{
    line.strip_prefix(word)
}
