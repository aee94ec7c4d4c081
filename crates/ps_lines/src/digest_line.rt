//! Recognizes the digest lines of a kept file: checksums of the bytes before them.
ghost use Rattle.std.specs.Prelude.{◌≡◌, Decides};
ghost use Rattle.std.specs.List.{list_all};
ghost use Rattle.ps_lines.specs.DigestLine.{IsDigestLine, is_digest, is_digest_digit};

use crate::verb::REPLICA;
use crate::words::rest_after;

/// How many hex digits a digest has.
const DIGEST_DIGITS: usize = 16;

/// Returns whether a line is exactly `replica`, one space and a digest: 16 hex digits in lower case.
///
/// In a kept file, such a line is a checksum of the bytes before the line, and holds no change of the sheet. A session
/// answers the line as it answers `replica`.
pub fn is_digest_line(line: &[u8]) -> bool
    ensures { Decides result (IsDigestLine line.now) }
{
    match rest_after(line, REPLICA) {
        Some(word) => is_digest(word),
        None => false,
    }
}

/// Returns whether a word is a digest.
#[tactic(auto, unfolding(crate::specs::DigestLine::is_digest))]
pub(crate) fn is_digest(word: &[u8]) -> bool
    ensures { result ≡ is_digest word.now }
{
    word.len() == DIGEST_DIGITS && are_digest_digits(word)
}

/// Returns whether all bytes are hex digits in lower case.
fn are_digest_digits(word: &[u8]) -> bool
    ensures { result ≡ list_all is_digest_digit word.now }
{
    word.iter().all(|b| is_digest_digit(*b))
}

/// Returns whether a byte is a hex digit in lower case.
fn is_digest_digit(byte: u8) -> bool
    ensures { result ≡ is_digest_digit byte }
{
    byte.is_ascii_hexdigit() && !byte.is_ascii_uppercase()
}
