//! Digest lines, one by one.
ghost use Rattle.std.specs.Prelude.{◌≡◌, ◌∷◌, ◌++◌, ◌<◌, ℕ, List, [], length};
ghost use Rattle.md5.specs.Md5.{Holds};
ghost use Rattle.ps_keep.specs.Digests.{digest_line, hex_digit, is_digest_line};

use md5::{Digest, Md5};

/// The length of a digest line, without its line feed.
const LINE_BYTES: usize = 24;

/// The first word of a digest line. Another line may have it too: the first one of a kept file, which is shorter.
const WORD: &[u8] = b"replica ";

/// Returns whether this line, without its line feed, has the form of a digest line.
pub(crate) fn is_digest_line(line: &[u8]) -> bool
    ensures { result ≡ is_digest_line line.now }
{
    line.len() == LINE_BYTES && line.starts_with(WORD)
}

/// Returns the hex digit of a number below 16.
fn hex_digit(number: u8) -> u8
    requires { number < 16 }
    ensures { result ≡ hex_digit number }
{
    if number < 10 {
        b'0' + number
    } else {
        b'a' - 10 + number
    }
}

/// Returns the digest line of what the hasher has taken in, with its line feed. The hasher begins anew, with this line.
pub(crate) fn next_digest_line(hasher: &mut Md5) -> [u8; LINE_BYTES + 1]
    ensures line { (held : List ℕ) → Holds hasher.old held → result ≡ digest_line held ++ 10 ∷ [] }
    ensures chain { Holds hasher.new result }
{
    let digest = hasher.finalize_reset();
    let mut line = *b"replica ................\n";
    'bytes: for i in 0..8 {
        line[WORD.len() + 2 * i] = hex_digit(digest[i] / 16);
        line[WORD.len() + 2 * i + 1] = hex_digit(digest[i] % 16);
    }
    hasher.update(&line);
    line
}
