//! The start: reads the lines of a file one after another, and opens it as a journal without its torn end.
ghost use Rattle.std.specs.Prelude.{◌≡◌, ◌≤◌, ◌<◌, ◌∷◌, [], IfOk, IfSome, None, false, length, take};
ghost use Rattle.ps_keep.specs.Journals.{IsJournal};
ghost use Rattle.ps_keep.specs.Lines.{text, whole_lines};

use crate::device::Found;
use crate::journal::Journal;
use memchr::{memchr, memrchr};
use ps_device::Failed;
use std::alloc::Global;

/// Returns the first whole line of `bytes`, without its line feed, and the bytes after the line feed. Returns `None` if
/// `bytes` has no line feed.
///
/// Cost: linear in the line.
pub fn first_line(bytes: &[u8]) -> Option<(&[u8], &[u8])>
    ensures line { IfSome result (λ r. whole_lines bytes.now ≡ r.0.now ∷ whole_lines r.1.now) }
    ensures shorter { IfSome result (λ r. length r.1.now < length bytes.now) }
    ensures none { result ≡ None → whole_lines bytes.now ≡ [] }
{
    match memchr(b'\n', bytes) {
        Some(place) => Some((&bytes[..place], &bytes[place + 1..])),
        None => None,
    }
}

/// Returns how many of these bytes are whole lines.
pub(crate) fn count_whole(bytes: &[u8]) -> usize
    ensures within { result ≤ length bytes.now }
    ensures lines { take result bytes.now ≡ text (whole_lines bytes.now) }
{
    match memrchr(b'\n', bytes) {
        Some(place) => place + 1,
        None => 0,
    }
}

/// Opens a found file as a journal of its whole lines, and returns the journal.
///
/// The call cuts off all bytes after the last line feed, which a crash during a write has left. If the machine crashes
/// during the call, the file still has the same whole lines. The call fails if [`Found::keep`] fails.
///
/// Cost: linear in the bytes that are cut off, and one sync.
pub fn open<F: Found + Drop>(alloc: Global, found: F) -> Result<Journal<F::Device>, Failed>
    ensures lines { IfOk result (λ j. j.lines ≡ whole_lines (F.bytes found)) }
    ensures kept { IfOk result (λ j. j.kept ≡ whole_lines (F.bytes found)) }
    ensures written { IfOk result (λ j. j.written ≡ text (whole_lines (F.bytes found))) }
    ensures open { IfOk result (λ j. j.has_failed ≡ false) }
    ensures journal { IfOk result IsJournal }
{
    let count = count_whole(found.bytes());
    match found.keep(count) {
        Ok(device) => Ok(Journal::new(alloc, device)),
        Err(failed) => Err(failed),
    }
}
