//! The buffer that joins bytes into lines.
ghost use Rattle.std.specs.Prelude.{◌≡◌, ◌+◌, ◌<◌, ◌≤◌, Some, None, [], IfOk, IfSome, length, take, vec_len};
ghost use Rattle.std.specs.Prelude.{if◌then◌else◌, vec_capacity};
ghost use Rattle.std.specs.Bool.{OnTrue};
ghost use Rattle.ps_lines.specs.declared.line_buffer.TheConstants.{LINE_LIMIT};
ghost use Rattle.ps_lines.specs.Feeding.{held, kept_after, without_return};

use memchr::memchr;
use std::alloc::{AllocError, Global};
use std::marker::Model;

/// The greatest number of bytes of a line, without its line feed.
pub const LINE_LIMIT: usize = 262_208;

/// Whether bytes of the input ended a line, and whether that line is stored or too long.
#[derive(Clone, Copy, PartialEq, Eq)]
pub enum Line {
    /// No line ended.
    None,
    /// A line of at most [`LINE_LIMIT`] bytes ended; [`LineBuffer::line`] returns that line.
    Full,
    /// A line of more than [`LINE_LIMIT`] bytes ended; the buffer doesn't have the whole line.
    TooLong,
}

/// The outcome of [`LineBuffer::feed`]: how many bytes of the piece were taken in, and which line these bytes ended.
#[derive(Clone, Copy, PartialEq, Eq)]
pub struct Fed {
    /// The number of bytes taken, from the piece's first on.
    pub taken: usize,
    /// The line that the last byte taken ended; [`Line::None`] if that byte ended no line.
    pub line: Line,
}

/// A buffer that joins bytes into lines, however the input is cut into pieces.
#[derive(Drop)]
pub struct LineBuffer {
    /// The bytes of the line so far, or of the line that ended last.
    bytes: Vec<u8>,
    /// Whether the line has passed the limit.
    too_long: bool,
    /// Whether `bytes` is a whole line that has ended.
    ended: bool,
}

impl Model for LineBuffer {
    ghost use Rattle.std.specs.Prelude.{◌≤◌, Some, None, [], if◌then◌else◌, vec_len, vec_capacity};
    ghost use Rattle.ps_lines.specs.declared.line_buffer.TheConstants.{LINE_LIMIT};
    ghost use Rattle.ps_lines.specs.Feeding.{Reading};

    ghost Value = { Reading };

    ghost view = { λ s. record {
      pending = if s.ended then Some [] else (if s.too_long then None else Some s.bytes.items);
      line = s.bytes.items;
    } };

    // `feed` never allocates: there is room for a whole line.
    ghost invariant = { λ s. (vec_len s.bytes ≤ LINE_LIMIT) × (LINE_LIMIT ≤ vec_capacity s.bytes) };
}

/// Drops the bytes of a line that has ended. Returns whether the line that comes next or goes on is already too long.
fn begin(bytes: &mut Vec<u8>, too_long: bool, ended: bool) -> bool
    ensures held { held result bytes.new.items ≡ (if ended then Some [] else held too_long bytes.old.items) }
    ensures fits { vec_len bytes.new ≤ vec_len bytes.old }
    ensures room { vec_capacity bytes.new ≡ vec_capacity bytes.old }
{
    if ended {
        bytes.clear();
        return false;
    }
    too_long
}

/// Returns whether the buffer holds no byte of a line that hasn't ended.
fn holds_none(bytes: &[u8], too_long: bool, ended: bool) -> bool
    ensures { OnTrue result ((if ended then Some [] else held too_long bytes.now) ≡ Some []) }
{
    ended || !too_long && bytes.is_empty()
}

/// Returns what a line is once it has ended.
fn ended_line(too_long: bool) -> Line
    ensures { result ≡ (if too_long then Line.TooLong else Line.Full) }
{
    if too_long { Line::TooLong } else { Line::Full }
}

/// Adds a part to a line, and returns whether the line is too long now.
fn keep(bytes: &mut Vec<u8>, too_long: bool, part: &[u8]) -> bool
    requires fits { vec_len bytes.old ≤ LINE_LIMIT }
    requires room { LINE_LIMIT ≤ vec_capacity bytes.old }
    ensures held { held result bytes.new.items ≡ kept_after (held too_long bytes.old.items) part.now }
    ensures fits { vec_len bytes.new ≤ LINE_LIMIT }
    ensures room { LINE_LIMIT ≤ vec_capacity bytes.new }
{
    if too_long || LINE_LIMIT - bytes.len() < part.len() {
        return true;
    }
    bytes.extend_from_slice(part).unwrap();
    false
}

/// Returns the bytes of a line without the carriage return at their end, if there is one.
pub fn trimmed(bytes: &[u8]) -> &[u8]
    ensures { result.now ≡ without_return bytes.now }
{
    if bytes.ends_with(b"\r") {
        &bytes[..bytes.len() - 1]
    } else {
        bytes
    }
}

impl LineBuffer {
    ghost use Rattle.ps_lines.specs.Feeding.{Ends, Feeds, with_line};

    /// Creates an empty buffer, with room for one line. Fails when out of memory.
    ///
    /// Cost: allocates [`LINE_LIMIT`] bytes.
    pub fn new(alloc: Global) -> Result<LineBuffer, AllocError>
        ensures { IfOk result (λ s. s.pending ≡ Some []) }
    {
        Ok(LineBuffer {
            bytes: Vec::with_capacity(alloc, LINE_LIMIT)?,
            too_long: false,
            ended: false,
        })
    }

    /// Takes in `piece` up to and with its first line feed. Returns how many bytes these are, and which line they end.
    ///
    /// `piece` is the part of the input after the bytes taken so far, of any length. Without a line feed it is taken in
    /// whole, and ends no line. The buffer first drops the line that ended last. Never allocates.
    ///
    /// Cost: O(n) in the n bytes taken.
    pub fn feed(&mut self, piece: &[u8]) -> Fed
        ensures within { result.taken ≤ length piece.now }
        ensures some { 0 < length piece.now → 0 < result.taken }
        ensures fed { Feeds self.old self.new (take result.taken piece.now) result.line }
    {
        self.too_long = begin(&mut self.bytes, self.too_long, self.ended);
        self.ended = false;
        match memchr(b'\n', piece) {
            Some(place) => {
                self.too_long = keep(&mut self.bytes, self.too_long, &piece[..place]);
                self.ended = true;
                Fed {
                    taken: place + 1,
                    line: ended_line(self.too_long),
                }
            }
            None => {
                self.too_long = keep(&mut self.bytes, self.too_long, piece);
                Fed {
                    taken: piece.len(),
                    line: Line::None,
                }
            }
        }
    }

    /// Returns the position of the first line feed, if the piece begins with a whole line.
    ///
    /// Then `&piece[..position]` is the line, and the caller needn't `feed` the line and its line feed. Returns `None`
    /// if the buffer holds bytes of an unended line, if the piece has no line feed, or if the line is too long.
    ///
    /// Cost: O(n) in the n bytes up to the position.
    pub fn whole_line(&self, piece: &[u8]) -> Option<usize>
        ensures within { IfSome result (λ place. place < length piece.now) }
        ensures none_held { IfSome result (λ place. self.now.pending ≡ Some []) }
        ensures fed { IfSome result (λ place. self.now.pending ≡ Some []
            → Feeds self.now (with_line (take place piece.now)) (take (place + 1) piece.now) Line.Full) }
    {
        if !holds_none(&self.bytes, self.too_long, self.ended) {
            return None;
        }
        match memchr(b'\n', piece) {
            Some(place) if place <= LINE_LIMIT => Some(place),
            _ => None,
        }
    }

    /// Ends the input, and returns the line that remains without a line feed; [`Line::None`] if no byte remains.
    pub fn end(&mut self) -> Line
        ensures { Ends self.old self.new result }
    {
        self.too_long = begin(&mut self.bytes, self.too_long, self.ended);
        self.ended = false;
        if self.too_long {
            self.ended = true;
            Line::TooLong
        } else if self.bytes.is_empty() {
            Line::None
        } else {
            self.ended = true;
            Line::Full
        }
    }

    /// Returns the line that ended last, without a carriage return at its end. After [`Line::TooLong`], the bytes mean
    /// nothing.
    pub fn line(&self) -> &[u8]
        ensures { result.now ≡ without_return self.now.line }
    {
        trimmed(&self.bytes)
    }
}
