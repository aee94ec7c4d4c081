//! The reply to a line.
ghost use Rattle.std.specs.Prelude.{◌≡◌, ◌<◌, ◌≤◌, ◌+◌, ◌++◌, ◌∷◌, [], OnErr, OnOk, codes, decimal, drop};
ghost use Rattle.std.specs.Prelude.{flat_map, length};
ghost use Rattle.std.specs.Fmt.{signed_decimal};
ghost use Rattle.ps_device.specs.Device.{Sends};
ghost use Rattle.ps_value.specs.Shown.{shown_text};
ghost use Rattle.ps_lines.specs.Replies.{entry_reply, reply_text};

use crate::reply_words::{DELTA, END, ENTRIES, ENTRY, ERR, OK, REPLICA, ROWS, SAME, VAL, VERSION};
use crate::watcher::Outcome;
use itoa::{Buffer, write_digits};
use ps_device::{Failed, Sink, put_all};
use ps_grid::Refusal;
use ps_value::{Value, write_shown};

/// The reply to a line. Each variant's comment gives the reply's first word and what follows that word. The version is
/// the number of changes in the sheet's history.
#[derive(Drop)]
pub enum Reply {
    /// `ok` and the version.
    Done(u64),
    /// The same text as `Done`, for a pushed or merged delta with changes of the sheet's own replica that the sheet
    /// lacked. See [`Outcome::Elsewhere`].
    DoneElsewhere(u64),
    /// `same` and the version: nothing of a merged delta was new.
    Same(u64),
    /// `val` and what the cell shows.
    Shown(Value),
    /// `rows`, the number of lines of a table of what cells show, and then these lines, each with its line feed.
    Rows(u64, Vec<u8>),
    /// `entry` and the entry of a cell.
    Entry(Vec<u8>),
    /// `entries`, the number of lines of a table of entries, and then these lines, each with its line feed.
    Entries(u64, Vec<u8>),
    /// `delta`, the version after the returned deltas, and the text of their join.
    Delta(u64, Vec<u8>),
    /// `end` and the version: a `pull` found no more deltas.
    End(u64),
    /// `replica` and the number of the sheet's own replica.
    Replica(u8),
    /// `version` and the version: the reply to a `wait`.
    Version(u64),
    /// `err`, the refusal's number and its name.
    Refused(Refusal),
}

impl Reply {
    /// Returns the outcome of the line that has this reply, to show to a [`crate::Watcher`].
    pub fn outcome(&self) -> Outcome {
        match self {
            Reply::Refused(refusal) => Outcome::Refused(*refusal),
            Reply::DoneElsewhere(_) => Outcome::Elsewhere,
            Reply::Done(_)
            | Reply::Same(_)
            | Reply::Shown(_)
            | Reply::Rows(..)
            | Reply::Entry(_)
            | Reply::Entries(..)
            | Reply::Delta(..)
            | Reply::End(_)
            | Reply::Replica(_)
            | Reply::Version(_) => Outcome::Answered,
        }
    }
}

/// Writes the pieces to `sink`, one after another. If the sink fails, it has only a beginning of their bytes.
///
/// Cost: O(n) in the n bytes of the pieces.
pub fn send_pieces<K: Sink>(pieces: &[&[u8]], sink: &mut K) -> Result<(), Failed>
    ensures sent { Sends (K.contents sink.old) (K.contents sink.new) result (flat_map (λ piece. piece.now) pieces.now) }
    ensures calm { OnOk result (K.failures sink.new ≡ K.failures sink.old) }
    ensures failed { OnErr result (K.failures sink.old < K.failures sink.new) }
{
    'pieces: for piece in pieces {
        put_all(sink, piece)?;
    }
    Ok(())
}

/// Writes what a cell shows, and a line feed.
fn send_value<K: Sink>(value: Value, sink: &mut K) -> Result<(), Failed>
    ensures sent { Sends (K.contents sink.old) (K.contents sink.new) result (shown_text value ++ 10 ∷ []) }
    ensures calm { OnOk result (K.failures sink.new ≡ K.failures sink.old) }
    ensures failed { OnErr result (K.failures sink.old < K.failures sink.new) }
{
    match write_shown(value, sink) {
        Ok(()) => {}
        Err(_) => return Err(Failed),
    }
    put_all(sink, b"\n")?;
    Ok(())
}

/// Writes `val`, what a cell shows and a line feed, in pieces.
fn send_other<K: Sink>(value: Value, sink: &mut K) -> Result<(), Failed>
    ensures sent { Sends (K.contents sink.old) (K.contents sink.new) result
        (codes "val " ++ (shown_text value ++ 10 ∷ [])) }
    ensures calm { OnOk result (K.failures sink.new ≡ K.failures sink.old) }
    ensures failed { OnErr result (K.failures sink.old < K.failures sink.new) }
{
    put_all(sink, VAL)?;
    send_value(value, sink)?;
    Ok(())
}

/// Writes `val`, what a cell shows and a line feed. A number is written in one piece.
#[inline(always)]
fn send_shown<K: Sink>(value: &Value, sink: &mut K) -> Result<(), Failed>
    ensures sent { Sends (K.contents sink.old) (K.contents sink.new) result
        (codes "val " ++ (shown_text value.now ++ 10 ∷ [])) }
    ensures calm { OnOk result (K.failures sink.new ≡ K.failures sink.old) }
    ensures failed { OnErr result (K.failures sink.old < K.failures sink.new) }
{
    match value {
        Value::Num(number) => send_signed(*number, sink),
        Value::Empty | Value::Text(_) | Value::Choice(_) | Value::Err(_) => {
            send_other(*value, sink)
        }
    }
}

/// Writes a reply with its line feed to `sink`. If the sink fails, it has only a beginning of these bytes.
///
/// Cost: O(n) in the n bytes of the reply, in a constant number of pieces.
#[inline(always)]
pub fn send<K: Sink>(reply: &Reply, sink: &mut K) -> Result<(), Failed>
    ensures sent { Sends (K.contents sink.old) (K.contents sink.new) result (reply_text reply.now) }
    ensures calm { OnOk result (K.failures sink.new ≡ K.failures sink.old) }
    ensures failed { OnErr result (K.failures sink.old < K.failures sink.new) }
{
    match reply {
        Reply::Done(version) | Reply::DoneElsewhere(version) => send_number(OK, *version, sink),
        Reply::Same(version) => send_number(SAME, *version, sink),
        Reply::Shown(value) => send_shown(value, sink),
        Reply::Rows(count, table) => send_table(ROWS, *count, table, sink),
        Reply::Entry(entry) => send_entry(entry, sink),
        Reply::Entries(count, table) => send_table(ENTRIES, *count, table, sink),
        Reply::Delta(last, line) => send_words(DELTA, *last, line, sink),
        Reply::End(version) => send_number(END, *version, sink),
        Reply::Replica(number) => send_number(REPLICA, u64::from(*number), sink),
        Reply::Version(version) => send_number(VERSION, *version, sink),
        Reply::Refused(refusal) => send_words(
            ERR,
            u64::from(refusal.number()),
            refusal.name().as_bytes(),
            sink,
        ),
    }
}

/// The bytes of a line's buffer: a word with its space (at most 11), a number (at most 20) and a line feed.
const ROOM: usize = 32;

/// Writes a word with its space, a number and a line feed, in one piece.
#[inline(always)]
fn send_number<K: Sink>(word: &[u8], number: u64, sink: &mut K) -> Result<(), Failed>
    requires short { length word.now ≤ 11 }
    ensures sent { Sends (K.contents sink.old) (K.contents sink.new) result
        (word.now ++ decimal number ++ 10 ∷ []) }
    ensures calm { OnOk result (K.failures sink.new ≡ K.failures sink.old) }
    ensures failed { OnErr result (K.failures sink.old < K.failures sink.new) }
{
    let mut line = [b'\n'; ROOM];
    let start = write_numbered(word, number, &mut line);
    put_all(sink, &line[start..])
}

/// Writes a word with its space and a number so that they end before the last byte, and returns where they start.
#[inline(always)]
fn write_numbered(word: &[u8], number: u64, line: &mut [u8]) -> usize
    requires short { length word.now ≤ 11 }
    requires room { length line.old ≡ ROOM }
    ensures written { drop result line.new ≡ word.now ++ decimal number ++ drop 31 line.old }
    ensures within { result ≤ length line.new }
{
    // backwards, as the digits come
    let digits = write_digits(number, line, ROOM - 1);
    write_before(word, line, digits)
}

/// Writes `val`, a number and a line feed, in one piece.
#[inline(always)]
fn send_signed<K: Sink>(number: i64, sink: &mut K) -> Result<(), Failed>
    ensures sent { Sends (K.contents sink.old) (K.contents sink.new) result
        (codes "val " ++ (signed_decimal number ++ 10 ∷ [])) }
    ensures calm { OnOk result (K.failures sink.new ≡ K.failures sink.old) }
    ensures failed { OnErr result (K.failures sink.old < K.failures sink.new) }
{
    let mut line = [b'\n'; ROOM];
    let digits = write_signed(number, &mut line, ROOM - 1);
    let start = write_before(VAL, &mut line, digits);
    put_all(sink, &line[start..])
}

/// Writes the number so that its digits end at `end`, and returns where it starts.
#[inline(always)]
fn write_signed(number: i64, line: &mut [u8], end: usize) -> usize
    requires room { 20 ≤ end }
    requires within { end ≤ length line.old }
    ensures start { result + length (signed_decimal number) ≡ end }
    ensures written { drop result line.new ≡ signed_decimal number ++ drop end line.old }
{
    let digits = write_digits(number.unsigned_abs(), line, end);
    if number >= 0 {
        return digits;
    }
    line[digits - 1] = b'-';
    digits - 1
}

/// Writes the bytes so that they end at `end`, and returns where they start.
#[inline(always)]
fn write_before(bytes: &[u8], line: &mut [u8], end: usize) -> usize
    requires room { length bytes.now ≤ end }
    requires within { end ≤ length line.old }
    ensures start { result + length bytes.now ≡ end }
    ensures written { drop result line.new ≡ bytes.now ++ drop end line.old }
{
    let start = end - bytes.len();
    let place = &mut line[start..end];
    place.copy_from_slice(bytes);
    start
}

/// Writes a word with its space, a number, a space, a text and a line feed. The part before the text is one piece.
fn send_words<K: Sink>(word: &[u8], number: u64, text: &[u8], sink: &mut K) -> Result<(), Failed>
    requires short { length word.now ≤ 11 }
    ensures sent { Sends (K.contents sink.old) (K.contents sink.new) result
        (word.now ++ decimal number ++ (codes " " ++ text.now) ++ 10 ∷ []) }
    ensures calm { OnOk result (K.failures sink.new ≡ K.failures sink.old) }
    ensures failed { OnErr result (K.failures sink.old < K.failures sink.new) }
{
    let mut head = [b' '; ROOM];
    let start = write_numbered(word, number, &mut head);
    let pieces: [&[u8]; 3] = [&head[start..], text, b"\n"];
    send_pieces(pieces.as_slice(), sink)
}

/// Writes `entry` and the entry of a cell.
fn send_entry<K: Sink>(entry: &[u8], sink: &mut K) -> Result<(), Failed>
    ensures sent { Sends (K.contents sink.old) (K.contents sink.new) result (entry_reply entry.now) }
    ensures calm { OnOk result (K.failures sink.new ≡ K.failures sink.old) }
    ensures failed { OnErr result (K.failures sink.old < K.failures sink.new) }
{
    let pieces: [&[u8]; 3] = [ENTRY, entry, b"\n"];
    send_pieces(pieces.as_slice(), sink)
}

/// Writes a word with its space, the number of a table's lines, and the table.
fn send_table<K: Sink>(word: &[u8], count: u64, table: &[u8], sink: &mut K) -> Result<(), Failed>
    ensures sent { Sends (K.contents sink.old) (K.contents sink.new) result
        (word.now ++ decimal count ++ 10 ∷ table.now) }
    ensures calm { OnOk result (K.failures sink.new ≡ K.failures sink.old) }
    ensures failed { OnErr result (K.failures sink.old < K.failures sink.new) }
{
    let mut buffer = Buffer::new();
    let pieces: [&[u8]; 4] = [word, buffer.format(count).as_bytes(), b"\n", table];
    send_pieces(pieces.as_slice(), sink)
}
