//! Sends a peer the lines of an input, and writes its replies.
ghost use Rattle.std.specs.Prelude.{◌≡◌, ◌≢◌, ◌⊎◌, ◌<◌, ◌≤◌, ℕ, List, [], Option, Some, None, Err, IfErr, IfOk, OnErr};
ghost use Rattle.std.specs.Prelude.{OnOk, length, option_map, nat_eq};
ghost use Rattle.std.specs.List.{starts_with};
ghost use Rattle.std.specs.Io.KnownBytes.{Appends, Consumes, IsAtEnd, Keeps};
ghost use Rattle.ps_grid.specs.declared.refusal.Refusal.TheVariants as Refusal;
ghost use Rattle.ps_peers.specs.Asking.{Asked, AsksLine, IsBrokenOff, IsConversed, WritesLines, WritesSome};
ghost use Rattle.ps_peers.specs.Asking.{IsInterrupted, ended, lines_after, lines_due, no_seat, none_more, number_after};
ghost use Rattle.ps_peers.specs.Exchange.{IsOwn};
ghost use Rattle.ps_lines.specs.Feeding.{without_return};
ghost use Rattle.ps_lines.specs.Incomings.{IsHeld};
ghost use Rattle.ps_peers.specs.Peers.{PutsSome};
ghost use Rattle.ps_lines.specs.Replies.{refusal_text};
ghost use Rattle.ps_peers.specs.declared.peer_pull.SyncFault.TheVariants.{Refused};

use crate::peer::Peer;
use crate::peer_pull::{SyncFault, fault_of, refused};
use ps_device::{Failed, Sink, Source, hand_on};
use ps_grid::Refusal;
use ps_lines::reply_words::{
    DELTA, END, ENTRIES, ENTRY, ERR, OK, REPLICA, ROWS, SAME, VAL, VERSION,
};
use ps_lines::{
    Incoming, Line, Outcome, Reply, Verb, Watcher, read_whole, send, send_pieces, split_word,
};
use std::alloc::{AllocError, Global};

/// The reply of a server without a free session slot. The server then closes the connection.
const NO_SEAT: &str = "err 21 seat";

/// Returns the number that follows `word` in the line `first`. Returns `None` if `first` doesn't begin with `word`, or
/// if the rest isn't a decimal number of at most 64 bits. `word` includes the space before the number.
///
/// Cost: linear in the bytes of `first`.
pub fn number_after(first: &[u8], word: &[u8]) -> Option<u64>
    ensures { result ≡ number_after first.now word.now }
{
    if first.len() < word.len() {
        return None;
    }
    let (front, digits) = first.split_at(word.len());
    if front == word {
        read_whole(digits)
    } else {
        None
    }
}

/// Returns 0, the number of further lines of the reply, if `due` holds; otherwise `None`.
fn none_more(due: bool) -> Option<u64>
    ensures { result ≡ none_more due }
{
    if due { Some(0) } else { None }
}

/// Returns 0, the number of further lines of the reply, if `first` is `word` and a number; otherwise `None`.
fn numbered(first: &[u8], word: &[u8]) -> Option<u64>
    ensures { result ≡ option_map (λ n. 0) (number_after first.now word.now) }
{
    match number_after(first, word) {
        Some(_) => Some(0),
        None => None,
    }
}

/// Returns how many lines follow the first line of a reply to a line with this verb. Returns `None` if `first` can't
/// begin such a reply.
pub(crate) fn lines_after(verb: Option<Verb>, first: &[u8]) -> Option<u64>
    ensures { result ≡ lines_after verb first.now }
{
    match verb {
        None => None,
        Some(Verb::Get) => none_more(first.starts_with(VAL)),
        Some(Verb::Entry) => none_more(first.starts_with(ENTRY)),
        Some(Verb::Rows) => number_after(first, ROWS),
        Some(Verb::Entries) => number_after(first, ENTRIES),
        Some(Verb::Pull) => none_more(first.starts_with(DELTA) || first.starts_with(END)),
        Some(Verb::Replica) => numbered(first, REPLICA),
        Some(Verb::Wait) => numbered(first, VERSION),
        Some(Verb::Set | Verb::Add | Verb::Sub | Verb::Choose | Verb::Unchoose | Verb::Push) =>
            numbered(first, OK),
        Some(Verb::Merge) => numbered(first, OK).or(numbered(first, SAME)),
    }
}

/// Returns how many lines follow the first line of the reply to `line`. Returns `None` if `first` can't begin it. An
/// `err` may be the reply to any line, except for the one that says that no session slot is free.
fn lines_due(line: &[u8], first: &[u8]) -> Option<u64>
    ensures { result ≡ lines_due line.now first.now }
{
    if first == NO_SEAT.as_bytes() {
        return None;
    }
    if first.starts_with(ERR) {
        return Some(0);
    }
    let (word, _) = split_word(line);
    lines_after(Verb::read(word), first)
}

/// Returns the fault for a reply that can't be one to its line: `PeerRefused` if the peer has no free session slot,
/// else `Line`.
fn undue(alloc: Global, first: &[u8]) -> SyncFault
    ensures device { result ≢ Refused Refusal.Device }
    ensures own { IsOwn result first.now }
{
    if first == NO_SEAT.as_bytes() {
        refused(alloc, NO_SEAT)
    } else {
        SyncFault::Refused(Refusal::Line)
    }
}

/// Returns the outcome, for the watcher, of a line whose reply begins with `first`.
fn outcome_of(first: &[u8]) -> Outcome {
    match refusal_of(first) {
        Some(refusal) => Outcome::Refused(refusal),
        None => Outcome::Answered,
    }
}

/// Returns the refusal whose number stands in an `err` reply. Returns `None` for another reply or number.
fn refusal_of(first: &[u8]) -> Option<Refusal> {
    let (digits, _) = split_word(first.strip_prefix(ERR)?);
    match read_whole(digits)? {
        1 => Some(Refusal::Cell),
        2 => Some(Refusal::Text),
        3 => Some(Refusal::Formula),
        4 => Some(Refusal::TooLong),
        5 => Some(Refusal::NotTally),
        6 => Some(Refusal::NotChoice),
        7 => Some(Refusal::Amount),
        8 => Some(Refusal::OptionRange),
        9 => Some(Refusal::Replica),
        10 => Some(Refusal::TallyFull),
        11 => Some(Refusal::ChoiceFull),
        12 => Some(Refusal::NotChosen),
        13 => Some(Refusal::ClockFull),
        14 => Some(Refusal::Delta),
        15 => Some(Refusal::Line),
        16 => Some(Refusal::Command),
        17 => Some(Refusal::Version),
        18 => Some(Refusal::Csv),
        19 => Some(Refusal::Memory),
        20 => Some(Refusal::Device),
        21 => Some(Refusal::Seat),
        _ => None,
    }
}

/// Writes a line and a line feed. The output may hold them back until it is flushed.
fn put_line<O: Sink>(line: &[u8], out: &mut O) -> Result<(), Failed>
    ensures sent { OnOk result (Appends (O.contents out.old) (O.contents out.new) (ended line.now)) }
    ensures put { PutsSome (O.contents out.old) (O.contents out.new) (ended line.now) }
    ensures calm { OnOk result (O.failures out.new ≡ O.failures out.old) }
    ensures failed { OnErr result (O.failures out.old < O.failures out.new) }
{
    let pieces: [&[u8]; 2] = [line, b"\n"];
    send_pieces(pieces.as_slice(), out)
}

/// Reads `count` further lines of a reply, and writes each. The output may hold them back until it is flushed.
fn put_rest<S: Source + Drop, K: Sink + Drop, O: Sink>(
    count: u64,
    peer: &mut Peer<S, K>,
    out: &mut O,
) -> Result<(), SyncFault>
    ensures all { OnOk result ((lines : List (List ℕ)) × (length lines ≡ count)
        × WritesLines lines peer.old.to_come peer.new.to_come (O.contents out.old) (O.contents out.new)) }
    ensures some { OnErr result (WritesSome peer.old.to_come peer.new.to_come
        (O.contents out.old) (O.contents out.new)) }
    ensures unasked { peer.new.asked ≡ peer.old.asked }
    ensures calm { OnOk result ((peer.new.failures ≡ peer.old.failures) × (O.failures out.new ≡ O.failures out.old)) }
    ensures failed { result ≡ Err (Refused Refusal.Device)
        → (peer.old.failures < peer.new.failures) ⊎ (O.failures out.old < O.failures out.new) }
    ensures rises { O.failures out.old ≤ O.failures out.new }
    ensures own { IfErr result (λ fault. (line : List ℕ) → IsOwn fault line) }
{
    for _ in 0..count {
        match peer.read_more() {
            Ok(()) => {}
            Err(fault) => return Err(fault_of(fault)),
        }
        match put_line(peer.reply(), out) {
            Ok(()) => {}
            Err(_) => return Err(SyncFault::Refused(Refusal::Device)),
        }
    }
    Ok(())
}

/// Returns how many lines follow the first line of the reply to `line`, or the fault if `first` can't begin it.
fn count_due(alloc: Global, line: &[u8], first: &[u8]) -> Result<u64, SyncFault>
    ensures due { IfOk result (λ count. lines_due line.now first.now ≡ Some count) }
    ensures undue { OnErr result (lines_due line.now first.now ≡ None) }
    ensures device { IfErr result (λ fault. fault ≢ Refused Refusal.Device) }
    ensures own { IfErr result (λ fault. IsOwn fault first.now) }
{
    match lines_due(line, first) {
        Some(count) => Ok(count),
        None => Err(undue(alloc, first)),
    }
}

/// Sends a peer a line, and writes the whole reply, flushed.
fn ask_line<S: Source + Drop, K: Sink + Drop, O: Sink, W: Watcher>(
    alloc: Global,
    line: &[u8],
    peer: &mut Peer<S, K>,
    out: &mut O,
    watcher: &mut W,
) -> Result<(), SyncFault>
    ensures asked { OnOk result ((text : List ℕ) × Asked peer.old line.now text peer.new
        × Appends (O.contents out.old) (O.contents out.new) text) }
    ensures put { PutsSome peer.old.asked peer.new.asked (ended line.now) }
    ensures some { OnErr result (WritesSome peer.old.to_come peer.new.to_come
        (O.contents out.old) (O.contents out.new)) }
    ensures flushed { O.waiting out.old ≡ []
        → (O.waiting out.new ≡ []) ⊎ (O.failures out.old < O.failures out.new) }
    ensures calm { OnOk result ((peer.new.failures ≡ peer.old.failures) × (O.failures out.new ≡ O.failures out.old)) }
    ensures failed { result ≡ Err (Refused Refusal.Device)
        → (peer.old.failures < peer.new.failures) ⊎ (O.failures out.old < O.failures out.new) }
    ensures own { IfErr result (λ fault. IsOwn fault (without_return peer.new.line)) }
{
    let request: [&[u8]; 2] = [line, b"\n"];
    match peer.ask(request.as_slice()) {
        Ok(()) => {}
        Err(fault) => return Err(fault_of(fault)),
    }
    let count = match count_due(alloc, line, peer.reply()) {
        Ok(count) => count,
        Err(fault) => return Err(fault),
    };
    watcher.saw(line, outcome_of(peer.reply()));
    match put_line(peer.reply(), out) {
        Ok(()) => {}
        Err(_) => return Err(SyncFault::Refused(Refusal::Device)),
    }
    let rest = put_rest(count, peer, out);
    // a part of a reply that breaks off is flushed, too
    let flushed = hand_on(out);
    match rest {
        Ok(()) => {}
        Err(fault) => return Err(fault),
    }
    match flushed {
        Ok(()) => Ok(()),
        Err(_) => Err(SyncFault::Refused(Refusal::Device)),
    }
}

/// Writes the refusal of a line that is too long, as a session does. Sends the peer none of the line.
fn refuse_line<O: Sink, W: Watcher>(out: &mut O, watcher: &mut W) -> Result<(), Failed>
    ensures sent { OnOk result (Appends (O.contents out.old) (O.contents out.new) (refusal_text Refusal.Line)) }
    ensures put { PutsSome (O.contents out.old) (O.contents out.new) (refusal_text Refusal.Line) }
    ensures flushed { OnOk result (O.waiting out.new ≡ []) }
    ensures calm { OnOk result (O.failures out.new ≡ O.failures out.old) }
    ensures failed { OnErr result (O.failures out.old < O.failures out.new) }
{
    watcher.saw(b"", Outcome::Refused(Refusal::Line));
    send(&Reply::Refused(Refusal::Line), out)?;
    hand_on(out)?;
    Ok(())
}

/// Sends a peer the line that ended in the input, and writes the reply. The line is `text` if `line` is `Full`. An
/// empty line isn't sent. A line that is too long is refused here.
fn answer<S: Source + Drop, K: Sink + Drop, O: Sink, W: Watcher>(
    alloc: Global,
    line: Line,
    text: &[u8],
    peer: &mut Peer<S, K>,
    out: &mut O,
    watcher: &mut W,
) -> Result<(), SyncFault>
    ensures answered { OnOk result ((raw held : List ℕ) → IsHeld line raw held → text.now ≡ without_return held
        → (reply : List ℕ) × AsksLine peer.old raw reply peer.new
        × Appends (O.contents out.old) (O.contents out.new) reply) }
    ensures broken { OnErr result ((raw held : List ℕ) → IsHeld line raw held → text.now ≡ without_return held
        → IsBrokenOff raw peer.old peer.new (O.contents out.old) (O.contents out.new)) }
    ensures flushed { O.waiting out.old ≡ []
        → (O.waiting out.new ≡ []) ⊎ (O.failures out.old < O.failures out.new) }
    ensures calm { OnOk result ((peer.new.failures ≡ peer.old.failures) × (O.failures out.new ≡ O.failures out.old)) }
    ensures failed { result ≡ Err (Refused Refusal.Device)
        → (peer.old.failures < peer.new.failures) ⊎ (O.failures out.old < O.failures out.new) }
    ensures own { IfErr result (λ fault. IsOwn fault (without_return peer.new.line)) }
{
    match line {
        Line::None => Ok(()),
        Line::Full if text.is_empty() => {
            watcher.saw(text, Outcome::Answered);
            Ok(())
        }
        Line::Full => ask_line(alloc, text, peer, out, watcher),
        Line::TooLong => match refuse_line(out, watcher) {
            Ok(()) => Ok(()),
            Err(_) => Err(SyncFault::Refused(Refusal::Device)),
        },
    }
}

/// Sends a peer each line of `input`, to the input's end, and writes the replies to `out`. Each reply is written whole
/// and flushed before the next line is sent. The last line needs no line feed. The watcher sees each line and its
/// outcome.
///
/// An empty line isn't sent. A line that is too long is refused here, with the reply that a session would give.
///
/// An `err` in reply to a line doesn't end the exchange. After a fault, what was sent stays sent, and what was written
/// stays written.
///
/// # Errors
///
/// - `Device`: the input, the connection or `out` failed.
/// - `Line`: a reply doesn't fit its line, the connection ended within a reply, or an earlier call on the peer failed.
/// - `Memory`: allocation failed.
/// - `PeerRefused`: the peer has no free session slot.
/// - `Closed`: the peer closed the connection instead of replying to a line.
///
/// Cost: linear in the bytes of the lines and of the replies, and 0.33 MB of memory.
pub fn ask_lines<I: Source + Drop, S: Source + Drop, K: Sink + Drop, O: Sink, W: Watcher>(
    alloc: Global,
    input: I,
    peer: &mut Peer<S, K>,
    out: &mut O,
    watcher: &mut W,
) -> Result<(), SyncFault>
    ensures all { OnOk result ((left : Option (List ℕ)) × IsConversed peer.old peer.new (O.contents out.old)
        (O.contents out.new) (I.remaining input) left) }
    ensures interrupted { OnErr result ((left : Option (List ℕ)) × IsInterrupted peer.old peer.new (O.contents out.old)
        (O.contents out.new) (I.remaining input) left) }
    ensures flushed { O.waiting out.old ≡ []
        → (O.waiting out.new ≡ []) ⊎ (O.failures out.old < O.failures out.new) }
    ensures calm { OnOk result ((peer.new.failures ≡ peer.old.failures) × (O.failures out.new ≡ O.failures out.old)) }
    ensures failed { result ≡ Err (Refused Refusal.Device)
        → ((last : I) × (I.failures input < I.failures last)) ⊎ (peer.old.failures < peer.new.failures)
        ⊎ (O.failures out.old < O.failures out.new) }
    ensures own { IfErr result (λ fault. IsOwn fault (without_return peer.new.line)) }
{
    let mut lines = match Incoming::new(alloc, input) {
        Ok(lines) => lines,
        Err(AllocError) => return Err(SyncFault::Refused(Refusal::Memory)),
    };
    'lines: loop {
        let next = match lines.next_line() {
            Ok(next) => next,
            Err(_) => return Err(SyncFault::Refused(Refusal::Device)),
        };
        match answer(alloc, next.line, lines.line(), peer, out, watcher) {
            Ok(()) => {}
            Err(fault) => return Err(fault),
        }
        if next.is_last {
            return Ok(());
        }
    }
}
