//! Decides the answer to the head of a request.
ghost use Rattle.std.specs.Prelude.{◌≡◌, ◌++◌, ℕ, All, IfSome, List, OnOk, length, take};
ghost use Rattle.std.specs.Char.{is_ascii_digit};
ghost use Rattle.std.specs.List.{list_all};
ghost use Rattle.std.specs.Option.{option_map};
ghost use Rattle.std.specs.Io.KnownBytes.{Consumes};
ghost use Rattle.httparse.specs.Spans.{IsHeaderWithin, IsRequestWithin, span_bytes};
ghost use Rattle.websocket.specs.Headers.{eq_ignore_case, fields_of};
ghost use Rattle.websocket.specs.Handshake.{requested_key};
ghost use Rattle.ps_page.specs.Heads.{AnswersReader, Opens, AnswersBytes, AnswersHead, has_name, is_named};
ghost use Rattle.ps_page.specs.Heads.{follows, is_own_host, is_own_origin, is_port, only_value};
ghost use Rattle.ps_page.specs.declared.head.Answer.TheVariants as Answer;

use httparse::Status;
use httparse::spans::{EMPTY_HEADER_SPAN, HeaderSpan, RequestSpans, parse_request};
use std::alloc::Global;
use std::io::{ErrorKind, Read};
use websocket::handshake::server::check_request;

/// The greatest number of header fields in the head of a request.
pub const MOST_FIELDS: usize = 64;

/// The reason for which a request is refused.
#[derive(Clone, Copy, Debug, PartialEq, Eq)]
pub enum Refused {
    /// 400: the bytes aren't exactly the head of an HTTP/1 request, the head has more than [`MOST_FIELDS`] fields, or a
    /// request to the path of a WebSocket isn't a valid upgrade.
    BadRequest,
    /// 403: the `Host` isn't this machine, or the `Origin` of a request to the path of a WebSocket isn't this server.
    Forbidden,
    /// 404: nothing is at this path.
    NotFound,
    /// 405: the method isn't GET.
    NotAllowed,
    /// 408: the head didn't come in time.
    TooLate,
    /// 431: the head has more than [`HEAD_LIMIT`] bytes.
    TooLarge,
    /// 503: the server has no room for another browser that follows the changes.
    Unavailable,
}

/// The answer to the bytes of a request that came so far.
#[derive(Clone, Copy, Debug, PartialEq, Eq)]
pub enum Answer {
    /// The head isn't whole yet.
    More,
    /// The page.
    Page,
    /// The facts about the sheet: how many browsers have a session, and its title.
    About,
    /// A WebSocket for a session, with the value of `Sec-WebSocket-Accept`.
    Live([u8; 28]),
    /// A WebSocket that reports the number of changes, with the value of `Sec-WebSocket-Accept`.
    News([u8; 28]),
    /// A refusal.
    Refuse(Refused),
}

/// Returns the answer to the bytes `buf` of a request, all that came so far. A request with bytes after its head is
/// refused with 400.
///
/// Cost: linear in the bytes.
pub fn answer_to(buf: &[u8]) -> Answer
    ensures { AnswersBytes buf.now result }
{
    let mut spans = [EMPTY_HEADER_SPAN; MOST_FIELDS];
    match parse_request(buf, &mut spans) {
        Ok(Status::Partial) => Answer::More,
        Ok(Status::Complete(request)) if request.len == buf.len() => {
            answer_head(buf, &request, &spans)
        }
        _ => Answer::Refuse(Refused::BadRequest),
    }
}

/// Returns the answer to a whole head.
fn answer_head(buf: &[u8], request: &RequestSpans, spans: &[HeaderSpan]) -> Answer
    requires within { IsRequestWithin buf.now spans.now request.now }
    ensures { AnswersHead (span_bytes buf.now request.now.method) request.now.version
        (span_bytes buf.now request.now.path)
        (fields_of buf.now (take request.now.headers spans.now)) result }
{
    let fields = &spans[..request.headers];
    let host = only_value(buf, fields, b"Host");
    if !is_own_host(host) {
        return Answer::Refuse(Refused::Forbidden);
    }
    if request.method.of(buf) != b"GET".as_slice() {
        return Answer::Refuse(Refused::NotAllowed);
    }
    let path = request.path.of(buf);
    if path == b"/".as_slice() {
        return Answer::Page;
    }
    if path == b"/about".as_slice() {
        return Answer::About;
    }
    let is_news = path == b"/news".as_slice();
    if path != b"/live".as_slice() && !is_news {
        return Answer::Refuse(Refused::NotFound);
    }
    if !is_own_origin(only_value(buf, fields, b"Origin"), host) {
        return Answer::Refuse(Refused::Forbidden);
    }
    if is_news {
        open_news(buf, request, spans)
    } else {
        open_live(buf, request, spans)
    }
}

/// Returns the answer to a request for a session's WebSocket: its upgrade, or 400 if that isn't valid.
fn open_live(buf: &[u8], request: &RequestSpans, spans: &[HeaderSpan]) -> Answer
    requires within { IsRequestWithin buf.now spans.now request.now }
    ensures { Opens Answer.Live (requested_key (span_bytes buf.now request.now.method)
        request.now.version (fields_of buf.now (take request.now.headers spans.now))) result }
{
    match check_request(buf, request, spans) {
        Ok(accept) => Answer::Live(accept),
        Err(_) => Answer::Refuse(Refused::BadRequest),
    }
}

/// Returns the answer to a request for a WebSocket that reports changes: its upgrade, or 400 if that isn't valid.
fn open_news(buf: &[u8], request: &RequestSpans, spans: &[HeaderSpan]) -> Answer
    requires within { IsRequestWithin buf.now spans.now request.now }
    ensures { Opens Answer.News (requested_key (span_bytes buf.now request.now.method)
        request.now.version (fields_of buf.now (take request.now.headers spans.now))) result }
{
    match check_request(buf, request, spans) {
        Ok(accept) => Answer::News(accept),
        Err(_) => Answer::Refuse(Refused::BadRequest),
    }
}

/// Returns the value of the field with a name, if there is exactly one such field.
fn only_value<'b>(buf: &'b [u8], spans: &[HeaderSpan], name: &[u8]) -> Option<&'b [u8]>
    requires { All (IsHeaderWithin (length buf.now)) spans.now }
    ensures { option_map (λ v. v.now) result ≡ only_value (fields_of buf.now spans.now) name.now }
{
    match spans {
        [] => None,
        [first, rest @ ..] => {
            if !is_same_name(first.name.of(buf), name) {
                return only_value(buf, rest, name);
            }
            if has_name(buf, rest, name) {
                return None;
            }
            Some(first.value.of(buf))
        }
    }
}

/// Returns whether two names are equal apart from the case of letters.
fn is_same_name(a: &[u8], b: &[u8]) -> bool
    ensures { result ≡ eq_ignore_case a.now b.now }
{
    a.eq_ignore_ascii_case(b)
}

/// Returns whether a field has the name.
fn has_name(buf: &[u8], spans: &[HeaderSpan], name: &[u8]) -> bool
    requires { All (IsHeaderWithin (length buf.now)) spans.now }
    ensures { result ≡ has_name (fields_of buf.now spans.now) name.now }
{
    for span in spans {
        if is_same_name(span.name.of(buf), name) {
            return true;
        }
    }
    false
}

/// Returns whether the value is a name of this machine, with any port.
fn is_own_host(value: Option<&[u8]>) -> bool
    ensures { result ≡ is_own_host (option_map (λ v. v.now) value.entry) }
{
    match value {
        Some(text) => {
            is_named(text, b"127.0.0.1") || is_named(text, b"localhost") || is_named(text, b"[::1]")
        }
        None => false,
    }
}

/// Returns whether the origin is that of the page at this host: `http://` and the host.
fn is_own_origin(origin: Option<&[u8]>, host: Option<&[u8]>) -> bool
    ensures { result ≡ is_own_origin (option_map (λ v. v.now) origin.entry) (option_map (λ v. v.now) host.entry) }
{
    match (origin, host) {
        (Some(origin), Some(host)) => follows(origin, b"http://", host),
        _ => false,
    }
}

/// Returns whether the text is `first` and then `second`.
fn follows(text: &[u8], first: &[u8], second: &[u8]) -> bool
    ensures { result ≡ follows text.now first.now second.now }
{
    if text.len() < first.len() {
        return false;
    }
    let (front, rest) = text.split_at(first.len());
    front == first && rest == second
}

/// Returns whether the text is this name, and then a port or nothing.
fn is_named(text: &[u8], name: &[u8]) -> bool
    ensures { result ≡ is_named text.now name.now }
{
    if text.len() < name.len() {
        return false;
    }
    let (first, second) = text.split_at(name.len());
    first == name && is_port(second)
}

/// Returns whether the text may follow a name: a colon and digits, or nothing, which means the port of HTTP.
fn is_port(text: &[u8]) -> bool
    ensures { result ≡ is_port text.now }
{
    match text {
        [] => true,
        [first, digits @ ..] => *first == b':' && are_digits(digits),
    }
}

/// Returns whether each byte is a decimal digit.
fn are_digits(text: &[u8]) -> bool
    ensures { result ≡ list_all is_ascii_digit text.now }
{
    text.iter().all(|b| b.is_ascii_digit())
}

/// The greatest number of bytes in the head of a request.
pub const HEAD_LIMIT: usize = 8192;

/// Reads the head of a request, and returns the answer to the request. The answer is never `More`.
///
/// If the reader times out, the answer is the refusal `TooLate`. If the head has more than [`HEAD_LIMIT`] bytes, it is
/// `TooLarge`. Returns none if the reader fails for another reason or ends within the head, or when out of memory.
///
/// Cost: a parse of the head for each read.
pub fn read_head<S: Read>(alloc: Global, reader: &mut S) -> Option<Answer>
    ensures { IfSome result (AnswersReader (S.remaining reader.old) (S.remaining reader.new)) }
{
    let mut head = Vec::new(alloc);
    // each piece has at least one byte, so these reads exceed the limit if the head goes on
    for _ in 0..=HEAD_LIMIT {
        match read_piece(reader, &mut head) {
            Ok(()) => {}
            Err(Unread::Late) => return Some(Answer::Refuse(Refused::TooLate)),
            Err(Unread::Gone) => return None,
        }
        if head.len() > HEAD_LIMIT {
            return Some(Answer::Refuse(Refused::TooLarge));
        }
        match answer_to(head.as_slice()) {
            Answer::More => {}
            answer => return Some(answer),
        }
    }
    None
}

/// Why no more of a head could be read.
#[derive(Clone, Copy, Debug, PartialEq, Eq)]
enum Unread {
    /// The reader ended or failed, or there was no memory.
    Gone,
    /// The reader timed out.
    Late,
}

/// Reads the next piece of a head, and appends it to `head`.
fn read_piece<S: Read>(reader: &mut S, head: &mut Vec<u8>) -> Result<(), Unread>
    ensures { OnOk result ((bytes : List ℕ) × (head.new.items ≡ head.old.items ++ bytes)
        × Consumes (S.remaining reader.old) (S.remaining reader.new) bytes) }
{
    let mut piece = [0u8; 1024];
    for _ in 0..HEAD_LIMIT {
        match reader.read(&mut piece) {
            Ok(0) => return Err(Unread::Gone),
            Ok(count) => {
                return match head.extend_from_slice(&piece[..count]) {
                    Ok(()) => Ok(()),
                    Err(_) => Err(Unread::Gone),
                };
            }
            Err(error) => match error.kind() {
                ErrorKind::Interrupted => {}
                ErrorKind::WouldBlock | ErrorKind::TimedOut => return Err(Unread::Late),
                _ => return Err(Unread::Gone),
            },
        }
    }
    Err(Unread::Gone)
}
