//! The server's side of browsers: a page, and WebSockets whose messages are the lines and replies of a session.
//!
//! This crate has no access to a sheet.
//!
//! - [`greet`] answers a request of HTTP: it sends the page ([`PAGE`]), the facts about the sheet ([`About`]) or a
//!   refusal, or opens a WebSocket.
//! - [`MessageSource`] and [`MessageSink`] are the two sides of a session over a WebSocket.
//! - [`NewsSocket`] is a second WebSocket of a page, on which the server reports the number of changes.
//!
//! The contracts to use are those of [`answer_to`], [`read_head`] and [`answer_request`]. Once the head of a request is
//! whole (at most [`HEAD_LIMIT`] bytes), its method, path, `Host` and `Origin` decide the answer. A WebSocket is opened
//! only for the page of the same host and port. [`hear`] reads a message that is one line, and [`say`] sends one.
//!
//! For example, a browser sends `rows A1:B2`, and the source returns these bytes and a line feed. The sink sends the
//! reply, `rows 2` and the two lines after it, as one message. A message with a line feed in it is no line and ends the
//! session.
//!
//! Cost: linear in the bytes of the lines and replies.
#![tactic(auto)]

mod greeting;
mod head;
mod news;
mod page;
mod response;
mod socket;

pub use greeting::{Greeted, answer_request, drain, greet};
pub use head::{Answer, HEAD_LIMIT, MOST_FIELDS, Refused, answer_to, read_head};
pub use news::{NewsSocket, say_version};
pub use page::PAGE;
pub use response::{About, respond, respond_about, respond_page};
pub use socket::{BrowserStream, Heard, MessageSink, MessageSource, hear, say, turn_browser_away};
