//! The options of a server.
ghost use Rattle.std.specs.Option.{ForSome};
ghost use Rattle.std.specs.Prelude.{◌≤◌};
ghost use Rattle.ps_grid.specs.declared.parties.TheConstants.{SEATS};

use std::net::TcpListener;
use std::time::Duration;

/// The options of a server: where its sessions come from, how many there are, and how long they may take.
#[derive(Clone, Copy)]
pub struct ServerOptions<'a> {
    /// The listener that the sessions connect to.
    pub listener: &'a TcpListener,
    /// The number of sessions to serve, 1 or more; none to serve until the program is stopped.
    pub sessions: Option<u64>,
    /// The greatest number of sessions at a time: at least 1, at most `SEATS`.
    pub seats: usize,
    /// The title of the page, in one line. A browser shows another title if its user gave the page one.
    pub title: &'a str,
    /// The longest time that a connection waits for a slot.
    pub wait: Duration,
    /// How long the peer of a session may be silent before the session ends.
    ///
    /// If it is none, a peer that sends lines has half a minute for its first whole line, and no limit afterwards. A
    /// browser may then be silent for five minutes. In any case, a browser has ten seconds to begin its first message.
    pub idle: Option<Duration>,
    ghost sessions_in_range: { ForSome sessions (λ n. 1 ≤ n) },
    ghost seats_in_range: { (1 ≤ seats) × (seats ≤ SEATS) },
}
