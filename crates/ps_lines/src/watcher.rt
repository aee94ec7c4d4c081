//! Observers of a session's lines.

use ps_grid::Refusal;

/// How a session dealt with a line.
#[derive(Clone, Copy)]
pub enum Outcome {
    /// The line was answered, or it is empty.
    Answered,
    /// The line was refused.
    Refused(Refusal),
    /// The line was answered, and its delta had changes of the sheet's own replica that the sheet lacked. So another
    /// sheet uses the same replica number, or this sheet has lost changes.
    Elsewhere,
}

/// An observer of a session's lines. It can't change what the session does, so its method has no contract.
pub trait Watcher {
    /// Observes a line and its outcome. `line` has no line feed, and no carriage return at its end.
    ///
    /// A session also shows empty lines. In place of a line that is too long, it shows an empty line, since it doesn't
    /// have all bytes of the long one.
    ///
    /// Cost: the watcher's own.
    fn saw(&mut self, line: &[u8], outcome: Outcome);
}

/// A watcher that does nothing.
#[derive(Clone, Copy, Debug)]
pub struct Unwatched;

impl Watcher for Unwatched {
    fn saw(&mut self, _line: &[u8], _outcome: Outcome) {}
}
