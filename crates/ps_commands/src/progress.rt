//! What a join that goes on has written about its ends, and how long it pauses.
ghost use Rattle.std.specs.Duration.{as_nanos};
ghost use Rattle.std.specs.Prelude.{◌≡◌, ◌≤◌, ◌*◌, []};
ghost use Rattle.ps_commands.specs.declared.progress.TheConstants.{FIRST_PAUSE, LAST_PAUSE};

use crate::ends::{Ends, LostEnd};
use crate::notice::tell_line;
use std::alloc::{AllocError, Global};
use std::fmt;
use std::io::Write;
use std::time::Duration;

/// The pause after the first fault, in milliseconds.
const FIRST_PAUSE: u64 = 100;

/// The longest pause, in milliseconds.
const LAST_PAUSE: u64 = 10_000;

/// How many different lines about lost ends are remembered.
const MOST_LINES: usize = 64;

/// Two ports whose replicas have the same changes. Its text is a line for standard error, without its line feed.
#[derive(Clone, Copy)]
struct Joined {
    from: u16,
    to: u16,
}

impl fmt::Display for Joined {
    fn fmt<W: fmt::Write>(&self, f: &mut fmt::Formatter<W>) -> fmt::Result {
        let from = self.from;
        let to = self.to;
        write!(f, "joined {from} and {to}")
    }
}

/// Returns the pause after this one: twice as long, up to the longest one.
fn longer_pause(pause: u64) -> u64
    requires { pause ≤ LAST_PAUSE }
    ensures longer { pause ≤ result }
    ensures bounded { result ≤ LAST_PAUSE }
{
    if pause <= LAST_PAUSE / 2 {
        pause * 2
    } else {
        LAST_PAUSE
    }
}

/// Returns whether a line is among these.
fn is_among(line: &str, lines: &[String]) -> bool {
    for known in lines {
        if known.as_str() == line {
            return true;
        }
    }
    false
}

/// What a join has written about its ends, and how long it pauses before it connects again.
#[derive(Drop)]
pub(crate) struct Progress<W: Write + Drop> {
    alloc: Global,
    out: W,
    /// the lines about lost ends since both were joined
    lines: Vec<String>,
    /// the next pause, in milliseconds
    pause: u64,
    ghost bounded: { pause ≤ LAST_PAUSE },
}

impl<W: Write + Drop> Progress<W> {
    /// Returns a progress that writes to `out`, and has written nothing.
    pub(crate) fn new(alloc: Global, out: W) -> Progress<W>
        ensures { result.pause ≡ FIRST_PAUSE }
    {
        Progress {
            alloc,
            out,
            lines: Vec::new(alloc),
            pause: FIRST_PAUSE,
        }
    }

    /// Tells that both ends have the same changes. The next pause is the first one again, and each line about a lost
    /// end is due again.
    pub(crate) fn joined(&mut self, ends: &Ends<'_>)
        ensures lines { self.new.lines.items ≡ [] }
        ensures pause { self.new.pause ≡ FIRST_PAUSE }
    {
        self.succeeded(&Joined {
            from: ends.from.port,
            to: ends.to.port,
        });
    }

    /// Tells that all there was is exchanged. The next pause is the first one again, and each line about a lost end is
    /// due again.
    pub(crate) fn succeeded<T: fmt::Display>(&mut self, message: &T)
        ensures lines { self.new.lines.items ≡ [] }
        ensures pause { self.new.pause ≡ FIRST_PAUSE }
    {
        self.lines.clear();
        self.pause = FIRST_PAUSE;
        self.tell(message);
    }

    /// Tells this.
    pub(crate) fn tell<T: fmt::Display>(&mut self, message: &T)
        ensures lines { self.new.lines ≡ self.old.lines }
        ensures pause { self.new.pause ≡ self.old.pause }
    {
        tell_line(self.alloc, message, &mut self.out);
    }

    /// Tells which end is lost and how, unless that line was written since both were joined.
    pub(crate) fn lost(&mut self, end: &LostEnd)
        ensures { self.new.pause ≡ self.old.pause }
    {
        // (out of memory the line is lost)
        let _ = self.tell_lost(end);
    }

    /// Writes the line about a lost end, unless it was written already, and remembers it.
    fn tell_lost(&mut self, end: &LostEnd) -> Result<(), AllocError>
        ensures { self.new.pause ≡ self.old.pause }
    {
        let line = format!(in self.alloc; "{end}")?;
        if is_among(line.as_str(), self.lines.as_slice()) {
            return Ok(());
        }
        tell_line(self.alloc, &line, &mut self.out);
        if self.lines.len() >= MOST_LINES {
            self.lines.clear();
        }
        self.lines.push(line)?;
        Ok(())
    }

    /// Returns how long to pause now. The next pause is twice as long, at most 10 seconds.
    pub(crate) fn next_pause(&mut self) -> Duration
        ensures paused { as_nanos result ≡ self.old.pause * 1_000_000 }
        ensures longer { self.old.pause ≤ self.new.pause }
    {
        let pause = Duration::from_millis(self.pause);
        self.pause = longer_pause(self.pause);
        pause
    }
}
