//! The merge lines of an input, taken in as they come.
ghost use Rattle.std.specs.Prelude.{◌≡◌, ◌≤◌, None, length};
ghost use Rattle.ps_device.specs.declared.TheConstants.{PIECE_BYTES};

use crate::ends::LostEnd;
use crate::fault::{ProgramFault, Spelled};
use crate::poller::Poller;
use crate::progress::Progress;
use ps_device::{PIECE_BYTES, Source};
use ps_grid::Refusal;
use ps_join::{Came, Intake};
use ps_lines::{Line, LineBuffer};
use std::alloc::{AllocError, Global};
use std::fmt;
use std::io::Write;
use std::net::TcpStream;
use std::time::Duration;

/// What a line begins with that is merged.
const MERGE: &[u8] = b"merge ";

/// A line of the input that wasn't merged. Its text is a line for standard error, without its line feed.
#[derive(Clone, Copy)]
struct RefusedLine<'a> {
    /// its number, from 1 on
    number: u64,
    /// the reply to it
    reply: &'a str,
}

impl fmt::Display for RefusedLine<'_> {
    fn fmt<W: fmt::Write>(&self, f: &mut fmt::Formatter<W>) -> fmt::Result {
        let number = self.number;
        let reply = Spelled(self.reply);
        write!(f, "line {number}: {reply}")
    }
}

/// A line of the input that is no merge line, or too long.
#[derive(Clone, Copy)]
struct NoMerge {
    /// its number, from 1 on
    number: u64,
    refusal: Refusal,
}

impl fmt::Display for NoMerge {
    fn fmt<W: fmt::Write>(&self, f: &mut fmt::Formatter<W>) -> fmt::Result {
        let number = self.number;
        let refusal = self.refusal;
        write!(f, "line {number}: {refusal}")
    }
}

/// A port with whose replica all there was is exchanged. Its text is a line for standard error, without its line feed.
#[derive(Clone, Copy)]
struct Relayed {
    port: u16,
}

impl fmt::Display for Relayed {
    fn fmt<W: fmt::Write>(&self, f: &mut fmt::Formatter<W>) -> fmt::Result {
        let port = self.port;
        write!(f, "joined {port}")
    }
}

/// How far an input was read.
#[derive(Clone, Copy)]
enum Reading {
    /// There may be more.
    Open,
    /// To its end.
    Ended,
    /// Until it failed, or the memory did.
    Failed(Refusal),
}

/// The merge lines of an input. A read of it doesn't wait.
#[derive(Drop)]
pub(crate) struct Inlet<S: Source + Drop, W: Write + Drop> {
    source: S,
    poller: Poller,
    progress: Progress<W>,
    port: u16,
    /// whether all there was is exchanged over this connection
    is_joined: bool,
    reading: Reading,
    /// the bytes that were read at once; those from `start` to `end` belong to later lines
    piece: Vec<u8>,
    start: usize,
    end: usize,
    lines: LineBuffer,
    /// how many lines there were so far
    number: u64,
    /// the delta in hand
    delta: Vec<u8>,
    has_delta: bool,
    ghost within: { start ≤ end },
    ghost read: { end ≤ PIECE_BYTES },
    ghost room: { length piece.items ≡ PIECE_BYTES },
}

impl<S: Source + Drop, W: Write + Drop> Inlet<S, W> {
    /// Returns the merge lines of this source, which `poller` reports. They are merged at the replica of a port.
    pub(crate) fn new(
        alloc: Global,
        source: S,
        poller: Poller,
        progress: Progress<W>,
        port: u16,
    ) -> Result<Inlet<S, W>, AllocError> {
        let mut piece = Vec::with_capacity(alloc, PIECE_BYTES)?;
        piece.resize(PIECE_BYTES, 0)?;
        Ok(Inlet {
            source,
            poller,
            progress,
            port,
            is_joined: false,
            reading: Reading::Open,
            piece,
            start: 0,
            end: 0,
            lines: LineBuffer::new(alloc)?,
            number: 0,
            delta: Vec::new(alloc),
            has_delta: false,
        })
    }

    /// Begins to merge over this connection.
    pub(crate) fn connected(&mut self, stream: &TcpStream) {
        self.is_joined = false;
        self.poller.watch(stream);
    }

    /// Tells that the connection is lost, and returns how long to pause.
    pub(crate) fn lost(&mut self, end: &LostEnd) -> Duration {
        self.progress.lost(end);
        self.progress.next_pause()
    }

    /// Returns the fault of the input, if it failed.
    pub(crate) fn ended(&self) -> Result<(), ProgramFault> {
        match self.reading {
            Reading::Failed(refusal) => Err(ProgramFault::Refused(refusal)),
            Reading::Open | Reading::Ended => Ok(()),
        }
    }

    /// Reads once. At the end of the input what remains is a line.
    fn fill(&mut self) -> Line {
        match self.source.take(&mut self.piece) {
            Ok(0) => {
                self.reading = Reading::Ended;
                self.lines.end()
            }
            Ok(count) => {
                self.start = 0;
                self.end = count;
                Line::None
            }
            Err(_) => {
                self.reading = Reading::Failed(Refusal::Device);
                Line::None
            }
        }
    }

    /// Takes in the bytes that were read, up to the end of a line.
    fn feed(&mut self) -> Line {
        let fed = self.lines.feed(&self.piece[self.start..self.end]);
        self.start += fed.taken;
        fed.line
    }

    /// Takes the delta of a merge line in hand, and refuses any other line but an empty one.
    fn take_in(&mut self, line: Line) {
        match line {
            Line::None => return,
            Line::Full | Line::TooLong => self.number = self.number.saturating_add(1),
        }
        let number = self.number;
        if let Line::TooLong = line {
            let refusal = Refusal::Line;
            self.progress.tell(&NoMerge { number, refusal });
            return;
        }
        let text = self.lines.line();
        match text.strip_prefix(MERGE) {
            Some(delta) => {
                self.delta.clear();
                match self.delta.extend_from_slice(delta) {
                    Ok(()) => self.has_delta = true,
                    Err(AllocError) => self.reading = Reading::Failed(Refusal::Memory),
                }
            }
            None if text.is_empty() => {}
            None => {
                let refusal = Refusal::Command;
                self.progress.tell(&NoMerge { number, refusal });
            }
        }
    }
}

impl<S: Source + Drop, W: Write + Drop> Intake for Inlet<S, W> {
    ghost to_come = { λ inlet. None };

    ghost held = { λ inlet. inlet.delta.items };

    ghost holds = { λ inlet. inlet.has_delta };

    fn next(&mut self) -> Came {
        for _ in 0..u64::MAX {
            if self.has_delta {
                return Came::Delta;
            }
            if let Reading::Failed(_) = self.reading {
                return Came::Ended;
            }
            let line = if self.start < self.end {
                self.feed()
            } else if let Reading::Ended = self.reading {
                return Came::Ended;
            } else if self.poller.is_ready() {
                self.fill()
            } else {
                return Came::Nothing;
            };
            self.take_in(line);
        }
        Came::Nothing
    }

    fn delta(&self) -> &[u8] {
        self.delta.as_slice()
    }

    fn settle(&mut self, refusal: Option<&str>) {
        self.has_delta = false;
        if let Some(reply) = refusal {
            let number = self.number;
            self.progress.tell(&RefusedLine { number, reply });
        }
    }

    fn await_more(&mut self) {
        if !self.is_joined {
            self.is_joined = true;
            let port = self.port;
            self.progress.succeeded(&Relayed { port });
        }
        self.poller.sleep();
    }
}
