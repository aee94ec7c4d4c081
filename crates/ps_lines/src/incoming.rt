//! Reads the lines of a source, one after another.
ghost use Rattle.std.specs.Prelude.{◌≡◌, ◌≤◌, false, length};
ghost use Rattle.ps_device.specs.declared.TheConstants.{PIECE_BYTES};

use crate::line_buffer::{Line, LineBuffer};
use ps_device::{Failed, PIECE_BYTES, Source};
use std::alloc::{AllocError, Global};

/// Why [`Incoming::read_line`] read no line.
#[derive(Clone, Copy, PartialEq, Eq)]
pub enum LineFault {
    /// The source failed.
    Failed,
    /// The source ended before the line began.
    Ended,
    /// The source ended in the middle of a line, or the line is too long.
    Broken,
}

/// What a call of [`Incoming::next_line`] read: a line, the end of the source, or both.
#[derive(Clone, Copy, PartialEq, Eq)]
pub struct NextLine {
    /// The kind of line that was read; [`Line::None`] only at the end of the source.
    pub line: Line,
    /// Whether the source has ended.
    pub is_last: bool,
}

/// A reader of the lines of a source.
#[derive(Drop)]
pub struct Incoming<S: Source + Drop> {
    source: S,
    /// the line that is being read, or that was read last
    lines: LineBuffer,
    /// the bytes that were read at once; those from `start` to `end` belong to later lines
    piece: Vec<u8>,
    start: usize,
    end: usize,
    ghost within: { start ≤ end },
    ghost read: { end ≤ PIECE_BYTES },
    ghost room: { length piece.items ≡ PIECE_BYTES },
}

impl NextLine {
    /// Creates the result for a line that a line feed ended.
    fn inside(line: Line) -> NextLine
        ensures { result ≡ record { line = line; is_last = false } }
    {
        NextLine {
            line,
            is_last: false,
        }
    }
}

impl<S: Source + Drop> Incoming<S> {
    ghost use Rattle.std.specs.Prelude.{◌≢◌, ◌<◌, ◌++◌, ◌∷◌, ℕ, List, [], Err, IfOk, OnErr, OnOk, Some, None};
    ghost use Rattle.std.specs.Prelude.{false, true};
    ghost use Rattle.std.specs.Io.KnownBytes.{Consumes, IsAtEnd, Keeps};
    ghost use Rattle.ps_lines.specs.Feeding.{Feeds, HasNoFeed, without_return};
    ghost use Rattle.ps_lines.specs.Incomings.{IsNextLine, due, lines_left};
    ghost use Rattle.ps_lines.specs.Streams.{TakesLine};

    /// Creates a reader that has read nothing of the source yet. Fails when out of memory.
    ///
    /// Cost: allocates the room for one line and for [`PIECE_BYTES`] bytes of the source.
    pub fn new(alloc: Global, source: S) -> Result<Incoming<S>, AllocError>
        ensures source { IfOk result (λ new. new.source ≡ source) }
        ensures none { IfOk result (λ new. (new.start ≡ 0) × (new.end ≡ 0)) }
        ensures ready { IfOk result (λ new. new.lines.pending ≡ Some []) }
    {
        let mut piece = Vec::with_capacity(alloc, PIECE_BYTES)?;
        piece.resize(PIECE_BYTES, 0)?;
        Ok(Incoming {
            source,
            lines: LineBuffer::new(alloc)?,
            piece,
            start: 0,
            end: 0,
        })
    }

    /// Returns the line that was read last, without a carriage return at its end. After a line that is too long, the
    /// bytes mean nothing.
    pub fn line(&self) -> &[u8]
        ensures { result.now ≡ without_return self.now.lines.line }
    {
        self.lines.line()
    }

    /// Reads the next line, which a line feed has to end. [`Incoming::line`] then returns the line, without its feed.
    ///
    /// Cost: linear in the bytes of the line, and the time that the source takes.
    pub fn read_line(&mut self) -> Result<(), LineFault>
        requires ready { self.old.lines.pending ≡ Some [] }
        ensures ready { OnOk result (self.new.lines.pending ≡ Some []) }
        ensures one { OnOk result (HasNoFeed self.new.lines.line) }
        ensures read { OnOk result (Consumes (due S.remaining self.old) (due S.remaining self.new)
            (self.new.lines.line ++ 10 ∷ [])) }
        ensures falls { OnOk result (lines_left S.left self.new < lines_left S.left self.old) }
        ensures taken { OnErr result (TakesLine (due S.remaining self.old) (due S.remaining self.new)) }
        ensures ended { result ≡ Err LineFault.Ended
            → Consumes (due S.remaining self.old) (due S.remaining self.new) [] × IsAtEnd (due S.remaining self.new) }
        ensures calm { result ≢ Err LineFault.Failed → S.failures self.new.source ≡ S.failures self.old.source }
        ensures failed { result ≡ Err LineFault.Failed → S.failures self.old.source < S.failures self.new.source }
    {
        'pieces: loop {
            match self.fill() {
                Ok(true) => {}
                Ok(false) => return Err(self.end_of_input()),
                Err(_) => return Err(LineFault::Failed),
            }
            match self.take_in() {
                Line::None => {}
                Line::Full => return Ok(()),
                Line::TooLong => return Err(LineFault::Broken),
            }
        }
    }

    /// Reads up to and with the next line feed, or to the end of the source. [`Incoming::line`] then returns the line.
    ///
    /// Bytes that remain at the end without a line feed are the last line. Fails only if the source fails.
    ///
    /// Cost: linear in the bytes of the line, and the time that the source takes.
    pub fn next_line(&mut self) -> Result<NextLine, Failed>
        requires ready { self.old.lines.pending ≡ Some [] }
        ensures ready { OnOk result (self.new.lines.pending ≡ Some []) }
        ensures next { IfOk result (IsNextLine (due S.remaining self.old) (due S.remaining self.new)
            self.new.lines.line) }
        ensures falls { IfOk result (λ next. next.is_last ≡ false
            → lines_left S.left self.new < lines_left S.left self.old) }
        ensures taken { OnErr result (TakesLine (due S.remaining self.old) (due S.remaining self.new)) }
        ensures calm { OnOk result (S.failures self.new.source ≡ S.failures self.old.source) }
        ensures failed { OnErr result (S.failures self.old.source < S.failures self.new.source) }
    {
        'pieces: loop {
            let more = match self.fill() {
                Ok(more) => more,
                Err(failed) => return Err(failed),
            };
            if !more {
                let line = self.lines.end();
                return Ok(NextLine {
                    line,
                    is_last: true,
                });
            }
            match self.take_in() {
                Line::None => {}
                Line::Full => return Ok(NextLine::inside(Line::Full)),
                Line::TooLong => return Ok(NextLine::inside(Line::TooLong)),
            }
        }
    }

    /// Takes in the bytes that were read, up to the end of a line.
    fn take_in(&mut self) -> Line
        requires some { self.old.start < self.old.end }
        ensures fed { (bytes : List ℕ) × Consumes (due S.remaining self.old) (due S.remaining self.new) bytes
            × Feeds self.old.lines self.new.lines bytes result }
        ensures source { self.new.source ≡ self.old.source }
        ensures falls { lines_left S.left self.new < lines_left S.left self.old }
    {
        let fed = self.lines.feed(&self.piece[self.start..self.end]);
        self.start += fed.taken;
        fed.line
    }

    /// Reads from the source if no byte in `piece` is left. Returns whether `piece` then has bytes to take in; it has
    /// none only at the end of the source.
    fn fill(&mut self) -> Result<bool, Failed>
        ensures lines { self.new.lines ≡ self.old.lines }
        ensures same { Keeps (due S.remaining self.old) (due S.remaining self.new) }
        ensures some { IfOk result (λ more. more ≡ true → self.new.start < self.new.end) }
        ensures ended { IfOk result (λ more. more ≡ false → IsAtEnd (due S.remaining self.new)) }
        ensures calm { OnOk result (S.failures self.new.source ≡ S.failures self.old.source) }
        ensures failed { OnErr result (S.failures self.old.source < S.failures self.new.source) }
        ensures falls { lines_left S.left self.new ≤ lines_left S.left self.old }
    {
        if self.start < self.end {
            return Ok(true);
        }
        self.start = 0;
        self.end = 0;
        self.end = self.source.take(self.piece.as_mut_slice())?;
        Ok(self.end > 0)
    }

    /// Returns why there is no line at the end of the input.
    fn end_of_input(&mut self) -> LineFault
        ensures due { due S.remaining self.new ≡ due S.remaining self.old }
        ensures source { self.new.source ≡ self.old.source }
        ensures ended { result ≡ LineFault.Ended → self.old.lines.pending ≡ Some [] }
        ensures broken { result ≢ LineFault.Failed }
    {
        match self.lines.end() {
            Line::None => LineFault::Ended,
            Line::Full | Line::TooLong => LineFault::Broken,
        }
    }
}
