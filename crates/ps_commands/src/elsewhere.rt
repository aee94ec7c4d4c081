//! Lines for standard error, written while a command runs.
//!
//! They report which file was opened, changes with the sheet's replica number that another sheet makes, and connections
//! that can't be accepted for now. No reply and no change depends on these lines. A line is lost if it can't be
//! written, or if allocation fails.
use crate::explain::Observer;
use crate::fault::ProgramFault;
use crate::kept::OpenedFile;
use crate::notice::tell_line;
use ps_lines::{Outcome, Watcher};
use ps_server::Warn;
use ps_sheet::Sheet;
use std::alloc::Global;
use std::fmt;
use std::io::Write;

/// The warning that another sheet makes changes with this sheet's replica number, or that lines of this sheet's file
/// were lost.
///
/// Its text is a line for standard error, without the line feed.
#[derive(Clone, Copy, Debug)]
pub struct NumberElsewhere<'a> {
    /// The replica number of the sheet.
    pub replica: u8,
    /// The path of the sheet's file, as it was given.
    pub path: &'a str,
}

impl fmt::Display for NumberElsewhere<'_> {
    fn fmt<W: fmt::Write>(&self, f: &mut fmt::Formatter<W>) -> fmt::Result {
        let replica = self.replica;
        let path = self.path;
        write!(
            f,
            "replica {replica} makes changes elsewhere, too, or lines of {path} were lost"
        )
    }
}

/// The warning that a server can accept no connection for now, as too many files are open or memory is lacking.
///
/// Its text is a line for standard error, without the line feed.
#[derive(Clone, Copy, Debug, PartialEq, Eq)]
pub struct Crowded;

impl fmt::Display for Crowded {
    fn fmt<W: fmt::Write>(&self, f: &mut fmt::Formatter<W>) -> fmt::Result {
        f.write_str(
            "no more connections for now: too many files are open (ulimit -n), or memory is lacking",
        )
    }
}

/// Writes two warnings of a running command, each at most once: [`NumberElsewhere`] and [`Crowded`]. A `Warner` without
/// a writer writes nothing.
#[derive(Drop)]
pub struct Warner<'a, W: Write + Drop> {
    alloc: Global,
    /// the writer, if there is one
    out: Option<W>,
    /// the warning of the replica, until it is written
    elsewhere: Option<NumberElsewhere<'a>>,
    /// the warning of connections, until it is written
    crowded: Option<Crowded>,
}

impl<'a, W: Write + Drop> Warner<'a, W> {
    /// Returns a warner that writes both warnings to the writer in `left`. If `left` is `None`, it writes nothing.
    pub fn new(alloc: Global, left: Option<(NumberElsewhere<'a>, W)>) -> Warner<'a, W> {
        let (elsewhere, out) = match left {
            Some((number, out)) => (Some(number), Some(out)),
            None => (None, None),
        };
        Warner {
            alloc,
            out,
            elsewhere,
            crowded: Some(Crowded),
        }
    }

    /// Returns a warner that writes only the warning [`Crowded`], to `out`.
    pub fn of_connections(alloc: Global, out: W) -> Warner<'a, W> {
        Warner {
            alloc,
            out: Some(out),
            elsewhere: None,
            crowded: Some(Crowded),
        }
    }
}

impl<W: Write + Drop> Warn for Warner<'_, W> {
    /// Writes the warning of the replica, unless it was written already.
    fn warn(&mut self) {
        if let (Some(number), Some(out)) = (self.elsewhere.take(), self.out.as_mut()) {
            tell_line(self.alloc, &number, out);
        }
    }

    /// Writes the warning of connections, unless it was written already.
    fn warn_of_crowd(&mut self) {
        if let (Some(crowded), Some(out)) = (self.crowded.take(), self.out.as_mut()) {
            tell_line(self.alloc, &crowded, out);
        }
    }
}

/// Writes the opened file's path and its number of changes to `out`, and returns a [`Warner`] that writes to `out`. The
/// line is lost if it can't be written, or if allocation fails.
pub fn tell_opened<'a, W: Write + Drop>(
    alloc: Global,
    path: &'a str,
    sheet: &Sheet,
    out: W,
) -> Warner<'a, W> {
    let mut out = out;
    let changes = sheet.version();
    tell_line(alloc, &OpenedFile { path, changes }, &mut out);
    let replica = sheet.replica();
    Warner::new(alloc, Some((NumberElsewhere { replica, path }, out)))
}

/// An observer of a session of a sheet that is stored in a file.
///
/// It does what an [`Observer`] does. In addition it warns when a line pushes changes that have the sheet's own replica
/// number and that the sheet doesn't have.
#[derive(Drop)]
pub struct KeptObserver<'a, W: Write + Drop> {
    observer: Observer<W>,
    warner: Warner<'a, W>,
}

impl<'a, W: Write + Drop> KeptObserver<'a, W> {
    /// Creates an observer that forwards to `observer` and warns through `warner`.
    pub fn new(observer: Observer<W>, warner: Warner<'a, W>) -> KeptObserver<'a, W> {
        KeptObserver { observer, warner }
    }

    /// Fails with [`ProgramFault::LinesRefused`] if `strict` is true and a line of the session was refused.
    pub fn end(&self, strict: bool) -> Result<(), ProgramFault> {
        self.observer.end(strict)
    }
}

impl<W: Write + Drop> Watcher for KeptObserver<'_, W> {
    fn saw(&mut self, line: &[u8], outcome: Outcome) {
        self.observer.saw(line, outcome);
        if let Outcome::Elsewhere = outcome {
            self.warner.warn();
        }
    }
}
