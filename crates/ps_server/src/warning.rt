//! Warnings of a server that goes on.

/// Warns of faults that don't end a server. The server may call the same method again and again, so an implementation
/// should do nothing if it has given the same warning before.
pub trait Warn {
    /// Warns that a client pushed changes that are marked with the sheet's own replica, and that the sheet lacked. So
    /// another sheet uses the same replica number, or the sheet's file has lost changes.
    ///
    /// Cost: that of the device that the warner writes to.
    fn warn(&mut self);

    /// Warns that the system has no file descriptor or no memory for one more connection at the moment.
    ///
    /// Cost: that of the device that the warner writes to.
    fn warn_of_crowd(&mut self);
}

/// A warner that does nothing.
#[derive(Clone, Copy, Debug)]
pub struct Unwarned;

impl Warn for Unwarned {
    fn warn(&mut self) {}

    fn warn_of_crowd(&mut self) {}
}
