//! Observers of an import.

use ps_grid::{Cell, Refusal};

/// An observer of the fields that an import reads. It can't change what is imported, so its methods have no contracts.
pub trait TableWatcher {
    /// Sees a field that isn't empty, and `read_entry`'s refusal of its text, or `None` if `read_entry` accepts it.
    ///
    /// The refusal is `None` for a valid entry, even if the import then fails because the cell accepts no more
    /// assignments (`ClockFull`).
    ///
    /// Cost: the watcher's own.
    fn saw_field(&mut self, cell: Cell, field: &[u8], refusal: Option<Refusal>);

    /// Sees the number, counted from 1, of a record that lies past the last row or has a field past the last column.
    ///
    /// Cost: the watcher's own.
    fn saw_past(&mut self, record: u64);
}

/// A watcher that ignores what it sees, for an import that nobody observes.
#[derive(Clone, Copy, Debug)]
pub struct UnwatchedTable;

impl TableWatcher for UnwatchedTable {
    fn saw_field(&mut self, _cell: Cell, _field: &[u8], _refusal: Option<Refusal>) {}

    fn saw_past(&mut self, _record: u64) {}
}
