//! The cells that refer to a cell, by the cheapest way to list them.

use crate::row::RowReaders;
use crate::two_rows::TwoRowReaders;
use ps_grid::Cell;

/// The cells that refer to one cell, the queried cell, as `Index::readers` returns them.
#[derive(Drop)]
pub enum Readers<'a> {
    /// No cell refers to the queried cell.
    Nobody,
    /// Only this cell refers to the queried cell.
    One(Cell),
    /// Exactly these cells refer to the queried cell. Their spans are stored at one row.
    Row(RowReaders<'a>),
    /// Exactly these cells refer to the queried cell. Their spans are stored at two rows.
    TwoRows(TwoRowReaders<'a>),
    /// Any number of cells, even none, may refer to the queried cell. `Index::dependents` iterates over them.
    Several,
}
