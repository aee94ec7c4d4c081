//! The result of reading one cell.

use ps_value::Value;

/// What a cell shows, at one version of the sheet.
#[derive(Drop)]
pub struct Shot {
    /// The version: the number of changes in the history.
    pub version: u64,
    /// The value that the cell shows after these changes.
    pub value: Value,
}
