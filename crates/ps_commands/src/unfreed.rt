//! Leaves memory unfreed when the program is about to end.

use ps_sheet::Sheet;
use std::mem;

/// Takes a sheet and never frees its memory. The program ends next, and the system then takes all of its memory back at
/// once.
pub fn leave_unfreed(sheet: Sheet) {
    mem::forget(sheet);
}
