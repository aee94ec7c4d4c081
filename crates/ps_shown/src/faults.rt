//! Finds the first fault of a run of places in the table. It skips blocks whose stored summary has no fault.
ghost use Rattle.std.specs.Prelude.{◌≡◌, ◌↔◌, ◌+◌, ◌*◌, ◌≤◌, ℕ, List, length, slice_index_or, None};
ghost use Rattle.std.specs.Prelude.{IsTrue};
ghost use Rattle.ps_shown.specs.Blocks.{AreRemembered};
ghost use Rattle.ps_shown.specs.Faults.{IsFirstFault, fault_kept};
ghost use Rattle.ps_shown.specs.declared.blocks.TheConstants.{BLOCK};
ghost use Rattle.ps_shown.specs.declared.shown.TheConstants.{PLACES};

use crate::blocks::{BLOCK, is_free_of_faults};
use crate::kept::Kept;
use ps_eval::Summary;
use ps_value::Fault;

/// Returns the fault at a place, if one is stored there.
#[inline]
pub(crate) fn fault_at(kept: &[Kept], place: usize) -> Option<Fault>
    ensures { result ≡ fault_kept kept.now place }
{
    if place < kept.len() {
        kept[place].fault()
    } else {
        None
    }
}

/// The first place in `from..to` with a fault, tested place by place, or `to` if there is none.
fn walk_to_fault(kept: &[Kept], from: usize, to: usize) -> usize
    requires { from ≤ to }
    ensures { IsFirstFault kept.now from to result }
{
    let mut next = from;
    'cells: while next < to {
        if fault_at(kept, next).is_some() {
            return next;
        }
        next += 1;
    }
    to
}

/// As `walk_to_fault`, within one block. Returns `to` at once if the block's summary says that it has no fault.
fn fault_in_block(
    kept: &[Kept],
    sums: &[Option<Summary>],
    block: usize,
    from: usize,
    to: usize,
) -> usize
    requires remembered { AreRemembered kept.now sums.now }
    requires begins { block * BLOCK ≤ from }
    requires order { from ≤ to }
    requires ends { to ≤ block * BLOCK + BLOCK }
    ensures { IsFirstFault kept.now from to result }
{
    if is_free_of_faults(kept, sums, block) {
        to
    } else {
        walk_to_fault(kept, from, to)
    }
}

/// Returns the first place in `from..to` with a fault, or `to` if there is none.
///
/// Cost: a step for each block before the returned place that has a summary without a fault, and one for each cell of
/// the other blocks before it.
pub(crate) fn place_of_fault(
    kept: &[Kept],
    sums: &[Option<Summary>],
    from: usize,
    to: usize,
) -> usize
    requires remembered { AreRemembered kept.now sums.now }
    requires order { from ≤ to }
    requires within { to ≤ PLACES }
    ensures { IsFirstFault kept.now from to result }
{
    let mut next = from;
    'search: while next < to {
        let block = next / BLOCK;
        let end = (block * BLOCK + BLOCK).min(to);
        next = fault_in_block(kept, sums, block, next, end);
        if next < end {
            return next;
        }
    }
    to
}
