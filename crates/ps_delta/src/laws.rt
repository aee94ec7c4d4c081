//! Laws of joins of states and of histories, which are lists of deltas. Each function does nothing: its contract is the
//! law.
//!
//! The functions are part of the public interface. The program itself calls only `grids_are_shared`.

ghost use Rattle.std.specs.Thread.{IsSync};
ghost use Rattle.ps_delta.specs.Laws.{CoveredChangesNothing, GroupsJoin, HistoryIsASet, NewsIsLeast, StatesJoin};
ghost use Rattle.ps_delta.specs.contracts.grid.Grid as grid;

use crate::block::Block;
use crate::cell_state::CellState;
use crate::grid::Grid;

/// States that the join of states is commutative, associative and idempotent, and that the join of the empty state with
/// any state `s` is `s`.
pub fn states_join()
    ensures { StatesJoin }
{}

/// States that two histories with the same deltas join to the same state, in whatever order and however often each
/// history has the deltas.
pub fn history_is_a_set()
    ensures { HistoryIsASet }
{}

/// States that replacing each group of consecutive deltas by one delta, the group's join, leaves the joined state of a
/// history the same.
pub fn groups_join()
    ensures { GroupsJoin }
{}

/// States that appending a covered delta, which adds nothing new, leaves the joined state of a history the same.
pub fn covered_changes_nothing()
    ensures { CoveredChangesNothing }
{}

/// States that a delta's news is part of the delta, repeats nothing that the state has, and is unique. The news is the
/// least delta that changes the state as the whole delta does.
pub fn news_is_least()
    ensures { NewsIsLeast }
{}

/// States that several threads may read the values of a type together.
fn shares<T: Sync>()
    ensures { IsSync T.row }
{}

/// States that several threads may read one grid together.
pub fn grids_are_shared()
    ensures { IsSync grid.the_row }
{
    shares::<CellState>();
    shares::<Block>();
    shares::<Grid>();
}
