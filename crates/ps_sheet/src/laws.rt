//! Laws of settled values. Each is a function that does nothing, and its contract is the law.

ghost use Rattle.std.specs.Prelude.{◌≡◌};
ghost use Rattle.ps_shown.specs.Shown.{shown_at};
ghost use Rattle.ps_delta.specs.Deltas.{joined_history};
ghost use Rattle.ps_sheet.specs.Edits.{EditsAreFresh};
ghost use Rattle.ps_cells.specs.Recalculated.{OutsideShowsTheSame, QuietShowsTheSame};
ghost use Rattle.ps_sheet.specs.Sheet.{AcceptedDeltasJoin, TookTheSame};
ghost use Rattle.ps_cells.specs.Settled.{SettledAtLeastOnce, SettledAtMostOnce};

use crate::sheet::Sheet;

/// States that a state of the grid settles at most one value for each cell: two settled assignments of values to cells
/// are equal.
pub fn settled_at_most_once()
    ensures { SettledAtMostOnce }
{}

/// States that a state of the grid settles a value for each cell: it has a settled assignment of values to cells.
pub fn settled_at_least_once()
    ensures { SettledAtLeastOnce }
{}

/// States that a cell shows the same in two states if it is outside the region of the cells where they differ.
pub fn cells_outside_show_the_same()
    ensures { OutsideShowsTheSame }
{}

/// States that a formula cell shows the same in two states, though it is in the region of the cells where they differ,
/// under three conditions. The formula cell reaches no cycle, its own state is the same in both, and each cell that it
/// refers to shows the same value in both.
pub fn quiet_cells_show_the_same()
    ensures { QuietShowsTheSame }
{}

/// States that an accepted edit always changes the state: the edit's delta adds something new to it.
pub fn edits_are_fresh()
    ensures { EditsAreFresh }
{}

/// States that the history after some deltas were accepted has the same join as the history before, followed by all
/// these deltas. Accepting appends only the deltas that add something new, and the others don't change the join.
pub fn accepted_deltas_join()
    ensures { AcceptedDeltasJoin }
{}

/// States that two sheets that accepted the same deltas, in whatever order and however often, show the same values.
pub fn same_deltas_show_the_same(a: &Sheet, b: &Sheet)
    requires { TookTheSame a.now.history b.now.history }
    ensures { shown_at a.now.shown ≡ shown_at b.now.shown }
{
    same_join_shows_the_same(a, b)
}

/// States that two sheets whose histories have the same join show the same values, even if the sheets have different
/// replica numbers.
pub fn same_join_shows_the_same(a: &Sheet, b: &Sheet)
    requires { joined_history a.now.history ≡ joined_history b.now.history }
    ensures { shown_at a.now.shown ≡ shown_at b.now.shown }
{
    // for the fact that each is a sheet (`IsSheet`)
    let _ = a.version();
    let _ = b.version();
}
