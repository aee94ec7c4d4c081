//! Whether a state has everything in a delta that is marked with a given replica.

ghost use Rattle.std.specs.Prelude.{◌≡◌, IsTrue, is_some, true};
ghost use Rattle.std.specs.Option.{option_map_or};
ghost use Rattle.std.specs.FinMap as map;
ghost use Rattle.std.specs.List.{list_all, list_any};
ghost use Rattle.ps_lattice.specs.Choice.{pair_cmp};
ghost use Rattle.ps_lattice.specs.Register.{looked_at};
ghost use Rattle.ps_delta.specs.State.{state_at};
ghost use Rattle.ps_sheet.specs.Own.{
  has_assignment,
  has_count,
  has_own,
  has_own_of_cell,
  has_pair,
  is_at_most,
  is_counted_in,
};

use ps_content::Content;
use ps_delta::{CellState, Delta, Grid};
use ps_lattice::{Assignment, Count, Pair, Register};

/// Whether a grid has everything in a delta that is marked with this replica.
///
/// Cost: for each count in the delta, a pass over the counts that its cell has in the grid. For each pair in the delta
/// (an option and the tag of its choice), a binary search among the pairs that its cell has in the grid.
pub(crate) fn has_own(grid: &Grid, delta: &Delta, replica: u8) -> bool
    ensures { result ≡ has_own replica (state_at grid.now) delta.now }
{
    delta
        .parts()
        .iter()
        .all(|part| has_own_of_cell(grid.at(part.0), &part.1, replica))
}

/// Whether `state` has everything in `part`, a delta's state of the same cell, that is marked with this replica.
fn has_own_of_cell(state: &CellState, part: &CellState, replica: u8) -> bool
    ensures { result ≡ has_own_of_cell replica state.now part.now }
{
    let (register, tally, choice) = part.parts();
    let held = state.tally.parts();
    let made = tally.parts();
    has_assignment(&state.register, register, replica)
        && has_counts(held.as_slice(), made.as_slice(), replica)
        && has_pairs(state.choice.parts(), choice.parts(), replica)
}

/// Whether `register` has the assignment in `part`, or a greater one, if that assignment is marked with this replica.
fn has_assignment(register: &Register<Content>, part: &Register<Content>, replica: u8) -> bool
    ensures { result ≡ option_map_or (has_assignment replica register.now) part.now true }
{
    match part.parts() {
        Some(made) if made.replica == replica => match register.parts() {
            Some(held) => is_at_most(&made, &held),
            None => false,
        },
        _ => true,
    }
}

/// Whether `made` isn't greater than `held`, by time, then replica, then content.
fn is_at_most(made: &Assignment<&Content>, held: &Assignment<&Content>) -> bool
    ensures { result ≡ is_at_most (looked_at made.now) (looked_at held.now) }
{
    made.time
        .cmp(&held.time)
        .then(made.replica.cmp(&held.replica))
        .then(made.content.cmp(held.content))
        .is_le()
}

/// Whether `counts` has, for each count of this replica in `part`, one that is no less.
fn has_counts(counts: &[(u8, Count)], part: &[(u8, Count)], replica: u8) -> bool
    ensures { result ≡ list_all (has_count replica counts.now) part.now }
{
    part.iter()
        .all(|made| made.0 != replica || is_counted(counts, made))
}

/// Whether one of `counts` has the same replica as `made`, and is no less in both totals.
fn is_counted(counts: &[(u8, Count)], made: &(u8, Count)) -> bool
    ensures { result ≡ list_any (is_counted_in made.now) counts.now }
{
    counts.iter().any(|held| {
        held.0 == made.0 && made.1.added <= held.1.added && made.1.subtracted <= held.1.subtracted
    })
}

/// Whether `pairs` has each pair of `part` that is marked with this replica, removed or not.
fn has_pairs(pairs: &[(Pair, bool)], part: &[(Pair, bool)], replica: u8) -> bool
    requires { IsTrue (map.is_sorted pair_cmp pairs.now) }
    ensures { result ≡ list_all (has_pair replica pairs.now) part.now }
{
    part.iter().all(|made| made.0.replica != replica || is_paired(pairs, made.0))
}

/// Whether `pair` is one of `pairs`, removed or not.
fn is_paired(pairs: &[(Pair, bool)], pair: Pair) -> bool
    requires { IsTrue (map.is_sorted pair_cmp pairs.now) }
    ensures { result ≡ is_some (map.find pair_cmp pair pairs.now) }
{
    match pairs.binary_search_by_key(&pair, |&(held, _)| held) {
        Ok(_) => true,
        Err(_) => false,
    }
}
