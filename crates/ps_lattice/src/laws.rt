//! What the joins of counters and choices hold, and which part of a delta is new, as their publications define both.
//! Each function does nothing: its contract is the law.

ghost use Rattle.ps_lattice.specs.JoinWords.{TalliesJoinByMaximum, ChoicesJoinByUnion, EmptyIsLeast};
ghost use Rattle.ps_lattice.specs.NewsWords.{TalliesNewByEntry, ChoicesNewByPair};

/// States that the join of two counters has, for each replica, the greater of both P (total added) and the greater of
/// both N (total subtracted).
pub fn tallies_join_by_maximum()
    ensures { TalliesJoinByMaximum }
{}

/// States that the join of two choices has the added pairs of both choices, and the removed pairs of both.
///
/// States also that two choices with the same added and removed pairs are equal.
pub fn choices_join_by_union()
    ensures { ChoicesJoinByUnion }
{}

/// States that the empty counter adds nothing new to any counter, and the empty choice nothing new to any choice.
pub fn empty_is_least()
    ensures { EmptyIsLeast }
{}

/// States which part of a delta is new to a counter: for each replica, the delta's P if it is above the counter's P,
/// else 0, and likewise for N.
pub fn tallies_new_by_entry()
    ensures { TalliesNewByEntry }
{}

/// States which part of a delta is new to a choice: the pairs that only the delta has added, and those that only the
/// delta has removed.
pub fn choices_new_by_pair()
    ensures { ChoicesNewByPair }
{}
