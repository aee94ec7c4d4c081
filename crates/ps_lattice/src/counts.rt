//! The stored counts of a counter. They take no memory if only one replica has changed it and both are below 2^32.

ghost use Rattle.std.specs.Prelude.{◌≡◌, ◌↔◌, ◌≤◌, ◌*◌, [], ◌∷◌, sum_by, IsTrue, IfOk, IfErr};
ghost use Rattle.std.specs.FinMap as map;
ghost use Rattle.std.specs.Ordering.{nat_cmp};
ghost use Rattle.ps_grid.specs.declared.refusal.Refusal.{Refusal};
ghost use Rattle.ps_lattice.specs.Tally.{joined_tallies, greater_counts, is_tally};
ghost use Rattle.ps_lattice.specs.Inside.Shared.{joined_entries};
ghost use Rattle.ps_lattice.specs.Inside.Counts.{counts_in, entries_in};
ghost use Rattle.ps_lattice.specs.Inside.News.{news_entries, newer_count};

use crate::entries;
use crate::limits::COUNT_LIMIT;
use crate::tally::Count;
use ps_grid::{REPLICAS, Refusal};
use std::alloc::Global;
use std::slice;
use std::sync::Arc;

/// An immutable list of replicas with their counts, in two words.
#[derive(Debug, Drop)]
pub(crate) enum CountList {
    Empty,
    // one replica's counts, where each is below 2^32
    Small {
        replica: u8,
        added: u32,
        subtracted: u32,
    },
    // any other entries, with one owner or more
    Shared(Arc<Vec<(u8, Count)>>),
}

/// The entries of a `CountList`: one made of its small counts, or a reference to those on the heap.
#[derive(Debug, Drop)]
pub(crate) enum Entries<'a> {
    One((u8, Count)),
    Listed(&'a [(u8, Count)]),
}

impl Entries<'_> {
    /// Returns the replicas with their counts.
    #[inline(always)]
    pub(crate) fn as_slice(&self) -> &[(u8, Count)]
        ensures { result.now ≡ entries_in self.now }
    {
        match self {
            Entries::One(entry) => slice::from_ref(entry),
            Entries::Listed(entries) => entries,
        }
    }
}

impl CountList {
    /// Creates the list of these entries, without spare room.
    pub(crate) fn new(alloc: Global, entries: Vec<(u8, Count)>) -> Result<CountList, Refusal>
        ensures ok { IfOk result (λ l. counts_in l ≡ entries.items) }
        ensures memory { IfErr result (λ e. e ≡ Refusal.Memory) }
    {
        if entries.is_empty() {
            return Ok(CountList::Empty);
        }
        if entries.len() == 1 {
            return CountList::of_one(alloc, entries[0].0, entries[0].1);
        }
        let mut entries = entries;
        entries.shrink_to_fit();
        Ok(CountList::Shared(Arc::new(alloc, entries)?))
    }

    /// Creates the list of one replica's counts.
    #[inline(always)]
    pub(crate) fn of_one(alloc: Global, replica: u8, count: Count) -> Result<CountList, Refusal>
        ensures ok { IfOk result (λ l. counts_in l ≡ (replica, count) ∷ []) }
        ensures memory { IfErr result (λ e. e ≡ Refusal.Memory) }
    {
        if count.added <= u64::from(u32::MAX) && count.subtracted <= u64::from(u32::MAX) {
            return Ok(CountList::Small {
                replica,
                added: count.added as u32,
                subtracted: count.subtracted as u32,
            });
        }
        let mut entries = Vec::with_capacity(alloc, 1)?;
        entries.push((replica, count))?;
        Ok(CountList::Shared(Arc::new(alloc, entries)?))
    }

    /// Returns the same list without a copy: a list on the heap gets one more owner.
    #[inline]
    pub(crate) fn share(&self) -> Result<CountList, Refusal>
        ensures ok { IfOk result (λ l. counts_in l ≡ counts_in self.now) }
        ensures memory { IfErr result (λ e. e ≡ Refusal.Memory) }
    {
        match self {
            CountList::Empty => Ok(CountList::Empty),
            CountList::Small {
                replica,
                added,
                subtracted,
            } => Ok(CountList::Small {
                replica: *replica,
                added: *added,
                subtracted: *subtracted,
            }),
            CountList::Shared(entries) => Ok(CountList::Shared(entries.clone()?)),
        }
    }

    /// Returns the sum of what all replicas added, and the sum of what they subtracted.
    pub(crate) fn totals(&self) -> (u64, u64)
        requires { IsTrue (is_tally (counts_in self.now)) }
        ensures added { result.0 ≡ sum_by (λ e. e.1.added) (counts_in self.now) }
        ensures subtracted { result.1 ≡ sum_by (λ e. e.1.subtracted) (counts_in self.now) }
        ensures added_fits { result.0 ≤ REPLICAS * COUNT_LIMIT }
        ensures subtracted_fits { result.1 ≤ REPLICAS * COUNT_LIMIT }
    {
        match self {
            CountList::Empty => (0, 0),
            CountList::Small {
                replica: _,
                added,
                subtracted,
            } => (u64::from(*added), u64::from(*subtracted)),
            CountList::Shared(entries) => totals(entries),
        }
    }

    /// Returns the entries.
    #[inline(always)]
    pub(crate) fn entries(&self) -> Entries<'_>
        ensures { entries_in result ≡ counts_in self.now }
    {
        match self {
            CountList::Empty => Entries::Listed(&[]),
            CountList::Small {
                replica,
                added,
                subtracted,
            } => Entries::One((
                *replica,
                Count {
                    added: u64::from(*added),
                    subtracted: u64::from(*subtracted),
                },
            )),
            CountList::Shared(entries) => Entries::Listed(entries),
        }
    }
}

/// Returns both sums of a list on the heap.
fn totals(counts: &[(u8, Count)]) -> (u64, u64)
    requires { IsTrue (is_tally counts.now) }
    ensures added { result.0 ≡ sum_by (λ e. e.1.added) counts.now }
    ensures subtracted { result.1 ≡ sum_by (λ e. e.1.subtracted) counts.now }
    ensures added_fits { result.0 ≤ REPLICAS * COUNT_LIMIT }
    ensures subtracted_fits { result.1 ≤ REPLICAS * COUNT_LIMIT }
{
    let mut added = 0;
    let mut subtracted = 0;
    for (_, count) in counts {
        added += count.added;
        subtracted += count.subtracted;
    }
    (added, subtracted)
}

/// Returns both lists merged in the order of their replicas, with counts of one replica joined.
///
/// Small counts of one replica stay small. If one list adds nothing new to the other, the result shares the other.
#[inline(always)]
pub(crate) fn joined(
    alloc: Global,
    mine: &CountList,
    theirs: &CountList,
) -> Result<CountList, Refusal>
    requires mine { IsTrue (map.is_sorted nat_cmp (counts_in mine.now)) }
    requires theirs { IsTrue (map.is_sorted nat_cmp (counts_in theirs.now)) }
    ensures ok { IfOk result (λ l. counts_in l
        ≡ joined_entries nat_cmp greater_counts (counts_in mine.now) (counts_in theirs.now)) }
    ensures memory { IfErr result (λ e. e ≡ Refusal.Memory) }
{
    match (mine, theirs) {
        (_, CountList::Empty) => mine.share(),
        (CountList::Empty, _) => theirs.share(),
        _ => joined_filled(alloc, mine, theirs),
    }
}

/// Joins two lists that aren't empty, as `joined` does. Small counts of one replica need no merge.
#[inline(always)]
fn joined_filled(alloc: Global, mine: &CountList, theirs: &CountList) -> Result<CountList, Refusal>
    requires mine { IsTrue (map.is_sorted nat_cmp (counts_in mine.now)) }
    requires theirs { IsTrue (map.is_sorted nat_cmp (counts_in theirs.now)) }
    ensures ok { IfOk result (λ l. counts_in l
        ≡ joined_entries nat_cmp greater_counts (counts_in mine.now) (counts_in theirs.now)) }
    ensures memory { IfErr result (λ e. e ≡ Refusal.Memory) }
{
    match (mine, theirs) {
        (
            CountList::Small {
                replica,
                added,
                subtracted,
            },
            CountList::Small {
                replica: other,
                added: their_added,
                subtracted: their_subtracted,
            },
        ) if *replica == *other => Ok(CountList::Small {
            replica: *replica,
            added: (*added).max(*their_added),
            subtracted: (*subtracted).max(*their_subtracted),
        }),
        _ => merged(alloc, mine, theirs),
    }
}

/// Joins any two lists, as `joined` does. It merges them only if each has something new for the other.
#[inline(never)]
fn merged(alloc: Global, mine: &CountList, theirs: &CountList) -> Result<CountList, Refusal>
    requires mine { IsTrue (map.is_sorted nat_cmp (counts_in mine.now)) }
    requires theirs { IsTrue (map.is_sorted nat_cmp (counts_in theirs.now)) }
    ensures ok { IfOk result (λ l. counts_in l
        ≡ joined_entries nat_cmp greater_counts (counts_in mine.now) (counts_in theirs.now)) }
    ensures memory { IfErr result (λ e. e ≡ Refusal.Memory) }
{
    let (my, their) = (mine.entries(), theirs.entries());
    if entries::is_below(their.as_slice(), my.as_slice()) {
        return mine.share();
    }
    if entries::is_below(my.as_slice(), their.as_slice()) {
        return theirs.share();
    }
    let all = entries::merge_entries(alloc, my.as_slice(), their.as_slice())?;
    CountList::new(alloc, all)
}

/// Returns what in `theirs` is new to `mine`. An empty `theirs` has nothing new.
#[inline(always)]
pub(crate) fn news(
    alloc: Global,
    mine: &CountList,
    theirs: &CountList,
) -> Result<CountList, Refusal>
    requires mine { IsTrue (map.is_sorted nat_cmp (counts_in mine.now)) }
    ensures ok { IfOk result (λ l. counts_in l
        ≡ news_entries nat_cmp newer_count (counts_in mine.now) (counts_in theirs.now)) }
    ensures memory { IfErr result (λ e. e ≡ Refusal.Memory) }
{
    match theirs {
        CountList::Empty => Ok(CountList::Empty),
        _ => news_of_filled(alloc, mine, theirs),
    }
}

/// Returns what in `theirs` is new to `mine`, entry by entry.
#[inline(never)]
fn news_of_filled(alloc: Global, mine: &CountList, theirs: &CountList) -> Result<CountList, Refusal>
    requires mine { IsTrue (map.is_sorted nat_cmp (counts_in mine.now)) }
    ensures ok { IfOk result (λ l. counts_in l
        ≡ news_entries nat_cmp newer_count (counts_in mine.now) (counts_in theirs.now)) }
    ensures memory { IfErr result (λ e. e ≡ Refusal.Memory) }
{
    let (my, their) = (mine.entries(), theirs.entries());
    let news = entries::news_entries(alloc, my.as_slice(), their.as_slice())?;
    CountList::new(alloc, news)
}

/// Returns whether joining `mine` into `theirs` changes nothing.
///
/// No list is searched if `mine` is empty, or if both have small counts of one replica.
#[inline(always)]
pub(crate) fn is_below(mine: &CountList, theirs: &CountList) -> bool
    requires mine { IsTrue (map.is_sorted nat_cmp (counts_in mine.now)) }
    requires theirs { IsTrue (map.is_sorted nat_cmp (counts_in theirs.now)) }
    ensures { IsTrue result
        ↔ (joined_tallies (map.from_sorted (counts_in theirs.now)) (map.from_sorted (counts_in mine.now))
        ≡ map.from_sorted (counts_in theirs.now)) }
{
    match (mine, theirs) {
        (CountList::Empty, _) => true,
        (
            CountList::Small {
                replica,
                added,
                subtracted,
            },
            CountList::Small {
                replica: other,
                added: their_added,
                subtracted: their_subtracted,
            },
        ) if *replica == *other => *added <= *their_added && *subtracted <= *their_subtracted,
        _ => entries::is_below(mine.entries().as_slice(), theirs.entries().as_slice()),
    }
}
