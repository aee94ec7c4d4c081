//! Lists of keys and values, sorted by key. The entries of a counter, of a choice and of a delta form lists of this
//! kind.

ghost use Rattle.std.specs.Prelude.{◌≡◌, ◌≤◌, ◌↔◌, ◌++◌, length, IsTrue, IfOk, IfErr, OnOk};
ghost use Rattle.std.specs.FinMap as map;
ghost use Rattle.ps_lattice.specs.Maps.{both_of, joined_maps};
ghost use Rattle.ps_lattice.specs.Inside.News.{news_entries};
ghost use Rattle.ps_lattice.specs.Inside.Places.{IsPlace};
ghost use Rattle.ps_grid.specs.declared.refusal.Refusal.{Refusal};

use crate::join::{Join, Linear};
use ps_grid::{Refusal, Twin};
use std::alloc::Global;
use std::cmp::Ordering;

/// A type of values whose lists can be merged. Lists with keys, as of counters and choices, join the values at the same
/// key. Lists without keys join the values at the same position.
pub trait Merge: Join + Twin + Drop {
    /// Returns the join of this value and `other` as a new value, without making a twin (a copy) of either first.
    ///
    /// Refused only when out of memory.
    ///
    /// Cost: as for `Join::join`.
    fn joined_with(&self, alloc: Global, other: &Self) -> Result<Self, Refusal>
        ensures ok { IfOk result (λ v. v ≡ Self.joined self.now other.now) }
        ensures memory { IfErr result (λ e. e ≡ Refusal.Memory) };

    /// Appends copies of the entries, which are keys with values, to the list. The default copies one entry at a time.
    /// A type that owns no memory may copy all entries at once.
    ///
    /// Refused only when out of memory; some entries may then have been appended.
    ///
    /// Cost: linear in the entries and their values.
    fn append<K: Copy>(
        alloc: Global,
        list: &mut Vec<(K, Self)>,
        entries: &[(K, Self)],
    ) -> Result<(), Refusal>
        ensures ok { OnOk result (list.new.items ≡ list.old.items ++ entries.now) }
        ensures memory { IfErr result (λ e. e ≡ Refusal.Memory) }
    {
        for entry in entries {
            list.push(twin_of(alloc, entry)?)?;
        }
        Ok(())
    }
}

/// A value that knows which part of it is new to another value.
pub(crate) trait Newer: Join + Copy {
    ghost use Rattle.std.specs.Prelude.{Option, Some};
    ghost use Rattle.ps_lattice.specs.News.{IsNewsOf};

    ghost newer: { Option Self → Self → Option Self };

    /// Returns the part of `value` that is new to `there`, if any. `there` is `None` if a list lacks the key.
    fn new_of(there: Option<Self>, value: Self) -> Option<Self>
        ensures { result ≡ newer there value };

    ghost is_news: { (there : Option Self) (value : Self)
        → IsNewsOf (both_of Self.joined) there (Some value) (newer there value) };
}

/// Returns whether the keys are strictly ascending.
///
/// Cost: linear in the entries. The test stops at the first entry that is out of order.
pub fn is_ascending<K: Ord, X>(entries: &[(K, X)]) -> bool
    ensures { result ≡ map.is_sorted K.cmp entries.now }
{
    for i in 1..entries.len() {
        if !entries[i - 1].0.cmp(&entries[i].0).is_lt() {
            return false;
        }
    }
    true
}

/// Returns the value at the key, if the list has the key, by a binary search.
pub(crate) fn value_at<K: Ord + Copy, X: Copy>(entries: &[(K, X)], key: K) -> Option<X>
    requires { IsTrue (map.is_sorted K.cmp entries.now) }
    ensures { result ≡ map.find K.cmp key entries.now }
{
    match entries.binary_search_by_key(&key, |&(k, _)| k) {
        Ok(at) => Some(entries[at].1),
        Err(_) => None,
    }
}

/// A list at least this many times as long as the other one is searched for the other's keys. Otherwise a merge steps
/// through both lists.
///
/// A search among thousands of entries takes as long as stepping over some fifteen.
const FAR_LONGER: usize = 16;

/// Returns both lists merged in the order of their keys, with values at one key joined.
///
/// Cost: linear in both lists. If one is far longer, its entries between two keys of the other are copied at once.
pub(crate) fn merge_entries<K: Linear + Copy, X: Merge>(
    alloc: Global,
    mine: &[(K, X)],
    theirs: &[(K, X)],
) -> Result<Vec<(K, X)>, Refusal>
    requires mine { IsTrue (map.is_sorted K.cmp mine.now) }
    requires theirs { IsTrue (map.is_sorted K.cmp theirs.now) }
    ensures ok { IfOk result (λ v. v.items
        ≡ map.entries (joined_maps X.joined (map.from_sorted {R = K.cmp} mine.now)
        (map.from_sorted {R = K.cmp} theirs.now))) }
    ensures memory { IfErr result (λ e. e ≡ Refusal.Memory) }
{
    if theirs.len() <= mine.len() / FAR_LONGER {
        return merge_few(alloc, mine, theirs);
    }
    if mine.len() <= theirs.len() / FAR_LONGER {
        // a join is the same from either side
        return merge_few(alloc, theirs, mine);
    }
    merge_by_steps(alloc, mine, theirs)
}

/// Merges both lists, as `merge_entries` does, and searches `many` for each key of the short list `few`.
fn merge_few<K: Linear + Copy, X: Merge>(
    alloc: Global,
    many: &[(K, X)],
    few: &[(K, X)],
) -> Result<Vec<(K, X)>, Refusal>
    requires many { IsTrue (map.is_sorted K.cmp many.now) }
    requires few { IsTrue (map.is_sorted K.cmp few.now) }
    ensures ok { IfOk result (λ v. v.items
        ≡ map.entries (joined_maps X.joined (map.from_sorted {R = K.cmp} many.now)
        (map.from_sorted {R = K.cmp} few.now))) }
    ensures memory { IfErr result (λ e. e ≡ Refusal.Memory) }
{
    let mut all = Vec::with_capacity(alloc, many.len().saturating_add(few.len()))?;
    let mut i = 0;
    for entry in few {
        let (place, is_there) = place_of(many, i, entry.0);
        X::append(alloc, &mut all, &many[i..place])?;
        i = place;
        if is_there {
            let both = many[i].1.joined_with(alloc, &entry.1)?;
            all.push((entry.0, both))?;
            i += 1;
        } else {
            all.push(twin_of(alloc, entry)?)?;
        }
    }
    X::append(alloc, &mut all, &many[i..])?;
    Ok(all)
}

/// Returns the first position from `from` on whose key isn't less than `key`, and whether the key there is `key`.
///
/// Returns the list's length if there is no such position.
fn place_of<K: Ord + Copy, X>(entries: &[(K, X)], from: usize, key: K) -> (usize, bool)
    requires ascending { IsTrue (map.is_sorted K.cmp entries.now) }
    requires within { from ≤ length entries.now }
    ensures { IsPlace K.cmp entries.now from key result.0 result.1 }
{
    match entries[from..].binary_search_by_key(&key, |entry| entry.0) {
        Ok(at) => (from + at, true),
        Err(at) => (from + at, false),
    }
}

/// Merges both lists, as `merge_entries` does, one entry at a time.
fn merge_by_steps<K: Linear + Copy, X: Merge>(
    alloc: Global,
    mine: &[(K, X)],
    theirs: &[(K, X)],
) -> Result<Vec<(K, X)>, Refusal>
    requires mine { IsTrue (map.is_sorted K.cmp mine.now) }
    requires theirs { IsTrue (map.is_sorted K.cmp theirs.now) }
    ensures ok { IfOk result (λ v. v.items
        ≡ map.entries (joined_maps X.joined (map.from_sorted {R = K.cmp} mine.now)
        (map.from_sorted {R = K.cmp} theirs.now))) }
    ensures memory { IfErr result (λ e. e ≡ Refusal.Memory) }
{
    let mut all = Vec::with_capacity(alloc, mine.len().saturating_add(theirs.len()))?;
    let (mut i, mut j) = (0, 0);
    while i < mine.len() && j < theirs.len() {
        match mine[i].0.cmp(&theirs[j].0) {
            Ordering::Less => {
                all.push(twin_of(alloc, &mine[i])?)?;
                i += 1;
            }
            Ordering::Greater => {
                all.push(twin_of(alloc, &theirs[j])?)?;
                j += 1;
            }
            Ordering::Equal => {
                let both = mine[i].1.joined_with(alloc, &theirs[j].1)?;
                all.push((mine[i].0, both))?;
                i += 1;
                j += 1;
            }
        }
    }
    X::append(alloc, &mut all, &mine[i..])?;
    X::append(alloc, &mut all, &theirs[j..])?;
    Ok(all)
}

/// Returns what in `theirs` is new to `mine`: the entries of `theirs` with the new parts of their values, if any.
pub(crate) fn news_entries<K: Linear + Copy, X: Newer>(
    alloc: Global,
    mine: &[(K, X)],
    theirs: &[(K, X)],
) -> Result<Vec<(K, X)>, Refusal>
    requires mine { IsTrue (map.is_sorted K.cmp mine.now) }
    ensures ok { IfOk result (λ v. v.items ≡ news_entries K.cmp X.newer mine.now theirs.now) }
    ensures memory { IfErr result (λ e. e ≡ Refusal.Memory) }
{
    let mut news = Vec::new(alloc);
    for (key, value) in theirs {
        if let Some(new) = X::new_of(value_at(mine, *key), *value) {
            news.push((*key, new))?;
        }
    }
    Ok(news)
}

/// Returns an equal entry.
fn twin_of<K: Copy, X: Twin>(alloc: Global, entry: &(K, X)) -> Result<(K, X), Refusal>
    ensures ok { IfOk result (λ e. e ≡ entry.now) }
    ensures memory { IfErr result (λ e. e ≡ Refusal.Memory) }
{
    Ok((entry.0, entry.1.twin(alloc)?))
}

/// Returns whether joining `mine` into `theirs` changes nothing.
pub(crate) fn is_below<K: Linear + Copy, X: Join + Copy>(mine: &[(K, X)], theirs: &[(K, X)]) -> bool
    requires mine { IsTrue (map.is_sorted K.cmp mine.now) }
    requires theirs { IsTrue (map.is_sorted K.cmp theirs.now) }
    ensures { IsTrue result
        ↔ (joined_maps X.joined (map.from_sorted {R = K.cmp} theirs.now) (map.from_sorted {R = K.cmp} mine.now)
        ≡ map.from_sorted {R = K.cmp} theirs.now) }
{
    for (key, value) in mine {
        if !covers_at(value_at(theirs, *key), *value) {
            return false;
        }
    }
    true
}

/// Returns whether joining `value` into `there` changes nothing. `there` is `None` if a list lacks the key.
fn covers_at<X: Join + Copy>(there: Option<X>, value: X) -> bool
    ensures { IsTrue result ↔ (both_of X.joined there (Some value) ≡ there) }
{
    match there {
        Some(there) => value.below(&there),
        None => false,
    }
}
