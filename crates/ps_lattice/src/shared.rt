//! An immutable list that any number of owners share.

ghost use Rattle.std.specs.Prelude.{◌≡◌, ◌↔◌, [], ◌∷◌, IsTrue, IfOk, IfErr};
ghost use Rattle.std.specs.Arc.{arc_value};
ghost use Rattle.std.specs.FinMap as map;
ghost use Rattle.std.specs.Mem.{FitsInMemory};
ghost use Rattle.std.specs.declared.cmp.Ordering.{Ordering};
ghost use Rattle.ps_grid.specs.declared.refusal.Refusal.{Refusal};
ghost use Rattle.ps_lattice.specs.Maps.{joined_maps};
ghost use Rattle.ps_lattice.specs.Inside.Shared.{items_of, joined_entries, EntryFits};
ghost use Rattle.ps_lattice.specs.Inside.News.{news_entries};

use crate::entries::{self, Merge, Newer};
use crate::join::{Join, Linear};
use ps_grid::Refusal;
use std::alloc::Global;
use std::slice;
use std::sync::Arc;

/// An immutable list that any number of owners share, in two words.
///
/// An empty list takes no memory. A lone item lies in the `Arc` itself, without a `Vec`. Most lists have no more items.
#[derive(Debug, Drop)]
pub(crate) enum SharedList<X> {
    Empty,
    One(Arc<X>),
    Many(Arc<Vec<X>>),
}

impl<X: Drop> SharedList<X> {
    /// Creates the list, with one owner and no spare room.
    pub(crate) fn new(alloc: Global, items: Vec<X>) -> Result<SharedList<X>, Refusal>
        ensures ok { IfOk result (λ s. items_of s ≡ items.items) }
        ensures memory { IfErr result (λ e. e ≡ Refusal.Memory) }
    {
        if items.is_empty() {
            return Ok(SharedList::Empty);
        }
        let mut items = items;
        if items.len() == 1 {
            if let Some(item) = items.pop() {
                return SharedList::of_one(alloc, item);
            }
        }
        items.shrink_to_fit();
        Ok(SharedList::Many(Arc::new(alloc, items)?))
    }

    /// Creates the list of one item.
    pub(crate) fn of_one(alloc: Global, item: X) -> Result<SharedList<X>, Refusal>
        ensures ok { IfOk result (λ s. items_of s ≡ item ∷ []) }
        ensures memory { IfErr result (λ e. e ≡ Refusal.Memory) }
    {
        Ok(SharedList::One(Arc::new(alloc, item)?))
    }

    /// Returns the same list with one more owner, without a copy.
    #[inline]
    pub(crate) fn share(&self) -> Result<SharedList<X>, Refusal>
        ensures ok { IfOk result (λ s. items_of s ≡ items_of self.now) }
        ensures memory { IfErr result (λ e. e ≡ Refusal.Memory) }
    {
        match self {
            SharedList::Empty => Ok(SharedList::Empty),
            SharedList::One(item) => Ok(SharedList::One(item.clone()?)),
            SharedList::Many(items) => Ok(SharedList::Many(items.clone()?)),
        }
    }

    /// Returns the items.
    pub(crate) fn items(&self) -> &[X]
        requires fits { FitsInMemory X.row }
        ensures { result.now ≡ items_of self.now }
    {
        match self {
            SharedList::Empty => &[],
            SharedList::One(item) => slice::from_ref(item),
            SharedList::Many(items) => items,
        }
    }
}

/// Returns both lists merged in the order of their keys, with values at one key joined.
///
/// If one list adds nothing new to the other, the result shares that other list, and nothing is copied.
// Most lists are empty: that case is inlined, and the join of two filled lists isn't.
#[inline(always)]
pub(crate) fn joined<K: Linear + Copy, X: Merge + Copy>(
    alloc: Global,
    mine: &SharedList<(K, X)>,
    theirs: &SharedList<(K, X)>,
) -> Result<SharedList<(K, X)>, Refusal>
    requires fits { EntryFits K.row X.row }
    requires mine { IsTrue (map.is_sorted K.cmp (items_of mine.now)) }
    requires theirs { IsTrue (map.is_sorted K.cmp (items_of theirs.now)) }
    ensures ok { IfOk result (λ v. items_of v
        ≡ joined_entries K.cmp X.joined (items_of mine.now) (items_of theirs.now)) }
    ensures memory { IfErr result (λ e. e ≡ Refusal.Memory) }
{
    match (mine, theirs) {
        (_, SharedList::Empty) => mine.share(),
        (SharedList::Empty, _) => theirs.share(),
        _ => joined_filled(alloc, mine, theirs),
    }
}

/// Joins two lists that aren't empty, as `joined` does. Two lists of one entry each, with the same key, need no merge.
#[inline(never)]
fn joined_filled<K: Linear + Copy, X: Merge + Copy>(
    alloc: Global,
    mine: &SharedList<(K, X)>,
    theirs: &SharedList<(K, X)>,
) -> Result<SharedList<(K, X)>, Refusal>
    requires fits { EntryFits K.row X.row }
    requires mine { IsTrue (map.is_sorted K.cmp (items_of mine.now)) }
    requires theirs { IsTrue (map.is_sorted K.cmp (items_of theirs.now)) }
    ensures ok { IfOk result (λ v. items_of v
        ≡ joined_entries K.cmp X.joined (items_of mine.now) (items_of theirs.now)) }
    ensures memory { IfErr result (λ e. e ≡ Refusal.Memory) }
{
    match (mine, theirs) {
        (SharedList::One(my), SharedList::One(their)) if my.0.cmp(&their.0).is_eq() => {
            joined_at_key(alloc, my, their)
        }
        _ => merged(alloc, mine, theirs),
    }
}

/// Joins two entries of the same key into a list of one entry. If one entry is the join already, the list shares it.
#[inline]
fn joined_at_key<K: Linear + Copy, X: Merge + Copy>(
    alloc: Global,
    mine: &Arc<(K, X)>,
    theirs: &Arc<(K, X)>,
) -> Result<SharedList<(K, X)>, Refusal>
    requires { K.cmp (arc_value mine.now).0 (arc_value theirs.now).0 ≡ Ordering.Equal }
    ensures ok { IfOk result (λ v. items_of v
        ≡ ((arc_value mine.now).0, X.joined (arc_value mine.now).1 (arc_value theirs.now).1) ∷ []) }
    ensures memory { IfErr result (λ e. e ≡ Refusal.Memory) }
{
    if theirs.1.below(&mine.1) {
        return Ok(SharedList::One(mine.clone()?));
    }
    if mine.1.below(&theirs.1) {
        return Ok(SharedList::One(theirs.clone()?));
    }
    let both = mine.1.joined_with(alloc, &theirs.1)?;
    SharedList::of_one(alloc, (mine.0, both))
}

/// Joins any two lists, as `joined` does. It merges them only if each has something new for the other.
#[inline(never)]
fn merged<K: Linear + Copy, X: Merge + Copy>(
    alloc: Global,
    mine: &SharedList<(K, X)>,
    theirs: &SharedList<(K, X)>,
) -> Result<SharedList<(K, X)>, Refusal>
    requires fits { EntryFits K.row X.row }
    requires mine { IsTrue (map.is_sorted K.cmp (items_of mine.now)) }
    requires theirs { IsTrue (map.is_sorted K.cmp (items_of theirs.now)) }
    ensures ok { IfOk result (λ v. items_of v
        ≡ joined_entries K.cmp X.joined (items_of mine.now) (items_of theirs.now)) }
    ensures memory { IfErr result (λ e. e ≡ Refusal.Memory) }
{
    if entries::is_below(theirs.items(), mine.items()) {
        return mine.share();
    }
    if entries::is_below(mine.items(), theirs.items()) {
        return theirs.share();
    }
    let all = entries::merge_entries(alloc, mine.items(), theirs.items())?;
    SharedList::new(alloc, all)
}

/// Returns what in `theirs` is new to `mine`. An empty `theirs` has nothing new.
#[inline(always)]
pub(crate) fn news<K: Linear + Copy + Drop, X: Newer + Drop>(
    alloc: Global,
    mine: &SharedList<(K, X)>,
    theirs: &SharedList<(K, X)>,
) -> Result<SharedList<(K, X)>, Refusal>
    requires fits { EntryFits K.row X.row }
    requires mine { IsTrue (map.is_sorted K.cmp (items_of mine.now)) }
    ensures ok { IfOk result (λ v. items_of v
        ≡ news_entries K.cmp X.newer (items_of mine.now) (items_of theirs.now)) }
    ensures memory { IfErr result (λ e. e ≡ Refusal.Memory) }
{
    match theirs {
        SharedList::Empty => Ok(SharedList::Empty),
        _ => news_of_filled(alloc, mine, theirs),
    }
}

/// Returns what in `theirs` is new to `mine`, entry by entry.
#[inline(never)]
fn news_of_filled<K: Linear + Copy + Drop, X: Newer + Drop>(
    alloc: Global,
    mine: &SharedList<(K, X)>,
    theirs: &SharedList<(K, X)>,
) -> Result<SharedList<(K, X)>, Refusal>
    requires fits { EntryFits K.row X.row }
    requires mine { IsTrue (map.is_sorted K.cmp (items_of mine.now)) }
    ensures ok { IfOk result (λ v. items_of v
        ≡ news_entries K.cmp X.newer (items_of mine.now) (items_of theirs.now)) }
    ensures memory { IfErr result (λ e. e ≡ Refusal.Memory) }
{
    let news = entries::news_entries(alloc, mine.items(), theirs.items())?;
    SharedList::new(alloc, news)
}

/// Returns whether joining `mine` into `theirs` changes nothing. An empty `mine` needs no search.
#[inline(always)]
pub(crate) fn is_below<K: Linear + Copy, X: Join + Copy>(
    mine: &SharedList<(K, X)>,
    theirs: &SharedList<(K, X)>,
) -> bool
    requires fits { EntryFits K.row X.row }
    requires mine { IsTrue (map.is_sorted K.cmp (items_of mine.now)) }
    requires theirs { IsTrue (map.is_sorted K.cmp (items_of theirs.now)) }
    ensures { IsTrue result
        ↔ (joined_maps X.joined (map.from_sorted {R = K.cmp} (items_of theirs.now))
        (map.from_sorted {R = K.cmp} (items_of mine.now)) ≡ map.from_sorted {R = K.cmp} (items_of theirs.now)) }
{
    match mine {
        SharedList::Empty => true,
        _ => entries::is_below(mine.items(), theirs.items()),
    }
}
