//! An observed-remove set of options: a removal takes away only those additions of an option that it has observed.
//! Each addition is a pair (`Pair`) of the option and a tag, which is a replica with a sequence number.

ghost use Rattle.std.specs.Prelude.{◌≡◌, ℕ, ◌+◌, ◌<◌, ◌≤◌, ◌↔◌, not, ◌&&◌, ◌||◌, ◌==◌, [], ◌∷◌, Contains, IsTrue};
ghost use Rattle.std.specs.Prelude.{IfOk, IfErr, IsErrOf, IsBitSet, true, filter, length, map as each};
ghost use Rattle.std.specs.List.{list_all, list_any};
ghost use Rattle.std.specs.Option.{SomeIff};
ghost use Rattle.std.specs.FinMap as map;
ghost use Rattle.ps_lattice.specs.Choice.{pair_cmp, is_added, is_removed, is_live, is_chosen, last_of};
ghost use Rattle.ps_lattice.specs.News.{IsNewsOf};
ghost use Rattle.ps_lattice.specs.Inside.News.{newer_mark};
ghost use Rattle.ps_lattice.specs.Inside.Places.{IsStretch};
ghost use Rattle.ps_lattice.specs.Choice.{last_sequence, with_pair, withdrawn, joined_choices, is_pair, is_choice};

use crate::entries::{self, Merge, Newer};
use crate::join::{Join, Linear};
use crate::limits::{OPTIONS, SEQUENCES, is_replica};
use crate::shared::{self, SharedList};
use ps_grid::{REPLICAS, Refusal, Twin};
use std::alloc::{AllocError, Global};
use std::cmp::Ordering;
use std::marker::Model;

/// One addition of an option to a choice: the option and a tag. The tag is the replica and a sequence number.
///
/// Pairs are ordered by option, then by replica, then by sequence number.
#[derive(Clone, Copy, Debug, PartialEq, Eq)]
pub struct Pair {
    /// The option, 0 to `OPTIONS` - 1.
    pub option: u8,
    /// The replica that chose the option, 1 to `REPLICAS`.
    pub replica: u8,
    /// The sequence number, 1 to `SEQUENCES`; a replica uses each number at most once in a choice.
    pub sequence: u16,
}

impl Ord for Pair {
    ghost use Rattle.ps_lattice.specs.Choice.{pair_cmp};
    ghost use Rattle.std.proofs.Common.{rules};
    ghost use Rattle.std.specs.Cmp.Rules.{comparing};

    ghost cmp = { pair_cmp };

    ghost total = { Prim.search (comparing, rules) };

    ghost matches_partial_cmp = { Prim.search (comparing, rules) };

    ghost matches_eq = { Prim.search (comparing, rules) };

    fn cmp(&self, other: &Pair) -> Ordering {
        self.option
            .cmp(&other.option)
            .then(self.replica.cmp(&other.replica))
            .then(self.sequence.cmp(&other.sequence))
    }
}

impl PartialOrd for Pair {
    ghost use Rattle.ps_lattice.specs.Choice.{pair_cmp};
    ghost use Rattle.std.proofs.Common.{rules};
    ghost use Rattle.std.specs.Ordering.{as_partial_cmp};
    ghost use Rattle.std.specs.Cmp.{partial_order_from_own_ties};
    ghost use Rattle.std.specs.Cmp.Rules.{comparing};

    ghost partial_cmp = { as_partial_cmp pair_cmp };

    ghost laws = { partial_order_from_own_ties (Prim.search (comparing, rules)) (Prim.search (comparing, rules)) };

    fn partial_cmp(&self, other: &Pair) -> Option<Ordering> {
        Some(self.cmp(other))
    }
}

impl Linear for Pair {
    ghost use Rattle.ps_lattice.specs.ChoiceLaws.{pairs_apart};

    ghost no_ties = { pairs_apart };
}

/// The mark of a removed pair. A join of two marks is set if either mark is.
impl Join for bool {
    ghost use Rattle.std.specs.Prelude.{◌||◌};
    ghost use Rattle.ps_lattice.specs.ChoiceLaws.{removals_is_join};

    ghost joined = { ◌||◌ };

    ghost associative = { removals_is_join.associative };

    ghost commutative = { removals_is_join.commutative };

    ghost idempotent = { removals_is_join.idempotent };

    fn join(&mut self, _alloc: Global, other: &Self) -> Result<(), Refusal> {
        *self |= *other;
        Ok(())
    }

    fn below(&self, other: &Self) -> bool {
        !*self || *other
    }
}

/// The most entries of one copy: 3 KB of pairs. From 4 KB on, the C library copies in another way, which is slower for
/// bytes that lie in the cache.
const COPIED: usize = 512;

impl Merge for bool {
    fn joined_with(&self, _alloc: Global, other: &bool) -> Result<bool, Refusal> {
        Ok(*self || *other)
    }

    fn append<K: Copy>(
        _alloc: Global,
        list: &mut Vec<(K, bool)>,
        entries: &[(K, bool)],
    ) -> Result<(), Refusal> {
        let mut from = 0;
        while entries.len() - from > COPIED {
            list.extend_from_slice(&entries[from..from + COPIED])?;
            from += COPIED;
        }
        Ok(list.extend_from_slice(&entries[from..])?)
    }
}

impl Newer for bool {
    ghost use Rattle.ps_lattice.specs.Inside.News.{newer_mark};
    ghost use Rattle.ps_lattice.specs.Inside.NewsLaws.{marks_news};

    ghost newer = { newer_mark };

    ghost is_news = { marks_news };

    fn new_of(there: Option<bool>, value: bool) -> Option<bool>
        ensures { result ≡ newer_mark there value }
    {
        let Some(there) = there else {
            return Some(value);
        };
        if value && !there { Some(true) } else { None }
    }
}

/// A choice, a set of options: the pairs that were added, and which of them are removed.
///
/// An option is chosen while one of its pairs isn't removed.
#[derive(Debug, Drop)]
pub struct Choice {
    // in the order of the pairs, each with whether it is removed; a removed pair stays, as a tombstone
    pairs: SharedList<(Pair, bool)>,
}

impl Model for Choice {
    ghost use Rattle.std.specs.Prelude.{IsTrue};
    ghost use Rattle.std.specs.FinMap as map;
    ghost use Rattle.ps_lattice.specs.Choice.{Pairs, is_choice};
    ghost use Rattle.ps_lattice.specs.Codes.{pairs_code};
    ghost use Rattle.ps_lattice.specs.Inside.Shared.{items_of};

    ghost Value = { Pairs };

    ghost coded = { pairs_code };

    ghost view = { λ c. map.from_sorted (items_of c.pairs) };

    ghost invariant = { λ c. IsTrue (is_choice (items_of c.pairs)) };
}

impl Choice {
    /// Creates a choice in which no option was ever chosen. It takes no memory.
    pub fn empty(alloc: Global) -> Self
        ensures { result ≡ map.empty }
    {
        // an empty list takes no memory
        let _ = alloc;
        Choice {
            pairs: SharedList::Empty,
        }
    }

    /// Returns whether no option was ever chosen. It is false even if all options are removed, since their pairs stay.
    pub fn is_empty(&self) -> bool
        ensures { IsTrue result ↔ (self.now ≡ map.empty) }
    {
        self.parts().is_empty()
    }

    /// Returns all pairs of the choice, ascending, each with a mark that is true if the pair is removed.
    #[tactic(auto, using(crate::proofs::Views::items_are))]
    pub fn parts(&self) -> &[(Pair, bool)]
        ensures value { result.now ≡ map.entries self.now }
        ensures in_range { IsTrue (is_choice result.now) }
    {
        self.pairs.items()
    }

    /// Returns the choice with these pairs, each with a mark that is true if the pair is removed.
    ///
    /// Returns `None` unless the pairs are ascending and distinct, and all their numbers are in range. Refused only
    /// when out of memory.
    ///
    /// Cost: linear in the pairs.
    pub fn from_parts(alloc: Global, parts: Vec<(Pair, bool)>) -> Result<Option<Choice>, Refusal>
        ensures ok { IfOk result (λ c. SomeIff c (IsTrue (is_choice parts.items)) (map.from_sorted parts.items)) }
        ensures memory { IfErr result (λ e. e ≡ Refusal.Memory) }
    {
        if !is_choice(&parts) {
            return Ok(None);
        }
        let pairs = SharedList::new(alloc, parts)?;
        Ok(Some(Choice { pairs }))
    }

    /// Returns the chosen options as bits: bit k is set if option k is chosen.
    ///
    /// Cost: linear in the pairs. After an option's first pair that isn't removed, the option's other pairs are skipped
    /// 16 at a time.
    pub fn options(&self) -> u64
        ensures { (k : ℕ) → k < OPTIONS → (IsBitSet result k ↔ IsTrue (is_chosen self.now k)) }
    {
        options_of(self.parts())
    }

    /// Returns the delta by which the replica chooses the option: one new pair.
    ///
    /// The new pair's sequence number is one above the replica's greatest in this choice, over all options. The choice
    /// changes only once it is joined with the delta.
    ///
    /// # Errors
    ///
    /// - `OptionRange`: the option isn't below `OPTIONS`.
    /// - `ChoiceFull`: the replica has used the last sequence number, `SEQUENCES`, in this choice.
    /// - `Memory`: out of memory.
    ///
    /// Cost: linear in the pairs.
    pub fn choose(&self, alloc: Global, replica: u8, option: u64) -> Result<Choice, Refusal>
        requires { (1 ≤ replica) × (replica ≤ REPLICAS) }
        ensures ok { IfOk result (λ d. d ≡ with_pair map.empty option replica (last_sequence self.now replica + 1)) }
        ensures adds { IfOk result (λ d. joined_choices self.now d
            ≡ with_pair self.now option replica (last_sequence self.now replica + 1)) }
        ensures fresh { IfOk result (λ d. ¬ (joined_choices self.now d ≡ self.now)) }
        ensures option { IsErrOf result Refusal.OptionRange ↔ (OPTIONS ≤ option) }
        ensures full { IsErrOf result Refusal.ChoiceFull
            ↔ ((option < OPTIONS) × (last_sequence self.now replica ≡ SEQUENCES)) }
        ensures only { IfErr result (λ e. Contains (Refusal.OptionRange ∷ Refusal.ChoiceFull ∷ Refusal.Memory ∷ []) e) }
    {
        if option >= OPTIONS {
            return Err(Refusal::OptionRange);
        }
        let last = self.last_sequence(replica);
        if last == SEQUENCES {
            return Err(Refusal::ChoiceFull);
        }
        let pair = Pair {
            option: option as u8,
            replica,
            sequence: last + 1,
        };
        let pairs = SharedList::of_one(alloc, (pair, false))?;
        Ok(Choice { pairs })
    }

    /// Returns the delta that removes the option: the option's pairs that aren't removed yet, marked as removed.
    ///
    /// The choice changes only once it is joined with the delta.
    ///
    /// # Errors
    ///
    /// - `OptionRange`: the option isn't below `OPTIONS`.
    /// - `NotChosen`: the option isn't chosen.
    /// - `Memory`: out of memory.
    ///
    /// Cost: linear in the pairs.
    pub fn unchoose(&self, alloc: Global, option: u64) -> Result<Choice, Refusal>
        ensures ok { IfOk result (λ d. d ≡ withdrawn self.now option) }
        ensures added { IfOk result (λ d. (o r s : ℕ) → is_added (joined_choices self.now d) o r s
            ≡ is_added self.now o r s) }
        ensures removed { IfOk result (λ d. (o r s : ℕ) → is_removed (joined_choices self.now d) o r s
            ≡ (is_removed self.now o r s || ((o == option) && is_added self.now o r s))) }
        ensures fresh { IfOk result (λ d. ¬ (joined_choices self.now d ≡ self.now)) }
        ensures option { IsErrOf result Refusal.OptionRange ↔ (OPTIONS ≤ option) }
        ensures not_chosen { IsErrOf result Refusal.NotChosen
            ↔ ((option < OPTIONS) × IsTrue (not (is_chosen self.now option))) }
        ensures only { IfErr result (λ e. Contains (Refusal.OptionRange ∷ Refusal.NotChosen ∷ Refusal.Memory ∷ []) e) }
    {
        if option >= OPTIONS {
            return Err(Refusal::OptionRange);
        }
        if !self.is_chosen(option) {
            return Err(Refusal::NotChosen);
        }
        let withdrawn = withdrawn_of(alloc, self.parts(), option)?;
        let pairs = SharedList::new(alloc, withdrawn)?;
        Ok(Choice { pairs })
    }

    /// Returns whether some pair of the option isn't removed.
    fn is_chosen(&self, option: u64) -> bool
        ensures { result ≡ is_chosen self.now option }
    {
        any_live(self.parts(), option)
    }

    /// Returns the replica's greatest sequence number; 0 if it has no pair.
    fn last_sequence(&self, replica: u8) -> u16
        ensures value { result ≡ last_sequence self.now replica }
        ensures in_range { result ≤ SEQUENCES }
    {
        last_by_blocks(self.parts(), replica)
    }
}

/// Returns bit k for each option k with a pair that isn't removed.
///
/// The first such pair of an option decides, and the option's other pairs are skipped.
fn options_of(pairs: &[(Pair, bool)]) -> u64
    requires ascending { IsTrue (map.is_sorted pair_cmp pairs.now) }
    requires in_range { IsTrue (list_all is_pair pairs.now) }
    ensures { (k : ℕ) → k < OPTIONS → (IsBitSet result k ↔ IsTrue (list_any (is_live k) pairs.now)) }
{
    let mut options = 0;
    let mut i = 0;
    while i < pairs.len() {
        let (pair, removed) = pairs[i];
        if removed {
            i += 1;
        } else {
            options |= 1 << pair.option;
            i = end_of_option(pairs, i);
        }
    }
    options
}

/// The size of a block of pairs that is skipped as a whole, if the pairs at its ends show that none in it matters.
const PASSED: usize = 16;

/// Returns the position after the last pair that has the option of the pair at `from`.
#[tactic(auto, using(crate::proofs::Stretches::stretch_of_one))]
fn end_of_option(pairs: &[(Pair, bool)], from: usize) -> usize
    requires ascending { IsTrue (map.is_sorted pair_cmp pairs.now) }
    requires within { from < length pairs.now }
    ensures { IsStretch pairs.now from result }
{
    let end = end_by(pairs, from, from + 1, PASSED);
    end_by(pairs, from, end, 1)
}

/// Returns `end`, moved forward by `step` pairs at a time while these have the option of the pair at `from`.
fn end_by(pairs: &[(Pair, bool)], from: usize, end: usize, step: usize) -> usize
    requires ascending { IsTrue (map.is_sorted pair_cmp pairs.now) }
    requires so_far { IsStretch pairs.now from end }
    requires some { 1 ≤ step }
    ensures { IsStretch pairs.now from result }
{
    let mut end = end;
    while step <= pairs.len() - end && pairs[end + (step - 1)].0.option == pairs[from].0.option {
        end += step;
    }
    end
}

/// Returns the replica's greatest sequence number; 0 if it has no pair.
fn last_of(pairs: &[(Pair, bool)], replica: u8) -> u16
    ensures { result ≡ last_of replica pairs.now }
{
    let mut last = 0;
    for (pair, _) in pairs {
        if pair.replica == replica && pair.sequence > last {
            last = pair.sequence;
        }
    }
    last
}

/// Returns the same as `last_of`. Skips blocks of pairs in which the replica can't have one.
fn last_by_blocks(pairs: &[(Pair, bool)], replica: u8) -> u16
    requires { IsTrue (map.is_sorted pair_cmp pairs.now) }
    ensures { result ≡ last_of replica pairs.now }
{
    let mut last = 0;
    let mut i = 0;
    while pairs.len() - i > PASSED {
        if !are_apart(pairs[i].0, pairs[i + (PASSED - 1)].0, replica) {
            last = last.max(last_of(&pairs[i..i + PASSED], replica));
        }
        i += PASSED;
    }
    last.max(last_of(&pairs[i..], replica))
}

/// Returns whether the replica can't have a pair from `first` to `last`, since these have one option and the replica
/// isn't between theirs.
fn are_apart(first: Pair, last: Pair, replica: u8) -> bool
    ensures { IsTrue result
        ↔ ((first.option ≡ last.option) × ¬ ((first.replica ≤ replica) × (replica ≤ last.replica))) }
{
    first.option == last.option && !(first.replica <= replica && replica <= last.replica)
}

/// Whether some pair of the option isn't removed.
fn any_live(pairs: &[(Pair, bool)], option: u64) -> bool
    ensures { result ≡ list_any (is_live option) pairs.now }
{
    pairs.iter().any(|entry| is_live(option, entry))
}

/// Returns the option's pairs that aren't removed, marked as removed.
fn withdrawn_of(
    alloc: Global,
    pairs: &[(Pair, bool)],
    option: u64,
) -> Result<Vec<(Pair, bool)>, AllocError>
    ensures { IfOk result (λ v. v.items ≡ each (λ e. (e.0, true)) (filter (is_live option) pairs.now)) }
{
    pairs
        .iter()
        .filter(|entry| is_live(option, entry))
        .map(|entry| (entry.0, true))
        .collect(alloc)
}

/// Returns whether the entry is a pair of the option that isn't removed.
fn is_live(option: u64, entry: &(Pair, bool)) -> bool
    ensures { result ≡ is_live option entry.now }
{
    u64::from(entry.0.option) == option && !entry.1
}

/// Whether the pairs ascend and are in range.
fn is_choice(parts: &[(Pair, bool)]) -> bool
    ensures { result ≡ is_choice parts.now }
{
    entries::is_ascending(parts) && are_in_range(parts)
}

/// Whether each pair is in range.
fn are_in_range(parts: &[(Pair, bool)]) -> bool
    ensures { result ≡ list_all is_pair parts.now }
{
    parts.iter().all(|entry| is_pair(entry))
}

/// Whether the pair is in range.
fn is_pair(entry: &(Pair, bool)) -> bool
    ensures { result ≡ is_pair entry.now }
{
    let (pair, _) = *entry;
    let named = u64::from(pair.option) < OPTIONS && is_replica(pair.replica);
    named && pair.sequence >= 1 && pair.sequence <= SEQUENCES
}

impl Twin for Choice {
    fn twin(&self, alloc: Global) -> Result<Self, Refusal> {
        // one more owner takes no memory
        let _ = alloc;
        Ok(Choice {
            pairs: self.pairs.share()?,
        })
    }
}

impl Choice {
    /// Returns the join of this choice and `other`: the pairs of both, each removed if either choice has removed the
    /// pair.
    ///
    /// Refused only when out of memory.
    ///
    /// Cost: as for `Join::join`.
    #[tactic(auto, using(crate::proofs::Joining::seen_joined, crate::proofs::ChoiceLemmas::joined_in_range))]
    #[inline(always)]
    pub fn joined(&self, alloc: Global, other: &Choice) -> Result<Choice, Refusal>
        ensures ok { IfOk result (λ c. c ≡ joined_choices self.now other.now) }
        ensures memory { IfErr result (λ e. e ≡ Refusal.Memory) }
    {
        Ok(Choice {
            pairs: shared::joined(alloc, &self.pairs, &other.pairs)?,
        })
    }

    /// Returns the part of `delta` that is new to this choice.
    ///
    /// The part has the pairs that this choice lacks, and the pairs that only the delta has removed. Refused only when
    /// out of memory.
    ///
    /// Cost: one search in this choice for each pair of the delta.
    pub fn news(&self, alloc: Global, delta: &Choice) -> Result<Choice, Refusal>
        ensures ok { IfOk result (λ c. IsNewsOf joined_choices self.now delta.now c) }
        ensures memory { IfErr result (λ e. e ≡ Refusal.Memory) }
    {
        Ok(Choice {
            pairs: shared::news(alloc, &self.pairs, &delta.pairs)?,
        })
    }
}

impl Join for Choice {
    ghost use Rattle.ps_lattice.specs.Choice.{joined_choices};
    ghost use Rattle.ps_lattice.specs.ChoiceLaws.{choices_is_join};

    ghost joined = { joined_choices };

    ghost associative = { choices_is_join.associative };

    ghost commutative = { choices_is_join.commutative };

    ghost idempotent = { choices_is_join.idempotent };

    fn join(&mut self, alloc: Global, other: &Self) -> Result<(), Refusal> {
        *self = self.joined(alloc, other)?;
        Ok(())
    }

    #[inline(always)]
    fn below(&self, other: &Self) -> bool {
        shared::is_below(&self.pairs, &other.pairs)
    }
}
