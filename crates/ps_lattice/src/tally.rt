//! A PN-counter: a counter that goes up and down.

ghost use Rattle.std.specs.Prelude.{◌≡◌, ◌+◌, ◌<◌, ◌≤◌, ◌↔◌, not, [], ◌∷◌, Contains, IsTrue, IfOk};
ghost use Rattle.std.specs.Prelude.{IfErr, IsErrOf};
ghost use Rattle.std.specs.Option.{SomeIff};
ghost use Rattle.std.specs.List.{list_all};
ghost use Rattle.std.specs.FinMap as map;
ghost use Rattle.ps_lattice.specs.Tally.{added, subtracted, value_of, joined_tallies, with_counts, counts_of};
ghost use Rattle.ps_lattice.specs.Tally.{is_tally, is_count, is_amount};
ghost use Rattle.ps_lattice.specs.News.{IsNewsOf};
ghost use Rattle.ps_lattice.specs.Inside.News.{newer_count, newer_total};

use crate::counts::{self, CountList, Entries};
use crate::entries::{self, Merge, Newer};
use crate::join::Join;
use crate::limits::{AMOUNT_LIMIT, COUNT_LIMIT, is_replica};
use ps_grid::{REPLICAS, Refusal, Twin};
use std::alloc::Global;
use std::marker::Model;

/// The total that one replica added to a counter, and the total that it subtracted; each is at most `COUNT_LIMIT`.
#[derive(Clone, Copy, Debug, PartialEq, Eq)]
pub struct Count {
    /// P of the replica: the total that it added.
    pub added: u64,
    /// N of the replica: the total that it subtracted.
    pub subtracted: u64,
}

impl Twin for Count {
    fn twin(&self, _alloc: Global) -> Result<Self, Refusal> {
        Ok(*self)
    }
}

/// A join has the greater of both totals added, and the greater of both totals subtracted.
impl Join for Count {
    ghost use Rattle.ps_lattice.specs.Tally.{greater_counts};
    ghost use Rattle.ps_lattice.specs.TallyLaws.{counts_is_join};

    ghost joined = { greater_counts };

    ghost associative = { counts_is_join.associative };

    ghost commutative = { counts_is_join.commutative };

    ghost idempotent = { counts_is_join.idempotent };

    fn join(&mut self, alloc: Global, other: &Self) -> Result<(), Refusal> {
        *self = self.joined_with(alloc, other)?;
        Ok(())
    }

    fn below(&self, other: &Self) -> bool {
        self.added <= other.added && self.subtracted <= other.subtracted
    }
}

impl Merge for Count {
    fn joined_with(&self, _alloc: Global, other: &Count) -> Result<Count, Refusal> {
        Ok(Count {
            added: self.added.max(other.added),
            subtracted: self.subtracted.max(other.subtracted),
        })
    }

    fn append<K: Copy>(
        _alloc: Global,
        list: &mut Vec<(K, Count)>,
        entries: &[(K, Count)],
    ) -> Result<(), Refusal> {
        Ok(list.extend_from_slice(entries)?)
    }
}

impl Newer for Count {
    ghost use Rattle.ps_lattice.specs.Inside.News.{newer_count};
    ghost use Rattle.ps_lattice.specs.Inside.NewsLaws.{counts_news};

    ghost newer = { newer_count };

    ghost is_news = { counts_news };

    fn new_of(there: Option<Count>, value: Count) -> Option<Count>
        ensures { result ≡ newer_count there value }
    {
        let Some(there) = there else {
            return Some(value);
        };
        if value.added <= there.added && value.subtracted <= there.subtracted {
            return None;
        }
        Some(Count {
            added: newer_total(there.added, value.added),
            subtracted: newer_total(there.subtracted, value.subtracted),
        })
    }
}

/// Returns `total` if it is above `there`, else 0.
fn newer_total(there: u64, total: u64) -> u64
    ensures { result ≡ newer_total there total }
{
    if there < total { total } else { 0 }
}

/// A counter: for each replica the total that it added, and the total that it subtracted.
#[derive(Debug, Drop)]
pub struct Tally {
    // by replica; only replicas that changed the counter
    counts: CountList,
}

impl Model for Tally {
    ghost use Rattle.std.specs.Prelude.{IsTrue};
    ghost use Rattle.std.specs.FinMap as map;
    ghost use Rattle.ps_lattice.specs.Tally.{Counts, is_tally};
    ghost use Rattle.ps_lattice.specs.Codes.{counts_code};
    ghost use Rattle.ps_lattice.specs.Inside.Counts.{counts_in};

    ghost Value = { Counts };

    ghost coded = { counts_code };

    ghost view = { λ t. map.from_sorted (counts_in t.counts) };

    ghost invariant = { λ t. IsTrue (is_tally (counts_in t.counts)) };
}

/// The replicas that changed a counter, each with its counts, as [`Tally::parts`] returns them.
#[derive(Debug, Drop)]
pub struct TallyParts<'a> {
    entries: Entries<'a>,
}

impl<'a> Model for TallyParts<'a> {
    ghost use Rattle.std.specs.Prelude.{IsTrue};
    ghost use Rattle.std.specs.FinMap as map;
    ghost use Rattle.ps_lattice.specs.Tally.{Counts, is_tally};
    ghost use Rattle.ps_lattice.specs.Codes.{counts_code};
    ghost use Rattle.ps_lattice.specs.Inside.Counts.{entries_in};

    ghost Value = { Counts };

    ghost coded = { counts_code };

    ghost view = { λ p. map.from_sorted (entries_in p.entries) };

    ghost invariant = { λ p. IsTrue (is_tally (entries_in p.entries)) };
}

impl TallyParts<'_> {
    /// Returns the replicas, ascending, each with its counts.
    #[tactic(auto, using(crate::proofs::Views::items_are))]
    #[inline(always)]
    pub fn as_slice(&self) -> &[(u8, Count)]
        ensures value { result.now ≡ map.entries self.now }
        ensures in_range { IsTrue (is_tally result.now) }
    {
        self.entries.as_slice()
    }
}

impl Tally {
    /// Creates a counter that nobody has changed; its value is 0. It takes no memory.
    pub fn empty(alloc: Global) -> Self
        ensures { result ≡ map.empty }
    {
        // an empty list takes no memory
        let _ = alloc;
        Tally {
            counts: CountList::Empty,
        }
    }

    /// Returns whether nobody has changed the counter.
    pub fn is_empty(&self) -> bool
        ensures { IsTrue result ↔ (self.now ≡ map.empty) }
    {
        self.parts().as_slice().is_empty()
    }

    /// Returns the replicas that changed the counter, each with its counts.
    #[inline(always)]
    pub fn parts(&self) -> TallyParts<'_>
        ensures value { result ≡ self.now }
        ensures in_range { IsTrue (is_tally (map.entries result)) }
    {
        TallyParts {
            entries: self.counts.entries(),
        }
    }

    /// Returns the counter with these replicas and their counts.
    ///
    /// Returns `None` unless the replicas are ascending, distinct and from 1 to `REPLICAS`. Each replica's two counts
    /// must be at most `COUNT_LIMIT`, and not both 0.
    ///
    /// Refused only when out of memory.
    ///
    /// Cost: linear in the number of replicas.
    pub fn from_parts(alloc: Global, parts: Vec<(u8, Count)>) -> Result<Option<Tally>, Refusal>
        ensures ok { IfOk result (λ t. SomeIff t (IsTrue (is_tally parts.items)) (map.from_sorted parts.items)) }
        ensures memory { IfErr result (λ e. e ≡ Refusal.Memory) }
    {
        if !is_tally(&parts) {
            return Ok(None);
        }
        let counts = CountList::new(alloc, parts)?;
        Ok(Some(Tally { counts }))
    }

    /// Returns the value of the counter: the sum of what all replicas added, minus the sum of what they subtracted.
    ///
    /// Cost: linear in the replicas that changed the counter.
    pub fn value(&self) -> i64
        ensures { result ≡ value_of self.now }
    {
        let (added, subtracted) = self.counts.totals();
        added as i64 - subtracted as i64
    }

    /// Returns the delta by which the replica adds the amount.
    ///
    /// The delta holds the total that the replica will then have added, and 0 as its total subtracted. The counter
    /// changes only once it is joined with the delta.
    ///
    /// # Errors
    ///
    /// - `Amount`: the amount isn't 1 to `AMOUNT_LIMIT`.
    /// - `TallyFull`: the replica would have added more than `COUNT_LIMIT` in all.
    /// - `Memory`: out of memory.
    ///
    /// Cost: logarithmic in the replicas that changed the counter.
    #[tactic(auto, using(crate::proofs::TallyLemmas::add_raises, crate::proofs::TallyLemmas::add_is_fresh))]
    #[inline(always)]
    pub fn add(&self, alloc: Global, replica: u8, amount: u64) -> Result<Tally, Refusal>
        requires { (1 ≤ replica) × (replica ≤ REPLICAS) }
        ensures ok { IfOk result (λ d. d ≡ counts_of replica (added self.now replica + amount) 0) }
        ensures raises { IfOk result (λ d. joined_tallies self.now d
            ≡ with_counts self.now replica (added self.now replica + amount) (subtracted self.now replica)) }
        ensures fresh { IfOk result (λ d. ¬ (joined_tallies self.now d ≡ self.now)) }
        ensures amount { IsErrOf result Refusal.Amount ↔ IsTrue (not (is_amount amount)) }
        ensures full { IsErrOf result Refusal.TallyFull
            ↔ (IsTrue (is_amount amount) × (COUNT_LIMIT < added self.now replica + amount)) }
        ensures only { IfErr result (λ e. Contains (Refusal.Amount ∷ Refusal.TallyFull ∷ Refusal.Memory ∷ []) e) }
    {
        let count = Count {
            added: count_after(self.count_of(replica).added, amount)?,
            subtracted: 0,
        };
        Tally::of_one(alloc, replica, count)
    }

    /// Returns the delta by which the replica subtracts the amount.
    ///
    /// The delta holds the total that the replica will then have subtracted, and 0 as its total added. The counter
    /// changes only once it is joined with the delta.
    ///
    /// # Errors
    ///
    /// - `Amount`: the amount isn't 1 to `AMOUNT_LIMIT`.
    /// - `TallyFull`: the replica would have subtracted more than `COUNT_LIMIT` in all.
    /// - `Memory`: out of memory.
    ///
    /// Cost: logarithmic in the replicas that changed the counter.
    #[tactic(auto, using(crate::proofs::TallyLemmas::sub_raises, crate::proofs::TallyLemmas::sub_is_fresh))]
    #[inline(always)]
    pub fn sub(&self, alloc: Global, replica: u8, amount: u64) -> Result<Tally, Refusal>
        requires { (1 ≤ replica) × (replica ≤ REPLICAS) }
        ensures ok { IfOk result (λ d. d ≡ counts_of replica 0 (subtracted self.now replica + amount)) }
        ensures raises { IfOk result (λ d. joined_tallies self.now d
            ≡ with_counts self.now replica (added self.now replica) (subtracted self.now replica + amount)) }
        ensures fresh { IfOk result (λ d. ¬ (joined_tallies self.now d ≡ self.now)) }
        ensures amount { IsErrOf result Refusal.Amount ↔ IsTrue (not (is_amount amount)) }
        ensures full { IsErrOf result Refusal.TallyFull
            ↔ (IsTrue (is_amount amount) × (COUNT_LIMIT < subtracted self.now replica + amount)) }
        ensures only { IfErr result (λ e. Contains (Refusal.Amount ∷ Refusal.TallyFull ∷ Refusal.Memory ∷ []) e) }
    {
        let count = Count {
            added: 0,
            subtracted: count_after(self.count_of(replica).subtracted, amount)?,
        };
        Tally::of_one(alloc, replica, count)
    }

    /// Returns the counts of the replica, both 0 if it changed nothing.
    fn count_of(&self, replica: u8) -> Count
        ensures added { result.added ≡ added self.now replica }
        ensures subtracted { result.subtracted ≡ subtracted self.now replica }
        ensures added_fits { result.added ≤ COUNT_LIMIT }
        ensures subtracted_fits { result.subtracted ≤ COUNT_LIMIT }
    {
        let none = Count {
            added: 0,
            subtracted: 0,
        };
        entries::value_at(self.parts().as_slice(), replica).unwrap_or(none)
    }

    /// Creates the counter that only this replica has changed.
    #[inline(always)]
    fn of_one(alloc: Global, replica: u8, count: Count) -> Result<Tally, Refusal>
        requires { IsTrue (is_count (replica, count)) }
        ensures ok { IfOk result (λ d. d ≡ counts_of replica count.added count.subtracted) }
        ensures memory { IfErr result (λ e. e ≡ Refusal.Memory) }
    {
        let counts = CountList::of_one(alloc, replica, count)?;
        Ok(Tally { counts })
    }
}

/// Returns the total of a replica after one more amount. Refused as in `add` and `sub`.
fn count_after(before: u64, amount: u64) -> Result<u64, Refusal>
    requires { before ≤ COUNT_LIMIT }
    ensures ok { IfOk result (λ n. (n ≡ before + amount) × (n ≤ COUNT_LIMIT) × (1 ≤ amount)) }
    ensures amount { IsErrOf result Refusal.Amount ↔ IsTrue (not (is_amount amount)) }
    ensures full { IsErrOf result Refusal.TallyFull
        ↔ (IsTrue (is_amount amount) × (COUNT_LIMIT < before + amount)) }
    ensures only { IfErr result (λ e. Contains (Refusal.Amount ∷ Refusal.TallyFull ∷ []) e) }
{
    if !is_amount(amount) {
        return Err(Refusal::Amount);
    }
    let after = before + amount;
    if after > COUNT_LIMIT {
        return Err(Refusal::TallyFull);
    }
    Ok(after)
}

/// Returns whether the replicas ascend, and they and their counts are in range.
fn is_tally(parts: &[(u8, Count)]) -> bool
    ensures { result ≡ is_tally parts.now }
{
    entries::is_ascending(parts) && are_in_range(parts)
}

/// Whether each replica and its counts are in range.
fn are_in_range(parts: &[(u8, Count)]) -> bool
    ensures { result ≡ list_all is_count parts.now }
{
    parts.iter().all(|entry| is_count(entry))
}

/// Whether the replica and its counts are in range, and one of the two counts is at least 1.
fn is_count(entry: &(u8, Count)) -> bool
    ensures { result ≡ is_count entry.now }
{
    let (replica, count) = *entry;
    let in_range = count.added <= COUNT_LIMIT && count.subtracted <= COUNT_LIMIT;
    is_replica(replica) && in_range && (count.added >= 1 || count.subtracted >= 1)
}

/// Whether an amount may be added or subtracted at once.
fn is_amount(amount: u64) -> bool
    ensures { result ≡ is_amount amount }
{
    amount >= 1 && amount <= AMOUNT_LIMIT
}

impl Tally {
    /// Returns the join of this counter and `other`: for each replica, the greater of both totals added, and the
    /// greater of both totals subtracted.
    ///
    /// Refused only when out of memory.
    ///
    /// Cost: as for `Join::join`.
    #[tactic(auto, using(crate::proofs::Joining::seen_joined, crate::proofs::TallyLemmas::joined_in_range))]
    #[inline(always)]
    pub fn joined(&self, alloc: Global, other: &Tally) -> Result<Tally, Refusal>
        ensures ok { IfOk result (λ t. t ≡ joined_tallies self.now other.now) }
        ensures memory { IfErr result (λ e. e ≡ Refusal.Memory) }
    {
        Ok(Tally {
            counts: counts::joined(alloc, &self.counts, &other.counts)?,
        })
    }

    /// Returns the part of `delta` that is new to this counter: each replica's counts that are above this counter's.
    ///
    /// Any other count is 0 in the result, and the result leaves out each replica with both counts 0.
    /// Refused only when out of memory.
    ///
    /// Cost: one search in this counter for each replica of the delta.
    pub fn news(&self, alloc: Global, delta: &Tally) -> Result<Tally, Refusal>
        ensures ok { IfOk result (λ t. IsNewsOf joined_tallies self.now delta.now t) }
        ensures memory { IfErr result (λ e. e ≡ Refusal.Memory) }
    {
        Ok(Tally {
            counts: counts::news(alloc, &self.counts, &delta.counts)?,
        })
    }
}

impl Twin for Tally {
    fn twin(&self, alloc: Global) -> Result<Self, Refusal> {
        // one more owner takes no memory
        let _ = alloc;
        Ok(Tally {
            counts: self.counts.share()?,
        })
    }
}

impl Join for Tally {
    ghost use Rattle.ps_lattice.specs.Tally.{joined_tallies};
    ghost use Rattle.ps_lattice.specs.TallyLaws.{tallies_is_join};

    ghost joined = { joined_tallies };

    ghost associative = { tallies_is_join.associative };

    ghost commutative = { tallies_is_join.commutative };

    ghost idempotent = { tallies_is_join.idempotent };

    fn join(&mut self, alloc: Global, other: &Self) -> Result<(), Refusal> {
        *self = self.joined(alloc, other)?;
        Ok(())
    }

    #[inline(always)]
    fn below(&self, other: &Self) -> bool {
        counts::is_below(&self.counts, &other.counts)
    }
}
