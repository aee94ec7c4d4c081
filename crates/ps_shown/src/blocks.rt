//! Summaries of blocks of the table (57 places of a column), which are stored and updated as cells change.
//!
//! A block is *remembered* if its summary is stored.
ghost use Rattle.std.specs.Prelude.{◌≡◌, ◌+◌, ◌*◌, ◌^◌, ◌/◌, ◌<◌, ◌≤◌, ℕ, List, ◌++◌, None, Some};
ghost use Rattle.std.specs.Prelude.{IfSome, IsTrue, length, slice_index_or, slice_set, vec_capacity};
ghost use Rattle.ps_value.specs.Operand.{operand_of};
ghost use Rattle.ps_eval.specs.Number.{Number};
ghost use Rattle.ps_eval.specs.Summarized.{Summarizes, numbers_taken};
ghost use Rattle.ps_shown.specs.declared.kept.Kept.{Kept};
ghost use Rattle.ps_shown.specs.Kept.{value_of};
ghost use Rattle.ps_shown.specs.Blocks.{AreRemembered, block_items, items_between};
ghost use Rattle.ps_shown.specs.Faults.{fault_kept};
ghost use Rattle.ps_shown.specs.declared.shown.TheConstants.{PLACES};

use crate::kept::Kept;
use crate::run::summary_of_run;
use crate::runs::Runs;
use ps_eval::Summary;
use ps_value::Operand;

/// How many places a block has. It is no power of two, and neither is a column of whole blocks. So the cells of a row
/// don't share a few sets of the processor's cache.
pub(crate) const BLOCK: usize = 57;

/// The least number of rows, 114, for which a range is worth a call of `Shown::remember`. A range of that many rows
/// contains a whole block (57 rows of a column) in each of its columns.
pub const LONG: usize = 2 * BLOCK;

/// The summary of the items at the places `from..to`, cell by cell. Places beyond the end of `kept` are empty.
#[inline]
fn walk(kept: &[Kept], from: usize, to: usize) -> Summary
    requires { from ≤ to }
    ensures { Summarizes (items_between kept.now from to) result }
{
    if from == to {
        return Summary::new();
    }
    let reached = kept.len();
    summary_of_run(&kept[from.min(reached)..to.min(reached)])
}

/// The summary of a block, if it is remembered.
#[inline]
fn known(sums: &[Option<Summary>], block: usize) -> Option<&Summary>
    ensures { IfSome result (λ s. slice_index_or sums.now block None ≡ Some s.now) }
{
    if block < sums.len() {
        sums[block].as_ref()
    } else {
        None
    }
}

/// Returns whether a block is remembered and its summary has no fault.
pub(crate) fn is_free_of_faults(kept: &[Kept], sums: &[Option<Summary>], block: usize) -> bool
    requires { AreRemembered kept.now sums.now }
    ensures { IsTrue result → (p : ℕ)
        → block * BLOCK ≤ p → p < block * BLOCK + BLOCK → fault_kept kept.now p ≡ None }
{
    if let Some(known) = known(sums, block) {
        return !known.has_fault();
    }
    false
}

/// Appends the items of one more block: from its summary if it is remembered, else cell by cell.
fn take_block(summary: &mut Summary, kept: &[Kept], sums: &[Option<Summary>], block: usize)
    requires remembered { AreRemembered kept.now sums.now }
    requires block { block * BLOCK + BLOCK ≤ PLACES }
    requires room { numbers_taken summary.old < 2 ^ 50 }
    ensures { (items : List Number)
        → Summarizes items summary.old
        → Summarizes (items ++ block_items kept.now block) summary.new }
{
    match known(sums, block) {
        Some(known) => summary.join(known),
        None => summary.join(&walk(kept, block * BLOCK, block * BLOCK + BLOCK)),
    }
}

/// As `take_block`, for a summary that is passed and returned by value.
// Not inlined, so that the caller's summary stays in registers meanwhile.
#[inline(never)]
fn with_block(summary: Summary, kept: &[Kept], sums: &[Option<Summary>], block: usize) -> Summary
    requires remembered { AreRemembered kept.now sums.now }
    requires block { block * BLOCK + BLOCK ≤ PLACES }
    requires room { numbers_taken summary < 2 ^ 50 }
    ensures { (items : List Number)
        → Summarizes items summary
        → Summarizes (items ++ block_items kept.now block) result }
{
    let mut summary = summary;
    take_block(&mut summary, kept, sums, block);
    summary
}

/// The summary of a block, if it is remembered and has no fault.
#[inline(always)]
fn known_numbers(sums: &[Option<Summary>], block: usize) -> Option<&Summary>
    requires { block < length sums.now }
    ensures { IfSome result (λ s. slice_index_or sums.now block None ≡ Some s.now) }
{
    match sums[block].as_ref() {
        Some(known) if !known.has_fault() => Some(known),
        _ => None,
    }
}

/// Appends the items of the blocks `first..end`, up to the first that isn't remembered or has a fault. Returns that
/// block, or `end`. If `summary` itself has a fault, it appends nothing and returns `first`.
#[inline(always)]
fn take_known(
    summary: &mut Summary,
    kept: &[Kept],
    sums: &[Option<Summary>],
    from: usize,
    first: usize,
    end: usize,
) -> usize
    requires remembered { AreRemembered kept.now sums.now }
    requires place { from ≤ first * BLOCK }
    requires order { first ≤ end }
    requires within { end * BLOCK ≤ PLACES }
    requires taken { Summarizes (items_between kept.now from (first * BLOCK)) summary.old }
    ensures order { first ≤ result }
    ensures within { result ≤ end }
    ensures taken { Summarizes (items_between kept.now from (result * BLOCK)) summary.new }
{
    if summary.has_fault() {
        return first;
    }
    let reached = end.min(sums.len());
    let mut next = first;
    'known: while next < reached {
        match known_numbers(sums, next) {
            Some(known) => summary.join(known),
            None => return next,
        }
        next += 1;
    }
    next
}

/// Returns the summary of the items at the places `from..to`: whole blocks by `take_block`, and the cells before and
/// after them one by one.
// Not inlined, so that the summary stays in registers while blocks are joined.
#[inline(never)]
pub(crate) fn summary_between(
    kept: &[Kept],
    sums: &[Option<Summary>],
    from: usize,
    to: usize,
) -> Summary
    requires remembered { AreRemembered kept.now sums.now }
    requires order { from ≤ to }
    requires within { to ≤ PLACES }
    ensures { Summarizes (items_between kept.now from to) result }
{
    let first = from.div_ceil(BLOCK);
    let end = to / BLOCK;
    if end <= first {
        return walk(kept, from, to);
    }
    let mut summary = walk(kept, from, first * BLOCK);
    let mut block = first;
    'whole: while block < end {
        block = take_known(&mut summary, kept, sums, from, block, end);
        if block < end {
            summary = with_block(summary, kept, sums, block);
            block += 1;
        }
    }
    summary.join(&walk(kept, end * BLOCK, to));
    summary
}

/// Stores the summary of a block, unless the block is remembered already.
fn remember_block(kept: &[Kept], sums: &mut Vec<Option<Summary>>, block: usize)
    requires remembered { AreRemembered kept.now sums.old.items }
    requires block { block * BLOCK + BLOCK ≤ PLACES }
    requires room { block < vec_capacity sums.old }
    ensures remembered { AreRemembered kept.now sums.new.items }
    ensures capacity { vec_capacity sums.old ≤ vec_capacity sums.new }
{
    reach(sums, block);
    if sums[block].is_none() {
        sums[block] = Some(walk(kept, block * BLOCK, block * BLOCK + BLOCK));
    }
}

/// Extends the list up to this block, with `None` for blocks that aren't remembered.
fn reach(sums: &mut Vec<Option<Summary>>, block: usize)
    requires room { block < vec_capacity sums.old }
    ensures reached { block < length sums.new.items }
    ensures same { (b : ℕ) → slice_index_or sums.new.items b None ≡ slice_index_or sums.old.items b None }
    ensures capacity { vec_capacity sums.old ≤ vec_capacity sums.new }
{
    while sums.len() <= block {
        sums.push_reserved(None);
    }
}

/// Stores the summaries of the blocks `from..end` that aren't remembered yet.
pub(crate) fn remember_blocks(
    kept: &[Kept],
    sums: &mut Vec<Option<Summary>>,
    from: usize,
    end: usize,
)
    requires remembered { AreRemembered kept.now sums.old.items }
    requires within { end * BLOCK ≤ PLACES }
    requires room { PLACES ≤ vec_capacity sums.old * BLOCK }
    ensures remembered { AreRemembered kept.now sums.new.items }
    ensures capacity { vec_capacity sums.old ≤ vec_capacity sums.new }
{
    for block in from..end {
        remember_block(kept, sums, block);
    }
}

/// Updates the summary of the place's block before `put` is stored at that place, or drops the summary.
#[inline(always)]
pub(crate) fn follow(
    kept: &[Kept],
    sums: &mut Vec<Option<Summary>>,
    runs: &mut Runs,
    place: usize,
    put: &Kept,
)
    requires remembered { AreRemembered kept.now sums.old.items }
    requires reached { place < length kept.now }
    ensures remembered { AreRemembered (slice_set kept.now place put.now) sums.new.items }
    ensures capacity { vec_capacity sums.old ≤ vec_capacity sums.new }
{
    // in most tables no block was ever remembered
    if !sums.is_empty() {
        exchange_or_forget(kept, sums, runs, place, put.operand());
    }
}

/// As `follow`, for a table that remembers some block: exchanges one operand of the block's summary, or drops the
/// summary if that can't be done.
// Not inlined, so that a put into a table without summaries stays short. The parameter is the operand of the new value,
// so that the value itself need not lie in memory.
#[inline(never)]
fn exchange_or_forget(
    kept: &[Kept],
    sums: &mut Vec<Option<Summary>>,
    runs: &mut Runs,
    place: usize,
    operand: Operand,
)
    requires remembered { AreRemembered kept.now sums.old.items }
    requires reached { place < length kept.now }
    ensures remembered { (put : Kept)
        → operand ≡ operand_of (value_of put)
        → AreRemembered (slice_set kept.now place put) sums.new.items }
    ensures capacity { vec_capacity sums.old ≤ vec_capacity sums.new }
{
    let block = place / BLOCK;
    if block >= sums.len() {
        return;
    }
    if let Some(known) = &mut sums[block] {
        if !known.exchange(kept[place].operand(), operand) {
            sums[block] = None;
            runs.cut(block);
        }
    }
}
