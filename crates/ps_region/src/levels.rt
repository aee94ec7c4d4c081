//! The levels of a region's formula cells, and the cells that are left without one: a topological sort.
//!
//! For each formula cell, `left` counts its references that aren't released yet. Once its count is 0, the cell gets its
//! level and goes to the end of the queue `order`. In the queue's order, each cell then releases the references to it:
//! the counts of the cells that refer to it fall by one. A formula cell that never gets into the queue reaches a cycle.

ghost use Rattle.std.specs.Prelude.{◌≡◌, ◌≢◌, ◌-◌, ◌≤◌, ◌<◌, ◌∷◌, ◌++◌, [], length, ℕ, true, false, slice_index};
ghost use Rattle.std.specs.Prelude.{slice_index_or, slice_set, filter, vec_capacity};
ghost use Rattle.std.specs.Iterator.{AlwaysYields, IsFinite};
ghost use Rattle.ps_grid.specs.declared.size.TheConstants.{CELLS as ALL};
ghost use Rattle.ps_grid.specs.Chains.{In};
ghost use Rattle.ps_region.specs.Inside.Cells.{HasSole};
ghost use Rattle.ps_region.specs.CellSets.{has_cell};
ghost use Rattle.ps_region.specs.Inside.Counts.{Queued, Released};
ghost use Rattle.ps_region.specs.Inside.LevelWalk.{Levels, Levelling, is_frame, is_held, is_pending, is_ready};
ghost use Rattle.ps_region.specs.Inside.Touched.{not_plain};
ghost use Rattle.ps_region.specs.Listed.{listed};

use crate::after::After;
use crate::change::{MarkedChange, still_refers};
use crate::members::has_formula;
use crate::noted::{SEVERAL, pair_of};
use ps_grid::Cell;
use ps_index::Readers;

/// Whether a member is a formula cell with no reference left.
fn is_ready_cell(plain: &[bool], left: &[u32], c: Cell) -> bool
    requires plain_length { length plain.now ≡ ALL }
    requires left_length { length left.now ≡ ALL }
    ensures { result ≡ is_ready (not_plain plain.now) left.now c }
{
    has_formula(plain, c) && left[c.index()] == 0
}

/// Puts the formula cells whose count is 0 into the queue, at level 1.
pub(crate) fn first_level(
    plain: &[bool],
    left: &[u32],
    level: &mut [u32],
    members: &[Cell],
    order: &mut Vec<Cell>,
)
    requires plain_length { length plain.now ≡ ALL }
    requires left_length { length left.now ≡ ALL }
    requires level_length { length level.old ≡ ALL }
    requires empty { order.old.items ≡ [] }
    requires room { length members.now ≤ vec_capacity order.old }
    ensures order { order.new.items ≡ filter (is_ready (not_plain plain.now) left.now) members.now }
    ensures level { (c : ℕ) → In order.new.items c → slice_index level.new c ≡ 1 }
    ensures room { vec_capacity order.old ≤ vec_capacity order.new }
{
    for c in members {
        if is_ready_cell(plain, left, *c) {
            level[c.index()] = 1;
            order.push_reserved(*c);
        }
    }
}

/// Counts one reference of the cell `e` as released. If it was the last, the cell goes to the queue's end, at level k.
fn lower(left: &mut [u32], level: &mut [u32], order: &mut Vec<Cell>, e: Cell, k: u32)
    requires left_length { length left.old ≡ ALL }
    requires level_length { length level.old ≡ ALL }
    requires some { 0 < slice_index left.old e }
    requires queued { Queued left.old order.old.items }
    requires room { ALL ≤ vec_capacity order.old }
    ensures left { left.new ≡ slice_set left.old e (slice_index left.old e - 1) }
    ensures more { slice_index left.old e ≢ 1 → (level.new ≡ level.old) × (order.new.items ≡ order.old.items) }
    ensures last { slice_index left.old e ≡ 1
        → (level.new ≡ slice_set level.old e k) × (order.new.items ≡ order.old.items ++ e ∷ []) }
    ensures room { ALL ≤ vec_capacity order.new }
{
    let place = e.index();
    left[place] -= 1;
    if left[place] == 0 {
        level[place] = k;
        order.push_reserved(e);
    }
}

/// Counts the reference of the cell `e` to the cell `d` as released, if `e`, which the index lists for `d`, still
/// refers to it.
fn release_sole<A: After>(
    change: &MarkedChange<'_, A>,
    left: &mut [u32],
    level: &mut [u32],
    order: &mut Vec<Cell>,
    d: Cell,
    e: Cell,
    k: u32,
)
    requires fresh_length { length change.now.fresh.now ≡ ALL }
    requires left_length { length left.old ≡ ALL }
    requires level_length { length level.old ≡ ALL }
    requires known { slice_index_or change.now.fresh.now e false ≡ false → A.refers change.now.after.now e d ≡ true }
    requires some { A.refers change.now.after.now e d ≡ true → 0 < slice_index left.old e }
    requires queued { Queued left.old order.old.items }
    requires room { ALL ≤ vec_capacity order.old }
    ensures released { Released (A.refers change.now.after.now) d k (e ∷ []) left.old level.old order.old.items
        left.new level.new order.new.items }
    ensures room { ALL ≤ vec_capacity order.new }
{
    // for the fact that the cell is in the grid
    let _place = e.index();
    if still_refers(change, e, d) {
        lower(left, level, order, e, k);
    }
}

/// Counts the references to the cell `d` as released. `walk` yields the cells that the index lists for `d`.
fn release_each<A: After, W: Iterator<Item = Cell> + Drop>(
    change: &MarkedChange<'_, A>,
    left: &mut [u32],
    level: &mut [u32],
    order: &mut Vec<Cell>,
    d: Cell,
    k: u32,
    walk: W,
)
    requires can { W.can_next walk }
    requires ends { IsFinite (W.remaining walk) }
    requires walks { AlwaysYields W.next_gives (λ e. e) walk (listed change.now.index.now d) }
    requires fresh_length { length change.now.fresh.now ≡ ALL }
    requires left_length { length left.old ≡ ALL }
    requires level_length { length level.old ≡ ALL }
    requires known { (e : ℕ) → In (listed change.now.index.now d) e
        → slice_index_or change.now.fresh.now e false ≡ false
        → A.refers change.now.after.now e d ≡ true }
    requires some { (c : ℕ) → A.refers change.now.after.now c d ≡ true → 0 < slice_index left.old c }
    requires queued { Queued left.old order.old.items }
    requires room { ALL ≤ vec_capacity order.old }
    ensures released { Released (A.refers change.now.after.now) d k (listed change.now.index.now d)
        left.old level.old order.old.items left.new level.new order.new.items }
    ensures room { ALL ≤ vec_capacity order.new }
{
    for e in walk {
        if still_refers(change, e, d) {
            lower(left, level, order, e, k);
        }
    }
}

/// Counts the references to the cell `d` as released, where the index lists two cells for `d`.
fn release_pair<A: After>(
    change: &MarkedChange<'_, A>,
    left: &mut [u32],
    level: &mut [u32],
    order: &mut Vec<Cell>,
    d: Cell,
    pair: (Cell, Cell),
    k: u32,
)
    requires fresh_length { length change.now.fresh.now ≡ ALL }
    requires left_length { length left.old ≡ ALL }
    requires level_length { length level.old ≡ ALL }
    requires apart { pair.0 ≢ pair.1 }
    requires first { slice_index_or change.now.fresh.now pair.0 false ≡ false
        → A.refers change.now.after.now pair.0 d ≡ true }
    requires second { slice_index_or change.now.fresh.now pair.1 false ≡ false
        → A.refers change.now.after.now pair.1 d ≡ true }
    requires some { (c : ℕ) → A.refers change.now.after.now c d ≡ true → 0 < slice_index left.old c }
    requires queued { Queued left.old order.old.items }
    requires room { ALL ≤ vec_capacity order.old }
    ensures released { Released (A.refers change.now.after.now) d k (pair.0 ∷ pair.1 ∷ []) left.old level.old
        order.old.items left.new level.new order.new.items }
    ensures room { ALL ≤ vec_capacity order.new }
{
    release_sole(change, left, level, order, d, pair.0, k);
    release_sole(change, left, level, order, d, pair.1, k);
}

/// Counts each reference to the cell `d` as released. If `sole` notes which cells refer to `d`, the index isn't read.
fn release<A: After>(
    change: &MarkedChange<'_, A>,
    sole: &[u32],
    left: &mut [u32],
    level: &mut [u32],
    order: &mut Vec<Cell>,
    d: Cell,
    k: u32,
)
    requires fresh_length { length change.now.fresh.now ≡ ALL }
    requires sole_length { length sole.now ≡ ALL }
    requires left_length { length left.old ≡ ALL }
    requires level_length { length level.old ≡ ALL }
    requires sole { HasSole (listed change.now.index.now d) (slice_index_or sole.now d 0) }
    requires known { (e : ℕ) → In (listed change.now.index.now d) e
        → slice_index_or change.now.fresh.now e false ≡ false
        → A.refers change.now.after.now e d ≡ true }
    requires some { (c : ℕ) → A.refers change.now.after.now c d ≡ true → 0 < slice_index left.old c }
    requires queued { Queued left.old order.old.items }
    requires room { ALL ≤ vec_capacity order.old }
    ensures released { Released (A.refers change.now.after.now) d k (listed change.now.index.now d)
        left.old level.old order.old.items left.new level.new order.new.items }
    ensures room { ALL ≤ vec_capacity order.new }
{
    let noted = sole[d.index()];
    if noted < SEVERAL {
        if let Some(e) = Cell::from_index(noted as usize) {
            release_sole(change, left, level, order, d, e, k);
        }
        return;
    }
    if noted > SEVERAL {
        release_pair(change, left, level, order, d, pair_of(noted), k);
        return;
    }
    match change.index.readers(d) {
        Readers::Row(walk) => release_each(change, left, level, order, d, k, walk),
        Readers::TwoRows(walk) => release_each(change, left, level, order, d, k, walk),
        _ => release_each(change, left, level, order, d, k, change.index.dependents(d)),
    }
}

/// Gives levels to the cells of the queue and to those that they release, level after level. Writes to `starts` where
/// each level begins in the queue, and at last where the queue ends.
pub(crate) fn assign_levels<A: After>(
    change: &MarkedChange<'_, A>,
    marks: &[bool],
    sole: &[u32],
    left: &mut [u32],
    level: &mut [u32],
    order: &mut Vec<Cell>,
    starts: &mut Vec<u32>,
)
    requires fresh_length { length change.now.fresh.now ≡ ALL }
    requires sole_length { length sole.now ≡ ALL }
    requires left_length { length left.old ≡ ALL }
    requires level_length { length level.old ≡ ALL }
    requires known { (d e : ℕ) → d < ALL → In (listed change.now.index.now d) e
        → slice_index_or change.now.fresh.now e false ≡ false
        → A.refers change.now.after.now e d ≡ true }
    requires lists_all { (c d : ℕ) → A.refers change.now.after.now c d ≡ true → In (listed change.now.index.now d) c }
    requires sole { (m : ℕ) → slice_index_or marks.now m false ≡ true
        → HasSole (listed change.now.index.now m) (slice_index_or sole.now m 0) }
    requires closed { (c d : ℕ) → A.refers change.now.after.now c d ≡ true → slice_index_or marks.now d false ≡ true
        → slice_index_or marks.now c false ≡ true }
    requires starting { Levelling (A.refers change.now.after.now)
        (is_pending (A.formula change.now.after.now) (has_cell change.now.outside.now) marks.now)
        (is_frame (A.formula change.now.after.now) marks.now) ALL 0 0 (length order.old.items) 1
        left.old level.old order.old.items }
    requires empty { starts.old.items ≡ [] }
    requires room { ALL ≤ vec_capacity order.old }
    requires room_starts { ALL < vec_capacity starts.old }
    ensures ended { Levelling (A.refers change.now.after.now)
        (is_pending (A.formula change.now.after.now) (has_cell change.now.outside.now) marks.now)
        (is_frame (A.formula change.now.after.now) marks.now) ALL (length order.new.items) (length order.new.items)
        (length order.new.items) (length starts.new.items) left.new level.new order.new.items }
    ensures room { ALL ≤ vec_capacity order.new }
    ensures room_starts { ALL < vec_capacity starts.new }
    ensures levels { Levels starts.new.items order.new.items level.new }
    ensures whole { slice_index starts.new.items (length starts.new.items - 1) ≡ length order.new.items }
{
    starts.push_reserved(0);
    let mut head = 0;
    let mut end = order.len();
    let mut k = 1;
    'levels: while head < end {
        'walk: while head < end {
            let d = order[head];
            release(change, sole, left, level, order, d, k + 1);
            head += 1;
        }
        starts.push_reserved(end as u32);
        end = order.len();
        k += 1;
    }
}

/// Whether a member is a formula cell with a reference left.
fn is_held_cell(plain: &[bool], left: &[u32], c: Cell) -> bool
    requires plain_length { length plain.now ≡ ALL }
    requires left_length { length left.now ≡ ALL }
    ensures { result ≡ is_held (not_plain plain.now) left.now c }
{
    has_formula(plain, c) && left[c.index()] != 0
}

/// Lists the formula cells whose count isn't 0: the cyclic ones.
pub(crate) fn list_held(plain: &[bool], left: &[u32], members: &[Cell], cyclic: &mut Vec<Cell>)
    requires plain_length { length plain.now ≡ ALL }
    requires left_length { length left.now ≡ ALL }
    requires empty { cyclic.old.items ≡ [] }
    requires room { length members.now ≤ vec_capacity cyclic.old }
    ensures cyclic { cyclic.new.items ≡ filter (is_held (not_plain plain.now) left.now) members.now }
    ensures room { vec_capacity cyclic.old ≤ vec_capacity cyclic.new }
{
    for c in members {
        if is_held_cell(plain, left, *c) {
            cyclic.push_reserved(*c);
        }
    }
}
