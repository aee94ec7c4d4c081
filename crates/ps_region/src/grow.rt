//! The growth of a region: its members, with the counts of their references.

ghost use Rattle.std.specs.Prelude.{◌≡◌, ◌⊎◌, ◌≢◌, ◌≤◌, ◌<◌, [], ◌∷◌, length, ℕ, true, false, not, nat_eq, ◌&&◌};
ghost use Rattle.std.specs.Prelude.{slice_index, slice_index_or, slice_set, ◌+◌, vec_capacity};
ghost use Rattle.std.specs.Iterator.{AlwaysYields, IsFinite};
ghost use Rattle.std.specs.List.{list_any};
ghost use Rattle.ps_grid.specs.declared.size.TheConstants.{CELLS as ALL};
ghost use Rattle.ps_grid.specs.Chains.{In, InRegion};
ghost use Rattle.ps_region.specs.Inside.Counts.{as_one, counted_in, cells_left, is_walked};
ghost use Rattle.ps_region.specs.Inside.Cells.{HasSole, Marked, with_all, with_cell};
ghost use Rattle.ps_region.specs.Inside.Touched.{IsPlain};
ghost use Rattle.ps_region.specs.Listed.{listed};

use crate::after::After;
use crate::change::{MarkedChange, still_refers};
use crate::members::{enter, enter_all, has_formula};
use crate::noted::{NONE, noted_with};
use ps_grid::Cell;
use ps_index::Readers;

/// Counts one more reference of the cell `e`.
pub(crate) fn add_one(left: &mut [u32], e: Cell)
    requires length { length left.old ≡ ALL }
    requires small { slice_index left.old e < ALL }
    ensures { left.new ≡ slice_set left.old e (slice_index left.old e + 1) }
{
    left[e.index()] += 1;
}

/// Returns whether the reference of `e`, which the index lists for `d`, counts: `counted` says whether references to
/// `d` do, and `e` must still refer to `d`.
fn is_counted<A: After>(change: &MarkedChange<'_, A>, counted: bool, e: Cell, d: Cell) -> bool
    requires length { length change.now.fresh.now ≡ ALL }
    requires known { slice_index_or change.now.fresh.now e false ≡ false
        → A.refers change.now.after.now e d ≡ true }
    ensures { result ≡ (counted && A.refers change.now.after.now e d) }
{
    counted && still_refers(change, e, d)
}

/// Puts the cell `e`, which the index lists for the cell `d`, into the region. Counts its reference if `d` is a formula
/// cell and `e` still refers to it.
fn enter_one<A: After>(
    change: &MarkedChange<'_, A>,
    marks: &mut [bool],
    left: &mut [u32],
    members: &mut Vec<Cell>,
    d: Cell,
    e: Cell,
)
    requires fresh_length { length change.now.fresh.now ≡ ALL }
    requires plain_length { length change.now.plain.now ≡ ALL }
    requires marks_length { length marks.old ≡ ALL }
    requires left_length { length left.old ≡ ALL }
    requires known { slice_index_or change.now.fresh.now e false ≡ false → A.refers change.now.after.now e d ≡ true }
    requires formula { slice_index_or change.now.plain.now d false ≡ not (A.formula change.now.after.now d) }
    requires marked { Marked marks.old members.old.items }
    requires room { ALL ≤ vec_capacity members.old }
    requires small { counted_in members.old.items left.old e < ALL }
    ensures members { members.new.items ≡ with_cell members.old.items e }
    ensures marked { Marked marks.new members.new.items }
    ensures room { ALL ≤ vec_capacity members.new }
    ensures counts { (q : ℕ) → counted_in members.new.items left.new q ≡ counted_in members.old.items left.old q
        + as_one (list_any (nat_eq q) (e ∷ [])
        && (A.formula change.now.after.now d && A.refers change.now.after.now q d)) }
{
    let counted = has_formula(change.plain, d);
    enter(marks, left, members, e);
    if is_counted(change, counted, e, d) {
        add_one(left, e);
    }
}

/// Does what `enter_one` does, for each cell that `walk` yields: the cells that the index lists for `d`. Returns the
/// number that notes them (see `noted`).
fn enter_each<A: After, W: Iterator<Item = Cell> + Drop>(
    change: &MarkedChange<'_, A>,
    marks: &mut [bool],
    left: &mut [u32],
    members: &mut Vec<Cell>,
    d: Cell,
    walk: W,
) -> u32
    requires can { W.can_next walk }
    requires ends { IsFinite (W.remaining walk) }
    requires walks { AlwaysYields W.next_gives (λ e. e) walk (listed change.now.index.now d) }
    requires fresh_length { length change.now.fresh.now ≡ ALL }
    requires plain_length { length change.now.plain.now ≡ ALL }
    requires marks_length { length marks.old ≡ ALL }
    requires left_length { length left.old ≡ ALL }
    requires known { (e : ℕ) → In (listed change.now.index.now d) e
        → slice_index_or change.now.fresh.now e false ≡ false
        → A.refers change.now.after.now e d ≡ true }
    requires formula { slice_index_or change.now.plain.now d false ≡ not (A.formula change.now.after.now d) }
    requires marked { Marked marks.old members.old.items }
    requires room { ALL ≤ vec_capacity members.old }
    requires small { (q : ℕ) → counted_in members.old.items left.old q < ALL }
    ensures members { members.new.items ≡ with_all members.old.items (listed change.now.index.now d) }
    ensures marked { Marked marks.new members.new.items }
    ensures room { ALL ≤ vec_capacity members.new }
    ensures counts { (q : ℕ) → counted_in members.new.items left.new q ≡ counted_in members.old.items left.old q
        + as_one (list_any (nat_eq q) (listed change.now.index.now d)
        && (A.formula change.now.after.now d && A.refers change.now.after.now q d)) }
    ensures sole { HasSole (listed change.now.index.now d) result }
{
    let counted = has_formula(change.plain, d);
    let mut noted = NONE;
    for e in walk {
        enter(marks, left, members, e);
        if is_counted(change, counted, e, d) {
            add_one(left, e);
        }
        noted = noted_with(noted, e);
    }
    noted
}

/// Does what `enter_one` does, for each cell that the index lists for the cell `d`. Notes in `sole` which these cells
/// are, if they are one or two.
fn enter_dependents<A: After>(
    change: &MarkedChange<'_, A>,
    marks: &mut [bool],
    left: &mut [u32],
    members: &mut Vec<Cell>,
    sole: &mut [u32],
    d: Cell,
)
    requires fresh_length { length change.now.fresh.now ≡ ALL }
    requires plain_length { length change.now.plain.now ≡ ALL }
    requires marks_length { length marks.old ≡ ALL }
    requires left_length { length left.old ≡ ALL }
    requires sole_length { length sole.old ≡ ALL }
    requires known { (e : ℕ) → In (listed change.now.index.now d) e
        → slice_index_or change.now.fresh.now e false ≡ false
        → A.refers change.now.after.now e d ≡ true }
    requires formula { slice_index_or change.now.plain.now d false ≡ not (A.formula change.now.after.now d) }
    requires marked { Marked marks.old members.old.items }
    requires room { ALL ≤ vec_capacity members.old }
    requires small { (q : ℕ) → counted_in members.old.items left.old q < ALL }
    ensures members { members.new.items ≡ with_all members.old.items (listed change.now.index.now d) }
    ensures marked { Marked marks.new members.new.items }
    ensures room { ALL ≤ vec_capacity members.new }
    ensures counts { (q : ℕ) → counted_in members.new.items left.new q ≡ counted_in members.old.items left.old q
        + as_one (list_any (nat_eq q) (listed change.now.index.now d)
        && (A.formula change.now.after.now d && A.refers change.now.after.now q d)) }
    ensures sole { HasSole (listed change.now.index.now d) (slice_index_or sole.new d 0) }
    ensures others { (c : ℕ) → nat_eq c d ≡ false → slice_index_or sole.new c 0 ≡ slice_index_or sole.old c 0 }
{
    match change.index.readers(d) {
        Readers::Nobody => sole[d.index()] = NONE,
        Readers::One(e) => {
            enter_one(change, marks, left, members, d, e);
            // known by its contract: the cell is in the grid
            sole[d.index()] = e.index() as u32;
        }
        Readers::Row(walk) => {
            sole[d.index()] = enter_each(change, marks, left, members, d, walk);
        }
        Readers::TwoRows(walk) => {
            sole[d.index()] = enter_each(change, marks, left, members, d, walk);
        }
        Readers::Several => {
            let walk = change.index.dependents(d);
            sole[d.index()] = enter_each(change, marks, left, members, d, walk);
        }
    }
}

/// Grows the region from the touched cells, and counts each member's references to formula cells of the region. Notes
/// for each member which cells refer to it, if they are one or two (see `noted`).
pub(crate) fn grow<A: After>(
    change: &MarkedChange<'_, A>,
    marks: &mut [bool],
    left: &mut [u32],
    members: &mut Vec<Cell>,
    sole: &mut [u32],
)
    requires fresh_length { length change.now.fresh.now ≡ ALL }
    requires plain_length { length change.now.plain.now ≡ ALL }
    requires marks_length { length marks.old ≡ ALL }
    requires left_length { length left.old ≡ ALL }
    requires sole_length { length sole.old ≡ ALL }
    requires known { (d e : ℕ) → d < ALL → In (listed change.now.index.now d) e
        → slice_index_or change.now.fresh.now e false ≡ false
        → A.refers change.now.after.now e d ≡ true }
    requires plain { IsPlain (A.formula change.now.after.now) change.now.plain.now change.now.touched.now }
    requires extra { (c d : ℕ) → d < ALL → In (listed change.now.index.now d) c
        → (A.refers change.now.after.now c d ≡ true) ⊎ In change.now.touched.now c }
    requires lists_all { (c d : ℕ) → A.refers change.now.after.now c d ≡ true → In (listed change.now.index.now d) c }
    requires empty { members.old.items ≡ [] }
    requires marked { Marked marks.old members.old.items }
    requires room { ALL ≤ vec_capacity members.old }
    ensures marked { Marked marks.new members.new.items }
    ensures room { ALL ≤ vec_capacity members.new }
    ensures sound { (c : ℕ) → In members.new.items c
        → InRegion (A.refers change.now.after.now) change.now.touched.now c }
    ensures complete { (c : ℕ) → InRegion (A.refers change.now.after.now) change.now.touched.now c
        → In members.new.items c }
    ensures counts { (q : ℕ) → counted_in members.new.items left.new q
        ≡ cells_left (A.refers change.now.after.now)
        (is_walked (A.formula change.now.after.now) members.new.items) [] ALL q }
    ensures sole { (m : ℕ) → In members.new.items m
        → HasSole (listed change.now.index.now m) (slice_index_or sole.new m 0) }
{
    enter_all(marks, left, members, change.touched);
    let mut head = 0;
    while head < members.len() {
        let d = members[head];
        enter_dependents(change, marks, left, members, sole, d);
        head += 1;
    }
}
