//! The shown values that a patch changes, and how they are written to a table of shown values.

ghost use Rattle.std.specs.Prelude.{◌≡◌, ◌+◌, ◌≤◌, ◌++◌, [], length, map, vec_capacity, IfOk, IfErr, MatchResult};
ghost use Rattle.ps_grid.specs.declared.refusal.Refusal.TheVariants.{Memory};
ghost use Rattle.ps_shown.specs.Shown.{shown_at};
ghost use Rattle.ps_face.specs.CellChanges.{entries_of};
ghost use Rattle.ps_face.specs.Values.{overlaid, valued};

use ps_grid::{Cell, Refusal, Twin};
use ps_shown::{Kept, Shown};
use std::alloc::Global;
use std::slice;

/// Each cell whose shown value changes, with the new value. Most patches change one cell; that needs no allocation.
#[derive(Drop)]
pub(crate) enum CellChanges {
    /// One cell shows another value.
    One((Cell, Kept)),
    /// Any number of cells show another value.
    Several(Vec<(Cell, Kept)>),
}

impl CellChanges {
    /// The changes as a list.
    pub(crate) fn as_slice(&self) -> &[(Cell, Kept)]
        ensures { result.now ≡ entries_of self.now }
    {
        match self {
            CellChanges::One(change) => slice::from_ref(change),
            CellChanges::Several(changes) => changes,
        }
    }

    /// Adds the changes at the end of a list that has room for them.
    #[inline(always)]
    pub(crate) fn gather(self, list: &mut Vec<(Cell, Kept)>)
        requires room { length list.old.items + length (entries_of self) ≤ vec_capacity list.old }
        ensures { list.new.items ≡ list.old.items ++ entries_of self }
    {
        match self {
            CellChanges::One(change) => list.push_reserved(change),
            CellChanges::Several(changes) => gather_all(changes, list),
        }
    }

    /// Writes the new values to `shown`.
    pub(crate) fn put(self, shown: &mut Shown)
        ensures { shown_at shown.new ≡ overlaid (shown_at shown.old) (map valued (entries_of self)) }
    {
        match self {
            CellChanges::One((cell, kept)) => {
                shown.put(cell, kept);
            }
            CellChanges::Several(mut changes) => put_all(shown, &mut changes),
        }
    }

    /// Writes copies of the new values to `shown`; a text is shared, not copied. Writes nothing, and fails, if the
    /// reference count of a text is full. `room` has space for the changes; what it holds is ignored.
    pub(crate) fn put_copies(
        &self,
        alloc: Global,
        shown: &mut Shown,
        room: &mut Vec<(Cell, Kept)>,
    ) -> Result<(), Refusal>
        requires room { length (entries_of self.now) ≤ vec_capacity room.old }
        ensures shown { MatchResult result
            (λ _. shown_at shown.new ≡ overlaid (shown_at shown.old) (map valued (entries_of self.now)))
            (λ _. shown.new ≡ shown.old) }
        ensures room { vec_capacity room.new ≡ vec_capacity room.old }
    {
        match self {
            CellChanges::One((cell, kept)) => {
                let kept = kept.twin(alloc)?;
                shown.put(*cell, kept);
                Ok(())
            }
            CellChanges::Several(changes) => {
                room.clear();
                copy_all(alloc, changes, room)?;
                put_all(shown, room);
                Ok(())
            }
        }
    }
}

/// Adds changes at the end of a list that has room for them.
fn gather_all(changes: Vec<(Cell, Kept)>, list: &mut Vec<(Cell, Kept)>)
    requires room { length list.old.items + length changes.items ≤ vec_capacity list.old }
    ensures { list.new.items ≡ list.old.items ++ changes.items }
{
    let mut changes = changes;
    if list.append(&mut changes).is_err() {
        unreachable!();
    }
}

/// Appends copies of changes to a list that has room for them; a text is shared, not copied.
fn copy_all(
    alloc: Global,
    changes: &[(Cell, Kept)],
    to: &mut Vec<(Cell, Kept)>,
) -> Result<(), Refusal>
    requires none { to.old.items ≡ [] }
    requires room { length changes.now ≤ vec_capacity to.old }
    ensures copied { IfOk result (λ _. to.new.items ≡ changes.now) }
    ensures room { vec_capacity to.new ≡ vec_capacity to.old }
    ensures memory { IfErr result (λ e. e ≡ Memory) }
{
    for (cell, kept) in changes {
        let kept = kept.twin(alloc)?;
        to.push_reserved((*cell, kept));
    }
    Ok(())
}

/// Writes the new values to `shown`, and empties the list.
fn put_all(shown: &mut Shown, changes: &mut Vec<(Cell, Kept)>)
    ensures shown { shown_at shown.new ≡ overlaid (shown_at shown.old) (map valued changes.old.items) }
    ensures room { vec_capacity changes.new ≡ vec_capacity changes.old }
{
    for (cell, kept) in changes.drain(..) {
        shown.put(cell, kept);
    }
}
