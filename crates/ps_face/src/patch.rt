//! A patch: a delta of the history, and what it changes in the shown values.

ghost use Rattle.std.specs.Prelude.{◌≡◌, [], ◌∷◌, map, IfOk, IfErr};
ghost use Rattle.ps_grid.specs.declared.refusal.Refusal.TheVariants.{Memory};
ghost use Rattle.ps_delta.specs.Deltas.{AreInGrid};
ghost use Rattle.ps_face.specs.CellChanges.{entries_of};
ghost use Rattle.ps_face.specs.Values.{valued};

use crate::changes::CellChanges;
use ps_delta::Delta;
use ps_grid::{Cell, Refusal, Twin};
use ps_shown::Kept;
use ps_value::Value;
use std::alloc::Global;
use std::collections::LinkedList;
use std::marker::Model;

/// A patch as contracts see it. The program makes no value of this type.
pub struct Note {
    /// The delta's number in the history, from 1: the version after the patch.
    pub number: u64,
    /// The delta, which the sheet has accepted.
    pub delta: Delta,
    /// Each cell whose shown value changes, with the new value.
    pub changes: LinkedList<(Cell, Value)>,
    /// The session slot whose call made the delta.
    pub owner: u64,
}

/// A delta, its number in the history, and each cell whose shown value the delta changes, with the new value. A patch
/// borrows the delta, since the published copies need only the changes.
#[derive(Drop)]
pub struct Patch<'a> {
    pub(crate) number: u64,
    pub(crate) delta: &'a Delta,
    pub(crate) changes: CellChanges,
    /// a note for contracts, which nothing reads
    pub(crate) owner: u64,
}

impl<'a> Model for Patch<'a> {
    ghost use Rattle.std.specs.Prelude.{map};
    ghost use Rattle.ps_face.specs.declared.patch.Note.{Note};
    ghost use Rattle.ps_face.specs.CellChanges.{entries_of};
    ghost use Rattle.ps_face.specs.Values.{valued};
    ghost use Rattle.std.specs.Coded.{codes};
    ghost use Rattle.ps_face.specs.contracts.patch.Note as note;

    ghost Value = { Note };

    ghost coded = { Prim.hlevel (codes, note.the_row.coded) };

    ghost view = { λ p. record {
      number = p.number;
      delta = p.delta.now;
      changes = map valued (entries_of p.changes);
      owner = p.owner;
    } };
}

impl<'a> Patch<'a> {
    /// Creates the patch of a delta that is number `number` in the history, from 1.
    ///
    /// `changes` are the cells whose shown values change, ascending, with the new values. `owner` is the session slot
    /// whose call made the delta; only contracts read it.
    pub fn new(number: u64, delta: &'a Delta, changes: Vec<(Cell, Kept)>, owner: u64) -> Patch<'a>
        ensures { result ≡ record {
          number = number;
          delta = delta.now;
          changes = map valued changes.items;
          owner = owner;
        } }
    {
        Patch {
            number,
            delta,
            changes: CellChanges::Several(changes),
            owner,
        }
    }

    /// Creates the patch of a delta that changes the shown value of one cell, as [`Patch::new`] does, but without
    /// a `Vec` for the one change.
    pub fn of_one(number: u64, delta: &'a Delta, change: (Cell, Kept), owner: u64) -> Patch<'a>
        ensures { result ≡ record {
          number = number;
          delta = delta.now;
          changes = valued change ∷ [];
          owner = owner;
        } }
    {
        Patch {
            number,
            delta,
            changes: CellChanges::One(change),
            owner,
        }
    }

    /// Returns the delta's number in the history, from 1: the version after the patch.
    pub fn number(&self) -> u64
        ensures number { result ≡ self.now.number }
    {
        self.number
    }

    /// Returns the patch's delta, which the sheet has accepted.
    pub fn delta(&self) -> &'a Delta
        ensures delta { result.now ≡ self.now.delta }
        ensures in_grid { AreInGrid self.now.delta }
    {
        // for the fact that its cells are in the grid
        let _ = self.delta.parts();
        self.delta
    }

    /// Returns each cell whose shown value changes, with the new value.
    ///
    /// Nothing in the program calls this method. It is part of the public interface, as [`Patch::number`] and
    /// [`Patch::delta`] are.
    pub fn changes(&self) -> &[(Cell, Kept)]
        ensures changes { map valued result.now ≡ self.now.changes }
    {
        self.changes.as_slice()
    }

    /// The patch with a share of its own in the delta, instead of a borrow. Fails only when out of memory.
    pub(crate) fn keep(self, alloc: Global) -> Result<KeptPatch, Refusal>
        ensures kept { IfOk result (λ p. p ≡ self.entry) }
        ensures memory { IfErr result (λ e. e ≡ Memory) }
    {
        let Patch {
            number,
            delta,
            changes,
            owner,
        } = self;
        Ok(KeptPatch {
            number,
            delta: delta.twin(alloc)?,
            changes,
            owner,
        })
    }
}

/// A patch that owns a share of its delta, until it is published.
#[derive(Drop)]
pub(crate) struct KeptPatch {
    pub(crate) number: u64,
    pub(crate) delta: Delta,
    pub(crate) changes: CellChanges,
    /// a note for contracts, which nothing reads
    pub(crate) owner: u64,
}

impl Model for KeptPatch {
    ghost use Rattle.std.specs.Prelude.{map};
    ghost use Rattle.ps_face.specs.declared.patch.Note.{Note};
    ghost use Rattle.ps_face.specs.CellChanges.{entries_of};
    ghost use Rattle.ps_face.specs.Values.{valued};
    ghost use Rattle.std.specs.Coded.{codes};
    ghost use Rattle.ps_face.specs.contracts.patch.Note as note;

    ghost Value = { Note };

    ghost coded = { Prim.hlevel (codes, note.the_row.coded) };

    ghost view = { λ p. record {
      number = p.number;
      delta = p.delta;
      changes = map valued (entries_of p.changes);
      owner = p.owner;
    } };
}
