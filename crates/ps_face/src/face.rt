//! One of the two published copies of the shown values.

ghost use Rattle.std.specs.Prelude.{◌≡◌, ◌≤◌, [], length, map, slice_index_or, IfOk, IfErr, MatchResult};
ghost use Rattle.ps_grid.specs.declared.refusal.Refusal.TheVariants.{Memory};
ghost use Rattle.ps_value.specs.declared.value.Value.TheVariants.{Empty};
ghost use Rattle.ps_shown.specs.Shown.{shown_at};
ghost use Rattle.ps_face.specs.CellChanges.{entries_of};
ghost use Rattle.ps_face.specs.Values.{in_order, valued};
ghost use Rattle.ps_face.specs.Seen.{turned};

use crate::book::BookPrefix;
use crate::changes::CellChanges;
use left_right::Absorb;
use ps_grid::{CELLS, Cell, Refusal, Twin};
use ps_shown::{Kept, Shown};
use ps_value::Value;
use std::alloc::{AllocError, Global};
use std::marker::Model;

/// One of the two copies: what each cell shows after a beginning of the published list, with this beginning and the
/// version.
#[derive(Drop)]
pub struct Face {
    version: u64,
    shown: Shown,
    front: BookPrefix,
    /// copies of an operation's changes while it is applied; there is room for all cells
    room: Vec<(Cell, Kept)>,
    alloc: Global,
}

impl Model for Face {
    ghost use Rattle.std.specs.Prelude.{◌≤◌, vec_capacity};
    ghost use Rattle.ps_grid.specs.declared.size.TheConstants.{CELLS};
    ghost use Rattle.ps_face.specs.Seen.{Copy};
    ghost use Rattle.ps_face.specs.Values.{in_order};
    ghost use Rattle.ps_shown.specs.Shown.{shown_at};
    ghost use Rattle.std.specs.Coded.{codes};
    ghost use Rattle.ps_face.specs.contracts.patch.Note as note;

    ghost Value = { Copy };

    ghost coded = { Prim.hlevel (codes, note.the_row.coded) };

    ghost view = { λ f. record {
      book = f.front.book;
      list = f.front.list;
      version = f.version;
      values = in_order (shown_at f.shown);
    } };

    ghost invariant = { λ f. CELLS ≤ vec_capacity f.room };
}

/// The changes that one or several consecutive patches make in a copy, at most as many as there are cells. With them
/// comes the beginning of the published list that ends with the last of these patches.
#[derive(Drop)]
pub struct Operation {
    pub(crate) version: u64,
    pub(crate) changes: CellChanges,
    pub(crate) front: BookPrefix,
}

impl Model for Operation {
    ghost use Rattle.std.specs.Prelude.{◌≤◌, length, map};
    ghost use Rattle.ps_grid.specs.declared.size.TheConstants.{CELLS};
    ghost use Rattle.ps_face.specs.CellChanges.{entries_of};
    ghost use Rattle.ps_face.specs.Seen.{Turn};
    ghost use Rattle.ps_face.specs.Values.{valued};
    ghost use Rattle.std.specs.Coded.{codes};
    ghost use Rattle.ps_face.specs.contracts.patch.Note as note;

    ghost Value = { Turn };

    ghost coded = { Prim.hlevel (codes, note.the_row.coded) };

    ghost view = { λ o. record {
      book = o.front.book;
      list = o.front.list;
      version = o.version;
      changes = map valued (entries_of o.changes);
    } };

    ghost invariant = { λ o. length (entries_of o.changes) ≤ CELLS };
}

impl Operation {
    /// The operation of patches with these changes. The last patch has number `version`, and the list `front` ends with
    /// it.
    pub(crate) fn new(version: u64, changes: CellChanges, front: BookPrefix) -> Operation
        requires few { length (entries_of changes) ≤ CELLS }
        ensures { result ≡ record {
          book = front.book;
          list = front.list;
          version = version;
          changes = map valued (entries_of changes);
        } }
    {
        Operation {
            version,
            changes,
            front,
        }
    }

    /// An operation that changes nothing in a copy of this version and this list.
    pub(crate) fn idle(alloc: Global, version: u64, front: BookPrefix) -> Operation
        ensures { result ≡ record { book = front.book; list = front.list; version = version; changes = [] } }
    {
        Operation {
            version,
            changes: CellChanges::Several(Vec::new(alloc)),
            front,
        }
    }
}

impl Face {
    /// A copy of shown values, with the room that applying an operation needs. Fails only when out of memory.
    ///
    /// Cost: that of copying the values, and an allocation of about the same size, to which nothing is written yet.
    pub(crate) fn new(
        alloc: Global,
        version: u64,
        shown: &Shown,
        front: BookPrefix,
    ) -> Result<Face, Refusal>
        ensures face { IfOk result (λ f. f ≡ record {
          book = front.book;
          list = front.list;
          version = version;
          values = in_order (shown_at shown.now);
        }) }
        ensures memory { IfErr result (λ e. e ≡ Memory) }
    {
        Ok(Face {
            version,
            shown: shown.twin(alloc)?,
            front,
            room: Vec::with_capacity(alloc, CELLS)?,
            alloc,
        })
    }

    /// Returns the version of the copy: the length of the history whose values it shows.
    pub fn version(&self) -> u64
        ensures version { result ≡ self.now.version }
    {
        self.version
    }

    /// Returns what a cell shows in the copy.
    pub fn at(&self, cell: Cell) -> Value
        ensures value { result ≡ slice_index_or self.now.values cell Empty }
    {
        // for the fact that the cell is in the grid
        let _ = cell.index();
        self.shown.at(cell)
    }

    /// Returns the beginning of the published list after which the cells show the copy's values.
    pub fn front(&self) -> &BookPrefix
        ensures front { result.now ≡ record { book = self.now.book; list = self.now.list } }
    {
        &self.front
    }

    /// Applies an operation whole, or does nothing if the reference count of a shared text is full. It takes no memory.
    fn apply(&mut self, operation: &Operation) -> Result<(), Refusal>
        ensures { MatchResult result (λ _. self.new ≡ turned self.old operation.now) (λ _. self.new ≡ self.old) }
    {
        operation
            .changes
            .put_copies(self.alloc, &mut self.shown, &mut self.room)?;
        self.version = operation.version;
        self.front = operation.front.again();
        Ok(())
    }

    /// Applies an operation that the other copy already has, so that its changes can be moved. It takes no memory.
    fn take_in(&mut self, operation: Operation)
        ensures { self.new ≡ turned self.old operation }
    {
        let Operation {
            version,
            changes,
            front,
        } = operation;
        changes.put(&mut self.shown);
        self.version = version;
        self.front = front;
    }
}

impl Absorb<Operation> for Face {
    ghost use Rattle.ps_face.specs.Seen.{turned};

    type State = Face;

    ghost state = { λ f. f };

    ghost applied = { turned };

    fn absorb_first(&mut self, operation: &Operation, _other: &Face) -> Result<(), AllocError> {
        match self.apply(operation) {
            Ok(()) => Ok(()),
            Err(_) => Err(AllocError),
        }
    }

    fn absorb_second(&mut self, operation: Operation, _other: &Face) -> Result<(), Operation> {
        self.take_in(operation);
        Ok(())
    }
}
