//! The patches of the published list that wait to be shown to readers.

ghost use Rattle.std.specs.Prelude.{◌≡◌, ◌+◌, ◌<◌, ◌∷◌, [], fold, IfErr, OnOk, MatchOption};
ghost use Rattle.ps_grid.specs.declared.refusal.Refusal.TheVariants.{Memory};
ghost use Rattle.ps_face.specs.Seen.{Copy, turned};
ghost use Rattle.ps_face.specs.declared.waiting.TheConstants.{MOST_WAITING};

use crate::book::BookPrefix;
use crate::changes::CellChanges;
use crate::face::Operation;
use core::mem;
use ps_grid::{Cell, Refusal};
use ps_shown::Kept;
use std::alloc::Global;
use std::marker::Model;

/// The number of waiting patches at which the writer shows all of them, so fewer patches than this number wait between
/// calls. It is also the most changes that the waiting patches have together. The number limits how far readers are
/// behind, and the memory that waiting patches take.
pub const MOST_WAITING: usize = 64;

/// The patches of the list that wait to be shown, merged into one operation on a copy. A contract sees their number,
/// and what that operation does to a copy.
#[derive(Drop)]
pub(crate) struct Waiting {
    /// how many there are
    patches: usize,
    /// the version after the last of them
    version: u64,
    /// what they change, one after another; there is room for `MOST_WAITING` changes, or none at all
    changes: Vec<(Cell, Kept)>,
    /// the beginning of the list that ends with the last of them
    front: BookPrefix,
}

impl Model for Waiting {
    ghost use Rattle.std.specs.Prelude.{◌≡◌, ◌≤◌, [], length, map};
    ghost use Rattle.std.specs.Coded.{codes};
    ghost use Rattle.ps_face.specs.contracts.patch.Note as note;
    ghost use Rattle.ps_face.specs.Published.{Gathered, gathered};
    ghost use Rattle.ps_face.specs.Values.{valued};
    ghost use Rattle.ps_face.specs.declared.waiting.TheConstants.{MOST_WAITING};

    ghost Value = { Gathered };

    ghost coded = { Prim.hlevel (codes, note.the_row.coded) };

    ghost view = { λ w. record {
      patches = w.patches;
      turns = gathered w.patches (record {
        book = w.front.book;
        list = w.front.list;
        version = w.version;
        changes = map valued w.changes.items;
      });
    } };

    ghost invariant = { λ w. (length w.changes.items ≤ MOST_WAITING) × (w.patches ≡ 0 → w.changes.items ≡ []) };
}

impl Waiting {
    /// An empty list: no patch waits.
    pub(crate) fn none(alloc: Global, front: BookPrefix) -> Waiting
        ensures { result ≡ record { patches = 0; turns = [] } }
    {
        Waiting {
            patches: 0,
            version: 0,
            changes: Vec::new(alloc),
            front,
        }
    }

    /// How many patches wait.
    #[inline(always)]
    pub(crate) fn patches(&self) -> usize
        ensures { result ≡ self.now.patches }
    {
        self.patches
    }

    /// Makes room for the changes of all that may wait. Fails only when out of memory.
    #[inline(always)]
    pub(crate) fn reserve(&mut self) -> Result<(), Refusal>
        ensures same { self.new ≡ self.old }
        ensures memory { IfErr result (λ e. e ≡ Memory) }
    {
        if self.changes.capacity() == 0 {
            self.changes = Vec::with_capacity(*self.changes.allocator(), MOST_WAITING)?;
        }
        Ok(())
    }

    /// Adds a patch after those that wait, or returns it if there is no room for its changes.
    #[inline(always)]
    pub(crate) fn gather(&mut self, next: Operation) -> Result<(), Operation>
        requires few { self.old.patches < MOST_WAITING }
        ensures count { OnOk result (self.new.patches ≡ self.old.patches + 1) }
        ensures turns { (x : Copy) → OnOk result
            (fold turned x self.new.turns ≡ turned (fold turned x self.old.turns) next) }
        ensures back { IfErr result (λ o. (o ≡ next) × (self.new ≡ self.old)) }
    {
        let room = self.changes.capacity().min(MOST_WAITING) - self.changes.len();
        if next.changes.as_slice().len() > room {
            return Err(next);
        }
        let Operation {
            version,
            changes,
            front,
        } = next;
        changes.gather(&mut self.changes);
        self.version = version;
        self.front = front;
        self.patches += 1;
        Ok(())
    }

    /// Takes out all that waits, as one operation, or returns `None` if nothing waits. Its memory goes with it.
    #[inline(always)]
    pub(crate) fn take(&mut self) -> Option<Operation>
        ensures turns { MatchOption result (self.old.turns ≡ []) (λ t. self.old.turns ≡ t ∷ []) }
        ensures none { self.new ≡ record { patches = 0; turns = [] } }
    {
        if self.patches == 0 {
            return None;
        }
        self.patches = 0;
        let none = Vec::new(*self.changes.allocator());
        let changes = CellChanges::Several(mem::replace(&mut self.changes, none));
        Some(Operation::new(self.version, changes, self.front.again()))
    }
}
