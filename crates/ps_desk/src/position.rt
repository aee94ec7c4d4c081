//! A position in the published list of a desk.

ghost use Rattle.std.specs.Prelude.{◌≡◌, ◌<◌, ◌≤◌, length, MatchBool};
ghost use mathlib.Core.List.{IsPrefix};
ghost use Rattle.ps_face.specs.Legal.{IsLegal};

use crate::name::DeskName;
use ps_face::BookPrefix;
use std::marker::{Model, PhantomData};

/// A position in the published list of a desk: a token for the beginning of the list that ends at this position. Code
/// outside any session can hold a position, which gives no access to values. A contract sees a position as the
/// beginning of the list.
#[derive(Drop)]
pub struct Position<L: DeskName> {
    pub(crate) front: BookPrefix,
    marker: PhantomData<L>,
}

impl<L: DeskName> Model for Position<L> {
    ghost use Rattle.std.specs.Prelude.{◌≡◌, List};
    ghost use Rattle.std.specs.Coded.{codes};
    ghost use Rattle.ps_face.specs.declared.patch.Note.{Note};
    ghost use Rattle.ps_face.specs.contracts.patch.Note as note;
    ghost use Rattle.ps_face.specs.Legal.{IsLegal};

    ghost Value = { List Note };

    ghost coded = { Prim.hlevel (codes, note.the_row.coded) };

    ghost view = { λ p. p.front.list };

    ghost invariant = { λ p. (p.front.book ≡ L.book) × IsLegal L.opening p.front.list };
}

impl<L: DeskName> Position<L> {
    /// Creates the position at the end of a beginning of the list.
    pub(crate) fn new(front: BookPrefix) -> Position<L>
        requires book { front.book ≡ L.book }
        requires legal { IsLegal L.opening front.list }
        ensures { result ≡ front.list }
    {
        Position {
            front,
            marker: PhantomData,
        }
    }

    /// Returns a second token for the same position.
    pub fn again(&self) -> Position<L>
        ensures { result ≡ self.now }
    {
        Position {
            front: self.front.again(),
            marker: PhantomData,
        }
    }

    /// Returns whether `other` is this position or a later one. If so, the list up to `other` begins with the list up
    /// to this position.
    pub fn begins(&self, other: &Position<L>) -> bool
        ensures begins { MatchBool result
            (IsPrefix self.now other.now × (length self.now ≤ length other.now))
            (length other.now < length self.now) }
        ensures legal { IsLegal L.opening self.now }
    {
        self.front.begins(&other.front)
    }
}
