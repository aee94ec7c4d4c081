//! A position up to which a desk's changes are shown.

ghost use Rattle.std.specs.Prelude.{◌≡◌, ◌<◌, ◌≤◌, length, IfNone, IfSome, MatchBool};
ghost use mathlib.Core.List.{IsPrefix};
ghost use Rattle.ps_face.specs.Legal.{IsLegal};

use crate::name::DeskName;
use crate::position::Position;
use crate::seat::Seat;
use ps_device::Failed;
use ps_face::ShownPrefix;
use ps_session::Keeper;
use std::alloc::Global;
use std::marker::Model;
use std::sync::Wait;

/// A token which proves that a beginning of a desk's published list is shown to all readers. A contract sees the token
/// as this beginning.
///
/// A read of the published copies makes such a token, and so does a call of the desk that shows waiting changes. Each
/// pass of a new desk has the token for the empty beginning.
#[derive(Drop)]
pub struct ShownPosition<L: DeskName> {
    position: Position<L>,
}

impl<L: DeskName> Model for ShownPosition<L> {
    ghost use Rattle.std.specs.Prelude.{List};
    ghost use Rattle.std.specs.Coded.{codes};
    ghost use Rattle.ps_face.specs.declared.patch.Note.{Note};
    ghost use Rattle.ps_face.specs.contracts.patch.Note as note;

    ghost Value = { List Note };

    ghost coded = { Prim.hlevel (codes, note.the_row.coded) };

    ghost view = { λ s. s.position };
}

impl<L: DeskName> ShownPosition<L> {
    /// Creates the token for a beginning of the list that is shown.
    pub(crate) fn new(shown: &ShownPrefix) -> ShownPosition<L>
        requires book { shown.now.book ≡ L.book }
        requires legal { IsLegal L.opening shown.now.list }
        ensures { result ≡ shown.now.list }
    {
        ShownPosition {
            position: Position::new(shown.front().again()),
        }
    }

    /// Returns a second token for the same beginning.
    pub fn again(&self) -> ShownPosition<L>
        ensures { result ≡ self.now }
    {
        ShownPosition {
            position: self.position.again(),
        }
    }

    /// Returns the position at the end of the beginning that this token covers.
    pub fn position(&self) -> &Position<L>
        ensures { result.now ≡ self.now }
    {
        &self.position
    }

    /// Returns whether this token covers the list up to `position`.
    pub fn has(&self, position: &Position<L>) -> bool
        ensures { MatchBool result
            (IsPrefix position.now self.now × (length position.now ≤ length self.now))
            (length self.now < length position.now) }
    {
        position.begins(&self.position)
    }

    /// Returns the token for the list up to `position`, if this token covers it.
    pub(crate) fn part(&self, position: Position<L>) -> Option<ShownPosition<L>>
        ensures shown { IfSome result (λ part. part ≡ position) }
        ensures longer { IfNone result (length self.now < length position) }
    {
        if self.has(&position) {
            return Some(ShownPosition { position });
        }
        None
    }

    /// Moves to `now`, the end of what is shown now. The call never returns if this token covers more, but none does.
    pub(crate) fn catch_up<V: Wait>(&mut self, wait: &V, now: ShownPosition<L>)
        ensures later { IsPrefix self.old now }
        ensures all { self.new ≡ now }
    {
        if !now.has(&self.position) {
            for _ in wait.forever() {}
            unreachable!()
        }
        *self = now;
    }
}

/// The keeper of a session at a desk that isn't kept in a file. Before the session sends its replies, the keeper shows
/// all that the session has seen to all readers, including the changes of other sessions.
impl<L: DeskName, W: Wait + Drop, V: Wait> Keeper<Seat<'_, L, W, V>> for ShownPosition<L> {
    ghost use Rattle.std.specs.Prelude.{⊤};
    ghost use mathlib.Core.List.{IsPrefix};

    ghost covers = { λ shown seat. IsPrefix seat.list shown };

    ghost fits = { λ shown seat. ⊤ };

    ghost can_fail = { ⊥ };

    fn sync(&mut self, _alloc: Global, board: &mut Seat<'_, L, W, V>) -> Result<(), Failed> {
        let shown = board.show();
        if !self.has(&shown.position) {
            // for the fact that the list shown before is a beginning of this one
            let _ = shown.has(&self.position);
            *self = shown;
        }
        Ok(())
    }
}
