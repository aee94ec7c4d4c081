//! A beginning of the published list that readers were shown.

ghost use Rattle.std.specs.Prelude.{◌≡◌};

use crate::book::BookPrefix;
use std::marker::Model;

/// Proof that readers were shown a beginning of the published list. A contract sees a `ShownPrefix` as that beginning.
///
/// Two functions create the proof: [`crate::FaceWriter::shown`], once the whole list is shown, and
/// [`crate::Seen::shown`], for the copy that a reader reads.
#[derive(Drop)]
pub struct ShownPrefix {
    front: BookPrefix,
}

impl Model for ShownPrefix {
    ghost use Rattle.ps_face.specs.Seen.{Told};
    ghost use Rattle.std.specs.Coded.{codes};
    ghost use Rattle.ps_face.specs.contracts.patch.Note as note;

    ghost Value = { Told };

    ghost coded = { Prim.hlevel (codes, note.the_row.coded) };

    ghost view = { λ s. s.front };
}

impl ShownPrefix {
    /// Makes the proof for a beginning; the caller must know that readers were shown it.
    pub(crate) fn of(front: &BookPrefix) -> ShownPrefix
        ensures { result ≡ front.now }
    {
        ShownPrefix {
            front: front.again(),
        }
    }

    /// Returns the beginning of the published list that readers were shown.
    pub fn front(&self) -> &BookPrefix
        ensures { result.now ≡ self.now }
    {
        &self.front
    }
}
