//! The rule that each step on the two copies keeps: the shown list is legal, and what each reader has seen is a
//! beginning of it.

use crate::face::Face;
use crate::name::Named;
use crate::patch::Note;
use crossbeam_utils::rule::{Outcome, Protocol};
use std::collections::LinkedList;
use std::marker::PhantomData;

/// What a reader or the writer has seen, as contracts see it. The program makes no value of this type.
pub struct View {
    /// The beginning of the published list that the reader or the writer has seen.
    pub list: LinkedList<Note>,
    /// How often the reader has entered.
    pub enters: u64,
}

/// The rule that each step on the two copies keeps: the shown list is legal, and what each reader has seen is
/// a beginning of that list.
pub struct Law<L: Named> {
    of: PhantomData<L>,
}

impl<L: Named> Protocol<Face, View> for Law<L> {
    ghost use Rattle.ps_face.specs.Rules.{Keeps, newcomer};

    ghost holds = { Keeps L.opening L.book };

    ghost first = { newcomer };
}

/// The step by which the writer shows readers the other copy.
pub struct Publish;

impl Outcome<Face, View> for Publish {
    ghost use Rattle.ps_face.specs.Rules.{Publishes};

    ghost then = { Publishes };
}

/// The step by which a reader takes the copy that is shown.
pub struct Enter<L: Named> {
    of: PhantomData<L>,
}

impl<L: Named> Outcome<Face, View> for Enter<L> {
    ghost use Rattle.ps_face.specs.Rules.{Enters};

    ghost then = { Enters L.opening L.book };
}
