//! The readers of the two published copies.

ghost use Rattle.std.specs.Prelude.{◌≡◌, ◌+◌, ◌<◌, length, slice_index_or, IfOk, IfErr, MatchBool};
ghost use mathlib.Core.List.{IsPrefix};
ghost use Rattle.left_right.specs.Sides.{view};
ghost use Rattle.ps_value.specs.declared.value.Value.TheVariants.{Empty};
ghost use Rattle.ps_face.specs.Legal.{IsLegal, Shows, history_of};

use crate::book::BookPrefix;
use crate::face::Face;
use crate::name::Named;
use crate::rule::{Enter, Law, View};
use crate::shown_prefix::ShownPrefix;
use left_right::reader::{Reader, Reading};
use ps_eval::Look;
use ps_grid::Cell;
use ps_value::{Operand, Value};
use std::marker::Model;

/// A reader of the published copies that reads none at the moment. [`FaceReader::enter`] begins a reading.
///
/// A contract sees two things of a reader: the beginning of the published list that the reader has seen or learned of,
/// and how often the reader has entered.
#[derive(Drop)]
pub struct FaceReader<L: Named> {
    reader: Reader<Face, View, Law<L>>,
    front: BookPrefix,
}

impl<L: Named> Model for FaceReader<L> {
    ghost use Rattle.std.specs.Prelude.{◌≡◌};
    ghost use Rattle.left_right.specs.Sides.{view as seat_view};
    ghost use Rattle.ps_face.specs.Legal.{IsLegal};
    ghost use Rattle.ps_face.specs.declared.rule.View.{View};
    ghost use Rattle.ps_face.specs.contracts.rule.View as view_row;

    ghost Value = { View };

    ghost coded = { view_row.the_row.coded };

    ghost view = { λ r. record { list = r.front.list; enters = (seat_view r.reader.place).enters } };

    ghost invariant = { λ r. (r.front.book ≡ L.book) × IsLegal L.opening r.front.list };
}

/// A reading: a reader that has entered, with the copy that it reads. The copy doesn't change until [`Seen::leave`]
/// ends the reading.
///
/// A contract sees three things of a reading: the published list that was shown when the reader entered, how often the
/// reader has entered, and all cells' values in the order of the cells.
pub struct Seen<L: Named> {
    reading: Reading<Face, View, Law<L>>,
}

impl<L: Named> Model for Seen<L> {
    ghost use Rattle.std.specs.Prelude.{◌≡◌};
    ghost use Rattle.std.specs.Coded.{codes};
    ghost use Rattle.left_right.specs.Sides.{view as seat_view};
    ghost use Rattle.ps_face.specs.contracts.patch.Note as note;
    ghost use Rattle.ps_face.specs.Published.{Sight};
    ghost use Rattle.ps_face.specs.Seen.{CopyStands};

    ghost Value = { Sight };

    ghost coded = { Prim.hlevel (codes, note.the_row.coded) };

    ghost view = { λ s. record {
      list = (seat_view s.reading.place).list;
      enters = (seat_view s.reading.place).enters;
      values = s.reading.part.value.values;
    } };

    ghost invariant = { λ s. ((seat_view s.reading.place).list ≡ s.reading.part.value.list)
        × CopyStands L.opening L.book s.reading.part.value };
}

impl<L: Named> FaceReader<L> {
    /// Makes a reader that has seen the beginning `front` of the published list.
    pub(crate) fn new(reader: Reader<Face, View, Law<L>>, front: BookPrefix) -> FaceReader<L>
        requires book { front.book ≡ L.book }
        requires legal { IsLegal L.opening front.list }
        ensures { result ≡ record { list = front.list; enters = (view reader.place).enters } }
    {
        FaceReader { reader, front }
    }

    /// Returns the beginning of the published list that this reader has seen or learned of.
    pub fn front(&self) -> &BookPrefix
        ensures front { result.now ≡ record { book = L.book; list = self.now.list } }
        ensures legal { IsLegal L.opening self.now.list }
    {
        &self.front
    }

    /// Makes this reader see nothing older than `front`, a beginning of the published list, and returns true.
    ///
    /// Returns false, and changes nothing, if the reader has already seen or learned of more than `front`. The call
    /// doesn't touch the copies, and takes no memory. While a patch of `front` waits to be shown, this reader can't
    /// enter.
    pub fn learn(&mut self, front: &BookPrefix) -> bool
        requires book { front.now.book ≡ L.book }
        requires legal { IsLegal L.opening front.now.list }
        ensures { MatchBool result
            (IsPrefix self.old.list front.now.list × (self.new ≡ record self.old { list = front.now.list }))
            ((length front.now.list < length self.old.list) × (self.new ≡ self.old)) }
    {
        if !self.front.begins(front) {
            return false;
        }
        self.front = front.again();
        true
    }

    /// Begins a reading: takes, in one step, the copy that is shown now, and returns it as a [`Seen`].
    ///
    /// Returns the reader instead, as the error, if the writer is gone, or if a patch that the reader learned of still
    /// waits to be shown.
    ///
    /// The copy shows the settled values of all cells at one version, those after a list of patches. This list begins
    /// with all patches that the reader had seen or learned of. It is legal: each patch follows the history before it.
    ///
    /// The call takes no lock and no memory, and doesn't wait.
    pub fn enter(self) -> Result<Seen<L>, FaceReader<L>>
        ensures later { IfOk result (λ s. IsPrefix self.list s.list) }
        ensures legal { IfOk result (λ s. IsLegal L.opening s.list) }
        ensures whole { IfOk result (λ s. Shows (history_of L.opening s.list) s.values) }
        ensures step { IfOk result (λ s. s.enters ≡ self.enters + 1) }
        ensures gone { IfErr result (λ r. r.list ≡ self.list) }
    {
        let FaceReader { reader, front } = self;
        let reading = match reader.enter_as::<Enter<L>>() {
            Ok(reading) => reading,
            Err(reader) => return Err(FaceReader { reader, front }),
        };
        // The copy is older than what the reader learned of only while a patch of that waits to be shown.
        if !front.begins(reading.get().front()) {
            return Err(FaceReader {
                reader: reading.leave(),
                front,
            });
        }
        Ok(Seen { reading })
    }
}

impl<L: Named> Seen<L> {
    /// Returns the version of the copy: the length of the history whose values it shows.
    pub fn version(&self) -> u64
        ensures version { result ≡ length (history_of L.opening self.now.list) }
    {
        self.reading.get().version()
    }

    /// Returns what a cell shows in the copy.
    pub fn at(&self, cell: Cell) -> Value
        ensures value { result ≡ slice_index_or self.now.values cell Empty }
        ensures whole { Shows (history_of L.opening self.now.list) self.now.values }
    {
        self.reading.get().at(cell)
    }

    /// Returns proof that readers were shown the list of patches after which the cells show this copy's values.
    pub fn shown(&self) -> ShownPrefix
        ensures shown { result ≡ record { book = L.book; list = self.now.list } }
    {
        ShownPrefix::of(self.reading.get().front())
    }

    /// Ends the reading, and returns the reader. It takes no memory.
    pub fn leave(self) -> FaceReader<L>
        ensures { result ≡ record { list = self.list; enters = self.enters } }
    {
        let Seen { reading } = self;
        let front = reading.get().front().again();
        FaceReader {
            reader: reading.leave(),
            front,
        }
    }
}

impl<L: Named> Look for Seen<L> {
    ghost use Rattle.std.specs.Prelude.{slice_index_or};
    ghost use Rattle.ps_value.specs.declared.value.Value.TheVariants.{Empty};

    ghost value_at = { λ s c. slice_index_or s.values c Empty };

    fn at(&self, cell: Cell) -> Value {
        self.reading.get().at(cell)
    }

    fn operand(&self, cell: Cell) -> Operand {
        self.reading.get().at(cell).operand()
    }
}
