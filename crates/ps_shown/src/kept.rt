//! What the table stores for one cell.
ghost use Rattle.std.specs.Prelude.{◌≡◌, ◌↔◌, IsTrue};
ghost use Rattle.ps_value.specs.Operand.{operand_of};
ghost use Rattle.ps_eval.specs.Items.{cell_items, first_fault};
ghost use Rattle.ps_shown.specs.Kept.{value_of};

use ps_grid::{Refusal, Twin};
use ps_value::{Fault, Operand, SharedLabel, Value};
use std::alloc::Global;

/// The stored form of what a cell shows, in 16 bytes. The bytes of a text are shared with its other owners.
#[derive(Drop)]
pub enum Kept {
    /// No value: the cell shows nothing.
    Empty,
    /// A whole number.
    Num(i64),
    /// A text.
    Text(SharedLabel),
    /// A set of chosen options: bit k is 1 if option k is chosen.
    Choice(u64),
    /// A fault, such as `#DIV/0!`.
    Err(Fault),
}

impl Kept {
    /// Returns the stored value as a `Value`, with a copy of a text's bytes.
    pub fn value(&self) -> Value
        ensures { result ≡ value_of self.now }
    {
        match self {
            Kept::Empty => Value::Empty,
            Kept::Num(number) => Value::Num(*number),
            Kept::Text(text) => Value::Text(*text.label()),
            Kept::Choice(options) => Value::Choice(*options),
            Kept::Err(fault) => Value::Err(*fault),
        }
    }

    /// Returns the part of the value that evaluation needs. For a text that is only the fact that there is a text, and
    /// for options it is how many are chosen.
    #[inline]
    pub fn operand(&self) -> Operand
        ensures { result ≡ operand_of (value_of self.now) }
    {
        match self {
            Kept::Empty => Operand::Empty,
            Kept::Num(number) => Operand::Num(*number),
            Kept::Text(_) => Operand::Text,
            Kept::Choice(options) => Operand::Num(i64::from(options.count_ones())),
            Kept::Err(fault) => Operand::Err(*fault),
        }
    }

    /// Returns the fault, if the cell shows one.
    #[inline]
    pub(crate) fn fault(&self) -> Option<Fault>
        ensures { result ≡ first_fault (cell_items (value_of self.now)) }
    {
        match self {
            Kept::Err(fault) => Some(*fault),
            _ => None,
        }
    }

    /// Returns whether `self` and `other` have the same value.
    ///
    /// Cost: for two texts, at most linear in their bytes.
    #[inline(always)]
    pub fn is_same(&self, other: &Kept) -> bool
        ensures { IsTrue result ↔ (value_of self.now ≡ value_of other.now) }
    {
        match (self, other) {
            (Kept::Empty, Kept::Empty) => true,
            (Kept::Num(number), Kept::Num(another)) => *number == *another,
            (Kept::Text(text), Kept::Text(another)) => *text == *another,
            (Kept::Choice(options), Kept::Choice(others)) => *options == *others,
            (Kept::Err(fault), Kept::Err(another)) => *fault == *another,
            _ => false,
        }
    }
}

/// The twin of a text is one more owner of it. No memory is taken.
impl Twin for Kept {
    fn twin(&self, alloc: Global) -> Result<Kept, Refusal> {
        match self {
            Kept::Empty => Ok(Kept::Empty),
            Kept::Num(number) => Ok(Kept::Num(*number)),
            Kept::Text(text) => Ok(Kept::Text(text.twin(alloc)?)),
            Kept::Choice(options) => Ok(Kept::Choice(*options)),
            Kept::Err(fault) => Ok(Kept::Err(*fault)),
        }
    }
}
