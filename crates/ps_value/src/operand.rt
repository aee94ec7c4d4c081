//! What formulas read from the value of a cell.
ghost use Rattle.std.specs.Prelude.{◌≡◌};
ghost use Rattle.ps_value.specs.Operand.{operand_of};

use crate::value::{Fault, Value};

/// What a formula reads from the value of a cell. A formula sees that a text is there, without its bytes, and sees only
/// how many options of a choice are chosen.
#[derive(Clone, Copy, PartialEq, Eq, Debug)]
pub enum Operand {
    /// An empty cell.
    Empty,
    /// A text.
    Text,
    /// A number, or for a choice how many options are chosen.
    Num(i64),
    /// The fault that the cell shows, such as `#DIV/0!`.
    Err(Fault),
}

impl Value {
    /// Returns what a formula reads from a cell with this value.
    #[inline]
    pub fn operand(self) -> Operand
        ensures { result ≡ operand_of self }
    {
        match self {
            Value::Empty => Operand::Empty,
            Value::Num(number) => Operand::Num(number),
            Value::Text(_) => Operand::Text,
            Value::Choice(options) => Operand::Num(i64::from(options.count_ones())),
            Value::Err(fault) => Operand::Err(fault),
        }
    }
}
