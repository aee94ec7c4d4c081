//! What a cell shows.
use crate::label::Label;

/// Why a formula has no number. The formula's cell shows the fault's name instead.
#[derive(Clone, Copy, PartialEq, Eq, Debug)]
pub enum Fault {
    /// `#DIV/0!`: a division by zero.
    DivZero,
    /// `#NUM!`: a number outside the signed 64-bit range.
    Num,
    /// `#VALUE!`: a text where a formula needs a number.
    Value,
    /// `#CYCLE!`: references that lead into a cycle.
    Cycle,
}

/// The value that a cell shows.
///
/// A value is `Copy` and takes no memory on the heap: a label lies in the value itself, and a choice is 64 bits.
#[derive(Clone, Copy, PartialEq, Eq)]
pub enum Value {
    /// Nothing.
    Empty,
    /// A whole number.
    Num(i64),
    /// A text.
    Text(Label),
    /// The options that are chosen: bit k stands for option k.
    Choice(u64),
    /// The fault of a formula that has no number.
    Err(Fault),
}
