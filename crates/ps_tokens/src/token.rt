//! The tokens of formulas, with their functions and operators.

ghost use Rattle.std.specs.Prelude.{◌≡◌};
ghost use Rattle.ps_tokens.specs.Names.{function_name, operator_text};

use ps_grid::{Cell, Rect};

/// A function of the formula language.
#[derive(Clone, Copy, Debug, PartialEq, Eq)]
pub enum Function {
    /// `SUM`: the exact sum of the numbers in its arguments.
    Sum,
    /// `MIN`: the least number in its arguments; 0 if there are no numbers.
    Min,
    /// `MAX`: the greatest number in its arguments; 0 if there are no numbers.
    Max,
    /// `COUNT`: how many numbers there are in its arguments.
    Count,
    /// `IF`: the second argument unless the first is 0; otherwise the third, or 0 without a third.
    If,
    /// `MOD`: the remainder of a division, with the sign of the divisor.
    Mod,
    /// `QUOTIENT`: the quotient of a division, rounded towards zero.
    Quotient,
    /// `ABS`: the argument without its sign.
    Abs,
    /// `AND`: 1 if no argument is 0; otherwise 0.
    And,
    /// `OR`: 1 if some argument isn't 0; otherwise 0.
    Or,
    /// `NOT`: 1 if the argument is 0; otherwise 0.
    Not,
    /// `TRUE`: 1.
    True,
    /// `FALSE`: 0.
    False,
}

/// All functions of the formula language.
pub const FUNCTIONS: [Function; 13] = [
    Function::Sum,
    Function::Min,
    Function::Max,
    Function::Count,
    Function::If,
    Function::Mod,
    Function::Quotient,
    Function::Abs,
    Function::And,
    Function::Or,
    Function::Not,
    Function::True,
    Function::False,
];

/// An operator of the formula language. An operator stands between two operands. Plus and minus can also stand before
/// one operand, as its sign.
#[derive(Clone, Copy, Debug, PartialEq, Eq)]
pub enum Operator {
    /// `+`
    Plus,
    /// `-`
    Minus,
    /// `*`
    Times,
    /// `=`
    Equal,
    /// `<>`
    NotEqual,
    /// `<`
    Less,
    /// `<=`
    LessOrEqual,
    /// `>`
    Greater,
    /// `>=`
    GreaterOrEqual,
}

/// A token of a formula. A token holds a meaning and not the spelling: `007` and `7` are the same token.
#[derive(Clone, Copy, Debug, PartialEq, Eq)]
pub enum Token {
    /// A whole number, from 0 to 9223372036854775807.
    Numeral(i64),
    /// A reference to a cell, such as `[.A1]`.
    Reference(Cell),
    /// A range of cells, such as `[.A1:.B3]`: the rectangle that has the two cells as opposite corners.
    Range(Rect),
    /// The name of a function.
    Name(Function),
    /// An operator.
    Symbol(Operator),
    /// `(`
    Open,
    /// `)`
    Close,
    /// `;`
    Separator,
}

impl Function {
    /// Returns the name of the function, in upper case.
    pub fn name(self) -> &'static str
        ensures { result.now ≡ function_name self }
    {
        match self {
            Function::Sum => "SUM",
            Function::Min => "MIN",
            Function::Max => "MAX",
            Function::Count => "COUNT",
            Function::If => "IF",
            Function::Mod => "MOD",
            Function::Quotient => "QUOTIENT",
            Function::Abs => "ABS",
            Function::And => "AND",
            Function::Or => "OR",
            Function::Not => "NOT",
            Function::True => "TRUE",
            Function::False => "FALSE",
        }
    }
}

impl Operator {
    /// Returns the sign of the operator, such as `<=`.
    pub fn text(self) -> &'static str
        ensures { result.now ≡ operator_text self }
    {
        match self {
            Operator::Plus => "+",
            Operator::Minus => "-",
            Operator::Times => "*",
            Operator::Equal => "=",
            Operator::NotEqual => "<>",
            Operator::Less => "<",
            Operator::LessOrEqual => "<=",
            Operator::Greater => ">",
            Operator::GreaterOrEqual => ">=",
        }
    }
}
