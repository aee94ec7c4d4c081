//! The tree of a formula.

use ps_grid::{Cell, Rect};
use ps_tokens::{Function, Operator};

/// A sign in front of an operand.
#[derive(Clone, Copy, Debug, PartialEq, Eq)]
pub enum Sign {
    /// `+`, which changes nothing.
    Plus,
    /// `-`
    Minus,
}

/// An expression of a formula, as a tree. Contracts use `tree_of` of an expression: a `Tree`, which has the same cases
/// without the boxes.
#[cycle(tree)]
#[derive(Drop)]
pub enum Expr {
    /// A whole number, from 0 to 9223372036854775807 in a formula that `Formula::read` returned.
    Numeral(i64),
    /// The value of a cell.
    Reference(Cell),
    /// A sign and its operand.
    Prefix(Sign, Box<Expr>),
    /// An operator between its operands, which share one box.
    Infix(Operator, Box<Operands>),
    /// An expression in parentheses.
    Group(Box<Expr>),
    /// A call of a function with these arguments, from left to right. `TRUE` and `FALSE` have none.
    Call(Function, Vec<Argument>),
}

/// The operands on both sides of an operator.
#[cycle(tree)]
#[derive(Drop)]
pub struct Operands {
    /// The operand before the operator.
    pub left: Expr,
    /// The operand after the operator.
    pub right: Expr,
}

/// An argument of a function.
#[cycle(tree)]
#[derive(Drop)]
pub enum Argument {
    /// An expression, and so one value. In SUM, MIN, MAX and COUNT, a lone reference counts as a range of one cell.
    Expression(Expr),
    /// A range: all cells of a rectangle.
    Range(Rect),
}
