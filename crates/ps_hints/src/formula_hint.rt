//! What a hint says about a formula.

use crate::case::Capitals;
use ps_formula::LONGEST_TEXT;
use ps_tokens::FUNCTIONS;
use std::fmt;

/// A hint about a refused formula, by what is wrong with it.
#[derive(Clone, Copy, Debug)]
pub enum FormulaHint<'a> {
    /// A cell without brackets.
    BareCell(&'a str),
    /// A range without brackets, by its two cells.
    BareRange(&'a str, &'a str),
    /// A cell in brackets without its dot, or in small letters; or the example `A1` for brackets without a cell.
    Reference(&'a str),
    /// A range in brackets without one of its dots, or in small letters.
    Range(&'a str, &'a str),
    /// A reference that names another sheet.
    OtherSheet,
    /// A range whose two ends aren't both cells, such as whole columns or whole rows.
    Columns,
    /// A range that stands outside the arguments of a function that takes ranges.
    RangeAlone,
    /// The name of a cell outside the grid.
    Outside(&'a str),
    /// A name that isn't a function's.
    UnknownFunction(&'a str),
    /// A function without parentheses.
    NoArguments(&'a str),
    /// `TRUE` or `FALSE` without parentheses, in letters of any case.
    Truth(&'a str),
    /// A comma.
    Comma,
    /// A number with a point.
    Point(&'a str),
    /// A word that begins with a digit and has a letter in it.
    Letters(&'a str),
    /// A numeral that is too large.
    Large(&'a str),
    /// A text in quotes.
    Quote,
    /// A sign of another notation, and what to write for it.
    Sign(&'static str, &'static str),
    /// A character that no formula has.
    NoSign(&'a str),
    /// An argument that is missing, or that ends with an operator.
    MissingArgument,
    /// A bracket or a parenthesis that isn't closed.
    Unclosed(char),
    /// A closing bracket or parenthesis without an opening one.
    Unopened(char),
    /// A formula that ends before it is complete.
    Unfinished,
    /// A fault that no other variant describes. The hint shows an example of a formula.
    Notation,
    /// A formula whose canonical text has more than `LONGEST_TEXT` bytes.
    Long,
}

/// Writes the names of all functions.
fn write_functions<W: fmt::Write>(f: &mut fmt::Formatter<W>) -> fmt::Result {
    let mut separator = "";
    for function in FUNCTIONS {
        write!(f, "{separator}{}", function.name())?;
        separator = ", ";
    }
    Ok(())
}

impl fmt::Display for FormulaHint<'_> {
    fn fmt<W: fmt::Write>(&self, f: &mut fmt::Formatter<W>) -> fmt::Result {
        match *self {
            FormulaHint::BareCell(cell) => write!(f, "{cell} is written [.{}]", Capitals(cell)),
            FormulaHint::BareRange(first, last) => {
                write!(f, "{first}:{last} is written ")?;
                write!(f, "[.{}:.{}]", Capitals(first), Capitals(last))
            }
            FormulaHint::Reference(cell) => {
                write!(f, "a reference is written [.{}]", Capitals(cell))
            }
            FormulaHint::Range(first, last) => {
                write!(f, "a range is written ")?;
                write!(f, "[.{}:.{}]", Capitals(first), Capitals(last))
            }
            FormulaHint::OtherSheet => {
                f.write_str("there is one sheet: a reference is written [.A1]")
            }
            FormulaHint::Columns => f.write_str("a range has two cells, as [.A1:.A1024]"),
            FormulaHint::RangeAlone => f.write_str(
                "a range is an argument of SUM, MIN, MAX or COUNT and stands nowhere else",
            ),
            FormulaHint::Outside(name) => {
                write!(f, "there is no {name}: cells are A1 to CZ1024")
            }
            FormulaHint::UnknownFunction(name) => {
                write!(f, "{name} is no function; the functions are ")?;
                write_functions(f)
            }
            FormulaHint::NoArguments(name) => {
                write!(f, "{name} has its arguments in parentheses")
            }
            FormulaHint::Truth(name) => write!(f, "{name} is written {}()", Capitals(name)),
            FormulaHint::Comma => {
                f.write_str("arguments have ; between them, and numbers are whole")
            }
            FormulaHint::Point(number) => write!(f, "{number}: numbers are whole"),
            FormulaHint::Letters(word) => write!(f, "{word}: numbers are digits alone"),
            FormulaHint::Large(number) => { write!(f, "{number}: numbers end at {}", i64::MAX) }
            FormulaHint::Quote => f.write_str("a formula has no texts"),
            FormulaHint::Sign(sign, due) => write!(f, "{sign} is written {due}"),
            FormulaHint::NoSign(sign) => write!(f, "a formula has no {sign}"),
            FormulaHint::MissingArgument => f.write_str("an argument is missing"),
            FormulaHint::Unclosed(sign) => write!(f, "a {sign} isn't closed"),
            FormulaHint::Unopened(sign) => write!(f, "a {sign} closes nothing"),
            FormulaHint::Unfinished => f.write_str("something is missing at its end"),
            FormulaHint::Notation => f.write_str("a formula is written like =SUM([.A1:.A3])*2"),
            FormulaHint::Long => { write!(f, "written out it has more than {LONGEST_TEXT} bytes") }
        }
    }
}
