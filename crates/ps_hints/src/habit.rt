//! Why an entry that looks like a number or a formula became a text.

use std::fmt;

/// Why an entry that looks like a number or a formula became a text. Each variant is something that people write by
/// habit, but that numbers and formulas don't have here.
#[derive(Clone, Copy, Debug, PartialEq, Eq)]
pub enum Habit {
    /// A decimal point.
    Point,
    /// Commas between thousands, or a decimal comma.
    Comma,
    /// A blank at the entry's beginning or end.
    Blank,
    /// A sign of a currency.
    Currency,
    /// A percent sign.
    Percent,
    /// Digits that would be a whole number, but out of range.
    Large,
    /// An exponent.
    Exponent,
    /// A dash that isn't ASCII's minus sign.
    Dash,
    /// A formula without its `=`.
    Unsigned,
    /// `TRUE` or `FALSE`, which are functions here.
    Truth,
    /// `@tally`, `@choice` or `of:=` in letters of another case.
    Capitals,
}

impl fmt::Display for Habit {
    fn fmt<W: fmt::Write>(&self, f: &mut fmt::Formatter<W>) -> fmt::Result {
        match self {
            Habit::Point => f.write_str("numbers are whole"),
            Habit::Comma => f.write_str("numbers have no commas"),
            Habit::Blank => f.write_str("a blank stands before or after it"),
            Habit::Currency => f.write_str("numbers have no sign of a currency"),
            Habit::Percent => f.write_str("numbers have no percent sign"),
            Habit::Large => write!(f, "numbers are {} to {}", i64::MIN, i64::MAX),
            Habit::Exponent => f.write_str("numbers are digits alone"),
            Habit::Dash => f.write_str("the minus sign is -"),
            Habit::Unsigned => f.write_str("a formula begins with ="),
            Habit::Truth => f.write_str("truth values are written =TRUE() and =FALSE()"),
            Habit::Capitals => f.write_str("@tally, @choice and of:= are in small letters"),
        }
    }
}
