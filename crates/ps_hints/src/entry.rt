//! Finds what is wrong with a refused entry, or why an entry became a text.

use crate::bytes::text_of;
use crate::entry_hint::EntryHint;
use crate::formula::hint_of_formula;
use crate::formula_hint::FormulaHint;
use crate::habit::Habit;
use crate::hint::Hint;
use ps_formula::LONGEST_ENTRY;
use ps_grid::Refusal;
use ps_tokens::FUNCTIONS;
use ps_value::LABEL_BYTES;

/// Signs of currencies.
const CURRENCIES: [&str; 6] = ["$", "\u{20ac}", "\u{a3}", "\u{a5}", "\u{a2}", "\u{20b9}"];

/// Dashes that people write for the minus sign `-`.
const DASHES: [&str; 3] = ["\u{2212}", "\u{2013}", "\u{2010}"];

/// Returns the hint about an entry, or `None` if there is nothing to say. `refusal` is why the entry was refused, or
/// `None` if it was accepted.
///
/// An accepted entry has a hint only if it became a text although it looks like a number or a formula.
///
/// Cost: O(n) in the n bytes of the entry; O(n * n) for a refused formula, which has at most 512 bytes.
pub fn hint_of_entry(entry: &[u8], refusal: Option<Refusal>) -> Option<Hint<'_>> {
    match refusal {
        None => {
            let habit = habit_of(entry)?;
            Some(Hint::Entry(EntryHint::Kept(text_of(entry)?, habit)))
        }
        Some(Refusal::Formula) => Some(Hint::Formula(hint_of_formula(entry))),
        Some(Refusal::TooLong) if entry.len() > LONGEST_ENTRY => {
            Some(Hint::Entry(EntryHint::TooLong(entry.len(), LONGEST_ENTRY)))
        }
        Some(Refusal::TooLong) => Some(Hint::Formula(FormulaHint::Long)),
        Some(Refusal::Text) => Some(Hint::Entry(text_hint(entry))),
        Some(_) => None,
    }
}

/// Returns what is wrong with a refused text.
fn text_hint(entry: &[u8]) -> EntryHint<'_> {
    let text = entry.strip_prefix(b"'").unwrap_or(entry);
    if text.is_empty() {
        return EntryHint::Empty;
    }
    if text.len() > LABEL_BYTES {
        return EntryHint::TooLong(text.len(), LABEL_BYTES);
    }
    match text.iter().find(|byte| **byte < 32 || **byte == 127) {
        Some(byte) => EntryHint::Control(*byte),
        None => EntryHint::NotUtf8,
    }
}

/// Returns why an accepted entry became a text, if it looks like a number or a formula.
fn habit_of(entry: &[u8]) -> Option<Habit> {
    if is_understood(entry) {
        return None;
    }
    let trimmed = entry.trim_ascii();
    if trimmed.len() < entry.len() && is_number_or_formula(trimmed) {
        return Some(Habit::Blank);
    }
    if is_marker_in_capitals(trimmed) {
        return Some(Habit::Capitals);
    }
    if trimmed == b"TRUE".as_slice() || trimmed == b"FALSE".as_slice() {
        return Some(Habit::Truth);
    }
    if looks_unsigned(trimmed) {
        return Some(Habit::Unsigned);
    }
    number_habit(trimmed)
}

/// Returns whether an accepted entry is what it looks like: a number, a formula, a counter, a set, or a text after an
/// apostrophe.
fn is_understood(entry: &[u8]) -> bool {
    is_number_or_formula(entry) || entry.starts_with(b"'")
}

/// Returns whether an entry is a number, begins as a formula, or makes a counter or a set.
fn is_number_or_formula(entry: &[u8]) -> bool {
    entry.starts_with(b"=")
        || entry.starts_with(b"of:=")
        || entry == b"@tally".as_slice()
        || entry == b"@choice".as_slice()
        || is_number(entry)
}

/// Returns whether an entry is a whole number in range.
fn is_number(entry: &[u8]) -> bool {
    match text_of(entry) {
        Some(text) => text.parse::<i64>().is_ok(),
        None => false,
    }
}

/// Returns whether an entry is `@tally` or `@choice`, or begins with `of:=`, in letters of any case.
fn is_marker_in_capitals(entry: &[u8]) -> bool {
    entry.eq_ignore_ascii_case(b"@tally")
        || entry.eq_ignore_ascii_case(b"@choice")
        || entry
            .get(..4)
            .is_some_and(|front| front.eq_ignore_ascii_case(b"of:="))
}

/// Returns whether an entry looks like a formula without its `=`: a function with its parentheses, or a reference in
/// brackets.
fn looks_unsigned(entry: &[u8]) -> bool {
    if entry.starts_with(b"[.") && entry.contains(&b']') {
        return true;
    }
    let letters = entry
        .iter()
        .take_while(|byte| byte.is_ascii_alphabetic())
        .count();
    let (name, rest) = entry.split_at(letters);
    if !rest.starts_with(b"(") || !rest.ends_with(b")") {
        return false;
    }
    for function in FUNCTIONS {
        if name == function.name().as_bytes() {
            return true;
        }
    }
    false
}

/// Returns the text without the first of `fronts` that it begins with, or `None` if it begins with none of them.
fn without_front<'a>(text: &'a [u8], fronts: &[&str]) -> Option<&'a [u8]> {
    for front in fronts {
        if let Some(rest) = text.strip_prefix(front.as_bytes()) {
            return Some(rest);
        }
    }
    None
}

/// Returns the text without the first of `ends` that it ends with, or `None` if it ends with none of them.
fn without_end<'a>(text: &'a [u8], ends: &[&str]) -> Option<&'a [u8]> {
    for end in ends {
        if let Some(rest) = text.strip_suffix(end.as_bytes()) {
            return Some(rest);
        }
    }
    None
}

/// Returns what keeps a text from being a number, if it looks like one.
fn number_habit(text: &[u8]) -> Option<Habit> {
    if let Some(rest) = without_front(text, &DASHES) {
        return looks_numeric(rest).map(|_| Habit::Dash);
    }
    let unsigned = without_front(text, &["-", "+"]).unwrap_or(text);
    if let Some(rest) = without_front(unsigned, &CURRENCIES) {
        let rest = rest.trim_ascii();
        let rest = without_front(rest, &["-"]).unwrap_or(rest);
        return looks_numeric(rest).map(|_| Habit::Currency);
    }
    if let Some(rest) = without_end(unsigned, &CURRENCIES) {
        return looks_numeric(rest.trim_ascii()).map(|_| Habit::Currency);
    }
    if let Some(rest) = without_end(unsigned, &["%"]) {
        return looks_numeric(rest.trim_ascii()).map(|_| Habit::Percent);
    }
    looks_numeric(unsigned)
}

/// Returns what keeps a text without a sign from being a number, if it looks like one: digits with one point, with
/// commas or with an exponent. Digits alone are taken for a number that is too large.
fn looks_numeric(text: &[u8]) -> Option<Habit> {
    let mut digits = 0;
    let mut points = 0;
    let mut commas = 0;
    let mut exponents = 0;
    for byte in text {
        match *byte {
            b'0'..=b'9' => digits = 1,
            b'.' if points == 0 && exponents == 0 => points = 1,
            b',' if exponents == 0 => commas = 1,
            b'e' | b'E' if digits == 1 && exponents == 0 => exponents = 1,
            b'+' | b'-' if exponents == 1 => exponents = 2,
            _ => return None,
        }
    }
    if digits == 0 {
        return None;
    }
    Some(if exponents > 0 {
        Habit::Exponent
    } else if commas > 0 {
        Habit::Comma
    } else if points > 0 {
        Habit::Point
    } else {
        Habit::Large
    })
}
