//! Finds what is wrong with a refused formula.

use crate::bytes::{first_character, first_filled, is_of_word, last_filled, text_of};
use crate::formula_hint::FormulaHint;
use crate::names::{is_corner, is_meant_as_cell, is_nearly_cell};
use ps_lines::split_part;
use ps_tokens::{FUNCTIONS, Function};

/// Signs of other notations and what to write for them, the longer ones first.
const SIGNS: [(&str, &str); 18] = [
    ("!=", "<>"),
    ("==", "="),
    ("=<", "<="),
    ("=>", ">="),
    ("&&", "AND(a;b)"),
    ("||", "OR(a;b)"),
    ("/", "QUOTIENT(a;b)"),
    ("%", "MOD(a;b) or QUOTIENT(a;100)"),
    ("\u{2212}", "-"),
    ("\u{2013}", "-"),
    ("\u{d7}", "*"),
    ("\u{b7}", "*"),
    ("\u{f7}", "QUOTIENT(a;b)"),
    ("\u{2264}", "<="),
    ("\u{2265}", ">="),
    ("\u{2260}", "<>"),
    ("{", "("),
    ("}", ")"),
];

/// Returns the hint about a refused formula, which begins with `=` or `of:=`.
///
/// The hint is about the leftmost fault that is known, or else about what the whole formula lacks.
pub(crate) fn hint_of_formula(entry: &[u8]) -> FormulaHint<'_> {
    let text = without_sign(entry);
    for start in 0..text.len() {
        let (before, rest) = text.split_at(start);
        if let Some(hint) = hint_at(before, rest) {
            return hint;
        }
    }
    hint_of_whole(text)
}

/// Returns what follows the `=` or `of:=` of a formula.
fn without_sign(entry: &[u8]) -> &[u8] {
    if let Some(text) = entry.strip_prefix(b"of:=") {
        return text;
    }
    entry.strip_prefix(b"=").unwrap_or(entry)
}

/// Returns what is wrong with the word or the sign at the front of `rest`; `before` is the formula up to there. Inside
/// brackets it returns `None`, since the hint about a `[` covers all up to its `]`.
fn hint_at<'a>(before: &'a [u8], rest: &'a [u8]) -> Option<FormulaHint<'a>> {
    if is_bracketed(before) {
        return None;
    }
    let first = *rest.first()?;
    if is_of_word(first) {
        if before
            .last()
            .is_some_and(|byte| is_of_word(*byte) || *byte == b'.')
        {
            return None;
        }
        return word_hint(rest);
    }
    match first {
        b'[' => bracket_hint(before, rest),
        b'.' => point_hint(rest),
        b',' => Some(FormulaHint::Comma),
        b'"' | b'\'' => Some(FormulaHint::Quote),
        b';' | b')' => argument_hint(before, first),
        b']' => Some(FormulaHint::Unopened(']')),
        _ => sign_hint(rest),
    }
}

/// Returns whether the text has a `[` without a `]` after it.
fn is_bracketed(before: &[u8]) -> bool {
    let mut open = false;
    for byte in before {
        match *byte {
            b'[' => open = true,
            b']' => open = false,
            _ => {}
        }
    }
    open
}

/// Returns the word at the front of `rest`, with the points in it, and what follows the word.
fn front_word(rest: &[u8]) -> (&[u8], &[u8]) {
    let count = rest
        .iter()
        .take_while(|byte| is_of_word(**byte) || **byte == b'.')
        .count();
    rest.split_at(count)
}

/// Returns what is wrong with the word at the front of `rest`.
fn word_hint(rest: &[u8]) -> Option<FormulaHint<'_>> {
    let (word, after) = front_word(rest);
    let text = text_of(word)?;
    if word.first()?.is_ascii_digit() {
        return number_hint(word, text);
    }
    if word.contains(&b'.') || first_filled(after) == Some(b'!') {
        return Some(FormulaHint::OtherSheet);
    }
    if let Some(others) = after.strip_prefix(b":") {
        return range_hint(text, word, others);
    }
    name_hint(word, text, first_filled(after) == Some(b'('))
}

/// Returns what is wrong with a word that begins with a digit.
fn number_hint<'a>(word: &'a [u8], text: &'a str) -> Option<FormulaHint<'a>> {
    if word.contains(&b'.') {
        return Some(FormulaHint::Point(text));
    }
    if !word.iter().all(|byte| byte.is_ascii_digit()) {
        return Some(FormulaHint::Letters(text));
    }
    match text.parse::<i64>() {
        Ok(_) => None,
        Err(_) => Some(FormulaHint::Large(text)),
    }
}

/// Returns what is wrong with the point at the front of `rest`.
fn point_hint(rest: &[u8]) -> Option<FormulaHint<'_>> {
    let (word, _) = front_word(rest);
    let text = text_of(word)?;
    let name = word.strip_prefix(b".")?;
    if is_nearly_cell(name) {
        return Some(FormulaHint::Reference(text_of(name)?));
    }
    Some(FormulaHint::Point(text))
}

/// Returns what is wrong with a word outside brackets and a colon after it; `others` is what follows the colon.
fn range_hint<'a>(text: &'a str, word: &'a [u8], others: &'a [u8]) -> Option<FormulaHint<'a>> {
    let (last, _) = front_word(others);
    let last = last.strip_prefix(b".").unwrap_or(last);
    if is_nearly_cell(word) && is_nearly_cell(last) {
        return Some(FormulaHint::BareRange(text, text_of(last)?));
    }
    Some(FormulaHint::Columns)
}

/// Returns the function with this name, in letters of any case.
fn function_of(name: &[u8]) -> Option<Function> {
    for function in FUNCTIONS {
        if name.eq_ignore_ascii_case(function.name().as_bytes()) {
            return Some(function);
        }
    }
    None
}

/// Returns what is wrong with a name outside brackets; `has_arguments` says whether a parenthesis follows it.
fn name_hint<'a>(word: &'a [u8], text: &'a str, has_arguments: bool) -> Option<FormulaHint<'a>> {
    match function_of(word) {
        Some(_) if has_arguments => None,
        Some(Function::True | Function::False) => Some(FormulaHint::Truth(text)),
        Some(_) => Some(FormulaHint::NoArguments(text)),
        None if has_arguments => Some(FormulaHint::UnknownFunction(text)),
        None if is_nearly_cell(word) => Some(FormulaHint::BareCell(text)),
        None if is_meant_as_cell(word) => Some(FormulaHint::Outside(text)),
        None => Some(FormulaHint::UnknownFunction(text)),
    }
}

/// Returns what is wrong with the reference or the range whose `[` is at the front of `rest`.
fn bracket_hint<'a>(before: &'a [u8], rest: &'a [u8]) -> Option<FormulaHint<'a>> {
    let (inside, after) = split_part(rest.strip_prefix(b"[")?, b']');
    let Some(after) = after else {
        return Some(FormulaHint::Unclosed('['));
    };
    match split_part(inside, b':') {
        (first, None) => corner_hint(first),
        (first, Some(last)) => corners_hint(first, last).or(alone_hint(before, after)),
    }
}

/// Returns what is wrong with the text for one cell inside brackets.
fn corner_hint(inside: &[u8]) -> Option<FormulaHint<'_>> {
    let name = inside.strip_prefix(b".").unwrap_or(inside);
    let text = text_of(name)?;
    if inside.starts_with(b".") && is_corner(name) {
        return None;
    }
    if is_nearly_cell(name) {
        return Some(FormulaHint::Reference(text));
    }
    if name.contains(&b'.') {
        return Some(FormulaHint::OtherSheet);
    }
    if is_meant_as_cell(name) {
        return Some(FormulaHint::Outside(text));
    }
    Some(FormulaHint::Reference("A1"))
}

/// Returns what is wrong with the two corners in the brackets of a range.
fn corners_hint<'a>(first: &'a [u8], last: &'a [u8]) -> Option<FormulaHint<'a>> {
    match (corner_hint(first), corner_hint(last)) {
        (None, None) => None,
        (Some(FormulaHint::Reference(_)) | None, Some(FormulaHint::Reference(_)) | None) => {
            let first = first.strip_prefix(b".").unwrap_or(first);
            let last = last.strip_prefix(b".").unwrap_or(last);
            if is_nearly_cell(first) && is_nearly_cell(last) {
                return Some(FormulaHint::Range(text_of(first)?, text_of(last)?));
            }
            Some(FormulaHint::Columns)
        }
        (Some(hint), _) | (None, Some(hint)) => Some(hint),
    }
}

/// Returns a hint if a range, between `before` and `after`, isn't an argument of a function that takes ranges.
fn alone_hint<'a>(before: &'a [u8], after: &'a [u8]) -> Option<FormulaHint<'a>> {
    let begins = match last_filled(before) {
        Some(b'(') => takes_ranges(before),
        Some(b';') => true,
        _ => false,
    };
    let ends = match first_filled(after) {
        Some(b')' | b';') | None => true,
        Some(_) => false,
    };
    if begins && ends {
        return None;
    }
    Some(FormulaHint::RangeAlone)
}

/// Returns whether `before` ends with the name of a function that takes ranges, and its `(`.
fn takes_ranges(before: &[u8]) -> bool {
    let call = before.trim_ascii();
    let name = call.strip_suffix(b"(").unwrap_or(call).trim_ascii();
    [b"SUM".as_slice(), b"MIN", b"MAX", b"COUNT"]
        .iter()
        .any(|due| ends_as(name, due))
}

/// Returns whether `text` ends with `end`, in letters of any case.
fn ends_as(text: &[u8], end: &[u8]) -> bool {
    if text.len() < end.len() {
        return false;
    }
    text[text.len() - end.len()..].eq_ignore_ascii_case(end)
}

/// Returns what is wrong with the argument that ends before `sign`, a `;` or a `)`.
fn argument_hint<'a>(before: &'a [u8], sign: u8) -> Option<FormulaHint<'a>> {
    match last_filled(before) {
        Some(b';') => Some(FormulaHint::MissingArgument),
        Some(b'(') if sign == b';' => Some(FormulaHint::MissingArgument),
        Some(b'+' | b'-' | b'*' | b'=' | b'<' | b'>') => Some(FormulaHint::MissingArgument),
        _ => None,
    }
}

/// Returns what is wrong with the sign at the front of `rest`.
fn sign_hint(rest: &[u8]) -> Option<FormulaHint<'_>> {
    for (sign, due) in SIGNS {
        if rest.starts_with(sign.as_bytes()) {
            return Some(FormulaHint::Sign(sign, due));
        }
    }
    match *rest.first()? {
        b'+' | b'-' | b'*' | b'=' | b'<' | b'>' | b'(' => None,
        b' ' | b'\t' | b'\n' | b'\r' => None,
        _ => Some(FormulaHint::NoSign(first_character(rest)?)),
    }
}

/// Returns what is wrong with a formula that has no fault at any single place.
fn hint_of_whole(text: &[u8]) -> FormulaHint<'_> {
    let opened = text.iter().filter(|byte| **byte == b'(').count();
    let closed = text.iter().filter(|byte| **byte == b')').count();
    if opened > closed {
        return FormulaHint::Unclosed('(');
    }
    if opened < closed {
        return FormulaHint::Unopened(')');
    }
    match last_filled(text) {
        Some(b'+' | b'-' | b'*' | b'=' | b'<' | b'>' | b';') | None => FormulaHint::Unfinished,
        Some(_) => FormulaHint::Notation,
    }
}
