//! Finds what is wrong with a line of a session, or with the entry that it sets.

use crate::bytes::text_of;
use crate::entry::hint_of_entry;
use crate::hint::Hint;
use crate::line_hint::LineHint;
use crate::names::is_nearly_cell;
use ps_grid::Refusal;
use ps_lines::{Verb, split_part, split_word};

/// Returns the hint about a line, or `None` if there is nothing to say. `refusal` is why the line was refused, or
/// `None` if it was carried out.
///
/// A line that was carried out has a hint only if its entry became a text although it looks like a number or a formula.
///
/// Cost: O(n) in the n bytes of the line; O(n * n) for a refused formula, which has at most 512 bytes.
pub fn hint_of_line(line: &[u8], refusal: Option<Refusal>) -> Option<Hint<'_>> {
    match refusal {
        None | Some(Refusal::Text | Refusal::Formula | Refusal::TooLong) => {
            match entry_of(line) {
                Some(entry) => hint_of_entry(entry, refusal),
                None if refusal == Some(Refusal::TooLong) => Some(Hint::Line(LineHint::LongDelta)),
                None => None,
            }
        }
        Some(refusal) => Some(Hint::Line(words_hint(line, refusal))),
    }
}

/// Returns the entry of a `set` line, or `None` for any other line.
fn entry_of(line: &[u8]) -> Option<&[u8]> {
    let (verb, rest) = split_word(line);
    let Some(Verb::Set) = Verb::read(verb) else {
        return None;
    };
    let (_, entry) = split_word(rest?);
    entry
}

/// Returns what is wrong with the words of a line, or with what it asks of the sheet.
fn words_hint(line: &[u8], refusal: Refusal) -> LineHint<'_> {
    let (verb, rest) = split_word(line);
    let rest = rest.unwrap_or(b"");
    let (word, last) = split_word(rest);
    let last = last.unwrap_or(b"");
    match refusal {
        Refusal::Command => command_hint(line, verb),
        Refusal::Cell => cell_hint(verb, word),
        Refusal::Amount => amount_hint(last),
        Refusal::OptionRange => option_hint(last),
        Refusal::Replica if word.is_empty() => LineHint::Spaces,
        Refusal::Replica => LineHint::Replica,
        Refusal::NotTally => LineHint::NoTally(text_of(word).unwrap_or("A1")),
        Refusal::NotChoice => LineHint::NoChoice(text_of(word).unwrap_or("A1")),
        Refusal::TallyFull => LineHint::TallyFull,
        Refusal::ChoiceFull => LineHint::ChoiceFull,
        Refusal::NotChosen => LineHint::NotChosen,
        Refusal::ClockFull => LineHint::ClockFull,
        Refusal::Delta if rest.starts_with(b"delta ") => LineHint::WholeReply,
        Refusal::Delta => LineHint::NoDelta,
        Refusal::Line => LineHint::LongLine,
        Refusal::Version => LineHint::NoVersion,
        Refusal::Memory => LineHint::NoMemory,
        Refusal::Text
        | Refusal::Formula
        | Refusal::TooLong
        | Refusal::Csv
        | Refusal::Device
        | Refusal::Seat => LineHint::Outside,
    }
}

/// Returns what is wrong with the first word of a line, or with the number of its words.
fn command_hint<'a>(line: &'a [u8], word: &'a [u8]) -> LineHint<'a> {
    if line.starts_with(b" ") || line.ends_with(b" ") {
        return LineHint::Spaces;
    }
    if let Some(verb) = Verb::read(word) {
        return form_hint(line, verb);
    }
    let Some(text) = text_of(word) else {
        return LineHint::NoVerb;
    };
    for verb in Verb::all() {
        if word.eq_ignore_ascii_case(verb.name().as_bytes()) {
            return LineHint::InSmall(text);
        }
    }
    if text.is_empty() || word.iter().any(|byte| *byte < 32 || *byte == 127) {
        return LineHint::NoVerb;
    }
    LineHint::UnknownVerb(text)
}

/// Returns what is wrong with a line whose verb is known: two spaces in a row, or the number of its words.
fn form_hint<'a>(line: &'a [u8], verb: Verb) -> LineHint<'a> {
    let mut last = b'x';
    for byte in line {
        if *byte == b' ' && last == b' ' {
            return LineHint::Spaces;
        }
        last = *byte;
    }
    LineHint::Form(verb)
}

/// Returns whether a line of this verb names a rectangle, and not a cell.
fn names_rectangle(verb: Verb) -> bool {
    match verb {
        Verb::Rows | Verb::Entries => true,
        Verb::Get
        | Verb::Set
        | Verb::Add
        | Verb::Sub
        | Verb::Choose
        | Verb::Unchoose
        | Verb::Entry
        | Verb::Push
        | Verb::Merge
        | Verb::Pull
        | Verb::Replica
        | Verb::Wait => false,
    }
}

/// Returns what is wrong with the word for a cell or a rectangle.
fn cell_hint<'a>(verb: &'a [u8], word: &'a [u8]) -> LineHint<'a> {
    if word.is_empty() {
        return LineHint::Spaces;
    }
    if Verb::read(verb).is_some_and(|verb| names_rectangle(verb)) {
        return rectangle_hint(word);
    }
    if word.contains(&b':') {
        return LineHint::NoCell;
    }
    name_hint(word)
}

/// Returns what is wrong with the name of a cell.
fn name_hint(word: &[u8]) -> LineHint<'_> {
    if word.starts_with(b"[") || word.contains(&b'$') {
        return LineHint::PlainCell;
    }
    match text_of(word) {
        Some(text) if is_nearly_cell(word) => LineHint::InCapitals(text),
        _ => LineHint::NoCell,
    }
}

/// Returns what is wrong with a rectangle.
fn rectangle_hint(word: &[u8]) -> LineHint<'_> {
    let (first, last) = split_part(word, b':');
    let Some(last) = last else {
        return LineHint::NoRectangle;
    };
    if is_nearly_cell(first) && is_nearly_cell(last) {
        return name_hint(word_of_case(word, first, last));
    }
    if last.contains(&b':') || word.starts_with(b"[") {
        return LineHint::NoRectangle;
    }
    LineHint::NoCell
}

/// Returns the word that the hint is about: the corner with small letters, or the whole rectangle if it has a `$`.
fn word_of_case<'a>(word: &'a [u8], first: &'a [u8], last: &'a [u8]) -> &'a [u8] {
    if word.contains(&b'$') {
        return word;
    }
    if first.iter().any(|byte| byte.is_ascii_lowercase()) {
        first
    } else {
        last
    }
}

/// Returns what is wrong with an amount.
fn amount_hint(word: &[u8]) -> LineHint<'_> {
    if word.starts_with(b"-") || word.starts_with(b"+") {
        return LineHint::Negative;
    }
    match text_of(word) {
        Some(text) if word.contains(&b'.') => LineHint::Point(text),
        _ => LineHint::Amount,
    }
}

/// Returns what is wrong with an option.
fn option_hint(word: &[u8]) -> LineHint<'_> {
    match text_of(word) {
        Some(text) if word.contains(&b'.') => LineHint::Point(text),
        _ => LineHint::OptionRange,
    }
}
