//! Reads the token at the front of a text. A function that reads a token, or a part of a token, also returns the text
//! after what it read.

ghost use Rattle.std.specs.Prelude.{◌≡◌, ◌<◌, ◌≤◌, ◌^◌, drop, length, slice_index, IfSome, pos};
ghost use Rattle.std.specs.Option.{option_map};
ghost use Rattle.std.specs.Str.Parse.{AllDigits};
ghost use Rattle.ps_tokens.specs.Inside.Lexing.{after, bracketed_at, capitals_at, corner_at, digits_at, function_of};
ghost use Rattle.ps_tokens.specs.Inside.Lexing.{letters_at, name_at, number_in, numeral_at, operator_of_two, range_at};
ghost use Rattle.ps_tokens.specs.Inside.Lexing.{reference_at, sign_at, token_at};
ghost use Rattle.ps_tokens.specs.Inside.Lexing.{token_of_one, unmarked};

use crate::token::{FUNCTIONS, Function, Operator, Token};
use ps_grid::{Cell, Rect};

/// Returns the byte at a position; 0 past the end.
pub(crate) fn byte_at(text: &[u8], place: usize) -> u8
    ensures { result ≡ slice_index text.now place }
{
    if place < text.len() { text[place] } else { 0 }
}

/// Returns the text from a position on; an empty text past the end.
pub(crate) fn from(text: &[u8], place: usize) -> &[u8]
    ensures { result.now ≡ drop place text.now }
{
    if place < text.len() {
        &text[place..]
    } else {
        &text[text.len()..]
    }
}

/// Returns the text after its first byte if the first byte is `byte`; otherwise `None`.
#[tactic(auto, unfolding(crate::specs::Inside::Lexing::after))]
fn after(byte: u8, text: &[u8]) -> Option<&[u8]>
    ensures { option_map (λ rest. rest.now) result ≡ after byte text.now }
{
    if byte_at(text, 0) == byte {
        Some(from(text, 1))
    } else {
        None
    }
}

/// Returns the text without the `$` at its front, or the whole text if it has none there.
#[tactic(auto, unfolding(crate::specs::Inside::Lexing::unmarked))]
fn unmarked(text: &[u8]) -> &[u8]
    ensures { result.now ≡ unmarked text.now }
{
    if byte_at(text, 0) == b'$' {
        from(text, 1)
    } else {
        text
    }
}

/// Returns how many digits stand at the front.
fn digits_at(text: &[u8]) -> usize
    ensures count { result ≡ digits_at text.now }
    ensures in_text { result ≤ length text.now }
{
    text.iter().take_while(|byte| byte.is_ascii_digit()).count()
}

/// Returns how many capital letters stand at the front, at most two: the name of a column has no more.
#[inline(always)]
fn capitals_at(text: &[u8]) -> usize
    ensures count { result ≡ capitals_at text.now }
    ensures in_text { result ≤ length text.now }
{
    match text {
        [first, second, ..] if first.is_ascii_uppercase() && second.is_ascii_uppercase() => 2,
        [first, ..] if first.is_ascii_uppercase() => 1,
        _ => 0,
    }
}

/// Returns how many letters stand at the front.
fn letters_at(text: &[u8]) -> usize
    ensures count { result ≡ letters_at text.now }
    ensures in_text { result ≤ length text.now }
{
    text.iter()
        .take_while(|byte| byte.is_ascii_alphabetic())
        .count()
}

/// Returns the number that the digits stand for; `None` if it is above 2^63 - 1.
#[tactic(auto, unfolding(crate::specs::Inside::Lexing::number_in))]
fn number(digits: &[u8]) -> Option<u64>
    requires { AllDigits 10 digits.now }
    ensures value { result ≡ number_in digits.now }
    ensures small { IfSome result (λ n. n < 2 ^ 63) }
{
    const LARGEST: u64 = i64::MAX as u64;
    let mut value: u64 = 0;
    for digit in digits {
        if value > LARGEST / 10 {
            return None;
        }
        value = value * 10 + u64::from(*digit - b'0');
        if value > LARGEST {
            return None;
        }
    }
    Some(value)
}

/// Reads a corner, a cell's name with or without `$` before its column and its row, at the front.
#[tactic(auto, unfolding(crate::specs::Inside::Lexing::corner_at))]
fn corner(text: &[u8]) -> Option<(Cell, &[u8])>
    ensures { option_map (λ found. (found.0, found.1.now)) result ≡ corner_at text.now }
{
    let text = unmarked(text);
    let (letters, text) = text.split_at(capitals_at(text));
    let text = unmarked(text);
    let (digits, rest) = text.split_at(digits_at(text));
    let cell = Cell::named(letters, digits)?;
    Some((cell, rest))
}

/// Returns the reference to `corner`, read before `text`, if a `]` closes it.
#[tactic(auto, unfolding(crate::specs::Inside::Lexing::reference_at))]
fn reference(corner: Cell, text: &[u8]) -> Option<(Token, &[u8])>
    ensures { option_map (λ found. (found.0, found.1.now)) result ≡ reference_at corner text.now }
{
    let rest = after(b']', text)?;
    Some((Token::Reference(corner), rest))
}

/// Reads the rest of a range whose first corner was read before `text`: `:.`, the second corner and `]`.
#[tactic(auto, unfolding(crate::specs::Inside::Lexing::range_at))]
fn range(first: Cell, text: &[u8]) -> Option<(Token, &[u8])>
    ensures { option_map (λ found. (found.0, found.1.now)) result ≡ range_at first text.now }
{
    let text = after(b':', text)?;
    let text = after(b'.', text)?;
    let Some((second, text)) = corner(text) else {
        return None;
    };
    let rest = after(b']', text)?;
    Some((Token::Range(Rect::new(first, second)), rest))
}

/// Reads the rest of a reference or a range whose `[` was read before `text`.
#[tactic(auto, unfolding(crate::specs::Inside::Lexing::bracketed_at))]
fn bracketed(text: &[u8]) -> Option<(Token, &[u8])>
    ensures { option_map (λ found. (found.0, found.1.now)) result ≡ bracketed_at text.now }
{
    let text = after(b'.', text)?;
    let Some((first, text)) = corner(text) else {
        return None;
    };
    if let Some(found) = reference(first, text) {
        return Some(found);
    }
    range(first, text)
}

/// Reads the numeral at the front; `None` if its number is too large.
#[tactic(auto, unfolding(crate::specs::Inside::Lexing::numeral_at))]
fn numeral(text: &[u8]) -> Option<(Token, &[u8])>
    ensures { option_map (λ found. (found.0, found.1.now)) result ≡ numeral_at text.now }
{
    let (digits, rest) = text.split_at(digits_at(text));
    let value = number(digits)?;
    Some((Token::Numeral(value as i64), rest))
}

/// Returns the function that has this name, in any mix of cases.
#[tactic(auto, unfolding(crate::specs::Inside::Lexing::function_of))]
fn function(name: &[u8]) -> Option<Function>
    ensures { result ≡ function_of name.now }
{
    for function in FUNCTIONS {
        if name.eq_ignore_ascii_case(function.name().as_bytes()) {
            return Some(function);
        }
    }
    None
}

/// Reads the name of a function at the front.
#[tactic(auto, unfolding(crate::specs::Inside::Lexing::name_at))]
fn name(text: &[u8]) -> Option<(Token, &[u8])>
    ensures { option_map (λ found. (found.0, found.1.now)) result ≡ name_at text.now }
{
    let (letters, rest) = text.split_at(letters_at(text));
    let function = function(letters)?;
    Some((Token::Name(function), rest))
}

/// Returns the operator that is written with these two bytes.
#[tactic(auto, unfolding(crate::specs::Inside::Lexing::operator_of_two))]
fn operator_of_two(first: u8, second: u8) -> Option<Operator>
    ensures { result ≡ operator_of_two first second }
{
    match (first, second) {
        (b'<', b'>') => Some(Operator::NotEqual),
        (b'<', b'=') => Some(Operator::LessOrEqual),
        (b'>', b'=') => Some(Operator::GreaterOrEqual),
        _ => None,
    }
}

/// Returns the operator, parenthesis or separator that is written with this byte.
#[tactic(auto, unfolding(crate::specs::Inside::Lexing::token_of_one))]
fn token_of_one(byte: u8) -> Option<Token>
    ensures { result ≡ token_of_one byte }
{
    match byte {
        b'+' => Some(Token::Symbol(Operator::Plus)),
        b'-' => Some(Token::Symbol(Operator::Minus)),
        b'*' => Some(Token::Symbol(Operator::Times)),
        b'=' => Some(Token::Symbol(Operator::Equal)),
        b'<' => Some(Token::Symbol(Operator::Less)),
        b'>' => Some(Token::Symbol(Operator::Greater)),
        b'(' => Some(Token::Open),
        b')' => Some(Token::Close),
        b';' => Some(Token::Separator),
        _ => None,
    }
}

/// Reads the operator, parenthesis or separator at the front, and prefers an operator of two bytes.
#[tactic(auto, unfolding(crate::specs::Inside::Lexing::sign_at))]
fn sign(text: &[u8]) -> Option<(Token, &[u8])>
    ensures { option_map (λ found. (found.0, found.1.now)) result ≡ sign_at text.now }
{
    if let Some(operator) = operator_of_two(byte_at(text, 0), byte_at(text, 1)) {
        return Some((Token::Symbol(operator), from(text, 2)));
    }
    let token = token_of_one(byte_at(text, 0))?;
    Some((token, from(text, 1)))
}

/// Returns the longest token at the front of the text, and the text after it; `None` if no token stands there.
#[tactic(auto, unfolding(crate::specs::Inside::Lexing::token_at))]
pub(crate) fn token(text: &[u8]) -> Option<(Token, &[u8])>
    ensures { option_map (λ found. (found.0, found.1.now)) result ≡ token_at text.now }
{
    let first = byte_at(text, 0);
    if first.is_ascii_digit() {
        numeral(text)
    } else if first.is_ascii_alphabetic() {
        name(text)
    } else if first == b'[' {
        bracketed(from(text, 1))
    } else {
        sign(text)
    }
}
