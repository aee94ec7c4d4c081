//! Entries: what people type into a cell.

ghost use Rattle.std.specs.Prelude.{◌≡◌, ◌^◌, ◌<◌, ◌≤◌, MatchBool, length, neg_ℤ, pos};
ghost use Rattle.std.specs.Option.{SomeIff};
ghost use Rattle.std.specs.Str.Parse.{starts_with_minus, without_leading_sign};
ghost use Rattle.ps_value.specs.Label.{is_label};
ghost use Rattle.ps_formula.specs.declared.formula.TheConstants.{LONGEST_ENTRY};
ghost use Rattle.ps_content.specs.Entry.{begins_formula, kind_of, number_of, word_of, Reads, ReadsFormula};
ghost use Rattle.ps_content.specs.Entry.{ReadsText};

use crate::content::Content;
use crate::shared::SharedFormula;
use ps_formula::{Formula, LONGEST_ENTRY};
use ps_grid::{Refusal, read_digits};
use ps_value::{Label, SharedLabel};
use std::alloc::Global;

/// Returns the content that the entry `bytes` stands for. The first case that fits the entry decides:
///
/// - longer than 512 bytes: fails with `TooLong`;
/// - empty: `Blank`;
/// - digits, perhaps after `+` or `-`, of a number that fits into an `i64`: the number;
/// - beginning with `=` or `of:=`: the formula that the entry spells. Fails with `Formula` if the entry is no formula
///   by the grammar, and with `TooLong` if the formula's canonical text has more than 256 bytes;
/// - `@tally`: `Tally`;
/// - `@choice`: `Choice`;
/// - beginning with an apostrophe: the text after the apostrophe;
/// - anything else: the whole entry as a text.
///
/// Fails with `Text` if a text isn't a `Label`: 1 to 64 bytes of UTF-8 without control characters.
///
/// Only a formula and a text allocate memory, so for any other entry the call can't fail with `Memory`.
///
/// Cost: linear in the bytes. A text takes one allocation. A formula takes one allocation more than `Formula::read`.
pub fn read_entry(alloc: Global, bytes: &[u8]) -> Result<Content, Refusal>
    ensures { Reads (kind_of bytes.now) bytes.now result }
{
    if bytes.len() > LONGEST_ENTRY {
        return Err(Refusal::TooLong);
    }
    if bytes.is_empty() {
        return Ok(Content::Blank);
    }
    if let Some(number) = read_number(bytes) {
        return Ok(Content::Number(number));
    }
    if begins_formula(bytes) {
        return read_formula(alloc, bytes);
    }
    read_word(alloc, bytes)
}

/// The number that the entry spells, if it spells one.
fn read_number(bytes: &[u8]) -> Option<i64>
    ensures { result ≡ number_of bytes.now }
{
    let (is_negative, digits) = split_sign(bytes);
    let magnitude = read_digits(digits)?;
    signed(is_negative, magnitude)
}

/// Whether the bytes begin with a minus, and the bytes without a leading sign.
#[inline(always)]
fn split_sign(bytes: &[u8]) -> (bool, &[u8])
    ensures sign { result.0 ≡ starts_with_minus bytes.now }
    ensures digits { result.1.now ≡ without_leading_sign bytes.now }
{
    match bytes {
        [b'-', digits @ ..] => (true, digits),
        [b'+', digits @ ..] => (false, digits),
        _ => (false, bytes),
    }
}

/// The number with this sign and magnitude, if it fits into an `i64`.
#[inline(always)]
fn signed(is_negative: bool, magnitude: u64) -> Option<i64>
    ensures { MatchBool is_negative (SomeIff result (magnitude ≤ 2 ^ 63) (neg_ℤ (pos magnitude)))
        (SomeIff result (magnitude < 2 ^ 63) (pos magnitude)) }
{
    if is_negative {
        0i64.checked_sub_unsigned(magnitude)
    } else {
        i64::try_from(magnitude).ok()
    }
}

/// Whether the bytes begin as a formula does.
fn begins_formula(bytes: &[u8]) -> bool
    ensures { result ≡ begins_formula bytes.now }
{
    bytes.starts_with(b"=") || bytes.starts_with(b"of:=")
}

/// Parses the entry as a formula.
fn read_formula(alloc: Global, bytes: &[u8]) -> Result<Content, Refusal>
    requires { length bytes.now ≤ LONGEST_ENTRY }
    ensures { ReadsFormula bytes.now result }
{
    let formula = Formula::read(alloc, bytes)?;
    let shared = SharedFormula::new(alloc, formula)?;
    Ok(Content::Formula(shared))
}

/// The content of an entry that is neither empty nor a number nor a formula: a mark or a text.
fn read_word(alloc: Global, bytes: &[u8]) -> Result<Content, Refusal>
    ensures { Reads (word_of bytes.now) bytes.now result }
{
    if bytes == b"@tally".as_slice() {
        return Ok(Content::Tally);
    }
    if bytes == b"@choice".as_slice() {
        return Ok(Content::Choice);
    }
    if bytes.starts_with(b"'") {
        return read_text(alloc, &bytes[1..]);
    }
    read_text(alloc, bytes)
}

/// The text of these bytes; fails with `Text` unless they are a label.
fn read_text(alloc: Global, bytes: &[u8]) -> Result<Content, Refusal>
    ensures { ReadsText (is_label bytes.now) bytes.now result }
{
    let Some(label) = Label::new(bytes) else {
        return Err(Refusal::Text);
    };
    let shared = SharedLabel::new(alloc, label)?;
    Ok(Content::Text(shared))
}
