//! The parts that a formula stores beside its tree, found from its tokens.

ghost use Rattle.std.specs.Prelude.{◌≡◌, ◌≤◌, ◌∷◌, [], length, IfOk, IfErr, MatchOption};
ghost use Rattle.std.specs.List.{flat_map};
ghost use Rattle.ps_grid.specs.declared.refusal.Refusal.TheVariants.{Memory};
ghost use Rattle.ps_tokens.specs.Text.{tokens_text};
ghost use Rattle.ps_formula.specs.Inside.Parts.{in_line};
ghost use Rattle.ps_formula.specs.References.{rects_at};

use crate::rects::Rects;
use ps_grid::{Rect, Refusal};
use ps_tokens::{Token, put_token};
use std::alloc::Global;

/// Returns `=` and the canonical text of the tokens. Reserves `room` bytes first, and frees the spare bytes at the end.
pub(crate) fn text(alloc: Global, room: usize, tokens: &[Token]) -> Result<Vec<u8>, Refusal>
    ensures text { IfOk result (λ text. text.items ≡ 61 ∷ tokens_text tokens.now) }
    ensures memory { IfErr result (λ e. e ≡ Memory) }
{
    let mut text = Vec::with_capacity(alloc, room)?;
    text.push(b'=')?;
    'tokens: for token in tokens {
        put_token(&mut text, token)?;
    }
    text.shrink_to_fit();
    Ok(text)
}

/// Returns how many of the tokens are references and ranges.
fn rect_count(tokens: &[Token]) -> usize
    ensures { result ≤ length tokens.now }
{
    tokens
        .iter()
        .filter(|token| matches!(token, Token::Reference(_) | Token::Range(_)))
        .count()
}

/// Returns each reference and range among the tokens as a rectangle, in a new list.
fn many_rects(alloc: Global, tokens: &[Token]) -> Result<Vec<Rect>, Refusal>
    ensures rects { IfOk result (λ rects. rects.items ≡ flat_map rects_at tokens.now) }
    ensures memory { IfErr result (λ e. e ≡ Memory) }
{
    let mut rects = Vec::with_capacity(alloc, rect_count(tokens))?;
    'tokens: for token in tokens {
        match *token {
            Token::Reference(cell) => rects.push(Rect::new(cell, cell))?,
            Token::Range(rect) => rects.push(rect)?,
            _ => {}
        }
    }
    Ok(rects)
}

/// Returns the first reference or range among the tokens as a rectangle, and the tokens after it.
fn first_rect(tokens: &[Token]) -> Option<(Rect, &[Token])>
    ensures { MatchOption result
        (flat_map rects_at tokens.now ≡ [])
        (λ x. flat_map rects_at tokens.now ≡ x.0 ∷ flat_map rects_at x.1.now) }
{
    let mut left = tokens;
    'tokens: while let [first, rest @ ..] = left {
        match *first {
            Token::Reference(cell) => return Some((Rect::new(cell, cell), rest)),
            Token::Range(rect) => return Some((rect, rest)),
            _ => left = rest,
        }
    }
    None
}

/// Returns each reference and range among the tokens as a rectangle, from left to right. Allocates only if there are
/// more than three.
pub(crate) fn rects(alloc: Global, tokens: &[Token]) -> Result<Rects, Refusal>
    ensures rects { IfOk result (λ rects. in_line rects ≡ flat_map rects_at tokens.now) }
    ensures memory { IfErr result (λ e. e ≡ Memory) }
{
    let Some((first, rest)) = first_rect(tokens) else {
        return Ok(Rects::Empty);
    };
    let Some((second, rest)) = first_rect(rest) else {
        return Ok(Rects::One([first]));
    };
    let Some((third, rest)) = first_rect(rest) else {
        return Ok(Rects::Two([first, second]));
    };
    if first_rect(rest).is_some() {
        return Ok(Rects::Many(many_rects(alloc, tokens)?));
    }
    Ok(Rects::Three([first, second, third]))
}
