//! Reads the tokens of a text.

ghost use Rattle.std.specs.Prelude.{◌≡◌, IfOk, IfErr, MatchResult, List, ◌⊎◌};
ghost use Rattle.ps_grid.specs.declared.refusal.Refusal.TheVariants.{Formula, Memory};
ghost use Rattle.ps_tokens.specs.Apart.{AreApart};
ghost use Rattle.ps_tokens.specs.Text.{Spells, is_blank};
ghost use Rattle.ps_tokens.specs.declared.token.Token.{Token};

use crate::front::{byte_at, from, token};
use crate::token::Token;
use ps_grid::Refusal;
use std::alloc::Global;

/// Returns whether the byte is a blank, which may stand between tokens.
fn is_blank(byte: u8) -> bool
    ensures { result ≡ is_blank byte }
{
    byte == b' ' || byte == b'\t' || byte == b'\n' || byte == b'\r'
}

/// Returns a list of tokens that the text spells. Blanks, tabs and line ends may stand around each token.
///
/// The text is read from the left, the longest token first, so `<=` is one operator and `12` one numeral. If the text
/// spells a list in which no two neighbours could be read as one token, the result is that list.
///
/// # Errors
///
/// - `Formula`: no token can be read somewhere in the text, such as at an unknown name or a numeral of 2^63 or more.
/// - `Memory`: out of memory.
///
/// Cost: linear in the bytes, one allocation.
pub fn tokens(alloc: Global, text: &[u8]) -> Result<Vec<Token>, Refusal>
    ensures spelled { IfOk result (λ found. Spells text.now found.items) }
    ensures only { (ts : List Token) → Spells text.now ts → AreApart ts
        → MatchResult result (λ found. found.items ≡ ts) (λ e. e ≡ Memory) }
    ensures formula { result ≡ Err Formula → (ts : List Token) → Spells text.now ts → AreApart ts → ⊥ }
    ensures refused { IfErr result (λ e. (e ≡ Formula) ⊎ (e ≡ Memory)) }
{
    let mut found = Vec::with_capacity(alloc, text.len())?;
    let mut rest = text;
    'tokens: while !rest.is_empty() {
        if is_blank(byte_at(rest, 0)) {
            rest = from(rest, 1);
        } else {
            let Some((token, others)) = token(rest) else {
                return Err(Refusal::Formula);
            };
            found.push(token)?;
            rest = others;
        }
    }
    Ok(found)
}
