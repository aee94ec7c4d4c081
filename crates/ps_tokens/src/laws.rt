//! Laws of the spelling of tokens. Each function does nothing: its contract is the law.

ghost use Rattle.std.specs.Prelude.{◌≡◌, ℕ, List};
ghost use Rattle.ps_tokens.specs.Apart.{AreApart};
ghost use Rattle.ps_tokens.specs.Text.{Spells, tokens_text};
ghost use Rattle.ps_tokens.specs.declared.token.Token.{Token};

/// States that a text spells at most one list of tokens in which no two neighbours could be read as one token.
///
/// Two such neighbours are the numerals `1` and `2`, which could be read as `12`.
#[tactic(auto, using(crate::proofs::OneSpelling::one_spelled))]
pub fn one_spelling()
    ensures { (text : List ℕ) (ts us : List Token)
        → Spells text ts → AreApart ts → Spells text us → AreApart us → ts ≡ us }
{}

/// States that the canonical text of a list of tokens spells this list, if any text spells this list.
#[tactic(auto, using(crate::proofs::CanonicalSpelling::text_spells))]
pub fn canonical_spelling()
    ensures { (text : List ℕ) (ts : List Token) → Spells text ts → Spells (tokens_text ts) ts }
{}
