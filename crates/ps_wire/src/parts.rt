//! Takes a JSON value apart: its items, its whole number, its text. Each function refuses a value of another kind as
//! `Delta`.

ghost use Rattle.std.specs.Prelude.{◌≡◌, ℕ, ◌^◌, ◌<◌, List, [], ◌∷◌, map, IfOk, IfErr};
ghost use Rattle.serde_json.specs.Data.{Data, string};
ghost use Rattle.serde_json.specs.View.{view};
ghost use Rattle.ps_wire.specs.Value.{array_of, whole};
ghost use Rattle.ps_wire.specs.Inside.{RefusedSince};

use ps_grid::Refusal;
use serde_json::Value;

/// Returns the items of an array.
pub(crate) fn items(value: &Value) -> Result<&[Value], Refusal>
    ensures found { IfOk result (λ all. view value.now ≡ array_of (map view all.now)) }
    ensures refused { IfErr result (λ r. RefusedSince r ((all : List Data) → view value.now ≡ array_of all → ⊥)) }
{
    match value.as_array() {
        Some(all) => Ok(all),
        None => Err(Refusal::Delta),
    }
}

/// Returns the items of an array of three.
pub(crate) fn triple(value: &Value) -> Result<(&Value, &Value, &Value), Refusal>
    ensures found { IfOk result (λ t. view value.now
        ≡ array_of (view t.0.now ∷ view t.1.now ∷ view t.2.now ∷ [])) }
    ensures refused { IfErr result (λ r. RefusedSince r
        ((a b c : Data) → view value.now ≡ array_of (a ∷ b ∷ c ∷ []) → ⊥)) }
{
    match items(value)? {
        [first, second, third] => Ok((first, second, third)),
        _ => Err(Refusal::Delta),
    }
}

/// Returns the items of an array of four.
pub(crate) fn quadruple(value: &Value) -> Result<(&Value, &Value, &Value, &Value), Refusal>
    ensures found { IfOk result (λ q. view value.now
        ≡ array_of (view q.0.now ∷ view q.1.now ∷ view q.2.now ∷ view q.3.now ∷ [])) }
    ensures refused { IfErr result (λ r. RefusedSince r
        ((a b c d : Data) → view value.now ≡ array_of (a ∷ b ∷ c ∷ d ∷ []) → ⊥)) }
{
    match items(value)? {
        [first, second, third, fourth] => Ok((first, second, third, fourth)),
        _ => Err(Refusal::Delta),
    }
}

/// Returns the value as a whole number of 64 bits, written without sign, fraction and exponent.
pub(crate) fn whole(value: &Value) -> Result<u64, Refusal>
    ensures found { IfOk result (λ n. view value.now ≡ whole n) }
    ensures refused { IfErr result (λ r. RefusedSince r ((n : ℕ) → view value.now ≡ whole n → ⊥)) }
{
    value.as_u64().ok_or(Refusal::Delta)
}

/// Returns the value as a whole number of 8 bits.
pub(crate) fn short(value: &Value) -> Result<u8, Refusal>
    ensures found { IfOk result (λ n. view value.now ≡ whole n) }
    ensures refused { IfErr result (λ r. RefusedSince r ((n : ℕ) → n < 2 ^ 8 → view value.now ≡ whole n → ⊥)) }
{
    match u8::try_from(whole(value)?) {
        Ok(number) => Ok(number),
        Err(_) => Err(Refusal::Delta),
    }
}

/// Returns the value as a whole number of 16 bits.
pub(crate) fn middling(value: &Value) -> Result<u16, Refusal>
    ensures found { IfOk result (λ n. view value.now ≡ whole n) }
    ensures refused { IfErr result (λ r. RefusedSince r ((n : ℕ) → n < 2 ^ 16 → view value.now ≡ whole n → ⊥)) }
{
    match u16::try_from(whole(value)?) {
        Ok(number) => Ok(number),
        Err(_) => Err(Refusal::Delta),
    }
}

/// Returns the bytes of a JSON string.
pub(crate) fn text(value: &Value) -> Result<&str, Refusal>
    ensures found { IfOk result (λ s. view value.now ≡ string s.now) }
    ensures refused { IfErr result (λ r. RefusedSince r ((s : List ℕ) → view value.now ≡ string s → ⊥)) }
{
    value.as_str().ok_or(Refusal::Delta)
}
