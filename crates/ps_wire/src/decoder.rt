//! Reads deltas from lines: by a guess that serde_json confirms, or else from the value that serde_json reads.

ghost use Rattle.std.specs.Prelude.{◌≡◌, ◌⊎◌, ◌<◌, ◌≤◌, length, Some, None, IsUtf8, IfOk, IfErr, MatchResult};
ghost use Rattle.serde_json.specs.Read.{read as read_text};
ghost use Rattle.serde_json.specs.View.{view};
ghost use Rattle.ps_grid.specs.declared.refusal.Refusal.TheVariants.{Memory};
ghost use Rattle.ps_delta.specs.Deltas.{Entries};
ghost use Rattle.ps_wire.specs.Inside.{RefusedAs};
ghost use Rattle.ps_wire.specs.Line.{IsLine};
ghost use Rattle.ps_wire.specs.Value.{StandsFor};

use crate::DELTA_LINE_LIMIT;
use crate::cells::read_cells;
use crate::compact::read_compact;
use crate::parts::items;
use ps_delta::Delta;
use ps_grid::Refusal;
use serde_json::Value;
use std::alloc::Global;

/// A reader of delta lines, one after another. It stores nothing between two lines.
#[derive(Drop)]
pub struct Decoder {}

impl Decoder {
    /// Creates a decoder. It allocates nothing.
    pub fn new(_alloc: Global) -> Decoder {
        Decoder {}
    }

    /// Returns the delta that the line `bytes` stands for. The line is JSON in any spelling, with any blanks and
    /// escapes, in at most `DELTA_LINE_LIMIT` bytes of UTF-8. After a refusal the decoder reads the next line as usual.
    ///
    /// # Errors
    ///
    /// - `Delta`: the bytes stand for no delta, or are too long for a line.
    /// - `Memory`: out of memory.
    ///
    /// Cost: O(b) in the b bytes of the line. A line in the form that `encode` writes takes memory for the delta and
    /// the delta's text. Any other line takes memory for the JSON value and the delta.
    pub fn decode(&mut self, alloc: Global, bytes: &[u8]) -> Result<Delta, Refusal>
        ensures line { IfOk result (λ d. IsLine bytes.now d) }
        ensures read { (d : Entries) → IsLine bytes.now d
            → MatchResult result (λ found. found ≡ d) (λ e. e ≡ Memory) }
        ensures refused { IfErr result (λ e. (e ≡ Refusal.Delta) ⊎ (e ≡ Memory)) }
        // a line that is too long takes no memory
        ensures too_long { DELTA_LINE_LIMIT < length bytes.now → result ≡ Err Refusal.Delta }
    {
        if bytes.len() > DELTA_LINE_LIMIT {
            return Err(Refusal::Delta);
        }
        match read_compact(alloc, bytes)? {
            Some(delta) => Ok(delta),
            None => decode_value(alloc, bytes),
        }
    }
}

/// Returns the delta of a line that isn't too long, from the value that serde_json reads.
#[inline(never)]
fn decode_value(alloc: Global, bytes: &[u8]) -> Result<Delta, Refusal>
    requires { length bytes.now ≤ DELTA_LINE_LIMIT }
    ensures line { IfOk result (λ d. IsLine bytes.now d) }
    ensures read { (d : Entries) → IsLine bytes.now d → MatchResult result (λ found. found ≡ d) (λ e. e ≡ Memory) }
    ensures refused { IfErr result (λ e. (e ≡ Refusal.Delta) ⊎ (e ≡ Memory)) }
{
    let value = read_value(alloc, bytes)?;
    read_delta(alloc, &value)
}

/// Returns the delta that the value stands for.
#[tactic(auto, using(crate::proofs::LineLemmas::stands_for))]
fn read_delta(alloc: Global, value: &Value) -> Result<Delta, Refusal>
    ensures found { IfOk result (λ d. StandsFor (view value.now) d) }
    ensures refused { IfErr result (λ r. RefusedAs r ((d : Entries) → StandsFor (view value.now) d → ⊥)) }
{
    let cells = read_cells(alloc, items(value)?)?;
    let made = Delta::new(alloc, cells)?;
    made.ok_or(Refusal::Delta)
}

/// Returns the JSON value that the bytes spell.
fn read_value(alloc: Global, bytes: &[u8]) -> Result<Value, Refusal>
    ensures found { IfOk result (λ v. IsUtf8 bytes.now × (read_text bytes.now ≡ Some (view v))) }
    ensures refused { IfErr result (λ r. RefusedAs r (IsUtf8 bytes.now → read_text bytes.now ≡ None)) }
{
    match Value::from_slice(alloc, bytes) {
        Ok(value) => Ok(value),
        Err(fault) => {
            if fault.is_memory() {
                Err(Refusal::Memory)
            } else {
                Err(Refusal::Delta)
            }
        }
    }
}

/// Returns the delta of a line, as [`Decoder::decode`] does.
///
/// This function is for callers with a single line. A session reads its lines by one [`Decoder`].
///
/// # Errors
///
/// Those of [`Decoder::decode`].
///
/// Cost: that of [`Decoder::decode`].
pub fn decode(alloc: Global, bytes: &[u8]) -> Result<Delta, Refusal>
    ensures line { IfOk result (λ d. IsLine bytes.now d) }
    ensures read { (d : Entries) → IsLine bytes.now d → MatchResult result (λ found. found ≡ d) (λ e. e ≡ Memory) }
    ensures refused { IfErr result (λ e. (e ≡ Refusal.Delta) ⊎ (e ≡ Memory)) }
    // a line that is too long takes no memory
    ensures too_long { DELTA_LINE_LIMIT < length bytes.now → result ≡ Err Refusal.Delta }
{
    Decoder::new(alloc).decode(alloc, bytes)
}
