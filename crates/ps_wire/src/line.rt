//! Writes deltas as lines, by serde_json.

ghost use Rattle.std.specs.Prelude.{◌≡◌, ◌⊎◌, ◌<◌, ◌++◌, length, OnOk, OnErr, IfOk, IfErr};
ghost use Rattle.ps_grid.specs.declared.refusal.Refusal.TheVariants.{Memory};
ghost use Rattle.ps_wire.specs.Line.{IsLine, delta_text};
ghost use Rattle.ps_wire.specs.Value.{IsLawful};

use crate::DELTA_LINE_LIMIT;
use crate::room::fits_line;
use crate::write::Line;
use ps_delta::Delta;
use ps_grid::Refusal;
use std::alloc::Global;

/// Appends the compact text of the delta to `line`: its JSON value without blanks, and without a line feed at the end.
/// After a refusal `line` is as before.
///
/// # Errors
///
/// - `TooLong`: the text has more than `DELTA_LINE_LIMIT` bytes.
/// - `Memory`: out of memory.
///
/// Cost: O(t) in the t bytes of the text. The call takes memory for the text and, if `line` isn't empty, once more to
/// append the text. A text that is too long costs at most O(`DELTA_LINE_LIMIT`), and no memory.
#[tactic(auto, using(crate::proofs::SentLemmas::text_is_line))]
pub fn encode(alloc: Global, delta: &Delta, line: &mut Vec<u8>) -> Result<(), Refusal>
    ensures appended { OnOk result (line.new.items ≡ line.old.items ++ delta_text delta.now) }
    ensures is_line { OnOk result (IsLine (delta_text delta.now) delta.now) }
    ensures kept { OnErr result (line.new.items ≡ line.old.items) }
    ensures too_long { result ≡ Err Refusal.TooLong → DELTA_LINE_LIMIT < length (delta_text delta.now) }
    // a text that is too long takes no memory
    ensures longer { DELTA_LINE_LIMIT < length (delta_text delta.now) → result ≡ Err Refusal.TooLong }
    ensures refused { IfErr result (λ e. (e ≡ Refusal.TooLong) ⊎ (e ≡ Memory)) }
{
    if !fits_line(delta) {
        return Err(Refusal::TooLong);
    }
    let text = compact_text(alloc, delta)?;
    if line.is_empty() {
        *line = text;
        return Ok(());
    }
    line.extend_from_slice(&text)?;
    Ok(())
}

/// Returns the text that serde_json writes for the delta.
///
/// It fails only when out of memory. What else serde_json refuses, no delta has: a map with a key that is no text, or a
/// number that JSON can't write.
pub(crate) fn compact_text(alloc: Global, delta: &Delta) -> Result<Vec<u8>, Refusal>
    ensures text { IfOk result (λ text. text.items ≡ delta_text delta.now) }
    ensures lawful { OnOk result (IsLawful delta.now) }
    ensures memory { IfErr result (λ e. e ≡ Memory) }
{
    match serde_json::to_vec(alloc, &Line { delta }) {
        Ok(text) => Ok(text),
        Err(_) => Err(Refusal::Memory),
    }
}
