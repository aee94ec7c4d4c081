//! Writes the line that pushes a delta.
ghost use Rattle.std.specs.Prelude.{◌≡◌, ◌⊎◌, ◌<◌, ◌++◌, Err, IfErr, OnOk, flat_map, length};
ghost use Rattle.ps_grid.specs.declared.refusal.Refusal.TheVariants as refusals;
ghost use Rattle.ps_wire.specs.Line.{IsLine, delta_text};
ghost use Rattle.ps_wire.specs.declared.TheConstants.{DELTA_LINE_LIMIT};
ghost use Rattle.ps_lines.specs.PushLine.{push_line, push_text};

use crate::verb::PUSH;
use ps_delta::Delta;
use ps_grid::Refusal;
use ps_wire::encode;
use std::alloc::Global;

/// Appends the `push` line of a delta to `text`, without a line feed. After an error, `text` may end with a beginning
/// of that line.
///
/// # Errors
///
/// - `TooLong`: the delta's text is longer than a line may be (`DELTA_LINE_LIMIT` of `ps_wire`).
/// - `Memory`: out of memory.
///
/// Cost: that of [`encode`].
pub fn put_push_line(alloc: Global, delta: &Delta, text: &mut Vec<u8>) -> Result<(), Refusal>
    ensures appended { OnOk result (text.new.items ≡ text.old.items ++ push_line delta.now) }
    ensures is_line { OnOk result (IsLine (delta_text delta.now) delta.now) }
    ensures too_long { result ≡ Err refusals.TooLong → DELTA_LINE_LIMIT < length (delta_text delta.now) }
    ensures refused { IfErr result (λ e. (e ≡ refusals.TooLong) ⊎ (e ≡ refusals.Memory)) }
{
    text.extend_from_slice(PUSH.as_bytes())?;
    text.push(b' ')?;
    encode(alloc, delta, text)
}

/// Returns the pieces that, joined, are a `push` line with its line feed. `delta` is the text of a delta, as [`encode`]
/// writes it.
pub fn push_pieces(delta: &[u8]) -> [&[u8]; 4]
    ensures { flat_map (λ piece. piece.now) result ≡ push_text delta.now }
{
    [PUSH.as_bytes(), b" ", delta, b"\n"]
}
