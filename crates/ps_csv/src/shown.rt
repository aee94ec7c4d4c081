//! The export of shown values.

ghost use Rattle.std.specs.Prelude.{◌≡◌, IfOk, IfErr};
ghost use Rattle.ps_value.specs.Shown.{shown_text};
ghost use Rattle.ps_csv.specs.Exports.{WritesOut, exported};

use crate::rows::{CellText, export_rows, rows_text};
use ps_device::{MemorySink, Sink};
use ps_eval::Look;
use ps_grid::{Cell, Rect, Refusal};
use ps_value::write_shown;
use std::alloc::Global;
use std::sync::ledger::Ledger;

/// Writes the shown values of a rectangle as a CSV table.
///
/// Each row is a record, each cell a field, and LF ends each record.
///
/// # Errors
///
/// - `Memory` if allocation fails; nothing was written then.
/// - `Device` if the sink fails; a beginning of the text, perhaps none of it, was written then.
///
/// Cost: linear in the cells of the rectangle and the bytes of the text, which is built in memory before it is written.
pub fn export<G: Look, K: Sink>(
    alloc: Global,
    look: &G,
    rect: Rect,
    sink: &mut K,
) -> Result<(), Refusal>
    ensures { WritesOut K.contents K.failures (exported (G.value_at look.now) rect) sink.old sink.new result }
{
    export_rows(alloc, &ShownTexts { look }, rect, sink)
}

/// Returns the text that [`export`] writes, for a caller that needs the whole text before it writes anything.
///
/// Fails only when out of memory.
///
/// Cost: linear in the cells of the rectangle and the bytes of the text.
pub fn exported_text<G: Look>(alloc: Global, look: &G, rect: Rect) -> Result<Vec<u8>, Refusal>
    ensures text { IfOk result (λ t. t.items ≡ exported (G.value_at look.now) rect) }
    ensures memory { IfErr result (λ e. e ≡ Refusal.Memory) }
{
    rows_text(alloc, &ShownTexts { look }, rect)
}

/// Gives each cell what it shows as the text of its field.
#[derive(Drop)]
struct ShownTexts<'a, G: Look> {
    look: &'a G,
}

impl<G: Look> CellText for ShownTexts<'_, G> {
    ghost text_at = { λ s c. shown_text (G.value_at s.look.now c) };

    fn put<L: Ledger>(&self, cell: Cell, text: &mut MemorySink<L>) -> Result<(), Refusal> {
        match write_shown(self.look.at(cell), text) {
            Ok(()) => Ok(()),
            // (a sink that writes to memory fails only when out of memory)
            Err(Refusal::Device) => Err(Refusal::Memory),
            Err(_) => unreachable!(),
        }
    }
}
