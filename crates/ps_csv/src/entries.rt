//! The export of entries, the canonical texts of what cells hold.

ghost use Rattle.std.specs.Prelude.{◌≡◌, ◌++◌, IfOk, IfErr, OnOk};
ghost use Rattle.ps_csv.specs.Exports.{WritesOut, entry_text, exported_entries};

use crate::holds::Holds;
use crate::rows::{CellText, export_rows, rows_text};
use ps_device::{MemorySink, Sink};
use ps_grid::{Cell, Rect, Refusal};
use std::alloc::Global;
use std::sync::ledger::Ledger;

/// Writes the entries of a rectangle, the canonical texts of what its cells hold, as a CSV table.
///
/// Each row is a record, each cell a field, and LF ends each record.
///
/// # Errors
///
/// - `Memory` if allocation fails; nothing was written then.
/// - `Device` if the sink fails; a beginning of the text, perhaps none of it, was written then.
///
/// Cost: linear in the cells of the rectangle and the bytes of the text, which is built in memory before it is written.
pub fn export_entries<H: Holds, K: Sink>(
    alloc: Global,
    holds: &H,
    rect: Rect,
    sink: &mut K,
) -> Result<(), Refusal>
    ensures { WritesOut K.contents K.failures (exported_entries (H.held_at holds.now) rect) sink.old sink.new result }
{
    export_rows(alloc, &EntryTexts { holds }, rect, sink)
}

/// Returns the text that [`export_entries`] writes, for a caller that needs the whole text before it writes anything.
///
/// Fails only when out of memory.
///
/// Cost: linear in the cells of the rectangle and the bytes of the text.
pub fn entries_text<H: Holds>(alloc: Global, holds: &H, rect: Rect) -> Result<Vec<u8>, Refusal>
    ensures text { IfOk result (λ t. t.items ≡ exported_entries (H.held_at holds.now) rect) }
    ensures memory { IfErr result (λ e. e ≡ Refusal.Memory) }
{
    rows_text(alloc, &EntryTexts { holds }, rect)
}

/// Returns the entry of a cell: the canonical text of what it holds, empty if it holds nothing.
///
/// Fails only when out of memory.
///
/// Cost: the bytes of the text.
pub fn entry_of<H: Holds>(alloc: Global, holds: &H, cell: Cell) -> Result<Vec<u8>, Refusal>
    ensures text { IfOk result (λ t. t.items ≡ entry_text (H.held_at holds.now) cell) }
    ensures memory { IfErr result (λ e. e ≡ Refusal.Memory) }
{
    let mut text = Vec::new(alloc);
    append_entry(holds, cell, &mut text)?;
    Ok(text)
}

/// Appends the entry of a cell to `text`.
fn append_entry<H: Holds>(holds: &H, cell: Cell, text: &mut Vec<u8>) -> Result<(), Refusal>
    ensures appended { OnOk result (text.new.items ≡ text.old.items ++ entry_text (H.held_at holds.now) cell) }
    ensures memory { IfErr result (λ e. e ≡ Refusal.Memory) }
{
    match holds.held(cell) {
        Some(content) => content.canonical(text),
        None => Ok(()),
    }
}

/// Gives each cell its entry as the text of its field.
#[derive(Drop)]
struct EntryTexts<'a, H: Holds> {
    holds: &'a H,
}

impl<H: Holds> CellText for EntryTexts<'_, H> {
    ghost text_at = { λ s. entry_text (H.held_at s.holds.now) };

    fn put<L: Ledger>(&self, cell: Cell, text: &mut MemorySink<L>) -> Result<(), Refusal> {
        append_entry(self.holds, cell, &mut text.bytes)
    }
}
