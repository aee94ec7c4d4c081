//! The fields of a record, read as entries of cells.

ghost use Rattle.std.specs.Prelude.{◌≡◌, ◌⊎◌, ℕ, ◌+◌, ◌*◌, ◌<◌, ◌++◌, List, IfOk, IfErr, OnOk};
ghost use Rattle.std.specs.Option.{SomeIff};
ghost use Rattle.csv.specs.Records.{fields_of};
ghost use Rattle.ps_grid.specs.declared.size.TheConstants.{COLUMNS, ROWS};
ghost use Rattle.ps_delta.specs.Deltas.{joined_history};
ghost use Rattle.ps_csv.specs.Faults.{EntryFault, RecordFault};
ghost use Rattle.ps_csv.specs.Records.{Cells, FieldSays, FieldsSay, place};

use crate::watcher::TableWatcher;
use csv::ByteRecord;
use ps_content::{Content, read_entry};
use ps_grid::{COLUMNS, Cell, Refusal};
use ps_sheet::Sheet;
use std::alloc::Global;

/// The contents that the fields of record `n`, counted from 0, give the cells of row `n`, from left to right.
pub(crate) fn read_record<W: TableWatcher>(
    alloc: Global,
    sheet: &Sheet,
    n: usize,
    fields: &ByteRecord,
    watcher: &mut W,
) -> Result<Vec<(Cell, Content)>, Refusal>
    requires { n < ROWS }
    ensures said { IfOk result (λ cells.
        FieldsSay (joined_history sheet.now.history) n 0 (fields_of fields.now) cells.items) }
    ensures fault { IfErr result (λ e.
        (e ≡ Refusal.Memory) ⊎ RecordFault (joined_history sheet.now.history) n (fields_of fields.now) e) }
{
    let mut cells = Vec::with_capacity(alloc, fields.len().min(COLUMNS))?;
    for j in 0..fields.len() {
        let Some(cell) = cell_of(n, j) else {
            watcher.saw_past(n as u64 + 1);
            return Err(Refusal::Csv);
        };
        let field = fields.get(j).unwrap();
        take_field(alloc, sheet, cell, field, &mut cells, watcher)?;
    }
    Ok(cells)
}

/// Appends `cell` and the content that its field says, if the field isn't empty.
fn take_field<W: TableWatcher>(
    alloc: Global,
    sheet: &Sheet,
    cell: Cell,
    field: &[u8],
    cells: &mut Vec<(Cell, Content)>,
    watcher: &mut W,
) -> Result<(), Refusal>
    ensures said { OnOk result ((here : Cells) × FieldSays (joined_history sheet.now.history) cell field.now here
        × (cells.new.items ≡ cells.old.items ++ here)) }
    ensures fault { IfErr result (λ e.
        (e ≡ Refusal.Memory) ⊎ EntryFault (joined_history sheet.now.history) cell field.now e) }
{
    if field.is_empty() {
        return Ok(());
    }
    let content = match read_entry(alloc, field) {
        Ok(content) => content,
        Err(refusal) => {
            watcher.saw_field(cell, field, Some(refusal));
            return Err(refusal);
        }
    };
    watcher.saw_field(cell, field, None);
    if sheet.is_clock_full(cell) {
        return Err(Refusal::ClockFull);
    }
    cells.push((cell, content))?;
    Ok(())
}

/// The cell of field `j` of record `n`, both counted from 0; `None` past the last column.
fn cell_of(n: usize, j: usize) -> Option<Cell>
    requires { n < ROWS }
    ensures { SomeIff result (j < COLUMNS) (place n j) }
{
    if j >= COLUMNS {
        return None;
    }
    Cell::from_index(n * COLUMNS + j)
}
