//! Copies of a rectangle's cells. The rectangle's text is written from such a copy, after the desk's lock or the
//! published copy is released.

ghost use Rattle.std.specs.Prelude.{◌≡◌, IfOk, IfErr};
ghost use Rattle.ps_grid.specs.declared.refusal.Refusal.TheVariants.{Memory};
ghost use Rattle.ps_grid.specs.Rectangle.{place_of};
ghost use Rattle.ps_desk.specs.Copies.{SameIn, holds_in, shows_in};

use ps_content::Content;
use ps_csv::Holds;
use ps_eval::Look;
use ps_grid::{Cell, Rect, Refusal, Twin};
use ps_value::{Operand, Value};
use std::alloc::Global;

/// A copy of what the cells of a rectangle showed at one moment.
#[derive(Drop)]
pub(crate) struct CopiedValues {
    rect: Rect,
    /// one for each cell, row by row
    values: Vec<Value>,
}

impl CopiedValues {
    /// Copies what the cells of a rectangle show. Fails only when out of memory.
    ///
    /// Cost: the cells of the rectangle, and memory for their values.
    pub(crate) fn of<G: Look>(alloc: Global, look: &G, rect: Rect) -> Result<CopiedValues, Refusal>
        ensures same { IfOk result (λ copy. SameIn rect (shows_in copy) (G.value_at look.now)) }
        ensures memory { IfErr result (λ e. e ≡ Memory) }
    {
        let mut values = Vec::with_capacity(alloc, rect.area())?;
        for cell in rect.cells() {
            values.push(look.at(cell))?;
        }
        Ok(CopiedValues { rect, values })
    }
}

impl Look for CopiedValues {
    ghost use Rattle.ps_desk.specs.Copies.{shows_in};

    ghost value_at = { shows_in };

    fn at(&self, cell: Cell) -> Value {
        match self.values.get(place_in(self.rect, cell)) {
            Some(value) => *value,
            None => Value::Empty,
        }
    }

    fn operand(&self, cell: Cell) -> Operand {
        self.at(cell).operand()
    }
}

/// A copy of what the cells of a rectangle held at one moment. It shares texts and formulas with the sheet.
#[derive(Drop)]
pub(crate) struct CopiedContents {
    rect: Rect,
    /// one for each cell, row by row
    contents: Vec<Content>,
}

impl CopiedContents {
    /// Copies what the cells of a rectangle hold. Fails only when out of memory.
    ///
    /// Cost: the cells of the rectangle, and 16 bytes for each.
    pub(crate) fn of<H: Holds>(
        alloc: Global,
        holds: &H,
        rect: Rect,
    ) -> Result<CopiedContents, Refusal>
        ensures same { IfOk result (λ copy. SameIn rect (holds_in copy) (H.held_at holds.now)) }
        ensures memory { IfErr result (λ e. e ≡ Memory) }
    {
        let mut contents = Vec::with_capacity(alloc, rect.area())?;
        for cell in rect.cells() {
            contents.push(held_at(alloc, holds, cell)?)?;
        }
        Ok(CopiedContents { rect, contents })
    }
}

impl Holds for CopiedContents {
    ghost use Rattle.ps_desk.specs.Copies.{holds_in};

    ghost held_at = { holds_in };

    fn held(&self, cell: Cell) -> Option<&Content> {
        self.contents.get(place_in(self.rect, cell))
    }
}

/// Copies what a cell holds: a blank if nothing was assigned to the cell. Fails only when out of memory.
fn held_at<H: Holds>(alloc: Global, holds: &H, cell: Cell) -> Result<Content, Refusal>
    ensures held { IfOk result (λ content. content ≡ H.held_at holds.now cell) }
    ensures memory { IfErr result (λ e. e ≡ Memory) }
{
    match holds.held(cell) {
        Some(content) => content.twin(alloc),
        None => Ok(Content::Blank),
    }
}

/// Returns the number of a cell among the cells of a rectangle, row by row.
fn place_in(rect: Rect, cell: Cell) -> usize
    ensures { result ≡ place_of rect cell }
{
    // for the fact that it lies in the grid
    let _ = rect.area();
    let first = rect.top_left();
    let down = (cell.row() as usize).saturating_sub(first.row() as usize);
    let across = (cell.column() as usize).saturating_sub(first.column() as usize);
    down * rect.width() + across
}
