//! The patch of a staged change.

ghost use Rattle.std.specs.Prelude.{◌≡◌, true, is_some, map, IfOk, IfErr};
ghost use Rattle.ps_grid.specs.declared.refusal.Refusal.TheVariants.{Memory};
ghost use Rattle.ps_shown.specs.Shown.{shown_at};
ghost use Rattle.ps_cells.specs.ChangedCells.{IsChanged};
ghost use Rattle.ps_sheet.specs.Prepared.{shown_before};
ghost use Rattle.ps_face.specs.Legal.{Follows};
ghost use Rattle.ps_face.specs.Values.{valued};
ghost use Rattle.ps_desk.specs.Patches.{change_in, found_in, note_of, shown_of};

use ps_face::Patch;
use ps_grid::{Cell, Refusal, Twin};
use ps_sheet::Staging;
use ps_shown::{Kept, Shown};
use std::alloc::Global;

/// Returns the patch of the staged fresh change, for a call of the session slot `owner`.
///
/// The patch has what the cell `one` shows, or else what the cells that the sheet has listed show. It may be published
/// next, since it follows the sheet's history. Fails only when out of memory.
#[inline(always)]
pub(crate) fn patch_of(
    alloc: Global,
    sheet: &Staging,
    one: Option<Cell>,
    owner: u64,
) -> Result<Patch<'_>, Refusal>
    requires staged { is_some sheet.now.staged ≡ true }
    requires fresh { (change_in sheet.now).fresh ≡ true }
    requires found { IsChanged (shown_before (change_in sheet.now)) (shown_at sheet.now.shown)
        (found_in sheet.now one) }
    ensures patch { IfOk result (λ p. p ≡ note_of sheet.now (found_in sheet.now one) owner) }
    ensures follows { IfOk result (Follows sheet.now.history) }
    ensures memory { IfErr result (λ e. e ≡ Memory) }
{
    let number = sheet.report().version;
    match one {
        Some(cell) => {
            let kept = sheet.all_shown().kept(cell).twin(alloc)?;
            Ok(Patch::of_one(number, sheet.delta(), (cell, kept), owner))
        }
        None => {
            let changes = copy_shown(alloc, sheet.changed(), sheet.all_shown())?;
            Ok(Patch::new(number, sheet.delta(), changes, owner))
        }
    }
}

/// Returns the cells, each with a copy of what it shows. Texts are shared with the sheet.
#[inline(never)]
fn copy_shown(alloc: Global, cells: &[Cell], shown: &Shown) -> Result<Vec<(Cell, Kept)>, Refusal>
    ensures copied { IfOk result (λ c. map valued c.items ≡ map (shown_of (shown_at shown.now)) cells.now) }
    ensures memory { IfErr result (λ e. e ≡ Memory) }
{
    let mut copied = Vec::with_capacity(alloc, cells.len())?;
    for cell in cells {
        let kept = shown.kept(*cell).twin(alloc)?;
        copied.push((*cell, kept))?;
    }
    Ok(copied)
}
