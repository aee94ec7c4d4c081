//! What an export of entries reads: the contents of cells.

ghost use Rattle.std.specs.Prelude.{◌≡◌, unwrap_or};
ghost use Rattle.std.specs.Option.{option_copied};
ghost use Rattle.ps_content.specs.declared.content.Content.TheVariants.{Blank as blank};

use ps_content::Content;
use ps_grid::Cell;
use ps_sheet::Sheet;

/// A type that knows what each cell holds, a sheet for example. [`crate::export_entries`] reads from a value of this
/// type.
pub trait Holds {
    ghost use Rattle.ps_csv.specs.Exports.{Holdings};

    /// What each cell holds, for contracts; `Blank` for a cell that nothing was assigned to.
    ghost held_at: { Self → Holdings };

    /// Returns what a cell holds. `None` means the same as `Blank`: a sheet returns `None` for a cell that nothing was
    /// assigned to.
    fn held(&self, cell: Cell) -> Option<&Content>
        ensures { unwrap_or (option_copied result) blank ≡ held_at self.now cell };
}

impl Holds for Sheet {
    ghost use Rattle.ps_csv.specs.Exports.{held_in};

    ghost held_at = { λ s. held_in s.history };

    fn held(&self, cell: Cell) -> Option<&Content> {
        self.content(cell)
    }
}
