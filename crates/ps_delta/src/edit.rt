//! Edits, which people ask a sheet for, and changes. A change is an edit or a delta from elsewhere.

ghost use Rattle.std.specs.Prelude.{◌≡◌};
ghost use Rattle.std.specs.Option.{SomeIff};

use crate::delta::Delta;
use ps_content::Content;
use ps_grid::Cell;
use ps_lattice::is_ascending;
use std::marker::Model;

/// An edit: what a person asks a sheet to do.
///
/// The sheet refuses an edit whose amount or option is out of range. It also refuses an edit of a counter or a set that
/// the cell doesn't show.
#[derive(Drop)]
pub enum Edit {
    /// Assigns a content to a cell.
    Set(Cell, Content),
    /// Assigns contents to one or more cells at once.
    SetAll(Batch),
    /// Adds an amount, 1 to 1,000,000, to the counter of a cell whose content is `Tally`.
    Add(Cell, u64),
    /// Subtracts an amount, 1 to 1,000,000, from the counter of a cell whose content is `Tally`.
    Sub(Cell, u64),
    /// Adds an option, 0 to 63, to the set of a cell whose content is `Choice`.
    Choose(Cell, u64),
    /// Removes an option, 0 to 63, from the set of a cell whose content is `Choice`.
    Unchoose(Cell, u64),
}

/// A change that a sheet can make: an edit, or a delta from elsewhere.
#[derive(Drop)]
pub enum Change {
    /// An edit, for which the sheet makes a delta.
    Edit(Edit),
    /// A delta made elsewhere. The sheet appends the whole delta to its history, or nothing if the delta is covered.
    Delta(Delta),
    /// A delta made elsewhere. The sheet appends to its history only the part of the delta that is new to the sheet.
    Merge(Delta),
}

/// One or more cells, ascending and distinct, each with the content to assign to the cell. A contract sees a batch as
/// the list of its cells with their contents.
#[derive(Drop)]
pub struct Batch {
    cells: Vec<(Cell, Content)>,
}

impl Model for Batch {
    ghost use Rattle.std.specs.Prelude.{List, ℕ};
    ghost use Rattle.std.specs.Coded.{codes};
    ghost use Rattle.ps_content.specs.declared.content.Content.{Content};
    ghost use Rattle.ps_content.specs.contracts.content.Content as content;

    ghost Value = { List (ℕ × Content) };

    ghost coded = { Prim.hlevel (codes, content.the_row.coded) };

    ghost use Rattle.ps_delta.specs.Batches.{IsBatch};

    ghost view = { λ b. b.cells.items };

    ghost invariant = { λ b. IsBatch b.cells.items };
}

impl Batch {
    ghost use Rattle.ps_delta.specs.Batches.{IsBatch};

    /// Returns the batch of these cells with their contents.
    ///
    /// Returns `None` if the list is empty, or if its cells aren't ascending and distinct.
    ///
    /// Cost: linear in the number of cells.
    pub fn new(cells: Vec<(Cell, Content)>) -> Option<Batch>
        ensures { SomeIff result (IsBatch cells.items) cells.items }
    {
        if cells.is_empty() || !is_ascending(&cells) {
            return None;
        }
        Some(Batch { cells })
    }

    /// Returns the cells of the batch, ascending, each with the content to assign to the cell.
    pub fn into_cells(self) -> Vec<(Cell, Content)>
        ensures cells { result.items ≡ self }
        ensures batch { IsBatch self }
    {
        let Batch { cells } = self;
        cells
    }
}
