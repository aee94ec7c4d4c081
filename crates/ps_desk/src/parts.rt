//! The parts from which a desk is opened.

ghost use Rattle.std.specs.Prelude.{◌≡◌, ◌≤◌};
ghost use Rattle.ps_grid.specs.declared.parties.TheConstants.{SEATS as MOST};

use ps_face::NewBook;
use ps_sheet::Sheet;
use std::marker::Model;
use std::sync::ledger::Blank;

/// The parts from which a desk is opened: a sheet, and the number of session slots. The parts are made before the
/// desk's name is picked, since the name's members describe the parts. A contract sees the parts as a `PartsView`.
#[derive(Drop)]
pub struct Parts {
    pub(crate) sheet: Sheet,
    /// the list that will be published, still empty
    pub(crate) opened: NewBook,
    /// the ledger of what is appended, with a part for each slot
    pub(crate) blank: Blank,
    pub(crate) seats: usize,
}

impl Model for Parts {
    ghost use Rattle.std.specs.Prelude.{◌≡◌, ◌≤◌};
    ghost use Rattle.std.specs.Coded.{codes};
    ghost use Rattle.ps_grid.specs.declared.parties.TheConstants.{SEATS as MOST};
    ghost use Rattle.ps_sheet.specs.SheetCode.{sheet_code};
    ghost use Rattle.ps_desk.specs.Opening.{PartsView};

    ghost Value = { PartsView };

    ghost coded = { Prim.hlevel (codes, sheet_code) };

    ghost view = { λ p. record {
      sheet = p.sheet;
      book = p.opened;
      ledger = p.blank.name;
      seats = p.seats;
    } };

    ghost invariant = { λ p. (p.blank.parts ≡ p.seats) × (1 ≤ p.seats) × (p.seats ≤ MOST) };
}

impl Parts {
    /// Creates the parts of a desk with this sheet and `seats` session slots. At least 1 slot is allowed, and at most
    /// `SEATS` of `ps_grid`.
    pub fn new(sheet: Sheet, seats: usize) -> Parts
        requires seats { (1 ≤ seats) × (seats ≤ MOST) }
        ensures sheet { result.sheet ≡ sheet }
        ensures seats { result.seats ≡ seats }
    {
        Parts {
            sheet,
            opened: NewBook::new(),
            blank: Blank::new(seats as u64),
            seats,
        }
    }
}
