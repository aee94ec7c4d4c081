//! The name that the writer and the readers of one pair of copies share.

use std::marker::Brand;
use std::sync::ledger::Ledger;

/// A type that names one pair of published copies, so that its writer and readers fit together.
///
/// In contracts the type gives the book of the published list, and the history that the copies were opened with. The
/// trait has no methods.
pub trait Named: Ledger {
    ghost use Rattle.std.specs.Prelude.{List};
    ghost use Rattle.logbook.specs.Pages.{Book};
    ghost use Rattle.ps_delta.specs.Deltas.{Entries};

    ghost book: { Book };

    ghost opening: { List Entries };
}

impl Named for Brand {
    ghost use Rattle.std.specs.Prelude.{[]};

    ghost book = { record { number = 0; log_name = 0; cells_name = 0 } };

    ghost opening = { [] };
}
