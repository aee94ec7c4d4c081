//! Why an import fails.

ghost use Rattle.std.specs.Prelude.{◌≡◌};
ghost use Rattle.csv.specs.Reading.{error_kind};
ghost use Rattle.ps_csv.specs.Faults.{refused_as};
ghost use Rattle.ps_csv.specs.Inside.{fault_of_kind};

use csv::{Error, ErrorKind};
use ps_grid::Refusal;

/// Why an import failed, and how many records it had assigned by then.
#[derive(Debug, Drop)]
pub struct ImportFault {
    /// The reason.
    pub refusal: Refusal,
    /// The number of records before the one whose delta couldn't be made, or 0 if nothing was assigned.
    ///
    /// Above 0 only when out of memory. The first `applied` records then stay assigned, and the next one has contents.
    pub applied: usize,
    /// The error of `csv`'s own reader, if that failed before any fault of the table. `None` for all other faults.
    pub reader_error: Option<Error>,
}

impl From<Refusal> for ImportFault {
    ghost from_gives = { λ refusal fault. fault ≡ refused_as refusal };

    fn from(refusal: Refusal) -> ImportFault {
        ImportFault {
            refusal,
            applied: 0,
            reader_error: None,
        }
    }
}

/// The fault for an error of `csv`: out of memory, or a failure of `csv`'s reader.
pub(crate) fn fault_of(error: Error) -> ImportFault
    ensures { result ≡ fault_of_kind (error_kind error) error }
{
    match error.kind() {
        ErrorKind::OutOfMemory => ImportFault::from(Refusal::Memory),
        _ => ImportFault {
            refusal: Refusal::Csv,
            applied: 0,
            reader_error: Some(error),
        },
    }
}
