//! Why lines aren't squashed.
ghost use Rattle.std.specs.Prelude.{◌≡◌};
ghost use Rattle.ps_squash.specs.declared.fault.SquashFault.TheVariants.{Memory};

use std::alloc::AllocError;

/// Why [`squash`](crate::squash) failed.
#[derive(Clone, Copy, PartialEq, Eq)]
pub enum SquashFault {
    /// Out of memory; nothing was written.
    Memory,
    /// The line with this number, counted from 1, is faulty: it isn't empty, has no digest, is no delta's line, and
    /// isn't a first line that names the replica. Nothing was written. 2^64 - 1 stands for this number or any greater.
    Line(u64),
    /// The joined state of one cell is too long for a line; nothing was written.
    TooLong,
    /// The source failed; nothing was written.
    Source,
    /// The sink failed; it may have a beginning of the text.
    Sink,
}

impl From<AllocError> for SquashFault {
    ghost from_gives = { λ _ fault. fault ≡ Memory };

    fn from(_error: AllocError) -> SquashFault {
        SquashFault::Memory
    }
}
