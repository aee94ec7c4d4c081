//! Why a kept file isn't shortened.
ghost use Rattle.std.specs.Prelude.{◌≡◌};
ghost use Rattle.ps_shorten.specs.declared.fault.ShortenFault.TheVariants.{Memory};

use std::alloc::AllocError;

/// Why [`shorten`](crate::shorten) failed.
#[derive(Clone, Copy, Debug, PartialEq, Eq)]
pub enum ShortenFault {
    /// Out of memory.
    Memory,
    /// Replacing the file failed.
    Device,
    /// A start refuses the line of this number, or the line ends in a carriage return. Lines count from 1.
    Line(u64),
    /// The file belongs to the replica of this number, not to the one that was asked for.
    Replica(u8),
    /// The joined state of one cell is too long for one line of the new file.
    TooLong,
}

impl From<AllocError> for ShortenFault {
    ghost from_gives = { λ _ fault. fault ≡ Memory };

    fn from(_error: AllocError) -> ShortenFault {
        ShortenFault::Memory
    }
}
