//! Why a sheet isn't opened from its file.
ghost use Rattle.std.specs.Prelude.{◌≡◌};
ghost use Rattle.ps_kept.specs.declared.fault.KeepFault.TheVariants.{Memory};

use std::alloc::AllocError;

/// Why [`open_kept`](crate::open_kept) doesn't open a sheet from its file.
#[derive(Clone, Copy, Debug, PartialEq, Eq)]
pub enum KeepFault {
    /// Out of memory.
    Memory,
    /// The device failed.
    Device,
    /// The line with this number, counted from 1, is invalid. Either the first line names no replica, or a later line
    /// pushes no delta, or it pushes a delta that adds nothing to the deltas before it.
    Line(u64),
    /// The file belongs to this other replica.
    Replica(u8),
}

impl From<AllocError> for KeepFault {
    ghost from_gives = { λ _ fault. fault ≡ Memory };

    fn from(_error: AllocError) -> KeepFault {
        KeepFault::Memory
    }
}
