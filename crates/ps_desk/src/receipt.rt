//! What a desk returns for a change: a receipt, which encloses the change's delta if the caller wants it back.

ghost use Rattle.std.specs.Prelude.{◌≡◌};
ghost use Rattle.ps_desk.specs.Receipts.{merged_of};

use crate::change::share;
use ps_delta::Delta;
use ps_session::Merged;
use std::alloc::Global;
use std::sync::Wait;

/// A type that a [`Receipt`] can enclose: [`Delta`], for the delta of the change, or [`Unenclosed`], for nothing. The
/// caller of the desk picks the type.
pub trait Enclosure: Sized {
    ghost use Rattle.ps_delta.specs.Deltas.{Entries};

    /// The relation that holds between an enclosed value and the change's delta.
    ghost tells: { Self → Entries → Type 0 };

    /// Returns the value that a receipt encloses for a change with this delta.
    fn of<V: Wait>(wait: &V, alloc: Global, delta: &Delta) -> Self
        ensures { tells result delta.now };
}

/// Encloses the delta itself, which shares its parts with the history.
impl Enclosure for Delta {
    ghost use Rattle.std.specs.Prelude.{◌≡◌};

    ghost tells = { λ enclosed delta. enclosed ≡ delta };

    fn of<V: Wait>(wait: &V, alloc: Global, delta: &Delta) -> Delta {
        share(wait, alloc, delta)
    }
}

/// Encloses nothing: a receipt has it if the caller doesn't want the delta back.
#[derive(Clone, Copy, Debug)]
pub struct Unenclosed;

impl Enclosure for Unenclosed {
    ghost use Rattle.std.specs.Prelude.{⊤};

    ghost tells = { λ enclosed delta. ⊤ };

    #[inline(always)]
    fn of<V: Wait>(_wait: &V, _alloc: Global, _delta: &Delta) -> Unenclosed {
        Unenclosed
    }
}

/// The result of a change: the change's number in the history, and the change's delta if the caller wants it back.
///
/// `E` is [`Delta`] if the caller wants the delta back, and [`Unenclosed`] otherwise.
#[derive(Drop)]
pub struct Receipt<E> {
    /// If `fresh`, the number of the delta in the history, from 1. Otherwise the length of the history, since the delta
    /// added nothing new to it.
    pub number: u64,
    /// The change's delta, or [`Unenclosed`]. A merge's delta is the part that the sheet lacked, or the whole merged
    /// delta if the sheet lacked nothing.
    pub enclosed: E,
    /// Whether this change appended its delta to the history.
    pub fresh: bool,
}

/// A receipt with nothing enclosed yet.
#[derive(Drop)]
pub(crate) struct Standing {
    /// the number, as in [`Receipt`]
    pub(crate) number: u64,
    /// whether the change appended the delta
    pub(crate) fresh: bool,
}

impl Standing {
    /// Returns the receipt that encloses `enclosed`.
    #[inline(always)]
    pub(crate) fn enclosing<E>(self, enclosed: E) -> Receipt<E>
        ensures { result ≡ record { number = self.number; enclosed = enclosed; fresh = self.fresh } }
    {
        Receipt {
            number: self.number,
            enclosed,
            fresh: self.fresh,
        }
    }
}

/// Returns the result of a merge, given its receipt.
pub(crate) fn merged(receipt: &Receipt<Unenclosed>) -> Merged
    ensures { result ≡ merged_of receipt.now.number receipt.now.fresh }
{
    if receipt.fresh {
        Merged::New(receipt.number)
    } else {
        Merged::Known(receipt.number)
    }
}
