//! Keepers store what a session has seen, before its replies are sent.
ghost use Rattle.std.specs.Prelude.{◌≡◌, OnErr, OnOk, ⊤};

use ps_device::Failed;
use std::alloc::Global;

/// A keeper of a board's changes: it shows changes to others, or makes changes outlive a crash. Changes for which it
/// has done so are *kept*. A session syncs its keeper before it sends replies.
pub trait Keeper<B> {
    /// Holds if all changes of a board in this state are kept.
    ghost covers: { Self → B → Type 0 };

    /// Holds if the changes that were noted are the first changes of a board in this state, and no sync has failed. The
    /// caller of a session proves that this stays so when the board gets more changes.
    ghost fits: { Self → B → Type 0 };

    /// Holds if a sync may fail.
    ghost can_fail: { Type 0 };

    /// Notes the board's changes that aren't noted yet, and keeps all of them.
    ///
    /// Fails if the keeper's device failed, or when out of memory. Changes that were kept before stay kept, and the
    /// session ends without another sync.
    ///
    /// Cost: linear in what is noted, and the time that the device takes.
    fn sync(&mut self, alloc: Global, board: &mut B) -> Result<(), Failed>
        requires fits { fits self.old board.old }
        ensures same { board.new ≡ board.old }
        ensures covered { OnOk result (covers self.new board.new) }
        ensures fits { OnOk result (fits self.new board.new) }
        ensures stays { (state : B) → covers self.old state → covers self.new state }
        ensures failed { OnErr result can_fail };
}

/// A keeper that does nothing, for a session whose changes needn't be shown or outlive a crash.
#[derive(Clone, Copy, Debug)]
pub struct Unkept;

impl<B> Keeper<B> for Unkept {
    ghost covers = { λ keeper board. ⊤ };

    ghost fits = { λ keeper board. ⊤ };

    ghost can_fail = { ⊥ };

    fn sync(&mut self, _alloc: Global, _board: &mut B) -> Result<(), Failed> {
        Ok(())
    }
}
