//! When a change is shown to readers of the published copies.

ghost use Rattle.std.specs.Prelude.{◌≡◌, ◌⊎◌, Some, None};
ghost use Rattle.ps_desk.specs.declared.showing.Showing.TheVariants.{AtOnce};

/// The moment at which a change is shown to readers.
#[derive(Clone, Copy)]
pub(crate) enum Showing {
    /// In the call that makes the change. That call also shows all waiting changes.
    AtOnce,
    /// In a later call that shows waiting changes, or earlier if too many wait.
    Later,
}

impl Showing {
    /// Returns whether the change waits to be shown.
    pub(crate) fn hides(self) -> bool {
        match self {
            Showing::AtOnce => false,
            Showing::Later => true,
        }
    }

    /// Returns when a change of the session slot `seat` is shown while changes of the slot `waiting` wait. Changes of
    /// two slots never wait together.
    #[inline(always)]
    pub(crate) fn beside(self, waiting: Option<u64>, seat: u64) -> Showing
        ensures once { self ≡ AtOnce → result ≡ AtOnce }
        ensures later { (result ≡ AtOnce) ⊎ ((waiting ≡ None) ⊎ (waiting ≡ Some seat)) }
    {
        match waiting {
            Some(other) if other != seat => Showing::AtOnce,
            _ => self,
        }
    }

    /// Returns the session slot whose changes may wait after a change of the slot `seat` that is shown so.
    #[inline(always)]
    pub(crate) fn waiting(self, seat: u64) -> Option<u64>
        ensures { ((result ≡ None) × (self ≡ AtOnce)) ⊎ (result ≡ Some seat) }
    {
        match self {
            Showing::AtOnce => None,
            Showing::Later => Some(seat),
        }
    }
}

/// What a session has done lately, which decides when its next change is shown.
#[derive(Clone, Copy)]
pub(crate) struct Stream {
    /// Whether the session has a keeper, which shows the session's changes before its replies are sent.
    pub(crate) is_kept: bool,
    /// Whether the session has changed something, and has neither read nor sent its replies since.
    pub(crate) has_changed: bool,
}

impl Stream {
    /// Creates the state of a session that has changed nothing, and has no keeper.
    pub(crate) fn new() -> Stream {
        Stream {
            is_kept: false,
            has_changed: false,
        }
    }

    /// Returns when the next change is shown. With a keeper, a change that directly follows another one waits.
    #[inline(always)]
    pub(crate) fn next(self) -> Showing {
        if self.is_kept && self.has_changed {
            Showing::Later
        } else {
            Showing::AtOnce
        }
    }
}
