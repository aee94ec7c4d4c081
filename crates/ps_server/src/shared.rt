//! What the sessions of a server share: a desk and perhaps its keeper.
ghost use Rattle.std.specs.Prelude.{◌≡◌, is_some};

use crate::bell::Bell;
use crate::lobby::Lobby;
use crate::marker::Marker;
use crate::watchers::Watchers;
use ps_desk::{Desk, DeskName, Watch};
use ps_keep::Device;
use ps_kept_desk::DeskKeeper;
use ps_session::Resources;
use std::net::TcpStream;
use std::sync::Wait;
use std::sync::atomic::{AtomicBool, Ordering};

/// What the sessions of a desk share besides the desk. If there is a keeper, sessions send only what it has made
/// durable.
#[derive(Drop)]
pub(crate) struct SharedState<L: DeskName, D: Device + Drop> {
    keeper: Option<DeskKeeper<L, D>>,
    bell: Bell,
    /// whether sessions have to end, as a sync failed
    is_stopped: AtomicBool,
    /// whether a session was pushed changes of the desk's own replica that the desk lacked
    is_elsewhere: AtomicBool,
}

impl<L: DeskName, D: Device + Drop> SharedState<L, D> {
    /// Creates the state of sessions with this keeper, or with none.
    pub(crate) fn new(keeper: Option<DeskKeeper<L, D>>) -> SharedState<L, D>
        ensures { result.keeper ≡ keeper }
    {
        SharedState {
            keeper,
            bell: Bell::new(),
            is_stopped: AtomicBool::new(false),
            is_elsewhere: AtomicBool::new(false),
        }
    }

    /// Returns the keeper itself, if there is one, after the last session.
    pub(crate) fn into_keeper(self) -> Option<DeskKeeper<L, D>>
        ensures { result ≡ self.keeper }
    {
        let SharedState { keeper, .. } = self;
        keeper
    }

    /// Returns the keeper for a session to use, if there is one.
    pub(crate) fn keeper(&self) -> Option<&DeskKeeper<L, D>>
        ensures { is_some result ≡ is_some self.now.keeper }
    {
        self.keeper.as_ref()
    }

    /// Makes all that the desk shows by now durable, and returns whether that succeeded. Without a keeper it does
    /// nothing, and returns true.
    pub(crate) fn has_kept<W: Wait + Drop, R: Wait>(
        &self,
        resources: Resources<'_, R>,
        desk: &Desk<L, W>,
    ) -> bool {
        let Resources { threads, alloc } = resources;
        match &self.keeper {
            Some(keeper) => keeper.keep_shown(threads, alloc, desk).is_ok(),
            None => true,
        }
    }

    /// Returns a watcher of a session's lines, which sets `is_elsewhere`.
    pub(crate) fn marker(&self) -> Marker<'_> {
        Marker {
            mark: &self.is_elsewhere,
            bell: &self.bell,
        }
    }

    /// Has the main thread end all sessions, since what one of them has seen couldn't be made durable.
    pub(crate) fn stop(&self) {
        self.is_stopped.store(true, Ordering::SeqCst);
        self.bell.ring();
    }

    /// Returns whether sessions may go on.
    pub(crate) fn goes_on(&self) -> bool {
        !self.is_stopped.load(Ordering::SeqCst)
    }

    /// Returns whether a session was pushed changes of the desk's own replica that the desk lacked. So the replica
    /// makes changes elsewhere, too, or the desk's file has lost some.
    pub(crate) fn is_elsewhere(&self) -> bool {
        self.is_elsewhere.load(Ordering::SeqCst)
    }

    /// Returns the bell that wakes the main thread.
    pub(crate) fn bell(&self) -> &Bell {
        &self.bell
    }

    /// Returns a second handle to a session's connection, if there is a keeper. The main thread closes the connection
    /// by it once sessions have to end.
    pub(crate) fn closing_handle(&self, stream: &TcpStream) -> Option<TcpStream> {
        match self.keeper {
            Some(_) => stream.try_clone().ok(),
            None => None,
        }
    }
}

/// A server: its desk, what its sessions share besides, and how many sessions are asked for.
#[derive(Drop)]
pub(crate) struct Server<'s, L: DeskName, W: Wait + Drop, D: Device + Drop> {
    pub(crate) desk: &'s Desk<L, W>,
    pub(crate) shared: &'s SharedState<L, D>,
    pub(crate) lobby: &'s Lobby,
    /// what the two waiting threads share; none if the system doesn't allow them, or there was no memory
    pub(crate) watchers: Option<&'s Watchers>,
    /// the number of sessions to serve; none to serve until the program is stopped
    pub(crate) asked: Option<u64>,
}

impl<'s, L: DeskName, W: Wait + Drop, D: Device + Drop> Server<'s, L, W, D> {
    /// Returns the watch of the slot with this number, which ends a session's wait for changes once its client sends
    /// something; none without watchers.
    pub(crate) fn watch(&self, number: usize) -> Option<Watch<'s>> {
        match self.watchers {
            Some(watchers) => Some(watchers.watch(number)),
            None => None,
        }
    }
}
