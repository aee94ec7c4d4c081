//! Which of two connections has bytes first.

use crate::ends::Ends;
use crate::poller::Poller;
use crate::progress::Progress;
use ps_join::{Attention, End};
use std::alloc::Global;
use std::io::Write;
use std::net::Net;
use std::os::fd::AsRawFd;

/// Sees which of two connections has bytes first.
#[derive(Drop)]
pub(crate) struct Lookout<'a, W: Write + Drop> {
    /// `None` if the system or the memory doesn't allow one
    poller: Option<Poller>,
    ends: &'a Ends<'a>,
    progress: &'a mut Progress<W>,
    /// whether both were joined over these connections
    is_joined: bool,
}

impl<'a, W: Write + Drop> Lookout<'a, W> {
    /// Returns a lookout at these connections, over which nothing was joined yet.
    pub(crate) fn new<R: Net>(
        rt: &R,
        alloc: Global,
        ends: &'a Ends<'a>,
        progress: &'a mut Progress<W>,
    ) -> Lookout<'a, W> {
        let mut poller = Poller::open(rt, alloc, ends.from.stream.as_raw_fd());
        if let Some(poller) = &mut poller {
            poller.watch(&ends.to.stream);
        }
        Lookout {
            poller,
            ends,
            progress,
            is_joined: false,
        }
    }
}

impl<W: Write + Drop> Attention for Lookout<'_, W> {
    /// Returns the end that has bytes, or whose connection ended. After 30 seconds without either it is the second one.
    /// Without a poller it is always the first one, whose changes are then the only ones that end a wait.
    ///
    /// The first call follows a whole exchange, and reports it.
    fn next(&mut self) -> End {
        if !self.is_joined {
            self.is_joined = true;
            self.progress.joined(self.ends);
        }
        let is_first = match &mut self.poller {
            Some(poller) => poller.is_input_first(),
            None => true,
        };
        if is_first { End::From } else { End::To }
    }
}
