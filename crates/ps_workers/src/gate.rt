//! A hook that each worker calls before each of its evaluations.

ghost use Rattle.std.specs.Prelude.{◌<◌};
ghost use Rattle.ps_grid.specs.declared.parties.TheConstants.{WORKERS};

/// A hook that each worker calls before each of its evaluations, to count them or to hold workers back.
pub trait Gate: Sync {
    /// Waits until the worker with this number may evaluate its next cell. Workers are numbered from 0.
    fn pass(&self, worker: usize)
        requires { worker < WORKERS };
}

/// A `Gate` that holds no worker back and counts nothing: its `pass` returns at once.
#[derive(Clone, Copy, Drop)]
pub struct Open;

impl Gate for Open {
    fn pass(&self, _worker: usize) {}
}
