//! The events of a world.

use ps_delta::{Delta, Edit};

/// One step of a `World`. Replicas and deltas are numbered from 1, and the deltas in the order in which they came into
/// the world.
#[derive(Drop)]
pub enum Event {
    /// An edit at the replica with this number. The replica makes and takes the delta of the edit, and the delta gets
    /// the next number. An edit that the replica's sheet refuses changes nothing.
    Edit(u8, Edit),
    /// A delta from an untrusted peer. The delta may claim any times and replicas. It gets the next number, and no
    /// replica takes it before it is delivered.
    Foreign(Delta),
    /// A delivery: the replica with the first number receives the delta with the second number. The same delta may be
    /// delivered to a replica several times.
    Deliver(u8, usize),
}
