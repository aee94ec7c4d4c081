//! Replicas and deliveries: several sheets of one table, and the deltas that travel between them.
//!
//! A world has replicas, each with its sheet, and a list of deltas that replicas made or untrusted peers sent. An
//! event is an edit at a replica, a peer's delta, or the delivery of a delta to a replica. Events come in any order,
//! and as often as they happen. Whatever the events are, each sheet shows the settled values of the join of the deltas
//! that its replica took. Replicas that took the same deltas show the same.
//!
//! A world is no network: it sends no bytes, loses nothing and starts no thread, as each of its sheets has one worker.
//! This crate knows a sheet only by the sheet's contract. Tests use the crate, and the program doesn't. It is part of
//! the public interface because it states the main promise for any number of edits and deliveries, in any order:
//! replicas converge.
//!
//! Use the contract of [`play`], which states this promise for whole runs. Every `World` is an `IsWorld`: the history
//! of each sheet joins to the same state as the deltas that the sheet's replica took. The contracts of
//! [`World::sheet`] and [`World::taken`] state `IsWorld`.
//!
//! Say replica 1 gives A1 the text `x`, which is delta 1, and replica 2 gives A1 the text `y`, which is delta 2. Then
//! delta 2 is delivered to replica 1, and delta 1 is delivered to replica 2 twice. Both replicas took the deltas {1, 2}
//! and show `y`, the text of the greater replica.
//!
//! Cost: a sheet for each replica. Each delta is stored once in the world, and once in the history of each replica that
//! took it; the copies of a delta of several cells share one list. An event costs one call of a sheet at most.
#![tactic(auto)]

mod event;
mod replica;
mod world;

pub use event::Event;
pub use world::{World, play};
