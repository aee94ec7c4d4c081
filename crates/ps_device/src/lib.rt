//! Devices: where bytes come from (`Source`) and where they go (`Sink`).
//!
//! This crate isn't the session: it knows no lines and no values, and opens no file and no port. A device waits only
//! for the reader or writer that it is given.
//!
//! The contracts to use are those of the two traits. A call of a device either succeeds or fails, and contracts count
//! each failure. So a caller can state that it refuses as `Refusal::Device` exactly when the count of failures rises. A
//! sink sends the bytes put on it in order and without a gap, and the bytes not yet sent wait. After a `flush` that
//! returns Ok, no byte waits.
//!
//! The devices:
//!
//! - `MemorySink`: a sink over memory;
//! - `Reading` and `Writing`: a source and a sink over the readers and writers of std;
//! - `ConsoleOutput`: a buffered sink over a writer, for the console and for connections.
//!
//! On a `ConsoleOutput` over standard output, `put_all` of `ok 1` and of `ok 2`, each with its line feed, writes
//! nothing. The `flush` after both calls makes one write of ten bytes. If that write fails, `flush` returns the error,
//! one failure is counted, and no later call writes anything.
//!
//! No clause shows what the flush of a writer does, since the contract of std's `Write` leaves this open. Only a test
//! shows that a flushed byte has left the writer's own memory.
//!
//! Cost: a call of a `Reading` or a `Writing` makes one call of its reader or writer, and more if signals interrupt.
//! A `ConsoleOutput` calls its writer only in a flush and when the buffer is full. Its buffer takes 65,536 bytes. A
//! `MemorySink` takes memory for the bytes put on it. `Reading` and `Writing` take none.
#![tactic(auto)]

mod console;
mod device;
mod memory;
mod stream;

pub use console::ConsoleOutput;
pub use device::{Failed, Sink, Source, hand_on, put_all};
pub use memory::MemorySink;
pub use stream::{Reading, Writing};

/// The most bytes of one read, and the most bytes that wait in a [`ConsoleOutput`] before they are written.
pub const PIECE_BYTES: usize = 65_536;
