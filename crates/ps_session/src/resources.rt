//! What a session takes threads and memory from.

use std::alloc::Global;

/// The threads that a board may start, and the allocator.
#[derive_where(Clone, Copy)]
pub struct Resources<'a, R> {
    /// The source of the threads.
    pub threads: &'a R,
    /// The allocator.
    pub alloc: Global,
}
