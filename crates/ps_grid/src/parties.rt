//! Limits on replicas, workers and sessions.

/// The most replicas of one sheet. A replica's number is from 1 to this limit.
///
/// Counters and sets store entries for each replica, so the longest line of a delta grows with this limit.
pub const REPLICAS: u8 = 32;

/// The most threads that evaluate formulas of one sheet at the same time; the least is 1.
pub const WORKERS: usize = 16;

/// The most session slots of a shared sheet; the least is 1. A slot has room for one session at a time.
pub const SEATS: usize = 256;
