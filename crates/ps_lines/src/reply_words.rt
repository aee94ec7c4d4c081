//! The first word of each reply, with the space after the word, for whoever writes or reads a reply.
//!
//! Two other sources repeat some of these words: the web page has its own `rows` and `entries`, `ps_hints` its own
//! `delta `.

/// The word of [`Reply::Done`](crate::Reply::Done).
pub const OK: &[u8] = b"ok ";

/// The word of [`Reply::Same`](crate::Reply::Same).
pub const SAME: &[u8] = b"same ";

/// The word of [`Reply::Shown`](crate::Reply::Shown).
pub const VAL: &[u8] = b"val ";

/// The word of [`Reply::Rows`](crate::Reply::Rows).
pub const ROWS: &[u8] = b"rows ";

/// The word of [`Reply::Entry`](crate::Reply::Entry).
pub const ENTRY: &[u8] = b"entry ";

/// The word of [`Reply::Entries`](crate::Reply::Entries).
pub const ENTRIES: &[u8] = b"entries ";

/// The word of [`Reply::Delta`](crate::Reply::Delta).
pub const DELTA: &[u8] = b"delta ";

/// The word of [`Reply::End`](crate::Reply::End).
pub const END: &[u8] = b"end ";

/// The word of [`Reply::Replica`](crate::Reply::Replica).
pub const REPLICA: &[u8] = b"replica ";

/// The word of [`Reply::Version`](crate::Reply::Version).
pub const VERSION: &[u8] = b"version ";

/// The word of [`Reply::Refused`](crate::Reply::Refused).
pub const ERR: &[u8] = b"err ";
