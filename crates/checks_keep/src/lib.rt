//! A test of `ps_kept`, by its public items: a start while single allocations fail.
//!
//! It is a crate of its own, as a crate with tests is proved twice. No other crate uses it.
#![tactic(auto)]

#[cfg(test)]
mod sheet;
