//! Tests of the replicated state and of the parts of a sheet, by their public items: `ps_delta`, `ps_index` and
//! `ps_wire`.
//!
//! They are a crate of their own, since a crate with tests is proved twice. No other crate uses it.
#![tactic(auto)]

#[cfg(test)]
mod delta;
#[cfg(test)]
mod index;
#[cfg(test)]
mod wire;
