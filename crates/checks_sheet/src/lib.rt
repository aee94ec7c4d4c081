//! Tests of sheets, CSV tables, published copies and worlds, by public items alone.
//!
//! They are a crate of their own, since a crate with tests is proved twice. No other crate uses it.
#![tactic(auto)]

#[cfg(test)]
mod csv;
#[cfg(test)]
mod face;
#[cfg(test)]
mod sheet;
#[cfg(test)]
mod world;
