//! Tests of the lower crates, through their public items. Each crate that has tests has a module with its name.
//!
//! The tests show what no clause of a contract says, and no test of the program shows. They stand apart from the crates
//! that they test, so each crate is proved without its tests, and the tests are proved once.
#![tactic(auto)]

#[cfg(test)]
mod device;
#[cfg(test)]
mod eval;
