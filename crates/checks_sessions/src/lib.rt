//! Tests of desks and of kept files' lines while one allocation may fail, and of a session that works on a sheet.
//!
//! - `kept_line` reads a line of a kept file, which stores a sheet's changes as lines of text.
//! - `desk` makes calls at a `Desk` of `ps_desk`, a sheet that several sessions share.
//! - `running` calls `run` of `ps_session`, which the program doesn't call.
//!
//! These tests have a crate of their own, since a crate with tests is proved twice. No other crate uses this one.
#![tactic(auto)]

#[cfg(test)]
mod desk;
#[cfg(test)]
mod kept_line;
#[cfg(test)]
mod running;
