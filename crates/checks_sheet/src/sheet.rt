//! Sheets as people use them: edits as they are typed, and deltas of other replicas made by hand.

pub(crate) mod changes;
mod gates;
mod refused;
mod reports;
