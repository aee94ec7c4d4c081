//! Joins of deltas that are called again after one allocation fails.
//!
//! `tests/test_refused.py` lets one allocation fail in the process of a test, each in turn, and the test passes each
//! time. If the allocation fails before the call under test, the test does everything once more.

ghost use Rattle.std.specs.Prelude.{◌<◌, length};

use super::{HALF, OTHER_HALF, SIX_JOINED};
use ps_delta::Delta;
use ps_grid::Refusal;
use ps_wire::{decode, encode};
use std::alloc::Global;

/// Appends the deltas of these lines to `deltas`.
fn read(alloc: Global, lines: &str, deltas: &mut Vec<Delta>) -> Result<(), Refusal> {
    for line in lines.lines() {
        deltas.push(decode(alloc, line.as_bytes())?)?;
    }
    Ok(())
}

/// The join of the deltas; calls again if the first call is out of memory.
fn joined_again(alloc: Global, deltas: &[Delta]) -> Result<Delta, Refusal>
    requires { 0 < length deltas.now }
{
    match Delta::joined(alloc, deltas) {
        Err(Refusal::Memory) => Delta::joined(alloc, deltas),
        answer => answer,
    }
}

/// Whether the join of the deltas is written as the line `SIX_JOINED`.
fn is_six(alloc: Global, deltas: &[Delta]) -> Result<bool, Refusal>
    requires { 0 < length deltas.now }
{
    let joined = joined_again(alloc, deltas)?;
    let mut line = Vec::new(alloc);
    encode(alloc, &joined, &mut line)?;
    Ok(line.as_slice() == SIX_JOINED)
}

fn refuse_joined(alloc: Global) -> Result<bool, Refusal> {
    let mut deltas = Vec::new(alloc);
    read(alloc, HALF, &mut deltas)?;
    read(alloc, OTHER_HALF, &mut deltas)?;
    if deltas.len() > 0 {
        is_six(alloc, &deltas)
    } else {
        Ok(false)
    }
}

/// A refused `Delta::joined` of six deltas is `Memory`, and the next call returns their join.
#[test]
fn refused_joined(rt: HostRuntime) {
    let mut found = refuse_joined(rt.alloc());
    if found == Err(Refusal::Memory) {
        found = refuse_joined(rt.alloc());
    }
    assert!(rt; found == Ok(true));
}
