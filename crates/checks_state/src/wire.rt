//! Reading and writing the line of a delta, while an allocation may fail.

use ps_delta::Delta;
use ps_grid::Refusal;
use ps_wire::{decode, encode};
use std::alloc::Global;

/// The line of a delta with two cells: A1 has a register, a counter and a set, and B1 has a formula, which takes memory
/// of its own.
const FULL_LINE: &[u8] =
    br#"[["A1",[1,1,"@choice"],[[1,5,0]],[[7,1,1,1],[7,2,1,0]]],["B1",[2,2,"=-[.A1]"],[],[]]]"#;

/// The delta of a line. Calls `decode` again if the first call is out of memory.
fn decode_again(alloc: Global, bytes: &[u8]) -> Result<Delta, Refusal> {
    match decode(alloc, bytes) {
        Err(Refusal::Memory) => decode(alloc, bytes),
        answer => answer,
    }
}

/// Appends the text of a delta to a line, and calls `encode` again if the first call is refused. Returns whether that
/// refusal, if there was one, was `Memory` and left the line as `before`.
fn encode_again(
    alloc: Global,
    delta: &Delta,
    line: &mut Vec<u8>,
    before: &[u8],
) -> Result<bool, Refusal> {
    match encode(alloc, delta, line) {
        Ok(()) => Ok(true),
        Err(refusal) => {
            let is_kept = refusal == Refusal::Memory && line.as_slice() == before;
            encode(alloc, delta, line)?;
            Ok(is_kept)
        }
    }
}

/// Whether `FULL_LINE` is read, and its delta then written twice gives the line twice, and refused calls changed
/// nothing.
fn refuse_both(alloc: Global) -> Result<bool, Refusal> {
    let delta = decode_again(alloc, FULL_LINE)?;
    let mut line = Vec::new(alloc);
    let is_kept_empty = encode_again(alloc, &delta, &mut line, b"")?;
    let is_kept_full = encode_again(alloc, &delta, &mut line, FULL_LINE)?;
    let is_twice = line.starts_with(FULL_LINE) && line.ends_with(FULL_LINE);
    Ok(is_kept_empty && is_kept_full && is_twice && line.len() == 2 * FULL_LINE.len())
}

/// A refused `decode` or `encode` is `Memory`, and a refused `encode` leaves the line as it was, empty or not. The next
/// call returns the delta of the line, or appends its text.
#[test]
fn refused_decode_and_encode(rt: HostRuntime) {
    let mut found = refuse_both(rt.alloc());
    if found == Err(Refusal::Memory) {
        found = refuse_both(rt.alloc());
    }
    assert!(rt; found == Ok(true));
}
