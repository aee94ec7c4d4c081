//! Tests of deltas and grids, which are made from lines.
//!
//! A test asserts what small functions work out. Small functions with few owned values are quick to prove.

mod refused;

use ps_delta::{Delta, Grid, Touched};
use ps_grid::Refusal;
use ps_lattice::Join;
use ps_wire::decode;
use std::alloc::Global;

// The grid that the deltas of these lines are joined into.
fn grid_of(alloc: Global, lines: &str) -> Result<Grid, Refusal> {
    let mut grid = Grid::new(alloc)?;
    for line in lines.lines() {
        grid.join(alloc, &decode(alloc, line.as_bytes())?)?;
    }
    Ok(grid)
}

// Whether a delta touches exactly D1 and E1 of a grid, which are cells 3 and 4.
fn touches_two(alloc: Global, grid: &Grid, delta: &Delta) -> Result<bool, Refusal> {
    let mut touched = Touched::new(alloc)?;
    grid.touched(delta, &mut touched);
    let cells = touched.cells();
    Ok(!grid.covers(delta) && cells.len() == 2 && cells[0].index() == 3 && cells[1].index() == 4)
}

fn hidden_parts(alloc: Global) -> Result<bool, Refusal> {
    let grid = grid_of(alloc, r#"[["D1",[2,1,"8"],[],[]],["F1",[1,9,"7"],[],[]]]"#)?;
    let delta = decode(
        alloc,
        br#"[["D1",null,[[1,5,0]],[]],["E1",null,[],[[7,1,1,1]]],["F1",[1,9,"7"],[],[]]]"#,
    )?;
    touches_two(alloc, &grid, &delta)
}

/// A delta touches the cells whose state it changes: also a counter that its cell doesn't show, but no cell for which
/// the delta has nothing new.
#[test]
fn hidden_parts_are_touched(rt: HostRuntime) {
    assert!(rt; hidden_parts(rt.alloc()) == Ok(true));
}

// Joins `other` into `state`. Returns whether `other` is below `state` (adds nothing new to it) only after that. Uses
// only the trait `Join`.
fn is_joined<J: Join>(alloc: Global, state: &mut J, other: &J) -> Result<bool, Refusal> {
    let was_below = other.below(state);
    state.join(alloc, other)?;
    Ok(!was_below && other.below(state))
}

fn join_other_half(alloc: Global, grid: &mut Grid) -> Result<bool, Refusal> {
    let other = grid_of(alloc, OTHER_HALF)?;
    is_joined(alloc, grid, &other)
}

fn covers_six(alloc: Global, grid: &Grid) -> Result<bool, Refusal> {
    Ok(grid.covers(&decode(alloc, SIX_JOINED)?))
}

fn grids_join(alloc: Global) -> Result<bool, Refusal> {
    let mut grid = grid_of(alloc, HALF)?;
    let is_joined = join_other_half(alloc, &mut grid)?;
    Ok(is_joined && covers_six(alloc, &grid)?)
}

// Three of six deltas that touch one another: registers of one stamp, a counter and a set.
const HALF: &str = r#"[["A1",[1,1,"3"],[],[]]]
[["A1",null,[[1,5,0]],[]]]
[["B1",null,[],[[7,2,1,0]]]]"#;

// The other three.
const OTHER_HALF: &str = r#"[["A1",[1,1,"4"],[],[]]]
[["A1",null,[[1,2,0]],[]]]
[["A1",null,[[2,9,0]],[]],["B1",null,[],[[7,2,1,1]]]]"#;

// The join of the six.
const SIX_JOINED: &[u8] = br#"[["A1",[1,1,"4"],[[1,5,0],[2,9,0]],[]],["B1",null,[],[[7,2,1,1]]]]"#;

/// The join of two grids, each with three of six deltas, has all that the join of the six deltas has.
#[test]
fn two_grids_join_cell_by_cell(rt: HostRuntime) {
    assert!(rt; grids_join(rt.alloc()) == Ok(true));
}
