//! Reads the cells of a delta from JSON values.

ghost use Rattle.std.specs.Prelude.{◌≡◌, ◌<◌, ℕ, map as each, IfOk, IfErr};
ghost use Rattle.std.specs.List.{All};
ghost use Rattle.serde_json.specs.Data.{string};
ghost use Rattle.serde_json.specs.View.{view};
ghost use Rattle.ps_grid.specs.Place.{cell_name};
ghost use Rattle.ps_grid.specs.declared.size.TheConstants.{CELLS};
ghost use Rattle.ps_delta.specs.declared.cell_state.CellState.{CellState as State};
ghost use Rattle.ps_delta.specs.Deltas.{Entries};
ghost use Rattle.ps_wire.specs.Value.{cell_value, IsState};
ghost use Rattle.ps_wire.specs.Inside.{RefusedAs, RefusedSince};

use crate::parts::{quadruple, text};
use crate::states::{read_choice, read_register, read_tally};
use ps_delta::CellState;
use ps_grid::{Cell, Refusal};
use serde_json::Value;
use std::alloc::Global;

/// Reads the name of a cell.
fn read_name(value: &Value) -> Result<Cell, Refusal>
    ensures found { IfOk result (λ c. (view value.now ≡ string (cell_name c)) × (c < CELLS)) }
    ensures refused { IfErr result (λ r. RefusedSince r
        ((c : ℕ) → c < CELLS → view value.now ≡ string (cell_name c) → ⊥)) }
{
    Cell::read(text(value)?.as_bytes()).ok_or(Refusal::Delta)
}

/// Reads a cell with its state.
#[tactic(auto, unfolding(crate::specs::Value::cell_value))]
fn read_cell(alloc: Global, value: &Value) -> Result<(Cell, CellState), Refusal>
    ensures found { IfOk result (λ e. (view value.now ≡ cell_value e) × (e.0 < CELLS) × IsState e.1) }
    ensures refused { IfErr result (λ r. RefusedAs r
        ((e : ℕ × State) → (e.0 < CELLS) × IsState e.1 → view value.now ≡ cell_value e → ⊥)) }
{
    let (name, register, counters, pairs) = quadruple(value)?;
    let cell = read_name(name)?;
    let state = CellState::from_parts(
        read_register(alloc, register)?,
        read_tally(alloc, counters)?,
        read_choice(alloc, pairs)?,
    );
    Ok((cell, state))
}

/// Reads the cells, one after another.
pub(crate) fn read_cells(alloc: Global, values: &[Value]) -> Result<Vec<(Cell, CellState)>, Refusal>
    ensures found { IfOk result (λ all. each view values.now ≡ each cell_value all.items) }
    ensures in_grid { IfOk result (λ all. All (λ e. e.0 < CELLS) all.items) }
    ensures states { IfOk result (λ all. All (λ e. IsState e.1) all.items) }
    ensures refused { IfErr result (λ r. RefusedAs r ((all : Entries) → All (λ e. (e.0 < CELLS) × IsState e.1) all
        → each view values.now ≡ each cell_value all → ⊥)) }
{
    let mut cells = Vec::with_capacity(alloc, values.len())?;
    for value in values {
        cells.push(read_cell(alloc, value)?)?;
    }
    Ok(cells)
}
