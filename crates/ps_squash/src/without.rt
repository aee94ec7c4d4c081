//! The state of a cell without the parts of a replica.
ghost use Rattle.std.specs.Prelude.{◌≡◌, ◌==◌, IfErr, IfOk, filter, not};
ghost use Rattle.ps_grid.specs.declared.refusal.Refusal.TheVariants as refusals;
ghost use Rattle.ps_squash.specs.Selected.{cell_without, counts_without, pairs_without, register_without};

use ps_content::Content;
use ps_delta::CellState;
use ps_grid::{Refusal, Twin};
use ps_lattice::{Choice, Count, Pair, Register, Tally};
use std::alloc::{AllocError, Global};

/// Returns the state of a cell without what `replica` assigned, counted and chose.
///
/// Fails as `Memory`.
pub(crate) fn cell_without(
    alloc: Global,
    state: &CellState,
    replica: u8,
) -> Result<CellState, Refusal>
    ensures rest { IfOk result (λ s. s ≡ cell_without replica state.now) }
    ensures memory { IfErr result (λ e. e ≡ refusals.Memory) }
{
    let (register, tally, choice) = state.parts();
    let register = register_without(alloc, register, replica)?;
    let tally = counts_without(alloc, tally, replica)?;
    let choice = pairs_without(alloc, choice, replica)?;
    Ok(CellState::from_parts(register, tally, choice))
}

/// Returns a copy of the register, or an empty one if the replica assigned it.
fn register_without(
    alloc: Global,
    register: &Register<Content>,
    replica: u8,
) -> Result<Register<Content>, Refusal>
    ensures rest { IfOk result (λ r. r ≡ register_without replica register.now) }
    ensures memory { IfErr result (λ e. e ≡ refusals.Memory) }
{
    match register.parts() {
        Some(assignment) if assignment.replica == replica => Ok(Register::empty()),
        Some(_) | None => register.twin(alloc),
    }
}

/// Returns a counter without the counts of the replica.
fn counts_without(alloc: Global, tally: &Tally, replica: u8) -> Result<Tally, Refusal>
    ensures rest { IfOk result (λ t. t ≡ counts_without replica tally.now) }
    ensures memory { IfErr result (λ e. e ≡ refusals.Memory) }
{
    let parts = tally.parts();
    let others = other_counts(alloc, parts.as_slice(), replica)?;
    let tally = Tally::from_parts(alloc, others)?;
    Ok(tally.unwrap())
}

/// Returns the counts of other replicas.
fn other_counts(
    alloc: Global,
    counts: &[(u8, Count)],
    replica: u8,
) -> Result<Vec<(u8, Count)>, AllocError>
    ensures { IfOk result (λ v. v.items ≡ filter (λ e. not (e.0 == replica)) counts.now) }
{
    counts
        .iter()
        .copied()
        .filter(|entry| is_other_count(replica, entry))
        .collect(alloc)
}

/// Returns whether a count isn't the replica's.
fn is_other_count(replica: u8, entry: &(u8, Count)) -> bool
    ensures { result ≡ not (entry.now.0 == replica) }
{
    entry.0 != replica
}

/// Returns a set without the pairs of the replica.
fn pairs_without(alloc: Global, choice: &Choice, replica: u8) -> Result<Choice, Refusal>
    ensures rest { IfOk result (λ c. c ≡ pairs_without replica choice.now) }
    ensures memory { IfErr result (λ e. e ≡ refusals.Memory) }
{
    let others = other_pairs(alloc, choice.parts(), replica)?;
    let choice = Choice::from_parts(alloc, others)?;
    Ok(choice.unwrap())
}

/// Returns the pairs of other replicas.
fn other_pairs(
    alloc: Global,
    pairs: &[(Pair, bool)],
    replica: u8,
) -> Result<Vec<(Pair, bool)>, AllocError>
    ensures { IfOk result (λ v. v.items ≡ filter (λ e. not (e.0.replica == replica)) pairs.now) }
{
    pairs
        .iter()
        .copied()
        .filter(|entry| is_other_pair(replica, entry))
        .collect(alloc)
}

/// Returns whether a pair isn't the replica's.
fn is_other_pair(replica: u8, entry: &(Pair, bool)) -> bool
    ensures { result ≡ not (entry.now.0.replica == replica) }
{
    entry.0.replica != replica
}
