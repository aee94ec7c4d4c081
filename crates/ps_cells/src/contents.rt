//! What a cell holds.

ghost use Rattle.std.specs.Prelude.{◌≡◌, IfErr, IfOk};
ghost use Rattle.std.specs.Option.{option_copied, option_map};
ghost use Rattle.ps_content.specs.Order.{formula_in};
ghost use Rattle.ps_shown.specs.Kept.{value_of as value_kept};
ghost use Rattle.ps_cells.specs.Settled.{content_of, options_of};
ghost use Rattle.ps_cells.specs.Inside.Waiting.{first_by, first_value, is_formula};

use ps_content::Content;
use ps_delta::CellState;
use ps_formula::Formula;
use ps_grid::{Refusal, Twin};
use ps_lattice::Choice;
use ps_shown::Kept;
use ps_value::Fault;
use std::alloc::Global;

/// Returns the content of a cell's register; `None` if no content was ever assigned to the cell.
pub fn content(state: &CellState) -> Option<&Content>
    ensures { option_copied result ≡ option_map (λ a. a.content) state.now.register }
{
    state.register.content()
}

/// Returns the formula of a cell, if its content is one.
pub(crate) fn formula_of(state: &CellState) -> Option<&Formula>
    ensures { option_copied result ≡ formula_in (content_of state.now) }
{
    content(state)?.formula()
}

/// Whether the content of a cell is a formula.
pub(crate) fn holds_formula(state: &CellState) -> bool
    ensures { result ≡ is_formula (content_of state.now) }
{
    formula_of(state).is_some()
}

/// Returns what a recalculation stores for a cell at first: `#CYCLE!` for a formula, which waits for its evaluation,
/// and the value of any other content.
///
/// Fails only when out of memory.
#[inline(always)]
pub(crate) fn first_of(alloc: Global, state: &CellState) -> Result<Kept, Refusal>
    ensures first { IfOk result (λ k. value_kept k ≡ first_value state.now) }
    ensures memory { IfErr result (λ e. e ≡ Refusal.Memory) }
{
    match content(state) {
        None => Ok(Kept::Empty),
        Some(content) => first_by(alloc, content, state),
    }
}

/// Returns what a recalculation stores at first for a cell with this content.
#[inline(always)]
fn first_by(alloc: Global, content: &Content, state: &CellState) -> Result<Kept, Refusal>
    ensures first { IfOk result (λ k. value_kept k ≡ first_by content.now state.now) }
    ensures memory { IfErr result (λ e. e ≡ Refusal.Memory) }
{
    match content {
        Content::Blank => Ok(Kept::Empty),
        Content::Number(number) => Ok(Kept::Num(*number)),
        Content::Text(text) => Ok(Kept::Text(text.twin(alloc)?)),
        Content::Formula(_) => Ok(Kept::Err(Fault::Cycle)),
        Content::Tally => Ok(Kept::Num(state.tally.value())),
        Content::Choice => Ok(Kept::Choice(options_of(&state.choice))),
    }
}

/// Returns the chosen options as a number: bit k stands for option k.
fn options_of(choice: &Choice) -> u64
    ensures { result ≡ options_of choice.now }
{
    choice.options()
}
