//! Laws of the definitions that several crates use. Each function does nothing: its contract is the law.

ghost use Rattle.ps_grid.specs.Chains.{LongChainsRepeat, LongListsRepeat};
ghost use Rattle.ps_grid.specs.Refusals.{NumbersDiffer};

/// States that no two refusals have the same number.
pub fn refusal_numbers_differ()
    ensures { NumbersDiffer }
{}

/// States that a list of more than `CELLS` cells contains some cell twice.
///
/// Also states that a chain of more than `CELLS` references contains some cell twice. A chain is a list of cells where
/// the formula of each refers to the next.
pub fn long_chains_repeat()
    ensures lists { LongListsRepeat }
    ensures chains { LongChainsRepeat }
{}
