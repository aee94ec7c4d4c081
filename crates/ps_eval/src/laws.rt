//! Laws of the value of a formula, for the recalculation. Each function does nothing: its contract is the law.

ghost use Rattle.ps_eval.specs.Laws.{CycleComesFromReferences, DependsOnReferencesAlone};

/// States that the value of a formula depends only on the values of the cells that the formula refers to.
pub fn depends_on_references_alone()
    ensures { DependsOnReferencesAlone }
{}

/// States that a formula has the value `Fault::Cycle` only if a cell that the formula refers to shows `Fault::Cycle`.
pub fn cycle_comes_from_references()
    ensures { CycleComesFromReferences }
{}
