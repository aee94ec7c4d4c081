//! Laws of the grammar. Each function does nothing: its contract is the law.

ghost use Rattle.ps_formula.specs.Formula.{CanonicalTextHasTree, OneTree};
ghost use Rattle.ps_formula.specs.Order.{OrderedByText};

/// States that a text has at most one tree by the grammar of formulas.
pub fn one_tree()
    ensures { OneTree }
{}

/// States that the canonical text of a formula has the same tree as the formula.
pub fn canonical_text_has_tree()
    ensures { CanonicalTextHasTree }
{}

/// States that formulas are ordered as the bytes of their canonical texts are.
pub fn ordered_by_text()
    ensures { OrderedByText }
{}
