//! The order of formulas.

ghost use Rattle.std.specs.Prelude.{◌≡◌, refl};
ghost use Rattle.std.specs.Cmp.{partial_equiv_from_equiv, partial_order_from_total};
ghost use Rattle.std.specs.Ordering.{as_partial_cmp};
ghost use Rattle.ps_formula.specs.Order.{tree_cmp, tree_eq};
ghost use Rattle.ps_formula.specs.OrderLaws.{tree_cmp-total, tree_eq-equivalence};

use crate::formula::Formula;
use std::cmp::Ordering;

/// Formulas are equal if their trees are equal. Their trees are equal exactly if their canonical texts are equal.
///
/// Cost: linear in the shorter canonical text.
impl PartialEq for Formula {
    ghost eq = { tree_eq };

    fn eq(&self, other: &Formula) -> bool {
        self.text() == other.text()
    }

    ghost laws = { partial_equiv_from_equiv tree_eq-equivalence };
}

impl Eq for Formula {
    ghost laws = { tree_eq-equivalence };
}

/// Formulas are ordered by the bytes of their canonical texts.
///
/// Cost: linear in the shorter canonical text.
impl Ord for Formula {
    ghost cmp = { tree_cmp };

    fn cmp(&self, other: &Formula) -> Ordering {
        self.text().cmp(other.text())
    }

    ghost total = { tree_cmp-total };

    ghost matches_partial_cmp = { λ x y. refl };

    ghost matches_eq = { λ x y. refl };
}

impl PartialOrd for Formula {
    ghost partial_cmp = { as_partial_cmp tree_cmp };

    fn partial_cmp(&self, other: &Formula) -> Option<Ordering> {
        Some(self.cmp(other))
    }

    ghost laws = { partial_order_from_total tree_cmp-total };
}
