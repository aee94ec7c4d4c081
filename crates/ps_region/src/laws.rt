//! Laws of regions and of what an index lists. Each law is the contract of a function that does nothing.

ghost use Rattle.std.specs.Prelude.{◌≡◌, ℕ, ◌<◌, nat_eq};
ghost use Rattle.std.specs.List.{list_any};
ghost use Rattle.ps_grid.specs.declared.size.TheConstants.{CELLS as ALL};
ghost use Rattle.ps_index.specs.Stands.{Puts, Stands, refers};
ghost use Rattle.ps_region.specs.Laws.{SameCyclicOutside, SameRegion};
ghost use Rattle.ps_region.specs.Listed.{listed};
ghost use Rattle.ps_region.specs.Values.{OutsideKeeps, QuietKeeps};

use ps_index::Index;

/// States that an index lists for a cell `d` exactly the cells with a formula that refers to `d`. The list is what
/// `Index::dependents` yields, and the formulas are those that the index stands for (`Stands`).
pub fn listed_cells_refer(index: &Index)
    ensures { (forms : Puts) → Stands index.now forms → (c d : ℕ) → c < ALL → d < ALL
        → list_any (nat_eq c) (listed index.now d) ≡ refers forms c d }
{}

/// States that the references before a change and those after it give the change the same region. The law needs that
/// only touched cells refer to other cells than before.
pub fn old_and_new_give_one_region()
    ensures { SameRegion }
{}

/// States that a cell outside the region of a change is cyclic after the change exactly if it was cyclic before.
pub fn cycles_stay_outside()
    ensures { SameCyclicOutside }
{}

/// States that each cell outside the region of a change keeps its value.
///
/// `V` is the type of values. The law holds for any evaluation of formulas with two properties. The value of a formula
/// depends only on the cells that the formula refers to. It is the fault of a cycle only if one of these cells has that
/// fault.
pub fn cells_outside_keep_their_values<V>()
    ensures { OutsideKeeps V }
{}

/// States that some formula cells of the region keep their values: those that reach no cycle, aren't touched, and refer
/// to no cell whose value changes.
///
/// The law holds for the evaluations that `cells_outside_keep_their_values` describes, if it is decidable whether two
/// values of type `V` are equal.
pub fn quiet_cells_keep_their_values<V>()
    ensures { QuietKeeps V }
{}
