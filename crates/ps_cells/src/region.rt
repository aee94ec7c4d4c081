//! The region of a change: the cells whose values may change. While one cell gets one entry after another, none of them
//! a formula, the region stays and isn't marked again.

ghost use Rattle.std.specs.Prelude.{◌≡◌, ◌<◌, ◌∷◌, [], ℕ, true, false, IfSome, Some};
ghost use Rattle.ps_formula.specs.References.{mentions};
ghost use Rattle.ps_grid.specs.Chains.{In};
ghost use Rattle.ps_delta.specs.State.{State, state_at};
ghost use Rattle.ps_eval.specs.Items.{Assignment};
ghost use Rattle.ps_region.specs.Found.{IsFound, has_left};
ghost use Rattle.ps_region.specs.Listed.{listed};
ghost use Rattle.ps_cells.specs.Settled.{refers_to};
ghost use Rattle.ps_cells.specs.Inside.Steps.{AreListed};
ghost use Rattle.ps_cells.specs.Inside.Walk.{formula_at, IsStateChange, IsRegionOf, HoldsCyclic};

use crate::contents::{formula_of, holds_formula};
use ps_delta::Grid;
use ps_formula::Formula;
use ps_grid::{CELLS, Cell, Rect};
use ps_index::Index;
use ps_region::{After, CellSet, Region};

/// The formulas that the cells hold, as `Region::mark` reads them.
#[derive(Drop)]
struct FormulasAfter<'a> {
    grid: &'a Grid,
}

impl After for FormulasAfter<'_> {
    ghost use Rattle.ps_delta.specs.State.{state_at};
    ghost use Rattle.ps_cells.specs.Settled.{refers_to};
    ghost use Rattle.ps_cells.specs.Inside.Walk.{formula_at};
    ghost use Rattle.ps_cells.specs.Inside.Bounded.{bounded};
    ghost use Rattle.ps_cells.specs.Inside.BoundedLaws.{bounded_above, bounded_below, bounded_formula};

    ghost refers = { λ f. bounded (refers_to (state_at f.grid.now)) };

    ghost formula = { λ f. formula_at (state_at f.grid.now) };

    fn refers(&self, c: Cell, d: Cell) -> bool {
        // for the facts that both cells are in the grid
        let _ = (c.index(), d.index());
        match formula_of(self.grid.at(c)) {
            None => false,
            Some(formula) => refers(formula, d),
        }
    }

    fn rects(&self, c: Cell) -> &[Rect] {
        // for the fact that the cell is in the grid
        let _ = c.index();
        match formula_of(self.grid.at(c)) {
            None => &[],
            Some(formula) => formula.rects(),
        }
    }

    fn is_formula(&self, c: Cell) -> bool {
        holds_formula(self.grid.at(c))
    }

    ghost refers_formula = { λ f c d r. bounded_formula (state_at f.grid.now) c d r };

    ghost refers_below = { λ f c d r. bounded_below (refers_to (state_at f.grid.now)) c d r };

    ghost below = { λ f c d r. bounded_above (refers_to (state_at f.grid.now)) c d r };
}

/// Whether the formula refers to the cell.
fn refers(formula: &Formula, cell: Cell) -> bool
    ensures { result ≡ mentions formula.now cell }
{
    for rect in formula.rects() {
        if rect.contains(cell) {
            return true;
        }
    }
    false
}

/// Returns the cell of a list that has only one.
fn sole(cells: &[Cell]) -> Option<Cell>
    ensures { IfSome result (λ c. cells.now ≡ c ∷ []) }
{
    match *cells {
        [cell] => Some(cell),
        _ => None,
    }
}

/// Returns whether `region`, found for a change of the cell `source` alone, is also the region of this change: only
/// `source` is touched, and it had no formula and has none.
fn stays(grid: &Grid, region: &Region, source: Option<Cell>, touched: &[Cell]) -> bool
    ensures { result ≡ true → (c : ℕ) × (source ≡ Some c) × (touched.now ≡ c ∷ [])
        × (has_left region.now c ≡ false) × (formula_at (state_at grid.now) c ≡ false) }
{
    let Some(cell) = source else {
        return false;
    };
    if sole(touched) != Some(cell) || region.is_formula(cell) {
        return false;
    }
    !holds_formula(grid.at(cell))
}

/// Finds the region of a change, or leaves the region of the change before if it is the same.
pub(crate) fn find_region(
    grid: &Grid,
    index: &Index,
    touched: &[Cell],
    cyclic: &CellSet,
    region: &mut Region,
    source: &mut Option<Cell>,
)
    requires change { (s : State) × (v : Assignment) × IsStateChange s (state_at grid.now) v touched.now
        × HoldsCyclic s cyclic.now × IsRegionOf s source.old region.old }
    requires inside { (c : ℕ) → In touched.now c → c < CELLS }
    requires lists { AreListed (refers_to (state_at grid.now)) touched.now (listed index.now) }
    ensures found { IsFound (refers_to (state_at grid.now)) (formula_at (state_at grid.now)) touched.now region.new }
    ensures source { IsRegionOf (state_at grid.now) source.new region.new }
{
    if stays(grid, region, *source, touched) {
        return;
    }
    region.mark(index, &FormulasAfter { grid }, touched, cyclic);
    *source = sole(touched);
}
