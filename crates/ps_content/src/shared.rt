//! A formula that several contents share.
ghost use Rattle.std.specs.Prelude.{◌≡◌, IfOk, IfErr};
ghost use Rattle.ps_grid.specs.declared.refusal.Refusal.TheVariants.{Memory};

use ps_formula::Formula;
use ps_grid::{Refusal, Twin};
use std::alloc::Global;
use std::marker::Model;
use std::sync::Arc;

/// A reference-counted formula, with one or more owners. A contract sees a shared formula as the formula's tree.
#[derive(Drop)]
pub struct SharedFormula {
    formula: Arc<Formula>,
}

impl Model for SharedFormula {
    ghost use Rattle.ps_formula.specs.Tree.{Tree};
    ghost use Rattle.ps_formula.specs.TreeCode.{tree_code};

    ghost Value = { Tree };

    ghost coded = { tree_code };

    ghost use Rattle.std.specs.Arc.{arc_value};

    ghost view = { λ s. arc_value s.formula };
}

impl SharedFormula {
    /// Creates a shared formula with one owner.
    ///
    /// Fails only when out of memory.
    ///
    /// Cost: one allocation.
    pub fn new(alloc: Global, formula: Formula) -> Result<SharedFormula, Refusal>
        ensures shared { IfOk result (λ s. s ≡ formula) }
        ensures memory { IfErr result (λ e. e ≡ Memory) }
    {
        let formula = Arc::new(alloc, formula)?;
        Ok(SharedFormula { formula })
    }

    /// Returns a reference to the formula that the owners share.
    pub fn formula(&self) -> &Formula
        ensures { result.now ≡ self.now }
    {
        &self.formula
    }
}

impl Twin for SharedFormula {
    fn twin(&self, alloc: Global) -> Result<SharedFormula, Refusal> {
        // one more owner takes no memory
        let _ = alloc;
        let formula = self.formula.clone()?;
        Ok(SharedFormula { formula })
    }
}
