//! Labels that several owners share.
ghost use Rattle.std.specs.Prelude.{◌≡◌, IfOk, IfErr, nat_eq};
ghost use Rattle.std.specs.Cmp.Lexicographic.{pointwise, nat_list_eq_equiv};
ghost use Rattle.std.specs.Cmp.{partial_equiv_from_equiv};
ghost use Rattle.ps_grid.specs.declared.refusal.Refusal.TheVariants.{Memory};

use crate::label::Label;
use ps_grid::{Refusal, Twin};
use std::alloc::Global;
use std::marker::Model;
use std::sync::Arc;

/// A label on the heap with any number of owners. Contracts see the bytes of the label.
#[derive(Drop)]
pub struct SharedLabel {
    label: Arc<Label>,
}

impl Model for SharedLabel {
    ghost use Rattle.std.specs.Prelude.{List, ℕ};

    ghost Value = { List ℕ };

    ghost use Rattle.std.specs.Arc.{arc_value};

    ghost view = { λ s. arc_value s.label };
}

impl SharedLabel {
    /// Creates a shared label with one owner. Refused only when out of memory.
    ///
    /// Cost: one allocation.
    pub fn new(alloc: Global, label: Label) -> Result<SharedLabel, Refusal>
        ensures shared { IfOk result (λ s. s ≡ label) }
        ensures memory { IfErr result (λ e. e ≡ Memory) }
    {
        let label = Arc::new(alloc, label)?;
        Ok(SharedLabel { label })
    }

    /// Returns the label.
    pub fn label(&self) -> &Label
        ensures { result.now ≡ self.now }
    {
        &self.label
    }
}

/// A twin (a copy) is one more owner of the same label, and takes no memory.
impl Twin for SharedLabel {
    fn twin(&self, alloc: Global) -> Result<SharedLabel, Refusal> {
        let _ = alloc;
        let label = self.label.clone()?;
        Ok(SharedLabel { label })
    }
}

/// Shared labels are equal if their bytes are.
impl PartialEq for SharedLabel {
    ghost eq = { pointwise nat_eq };

    ghost laws = { partial_equiv_from_equiv nat_list_eq_equiv };

    fn eq(&self, other: &SharedLabel) -> bool {
        self.label() == other.label()
    }
}

impl Eq for SharedLabel {
    ghost laws = { nat_list_eq_equiv };
}
