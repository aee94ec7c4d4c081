//! A formula, and how to read one from bytes.

ghost use Rattle.std.specs.Prelude.{◌≡◌, ℕ, ◌<◌, ◌≤◌, ◌⊎◌, List, length, IfOk, IfErr, IfNone, IfSome, MatchResult};
ghost use Rattle.std.specs.List.{list_any};
ghost use Rattle.ps_grid.specs.Rectangle.{is_inside};
ghost use Rattle.ps_formula.specs.Formula.{Opens};
ghost use Rattle.ps_grid.specs.declared.refusal.Refusal.TheVariants.{Memory, TooLong, Formula as NoFormula};

use crate::expr::Expr;
use crate::rects::Rects;
use crate::{kept, parser};
use ps_grid::{Cell, Rect, Refusal};
use ps_tokens::{Token, tokens};
use std::alloc::Global;
use std::marker::Model;

/// The most bytes of an entry. An entry is what a person types into a cell.
pub const LONGEST_ENTRY: usize = 512;

/// The most bytes of a formula's canonical text.
pub const LONGEST_TEXT: usize = 256;

/// A formula: its tree, its canonical text and its references.
///
/// Contracts see only the tree. So two formulas with the same tree are equal, even if they were spelled differently.
#[derive(Drop)]
pub struct Formula {
    tree: Expr,
    /// the canonical text
    text: Vec<u8>,
    /// each reference and range, from left to right
    rects: Rects,
}

impl Model for Formula {
    ghost use Rattle.ps_formula.specs.Tree.{Tree};
    ghost use Rattle.ps_formula.specs.TreeCode.{tree_code};

    ghost Value = { Tree };

    ghost coded = { tree_code };

    ghost use Rattle.ps_formula.specs.TreeOf.{tree_of};
    ghost use Rattle.ps_formula.specs.Inside.Parts.{FitTogether, in_line};

    ghost view = { λ f. tree_of f.tree };

    ghost invariant = { λ f. FitTogether (tree_of f.tree) f.text.items (in_line f.rects) };
}

impl Formula {
    ghost use Rattle.ps_formula.specs.Tree.{Tree};
    ghost use Rattle.ps_formula.specs.TreeOf.{tree_of};
    ghost use Rattle.ps_formula.specs.Canonical.{canon};
    ghost use Rattle.ps_formula.specs.Formula.{HasTree};
    ghost use Rattle.ps_formula.specs.References.{rects_of, mentions};

    /// Parses the bytes as a formula, which begins with `=` or `of:=`, and returns the formula.
    ///
    /// # Errors
    ///
    /// - `TooLong`: more than `LONGEST_ENTRY` bytes, or a canonical text of more than `LONGEST_TEXT` bytes.
    /// - `Formula`: the bytes are no formula by the grammar.
    /// - `Memory`: out of memory.
    ///
    /// Cost: linear in the bytes. Allocations: one for each operator, sign and group, the growing list of each call's
    /// arguments, one each for the tokens and the text, and one for the rectangles if there are more than three.
    pub fn read(alloc: Global, bytes: &[u8]) -> Result<Formula, Refusal>
        ensures short { IfOk result (λ _. length bytes.now ≤ LONGEST_ENTRY) }
        ensures found { IfOk result (λ t. HasTree bytes.now t) }
        ensures fits { IfOk result (λ t. length (canon t) ≤ LONGEST_TEXT) }

        ensures read { (t : Tree)
            → length bytes.now ≤ LONGEST_ENTRY
            → HasTree bytes.now t
            → length (canon t) ≤ LONGEST_TEXT
            → MatchResult result (λ u. u ≡ t) (λ e. e ≡ Memory) }

        ensures no_formula { result ≡ Err NoFormula
            → (length bytes.now ≤ LONGEST_ENTRY) × ((t : Tree) → HasTree bytes.now t → ⊥) }
        ensures too_long { result ≡ Err TooLong
            → (LONGEST_ENTRY < length bytes.now)
            ⊎ ((t : Tree) × HasTree bytes.now t × (LONGEST_TEXT < length (canon t))) }
        ensures refused { IfErr result (λ e. (e ≡ NoFormula) ⊎ ((e ≡ TooLong) ⊎ (e ≡ Memory))) }
    {
        if bytes.len() > LONGEST_ENTRY {
            return Err(Refusal::TooLong);
        }
        let Some(rest) = after_opening(bytes) else {
            return Err(Refusal::Formula);
        };
        let found = tokens(alloc, rest)?;
        let tokens: &[Token] = &found;
        let tree = parser::whole(alloc, tokens)?;
        let text = kept::text(alloc, bytes.len(), tokens)?;
        if text.len() > LONGEST_TEXT {
            return Err(Refusal::TooLong);
        }
        let rects = kept::rects(alloc, tokens)?;
        Ok(Formula { tree, text, rects })
    }

    /// Returns the tree of the formula.
    pub fn tree(&self) -> &Expr
        ensures { tree_of result.now ≡ self.now }
    {
        &self.tree
    }

    /// Returns the canonical text: the one spelling that all formulas with this tree share. By the grammar, this text
    /// has the same tree.
    pub fn text(&self) -> &[u8]
        ensures canonical { result.now ≡ canon self.now }
        ensures has_tree { HasTree result.now self.now }
        ensures fits { length result.now ≤ LONGEST_TEXT }
    {
        &self.text
    }

    /// Returns each reference and range of the formula as a rectangle, from left to right, those in both branches of an
    /// IF included. A reference is a rectangle of one cell.
    pub fn rects(&self) -> &[Rect]
        ensures each { result.now ≡ rects_of self.now }
        ensures covered { (c : ℕ) → list_any (λ r. is_inside r c) result.now ≡ mentions self.now c }
    {
        self.rects.as_slice()
    }
}

/// Returns the bytes after the opening of a formula, `=` or `of:=`; `None` if the bytes begin with neither.
fn after_opening(bytes: &[u8]) -> Option<&[u8]>
    ensures found { IfSome result (λ rest. Opens bytes.now rest.now) }
    ensures none { IfNone result ((rest : List ℕ) → Opens bytes.now rest → ⊥) }
{
    match bytes {
        [b'=', rest @ ..] => Some(rest),
        [b'o', b'f', b':', b'=', rest @ ..] => Some(rest),
        _ => None,
    }
}

/// A collection that finds the formula of a cell, such as the cells of a sheet.
pub trait Formulas {
    ghost use Rattle.std.specs.Prelude.{Option, ℕ};
    ghost use Rattle.std.specs.Option.{option_copied};
    ghost use Rattle.ps_formula.specs.Tree.{Tree};

    /// The tree of the cell's formula; `None` if the cell holds no formula.
    ghost formula_at: { Self → ℕ → Option Tree };

    /// Returns the cell's formula; `None` if the cell holds no formula.
    fn formula(&self, cell: Cell) -> Option<&Formula>
        ensures { option_copied result ≡ formula_at self.now cell };
}
