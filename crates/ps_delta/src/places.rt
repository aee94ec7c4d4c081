//! Lists joined position by position.

ghost use Rattle.std.specs.Prelude.{◌≡◌, ◌↔◌, IsTrue, IfOk, IfErr};
ghost use Rattle.ps_grid.specs.declared.refusal.Refusal.{Refusal};
ghost use Rattle.ps_delta.specs.Places.{joined_places};

use ps_grid::Refusal;
use ps_lattice::{Join, Merge};
use std::alloc::Global;

/// Returns both lists joined position by position. The items past the end of the shorter list are copied.
pub(crate) fn joined<X: Merge>(alloc: Global, mine: &[X], theirs: &[X]) -> Result<Vec<X>, Refusal>
    ensures ok { IfOk result (λ v. v.items ≡ joined_places X.joined mine.now theirs.now) }
    ensures memory { IfErr result (λ e. e ≡ Refusal.Memory) }
{
    let mut all = Vec::with_capacity(alloc, mine.len().max(theirs.len()))?;
    for (i, item) in mine.iter().enumerate() {
        let both = if i < theirs.len() {
            item.joined_with(alloc, &theirs[i])?
        } else {
            item.twin(alloc)?
        };
        all.push(both)?;
    }
    for k in mine.len()..theirs.len() {
        all.push(theirs[k].twin(alloc)?)?;
    }
    Ok(all)
}

/// Returns whether joining `mine` into `theirs`, position by position, changes nothing.
pub(crate) fn are_below<X: Join>(mine: &[X], theirs: &[X]) -> bool
    ensures { IsTrue result ↔ (joined_places X.joined theirs.now mine.now ≡ theirs.now) }
{
    if mine.len() > theirs.len() {
        return false;
    }
    for (i, item) in mine.iter().enumerate() {
        if !item.below(&theirs[i]) {
            return false;
        }
    }
    true
}
