//! Finds the deltas that a `pull` asks for.
ghost use Rattle.std.specs.Prelude.{◌≡◌, ◌⊎◌, ◌↔◌, ◌<◌, Err, IfErr, IfOk, drop, length, take};

use ps_delta::Delta;
use ps_grid::{Refusal, Twin};
use std::alloc::Global;

/// Returns copies of the deltas that follow the first `from` deltas of a history, in order and at most `most`.
///
/// # Errors
///
/// - `Version`: the history has fewer than `from` deltas.
/// - `Memory`: out of memory; only if there is a delta to return.
///
/// Cost: that of a [`Twin`] of each delta that is returned.
// Inlined with its callee, as a pull of one delta is cheap.
#[inline(always)]
pub fn deltas_after(
    alloc: Global,
    history: &[Delta],
    from: u64,
    most: usize,
) -> Result<Vec<Delta>, Refusal>
    ensures deltas { IfOk result (λ ds. ds.items ≡ take most (drop from history.now)) }
    ensures above { (result ≡ Err Refusal.Version) ↔ (length history.now < from) }
    ensures memory { result ≡ Err Refusal.Memory → from < length history.now }
    ensures refused { IfErr result (λ e. (e ≡ Refusal.Version) ⊎ (e ≡ Refusal.Memory)) }
{
    if from > history.len() as u64 {
        return Err(Refusal::Version);
    }
    if from == history.len() as u64 {
        return Ok(Vec::new(alloc));
    }
    let later = &history[from as usize..];
    copy_deltas(alloc, &later[..most.min(later.len())])
}

/// Copies the deltas, each as a twin.
#[inline(always)]
fn copy_deltas(alloc: Global, deltas: &[Delta]) -> Result<Vec<Delta>, Refusal>
    ensures copied { IfOk result (λ ds. ds.items ≡ deltas.now) }
    ensures memory { IfErr result (λ e. e ≡ Refusal.Memory) }
{
    let mut copies = Vec::with_capacity(alloc, deltas.len())?;
    // a `match`, as `?` would move each copy once more
    'deltas: for delta in deltas {
        match delta.twin(alloc) {
            Ok(copy) => copies.push_reserved(copy),
            Err(refusal) => return Err(refusal),
        }
    }
    Ok(copies)
}
