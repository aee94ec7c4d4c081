//! Squashes a whole source of lines.
ghost use Rattle.std.specs.Prelude.{◌≡◌, ◌≢◌, ◌⊎◌, ◌<◌, ◌∷◌, ℕ, List, [], Err, IfErr, IfOk, OnOk, take};
ghost use Rattle.std.specs.Io.KnownBytes.{Appends, Consumes, IsAtEnd};
ghost use Rattle.ps_grid.specs.declared.refusal.Refusal.TheVariants as refusals;
ghost use Rattle.ps_delta.specs.State.{state_at};
ghost use Rattle.ps_wire.specs.Fits.{FitsLine};
ghost use Rattle.ps_squash.specs.Squashed.{FirstFault, HasWideCell, IsSquashed, told_line};
ghost use Rattle.ps_squash.specs.Selected.{HasWideCellInPart, IsSquashedInPart};
ghost use Rattle.ps_squash.specs.Inside.{IsText};
ghost use Rattle.ps_squash.specs.declared.fault.SquashFault.TheVariants.{Line as FaultyLine};

use crate::fault::SquashFault;
use crate::intake::taken_in;
use crate::lines::put_lines;
use crate::selection::{LeftOut, Selection};
use ps_delta::Grid;
use ps_device::{Sink, Source, hand_on, put_all};
use ps_grid::Refusal;
use ps_lines::put_replica_line;
use std::alloc::Global;

/// Reads the delta lines of a source to its end, writes the join of their deltas in as few change lines as fit, and
/// flushes the sink.
///
/// - A delta that is read may have the word `push` before it. Each change line that is written has the word `push`, and
///   as many cells as fit.
/// - An empty line and a line with a digest, such as `replica 0123456789abcdef`, are skipped, wherever they stand.
/// - If the first line names the replica of a kept file, such as `replica 1`, this line is written first.
///
/// Nothing is written before all lines are read.
///
/// # Errors
///
/// - `Line`: the number of the first faulty line. It isn't empty, has no digest, is no delta's line, and isn't a first
///   line that names the replica.
/// - `TooLong`: the joined state of one cell is too long for a line. Only lines in which a replica uses one sequence
///   number for several options can make a state that long, and no sheet writes such lines.
/// - `Memory`: out of memory.
/// - `Source`: the source failed.
/// - `Sink`: the sink failed, perhaps after a beginning of the text. After any other error nothing was written.
///
/// Cost: that of reading the lines and of joining their deltas, of the cells of the grid, and of twice the text that is
/// written. It takes memory for the joined state, one line, and the text.
pub fn squash<S: Source, K: Sink>(
    alloc: Global,
    source: &mut S,
    sink: &mut K,
) -> Result<(), SquashFault>
    ensures squashed { OnOk result ((read : List ℕ) × (text : List ℕ)
        × Consumes (S.remaining source.old) (S.remaining source.new) read × IsAtEnd (S.remaining source.new)
        × IsSquashed read text × Appends (K.contents sink.old) (K.contents sink.new) text) }
    ensures flushed { OnOk result (K.waiting sink.new ≡ []) }
    ensures calm { OnOk result ((S.failures source.new ≡ S.failures source.old)
        × (K.failures sink.new ≡ K.failures sink.old)) }
    ensures faulty { (number : ℕ) → result ≡ Err (FaultyLine number)
        → (read : List ℕ) × Consumes (S.remaining source.old) (S.remaining source.new) read
        × FirstFault (IsAtEnd (S.remaining source.new)) read number }
    ensures wide { result ≡ Err SquashFault.TooLong
        → (read : List ℕ) × Consumes (S.remaining source.old) (S.remaining source.new) read
        × IsAtEnd (S.remaining source.new) × HasWideCell read }
    ensures source { result ≡ Err SquashFault.Source → S.failures source.old < S.failures source.new }
    ensures sink { result ≡ Err SquashFault.Sink → (K.failures sink.old < K.failures sink.new)
        × (read : List ℕ) × (text : List ℕ) × (count : ℕ)
        × Consumes (S.remaining source.old) (S.remaining source.new) read × IsAtEnd (S.remaining source.new)
        × IsSquashed read text × Appends (K.contents sink.old) (K.contents sink.new) (take count text) }
    ensures unwritten { IfErr result (λ f. f ≢ SquashFault.Sink → sink.new ≡ sink.old) }
{
    match squash_in_part(alloc, source, sink, Selection::all()) {
        Ok(_) => Ok(()),
        Err(fault) => Err(fault),
    }
}

/// Squashes the selected part of a source's lines, as [`squash`] squashes all lines, and returns what was left out.
///
/// The function takes the deltas of the first `selection.until` change lines, without what the replica
/// `selection.without` assigned, counted and chose. The later lines are read, but not taken. If one of these is
/// faulty, the function fails.
///
/// # Errors
///
/// Those of [`squash`].
///
/// Cost: that of [`squash`]. With `selection.without`, also a copy of each delta, and one byte for each cell of the
/// grid.
pub fn squash_in_part<S: Source, K: Sink>(
    alloc: Global,
    source: &mut S,
    sink: &mut K,
    selection: Selection,
) -> Result<LeftOut, SquashFault>
    ensures squashed { OnOk result ((read : List ℕ) × (text : List ℕ)
        × Consumes (S.remaining source.old) (S.remaining source.new) read × IsAtEnd (S.remaining source.new)
        × IsSquashedInPart selection read text × Appends (K.contents sink.old) (K.contents sink.new) text) }
    ensures flushed { OnOk result (K.waiting sink.new ≡ []) }
    ensures calm { OnOk result ((S.failures source.new ≡ S.failures source.old)
        × (K.failures sink.new ≡ K.failures sink.old)) }
    ensures faulty { (number : ℕ) → result ≡ Err (FaultyLine number)
        → (read : List ℕ) × Consumes (S.remaining source.old) (S.remaining source.new) read
        × FirstFault (IsAtEnd (S.remaining source.new)) read number }
    ensures wide { result ≡ Err SquashFault.TooLong
        → (read : List ℕ) × Consumes (S.remaining source.old) (S.remaining source.new) read
        × IsAtEnd (S.remaining source.new) × HasWideCellInPart selection read }
    ensures source { result ≡ Err SquashFault.Source → S.failures source.old < S.failures source.new }
    ensures sink { result ≡ Err SquashFault.Sink → (K.failures sink.old < K.failures sink.new)
        × (read : List ℕ) × (text : List ℕ) × (count : ℕ)
        × Consumes (S.remaining source.old) (S.remaining source.new) read × IsAtEnd (S.remaining source.new)
        × IsSquashedInPart selection read text × Appends (K.contents sink.old) (K.contents sink.new) (take count text) }
    ensures unwritten { IfErr result (λ f. f ≢ SquashFault.Sink → sink.new ≡ sink.old) }
{
    let (text, left_out) = match squashed(alloc, source, selection) {
        Ok(squashed) => squashed,
        Err(fault) => return Err(fault),
    };
    match put_all(sink, &text) {
        Ok(()) => {}
        Err(_) => return Err(SquashFault::Sink),
    }
    match hand_on(sink) {
        Ok(()) => Ok(left_out),
        Err(_) => Err(SquashFault::Sink),
    }
}

/// Returns the text of the squashed lines, with the replica's line first if the source has one, and what was left out.
fn squashed<S: Source>(
    alloc: Global,
    source: &mut S,
    selection: Selection,
) -> Result<(Vec<u8>, LeftOut), SquashFault>
    ensures squashed { IfOk result (λ r. (read : List ℕ)
        × Consumes (S.remaining source.old) (S.remaining source.new) read × IsAtEnd (S.remaining source.new)
        × IsSquashedInPart selection read r.0.items) }
    ensures faulty { (number : ℕ) → result ≡ Err (FaultyLine number)
        → (read : List ℕ) × Consumes (S.remaining source.old) (S.remaining source.new) read
        × FirstFault (IsAtEnd (S.remaining source.new)) read number }
    ensures wide { result ≡ Err SquashFault.TooLong
        → (read : List ℕ) × Consumes (S.remaining source.old) (S.remaining source.new) read
        × IsAtEnd (S.remaining source.new) × HasWideCellInPart selection read }
    ensures calm { IfOk result (λ _. S.failures source.new ≡ S.failures source.old) }
    ensures failed { result ≡ Err SquashFault.Source → S.failures source.old < S.failures source.new }
    ensures sink { result ≢ Err SquashFault.Sink }
{
    let (told, taken) = match taken_in(alloc, source, selection) {
        Ok(taken) => taken,
        Err(fault) => return Err(fault),
    };
    match text_of(alloc, told, &taken.state) {
        Ok(text) => Ok((text, taken.left_out())),
        Err(Refusal::TooLong) => Err(SquashFault::TooLong),
        Err(Refusal::Memory) => Err(SquashFault::Memory),
        Err(_) => unreachable!(),
    }
}

/// Returns the text of the replica's line, if there is a replica, and of the change lines for the cells of a state.
fn text_of(alloc: Global, told: Option<u8>, state: &Grid) -> Result<Vec<u8>, Refusal>
    ensures same { IfOk result (λ text. IsText told (state_at state.now) text.items) }
    ensures wide { IfErr result (λ e. e ≡ refusals.TooLong
        → (c : ℕ) × ¬ FitsLine ((c, state_at state.now c) ∷ [])) }
    ensures refused { IfErr result (λ e. (e ≡ refusals.TooLong) ⊎ (e ≡ refusals.Memory)) }
{
    let entries = state.entries(alloc)?;
    let mut text = begun(alloc, told)?;
    match put_lines(alloc, &entries, &mut text) {
        Ok(()) => Ok(text),
        Err(refusal) => Err(refusal),
    }
}

/// Returns the text of the replica's line, or an empty text if there is no replica.
fn begun(alloc: Global, told: Option<u8>) -> Result<Vec<u8>, Refusal>
    ensures line { IfOk result (λ text. text.items ≡ told_line told) }
    ensures memory { IfErr result (λ e. e ≡ refusals.Memory) }
{
    let mut text = Vec::new(alloc);
    if let Some(replica) = told {
        put_replica_line(replica, &mut text)?;
        text.push(b'\n')?;
    }
    Ok(text)
}
