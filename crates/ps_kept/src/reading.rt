//! Reads the lines of a kept file at the start.
ghost use Rattle.std.specs.Prelude.{◌≡◌, ◌⊎◌, ◌+◌, ◌≤◌, ◌++◌, ◌∷◌, [], Err, IfOk, IfErr, OnOk};
ghost use Rattle.std.specs.Prelude.{None, Some, true, false};
ghost use Rattle.ps_grid.specs.declared.parties.TheConstants.{REPLICAS, WORKERS};
ghost use Rattle.ps_delta.specs.Deltas.{Entries};
ghost use Rattle.ps_sheet.specs.Arrivals.{Follow};
ghost use Rattle.ps_sheet.specs.Sheet.{IsSheet};
ghost use Rattle.ps_keep.specs.Lines.{whole_lines};
ghost use Rattle.ps_lines.specs.ReplicaLine.{replica_line};
ghost use Rattle.ps_kept.specs.Kept.{PushAll};
ghost use Rattle.ps_kept.specs.Starts.{IsFaultOf, IsUnbegun, PushesNew, Reads};
ghost use Rattle.ps_kept.specs.Inside.{IsPushFault};

use crate::fault::KeepFault;
use ps_eval::Meter;
use ps_grid::Refusal;
use ps_keep::first_line;
use ps_lines::{KeptLine, line_of_replica, read_kept_line};
use ps_sheet::{Arrivals, Sheet};
use ps_wire::Decoder;
use std::alloc::Global;
use std::sync::ledger::Ledger;
use std::thread::Threads;

/// Returns the bytes after the first line, which has to name this replica. If the file has only a beginning of that
/// line, no bytes follow.
fn after_first<'a>(
    alloc: Global,
    decoder: &mut Decoder,
    bytes: &'a [u8],
    replica: u8,
) -> Result<&'a [u8], KeepFault>
    requires replica { (1 ≤ replica) × (replica ≤ REPLICAS) }
    ensures read { IfOk result (λ rest. ((rest.now ≡ []) × IsUnbegun replica bytes.now)
        ⊎ (whole_lines bytes.now ≡ replica_line replica ∷ whole_lines rest.now)) }
    ensures fault { IfErr result (λ fault. IsFaultOf replica bytes.now fault) }
{
    let own = line_of_replica(alloc, replica)?;
    match first_line(bytes) {
        Some((line, rest)) => match read_kept_line(alloc, decoder, line) {
            Ok(Some(KeptLine::Replica(told))) if told == replica => Ok(rest),
            Ok(Some(KeptLine::Replica(other))) => Err(KeepFault::Replica(other)),
            Ok(Some(KeptLine::Push(_)) | None) | Err(Refusal::Delta) => Err(KeepFault::Line(1)),
            Err(Refusal::Memory) => Err(KeepFault::Memory),
            Err(_) => unreachable!(),
        },
        None if own.starts_with(bytes) => Ok(b""),
        None => Err(KeepFault::Line(1)),
    }
}

/// Adds the delta that a line pushes to `arrivals`, and returns true. Returns false if the line pushes no delta, or a
/// delta that adds nothing to those before it. Then `arrivals` is unchanged.
fn take_in(
    alloc: Global,
    decoder: &mut Decoder,
    line: &[u8],
    arrivals: &mut Arrivals,
) -> Result<bool, Refusal>
    requires follow { Follow [] arrivals.old }
    ensures taken { IfOk result (λ is. is ≡ true → (d : Entries) × PushesNew arrivals.old.deltas line.now d
        × (arrivals.new.deltas ≡ arrivals.old.deltas ++ d ∷ [])) }
    ensures refused { IfOk result (λ is. is ≡ false → (d : Entries) → ¬ PushesNew arrivals.old.deltas line.now d) }
    ensures memory { IfErr result (λ e. e ≡ Refusal.Memory) }
    ensures follow { Follow [] arrivals.new }
{
    let delta = match read_kept_line(alloc, decoder, line) {
        Ok(Some(KeptLine::Push(delta))) => delta,
        Ok(Some(KeptLine::Replica(_))) => return Ok(false),
        Ok(None) => return Ok(false),
        Err(Refusal::Delta) => return Ok(false),
        Err(Refusal::Memory) => return Err(Refusal::Memory),
        Err(_) => unreachable!(),
    };
    arrivals.receive(alloc, delta)
}

/// Adds the deltas that these lines push, those after the first line, to `arrivals`, which is still empty.
fn read_pushes(
    alloc: Global,
    decoder: &mut Decoder,
    bytes: &[u8],
    arrivals: &mut Arrivals,
) -> Result<(), KeepFault>
    requires empty { arrivals.old.deltas ≡ [] }
    requires follow { Follow [] arrivals.old }
    ensures told { OnOk result (PushAll (whole_lines bytes.now) arrivals.new.deltas) }
    ensures fault { IfErr result (IsPushFault (whole_lines bytes.now)) }
    ensures follow { Follow [] arrivals.new }
{
    let mut left = bytes;
    let mut number = 1u64;
    'lines: while let Some((line, rest)) = first_line(left) {
        match take_in(alloc, decoder, line, arrivals) {
            Ok(true) => {}
            Ok(false) => return Err(KeepFault::Line(number + 1)),
            Err(Refusal::Memory) => return Err(KeepFault::Memory),
            Err(_) => unreachable!(),
        }
        left = rest;
        number += 1;
    }
    Ok(())
}

/// Returns the deltas that these lines push, those after the first line.
fn pushed(
    alloc: Global,
    decoder: &mut Decoder,
    bytes: &[u8],
    sheet: &Sheet,
) -> Result<Arrivals, KeepFault>
    requires empty { sheet.now.history ≡ [] }
    ensures told { IfOk result (λ a. PushAll (whole_lines bytes.now) a.deltas) }
    ensures follow { IfOk result (Follow sheet.now.history) }
    ensures fault { IfErr result (IsPushFault (whole_lines bytes.now)) }
{
    let mut arrivals = match Arrivals::after(alloc, sheet) {
        Ok(arrivals) => arrivals,
        Err(Refusal::Memory) => return Err(KeepFault::Memory),
        Err(_) => unreachable!(),
    };
    match read_pushes(alloc, decoder, bytes, &mut arrivals) {
        Ok(()) => Ok(arrivals),
        Err(fault) => Err(fault),
    }
}

/// Reads the sheet of `replica` from the bytes of its kept file, by this decoder.
fn read_lines<R: Threads + Sync, L: Ledger>(
    rt: &R,
    alloc: Global,
    decoder: &mut Decoder,
    bytes: &[u8],
    replica: u8,
    workers: usize,
    meter: &mut Meter<L>,
) -> Result<Sheet, KeepFault>
    requires replica { (1 ≤ replica) × (replica ≤ REPLICAS) }
    requires workers { (1 ≤ workers) × (workers ≤ WORKERS) }
    ensures read { IfOk result (λ sheet. Reads replica bytes.now sheet.history) }
    ensures replica { IfOk result (λ sheet. sheet.replica ≡ replica) }
    ensures workers { IfOk result (λ sheet. sheet.workers ≡ workers) }
    ensures sheet { IfOk result IsSheet }
    ensures fault { IfErr result (IsFaultOf replica bytes.now) }
{
    let others = after_first(alloc, decoder, bytes, replica)?;
    let mut sheet = match Sheet::open(alloc, replica, workers) {
        Ok(sheet) => sheet,
        Err(Refusal::Memory) => return Err(KeepFault::Memory),
        Err(_) => unreachable!(),
    };
    let arrivals = match pushed(alloc, decoder, others, &sheet) {
        Ok(arrivals) => arrivals,
        Err(fault) => return Err(fault),
    };
    match sheet.receive_all(rt, alloc, arrivals, meter) {
        Ok(_) => Ok(sheet),
        Err(Refusal::Memory) => Err(KeepFault::Memory),
        Err(_) => unreachable!(),
    }
}

/// Reads the sheet of `replica` from the bytes of its kept file.
pub(crate) fn read_sheet<R: Threads + Sync, L: Ledger>(
    rt: &R,
    alloc: Global,
    bytes: &[u8],
    replica: u8,
    workers: usize,
    meter: &mut Meter<L>,
) -> Result<Sheet, KeepFault>
    requires replica { (1 ≤ replica) × (replica ≤ REPLICAS) }
    requires workers { (1 ≤ workers) × (workers ≤ WORKERS) }
    ensures read { IfOk result (λ sheet. Reads replica bytes.now sheet.history) }
    ensures replica { IfOk result (λ sheet. sheet.replica ≡ replica) }
    ensures workers { IfOk result (λ sheet. sheet.workers ≡ workers) }
    ensures sheet { IfOk result IsSheet }
    ensures fault { IfErr result (IsFaultOf replica bytes.now) }
{
    let mut decoder = Decoder::new(alloc);
    read_lines(rt, alloc, &mut decoder, bytes, replica, workers, meter)
}
