//! Adds the lines of deltas to a journal.
ghost use Rattle.std.specs.Prelude.{◌≡◌, ◌+◌, ◌<◌, ◌≤◌, ◌^◌, ◌∷◌, ℕ, [], OnOk, OnErr, length, take};
ghost use Rattle.ps_lines.specs.PushLine.{Pushes, push_line};
ghost use Rattle.ps_kept.specs.Kept.{Notes};

use ps_delta::Delta;
use ps_device::Failed;
use ps_grid::Refusal;
use ps_keep::{Device, Journal};
use ps_lines::put_push_line;
use std::alloc::Global;

/// Replaces the contents of `line` by the change line of a delta.
fn write_line(alloc: Global, delta: &Delta, line: &mut Vec<u8>) -> Result<(), Refusal>
    ensures written { OnOk result (line.new.items ≡ push_line delta.now) }
    ensures pushes { OnOk result (Pushes (push_line delta.now) delta.now) }
{
    line.clear();
    put_push_line(alloc, delta, line)
}

/// Adds the change line of a delta to the journal; `line` is a buffer for it.
fn note_delta<D: Device + Drop>(
    alloc: Global,
    journal: &mut Journal<D>,
    delta: &Delta,
    line: &mut Vec<u8>,
) -> Result<(), Refusal>
    ensures noted { OnOk result (Notes journal.old (delta.now ∷ []) journal.new) }
    ensures same { OnErr result (journal.new ≡ journal.old) }
{
    match write_line(alloc, delta, line) {
        Ok(()) => {}
        Err(refusal) => return Err(refusal),
    }
    journal.note(line.as_slice())?;
    Ok(())
}

/// Adds a change line for each of these deltas to the journal, in order, and adds 1 to `noted` for each line. The lines
/// aren't durable before the next sync.
///
/// Fails at the first delta whose line is too long, and when out of memory. The lines added before the failure stay in
/// the journal, and `noted` counts them.
///
/// Cost: linear in the lines; the device isn't called.
pub fn note_deltas<D: Device + Drop>(
    alloc: Global,
    journal: &mut Journal<D>,
    deltas: &[Delta],
    noted: &mut u64,
) -> Result<(), Failed>
    requires room { noted.old + length deltas.now < 2 ^ 64 }
    ensures noted { OnOk result (Notes journal.old deltas.now journal.new
        × (noted.new ≡ noted.old + length deltas.now)) }
    ensures part { OnErr result ((n : ℕ) × (n ≤ length deltas.now) × (noted.new ≡ noted.old + n)
        × Notes journal.old (take n deltas.now) journal.new) }
{
    let mut line = Vec::new(alloc);
    'deltas: for delta in deltas {
        match note_delta(alloc, journal, delta, &mut line) {
            Ok(()) => *noted += 1,
            Err(_) => return Err(Failed),
        }
    }
    Ok(())
}
