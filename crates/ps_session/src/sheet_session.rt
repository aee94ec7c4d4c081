//! A session of a sheet, from bytes to bytes.
ghost use Rattle.std.specs.Prelude.{◌≡◌, ◌≢◌, ◌<◌, ℕ, List, [], Err, IfOk, OnOk};
ghost use Rattle.std.specs.Io.KnownBytes.{Consumes, IsAtEnd};
ghost use Rattle.std.specs.List.{All};
ghost use Rattle.ps_sheet.specs.Sheet.{IsSheet};
ghost use Rattle.ps_session.specs.Transcript.{Answered, Stopped, Transcribed};
ghost use Rattle.ps_session.specs.Answers.{SheetLines};
ghost use Rattle.ps_lines.specs.PullReplies.{HasLine};

use crate::transcript::{RunFault, talk};
use ps_device::{Sink, Source};
use ps_eval::Meter;
use ps_sheet::Sheet;
use std::alloc::Global;
use std::sync::ledger::Ledger;
use std::thread::Threads;

/// Answers each line of a source from a sheet, to the end of the input, and returns how many lines had a reply.
///
/// A result of 2^64 - 1 means that number or more. A line whose reply can't be written was carried out all the same.
/// After a fault the sheet is as the last line that was carried out left it.
///
/// If each delta of the history fits on a line, each delta does so afterwards, and no `pull` is refused as too long. An
/// empty history is such a history.
///
/// Cost: that of [`talk`].
pub fn run<R: Threads + Sync, S: Source, K: Sink, L: Ledger>(
    rt: &R,
    alloc: Global,
    source: &mut S,
    sink: &mut K,
    sheet: &mut Sheet,
    meter: &mut Meter<L>,
) -> Result<u64, RunFault>
    ensures transcribed { IfOk result (λ answered. (read : List ℕ)
        × Consumes (S.remaining source.old) (S.remaining source.new) read
        × IsAtEnd (S.remaining source.new)
        × Transcribed SheetLines sheet.old (K.contents sink.old) read sheet.new (K.contents sink.new) answered) }
    ensures sink { result ≡ Err RunFault.Sink
        → (read : List ℕ) × Consumes (S.remaining source.old) (S.remaining source.new) read
        × Stopped SheetLines (IsAtEnd (S.remaining source.new)) sheet.old (K.contents sink.old) read
        sheet.new (K.contents sink.new) }
    ensures source { result ≡ Err RunFault.Source
        → (read : List ℕ) × Consumes (S.remaining source.old) (S.remaining source.new) read
        × Answered SheetLines sheet.old (K.contents sink.old) read sheet.new (K.contents sink.new) }
    ensures keep { result ≢ Err RunFault.Keep }
    ensures flushed { OnOk result (K.waiting sink.new ≡ []) }
    ensures source_flushed { result ≡ Err RunFault.Source → K.waiting sink.new ≡ [] }
    ensures memory { result ≡ Err RunFault.Memory
        → (source.new ≡ source.old) × (sink.new ≡ sink.old) × (sheet.new ≡ sheet.old) }
    ensures replica { sheet.new.replica ≡ sheet.old.replica }
    ensures sheet { IsSheet sheet.new }
    ensures lines { All HasLine sheet.old.history → All HasLine sheet.new.history }
    ensures calm { OnOk result ((S.failures source.new ≡ S.failures source.old)
        × (K.failures sink.new ≡ K.failures sink.old)) }
    ensures sink_failed { result ≡ Err RunFault.Sink → K.failures sink.old < K.failures sink.new }
    ensures source_failed { result ≡ Err RunFault.Source → S.failures source.old < S.failures source.new }
{
    let answered = talk(rt, alloc, source, sink, sheet, meter);
    // for its contract: the sheet is still one (`IsSheet`)
    let _ = sheet.version();
    answered
}
