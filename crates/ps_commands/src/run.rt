//! The command `run`: reads lines, and writes the replies of a sheet.
ghost use Rattle.std.specs.Prelude.{◌≡◌, ◌⊎◌, ◌<◌, ◌≤◌, ℕ, List, [], IfOk, IfErr, OnOk, false};
ghost use Rattle.std.specs.Io.KnownBytes.{Consumes, IsAtEnd};
ghost use Rattle.ps_sheet.specs.Sheet.{IsSheet, SheetView};
ghost use Rattle.ps_session.specs.Answers.{SheetLines};
ghost use Rattle.ps_session.specs.HeldOutputs.{held_contents, held_waiting};
ghost use Rattle.ps_session.specs.Keeping.{IsCovered};
ghost use Rattle.ps_session.specs.Transcript.{Answered, Stopped, Transcribed};
ghost use Rattle.ps_kept.specs.Kept.{IsKept, IsNoted};
ghost use Rattle.ps_commands.specs.Commands.{IsOpened};
ghost use Rattle.ps_commands.specs.declared.fault.ProgramFault.TheVariants.{Refused};

use crate::fault::ProgramFault;
use crate::unfreed::leave_unfreed;
use ps_device::{Sink, Source};
use ps_eval::Meter;
use ps_grid::Refusal;
use ps_keep::Device;
use ps_kept::{SheetKeeper, longer_histories_fit};
use ps_lines::Watcher;
use ps_session::{AtOnce, HeldBack, HeldOutput, Resources, Unkept, converse};
use ps_sheet::Sheet;
use ps_words::SheetOptions;
use std::alloc::Global;
use std::sync::ledger::Ledger;
use std::thread::Threads;

/// Returns a new, empty sheet with the replica and the workers of `options`.
///
/// Fails only with `Memory`, if allocation fails.
///
/// Cost: that of [`Sheet::open`].
pub fn open_sheet(alloc: Global, options: SheetOptions) -> Result<Sheet, Refusal>
    ensures opened { IfOk result (IsOpened options.replica) }
    ensures workers { IfOk result (λ sheet. sheet.workers ≡ options.workers) }
    ensures memory { IfErr result (λ e. e ≡ Refusal.Memory) }
{
    Sheet::open(alloc, options.replica, usize::from(options.workers))
}

/// Answers each line of `source` from a new, empty sheet, to the end of the input, and writes the replies to `sink`.
///
/// The sheet has the replica and the workers of `options`. `watcher` sees each line and its outcome. The sheet isn't
/// freed, since the program ends next.
///
/// # Errors
///
/// - `Memory` if allocation fails at the start. Then nothing was read or written.
/// - `Device` if the source or the sink fails. If the source failed, all replies to the lines before were written. If
///   the sink failed, a beginning of the due replies was written.
///
/// Cost: that of opening a sheet, and of [`converse`].
pub fn answer_lines<R: Threads + Sync, S: Source, K: Sink, L: Ledger, W: Watcher>(
    resources: Resources<'_, R>,
    source: &mut S,
    sink: &mut K,
    meter: &mut Meter<L>,
    options: SheetOptions,
    watcher: &mut W,
) -> Result<(), ProgramFault>
    ensures done { OnOk result ((first : SheetView) × (last : SheetView) × (read : List ℕ) × (answered : ℕ)
        × IsOpened options.replica first
        × Consumes (S.remaining source.old) (S.remaining source.new) read × IsAtEnd (S.remaining source.new)
        × Transcribed SheetLines first (K.contents sink.old) read last (K.contents sink.new) answered) }
    ensures flushed { OnOk result (K.waiting sink.new ≡ []) }
    ensures calm { OnOk result ((S.failures source.new ≡ S.failures source.old)
        × (K.failures sink.new ≡ K.failures sink.old)) }
    ensures refused { IfErr result (λ f. (f ≡ Refused Refusal.Memory) ⊎ (f ≡ Refused Refusal.Device)) }
    ensures memory { result ≡ Err (Refused Refusal.Memory) → (source.new ≡ source.old) × (sink.new ≡ sink.old) }
    ensures device { result ≡ Err (Refused Refusal.Device)
        → (first : SheetView) × (last : SheetView) × (read : List ℕ)
        × IsOpened options.replica first × Consumes (S.remaining source.old) (S.remaining source.new) read
        × (((S.failures source.old < S.failures source.new) × (K.waiting sink.new ≡ [])
        × Answered SheetLines first (K.contents sink.old) read last (K.contents sink.new))
        ⊎ ((K.failures sink.old < K.failures sink.new)
        × Stopped SheetLines (IsAtEnd (S.remaining source.new)) first (K.contents sink.old) read
        last (K.contents sink.new))) }
{
    let mut sheet = open_sheet(resources.alloc, options)?;
    let done = converse::<R, S, Sheet, Meter<L>, W, K, AtOnce, Unkept>(
        resources,
        source,
        sink,
        &mut sheet,
        meter,
        watcher,
        &mut Unkept,
    );
    leave_unfreed(sheet);
    done?;
    Ok(())
}

/// Answers each line of `source` from `sheet`, to the end of the input, and writes the replies to `sink`. `keeper`
/// makes each change durable.
///
/// Before a reply is sent, all that the session has seen is durable. `watcher` sees each line and its outcome.
///
/// If a reply was sent, the journal has on disk the history of a state that the sheet had between two lines, and no
/// reply to a later line was sent (`IsCovered` in the contract). This also holds after a fault. At the end of the input
/// the journal has the sheet's last state.
///
/// The sheet isn't freed, since the program ends next.
///
/// # Errors
///
/// - `Memory` if allocation fails at the start. Then nothing was read, written or logged.
/// - `Device` if the source, the sink or the keeper fails. After a failure of the sink or the keeper no more replies
///   are sent.
///
/// Cost: that of [`converse`].
pub fn answer_kept<
    R: Threads + Sync,
    S: Source,
    K: Sink + Drop,
    N: Ledger,
    L: Ledger,
    W: Watcher,
    D: Device + Drop,
>(
    resources: Resources<'_, R>,
    source: &mut S,
    sink: &mut HeldOutput<K, N>,
    sheet: Sheet,
    keeper: &mut SheetKeeper<D>,
    meter: &mut Meter<L>,
    watcher: &mut W,
) -> Result<(), ProgramFault>
    requires noted { IsNoted sheet.replica sheet.history keeper.old }
    requires open { keeper.old.has_failed ≡ false }
    ensures done { OnOk result ((last : SheetView) × (read : List ℕ) × (answered : ℕ)
        × Consumes (S.remaining source.old) (S.remaining source.new) read × IsAtEnd (S.remaining source.new)
        × Transcribed SheetLines sheet (held_contents K.contents sink.old) read
        last (held_contents K.contents sink.new) answered
        × IsKept last.replica last.history keeper.new) }
    ensures covered { (last : SheetView) × (read : List ℕ)
        × Consumes (S.remaining source.old) (S.remaining source.new) read
        × IsCovered SheetLines (λ state. IsKept state.replica state.history keeper.new)
        (IsAtEnd (S.remaining source.new)) sheet (held_contents K.contents sink.old) read
        last (held_contents K.contents sink.new) (held_waiting K.waiting sink.new) }
    ensures flushed { OnOk result (held_waiting K.waiting sink.new ≡ []) }
    ensures calm { OnOk result (S.failures source.new ≡ S.failures source.old) }
    ensures refused { IfErr result (λ f. (f ≡ Refused Refusal.Memory) ⊎ (f ≡ Refused Refusal.Device)) }
    ensures memory { result ≡ Err (Refused Refusal.Memory)
        → (source.new ≡ source.old) × (sink.new ≡ sink.old) × (keeper.new ≡ keeper.old) }
{
    // for its law: what was logged stays a beginning when the history grows
    longer_histories_fit();
    let mut sheet = sheet;
    let sheet_now = &mut sheet;
    let done = converse::<R, S, Sheet, Meter<L>, W, HeldOutput<K, N>, HeldBack, SheetKeeper<D>>(
        resources, source, sink, sheet_now, meter, watcher, keeper,
    );
    leave_unfreed(sheet);
    done?;
    Ok(())
}
