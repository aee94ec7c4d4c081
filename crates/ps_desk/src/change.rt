//! Publishes a staged change and commits it, or cancels it.

ghost use Rattle.std.specs.Prelude.{◌≡◌, ◌⊎◌, ◌+◌, ◌<◌, ◌^◌, ◌++◌, ◌∷◌, [], true, Some, None, if◌then◌else◌, is_some};
ghost use Rattle.std.specs.Prelude.{IfOk, IfErr, OnOk, OnErr};
ghost use mathlib.Core.List.{IsPrefix};
ghost use Rattle.ps_grid.specs.declared.refusal.Refusal.TheVariants.{Memory};
ghost use Rattle.ps_shown.specs.Shown.{shown_at};
ghost use Rattle.ps_delta.specs.State.{IsBelow};
ghost use Rattle.ps_delta.specs.Deltas.{joined_history, state_of};
ghost use Rattle.ps_cells.specs.ChangedCells.{IsChanged};
ghost use Rattle.ps_sheet.specs.Prepared.{shown_before};
ghost use Rattle.ps_sheet.specs.Staging.{IsWorkedOut};
ghost use Rattle.ps_face.specs.Legal.{Follows, history_of};
ghost use Rattle.ps_desk.specs.UnderLock.{IsUnderLock, Waits};
ghost use Rattle.ps_desk.specs.Patches.{IsNoted, KeepsChange, change_in, found_in, note_of, staged_in};
ghost use Rattle.ps_desk.specs.Receipts.{IsReceipt};
ghost use Rattle.ps_desk.specs.declared.showing.Showing.TheVariants.{AtOnce};

use crate::name::DeskName;
use crate::pass::Pass;
use crate::patch::patch_of;
use crate::receipt::Standing;
use crate::showing::Showing;
use crate::shown_position::ShownPosition;
use ps_delta::Delta;
use ps_face::{FaceWriter, Patch};
use ps_grid::{Cell, Refusal, Twin};
use ps_sheet::Staging;
use std::alloc::Global;
use std::sync::Wait;
use std::sync::ledger::Book;

/// Shows all waiting changes to readers, if the next change is to be shown at once.
#[inline(always)]
pub(crate) fn make_way<L: DeskName, W: Wait + Drop>(copies: &mut FaceWriter<L, W>, showing: Showing)
    ensures list { copies.new.list ≡ copies.old.list }
    ensures pending { copies.new.pending ≡ copies.old.pending }
    ensures shown { showing ≡ AtOnce → copies.new.shown ≡ copies.new.list }
    ensures steady { (copies.new.shown ≡ copies.old.shown) ⊎ (copies.new.shown ≡ copies.new.list) }
{
    match showing {
        Showing::AtOnce => copies.show(),
        Showing::Later => {}
    }
}

/// Records in the pass that the whole list is shown, if the change was shown at once.
#[inline(always)]
pub(crate) fn note_shown<L: DeskName, W: Wait + Drop, V: Wait>(
    wait: &V,
    copies: &FaceWriter<L, W>,
    pass: &mut Pass<L>,
    showing: Showing,
)
    requires shown { showing ≡ AtOnce → copies.now.shown ≡ copies.now.list }
    ensures { pass.new ≡ pass.old }
{
    match showing {
        Showing::AtOnce => {
            // for the fact that the list is legal
            let _ = copies.front();
            let shown = ShownPosition::new(&copies.shown());
            let _ = pass.note_shown(wait, &shown);
        }
        Showing::Later => {}
    }
}

/// Publishes the staged change and commits it, or cancels it when out of memory. Nothing is staged afterwards. A change
/// that adds nothing new is committed without a patch.
#[inline(always)]
pub(crate) fn finish<L: DeskName, W: Wait + Drop, V: Wait>(
    wait: &V,
    alloc: Global,
    sheet: &mut Staging,
    copies: &mut FaceWriter<L, W>,
    book: &mut Book<L>,
    pass: &mut Pass<L>,
    showing: Showing,
) -> Result<Standing, Refusal>
    requires staged { is_some sheet.old.staged ≡ true }
    requires under_lock { IsUnderLock L.replica L.opening sheet.old.replica sheet.old.history copies.old
        book.old.total }
    requires seen { pass.old.list ≡ copies.old.list }
    requires shown { showing ≡ AtOnce → copies.old.shown ≡ copies.old.list }
    ensures idle { sheet.new.staged ≡ None }
    ensures under_lock { IsUnderLock L.replica L.opening sheet.new.replica sheet.new.history copies.new
        book.new.total }
    ensures later { IsPrefix pass.old.list pass.new.list }
    ensures all { pass.new.list ≡ copies.new.list }
    ensures shown { showing ≡ AtOnce → copies.new.shown ≡ copies.new.list }
    ensures waits { Waits (Some pass.old.seat) copies.old → Waits (Some pass.old.seat) copies.new }
    ensures receipt { IfOk result (λ r. IsReceipt (λ s d. (s ≡ joined_history sheet.old.history)
        × (d ≡ (change_in sheet.old).delta)) L.opening pass.old.list pass.new.list pass.old.seat
        (record { number = r.number; delta = (change_in sheet.old).delta; fresh = r.fresh })) }
    ensures memory { IfErr result (λ e. e ≡ Memory) }
    ensures asked { OnErr result (¬ IsBelow (state_of ((change_in sheet.old).delta))
        (joined_history sheet.old.history)) }
    ensures kept { OnErr result ((copies.new ≡ copies.old) × (pass.new ≡ pass.old)) }
    ensures counted { IfOk result (λ r. pass.new.appended ≡ pass.old.appended + (if r.fresh then 1 else 0)) }
    ensures seat { (pass.new.seat ≡ pass.old.seat) × (pass.new.enters ≡ pass.old.enters) }
{
    if sheet.fresh() {
        let number = append(wait, alloc, sheet, copies, book, pass, showing)?;
        return Ok(Standing {
            number,
            fresh: true,
        });
    }
    let number = sheet.report().version;
    sheet.make();
    Ok(Standing {
        number,
        fresh: false,
    })
}

/// Publishes a fresh change and commits it, or cancels it when out of memory. Returns the number of the change's delta
/// in the history.
#[inline(always)]
fn append<L: DeskName, W: Wait + Drop, V: Wait>(
    wait: &V,
    alloc: Global,
    sheet: &mut Staging,
    copies: &mut FaceWriter<L, W>,
    book: &mut Book<L>,
    pass: &mut Pass<L>,
    showing: Showing,
) -> Result<u64, Refusal>
    requires staged { is_some sheet.old.staged ≡ true }
    requires worked_out { IsWorkedOut (change_in sheet.old) }
    requires fresh { (change_in sheet.old).fresh ≡ true }
    requires under_lock { IsUnderLock L.replica L.opening sheet.old.replica sheet.old.history copies.old
        book.old.total }
    requires seen { pass.old.list ≡ copies.old.list }
    requires shown { showing ≡ AtOnce → copies.old.shown ≡ copies.old.list }
    ensures idle { sheet.new.staged ≡ None }
    ensures under_lock { IsUnderLock L.replica L.opening sheet.new.replica sheet.new.history copies.new
        book.new.total }
    ensures all { pass.new.list ≡ copies.new.list }
    ensures shown { showing ≡ AtOnce → copies.new.shown ≡ copies.new.list }
    ensures waits { Waits (Some pass.old.seat) copies.old → Waits (Some pass.old.seat) copies.new }
    ensures published { OnOk result (IsNoted (change_in sheet.old) pass.old.seat pass.old.list pass.new.list) }
    ensures told { IfOk result (λ number. number ≡ (change_in sheet.old).report.version) }
    ensures memory { IfErr result (λ e. e ≡ Memory) }
    ensures kept { OnErr result ((copies.new ≡ copies.old) × (pass.new ≡ pass.old)) }
    ensures counted { OnOk result (pass.new.appended ≡ pass.old.appended + 1) }
    ensures seat { (pass.new.seat ≡ pass.old.seat) × (pass.new.enters ≡ pass.old.enters) }
{
    let one = find_changed(sheet);
    match tell(alloc, sheet, copies, one, pass.seat(), showing) {
        Ok(number) => {
            // for the fact that the pass has seen what it appended
            let _ = pass.appended();
            pass.catch_up(wait, copies.front());
            pass.count(book);
            sheet.make();
            Ok(number)
        }
        Err(refusal) => {
            sheet.cancel();
            Err(refusal)
        }
    }
}

/// Finds the cells that show another value after the staged change. Returns the cell if the sheet knows at once that
/// there is only one. Otherwise it returns none, and the sheet lists the cells.
#[inline(always)]
fn find_changed(sheet: &mut Staging) -> Option<Cell>
    requires staged { is_some sheet.old.staged ≡ true }
    ensures same { KeepsChange sheet.old sheet.new }
    ensures found { IsChanged (shown_before (change_in sheet.new)) (shown_at sheet.new.shown)
        (found_in sheet.new result) }
{
    if let Some(cell) = sheet.one_changed() {
        return Some(cell);
    }
    sheet.list_changed();
    None
}

/// Adds the patch of the staged fresh change to the published list, and returns the patch's number. Readers are shown
/// the patch at once or later. `owner` is the session slot that made the change. Fails only when out of memory, and
/// then nothing is published.
#[inline(always)]
fn tell<L: DeskName, W: Wait + Drop>(
    alloc: Global,
    sheet: &Staging,
    copies: &mut FaceWriter<L, W>,
    one: Option<Cell>,
    owner: u64,
    showing: Showing,
) -> Result<u64, Refusal>
    requires staged { is_some sheet.now.staged ≡ true }
    requires fresh { (change_in sheet.now).fresh ≡ true }
    requires found { IsChanged (shown_before (change_in sheet.now)) (shown_at sheet.now.shown)
        (found_in sheet.now one) }
    requires history { sheet.now.history ≡ history_of L.opening copies.old.list }
    requires none { copies.old.pending ≡ [] }
    ensures list { OnOk result (copies.new.list
        ≡ copies.old.list ++ note_of sheet.now (found_in sheet.now one) owner ∷ []) }
    ensures number { IfOk result (λ n. n ≡ (change_in sheet.now).report.version) }
    ensures bound { IfOk result (λ n. n < 2 ^ 64) }
    ensures shown { OnOk result (showing ≡ AtOnce → copies.new.shown ≡ copies.new.list) }
    ensures steady { OnOk result ((copies.new.shown ≡ copies.old.shown) ⊎ (copies.new.shown ≡ copies.new.list)) }
    ensures none { OnOk result (copies.new.pending ≡ []) }
    ensures kept { OnErr result (copies.new ≡ copies.old) }
    ensures memory { IfErr result (λ e. e ≡ Memory) }
{
    let patch = patch_of(alloc, sheet, one, owner)?;
    let number = patch.number();
    publish(copies, patch, showing)?;
    Ok(number)
}

/// Adds a patch to the published list. Readers are shown the patch at once or later. Fails only when out of memory, and
/// then nothing is published.
#[inline(always)]
fn publish<L: DeskName, W: Wait + Drop>(
    copies: &mut FaceWriter<L, W>,
    patch: Patch<'_>,
    showing: Showing,
) -> Result<(), Refusal>
    requires none { copies.old.pending ≡ [] }
    requires legal { Follows (history_of L.opening copies.old.list) patch }
    ensures list { OnOk result (copies.new.list ≡ copies.old.list ++ patch.entry ∷ []) }
    ensures shown { OnOk result (showing ≡ AtOnce → copies.new.shown ≡ copies.new.list) }
    ensures steady { OnOk result ((copies.new.shown ≡ copies.old.shown) ⊎ (copies.new.shown ≡ copies.new.list)) }
    ensures none { OnOk result (copies.new.pending ≡ []) }
    ensures kept { OnErr result (copies.new ≡ copies.old) }
    ensures memory { IfErr result (λ e. e ≡ Memory) }
{
    match showing {
        Showing::AtOnce => {
            copies.publish_patch(patch);
            Ok(())
        }
        Showing::Later => copies.post_patch(patch),
    }
}

/// Returns a second owner of a delta. It tries again until no shared part of the delta has as many owners as can be
/// counted.
pub(crate) fn share<V: Wait>(wait: &V, alloc: Global, delta: &Delta) -> Delta
    ensures { result ≡ delta.now }
{
    for _ in wait.forever() {
        if let Ok(shared) = delta.twin(alloc) {
            return shared;
        }
    }
    unreachable!()
}
