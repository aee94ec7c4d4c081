//! One replica of a world.

ghost use Rattle.std.specs.Prelude.{◌≡◌, ◌-◌, ◌<◌, ◌≤◌, length, slice_get, true};
ghost use Rattle.std.specs.Prelude.{IfOk, IfErr, OnOk, IfSome, IfNone, IsErr, Ok, Some};
ghost use Rattle.std.specs.Ordering.{nat_cmp};
ghost use Rattle.std.specs.BTreeSet.{Updates};
ghost use Rattle.ps_grid.specs.declared.refusal.Refusal.{Refusal};
ghost use Rattle.ps_delta.specs.State.{joined_state};
ghost use Rattle.ps_delta.specs.Deltas.{joined_history, state_of};

use ps_delta::{Delta, Edit};
use ps_eval::Meter;
use ps_grid::{REPLICAS, Refusal, Twin};
use ps_sheet::Sheet;
use std::alloc::Global;
use std::collections::BTreeSet;
use std::marker::Model;
use std::sync::ledger::Ledger;
use std::thread::Threads;

/// The sheet of one replica, and the numbers of the deltas that it took.
///
/// A contract sees it as its `ReplicaView`.
#[derive(Drop)]
pub(crate) struct Replica {
    sheet: Sheet,
    taken: BTreeSet<usize>,
}

impl Model for Replica {
    ghost use Rattle.ps_world.specs.Replicas.{ReplicaView};

    ghost Value = { ReplicaView };

    ghost use Rattle.ps_world.specs.WorldCode.{replica_code};

    ghost coded = { replica_code };

    ghost view = { λ x. record { sheet = x.sheet; taken = x.taken } };
}

impl Replica {
    ghost use Rattle.ps_sheet.specs.Edits.{delta_of_edit};
    ghost use Rattle.ps_sheet.specs.Sheet.{IsSheet};
    ghost use Rattle.ps_world.specs.Inside.Steps.{IsNew};

    /// Returns the replica with a number, 1 to 32, that took nothing yet. Fails only when out of memory.
    pub(crate) fn open(alloc: Global, replica: u8) -> Result<Replica, Refusal>
        requires { (1 ≤ replica) × (replica ≤ REPLICAS) }
        ensures new { IfOk result (IsNew replica) }
        ensures memory { IfErr result (λ e. e ≡ Refusal.Memory) }
    {
        let sheet = Sheet::open(alloc, replica, 1)?;
        Ok(Replica {
            sheet,
            taken: BTreeSet::new(alloc),
        })
    }

    /// Makes an edit at this replica, and takes its delta with the number `number`. Returns the delta. If the sheet
    /// refuses the edit, returns `None` and changes nothing. Fails only when out of memory.
    pub(crate) fn make<R: Threads + Sync, L: Ledger>(
        &mut self,
        rt: &R,
        alloc: Global,
        number: usize,
        edit: Edit,
        meter: &mut Meter<L>,
    ) -> Result<Option<Delta>, Refusal>
        ensures made { IfOk result (λ o. IfSome o (λ d.
            delta_of_edit self.old.sheet.replica (joined_history self.old.sheet.history) edit ≡ Ok d)) }
        ensures joined { IfOk result (λ o. IfSome o (λ d.
            joined_history self.new.sheet.history
            ≡ joined_state (joined_history self.old.sheet.history) (state_of d))) }
        ensures taken { IfOk result (λ o. IfSome o (λ _. Updates nat_cmp self.old.taken self.new.taken number true)) }
        ensures refused { IfOk result (λ o. IfNone o
            (IsErr (delta_of_edit self.old.sheet.replica (joined_history self.old.sheet.history) edit))) }
        ensures kept { IfOk result (λ o. IfNone o (self.new ≡ self.old)) }
        ensures replica { self.new.sheet.replica ≡ self.old.sheet.replica }
        ensures sheet { IsSheet self.new.sheet }
        ensures memory { IfErr result (λ e. e ≡ Refusal.Memory) }
    {
        match self.sheet.edit(rt, alloc, edit, meter) {
            Ok(_) => {}
            Err(Refusal::Memory) => return Err(Refusal::Memory),
            Err(_) => return Ok(None),
        }
        self.taken.insert(number)?;
        Ok(Some(newest(alloc, &self.sheet)?))
    }

    /// Receives a delta, and notes its number as taken. Fails only when out of memory.
    pub(crate) fn take<R: Threads + Sync, L: Ledger>(
        &mut self,
        rt: &R,
        alloc: Global,
        number: usize,
        delta: Delta,
        meter: &mut Meter<L>,
    ) -> Result<(), Refusal>
        ensures joined { OnOk result (joined_history self.new.sheet.history
            ≡ joined_state (joined_history self.old.sheet.history) (state_of delta)) }
        ensures taken { OnOk result (Updates nat_cmp self.old.taken self.new.taken number true) }
        ensures replica { self.new.sheet.replica ≡ self.old.sheet.replica }
        ensures sheet { OnOk result (IsSheet self.new.sheet) }
        ensures memory { IfErr result (λ e. e ≡ Refusal.Memory) }
    {
        self.taken.insert(number)?;
        self.sheet.receive(rt, alloc, delta, meter)?;
        Ok(())
    }

    /// The sheet.
    pub(crate) fn sheet(&self) -> &Sheet
        ensures { result.now ≡ self.now.sheet }
    {
        &self.sheet
    }

    /// The numbers of the deltas that were taken.
    pub(crate) fn taken(&self) -> &BTreeSet<usize>
        ensures { result.now ≡ self.now.taken }
    {
        &self.taken
    }
}

/// Returns the last delta of the sheet's history, which isn't empty. Fails only when out of memory.
fn newest(alloc: Global, sheet: &Sheet) -> Result<Delta, Refusal>
    requires { 0 < length sheet.now.history }
    ensures newest { let h = sheet.now.history in IfOk result (λ d. slice_get h (length h - 1) ≡ Some d) }
    ensures memory { IfErr result (λ e. e ≡ Refusal.Memory) }
{
    match sheet.history().last() {
        Some(delta) => delta.twin(alloc),
        None => unreachable!(),
    }
}
