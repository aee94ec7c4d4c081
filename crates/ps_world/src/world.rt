//! Worlds: several replicas, and the deltas that travel between them.

ghost use Rattle.std.specs.Prelude.{◌≡◌, ◌⊎◌, ◌↔◌, ◌<◌, ◌≤◌, ◌-◌, IfOk, IfErr, length};
ghost use Rattle.std.specs.Option.{SomeIff, option_map, option_copied};
ghost use Rattle.ps_grid.specs.declared.refusal.Refusal.{Refusal};
ghost use Rattle.ps_world.specs.Replicas.{IsWorld, SameTakenShowTheSame, ShowsSettled, replica_at, world_of};
ghost use Rattle.ps_world.specs.Inside.Steps.{AreNew};
ghost use Rattle.ps_world.specs.World.{played};

use crate::event::Event;
use crate::replica::Replica;
use ps_delta::{Delta, Edit};
use ps_eval::Meter;
use ps_grid::{REPLICAS, Refusal, Twin};
use ps_sheet::Sheet;
use std::alloc::Global;
use std::collections::BTreeSet;
use std::marker::Model;
use std::sync::ledger::Ledger;
use std::thread::Threads;

/// Replicas of one sheet, and the deltas that these replicas made or untrusted peers sent.
///
/// Contracts see a world as a `WorldView`: its deltas and its replicas. The definition `played` says what events do. It
/// knows no sheets, only a `WorldState`: the deltas, and which of the deltas each replica took.
#[derive(Drop)]
pub struct World {
    /// in the order of their numbers
    deltas: Vec<Delta>,
    replicas: Vec<Replica>,
}

impl Model for World {
    ghost use Rattle.std.specs.Prelude.{map};
    ghost use Rattle.ps_world.specs.Replicas.{WorldView};

    ghost Value = { WorldView };

    ghost use Rattle.ps_world.specs.WorldCode.{world_code};

    ghost coded = { world_code };

    ghost view = { λ w. record { deltas = w.deltas.items; replicas = w.replicas.items } };

    ghost use Rattle.ps_world.specs.Replicas.{IsWorld};

    ghost invariant = { λ w. IsWorld (record { deltas = w.deltas.items; replicas = w.replicas.items }) };
}

impl World {
    ghost use Rattle.ps_world.specs.World.{empty_world};
    ghost use Rattle.ps_world.specs.Inside.Steps.{IsAfter};

    /// Returns the world with empty sheets of `replicas` replicas, and no deltas.
    fn open(alloc: Global, replicas: u8) -> Result<World, Refusal>
        ensures replicas { IfOk result (λ w. length w.replicas ≡ replicas) }
        ensures empty { IfOk result (λ w. world_of w ≡ empty_world) }
        ensures world { IfOk result IsWorld }
        ensures refused { (result ≡ Err Refusal.Replica) ↔ ((replicas < 1) ⊎ (REPLICAS < replicas)) }
        ensures other { IfErr result (λ e. (e ≡ Refusal.Replica) ⊎ (e ≡ Refusal.Memory)) }
    {
        if replicas < 1 || replicas > REPLICAS {
            return Err(Refusal::Replica);
        }
        let opened = opened(alloc, replicas)?;
        Ok(World {
            deltas: Vec::new(alloc),
            replicas: opened,
        })
    }

    /// Returns the world after an event. Fails only when out of memory.
    fn after<R: Threads + Sync, L: Ledger>(
        self,
        rt: &R,
        alloc: Global,
        event: Event,
        meter: &mut Meter<L>,
    ) -> Result<World, Refusal>
        ensures follows { IfOk result (IsAfter event self) }
        ensures memory { IfErr result (λ e. e ≡ Refusal.Memory) }
    {
        match event {
            Event::Edit(replica, edit) => self.edit(rt, alloc, replica, edit, meter),
            Event::Foreign(delta) => self.add(delta),
            Event::Deliver(replica, number) => self.deliver(rt, alloc, replica, number, meter),
        }
    }

    /// Makes an edit at a replica. An unknown replica or a refused edit leaves the world as it is.
    fn edit<R: Threads + Sync, L: Ledger>(
        self,
        rt: &R,
        alloc: Global,
        replica: u8,
        edit: Edit,
        meter: &mut Meter<L>,
    ) -> Result<World, Refusal>
        ensures follows { IfOk result (IsAfter (Event.Edit replica edit) self) }
        ensures memory { IfErr result (λ e. e ≡ Refusal.Memory) }
    {
        let Some(place) = place_of(usize::from(replica), self.replicas.len()) else {
            return Ok(self);
        };
        let World {
            mut deltas,
            mut replicas,
        } = self;
        let number = deltas.len() + 1;
        let maker = &mut replicas[place];
        match maker.make(rt, alloc, number, edit, meter)? {
            None => Ok(World { deltas, replicas }),
            Some(made) => {
                deltas.push(made)?;
                Ok(World { deltas, replicas })
            }
        }
    }

    /// Adds the delta of an untrusted peer.
    fn add(self, delta: Delta) -> Result<World, Refusal>
        ensures follows { IfOk result (IsAfter (Event.Foreign delta) self) }
        ensures memory { IfErr result (λ e. e ≡ Refusal.Memory) }
    {
        let World {
            mut deltas,
            replicas,
        } = self;
        deltas.push(delta)?;
        Ok(World { deltas, replicas })
    }

    /// Delivers a delta to a replica. An unknown replica or delta leaves the world as it is.
    fn deliver<R: Threads + Sync, L: Ledger>(
        self,
        rt: &R,
        alloc: Global,
        replica: u8,
        number: usize,
        meter: &mut Meter<L>,
    ) -> Result<World, Refusal>
        ensures follows { IfOk result (IsAfter (Event.Deliver replica number) self) }
        ensures memory { IfErr result (λ e. e ≡ Refusal.Memory) }
    {
        let Some(place) = place_of(usize::from(replica), self.replicas.len()) else {
            return Ok(self);
        };
        let Some(sent) = place_of(number, self.deltas.len()) else {
            return Ok(self);
        };
        let World {
            deltas,
            mut replicas,
        } = self;
        let delta = deltas[sent].twin(alloc)?;
        let taker = &mut replicas[place];
        taker.take(rt, alloc, number, delta, meter)?;
        Ok(World { deltas, replicas })
    }

    /// Returns the sheet of the replica with this number; `None` if there is no such replica. Replicas are counted from
    /// 1.
    ///
    /// Only tests call `sheet`, to look at the result of [`play`].
    pub fn sheet(&self, replica: u8) -> Option<&Sheet>
        ensures sheet { option_copied result ≡ option_map (λ x. x.sheet) (replica_at self.now.replicas replica) }
        ensures world { IsWorld self.now }
    {
        Some(self.replica(replica)?.sheet())
    }

    /// Returns the numbers of the deltas that the replica with this number took; `None` if there is no such replica.
    /// Replicas and deltas are counted from 1.
    ///
    /// Only tests call `taken`, to look at the result of [`play`].
    pub fn taken(&self, replica: u8) -> Option<&BTreeSet<usize>>
        ensures taken { option_copied result ≡ option_map (λ x. x.taken) (replica_at self.now.replicas replica) }
        ensures world { IsWorld self.now }
    {
        Some(self.replica(replica)?.taken())
    }

    /// The replica with a number.
    fn replica(&self, replica: u8) -> Option<&Replica>
        ensures replica { option_copied result ≡ replica_at self.now.replicas replica }
        ensures world { IsWorld self.now }
    {
        numbered(&self.replicas, replica)
    }
}

/// Returns the index of the item with a number in a list of `count` items, numbered from 1; `None` if there is none.
fn place_of(number: usize, count: usize) -> Option<usize>
    ensures { SomeIff result ((1 ≤ number) × (number ≤ count)) (number - 1) }
{
    if number < 1 || number > count {
        return None;
    }
    Some(number - 1)
}

/// Returns the replica with a number, counted from 1; `None` if there is none.
fn numbered(replicas: &[Replica], replica: u8) -> Option<&Replica>
    ensures { option_copied result ≡ replica_at replicas.now replica }
{
    if replica < 1 {
        return None;
    }
    replicas.get(usize::from(replica) - 1)
}

/// Plays the events, one after another, in a world of `replicas` empty sheets, and returns the world after the last
/// event. There may be 1 to 32 replicas, and their numbers are 1, 2 and so on. `meter` counts the evaluations of
/// formulas in all sheets.
///
/// The contract states the main promise of a replicated sheet for any events:
///
/// - The definition `played` says which deltas the world has, and which of them each replica took. It uses no sheet.
/// - Each sheet shows the settled values of the join of the deltas that its replica took (`settled`).
/// - Replicas that took the same deltas show the same (`same`).
///
/// Only tests call `play`. It is part of the public interface because its contract states this promise.
///
/// An event that names an unknown replica or an unknown delta changes nothing. An edit that the sheet refuses changes
/// nothing either, unless the sheet is out of memory: then `play` fails.
///
/// # Errors
///
/// - `Refusal::Replica` if `replicas` isn't 1 to 32.
/// - `Refusal::Memory` when out of memory.
///
/// Cost: opening the sheets, and then each edit and each delivery.
pub fn play<R: Threads + Sync, L: Ledger>(
    rt: &R,
    alloc: Global,
    replicas: u8,
    events: Vec<Event>,
    meter: &mut Meter<L>,
) -> Result<World, Refusal>
    ensures replicas { IfOk result (λ w. length w.replicas ≡ replicas) }
    ensures played { IfOk result (λ w. world_of w ≡ played replicas events.items) }
    ensures world { IfOk result IsWorld }
    ensures settled { IfOk result ShowsSettled }
    ensures same { IfOk result SameTakenShowTheSame }
    ensures refused { (result ≡ Err Refusal.Replica) ↔ ((replicas < 1) ⊎ (REPLICAS < replicas)) }
    ensures other { IfErr result (λ e. (e ≡ Refusal.Replica) ⊎ (e ≡ Refusal.Memory)) }
{
    let mut world = World::open(alloc, replicas)?;
    for event in events {
        world = world.after(rt, alloc, event, meter)?;
    }
    // for the fact that it is a world (`IsWorld`)
    let _ = &world.deltas;
    Ok(world)
}

/// Returns new replicas with the numbers 1 to n. Fails only when out of memory.
fn opened(alloc: Global, n: u8) -> Result<Vec<Replica>, Refusal>
    requires { n ≤ REPLICAS }
    ensures length { IfOk result (λ v. length v.items ≡ n) }
    ensures new { IfOk result (λ v. AreNew v.items) }
    ensures memory { IfErr result (λ e. e ≡ Refusal.Memory) }
{
    let mut opened = Vec::new(alloc);
    for place in 0..n {
        opened.push(Replica::open(alloc, place + 1)?)?;
    }
    Ok(opened)
}
