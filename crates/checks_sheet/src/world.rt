//! Small worlds of several replicas. What each replica received and shows is compared with values worked out by hand.

ghost use Rattle.ps_grid.specs.Blanks.{IsBlankOf};

use crate::sheet::changes::Asked::{self, Add, Set, Sub};
use crate::sheet::changes::Part::{self, Assigned};
use crate::sheet::changes::Seen::{self, Num, Text};
use crate::sheet::changes::{cell, check_count, check_shown, delta_of, edit_of};
use Step::{Deliver, Edited, Foreign};
use ps_eval::Meter;
use ps_grid::Refusal;
use ps_world::{Event, World, play};
use std::alloc::Global;
use std::marker::Brand;
use std::process::Abort;
use std::sync::ledger::{Blank, Ledger};
use std::thread::Threads;

/// An event of a world; all of them are about A1.
#[derive(Clone, Copy)]
enum Step {
    Edited(u8, Asked),
    Foreign(&'static [(&'static str, Part)]),
    Deliver(u8, usize),
}

fn event_of(rt: &impl Abort, alloc: Global, step: &Step) -> Result<Event, Refusal> {
    match step {
        Edited(replica, asked) => {
            let edit = edit_of(alloc, cell(rt, "A1"), asked)?;
            Ok(Event::Edit(*replica, edit))
        }
        Foreign(parts) => Ok(Event::Foreign(delta_of(rt, alloc, parts)?)),
        Deliver(replica, number) => Ok(Event::Deliver(*replica, *number)),
    }
}

/// Plays the events in a world of this many replicas, with a meter of its own.
fn metered<R: Threads + Sync, L: Ledger>(
    rt: &R,
    blank: Blank,
    alloc: Global,
    replicas: u8,
    events: Vec<Event>,
) -> Result<World, Refusal>
    requires { IsBlankOf blank L.name L.parts }
{
    let mut meter = Meter::<L>::new(blank);
    let world = play(rt, alloc, replicas, events, &mut meter);
    meter.end();
    world
}

fn run<R: Threads + Sync>(
    rt: &R,
    alloc: Global,
    replicas: u8,
    events: Vec<Event>,
) -> Result<World, Refusal> {
    metered::<R, Brand>(rt, Blank::new(1), alloc, replicas, events)
}

fn events_of(rt: &impl Abort, alloc: Global, steps: &[Step]) -> Result<Vec<Event>, Refusal> {
    let mut events = Vec::new(alloc);
    for step in steps {
        events.push(event_of(rt, alloc, step)?)?;
    }
    Ok(events)
}

/// A replica, the numbers of the deltas that it took, its version, and what it shows at A1.
type Row = (u8, &'static [usize], u64, Seen);

/// Whether a replica took exactly the deltas with these numbers.
fn took(world: &World, replica: u8, taken: &[usize]) -> bool {
    match world.taken(replica) {
        Some(numbers) => {
            numbers.len() == taken.len() && taken.iter().all(|number| numbers.contains(number))
        }
        None => false,
    }
}

/// Asserts that a replica is as a row says.
fn check_row(rt: &impl Abort, world: &World, (replica, taken, version, seen): &Row) {
    let sheet = world.sheet(*replica).expect(rt, "a replica");
    check_count(rt, sheet.version(), *version, "the version");
    check_shown(rt, sheet, "A1", seen);
    assert!(rt; took(world, *replica, taken), "replica {replica}");
}

/// Asserts that the replicas of a world are as the rows say.
fn check_rows(rt: &impl Abort, world: &World, rows: &[Row]) {
    for row in rows {
        check_row(rt, world, row);
    }
}

/// Plays the steps in a world of this many replicas, and asserts that they are then as the rows say.
fn play_steps<R: Abort + Threads + Sync>(
    rt: &R,
    alloc: Global,
    replicas: u8,
    steps: &[Step],
    rows: &[Row],
) -> Result<(), Refusal> {
    let world = run(rt, alloc, replicas, events_of(rt, alloc, steps)?)?;
    check_rows(rt, &world, rows);
    Ok(())
}

static GREATER: [Step; 7] = [
    Edited(1, Set("x")),
    Edited(2, Set("y")),
    Deliver(1, 2),
    Deliver(2, 1),
    Deliver(2, 1),
    Deliver(3, 1),
    Deliver(1, 9),
];

static GREATER_SEEN: [Row; 2] = [(1, &[1, 2], 2, Text("y")), (2, &[1, 2], 1, Text("y"))];

static COUNTED: [Step; 9] = [
    Edited(1, Set("@tally")),
    Deliver(2, 1),
    Deliver(3, 1),
    Edited(1, Add(5)),
    Edited(2, Sub(2)),
    Edited(3, Add(1)),
    Deliver(1, 4),
    Deliver(1, 3),
    Deliver(2, 2),
];

static COUNTED_SEEN: [Row; 3] = [
    (1, &[1, 2, 3, 4], 4, Num(4)),
    (2, &[1, 2, 3], 3, Num(3)),
    (3, &[1, 4], 2, Num(1)),
];

static STAMPED: [Step; 6] = [
    Foreign(&[("A1", Assigned(1, 1, "3"))]),
    Foreign(&[("A1", Assigned(1, 1, "4"))]),
    Deliver(1, 1),
    Deliver(1, 2),
    Deliver(2, 2),
    Deliver(2, 1),
];

static STAMPED_SEEN: [Row; 2] = [(1, &[1, 2], 2, Num(4)), (2, &[1, 2], 1, Num(4))];

/// First, two replicas assign at the same time; deltas come twice, come to an unknown replica, or don't exist. Then
/// three replicas count, and each receives other deltas. Last, two foreign deltas with the same stamp come in both
/// orders.
#[test]
fn replicas_show_what_they_took(rt: HostRuntime) -> Result<(), Refusal> {
    play_steps(&rt, rt.alloc(), 2, &GREATER, &GREATER_SEEN)?;
    play_steps(&rt, rt.alloc(), 3, &COUNTED, &COUNTED_SEEN)?;
    play_steps(&rt, rt.alloc(), 2, &STAMPED, &STAMPED_SEEN)
}
