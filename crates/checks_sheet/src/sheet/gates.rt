//! How often each worker calls the gate while a change is prepared. The expected numbers are worked out by hand.

ghost use Rattle.std.specs.Prelude.{◌≤◌};
ghost use Rattle.ps_grid.specs.Blanks.{IsBlankOf};
ghost use Rattle.ps_grid.specs.declared.parties.TheConstants.{WORKERS};

use crate::sheet::changes::Seen::Num;
use crate::sheet::changes::{cell, check_count, check_shown, make, value};
use ps_content::{Content, read_entry};
use ps_delta::{Batch, Change, Edit};
use ps_eval::Meter;
use ps_grid::{COLUMNS, Cell, Refusal, WORKERS};
use ps_sheet::{Prepared, Sheet};
use ps_workers::Gate;
use std::alloc::Global;
use std::marker::Brand;
use std::process::Abort;
use std::sync::atomic::{AtomicU64, Ordering};
use std::sync::ledger::{Blank, Ledger};
use std::thread::Threads;

/// Formulas for `count` cells from `A2` on, each one more than `A1`.
fn wide(rt: &impl Abort, alloc: Global, count: usize) -> Result<Batch, Refusal> {
    let mut cells = Vec::new(alloc);
    for place in COLUMNS..COLUMNS.saturating_add(count) {
        let cell = Cell::from_index(place).expect(rt, "a cell");
        cells.push((cell, read_entry(alloc, b"=[.A1]+1")?))?;
    }
    Ok(Batch::new(cells).expect(rt, "a batch"))
}

/// A sheet with the formulas of `wide`, entered as one batch.
fn wide_sheet<R: Abort + Threads + Sync>(
    rt: &R,
    alloc: Global,
    workers: usize,
    count: usize,
) -> Result<Sheet, Refusal>
    requires { (1 ≤ workers) × (workers ≤ WORKERS) }
{
    let mut sheet = Sheet::open(alloc, 1, workers)?;
    let batch = wide(rt, alloc, count).ok().expect(rt, "room for a batch");
    let report = make(rt, alloc, &mut sheet, Change::Edit(Edit::SetAll(batch)));
    assert!(rt; report.is_ok());
    Ok(sheet)
}

/// A gate that counts how often each worker passes it.
#[derive(Drop)]
struct Counting {
    passes: [AtomicU64; WORKERS],
}

impl Gate for Counting {
    fn pass(&self, worker: usize) {
        self.passes[worker].fetch_add(1, Ordering::SeqCst);
    }
}

/// How many workers are expected to pass the gate, and how often each of them.
type Shares = (usize, u64);

/// Asserts that each of the first `workers` workers has passed `each` times, and no other worker has.
fn check_shares(rt: &impl Abort, gate: &Counting, (workers, each): Shares) {
    for worker in 0..WORKERS {
        let due = if worker < workers { each } else { 0 };
        let count = gate.passes[worker].load(Ordering::SeqCst);
        check_count(rt, count, due, "passes");
    }
}

/// Prepares a change with a gate, and with a meter of its own.
fn prepared_by<L: Ledger, R: Threads + Sync>(
    rt: &R,
    blank: Blank,
    alloc: Global,
    sheet: Sheet,
    change: Change,
    gate: &Counting,
) -> Result<Prepared, (Sheet, Refusal)>
    requires { IsBlankOf blank L.name L.parts }
{
    let mut meter = Meter::<L>::new(blank);
    let prepared = sheet.prepare_by(rt, gate, alloc, change, &mut meter);
    meter.end();
    prepared
}

/// Prepares the edit that assigns a number to a cell, and asserts that the workers pass the gate as expected.
fn count<R: Abort + Threads + Sync>(
    rt: &R,
    alloc: Global,
    sheet: Sheet,
    name: &str,
    number: i64,
    shares: Shares,
) -> Prepared {
    let gate = Counting {
        passes: [0; WORKERS].map(|_| AtomicU64::new(0)),
    };
    let change = Change::Edit(Edit::Set(cell(rt, name), Content::Number(number)));
    let prepared = prepared_by::<Brand, R>(rt, Blank::new(1), alloc, sheet, change, &gate);
    check_shares(rt, &gate, shares);
    prepared.ok().expect(rt, "a change that isn't refused")
}

/// Prepares a change of A1 and gives it up, and then prepares it again and makes it. A change of B1 then reaches no
/// formula.
fn count_all<R: Abort + Threads + Sync>(rt: &R, alloc: Global, sheet: Sheet, shares: Shares) {
    let given_up = count(rt, alloc, sheet, "A1", 5, shares);
    let prepared = count(rt, alloc, given_up.cancel(), "A1", 5, shares);
    assert!(rt; prepared.shown_after().at(cell(rt, "A2")) == value(rt, &Num(6)));
    let (sheet, report) = prepared.commit();
    check_count(rt, report.version, 2, "deltas");
    let (sheet, report) = count(rt, alloc, sheet, "B1", 9, (0, 0)).commit();
    check_count(rt, report.evaluated, 0, "evaluations");
    check_shown(rt, &sheet, "A2", &Num(6));
    drop(sheet);
}

/// Each worker passes a gate as often as it evaluates a formula: 6,000 times, 4,097 times, 4,103 times, and never.
///
/// A level gets one worker for each 4,096 formulas, and these workers have even shares. The evaluations count each time
/// that the change is prepared, also when it is given up.
#[test]
fn gate_counts(rt: HostRuntime) -> Result<(), Refusal> {
    for (cells, workers, shares) in [
        (6_000, 2, (1, 6_000)),
        (8_194, 16, (2, 4_097)),
        (65_648, 16, (16, 4_103)),
    ] {
        let sheet = wide_sheet(&rt, rt.alloc(), workers, cells)?;
        count_all(&rt, rt.alloc(), sheet, shares);
    }
    Ok(())
}
