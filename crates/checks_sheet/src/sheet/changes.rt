//! Short forms in which the tests write changes and shown values, and functions that make and check these.

ghost use Rattle.std.specs.Prelude.{◌≡◌, IfErr, IfOk};
ghost use Rattle.ps_grid.specs.Blanks.{IsBlankOf};
ghost use Rattle.ps_sheet.specs.Prepared.{IsPrepared};

use Asked::{Add, Choose, Set, Sub, Unchoose};
use Part::Assigned;
use Seen::{Empty, Failed, Num, Options, Text};
use ps_content::{Content, read_entry};
use ps_delta::{Batch, CellState, Change, Delta, Edit};
use ps_eval::Meter;
use ps_grid::{Cell, Refusal};
use ps_lattice::{Assignment, Choice, Register, Tally};
use ps_sheet::{Prepared, Report, Sheet};
use ps_value::{Fault, Label, Value};
use std::alloc::Global;
use std::marker::Brand;
use std::process::Abort;
use std::sync::ledger::{Blank, Ledger};
use std::thread::Threads;

pub(crate) const CYCLE: Seen = Failed(Fault::Cycle);

/// The report of a change: the version, and the numbers of evaluated formulas, of cyclic cells and of levels.
pub(crate) type Figures = [u64; 4];

/// An edit of a cell.
#[derive(Clone, Copy)]
pub(crate) enum Asked {
    /// Assigns what this entry says.
    Set(&'static str),
    Add(u64),
    Sub(u64),
    Choose(u64),
    Unchoose(u64),
}

/// What a delta changes in a cell.
#[derive(Clone, Copy)]
pub(crate) enum Part {
    /// An assignment: its time, its replica, and the entry that says the content.
    Assigned(u64, u8, &'static str),
}

/// What a cell shows.
#[derive(Clone, Copy)]
pub(crate) enum Seen {
    Empty,
    Num(i64),
    Text(&'static str),
    /// A set of options, one bit for each.
    Options(u64),
    Failed(Fault),
}

/// A delta in which `D1` closes a cycle and `B1` ends one.
pub(crate) const OVER: &[(&str, Part)] = &[
    ("B1", Assigned(2, 2, "4")),
    ("D1", Assigned(2, 2, "=[.C1]")),
];

/// A later delta that undoes `OVER`: `B1` closes a cycle and `D1` ends one.
pub(crate) const BACK: &[(&str, Part)] = &[
    ("B1", Assigned(3, 2, "=[.A1]")),
    ("D1", Assigned(3, 2, "7")),
];

/// The delta `BACK` with one more cell, a number in `E2`.
pub(crate) const MORE: &[(&str, Part)] = &[
    ("B1", Assigned(3, 2, "=[.A1]")),
    ("D1", Assigned(3, 2, "7")),
    ("E2", Assigned(1, 2, "9")),
];

pub(crate) fn cell(rt: &impl Abort, name: &str) -> Cell {
    Cell::read(name.as_bytes()).expect(rt, "a cell")
}

/// Makes a change, with a meter of its own.
fn made<L: Ledger, R: Threads + Sync>(
    rt: &R,
    blank: Blank,
    alloc: Global,
    sheet: &mut Sheet,
    change: Change,
) -> Result<Report, Refusal>
    requires { IsBlankOf blank L.name L.parts }
{
    let mut meter = Meter::<L>::new(blank);
    let made = match change {
        Change::Edit(edit) => sheet.edit(rt, alloc, edit, &mut meter),
        Change::Delta(delta) => sheet.receive(rt, alloc, delta, &mut meter),
        Change::Merge(delta) => sheet.merge(rt, alloc, delta, &mut meter),
    };
    meter.end();
    made
}

pub(crate) fn make<R: Threads + Sync>(
    rt: &R,
    alloc: Global,
    sheet: &mut Sheet,
    change: Change,
) -> Result<Report, Refusal> {
    made::<Brand, R>(rt, Blank::new(1), alloc, sheet, change)
}

/// Prepares a change, with a meter of its own.
fn prepared<L: Ledger, R: Threads + Sync>(
    rt: &R,
    blank: Blank,
    alloc: Global,
    sheet: Sheet,
    change: Change,
) -> Result<Prepared, (Sheet, Refusal)>
    requires { IsBlankOf blank L.name L.parts }
    ensures prepared { IfOk result IsPrepared }
    ensures history { IfOk result (λ p. p.history ≡ sheet.history) }
    ensures kept { IfErr result (λ e. e.0 ≡ sheet) }
{
    let mut meter = Meter::<L>::new(blank);
    let prepared = sheet.prepare(rt, alloc, change, &mut meter);
    meter.end();
    prepared
}

pub(crate) fn prepare<R: Threads + Sync>(
    rt: &R,
    alloc: Global,
    sheet: Sheet,
    change: Change,
) -> Result<Prepared, (Sheet, Refusal)>
    ensures prepared { IfOk result IsPrepared }
    ensures history { IfOk result (λ p. p.history ≡ sheet.history) }
    ensures kept { IfErr result (λ e. e.0 ≡ sheet) }
{
    prepared::<Brand, R>(rt, Blank::new(1), alloc, sheet, change)
}

fn figures_of(report: Report) -> Figures {
    [
        report.version,
        report.evaluated,
        report.cyclic,
        report.levels,
    ]
}

/// The figures of the report of a change, or its refusal.
pub(crate) fn ended_with(answer: Result<Report, Refusal>) -> Result<Figures, Refusal> {
    Ok(figures_of(answer?))
}

pub(crate) fn edit_of(alloc: Global, cell: Cell, asked: &Asked) -> Result<Edit, Refusal> {
    match asked {
        Set(entry) => Ok(Edit::Set(cell, read_entry(alloc, entry.as_bytes())?)),
        Add(amount) => Ok(Edit::Add(cell, *amount)),
        Sub(amount) => Ok(Edit::Sub(cell, *amount)),
        Choose(option) => Ok(Edit::Choose(cell, *option)),
        Unchoose(option) => Ok(Edit::Unchoose(cell, *option)),
    }
}

/// Appends to `cells` the cell of this name with the content that an entry says.
fn add_entry(
    rt: &impl Abort,
    alloc: Global,
    cells: &mut Vec<(Cell, Content)>,
    name: &str,
    entry: &str,
) -> Result<(), Refusal> {
    let content = read_entry(alloc, entry.as_bytes())?;
    Ok(cells.push((cell(rt, name), content))?)
}

fn add_entries(
    rt: &impl Abort,
    alloc: Global,
    cells: &mut Vec<(Cell, Content)>,
    entries: &[(&str, &str)],
) -> Result<(), Refusal> {
    for (name, entry) in entries {
        add_entry(rt, alloc, cells, name, entry)?;
    }
    Ok(())
}

pub(crate) fn batch_of(
    rt: &impl Abort,
    alloc: Global,
    entries: &[(&str, &str)],
) -> Result<Batch, Refusal> {
    let mut cells = Vec::new(alloc);
    add_entries(rt, alloc, &mut cells, entries)?;
    Ok(Batch::new(cells).expect(rt, "a batch"))
}

fn register(
    rt: &impl Abort,
    alloc: Global,
    time: u64,
    replica: u8,
    entry: &str,
) -> Result<CellState, Refusal> {
    let content = read_entry(alloc, entry.as_bytes())?;
    let register = Register::from_parts(Assignment {
        time,
        replica,
        content,
    });
    Ok(CellState::from_parts(
        register.expect(rt, "a register"),
        Tally::empty(alloc),
        Choice::empty(alloc),
    ))
}

/// Appends to `cells` the cell of this name with the state that a part says.
fn add_part(
    rt: &impl Abort,
    alloc: Global,
    cells: &mut Vec<(Cell, CellState)>,
    name: &str,
    part: &Part,
) -> Result<(), Refusal> {
    let Assigned(time, replica, entry) = part;
    let state = register(rt, alloc, *time, *replica, entry)?;
    Ok(cells.push((cell(rt, name), state))?)
}

fn add_parts(
    rt: &impl Abort,
    alloc: Global,
    cells: &mut Vec<(Cell, CellState)>,
    parts: &[(&str, Part)],
) -> Result<(), Refusal> {
    for (name, part) in parts {
        add_part(rt, alloc, cells, name, part)?;
    }
    Ok(())
}

pub(crate) fn delta_of(
    rt: &impl Abort,
    alloc: Global,
    parts: &[(&str, Part)],
) -> Result<Delta, Refusal> {
    let mut cells = Vec::new(alloc);
    add_parts(rt, alloc, &mut cells, parts)?;
    Ok(Delta::new(alloc, cells)?.expect(rt, "a delta"))
}

/// The value that `seen` stands for.
pub(crate) fn value(rt: &impl Abort, seen: &Seen) -> Value {
    match seen {
        Empty => Value::Empty,
        Num(number) => Value::Num(*number),
        Text(text) => Value::Text(Label::new(text.as_bytes()).expect(rt, "a text")),
        Options(options) => Value::Choice(*options),
        Failed(fault) => Value::Err(*fault),
    }
}

/// Asserts that a statement about the cell of this name holds.
fn check(rt: &impl Abort, holds: bool, name: &str) {
    assert!(rt; holds, "{name}");
}

/// Asserts that a statement about this position in the grid holds.
pub(crate) fn check_place(rt: &impl Abort, holds: bool, place: usize) {
    assert!(rt; holds, "{place}");
}

/// Asserts that a count, called `name`, is the expected one.
pub(crate) fn check_count(rt: &impl Abort, count: u64, expected: u64, name: &str) {
    assert_eq!(rt; count, expected, "{name}");
}

/// Asserts that the cell of this name shows this value.
pub(crate) fn check_shown(rt: &impl Abort, sheet: &Sheet, name: &str, seen: &Seen) {
    check(rt, sheet.shown(cell(rt, name)) == value(rt, seen), name);
}
