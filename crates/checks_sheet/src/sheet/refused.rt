//! Refused changes leave the sheet as it was. Most are refused since one allocation fails. The expected values are
//! worked out by hand.
//!
//! `tests/test_refused.py` lets one allocation fail in the process of a test, each in turn, and the test passes each
//! time. If the allocation fails before the call under test, the test does everything once more.

use crate::sheet::changes::Asked::{self, Add, Choose, Set, Sub, Unchoose};
use crate::sheet::changes::Seen::{self, Num, Options, Text};
use crate::sheet::changes::{
    BACK, CYCLE, Figures, MORE, OVER, Part, batch_of, cell, check_count, check_place, check_shown,
    delta_of, edit_of, ended_with, make, prepare,
};
use Tried::{Batched, Merged, One, Received};
use Way::{Made, Prepared};
use ps_delta::{Change, Edit};
use ps_grid::{CELLS, Cell, Refusal};
use ps_sheet::{Report, Sheet};
use ps_value::Value;
use std::alloc::Global;
use std::process::Abort;
use std::thread::Threads;

/// A change that is tried.
#[derive(Clone, Copy)]
pub(crate) enum Tried {
    /// Asks for a change of a cell.
    One(&'static str, Asked),
    /// Types entries as one batch.
    Batched(&'static [(&'static str, &'static str)]),
    /// Receives a delta of another replica.
    Received(&'static [(&'static str, Part)]),
    /// Merges a delta of another replica.
    Merged(&'static [(&'static str, Part)]),
}

/// How changes are made.
#[derive(Clone, Copy)]
pub(crate) enum Way {
    /// At once.
    Made,
    /// Prepared, and then committed.
    Prepared,
}

/// Changes that are tried, one after another.
#[derive(Clone, Copy)]
pub(crate) struct Tries {
    pub(crate) way: Way,
    /// each with its expected figures or its expected refusal
    pub(crate) changes: &'static [(Tried, Result<Figures, Refusal>)],
    /// what cells are expected to show at the end
    pub(crate) shown: &'static [(&'static str, Seen)],
}

/// The cell at a position in the order of the grid, row by row.
fn at(rt: &impl Abort, place: usize) -> Cell {
    Cell::from_index(place).expect(rt, "a cell")
}

/// What a sheet showed at some time, cell by cell, and how many deltas it had.
#[derive(Drop)]
struct Noted {
    version: u64,
    values: Vec<Value>,
}

fn note(rt: &impl Abort, alloc: Global, sheet: &Sheet) -> Result<Noted, Refusal> {
    let mut values = Vec::with_capacity(alloc, CELLS)?;
    for place in 0..CELLS {
        values.push(sheet.shown(at(rt, place)))?;
    }
    let version = sheet.version();
    Ok(Noted { version, values })
}

/// Asserts that the sheet is as it was noted.
fn check_noted(rt: &impl Abort, sheet: &Sheet, noted: &Noted) {
    check_count(rt, u64::from(sheet.replica()), 1, "the replica");
    check_count(rt, sheet.version(), noted.version, "the version");
    check_count(
        rt,
        sheet.history().len() as u64,
        noted.version,
        "the history",
    );
    for (place, value) in noted.values.iter().enumerate() {
        check_place(rt, sheet.shown(at(rt, place)) == *value, place);
    }
}

/// The change that is tried.
fn change_of(rt: &impl Abort, alloc: Global, tried: &Tried) -> Result<Change, Refusal> {
    match tried {
        One(name, asked) => Ok(Change::Edit(edit_of(alloc, cell(rt, name), asked)?)),
        Batched(entries) => Ok(Change::Edit(Edit::SetAll(batch_of(rt, alloc, entries)?))),
        Received(parts) => Ok(Change::Delta(delta_of(rt, alloc, parts)?)),
        Merged(parts) => Ok(Change::Merge(delta_of(rt, alloc, parts)?)),
    }
}

fn made<R: Abort + Threads + Sync>(
    rt: &R,
    alloc: Global,
    mut sheet: Sheet,
    change: Change,
) -> (Sheet, Result<Report, Refusal>) {
    let ended = make(rt, alloc, &mut sheet, change);
    (sheet, ended)
}

fn prepared_and_committed<R: Abort + Threads + Sync>(
    rt: &R,
    alloc: Global,
    sheet: Sheet,
    change: Change,
) -> (Sheet, Result<Report, Refusal>) {
    match prepare(rt, alloc, sheet, change) {
        Ok(prepared) => {
            let (sheet, report) = prepared.commit();
            (sheet, Ok(report))
        }
        Err((sheet, refusal)) => (sheet, Err(refusal)),
    }
}

/// Makes a change, and returns the sheet with the report or the refusal.
fn try_one<R: Abort + Threads + Sync>(
    rt: &R,
    alloc: Global,
    sheet: Sheet,
    way: Way,
    tried: &Tried,
) -> (Sheet, Result<Report, Refusal>) {
    match (change_of(rt, alloc, tried), way) {
        (Ok(change), Made) => made(rt, alloc, sheet, change),
        (Ok(change), Prepared) => prepared_and_committed(rt, alloc, sheet, change),
        (Err(refusal), _) => (sheet, Err(refusal)),
    }
}

/// Notes the sheet as `note` does, and calls `note` again if the first call is out of memory.
fn note_surely(rt: &impl Abort, alloc: Global, sheet: &Sheet) -> Noted {
    match note(rt, alloc, sheet) {
        Ok(noted) => noted,
        Err(_) => note(rt, alloc, sheet).ok().expect(rt, "room for a note"),
    }
}

/// Makes a change, once more if the first time is out of memory, and asserts that it ends with the expected figures or
/// refusal. Asserts that a refusal of the first call leaves the sheet as it was noted.
fn try_again<R: Abort + Threads + Sync>(
    rt: &R,
    alloc: Global,
    sheet: Sheet,
    noted: &Noted,
    way: Way,
    (tried, due): &(Tried, Result<Figures, Refusal>),
) -> Sheet {
    let (mut sheet, mut ended) = try_one(rt, alloc, sheet, way, tried);
    if ended.is_err() {
        check_noted(rt, &sheet, noted);
    }
    if ended == Err(Refusal::Memory) {
        (sheet, ended) = try_one(rt, alloc, sheet, way, tried);
    }
    assert_eq!(rt; ended_with(ended), *due);
    sheet
}

/// Makes the changes of a list, one after another, and checks each.
fn try_all<R: Abort + Threads + Sync>(
    rt: &R,
    alloc: Global,
    mut sheet: Sheet,
    tries: &Tries,
) -> Sheet {
    for change in tries.changes {
        let noted = note_surely(rt, alloc, &sheet);
        sheet = try_again(rt, alloc, sheet, &noted, tries.way, change);
    }
    sheet
}

/// Makes the changes of a list at an empty sheet, and checks what cells show at the end.
fn try_anew<R: Abort + Threads + Sync>(
    rt: &R,
    alloc: Global,
    tries: &Tries,
) -> Result<(), Refusal> {
    let sheet = try_all(rt, alloc, Sheet::open(alloc, 1, 1)?, tries);
    for (name, seen) in tries.shown {
        check_shown(rt, &sheet, name, seen);
    }
    drop(sheet);
    Ok(())
}

/// Does what `try_anew` does, and once more at a second sheet if the first run is out of memory outside a checked call.
pub(crate) fn check<R: Abort + Threads + Sync>(rt: &R, alloc: Global, tries: &Tries) {
    let mut ended = try_anew(rt, alloc, tries);
    if ended == Err(Refusal::Memory) {
        ended = try_anew(rt, alloc, tries);
    }
    assert!(rt; ended.is_ok());
}

/// One edit of one cell.
static FIRST: Tries = Tries {
    way: Made,
    changes: &[(One("A1", Set("5")), Ok([1, 0, 0, 0]))],
    shown: &[("A1", Num(5)), ("A2", Seen::Empty)],
};

/// A refused `open` is `Memory`, and the next one gives the empty sheet.
#[test]
fn refused_open(rt: HostRuntime) {
    check(&rt, rt.alloc(), &FIRST);
}

/// Cells with contents of each kind.
const KINDS: &[(&str, &str)] = &[
    ("A1", "@tally"),
    ("B1", "@choice"),
    ("C1", "=[.D1]"),
    ("D1", "7"),
    ("E1", "=[.C1]+[.A1]"),
    ("F1", "text"),
    ("G1", "=[.G1]"),
];

/// An edit of each form.
static EDITS: Tries = Tries {
    way: Made,
    changes: &[
        (Batched(KINDS), Ok([1, 2, 1, 2])),
        (One("D1", Set("8")), Ok([2, 2, 0, 2])),
        (One("F1", Set("another text")), Ok([3, 0, 0, 0])),
        (One("H1", Set("=SUM([.A2:.CZ9];[.D1])")), Ok([4, 1, 0, 1])),
        (One("H1", Set("=SUM([.A2:.CZ9])")), Ok([5, 1, 0, 1])),
        (Batched(&[("A2", "1"), ("B2", "=[.A2]")]), Ok([6, 2, 0, 2])),
        (One("F1", Add(1)), Err(Refusal::NotTally)),
        (One("A1", Add(5)), Ok([7, 1, 0, 1])),
        (One("A1", Sub(2)), Ok([8, 1, 0, 1])),
        (One("B1", Choose(7)), Ok([9, 0, 0, 0])),
        (One("B1", Choose(9)), Ok([10, 0, 0, 0])),
        (One("B1", Unchoose(7)), Ok([11, 0, 0, 0])),
        (One("G1", Set("")), Ok([12, 0, 0, 0])),
    ],
    shown: &[
        ("A1", Num(3)),
        ("B1", Options(512)),
        ("E1", Num(11)),
        ("F1", Text("another text")),
        ("G1", Seen::Empty),
        ("H1", Num(2)),
    ],
};

/// After a refused edit of any form the sheet is as before, and the next call makes it.
#[test]
fn refused_edit(rt: HostRuntime) {
    check(&rt, rt.alloc(), &EDITS);
}

/// A1 and B1 are a cycle. C1 refers to D1, and would be on a cycle if D1 referred to it.
const CYCLES: &[(&str, &str)] = &[
    ("A1", "=[.B1]"),
    ("B1", "=[.A1]"),
    ("C1", "=[.D1]"),
    ("D1", "7"),
    ("E1", "=[.A1]+1"),
    ("F1", "=[.C1]+1"),
];

/// What the cells of `CYCLES` show.
const CYCLES_SHOWN: &[(&str, Seen)] = &[
    ("A1", CYCLE),
    ("B1", CYCLE),
    ("C1", Num(7)),
    ("D1", Num(7)),
    ("E1", CYCLE),
    ("F1", Num(8)),
];

/// Received deltas. `OVER` and `BACK` each end a cycle and begin another.
static DELTAS: Tries = Tries {
    way: Made,
    changes: &[
        (Batched(CYCLES), Ok([1, 2, 3, 2])),
        (Received(OVER), Ok([2, 2, 3, 2])),
        (Received(OVER), Ok([2, 0, 0, 0])),
        (Received(BACK), Ok([3, 2, 3, 2])),
    ],
    shown: CYCLES_SHOWN,
};

/// After a refused `receive` the sheet is as before, and the next call accepts the delta.
#[test]
fn refused_receive(rt: HostRuntime) {
    check(&rt, rt.alloc(), &DELTAS);
}

/// The same deltas merged, and then a delta with one cell that is new.
static MERGES: Tries = Tries {
    way: Made,
    changes: &[
        (Batched(CYCLES), Ok([1, 2, 3, 2])),
        (Merged(OVER), Ok([2, 2, 3, 2])),
        (Merged(OVER), Ok([2, 0, 0, 0])),
        (Merged(BACK), Ok([3, 2, 3, 2])),
        (Merged(MORE), Ok([4, 0, 0, 0])),
        (Merged(MORE), Ok([4, 0, 0, 0])),
    ],
    shown: CYCLES_SHOWN,
};

/// After a refused `merge` the sheet is as before, and the next call appends what is new in the delta.
#[test]
fn refused_merge(rt: HostRuntime) {
    check(&rt, rt.alloc(), &MERGES);
}

/// Edits and deltas that are prepared.
static PREPARED: Tries = Tries {
    way: Prepared,
    changes: &[
        (Batched(CYCLES), Ok([1, 2, 3, 2])),
        (One("D1", Add(1)), Err(Refusal::NotTally)),
        (Received(OVER), Ok([2, 2, 3, 2])),
        (Received(OVER), Ok([2, 0, 0, 0])),
        (One("G1", Set("=SUM([.D1:.F9])")), Ok([3, 0, 1, 0])),
        (Merged(BACK), Ok([4, 2, 4, 2])),
    ],
    shown: CYCLES_SHOWN,
};

/// After a change is refused, out of memory or for another reason, `prepare` gives the sheet back as it was. The next
/// call prepares the change.
#[test]
fn refused_prepare(rt: HostRuntime) {
    check(&rt, rt.alloc(), &PREPARED);
}
