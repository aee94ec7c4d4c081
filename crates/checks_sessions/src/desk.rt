//! Calls at a desk that are made again after one allocation failed. A desk is a sheet that several sessions share.
//!
//! A test passes whichever single allocation fails in its process (`tests/test_refused.py`). If the failing allocation
//! comes before the call under test, the test starts again.

ghost use Rattle.ps_grid.specs.Blanks.{IsBlankOf};
ghost use Rattle.ps_desk.specs.Opening.{IsNamed};

use Asked::{Enter, Pull, Receive};
use ps_content::read_entry;
use ps_delta::{Change, Delta, Edit};
use ps_desk::{Desk, DeskName, Parts, Pass, Receipt};
use ps_eval::Meter;
use ps_grid::{CELLS, Cell, Refusal};
use ps_sheet::Sheet;
use ps_value::Value;
use ps_wire::decode;
use std::alloc::Global;
use std::marker::Brand;
use std::process::Abort;
use std::sync::Wait;
use std::sync::ledger::{Blank, Ledger};
use std::thread::Threads;

/// A call at a desk.
#[derive(Clone, Copy)]
enum Asked {
    /// Enter an entry into a cell; the answer is the number of the receipt.
    Enter(&'static str, &'static str),
    /// Receive the delta with this text; the answer is the number of the receipt.
    Receive(&'static str),
    /// Pull the deltas after a number; the answer is how many there are.
    Pull(u64),
}

/// A call, its expected answer, the name of a cell, and what that cell has to show afterwards.
type Row = (Asked, u64, &'static str, Value);

/// What a pass shows: the version, the values of all cells, and how many deltas the pass appended.
#[derive(Drop)]
struct Noted {
    version: u64,
    appended: u64,
    values: Vec<Value>,
}

fn cell(rt: &impl Abort, name: &str) -> Cell {
    Cell::read(name.as_bytes()).expect(rt, "a cell")
}

/// Returns the cell at a position in the order of the grid.
fn at(rt: &impl Abort, position: usize) -> Cell {
    Cell::from_index(position).expect(rt, "a cell")
}

/// Returns what a cell shows to the pass, after the version.
fn read<L: DeskName>(rt: &impl Abort, pass: &mut Pass<L>, cell: Cell) -> (u64, Value) {
    let shot = pass.read(cell).expect(rt, "a desk");
    (shot.version, shot.value)
}

fn note<L: DeskName>(rt: &impl Abort, alloc: Global, pass: &mut Pass<L>) -> Result<Noted, Refusal> {
    let mut values = vec![in alloc; Value::Empty; CELLS]?;
    let version = pass.read_all(&mut values).expect(rt, "a desk");
    let appended = pass.appended();
    Ok(Noted {
        version,
        appended,
        values,
    })
}

/// Checks that the pass still shows what was noted.
fn check_noted<L: DeskName>(rt: &impl Abort, pass: &mut Pass<L>, noted: &Noted) {
    assert_eq!(rt; pass.appended(), noted.appended);
    for (position, value) in noted.values.iter().enumerate() {
        assert!(rt;
            read(rt, pass, at(rt, position)) == (noted.version, *value),
            "{position}"
        );
    }
}

/// Makes a change with a new meter, and returns its receipt.
fn made<L: DeskName, W: Wait + Drop, T: Threads + Wait + Sync, M: Ledger>(
    rt: &T,
    blank: Blank,
    alloc: Global,
    desk: &Desk<L, W>,
    pass: &mut Pass<L>,
    change: Change,
) -> Result<Receipt<Delta>, Refusal>
    requires { IsBlankOf blank M.name M.parts }
{
    let mut meter = Meter::<M>::new(blank);
    let made = match change {
        Change::Edit(edit) => desk.edit(rt, rt, alloc, pass, edit, &mut meter),
        Change::Delta(delta) => desk.receive(rt, rt, alloc, pass, delta, &mut meter),
        Change::Merge(delta) => desk.merge(rt, rt, alloc, pass, delta, &mut meter),
    };
    meter.end();
    made
}

/// Makes a change, and returns the number of its receipt, or why it is refused.
fn answer<L: DeskName, W: Wait + Drop, T: Threads + Wait + Sync>(
    rt: &T,
    alloc: Global,
    desk: &Desk<L, W>,
    pass: &mut Pass<L>,
    change: Change,
) -> Result<u64, Refusal> {
    match made::<L, W, T, Brand>(rt, Blank::new(1), alloc, desk, pass, change) {
        Ok(receipt) => Ok(receipt.number),
        Err(refusal) => Err(refusal),
    }
}

fn change_of(rt: &impl Abort, alloc: Global, name: &str, entry: &str) -> Result<Change, Refusal> {
    let content = read_entry(alloc, entry.as_bytes())?;
    Ok(Change::Edit(Edit::Set(cell(rt, name), content)))
}

fn received(alloc: Global, line: &str) -> Result<Change, Refusal> {
    Ok(Change::Delta(decode(alloc, line.as_bytes())?))
}

/// Makes a call at a desk, and returns its answer.
fn ask<L: DeskName, W: Wait + Drop, T: Abort + Threads + Wait + Sync>(
    rt: &T,
    alloc: Global,
    desk: &Desk<L, W>,
    pass: &mut Pass<L>,
    asked: &Asked,
) -> Result<u64, Refusal> {
    match asked {
        Enter(name, entry) => {
            let change = change_of(rt, alloc, name, entry)?;
            answer(rt, alloc, desk, pass, change)
        }
        Receive(line) => answer(rt, alloc, desk, pass, received(alloc, line)?),
        Pull(from) => Ok(desk.pull(rt, alloc, pass, *from, usize::MAX)?.len() as u64),
    }
}

/// Makes a call at a desk. If the call runs out of memory, checks that both passes show what they showed before, and
/// makes the call again.
fn ask_again<L: DeskName, W: Wait + Drop, T: Abort + Threads + Wait + Sync>(
    rt: &T,
    alloc: Global,
    desk: &Desk<L, W>,
    pass: &mut Pass<L>,
    other: &mut Pass<L>,
    asked: &Asked,
) -> Result<u64, Refusal> {
    let own = note(rt, alloc, pass)?;
    let theirs = note(rt, alloc, other)?;
    match ask(rt, alloc, desk, pass, asked) {
        Err(Refusal::Memory) => {
            check_noted(rt, pass, &own);
            check_noted(rt, other, &theirs);
            ask(rt, alloc, desk, pass, asked)
        }
        answer => answer,
    }
}

/// Checks that both passes show this value of a cell, at the same version.
fn check_both<L: DeskName>(
    rt: &impl Abort,
    first: &mut Pass<L>,
    second: &mut Pass<L>,
    name: &str,
    value: Value,
) {
    let seen = read(rt, first, cell(rt, name));
    assert!(rt;
        seen.1 == value && read(rt, second, cell(rt, name)) == seen,
        "{name}"
    );
}

/// Makes the call of each row with the first of two passes. Checks the answer, and what both passes show afterwards.
fn go_through<L: DeskName, W: Wait + Drop, T: Abort + Threads + Wait + Sync>(
    rt: &T,
    alloc: Global,
    desk: &Desk<L, W>,
    first: &mut Pass<L>,
    second: &mut Pass<L>,
    rows: &[Row],
) -> Result<(), Refusal> {
    for (asked, number, name, value) in rows {
        let found = ask_again(rt, alloc, desk, first, second, asked)?;
        assert_eq!(rt; found, *number, "{name}");
        check_both(rt, first, second, name, *value);
    }
    Ok(())
}

/// Opens a desk with two slots from these parts, and makes and checks the calls of the rows ([`go_through`]). Checks
/// that a pass reads nothing once the desk is gone. If the desk can't be opened, returns the sheet with the refusal.
fn life<L: DeskName, T: Abort + Threads + Wait + Sync>(
    rt: &T,
    alloc: Global,
    parts: Parts,
    rows: &[Row],
) -> Result<Result<(), Refusal>, (Sheet, Refusal)>
    requires named { IsNamed L.name L.parts L.book L.opening L.replica parts }
{
    let (desk, mut passes) = Desk::<L, &T>::open(rt, alloc, parts)?;
    let mut second = passes.pop().expect(rt, "a pass");
    let mut first = passes.pop().expect(rt, "another one");
    let ended = go_through(rt, alloc, &desk, &mut first, &mut second, rows);
    drop(desk);
    assert!(rt; first.read(at(rt, 0)).is_none());
    drop(first);
    drop(second);
    drop(passes);
    Ok(ended)
}

/// Does what [`life`] does, with a desk of two session slots over this sheet.
fn over<T: Abort + Threads + Wait + Sync>(
    rt: &T,
    alloc: Global,
    sheet: Sheet,
    rows: &[Row],
) -> Result<Result<(), Refusal>, (Sheet, Refusal)> {
    life::<Brand, T>(rt, alloc, Parts::new(sheet, 2), rows)
}

/// Checks that a sheet has no delta and shows nothing.
fn check_empty(rt: &impl Abort, sheet: &Sheet) {
    assert!(rt; sheet.version() == 0);
    for position in 0..CELLS {
        assert!(rt; sheet.shown(at(rt, position)) == Value::Empty, "{position}");
    }
}

/// Opens the desk again, over the sheet that a refused opening returned, and makes the calls of the rows. Checks that
/// the opening was refused as out of memory, and that the sheet is empty.
fn over_returned<T: Abort + Threads + Wait + Sync>(
    rt: &T,
    alloc: Global,
    returned: (Sheet, Refusal),
    rows: &[Row],
) -> Result<(), Refusal> {
    let (sheet, refusal) = returned;
    assert!(rt; refusal == Refusal::Memory);
    check_empty(rt, &sheet);
    over(rt, alloc, sheet, rows).ok().expect(rt, "a desk")
}

/// Makes and checks the calls of the rows at a desk over a new sheet. If opening the desk is refused, opens it again.
fn over_again<T: Abort + Threads + Wait + Sync>(
    rt: &T,
    alloc: Global,
    rows: &[Row],
) -> Result<(), Refusal> {
    match over(rt, alloc, Sheet::open(alloc, 1, 1)?, rows) {
        Ok(ended) => ended,
        Err(returned) => over_returned(rt, alloc, returned, rows),
    }
}

/// Does what [`over_again`] does, and starts again with another sheet if memory runs out before a call.
fn check<T: Abort + Threads + Wait + Sync>(rt: &T, alloc: Global, rows: &[Row]) {
    let mut ended = over_again(rt, alloc, rows);
    if ended == Err(Refusal::Memory) {
        ended = over_again(rt, alloc, rows);
    }
    assert!(rt; ended == Ok(()));
}

/// If `open` runs out of memory, it returns the sheet, and the next call opens the desk. Making the parts never
/// allocates.
#[test]
fn refused_open(rt: HostRuntime) {
    check(&rt, rt.alloc(), &[]);
}

/// After a refused edit, each pass shows and counts the same as before, and the next call makes the edit.
#[test]
fn refused_edit(rt: HostRuntime) {
    check(
        &rt,
        rt.alloc(),
        &[
            (Enter("A1", "5"), 1, "A1", Value::Num(5)),
            (Enter("B1", "=[.A1]*2"), 2, "B1", Value::Num(10)),
            (Enter("A1", "7"), 3, "B1", Value::Num(14)),
        ],
    );
}

/// After a refused `receive`, each pass shows and counts the same as before, and the next call accepts the delta.
#[test]
fn refused_receive(rt: HostRuntime) {
    let both = r#"[["A1",[1,2,"5"],[],[]],["B1",[1,2,"=[.A1]*2"],[],[]]]"#;
    let later = r#"[["A1",[2,2,"7"],[],[]]]"#;
    check(
        &rt,
        rt.alloc(),
        &[
            (Receive(both), 1, "B1", Value::Num(10)),
            (Receive(both), 1, "A1", Value::Num(5)),
            (Receive(later), 2, "B1", Value::Num(14)),
        ],
    );
}

/// If a pull runs out of memory, each pass shows the same as before, and the next call returns the deltas.
#[test]
fn refused_pull(rt: HostRuntime) {
    check(
        &rt,
        rt.alloc(),
        &[
            (Enter("A1", "5"), 1, "A1", Value::Num(5)),
            (Enter("A1", "7"), 2, "A1", Value::Num(7)),
            (Pull(0), 2, "A1", Value::Num(7)),
            (Pull(2), 0, "A1", Value::Num(7)),
        ],
    );
}
