//! Tests of an index: after formulas are put in and taken out, which cells refer to a cell.
//!
//! A test asserts what small functions work out. Small functions with few owned values are quick to prove.

ghost use Rattle.std.specs.Prelude.{IfOk, OnOk, Some};
ghost use Rattle.std.specs.Option.{option_copied};
ghost use Rattle.ps_index.specs.Stands.{Puts, Stands, with_put};

use ps_formula::Formula;
use ps_grid::{CELLS, COLUMNS, Cell, Refusal};
use ps_index::{Index, Spans};
use std::alloc::Global;

/// The cell of this name.
fn cell(name: &str) -> Result<Cell, Refusal> {
    Cell::read(name.as_bytes()).ok_or(Refusal::Cell)
}

/// Whether `index` lists exactly the cells of these names, in this order, as those that refer to the cell named `to`.
fn refer_to(index: &Index, to: &str, names: &str) -> bool {
    match Cell::read(to.as_bytes()) {
        Some(to) => are_readers(index, to, names),
        None => false,
    }
}

/// Whether `index` lists exactly the cells of these names, in this order, as those that refer to `to`.
fn are_readers(index: &Index, to: Cell, names: &str) -> bool {
    let mut names = names.split_ascii_whitespace();
    for found in index.dependents(to) {
        let name = names.next().unwrap_or("");
        if Cell::read(name.as_bytes()) != Some(found) {
            return false;
        }
    }
    names.next().is_none()
}

/// Whether, for each row, the cells that refer to its first cell are exactly its other cells, in this order.
fn all_refer(index: &Index, rows: &[(&str, &str)]) -> bool {
    for (to, names) in rows {
        if !refer_to(index, to, names) {
            return false;
        }
    }
    true
}

/// An index of formulas. Each line is the name of a cell, a space, and the cell's formula.
fn index_of(alloc: Global, lines: &str) -> Result<Index, Refusal>
    ensures { IfOk result (λ i. (forms : Puts) × Stands i forms) }
{
    let mut index = Index::new(alloc)?;
    put(alloc, &mut index, lines)?;
    Ok(index)
}

/// Puts formulas into an index. Each line is the name of a cell, a space, and the cell's formula.
fn put(alloc: Global, index: &mut Index, lines: &str) -> Result<(), Refusal>
    requires { (forms : Puts) × Stands index.old forms }
    ensures { OnOk result ((forms : Puts) × Stands index.new forms) }
{
    for line in lines.lines() {
        let (name, text) = line.split_once(" ").unwrap_or(("", ""));
        let formula = Formula::read(alloc, text.as_bytes())?;
        put_in(index, cell(name)?, &formula)?;
    }
    Ok(())
}

/// Puts the formula of a cell into an index.
fn put_in(index: &mut Index, cell: Cell, formula: &Formula) -> Result<(), Refusal>
    requires { (forms : Puts) × Stands index.old forms }
    ensures { OnOk result ((forms : Puts) × Stands index.new forms) }
{
    index.set(cell, None, Some(formula))
}

/// Whether both indices list the same cells, in the same order, as those that refer to a cell.
fn refer_alike(index: &Index, twin: &Index, to: Cell) -> bool {
    let mut others = twin.dependents(to);
    for found in index.dependents(to) {
        if others.next() != Some(found) {
            return false;
        }
    }
    others.next().is_none()
}

/// Whether both lists have the same spans, in the same order.
fn are_same(spans: &Spans, twin: &Spans) -> bool {
    if spans.len() != twin.len() {
        return false;
    }
    for k in 0..spans.len() {
        if spans.at(k) != twin.at(k) {
            return false;
        }
    }
    true
}

/// Whether both indices list the same cells for each cell, and have the same spans for each column.
fn are_alike(index: &Index, twin: &Index) -> bool {
    for column in 0..COLUMNS as u8 {
        if !are_same(index.spans(column), twin.spans(column)) {
            return false;
        }
    }
    for k in 0..CELLS {
        if Cell::from_index(k).is_none_or(|to| !refer_alike(index, twin, to)) {
            return false;
        }
    }
    true
}

/// Exchanges the formula `old` of a cell, or none, for `new`. Calls `Index::set` again if the first call is refused.
/// Returns whether that refusal, if there was one, was `Memory` and left the index like `twin`.
fn set_again(
    index: &mut Index,
    twin: &Index,
    cell: Cell,
    old: Option<&Formula>,
    new: &Formula,
) -> Result<bool, Refusal>
    requires { (forms : Puts) × Stands index.old (with_put cell (option_copied old) forms) }
    ensures { OnOk result ((forms : Puts) → Stands index.old (with_put cell (option_copied old.entry) forms)
        → Stands index.new (with_put cell (Some new.now) forms)) }
{
    match index.set(cell, old, Some(new)) {
        Ok(()) => Ok(true),
        Err(refusal) => {
            let is_kept = refusal == Refusal::Memory && are_alike(index, twin);
            index.set(cell, old, Some(new))?;
            Ok(is_kept)
        }
    }
}

/// The formulas of the other cells, while that of A9 is put in and exchanged.
const BESIDE: &str = "A1 =SUM([.B1:.B2])\nA2 =[.CZ2]\nB1 =SUM([.A1:.CZ1024])";

/// Cells, each with the cells that refer to it once the old formula of A9 is put in.
static PUT: [(&str, &str); 5] = [
    ("A1024", "B1 A9"),
    ("B1", "A1 B1 A9"),
    ("B9", "B1 A9"),
    ("B10", "B1"),
    ("CZ2", "B1 A2"),
];

/// Cells, each with the cells that refer to it once A9 has the new formula.
static EXCHANGED: [(&str, &str); 7] = [
    ("A1024", "B1"),
    ("B1", "A1 B1"),
    ("B2", "A1 B1"),
    ("B3", "B1 A9"),
    ("B10", "B1 A9"),
    ("CZ2", "B1 A2"),
    ("CZ10", "B1 A9"),
];

/// Whether refused calls left the index as it was, and the next calls put the formula `old` in and exchanged it for
/// `new`.
fn refuse_set(alloc: Global, cell: Cell, old: &Formula, new: &Formula) -> Result<bool, Refusal> {
    let mut index = index_of(alloc, BESIDE)?;
    let mut twin = index_of(alloc, BESIDE)?;
    let is_put = set_again(&mut index, &twin, cell, None, old)?;
    let before = all_refer(&index, &PUT);
    twin.set(cell, None, Some(old))?;
    let is_exchanged = set_again(&mut index, &twin, cell, Some(old), new)?;
    let after = all_refer(&index, &EXCHANGED);
    Ok(is_put && before && is_exchanged && after)
}

/// Does what `refuse_set` does, for two formulas of A9.
fn refuse_sets(alloc: Global) -> Result<bool, Refusal> {
    let old = Formula::read(alloc, b"=SUM([.B1:.B9])+[.A1024]")?;
    let new = Formula::read(alloc, b"=SUM([.B3:.CZ10])")?;
    refuse_set(alloc, cell("A9")?, &old, &new)
}

/// After a refused `Index::set`, with an old formula and without one, the index is as before. The next call puts the
/// new formula in.
#[test]
fn refused_set(rt: HostRuntime) {
    let mut found = refuse_sets(rt.alloc());
    if found == Err(Refusal::Memory) {
        found = refuse_sets(rt.alloc());
    }
    assert!(rt; found == Ok(true));
}
