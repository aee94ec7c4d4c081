//! Published copies and patches, while an allocation may fail. After a call of the writer that is out of memory, a
//! reader sees no more than before, and the same call then works.

ghost use Rattle.std.specs.Prelude.{◌≡◌, ◌++◌, ◌∷◌, [], map, IfOk, OnOk, OnErr};
ghost use Rattle.ps_shown.specs.Kept.{value_of};
ghost use Rattle.ps_sheet.specs.Prepared.{IsPrepared, history_after};
ghost use Rattle.ps_face.specs.Legal.{Follows, history_of};
ghost use Rattle.ps_face.specs.Values.{valued};

use crate::sheet::changes::{cell, prepare};
use ps_content::read_entry;
use ps_delta::{Change, Edit};
use ps_face::{FaceReader, FaceWriter, Named, NewBook, Patch};
use ps_grid::{Cell, Refusal};
use ps_sheet::{Prepared, Sheet};
use ps_shown::Kept;
use ps_value::{Label, SharedLabel, Value};
use std::alloc::Global;
use std::marker::Brand;
use std::process::Abort;
use std::sync::Wait;
use std::thread::Threads;

/// How a patch gets to the readers.
#[derive(Clone, Copy)]
enum Way {
    /// It is appended, and then published.
    Appended,
    /// It is posted, and waits to be shown.
    Posted,
}

/// What a reader sees of A1, with the version.
type Sight = (u64, Value);

/// An entry for A1, and what a reader then sees: before and after the writer shows all that waits.
type Row = (&'static str, [Sight; 2]);

/// The form in which a sheet stores a value.
fn keep(alloc: Global, value: Value) -> Result<Kept, Refusal>
    ensures { IfOk result (λ k. value_of k ≡ value) }
{
    match value {
        Value::Empty => Ok(Kept::Empty),
        Value::Num(number) => Ok(Kept::Num(number)),
        Value::Text(label) => Ok(Kept::Text(SharedLabel::new(alloc, label)?)),
        Value::Choice(options) => Ok(Kept::Choice(options)),
        Value::Err(fault) => Ok(Kept::Err(fault)),
    }
}

/// The cells with their values in the form in which a sheet stores them.
fn keep_all(alloc: Global, changes: &[(Cell, Value)]) -> Result<Vec<(Cell, Kept)>, Refusal>
    ensures { IfOk result (λ k. map valued k.items ≡ changes.now) }
{
    let mut kept = Vec::new(alloc);
    for (cell, value) in changes {
        let entry = (*cell, keep(alloc, *value)?);
        kept.push(entry)?;
    }
    Ok(kept)
}

/// The patch of a prepared change, whose delta adds something new to the state.
fn patch_of<'a>(
    rt: &impl Abort,
    alloc: Global,
    prepared: &'a Prepared,
) -> Result<Patch<'a>, Refusal>
    ensures follows { IfOk result (λ p. Follows prepared.now.history p) }
    ensures after { IfOk result (λ p. history_after prepared.now ≡ prepared.now.history ++ p.delta ∷ []) }
{
    assert!(rt; prepared.fresh());
    let changes = keep_all(alloc, prepared.changes())?;
    Ok(Patch::new(prepared.report().version, prepared.delta(), changes, 1))
}

/// Enters, reads the version and A1, and leaves.
fn read<L: Named>(rt: &impl Abort, reader: FaceReader<L>) -> (FaceReader<L>, Sight) {
    let seen = reader.enter().ok().expect(rt, "a writer");
    let found = (seen.version(), seen.at(cell(rt, "A1")));
    (seen.leave(), found)
}

/// Asserts that a reader sees what is due.
fn check_sight<L: Named>(rt: &impl Abort, reader: FaceReader<L>, due: &Sight) -> FaceReader<L> {
    let (reader, sight) = read(rt, reader);
    assert!(rt; sight == *due);
    reader
}

/// Publishes the patch of a prepared change in the given way. Before `publish` shows an appended patch, asserts that a
/// reader sees what it saw before.
fn tell<L: Named, R: Wait + Drop>(
    rt: &impl Abort,
    alloc: Global,
    writer: &mut FaceWriter<L, R>,
    prepared: &Prepared,
    way: Way,
    reader: FaceReader<L>,
    before: &Sight,
) -> (FaceReader<L>, Result<(), Refusal>)
    requires none { writer.old.pending ≡ [] }
    requires history { prepared.now.history ≡ history_of L.opening writer.old.list }
    ensures none { OnOk result.1 (writer.new.pending ≡ []) }
    ensures after { OnOk result.1 (history_after prepared.now ≡ history_of L.opening writer.new.list) }
    ensures kept { OnErr result.1 (writer.new ≡ writer.old) }
{
    let patch = match patch_of(rt, alloc, prepared) {
        Ok(patch) => patch,
        Err(refusal) => return (reader, Err(refusal)),
    };
    match way {
        Way::Appended => match writer.append(patch) {
            Ok(()) => {
                let reader = check_sight(rt, reader, before);
                drop(writer.publish());
                (reader, Ok(()))
            }
            Err(refusal) => (reader, Err(refusal)),
        },
        Way::Posted => (reader, writer.post_patch(patch)),
    }
}

/// Publishes a patch as `tell` does, and once more if the first call is refused. Asserts that the refusal is `Memory`,
/// and that a reader then sees what it saw before.
fn tell_again<L: Named, R: Wait + Drop>(
    rt: &impl Abort,
    alloc: Global,
    writer: &mut FaceWriter<L, R>,
    prepared: &Prepared,
    way: Way,
    reader: FaceReader<L>,
) -> FaceReader<L>
    requires none { writer.old.pending ≡ [] }
    requires history { prepared.now.history ≡ history_of L.opening writer.old.list }
    ensures none { writer.new.pending ≡ [] }
    ensures after { history_after prepared.now ≡ history_of L.opening writer.new.list }
{
    let (reader, before) = read(rt, reader);
    let (reader, ended) = tell(rt, alloc, writer, prepared, way, reader, &before);
    match ended {
        Ok(()) => reader,
        Err(refusal) => {
            assert!(rt; refusal == Refusal::Memory);
            let reader = check_sight(rt, reader, &before);
            let (reader, ended) = tell(rt, alloc, writer, prepared, way, reader, &before);
            ended.expect(rt, "room for a patch");
            reader
        }
    }
}

/// The edit that enters `entry` in A1. Reads the entry again if the first time is out of memory.
fn change_to(rt: &impl Abort, alloc: Global, entry: &str) -> Change {
    let content = match read_entry(alloc, entry.as_bytes()) {
        Ok(content) => content,
        Err(_) => read_entry(alloc, entry.as_bytes())
            .ok()
            .expect(rt, "an entry"),
    };
    Change::Edit(Edit::Set(cell(rt, "A1"), content))
}

/// Prepares the edit that enters `entry` in A1. Prepares it again if the first time is out of memory.
fn entered<T: Abort + Threads + Sync>(rt: &T, alloc: Global, sheet: Sheet, entry: &str) -> Prepared
    ensures prepared { IsPrepared result }
    ensures history { result.history ≡ sheet.history }
{
    match prepare(rt, alloc, sheet, change_to(rt, alloc, entry)) {
        Ok(prepared) => prepared,
        Err((sheet, _)) => {
            let again = prepare(rt, alloc, sheet, change_to(rt, alloc, entry));
            again.ok().expect(rt, "room for a change")
        }
    }
}

/// Asserts that a reader sees what is due, before and after the writer shows all that waits.
fn check_seen<L: Named, R: Wait + Drop>(
    rt: &impl Abort,
    writer: &mut FaceWriter<L, R>,
    reader: FaceReader<L>,
    due: &[Sight; 2],
) -> FaceReader<L>
    ensures list { writer.new.list ≡ writer.old.list }
    ensures pending { writer.new.pending ≡ writer.old.pending }
{
    let reader = check_sight(rt, reader, &due[0]);
    writer.show();
    check_sight(rt, reader, &due[1])
}

/// Enters the row's entry in A1, publishes its patch in the given way, and checks what a reader sees.
fn go_on<L: Named, R: Wait + Drop, T: Abort + Threads + Sync>(
    rt: &T,
    alloc: Global,
    sheet: Sheet,
    writer: &mut FaceWriter<L, R>,
    reader: FaceReader<L>,
    way: Way,
    row: &Row,
) -> (Sheet, FaceReader<L>)
    requires none { writer.old.pending ≡ [] }
    requires history { sheet.history ≡ history_of L.opening writer.old.list }
    ensures none { writer.new.pending ≡ [] }
    ensures history { result.0.history ≡ history_of L.opening writer.new.list }
{
    let prepared = entered(rt, alloc, sheet, row.0);
    let reader = tell_again(rt, alloc, writer, &prepared, way, reader);
    let (sheet, _) = prepared.commit();
    (sheet, check_seen(rt, writer, reader, &row.1))
}

/// Opens the copies of an empty sheet, with one reader.
fn open<'a, L: Named, T: Abort + Wait + Sync>(
    rt: &'a T,
    alloc: Global,
    opened: NewBook,
    sheet: &Sheet,
) -> Result<(FaceWriter<L, &'a T>, FaceReader<L>), Refusal>
    requires book { opened ≡ L.book }
    requires opening { L.opening ≡ [] }
    requires empty { sheet.now.history ≡ [] }
    ensures none { IfOk result (λ r. r.0.pending ≡ []) }
    ensures list { IfOk result (λ r. r.0.list ≡ []) }
{
    let shown = sheet.all_shown();
    let (writer, mut readers) = FaceWriter::open(rt, alloc, opened, shown, 0, 1)?;
    Ok((writer, readers.pop().expect(rt, "a reader")))
}

/// Enters, publishes and checks one row after the other, and then drops the sheet and its copies.
fn go_through<L: Named, R: Wait + Drop, T: Abort + Threads + Sync>(
    rt: &T,
    alloc: Global,
    sheet: Sheet,
    mut writer: FaceWriter<L, R>,
    reader: FaceReader<L>,
    way: Way,
    rows: &[Row; 2],
)
    requires none { writer.pending ≡ [] }
    requires history { sheet.history ≡ history_of L.opening writer.list }
{
    let (sheet, reader) = go_on(rt, alloc, sheet, &mut writer, reader, way, &rows[0]);
    drop(go_on(rt, alloc, sheet, &mut writer, reader, way, &rows[1]));
    drop(writer);
}

/// Enters, publishes and checks the rows at an empty sheet, whose copies have the name `L`.
fn try_on<L: Named, T: Abort + Threads + Wait + Sync>(
    rt: &T,
    alloc: Global,
    opened: NewBook,
    way: Way,
    rows: &[Row; 2],
) -> Result<(), Refusal>
    requires book { opened ≡ L.book }
    requires opening { L.opening ≡ [] }
{
    let sheet = Sheet::open(alloc, 1, 1)?;
    match open::<L, T>(rt, alloc, opened, &sheet) {
        Ok((writer, reader)) => {
            go_through(rt, alloc, sheet, writer, reader, way, rows);
            Ok(())
        }
        Err(refusal) => {
            drop(sheet);
            Err(refusal)
        }
    }
}

/// Enters, publishes and checks the rows at an empty sheet, whose copies have a new name.
fn try_anew<T: Abort + Threads + Wait + Sync>(
    rt: &T,
    alloc: Global,
    opened: NewBook,
    way: Way,
    rows: &[Row; 2],
) -> Result<(), Refusal> {
    try_on::<Brand, T>(rt, alloc, opened, way, rows)
}

/// Enters, publishes and checks the rows at an empty sheet. Does so once more if the first run is out of memory before
/// a call under test.
fn check<T: Abort + Threads + Wait + Sync>(rt: &T, alloc: Global, way: Way, rows: &[Row; 2]) {
    let mut ended = try_anew(rt, alloc, NewBook::new(), way, rows);
    if ended == Err(Refusal::Memory) {
        ended = try_anew(rt, alloc, NewBook::new(), way, rows);
    }
    assert!(rt; ended.is_ok());
}

const EMPTY: Sight = (0, Value::Empty);

const FIVE: Sight = (1, Value::Num(5));

fn text(rt: &impl Abort) -> Sight {
    (2, Value::Text(Label::new(b"text").expect(rt, "a text")))
}

/// After a refused `append` a reader sees what it saw before, and the next `append` works: for a patch of a number, and
/// of a text.
#[test]
fn refused_append(rt: HostRuntime) {
    let rows = [("5", [FIVE, FIVE]), ("text", [text(&rt), text(&rt)])];
    check(&rt, rt.alloc(), Way::Appended, &rows);
}

/// After a refused `post_patch` a reader sees what it saw before, and the next call works. A posted patch waits until
/// it is shown.
#[test]
fn refused_post(rt: HostRuntime) {
    let rows = [("5", [EMPTY, FIVE]), ("text", [FIVE, text(&rt)])];
    check(&rt, rt.alloc(), Way::Posted, &rows);
}
