//! The one writer of the two published copies.

ghost use Rattle.std.specs.Prelude.{◌≡◌, ◌⊎◌, ◌+◌, ◌<◌, ◌≤◌, ◌++◌, ◌∷◌, [], All, IfOk, IfErr, MatchResult, OnOk, OnErr};
ghost use Rattle.std.specs.Prelude.{IsOk, drop, false, fold, length, map, vec_len};
ghost use mathlib.Core.List.{IsPrefix};
ghost use Rattle.ps_grid.specs.declared.parties.TheConstants.{SEATS as MOST};
ghost use Rattle.ps_grid.specs.declared.refusal.Refusal.TheVariants.{Memory, Seat};
ghost use Rattle.ps_delta.specs.State.{IsInGrid};
ghost use Rattle.ps_delta.specs.Deltas.{joined_history};
ghost use Rattle.ps_shown.specs.Shown.{shown_at};
ghost use Rattle.ps_cells.specs.Settled.{IsSettled};
ghost use Rattle.ps_face.specs.Legal.{Follows, IsLegal, delta_of, history_of};
ghost use Rattle.ps_face.specs.Rules.{newcomer};
ghost use Rattle.ps_face.specs.Seen.{Copy, CopyStands, turned};
ghost use Rattle.ps_face.specs.Published.{MayShow};

use crate::book::{BookPrefix, Head, NewBook};
use crate::face::{Face, Operation};
use crate::name::Named;
use crate::patch::{KeptPatch, Patch};
use crate::reader::FaceReader;
use crate::rule::{Law, Publish, View};
use crate::shown_prefix::ShownPrefix;
use crate::waiting::{MOST_WAITING, Waiting};
use core::mem::replace_with;
use left_right::writer::Writer;
use ps_delta::Delta;
use ps_grid::Refusal;
use ps_shown::Shown;
use std::alloc::{AllocError, Global};
use std::marker::Model;
use std::sync::Wait;

/// The most operations in the queue of the copies. Each showing adds up to two: what waited, and a patch. The two of
/// the last showing stay in the queue until the other copy takes them in, and two more are to be shown next.
const MOST_QUEUED: usize = 4;

type Copies<L> = Writer<Face, Operation, View, Law<L>>;

/// The writer of two published copies. Readers use one copy while the writer changes the other.
///
/// A contract sees three things of a writer: the published list of patches, the beginning of the list that readers are
/// shown, and the pending patches, which [`FaceWriter::append`] has stored and which aren't published yet.
pub struct FaceWriter<L: Named, R: Wait + Drop> {
    copies: Copies<L>,
    head: Head,
    front: BookPrefix,
    staged: Vec<KeptPatch>,
    waiting: Waiting,
    /// waits for readers when a copy is shown, and when the copies are dropped
    rt: R,
}

impl<L: Named, R: Wait + Drop> Model for FaceWriter<L, R> {
    ghost use Rattle.std.specs.Prelude.{drop};
    ghost use Rattle.std.specs.Coded.{codes};
    ghost use Rattle.ps_face.specs.contracts.patch.Note as note;
    ghost use Rattle.ps_face.specs.Published.{Published, WriterStands};

    ghost Value = { Published };

    ghost coded = { Prim.hlevel (codes, note.the_row.coded) };

    ghost view = { λ w. record {
      list = w.front.list;
      shown = w.copies.desk.shown.value.list;
      pending = w.staged.items;
    } };

    ghost invariant = { λ w. WriterStands L.opening L.book w.copies.desk.shown.value w.front w.head
        (drop w.copies.behind w.copies.log.items) w.waiting w.staged.items };
}

impl<L: Named, R: Wait + Drop> FaceWriter<L, R> {
    /// Creates two copies of `shown`, what a sheet shows at `version`, and returns their writer and their readers.
    /// `opened` is the copies' book. `readers` is the number of readers: at least 1, at most `SEATS`, the greatest
    /// number of session slots.
    ///
    /// # Errors
    ///
    /// - `Memory` if allocation fails.
    /// - `Seat` if the copies have no room for another reader.
    ///
    /// Cost: that of copying the shown values twice.
    pub fn open(
        rt: R,
        alloc: Global,
        opened: NewBook,
        shown: &Shown,
        version: u64,
        readers: usize,
    ) -> Result<(FaceWriter<L, R>, Vec<FaceReader<L>>), Refusal>
        requires book { opened ≡ L.book }
        requires version { version ≡ length L.opening }
        requires settled { IsSettled (joined_history L.opening) (shown_at shown.now) }
        requires in_grid { IsInGrid (joined_history L.opening) }
        requires readers { (1 ≤ readers) × (readers ≤ MOST) }
        ensures writer { IfOk result (λ r. r.0 ≡ record { list = []; shown = []; pending = [] }) }
        ensures count { IfOk result (λ r. vec_len r.1 ≡ readers) }
        ensures readers { IfOk result (λ r. All (λ v. v ≡ newcomer) r.1.items) }
        ensures refused { IfErr result (λ e. (e ≡ Memory) ⊎ (e ≡ Seat)) }
    {
        let (head, front) = opened.split();
        let copies = open_copies::<L, R>(&rt, alloc, shown, version, &front, readers)?;
        let waiting = Waiting::none(alloc, front.again());
        match make_readers(alloc, &copies, &front, readers) {
            Ok(readers) => {
                let writer = FaceWriter {
                    copies,
                    head,
                    front,
                    staged: Vec::new(alloc),
                    waiting,
                    rt,
                };
                Ok((writer, readers))
            }
            Err(refusal) => {
                copies.take(&rt);
                Err(refusal)
            }
        }
    }

    /// Stores `patch`, the next one, until [`FaceWriter::publish`] appends it to the published list and shows it.
    ///
    /// Fails only when out of memory, and then nothing has changed.
    ///
    /// Nothing in the program calls this method: [`FaceWriter::publish_patch`] stores and publishes in one call. The
    /// method is part of the public interface, for callers that do something between the two steps, such as a test that
    /// looks at the copies.
    ///
    /// Cost: the first call takes memory for one patch.
    pub fn append(&mut self, patch: Patch<'_>) -> Result<(), Refusal>
        requires none { self.old.pending ≡ [] }
        requires legal { Follows (history_of L.opening self.old.list) patch }
        ensures pending { MatchResult result
            (λ _. self.new ≡ record self.old { pending = patch.entry ∷ [] })
            (λ _. self.new ≡ self.old) }
        ensures memory { IfErr result (λ e. e ≡ Memory) }
    {
        let kept = patch.keep(*self.staged.allocator())?;
        self.staged.push(kept)?;
        Ok(())
    }

    /// Publishes the patch that [`FaceWriter::append`] stored, and returns the patch's delta. The call appends the
    /// patch to the published list, and shows it to readers at one step, with all posted patches that wait.
    ///
    /// Readers that entered before the previous showing must leave first: this call waits for them.
    ///
    /// Nothing in the program calls this method. It is part of the public interface, as [`FaceWriter::append`] is.
    ///
    /// Cost: that of [`FaceWriter::publish_patch`].
    pub fn publish(&mut self) -> Delta
        requires one { length self.old.pending ≡ 1 }
        ensures list { self.new ≡ record {
          list = self.old.list ++ self.old.pending;
          shown = self.old.list ++ self.old.pending;
          pending = [];
        } }
        ensures delta { map delta_of self.old.pending ≡ result ∷ [] }
    {
        let KeptPatch {
            number,
            delta,
            changes,
            owner,
        } = self.staged.pop().unwrap();
        self.publish_patch(Patch {
            number,
            delta: &delta,
            changes,
            owner,
        });
        delta
    }

    /// Appends `patch`, the next one, to the published list, and shows it to readers at one step, with all posted
    /// patches that wait.
    ///
    /// Readers that entered before the previous showing must leave first: this call waits for them.
    ///
    /// Cost: twice the changes of the patch and of those that wait, and a constant for each reader. No memory.
    #[inline(always)]
    pub fn publish_patch(&mut self, patch: Patch<'_>)
        requires none { self.old.pending ≡ [] }
        requires legal { Follows (history_of L.opening self.old.list) patch }
        ensures list { self.new ≡ record self.old {
          list = self.old.list ++ patch.entry ∷ [];
          shown = self.old.list ++ patch.entry ∷ [];
        } }
    {
        let FaceWriter {
            copies,
            head,
            front,
            waiting,
            rt,
            ..
        } = self;
        let next = add_patch::<L, R>(rt, head, front, patch);
        show_with(rt, copies, waiting, next);
    }

    /// Appends `patch`, the next one, to the published list. The patch then waits: only the next [`FaceWriter::show`]
    /// or [`FaceWriter::publish_patch`] shows it to readers.
    ///
    /// There is one exception. If [`MOST_WAITING`] patches would wait, or the waiting patches would have more than
    /// [`MOST_WAITING`] changes together, this call shows all of them, and waits for readers as `show` does. The call
    /// fails only when out of memory, and then nothing has changed.
    ///
    /// Cost: the changes of the patch, once now and twice when they are shown. The first patch that waits after a
    /// showing takes memory for [`MOST_WAITING`] changes.
    #[inline(always)]
    pub fn post_patch(&mut self, patch: Patch<'_>) -> Result<(), Refusal>
        requires none { self.old.pending ≡ [] }
        requires legal { Follows (history_of L.opening self.old.list) patch }
        ensures list { OnOk result (self.new.list ≡ self.old.list ++ patch.entry ∷ []) }
        ensures pending { OnOk result (self.new.pending ≡ self.old.pending) }
        ensures shown { OnOk result ((self.new.shown ≡ self.old.shown) ⊎ (self.new.shown ≡ self.new.list)) }
        ensures kept { OnErr result (self.new ≡ self.old) }
        ensures memory { IfErr result (λ e. e ≡ Memory) }
    {
        let FaceWriter {
            copies,
            head,
            front,
            waiting,
            rt,
            ..
        } = self;
        waiting.reserve()?;
        let operation = add_patch::<L, R>(rt, head, front, patch);
        if let Err(operation) = waiting.gather(operation) {
            show_with(rt, copies, waiting, operation);
            return Ok(());
        }
        if waiting.patches() < MOST_WAITING {
            return Ok(());
        }
        show_waiting(rt, copies, waiting);
        Ok(())
    }

    /// Shows readers all posted patches that wait, at one step, or does nothing if none waits.
    ///
    /// Readers that entered before the previous showing must leave first: this call waits for them.
    ///
    /// Cost: twice the changes of the patches that wait, and a constant for each reader. Constant if none waits. No
    /// memory.
    pub fn show(&mut self)
        ensures shown { self.new ≡ record self.old { shown = self.old.list } }
    {
        let FaceWriter {
            copies,
            waiting,
            rt,
            ..
        } = self;
        show_waiting(rt, copies, waiting);
    }

    /// Returns the token of the whole published list, including the patches that wait to be shown.
    pub fn front(&self) -> &BookPrefix
        ensures front { result.now ≡ record { book = L.book; list = self.now.list } }
        ensures legal { IsLegal L.opening self.now.list }
        ensures within { IsPrefix self.now.shown self.now.list }
    {
        &self.front
    }

    /// Returns proof that readers were shown the whole published list. Only callable while no patch waits.
    pub fn shown(&self) -> ShownPrefix
        requires all { self.now.shown ≡ self.now.list }
        ensures shown { result ≡ record { book = L.book; list = self.now.shown } }
    {
        ShownPrefix::of(&self.front)
    }
}

impl<L: Named, R: Wait + Drop> Drop for FaceWriter<L, R> {
    fn drop(self) {
        let Self {
            copies,
            head: _,
            front: _,
            staged: _,
            waiting: _,
            rt,
        } = self;
        copies.take(&rt);
    }
}

/// Makes the two copies, with room in their queue for all operations that ever lie there.
fn open_copies<L: Named, R: Wait>(
    rt: &R,
    alloc: Global,
    shown: &Shown,
    version: u64,
    front: &BookPrefix,
    readers: usize,
) -> Result<Copies<L>, Refusal>
    requires front { front.now ≡ record { book = L.book; list = [] } }
    requires version { version ≡ length L.opening }
    requires settled { IsSettled (joined_history L.opening) (shown_at shown.now) }
    requires in_grid { IsInGrid (joined_history L.opening) }
    requires readers { (1 ≤ readers) × (readers ≤ MOST) }
    ensures list { IfOk result (λ w. w.desk.shown.value.list ≡ []) }
    ensures stands { IfOk result (λ w. CopyStands L.opening L.book w.desk.shown.value) }
    ensures queue { IfOk result (λ w. drop w.behind w.log.items ≡ []) }
    ensures memory { IfErr result (λ e. e ≡ Memory) }
{
    let first = Face::new(alloc, version, shown, front.again())?;
    let second = Face::new(alloc, version, shown, front.again())?;
    let mut copies: Copies<L> = Writer::new(alloc, first, second, readers)?;
    if let Err(refusal) = fill_queue(alloc, &mut copies, version, front) {
        copies.take(rt);
        return Err(refusal);
    }
    show_all(rt, &mut copies);
    Ok(copies)
}

/// Fills the queue of the copies with operations that change nothing, so that it gets room for all that ever lie there.
fn fill_queue<L: Named>(
    alloc: Global,
    copies: &mut Copies<L>,
    version: u64,
    front: &BookPrefix,
) -> Result<(), Refusal>
    requires none { drop copies.old.behind copies.old.log.items ≡ [] }
    requires copy { turned copies.old.desk.shown.value
        (record { book = front.now.book; list = front.now.list; version = version; changes = [] })
        ≡ copies.old.desk.shown.value }
    ensures desk { copies.new.desk ≡ copies.old.desk }
    ensures idle { fold turned copies.old.desk.shown.value (drop copies.new.behind copies.new.log.items)
        ≡ copies.old.desk.shown.value }
    ensures memory { IfErr result (λ e. e ≡ Memory) }
{
    'fills: for _i in 0..MOST_QUEUED {
        let idle = Operation::idle(alloc, version, front.again());
        if copies.append(idle).is_err() {
            return Err(Refusal::Memory);
        }
    }
    Ok(())
}

/// Makes `readers` readers.
fn make_readers<L: Named>(
    alloc: Global,
    copies: &Copies<L>,
    front: &BookPrefix,
    readers: usize,
) -> Result<Vec<FaceReader<L>>, Refusal>
    requires { front.now ≡ record { book = L.book; list = [] } }
    ensures count { IfOk result (λ r. vec_len r ≡ readers) }
    ensures readers { IfOk result (λ r. All (λ v. v ≡ newcomer) r.items) }
    ensures refused { IfErr result (λ e. (e ≡ Memory) ⊎ (e ≡ Seat)) }
{
    let mut made = Vec::with_capacity(alloc, readers)?;
    for _i in 0..readers {
        let Ok(reader) = copies.factory().reader() else {
            return Err(Refusal::Seat);
        };
        made.push(FaceReader::new(reader, front.again()))?;
    }
    Ok(made)
}

/// Adds the patch that comes next to the book's list, and returns what it does to a copy.
#[inline(always)]
fn add_patch<L: Named, R: Wait>(
    rt: &R,
    head: &Head,
    front: &mut BookPrefix,
    patch: Patch<'_>,
) -> Operation
    requires head { head.now ≡ front.old.book }
    requires book { front.old.book ≡ L.book }
    requires in_grid { IsInGrid (joined_history (history_of L.opening front.old.list)) }
    requires legal { Follows (history_of L.opening front.old.list) patch }
    ensures front { front.new ≡ record front.old { list = front.old.list ++ patch.entry ∷ [] } }
    ensures list { result.list ≡ front.new.list }
    ensures turn { (x : Copy) → CopyStands L.opening L.book x → x.list ≡ front.old.list
        → MayShow L.opening L.book x (result ∷ []) }
{
    // for the fact that its cells are in the grid
    let _ = patch.delta();
    add_to(rt, head, front, &patch);
    let Patch {
        number,
        delta: _,
        changes,
        owner: _,
    } = patch;
    Operation::new(number, changes, front.again())
}

/// Adds the patch to the book's list. The first try succeeds, since the book has no other writer.
#[inline(always)]
fn add_to<R: Wait>(rt: &R, head: &Head, front: &mut BookPrefix, patch: &Patch<'_>)
    requires book { head.now ≡ front.old.book }
    ensures { front.new ≡ record front.old { list = front.old.list ++ patch.now ∷ [] } }
{
    let mut tries = rt.forever();
    'adds: while !front.add(head, patch) {
        tries.next();
    }
}

/// Shows readers a copy that has taken in all that waits, or does nothing if nothing waits.
#[inline(never)]
fn show_waiting<L: Named, R: Wait>(rt: &R, copies: &mut Copies<L>, waiting: &mut Waiting)
    requires stands { CopyStands L.opening L.book copies.old.desk.shown.value }
    requires none { drop copies.old.behind copies.old.log.items ≡ [] }
    requires waits { MayShow L.opening L.book copies.old.desk.shown.value waiting.old.turns }
    ensures shown { copies.new.desk.shown.value ≡ fold turned copies.old.desk.shown.value waiting.old.turns }
    ensures queue { drop copies.new.behind copies.new.log.items ≡ [] }
    ensures none { waiting.new ≡ record { patches = 0; turns = [] } }
{
    if let Some(operation) = waiting.take() {
        turn_over(rt, copies, operation);
    }
}

/// Shows readers a copy that has taken in all that waits and then the operation.
#[inline(always)]
fn show_with<L: Named, R: Wait>(
    rt: &R,
    copies: &mut Copies<L>,
    waiting: &mut Waiting,
    operation: Operation,
)
    requires stands { CopyStands L.opening L.book copies.old.desk.shown.value }
    requires none { drop copies.old.behind copies.old.log.items ≡ [] }
    requires waits { MayShow L.opening L.book copies.old.desk.shown.value waiting.old.turns }
    requires turn { MayShow L.opening L.book (fold turned copies.old.desk.shown.value waiting.old.turns)
        (operation ∷ []) }
    ensures shown { copies.new.desk.shown.value
        ≡ turned (fold turned copies.old.desk.shown.value waiting.old.turns) operation }
    ensures queue { drop copies.new.behind copies.new.log.items ≡ [] }
    ensures none { waiting.new ≡ record { patches = 0; turns = [] } }
{
    if let Some(waits) = waiting.take() {
        queue(rt, copies, waits);
    }
    turn_over(rt, copies, operation);
}

/// Shows readers a copy that has taken in all that lies in the queue of the copies and then the operation.
#[inline(always)]
fn turn_over<L: Named, R: Wait>(rt: &R, copies: &mut Copies<L>, operation: Operation)
    requires waits { MayShow L.opening L.book copies.old.desk.shown.value
        (drop copies.old.behind copies.old.log.items) }
    requires turn { MayShow L.opening L.book
        (fold turned copies.old.desk.shown.value (drop copies.old.behind copies.old.log.items)) (operation ∷ []) }
    ensures shown { copies.new.desk.shown.value
        ≡ turned (fold turned copies.old.desk.shown.value (drop copies.old.behind copies.old.log.items)) operation }
    ensures queue { drop copies.new.behind copies.new.log.items ≡ [] }
{
    queue(rt, copies, operation);
    show_all(rt, copies);
}

/// Puts the operation at the end of the queue of the copies, which has had room for it since the opening. Should there
/// be no room and allocation fail, it first shows readers what lies in the queue.
#[inline(always)]
fn queue<L: Named, R: Wait>(rt: &R, copies: &mut Copies<L>, operation: Operation)
    requires waits { MayShow L.opening L.book copies.old.desk.shown.value
        (drop copies.old.behind copies.old.log.items) }
    requires turn { MayShow L.opening L.book
        (fold turned copies.old.desk.shown.value (drop copies.old.behind copies.old.log.items)) (operation ∷ []) }
    ensures waits { MayShow L.opening L.book copies.new.desk.shown.value
        (drop copies.new.behind copies.new.log.items) }
    ensures all { fold turned copies.new.desk.shown.value (drop copies.new.behind copies.new.log.items)
        ≡ turned (fold turned copies.old.desk.shown.value (drop copies.old.behind copies.old.log.items)) operation }
{
    let mut operation = operation;
    let mut tries = rt.forever();
    'fills: while let Err(back) = copies.append(operation) {
        operation = back;
        make_room(rt, copies);
        tries.next();
    }
}

/// Makes room in the queue of the copies: shows readers what lies there, so that the operations that both copies have
/// leave the queue. If that fails, readers see nothing new.
#[cold]
#[inline(never)]
fn make_room<L: Named, R: Wait>(rt: &R, copies: &mut Copies<L>)
    requires { MayShow L.opening L.book copies.old.desk.shown.value
        (drop copies.old.behind copies.old.log.items) }
    ensures waits { MayShow L.opening L.book copies.new.desk.shown.value
        (drop copies.new.behind copies.new.log.items) }
    ensures same { fold turned copies.new.desk.shown.value (drop copies.new.behind copies.new.log.items)
        ≡ fold turned copies.old.desk.shown.value (drop copies.old.behind copies.old.log.items) }
{
    let _ = replace_with(copies, rt, show_once::<L, R>);
}

/// Shows readers a copy that has taken in the whole queue. It tries again while the reference count of a text is full.
fn show_all<L: Named, R: Wait>(rt: &R, copies: &mut Copies<L>)
    requires { MayShow L.opening L.book copies.old.desk.shown.value
        (drop copies.old.behind copies.old.log.items) }
    ensures shown { copies.new.desk.shown.value
        ≡ fold turned copies.old.desk.shown.value (drop copies.old.behind copies.old.log.items) }
    ensures queue { drop copies.new.behind copies.new.log.items ≡ [] }
{
    let mut tries = rt.forever();
    'shows: while replace_with(copies, rt, show_once::<L, R>).is_err() {
        tries.next();
    }
}

/// Shows readers a copy that has taken in the whole queue. If the reference count of a text is full, it fails, and
/// readers see nothing new.
fn show_once<L: Named, R: Wait>(copies: Copies<L>, rt: &R) -> (Copies<L>, Result<(), AllocError>)
    requires { MayShow L.opening L.book copies.desk.shown.value (drop copies.behind copies.log.items) }
    ensures shown { OnOk result.1 (result.0.desk.shown.value
        ≡ fold turned copies.desk.shown.value (drop copies.behind copies.log.items)) }
    ensures queue { OnOk result.1 (drop result.0.behind result.0.log.items ≡ []) }
    ensures kept { OnErr result.1 ((result.0.desk.shown.value ≡ copies.desk.shown.value)
        × (drop result.0.behind result.0.log.items ≡ drop copies.behind copies.log.items)) }
{
    copies.publish_as::<Publish, R>(rt)
}
