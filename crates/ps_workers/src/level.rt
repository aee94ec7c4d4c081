//! Divides a level (cells whose formulas don't refer to one another) among workers.

ghost use Rattle.std.specs.Prelude.{◌≡◌, ◌+◌, ◌-◌, ◌*◌, ◌/◌, ◌%◌, ◌<◌, ◌≤◌, ◌∷◌, [], min, length};
ghost use Rattle.std.specs.Thread.{IsSync};
ghost use Rattle.ps_grid.specs.Blanks.{IsBlankOf};
ghost use Rattle.ps_grid.specs.declared.parties.TheConstants.{WORKERS};
ghost use Rattle.ps_eval.specs.Value.{shown_as};
ghost use Rattle.ps_shown.specs.Kept.{value_of as value_kept};
ghost use Rattle.ps_workers.specs.Level.{HaveFormulas, IsDone, IsWorkFor, kept_values, values_of};

use crate::gate::Gate;
use ps_eval::{Counted, Look, Meter, eval_number};
use ps_formula::Formulas;
use ps_grid::Cell;
use ps_shown::Kept;
use ps_value::Fault;
use std::marker::Brand;
use std::sync::ledger::{Blank, Ledger};
use std::thread::{Threads, join_mut};

/// The stored form of a formula's value: its number or its fault.
fn kept_of(number: Result<i64, Fault>) -> Kept
    ensures { value_kept result ≡ shown_as number }
{
    match number {
        Ok(number) => Kept::Num(number),
        Err(fault) => Kept::Err(fault),
    }
}

/// How many of `cells` cells the first `low` of `count` workers get together. If the cells don't divide evenly, the
/// first workers have one cell more than the others.
fn share(cells: usize, count: usize, low: usize) -> usize
    requires count { 0 < count }
    requires low { low ≤ count }
    ensures is { result ≡ low * (cells / count) + min low (cells % count) }
    ensures inside { result ≤ cells }
    ensures some { count ≤ cells → low ≤ result }
    ensures rest { count ≤ cells → count - low ≤ cells - result }
{
    low * (cells / count) + low.min(cells % count)
}

/// What the workers of a level share.
#[derive_where(Clone, Copy)]
struct Task<'a, R, F, K, G> {
    rt: &'a R,
    formulas: &'a F,
    look: &'a K,
    gate: &'a G,
}

impl<R: Threads + Sync, F: Formulas + Sync, K: Look + Sync, G: Gate> Task<'_, R, F, K, G> {
    /// Evaluates the cells of one worker in order, and counts them with a new meter.
    #[inline(always)]
    fn by_one(&self, worker: usize, cells: &[Cell], out: &mut [Kept]) -> Counted
        requires { IsWorkFor (F.formula_at self.now.formulas.now) worker 1 cells.now out.old }
        ensures { IsDone (F.formula_at self.now.formulas.now) (K.value_at self.now.look.now) cells.now out.new result }
    {
        self.by_one_counted::<Brand>(Blank::new(1), worker, cells, out)
    }

    /// As `by_one`, with a meter that `blank` starts.
    #[inline(always)]
    fn by_one_counted<L: Ledger>(
        &self,
        blank: Blank,
        worker: usize,
        cells: &[Cell],
        out: &mut [Kept],
    ) -> Counted
        requires blank { IsBlankOf blank L.name L.parts }
        requires work { IsWorkFor (F.formula_at self.now.formulas.now) worker 1 cells.now out.old }
        ensures { IsDone (F.formula_at self.now.formulas.now) (K.value_at self.now.look.now) cells.now out.new result }
    {
        let mut meter = Meter::<L>::new(blank);
        for k in 0..cells.len() {
            out[k] = eval_as(
                worker,
                cells[k],
                self.formulas,
                self.look,
                self.gate,
                &mut meter,
            );
        }
        meter.finish(cells.len() as u64)
    }

    /// Evaluates the cells of `count` workers, numbered from `first` on. It starts a thread for the second half of the
    /// workers, and runs the first half in this thread. Each half is divided again, down to single workers.
    #[cycle(halves)]
    fn by_several(&self, first: usize, count: usize, cells: &[Cell], out: &mut [Kept]) -> Counted
        requires { IsWorkFor (F.formula_at self.now.formulas.now) first count cells.now out.old }
        ensures { IsDone (F.formula_at self.now.formulas.now) (K.value_at self.now.look.now) cells.now out.new result }
    {
        if count == 1 {
            return self.by_one(first, cells, out);
        }
        let low = count / 2;
        let high = count - low;
        let next = first + low;
        let cut = share(cells.len(), count, low);
        let (mine, theirs) = cells.split_at(cut);
        let (here, there) = out.split_at_mut(cut);
        let mut at_home = || -> Counted
            requires { IsSync R.row × IsSync F.row × IsSync K.row × IsSync G.row
                × IsWorkFor (F.formula_at self.now.formulas.now) first low mine.now here.now }
            ensures { IsDone (F.formula_at self.entry.now.formulas.now) (K.value_at self.entry.now.look.now)
                mine.entry.now here.exit.now result }
        { self.by_several(first, low, mine, here) };
        let mut away = || -> Counted
            requires { IsSync R.row × IsSync F.row × IsSync K.row × IsSync G.row
                × IsWorkFor (F.formula_at self.now.formulas.now) next high theirs.now there.now }
            ensures { IsDone (F.formula_at self.entry.now.formulas.now) (K.value_at self.entry.now.look.now)
                theirs.entry.now there.exit.now result }
        { self.by_several(next, high, theirs, there) };
        let (b, a) = join_mut(self.rt, &mut away, &mut at_home);
        a.with(b)
    }
}

/// Returns the value of a cell's formula, where each cell shows what `look` says. The cell must have a formula.
///
/// The call does what `eval_level` does for a level of this one cell, but it starts no thread and allocates no memory.
/// Before the evaluation it calls the hook `gate` as worker 0. `meter` counts one evaluation.
///
/// Cost: the evaluation.
#[inline(always)]
pub fn eval_cell<F: Formulas, K: Look, G: Gate, L: Ledger>(
    cell: Cell,
    formulas: &F,
    look: &K,
    gate: &G,
    meter: &mut Meter<L>,
) -> Kept
    requires { HaveFormulas (F.formula_at formulas.now) (cell ∷ []) }
    ensures value { value_kept result ∷ [] ≡ values_of (F.formula_at formulas.now) (K.value_at look.now) (cell ∷ []) }
    ensures ticks { meter.new ≡ meter.old + 1 }
{
    eval_as(0, cell, formulas, look, gate, meter)
}

/// As `eval_cell`, for any worker: calls the gate as that worker, and then evaluates the cell's formula.
#[inline(always)]
fn eval_as<F: Formulas, K: Look, G: Gate, L: Ledger>(
    worker: usize,
    cell: Cell,
    formulas: &F,
    look: &K,
    gate: &G,
    meter: &mut Meter<L>,
) -> Kept
    requires worker { worker < WORKERS }
    requires formula { HaveFormulas (F.formula_at formulas.now) (cell ∷ []) }
    ensures value { value_kept result ∷ [] ≡ values_of (F.formula_at formulas.now) (K.value_at look.now) (cell ∷ []) }
    ensures ticks { meter.new ≡ meter.old + 1 }
{
    gate.pass(worker);
    match formulas.formula(cell) {
        Some(formula) => kept_of(eval_number(formula, look, meter)),
        None => unreachable!(),
    }
}

/// Evaluates the formulas of `cells` with at most `workers` workers at once, and writes their values to `out`. Each of
/// the cells must have a formula.
///
/// `out[i]` gets the value of the formula of `cells[i]`, where each cell shows what `look` says. `meter` counts one
/// evaluation for each cell, whatever the number of workers. Each worker evaluates a consecutive part of `cells`, in
/// order, and calls the hook `gate` before each evaluation.
///
/// The first worker runs in the calling thread. If the thread of another worker can't be started, the thread that tried
/// to start it does that worker's evaluations. The call allocates no memory except for the threads.
///
/// Cost: the evaluations, divided evenly, and the start of a thread for each worker but the first.
// It has eight parameters, since they have different owners.
pub fn eval_level<R: Threads + Sync, F: Formulas + Sync, K: Look + Sync, G: Gate, L: Ledger>(
    rt: &R,
    cells: &[Cell],
    formulas: &F,
    look: &K,
    out: &mut [Kept],
    workers: usize,
    gate: &G,
    meter: &mut Meter<L>,
)
    requires workers { (0 < workers) × (workers ≤ WORKERS) }
    requires formulas { HaveFormulas (F.formula_at formulas.now) cells.now }
    requires places { length out.old ≡ length cells.now }
    ensures values { kept_values out.new ≡ values_of (F.formula_at formulas.now) (K.value_at look.now) cells.now }
    ensures ticks { meter.new ≡ meter.old + length cells.now }
{
    if cells.is_empty() {
        return;
    }
    let task = &Task {
        rt,
        formulas,
        look,
        gate,
    };
    let count = workers.min(cells.len());
    if count == 1 {
        meter.add(task.by_one(0, cells, out));
    } else {
        meter.add(task.by_several(0, count, cells, out));
    }
}
