//! The summary of a run of stored cells, taken cell by cell.
ghost use Rattle.std.specs.Prelude.{◌+◌, ◌^◌, ◌<◌, ◌≤◌, length};
ghost use Rattle.ps_eval.specs.Summarized.{Summarizes};
ghost use Rattle.ps_shown.specs.Sums.{HasTaken, items_kept};
ghost use Rattle.ps_shown.specs.declared.run.TheConstants.{TOGETHER};

use crate::kept::Kept;
use ps_eval::Summary;

/// How many cells are tested together for being numbers.
const TOGETHER: usize = 4;

/// Returns the summary of a run of stored cells.
// Not inlined, so that the summary stays in registers while the cells are walked.
#[inline(never)]
pub(crate) fn summary_of_run(run: &[Kept]) -> Summary
    ensures { Summarizes (items_kept run.now) result }
{
    let mut summary = Summary::new();
    let mut next = 0;
    'walk: while next < run.len() {
        let rarer = take_numbers(&mut summary, run, next);
        next = (rarer + TOGETHER).min(run.len());
        take_each(&mut summary, run, rarer, next);
    }
    summary
}

/// Adds the cells from `from` on to the summary, four at a time, as long as all four are numbers. Returns the index of
/// the first cell that it didn't add.
// (a cell known to be a number isn't matched again, so only sums and tests are left in the loop)
#[inline(always)]
fn take_numbers(summary: &mut Summary, run: &[Kept], from: usize) -> usize
    requires taken { HasTaken run.now from summary.old }
    requires within { from ≤ length run.now }
    ensures taken { HasTaken run.now result summary.new }
    ensures order { from ≤ result }
    ensures within { result ≤ length run.now }
{
    let mut next = from;
    'numbers: while run.len() - next >= TOGETHER && are_numbers(run, next) {
        take_one(summary, run, next);
        take_one(summary, run, next + 1);
        take_one(summary, run, next + 2);
        take_one(summary, run, next + 3);
        next += TOGETHER;
    }
    next
}

/// Whether a cell and the three after it are numbers.
#[inline(always)]
fn are_numbers(run: &[Kept], from: usize) -> bool
    requires { from + TOGETHER ≤ length run.now }
{
    is_number(&run[from])
        && is_number(&run[from + 1])
        && is_number(&run[from + 2])
        && is_number(&run[from + 3])
}

/// Whether a number is stored.
#[inline(always)]
fn is_number(kept: &Kept) -> bool {
    matches!(kept, Kept::Num(_))
}

/// Adds the cells `from..to` to the summary, whatever they show.
#[inline(always)]
fn take_each(summary: &mut Summary, run: &[Kept], from: usize, to: usize)
    requires taken { HasTaken run.now from summary.old }
    requires order { from ≤ to }
    requires within { to ≤ length run.now }
    requires room { to < 2 ^ 60 }
    ensures { HasTaken run.now to summary.new }
{
    for at in from..to {
        take_one(summary, run, at);
    }
}

/// Adds one more cell to the summary.
#[inline(always)]
fn take_one(summary: &mut Summary, run: &[Kept], at: usize)
    requires taken { HasTaken run.now at summary.old }
    requires within { at < length run.now }
    requires room { at < 2 ^ 60 }
    ensures { HasTaken run.now (at + 1) summary.new }
{
    summary.take_cell(run[at].operand());
}
