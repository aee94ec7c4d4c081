//! A sheet answers commands.
use crate::board::{Board, Merged};
use ps_csv::{entries_text, entry_of, exported_text};
use ps_delta::{Delta, Edit};
use ps_eval::Meter;
use ps_grid::{Cell, Rect, Refusal};
use ps_lines::deltas_after;
use ps_sheet::Sheet;
use ps_value::Value;
use std::alloc::Global;
use std::sync::ledger::Ledger;
use std::thread::Threads;

impl<L: Ledger> Board<Meter<L>> for Sheet {
    ghost use Rattle.ps_session.specs.Answers.{Answers};
    ghost use Rattle.ps_session.specs.SheetBoard.{SheetCalls};

    ghost calls = { SheetCalls };

    ghost answers = { Answers };

    fn calls_answer_lines() {}

    #[inline(always)]
    fn apply_edit<R: Threads + Sync>(
        &mut self,
        rt: &R,
        alloc: Global,
        edit: Edit,
        meter: &mut Meter<L>,
    ) -> Result<u64, Refusal> {
        match self.edit(rt, alloc, edit, meter) {
            Ok(report) => Ok(report.version),
            Err(refusal) => Err(refusal),
        }
    }

    fn has_own(&self, delta: &Delta) -> bool {
        Sheet::has_own(self, delta)
    }

    fn apply_delta<R: Threads + Sync>(
        &mut self,
        rt: &R,
        alloc: Global,
        delta: Delta,
        meter: &mut Meter<L>,
    ) -> Result<u64, Refusal> {
        match self.receive(rt, alloc, delta, meter) {
            Ok(report) => Ok(report.version),
            Err(refusal) => Err(refusal),
        }
    }

    fn apply_merge<R: Threads + Sync>(
        &mut self,
        rt: &R,
        alloc: Global,
        delta: Delta,
        meter: &mut Meter<L>,
    ) -> Result<Merged, Refusal> {
        let before = self.version();
        match self.merge(rt, alloc, delta, meter) {
            Ok(report) if report.version == before => Ok(Merged::Known(before)),
            Ok(report) => Ok(Merged::New(report.version)),
            Err(refusal) => Err(refusal),
        }
    }

    fn value(&mut self, cell: Cell) -> Result<Value, Refusal> {
        Ok(self.shown(cell))
    }

    fn table(&mut self, alloc: Global, rect: Rect) -> Result<Vec<u8>, Refusal> {
        // for its contract: the sheet is one (`IsSheet`), so what it shows is settled
        let _ = self.version();
        exported_text(alloc, self, rect)
    }

    fn entry(&mut self, alloc: Global, cell: Cell) -> Result<Vec<u8>, Refusal> {
        entry_of(alloc, self, cell)
    }

    fn entries(&mut self, alloc: Global, rect: Rect) -> Result<Vec<u8>, Refusal> {
        entries_text(alloc, self, rect)
    }

    #[inline(always)]
    fn pull(&mut self, alloc: Global, from: u64, most: usize) -> Result<Vec<Delta>, Refusal> {
        deltas_after(alloc, self.history(), from, most)
    }

    /// Returns at once: nobody else changes this sheet, so there is nothing to wait for.
    fn wait(&mut self, _seen: u64, _is_last: bool) -> u64 {
        self.version()
    }

    fn replica(&mut self) -> u8 {
        Sheet::replica(self)
    }
}
