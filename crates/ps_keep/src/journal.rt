//! The journal.
ghost use Rattle.std.specs.Prelude.{◌≡◌, ◌++◌, ◌∷◌, ℕ, [], OnOk, OnErr, false, is_err, length, take};
ghost use Rattle.ps_keep.specs.Crash.{SurvivesCrashes};
ghost use Rattle.ps_keep.specs.Journals.{IsJournal, IsWhole};
ghost use Rattle.ps_keep.specs.Lines.{IsLine, whole_lines};

use crate::device::Device;
use ps_device::Failed;
use std::alloc::{AllocError, Global};
use std::marker::Model;
use std::snapshot::Snapshot;

/// A file of lines that outlive a crash. [`Journal::note`] first stores a line in memory. [`Journal::sync`] then makes
/// all noted lines durable and so acknowledges them: one sync serves many lines. A contract sees a journal as a
/// `JournalView`.
#[derive(Drop)]
pub struct Journal<D: Device + Drop> {
    device: D,
    /// the bytes of the lines that were noted since the last sync
    waiting: Vec<u8>,
    /// a call of the device failed, so there is none any more
    is_stopped: bool,
    /// the device as it was after the last sync; of no bytes
    durable: Snapshot<D>,
}

impl<D: Device + Drop> Model for Journal<D> {
    ghost use Rattle.std.specs.Prelude.{◌≡◌, ◌++◌};
    ghost use Rattle.ps_keep.specs.Journals.{Holds, JournalView, found_of};
    ghost use Rattle.ps_keep.specs.Lines.{whole_lines};

    ghost Value = { JournalView };

    ghost view = { λ j. record {
      kept = whole_lines (D.written j.durable.value);
      lines = whole_lines (D.written j.durable.value ++ j.waiting.items);
      written = D.written j.device;
      synced = D.synced j.device;
      has_failed = j.is_stopped;
      found = found_of (D.written j.device) (D.synced j.device) (D.is_cut j.device);
      cut_failed = D.cut_failed j.device;
    } };

    ghost invariant = { λ j. Holds (D.written j.durable.value) j.waiting.items (D.written j.device)
        (D.synced j.device) j.is_stopped (D.is_cut j.device) (D.cut_failed j.device)
        × (D.has_failed j.device ≡ j.is_stopped) };
}

/// Adds a line with its line feed, or nothing, out of memory.
pub(crate) fn append_line(bytes: &mut Vec<u8>, line: &[u8]) -> Result<(), AllocError>
    ensures added { OnOk result (bytes.new.items ≡ (bytes.old.items ++ line.now) ++ 10 ∷ []) }
    ensures same { OnErr result (bytes.new.items ≡ bytes.old.items) }
{
    bytes.reserve(line.len() + 1)?;
    bytes.extend_from_slice(line).unwrap();
    bytes.push_reserved(b'\n');
    Ok(())
}

/// Appends these bytes to a file, and has all that it has on the disk.
fn append_and_sync<D: Device + Drop>(device: &mut D, bytes: &[u8]) -> Result<(), Failed>
    requires open { D.has_failed device.old ≡ false }
    ensures appended { OnOk result (D.written device.new ≡ D.written device.old ++ bytes.now) }
    ensures synced { OnOk result (D.synced device.new ≡ length (D.written device.new)) }
    ensures part { OnErr result ((count : ℕ) × (D.written device.new ≡ D.written device.old ++ take count bytes.now)) }
    ensures no_more { OnErr result (D.synced device.new ≡ D.synced device.old) }
    ensures failed { D.has_failed device.new ≡ is_err result }
    ensures cut { (D.is_cut device.new ≡ D.is_cut device.old) × (D.cut_failed device.new ≡ D.cut_failed device.old) }
{
    device.append(bytes)?;
    device.sync()
}

impl<D: Device + Drop> Journal<D> {
    /// A journal of a file that has whole lines, all of them on the disk.
    pub(crate) fn new(alloc: Global, device: D) -> Journal<D>
        requires open { D.has_failed device ≡ false }
        requires whole { IsWhole (D.written device) }
        requires synced { D.synced device ≡ length (D.written device) }
        requires uncut { (D.is_cut device ≡ false) × (D.cut_failed device ≡ false) }
        ensures kept { result.kept ≡ whole_lines (D.written device) }
        ensures lines { result.lines ≡ result.kept }
        ensures written { result.written ≡ D.written device }
        ensures synced { result.synced ≡ D.synced device }
        ensures open { result.has_failed ≡ false }
        ensures journal { IsJournal result }
    {
        let durable = Snapshot::of(&device);
        Journal {
            device,
            waiting: Vec::new(alloc),
            is_stopped: false,
            durable,
        }
    }

    /// Notes `line`, which has no line feed: the next sync writes and acknowledges it. Fails only when out of memory,
    /// and then nothing has changed.
    ///
    /// Cost: linear in the line; the device isn't called.
    pub fn note(&mut self, line: &[u8]) -> Result<(), AllocError>
        requires { IsLine line.now }
        ensures noted { OnOk result (self.new ≡ record self.old { lines = self.old.lines ++ line.now ∷ [] }) }
        ensures same { OnErr result (self.new ≡ self.old) }
        ensures journal { IsJournal self.new }
    {
        append_line(&mut self.waiting, line)?;
        Ok(())
    }

    /// Returns whether a sync has failed.
    pub fn is_stopped(&self) -> bool
        ensures { result ≡ self.now.has_failed }
    {
        self.is_stopped
    }

    /// Syncs all lines that were noted, and acknowledges them. If none was noted since the last sync, it doesn't call
    /// the device.
    ///
    /// Fails if the device fails, and after that always. When the device fails, the call tries to cut the file to the
    /// acknowledged lines. At any moment of the call, also if the machine crashes, the file has all lines that were
    /// acknowledged before, and after them a beginning of the noted lines that weren't.
    ///
    /// Cost: one append and one sync of the device.
    pub fn sync(&mut self) -> Result<(), Failed>
        ensures acknowledged { OnOk result (self.new.kept ≡ self.old.lines) }
        ensures not_yet { OnErr result (self.new.kept ≡ self.old.kept) }
        ensures lines { self.new.lines ≡ self.old.lines }
        ensures failed { self.new.has_failed ≡ is_err result }
        ensures journal { IsJournal self.new }
        ensures any_moment { SurvivesCrashes self.new.written self.old.synced self.old.kept self.old.lines }
    {
        if self.is_stopped {
            return Err(Failed);
        }
        if self.waiting.is_empty() {
            return Ok(());
        }
        self.is_stopped = true;
        match append_and_sync(&mut self.device, self.waiting.as_slice()) {
            Ok(()) => {}
            Err(failed) => {
                // a later sync may go well though these bytes were dropped, so no start may find them
                let _ = self.device.cut();
                return Err(failed);
            }
        }
        self.is_stopped = false;
        self.durable = Snapshot::of(&self.device);
        self.waiting.clear();
        Ok(())
    }
}
