//! A file in memory, that can be made to fail, and that shows what a crash leaves of it.
ghost use Rattle.std.specs.Prelude.{◌≡◌, ◌≤◌, false, vec_len};

use crate::device::{Device, Found};
use ps_device::Failed;

/// A file in memory that lines are appended to, and that can be made to fail.
#[derive(Drop)]
pub struct MemoryDevice {
    /// All bytes that were written.
    pub bytes: Vec<u8>,
    /// How many of the bytes are synced: a crash leaves at least these, from the first on.
    pub synced: usize,
    /// How many more calls succeed: after them each append and sync fails.
    pub calls: u64,
    /// Whether a call has failed. A call also fails when out of memory.
    pub is_broken: bool,
    /// Whether the file was cut to its synced bytes. `bytes` still has the others, which a crash may leave.
    pub is_cut: bool,
    ghost within: { synced ≤ vec_len bytes },
}

impl MemoryDevice {
    /// Counts a call; false where it is to fail.
    fn goes_well(&mut self) -> bool
        ensures { self.new ≡ record self.old { calls = self.new.calls } }
    {
        if self.calls == 0 {
            return false;
        }
        self.calls -= 1;
        true
    }
}

impl Device for MemoryDevice {
    ghost written = { λ d. d.bytes.items };

    ghost synced = { λ d. d.synced };

    ghost has_failed = { λ d. d.is_broken };

    ghost is_cut = { λ d. d.is_cut };

    ghost cut_failed = { λ _. false };

    fn append(&mut self, bytes: &[u8]) -> Result<(), Failed> {
        let half = bytes.len() / 2;
        if !self.goes_well() {
            self.is_broken = true;
            let _ = self.bytes.extend_from_slice(&bytes[..half]);
            return Err(Failed);
        }
        if self.bytes.extend_from_slice(bytes).is_err() {
            self.is_broken = true;
            return Err(Failed);
        }
        Ok(())
    }

    fn sync(&mut self) -> Result<(), Failed> {
        if !self.goes_well() {
            self.is_broken = true;
            return Err(Failed);
        }
        self.synced = self.bytes.len();
        Ok(())
    }

    fn cut(&mut self) -> Result<(), Failed> {
        self.is_cut = true;
        Ok(())
    }
}

/// A file in memory that a start finds, and that can be made to fail.
#[derive(Drop)]
pub struct MemoryFile {
    /// The bytes of the file.
    pub bytes: Vec<u8>,
    /// How many calls succeed, opening the file included: after them each call but a cut fails.
    pub calls: u64,
}

impl Found for MemoryFile {
    type Device = MemoryDevice;

    ghost bytes = { λ f. f.bytes.items };

    fn bytes(&self) -> &[u8] {
        self.bytes.as_slice()
    }

    fn keep(self, count: usize) -> Result<MemoryDevice, Failed> {
        let MemoryFile { mut bytes, calls } = self;
        if calls == 0 {
            return Err(Failed);
        }
        bytes.truncate(count);
        Ok(MemoryDevice {
            bytes,
            synced: count,
            calls: calls - 1,
            is_broken: false,
            is_cut: false,
        })
    }
}
