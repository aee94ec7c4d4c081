//! The traits by which a journal uses a file.
ghost use Rattle.std.specs.Prelude.{◌≡◌, ◌≤◌, ◌++◌, ℕ, Bool, List, IfOk, OnOk, OnErr, false, true, is_err, length};
ghost use Rattle.std.specs.Prelude.{take};

use ps_device::Failed;

/// A file that lines are appended to. After a call has failed, only [`Device::cut`] may be called.
pub trait Device {
    /// The bytes that were written to the file, in order.
    ghost written: { Self → List ℕ };

    /// How many of the written bytes are synced. A crash leaves at least this many, from the first on.
    ghost synced: { Self → ℕ };

    /// Whether a call has failed.
    ghost has_failed: { Self → Bool };

    /// Whether the file was cut to its synced bytes. The next reader then finds only these bytes, unless the machine
    /// crashes before.
    ghost is_cut: { Self → Bool };

    /// Whether a cut has failed.
    ghost cut_failed: { Self → Bool };

    /// Appends `bytes` to the file. If the call fails, a beginning of `bytes` may have been appended.
    ///
    /// Cost: linear in the bytes, and the time that the device takes.
    fn append(&mut self, bytes: &[u8]) -> Result<(), Failed>
        requires open { has_failed self.old ≡ false }
        ensures appended { OnOk result (written self.new ≡ written self.old ++ bytes.now) }
        ensures part { OnErr result ((count : ℕ) × (written self.new ≡ written self.old ++ take count bytes.now)) }
        ensures synced { synced self.new ≡ synced self.old }
        ensures failed { has_failed self.new ≡ is_err result }
        ensures cut { (is_cut self.new ≡ is_cut self.old) × (cut_failed self.new ≡ cut_failed self.old) };

    /// Syncs the file: all written bytes are then durable. The call may also fail after a sync that succeeded, if the
    /// next start might not find the bytes, say because the file was removed.
    ///
    /// Cost: the time that the device takes.
    fn sync(&mut self) -> Result<(), Failed>
        requires open { has_failed self.old ≡ false }
        ensures same { written self.new ≡ written self.old }
        ensures synced { OnOk result (synced self.new ≡ length (written self.new)) }
        ensures no_fewer { synced self.old ≤ synced self.new }
        ensures no_more { OnErr result (synced self.new ≡ synced self.old) }
        ensures failed { has_failed self.new ≡ is_err result }
        ensures cut { (is_cut self.new ≡ is_cut self.old) × (cut_failed self.new ≡ cut_failed self.old) };

    /// Cuts the file to its synced bytes. Only called after another call has failed.
    ///
    /// A device may refuse to cut a file that somebody else has written to. If the machine crashes after the cut, the
    /// file may again have bytes that were written and not synced.
    ///
    /// Cost: the time that the device takes.
    fn cut(&mut self) -> Result<(), Failed>
        requires failed { has_failed self.old ≡ true }
        ensures same { (written self.new ≡ written self.old) × (synced self.new ≡ synced self.old) }
        ensures failed { has_failed self.new ≡ true }
        ensures cut { OnOk result ((is_cut self.new ≡ true) × (cut_failed self.new ≡ cut_failed self.old)) }
        ensures not_cut { OnErr result (cut_failed self.new ≡ true) };
}

/// A file that a start has found and read, and hasn't changed yet.
pub trait Found {
    /// The type of the file once [`Found::keep`] has opened it for appending.
    type Device: Device + Drop;

    /// The bytes of the file.
    ghost bytes: { Self → List ℕ };

    /// Returns all bytes of the file.
    fn bytes(&self) -> &[u8]
        ensures { result.now ≡ bytes self.now };

    /// Cuts the file to its first `count` bytes, syncs it, and opens it for appending. If the machine crashes
    /// meanwhile, a beginning of the file's old bytes is left, at least the first `count`. Fails if the device fails.
    ///
    /// Cost: the time that the device takes.
    fn keep(self, count: usize) -> Result<Self::Device, Failed>
        requires { count ≤ length (bytes self) }
        ensures kept { IfOk result (λ d. Self.Device.written d ≡ take count (bytes self)) }
        ensures synced { IfOk result (λ d. Self.Device.synced d ≡ count) }
        ensures open { IfOk result (λ d. Self.Device.has_failed d ≡ false) }
        ensures uncut { IfOk result (λ d. (Self.Device.is_cut d ≡ false) × (Self.Device.cut_failed d ≡ false)) };
}
