//! The bytes of a source.

ghost use Rattle.std.specs.Prelude.{◌≡◌, ◌≢◌, ◌⊎◌, ◌<◌, ◌≤◌, length, IfOk, IfErr, OnOk};
ghost use Rattle.std.specs.Io.KnownBytes.{Consumes, IsAtEnd};
ghost use Rattle.ps_csv.specs.Faults.{TooManyBytes};

use ps_device::{Failed, PIECE_BYTES, Source};
use ps_grid::{CELLS, Refusal};
use std::alloc::Global;

/// The bytes of a table that are allowed for each cell of the grid: 512 for the longest entry, the rest for quotes and
/// a comma.
const BYTES_PER_CELL: usize = 640;

/// The most bytes that an imported table may have: 68,157,440, which is 640 bytes for each cell of the grid.
pub const LONGEST_TABLE: usize = BYTES_PER_CELL * CELLS;

/// The bytes of the source, to its end. Fails with `Csv` as soon as there are more than `LONGEST_TABLE`.
pub(crate) fn read_all<S: Source>(alloc: Global, source: &mut S) -> Result<Vec<u8>, Refusal>
    ensures read { IfOk result (λ bytes.
        Consumes (S.remaining source.old) (S.remaining source.new) bytes.items × IsAtEnd (S.remaining source.new)) }
    ensures within { IfOk result (λ bytes. length bytes.items ≤ LONGEST_TABLE) }
    ensures calm { OnOk result (S.failures source.new ≡ S.failures source.old) }
    ensures device { IfErr result (λ e. e ≡ Refusal.Device → S.failures source.old < S.failures source.new) }
    ensures steady { IfErr result (λ e. e ≢ Refusal.Device → S.failures source.new ≡ S.failures source.old) }
    ensures refused { IfErr result (λ e. (e ≡ Refusal.Memory) ⊎ (e ≡ Refusal.Device)
        ⊎ ((e ≡ Refusal.Csv) × TooManyBytes (S.remaining source.old) (S.remaining source.new))) }
{
    let mut bytes = Vec::new(alloc);
    let mut piece = [0u8; PIECE_BYTES];
    'pieces: loop {
        let count = match source.take(&mut piece) {
            Ok(count) => count,
            Err(Failed) => return Err(Refusal::Device),
        };
        if count == 0 {
            return Ok(bytes);
        }
        if count > LONGEST_TABLE - bytes.len() {
            return Err(Refusal::Csv);
        }
        bytes.extend_from_slice(&piece[..count])?;
    }
}
