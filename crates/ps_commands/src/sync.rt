//! The command `sync`: pushes all changes of one replica to another.
ghost use Rattle.std.specs.Prelude.{◌≡◌, ◌⊎◌, ◌<◌, ℕ, [], IfErr, OnOk};
ghost use Rattle.std.specs.Io.KnownBytes.{Appends};
ghost use Rattle.ps_grid.specs.Blanks.{IsBlankOf};
ghost use Rattle.ps_grid.specs.declared.refusal.Refusal.TheVariants as Refusal;
ghost use Rattle.ps_commands.specs.Commands.{AreSynced, IsSyncFault, synced_text};
ghost use Rattle.ps_commands.specs.Status.{HasNoPort};
ghost use Rattle.ps_commands.specs.declared.fault.ProgramFault.TheVariants.{Refused};

use crate::fault::ProgramFault;
use crate::notice::tell;
use crate::peers::{PeerStream, peer_of};
use crate::port::{Ports, connect};
use ps_device::Sink;
use ps_peers::sync;
use ps_words::SyncOptions;
use std::alloc::Global;
use std::marker::Brand;
use std::net::{Net, TcpStream};
use std::sync::ledger::Ledger;

/// Pushes all changes of the peer of `first` to the peer of `second`, and returns the number of lines pushed.
fn sync_between<I: Ledger, O: Ledger, J: Ledger, P: Ledger>(
    alloc: Global,
    first: PeerStream<'_>,
    second: PeerStream<'_>,
) -> Result<u64, ProgramFault>
    requires first_input { IsBlankOf first.input I.name I.parts }
    requires first_output { IsBlankOf first.output O.name O.parts }
    requires second_input { IsBlankOf second.input J.name J.parts }
    requires second_output { IsBlankOf second.output P.name P.parts }
    ensures synced { OnOk result AreSynced }
    ensures stopped { IfErr result (λ f. (f ≡ Refused Refusal.Memory) ⊎ IsSyncFault f) }
{
    let mut from = peer_of::<I, O>(alloc, first)?;
    let mut to = peer_of::<J, P>(alloc, second)?;
    match sync(alloc, &mut from, &mut to) {
        Ok(lines) => Ok(lines),
        Err(fault) => Err(ProgramFault::from(fault)),
    }
}

/// Pushes all changes of the replica at port `options.from` to the one at port `options.to`, and reports the number of
/// lines pushed.
///
/// It connects to `options.from` first, then to `options.to`, both on this machine. At the end it writes `synced` and
/// the number to `out`.
///
/// # Errors
///
/// - [`ProgramFault::PortFailed`] if a port can't be connected to.
/// - `Device` if a connection or `out` fails.
/// - Otherwise those of [`sync`].
///
/// Cost: that of [`sync`], and 0.8 MB of memory.
pub fn sync_on<R: Net<Stream = TcpStream>, K: Sink>(
    ports: Ports<'_, R>,
    alloc: Global,
    options: SyncOptions,
    out: &mut K,
) -> Result<(), ProgramFault>
    ensures synced { OnOk result AreSynced }
    ensures printed { OnOk result ((lines : ℕ)
        × Appends (K.contents out.old) (K.contents out.new) (synced_text lines)) }
    ensures flushed { OnOk result (K.waiting out.new ≡ []) }
    ensures calm { OnOk result (K.failures out.new ≡ K.failures out.old) }
    ensures unprinted { IfErr result (λ f. (out.new ≡ out.old)
        ⊎ ((f ≡ Refused Refusal.Device) × (K.failures out.old < K.failures out.new))) }
    ensures stopped { IfErr result (λ f. HasNoPort options.from f ⊎ HasNoPort options.to f
        ⊎ (f ≡ Refused Refusal.Memory) ⊎ IsSyncFault f ⊎ (K.failures out.old < K.failures out.new)) }
{
    let first = connect(ports, options.from)?;
    let second = connect(ports, options.to)?;
    let lines = sync_between::<Brand, Brand, Brand, Brand>(
        alloc,
        PeerStream::new(&first),
        PeerStream::new(&second),
    )?;
    tell(b"synced ", lines, out)
}
