//! The command `follow`: writes the changes of a replica as change lines.
ghost use Rattle.std.specs.Prelude.{◌≡◌, ◌⊎◌, ◌<◌, [], IfErr, OnOk, false, true};
ghost use Rattle.ps_grid.specs.Blanks.{IsBlankOf};
ghost use Rattle.ps_peers.specs.Exchange.{IsAll, IsHalted, IsUntilClosed};
ghost use Rattle.ps_peers.specs.Peers.{PeerView};

use crate::fault::ProgramFault;
use crate::peers::{PeerStream, peer_of};
use crate::port::{Ports, connect};
use ps_device::Sink;
use ps_peers::follow;
use ps_words::FollowOptions;
use std::alloc::Global;
use std::marker::Brand;
use std::net::{Net, TcpStream};
use std::sync::ledger::Ledger;

/// Writes the changes of the replica at a port of this machine to `out`, as change lines.
///
/// It skips the replica's first `options.after` changes, and writes all later ones. Then it writes each new change,
/// without polling, until the replica closes the connection. With `options.until_now` it ends once the replica has no
/// more changes.
///
/// # Errors
///
/// - [`ProgramFault::PortFailed`] if the port can't be connected to.
/// - `Device` if the connection or `out` fails.
/// - Otherwise those of [`follow`].
///
/// Cost: that of [`follow`], and 0.4 MB of memory.
pub fn follow_on<R: Net<Stream = TcpStream>, K: Sink>(
    ports: Ports<'_, R>,
    alloc: Global,
    options: FollowOptions,
    out: &mut K,
) -> Result<(), ProgramFault>
    ensures all { OnOk result (options.until_now ≡ true → (first : PeerView) × (last : PeerView)
        × IsAll (options.until_now ≡ false) options.after first last (K.contents out.old) (K.contents out.new)) }
    ensures left { OnOk result (options.until_now ≡ false → (first : PeerView) × (last : PeerView)
        × IsUntilClosed (options.until_now ≡ false) options.after first last (K.contents out.old)
        (K.contents out.new)) }
    ensures halted { IfErr result (λ fault. (out.new ≡ out.old) ⊎ ((first : PeerView) × (last : PeerView)
        × IsHalted (options.until_now ≡ false) (K.failures out.old < K.failures out.new) options.after first
        last (K.contents out.old) (K.contents out.new))) }
    ensures flushed { K.waiting out.old ≡ []
        → (K.waiting out.new ≡ []) ⊎ (K.failures out.old < K.failures out.new) }
    ensures calm { OnOk result (K.failures out.new ≡ K.failures out.old) }
{
    let connection = connect(ports, options.from)?;
    follow_stream::<K, Brand, Brand>(
        alloc,
        PeerStream::new(&connection),
        u64::from(options.after),
        options.until_now,
        out,
    )
}

/// Follows the peer of a connection after so many changes.
fn follow_stream<K: Sink, I: Ledger, O: Ledger>(
    alloc: Global,
    stream: PeerStream<'_>,
    after: u64,
    until_now: bool,
    out: &mut K,
) -> Result<(), ProgramFault>
    requires input { IsBlankOf stream.input I.name I.parts }
    requires output { IsBlankOf stream.output O.name O.parts }
    ensures all { OnOk result (until_now ≡ true → (first : PeerView) × (last : PeerView)
        × IsAll (until_now ≡ false) after first last (K.contents out.old) (K.contents out.new)) }
    ensures left { OnOk result (until_now ≡ false → (first : PeerView) × (last : PeerView)
        × IsUntilClosed (until_now ≡ false) after first last (K.contents out.old) (K.contents out.new)) }
    ensures halted { IfErr result (λ fault. (out.new ≡ out.old) ⊎ ((first : PeerView) × (last : PeerView)
        × IsHalted (until_now ≡ false) (K.failures out.old < K.failures out.new) after first last
        (K.contents out.old) (K.contents out.new))) }
    ensures flushed { K.waiting out.old ≡ []
        → (K.waiting out.new ≡ []) ⊎ (K.failures out.old < K.failures out.new) }
    ensures calm { OnOk result (K.failures out.new ≡ K.failures out.old) }
{
    let mut from = peer_of::<I, O>(alloc, stream)?;
    follow(alloc, &mut from, out, after, until_now)?;
    Ok(())
}
