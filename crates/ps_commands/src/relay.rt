//! The command `join --with --lines`: merges the lines of an input at a replica, and writes the replica's other
//! changes.
ghost use Rattle.std.specs.Prelude.{◌≡◌, ℕ, List, Option, IfOk, OnErr, OnOk};
ghost use Rattle.ps_grid.specs.Blanks.{IsBlankOf};
ghost use Rattle.ps_commands.specs.Commands.{AreTried, IsAttempt, IsThroughWith, IsTried};

use crate::ends::{LostEnd, lost_at, open_end, unreached_end};
use crate::fault::ProgramFault;
use crate::inlet::Inlet;
use crate::peers::{PeerStream, peer_of};
use crate::poller::Poller;
use crate::port::{Connection, Ports};
use crate::progress::Progress;
use ps_device::{Sink, Source};
use ps_grid::Refusal;
use ps_join::{RelayFault, relay};
use ps_words::RelayOptions;
use std::alloc::Global;
use std::io::Write;
use std::marker::Brand;
use std::net::{Net, TcpStream};
use std::os::fd::RawFd;
use std::sync::ledger::Ledger;
use std::thread::sleep;
use std::time::Clock;

/// An input: the source of its bytes, and its file descriptor, by which the system reports that it has bytes.
#[derive(Drop)]
pub struct Input<S: Source + Drop> {
    /// The source of the bytes.
    pub source: S,
    /// The file descriptor of the input.
    pub file: RawFd,
}

/// Relays over a stream, until its server is lost or all is exchanged.
fn relay_stream<S: Source + Drop, W: Write + Drop, K: Sink, I: Ledger, O: Ledger>(
    alloc: Global,
    stream: PeerStream<'_>,
    inlet: &mut Inlet<S, W>,
    out: &mut K,
) -> Result<Result<(), RelayFault>, ProgramFault>
    requires input { IsBlankOf stream.input I.name I.parts }
    requires output { IsBlankOf stream.output O.name O.parts }
    ensures through { IfOk result (λ done. OnOk done (IsThroughWith (K.contents out.old) (K.contents out.new))) }
    ensures tried { IfOk result (λ done. OnErr done (IsTried (K.contents out.old) (K.contents out.new))) }
    ensures untried { OnErr result (K.contents out.new ≡ K.contents out.old) }
{
    let mut server = peer_of::<I, O>(alloc, stream)?;
    Ok(relay(alloc, &mut server, inlet, out))
}

/// Relays over a new connection. Returns the end that was lost, or none if all is exchanged.
fn relay_anew<R: Net<Stream = TcpStream>, S: Source + Drop, W: Write + Drop, K: Sink>(
    ports: Ports<'_, R>,
    alloc: Global,
    options: RelayOptions,
    inlet: &mut Inlet<S, W>,
    out: &mut K,
) -> Result<Option<LostEnd>, ProgramFault>
    ensures attempt { IfOk result (IsAttempt (K.contents out.old) (K.contents out.new)) }
    ensures tried { OnErr result (IsTried (K.contents out.old) (K.contents out.new)) }
{
    let server = match open_end(ports, options.server) {
        Ok(server) => server,
        Err(fault) if options.once => return Err(ProgramFault::PortFailed(fault)),
        Err(fault) => return Ok(Some(unreached_end(fault))),
    };
    inlet.connected(&server.stream);
    match relay_stream::<S, W, K, Brand, Brand>(alloc, PeerStream::new(&server), inlet, out)? {
        Ok(()) => Ok(None),
        Err(RelayFault::Output) => Err(ProgramFault::Refused(Refusal::Device)),
        Err(RelayFault::Server(fault)) if options.once => Err(ProgramFault::from(fault)),
        Err(RelayFault::Server(fault)) => match lost_at(options.server, fault) {
            Ok(end) => Ok(Some(end)),
            Err(fault) => Err(fault),
        },
    }
}

/// Merges the merge lines of `input` (`merge` and a delta) at the replica at a port of this machine, and writes the
/// replica's other changes to `out`, as merge lines. A merge line that the replica refuses, and any other line that
/// isn't empty, is skipped and reported on `messages`.
///
/// It ends once the input has ended and all is merged and written. If the connection is lost or a request refused,
/// `relay_on` pauses, connects again as [`join_on`](crate::join_on) does, and writes all of the replica's changes
/// again. With `options.once` it ends instead. `messages` also gets a line when all is exchanged for the first time
/// over a connection, and a line when a connection is lost.
///
/// # Errors
///
/// - `Memory` if allocation fails.
/// - `Device` if the input or `out` fails, if waiting for bytes of the input and the connection can't be set up, or
///   after 2^64 - 1 lost connections.
/// - With `options.once`: [`ProgramFault::PortFailed`] if the port can't be connected to, or the fault of the server
///   that [`relay`] returns.
///
/// Cost: that of [`relay`] for each connection, and 1.2 MB of memory.
pub fn relay_on<R: Net<Stream = TcpStream> + Clock, S: Source + Drop, K: Sink, W: Write + Drop>(
    ports: Ports<'_, R>,
    alloc: Global,
    options: RelayOptions,
    input: Input<S>,
    out: &mut K,
    messages: W,
) -> Result<(), ProgramFault>
    ensures relayed { OnOk result ((losses : ℕ) × (middle : Option (List ℕ))
        × AreTried losses (K.contents out.old) middle × IsThroughWith middle (K.contents out.new)) }
{
    let Input { source, file } = input;
    let Some(poller) = Poller::open(ports.rt, alloc, file) else {
        return Err(ProgramFault::Refused(Refusal::Device));
    };
    let progress = Progress::new(alloc, messages);
    let mut inlet = Inlet::new(alloc, source, poller, progress, options.server)?;
    let mut losses = 0u64;
    'losses: while losses < u64::MAX {
        match relay_anew(ports, alloc, options, &mut inlet, out)? {
            None => return inlet.ended(),
            Some(end) => {
                let pause = inlet.lost(&end);
                ports.broken.forget();
                sleep(ports.rt, pause);
            }
        }
        losses += 1;
    }
    Err(ProgramFault::Refused(Refusal::Device))
}
