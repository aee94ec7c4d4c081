//! The command `join` with `-`: joins the replica at a port with the one behind an input and an output.
ghost use Rattle.std.specs.Prelude.{◌≡◌, ◌⊎◌, IfErr, IfOk, OnOk, true};
ghost use Rattle.ps_grid.specs.Blanks.{IsBlankOf};
ghost use Rattle.ps_grid.specs.declared.refusal.Refusal.TheVariants as Refusal;
ghost use Rattle.ps_commands.specs.Commands.{ArePiped, IsPipeFault, IsPipeStopped};
ghost use Rattle.ps_commands.specs.Status.{HasNoPort};
ghost use Rattle.ps_commands.specs.declared.fault.ProgramFault.TheVariants.{Refused};

use crate::ends::{Loss, LostEnd, lost_at, open_end};
use crate::fault::ProgramFault;
use crate::peers::{PeerStream, peer_of};
use crate::poller::Poller;
use crate::port::Ports;
use crate::progress::Progress;
use crate::relay::Input;
use ps_device::{Sink, Source};
use ps_grid::Refusal;
use ps_join::{Attention, End, JoinFault, join, join_once};
use ps_peers::{Peer, SyncFault};
use ps_words::PipeOptions;
use std::alloc::Global;
use std::fmt;
use std::io::Write;
use std::marker::Brand;
use std::net::{Net, TcpStream};
use std::sync::ledger::Ledger;

/// Two replicas that have the same changes, one of them behind standard input and output. Its text is a line for
/// standard error, without its line feed.
#[derive(Clone, Copy)]
struct Piped {
    is_first: bool,
    port: u16,
}

impl fmt::Display for Piped {
    fn fmt<W: fmt::Write>(&self, f: &mut fmt::Formatter<W>) -> fmt::Result {
        let port = self.port;
        if self.is_first {
            write!(f, "joined - and {port}")
        } else {
            write!(f, "joined {port} and -")
        }
    }
}

/// The end behind standard input and output, lost. Its text is a line for standard error, without its line feed.
#[derive(Debug, Drop)]
struct LostPipe {
    loss: Loss,
}

impl fmt::Display for LostPipe {
    fn fmt<W: fmt::Write>(&self, f: &mut fmt::Formatter<W>) -> fmt::Result {
        match &self.loss {
            Loss::Refused(fault) => write!(f, "-: {fault}"),
            Loss::Unreached(_) | Loss::Ended => write!(f, "-: the connection ended"),
        }
    }
}

/// Looks at an input and a connection, to see which one has bytes first.
#[derive(Drop)]
struct PipeLookout<W: Write + Drop> {
    poller: Poller,
    progress: Progress<W>,
    piped: Piped,
    /// whether both were joined
    is_joined: bool,
}

impl<W: Write + Drop> PipeLookout<W> {
    /// Reports that both have the same changes, unless that was reported.
    fn joined(&mut self) {
        if !self.is_joined {
            self.is_joined = true;
            let piped = self.piped;
            self.progress.succeeded(&piped);
        }
    }

    /// Reports which end is lost, and how. Fails out of memory alone.
    fn lost(&mut self, fault: JoinFault) -> Result<(), ProgramFault>
        ensures memory { IfErr result (λ f. f ≡ Refused Refusal.Memory) }
    {
        let JoinFault { end, fault } = fault;
        let lost = lost_at(self.piped.port, fault)?;
        if (end == End::From) == self.piped.is_first {
            let LostEnd { loss, .. } = lost;
            self.progress.tell(&LostPipe { loss });
        } else {
            self.progress.lost(&lost);
        }
        Ok(())
    }
}

impl<W: Write + Drop> Attention for PipeLookout<W> {
    /// Returns the end that has bytes, or that ended. After 30 seconds without either it is the one at the port.
    ///
    /// The first call follows a whole exchange, and reports it.
    fn next(&mut self) -> End {
        self.joined();
        if self.poller.is_input_first() == self.piped.is_first {
            End::From
        } else {
            End::To
        }
    }
}

/// Joins the peers behind an input and an output, and behind a stream, once.
fn pipe_once<S: Source + Drop, K: Sink + Drop, I: Ledger, O: Ledger>(
    alloc: Global,
    is_first: bool,
    source: S,
    out: K,
    stream: PeerStream<'_>,
) -> Result<(), ProgramFault>
    requires input { IsBlankOf stream.input I.name I.parts }
    requires output { IsBlankOf stream.output O.name O.parts }
    ensures joined { OnOk result (ArePiped is_first (S.remaining source) (K.contents out)) }
    ensures stopped { IfErr result (λ f. (f ≡ Refused Refusal.Memory)
        ⊎ IsPipeFault is_first (S.remaining source) (K.contents out) f) }
{
    let mut other = peer_of::<I, O>(alloc, stream)?;
    let mut standard = Peer::new(alloc, source, out)?;
    if is_first {
        return match join_once(alloc, &mut standard, &mut other) {
            Ok(()) => Ok(()),
            Err(fault) => Err(ProgramFault::from(fault)),
        };
    }
    match join_once(alloc, &mut other, &mut standard) {
        Ok(()) => Ok(()),
        Err(fault) => Err(ProgramFault::from(fault)),
    }
}

/// Joins the peers behind an input and an output, and behind a stream, until one of them fails, refuses or closes, and
/// returns which one and how. Fails only out of memory, before anything was asked.
fn pipe<S: Source + Drop, K: Sink + Drop, W: Write + Drop, I: Ledger, O: Ledger>(
    alloc: Global,
    source: S,
    out: K,
    stream: PeerStream<'_>,
    lookout: &mut PipeLookout<W>,
) -> Result<JoinFault, ProgramFault>
    requires input { IsBlankOf stream.input I.name I.parts }
    requires output { IsBlankOf stream.output O.name O.parts }
    ensures stopped { IfOk result (λ fault. IsPipeStopped lookout.old.piped.is_first (S.remaining source)
        (K.contents out) fault.end) }
    ensures memory { IfErr result (λ f. f ≡ Refused Refusal.Memory) }
{
    let mut other = peer_of::<I, O>(alloc, stream)?;
    let mut standard = Peer::new(alloc, source, out)?;
    if lookout.piped.is_first {
        return Ok(join(alloc, &mut standard, &mut other, lookout));
    }
    Ok(join(alloc, &mut other, &mut standard, lookout))
}

/// Keeps a replica at a port and one behind an input and an output at the same changes. It merges all changes of each
/// at the other, and then each new change. With `options.is_first` the changes of the replica behind the input are
/// merged first.
///
/// It connects to `options.port` of this machine once, and not again. Without `options.once` it only ends with an
/// error. With `options.once` it ends once each replica has all that the other one had. `messages` gets a line when
/// both have the same changes, and without `options.once` a line that says which end is lost.
///
/// # Errors
///
/// - [`ProgramFault::PortFailed`] if the port can't be connected to.
/// - `Memory` if allocation fails.
/// - `Device` if an end is lost, or if waiting for bytes of both ends can't be set up.
/// - With `options.once`: those of [`join_once`], instead of `Device`, if an end is lost.
///
/// Cost: that of [`join`], and 0.8 MB of memory.
pub fn join_pipe_on<R: Net<Stream = TcpStream>, S: Source + Drop, K: Sink + Drop, W: Write + Drop>(
    ports: Ports<'_, R>,
    alloc: Global,
    options: PipeOptions,
    input: Input<S>,
    out: K,
    messages: W,
) -> Result<(), ProgramFault>
    ensures joined { OnOk result ((options.once ≡ true)
        × ArePiped options.is_first (S.remaining input.source) (K.contents out)) }
    ensures stopped { IfErr result (λ f. HasNoPort options.port f ⊎ (f ≡ Refused Refusal.Memory)
        ⊎ (f ≡ Refused Refusal.Device)
        ⊎ ((options.once ≡ true) × IsPipeFault options.is_first (S.remaining input.source) (K.contents out) f)) }
{
    let connection = open_end(ports, options.port)?;
    let Input { source, file } = input;
    let Some(mut poller) = Poller::open(ports.rt, alloc, file) else {
        return Err(ProgramFault::Refused(Refusal::Device));
    };
    poller.watch(&connection.stream);
    let is_first = options.is_first;
    let mut lookout = PipeLookout {
        poller,
        progress: Progress::new(alloc, messages),
        piped: Piped {
            is_first,
            port: options.port,
        },
        is_joined: false,
    };
    let stream = PeerStream::new(&connection);
    if options.once {
        pipe_once::<S, K, Brand, Brand>(alloc, is_first, source, out, stream)?;
        lookout.joined();
        return Ok(());
    }
    let fault = pipe::<S, K, W, Brand, Brand>(alloc, source, out, stream, &mut lookout)?;
    lookout.lost(fault)?;
    ports.broken.forget();
    Err(ProgramFault::Refused(Refusal::Device))
}
