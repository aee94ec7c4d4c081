//! The command `join`: merges all changes of each of two replicas at the other.
ghost use Rattle.std.specs.Prelude.{◌≡◌, ◌⊎◌, ◌<◌, ◌-◌, ◌^◌, [], IfErr, IfOk, OnOk, true};
ghost use Rattle.std.specs.Io.KnownBytes.{Appends};
ghost use Rattle.ps_grid.specs.Blanks.{IsBlankOf};
ghost use Rattle.ps_grid.specs.declared.refusal.Refusal.TheVariants as Refusal;
ghost use Rattle.ps_join.specs.Joins.{IsStopped};
ghost use Rattle.ps_peers.specs.Peers.{PeerView};
ghost use Rattle.ps_commands.specs.Commands.{AreJoined, IsJoinFault, joined_text};
ghost use Rattle.ps_commands.specs.Status.{HasNoPort};
ghost use Rattle.ps_commands.specs.declared.fault.ProgramFault.TheVariants.{Refused};

use crate::ends::{Ends, LostEnd, lost_end, open_ends, unreached_end};
use crate::fault::ProgramFault;
use crate::lookout::Lookout;
use crate::notice::tell_whole;
use crate::peers::{PeerStream, peer_of};
use crate::port::Ports;
use crate::progress::Progress;
use ps_device::Sink;
use ps_grid::Refusal;
use ps_join::{JoinFault, join, join_once};
use ps_words::JoinOptions;
use std::alloc::Global;
use std::io::Write;
use std::marker::Brand;
use std::net::{Net, TcpStream};
use std::sync::ledger::Ledger;
use std::thread::sleep;
use std::time::Clock;

/// Merges all that the peer of each of two streams has at the other, once.
fn join_streams_once<I: Ledger, O: Ledger, J: Ledger, P: Ledger>(
    alloc: Global,
    first: PeerStream<'_>,
    second: PeerStream<'_>,
) -> Result<(), ProgramFault>
    requires first_input { IsBlankOf first.input I.name I.parts }
    requires first_output { IsBlankOf first.output O.name O.parts }
    requires second_input { IsBlankOf second.input J.name J.parts }
    requires second_output { IsBlankOf second.output P.name P.parts }
    ensures joined { OnOk result AreJoined }
    ensures stopped { IfErr result (λ f. (f ≡ Refused Refusal.Memory) ⊎ IsJoinFault f) }
{
    let mut from = peer_of::<I, O>(alloc, first)?;
    let mut to = peer_of::<J, P>(alloc, second)?;
    match join_once(alloc, &mut from, &mut to) {
        Ok(()) => Ok(()),
        Err(fault) => Err(ProgramFault::from(fault)),
    }
}

/// Merges all changes of the replica at port `options.from` at the one at port `options.to`, and then all changes of
/// the second at the first.
///
/// It connects to `options.from` first, then to `options.to`, both on this machine. At the end it writes the line
/// `joined` to `out`.
///
/// # Errors
///
/// - [`ProgramFault::PortFailed`] if a port can't be connected to.
/// - `Device` if a connection or `out` fails.
/// - Otherwise those of [`join_once`].
///
/// Cost: that of [`join_once`], and 0.8 MB of memory.
pub fn join_once_on<R: Net<Stream = TcpStream>, K: Sink>(
    ports: Ports<'_, R>,
    alloc: Global,
    options: JoinOptions,
    out: &mut K,
) -> Result<(), ProgramFault>
    ensures joined { OnOk result AreJoined }
    ensures printed { OnOk result (Appends (K.contents out.old) (K.contents out.new) joined_text) }
    ensures flushed { OnOk result (K.waiting out.new ≡ []) }
    ensures calm { OnOk result (K.failures out.new ≡ K.failures out.old) }
    ensures unprinted { IfErr result (λ f. (out.new ≡ out.old)
        ⊎ ((f ≡ Refused Refusal.Device) × (K.failures out.old < K.failures out.new))) }
    ensures stopped { IfErr result (λ f. HasNoPort options.from f ⊎ HasNoPort options.to f
        ⊎ (f ≡ Refused Refusal.Memory) ⊎ IsJoinFault f ⊎ (K.failures out.old < K.failures out.new)) }
{
    let ends = open_ends(ports, options)?;
    join_streams_once::<Brand, Brand, Brand, Brand>(
        alloc,
        PeerStream::new(&ends.from),
        PeerStream::new(&ends.to),
    )?;
    tell_whole(b"joined\n", out)
}

/// Joins the peers of two streams until one of them fails, refuses or closes, and returns which one and how.
///
/// Fails only out of memory, before anything was asked.
fn join_streams<W: Write + Drop, I: Ledger, O: Ledger, J: Ledger, P: Ledger>(
    alloc: Global,
    first: PeerStream<'_>,
    second: PeerStream<'_>,
    lookout: &mut Lookout<'_, W>,
) -> Result<JoinFault, ProgramFault>
    requires first_input { IsBlankOf first.input I.name I.parts }
    requires first_output { IsBlankOf first.output O.name O.parts }
    requires second_input { IsBlankOf second.input J.name J.parts }
    requires second_output { IsBlankOf second.output P.name P.parts }
    ensures stopped { IfOk result (λ fault. (from0 : PeerView) × (from1 : PeerView) × (to0 : PeerView)
        × (to1 : PeerView) × IsStopped true fault.end from0 from1 to0 to1) }
    ensures memory { IfErr result (λ f. f ≡ Refused Refusal.Memory) }
{
    let mut from = peer_of::<I, O>(alloc, first)?;
    let mut to = peer_of::<J, P>(alloc, second)?;
    Ok(join(alloc, &mut from, &mut to, lookout))
}

/// Joins two replicas over new connections, until an end is lost, and returns that end. Fails only out of memory.
fn join_anew<R: Net<Stream = TcpStream> + Clock, W: Write + Drop>(
    ports: Ports<'_, R>,
    alloc: Global,
    options: JoinOptions,
    progress: &mut Progress<W>,
) -> Result<LostEnd, ProgramFault>
    ensures lost { IfOk result (λ lost. (lost.port ≡ options.from) ⊎ (lost.port ≡ options.to)) }
    ensures memory { IfErr result (λ f. f ≡ Refused Refusal.Memory) }
{
    match open_ends(ports, options) {
        Ok(ends) => join_ends(ports.rt, alloc, &ends, progress),
        Err(fault) => Ok(unreached_end(fault)),
    }
}

/// Joins the replicas of two connections until one of them is lost, and returns that one. Fails only out of memory.
fn join_ends<'a, R: Net, W: Write + Drop>(
    rt: &R,
    alloc: Global,
    ends: &'a Ends<'a>,
    progress: &'a mut Progress<W>,
) -> Result<LostEnd, ProgramFault>
    ensures lost { IfOk result (λ lost. (lost.port ≡ ends.now.from.port) ⊎ (lost.port ≡ ends.now.to.port)) }
    ensures memory { IfErr result (λ f. f ≡ Refused Refusal.Memory) }
{
    let mut lookout = Lookout::new(rt, alloc, &*ends, progress);
    let fault = join_streams::<W, Brand, Brand, Brand, Brand>(
        alloc,
        PeerStream::new(&ends.from),
        PeerStream::new(&ends.to),
        &mut lookout,
    )?;
    lost_end(ends, fault)
}

/// What ends a join that goes on.
#[derive(Drop)]
struct Ending {
    fault: ProgramFault,
    /// how often an end was lost before
    losses: u64,
}

/// Joins two replicas again whenever an end is lost, after a pause, and returns what ends that.
fn join_again<R: Net<Stream = TcpStream> + Clock, W: Write + Drop>(
    ports: Ports<'_, R>,
    alloc: Global,
    options: JoinOptions,
    progress: &mut Progress<W>,
) -> Ending
    ensures { (result.fault ≡ Refused Refusal.Memory)
        ⊎ ((result.fault ≡ Refused Refusal.Device) × (result.losses ≡ 2 ^ 64 - 1)) }
{
    let mut losses = 0;
    'losses: while losses < u64::MAX {
        match join_anew(ports, alloc, options, progress) {
            Ok(end) => progress.lost(&end),
            Err(fault) => return Ending { fault, losses },
        }
        losses += 1;
        sleep(ports.rt, progress.next_pause());
    }
    Ending {
        fault: ProgramFault::Refused(Refusal::Device),
        losses,
    }
}

/// Keeps the replicas at two ports at the same changes, and returns the fault that ends this. It merges all changes of
/// each at the other, and then each new change.
///
/// It connects to `options.from` first, then to `options.to`, both on this machine. An end is lost if its port can't be
/// connected to, its connection ends, or its replica refuses a request or gives a reply that doesn't fit. Then
/// `join_on` pauses, and connects to both ports again. The first pause takes 0.1 seconds, and each further one twice as
/// long, up to 10 seconds. Once both replicas have the same changes, the next pause takes 0.1 seconds again.
///
/// `messages` gets a line when both replicas have the same changes over new connections, and a line with the reason
/// when an end is lost. No line about a lost end is written twice before both have the same changes again, except after
/// 64 different ones or when out of memory.
///
/// # Errors
///
/// - `Memory` if allocation fails.
/// - `Device` after 2^64 - 1 lost ends.
///
/// Cost: that of [`join`] for each pair of connections, and 0.8 MB of memory.
pub fn join_on<R: Net<Stream = TcpStream> + Clock, W: Write + Drop>(
    ports: Ports<'_, R>,
    alloc: Global,
    options: JoinOptions,
    messages: W,
) -> ProgramFault
    ensures { (result ≡ Refused Refusal.Memory) ⊎ (result ≡ Refused Refusal.Device) }
{
    let mut progress = Progress::new(alloc, messages);
    let Ending { fault, .. } = join_again(ports, alloc, options, &mut progress);
    fault
}
