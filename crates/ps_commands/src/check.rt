//! The command `join --check`: reports whether two replicas hold the same in every cell.
ghost use Rattle.std.specs.Prelude.{◌≡◌, ◌⊎◌, ◌<◌, ℕ, List, [], IfErr, IfOk, OnOk};
ghost use Rattle.std.specs.Io.KnownBytes.{Appends};
ghost use Rattle.ps_grid.specs.Blanks.{IsBlankOf};
ghost use Rattle.ps_grid.specs.declared.refusal.Refusal.TheVariants as Refusal;
ghost use Rattle.ps_step.specs.Steps.{step_text};
ghost use Rattle.ps_commands.specs.Checks.{AreCompared, IsCheckFault, step_status};
ghost use Rattle.ps_commands.specs.Status.{HasNoPort};
ghost use Rattle.ps_commands.specs.declared.fault.ProgramFault.TheVariants.{Refused};

use crate::ends::open_ends;
use crate::fault::ProgramFault;
use crate::notice::tell_whole;
use crate::peers::{PeerStream, peer_of};
use crate::port::Ports;
use ps_device::Sink;
use ps_step::{Step, compare};
use ps_words::JoinOptions;
use std::alloc::Global;
use std::marker::Brand;
use std::net::{Net, TcpStream};
use std::sync::ledger::Ledger;

/// The exit status where two replicas differ.
const OUT_OF_STEP: u8 = 3;

/// Compares what the peers of two streams hold.
fn compare_streams<I: Ledger, O: Ledger, J: Ledger, P: Ledger>(
    alloc: Global,
    first: PeerStream<'_>,
    second: PeerStream<'_>,
) -> Result<Step, ProgramFault>
    requires first_input { IsBlankOf first.input I.name I.parts }
    requires first_output { IsBlankOf first.output O.name O.parts }
    requires second_input { IsBlankOf second.input J.name J.parts }
    requires second_output { IsBlankOf second.output P.name P.parts }
    ensures compared { IfOk result (λ step. AreCompared step.from step.to step.apart.items) }
    ensures stopped { IfErr result (λ f. (f ≡ Refused Refusal.Memory) ⊎ IsCheckFault f) }
{
    let mut from = peer_of::<I, O>(alloc, first)?;
    let mut to = peer_of::<J, P>(alloc, second)?;
    match compare(alloc, &mut from, &mut to) {
        Ok(step) => Ok(step),
        Err(fault) => Err(ProgramFault::from(fault)),
    }
}

/// Returns the exit status of what was found: 0 if both replicas hold the same, else 3.
fn status_of_step(step: &Step) -> u8
    ensures { result ≡ step_status step.now.apart.items }
{
    if step.is_even() { 0 } else { OUT_OF_STEP }
}

/// Compares what the replicas at two ports hold, and returns the exit status: 0 if no cell differs, 3 if one does.
///
/// It connects to the port `options.from` first, then to `options.to`, both on this machine. It asks each replica for
/// all of its changes, and merges nothing.
///
/// At the end it writes a line to `out`: `in step at` and both versions, or `differ`, the number of cells that differ,
/// and the names of the first 20.
///
/// # Errors
///
/// - [`ProgramFault::PortFailed`] if a port can't be connected to.
/// - `Device` if a connection or `out` fails.
/// - Otherwise those of [`compare`].
///
/// Cost: that of [`compare`], and 0.8 MB of memory.
pub fn check_on<R: Net<Stream = TcpStream>, K: Sink>(
    ports: Ports<'_, R>,
    alloc: Global,
    options: JoinOptions,
    out: &mut K,
) -> Result<u8, ProgramFault>
    ensures printed { IfOk result (λ status. (from : ℕ) × (to : ℕ) × (cells : List ℕ) × AreCompared from to cells
        × Appends (K.contents out.old) (K.contents out.new) (step_text from to cells)
        × (status ≡ step_status cells)) }
    ensures flushed { OnOk result (K.waiting out.new ≡ []) }
    ensures calm { OnOk result (K.failures out.new ≡ K.failures out.old) }
    ensures unprinted { IfErr result (λ f. (out.new ≡ out.old)
        ⊎ ((f ≡ Refused Refusal.Device) × (K.failures out.old < K.failures out.new))) }
    ensures stopped { IfErr result (λ f. HasNoPort options.from f ⊎ HasNoPort options.to f
        ⊎ (f ≡ Refused Refusal.Memory) ⊎ IsCheckFault f ⊎ (K.failures out.old < K.failures out.new)) }
{
    let ends = open_ends(ports, options)?;
    let step = compare_streams::<Brand, Brand, Brand, Brand>(
        alloc,
        PeerStream::new(&ends.from),
        PeerStream::new(&ends.to),
    )?;
    let line = step.line(alloc)?;
    tell_whole(&line, out)?;
    Ok(status_of_step(&step))
}
