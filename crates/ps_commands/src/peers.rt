//! The peer at the other end of a connection.
ghost use Rattle.std.specs.Prelude.{◌≡◌, IfErr};
ghost use Rattle.ps_grid.specs.Blanks.{IsBlankOf};
ghost use Rattle.ps_grid.specs.declared.refusal.Refusal.TheVariants.{Memory};
ghost use Rattle.ps_commands.specs.declared.fault.ProgramFault.TheVariants.{Refused};

use crate::broken::NotedStream;
use crate::fault::ProgramFault;
use crate::port::Connection;
use ps_device::{ConsoleOutput, Reading};
use ps_peers::Peer;
use std::alloc::Global;
use std::sync::ledger::{Blank, Ledger};

/// The stream of a connection to a peer, and what counts the failures of its two sides.
#[derive(Drop)]
pub(crate) struct PeerStream<'a> {
    stream: NotedStream<'a>,
    /// what counts the failures of the replies
    pub(crate) input: Blank,
    /// those of the requests
    pub(crate) output: Blank,
}

impl<'a> PeerStream<'a> {
    /// Returns the stream of a connection with no failure counted.
    pub(crate) fn new(connection: &'a Connection<'a>) -> PeerStream<'a>
        ensures input { result.input.parts ≡ 1 }
        ensures output { result.output.parts ≡ 1 }
    {
        PeerStream {
            stream: NotedStream { connection },
            input: Blank::new(1),
            output: Blank::new(1),
        }
    }
}

/// The peer at the other end of a stream. Refused out of memory.
pub(crate) fn peer_of<'a, I: Ledger, O: Ledger>(
    alloc: Global,
    stream: PeerStream<'a>,
) -> Result<Peer<Reading<NotedStream<'a>, I>, ConsoleOutput<NotedStream<'a>, O>>, ProgramFault>
    requires input { IsBlankOf stream.input I.name I.parts }
    requires output { IsBlankOf stream.output O.name O.parts }
    ensures memory { IfErr result (λ f. f ≡ Refused Memory) }
{
    let PeerStream {
        stream,
        input,
        output,
    } = stream;
    let source = Reading::<NotedStream<'a>, I>::new(stream, input);
    let sink = ConsoleOutput::<NotedStream<'a>, O>::new(alloc, stream, output)?;
    Ok(Peer::new(alloc, source, sink)?)
}
