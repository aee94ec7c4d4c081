//! The command `talk`: sends lines that a person types or a file has to a server, and writes the replies.
ghost use Rattle.std.specs.Prelude.{◌≡◌, ◌⊎◌, ◌<◌, ℕ, List, [], Option, OnErr, OnOk};
ghost use Rattle.ps_grid.specs.Blanks.{IsBlankOf};
ghost use Rattle.ps_peers.specs.Asking.{IsConversed, IsInterrupted};
ghost use Rattle.ps_peers.specs.Peers.{PeerView};

use crate::fault::ProgramFault;
use crate::peers::{PeerStream, peer_of};
use crate::port::{Ports, connect};
use ps_device::{Sink, Source};
use ps_lines::Watcher;
use ps_peers::ask_lines;
use ps_words::TalkOptions;
use std::alloc::Global;
use std::marker::Brand;
use std::net::{Net, TcpStream};
use std::sync::ledger::Ledger;

/// Sends each line of `input` to the server at port `options.to` of this machine, to the end of the input, and writes
/// the server's replies to `out`.
///
/// Each reply is written whole before the next line is sent. `watcher` sees each line and its outcome.
///
/// # Errors
///
/// - [`ProgramFault::PortFailed`] if the port can't be connected to.
/// - `Device` if the input, the connection or `out` fails.
/// - Otherwise those of [`ask_lines`].
///
/// Cost: that of [`ask_lines`], and 0.4 MB of memory.
pub fn talk_on<R: Net<Stream = TcpStream>, I: Source + Drop, K: Sink, W: Watcher>(
    ports: Ports<'_, R>,
    alloc: Global,
    options: TalkOptions,
    input: I,
    out: &mut K,
    watcher: &mut W,
) -> Result<(), ProgramFault>
    ensures all { OnOk result ((first : PeerView) × (last : PeerView) × (left : Option (List ℕ))
        × IsConversed first last (K.contents out.old) (K.contents out.new) (I.remaining input) left) }
    ensures interrupted { OnErr result ((out.new ≡ out.old)
        ⊎ ((first : PeerView) × (last : PeerView) × (left : Option (List ℕ))
        × IsInterrupted first last (K.contents out.old) (K.contents out.new) (I.remaining input) left)) }
    ensures flushed { K.waiting out.old ≡ []
        → (K.waiting out.new ≡ []) ⊎ (K.failures out.old < K.failures out.new) }
    ensures calm { OnOk result (K.failures out.new ≡ K.failures out.old) }
{
    let connection = connect(ports, options.to)?;
    talk_stream::<I, K, W, Brand, Brand>(alloc, PeerStream::new(&connection), input, out, watcher)
}

/// Asks the server at the other end of a connection.
fn talk_stream<I: Source + Drop, K: Sink, W: Watcher, J: Ledger, O: Ledger>(
    alloc: Global,
    stream: PeerStream<'_>,
    input: I,
    out: &mut K,
    watcher: &mut W,
) -> Result<(), ProgramFault>
    requires input { IsBlankOf stream.input J.name J.parts }
    requires output { IsBlankOf stream.output O.name O.parts }
    ensures all { OnOk result ((first : PeerView) × (last : PeerView) × (left : Option (List ℕ))
        × IsConversed first last (K.contents out.old) (K.contents out.new) (I.remaining input) left) }
    ensures interrupted { OnErr result ((out.new ≡ out.old)
        ⊎ ((first : PeerView) × (last : PeerView) × (left : Option (List ℕ))
        × IsInterrupted first last (K.contents out.old) (K.contents out.new) (I.remaining input) left)) }
    ensures flushed { K.waiting out.old ≡ []
        → (K.waiting out.new ≡ []) ⊎ (K.failures out.old < K.failures out.new) }
    ensures calm { OnOk result (K.failures out.new ≡ K.failures out.old) }
{
    let mut peer = peer_of::<J, O>(alloc, stream)?;
    ask_lines(alloc, input, &mut peer, out, watcher)?;
    Ok(())
}
