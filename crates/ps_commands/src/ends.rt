//! The two ends of a join: their connections, and why one of them is lost.
ghost use Rattle.std.specs.Prelude.{◌≡◌, ◌⊎◌, IfErr, IfOk};
ghost use Rattle.ps_grid.specs.declared.refusal.Refusal.TheVariants.{Memory};
ghost use Rattle.ps_commands.specs.declared.fault.ProgramFault.TheVariants.{Refused};

use crate::fault::ProgramFault;
use crate::port::{Connection, PortFault, PortTrouble, Ports, open_connection};
use ps_grid::Refusal;
use ps_join::{End, JoinFault};
use ps_peers::SyncFault;
use ps_words::JoinOptions;
use std::fmt;
use std::net::{Net, TcpStream};
use std::time::Duration;

/// How many seconds a read or a write of a connection may wait. A peer that vanished counts as lost after that.
const LONGEST_SILENCE: u64 = 60;

/// The connections to the two replicas of a join.
#[derive(Drop)]
pub(crate) struct Ends<'a> {
    /// the one whose changes go first
    pub from: Connection<'a>,
    /// the other one
    pub to: Connection<'a>,
}

/// Connects to one port of a join.
pub(crate) fn open_end<'a, R: Net<Stream = TcpStream>>(
    ports: Ports<'a, R>,
    port: u16,
) -> Result<Connection<'a>, PortFault>
    ensures opened { IfOk result (λ connection. connection.port ≡ port) }
    ensures unreached { IfErr result (λ fault. fault.port ≡ port) }
{
    match open_connection(ports, port) {
        Ok(connection) => {
            let silence = Some(Duration::from_secs(LONGEST_SILENCE));
            // (if these fail, a peer that vanished is waited for)
            let _ = connection.stream.set_read_timeout(silence);
            let _ = connection.stream.set_write_timeout(silence);
            Ok(connection)
        }
        Err(fault) => Err(fault),
    }
}

/// Connects to both ports of a join, to the first one first.
pub(crate) fn open_ends<'a, R: Net<Stream = TcpStream>>(
    ports: Ports<'a, R>,
    options: JoinOptions,
) -> Result<Ends<'a>, PortFault>
    ensures from { IfOk result (λ ends. ends.from.port ≡ options.from) }
    ensures to { IfOk result (λ ends. ends.to.port ≡ options.to) }
    ensures unreached { IfErr result (λ fault. (fault.port ≡ options.from) ⊎ (fault.port ≡ options.to)) }
{
    let from = match open_end(ports, options.from) {
        Ok(from) => from,
        Err(fault) => return Err(fault),
    };
    match open_end(ports, options.to) {
        Ok(to) => Ok(Ends { from, to }),
        Err(fault) => Err(fault),
    }
}

/// How an end of a join is lost.
#[derive(Debug, Drop)]
pub(crate) enum Loss {
    /// Its port can't be connected to.
    Unreached(PortTrouble),
    /// Its connection was closed, or failed.
    Ended,
    /// It refused a request, or gave a reply that isn't due.
    Refused(ProgramFault),
}

/// An end of a join that is lost. Its text is a line for standard error, without its line feed.
#[derive(Debug, Drop)]
pub(crate) struct LostEnd {
    /// the port of the end
    pub port: u16,
    /// how it is lost
    pub loss: Loss,
}

impl fmt::Display for LostEnd {
    fn fmt<W: fmt::Write>(&self, f: &mut fmt::Formatter<W>) -> fmt::Result {
        let port = self.port;
        match &self.loss {
            Loss::Unreached(trouble) => {
                let trouble = *trouble;
                let fault = PortFault { port, trouble };
                write!(f, "{fault}")
            }
            Loss::Ended => write!(f, "port {port}: the connection ended"),
            Loss::Refused(fault) => write!(f, "port {port}: {fault}"),
        }
    }
}

/// Returns the end whose port can't be connected to.
pub(crate) fn unreached_end(fault: PortFault) -> LostEnd
    ensures { result.port ≡ fault.port }
{
    LostEnd {
        port: fault.port,
        loss: Loss::Unreached(fault.trouble),
    }
}

/// Returns the end at this port, where an exchange ended so. Out of memory no end is lost, and it is `Memory`.
pub(crate) fn lost_at(port: u16, fault: SyncFault) -> Result<LostEnd, ProgramFault>
    ensures port { IfOk result (λ lost. lost.port ≡ port) }
    ensures memory { IfErr result (λ f. f ≡ Refused Memory) }
{
    match fault {
        SyncFault::Refused(Refusal::Memory) => Err(ProgramFault::Refused(Refusal::Memory)),
        SyncFault::Refused(Refusal::Device) | SyncFault::Closed => Ok(LostEnd {
            port,
            loss: Loss::Ended,
        }),
        SyncFault::Refused(refusal) => Ok(LostEnd {
            port,
            loss: Loss::Refused(ProgramFault::Refused(refusal)),
        }),
        SyncFault::PeerRefused(reply) => Ok(LostEnd {
            port,
            loss: Loss::Refused(ProgramFault::PeerRefused(reply)),
        }),
    }
}

/// Returns the end at which a join ended. Out of memory no end is lost, and it is `Memory`.
pub(crate) fn lost_end(ends: &Ends<'_>, fault: JoinFault) -> Result<LostEnd, ProgramFault>
    ensures from { fault.end ≡ End.From → IfOk result (λ lost. lost.port ≡ ends.now.from.port) }
    ensures to { fault.end ≡ End.To → IfOk result (λ lost. lost.port ≡ ends.now.to.port) }
    ensures memory { IfErr result (λ f. f ≡ Refused Memory) }
{
    let JoinFault { end, fault } = fault;
    let port = match end {
        End::From => ends.from.port,
        End::To => ends.to.port,
    };
    lost_at(port, fault)
}
