//! Ports of this machine, and why one can't be used.
ghost use Rattle.std.specs.Prelude.{◌≡◌, IfErr, IfOk};
ghost use Rattle.ps_commands.specs.Status.{HasNoPort, port_fault_of};

use crate::broken::BrokenConnection;
use crate::fault::ProgramFault;
use std::fmt;
use std::io::ErrorKind;
use std::net::{Ipv4Addr, Net, TcpListener, TcpStream};

/// Why a port can't be used.
#[derive(Clone, Copy, Debug, PartialEq, Eq)]
pub enum PortTrouble {
    /// Listening fails: another program listens on the port.
    Taken,
    /// Listening fails: the user of the program may not listen on the port.
    Forbidden,
    /// Listening fails for another reason.
    Unheard,
    /// Connecting fails: no program listens on the port.
    Silent,
    /// Connecting fails for another reason.
    Unreached,
}

/// A port of this machine that can't be used, and why. Its text is a line for standard error, without the line feed.
#[derive(Clone, Copy, Debug, PartialEq, Eq)]
pub struct PortFault {
    /// The port.
    pub port: u16,
    /// Why the port can't be used.
    pub trouble: PortTrouble,
}

impl fmt::Display for PortFault {
    fn fmt<W: fmt::Write>(&self, f: &mut fmt::Formatter<W>) -> fmt::Result {
        let port = self.port;
        match self.trouble {
            PortTrouble::Taken => write!(f, "port {port}: another program listens on it"),
            PortTrouble::Forbidden => write!(
                f,
                "port {port}: listening on it isn't allowed; all may listen on ports from 1024 on"
            ),
            PortTrouble::Unheard => write!(f, "port {port} can't be listened on"),
            PortTrouble::Silent => write!(
                f,
                "port {port}: nobody listens on it; sheet serve --port {port} would"
            ),
            PortTrouble::Unreached => write!(f, "port {port} can't be connected to"),
        }
    }
}

/// The address of a server's page. Its text is a line for standard error, without the line feed.
#[derive(Clone, Copy, Debug, PartialEq, Eq)]
pub struct PageAddress {
    /// The server's port.
    pub port: u16,
}

impl fmt::Display for PageAddress {
    fn fmt<W: fmt::Write>(&self, f: &mut fmt::Formatter<W>) -> fmt::Result {
        let port = self.port;
        write!(f, "page http://127.0.0.1:{port}/")
    }
}

/// Returns the port that can't be used and why, if `fault` is [`ProgramFault::PortFailed`], else `None`.
pub fn port_fault(fault: &ProgramFault) -> Option<PortFault>
    ensures { result ≡ port_fault_of fault.now }
{
    match fault {
        ProgramFault::PortFailed(port) => Some(*port),
        ProgramFault::Refused(_)
        | ProgramFault::ReaderFailed(_)
        | ProgramFault::PeerRefused(_)
        | ProgramFault::LinesRefused(_)
        | ProgramFault::DeltaRefused(_)
        | ProgramFault::KeptFailed(_) => None,
    }
}

/// The network of a command, with a note of its first connection that breaks.
#[derive_where(Clone, Copy)]
pub struct Ports<'a, R> {
    /// The network that listens and connects.
    pub rt: &'a R,
    /// The note of the first connection that breaks.
    pub broken: &'a BrokenConnection,
}

/// An open connection to a port of this machine.
#[derive(Drop)]
pub(crate) struct Connection<'a> {
    /// the stream of the connection
    pub stream: TcpStream,
    /// the port that it was opened to
    pub port: u16,
    /// what notes that it breaks
    pub broken: &'a BrokenConnection,
}

/// Listens on a port of this machine.
pub(crate) fn listen<R: Net<Listener = TcpListener, Stream = TcpStream>>(
    rt: &R,
    port: u16,
) -> Result<TcpListener, ProgramFault>
    ensures { IfErr result (HasNoPort port) }
{
    let trouble = match TcpListener::bind(rt, (Ipv4Addr::LOCALHOST, port)) {
        Ok(listener) => return Ok(listener),
        Err(error) => match error.kind() {
            ErrorKind::AddrInUse => PortTrouble::Taken,
            ErrorKind::PermissionDenied => PortTrouble::Forbidden,
            _ => PortTrouble::Unheard,
        },
    };
    Err(ProgramFault::PortFailed(PortFault { port, trouble }))
}

/// Connects to a port of this machine. Asks the system to send each request at once, without waiting for earlier ones.
pub(crate) fn open_connection<'a, R: Net<Stream = TcpStream>>(
    ports: Ports<'a, R>,
    port: u16,
) -> Result<Connection<'a>, PortFault>
    ensures opened { IfOk result (λ connection. connection.port ≡ port) }
    ensures unreached { IfErr result (λ fault. fault.port ≡ port) }
{
    let trouble = match TcpStream::connect(ports.rt, (Ipv4Addr::LOCALHOST, port)) {
        Ok(stream) => {
            // (if this fails, requests may only arrive later)
            let _ = stream.set_nodelay(true);
            return Ok(Connection {
                stream,
                port,
                broken: ports.broken,
            });
        }
        Err(error) => match error.kind() {
            ErrorKind::ConnectionRefused => PortTrouble::Silent,
            _ => PortTrouble::Unreached,
        },
    };
    Err(PortFault { port, trouble })
}

/// Connects to a port of this machine, as [`open_connection`] does.
pub(crate) fn connect<'a, R: Net<Stream = TcpStream>>(
    ports: Ports<'a, R>,
    port: u16,
) -> Result<Connection<'a>, ProgramFault>
    ensures { IfErr result (HasNoPort port) }
{
    match open_connection(ports, port) {
        Ok(connection) => Ok(connection),
        Err(fault) => Err(ProgramFault::PortFailed(fault)),
    }
}
