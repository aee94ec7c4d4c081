//! The command `serve`: answers the lines of several sessions by one sheet.
ghost use Rattle.std.specs.Prelude.{◌≡◌, ◌⊎◌, ◌<◌, ◌++◌, [], IfErr, IfOk, IfSome, OnErr, OnOk, Some, length};
ghost use Rattle.std.specs.Io.KnownBytes.{Appends};
ghost use Rattle.ps_grid.specs.declared.refusal.Refusal.TheVariants.{Device};
ghost use Rattle.ps_sheet.specs.Sheet.{SheetView};
ghost use Rattle.ps_keep.specs.Journals.{IsJournal};
ghost use Rattle.ps_kept.specs.Kept.{TellHistory};
ghost use Rattle.ps_server.specs.Sessions.{IsServed};
ghost use Rattle.ps_commands.specs.Commands.{IsOpened, closed_text, listening_text};
ghost use Rattle.ps_commands.specs.Kept.{IsReadSheet};
ghost use Rattle.ps_commands.specs.Status.{HasNoPort, IsServerFault};
ghost use Rattle.ps_commands.specs.declared.fault.ProgramFault.TheVariants.{Refused};

use crate::elsewhere::{Warner, tell_opened};
use crate::fault::ProgramFault;
use crate::kept::{KeptName, lost_file, open_kept_sheet};
use crate::notice::{tell, tell_line};
use crate::port::{PageAddress, listen};
use crate::run::open_sheet;
use ps_device::Sink;
use ps_eval::Meter;
use ps_grid::Refusal;
use ps_keep::{DigestedDevice, Journal, KeptFile};
use ps_server::{Closed, ServerOptions, serve_in_memory, serve_with_journal};
use ps_session::Resources;
use ps_sheet::Sheet;
use ps_words::ServeOptions;
use std::alloc::Global;
use std::fs::File;
use std::io::Write;
use std::net::{Net, TcpListener, TcpStream};
use std::rt::Files;
use std::sync::Wait;
use std::sync::ledger::Ledger;
use std::thread::Threads;
use std::time::{Clock, Duration};

/// Returns the title of the page: the given one, or the name of the kept file, or an empty one.
fn title_of<'a>(options: ServeOptions<'a>) -> &'a str
    ensures { IfSome options.entry.title (λ title. result.now ≡ title.now) }
{
    if let Some(title) = options.title {
        return title;
    }
    let path = options.keep.unwrap_or("");
    match path.rsplit_once('/') {
        Some((_, name)) => name,
        None => path,
    }
}

/// Returns the server's options for `options` and this listener.
fn server_options<'a>(listener: &'a TcpListener, options: ServeOptions<'a>) -> ServerOptions<'a>
    ensures sessions { result.sessions ≡ options.entry.sessions }
    ensures seats { result.seats ≡ options.entry.seats }
    ensures title { IfSome options.entry.title (λ title. result.title.now ≡ title.now) }
{
    ServerOptions {
        listener,
        sessions: options.sessions.map(u64::from),
        seats: usize::from(options.seats),
        title: title_of(options),
        wait: Duration::from_secs(u64::from(options.wait)),
        idle: options
            .idle
            .map(|seconds| Duration::from_secs(u64::from(seconds))),
    }
}

/// Writes `listening` and the port. Refused as `Device` where the output fails.
fn tell_listening<K: Sink>(port: u16, out: &mut K) -> Result<(), ProgramFault>
    ensures printed { OnOk result (Appends (K.contents out.old) (K.contents out.new) (listening_text port)) }
    ensures flushed { OnOk result (K.waiting out.new ≡ []) }
    ensures calm { OnOk result (K.failures out.new ≡ K.failures out.old) }
    ensures failed { OnErr result (K.failures out.old < K.failures out.new) }
    ensures refused { IfErr result (λ f. f ≡ Refused Device) }
{
    tell(b"listening ", u64::from(port), out)
}

/// Writes `closed` and the version of the sheet that a server closed. Refused as `Device` where the output fails.
fn tell_closed<K: Sink>(sheet: &Sheet, out: &mut K) -> Result<(), ProgramFault>
    ensures printed { OnOk result (Appends (K.contents out.old) (K.contents out.new)
        (closed_text (length sheet.now.history))) }
    ensures flushed { OnOk result (K.waiting out.new ≡ []) }
    ensures calm { OnOk result (K.failures out.new ≡ K.failures out.old) }
    ensures failed { OnErr result (K.failures out.old < K.failures out.new) }
    ensures refused { IfErr result (λ f. f ≡ Refused Device) }
{
    tell(b"closed ", sheet.version(), out)
}

/// Writes the address of the page of the server on this port. What can't be written, or has no memory, is lost.
fn tell_page<W: Write>(alloc: Global, port: u16, messages: &mut W) {
    tell_line(alloc, &PageAddress { port }, messages);
}

/// Serves sessions over TCP on a new, empty sheet, as [`serve_in_memory`] does, and returns the closed sheet.
///
/// It listens on `options.port` of this machine, and writes `listening` and the port to `out`. Once `options.sessions`
/// sessions have ended, it writes `closed` and the sheet's version. If `options.sessions` is `None`, it serves until
/// the program is stopped.
///
/// `messages` gets the address of the sheet's page, and a warning if connections can't be accepted for now.
///
/// # Errors
///
/// - [`ProgramFault::PortFailed`] if the port can't be listened on. Then nothing was written.
/// - `Memory` if the sheet can't be allocated.
/// - `Device` if `out` fails.
/// - Otherwise those of [`serve_in_memory`].
///
/// Cost: that of opening a sheet, and of [`serve_in_memory`].
pub fn serve<
    R: Net<Listener = TcpListener, Stream = TcpStream> + Threads + Wait + Clock + Sync,
    K: Sink,
    W: Write + Drop,
>(
    resources: Resources<'_, R>,
    options: ServeOptions<'_>,
    out: &mut K,
    mut messages: W,
) -> Result<Closed, ProgramFault>
    ensures asked { IfOk result (λ closed. options.entry.sessions ≡ Some closed.sessions) }
    ensures served { IfOk result (λ closed. (first : SheetView) × IsOpened options.entry.sheet.replica first
        × IsServed options.entry.seats closed.sessions first closed.sheet) }
    ensures printed { IfOk result (λ closed. Appends (K.contents out.old) (K.contents out.new)
        (listening_text options.entry.port ++ closed_text (length closed.sheet.history))) }
    ensures flushed { OnOk result (K.waiting out.new ≡ []) }
    ensures calm { OnOk result (K.failures out.new ≡ K.failures out.old) }
    ensures unprinted { IfErr result (λ f. (out.new ≡ out.old)
        ⊎ (Appends (K.contents out.old) (K.contents out.new) (listening_text options.entry.port)
        × (K.waiting out.new ≡ []) × (K.failures out.new ≡ K.failures out.old))
        ⊎ ((f ≡ Refused Device) × (K.failures out.old < K.failures out.new))) }
    ensures refused { IfErr result (λ f. IsServerFault f ⊎ HasNoPort options.entry.port f) }
    ensures unheard { IfErr result (λ f. HasNoPort options.entry.port f → out.new ≡ out.old) }
{
    let listener = listen(resources.threads, options.port)?;
    let sheet = open_sheet(resources.alloc, options.sheet)?;
    match tell_listening(options.port, out) {
        Ok(()) => {}
        Err(fault) => return Err(fault),
    }
    tell_page(resources.alloc, options.port, &mut messages);
    let mut warner = Warner::of_connections(resources.alloc, messages);
    let closed = serve_in_memory(
        resources,
        server_options(&listener, options),
        sheet,
        &mut warner,
    )?;
    match tell_closed(&closed.sheet, out) {
        Ok(()) => Ok(closed),
        Err(fault) => Err(fault),
    }
}

/// Serves sessions over TCP on the sheet of a kept file, as [`serve_with_journal`] does, and returns the closed sheet
/// with its journal.
///
/// It listens on `options.port` of this machine, opens the file of `name`, and writes `listening` and the port to
/// `out`. Once `options.sessions` sessions have ended, it writes `closed` and the sheet's version. If
/// `options.sessions` is `None`, it serves until the program is stopped.
///
/// `messages` gets the address of the sheet's page, the opened file's path, and the warnings of a [`Warner`].
///
/// `name.path` is the path of `options.keep`. It is a parameter of its own, so that nobody can call this without a
/// file.
///
/// # Errors
///
/// - [`ProgramFault::PortFailed`] if the port can't be listened on. Then nothing was written.
/// - Those of [`open_kept_sheet`] if the file is refused. Then nothing was written.
/// - The fault of [`lost_file`], which names the file, if [`serve_with_journal`] fails with `Device`.
/// - `Device` if `out` fails.
/// - Otherwise the errors of [`serve_with_journal`].
///
/// Cost: that of [`open_kept_sheet`] and of [`serve_with_journal`].
pub fn serve_kept<
    R: Files<File = File>
        + Net<Listener = TcpListener, Stream = TcpStream>
        + Threads
        + Wait
        + Clock
        + Sync,
    K: Sink,
    L: Ledger,
    W: Write + Drop,
>(
    resources: Resources<'_, R>,
    options: ServeOptions<'_>,
    name: KeptName<'_>,
    out: &mut K,
    mut messages: W,
    meter: &mut Meter<L>,
) -> Result<Closed<Journal<DigestedDevice<KeptFile>>>, ProgramFault>
    ensures asked { IfOk result (λ closed. options.entry.sessions ≡ Some closed.sessions) }
    ensures served { IfOk result (λ closed. (first : SheetView) × IsReadSheet options.entry.sheet.replica first
        × IsServed options.entry.seats closed.sessions first closed.sheet) }
    ensures kept { IfOk result (λ closed. TellHistory closed.sheet.replica closed.journal.kept closed.sheet.history) }
    ensures journal { IfOk result (λ closed. IsJournal closed.journal) }
    ensures printed { IfOk result (λ closed. Appends (K.contents out.old) (K.contents out.new)
        (listening_text options.entry.port ++ closed_text (length closed.sheet.history))) }
    ensures flushed { OnOk result (K.waiting out.new ≡ []) }
    ensures calm { OnOk result (K.failures out.new ≡ K.failures out.old) }
    ensures unprinted { IfErr result (λ f. (out.new ≡ out.old)
        ⊎ (Appends (K.contents out.old) (K.contents out.new) (listening_text options.entry.port)
        × (K.waiting out.new ≡ []) × (K.failures out.new ≡ K.failures out.old))
        ⊎ ((f ≡ Refused Device) × (K.failures out.old < K.failures out.new))) }
    ensures unheard { IfErr result (λ f. HasNoPort options.entry.port f → out.new ≡ out.old) }
{
    let listener = listen(resources.threads, options.port)?;
    let (sheet, keeper) = open_kept_sheet(resources, name, options.sheet, meter)?;
    match tell_listening(options.port, out) {
        Ok(()) => {}
        Err(fault) => return Err(fault),
    }
    tell_page(resources.alloc, options.port, &mut messages);
    let mut warner = tell_opened(resources.alloc, name.path, &sheet, messages);
    let journal = keeper.into_journal();
    let asked = server_options(&listener, options);
    let closed = match serve_with_journal(resources, asked, sheet, journal, &mut warner) {
        Ok(closed) => closed,
        Err(Refusal::Device) => return Err(lost_file(resources.alloc, name)),
        Err(refusal) => return Err(ProgramFault::Refused(refusal)),
    };
    match tell_closed(&closed.sheet, out) {
        Ok(()) => Ok(closed),
        Err(fault) => Err(fault),
    }
}
