//! A replicated spreadsheet on the command line.
//!
//! The commands:
//!
//! - `sheet run` opens an empty sheet and answers each line of standard input on standard output.
//! - `sheet table` reads a table of CSV and writes the table of its shown values.
//! - `sheet serve` answers the lines of several connections, side by side and on one sheet, and shows it to browsers.
//! - `sheet sync` pushes all changes of one replica to another. Both replicas are served on this machine.
//! - `sheet join` merges the changes of each of two replicas at the other, once or until it is stopped. With `--check`
//!   it says whether both hold the same.
//! - `sheet follow` writes the changes of a replica as change lines.
//! - `sheet talk` sends each line of standard input to a server, and writes its replies.
//! - `sheet squash` makes few change lines of many delta lines.
//!
//! Nothing is stored from one start to the next, except in the file that `--keep` names.
//!
//! This crate connects the commands of `ps_commands` with the words of the command line, with standard input, output
//! and error, and with the exit status. The contracts of `ps_commands` say what each command does.
//!
//! The exit status is 0 if all went well, and 2 if the command line is refused. It is 1 if a device failed, a port or a
//! file can't be used, or another program has the file. It is 3 for any other refusal, and if `sheet join --check`
//! finds a difference. A line that `sheet run` refuses makes it 3 only with `--strict`.
//!
//! With `set A1 5` and `get A1` on standard input, `sheet run` writes `ok 1` and `val 5`. With
//! `2,=[.A1]*3`, `sheet table` writes `2,6`.
//!
//! Cost: that of the lines of the sessions; of an import and an export for `sheet table`.
#![tactic(auto)]

ghost use Rattle.std.specs.Prelude.{◌≡◌, ◌<◌};
ghost use Rattle.ps_grid.specs.Blanks.{IsBlankOf};

mod terminal;

use crate::terminal::ShownOutput;
use clap::Error;
use clap::error::ErrorKind;
use ps_commands::{
    BrokenConnection, Input, KeptName, KeptObserver, Observer, Ports, ProgramFault, answer_kept,
    answer_lines, check_on, connection_fault, follow_on, join_on, join_once_on, join_pipe_on,
    leave_unfreed, lost_file, open_kept_sheet, port_fault, relay_on, serve, serve_kept,
    squash_kept, squash_on, squash_part_on, status_of, sync_on, table_on, talk_on, tell_left_out,
    tell_opened,
};
use ps_device::{ConsoleOutput, Reading, Sink, Writing};
use ps_eval::Meter;
use ps_grid::Refusal;
use ps_keep::FailureReason;
use ps_server::{Closed, Counts};
use ps_session::{HeldOutput, Resources};
use ps_words::{
    JoinOptions, Options, PAGE_IS_GONE, RunOptions, ServeOptions, TableOptions, TalkOptions,
    asks_for_page, read_words,
};
use std::fs::File;
use std::io;
use std::io::{IsTerminal, PipeReader, Stderr, Stdout, Write, pipe};
use std::marker::Brand;
use std::net::{Net, TcpListener, TcpStream};
use std::os::fd::{AsRawFd, RawFd};
use std::process::ExitCode;
use std::rt::Files;
use std::sync::Wait;
use std::sync::ledger::{Blank, Ledger};
use std::thread::Threads;
use std::time::Clock;

/// The descriptor of standard error.
const LAST_STREAM: RawFd = 2;

/// Runs the command that the words name, and reports what ends it early.
fn main(rt: HostRuntime) -> ExitCode {
    // before anything else is opened, and until the end
    let _held = [held_end(&rt), held_end(&rt), held_end(&rt)];
    match start(&rt, &rt) {
        Ok(code) => code,
        Err(fault) => report(&rt, &fault),
    }
}

/// Returns an end of a pipe that takes the first closed descriptor of 0 to 2, if one of them is closed. So no file and
/// no connection becomes standard input, output or error. Reading such an end is at its end at once, and writing to it
/// fails.
fn held_end(rt: &HostRuntime) -> Option<PipeReader> {
    let Ok((reader, writer)) = pipe(rt) else {
        return None;
    };
    drop(writer);
    if reader.as_raw_fd() <= LAST_STREAM {
        Some(reader)
    } else {
        None
    }
}

/// Reads the words and runs their command.
fn start<
    R: Files<File = File>
        + Net<Listener = TcpListener, Stream = TcpStream>
        + Threads
        + Wait
        + Clock
        + Sync,
>(rt: &HostRuntime, threads: &R) -> Result<ExitCode, ProgramFault> {
    let given = match std::env::args(rt) {
        Ok(given) => given,
        Err(error) => return unread_words(rt, &error),
    };
    let words: Vec<String> = given.collect(rt.alloc())?;
    if asks_for_page(words.as_slice()) {
        return tell_gone(rt);
    }
    match read_words(rt.alloc(), words.as_slice()) {
        Ok(options) => run_command(rt, threads, options),
        Err(error) => tell(rt, &error),
    }
}

/// Words that aren't text are a fault of the command line, as `clap` has it.
fn unread_words(rt: &HostRuntime, error: &io::Error) -> Result<ExitCode, ProgramFault> {
    if error.kind() == io::ErrorKind::OutOfMemory {
        return Err(ProgramFault::Refused(Refusal::Memory));
    }
    match eprintln!(rt; "error: invalid UTF-8 was detected in one or more arguments") {
        Ok(()) => Ok(ExitCode::from(2)),
        Err(_) => Err(ProgramFault::Refused(Refusal::Device)),
    }
}

/// Tells whoever asks for the command `page` of earlier versions where the page is.
fn tell_gone(rt: &HostRuntime) -> Result<ExitCode, ProgramFault> {
    match eprintln!(rt; "{PAGE_IS_GONE}") {
        Ok(()) => Ok(ExitCode::from(2)),
        Err(_) => Err(ProgramFault::Refused(Refusal::Device)),
    }
}

/// Prints what `clap` says: the help, or what is wrong with the command line.
fn tell(rt: &HostRuntime, error: &Error) -> Result<ExitCode, ProgramFault> {
    if error.kind() == ErrorKind::OutOfMemory {
        return Err(ProgramFault::Refused(Refusal::Memory));
    }
    if error.print(rt).is_err() {
        return Err(ProgramFault::Refused(Refusal::Device));
    }
    if error.use_stderr() {
        return Ok(ExitCode::from(2));
    }
    Ok(ExitCode::SUCCESS)
}

/// Runs a command on standard input and output, and reports what ends it early.
fn run_command<
    R: Files<File = File>
        + Net<Listener = TcpListener, Stream = TcpStream>
        + Threads
        + Wait
        + Clock
        + Sync,
>(rt: &HostRuntime, threads: &R, options: Options<'_>) -> Result<ExitCode, ProgramFault> {
    let counts = Counts::new();
    let broken = BrokenConnection::new();
    let ports = Ports {
        rt: threads,
        broken: &broken,
    };
    let done = match options {
        Options::Join(options) if options.check => {
            check_ends::<R, Brand>(rt, ports, counts, options)
        }
        _ => match on_standard::<R, Brand, Brand, Brand, Brand>(rt, ports, counts, options) {
            Ok(()) => Ok(ExitCode::SUCCESS),
            Err(fault) => Err(fault),
        },
    };
    match done {
        Ok(code) => Ok(code),
        Err(fault) => Ok(report_command(rt, &fault, &broken)),
    }
}

/// Compares two replicas, and returns the exit status that says whether they hold the same.
fn check_ends<R: Net<Stream = TcpStream>, O: Ledger>(
    rt: &HostRuntime,
    ports: Ports<'_, R>,
    counts: Counts,
    options: JoinOptions,
) -> Result<ExitCode, ProgramFault>
    requires output { IsBlankOf counts.output O.name O.parts }
{
    let mut sink = console::<O>(rt, counts.output)?;
    let status = check_on(ports, rt.alloc(), options, &mut sink)?;
    Ok(ExitCode::from(status))
}

/// Reports what ended the program early. If a port can't be used, a second line says why.
fn report(rt: &HostRuntime, fault: &ProgramFault) -> ExitCode {
    let _ = eprintln!(rt; "{fault}");
    if let Some(port) = port_fault(fault) {
        let _ = eprintln!(rt; "{port}");
    }
    ExitCode::from(status_of(fault))
}

/// Reports what ended a command early. If a connection did, a line below says which one, and why.
fn report_command(rt: &HostRuntime, fault: &ProgramFault, broken: &BrokenConnection) -> ExitCode {
    let code = report(rt, fault);
    if let Some(connection) = connection_fault(fault, broken) {
        let _ = eprintln!(rt; "{connection}");
    }
    code
}

/// Runs a command on standard input and output. The blanks of `counts` count its failures and its work.
///
/// The replies of `run` wait in memory and are written before the next read. So a batch of lines costs one write for
/// each piece of the input, and a peer that waits for a reply gets it. A table waits nowhere.
fn on_standard<
    R: Files<File = File>
        + Net<Listener = TcpListener, Stream = TcpStream>
        + Threads
        + Wait
        + Clock
        + Sync,
    I: Ledger,
    O: Ledger,
    H: Ledger,
    M: Ledger,
>(
    rt: &HostRuntime,
    ports: Ports<'_, R>,
    counts: Counts,
    options: Options<'_>,
) -> Result<(), ProgramFault>
    requires input { IsBlankOf counts.input I.name I.parts }
    requires output { IsBlankOf counts.output O.name O.parts }
    requires held { IsBlankOf counts.held H.name H.parts }
    requires evaluations { IsBlankOf counts.evaluations M.name M.parts }
{
    let threads = ports.rt;
    match options {
        Options::Run(options) => match options.keep {
            Some(path) => run_kept::<R, I, O, H, M>(rt, threads, counts, options, path),
            None => run_lines::<R, I, O, M>(rt, threads, counts, options),
        },
        Options::Table(options) => put_table::<R, I, O, M>(rt, threads, counts, options),
        Options::Serve(options) => {
            let mut sink = console::<O>(rt, counts.output)?;
            let mut meter = Meter::<M>::new(counts.evaluations);
            let done = serve_sessions(rt, threads, &mut sink, &mut meter, options);
            meter.end();
            done
        }
        Options::Sync(options) => {
            let mut sink = console::<O>(rt, counts.output)?;
            sync_on(ports, rt.alloc(), options, &mut sink)
        }
        Options::Join(options) if options.once => {
            let mut sink = console::<O>(rt, counts.output)?;
            join_once_on(ports, rt.alloc(), options, &mut sink)
        }
        Options::Join(options) => Err(join_on(ports, rt.alloc(), options, rt.stderr())),
        Options::Pipe(options) => {
            let source = Reading::<_, I>::new(rt.reader(), counts.input);
            let file = rt.stdin().as_raw_fd();
            let sink = console::<O>(rt, counts.output)?;
            join_pipe_on(
                ports,
                rt.alloc(),
                options,
                Input { source, file },
                sink,
                rt.stderr(),
            )
        }
        Options::Relay(options) => {
            let source = Reading::<_, I>::new(rt.reader(), counts.input);
            let file = rt.stdin().as_raw_fd();
            let mut sink = console::<O>(rt, counts.output)?;
            relay_on(
                ports,
                rt.alloc(),
                options,
                Input { source, file },
                &mut sink,
                rt.stderr(),
            )
        }
        Options::Follow(options) => {
            let mut sink = console::<O>(rt, counts.output)?;
            follow_on(ports, rt.alloc(), options, &mut sink)
        }
        Options::Talk(options) => talk_lines::<R, I, O>(rt, ports, counts, options),
        Options::Squash(options) => match options.keep {
            Some(path) => {
                let mut meter = Meter::<M>::new(counts.evaluations);
                let done = squash_kept(
                    *rt,
                    resources_of(rt, threads),
                    path,
                    &mut meter,
                    &mut rt.stderr(),
                );
                meter.end();
                done
            }
            None => {
                let mut source = Reading::<_, I>::new(rt.reader(), counts.input);
                let mut sink = Writing::<_, O>::new(shown_output(rt), counts.output);
                if options.until.is_none() && options.without.is_none() {
                    return squash_on(rt.alloc(), &mut source, &mut sink);
                }
                let left_out = squash_part_on(rt.alloc(), &mut source, &mut sink, options)?;
                tell_left_out(rt.alloc(), options, left_out, &mut rt.stderr());
                Ok(())
            }
        },
    }
}

/// Returns standard output, whose bytes wait in memory until a flush. `output` counts its failures. Fails out of
/// memory.
fn console<O: Ledger>(
    rt: &HostRuntime,
    output: Blank,
) -> Result<ConsoleOutput<ShownOutput<Stdout>, O>, Refusal>
    requires { IsBlankOf output O.name O.parts }
{
    ConsoleOutput::new(rt.alloc(), shown_output(rt), output)
}

/// Returns standard output, which spells control characters out at a terminal.
fn shown_output(rt: &HostRuntime) -> ShownOutput<Stdout> {
    let stdout = rt.stdout();
    let is_terminal = stdout.is_terminal();
    ShownOutput::new(stdout, is_terminal)
}

/// Returns standard error for hints, which repeat what others typed or sent: with control characters as text if it is a
/// terminal.
fn shown_error(rt: &HostRuntime) -> ShownOutput<Stderr> {
    let stderr = rt.stderr();
    let is_terminal = stderr.is_terminal();
    ShownOutput::new(stderr, is_terminal)
}

/// Returns what the commands work with: these threads, and the memory of the program.
fn resources_of<'a, R>(rt: &HostRuntime, threads: &'a R) -> Resources<'a, R> {
    Resources {
        threads,
        alloc: rt.alloc(),
    }
}

/// Returns whether hints are written: if `asked`, or if standard input and standard error are terminals.
fn is_explained(rt: &HostRuntime, asked: bool) -> bool {
    asked || (rt.stdin().is_terminal() && rt.stderr().is_terminal())
}

/// Answers the lines of standard input on standard output, with hints on standard error.
fn run_lines<R: Threads + Sync, I: Ledger, O: Ledger, M: Ledger>(
    rt: &HostRuntime,
    threads: &R,
    counts: Counts,
    options: RunOptions<'_>,
) -> Result<(), ProgramFault>
    requires input { IsBlankOf counts.input I.name I.parts }
    requires output { IsBlankOf counts.output O.name O.parts }
    requires evaluations { IsBlankOf counts.evaluations M.name M.parts }
{
    let mut source = Reading::<_, I>::new(rt.reader(), counts.input);
    let mut sink = console::<O>(rt, counts.output)?;
    let told = is_explained(rt, options.explain).then_some(shown_error(rt));
    let mut observer = Observer::new(rt.alloc(), told);
    let mut meter = Meter::<M>::new(counts.evaluations);
    let done = answer_lines(
        resources_of(rt, threads),
        &mut source,
        &mut sink,
        &mut meter,
        options.sheet,
        &mut observer,
    );
    meter.end();
    match done {
        Ok(()) => observer.end(options.strict),
        Err(fault) => Err(fault),
    }
}

/// Answers the lines of standard input on standard output by the sheet of a file. Standard error gets the opened file,
/// hints and a warning. `path` is what `options.keep` has, so that there is one.
fn run_kept<R: Files<File = File> + Threads + Sync, I: Ledger, O: Ledger, H: Ledger, M: Ledger>(
    rt: &HostRuntime,
    threads: &R,
    counts: Counts,
    options: RunOptions<'_>,
    path: &str,
) -> Result<(), ProgramFault>
    requires input { IsBlankOf counts.input I.name I.parts }
    requires output { IsBlankOf counts.output O.name O.parts }
    requires held { IsBlankOf counts.held H.name H.parts }
    requires evaluations { IsBlankOf counts.evaluations M.name M.parts }
{
    let resources = resources_of(rt, threads);
    let reason = FailureReason::new(rt.alloc())?;
    let name = KeptName {
        system: *rt,
        path,
        reason: &reason,
    };
    let mut meter = Meter::<M>::new(counts.evaluations);
    let opened = open_kept_sheet(resources, name, options.sheet, &mut meter);
    let (sheet, mut keeper) = match opened {
        Ok(opened) => opened,
        Err(fault) => {
            meter.end();
            return Err(fault);
        }
    };
    let warner = tell_opened(rt.alloc(), path, &sheet, shown_error(rt));
    let mut source = Reading::<_, I>::new(rt.reader(), counts.input);
    let writing = Writing::<_, O>::new(shown_output(rt), counts.output);
    let mut sink = HeldOutput::<_, H>::new(rt.alloc(), writing, counts.held);
    let told = is_explained(rt, options.explain).then_some(shown_error(rt));
    let mut observer = KeptObserver::new(Observer::new(rt.alloc(), told), warner);
    let done = answer_kept(
        resources,
        &mut source,
        &mut sink,
        sheet,
        &mut keeper,
        &mut meter,
        &mut observer,
    );
    meter.end();
    let is_lost = keeper.into_journal().is_stopped();
    match done {
        Ok(()) => observer.end(options.strict),
        Err(_) if is_lost => Err(lost_file(rt.alloc(), name)),
        Err(fault) => Err(fault),
    }
}

/// Serves sessions over TCP on an empty sheet, or on the one that a file keeps, and tells on standard error what was
/// opened, and a warning.
fn serve_sessions<
    R: Files<File = File>
        + Net<Listener = TcpListener, Stream = TcpStream>
        + Threads
        + Wait
        + Clock
        + Sync,
    K: Sink,
    M: Ledger,
>(
    rt: &HostRuntime,
    threads: &R,
    out: &mut K,
    meter: &mut Meter<M>,
    options: ServeOptions<'_>,
) -> Result<(), ProgramFault> {
    let resources = resources_of(rt, threads);
    match options.keep {
        Some(path) => {
            let reason = FailureReason::new(rt.alloc())?;
            let name = KeptName {
                system: *rt,
                path,
                reason: &reason,
            };
            let closed = serve_kept(resources, options, name, out, rt.stderr(), meter)?;
            let Closed { sheet, .. } = closed;
            leave_unfreed(sheet);
        }
        None => {
            let closed = serve(resources, options, out, rt.stderr())?;
            let Closed { sheet, .. } = closed;
            leave_unfreed(sheet);
        }
    }
    Ok(())
}

/// Asks a server the lines of standard input, and writes its replies on standard output, with hints on standard error.
fn talk_lines<R: Net<Stream = TcpStream>, I: Ledger, O: Ledger>(
    rt: &HostRuntime,
    ports: Ports<'_, R>,
    counts: Counts,
    options: TalkOptions,
) -> Result<(), ProgramFault>
    requires input { IsBlankOf counts.input I.name I.parts }
    requires output { IsBlankOf counts.output O.name O.parts }
{
    let source = Reading::<_, I>::new(rt.reader(), counts.input);
    let mut sink = console::<O>(rt, counts.output)?;
    let told = is_explained(rt, options.explain).then_some(shown_error(rt));
    let mut observer = Observer::new(rt.alloc(), told);
    talk_on(ports, rt.alloc(), options, source, &mut sink, &mut observer)
}

/// Takes in the table of standard input, and writes that of its sheet on standard output; then hints on standard error.
fn put_table<R: Threads + Sync, I: Ledger, O: Ledger, M: Ledger>(
    rt: &HostRuntime,
    threads: &R,
    counts: Counts,
    options: TableOptions,
) -> Result<(), ProgramFault>
    requires input { IsBlankOf counts.input I.name I.parts }
    requires output { IsBlankOf counts.output O.name O.parts }
    requires evaluations { IsBlankOf counts.evaluations M.name M.parts }
{
    let mut meter = Meter::<M>::new(counts.evaluations);
    let told = is_explained(rt, options.explain).then_some(Vec::new(rt.alloc()));
    let mut observer = Observer::new(rt.alloc(), told);
    let mut source = Reading::<_, I>::new(rt.reader(), counts.input);
    let mut sink = Writing::<_, O>::new(shown_output(rt), counts.output);
    let done = table_on(
        resources_of(rt, threads),
        &mut source,
        &mut sink,
        &mut meter,
        options,
        &mut observer,
    );
    meter.end();
    if let Some(text) = observer.into_out() {
        let _ = shown_error(rt).write_all(&text);
    }
    done
}
