//! The faults that end the program before its work is done.
ghost use Rattle.std.specs.Prelude.{◌≡◌};
ghost use Rattle.ps_grid.specs.declared.refusal.Refusal.TheVariants.{Device, Memory};
ghost use Rattle.ps_commands.specs.Status.{exit_status, program_fault, session_fault, sync_fault};
ghost use Rattle.ps_commands.specs.declared.fault.ProgramFault.TheVariants.{PortFailed, Refused};

use crate::kept::FileNotTaken;
use crate::port::PortFault;
use ps_csv::ImportFault;
use ps_device::Failed;
use ps_grid::Refusal;
use ps_join::JoinFault;
use ps_peers::SyncFault;
use ps_session::RunFault;
use std::alloc::AllocError;
use std::fmt;
use thiserror::Error;

/// A text of another program, with each control character as `\u{..}`: so it can't command the terminal that shows it.
#[derive(Clone, Copy)]
pub(crate) struct Spelled<'a>(pub &'a str);

impl fmt::Display for Spelled<'_> {
    fn fmt<W: fmt::Write>(&self, f: &mut fmt::Formatter<W>) -> fmt::Result {
        for c in self.0.chars() {
            if c.is_control() {
                write!(f, "\\u{{{:x}}}", u32::from(c))?;
            } else {
                write!(f, "{c}")?;
            }
        }
        Ok(())
    }
}

/// A fault that ended the program. Its text is for standard error, without the last line feed. It is mostly one line,
/// `err` with a refusal's number and name; a variant says so if it has another text.
#[derive(Debug, Drop, Error)]
pub enum ProgramFault {
    /// A call was refused, with this refusal.
    #[error("{0}")]
    Refused(Refusal),
    /// The reader of the crate `csv` failed on a table, with this error. The text is that of the refusal `Csv`.
    #[error("{}", Refusal::Csv)]
    ReaderFailed(csv::Error),
    /// A peer refused a request. The text is its reply, with each control character spelled out.
    #[error("{}", Spelled(.0.as_str()))]
    PeerRefused(String),
    /// This many lines of a session with `--strict` were refused. The text is `refused lines: ` and the number.
    #[error("refused lines: {0}")]
    LinesRefused(u64),
    /// The line with this number, counted from 1, is no delta line. The text is that of the refusal `Delta`, with a
    /// second line, `line` and the number.
    #[error("{}\nline {}", Refusal::Delta, .0)]
    DeltaRefused(u64),
    /// A port of this machine can't be used. The text is that of the refusal `Device`.
    #[error("{}", Refusal::Device)]
    PortFailed(PortFault),
    /// A file can't store the sheet, or no longer can. The text is that of [`FileNotTaken`].
    #[error("{0}")]
    KeptFailed(FileNotTaken),
}

impl From<Refusal> for ProgramFault {
    ghost from_gives = { λ refusal fault. fault ≡ Refused refusal };

    fn from(refusal: Refusal) -> ProgramFault {
        ProgramFault::Refused(refusal)
    }
}

impl From<AllocError> for ProgramFault {
    ghost from_gives = { λ _ fault. fault ≡ Refused Memory };

    fn from(_error: AllocError) -> ProgramFault {
        ProgramFault::Refused(Refusal::Memory)
    }
}

impl From<Failed> for ProgramFault {
    ghost from_gives = { λ _ fault. fault ≡ Refused Device };

    fn from(_failed: Failed) -> ProgramFault {
        ProgramFault::Refused(Refusal::Device)
    }
}

impl From<PortFault> for ProgramFault {
    ghost from_gives = { λ port fault. fault ≡ PortFailed port };

    fn from(port: PortFault) -> ProgramFault {
        ProgramFault::PortFailed(port)
    }
}

impl From<SyncFault> for ProgramFault {
    ghost from_gives = { λ fault e. e ≡ sync_fault fault };

    fn from(fault: SyncFault) -> ProgramFault {
        match fault {
            SyncFault::Refused(refusal) => ProgramFault::Refused(refusal),
            SyncFault::PeerRefused(reply) => ProgramFault::PeerRefused(reply),
            SyncFault::Closed => ProgramFault::Refused(Refusal::Line),
        }
    }
}

impl From<JoinFault> for ProgramFault {
    ghost from_gives = { λ fault e. e ≡ sync_fault fault.fault };

    fn from(fault: JoinFault) -> ProgramFault {
        let JoinFault { fault, .. } = fault;
        ProgramFault::from(fault)
    }
}

impl From<RunFault> for ProgramFault {
    ghost from_gives = { λ fault e. e ≡ session_fault fault };

    fn from(fault: RunFault) -> ProgramFault {
        match fault {
            RunFault::Memory => ProgramFault::Refused(Refusal::Memory),
            RunFault::Source | RunFault::Sink | RunFault::Keep => {
                ProgramFault::Refused(Refusal::Device)
            }
        }
    }
}

/// Returns the fault for an import that failed: `ReaderFailed` if the import fault has an error of `csv`'s reader, else
/// `Refused`.
pub fn fault_of_import(fault: ImportFault) -> ProgramFault
    ensures { result ≡ program_fault fault.reader_error fault.refusal }
{
    match fault.reader_error {
        Some(error) => ProgramFault::ReaderFailed(error),
        None => ProgramFault::Refused(fault.refusal),
    }
}

/// Returns the program's exit status for this fault: 1 if a device failed, if a port can't be used, or if
/// [`FileNotTaken::status`] is 1. For any other fault it is 3.
pub fn status_of(fault: &ProgramFault) -> u8
    ensures { result ≡ exit_status fault.now }
{
    match fault {
        ProgramFault::Refused(Refusal::Device) | ProgramFault::PortFailed(_) => 1,
        ProgramFault::KeptFailed(fault) => fault.status(),
        ProgramFault::Refused(_)
        | ProgramFault::ReaderFailed(_)
        | ProgramFault::PeerRefused(_)
        | ProgramFault::LinesRefused(_)
        | ProgramFault::DeltaRefused(_) => 3,
    }
}
