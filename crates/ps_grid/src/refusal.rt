//! Refusals: the reasons why calls fail.

ghost use Rattle.std.specs.Prelude.{◌≡◌};
ghost use Rattle.ps_grid.specs.declared.refusal.Refusal.TheVariants.{Memory};
ghost use Rattle.ps_grid.specs.Refusals.{name_of, number_of};

use std::alloc::{AllocError, AllocFailed};
use std::fmt;

/// Why a call was refused. A refused call changes nothing, unless the call's own comment says otherwise.
///
/// Each refusal has a number, from 1 on, and a name. `Display` writes the line that reports it, without the line feed:
/// `err`, the number and the name, such as `err 4 too-long`.
#[derive(Clone, Copy, Debug, PartialEq, Eq, PartialOrd, Ord, Hash)]
pub enum Refusal {
    /// 1: a text that names no cell of the grid.
    Cell,
    /// 2: a text entry that is empty, is too long, isn't UTF-8, or has a byte below 32 or a byte 127.
    Text,
    /// 3: an entry that begins like a formula, and isn't a formula by the grammar.
    Formula,
    /// 4: an entry, a canonical formula or a delta's line that is too long.
    TooLong,
    /// 5: a change of a tally (a counter) at a cell that holds none.
    NotTally,
    /// 6: a change of a choice (a set of options) at a cell that holds none.
    NotChoice,
    /// 7: an amount, added to a tally or subtracted from it, that is out of range.
    Amount,
    /// 8: an option of a choice that is out of range.
    OptionRange,
    /// 9: a word that is neither a replica's number, 1 to 32, nor a digest. Or a kept file of another replica.
    Replica,
    /// 10: an amount that would raise a replica's total in a tally above the greatest total.
    TallyFull,
    /// 11: an option to choose, when the replica has used its last sequence number in this choice.
    ChoiceFull,
    /// 12: the removal of an option that isn't chosen.
    NotChosen,
    /// 13: an assignment to a cell whose content already has the greatest time, so that no time is later.
    ClockFull,
    /// 14: bytes that aren't a delta's line, or a damaged line of a kept file.
    Delta,
    /// 15: a session line that is too long, or a server's reply that is missing or unexpected.
    Line,
    /// 16: a line that is no command.
    Command,
    /// 17: a word that is no version of the history, or a group size out of range.
    Version,
    /// 18: a table that is too large or malformed.
    Csv,
    /// 19: out of memory.
    Memory,
    /// 20: a reader or a writer that failed, or a kept file that another program uses.
    Device,
    /// 21: no free session slot. Or the sheet's published copies, from which sessions read, are gone or admit no more
    /// readers.
    Seat,
}

impl fmt::Display for Refusal {
    fn fmt<W: fmt::Write>(&self, f: &mut fmt::Formatter<W>) -> fmt::Result {
        write!(f, "err {} {}", self.number(), self.name())
    }
}

impl From<AllocError> for Refusal {
    ghost from_gives = { λ _ e. e ≡ Memory };

    fn from(_error: AllocError) -> Refusal {
        Refusal::Memory
    }
}

impl<T: Drop> From<AllocFailed<T>> for Refusal {
    ghost from_gives = { λ _ e. e ≡ Memory };

    fn from(_error: AllocFailed<T>) -> Refusal {
        Refusal::Memory
    }
}

impl Refusal {
    /// Returns the number of the refusal, 1 to 21.
    pub fn number(&self) -> u8
        ensures { result ≡ number_of self.now }
    {
        match self {
            Refusal::Cell => 1,
            Refusal::Text => 2,
            Refusal::Formula => 3,
            Refusal::TooLong => 4,
            Refusal::NotTally => 5,
            Refusal::NotChoice => 6,
            Refusal::Amount => 7,
            Refusal::OptionRange => 8,
            Refusal::Replica => 9,
            Refusal::TallyFull => 10,
            Refusal::ChoiceFull => 11,
            Refusal::NotChosen => 12,
            Refusal::ClockFull => 13,
            Refusal::Delta => 14,
            Refusal::Line => 15,
            Refusal::Command => 16,
            Refusal::Version => 17,
            Refusal::Csv => 18,
            Refusal::Memory => 19,
            Refusal::Device => 20,
            Refusal::Seat => 21,
        }
    }

    /// Returns the name of the refusal, such as `too-long`.
    pub fn name(&self) -> &'static str
        ensures { result.now ≡ name_of self.now }
    {
        match self {
            Refusal::Cell => "cell",
            Refusal::Text => "text",
            Refusal::Formula => "formula",
            Refusal::TooLong => "too-long",
            Refusal::NotTally => "not-tally",
            Refusal::NotChoice => "not-choice",
            Refusal::Amount => "amount",
            Refusal::OptionRange => "option",
            Refusal::Replica => "replica",
            Refusal::TallyFull => "tally-full",
            Refusal::ChoiceFull => "choice-full",
            Refusal::NotChosen => "not-chosen",
            Refusal::ClockFull => "clock-full",
            Refusal::Delta => "delta",
            Refusal::Line => "line",
            Refusal::Command => "command",
            Refusal::Version => "version",
            Refusal::Csv => "csv",
            Refusal::Memory => "memory",
            Refusal::Device => "device",
            Refusal::Seat => "seat",
        }
    }
}
