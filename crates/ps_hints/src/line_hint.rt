//! What a hint says about the words of a line, about what the sheet refuses, and about the records of a table.

use crate::case::{Capitals, Small};
use ps_grid::REPLICAS;
use ps_lattice::{AMOUNT_LIMIT, COUNT_LIMIT, OPTIONS, SEQUENCES};
use ps_lines::Verb;
use std::fmt;

/// A hint about a line whose words are refused or that the sheet refuses, or about a record of a table.
#[derive(Clone, Copy, Debug)]
pub enum LineHint<'a> {
    /// A cell's name, or a corner of a rectangle, that has small letters.
    InCapitals(&'a str),
    /// A verb (the first word of a line) that has capitals.
    InSmall(&'a str),
    /// A first word that is no verb.
    UnknownVerb(&'a str),
    /// A line without a verb.
    NoVerb,
    /// A line with this verb and too few or too many words.
    Form(Verb),
    /// A space too many: at an end of the line, or after another space.
    Spaces,
    /// A word that names no cell of the grid.
    NoCell,
    /// A cell with a bracket or a dollar sign.
    PlainCell,
    /// A word that is no rectangle.
    NoRectangle,
    /// A word that is no amount in range.
    Amount,
    /// An amount or an option with a point.
    Point(&'a str),
    /// An amount with a sign.
    Negative,
    /// A word that is no option in range.
    OptionRange,
    /// A cell that has no counter.
    NoTally(&'a str),
    /// A cell that has no set.
    NoChoice(&'a str),
    /// A counter in which this replica's count has reached its limit.
    TallyFull,
    /// A set in which this replica has chosen as often as it may.
    ChoiceFull,
    /// An option that isn't in the set.
    NotChosen,
    /// A cell whose register has the last time that there is, so it can't be set again.
    ClockFull,
    /// A `push` or `merge` whose argument isn't the line of a delta.
    NoDelta,
    /// A `push` or `merge` with a whole reply to `pull`, instead of only the delta's line that the reply contains.
    WholeReply,
    /// A delta that is too long for a line.
    LongDelta,
    /// A line that is too long.
    LongLine,
    /// A version that doesn't exist, or a number of deltas out of range.
    NoVersion,
    /// A word that is no replica's number.
    Replica,
    /// A table with more than this many records.
    Records(usize),
    /// A record with more than this many fields.
    Fields(usize),
    /// A line that was refused because memory ran out. It may be sent again.
    NoMemory,
    /// A refusal whose cause isn't in the line itself.
    Outside,
}

/// Returns how a line of a verb is written.
fn form_of(verb: Verb) -> &'static str {
    match verb {
        Verb::Get => "get <cell>",
        Verb::Set => "set <cell> <entry>",
        Verb::Add => "add <cell> <amount>",
        Verb::Sub => "sub <cell> <amount>",
        Verb::Choose => "choose <cell> <option>",
        Verb::Unchoose => "unchoose <cell> <option>",
        Verb::Rows => "rows <cell>:<cell>",
        Verb::Entry => "entry <cell>",
        Verb::Entries => "entries <cell>:<cell>",
        Verb::Push => "push <delta line>",
        Verb::Merge => "merge <delta line>",
        Verb::Pull => "pull <from> or pull <from> <most>",
        Verb::Replica => "replica or replica <number>",
        Verb::Wait => "wait <number>",
    }
}

/// Writes all verbs.
fn write_verbs<W: fmt::Write>(f: &mut fmt::Formatter<W>) -> fmt::Result {
    let mut separator = "";
    for verb in Verb::all() {
        write!(f, "{separator}{}", verb.name())?;
        separator = ", ";
    }
    Ok(())
}

impl fmt::Display for LineHint<'_> {
    fn fmt<W: fmt::Write>(&self, f: &mut fmt::Formatter<W>) -> fmt::Result {
        match *self {
            LineHint::InCapitals(word) => write!(f, "{word} is written {}", Capitals(word)),
            LineHint::InSmall(word) => write!(f, "{word} is written {}", Small(word)),
            LineHint::UnknownVerb(word) => {
                write!(f, "{word} is no verb; the verbs are ")?;
                write_verbs(f)
            }
            LineHint::NoVerb => {
                f.write_str("a line begins with a verb: ")?;
                write_verbs(f)
            }
            LineHint::Form(verb) => write!(f, "it is written {}", form_of(verb)),
            LineHint::Spaces => {
                f.write_str("one space stands between two words, and none at the end")
            }
            LineHint::NoCell => f.write_str("cells are A1 to CZ1024"),
            LineHint::PlainCell => f.write_str("a cell is written A1, without brackets and $"),
            LineHint::NoRectangle => f.write_str("a rectangle is written A1:B2"),
            LineHint::Amount => write!(f, "amounts are 1 to {AMOUNT_LIMIT}"),
            LineHint::Point(number) => write!(f, "{number}: numbers are whole"),
            LineHint::Negative => f.write_str("amounts have no sign; sub takes away"),
            LineHint::OptionRange => write!(f, "options are 0 to {}", OPTIONS - 1),
            LineHint::NoTally(cell) => write!(f, "set {cell} @tally makes it a counter"),
            LineHint::NoChoice(cell) => write!(f, "set {cell} @choice makes it a set"),
            LineHint::TallyFull => write!(f, "this replica's count ends at {COUNT_LIMIT}"),
            LineHint::ChoiceFull => {
                write!(f, "this replica has chosen {SEQUENCES} times in this cell")
            }
            LineHint::NotChosen => f.write_str("the option isn't in the cell"),
            LineHint::ClockFull => f.write_str("the cell has been set to its last time"),
            LineHint::NoDelta => f.write_str("the line of a delta is [[\"A1\",[1,1,\"5\"],[],[]]]"),
            LineHint::WholeReply => {
                f.write_str("of a reply to pull only what follows its number is pushed")
            }
            LineHint::LongDelta => f.write_str("no line holds that delta"),
            LineHint::LongLine => f.write_str("nothing of so long a line is carried out"),
            LineHint::NoVersion => {
                f.write_str("pull has a version that there is, and at most 16 deltas")
            }
            LineHint::Replica => write!(f, "replicas are 1 to {REPLICAS}"),
            LineHint::Records(most) => write!(f, "a table has at most {most} records"),
            LineHint::Fields(most) => write!(f, "a record has at most {most} fields"),
            LineHint::NoMemory => f.write_str("memory ran out; the line may be sent again"),
            LineHint::Outside => f.write_str("nothing of the line is the cause"),
        }
    }
}
