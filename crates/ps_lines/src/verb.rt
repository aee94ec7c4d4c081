//! Verbs: the first words of the lines that a session answers.
ghost use Rattle.std.specs.Prelude.{◌≡◌, Contains, Some};
ghost use Rattle.ps_lines.specs.Commands.{verb_of};

// The word of each verb, for reading and for writing lines.
const GET: &str = "get";

const SET: &str = "set";

const ADD: &str = "add";

const SUB: &str = "sub";

const CHOOSE: &str = "choose";

const UNCHOOSE: &str = "unchoose";

const ROWS: &str = "rows";

const ENTRY: &str = "entry";

const ENTRIES: &str = "entries";

pub(crate) const PUSH: &str = "push";

const MERGE: &str = "merge";

/// The word of [`Verb::Pull`], for clients that write a `pull` line to a peer.
pub const PULL: &str = "pull";

pub(crate) const REPLICA: &str = "replica";

/// The word of [`Verb::Wait`], for clients that write a `wait` line, and for sessions that look for a `wait` line in
/// their input.
pub const WAIT: &str = "wait";

/// What a line asks for, by its first word.
#[derive(Clone, Copy, Debug)]
pub enum Verb {
    /// `get`: show a cell.
    Get,
    /// `set`: assign what an entry stands for to a cell.
    Set,
    /// `add`: add an amount to a counter.
    Add,
    /// `sub`: take an amount from a counter.
    Sub,
    /// `choose`: put an option into a set.
    Choose,
    /// `unchoose`: take an option out of a set.
    Unchoose,
    /// `rows`: show a rectangle.
    Rows,
    /// `entry`: return the entry of a cell.
    Entry,
    /// `entries`: return the entries of a rectangle.
    Entries,
    /// `push`: take in a delta.
    Push,
    /// `merge`: take in only the parts of a delta that are new to the sheet.
    Merge,
    /// `pull`: return deltas.
    Pull,
    /// `replica`: return the number of the sheet's own replica.
    Replica,
    /// `wait`: wait for more changes, and return the version.
    Wait,
}

impl Verb {
    /// Returns all verbs.
    pub fn all() -> [Verb; 14]
        ensures { (verb : Verb) → Contains result verb }
    {
        [
            Verb::Get,
            Verb::Set,
            Verb::Add,
            Verb::Sub,
            Verb::Choose,
            Verb::Unchoose,
            Verb::Rows,
            Verb::Entry,
            Verb::Entries,
            Verb::Push,
            Verb::Merge,
            Verb::Pull,
            Verb::Replica,
            Verb::Wait,
        ]
    }

    /// Returns the word of the verb.
    #[tactic(auto, unfolding(crate::specs::Commands::verb_of))]
    pub fn name(self) -> &'static str
        ensures { verb_of result.now ≡ Some self }
    {
        match self {
            Verb::Get => GET,
            Verb::Set => SET,
            Verb::Add => ADD,
            Verb::Sub => SUB,
            Verb::Choose => CHOOSE,
            Verb::Unchoose => UNCHOOSE,
            Verb::Rows => ROWS,
            Verb::Entry => ENTRY,
            Verb::Entries => ENTRIES,
            Verb::Push => PUSH,
            Verb::Merge => MERGE,
            Verb::Pull => PULL,
            Verb::Replica => REPLICA,
            Verb::Wait => WAIT,
        }
    }

    /// Returns the verb that a word names; `None` for any other word.
    #[inline(always)]
    #[tactic(auto, unfolding(crate::specs::Commands::verb_of))]
    pub fn read(word: &[u8]) -> Option<Verb>
        ensures { result ≡ verb_of word.now }
    {
        if word == GET.as_bytes() {
            Some(Verb::Get)
        } else if word == SET.as_bytes() {
            Some(Verb::Set)
        } else if word == ADD.as_bytes() {
            Some(Verb::Add)
        } else if word == SUB.as_bytes() {
            Some(Verb::Sub)
        } else if word == CHOOSE.as_bytes() {
            Some(Verb::Choose)
        } else if word == UNCHOOSE.as_bytes() {
            Some(Verb::Unchoose)
        } else if word == ROWS.as_bytes() {
            Some(Verb::Rows)
        } else if word == ENTRY.as_bytes() {
            Some(Verb::Entry)
        } else if word == ENTRIES.as_bytes() {
            Some(Verb::Entries)
        } else if word == PUSH.as_bytes() {
            Some(Verb::Push)
        } else if word == MERGE.as_bytes() {
            Some(Verb::Merge)
        } else if word == PULL.as_bytes() {
            Some(Verb::Pull)
        } else if word == REPLICA.as_bytes() {
            Some(Verb::Replica)
        } else if word == WAIT.as_bytes() {
            Some(Verb::Wait)
        } else {
            None
        }
    }
}
