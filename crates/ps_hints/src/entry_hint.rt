//! What a hint says about an entry, apart from the grammar of formulas.

use crate::habit::Habit;
use std::fmt;

/// A hint about an entry that was refused for its bytes or its length, or that became a text.
#[derive(Clone, Copy, Debug)]
pub enum EntryHint<'a> {
    /// An entry, or a text, that is too long: the number of its bytes, and the most that it may have.
    TooLong(usize, usize),
    /// A control character, which no text may have.
    Control(u8),
    /// Bytes that aren't UTF-8.
    NotUtf8,
    /// A text without any byte.
    Empty,
    /// An entry that became a text, and why.
    Kept(&'a str, Habit),
}

impl fmt::Display for EntryHint<'_> {
    fn fmt<W: fmt::Write>(&self, f: &mut fmt::Formatter<W>) -> fmt::Result {
        match self {
            EntryHint::TooLong(bytes, most) => write!(f, "{bytes} bytes of at most {most}"),
            EntryHint::Control(b'\t') => f.write_str("a text has no tab"),
            EntryHint::Control(byte) => write!(f, "a text has no byte {byte}"),
            EntryHint::NotUtf8 => f.write_str("a text is UTF-8"),
            EntryHint::Empty => f.write_str("a text has one byte at least"),
            EntryHint::Kept(entry, Habit::Blank) => {
                write!(f, "\"{entry}\" is kept as a text: {}", Habit::Blank)
            }
            EntryHint::Kept(entry, habit) => write!(f, "{entry} is kept as a text: {habit}"),
        }
    }
}
