//! Reads a line as a command: what the line asks for.
ghost use Rattle.std.specs.Prelude.{◌≡◌, ◌≢◌, ◌∷◌, [], ℕ, Err, List, Ok, Some};
ghost use Rattle.std.specs.Option.{ok_or};
ghost use Rattle.ps_lines.specs.Words.{after_word, parts, whole_number, words};
ghost use Rattle.ps_lines.specs.Commands.{AtCell, ReadsCorners, ReadsLine, ReadsOneCell, ReadsPair, ReadsPull};
ghost use Rattle.ps_lines.specs.Commands.{ReadsRectangle, ReadsReplica, ReadsSet, ReadsVerb, ReadsWait, Merges, Pushes};
ghost use Rattle.ps_lines.specs.Commands.{TakesMemoryToRead, group_size};

use crate::digest_line::is_digest;
use crate::verb::Verb;
use crate::words::{read_whole, split_part, split_word};
use ps_content::read_entry;
use ps_delta::{Delta, Edit};
use ps_grid::{Cell, REPLICAS, Refusal};
use ps_wire::Decoder;
use std::alloc::Global;

/// What a line asks for.
#[derive(Drop)]
pub enum Command {
    /// Make an edit: `set`, `add`, `sub`, `choose` or `unchoose`.
    Edit(Edit),
    /// Show a cell.
    Get(Cell),
    /// Show a rectangle, by two opposite corners.
    Rows(Cell, Cell),
    /// Return the entry of a cell.
    Entry(Cell),
    /// Return the entries of a rectangle, by two opposite corners.
    Entries(Cell, Cell),
    /// Return the changes after a version: the next delta, or at most `most` deltas joined into one.
    Pull {
        /// The version: the number of changes that the client has.
        from: u64,
        /// The most deltas to join, 1 to [`LARGEST_GROUP`]; `None` for the next delta alone.
        most: Option<u8>,
    },
    /// Take in a delta made elsewhere, as a whole.
    Push(Delta),
    /// Take in only the parts of a delta made elsewhere that are new to the sheet.
    Merge(Delta),
    /// Return the number of the sheet's own replica. The field is the number in the line, if the line has one, and
    /// makes no difference to the reply.
    Replica(Option<u8>),
    /// Wait until there are more changes than this number, or for some time, and return the version.
    Wait(u64),
}

/// The most deltas that a `pull` joins into one.
pub const LARGEST_GROUP: u64 = 16;

impl Command {
    /// Returns what a line asks for, or why it is refused:
    ///
    /// - `get <cell>`: show a cell;
    /// - `set <cell> <entry>`: assign to a cell what the entry stands for; `set <cell>` makes the cell blank;
    /// - `add <cell> <amount>` and `sub <cell> <amount>`: change a cell's counter;
    /// - `choose <cell> <option>` and `unchoose <cell> <option>`: change a cell's set of options;
    /// - `rows <cell>:<cell>`: show a rectangle;
    /// - `entry <cell>` and `entries <cell>:<cell>`: return the entry of a cell, or the entries of a rectangle;
    /// - `pull <from>`: return the next delta after the first `from` changes;
    /// - `pull <from> <most>`: return at most `most` deltas after the first `from` changes, joined into one;
    /// - `push <delta>`: take in a delta, whose text is all that follows the space;
    /// - `merge <delta>`: take in only the parts of a delta that are new to the sheet;
    /// - `replica`, `replica <number>` and `replica <digest>`: return the number of the sheet's own replica. A second
    ///   word makes no difference; the `replica` lines of kept files have one;
    /// - `wait <from>`: wait until there are more than `from` changes, or for some time, and return the version (the
    ///   number of changes).
    ///
    /// Exactly one space stands between two words; an entry may hold more spaces. `decoder` decodes a delta. Only a
    /// delta, a formula or a text takes memory. Whether an amount or an option is in range, and whether the cell has a
    /// counter or a set, isn't checked here.
    ///
    /// # Errors
    ///
    /// The first of these that holds:
    ///
    /// - `Command`: an unknown first word, or a word too few or too many;
    /// - `Cell`: a word that names no cell, or corners without exactly one colon between them;
    /// - `Amount` or `OptionRange`: an amount or option that isn't a decimal number of at most 64 bits;
    /// - `Version`: a `from` that isn't a decimal number of at most 64 bits, or a `most` that isn't 1 to 16;
    /// - `Replica`: a second word that is neither a number of 1 to [`REPLICAS`] nor a digest (16 hex digits in lower
    ///   case);
    /// - a refusal of [`read_entry`] for the entry of a `set`, or `Delta` for a text that isn't that of a delta;
    /// - `Memory`: out of memory.
    ///
    /// Cost: O(n) in the n bytes of the line.
    #[inline(always)]
    pub fn read(alloc: Global, decoder: &mut Decoder, line: &[u8]) -> Result<Command, Refusal>
        ensures read { ReadsLine line.now result }
        ensures memory { result ≡ Err Refusal.Memory → TakesMemoryToRead line.now }
    {
        let (word, rest) = split_word(line);
        let Some(verb) = Verb::read(word) else {
            return Err(Refusal::Command);
        };
        match rest {
            Some(rest) => read_rest(alloc, decoder, verb, rest),
            None => read_alone(verb),
        }
    }
}

/// Reads a line that is only a verb, without a space after it.
fn read_alone(verb: Verb) -> Result<Command, Refusal>
    ensures read { (rest : List ℕ) → ReadsVerb (Some verb) [] rest result }
    ensures ample { result ≢ Err Refusal.Memory }
{
    match verb {
        Verb::Replica => Ok(Command::Replica(None)),
        Verb::Get
        | Verb::Set
        | Verb::Add
        | Verb::Sub
        | Verb::Choose
        | Verb::Unchoose
        | Verb::Rows
        | Verb::Entry
        | Verb::Entries
        | Verb::Push
        | Verb::Merge
        | Verb::Pull
        | Verb::Wait => Err(Refusal::Command),
    }
}

/// Reads the rest of a line, after the verb and its space.
///
/// This function and [`read_other`] are inlined, so that no command is moved between them.
#[inline(always)]
fn read_rest(
    alloc: Global,
    decoder: &mut Decoder,
    verb: Verb,
    rest: &[u8],
) -> Result<Command, Refusal>
    ensures { ReadsVerb (Some verb) (words rest.now) rest.now result }
{
    match verb {
        Verb::Get => Ok(Command::Get(read_one_cell(rest)?)),
        Verb::Set => read_set(alloc, rest),
        Verb::Add => {
            let (cell, amount) = read_change(rest, Refusal::Amount)?;
            Ok(Command::Edit(Edit::Add(cell, amount)))
        }
        Verb::Sub => {
            let (cell, amount) = read_change(rest, Refusal::Amount)?;
            Ok(Command::Edit(Edit::Sub(cell, amount)))
        }
        other => read_other(alloc, decoder, other, rest),
    }
}

/// Reads the rest of a line, after the verb and its space, for all verbs but `get`, `set`, `add` and `sub`.
#[inline(always)]
fn read_other(
    alloc: Global,
    decoder: &mut Decoder,
    verb: Verb,
    rest: &[u8],
) -> Result<Command, Refusal>
    requires other { (verb ≢ Verb.Get) × (verb ≢ Verb.Set) × (verb ≢ Verb.Add) × (verb ≢ Verb.Sub) }
    ensures { ReadsVerb (Some verb) (words rest.now) rest.now result }
{
    match verb {
        Verb::Get | Verb::Set | Verb::Add | Verb::Sub => unreachable!(),
        Verb::Choose => {
            let (cell, option) = read_change(rest, Refusal::OptionRange)?;
            Ok(Command::Edit(Edit::Choose(cell, option)))
        }
        Verb::Unchoose => {
            let (cell, option) = read_change(rest, Refusal::OptionRange)?;
            Ok(Command::Edit(Edit::Unchoose(cell, option)))
        }
        Verb::Rows => {
            let (first, last) = read_rectangle(rest)?;
            Ok(Command::Rows(first, last))
        }
        Verb::Entry => Ok(Command::Entry(read_one_cell(rest)?)),
        Verb::Entries => {
            let (first, last) = read_rectangle(rest)?;
            Ok(Command::Entries(first, last))
        }
        Verb::Push => read_push(alloc, decoder, rest),
        Verb::Merge => read_merge(alloc, decoder, rest),
        Verb::Pull => read_pull(rest),
        Verb::Replica => read_replica(rest),
        Verb::Wait => read_wait(rest),
    }
}

/// Returns the cell that a word names.
fn read_cell(word: &[u8]) -> Result<Cell, Refusal>
    ensures { AtCell word.now result (λ c. result ≡ Ok c) }
{
    match Cell::read(word) {
        Some(cell) => Ok(cell),
        None => Err(Refusal::Cell),
    }
}

/// Reads a cell, and no more words.
fn read_one_cell(rest: &[u8]) -> Result<Cell, Refusal>
    ensures { ReadsOneCell (words rest.now) result }
{
    // no cell's name has a space, so a space is looked for only if no cell is named
    match Cell::read(rest) {
        Some(cell) => Ok(cell),
        None => match split_word(rest) {
            (_, None) => Err(Refusal::Cell),
            (_, Some(_)) => Err(Refusal::Command),
        },
    }
}

/// Reads the rest of `set`: a cell, and perhaps an entry after a space.
#[inline(always)]
fn read_set(alloc: Global, rest: &[u8]) -> Result<Command, Refusal>
    ensures { ReadsSet (words rest.now) (after_word rest.now) result }
{
    let (word, entry) = split_word(rest);
    let cell = read_cell(word)?;
    let content = read_entry(alloc, entry.unwrap_or(b""))?;
    Ok(Command::Edit(Edit::Set(cell, content)))
}

/// Reads a cell and a number. Returns `refusal` if the second word isn't a number.
fn read_change(rest: &[u8], refusal: Refusal) -> Result<(Cell, u64), Refusal>
    ensures { ReadsPair refusal (words rest.now) result }
{
    match split_word(rest) {
        (word, Some(number)) => read_pair(word, number, refusal),
        (_, None) => Err(Refusal::Command),
    }
}

/// Reads a cell from one word and a number from the rest of the line, which must be one word.
fn read_pair(word: &[u8], number: &[u8], refusal: Refusal) -> Result<(Cell, u64), Refusal>
    ensures { ReadsPair refusal (word.now ∷ words number.now) result }
{
    match split_word(number) {
        (digits, None) => {
            let cell = read_cell(word)?;
            match read_whole(digits) {
                Some(value) => Ok((cell, value)),
                None => Err(refusal),
            }
        }
        (_, Some(_)) => Err(Refusal::Command),
    }
}

/// Reads two corners, and no more words.
fn read_rectangle(rest: &[u8]) -> Result<(Cell, Cell), Refusal>
    ensures { ReadsRectangle (words rest.now) result }
{
    match split_word(rest) {
        (corners, None) => read_corners(corners),
        (_, Some(_)) => Err(Refusal::Command),
    }
}

/// Reads two cells with one colon between.
fn read_corners(corners: &[u8]) -> Result<(Cell, Cell), Refusal>
    ensures { ReadsCorners (parts 58 corners.now) result }
{
    let (first, rest) = split_part(corners, b':');
    let Some(rest) = rest else {
        return Err(Refusal::Cell);
    };
    match split_part(rest, b':') {
        (last, None) => Ok((read_cell(first)?, read_cell(last)?)),
        (_, Some(_)) => Err(Refusal::Cell),
    }
}

/// Reads the rest of `push`: the line of a delta.
fn read_push(alloc: Global, decoder: &mut Decoder, line: &[u8]) -> Result<Command, Refusal>
    ensures { Pushes line.now result }
{
    Ok(Command::Push(decoder.decode(alloc, line)?))
}

/// Reads the rest of `merge`: the line of a delta.
fn read_merge(alloc: Global, decoder: &mut Decoder, line: &[u8]) -> Result<Command, Refusal>
    ensures { Merges line.now result }
{
    Ok(Command::Merge(decoder.decode(alloc, line)?))
}

/// Reads the rest of `pull`: a version, and perhaps the most deltas to join after a space.
fn read_pull(rest: &[u8]) -> Result<Command, Refusal>
    ensures { ReadsPull (words rest.now) result }
{
    match split_word(rest) {
        (from, None) => Ok(Command::Pull {
            from: read_version(from)?,
            most: None,
        }),
        (from, Some(rest)) => read_group(from, rest),
    }
}

/// Reads the rest of `pull` from a version and the text after it: the most deltas to join, and no more words.
fn read_group(from: &[u8], rest: &[u8]) -> Result<Command, Refusal>
    ensures { ReadsPull (from.now ∷ words rest.now) result }
{
    match split_word(rest) {
        (most, None) => Ok(Command::Pull {
            from: read_version(from)?,
            most: Some(read_most(most)?),
        }),
        (_, Some(_)) => Err(Refusal::Command),
    }
}

/// Reads the number of a version.
fn read_version(word: &[u8]) -> Result<u64, Refusal>
    ensures { result ≡ ok_or (whole_number word.now) Refusal.Version }
{
    read_whole(word).ok_or(Refusal::Version)
}

/// Reads the most deltas to join, 1 to [`LARGEST_GROUP`].
fn read_most(word: &[u8]) -> Result<u8, Refusal>
    ensures { result ≡ ok_or (group_size (whole_number word.now)) Refusal.Version }
{
    match read_whole(word) {
        Some(number) if 1 <= number && number <= LARGEST_GROUP => Ok(number as u8),
        _ => Err(Refusal::Version),
    }
}

/// Reads the rest of `wait`: a version, and no more words.
fn read_wait(rest: &[u8]) -> Result<Command, Refusal>
    ensures { ReadsWait (words rest.now) result }
{
    match split_word(rest) {
        (seen, None) => Ok(Command::Wait(read_version(seen)?)),
        (_, Some(_)) => Err(Refusal::Command),
    }
}

/// Reads the rest of `replica`: a replica's number or a digest, and no more words.
fn read_replica(rest: &[u8]) -> Result<Command, Refusal>
    ensures { ReadsReplica (words rest.now) result }
{
    match split_word(rest) {
        (word, None) => read_named(word),
        (_, Some(_)) => Err(Refusal::Command),
    }
}

/// Reads the word after `replica`: the number of a replica, 1 to [`REPLICAS`], or a digest.
fn read_named(word: &[u8]) -> Result<Command, Refusal>
    ensures { ReadsReplica (word.now ∷ []) result }
{
    match read_whole(word) {
        Some(number) if 1 <= number && number <= u64::from(REPLICAS) => {
            Ok(Command::Replica(Some(number as u8)))
        }
        _ if is_digest(word) => Ok(Command::Replica(None)),
        _ => Err(Refusal::Replica),
    }
}
