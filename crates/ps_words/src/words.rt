//! Reads the program's words.
//!
//! `clap` refuses a number out of its range. The functions here check ranges again, since the types of options promise
//! them.
ghost use Rattle.std.specs.Prelude.{◌≡◌, ◌≤◌, IfOk, IfSome, Some, codes, map, string_bytes, true};
ghost use Rattle.clap.specs.Words.{first_of, found_of, rows_of, subcommand_of};
ghost use Rattle.ps_words.specs.Words.{GivesCount, GivesFlag, GivesNumber, GivesNumbers, GivesOptions, GivesText};
ghost use Rattle.ps_words.specs.Words.{asks_for_page, name_of, sheet_app};

use crate::commands::{join_command, sheet_command, squash_command};
use crate::options::{
    FollowOptions, JoinOptions, LONGEST_IDLE, LONGEST_PAUSE, LONGEST_WAIT, MOST_CHANGES,
    MOST_SESSIONS, Options, PipeOptions, RelayOptions, RunOptions, ServeOptions, SheetOptions,
    SquashOptions, SyncOptions, TableOptions, TalkOptions,
};
use clap::error::ErrorKind;
use clap::{ArgMatches, Error};
use ps_grid::{REPLICAS, SEATS, WORKERS};
use std::alloc::{AllocError, Global};

/// Returns the number of an option of up to 8 bits; none if it isn't in 1..=most.
fn number_of(matches: &ArgMatches<'_>, id: &str, most: u8) -> Option<u8>
    ensures number { IfSome result (GivesNumber (rows_of (found_of matches.now)) id.now) }
    ensures range { IfSome result (λ n. (1 ≤ n) × (n ≤ most)) }
{
    match matches.get_one::<u8>(id) {
        Some(number) if 1 <= number && number <= most => Some(number),
        _ => None,
    }
}

/// Returns `Some(None)` if an option was left out, and otherwise its number; none if that isn't in 1..=most.
fn count_of(matches: &ArgMatches<'_>, id: &str, most: u32) -> Option<Option<u32>>
    ensures number { IfSome result (GivesCount (rows_of (found_of matches.now)) id.now) }
    ensures range { IfSome result (λ count. IfSome count (λ n. (1 ≤ n) × (n ≤ most))) }
{
    if !matches.contains_id(id) {
        return Some(None);
    }
    match matches.get_one::<u32>(id) {
        Some(number) if 1 <= number && number <= most => Some(Some(number)),
        _ => None,
    }
}

/// Returns `Some(None)` if an option was left out, and otherwise its replica; none if that isn't in 1..=`REPLICAS`.
fn replica_of(matches: &ArgMatches<'_>, id: &str) -> Option<Option<u8>>
    ensures number { IfSome result (GivesCount (rows_of (found_of matches.now)) id.now) }
    ensures range { IfSome result (λ count. IfSome count (λ n. (1 ≤ n) × (n ≤ REPLICAS))) }
{
    if !matches.contains_id(id) {
        return Some(None);
    }
    match number_of(matches, id, REPLICAS) {
        Some(number) => Some(Some(number)),
        None => None,
    }
}

/// Returns the number of an option of up to 8 bits; none if it is above `most`.
fn number_to(matches: &ArgMatches<'_>, id: &str, most: u8) -> Option<u8>
    ensures number { IfSome result (GivesNumber (rows_of (found_of matches.now)) id.now) }
    ensures range { IfSome result (λ n. n ≤ most) }
{
    match matches.get_one::<u8>(id) {
        Some(number) if number <= most => Some(number),
        _ => None,
    }
}

/// Returns the number of an option of up to 32 bits; none if it is above `most`.
fn long_number_to(matches: &ArgMatches<'_>, id: &str, most: u32) -> Option<u32>
    ensures number { IfSome result (GivesNumber (rows_of (found_of matches.now)) id.now) }
    ensures range { IfSome result (λ n. n ≤ most) }
{
    match matches.get_one::<u32>(id) {
        Some(number) if number <= most => Some(number),
        _ => None,
    }
}

/// Returns the number of an option of up to 16 bits; none if it isn't in 1..=most.
fn wide_number_of(matches: &ArgMatches<'_>, id: &str, most: u16) -> Option<u16>
    ensures number { IfSome result (GivesNumber (rows_of (found_of matches.now)) id.now) }
    ensures range { IfSome result (λ n. (1 ≤ n) × (n ≤ most)) }
{
    match matches.get_one::<u16>(id) {
        Some(number) if 1 <= number && number <= most => Some(number),
        _ => None,
    }
}

/// Returns the text of an option, if it was given.
fn text_of<'a>(matches: &ArgMatches<'a>, id: &str) -> Option<&'a str>
    ensures { GivesText (rows_of (found_of matches.now)) id.now result }
{
    matches.get_str(id)
}

/// Returns whether a flag is set.
fn flag_of(matches: &ArgMatches<'_>, id: &str) -> bool
    ensures { GivesFlag (rows_of (found_of matches.now)) id.now result }
{
    matches.get_flag(id)
}

/// Returns the port of an option; none if it isn't in 1..=65535.
fn port_of(matches: &ArgMatches<'_>, id: &str) -> Option<u16>
    ensures number { IfSome result (GivesNumber (rows_of (found_of matches.now)) id.now) }
    ensures range { IfSome result (λ n. 1 ≤ n) }
{
    match matches.get_one::<u16>(id) {
        Some(number) if 1 <= number => Some(number),
        _ => None,
    }
}

/// Returns the options that `run` or `serve` opens its sheet with.
fn sheet_options(matches: &ArgMatches<'_>) -> Option<SheetOptions>
    ensures workers { IfSome result (λ sheet. GivesNumber (rows_of (found_of matches.now)) (codes "workers")
        sheet.workers) }
    ensures replica { IfSome result (λ sheet. GivesNumber (rows_of (found_of matches.now)) (codes "replica")
        sheet.replica) }
    ensures squash { IfSome result (λ sheet. GivesFlag (rows_of (found_of matches.now)) (codes "squash")
        sheet.squash) }
{
    let workers = number_of(matches, "workers", WORKERS as u8)?;
    let replica = number_of(matches, "replica", REPLICAS)?;
    Some(SheetOptions {
        workers,
        replica,
        squash: flag_of(matches, "squash"),
    })
}

/// Returns the options of `run`.
fn run_options<'a>(matches: &ArgMatches<'a>) -> Option<Options<'a>>
    ensures { IfSome result (λ options. (name_of options ≡ codes "run")
        × GivesNumbers (rows_of (found_of matches.now)) options) }
{
    Some(Options::Run(RunOptions {
        sheet: sheet_options(matches)?,
        keep: text_of(matches, "keep"),
        explain: flag_of(matches, "explain"),
        strict: flag_of(matches, "strict"),
    }))
}

/// Returns the options of `table`.
fn table_options<'a>(matches: &ArgMatches<'a>) -> Option<Options<'a>>
    ensures { IfSome result (λ options. (name_of options ≡ codes "table")
        × GivesNumbers (rows_of (found_of matches.now)) options) }
{
    let workers = number_of(matches, "workers", WORKERS as u8)?;
    Some(Options::Table(TableOptions {
        workers,
        entries: flag_of(matches, "entries"),
        explain: flag_of(matches, "explain"),
    }))
}

/// Returns the options of `serve`.
fn serve_options<'a>(matches: &ArgMatches<'a>) -> Option<Options<'a>>
    ensures { IfSome result (λ options. (name_of options ≡ codes "serve")
        × GivesNumbers (rows_of (found_of matches.now)) options) }
{
    let port = port_of(matches, "port")?;
    let sheet = sheet_options(matches)?;
    let keep = text_of(matches, "keep");
    let title = text_of(matches, "title");
    let sessions = count_of(matches, "sessions", MOST_SESSIONS)?;
    let seats = wide_number_of(matches, "seats", SEATS as u16)?;
    let wait = number_to(matches, "wait", LONGEST_WAIT)?;
    let idle = count_of(matches, "idle", LONGEST_IDLE)?;
    let explain = flag_of(matches, "explain");
    Some(Options::Serve(ServeOptions {
        port,
        sheet,
        keep,
        title,
        sessions,
        seats,
        wait,
        idle,
        explain,
    }))
}

/// Returns the options of `sync`.
fn sync_options<'a>(matches: &ArgMatches<'a>) -> Option<Options<'a>>
    ensures { IfSome result (λ options. (name_of options ≡ codes "sync")
        × GivesNumbers (rows_of (found_of matches.now)) options) }
{
    let from = port_of(matches, "from")?;
    let to = port_of(matches, "to")?;
    let explain = flag_of(matches, "explain");
    Some(Options::Sync(SyncOptions { from, to, explain }))
}

/// Returns the options of a `join` between two ports; none with both `--once` and `--check`.
fn join_options<'a>(matches: &ArgMatches<'a>) -> Option<Options<'a>>
    ensures { IfSome result (λ options. (name_of options ≡ codes "join")
        × GivesNumbers (rows_of (found_of matches.now)) options) }
{
    let first = port_of(matches, "from")?;
    let second = port_of(matches, "to")?;
    let once = flag_of(matches, "once");
    let check = flag_of(matches, "check");
    if once && check {
        return None;
    }
    Some(Options::Join(JoinOptions {
        from: first,
        to: second,
        once,
        check,
        explain: flag_of(matches, "explain"),
    }))
}

/// What stands instead of a port for standard input and output.
const STANDARD: &str = "-";

/// Returns whether an option is `-`.
fn is_standard(matches: &ArgMatches<'_>, id: &str) -> bool
    ensures { result ≡ true → first_of id.now (rows_of (found_of matches.now)) ≡ Some (codes "-") }
{
    match text_of(matches, id) {
        Some(text) => text == STANDARD,
        None => false,
    }
}

/// Returns the options of a `join` between a port and `-`; none with `--check`, or without one port and one `-`.
fn pipe_options<'a>(matches: &ArgMatches<'a>) -> Option<Options<'a>>
    ensures { IfSome result (λ options. (name_of options ≡ codes "join")
        × GivesNumbers (rows_of (found_of matches.now)) options) }
{
    if flag_of(matches, "check") {
        return None;
    }
    let once = flag_of(matches, "once");
    let explain = flag_of(matches, "explain");
    if is_standard(matches, "from") {
        return Some(Options::Pipe(PipeOptions {
            is_first: true,
            port: port_of(matches, "to")?,
            once,
            explain,
        }));
    }
    if is_standard(matches, "to") {
        return Some(Options::Pipe(PipeOptions {
            is_first: false,
            port: port_of(matches, "from")?,
            once,
            explain,
        }));
    }
    None
}

/// Returns the options of `join --with`; none without `--lines`.
fn relay_options<'a>(matches: &ArgMatches<'a>) -> Option<Options<'a>>
    ensures { IfSome result (λ options. (name_of options ≡ codes "join")
        × GivesNumbers (rows_of (found_of matches.now)) options) }
{
    let server = port_of(matches, "with")?;
    let lines = flag_of(matches, "lines");
    if !lines {
        return None;
    }
    Some(Options::Relay(RelayOptions {
        server,
        once: flag_of(matches, "once"),
        explain: flag_of(matches, "explain"),
    }))
}

/// Returns the options of any `join`: between two ports, a port and `-`, or a port and lines.
fn joining_options<'a>(matches: &ArgMatches<'a>) -> Option<Options<'a>>
    ensures { IfSome result (λ options. (name_of options ≡ codes "join")
        × GivesNumbers (rows_of (found_of matches.now)) options) }
{
    if matches.contains_id("with") {
        relay_options(matches)
    } else if is_standard(matches, "from") || is_standard(matches, "to") {
        pipe_options(matches)
    } else {
        join_options(matches)
    }
}

/// Returns the message that two of the given options of `join` can't be used together; none if all can.
fn excluded(matches: &ArgMatches<'_>) -> Option<&'static str> {
    let checks = matches.get_flag("check");
    if checks && matches.get_flag("once") {
        return Some("the argument '--once' cannot be used with '--check', which merges nothing");
    }
    if is_standard(matches, "from") && is_standard(matches, "to") {
        return Some("the argument '--from -' cannot be used with '--to -'");
    }
    if checks && (is_standard(matches, "from") || is_standard(matches, "to")) {
        return Some("the argument '--check' cannot be used with '-' in place of a port");
    }
    if !matches.contains_id("with") {
        return None;
    }
    if matches.contains_id("from") || matches.contains_id("to") {
        return Some(
            "the argument '--with <with>' cannot be used with '--from <from>' and '--to <to>'",
        );
    }
    if checks {
        return Some("the argument '--with <with>' cannot be used with '--check'");
    }
    None
}

/// Returns the options that `join` still needs, as text; it is empty if `join` needs none.
fn missing(matches: &ArgMatches<'_>) -> &'static str {
    let lines = matches.get_flag("lines");
    if matches.contains_id("with") {
        return if lines { "" } else { "--lines" };
    }
    if lines {
        return "--with <with>";
    }
    match (matches.contains_id("from"), matches.contains_id("to")) {
        (true, true) => "",
        (true, false) => "--to <to>",
        (false, true) => "--from <from>",
        (false, false) => "--from <from> --to <to>",
    }
}

/// Returns the first of `--from` and `--to` that is neither a port nor `-`, if any: its name and its text.
fn misplaced<'a>(matches: &ArgMatches<'a>) -> Option<(&'static str, &'a str)> {
    for id in ["from", "to"] {
        if let Some(text) = text_of(matches, id) {
            if text != STANDARD && port_of(matches, id).is_none() {
                return Some((id, text));
            }
        }
    }
    None
}

/// Returns whether options of `join` can't be used together, or one is missing or is no port.
fn is_troubled(matches: &ArgMatches<'_>) -> bool {
    misplaced(matches).is_some() || excluded(matches).is_some() || !missing(matches).is_empty()
}

/// Returns the error for options of `join` that can't be used together, or for one that is missing or is no port.
fn trouble_error(alloc: Global, matches: &ArgMatches<'_>) -> Result<Error, AllocError> {
    let mut command = join_command(alloc)?;
    if let Some((id, text)) = misplaced(matches) {
        let message = format!(in alloc;
            "invalid value '{text}' for '--{id} <{id}>': neither a port, 1 to 65535, nor '-'"
        )?;
        return command.error(ErrorKind::ValueValidation, message.as_str());
    }
    if let Some(message) = excluded(matches) {
        return command.error(ErrorKind::ArgumentConflict, message);
    }
    let missing = missing(matches);
    let message = format!(in alloc;
        "the following required arguments were not provided: {missing}"
    )?;
    command.error(ErrorKind::MissingRequiredArgument, message.as_str())
}

/// Returns the options of `follow`.
fn follow_options<'a>(matches: &ArgMatches<'a>) -> Option<Options<'a>>
    ensures { IfSome result (λ options. (name_of options ≡ codes "follow")
        × GivesNumbers (rows_of (found_of matches.now)) options) }
{
    let from = port_of(matches, "from")?;
    let after = long_number_to(matches, "after", MOST_CHANGES)?;
    let until_now = flag_of(matches, "until-now");
    let every = wide_number_of(matches, "every", LONGEST_PAUSE)?;
    let explain = flag_of(matches, "explain");
    Some(Options::Follow(FollowOptions {
        from,
        after,
        until_now,
        every,
        explain,
    }))
}

/// Returns the options of `talk`.
fn talk_options<'a>(matches: &ArgMatches<'a>) -> Option<Options<'a>>
    ensures { IfSome result (λ options. (name_of options ≡ codes "talk")
        × GivesNumbers (rows_of (found_of matches.now)) options) }
{
    let to = port_of(matches, "to")?;
    let explain = flag_of(matches, "explain");
    Some(Options::Talk(TalkOptions { to, explain }))
}

/// Returns the options of `squash`; none with `--keep` and one of `--until` and `--without`.
fn squash_options<'a>(matches: &ArgMatches<'a>) -> Option<Options<'a>>
    ensures { IfSome result (λ options. (name_of options ≡ codes "squash")
        × GivesNumbers (rows_of (found_of matches.now)) options) }
{
    let keep = text_of(matches, "keep");
    let until = count_of(matches, "until", MOST_CHANGES)?;
    let without = replica_of(matches, "without")?;
    if keep.is_some() && (until.is_some() || without.is_some()) {
        return None;
    }
    Some(Options::Squash(SquashOptions {
        keep,
        until,
        without,
    }))
}

/// Returns whether `--keep` is given with `--until` or `--without`. The kept file would lose changes then.
fn squashes_in_part(matches: &ArgMatches<'_>) -> bool {
    matches.contains_id("keep") && (matches.contains_id("until") || matches.contains_id("without"))
}

/// Returns the error for `--keep` with `--until` or `--without`.
fn in_part_error(alloc: Global) -> Result<Error, AllocError> {
    squash_command(alloc)?.error(
        ErrorKind::ArgumentConflict,
        "with '--keep <keep>' all is kept: '--until' and '--without' write a new file",
    )
}

/// Returns the options of the command with this name.
fn options_of<'a>(name: &str, matches: &ArgMatches<'a>) -> Option<Options<'a>>
    ensures { IfSome result (λ options. (name_of options ≡ name.now)
        × GivesNumbers (rows_of (found_of matches.now)) options) }
{
    match name {
        "run" => run_options(matches),
        "table" => table_options(matches),
        "serve" => serve_options(matches),
        "sync" => sync_options(matches),
        "join" => joining_options(matches),
        "follow" => follow_options(matches),
        "talk" => talk_options(matches),
        "squash" => squash_options(matches),
        _ => None,
    }
}

/// Returns the command and its options that the words of the command line ask for. The first word is the program's own
/// name.
///
/// All numbers, texts and flags are those that `clap` finds in the words.
///
/// # Errors
///
/// - If the words are refused, or ask for help or for the version: the error has the text to print and the exit status.
/// - If allocation fails: the error that `clap` makes of an `AllocError`.
///
/// Cost: O(n) in the n bytes of the words.
pub fn read_words<'a>(alloc: Global, words: &'a [String]) -> Result<Options<'a>, Error>
    ensures { IfOk result (GivesOptions (subcommand_of sheet_app (map string_bytes words.now))) }
{
    let matches = sheet_command(alloc)?.try_get_matches_from(words)?;
    let Some((name, found)) = matches.subcommand() else {
        return Err(AllocError.into());
    };
    if name == "squash" && squashes_in_part(found) {
        return Err(in_part_error(alloc)?);
    }
    if name == "join" && is_troubled(found) {
        return Err(trouble_error(alloc, found)?);
    }
    let Some(options) = options_of(name, found) else {
        return Err(AllocError.into());
    };
    Ok(options)
}

/// The message for whoever calls the command `page`, which earlier versions had.
pub const PAGE_IS_GONE: &str = "sheet page is gone: sheet serve has the page at its own port";

/// Returns whether the first word after the program's name is `page`, a command that earlier versions had.
pub fn asks_for_page(words: &[String]) -> bool
    ensures { result ≡ asks_for_page (map string_bytes words.now) }
{
    match words {
        [_, word, ..] => word.as_bytes() == b"page".as_slice(),
        _ => false,
    }
}
