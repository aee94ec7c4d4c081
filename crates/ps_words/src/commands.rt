//! The commands, each with its options.
ghost use Rattle.std.specs.Prelude.{◌≡◌, false, IfOk};
ghost use Rattle.clap.specs.Words.{app_of};
ghost use Rattle.clap.specs.declared.builder.command.Command.TheViews.{out-Command as fields_of};
ghost use Rattle.ps_words.specs.Words.{
  follow_app,
  join_app,
  run_app,
  serve_app,
  sheet_app,
  squash_app,
  sync_app,
  table_app,
  talk_app,
};

use crate::arguments::{
    LAST_PORT, flag_option, needed_option, new_command, number_option, ranged_option, text_option,
    usual_option, with_option, with_sheet_options,
};
use crate::help::{
    AFTER_HELP, CHECK_HELP, ENTRIES_HELP, EVERY_HELP, EXPLAIN_HELP, FOLLOW_HELP, FOLLOWED_HELP,
    FROM_HELP, IDLE_HELP, JOIN_HELP, JOINED_FIRST_HELP, JOINED_SECOND_HELP, KEEP_HELP, LINES_HELP,
    ONCE_HELP, PORT_EXPLAIN_HELP, PORT_HELP, RELAYED_HELP, RUN_HELP, SEATS_HELP, SERVE_HELP,
    SESSIONS_HELP, SHEET_HELP, SQUASH_HELP, SQUASHED_HELP, STRICT_HELP, SYNC_HELP, TABLE_HELP,
    TALK_EXPLAIN_HELP, TALK_HELP, TALKED_HELP, TITLE_HELP, TO_HELP, UNTIL_HELP, UNTIL_NOW_HELP,
    WAIT_HELP, WITHOUT_HELP, WORKERS_HELP,
};
use crate::options::{LONGEST_IDLE, LONGEST_PAUSE, LONGEST_WAIT, MOST_CHANGES, MOST_SESSIONS};
use clap::Command;
use ps_grid::{REPLICAS, SEATS, WORKERS};
use std::alloc::{AllocError, Global};

/// What `--version` prints after the program's name.
const VERSION: &str = "0.1.0";

/// Returns the command `run`.
fn run_command<'a>(alloc: Global) -> Result<Command<'a>, AllocError>
    ensures app { IfOk result (λ command. app_of command ≡ run_app) }
    ensures local { IfOk result (λ command. (fields_of command).has_globals ≡ false) }
{
    let about = "answers each line of standard input on standard output";
    let command = with_sheet_options(alloc, new_command(alloc, "run", about, RUN_HELP))?;
    let explain = flag_option(alloc, "explain", EXPLAIN_HELP);
    let command = with_option(command, explain)?;
    let strict = flag_option(alloc, "strict", STRICT_HELP);
    let command = with_option(command, strict)?;
    let keep = text_option(alloc, "keep", KEEP_HELP);
    with_option(command, keep)
}

/// Returns the command `table`.
fn table_command<'a>(alloc: Global) -> Result<Command<'a>, AllocError>
    ensures app { IfOk result (λ command. app_of command ≡ table_app) }
    ensures local { IfOk result (λ command. (fields_of command).has_globals ≡ false) }
{
    let about = "reads a table of CSV and writes its settled values as CSV";
    let workers = number_option(alloc, "workers", WORKERS as u32, WORKERS_HELP);
    let command = with_option(new_command(alloc, "table", about, TABLE_HELP), workers)?;
    let entries = flag_option(alloc, "entries", ENTRIES_HELP);
    let command = with_option(command, entries)?;
    let explain = flag_option(alloc, "explain", EXPLAIN_HELP);
    with_option(command, explain)
}

/// Returns the command `serve`.
fn serve_command<'a>(alloc: Global) -> Result<Command<'a>, AllocError>
    ensures app { IfOk result (λ command. app_of command ≡ serve_app) }
    ensures local { IfOk result (λ command. (fields_of command).has_globals ≡ false) }
{
    let about = "answers the lines of several sessions over TCP";
    let port = needed_option(alloc, "port", LAST_PORT, PORT_HELP);
    let command = with_option(new_command(alloc, "serve", about, SERVE_HELP), port)?;
    let sessions = ranged_option(alloc, "sessions", 1, MOST_SESSIONS, SESSIONS_HELP);
    let command = with_option(command, sessions)?;
    let seats = usual_option(alloc, "seats", 1, SEATS as u32, "64", SEATS_HELP);
    let command = with_option(command, seats)?;
    let wait = usual_option(alloc, "wait", 0, u32::from(LONGEST_WAIT), "5", WAIT_HELP);
    let command = with_option(command, wait)?;
    let idle = ranged_option(alloc, "idle", 1, LONGEST_IDLE, IDLE_HELP);
    let command = with_option(command, idle)?;
    let explain = flag_option(alloc, "explain", PORT_EXPLAIN_HELP);
    let command = with_option(command, explain)?;
    let keep = text_option(alloc, "keep", KEEP_HELP);
    let command = with_option(command, keep)?;
    let title = text_option(alloc, "title", TITLE_HELP);
    with_sheet_options(alloc, with_option(command, title)?)
}

/// Returns the command `sync`.
fn sync_command<'a>(alloc: Global) -> Result<Command<'a>, AllocError>
    ensures app { IfOk result (λ command. app_of command ≡ sync_app) }
    ensures local { IfOk result (λ command. (fields_of command).has_globals ≡ false) }
{
    let about = "pushes all that one replica has to another";
    let from = needed_option(alloc, "from", LAST_PORT, FROM_HELP);
    let command = with_option(new_command(alloc, "sync", about, SYNC_HELP), from)?;
    let to = needed_option(alloc, "to", LAST_PORT, TO_HELP);
    let command = with_option(command, to)?;
    let explain = flag_option(alloc, "explain", PORT_EXPLAIN_HELP);
    with_option(command, explain)
}

/// Returns the command `join`.
pub(crate) fn join_command<'a>(alloc: Global) -> Result<Command<'a>, AllocError>
    ensures app { IfOk result (λ command. app_of command ≡ join_app) }
    ensures local { IfOk result (λ command. (fields_of command).has_globals ≡ false) }
{
    let about = "keeps two replicas at the same changes";
    let from = text_option(alloc, "from", JOINED_FIRST_HELP);
    let command = with_option(new_command(alloc, "join", about, JOIN_HELP), from)?;
    let to = text_option(alloc, "to", JOINED_SECOND_HELP);
    let command = with_option(command, to)?;
    let server = ranged_option(alloc, "with", 1, LAST_PORT, RELAYED_HELP);
    let command = with_option(command, server)?;
    let lines = flag_option(alloc, "lines", LINES_HELP);
    let command = with_option(command, lines)?;
    let once = flag_option(alloc, "once", ONCE_HELP);
    let command = with_option(command, once)?;
    let check = flag_option(alloc, "check", CHECK_HELP);
    let command = with_option(command, check)?;
    let explain = flag_option(alloc, "explain", PORT_EXPLAIN_HELP);
    with_option(command, explain)
}

/// Returns the command `follow`.
fn follow_command<'a>(alloc: Global) -> Result<Command<'a>, AllocError>
    ensures app { IfOk result (λ command. app_of command ≡ follow_app) }
    ensures local { IfOk result (λ command. (fields_of command).has_globals ≡ false) }
{
    let about = "writes what a replica has and gets as change lines";
    let from = needed_option(alloc, "from", LAST_PORT, FOLLOWED_HELP);
    let command = with_option(new_command(alloc, "follow", about, FOLLOW_HELP), from)?;
    let after = usual_option(alloc, "after", 0, MOST_CHANGES, "0", AFTER_HELP);
    let command = with_option(command, after)?;
    let until_now = flag_option(alloc, "until-now", UNTIL_NOW_HELP);
    let command = with_option(command, until_now)?;
    let every = usual_option(
        alloc,
        "every",
        1,
        u32::from(LONGEST_PAUSE),
        "50",
        EVERY_HELP,
    );
    let command = with_option(command, every)?;
    let explain = flag_option(alloc, "explain", PORT_EXPLAIN_HELP);
    with_option(command, explain)
}

/// Returns the command `talk`.
fn talk_command<'a>(alloc: Global) -> Result<Command<'a>, AllocError>
    ensures app { IfOk result (λ command. app_of command ≡ talk_app) }
    ensures local { IfOk result (λ command. (fields_of command).has_globals ≡ false) }
{
    let about = "asks a server each line of standard input";
    let to = needed_option(alloc, "to", LAST_PORT, TALKED_HELP);
    let command = with_option(new_command(alloc, "talk", about, TALK_HELP), to)?;
    let explain = flag_option(alloc, "explain", TALK_EXPLAIN_HELP);
    with_option(command, explain)
}

/// Returns the command `squash`.
pub(crate) fn squash_command<'a>(alloc: Global) -> Result<Command<'a>, AllocError>
    ensures app { IfOk result (λ command. app_of command ≡ squash_app) }
    ensures local { IfOk result (λ command. (fields_of command).has_globals ≡ false) }
{
    let about = "makes few change lines of many delta lines";
    let keep = text_option(alloc, "keep", SQUASHED_HELP);
    let command = with_option(new_command(alloc, "squash", about, SQUASH_HELP), keep)?;
    let until = ranged_option(alloc, "until", 1, MOST_CHANGES, UNTIL_HELP);
    let command = with_option(command, until)?;
    let without = ranged_option(alloc, "without", 1, REPLICAS as u32, WITHOUT_HELP);
    with_option(command, without)
}

/// Returns the whole command line: `sheet` with all its commands.
pub(crate) fn sheet_command<'a>(alloc: Global) -> Result<Command<'a>, AllocError>
    ensures { IfOk result (λ command. app_of command ≡ sheet_app) }
{
    Command::new(alloc, "sheet")
        .about("a replicated spreadsheet")
        .after_help(SHEET_HELP)
        .subcommand_required(true)
        .version(VERSION)
        .subcommand(run_command(alloc)?)?
        .subcommand(table_command(alloc)?)?
        .subcommand(serve_command(alloc)?)?
        .subcommand(sync_command(alloc)?)?
        .subcommand(join_command(alloc)?)?
        .subcommand(follow_command(alloc)?)?
        .subcommand(talk_command(alloc)?)?
        .subcommand(squash_command(alloc)?)
}
