//! Builds options of a command line, and commands that have them.
ghost use Rattle.std.specs.Prelude.{◌≡◌, false, IfOk};
ghost use Rattle.clap.specs.Words.{app_of, new_app, rule_of, with_rule};
ghost use Rattle.clap.specs.declared.builder.command.Command.TheViews.{out-Command as fields_of};
ghost use Rattle.ps_words.specs.Words.{flag_option, needed_option, number_option, ranged_option, text_option};
ghost use Rattle.ps_words.specs.Words.{usual_option, with_sheet_options};

use crate::help::{REPLICA_HELP, SQUASH_FIRST_HELP, WORKERS_HELP};
use clap::builder::ValueParser;
use clap::{Arg, ArgAction, Command};
use ps_grid::{REPLICAS, WORKERS};
use std::alloc::{AllocError, Global};

/// The greatest number of a port.
pub(crate) const LAST_PORT: u32 = 65_535;

/// Returns an option with a number from `least` to `most`, which may be left out.
pub(crate) fn ranged_option<'a>(
    alloc: Global,
    id: &'a str,
    least: u32,
    most: u32,
    help: &'a str,
) -> Arg<'a>
    ensures rule { rule_of result ≡ ranged_option id.now least most }
    ensures local { result.global ≡ false }
{
    Arg::new(alloc, id)
        .long(id)
        .action(ArgAction::Set)
        .value_parser(ValueParser::Signed(i64::from(least), i64::from(most)))
        .help(help)
}

/// Returns an option with a number from `least` to `most`, which is `usual` when left out.
pub(crate) fn usual_option<'a>(
    alloc: Global,
    id: &'a str,
    least: u32,
    most: u32,
    usual: &'a str,
    help: &'a str,
) -> Arg<'a>
    ensures rule { rule_of result ≡ usual_option id.now least most usual.now }
    ensures local { result.global ≡ false }
{
    ranged_option(alloc, id, least, most, help).default_value(usual)
}

/// Returns an option with a number from 1 to `most`, which is 1 when left out.
pub(crate) fn number_option<'a>(alloc: Global, id: &'a str, most: u32, help: &'a str) -> Arg<'a>
    ensures rule { rule_of result ≡ number_option id.now most }
    ensures local { result.global ≡ false }
{
    ranged_option(alloc, id, 1, most, help).default_value("1")
}

/// Returns an option with a number from 1 to `most`, which is required.
pub(crate) fn needed_option<'a>(alloc: Global, id: &'a str, most: u32, help: &'a str) -> Arg<'a>
    ensures rule { rule_of result ≡ needed_option id.now most }
    ensures local { result.global ≡ false }
{
    ranged_option(alloc, id, 1, most, help).required(true)
}

/// Returns an option with a text, which may be left out.
pub(crate) fn text_option<'a>(alloc: Global, id: &'a str, help: &'a str) -> Arg<'a>
    ensures rule { rule_of result ≡ text_option id.now }
    ensures local { result.global ≡ false }
{
    Arg::new(alloc, id)
        .long(id)
        .action(ArgAction::Set)
        .help(help)
}

/// Returns an option without a value.
pub(crate) fn flag_option<'a>(alloc: Global, id: &'a str, help: &'a str) -> Arg<'a>
    ensures rule { rule_of result ≡ flag_option id.now }
    ensures local { result.global ≡ false }
{
    Arg::new(alloc, id)
        .long(id)
        .action(ArgAction::SetTrue)
        .help(help)
}

/// Returns a command with its help texts, and no option yet.
pub(crate) fn new_command<'a>(
    alloc: Global,
    name: &'a str,
    about: &'a str,
    after: &'a str,
) -> Command<'a>
    ensures app { app_of result ≡ new_app name.now }
    ensures local { (fields_of result).has_globals ≡ false }
{
    Command::new(alloc, name).about(about).after_help(after)
}

/// Returns the command with one more option.
pub(crate) fn with_option<'a>(
    command: Command<'a>,
    option: Arg<'a>,
) -> Result<Command<'a>, AllocError>
    requires local { option.global ≡ false }
    ensures app { IfOk result (λ new. app_of new ≡ with_rule (app_of command.entry) (rule_of option.entry)) }
    ensures local { (fields_of command.entry).has_globals ≡ false
        → IfOk result (λ new. (fields_of new).has_globals ≡ false) }
{
    command.arg(option)
}

/// Returns the command with the options of a sheet that it opens: `--workers`, `--replica` and `--squash`.
pub(crate) fn with_sheet_options<'a>(
    alloc: Global,
    command: Command<'a>,
) -> Result<Command<'a>, AllocError>
    ensures app { IfOk result (λ new. app_of new ≡ with_sheet_options (app_of command.entry)) }
    ensures local { (fields_of command.entry).has_globals ≡ false
        → IfOk result (λ new. (fields_of new).has_globals ≡ false) }
{
    let workers = number_option(alloc, "workers", WORKERS as u32, WORKERS_HELP);
    let command = with_option(command, workers)?;
    let replica = number_option(alloc, "replica", u32::from(REPLICAS), REPLICA_HELP);
    let command = with_option(command, replica)?;
    let squash = flag_option(alloc, "squash", SQUASH_FIRST_HELP);
    with_option(command, squash)
}
