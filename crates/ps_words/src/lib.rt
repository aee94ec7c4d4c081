//! The program's command line: its commands, their options, and the texts that `--help` prints.
//!
//! This crate is not the program: it runs no command, and the caller passes the words of the command line.
//!
//! The contract to use is that of [`read_words`]: the command and its numbers, texts and flags are those that `clap`
//! finds in the words. The types of options promise that each number is in its range.
//!
//! From the words `sheet run --replica 2`, [`read_words`] returns the options of `run` with one worker, replica 2, and
//! no flag set.
//!
//! Cost: linear in the bytes of the words.
#![tactic(auto)]

mod arguments;
mod commands;
mod help;
mod options;
mod words;

pub use help::{
    EVERY_HELP, IDLE_HELP, REPLICA_HELP, RUN_HELP, SEATS_HELP, SESSIONS_HELP, WAIT_HELP,
    WORKERS_HELP,
};
pub use options::{
    FollowOptions, JoinOptions, LONGEST_IDLE, LONGEST_PAUSE, LONGEST_WAIT, MOST_SESSIONS, Options,
    PipeOptions, RelayOptions, RunOptions, ServeOptions, SheetOptions, SquashOptions, SyncOptions,
    TableOptions, TalkOptions,
};
pub use words::{PAGE_IS_GONE, asks_for_page, read_words};
