//! The commands of the program `sheet`, over any source and sink: sessions, tables, `serve`, `sync`, `join`, `follow`,
//! `talk`, `squash`, and how each ends.
//!
//! This crate is not the program: the caller passes sources, sinks and options. Nothing is stored from one call to the
//! next, except in the file of a durable sheet.
//!
//! The contracts to use:
//!
//! - [`answer_lines`]: what was written is the transcript that an empty sheet gives for what was read.
//! - [`answer_kept`]: whatever ends the call, all changes of lines whose replies were sent are durable (`IsCovered`, of
//!   `ps_session`).
//! - [`table_on`]: what was written is the table of what an empty sheet shows, or of its entries, after it has read the
//!   table.
//! - [`serve`]: the closed sheet is an empty sheet after all that its sessions did, as `ps_server` defines it.
//! - [`serve_kept`]: when it returns the closed sheet, the journal has the sheet's whole history.
//! - [`sync_on`], [`follow_on`] and [`talk_on`]: the contracts of `sync`, `follow` and `ask_lines` of `ps_peers`, for
//!   peers at ports.
//! - [`join_once_on`], [`join_on`] and [`join_pipe_on`]: the contracts of `join_once` and `join` of `ps_join`. The two
//!   peers are at ports; for [`join_pipe_on`] one is behind an input and an output.
//! - [`relay_on`]: the contract of `relay` of `ps_join`, for a server at a port.
//! - [`check_on`]: the contract of `compare` of `ps_step`, for peers at ports. What was written says how many cells
//!   differ, and names the first 20.
//! - [`squash_on`] and [`squash_part_on`]: what was written is what `ps_squash` defines for the lines read.
//!
//! A [`ProgramFault`] ends the program early, and [`status_of`] returns the exit status for it. The status is 1 if a
//! device failed, a port or a file can't be used, or another program has the file. For any other fault it is 3.
//! [`port_fault`] returns why a port can't be used.
//!
//! [`open_kept_sheet`] opens a durable sheet. A [`FileNotTaken`] says why the sheet's file is refused or failed. A
//! [`Warner`] warns once if another sheet makes changes with the replica number of a durable sheet.
//!
//! For example, [`answer_lines`] reads `set A1 5` and `get A1`, and writes `ok 1` and `val 5`. [`table_on`] reads
//! `2,=[.A1]*3`, and writes `2,6`.
//!
//! Cost: that of the lines of the sessions; of an import and an export for [`table_on`].
#![tactic(auto)]

mod broken;
mod check;
mod elsewhere;
mod ends;
mod explain;
mod fault;
mod follow;
mod inlet;
mod join;
mod kept;
mod listening;
mod lookout;
mod notice;
mod peers;
mod pipe;
mod poller;
mod port;
mod progress;
mod relay;
mod run;
mod squash;
mod sync;
mod table;
mod talk;
mod unfreed;

pub use broken::{BreakReason, BrokenConnection, ConnectionFault, connection_fault};
pub use check::check_on;
pub use elsewhere::{Crowded, KeptObserver, NumberElsewhere, Warner, tell_opened};
pub use explain::Observer;
pub use fault::{ProgramFault, status_of};
pub use follow::follow_on;
pub use join::{join_on, join_once_on};
pub use kept::{
    FileNotTaken, KeptName, KeptTrouble, OpenedFile, keep_sheet, lost_file, open_kept_sheet,
};
pub use listening::{serve, serve_kept};
pub use pipe::join_pipe_on;
pub use port::{PageAddress, PortFault, PortTrouble, Ports, port_fault};
pub use relay::{Input, relay_on};
pub use run::{answer_kept, answer_lines, open_sheet};
pub use squash::{SquashedFile, squash_kept, squash_on, squash_part_on, tell_left_out};
pub use sync::sync_on;
pub use table::table_on;
pub use talk::talk_on;
pub use unfreed::leave_unfreed;
