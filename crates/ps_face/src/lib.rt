//! Two published copies of what a sheet shows: one writer, and readers that take whole settled sheets with no lock.
//!
//! This crate is not the sheet: it makes no deltas and evaluates nothing. The values that a change shows come from the
//! caller of [`FaceWriter::publish_patch`], whose contract requires them to be right. The crate starts no thread and
//! has no lock: the caller decides which threads write and read. It doesn't know who may change the sheet, and
//! acknowledges no change.
//!
//! Use the contracts of [`FaceWriter::publish_patch`] and [`FaceReader::enter`]. A [`Patch`] borrows a delta. It has
//! the delta's number in the history and exactly those cells whose settled value it changes. The writer appends
//! patches to a list, the published list, and shows them to readers, at once or later:
//!
//! - [`FaceWriter::publish_patch`] takes a patch that `Follows` the history of the published list. It appends the patch
//!   to the list, and shows readers the whole list at one step.
//! - [`FaceWriter::post_patch`] only appends a patch. The patch then waits: only the next [`FaceWriter::show`] or
//!   `publish_patch` shows it to readers, with all others that wait. Fewer than [`MOST_WAITING`] patches wait.
//! - [`FaceWriter::append`] and [`FaceWriter::publish`] are `publish_patch` in two calls. Only tests call them.
//!
//! A reader enters at one step, and takes the copy that is shown at that moment. This copy stands for a list of patches
//! that begins with all patches that the reader had seen. The list is legal: each patch follows the history that the
//! copies were opened with and the patches before. The copy, a [`Seen`], shows the settled values after the list, every
//! cell at one version.
//!
//! Say the copies of an empty sheet are opened for two readers, and the edit `set A1 5` is published as patch number 1.
//! Its one change is that A1 shows 5. A reader that enters after `post_patch` sees version 0, and A1 shows nothing. One
//! that enters after `show` sees version 1, and A1 shows 5. A reader that entered before `show` goes on seeing
//! version 0 until it leaves. The call that shows the next patch waits for this reader.
//!
//! The list itself exists only in contracts, in a book (of the crate `logbook`). At run time a [`BookPrefix`] stands
//! for a beginning of the list: the beginning's length, and a token of no bytes. The writer has one for the whole list.
//! [`FaceReader::learn`] gives one to a reader without a step on the copies, so that the reader sees nothing older from
//! then on. While a patch that the reader learned of waits, the reader can't enter. A [`ShownPrefix`] stands for a
//! beginning that readers were shown. Only the writer, and a reader that has entered, create a `ShownPrefix`.
//!
//! Cost: opening copies what is shown twice. A patch costs its changes twice, and a posted patch three times. Showing
//! also costs a constant for each reader, however many patches it shows: posting patches and showing them together is
//! cheaper. Entering, reading a cell and leaving cost a constant each. Publishing and entering take no memory, since
//! texts are shared and the copies have room for a patch that changes every cell. Only waiting patches take memory.
#![tactic(auto)]

mod book;
mod changes;
mod face;
mod name;
mod patch;
mod reader;
mod rule;
mod shown_prefix;
mod threads;
mod waiting;
mod writer;

pub use book::{BookPrefix, NewBook};
pub use name::Named;
pub use patch::{Note, Patch};
pub use reader::{FaceReader, Seen};
pub use rule::View;
pub use shown_prefix::ShownPrefix;
pub use threads::writer_is_send;
pub use waiting::MOST_WAITING;
pub use writer::FaceWriter;
