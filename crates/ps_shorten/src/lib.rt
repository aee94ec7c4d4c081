//! A kept file that is squashed in place.
//!
//! A kept file has the lines of a replica's changes (`ps_kept`), and grows with each change. A call of [`shorten`]
//! reads the file as a start of the program does, and replaces it by what `squash` (`ps_squash`) makes of its lines.
//! The new file belongs to the same replica, and has the same joined state in fewer or shorter lines. Whenever the
//! program ends, even in the middle of the call, the name leads to the whole old file or to the whole new one.
//!
//! This crate opens no sheet to be edited, and prints nothing. It has the file's lock only until the [`NamedFile`] is
//! dropped.
//!
//! The contract to use is that of [`shorten`]. If the call returns `Ok`, the file has what `squash` makes of its whole
//! lines. If that isn't short enough ([`Worth`]), the file is as it was. In both cases a start reads a history with the
//! same join from the file (`IsShortened`). If the call fails, the file is as it was, or the device failed and a start
//! reads a history with the same join. It is trusted that a rename replaces one file by another at once.
//!
//! For example, a file has `replica 1`, `push [["A1",[1,1,"5"],[],[]]]` and `push [["A1",[2,1,"6"],[],[]]]`.
//! [`shorten`] makes it a file with `replica 1` and `push [["A1",[2,1,"6"],[],[]]]`: two changes became one.
//!
//! Cost: that of a start and of `squash`. It takes memory for three times the file's bytes.
#![tactic(auto)]

mod fault;
mod in_place;
mod named;

pub use fault::ShortenFault;
pub use in_place::{Shortened, Shortening, Worth, shorten};
pub use named::{NamedFile, Replace};
