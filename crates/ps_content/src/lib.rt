//! What a cell holds: its content. A person types an *entry*, which `read_entry` turns into a content. Replicas
//! exchange a content as its *canonical text*: one spelling for each content.
//!
//! What a cell shows is computed elsewhere. This crate evaluates nothing, and knows no times and no replicas.
//!
//! The entry `+007` is the number 7, whose canonical text is `7`. The entry `'7` is a text, whose canonical text is
//! the entry itself. The entry `of:= sum([.B2:.A1])` is a formula, whose canonical text is `=SUM([.A1:.B2])`.
//!
//! The contract to use: `read_entry` reads an entry by the table of `specs/Entry.antt`. `Content::canonical` appends
//! the one canonical text of a content. `read_canonical` accepts canonical texts and nothing else. Contents have a
//! linear order. A twin (a copy, whose making may fail) equals its original.
//!
//! Cost: `read_entry` takes time linear in the bytes of the entry, which are at most 512. Canonical texts are read and
//! written, and contents compared, byte by byte. Any other operation takes constant time.
#![tactic(auto)]

mod canonical;
mod content;
mod entry;
mod order;
mod shared;

pub use canonical::read_canonical;
pub use content::Content;
pub use entry::read_entry;
pub use shared::SharedFormula;
