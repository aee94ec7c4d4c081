//! A desk: one sheet that several sessions share.
//!
//! A lock guards the sheet, the writer of its published copies (`ps_face`), and a book that counts what the sessions
//! appended. The copies hold what all cells show, and sessions read them without the lock. A call that changes the
//! sheet prepares the change, publishes it as a patch, and commits it. If the patch can't be published, the call
//! cancels the change. So the published list of patches and the sheet's history always agree.
//!
//! A desk evaluates nothing, makes no deltas and applies no patches: the sheet and the copies do. It reads no lines and
//! writes no replies: `ps_session` does. It opens no connections and starts no threads.
//!
//! A [`Pass`] belongs to a session slot, and is used by the slot's sessions, one after another. It holds the beginning
//! of the published list that these sessions have seen, and counts the deltas that they appended. Sessions read the
//! copies with their pass.
//!
//! To write a rectangle as text, a desk first copies the rectangle's cells, and then releases the lock or the published
//! copy. So no change waits until a text is written.
//!
//! The contracts to use:
//!
//! - for changes, [`Desk::edit`], [`Desk::receive`] and [`Desk::merge`], whose [`Receipt`] is fresh if the delta was
//!   appended
//! - for values, [`Pass::read`] and [`Pass::read_all`]
//! - for deltas, [`Desk::pull`]
//! - for the end, [`Desk::close`]
//!
//! A [`Seat`] is a desk and a session's pass. It is a `Board` of `ps_session`, so `converse` uses it to answer the
//! lines of a session. Its receipts enclose no delta, since no reply needs one. The program doesn't call
//! [`Pass::read_all`].
//!
//! The pass carries what the session has seen from each line to the next (`specs/Seats.antt`). What the pass has seen
//! only grows over a whole session (`GoesOn`), even if the session fails: see the lemmas of `proofs/SeatRuns.antt`. At
//! the session's end, [`Seat::leave`] shows to all readers what the session has seen, and returns the pass.
//!
//! A [`Position`] is a token for a beginning of the published list. A [`ShownPosition`] is a token for a beginning that
//! is shown to all readers. A `ShownPosition` comes from a read of the copies or a call that shows waiting changes.
//! A session sends no reply before its keeper (`Keeper` of `ps_session`) has a `ShownPosition` for all that the session
//! has seen. So whatever a reply mentions is visible to everyone.
//!
//! Code without a session slot, such as a journal, follows the shown list by a `ShownPosition` of its own. A call of
//! [`Desk::later`] moves this position forward, and returns the deltas after a number. It doesn't change what any pass
//! has seen. When the desk ends, [`Desk::close_at`] moves the position to the end of the list.
//!
//! A session may wait for more changes ([`Seat`]'s `wait`), while its [`Presence`] says whether its peer still waits.
//! Code without a slot waits with [`Desk::news`]. Both waits sleep without the lock, and end at a shown change or at an
//! [`Alarm`]. A [`Lookout`] has an alarm for each slot.
//!
//! A desk is opened from [`Parts`], which are made before the desk's name is picked. [`Desk::open`] is called in a
//! function that is generic in the name. The call returns a pass for each slot, which has seen nothing. If it fails, it
//! returns the sheet.
//!
//! For example, a desk was opened with an empty history, a pass has seen three patches, and another session has
//! appended a fourth. An edit with this pass then has the number 5: its delta is made over all four, and the pass has
//! seen all five. A read with this pass shows version 5 or a later one. At a `Seat` with this pass, the line `set A1 5`
//! is answered `ok 5`.
//!
//! Cost: a change costs as much as preparing it, and twice the cells that show another value after it. A read of one
//! cell costs a constant, and a pull is linear in the returned deltas. The line `rows` costs the cells of its
//! rectangle.
#![tactic(auto)]

mod change;
mod close;
mod copied;
mod desk;
mod laws;
mod name;
mod open;
mod parts;
mod pass;
mod patch;
mod position;
mod presence;
mod receipt;
mod seat;
mod shot;
mod showing;
mod shown_position;
mod state;
mod threads;

pub use desk::Desk;
pub use laws::coming_back_shows_what_was_replied;
pub use name::DeskName;
pub use parts::Parts;
pub use pass::Pass;
pub use position::Position;
pub use presence::{Alarm, Lookout, Presence, Watch};
pub use receipt::{Enclosure, Receipt, Unenclosed};
pub use seat::Seat;
pub use shot::Shot;
pub use shown_position::ShownPosition;
pub use threads::desk_is_sync;
