//! The book of the published list, and tokens for beginnings of the list.
//!
//! The list exists only in contracts: it is the log of a book of the crate `logbook`. Memory holds an atomic word with
//! the list's length, which the writer raises. For a beginning that was seen, it holds a token of no bytes and the
//! beginning's length.

ghost use Rattle.std.specs.Prelude.{◌≡◌, ◌<◌, ◌≤◌, ◌++◌, ◌∷◌, [], length, MatchBool};
ghost use mathlib.Core.List.{IsPrefix};

use crate::patch::{Note, Patch};
use logbook::{Gain, Offer, Plain, Play, Rule, Seen, Start, Word};
use std::marker::Model;

/// The greatest length of a list. No run reaches it.
const LONGEST: u64 = 1 << 62;

/// The rule that every step on a book keeps: the book's atomic word holds the length of the published list.
pub struct BookLaw;

impl Rule<Note, u64> for BookLaw {
    ghost use Rattle.std.specs.Prelude.{[]};
    ghost use base.Fml.{ftrue};
    ghost use Rattle.ps_face.specs.Book.{CountsPatches};

    ghost holds = { λ cells log. CountsPatches cells log };

    ghost first = { [] };

    ghost hinted = { λ n log. Unit {0} };

    ghost shows = { λ log. [] };

    ghost keeps = { λ names log. ftrue };

    ghost moves = { λ ask before after answer. Unit {0} };
}

/// Says that a step on the book gives its caller nothing but the new list.
pub struct Nothing;

impl Gain<Note, u64> for Nothing {
    ghost use base.Fml.{ftrue};

    ghost after = { λ names about answer. ftrue };
}

/// The step on the book that appends a patch to the published list.
pub struct Add;

impl Play<Note, u64> for Add {
    ghost use Rattle.ps_face.specs.Book.{Adds};

    ghost then = { Adds };
}

impl Plain<Patch<'_>, Note, u64> for Add {
    ghost use Rattle.std.specs.Prelude.{None};

    ghost ask = { λ patch. patch };

    ghost state = { λ patch. None };
}

/// A new book, whose published list is still empty. [`crate::FaceWriter::open`] takes it and creates copies for it.
///
/// A contract sees a `NewBook` as the book of the crate `logbook`.
#[derive(Drop)]
pub struct NewBook {
    /// the atomic word that holds the length of the list
    head: Word<Note, u64, BookLaw>,
    /// the token for the empty list
    seen: Seen<Note, u64, BookLaw>,
}

impl Model for NewBook {
    ghost use Rattle.std.specs.Prelude.{◌≡◌, []};
    ghost use Rattle.logbook.specs.Pages.{Book};
    ghost use Rattle.ps_face.specs.Book.{head_of};

    ghost Value = { Book };

    ghost view = { λ o. o.seen.book };

    ghost invariant = { λ o. (o.seen.log ≡ []) × (o.head ≡ head_of o.seen.book) };
}

impl NewBook {
    /// Creates a new book with an empty list. It takes no memory.
    pub fn new() -> NewBook {
        let (seen, mut first, _second) = Seen::open(Start::alone(), 0, 0);
        NewBook {
            head: Word::tracked(0, &mut first),
            seen,
        }
    }

    /// The book's word, and the token for the empty list.
    pub(crate) fn split(self) -> (Head, BookPrefix)
        ensures head { result.0 ≡ self }
        ensures front { result.1 ≡ record { book = self; list = [] } }
    {
        let NewBook { head, seen } = self;
        (Head { head }, BookPrefix { count: 0, seen })
    }
}

/// The atomic word of a book, which holds the length of the list. A contract sees it as the book.
#[derive(Drop)]
pub(crate) struct Head {
    head: Word<Note, u64, BookLaw>,
}

impl Model for Head {
    ghost use Rattle.std.specs.Prelude.{◌≡◌};
    ghost use Rattle.logbook.specs.Pages.{Book};
    ghost use Rattle.ps_face.specs.Book.{head_of};

    ghost Value = { Book };

    ghost view = { λ h. h.head.book };

    ghost invariant = { λ h. h.head ≡ head_of h.head.book };
}

/// Proof that somebody has seen a beginning of the published list, that is, its first patches in order. At run time the
/// proof is the beginning's length, and a token of no bytes.
///
/// A contract sees a `BookPrefix` as the book and that beginning.
#[derive(Drop)]
pub struct BookPrefix {
    /// the number of patches in the beginning
    count: u64,
    /// the token for it
    seen: Seen<Note, u64, BookLaw>,
}

impl Model for BookPrefix {
    ghost use Rattle.std.specs.Prelude.{◌≡◌, length};
    ghost use Rattle.ps_face.specs.Seen.{Told};
    ghost use Rattle.std.specs.Coded.{codes};
    ghost use Rattle.ps_face.specs.contracts.patch.Note as note;

    ghost Value = { Told };

    ghost coded = { Prim.hlevel (codes, note.the_row.coded) };

    ghost view = { λ f. record { book = f.seen.book; list = f.seen.log } };

    ghost invariant = { λ f. f.count ≡ length f.seen.log };
}

impl BookPrefix {
    /// Returns another token for the same beginning of the published list. It takes no memory.
    pub fn again(&self) -> BookPrefix
        ensures { result ≡ self.now }
    {
        BookPrefix {
            count: self.count,
            seen: self.seen.again(),
        }
    }

    /// Returns whether `other` is at least as long as this beginning. Both are beginnings of the same list, so then
    /// `other` begins with this one.
    pub fn begins(&self, other: &BookPrefix) -> bool
        requires book { self.now.book ≡ other.now.book }
        ensures { MatchBool result
            (IsPrefix self.now.list other.now.list × (length self.now.list ≤ length other.now.list))
            (length other.now.list < length self.now.list) }
    {
        let mut both = self.seen.again();
        both.learn(&other.seen);
        if self.count > other.count {
            return false;
        }
        true
    }

    /// Adds a patch to the list and returns true, if this is the whole list; only the list's writer can know that. Else
    /// returns false, and adds nothing.
    pub(crate) fn add(&mut self, head: &Head, patch: &Patch<'_>) -> bool
        requires book { head.now ≡ self.old.book }
        ensures { MatchBool result
            (self.new ≡ record self.old { list = self.old.list ++ patch.now ∷ [] })
            (self.new ≡ self.old) }
    {
        let count = self.count;
        if count >= LONGEST {
            return false;
        }
        let mut seen = self.seen.again();
        let mut offer: Offer<Note, u64, BookLaw, Nothing> = seen.plain::<Nothing, Patch<'_>, Add>(
            patch,
        );
        let mut pen = seen.no_pen();
        let found = head
            .head
            .compare_exchange::<Add, Nothing>(count, count + 1, &mut seen, &mut offer, &mut pen);
        if found != count {
            return false;
        }
        self.seen = seen;
        self.count = count + 1;
        true
    }
}
