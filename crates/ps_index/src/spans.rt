//! A list of spans with free places where it was last changed.

ghost use Rattle.std.specs.Prelude.{◌≡◌, ℕ, ◌+◌, ◌-◌, ◌^◌, ◌<◌, ◌≤◌, [], length, get_or, IfOk, IfErr, OnOk, OnErr};
ghost use Rattle.std.specs.List.{insert, remove};
ghost use Rattle.ps_grid.specs.declared.refusal.Refusal.TheVariants.{Memory};
ghost use Rattle.ps_index.specs.Inside.Parted.{parted};
ghost use Rattle.ps_index.specs.declared.span.Span.{Span as TheSpan};

use crate::span::Span;
use ps_grid::Refusal;
use std::alloc::Global;
use std::marker::Model;

/// The spans of a column, in the order in which the index stores them: by the row that stores the span, then by cell. A
/// contract sees a `Spans` as the list of its spans.
///
/// The list is a gap buffer: its free places stand where the last span was put in or taken out. The next change is
/// mostly near that place, so it moves few spans.
#[derive(Drop)]
pub struct Spans {
    /// the spans, and the free places among them
    places: Vec<Span>,
    /// how many spans stand before the free places
    front: usize,
    /// how many places are free
    free: usize,
}

impl Model for Spans {
    ghost use Rattle.std.specs.Prelude.{◌+◌, ◌≤◌, List, length};
    ghost use Rattle.std.specs.Coded.{codes};
    ghost use Rattle.ps_index.specs.Inside.Parted.{parted};
    ghost use Rattle.ps_index.specs.declared.span.Span.{Span};
    ghost use Rattle.ps_index.specs.contracts.span.Span as span;

    ghost Value = { List Span };

    ghost coded = { Prim.hlevel (codes, span.the_row.coded) };

    ghost view = { λ s. parted s.places.items s.front s.free };

    ghost invariant = { λ s. s.front + s.free ≤ length s.places.items };
}

impl Spans {
    /// The list of no spans.
    pub(crate) fn new(alloc: Global) -> Spans
        ensures { result ≡ [] }
    {
        Spans {
            places: Vec::new(alloc),
            front: 0,
            free: 0,
        }
    }

    /// Returns how many spans the column has.
    #[inline(always)]
    pub fn len(&self) -> usize
        ensures { result ≡ length self.now }
    {
        self.places.len() - self.free
    }

    /// Returns the span at a position of the list. Positions are counted from 0.
    #[inline(always)]
    pub fn at(&self, index: usize) -> Span
        requires { index < length self.now }
        ensures span { (d : TheSpan) → get_or self.now index d ≡ result }
        ensures small { length self.now < 2 ^ 63 }
    {
        if index < self.front {
            self.places[index]
        } else {
            self.places[index + self.free]
        }
    }

    /// Puts a span in at a position. Fails only when out of memory.
    ///
    /// Cost: linear in how many spans stand between this position and that of the last change.
    pub(crate) fn insert(&mut self, index: usize, span: Span) -> Result<(), Refusal>
        requires { index ≤ length self.old }
        ensures ok { OnOk result (self.new ≡ insert self.old index span) }
        ensures err { OnErr result (self.new ≡ self.old) }
        ensures memory { IfErr result (λ e. e ≡ Memory) }
    {
        let room = room_for(&mut self.places, self.front, self.free, &span)?;
        put_at(&mut self.places, room.front, room.free, index, span);
        self.front = index + 1;
        self.free = room.free - 1;
        Ok(())
    }

    /// Takes the span at a position out.
    ///
    /// Cost: as for `insert`.
    pub(crate) fn remove(&mut self, index: usize)
        requires { index < length self.old }
        ensures { self.new ≡ remove self.old index }
    {
        move_free(&mut self.places, self.front, self.free, index);
        self.front = index;
        self.free += 1;
    }
}

/// Where free places stand.
#[derive(Clone, Copy)]
struct Room {
    /// how many spans stand before them
    front: usize,
    /// how many they are
    free: usize,
}

/// Returns where places are free. If none is, adds some behind all spans first, and fills them with copies of `span`.
/// Fails only when out of memory.
fn room_for(places: &mut Vec<Span>, front: usize, free: usize, span: &Span) -> Result<Room, Refusal>
    requires { front + free ≤ length places.old.items }
    ensures some { IfOk result (λ room. 0 < room.free) }
    ensures within { IfOk result (λ room. room.front + room.free ≤ length places.new.items) }
    ensures same { IfOk result (λ room.
        parted places.new.items room.front room.free ≡ parted places.old.items front free) }
    ensures err { OnErr result (places.new.items ≡ places.old.items) }
    ensures memory { IfErr result (λ e. e ≡ Memory) }
{
    if free != 0 {
        return Ok(Room { front, free });
    }
    let len = places.len();
    let more = len / 8 + 1;
    places.resize(len + more, *span)?;
    Ok(Room {
        front: len,
        free: more,
    })
}

/// Moves the free places from behind the first `front` spans to behind the first `index` ones, and writes a span into
/// the first of them.
fn put_at(places: &mut Vec<Span>, front: usize, free: usize, index: usize, span: Span)
    requires within { front + free ≤ length places.old.items }
    requires some { 0 < free }
    requires index { index + free ≤ length places.old.items }
    ensures length { length places.new.items ≡ length places.old.items }
    ensures put { parted places.new.items (index + 1) (free - 1)
        ≡ insert (parted places.old.items front free) index span }
{
    move_free(places, front, free, index);
    places[index] = span;
}

/// Moves the free places, which stand behind the first `front` spans, to behind the first `to` ones.
fn move_free(places: &mut Vec<Span>, front: usize, free: usize, to: usize)
    requires within { front + free ≤ length places.old.items }
    requires to { to + free ≤ length places.old.items }
    ensures length { length places.new.items ≡ length places.old.items }
    ensures same { parted places.new.items to free ≡ parted places.old.items front free }
{
    if to < front {
        places.copy_within(to..front, to + free);
    } else {
        places.copy_within(front + free..to + free, front);
    }
}
