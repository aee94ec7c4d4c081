//! Labels: short texts of one line.
ghost use Rattle.std.specs.Prelude.{◌≡◌, ◌↔◌, ◌≤◌, IsSome, IfSome, length, nat_eq};
ghost use Rattle.std.specs.List.{list_all};
ghost use Rattle.std.specs.Str.{is_utf8};
ghost use Rattle.std.proofs.Common.{rules};
ghost use Rattle.std.specs.Cmp.Rules.{comparing};
ghost use Rattle.std.specs.Ordering.{nat_cmp, as_partial_cmp};
ghost use Rattle.std.specs.Cmp.Lexicographic.{pointwise, slice_cmp};
ghost use Rattle.std.specs.Cmp.{partial_order_from_own_ties, partial_equiv_from_equiv};
ghost use Rattle.std.specs.Cmp.Lexicographic.{nat_list_cmp_total, nat_list_eq_equiv};
ghost use Rattle.ps_value.specs.Label.{is_label, is_printed, IsLabel, padded};

use crate::LABEL_BYTES;
use std::cmp::Ordering;
use std::marker::Model;

/// A short text of one line: 1 to 64 bytes of UTF-8, none of them below 32 or equal to 127 (control characters).
///
/// The bytes lie in the label itself, so a label is `Copy` and takes no memory on the heap. Labels are ordered by their
/// bytes.
#[derive(Clone, Copy)]
pub struct Label {
    /// the bytes, and zeros after them
    room: [u8; LABEL_BYTES],
    /// how many bytes the text has
    used: u8,
}

impl Model for Label {
    ghost use Rattle.std.specs.Prelude.{List, ℕ, length, take};
    ghost use Rattle.ps_value.specs.Label.{padded, IsStored};
    ghost use Rattle.ps_value.specs.Stored.{label_restored};

    ghost Value = { List ℕ };

    ghost view = { λ a. take a.used a.room };

    ghost invariant = { λ a. IsStored a.room a.used };

    ghost inverse = { λ bytes. record { room = padded bytes; used = length bytes } };

    ghost inverse_ok = { λ a stored. label_restored a stored };
}

impl Label {
    /// Returns the label with these bytes; `None` if the bytes aren't a text that a [`Label`] can have.
    ///
    /// Cost: linear in the bytes, no memory.
    pub fn new(bytes: &[u8]) -> Option<Label>
        ensures labels { IsSome result ↔ IsLabel bytes.now }
        ensures bytes { IfSome result (λ label. label ≡ bytes.now) }
    {
        if !is_text_of_one_line(bytes) {
            return None;
        }
        Some(Label {
            room: in_room(bytes),
            used: bytes.len() as u8,
        })
    }

    /// Returns the bytes of the label's text, 1 to 64.
    pub fn bytes(&self) -> &[u8]
        ensures bytes { result.now ≡ self.now }
        ensures label { IsLabel self.now }
    {
        &self.room[..self.used as usize]
    }
}

impl PartialEq for Label {
    ghost eq = { pointwise nat_eq };

    ghost laws = { partial_equiv_from_equiv nat_list_eq_equiv };

    fn eq(&self, other: &Label) -> bool {
        self.bytes() == other.bytes()
    }
}

impl Eq for Label {
    ghost laws = { nat_list_eq_equiv };
}

impl PartialOrd for Label {
    ghost partial_cmp = { as_partial_cmp (slice_cmp nat_cmp) };

    ghost laws = { partial_order_from_own_ties (Prim.search (comparing, rules)) (Prim.search (comparing, rules)) };

    fn partial_cmp(&self, other: &Label) -> Option<Ordering> {
        Some(self.cmp(other))
    }
}

impl Ord for Label {
    ghost cmp = { slice_cmp nat_cmp };

    ghost total = { nat_list_cmp_total };

    ghost matches_partial_cmp = { Prim.search (comparing, rules) };

    ghost matches_eq = { Prim.search (comparing, rules) };

    fn cmp(&self, other: &Label) -> Ordering {
        self.bytes().cmp(&other.bytes())
    }
}

/// Returns whether these are the bytes of a label.
fn is_text_of_one_line(bytes: &[u8]) -> bool
    ensures { result ≡ is_label bytes.now }
{
    let len = bytes.len();
    1 <= len && len <= LABEL_BYTES && is_all_printed(bytes) && is_text(bytes)
}

/// Returns whether no byte is a control character or DEL.
fn is_all_printed(bytes: &[u8]) -> bool
    ensures { result ≡ list_all is_printed bytes.now }
{
    bytes.iter().all(|b| 32 <= *b && *b != 127)
}

/// Returns whether the bytes are UTF-8.
fn is_text(bytes: &[u8]) -> bool
    ensures { result ≡ is_utf8 bytes.now }
{
    str::from_utf8(bytes).is_ok()
}

/// Returns the bytes, with zeros after them.
fn in_room(bytes: &[u8]) -> [u8; LABEL_BYTES]
    requires { length bytes.now ≤ LABEL_BYTES }
    ensures { result ≡ padded bytes.now }
{
    let mut room = [0; LABEL_BYTES];
    let front = &mut room[..bytes.len()];
    front.copy_from_slice(bytes);
    room
}
