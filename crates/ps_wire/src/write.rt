//! Sends a delta to serde, as the JSON value that stands for it.

ghost use Rattle.std.specs.Prelude.{◌≡◌, ◌∷◌, ◌<◌, ◌≤◌, length, take, map as each, IsUtf8, OnOk};
ghost use Rattle.std.specs.List.{All};
ghost use Rattle.serde.specs.Event.{Log};
ghost use Rattle.serde_json.specs.Data.{Data, string};
ghost use Rattle.serde_json.specs.Events.{SendsValue};
ghost use Rattle.ps_grid.specs.Place.{cell_name};
ghost use Rattle.ps_value.specs.Label.{IsLabel};
ghost use Rattle.ps_content.specs.Content.{canonical_text, IsContent};
ghost use Rattle.ps_wire.specs.Value.{array_of, register_value, count_value, pair_value, gone_number};
ghost use Rattle.ps_wire.specs.Value.{cell_value, delta_value, IsLawful, IsRegister, IsState};

use itoa::Buffer;
use ps_content::Content;
use ps_delta::{CellState, Delta};
use ps_grid::{Cell, NAME_BYTES};
use ps_lattice::{Count, Pair, Register};
use ps_value::LABEL_BYTES;
use serde::{Described, Serialize, Serializer};
use std::str;

/// A delta that serde can write.
#[derive(Drop)]
pub(crate) struct Line<'a> {
    pub(crate) delta: &'a Delta,
}

impl Described for Line<'_> {
    ghost writes = { λ l old new. SendsValue (delta_value l.delta.now) old new × IsLawful l.delta.now };
}

impl Serialize for Line<'_> {
    #[tactic(auto, unfolding(crate::specs::Value::delta_value))]
    fn serialize<S: Serializer>(&self, out: &mut S) -> Result<(), S::Error> {
        send_array(self.delta.parts(), out)
    }
}

/// An item of an array.
trait Item {
    // the value that stands for it
    ghost spelled: { Self → Data };

    // what is known of an item that was written
    ghost holds: { Self → Type 0 };

    /// Writes the item.
    fn send<S: Serializer>(&self, out: &mut S) -> Result<(), S::Error>
        ensures sent { OnOk result (SendsValue (spelled self.now) (S.written out.old) (S.written out.new)) }
        ensures holds { OnOk result (holds self.now) };
}

/// A replica with its two counts.
impl Item for (u8, Count) {
    ghost spelled = { count_value };

    ghost holds = { λ _. Unit {0} };

    fn send<S: Serializer>(&self, out: &mut S) -> Result<(), S::Error> {
        let (replica, count) = *self;
        out.begin_seq(Some(3))?;
        out.u64(u64::from(replica))?;
        out.u64(count.added)?;
        out.u64(count.subtracted)?;
        out.end_seq()
    }
}

/// A pair, and whether it is gone.
impl Item for (Pair, bool) {
    ghost spelled = { pair_value };

    ghost holds = { λ _. Unit {0} };

    fn send<S: Serializer>(&self, out: &mut S) -> Result<(), S::Error> {
        let (pair, gone) = *self;
        out.begin_seq(Some(4))?;
        out.u64(u64::from(pair.option))?;
        out.u64(u64::from(pair.replica))?;
        out.u64(u64::from(pair.sequence))?;
        out.u64(gone_number(gone))?;
        out.end_seq()
    }
}

/// A cell with its state.
impl Item for (Cell, CellState) {
    ghost spelled = { cell_value };

    ghost holds = { λ e. IsState e.1 };

    #[tactic(auto, unfolding(crate::specs::Value::cell_value))]
    fn send<S: Serializer>(&self, out: &mut S) -> Result<(), S::Error> {
        let (register, tally, choice) = self.1.parts();
        out.begin_seq(Some(4))?;
        send_name(self.0, out)?;
        send_register(register, out)?;
        send_array(tally.parts().as_slice(), out)?;
        send_array(choice.parts(), out)?;
        out.end_seq()
    }
}

/// Writes the items as an array.
fn send_array<I: Item, S: Serializer>(items: &[I], out: &mut S) -> Result<(), S::Error>
    ensures sent { OnOk result
        (SendsValue (array_of (each I.spelled items.now)) (S.written out.old) (S.written out.new)) }
    ensures hold { OnOk result (All I.holds items.now) }
{
    out.begin_seq(Some(items.len()))?;
    for item in items {
        item.send(out)?;
    }
    out.end_seq()
}

/// Writes the name of a cell.
fn send_name<S: Serializer>(cell: Cell, out: &mut S) -> Result<(), S::Error>
    ensures { OnOk result (SendsValue (string (cell_name cell)) (S.written out.old) (S.written out.new)) }
{
    let mut name = [0; NAME_BYTES];
    let len = cell.write(&mut name);
    send_text(&name[..len], out)
}

/// Writes `null`, or an array of the time, the replica and the content.
fn send_register<S: Serializer>(register: &Register<Content>, out: &mut S) -> Result<(), S::Error>
    ensures sent { OnOk result
        (SendsValue (register_value register.now) (S.written out.old) (S.written out.new)) }
    ensures register { OnOk result (IsRegister register.now) }
{
    match register.parts() {
        None => out.unit(),
        Some(assignment) => {
            out.begin_seq(Some(3))?;
            out.u64(assignment.time)?;
            out.u64(u64::from(assignment.replica))?;
            send_content(assignment.content, out)?;
            out.end_seq()
        }
    }
}

/// Writes the canonical text of a content.
fn send_content<S: Serializer>(content: &Content, out: &mut S) -> Result<(), S::Error>
    ensures sent { OnOk result
        (SendsValue (string (canonical_text content.now)) (S.written out.old) (S.written out.new)) }
    ensures content { IsContent content.now }
{
    match content {
        Content::Blank => out.str(""),
        Content::Number(number) => out.str(Buffer::new().format(*number)),
        Content::Text(label) => send_label(label.label().bytes(), out),
        Content::Formula(formula) => send_text(formula.formula().text(), out),
        Content::Tally => out.str("@tally"),
        Content::Choice => out.str("@choice"),
    }
}

/// Writes a label after the apostrophe that marks a text.
fn send_label<S: Serializer>(label: &[u8], out: &mut S) -> Result<(), S::Error>
    requires { IsLabel label.now }
    ensures { OnOk result (SendsValue (string (39 ∷ label.now)) (S.written out.old) (S.written out.new)) }
{
    let mut text = [0; 1 + LABEL_BYTES];
    let len = put_label(label, &mut text);
    send_text(&text[..len], out)
}

/// Puts an apostrophe and the label at the front of `text`, and returns how many bytes these are.
fn put_label(label: &[u8], text: &mut [u8]) -> usize
    requires { length label.now < length text.old }
    ensures front { take result text.new ≡ 39 ∷ label.now }
    ensures within { result ≤ length text.old }
    ensures length { length text.new ≡ length text.old }
{
    let end = 1 + label.len();
    text[0] = b'\'';
    text[1..end].copy_from_slice(label);
    end
}

/// Writes bytes of UTF-8 as a JSON string.
#[inline(always)]
fn send_text<S: Serializer>(text: &[u8], out: &mut S) -> Result<(), S::Error>
    requires { IsUtf8 text.now }
    ensures { OnOk result (SendsValue (string text.now) (S.written out.old) (S.written out.new)) }
{
    out.str(str::from_utf8(text).unwrap())
}

/// Returns 1 if a pair is gone, else 0.
fn gone_number(gone: bool) -> u64
    ensures { result ≡ gone_number gone }
{
    if gone { 1 } else { 0 }
}
