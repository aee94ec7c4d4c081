//! Reads the parts of a cell's state from JSON values.

ghost use Rattle.std.specs.Prelude.{◌≡◌, map as each, Option, IsTrue, IfOk, IfErr};
ghost use Rattle.std.specs.FinMap as map;
ghost use Rattle.serde_json.specs.Data.{string};
ghost use Rattle.serde_json.specs.View.{view};
ghost use Rattle.ps_lattice.specs.Tally.{Counts, is_tally};
ghost use Rattle.ps_lattice.specs.Choice.{Pairs, is_choice};
ghost use Rattle.ps_lattice.specs.declared.register.Assignment.{Assignment as Assigned};
ghost use Rattle.ps_content.specs.Content.{canonical_text, IsContent};
ghost use Rattle.ps_content.specs.declared.content.Content.{Content as Contents};
ghost use Rattle.ps_wire.specs.Value.{array_of, register_value, count_value, pair_value, IsRegister};
ghost use Rattle.ps_wire.specs.Inside.{RefusedAs};

use crate::entries::read_entries;
use crate::parts::{short, text, triple, whole};
use ps_content::{Content, read_canonical};
use ps_grid::Refusal;
use ps_lattice::{Assignment, Choice, Register, Tally};
use serde_json::Value;
use std::alloc::Global;

/// Reads a content from its canonical text.
fn read_content(alloc: Global, value: &Value) -> Result<Content, Refusal>
    ensures found { IfOk result (λ c. (view value.now ≡ string (canonical_text c)) × IsContent c) }
    ensures refused { IfErr result (λ r. RefusedAs r
        ((c : Contents) → IsContent c → view value.now ≡ string (canonical_text c) → ⊥)) }
{
    match read_canonical(alloc, text(value)?.as_bytes())? {
        Some(content) => Ok(content),
        None => Err(Refusal::Delta),
    }
}

/// Reads a register: `null`, or an array of the time, the replica and the content.
pub(crate) fn read_register(alloc: Global, value: &Value) -> Result<Register<Content>, Refusal>
    ensures found { IfOk result (λ held. (view value.now ≡ register_value held) × IsRegister held) }
    ensures refused { IfErr result (λ r. RefusedAs r
        ((held : Option (Assigned Contents)) → IsRegister held → view value.now ≡ register_value held → ⊥)) }
{
    if value.is_null() {
        return Ok(Register::empty());
    }
    let (time, replica, content) = triple(value)?;
    let assignment = Assignment {
        time: whole(time)?,
        replica: short(replica)?,
        content: read_content(alloc, content)?,
    };
    Register::from_parts(assignment).ok_or(Refusal::Delta)
}

/// Reads a counter: an array of replicas with their counts.
#[tactic(auto, using(crate::proofs::PartLemmas::map_found, crate::proofs::PartLemmas::no_counts))]
pub(crate) fn read_tally(alloc: Global, value: &Value) -> Result<Tally, Refusal>
    ensures found { IfOk result (λ t. (view value.now ≡ array_of (each count_value (map.entries t)))
        × IsTrue (is_tally (map.entries t))) }
    ensures refused { IfErr result (λ r. RefusedAs r ((t : Counts) → IsTrue (is_tally (map.entries t))
        → view value.now ≡ array_of (each count_value (map.entries t)) → ⊥)) }
{
    let counts = read_entries(alloc, value)?;
    Tally::from_parts(alloc, counts)?.ok_or(Refusal::Delta)
}

/// Reads a set: an array of pairs.
#[tactic(auto, using(crate::proofs::PartLemmas::map_found, crate::proofs::PartLemmas::no_pairs))]
pub(crate) fn read_choice(alloc: Global, value: &Value) -> Result<Choice, Refusal>
    ensures found { IfOk result (λ c. (view value.now ≡ array_of (each pair_value (map.entries c)))
        × IsTrue (is_choice (map.entries c))) }
    ensures refused { IfErr result (λ r. RefusedAs r ((c : Pairs) → IsTrue (is_choice (map.entries c))
        → view value.now ≡ array_of (each pair_value (map.entries c)) → ⊥)) }
{
    let pairs = read_entries(alloc, value)?;
    Choice::from_parts(alloc, pairs)?.ok_or(Refusal::Delta)
}
