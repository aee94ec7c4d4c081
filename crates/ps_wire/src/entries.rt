//! Reads the entries of counters and sets from the items of an array.

ghost use Rattle.std.specs.Prelude.{◌≡◌, Bool, List, map as each, IsTrue, IfOk, IfErr};
ghost use Rattle.std.specs.List.{list_all};
ghost use Rattle.serde_json.specs.Data.{Data};
ghost use Rattle.serde_json.specs.View.{view};
ghost use Rattle.ps_lattice.specs.Tally.{is_count};
ghost use Rattle.ps_lattice.specs.Choice.{is_pair};
ghost use Rattle.ps_wire.specs.Value.{array_of, whole, count_value, pair_value, gone_number};
ghost use Rattle.ps_wire.specs.Inside.{RefusedAs, RefusedSince};

use crate::parts::{items, middling, quadruple, short, triple, whole};
use ps_grid::Refusal;
use ps_lattice::{Count, Pair};
use serde_json::Value;
use std::alloc::Global;

/// An entry of a counter or of a set.
pub(crate) trait Entry: Copy {
    // the JSON value that stands for the entry
    ghost spelled: { Self → Data };

    // whether the entry is in its ranges
    ghost is_good: { Self → Bool };

    /// Reads the entry that the value stands for. It may return an entry out of its ranges.
    fn read(value: &Value) -> Result<Self, Refusal>
        ensures found { IfOk result (λ e. view value.now ≡ spelled e) }
        ensures refused { IfErr result (λ r. RefusedSince r
            ((e : Self) → IsTrue (is_good e) → view value.now ≡ spelled e → ⊥)) };
}

/// An entry of a counter: a replica with its two counts.
impl Entry for (u8, Count) {
    ghost spelled = { count_value };

    ghost is_good = { is_count };

    fn read(value: &Value) -> Result<(u8, Count), Refusal> {
        let (replica, added, subtracted) = triple(value)?;
        let count = Count {
            added: whole(added)?,
            subtracted: whole(subtracted)?,
        };
        Ok((short(replica)?, count))
    }
}

/// An entry of a set: a pair, and whether it is gone.
impl Entry for (Pair, bool) {
    ghost spelled = { pair_value };

    ghost is_good = { is_pair };

    fn read(value: &Value) -> Result<(Pair, bool), Refusal> {
        let (option, replica, sequence, gone) = quadruple(value)?;
        let pair = Pair {
            option: short(option)?,
            replica: short(replica)?,
            sequence: middling(sequence)?,
        };
        Ok((pair, read_gone(gone)?))
    }
}

/// Reads the entries that the items of an array stand for, in their order.
pub(crate) fn read_entries<E: Entry>(alloc: Global, value: &Value) -> Result<Vec<E>, Refusal>
    ensures found { IfOk result (λ all. view value.now ≡ array_of (each E.spelled all.items)) }
    ensures refused { IfErr result (λ r. RefusedAs r ((all : List E) → IsTrue (list_all E.is_good all)
        → view value.now ≡ array_of (each E.spelled all) → ⊥)) }
{
    let values = items(value)?;
    let mut entries = Vec::with_capacity(alloc, values.len())?;
    for item in values {
        entries.push(E::read(item)?)?;
    }
    Ok(entries)
}

/// Reads whether a pair is gone: 0 stands for a pair that was only added, 1 for one that was also removed.
fn read_gone(value: &Value) -> Result<bool, Refusal>
    ensures found { IfOk result (λ b. view value.now ≡ whole (gone_number b)) }
    ensures refused { IfErr result (λ r. RefusedSince r ((b : Bool) → view value.now ≡ whole (gone_number b) → ⊥)) }
{
    match whole(value)? {
        0 => Ok(false),
        1 => Ok(true),
        _ => Err(Refusal::Delta),
    }
}
