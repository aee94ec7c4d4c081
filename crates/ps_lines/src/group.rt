//! Finds how many deltas a `pull` can return joined on one line.

ghost use Rattle.std.specs.Prelude.{◌≡◌, ◌⊎◌, ◌↔◌, ◌+◌, ◌-◌, ◌<◌, ◌≤◌, Err, IfOk, IfErr, IfSome, IsTrue, length};
ghost use Rattle.std.specs.Prelude.{sum_by, take, ◌∷◌, []};
ghost use Rattle.std.specs.Option.{SomeIff};
ghost use Rattle.ps_delta.specs.Deltas.{IsDelta, joined_history, state_of};
ghost use Rattle.ps_wire.specs.Line.{delta_text};
ghost use Rattle.ps_wire.specs.declared.TheConstants.{DELTA_LINE_LIMIT};
ghost use Rattle.ps_lines.specs.PullReplies.{HasNone, IsGreatest, IsGroupLine, IsJoint};
ghost use Rattle.ps_lines.specs.Inside.Joints.{AreFirstJoints, AreJoints, part_count, parts_in};

use ps_delta::{CellState, Delta};
use ps_grid::{Cell, Refusal, Twin};
use ps_wire::{encode, may_share_line, outgrows_line};
use std::alloc::Global;

/// If the deltas have at most this many cells, counts (of counters) and pairs (of sets), [`greatest_group`] first tries
/// the join of all deltas that may share a line. Such a join nearly always fits, and costs little if it doesn't.
const FEW_PARTS: usize = 512;

/// Returns the greatest number of deltas, from the first on, whose join fits on one line, and the text of that join.
///
/// The number is at least 1 and at most `most`. A join fits if its text has at most `DELTA_LINE_LIMIT` bytes (of
/// `ps_wire`).
///
/// # Errors
///
/// - `TooLong`: no number from 1 to `most` has a join that fits. An empty `deltas` has none.
/// - `Memory`: out of memory.
///
/// Cost: for one delta, writing its line. For a few small deltas, one join and its line. Otherwise, or if that line is
/// too long: a join for each delta, until one more can't fit. Then the lines of these joins, the longest join first,
/// until one fits.
#[inline(always)]
pub fn greatest_group(
    alloc: Global,
    deltas: &[Delta],
    most: usize,
) -> Result<(usize, Vec<u8>), Refusal>
    ensures found { IfOk result (λ found. IsGreatest deltas.now most found.0 found.1.items) }
    ensures none { result ≡ Err Refusal.TooLong → HasNone deltas.now most }
    ensures refused { IfErr result (λ e. (e ≡ Refusal.TooLong) ⊎ (e ≡ Refusal.Memory)) }
{
    if most > 0 && deltas.len() == 1 {
        return match line_alone(alloc, &deltas[0]) {
            Ok(line) => Ok((1, line)),
            Err(refusal) => Err(refusal),
        };
    }
    let reach = may_share_line(alloc, deltas, most)?;
    if reach > 1 && have_few_parts(&deltas[..reach], FEW_PARTS) {
        if let Some(line) = whole_line(alloc, deltas, reach)? {
            return Ok((reach, line));
        }
    }
    let joints = joined_upward(alloc, deltas, reach)?;
    let mut count = joints.len();
    'counts: while count > 0 {
        match joint_line(alloc, &joints[count - 1]) {
            Ok(line) => return Ok((count, line)),
            Err(Refusal::TooLong) => {}
            Err(refusal) => return Err(refusal),
        }
        count -= 1;
    }
    Err(Refusal::TooLong)
}

/// Returns the line of a delta by itself.
fn line_alone(alloc: Global, delta: &Delta) -> Result<Vec<u8>, Refusal>
    ensures line { IfOk result (λ line. IsGreatest (delta.now ∷ []) 1 1 line.items) }
    ensures none { result ≡ Err Refusal.TooLong → HasNone (delta.now ∷ []) 1 }
    ensures refused { IfErr result (λ e. (e ≡ Refusal.TooLong) ⊎ (e ≡ Refusal.Memory)) }
{
    // for the fact that the parts are a delta
    let _ = delta.parts();
    joint_line(alloc, delta)
}

/// Returns whether the deltas have at most `most` cells, counts and pairs. A cell of two deltas counts twice.
fn have_few_parts(deltas: &[Delta], most: usize) -> bool
    ensures { IsTrue result ↔ (sum_by parts_in deltas.now ≤ most) }
{
    let mut left = most;
    for delta in deltas {
        match left_after(delta.parts(), left) {
            Some(rest) => left = rest,
            None => return false,
        }
    }
    true
}

/// Returns `most` less the number of cells, counts and pairs; none if there are more than `most`.
fn left_after(cells: &[(Cell, CellState)], most: usize) -> Option<usize>
    ensures { SomeIff result (parts_in cells.now ≤ most) (most - parts_in cells.now) }
{
    let mut left = most;
    for cell in cells {
        match left_after_one(cell, left) {
            Some(rest) => left = rest,
            None => return None,
        }
    }
    Some(left)
}

/// Returns `most` less one cell and its counts and pairs; none if these are more than `most`.
fn left_after_one(cell: &(Cell, CellState), most: usize) -> Option<usize>
    ensures { SomeIff result (part_count cell.now ≤ most) (most - part_count cell.now) }
{
    let (_, tally, choice) = cell.1.parts();
    let left = most.checked_sub(1)?;
    let left = left.checked_sub(tally.parts().as_slice().len())?;
    left.checked_sub(choice.parts().len())
}

/// Returns the line of the join of the first `count` deltas; none if it is too long.
fn whole_line(alloc: Global, deltas: &[Delta], count: usize) -> Result<Option<Vec<u8>>, Refusal>
    requires some { 0 < count }
    requires within { count ≤ length deltas.now }
    ensures line { IfOk result (λ o. IfSome o (λ line. IsGroupLine deltas.now count line.items)) }
    ensures memory { IfErr result (λ e. e ≡ Refusal.Memory) }
{
    let joint = Delta::joined(alloc, &deltas[..count])?;
    // for the fact that the parts are a delta
    let _ = joint.parts();
    short_line(alloc, &joint)
}

/// Returns the line of the delta; none if it is too long.
fn short_line(alloc: Global, delta: &Delta) -> Result<Option<Vec<u8>>, Refusal>
    ensures line { IfOk result (λ o. IfSome o (λ line. line.items ≡ delta_text delta.now)) }
    ensures fits { IfOk result (λ o. IfSome o (λ line. length line.items ≤ DELTA_LINE_LIMIT)) }
    ensures memory { IfErr result (λ e. e ≡ Refusal.Memory) }
{
    match joint_line(alloc, delta) {
        Ok(line) => Ok(Some(line)),
        Err(Refusal::TooLong) => Ok(None),
        Err(refusal) => Err(refusal),
    }
}

/// Returns the joins of the first delta, of the first two, and so on, at most `most` joins. After the first one, it
/// stops before a join that is surely too long for a line, as then all larger joins are.
fn joined_upward(alloc: Global, deltas: &[Delta], most: usize) -> Result<Vec<Delta>, Refusal>
    ensures joints { IfOk result (λ js. AreJoints deltas.now most js.items) }
    ensures memory { IfErr result (λ e. e ≡ Refusal.Memory) }
{
    let count = most.min(deltas.len());
    let mut joints = Vec::new(alloc);
    'joints: while joints.len() < count {
        let joint = next_joint(alloc, &joints, deltas)?;
        // a single delta nearly always fits, and its line is tried anyway
        if !joints.is_empty() && outgrows_line(&joint) {
            return Ok(joints);
        }
        joints.push(joint)?;
    }
    Ok(joints)
}

/// Returns the join of the first deltas that has one delta more than the last of `joints`.
fn next_joint(alloc: Global, joints: &[Delta], deltas: &[Delta]) -> Result<Delta, Refusal>
    requires within { length joints.now < length deltas.now }
    requires joints { AreFirstJoints deltas.now joints.now }
    ensures joint { IfOk result (λ j. IsJoint (take (length joints.now + 1) deltas.now) j) }
    ensures memory { IfErr result (λ e. e ≡ Refusal.Memory) }
{
    let count = joints.len();
    let delta = &deltas[count];
    if count == 0 {
        // for the fact that the parts are a delta
        let _ = delta.parts();
        return delta.twin(alloc);
    }
    joined_pair(alloc, &joints[count - 1], delta)
}

/// Returns the join of two deltas.
fn joined_pair(alloc: Global, joint: &Delta, delta: &Delta) -> Result<Delta, Refusal>
    ensures joined { IfOk result (λ j. state_of j ≡ joined_history (joint.now ∷ delta.now ∷ [])) }
    ensures delta { IfOk result IsDelta }
    ensures memory { IfErr result (λ e. e ≡ Refusal.Memory) }
{
    let pair = [joint.twin(alloc)?, delta.twin(alloc)?];
    let joined = Delta::joined(alloc, &pair)?;
    // for the fact that the parts are a delta
    let _ = joined.parts();
    Ok(joined)
}

/// Returns the line of the delta; refused as `TooLong` if it is too long.
fn joint_line(alloc: Global, joint: &Delta) -> Result<Vec<u8>, Refusal>
    ensures line { IfOk result (λ line. line.items ≡ delta_text joint.now) }
    ensures fits { IfOk result (λ line. length line.items ≤ DELTA_LINE_LIMIT) }
    ensures too_long { result ≡ Err Refusal.TooLong → DELTA_LINE_LIMIT < length (delta_text joint.now) }
    ensures refused { IfErr result (λ e. (e ≡ Refusal.TooLong) ⊎ (e ≡ Refusal.Memory)) }
{
    let mut line = Vec::new(alloc);
    encode(alloc, joint, &mut line)?;
    Ok(line)
}
