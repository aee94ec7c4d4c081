//! Reads a line of a kept file, which stores a sheet's changes as lines of text.
ghost use Rattle.std.specs.Prelude.{◌≡◌, ◌⊎◌, Err, IfErr, IfOk, MatchOption};
ghost use Rattle.ps_delta.specs.Deltas.{Entries};
ghost use Rattle.ps_lines.specs.PushLine.{IsPush, Pushes};
ghost use Rattle.ps_lines.specs.KeptLines.{LineSays, LineSaysNothing};
ghost use Rattle.ps_lines.specs.Words.{first_word};
ghost use Rattle.ps_lines.specs.Commands.{verb_of};
ghost use Rattle.ps_lines.specs.Inside.Kept.{is_kept_verb};

use crate::command::Command;
use crate::replica_line::is_replica_line;
use crate::verb::Verb;
use crate::words::split_word;
use ps_delta::Delta;
use ps_grid::Refusal;
use ps_wire::Decoder;
use std::alloc::Global;

/// What a line of a kept file says.
#[derive(Drop)]
pub enum KeptLine {
    /// The number of the replica that wrote the lines after this one.
    Replica(u8),
    /// The delta of one change.
    Push(Delta),
}

/// Returns what a line of a kept file says: the number of a replica, or the delta of a change. Returns `None` if the
/// line says neither.
///
/// A replica's line must be spelled exactly as [`crate::put_replica_line`] writes it. A delta may have any spelling
/// that [`Command::read`] accepts. `decoder` decodes the delta.
///
/// # Errors
///
/// - `Delta`: the line begins with `push `, and the rest isn't the text of a delta.
/// - `Memory`: out of memory; only for a line that begins with `push `.
///
/// Cost: O(n) in the n bytes of the line. A line that begins with `push ` also costs that of [`Decoder::decode`].
pub fn read_kept_line(
    alloc: Global,
    decoder: &mut Decoder,
    line: &[u8],
) -> Result<Option<KeptLine>, Refusal>
    ensures says { IfOk result (λ found. MatchOption found (LineSaysNothing line.now) (LineSays line.now)) }
    ensures no_delta { result ≡ Err Refusal.Delta → IsPush line.now × ((d : Entries) → ¬ Pushes line.now d) }
    ensures memory { result ≡ Err Refusal.Memory → IsPush line.now }
    ensures refused { IfErr result (λ e. (e ≡ Refusal.Delta) ⊎ (e ≡ Refusal.Memory)) }
{
    // reads no command of another verb, so that no other line takes memory
    if !may_be_kept(line) {
        return Ok(None);
    }
    match Command::read(alloc, decoder, line) {
        Ok(Command::Push(delta)) => Ok(Some(KeptLine::Push(delta))),
        Ok(Command::Replica(Some(replica))) => {
            if is_replica_line(line, replica) {
                Ok(Some(KeptLine::Replica(replica)))
            } else {
                Ok(None)
            }
        }
        Ok(Command::Replica(None)) => Ok(None),
        Ok(_) => unreachable!(),
        // a word too few or too many, or not the number of a replica
        Err(Refusal::Command) => Ok(None),
        Err(Refusal::Replica) => Ok(None),
        Err(Refusal::Delta) => Err(Refusal::Delta),
        Err(Refusal::Memory) => Err(Refusal::Memory),
        Err(_) => unreachable!(),
    }
}

/// Returns whether the line has one of the two verbs of a kept file.
fn may_be_kept(line: &[u8]) -> bool
    ensures { result ≡ is_kept_verb (verb_of (first_word line.now)) }
{
    matches!(
        Verb::read(split_word(line).0),
        Some(Verb::Push | Verb::Replica)
    )
}
