//! Writes the first line of a kept file: the number of the replica that wrote the lines after it.
ghost use Rattle.std.specs.Prelude.{◌≡◌, ◌++◌, Decides, IfOk, OnOk};
ghost use Rattle.ps_lines.specs.ReplicaLine.{replica_line};

use crate::verb::REPLICA;
use crate::words::rest_after;
use itoa::Buffer;
use std::alloc::{AllocError, Global};

/// Appends the line `replica N` to `text`, where N is the number of a replica, without a line feed. Fails when out of
/// memory; `text` may then end with a beginning of the line.
pub fn put_replica_line(replica: u8, text: &mut Vec<u8>) -> Result<(), AllocError>
    ensures { OnOk result (text.new.items ≡ text.old.items ++ replica_line replica) }
{
    text.extend_from_slice(REPLICA.as_bytes())?;
    text.push(b' ')?;
    let mut digits = Buffer::new();
    text.extend_from_slice(digits.format(replica).as_bytes())?;
    Ok(())
}

/// Returns the line that [`put_replica_line`] writes for a replica, without a line feed. Fails when out of memory.
pub fn line_of_replica(alloc: Global, replica: u8) -> Result<Vec<u8>, AllocError>
    ensures { IfOk result (λ line. line.items ≡ replica_line replica) }
{
    let mut line = Vec::new(alloc);
    put_replica_line(replica, &mut line)?;
    Ok(line)
}

/// Returns whether a line is exactly the one that [`put_replica_line`] writes. For replica 7, `replica 07` isn't.
pub(crate) fn is_replica_line(line: &[u8], replica: u8) -> bool
    ensures { Decides result (line.now ≡ replica_line replica) }
{
    let Some(rest) = rest_after(line, REPLICA) else {
        return false;
    };
    let mut digits = Buffer::new();
    rest == digits.format(replica).as_bytes()
}
