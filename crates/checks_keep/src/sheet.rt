//! A start over the file of a kept sheet.
ghost use Rattle.ps_grid.specs.Blanks.{IsBlankOf};

use ps_eval::Meter;
use ps_keep::MemoryFile;
use ps_kept::{KeepFault, open_kept};
use std::alloc::Global;
use std::marker::Brand;
use std::sync::ledger::{Blank, Ledger};
use std::test::Fail;
use std::thread::Threads;

/// A file with changes of each form.
const FILE: &str = "replica 1
push [[\"A1\",[1,1,\"5\"],[],[]]]
push [[\"B1\",[1,1,\"=[.A1]*2\"],[],[]]]
push [[\"C1\",[1,1,\"@tally\"],[],[]]]
push [[\"C1\",null,[[1,7,0]],[]]]
push [[\"C1\",null,[[1,0,2]],[]]]
push [[\"D1\",[1,1,\"@choice\"],[],[]]]
push [[\"D1\",null,[],[[3,1,1,0]]]]
push [[\"D1\",null,[],[[3,1,1,1]]]]
push [[\"A1\",[2,2,\"6\"],[],[]]]
";

/// The number of its changes.
const CHANGES: u64 = 9;

/// The number of changes that a start reads of a file, or why it is refused, with the file that it returns.
type Started = Result<u64, (KeepFault, Option<MemoryFile>)>;

fn started_with<L: Ledger, R: Threads + Sync>(
    rt: &R,
    blank: Blank,
    alloc: Global,
    bytes: Vec<u8>,
) -> Started
    requires { IsBlankOf blank L.name L.parts }
{
    let mut meter = Meter::<L>::new(blank);
    let file = MemoryFile { bytes, calls: 9 };
    let opened = open_kept(rt, alloc, file, 1, 1, &mut meter);
    meter.end();
    match opened {
        Ok((sheet, _keeper)) => Ok(sheet.version()),
        Err(refused) => Err(refused),
    }
}

/// What a start at replica 1 reads of a file of these bytes.
fn started<R: Threads + Sync>(rt: &R, alloc: Global, bytes: &[u8]) -> Started {
    match bytes.to_vec(alloc) {
        Ok(bytes) => started_with::<Brand, R>(rt, Blank::new(1), alloc, bytes),
        Err(_) => Err((KeepFault::Memory, None)),
    }
}

/// Whichever single allocation fails: the start is either refused as out of memory, with the file as it was, or it
/// succeeds. The next start reads the file.
#[test]
fn refused_open_kept(rt: HostRuntime) -> Result<(), Fail> {
    for _ in 0..2 {
        match started(&rt, rt.alloc(), FILE.as_bytes()) {
            Ok(changes) => {
                assert!(rt; changes == CHANGES);
                return Ok(());
            }
            Err((KeepFault::Memory, Some(file))) => {
                assert!(rt; file.bytes.as_slice() == FILE.as_bytes());
            }
            // out of memory for the file itself
            Err((KeepFault::Memory, None)) => {}
            Err(_) => assert!(rt; false),
        }
    }
    assert!(rt; false);
    Ok(())
}
