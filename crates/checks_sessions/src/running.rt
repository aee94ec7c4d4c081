//! A session of a sheet whose source fails midway.
ghost use Rattle.std.specs.Prelude.{◌≡◌, ◌<◌};
ghost use Rattle.ps_grid.specs.Blanks.{IsBlankOf};

use ps_device::{Reading, Writing};
use ps_eval::Meter;
use ps_grid::Refusal;
use ps_session::{RunFault, run};
use ps_sheet::Sheet;
use std::alloc::Global;
use std::cell::RefCell;
use std::io;
use std::io::{ErrorKind, Read, Write};
use std::marker::Brand;
use std::sync::ledger::{Blank, Ledger};
use std::test::Fail;
use std::thread::Threads;

/// A reader that returns its bytes, and then fails or ends.
#[derive(Drop)]
struct Given<'a> {
    bytes: &'a [u8],
    fails: bool,
}

impl Read for Given<'_> {
    fn read(&mut self, buf: &mut [u8]) -> io::Result<usize> {
        if self.bytes.is_empty() && self.fails {
            return Err(io::Error::from(ErrorKind::Other));
        }
        let count = self.bytes.len().min(buf.len());
        buf[..count].copy_from_slice(&self.bytes[..count]);
        self.bytes = &self.bytes[count..];
        Ok(count)
    }
}

/// A writer that stores what it gets for `calls` calls, and then fails.
#[derive(Drop)]
struct Keeper<'a> {
    kept: &'a RefCell<Vec<u8>>,
    calls: usize,
}

impl Write for Keeper<'_> {
    fn write(&mut self, buf: &[u8]) -> io::Result<usize> {
        if buf.is_empty() {
            return Ok(0);
        }
        if self.calls == 0 {
            return Err(io::Error::from(ErrorKind::Other));
        }
        self.calls -= 1;
        match self.kept.try_borrow_mut() {
            Ok(mut kept) => kept.extend_from_slice(buf)?,
            Err(_) => return Err(io::Error::from(ErrorKind::Other)),
        }
        Ok(buf.len())
    }

    fn flush(&mut self) -> io::Result<()> {
        Ok(())
    }
}

/// The result of a session, and the version of its sheet.
#[derive(Clone, Copy)]
struct SessionEnd {
    ran: Result<u64, RunFault>,
    version: u64,
}

fn ended<R: Threads + Sync, I: Ledger, O: Ledger, M: Ledger>(
    rt: &R,
    alloc: Global,
    given: Given,
    keeper: Keeper,
    input: Blank,
    output: Blank,
    count: Blank,
) -> Result<SessionEnd, Refusal>
    requires input { IsBlankOf input I.name I.parts }
    requires output { IsBlankOf output O.name O.parts }
    requires count { IsBlankOf count M.name M.parts }
{
    let mut source = Reading::<Given, I>::new(given, input);
    let mut sink = Writing::<Keeper, O>::new(keeper, output);
    let mut sheet = Sheet::open(alloc, 1, 1)?;
    let mut meter = Meter::<M>::new(count);
    let ran = run(rt, alloc, &mut source, &mut sink, &mut sheet, &mut meter);
    meter.end();
    Ok(SessionEnd {
        ran,
        version: sheet.version(),
    })
}

/// Runs a session that reads from `given` and writes its replies to `keeper`.
fn session<R: Threads + Sync>(
    rt: &R,
    alloc: Global,
    given: Given,
    keeper: Keeper,
) -> Result<SessionEnd, Refusal> {
    ended::<R, Brand, Brand, Brand>(
        rt,
        alloc,
        given,
        keeper,
        Blank::new(1),
        Blank::new(1),
        Blank::new(1),
    )
}

/// If the source fails in the middle of a line, the complete lines are answered, and the rest isn't carried out.
#[test]
fn a_failing_source(rt: HostRuntime) -> Result<(), Fail> {
    let kept = RefCell::new(Vec::new(rt.alloc()));
    let given = Given {
        bytes: b"set A1 5\nset B1",
        fails: true,
    };
    let keeper = Keeper {
        kept: &kept,
        calls: 100,
    };
    let found = session(&rt, rt.alloc(), given, keeper)?;
    assert!(rt; found.ran == Err(RunFault::Source) && found.version == 1);
    assert!(rt; kept.into_inner().as_slice() == b"ok 1\n".as_slice());
    Ok(())
}
