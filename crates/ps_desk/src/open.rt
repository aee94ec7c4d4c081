//! Opening a desk.

ghost use Rattle.std.specs.Prelude.{◌≡◌, ◌⊎◌, ◌≤◌, [], All, IfOk, IfErr, vec_len};
ghost use Rattle.ps_grid.specs.declared.parties.TheConstants.{SEATS as MOST};
ghost use Rattle.ps_grid.specs.declared.refusal.Refusal.TheVariants.{Memory, Seat};
ghost use Rattle.ps_face.specs.Rules.{newcomer};
ghost use Rattle.ps_desk.specs.Opening.{IsNamed, new_passes};

use crate::desk::Desk;
use crate::name::DeskName;
use crate::parts::Parts;
use crate::pass::Pass;
use crate::shown_position::ShownPosition;
use crate::state::DeskState;
use ps_face::{FaceReader, FaceWriter, NewBook};
use ps_grid::Refusal;
use ps_sheet::Sheet;
use std::alloc::Global;
use std::sync::Wait;
use std::sync::ledger::Share;

impl<L: DeskName, W: Wait + Drop> Desk<L, W> {
    /// Opens a desk over the sheet of these parts, and returns the desk and a pass for each session slot. The passes
    /// have seen nothing. `keep` is the means to wait for readers of an older published copy.
    ///
    /// Fails with `Memory` when out of memory, and with `Seat` if the published copies have no room for another reader.
    /// A failed call returns the sheet with the refusal. The caller picks the name `L`, whose members have to describe
    /// the parts.
    ///
    /// Cost: that of copying the shown values twice.
    pub fn open(
        keep: W,
        alloc: Global,
        parts: Parts,
    ) -> Result<(Desk<L, W>, Vec<Pass<L>>), (Sheet, Refusal)>
        requires named { IsNamed L.name L.parts L.book L.opening L.replica parts }
        ensures seats { IfOk result (λ r. r.0 ≡ parts.seats) }
        ensures passes { IfOk result (λ r. r.1.items ≡ new_passes parts.seats) }
        ensures same { IfErr result (λ e. e.0 ≡ parts.sheet) }
        ensures refused { IfErr result (λ e. (e.1 ≡ Memory) ⊎ (e.1 ≡ Seat)) }
    {
        let Parts {
            sheet,
            opened,
            blank,
            seats,
        } = parts;
        let (book, all) = blank.open::<L>();
        let replica = sheet.replica();
        match open_copies(keep, alloc, opened, &sheet, all, seats) {
            Ok((copies, passes)) => {
                let state = DeskState::new(sheet, copies, book);
                Ok((Desk::new(state, seats, replica), passes))
            }
            Err(refusal) => Err((sheet, refusal)),
        }
    }
}

/// Makes the published copies of a sheet, and a pass for each slot.
fn open_copies<L: DeskName, W: Wait + Drop>(
    keep: W,
    alloc: Global,
    opened: NewBook,
    sheet: &Sheet,
    all: Share<L>,
    seats: usize,
) -> Result<(FaceWriter<L, W>, Vec<Pass<L>>), Refusal>
    requires book { opened ≡ L.book }
    requires history { sheet.now.history ≡ L.opening }
    requires seats { (1 ≤ seats) × (seats ≤ MOST) }
    requires parts { all.parts ≡ seats }
    requires amount { all.amount ≡ 0 }
    ensures copies { IfOk result (λ r. r.0 ≡ record { list = []; shown = []; pending = [] }) }
    ensures passes { IfOk result (λ r. r.1.items ≡ new_passes seats) }
    ensures refused { IfErr result (λ e. (e ≡ Memory) ⊎ (e ≡ Seat)) }
{
    let (copies, readers) = FaceWriter::open(
        keep,
        alloc,
        opened,
        sheet.all_shown(),
        sheet.version(),
        seats,
    )?;
    // for the fact that the empty list is legal
    let _ = copies.front();
    let shown = ShownPosition::new(&copies.shown());
    let passes = make_passes(alloc, readers, &shown, all, seats)?;
    Ok((copies, passes))
}

/// Makes a pass for each reader.
fn make_passes<L: DeskName>(
    alloc: Global,
    mut readers: Vec<FaceReader<L>>,
    shown: &ShownPosition<L>,
    mut all: Share<L>,
    seats: usize,
) -> Result<Vec<Pass<L>>, Refusal>
    requires readers { All (λ v. v ≡ newcomer) readers.items }
    requires seats { vec_len readers ≡ seats }
    requires parts { all.parts ≡ seats }
    requires amount { all.amount ≡ 0 }
    ensures passes { IfOk result (λ p. p.items ≡ new_passes seats) }
    ensures memory { IfErr result (λ e. e ≡ Memory) }
{
    let mut passes = Vec::with_capacity(alloc, seats)?;
    for seat in 0..seats {
        let reader = readers.pop().unwrap();
        let share = all.split_off(1, 0);
        passes.push(Pass::new(reader, shown.again(), share, seat as u64))?;
    }
    Ok(passes)
}
