//! Reads the lines of a source one after another, and joins what a selection takes of their deltas.
ghost use Rattle.std.specs.Prelude.{◌≡◌, ◌⊎◌, ◌+◌, ◌-◌, ◌^◌, ◌<◌, ◌≤◌, ℕ, List, [], Err, IfOk, IfErr, OnOk, ⊤};
ghost use Rattle.std.specs.Prelude.{Decides, None, Option, length, min, take};
ghost use Rattle.std.specs.Io.KnownBytes.{Consumes, IsAtEnd};
ghost use Rattle.ps_grid.specs.declared.refusal.Refusal.TheVariants as refusals;
ghost use Rattle.ps_delta.specs.Deltas.{Entries};
ghost use Rattle.ps_delta.specs.State.{state_at};
ghost use Rattle.ps_lines.specs.Feeding.{Holds, without_return};
ghost use Rattle.ps_lines.specs.ReplicaLine.{TellsNone};
ghost use Rattle.ps_squash.specs.Squashed.{FirstFault, FirstSays, IsSilent, Says};
ghost use Rattle.ps_squash.specs.Selected.{SelectedTogether};
ghost use Rattle.ps_squash.specs.Inside.{Fails, GoesOn, IsOfIntake, IsOfLines, IsRead, NextSays, StandsAfter};
ghost use Rattle.ps_squash.specs.Inside.{sum_after, sum_of};
ghost use Rattle.ps_squash.specs.declared.selection.Selection.{Selection};
ghost use Rattle.ps_squash.specs.declared.fault.SquashFault.TheVariants.{Line as FaultyLine};

use crate::fault::SquashFault;
use crate::selection::Selection;
use crate::taken::Taken;
use ps_device::{PIECE_BYTES, Source};
use ps_grid::Refusal;
use ps_lines::{KeptLine, Line, LineBuffer, is_digest_line, read_kept_line};
use ps_wire::Decoder;
use std::alloc::Global;

/// The state of reading a source: the line that is being read, and the join of what was taken of the lines before it.
#[derive(Drop)]
struct Intake {
    /// The allocator.
    alloc: Global,
    /// Reads the deltas of the lines.
    decoder: Decoder,
    /// The line that is being read.
    session: LineBuffer,
    /// The replica that the first line names, if it names one.
    told: Option<u8>,
    /// The join of what the selection takes of the lines so far.
    taken: Taken,
    /// The number of lines that have ended; 2^64 - 1 stands for that number and more.
    ended: u64,
}

/// Returns whether a line is silent, that is, says nothing: it is empty, or has a digest.
fn is_silent(line: &[u8]) -> bool
    ensures { Decides result (IsSilent line.now) }
{
    line.is_empty() || is_digest_line(line)
}

/// Returns what a line says: a replica, or a delta with or without `push ` before it. Returns `None` if the line is
/// silent.
///
/// Fails as `Delta` if the line is none of these, and as `Memory` when out of memory.
fn read_line(alloc: Global, decoder: &mut Decoder, line: &[u8]) -> Result<Option<KeptLine>, Refusal>
    ensures read { IfOk result (IsRead line.now) }
    ensures faulty { result ≡ Err refusals.Delta → (deltas : List Entries) → ¬ Says line.now deltas }
    ensures untold { result ≡ Err refusals.Delta → TellsNone line.now }
    ensures refused { IfErr result (λ e. (e ≡ refusals.Delta) ⊎ (e ≡ refusals.Memory)) }
{
    if is_silent(line) {
        return Ok(None);
    }
    match read_kept_line(alloc, decoder, line)? {
        None => Ok(Some(KeptLine::Push(decoder.decode(alloc, line)?))),
        said => Ok(said),
    }
}

/// Adds a line's delta to `taken`, or returns the replica that the line names. A silent line changes nothing.
///
/// Fails as `Delta` if the line isn't silent, names no replica and is no delta's, and as `Memory` when out of memory.
fn join_line(
    alloc: Global,
    decoder: &mut Decoder,
    line: &[u8],
    taken: &mut Taken,
) -> Result<Option<u8>, Refusal>
    ensures joined { IfOk result (λ told. (deltas : List Entries) × FirstSays line.now told deltas
        × (sum_of (state_at taken.new.state) taken.new.still
        ≡ sum_after (sum_of (state_at taken.old.state) taken.old.still) deltas)) }
    ensures faulty { result ≡ Err refusals.Delta → (deltas : List Entries) → ¬ Says line.now deltas }
    ensures untold { result ≡ Err refusals.Delta → TellsNone line.now }
    ensures refused { IfErr result (λ e. (e ≡ refusals.Delta) ⊎ (e ≡ refusals.Memory)) }
{
    match read_line(alloc, decoder, line)? {
        None => Ok(None),
        Some(KeptLine::Replica(replica)) => Ok(Some(replica)),
        Some(KeptLine::Push(delta)) => {
            taken.add(alloc, &delta)?;
            Ok(None)
        }
    }
}

impl Intake {
    /// Joins what the line says that ended last. Only the first line may name a replica.
    fn join(&mut self) -> Result<(), Refusal>
        ensures joined { OnOk result ((deltas : List Entries)
            × NextSays self.old.ended self.old.told (without_return self.old.session.line) self.new.told deltas
            × (sum_of (state_at self.new.taken.state) self.new.taken.still
            ≡ sum_after (sum_of (state_at self.old.taken.state) self.old.taken.still) deltas)) }
        ensures faulty { result ≡ Err refusals.Delta
            → (deltas : List Entries) → ¬ Says (without_return self.old.session.line) deltas }
        ensures untold { result ≡ Err refusals.Delta
            → self.old.ended ≡ 0 → TellsNone (without_return self.old.session.line) }
        ensures refused { IfErr result (λ e. (e ≡ refusals.Delta) ⊎ (e ≡ refusals.Memory)) }
        ensures session { self.new.session ≡ self.old.session }
        ensures ended { self.new.ended ≡ self.old.ended }
    {
        let told = join_line(
            self.alloc,
            &mut self.decoder,
            self.session.line(),
            &mut self.taken,
        )?;
        if self.ended == 0 {
            self.told = told;
        } else if told.is_some() {
            return Err(Refusal::Delta);
        }
        Ok(())
    }

    /// Takes in the line that has ended, and counts it.
    fn close(&mut self, line: Line) -> Result<(), SquashFault>
        ensures joined { OnOk result ((raw : List ℕ) → Holds line self.old.session raw
            → (deltas : List Entries)
            × NextSays self.old.ended self.old.told (without_return raw) self.new.told deltas
            × (sum_of (state_at self.new.taken.state) self.new.taken.still
            ≡ sum_after (sum_of (state_at self.old.taken.state) self.old.taken.still) deltas)) }
        ensures faulty { IfErr result (λ f. (number : ℕ) → f ≡ FaultyLine number
            → (raw : List ℕ) → Holds line self.old.session raw
            → ((deltas : List Entries) → ¬ Says (without_return raw) deltas)
            × (self.old.ended ≡ 0 → TellsNone (without_return raw))
            × (number ≡ min (self.old.ended + 1) (2 ^ 64 - 1))) }
        ensures counted { OnOk result (self.new.ended ≡ min (self.old.ended + 1) (2 ^ 64 - 1)) }
        ensures session { self.new.session ≡ self.old.session }
        ensures refused { IfErr result IsOfLines }
    {
        let number = self.ended.saturating_add(1);
        match line {
            Line::None => {}
            Line::Full => match self.join() {
                Ok(()) => {}
                Err(Refusal::Delta) => return Err(SquashFault::Line(number)),
                Err(Refusal::Memory) => return Err(SquashFault::Memory),
                Err(_) => unreachable!(),
            },
            Line::TooLong => return Err(SquashFault::Line(number)),
        }
        self.ended = number;
        Ok(())
    }

    /// Takes in a piece up to its first line feed, and the line that ends there. Returns how many bytes it took.
    fn turn(&mut self, piece: &[u8]) -> Result<usize, SquashFault>
        requires some { 0 < length piece.now }
        ensures within { IfOk result (λ taken. (0 < taken) × (taken ≤ length piece.now)) }
        ensures stands { IfOk result (λ taken. GoesOn (take taken piece.now)
            self.old.session.pending self.old.told
            (sum_of (state_at self.old.taken.state) self.old.taken.still) self.old.ended
            self.new.session.pending self.new.told
            (sum_of (state_at self.new.taken.state) self.new.taken.still) self.new.ended) }
        ensures faulty { IfErr result (λ f. (number : ℕ) → f ≡ FaultyLine number → Fails ⊥ piece.now
            self.old.session.pending self.old.told (sum_of (state_at self.old.taken.state) self.old.taken.still)
            self.old.ended number) }
        ensures refused { IfErr result IsOfLines }
    {
        let fed = self.session.feed(piece);
        match fed.line {
            Line::None => Ok(fed.taken),
            line => match self.close(line) {
                Ok(()) => Ok(fed.taken),
                Err(fault) => Err(fault),
            },
        }
    }

    /// Takes in a whole piece, and each line that ends in it.
    fn take_in(&mut self, piece: &[u8]) -> Result<(), SquashFault>
        ensures stands { OnOk result (GoesOn piece.now
            self.old.session.pending self.old.told
            (sum_of (state_at self.old.taken.state) self.old.taken.still) self.old.ended
            self.new.session.pending self.new.told
            (sum_of (state_at self.new.taken.state) self.new.taken.still) self.new.ended) }
        ensures faulty { IfErr result (λ f. (number : ℕ) → f ≡ FaultyLine number → Fails ⊥ piece.now
            self.old.session.pending self.old.told (sum_of (state_at self.old.taken.state) self.old.taken.still)
            self.old.ended number) }
        ensures refused { IfErr result IsOfLines }
    {
        let mut start = 0;
        'turns: while start < piece.len() {
            match self.turn(&piece[start..]) {
                Ok(taken) => start += taken,
                Err(fault) => return Err(fault),
            }
        }
        Ok(())
    }

    /// Takes in the last line of the input, if it has no line feed.
    fn finish(&mut self) -> Result<(), SquashFault>
        ensures together { OnOk result ((asked : Selection) → (read : List ℕ)
            → StandsAfter asked read self.old.session.pending self.old.told
            (sum_of (state_at self.old.taken.state) self.old.taken.still) self.old.ended → SelectedTogether asked read self.new.told (state_at self.new.taken.state)) }
        ensures faulty { IfErr result (λ f. (number : ℕ) → f ≡ FaultyLine number
            → (asked : Selection) → (read : List ℕ)
            → StandsAfter asked read self.old.session.pending self.old.told
            (sum_of (state_at self.old.taken.state) self.old.taken.still) self.old.ended → FirstFault ⊤ read number) }
        ensures refused { IfErr result IsOfLines }
    {
        match self.session.end() {
            Line::None => Ok(()),
            line => match self.close(line) {
                Ok(()) => Ok(()),
                Err(fault) => Err(fault),
            },
        }
    }
}

/// Reads the source to its end, and takes in each line with a line feed.
fn read_on<S: Source>(intake: &mut Intake, source: &mut S) -> Result<(), SquashFault>
    ensures read { OnOk result ((read : List ℕ)
        × Consumes (S.remaining source.old) (S.remaining source.new) read × IsAtEnd (S.remaining source.new)
        × ((asked : Selection)
        → StandsAfter asked [] intake.old.session.pending intake.old.told
        (sum_of (state_at intake.old.taken.state) intake.old.taken.still) intake.old.ended
        → StandsAfter asked read intake.new.session.pending intake.new.told
        (sum_of (state_at intake.new.taken.state) intake.new.taken.still) intake.new.ended)) }
    ensures faulty { IfErr result (λ f. (number : ℕ) → f ≡ FaultyLine number
        → (read : List ℕ) × Consumes (S.remaining source.old) (S.remaining source.new) read
        × ((asked : Selection)
        → StandsAfter asked [] intake.old.session.pending intake.old.told
        (sum_of (state_at intake.old.taken.state) intake.old.taken.still) intake.old.ended
        → FirstFault ⊥ read number)) }
    ensures calm { OnOk result (S.failures source.new ≡ S.failures source.old) }
    ensures failed { result ≡ Err SquashFault.Source → S.failures source.old < S.failures source.new }
    ensures refused { IfErr result IsOfIntake }
{
    let mut piece = [0u8; PIECE_BYTES];
    'pieces: loop {
        let count = match source.take(&mut piece) {
            Ok(count) => count,
            Err(_) => return Err(SquashFault::Source),
        };
        if count == 0 {
            return Ok(());
        }
        match intake.take_in(&piece[..count]) {
            Ok(()) => {}
            Err(fault) => return Err(fault),
        }
    }
}

/// Reads a source to its end, and returns the replica that its first line names, and the join of what `selection` takes
/// of its lines.
///
/// Fails as `Line` at the first faulty line: it isn't silent, is no delta's, and isn't a first line that names a
/// replica. Fails as `Source` if the source fails, and as `Memory` when out of memory.
///
/// Cost: that of reading the lines and of joining their deltas. It takes memory for the joined state, one line and a
/// decoder.
pub(crate) fn taken_in<S: Source>(
    alloc: Global,
    source: &mut S,
    selection: Selection,
) -> Result<(Option<u8>, Taken), SquashFault>
    ensures together { IfOk result (λ taken. (read : List ℕ)
        × Consumes (S.remaining source.old) (S.remaining source.new) read × IsAtEnd (S.remaining source.new)
        × SelectedTogether selection read taken.0 (state_at taken.1.state)) }
    ensures faulty { IfErr result (λ f. (number : ℕ) → f ≡ FaultyLine number
        → (read : List ℕ) × Consumes (S.remaining source.old) (S.remaining source.new) read
        × FirstFault (IsAtEnd (S.remaining source.new)) read number) }
    ensures calm { IfOk result (λ _. S.failures source.new ≡ S.failures source.old) }
    ensures failed { result ≡ Err SquashFault.Source → S.failures source.old < S.failures source.new }
    ensures refused { IfErr result IsOfIntake }
{
    let mut intake = begin(alloc, selection)?;
    match read_on(&mut intake, source) {
        Ok(()) => {}
        Err(fault) => return Err(fault),
    }
    match intake.finish() {
        Ok(()) => Ok((intake.told, intake.taken)),
        Err(fault) => Err(fault),
    }
}

/// Creates an intake that has read nothing.
fn begin(alloc: Global, selection: Selection) -> Result<Intake, SquashFault>
    ensures stands { IfOk result (λ intake. StandsAfter selection [] intake.session.pending intake.told
        (sum_of (state_at intake.taken.state) intake.taken.still) intake.ended) }
    ensures memory { IfErr result (λ f. f ≡ SquashFault.Memory) }
{
    let session = LineBuffer::new(alloc)?;
    let taken = match Taken::new(alloc, selection) {
        Ok(taken) => taken,
        Err(Refusal::Memory) => return Err(SquashFault::Memory),
        Err(_) => unreachable!(),
    };
    Ok(Intake {
        alloc,
        decoder: Decoder::new(alloc),
        session,
        told: None,
        taken,
        ended: 0,
    })
}
