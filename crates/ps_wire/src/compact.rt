//! Reads lines in the form that `encode` writes, by a guess.
//!
//! No contract says which delta a guess returns. A guessed delta is accepted only if the text that serde_json writes
//! for it has the bytes of the line, one by one. Every other line is left to serde_json's reader, so a wrong guess
//! costs only time.

ghost use Rattle.std.specs.Prelude.{◌≡◌, IfOk, IfErr, IfSome};
ghost use Rattle.ps_grid.specs.declared.refusal.Refusal.TheVariants.{Memory};
ghost use Rattle.ps_wire.specs.Inside.{ReadsAs};

use crate::line::compact_text;
use ps_content::{Content, read_canonical};
use ps_delta::{CellState, Delta};
use ps_grid::{Cell, Refusal, read_digits};
use ps_lattice::{Assignment, Choice, Count, Pair, Register, Tally};
use std::alloc::{AllocError, AllocFailed, Global};

/// The most bytes of formulas that a guess reads in one line; the formulas of a row's cells have fewer. After a wrong
/// guess formulas are read again, so this bounds the cost of a refused line.
const FORMULA_BYTES: usize = 65_536;

/// Returns the delta of a line in the form that `encode` writes, or `None` if the line may have another form.
pub(crate) fn read_compact(alloc: Global, line: &[u8]) -> Result<Option<Delta>, Refusal>
    ensures reads { IfOk result (λ found. IfSome found (ReadsAs line.now)) }
    ensures memory { IfErr result (λ e. e ≡ Memory) }
{
    match guess(alloc, line) {
        Ok(delta) => confirm(alloc, delta, line),
        Err(Miss::Refused(refusal)) if refusal == Refusal::Memory => Err(refusal),
        Err(_) => Ok(None),
    }
}

/// Returns the guessed delta if the text that serde_json writes for it is the line; else `None`.
fn confirm(alloc: Global, delta: Delta, line: &[u8]) -> Result<Option<Delta>, Refusal>
    ensures reads { IfOk result (λ found. IfSome found (ReadsAs line.now)) }
    ensures memory { IfErr result (λ e. e ≡ Memory) }
{
    let text = compact_text(alloc, &delta)?;
    if text.as_slice() == line {
        Ok(Some(delta))
    } else {
        Ok(None)
    }
}

/// Why there is no guess.
#[derive(Drop)]
enum Miss {
    /// The line has another form, or stands for no delta.
    OtherForm,
    /// A call was refused, out of memory.
    Refused(Refusal),
}

impl From<AllocError> for Miss {
    fn from(error: AllocError) -> Miss {
        Miss::Refused(Refusal::from(error))
    }
}

impl<T: Drop> From<AllocFailed<T>> for Miss {
    fn from(error: AllocFailed<T>) -> Miss {
        Miss::Refused(Refusal::from(error))
    }
}

/// Guesses the delta of a line.
fn guess(alloc: Global, line: &[u8]) -> Result<Delta, Miss> {
    let mut rest = Rest {
        bytes: line,
        formulas: FORMULA_BYTES,
    };
    rest.expect(b'[')?;
    let (cell, state) = rest.cell(alloc)?;
    if !rest.skip(b',') {
        return Delta::of_one(cell, state).ok_or(Miss::OtherForm);
    }
    let mut cells = Vec::with_capacity(alloc, 2)?;
    cells.push((cell, state))?;
    for _ in 0..line.len() {
        cells.push(rest.cell(alloc)?)?;
        if !rest.skip(b',') {
            break;
        }
    }
    made(Delta::new(alloc, cells))
}

/// Returns the value that a call made. Without one the line has another form, or the call was refused, out of memory.
#[inline(always)]
fn made<T>(answer: Result<Option<T>, Refusal>) -> Result<T, Miss> {
    match answer {
        Ok(Some(value)) => Ok(value),
        Ok(None) => Err(Miss::OtherForm),
        Err(refusal) => Err(Miss::Refused(refusal)),
    }
}

/// The rest of a line.
#[derive(Drop)]
struct Rest<'a> {
    /// The bytes that aren't read yet.
    bytes: &'a [u8],
    /// How many bytes of formulas may still be guessed.
    formulas: usize,
}

impl<'a> Rest<'a> {
    /// Skips the next byte if it is `byte`, and returns whether it is.
    #[inline(always)]
    fn skip(&mut self, byte: u8) -> bool {
        match self.bytes {
            [first, rest @ ..] if *first == byte => {
                self.bytes = rest;
                true
            }
            _ => false,
        }
    }

    /// Skips the next byte, which has to be `byte`.
    #[inline(always)]
    fn expect(&mut self, byte: u8) -> Result<(), Miss> {
        if self.skip(byte) {
            Ok(())
        } else {
            Err(Miss::OtherForm)
        }
    }

    /// Takes the bytes before the first `byte`, and skips this one.
    #[inline(always)]
    fn until(&mut self, byte: u8) -> Result<&'a [u8], Miss> {
        let Some(len) = self.bytes.iter().position(|b| *b == byte) else {
            return Err(Miss::OtherForm);
        };
        let (before, rest) = self.bytes.split_at(len);
        self.bytes = rest;
        self.expect(byte)?;
        Ok(before)
    }

    /// Takes the number before the first `end`, and skips `end`.
    #[inline(always)]
    fn number(&mut self, end: u8) -> Result<u64, Miss> {
        read_digits(self.until(end)?).ok_or(Miss::OtherForm)
    }

    /// Takes the number of 8 bits before the first `end`, and skips `end`.
    #[inline(always)]
    fn short(&mut self, end: u8) -> Result<u8, Miss> {
        u8::try_from(self.number(end)?).ok().ok_or(Miss::OtherForm)
    }

    /// Takes a cell with its state.
    fn cell(&mut self, alloc: Global) -> Result<(Cell, CellState), Miss> {
        self.expect(b'[')?;
        self.expect(b'"')?;
        let cell = Cell::read(self.until(b'"')?).ok_or(Miss::OtherForm)?;
        self.expect(b',')?;
        let register = self.register(alloc)?;
        self.expect(b',')?;
        let tally = self.tally(alloc)?;
        self.expect(b',')?;
        let choice = self.choice(alloc)?;
        self.expect(b']')?;
        Ok((cell, CellState::from_parts(register, tally, choice)))
    }

    /// Takes a register: an array, or else four bytes. It supposes that these are `null`, and [`confirm`] finds others.
    #[inline(always)]
    fn register(&mut self, alloc: Global) -> Result<Register<Content>, Miss> {
        if !self.skip(b'[') {
            self.bytes = self.bytes.get(4..).ok_or(Miss::OtherForm)?;
            return Ok(Register::empty());
        }
        let time = self.number(b',')?;
        let replica = self.short(b',')?;
        self.expect(b'"')?;
        let content = self.content(alloc)?;
        self.expect(b']')?;
        let assignment = Assignment {
            time,
            replica,
            content,
        };
        Register::from_parts(assignment).ok_or(Miss::OtherForm)
    }

    /// Takes a content's canonical text, in which no byte is escaped, and the quote after it.
    #[inline(always)]
    fn content(&mut self, alloc: Global) -> Result<Content, Miss> {
        let text = self.until(b'"')?;
        if let Some(number) = number(text) {
            return Ok(Content::Number(number));
        }
        if let [b'=', ..] = text {
            let left = self.formulas.checked_sub(text.len());
            self.formulas = left.ok_or(Miss::OtherForm)?;
        }
        made(read_canonical(alloc, text))
    }

    /// Takes the counts of a counter.
    #[inline(always)]
    fn tally(&mut self, alloc: Global) -> Result<Tally, Miss> {
        self.expect(b'[')?;
        if self.skip(b']') {
            return Ok(Tally::empty(alloc));
        }
        let mut counts = Vec::new(alloc);
        for _ in 0..self.bytes.len() {
            counts.push(self.count()?)?;
            if !self.skip(b',') {
                break;
            }
        }
        self.expect(b']')?;
        made(Tally::from_parts(alloc, counts))
    }

    /// Takes a replica with its two counts.
    #[inline(always)]
    fn count(&mut self) -> Result<(u8, Count), Miss> {
        self.expect(b'[')?;
        let replica = self.short(b',')?;
        let added = self.number(b',')?;
        let subtracted = self.number(b']')?;
        Ok((replica, Count { added, subtracted }))
    }

    /// Takes the pairs of a set.
    #[inline(always)]
    fn choice(&mut self, alloc: Global) -> Result<Choice, Miss> {
        self.expect(b'[')?;
        if self.skip(b']') {
            return Ok(Choice::empty(alloc));
        }
        let mut pairs = Vec::new(alloc);
        for _ in 0..self.bytes.len() {
            pairs.push(self.pair()?)?;
            if !self.skip(b',') {
                break;
            }
        }
        self.expect(b']')?;
        made(Choice::from_parts(alloc, pairs))
    }

    /// Takes a pair, and whether it is gone. It supposes that the last number is 0 or 1, and [`confirm`] finds others.
    #[inline(always)]
    fn pair(&mut self) -> Result<(Pair, bool), Miss> {
        self.expect(b'[')?;
        let option = self.short(b',')?;
        let replica = self.short(b',')?;
        let sequence = u16::try_from(self.number(b',')?)
            .ok()
            .ok_or(Miss::OtherForm)?;
        let gone = self.number(b']')? == 1;
        let pair = Pair {
            option,
            replica,
            sequence,
        };
        Ok((pair, gone))
    }
}

/// Reads a number with or without a minus.
#[inline(always)]
fn number(text: &[u8]) -> Option<i64> {
    match text {
        [b'-', digits @ ..] => 0i64.checked_sub_unsigned(read_digits(digits)?),
        _ => i64::try_from(read_digits(text)?).ok(),
    }
}
