//! The cells at which two peers differ, and the line that says so.
ghost use Rattle.std.specs.Prelude.{◌≡◌, ◌∷◌, ◌++◌, [], Decides, IfOk, OnOk, decimal};
ghost use Rattle.ps_grid.specs.Place.{cell_name};
ghost use Rattle.ps_step.specs.Steps.{even_text, names_text, step_text, uneven_text};

use itoa::Buffer;
use ps_grid::{Cell, NAME_BYTES};
use std::alloc::{AllocError, Global};

/// The most cells that [`Step::line`] names. The number in the line counts all cells that differ.
pub const MOST_NAMES: usize = 20;

/// The outcome of a comparison of two peers by [`compare`](crate::compare).
#[derive(Drop)]
pub struct Step {
    /// The version of the first peer: how many changes its history has.
    pub from: u64,
    /// The version of the second peer.
    pub to: u64,
    /// The cells at which the two peers differ, row by row.
    pub apart: Vec<Cell>,
}

/// Appends a number in decimal.
fn put_number(number: u64, text: &mut Vec<u8>) -> Result<(), AllocError>
    ensures { OnOk result (text.new.items ≡ text.old.items ++ decimal number) }
{
    let mut digits = Buffer::new();
    text.extend_from_slice(digits.format(number).as_bytes())
}

/// Appends a blank and the name of a cell.
fn put_name(cell: Cell, text: &mut Vec<u8>) -> Result<(), AllocError>
    ensures { OnOk result (text.new.items ≡ text.old.items ++ 32 ∷ cell_name cell) }
{
    let mut name = [0; NAME_BYTES];
    let length = cell.write(&mut name);
    text.push(b' ')?;
    text.extend_from_slice(&name[..length])
}

/// Appends the names of cells, a blank before each.
fn put_names(cells: &[Cell], text: &mut Vec<u8>) -> Result<(), AllocError>
    ensures { OnOk result (text.new.items ≡ text.old.items ++ names_text cells.now) }
{
    for cell in cells {
        put_name(*cell, text)?;
    }
    Ok(())
}

/// Returns the line of two peers that hold the same, at these versions.
fn even_line(alloc: Global, from: u64, to: u64) -> Result<Vec<u8>, AllocError>
    ensures { IfOk result (λ line. line.items ≡ even_text from to) }
{
    let mut line = Vec::new(alloc);
    line.extend_from_slice(b"in step at ")?;
    put_number(from, &mut line)?;
    line.extend_from_slice(b" and ")?;
    put_number(to, &mut line)?;
    line.push(b'\n')?;
    Ok(line)
}

/// Returns the line of two peers that differ at these cells.
#[tactic(auto, using(std::proofs::lemmas::List::take_min))]
fn uneven_line(alloc: Global, cells: &[Cell]) -> Result<Vec<u8>, AllocError>
    ensures { IfOk result (λ line. line.items ≡ uneven_text cells.now) }
{
    let mut line = Vec::new(alloc);
    line.extend_from_slice(b"differ ")?;
    put_number(cells.len() as u64, &mut line)?;
    let named = MOST_NAMES.min(cells.len());
    put_names(&cells[..named], &mut line)?;
    line.push(b'\n')?;
    Ok(line)
}

impl Step {
    /// Returns whether the two peers hold the same in every cell.
    pub fn is_even(&self) -> bool
        ensures { Decides result (self.now.apart.items ≡ []) }
    {
        self.apart.is_empty()
    }

    /// Returns the outcome as a line, with its line feed. Fails when out of memory.
    ///
    /// If no cell differs, the line is `in step at V and W`, with the versions of the first and the second peer. If
    /// some cells differ, the line is `differ`, the number of cells that differ, and the names of at most the first
    /// [`MOST_NAMES`] of these cells.
    pub fn line(&self, alloc: Global) -> Result<Vec<u8>, AllocError>
        ensures { IfOk result (λ line. line.items ≡ step_text self.now.from self.now.to self.now.apart.items) }
    {
        if self.is_even() {
            even_line(alloc, self.from, self.to)
        } else {
            uneven_line(alloc, &self.apart)
        }
    }
}
