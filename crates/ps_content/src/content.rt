//! What a cell's register holds.
ghost use Rattle.std.specs.Prelude.{◌≡◌, ◌++◌, codes, OnOk, OnErr, IfErr};
ghost use Rattle.std.specs.Fmt.{signed_decimal};
ghost use Rattle.std.specs.Option.{option_copied};
ghost use Rattle.ps_value.specs.Label.{IsLabel};
ghost use Rattle.ps_grid.specs.declared.refusal.Refusal.TheVariants.{Memory};

use crate::shared::SharedFormula;
use itoa::Buffer;
use ps_formula::Formula;
use ps_grid::{Refusal, Twin};
use ps_value::{Label, SharedLabel};
use std::alloc::Global;

/// What people assign to a cell.
///
/// Contents are ordered by kind first: `Blank` is less than any `Number`, and so on in the order of the variants. Two
/// contents of one kind are ordered by number or by the bytes of their texts.
#[derive(Drop)]
pub enum Content {
    /// The empty content: the cell shows nothing.
    Blank,
    /// A whole number.
    Number(i64),
    /// A text.
    Text(SharedLabel),
    /// A formula; the cell shows its value.
    Formula(SharedFormula),
    /// A mark, typed as `@tally`: the cell shows its counter.
    Tally,
    /// A mark, typed as `@choice`: the cell shows its set of options.
    Choice,
}

impl Twin for Content {
    fn twin(&self, alloc: Global) -> Result<Content, Refusal> {
        match self {
            Content::Blank => Ok(Content::Blank),
            Content::Number(number) => Ok(Content::Number(*number)),
            Content::Text(label) => Ok(Content::Text(label.twin(alloc)?)),
            Content::Formula(formula) => Ok(Content::Formula(formula.twin(alloc)?)),
            Content::Tally => Ok(Content::Tally),
            Content::Choice => Ok(Content::Choice),
        }
    }
}

impl Content {
    ghost use Rattle.ps_content.specs.Content.{canonical_text, IsContent};
    ghost use Rattle.ps_content.specs.Order.{formula_in};

    /// Returns the formula; `None` if the content isn't a formula.
    pub fn formula(&self) -> Option<&Formula>
        ensures { option_copied result ≡ formula_in self.now }
    {
        match self {
            Content::Formula(shared) => Some(shared.formula()),
            _ => None,
        }
    }

    /// Appends the canonical text of the content to `out`.
    ///
    /// Fails only when out of memory, and then `out` stays as it was.
    ///
    /// Cost: linear in the canonical text.
    pub fn canonical(&self, out: &mut Vec<u8>) -> Result<(), Refusal>
        ensures appended { OnOk result (out.new.items ≡ out.old.items ++ canonical_text self.now) }
        ensures kept { OnErr result (out.new.items ≡ out.old.items) }
        ensures memory { IfErr result (λ e. e ≡ Memory) }
        ensures content { IsContent self.now }
    {
        match self {
            Content::Blank => Ok(()),
            Content::Number(number) => append_number(*number, out),
            Content::Text(label) => append_text(label.label(), out),
            Content::Formula(formula) => append(formula.formula().text(), out),
            Content::Tally => append(b"@tally", out),
            Content::Choice => append(b"@choice", out),
        }
    }
}

/// Appends the bytes, or leaves the text as it was.
fn append(bytes: &[u8], out: &mut Vec<u8>) -> Result<(), Refusal>
    ensures appended { OnOk result (out.new.items ≡ out.old.items ++ bytes.now) }
    ensures kept { OnErr result (out.new.items ≡ out.old.items) }
    ensures memory { IfErr result (λ e. e ≡ Memory) }
{
    out.extend_from_slice(bytes)?;
    Ok(())
}

/// Appends the digits of a number, with a minus before them where it is negative.
fn append_number(number: i64, out: &mut Vec<u8>) -> Result<(), Refusal>
    ensures appended { OnOk result (out.new.items ≡ out.old.items ++ signed_decimal number) }
    ensures kept { OnErr result (out.new.items ≡ out.old.items) }
    ensures memory { IfErr result (λ e. e ≡ Memory) }
{
    let mut buffer = Buffer::new();
    append(buffer.format(number).as_bytes(), out)
}

/// Appends an apostrophe and the bytes of the label: both or neither.
fn append_text(label: &Label, out: &mut Vec<u8>) -> Result<(), Refusal>
    ensures appended { OnOk result (out.new.items ≡ out.old.items ++ codes "'" ++ label.now) }
    ensures label { IsLabel label.now }
    ensures kept { OnErr result (out.new.items ≡ out.old.items) }
    ensures memory { IfErr result (λ e. e ≡ Memory) }
{
    let text = label.bytes();
    let start = out.len();
    append(b"'", out)?;
    if append(text, out).is_err() {
        out.truncate(start);
        return Err(Refusal::Memory);
    }
    Ok(())
}
