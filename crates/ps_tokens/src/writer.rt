//! Writes tokens canonically.

ghost use Rattle.std.specs.Prelude.{◌≡◌, ◌++◌, OnOk, OnErr, IfErr, codes, length, take};
ghost use Rattle.ps_grid.specs.Place.{cell_name};
ghost use Rattle.ps_grid.specs.Rectangle.{first_cell, last_cell};
ghost use Rattle.ps_grid.specs.declared.refusal.Refusal.TheVariants.{Memory};
ghost use Rattle.ps_tokens.specs.Text.{token_text};

use crate::token::Token;
use itoa::Buffer;
use ps_grid::{Cell, NAME_BYTES, Rect, Refusal};

/// Appends the bytes to `out`, or nothing if memory runs out.
fn put(out: &mut Vec<u8>, text: &[u8]) -> Result<(), Refusal>
    ensures ok { OnOk result (out.new.items ≡ out.old.items ++ text.now) }
    ensures err { OnErr result (out.new.items ≡ out.old.items) }
    ensures memory { IfErr result (λ e. e ≡ Memory) }
{
    out.extend_from_slice(text)?;
    Ok(())
}

/// Appends the name of the cell to `out`, or nothing if memory runs out.
fn put_cell(out: &mut Vec<u8>, cell: Cell) -> Result<(), Refusal>
    ensures ok { OnOk result (out.new.items ≡ out.old.items ++ cell_name cell) }
    ensures err { OnErr result (out.new.items ≡ out.old.items) }
    ensures memory { IfErr result (λ e. e ≡ Memory) }
{
    let mut name = [0; NAME_BYTES];
    let length = cell.write(&mut name);
    put(out, &name[..length])
}

/// Appends a reference to `out`, or perhaps only a part of it if memory runs out.
fn put_reference(out: &mut Vec<u8>, cell: Cell) -> Result<(), Refusal>
    ensures ok { OnOk result (out.new.items ≡ out.old.items ++ (codes "[." ++ (cell_name cell ++ codes "]"))) }
    ensures err { OnErr result (take (length out.old.items) out.new.items ≡ out.old.items) }
    ensures memory { IfErr result (λ e. e ≡ Memory) }
{
    put(out, b"[.")?;
    put_cell(out, cell)?;
    put(out, b"]")
}

/// Appends a range to `out`, or perhaps only a part of it if memory runs out.
fn put_range(out: &mut Vec<u8>, rect: Rect) -> Result<(), Refusal>
    ensures ok { OnOk result (out.new.items ≡ out.old.items
        ++ (codes "[." ++ (cell_name (first_cell rect) ++ (codes ":." ++ (cell_name (last_cell rect) ++ codes "]"))))) }
    ensures err { OnErr result (take (length out.old.items) out.new.items ≡ out.old.items) }
    ensures memory { IfErr result (λ e. e ≡ Memory) }
{
    put(out, b"[.")?;
    put_cell(out, rect.top_left())?;
    put(out, b":.")?;
    put_cell(out, rect.bottom_right())?;
    put(out, b"]")
}

/// Appends a token to `out`, or perhaps only a part of it if memory runs out.
fn put_spelling(out: &mut Vec<u8>, token: &Token) -> Result<(), Refusal>
    ensures ok { OnOk result (out.new.items ≡ out.old.items ++ token_text token.now) }
    ensures err { OnErr result (take (length out.old.items) out.new.items ≡ out.old.items) }
    ensures memory { IfErr result (λ e. e ≡ Memory) }
{
    match *token {
        Token::Numeral(value) => put(out, Buffer::new().format(value).as_bytes()),
        Token::Reference(cell) => put_reference(out, cell),
        Token::Range(rect) => put_range(out, rect),
        Token::Name(function) => put(out, function.name().as_bytes()),
        Token::Symbol(operator) => put(out, operator.text().as_bytes()),
        Token::Open => put(out, b"("),
        Token::Close => put(out, b")"),
        Token::Separator => put(out, b";"),
    }
}

/// Appends the canonical spelling of the token to `out`. Refused only when out of memory; `out` is then unchanged.
///
/// Cost: that of growing `out`.
pub fn put_token(out: &mut Vec<u8>, token: &Token) -> Result<(), Refusal>
    ensures ok { OnOk result (out.new.items ≡ out.old.items ++ token_text token.now) }
    ensures err { OnErr result (out.new.items ≡ out.old.items) }
    ensures memory { IfErr result (λ e. e ≡ Memory) }
{
    let length = out.len();
    let written = put_spelling(out, token);
    if written.is_err() {
        out.truncate(length);
    }
    written
}
