//! Values of formulas over cells that belong to no sheet.

ghost use Rattle.ps_grid.specs.Blanks.{IsBlankOf};

use ps_eval::{Look, Meter, eval};
use ps_formula::Formula;
use ps_grid::{Cell, Refusal};
use ps_value::{Fault, Operand, Value};
use std::alloc::Global;
use std::marker::Brand;
use std::sync::ledger::{Blank, Ledger};

/// Cells that all show 7.
struct Sevens;

impl Look for Sevens {
    ghost use Rattle.std.specs.Prelude.{pos};
    ghost use Rattle.ps_value.specs.declared.value.Value.TheVariants.{Num};

    ghost value_at = { λ _ _. Num (pos 7) };

    fn at(&self, _cell: Cell) -> Value {
        Value::Num(7)
    }

    fn operand(&self, _cell: Cell) -> Operand {
        Operand::Num(7)
    }
}

fn counted<L: Ledger>(blank: Blank, formula: &Formula) -> Value
    requires { IsBlankOf blank L.name L.parts }
{
    let mut meter = Meter::<L>::new(blank);
    let value = eval(formula, &Sevens, &mut meter);
    meter.end();
    value
}

/// Returns the value of the formula with this text, if all cells show 7.
fn value_of(alloc: Global, text: &[u8]) -> Result<Value, Refusal> {
    let formula = Formula::read(alloc, text)?;
    Ok(counted::<Brand>(Blank::new(1), &formula))
}

/// A formula has a number or a fault, and a range is summed cell by cell.
#[test]
fn a_formula_has_its_value(rt: HostRuntime) {
    let alloc = rt.alloc();
    assert!(rt; value_of(alloc, b"=SUM([.A1:.B3])+MOD(-7;3)") == Ok(Value::Num(44)));
    assert!(rt; value_of(alloc, b"=MOD([.A1];0)") == Ok(Value::Err(Fault::DivZero)));
}
