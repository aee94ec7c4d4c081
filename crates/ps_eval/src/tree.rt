//! Evaluates the tree of a formula.

ghost use Rattle.std.specs.Prelude.{◌≡◌, ◌+◌, ◌*◌, ◌^◌, ◌<◌, ◌≤◌, List, ◌∷◌, [], ◌++◌, map, MatchOption};
ghost use Rattle.ps_grid.specs.declared.size.TheConstants.{CELLS};
ghost use Rattle.ps_formula.specs.Tree.{call, in_row, reference};
ghost use Rattle.ps_formula.specs.TreeOf.{item_of, tree_of};
ghost use Rattle.ps_eval.specs.Number.{Number};
ghost use Rattle.ps_eval.specs.Items.{Assignment, range_items};
ghost use Rattle.ps_eval.specs.Inside.Operands.{single_of};
ghost use Rattle.ps_eval.specs.Summarized.{Judges, Summarizes, SummarizesArguments, numbers_taken};
ghost use Rattle.ps_eval.specs.Value.{called, ev, items_alone, items_in, items_of, number_of, value_in, values_of};

use crate::arguments_summary::ArgumentsSummary;
use crate::arithmetic::{absolute, modulo, operation, prefixed, quotient, truth};
use crate::look::Look;
use crate::meter::Meter;
use crate::summary::Summary;
use crate::truths::Truths;
use ps_formula::{Argument, Expr, Formula};
use ps_grid::{Cell, Rect};
use ps_tokens::Function;
use ps_value::{Fault, Operand, Value};
use std::sync::ledger::Ledger;

/// Returns the value of the formula, where each cell shows the value that `look` returns for the cell.
///
/// The meter counts one evaluation. The evaluation takes no memory. The sheet calls `eval_number` instead, whose result
/// type has only numbers and faults, and no text, options or nothing.
///
/// Cost: linear in the nodes of the tree and the cells of its ranges.
pub fn eval<K: Look, L: Ledger>(formula: &Formula, look: &K, meter: &mut Meter<L>) -> Value
    ensures value { result ≡ ev formula.now (K.value_at look.now) }
    ensures tick { meter.new ≡ meter.old + 1 }
{
    match eval_number(formula, look, meter) {
        Ok(n) => Value::Num(n),
        Err(fault) => Value::Err(fault),
    }
}

/// Returns the number or fault that is the value of the formula, where each cell shows the value that `look` returns.
///
/// The meter counts one evaluation. The evaluation takes no memory.
///
/// Cost: linear in the nodes of the tree and the cells of its ranges.
pub fn eval_number<K: Look, L: Ledger>(
    formula: &Formula,
    look: &K,
    meter: &mut Meter<L>,
) -> Result<i64, Fault>
    ensures number { result ≡ number_of formula.now (K.value_at look.now) }
    ensures tick { meter.new ≡ meter.old + 1 }
{
    meter.tick();
    number(formula.tree(), look)
}

/// The number or fault of a tree.
#[cycle(numbers)]
fn number<K: Look>(tree: &Expr, look: &K) -> Result<i64, Fault>
    ensures { result ≡ number_of (tree_of tree.now) (K.value_at look.now) }
{
    match tree {
        Expr::Numeral(n) => Ok(*n),
        Expr::Reference(cell) => single(look.operand(*cell)),
        Expr::Prefix(sign, operand) => prefixed(*sign, number(operand, look)?),
        Expr::Infix(operator, operands) => {
            let a = side(&operands.left, look)?;
            let b = side(&operands.right, look)?;
            operation(*operator, a, b)
        }
        Expr::Group(inner) => number(inner, look),
        Expr::Call(function, arguments) => value_of_call(*function, arguments, look),
    }
}

/// As `number`, for one side of an operator. A numeral and a reference are inlined, without a call of `number`.
#[cycle(numbers)]
#[inline(always)]
fn side<K: Look>(tree: &Expr, look: &K) -> Result<i64, Fault>
    ensures { result ≡ number_of (tree_of tree.now) (K.value_at look.now) }
{
    match tree {
        Expr::Numeral(n) => Ok(*n),
        Expr::Reference(cell) => single(look.operand(*cell)),
        _ => number(tree, look),
    }
}

/// The number of a cell where one number is wanted. An empty cell counts as 0; a text gives `Fault::Value`.
#[inline(always)]
fn single(operand: Operand) -> Result<i64, Fault>
    ensures { result ≡ single_of operand }
{
    match operand {
        Operand::Empty => Ok(0),
        Operand::Num(n) => Ok(n),
        Operand::Text => Err(Fault::Value),
        Operand::Err(fault) => Err(fault),
    }
}

/// The number or fault of a call. A count of arguments that the grammar forbids gives `Fault::Value`, except that SUM,
/// MIN, MAX, COUNT, AND and OR take any count.
#[cycle(numbers)]
fn value_of_call<K: Look>(
    function: Function,
    arguments: &[Argument],
    look: &K,
) -> Result<i64, Fault>
    ensures { result ≡ number_of (call function (in_row (map item_of arguments.now))) (K.value_at look.now) }
{
    match function {
        Function::Sum => items(arguments, look).sum(),
        Function::Min => items(arguments, look).min(),
        Function::Max => items(arguments, look).max(),
        Function::Count => items(arguments, look).count(),
        Function::And => operands(arguments, look).all(),
        Function::Or => operands(arguments, look).any(),
        Function::If => choice(arguments, look),
        Function::Mod => modulo_of(arguments, look),
        Function::Quotient => quotient_of(arguments, look),
        Function::Abs => absolute_of(arguments, look),
        Function::Not => negation_of(arguments, look),
        Function::True => match arguments {
            [] => Ok(1),
            _ => Err(Fault::Value),
        },
        Function::False => match arguments {
            [] => Ok(0),
            _ => Err(Fault::Value),
        },
    }
}

/// IF: only the chosen branch is evaluated.
#[cycle(numbers)]
fn choice<K: Look>(arguments: &[Argument], look: &K) -> Result<i64, Fault>
    ensures { result ≡ number_of (call Function.If (in_row (map item_of arguments.now))) (K.value_at look.now) }
{
    match arguments {
        [condition, then] => {
            if operand(condition, look)? == 0 {
                Ok(0)
            } else {
                operand(then, look)
            }
        }
        [condition, then, otherwise] => {
            if operand(condition, look)? == 0 {
                operand(otherwise, look)
            } else {
                operand(then, look)
            }
        }
        _ => Err(Fault::Value),
    }
}

/// MOD of two arguments.
#[cycle(numbers)]
fn modulo_of<K: Look>(arguments: &[Argument], look: &K) -> Result<i64, Fault>
    ensures { result ≡ number_of (call Function.Mod (in_row (map item_of arguments.now))) (K.value_at look.now) }
{
    match arguments {
        [left, right] => {
            let a = operand(left, look)?;
            let b = operand(right, look)?;
            modulo(a, b)
        }
        _ => Err(Fault::Value),
    }
}

/// QUOTIENT of two arguments.
#[cycle(numbers)]
fn quotient_of<K: Look>(arguments: &[Argument], look: &K) -> Result<i64, Fault>
    ensures { result ≡ number_of (call Function.Quotient (in_row (map item_of arguments.now))) (K.value_at look.now) }
{
    match arguments {
        [left, right] => {
            let a = operand(left, look)?;
            let b = operand(right, look)?;
            quotient(a, b)
        }
        _ => Err(Fault::Value),
    }
}

/// ABS of one argument.
#[cycle(numbers)]
fn absolute_of<K: Look>(arguments: &[Argument], look: &K) -> Result<i64, Fault>
    ensures { result ≡ number_of (call Function.Abs (in_row (map item_of arguments.now))) (K.value_at look.now) }
{
    match arguments {
        [only] => absolute(operand(only, look)?),
        _ => Err(Fault::Value),
    }
}

/// NOT of one argument.
#[cycle(numbers)]
fn negation_of<K: Look>(arguments: &[Argument], look: &K) -> Result<i64, Fault>
    ensures { result ≡ number_of (call Function.Not (in_row (map item_of arguments.now))) (K.value_at look.now) }
{
    match arguments {
        [only] => {
            let a = operand(only, look)?;
            Ok(truth(a == 0))
        }
        _ => Err(Fault::Value),
    }
}

/// The number of an argument. A range is no single number and gives `Fault::Value`.
#[cycle(numbers)]
fn operand<K: Look>(argument: &Argument, look: &K) -> Result<i64, Fault>
    ensures { result ≡ value_in (item_of argument.now) (K.value_at look.now) }
{
    match argument {
        Argument::Expression(tree) => number(tree, look),
        Argument::Range(_) => Err(Fault::Value),
    }
}

/// The values of the arguments, summarized for AND and OR.
#[cycle(numbers)]
fn operands<K: Look>(arguments: &[Argument], look: &K) -> Truths
    ensures { Judges (values_of (in_row (map item_of arguments.now)) (K.value_at look.now)) result }
{
    let mut truths = Truths::new();
    for argument in arguments {
        truths.take(operand(argument, look));
    }
    truths
}

/// The items of all arguments, summarized for SUM, MIN, MAX and COUNT.
#[cycle(numbers)]
fn items<K: Look>(arguments: &[Argument], look: &K) -> ArgumentsSummary
    ensures { SummarizesArguments (items_of (in_row (map item_of arguments.now)) (K.value_at look.now)) result }
{
    let mut summary = ArgumentsSummary::new();
    for argument in arguments {
        summary.join(&items_of_one(argument, look));
    }
    summary
}

/// The summary of the items of one argument.
#[cycle(numbers)]
fn items_of_one<K: Look>(argument: &Argument, look: &K) -> Summary
    ensures items { Summarizes (items_in (item_of argument.now) (K.value_at look.now)) result }
    ensures count { numbers_taken result ≤ CELLS }
{
    match argument {
        Argument::Range(rect) => items_of_range(*rect, look),
        Argument::Expression(tree) => match cell_alone(tree) {
            Some(cell) => Summary::of_cell(look.operand(cell)),
            None => Summary::of_item(number(tree, look)),
        },
    }
}

/// The cell, if the tree is a single reference.
fn cell_alone(tree: &Expr) -> Option<Cell>
    ensures { MatchOption result
        ((v : Assignment) (x : Number) → items_alone (tree_of tree.now) v x ≡ x ∷ [])
        (λ c. tree_of tree.now ≡ reference c) }
{
    match tree {
        Expr::Reference(cell) => Some(*cell),
        Expr::Numeral(_) => None,
        Expr::Prefix(_, _) => None,
        Expr::Infix(_, _) => None,
        Expr::Group(_) => None,
        Expr::Call(_, _) => None,
    }
}

/// The summary of the items of a range.
fn items_of_range<K: Look>(rect: Rect, look: &K) -> Summary
    ensures items { Summarizes (range_items (K.value_at look.now) rect) result }
    ensures count { numbers_taken result ≤ CELLS }
{
    // tells the prover that the range lies in the grid
    let _ = rect.area();
    look.summary(rect)
}
