//! A recursive-descent parser: from tokens to an expression, with a function for each rule of the grammar.
//!
//! Every function takes a `depth` that falls by one in each call, so all of them end. `whole` passes a depth that no
//! formula uses up.
//!
//! A *level* of the grammar is 0 for prefixed operands, 1 for products, 2 for sums and 3 for comparisons. A lower level
//! binds tighter.

ghost use Rattle.std.specs.Prelude.{◌≡◌, ◌⊎◌, map, IfOk, IfErr};
ghost use Rattle.std.specs.Option.{option_copied, option_map};
ghost use Rattle.ps_grid.specs.declared.refusal.Refusal.TheVariants.{Memory, Formula as NoFormula};
ghost use Rattle.ps_formula.specs.Grammar.{accepts, Has, level_of, takes_ranges};
ghost use Rattle.ps_formula.specs.Inside.Reading.{Gives, after_argument_at, argument_at, arguments_at, call_at};
ghost use Rattle.ps_formula.specs.Inside.Reading.{closed_at, level_at, more_at, operator_at, prefixed_at, range_at};
ghost use Rattle.ps_formula.specs.Inside.Reading.{sign_of};
ghost use Rattle.ps_formula.specs.Tree.{Tree};
ghost use Rattle.ps_formula.specs.TreeOf.{item_of, tree_of};

use crate::expr::{Argument, Expr, Operands, Sign};
use ps_grid::{Rect, Refusal};
use ps_tokens::{Function, Operator, Token};
use std::alloc::Global;

/// The loosest level, comparisons.
const COMPARISON: usize = 3;

/// Returns the level of the operands that the operator joins: 0 for `*`, 1 for `+` and `-`, and 2 for comparisons.
fn level_of(operator: Operator) -> usize
    ensures { result ≡ level_of operator }
{
    match operator {
        Operator::Times => 0,
        Operator::Plus | Operator::Minus => 1,
        Operator::Equal | Operator::NotEqual => 2,
        Operator::Less | Operator::LessOrEqual => 2,
        Operator::Greater | Operator::GreaterOrEqual => 2,
    }
}

/// Returns whether the function takes `count` arguments.
fn accepts(function: Function, count: usize) -> bool
    ensures { result ≡ accepts function count }
{
    match function {
        Function::Sum | Function::Min | Function::Max | Function::Count => 1 <= count,
        Function::And | Function::Or => 1 <= count,
        Function::If => 2 <= count && count <= 3,
        Function::Mod | Function::Quotient => count == 2,
        Function::Abs | Function::Not => count == 1,
        Function::True | Function::False => count == 0,
    }
}

/// Returns whether an argument of the function may be a range.
fn takes_ranges(function: Function) -> bool
    ensures { result ≡ takes_ranges function }
{
    matches!(
        function,
        Function::Sum | Function::Min | Function::Max | Function::Count
    )
}

/// Returns the sign that the operator means in front of an operand; `None` unless it is plus or minus.
fn sign(operator: Operator) -> Option<Sign>
    ensures { result ≡ sign_of operator }
{
    match operator {
        Operator::Plus => Some(Sign::Plus),
        Operator::Minus => Some(Sign::Minus),
        _ => None,
    }
}

/// Returns the tokens after a closing parenthesis; `None` if the tokens don't begin with a closing parenthesis.
fn closed(tokens: &[Token]) -> Option<&[Token]>
    ensures { option_copied result ≡ closed_at tokens.now }
{
    match tokens {
        [Token::Close, rest @ ..] => Some(rest),
        _ => None,
    }
}

/// Returns the range at the front and the tokens after it; `None` if no range stands there.
fn range(tokens: &[Token]) -> Option<(Rect, &[Token])>
    ensures { option_map (λ x. (x.0, x.1.now)) result ≡ range_at tokens.now }
{
    match tokens {
        [Token::Range(rect), rest @ ..] => Some((*rect, rest)),
        _ => None,
    }
}

/// Returns the operator at the front and the tokens after it. Returns `None` unless an operator stands there that joins
/// operands of a level below `loosest`.
fn operator(loosest: usize, tokens: &[Token]) -> Option<(Operator, &[Token])>
    ensures { option_map (λ x. (x.0, x.1.now)) result ≡ operator_at loosest tokens.now }
{
    match tokens {
        [Token::Symbol(operator), rest @ ..] if level_of(*operator) < loosest => Some((
            *operator, rest,
        )),
        _ => None,
    }
}

/// Returns the longest expression of the level `loosest` at the front, and the tokens after it.
#[cycle(parser)]
#[tactic(auto, unfolding(crate::specs::Inside::Reading::level_at))]
fn level(
    alloc: Global,
    depth: usize,
    loosest: usize,
    tokens: &[Token],
) -> Result<(Expr, &[Token]), Refusal>
    ensures { Gives (λ x. (tree_of x.0, x.1.now)) result (level_at depth loosest tokens.now) }
{
    if depth == 0 {
        return Err(Refusal::Formula);
    }
    let (left, rest) = prefixed(alloc, depth - 1, tokens)?;
    more(alloc, depth - 1, loosest, left, rest)
}

/// Returns the expression that begins with `left` and goes on with any number of operators, each with its right
/// operand. Also returns the tokens after this expression. Each operator joins operands of a level below `loosest`.
#[cycle(parser)]
#[tactic(auto, unfolding(crate::specs::Inside::Reading::level_at))]
fn more(
    alloc: Global,
    depth: usize,
    loosest: usize,
    left: Expr,
    tokens: &[Token],
) -> Result<(Expr, &[Token]), Refusal>
    ensures { Gives (λ x. (tree_of x.0, x.1.now)) result (more_at depth loosest (tree_of left) tokens.now) }
{
    if depth == 0 {
        return Err(Refusal::Formula);
    }
    let Some((operator, rest)) = operator(loosest, tokens) else {
        return Ok((left, tokens));
    };
    let (right, rest) = level(alloc, depth - 1, level_of(operator), rest)?;
    let operands = Box::new(alloc, Operands { left, right })?;
    more(
        alloc,
        depth - 1,
        loosest,
        Expr::Infix(operator, operands),
        rest,
    )
}

/// Returns the expression at the front, any number of signs and then a numeral, a reference, a group or a call. Also
/// returns the tokens after this expression.
#[cycle(parser)]
#[tactic(auto, unfolding(crate::specs::Inside::Reading::level_at))]
fn prefixed(alloc: Global, depth: usize, tokens: &[Token]) -> Result<(Expr, &[Token]), Refusal>
    ensures { Gives (λ x. (tree_of x.0, x.1.now)) result (prefixed_at depth tokens.now) }
{
    if depth == 0 {
        return Err(Refusal::Formula);
    }
    let [first, rest @ ..] = tokens else {
        return Err(Refusal::Formula);
    };
    match *first {
        Token::Numeral(number) => Ok((Expr::Numeral(number), rest)),
        Token::Reference(cell) => Ok((Expr::Reference(cell), rest)),
        Token::Symbol(operator) => {
            let Some(sign) = sign(operator) else {
                return Err(Refusal::Formula);
            };
            let (operand, rest) = prefixed(alloc, depth - 1, rest)?;
            let operand = Box::new(alloc, operand)?;
            Ok((Expr::Prefix(sign, operand), rest))
        }
        Token::Open => {
            let (inner, rest) = level(alloc, depth - 1, COMPARISON, rest)?;
            let Some(rest) = closed(rest) else {
                return Err(Refusal::Formula);
            };
            let inner = Box::new(alloc, inner)?;
            Ok((Expr::Group(inner), rest))
        }
        Token::Name(function) => {
            let [Token::Open, rest @ ..] = rest else {
                return Err(Refusal::Formula);
            };
            call(alloc, depth - 1, function, rest)
        }
        _ => Err(Refusal::Formula),
    }
}

/// Returns a call of the function, and the tokens after it. `tokens` begin after the call's opening parenthesis.
#[cycle(parser)]
#[tactic(auto, unfolding(crate::specs::Inside::Reading::level_at))]
fn call(
    alloc: Global,
    depth: usize,
    function: Function,
    tokens: &[Token],
) -> Result<(Expr, &[Token]), Refusal>
    ensures { Gives (λ x. (tree_of x.0, x.1.now)) result (call_at depth function tokens.now) }
{
    if depth == 0 {
        return Err(Refusal::Formula);
    }
    if let Some(rest) = closed(tokens) {
        if !accepts(function, 0) {
            return Err(Refusal::Formula);
        }
        return Ok((Expr::Call(function, Vec::new(alloc)), rest));
    }
    let (items, rest) = arguments(alloc, depth - 1, function, Vec::new(alloc), tokens)?;
    if !accepts(function, items.len()) {
        return Err(Refusal::Formula);
    }
    Ok((Expr::Call(function, items), rest))
}

/// Returns the arguments in `before` and then the arguments at the front of the tokens. Also returns the tokens after
/// the closing parenthesis.
#[cycle(parser)]
#[tactic(auto, unfolding(crate::specs::Inside::Reading::level_at))]
fn arguments(
    alloc: Global,
    depth: usize,
    function: Function,
    mut before: Vec<Argument>,
    tokens: &[Token],
) -> Result<(Vec<Argument>, &[Token]), Refusal>
    ensures { Gives (λ x. (map item_of x.0.items, x.1.now)) result
        (arguments_at depth function (map item_of before.items) tokens.now) }
{
    if depth == 0 {
        return Err(Refusal::Formula);
    }
    let (next, rest) = argument(alloc, depth - 1, function, tokens)?;
    before.push(next)?;
    after_argument(alloc, depth - 1, function, before, rest)
}

/// Does the same as `arguments`, but the tokens begin after an argument: with the closing parenthesis, or with a
/// separator and an argument.
#[cycle(parser)]
#[tactic(auto, unfolding(crate::specs::Inside::Reading::level_at))]
fn after_argument(
    alloc: Global,
    depth: usize,
    function: Function,
    before: Vec<Argument>,
    tokens: &[Token],
) -> Result<(Vec<Argument>, &[Token]), Refusal>
    ensures { Gives (λ x. (map item_of x.0.items, x.1.now)) result
        (after_argument_at depth function (map item_of before.items) tokens.now) }
{
    if depth == 0 {
        return Err(Refusal::Formula);
    }
    match tokens {
        [Token::Close, rest @ ..] => Ok((before, rest)),
        [Token::Separator, rest @ ..] => arguments(alloc, depth - 1, function, before, rest),
        _ => Err(Refusal::Formula),
    }
}

/// Returns the argument at the front, and the tokens after it.
#[cycle(parser)]
#[tactic(auto, unfolding(crate::specs::Inside::Reading::level_at))]
fn argument(
    alloc: Global,
    depth: usize,
    function: Function,
    tokens: &[Token],
) -> Result<(Argument, &[Token]), Refusal>
    ensures { Gives (λ x. (item_of x.0, x.1.now)) result (argument_at depth function tokens.now) }
{
    if depth == 0 {
        return Err(Refusal::Formula);
    }
    if let Some((rect, rest)) = range(tokens) {
        if !takes_ranges(function) {
            return Err(Refusal::Formula);
        }
        return Ok((Argument::Range(rect), rest));
    }
    let (inner, rest) = level(alloc, depth - 1, COMPARISON, tokens)?;
    Ok((Argument::Expression(inner), rest))
}

/// Parses all of the tokens as one expression, and returns the expression.
///
/// # Errors
///
/// - `Formula`: the tokens are no expression.
/// - `Memory`: out of memory.
///
/// Cost: linear in the tokens.
pub(crate) fn whole(alloc: Global, tokens: &[Token]) -> Result<Expr, Refusal>
    ensures found { IfOk result (λ tree. Has 3 tokens.now (tree_of tree)) }
    ensures none { result ≡ Err NoFormula → (t : Tree) → Has 3 tokens.now t → ⊥ }
    ensures refused { IfErr result (λ e. (e ≡ NoFormula) ⊎ (e ≡ Memory)) }
{
    let (tree, rest) = level(alloc, 8 * tokens.len() + 4, COMPARISON, tokens)?;
    if !rest.is_empty() {
        return Err(Refusal::Formula);
    }
    Ok(tree)
}
