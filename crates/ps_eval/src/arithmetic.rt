//! The results of operators and functions on numbers.

ghost use Rattle.std.specs.Prelude.{◌≡◌, ◌≢◌, pos, ◌+ℤ◌, ◌-ℤ◌, ◌*ℤ◌, MatchOption, int_rem};
ghost use Rattle.std.specs.Ordering.{int_eq};
ghost use Rattle.ps_value.specs.declared.value.Fault.TheVariants.{Num as OutOfRange};
ghost use Rattle.ps_eval.specs.Number.{absolute, exact, floored, modulo, operation, prefixed, quotient, truth};

use ps_formula::Sign;
use ps_tokens::Operator;
use ps_value::Fault;

/// The exact result, or `Fault::Num` where there is none since it is out of range.
fn ranged(exact_result: Option<i64>) -> Result<i64, Fault>
    ensures { MatchOption exact_result (result ≡ Err OutOfRange) (λ n. result ≡ Ok n) }
{
    exact_result.ok_or(Fault::Num)
}

/// Returns the number with the sign applied; `Fault::Num` for `-` in front of the least `i64`.
pub(crate) fn prefixed(sign: Sign, a: i64) -> Result<i64, Fault>
    ensures { result ≡ prefixed sign a }
{
    match sign {
        Sign::Plus => Ok(a),
        Sign::Minus => ranged(a.checked_neg()),
    }
}

/// Returns `a operator b`; `Fault::Num` if it is out of range. A comparison gives 1 where it holds, else 0.
pub(crate) fn operation(operator: Operator, a: i64, b: i64) -> Result<i64, Fault>
    ensures { result ≡ operation operator a b }
{
    match operator {
        Operator::Plus => ranged(a.checked_add(b)),
        Operator::Minus => ranged(a.checked_sub(b)),
        Operator::Times => ranged(a.checked_mul(b)),
        Operator::Equal => Ok(truth(a == b)),
        Operator::NotEqual => Ok(truth(a != b)),
        Operator::Less => Ok(truth(a < b)),
        Operator::LessOrEqual => Ok(truth(a <= b)),
        Operator::Greater => Ok(truth(a > b)),
        Operator::GreaterOrEqual => Ok(truth(a >= b)),
    }
}

/// Returns 1 where the condition holds, else 0.
pub(crate) fn truth(holds: bool) -> i64
    ensures { result ≡ truth holds }
{
    if holds { 1 } else { 0 }
}

/// Returns MOD: the remainder of `a` by `b`, with the sign of `b`; `Fault::DivZero` if `b` is 0.
pub(crate) fn modulo(a: i64, b: i64) -> Result<i64, Fault>
    ensures { result ≡ modulo a b }
{
    if b == 0 {
        return Err(Fault::DivZero);
    }
    Ok(rest_of(a, b))
}

/// The remainder of `a` by `b`, with the sign of `b`.
fn rest_of(a: i64, b: i64) -> i64
    requires { b ≢ pos 0 }
    ensures { result ≡ a -ℤ b *ℤ floored a b }
{
    let rest = cut_rest_of(a, b);
    if b > 0 {
        if rest < 0 { rest + b } else { rest }
    } else {
        if rest > 0 { rest + b } else { rest }
    }
}

/// The remainder of a division that rounds towards zero, with the sign of `a`.
fn cut_rest_of(a: i64, b: i64) -> i64
    requires { b ≢ pos 0 }
    ensures { result ≡ int_rem a b }
{
    a.wrapping_rem(b)
}

/// Returns QUOTIENT: `a` divided by `b`, rounded towards zero; `Fault::DivZero` if `b` is 0.
pub(crate) fn quotient(a: i64, b: i64) -> Result<i64, Fault>
    ensures { result ≡ quotient a b }
{
    if b == 0 {
        Err(Fault::DivZero)
    } else {
        ranged(a.checked_div(b))
    }
}

/// Returns ABS: the magnitude; `Fault::Num` for the least `i64`.
pub(crate) fn absolute(a: i64) -> Result<i64, Fault>
    ensures { result ≡ absolute a }
{
    ranged(a.checked_abs())
}
