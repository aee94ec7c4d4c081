//! Numbers written in decimal digits.

ghost use Rattle.std.specs.Prelude.{ℕ, ◌≡◌, ◌^◌, ◌<◌, ◌≤◌, length};
ghost use Rattle.std.specs.Char.{digit_value};
ghost use Rattle.std.specs.Option.{SomeIff};
ghost use Rattle.std.specs.Str.Parse.{AllDigits, IsNumeral, digits_value};

/// A number of at most this many digits always fits 64 bits.
const SAFE_DIGITS: usize = 19;

/// Returns the number that the decimal digits stand for. Leading zeros are allowed.
///
/// Returns `None` if there are no bytes, if one of them isn't a digit, or if the number has more than 64 bits.
///
/// Cost: linear in the bytes.
pub fn read_digits(digits: &[u8]) -> Option<u64>
    ensures { SomeIff result (IsNumeral 10 digits.now × (digits_value 10 digits.now < 2 ^ 64))
        (digits_value 10 digits.now) }
{
    if digits.is_empty() {
        return None;
    }
    if digits.len() > SAFE_DIGITS {
        return read_many(digits);
    }
    read_few(digits)
}

/// Returns the number that at most `SAFE_DIGITS` digits stand for; `None` if a byte isn't a digit.
#[inline(always)]
fn read_few(digits: &[u8]) -> Option<u64>
    requires { length digits.now ≤ SAFE_DIGITS }
    ensures { SomeIff result (AllDigits 10 digits.now) (digits_value 10 digits.now) }
{
    let mut number = 0u64;
    for digit in digits {
        number = number * 10 + digit_number(*digit)?;
    }
    Some(number)
}

/// Returns the number that the digits stand for; `None` if a byte isn't a digit, or if the number exceeds 64 bits.
fn read_many(digits: &[u8]) -> Option<u64>
    ensures { SomeIff result (AllDigits 10 digits.now × (digits_value 10 digits.now < 2 ^ 64))
        (digits_value 10 digits.now) }
{
    let mut number = 0u64;
    for digit in digits {
        number = number.checked_mul(10)?.checked_add(digit_number(*digit)?)?;
    }
    Some(number)
}

/// Returns the value of a digit: 0 for `0`, to 9 for `9`. Returns `None` for any other byte.
#[inline(always)]
fn digit_number(byte: u8) -> Option<u64>
    ensures { SomeIff result (digit_value byte < 10) (digit_value byte) }
{
    let number = u64::from(byte).wrapping_sub(u64::from(b'0'));
    if number < 10 { Some(number) } else { None }
}
