//! Numbers, of any number of digits.

ghost use Rattle.std.specs.Prelude.{◌≡◌, ◌≤◌, ◌-◌, ◌^◌, min, pos, nat_lt, nat_le, if◌then◌else◌};
ghost use Rattle.aria_model.specs.Token.{digits_value, minus, Number, Wide};
ghost use Rattle.aria_statement.specs.Lexing.{seen};

use crate::token::Token;

// The value of the digits, or the greatest number where it is greater.
fn value_of(digits: &[u8]) -> u64
    ensures { result ≡ min (digits_value 0 digits.now) (2 ^ 64 - 1) }
{
    let mut value = 0u64;
    for digit in digits {
        value = value
            .saturating_mul(10)
            .saturating_add(digit.saturating_sub(b'0') as u64);
    }
    value
}

// The negative of a number of at most 2^63.
fn negated(value: u64) -> i64
    requires { value ≤ 2 ^ 63 }
    ensures { result ≡ minus value }
{
    if value == 0 {
        return 0;
    }
    -1 - (value - 1) as i64
}

/// The number of these digits.
pub fn positive(digits: &[u8]) -> Token<'_>
    ensures { seen result ≡ (let n = digits_value 0 digits.now in if nat_lt n (2 ^ 63) then Number (pos n) else Wide) }
{
    let value = value_of(digits);
    if value < 1 << 63 {
        Token::Number(value as i64)
    } else {
        Token::Wide
    }
}

/// The number of a minus and these digits.
pub fn negative(digits: &[u8]) -> Token<'_>
    ensures { seen result ≡ (let n = digits_value 0 digits.now in if nat_le n (2 ^ 63) then Number (minus n) else Wide) }
{
    let value = value_of(digits);
    if value <= 1 << 63 {
        Token::Number(negated(value))
    } else {
        Token::Wide
    }
}
