//! The values of integer literals.

ghost use Rattle.std.specs.Prelude.{◌≡◌, ◌+◌, ◌*◌, ◌^◌, ◌≤◌};
ghost use Rattle.judgement.specs.Literals.{below, digit_of, integer_of, is_hexadecimal, number_behind};

fn digit_of(byte: u8) -> u64
    ensures { result ≡ digit_of byte }
{
    let value = if byte <= b'9' {
        byte.saturating_sub(48)
    } else if byte <= b'F' {
        byte.saturating_sub(55)
    } else {
        byte.saturating_sub(87)
    };
    u64::from(value)
}

// The number with one more digit; None from 2^64 on.
fn with_digit(base: u64, number: u64, digit: u8) -> Option<u64>
    ensures { result ≡ below (2 ^ 64) (base * number + digit_of digit) }
{
    base.checked_mul(number)?.checked_add(digit_of(digit))
}

// The number that the digits stand for; None from 2^64 on.
fn value_of(base: u64, digits: &[u8]) -> Option<u64>
    requires { 1 ≤ base }
    ensures { result ≡ below (2 ^ 64) (number_behind base 0 digits.now) }
{
    let mut number: u64 = 0;
    for digit in digits {
        let Some(next) = with_digit(base, number, *digit) else {
            return None;
        };
        number = next;
    }
    Some(number)
}

// The number that decimal digits stand for; None from 2^63 on.
fn decimal(digits: &[u8]) -> Option<u64>
    ensures { result ≡ below (2 ^ 63) (number_behind 10 0 digits.now) }
{
    let value = value_of(10, digits)?;
    if value < 1 << 63 { Some(value) } else { None }
}

/// The 64 bits of the integer literal of this lexeme; None where it is out of range.
#[tactic(auto, unfolding(crate::specs::Literals::integer_of))]
pub fn integer_of(lexeme: &[u8]) -> Option<u64>
    ensures { result ≡ integer_of lexeme.now }
{
    if lexeme.starts_with(b"0x") || lexeme.starts_with(b"0X") {
        value_of(16, &lexeme[2..])
    } else {
        decimal(lexeme)
    }
}
