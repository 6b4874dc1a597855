//! Numbers.

ghost use Rattle.std.specs.Prelude.{◌≡◌, ◌+◌, ◌<◌, ◌≤◌, ◌^◌, ◌==◌, length, if◌then◌else◌};
ghost use Rattle.dart_scan.specs.Characters.{is_digit, is_hexadecimal_digit};
ghost use Rattle.dart_scan.specs.Lexemes.{run, hexadecimal_size, integer_size, fraction_size, sign_size, exponent_size, double_size};

/// `0` to `9`.
pub fn digit(byte: u8) -> bool
    ensures { result ≡ is_digit byte }
{
    byte.is_ascii_digit()
}

fn hexadecimal_digit(byte: u8) -> bool
    ensures { result ≡ is_hexadecimal_digit byte }
{
    byte.is_ascii_hexdigit()
}

fn digits(text: &[u8]) -> usize
    ensures size { result ≡ run is_digit text.now }
    ensures within { result ≤ length text.now }
{
    text.iter().take_while(|byte| digit(**byte)).count()
}

fn hexadecimal_digits(text: &[u8]) -> usize
    ensures size { result ≡ run is_hexadecimal_digit text.now }
    ensures within { result ≤ length text.now }
{
    text.iter()
        .take_while(|byte| hexadecimal_digit(**byte))
        .count()
}

/// How long a number's part is that has so many bytes, and then these digits.
fn before_digits(ahead: usize, digits: usize) -> usize
    requires { ahead + digits < 2 ^ 64 }
    ensures { result ≡ (if digits == 0 then 0 else ahead + digits) }
{
    if digits == 0 { 0 } else { ahead + digits }
}

fn hexadecimal_size(text: &[u8]) -> usize
    ensures size { result ≡ hexadecimal_size text.now }
    ensures within { result ≤ length text.now }
{
    if text.starts_with(b"0x") || text.starts_with(b"0X") {
        before_digits(2, hexadecimal_digits(&text[2..]))
    } else {
        0
    }
}

/// How many bytes the integer has that the text begins with; none: 0.
pub fn integer_size(text: &[u8]) -> usize
    ensures size { result ≡ integer_size text.now }
    ensures within { result ≤ length text.now }
{
    digits(text).max(hexadecimal_size(text))
}

fn fraction_size(text: &[u8]) -> usize
    ensures size { result ≡ fraction_size text.now }
    ensures within { result ≤ length text.now }
{
    if text.starts_with(b".") {
        before_digits(1, digits(&text[1..]))
    } else {
        0
    }
}

fn sign_size(text: &[u8]) -> usize
    ensures size { result ≡ sign_size text.now }
    ensures within { result ≤ length text.now }
{
    if text.starts_with(b"+") || text.starts_with(b"-") {
        1
    } else {
        0
    }
}

fn exponent_size(text: &[u8]) -> usize
    ensures size { result ≡ exponent_size text.now }
    ensures within { result ≤ length text.now }
{
    if text.starts_with(b"e") || text.starts_with(b"E") {
        let ahead = 1 + sign_size(&text[1..]);
        before_digits(ahead, digits(&text[ahead..]))
    } else {
        0
    }
}

/// How many bytes the double has that the text begins with; none: 0.
pub fn double_size(text: &[u8]) -> usize
    ensures size { result ≡ double_size text.now }
    ensures within { result ≤ length text.now }
{
    let whole = digits(text);
    let fraction = fraction_size(&text[whole..]);
    let exponent = exponent_size(&text[whole + fraction..]);
    if fraction == 0 && (whole == 0 || exponent == 0) {
        0
    } else {
        whole + (fraction + exponent)
    }
}
