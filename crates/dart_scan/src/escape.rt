//! Escapes of strings.

ghost use Rattle.std.specs.Prelude.{◌≡◌, ◌+◌, ◌^◌, ◌<◌, ◌≤◌, ◌&&◌, ◌++◌, [], codes, drop, IsTrue, if◌then◌else◌, All, IfOk, OnOk, IfSome, length, map, option_map, nat_le, take, take_while, unwrap_or};
ghost use Rattle.std.specs.Char.Escape.{encode_utf16};
ghost use Rattle.dart_scan.specs.Characters.{is_hexadecimal_digit};
ghost use Rattle.dart_scan.specs.Lexemes.{begins, run};
ghost use Rattle.dart_scan.specs.Escapes.{escape_of, fault_of, faults_of_escape};
ghost use Rattle.dart_scan.specs.Values.{digit_of, hexadecimal_value, digits_escape, code_point, braced_escape, control_of, escape_at, unescaped, bad_escapes};

use crate::units::push_code;
use dart_tokens::{LexFault, LexFaultKind};
use std::alloc::{AllocError, Global};

/// `\` as a code unit.
pub const BACKSLASH: u16 = 92;

/// An escape behind its backslash: the code point or the code unit that it stands for, none if it is
/// bad, and how many code units it takes.
#[derive(Clone, Copy, Debug, PartialEq, Eq)]
pub struct Escape {
    pub code: Option<u32>,
    pub size: usize,
}

fn is_between(unit: u16, first: u16, last: u16) -> bool
    ensures { result ≡ (nat_le first unit && nat_le unit last) }
{
    first <= unit && unit <= last
}

fn is_hexadecimal_digit(unit: u16) -> bool
    ensures { result ≡ is_hexadecimal_digit unit }
{
    is_between(unit, 48, 57) || (is_between(unit, 65, 70) || is_between(unit, 97, 102))
}

/// The value of a hexadecimal digit.
fn digit_of(digit: u16) -> u32
    requires { IsTrue (is_hexadecimal_digit digit) }
    ensures value { result ≡ digit_of digit }
    ensures small { result < 16 }
{
    let digit = u32::from(digit);
    if digit <= 57 {
        return digit - 48;
    }
    if digit <= 70 {
        return digit - 55;
    }
    digit - 87
}

/// The number that at most six hexadecimal digits stand for.
fn hexadecimal_value(digits: &[u16]) -> u32
    requires all { All (λ unit. IsTrue (is_hexadecimal_digit unit)) digits.now }
    requires few { length digits.now ≤ 6 }
    ensures value { result ≡ hexadecimal_value digits.now }
    ensures small { result < 16 ^ length digits.now }
{
    let mut number = 0;
    for digit in digits {
        number = 16 * number + digit_of(*digit);
    }
    number
}

/// How many hexadecimal digits stand at the front of the units.
fn hexadecimal_size(units: &[u16]) -> usize
    ensures size { result ≡ run is_hexadecimal_digit units.now }
    ensures within { result ≤ length units.now }
{
    units
        .iter()
        .take_while(|unit| is_hexadecimal_digit(**unit))
        .count()
}

/// The hexadecimal digits at the front of the units.
fn hexadecimal_digits(units: &[u16]) -> &[u16]
    ensures digits { result.now ≡ take_while is_hexadecimal_digit units.now }
    ensures all { All (λ unit. IsTrue (is_hexadecimal_digit unit)) result.now }
    ensures within { length result.now ≤ length units.now }
{
    let (digits, _) = units.split_at(hexadecimal_size(units));
    digits
}

/// The first so many units, or all.
fn first_units(units: &[u16], count: usize) -> &[u16]
    ensures { result.now ≡ take count units.now }
{
    &units[..count.min(units.len())]
}

/// `x` or `u`, and as many hexadecimal digits as it asks for; the units are those behind the letter.
fn digits_escape(count: usize, units: &[u16]) -> Escape
    requires { count ≤ 4 }
    ensures escape { escape_of result ≡ digits_escape count units.now }
    ensures within { result.size ≤ 1 + length units.now }
    ensures small { IfSome result.code (λ code. code < 2 ^ 23) }
{
    let digits = hexadecimal_digits(first_units(units, count));
    let size = 1 + digits.len();
    if digits.len() == count {
        let code = Some(hexadecimal_value(digits));
        return Escape { code, size };
    }
    Escape { code: None, size }
}

/// The code point of one to six hexadecimal digits.
fn code_point(digits: &[u16]) -> Option<u32>
    requires { All (λ unit. IsTrue (is_hexadecimal_digit unit)) digits.now }
    ensures code { option_map encode_utf16 result ≡ code_point digits.now }
    ensures small { IfSome result (λ code. code < 2 ^ 23) }
{
    if digits.is_empty() || digits.len() > 6 {
        return None;
    }
    let code = hexadecimal_value(digits);
    if code <= 0x10_FFFF { Some(code) } else { None }
}

/// `u{`, hexadecimal digits and `}`; the units are those behind the `{`.
fn braced_escape(units: &[u16]) -> Escape
    ensures escape { escape_of result ≡ braced_escape units.now }
    ensures within { result.size ≤ 2 + length units.now }
    ensures small { IfSome result.code (λ code. code < 2 ^ 23) }
{
    let digits = hexadecimal_digits(units);
    let size = 2 + digits.len();
    if units[digits.len()..].starts_with(&[125]) {
        let code = code_point(digits);
        return Escape {
            code,
            size: size + 1,
        };
    }
    Escape { code: None, size }
}

/// `u`, and digits in braces or four of them; the units are those behind the `u`.
fn unicode_escape(units: &[u16]) -> Escape
    ensures escape { escape_of result ≡ (if begins units.now (codes "{") then braced_escape (drop 1 units.now) else digits_escape 4 units.now) }
    ensures within { result.size ≤ 1 + length units.now }
    ensures small { IfSome result.code (λ code. code < 2 ^ 23) }
{
    if units.starts_with(&[123]) {
        return braced_escape(&units[1..]);
    }
    digits_escape(4, units)
}

/// A control character that has a letter, or else the unit itself.
fn control_or_itself(unit: u16) -> u32
    ensures value { result ≡ unwrap_or (control_of unit) unit }
    ensures small { result < 2 ^ 16 }
{
    match unit {
        110 => 10,
        114 => 13,
        102 => 12,
        98 => 8,
        116 => 9,
        118 => 11,
        _ => u32::from(unit),
    }
}

/// The escape with which the units behind a backslash begin.
fn escape_at(units: &[u16]) -> Escape
    ensures escape { escape_of result ≡ escape_at units.now }
    ensures within { result.size ≤ length units.now }
    ensures small { IfSome result.code (λ code. code < 2 ^ 23) }
{
    let Some((unit, rest)) = units.split_first() else {
        return Escape {
            code: None,
            size: 0,
        };
    };
    if *unit == 120 {
        return digits_escape(2, rest);
    }
    if *unit == 117 {
        return unicode_escape(rest);
    }
    let code = Some(control_or_itself(*unit));
    Escape { code, size: 1 }
}

/// The units of what an escape stands for, behind those that are there; a bad escape has none.
fn push_escape(units: &mut Vec<u16>, escape: Escape) -> Result<(), AllocError>
    requires { IfSome escape.code (λ code. code < 2 ^ 23) }
    ensures { OnOk result (units.new.items ≡ units.old.items ++ unwrap_or (escape_of escape).value []) }
{
    if let Some(code) = escape.code {
        push_code(units, code)?;
    }
    Ok(())
}

/// The code units that units with escapes stand for.
pub fn unescaped(alloc: Global, units: &[u16]) -> Result<Vec<u16>, AllocError>
    ensures { IfOk result (λ value. value.items ≡ unescaped 0 units.now) }
{
    let mut value = Vec::new(alloc);
    let mut rest = units;
    while let Some((unit, after)) = rest.split_first() {
        if *unit == BACKSLASH {
            let escape = escape_at(after);
            push_escape(&mut value, escape)?;
            let (_, behind) = after.split_at(escape.size);
            rest = behind;
        } else {
            value.push(*unit)?;
            rest = after;
        }
    }
    Ok(value)
}

/// The fault of an escape whose backslash has this offset, if it is bad, behind those that are there.
fn push_fault(faults: &mut Vec<LexFault>, offset: u32, escape: Escape) -> Result<(), AllocError>
    requires { offset + 1 + escape.size < 2 ^ 32 }
    ensures { OnOk result (faults.new.items ≡ faults.old.items ++ map fault_of (faults_of_escape offset (escape_of escape))) }
{
    if escape.code.is_none() {
        faults.push(LexFault {
            kind: LexFaultKind::BadEscape,
            start: offset,
            end: offset + 1 + escape.size as u32,
        })?;
    }
    Ok(())
}

/// The faults of the bad escapes among units, of which the first has this offset, behind those that
/// are there.
pub fn push_bad_escapes(
    faults: &mut Vec<LexFault>,
    offset: u32,
    units: &[u16],
) -> Result<(), AllocError>
    requires { offset + length units.now < 2 ^ 32 }
    ensures { OnOk result (faults.new.items ≡ faults.old.items ++ map fault_of (bad_escapes offset 0 units.now)) }
{
    let mut rest = units;
    let mut at = offset;
    while let Some((unit, after)) = rest.split_first() {
        if *unit == BACKSLASH {
            let escape = escape_at(after);
            push_fault(faults, at, escape)?;
            let (_, behind) = after.split_at(escape.size);
            rest = behind;
            at += 1 + escape.size as u32;
        } else {
            rest = after;
            at += 1;
        }
    }
    Ok(())
}
