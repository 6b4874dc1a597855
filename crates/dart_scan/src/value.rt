//! The values of strings.

ghost use Rattle.std.specs.Prelude.{◌≡◌, ◌==◌, ◌||◌, ◌+◌, ◌-◌, ◌<◌, ◌≤◌, [], IsTrue, IfOk, IfSome, length, take, drop};
ghost use Rattle.std.specs.Option.{option_map_or};
ghost use Rattle.dart_scan.specs.Openings.{shape};
ghost use Rattle.dart_scan.specs.Strings.{string_form};
ghost use Rattle.dart_scan.specs.Escapes.{begins_blank, newline_size};
ghost use Rattle.dart_scan.specs.Values.{is_space, is_newline, first_is, without_blank_line, blank_line, value_in, written_units, front_value, closing_quotes, unescaped, string_value};
ghost use Rattle.dart_text.specs.Units.{units_of};

use crate::cut::form::{StringForm, string_form};
use crate::escape::{BACKSLASH, unescaped};
use crate::units::units_of;
use dart_tokens::Kind;
use std::alloc::{AllocError, Global};

const TAB: u16 = 9;

const LINE_FEED: u16 = 10;

const CARRIAGE_RETURN: u16 = 13;

const SPACE: u16 = 32;

fn is_space(unit: u16) -> bool
    ensures { result ≡ is_space unit }
{
    unit == SPACE || unit == TAB
}

fn is_newline(unit: u16) -> bool
    ensures { result ≡ is_newline unit }
{
    unit == LINE_FEED || unit == CARRIAGE_RETURN
}

/// The first unit is white space.
fn is_first_white(units: &[u16]) -> bool
    ensures { result ≡ first_is (λ u. is_space u || is_newline u) units.now }
{
    match units {
        [first, ..] => is_space(*first) || is_newline(*first),
        [] => false,
    }
}

/// The first unit is a line feed.
fn is_first_line_feed(units: &[u16]) -> bool
    ensures { result ≡ first_is (λ u. u == 10) units.now }
{
    match units {
        [first, ..] => *first == LINE_FEED,
        [] => false,
    }
}

/// A first line goes on with a space or a tab, or with the backslash before one or before its newline.
fn begins_blank(units: &[u16]) -> bool
    ensures value { result ≡ begins_blank units.now }
    ensures some { IsTrue result → 0 < length units.now }
{
    match units {
        [first, rest @ ..] => is_space(*first) || (*first == BACKSLASH && is_first_white(rest)),
        [] => false,
    }
}

/// How many units the newline has with which the units begin.
fn newline_size(units: &[u16]) -> usize
    ensures size { result ≡ newline_size units.now }
    ensures within { result ≤ length units.now }
{
    match units {
        [LINE_FEED, ..] => 1,
        [CARRIAGE_RETURN, rest @ ..] if is_first_line_feed(rest) => 2,
        [CARRIAGE_RETURN, ..] => 1,
        _ => 0,
    }
}

/// How long the first line is with its newline, if it holds only spaces and tabs; each of these and
/// the newline may have a backslash before it.
fn blank_line(units: &[u16]) -> Option<usize>
    ensures size { result ≡ blank_line units.now }
    ensures within { IfSome result (λ size. size ≤ length units.now) }
{
    let mut at = 0;
    while begins_blank(&units[at..]) {
        at += 1;
    }
    let size = newline_size(&units[at..]);
    if size == 0 {
        return None;
    }
    Some(at + size)
}

/// The units of a string of three quotes that belong to its value.
fn without_blank_line(units: &[u16]) -> &[u16]
    ensures { result.now ≡ without_blank_line units.now }
{
    match blank_line(units) {
        Some(size) => &units[size..],
        None => units,
    }
}

/// What stands behind so many bytes.
fn behind(bytes: &[u8], count: usize) -> &[u8]
    ensures { result.now ≡ drop count bytes.now }
{
    &bytes[count.min(bytes.len())..]
}

/// The bytes but for so many last ones.
fn without_last(bytes: &[u8], count: usize) -> &[u8]
    ensures { result.now ≡ take (length bytes.now - count) bytes.now }
{
    &bytes[..bytes.len().saturating_sub(count)]
}

/// How many quotes close a string that ends with this lexeme.
fn closing_quotes(lexeme: &[u8]) -> usize
    ensures { result ≡ closing_quotes lexeme.now }
{
    let last = &lexeme[lexeme.len().saturating_sub(3)..];
    if last.starts_with(b"'''") || last.starts_with(b"\"\"\"") {
        3
    } else {
        1
    }
}

/// What the units between the quotes of a string stand for.
fn value_in(alloc: Global, form: StringForm, units: &[u16]) -> Result<Vec<u16>, AllocError>
    ensures { IfOk result (λ value. value.items ≡ value_in (shape form) units.now) }
{
    if form.raw {
        return units.to_vec(alloc);
    }
    unescaped(alloc, units)
}

/// The value of what stands between the quotes of a string, of which the front is there.
fn content_value(alloc: Global, form: StringForm, content: &[u8]) -> Result<Vec<u16>, AllocError>
    ensures { IfOk result (λ value. value.items ≡ value_in (shape form) (written_units (shape form) content.now)) }
{
    let units = units_of(alloc, content)?;
    if form.quotes.len() == 1 {
        return value_in(alloc, form, units.as_slice());
    }
    value_in(alloc, form, without_blank_line(units.as_slice()))
}

/// The value of the front of a string of a form, without so many quotes at its end.
fn front_value(
    alloc: Global,
    form: StringForm,
    quotes: usize,
    lexeme: &[u8],
) -> Result<Vec<u16>, AllocError>
    requires { length form.quotes.now ≤ 3 }
    ensures { IfOk result (λ value. value.items ≡ front_value (shape form) quotes lexeme.now) }
{
    let content = behind(lexeme, form.opening_size());
    content_value(alloc, form, without_last(content, quotes))
}

/// The value of a string without interpolations.
fn literal_value(alloc: Global, lexeme: &[u8]) -> Result<Vec<u16>, AllocError>
    ensures { IfOk result (λ value. value.items ≡ option_map_or (λ form. front_value form (length form.quotes) lexeme.now) (string_form lexeme.now) []) }
{
    match string_form(lexeme) {
        Some(form) => front_value(alloc, form, form.quotes.len(), lexeme),
        None => Ok(Vec::new(alloc)),
    }
}

/// The value of a string up to its first interpolation.
fn opening_value(alloc: Global, lexeme: &[u8]) -> Result<Vec<u16>, AllocError>
    ensures { IfOk result (λ value. value.items ≡ option_map_or (λ form. front_value form 0 lexeme.now) (string_form lexeme.now) []) }
{
    match string_form(lexeme) {
        Some(form) => front_value(alloc, form, 0, lexeme),
        None => Ok(Vec::new(alloc)),
    }
}

/// The value of what stands behind an interpolation of a string, without its quotes.
fn part_value(alloc: Global, part: &[u8]) -> Result<Vec<u16>, AllocError>
    ensures { IfOk result (λ value. value.items ≡ unescaped 0 (units_of part.now)) }
{
    let units = units_of(alloc, part)?;
    unescaped(alloc, units.as_slice())
}

/// The value of a piece of a string, in UTF-16 code units: what stands between its quotes, with a
/// unit or two for each escape, and none for a bad one. A lexeme of another kind has the empty value.
pub fn string_value(alloc: Global, kind: Kind, lexeme: &str) -> Result<Vec<u16>, AllocError>
    ensures { IfOk result (λ value. value.items ≡ string_value kind lexeme.now) }
{
    let bytes = lexeme.as_bytes();
    match kind {
        Kind::StringLiteral => literal_value(alloc, bytes),
        Kind::StringOpening => opening_value(alloc, bytes),
        Kind::StringPart => part_value(alloc, bytes),
        Kind::StringClosing => part_value(alloc, without_last(bytes, closing_quotes(bytes))),
        _ => Ok(Vec::new(alloc)),
    }
}
