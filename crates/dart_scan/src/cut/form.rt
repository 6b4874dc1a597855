//! The forms of strings, and what ends a piece of one.

ghost use Rattle.std.specs.Prelude.{◌≡◌, ◌<◌, ◌≤◌, ◌==◌, ◌&&◌, ◌||◌, None, false, length, not, option_map, true};
ghost use Rattle.dart_scan.specs.Strings.{form_of, opening_of, string_form, begins_interpolation, ends_piece, plain_size};
ghost use Rattle.dart_scan.specs.Openings.{shape, taken};

use crate::cut::name::begins_name;

/// A form of strings: whether it is raw, with no escapes and no interpolations, and the quotes that end it.
#[derive(Clone, Copy, Debug)]
pub struct StringForm {
    pub raw: bool,
    pub quotes: &'static [u8],
}

impl StringForm {
    /// How many bytes open such a string.
    pub fn opening_size(self) -> usize
        requires { length self.quotes.now ≤ 3 }
        ensures { result ≡ length (opening_of (shape self)) }
    {
        if self.raw {
            1 + self.quotes.len()
        } else {
            self.quotes.len()
        }
    }

    /// How many bytes stand before the end of a piece of such a string, or before the end of the text.
    pub fn plain_size(self, text: &[u8]) -> usize
        ensures size { result ≡ plain_size (shape self) text.now }
        ensures within { result ≤ length text.now }
    {
        plain_size(self.raw, self.quotes, text)
    }
}

/// The text begins with an interpolation.
fn begins_interpolation(text: &[u8]) -> bool
    ensures { result ≡ begins_interpolation text.now }
{
    text.starts_with(b"${") || begins_name(text)
}

/// A piece of a string ends where the text begins: the string ends, or an interpolation begins.
fn ends_piece(raw: bool, quotes: &[u8], text: &[u8]) -> bool
    ensures { result ≡ ends_piece (form_of raw quotes.now) text.now }
{
    text.starts_with(quotes) || !raw && begins_interpolation(text)
}

/// A backslash that takes the byte behind it with it.
fn begins_escape(raw: bool, byte: u8) -> bool
    ensures { result ≡ (not raw && byte == 92) }
{
    !raw && byte == b'\\'
}

/// How many bytes are plain together, where no piece of a string ends: two, where an escape takes the
/// byte behind it.
fn taken(raw: bool, text: &[u8]) -> usize
    requires { 0 < length text.now }
    ensures size { result ≡ taken raw text.now }
    ensures some { 0 < result }
    ensures within { result ≤ length text.now }
{
    match text {
        [first, _, ..] if begins_escape(raw, *first) => 2,
        _ => 1,
    }
}

/// How many bytes stand before the end of a piece of a string, or before the end of the text.
fn plain_size(raw: bool, quotes: &[u8], text: &[u8]) -> usize
    ensures size { result ≡ plain_size (form_of raw quotes.now) text.now }
    ensures within { result ≤ length text.now }
{
    let mut at = 0;
    while at < text.len() {
        let rest = &text[at..];
        if ends_piece(raw, quotes, rest) {
            return at;
        }
        at += taken(raw, rest);
    }
    at
}

fn raw(quotes: &'static [u8]) -> StringForm
    ensures { shape result ≡ record { raw = true; quotes = quotes.now } }
{
    StringForm { raw: true, quotes }
}

fn escaping(quotes: &'static [u8]) -> StringForm
    ensures { shape result ≡ record { raw = false; quotes = quotes.now } }
{
    StringForm { raw: false, quotes }
}

/// A string may begin with the byte.
fn begins_opening(byte: u8) -> bool
    ensures { result ≡ (byte == 114 || (byte == 39 || byte == 34)) }
{
    byte == b'r' || (byte == b'\'' || byte == b'"')
}

/// A string may stand first in the text, by its first byte.
fn may_open(text: &[u8]) -> bool
    ensures { result ≡ false → string_form text.now ≡ None }
{
    if text.is_empty() {
        return false;
    }
    begins_opening(text[0])
}

/// The form of the string that a text begins with.
pub fn string_form(text: &[u8]) -> Option<StringForm>
    ensures { option_map shape result ≡ string_form text.now }
{
    if !may_open(text) {
        return None;
    }
    match text {
        [b'r', b'\'', b'\'', b'\'', ..] => Some(raw(b"'''")),
        [b'r', b'"', b'"', b'"', ..] => Some(raw(b"\"\"\"")),
        [b'\'', b'\'', b'\'', ..] => Some(escaping(b"'''")),
        [b'"', b'"', b'"', ..] => Some(escaping(b"\"\"\"")),
        [b'r', b'\'', ..] => Some(raw(b"'")),
        [b'r', b'"', ..] => Some(raw(b"\"")),
        [b'\'', ..] => Some(escaping(b"'")),
        [b'"', ..] => Some(escaping(b"\"")),
        _ => None,
    }
}
