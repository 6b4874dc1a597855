//! Names behind a `$` in a string.

ghost use Rattle.std.specs.Prelude.{◌≡◌, ◌≤◌, ◌&&◌, length, nat_lt, take};
ghost use Rattle.dart_scan.specs.Lexemes.{run};
ghost use Rattle.dart_scan.specs.Strings.{is_name_start, is_name_part, name_size, is_interpolated, begins_name};

use crate::cut::lexeme::{identifier_part, identifier_start};
use dart_tokens::is_reserved;

/// The word may stand behind a `$`.
fn is_interpolated(word: &[u8]) -> bool
    ensures { result ≡ is_interpolated word.now }
{
    word == b"this".as_slice() || !is_reserved(word)
}

fn name_start(byte: u8) -> bool
    ensures { result ≡ is_name_start byte }
{
    identifier_start(byte) && byte != b'$'
}

fn name_part(byte: u8) -> bool
    ensures { result ≡ is_name_part byte }
{
    identifier_part(byte) && byte != b'$'
}

fn name_parts(text: &[u8]) -> usize
    ensures size { result ≡ run is_name_part text.now }
    ensures within { result ≤ length text.now }
{
    text.iter().take_while(|byte| name_part(**byte)).count()
}

/// How many bytes the name has that the text begins with, an identifier without `$`; none: 0.
pub fn name_size(text: &[u8]) -> usize
    ensures size { result ≡ name_size text.now }
    ensures within { result ≤ length text.now }
{
    let Some((first, rest)) = text.split_first() else {
        return 0;
    };
    if name_start(*first) {
        1 + name_parts(rest)
    } else {
        0
    }
}

/// The text begins with a name that may stand behind a `$`.
fn begins_interpolated(text: &[u8]) -> bool
    ensures { result ≡ (nat_lt 0 (name_size text.now) && is_interpolated (take (name_size text.now) text.now)) }
{
    let size = name_size(text);
    size > 0 && is_interpolated(&text[..size])
}

/// The text begins with a `$` and a name.
pub fn begins_name(text: &[u8]) -> bool
    ensures { result ≡ begins_name text.now }
{
    text.starts_with(b"$") && begins_interpolated(&text[1..])
}
