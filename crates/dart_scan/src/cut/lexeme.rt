//! The first piece of a text, strings aside.

ghost use Rattle.std.specs.Prelude.{◌≡◌, ◌+◌, ◌<◌, ◌≤◌, ◌==◌, ◌||◌, IsTrue, codes, drop, false, if◌then◌else◌, length};
ghost use Rattle.dart_scan.specs.Characters.{is_digit, is_identifier_start, is_identifier_part, is_blank, is_within_line, is_beyond_ascii};
ghost use Rattle.dart_scan.specs.Lexemes.{begins, mark_size, run, word_size};
ghost use Rattle.dart_scan.specs.Pieces.{longer, lexeme_at, comment_piece, piece_at};

use crate::cut::comment::comment_size;
use crate::cut::number::{digit, double_size, integer_size};
use crate::piece::{Class, Piece};
use dart_tokens::mark_at;

/// An ASCII letter, `_` or `$`.
pub fn identifier_start(byte: u8) -> bool
    ensures { result ≡ is_identifier_start byte }
{
    byte.is_ascii_alphabetic() || byte == b'_' || byte == b'$'
}

/// Such a character or a digit.
pub fn identifier_part(byte: u8) -> bool
    ensures { result ≡ is_identifier_part byte }
{
    identifier_start(byte) || digit(byte)
}

fn identifier_parts(text: &[u8]) -> usize
    ensures size { result ≡ run is_identifier_part text.now }
    ensures within { result ≤ length text.now }
{
    text.iter()
        .take_while(|byte| identifier_part(**byte))
        .count()
}

/// How many bytes the word has that the text begins with; none: 0.
fn word_size(text: &[u8]) -> usize
    ensures size { result ≡ word_size text.now }
    ensures within { result ≤ length text.now }
{
    let Some((first, rest)) = text.split_first() else {
        return 0;
    };
    if identifier_start(*first) {
        1 + identifier_parts(rest)
    } else {
        0
    }
}

/// How many bytes the mark of punctuation has that the text begins with; none: 0.
fn mark_size(text: &[u8]) -> usize
    ensures size { result ≡ mark_size text.now }
    ensures within { result ≤ length text.now }
{
    match mark_at(text) {
        Some((_, size)) => size,
        None => 0,
    }
}

fn longer(a: Piece, b: Piece) -> Piece
    ensures { result ≡ longer a b }
{
    if a.size < b.size { b } else { a }
}

fn beyond_ascii(text: &[u8]) -> usize
    ensures size { result ≡ run is_beyond_ascii text.now }
    ensures within { result ≤ length text.now }
{
    text.iter().take_while(|byte| **byte >= 128).count()
}

/// The longest lexeme at the front, or what begins none.
fn lexeme(text: &[u8]) -> Piece
    requires { 0 < length text.now }
    ensures piece { result ≡ lexeme_at text.now }
    ensures within { result.size ≤ length text.now }
{
    let piece = |class, size| Piece { class, size };
    let unknown = longer(
        piece(Class::BeyondAscii, beyond_ascii(text)),
        piece(Class::IllegalCharacter, 1),
    );
    let mark = longer(piece(Class::Mark, mark_size(text)), unknown);
    let double = longer(piece(Class::Double, double_size(text)), mark);
    let integer = longer(piece(Class::Integer, integer_size(text)), double);
    longer(piece(Class::Word, word_size(text)), integer)
}

/// The comment in whose `/*` the text begins.
fn comment(text: &[u8]) -> Piece
    requires { IsTrue (begins text.now (codes "/*")) }
    ensures piece { result ≡ comment_piece text.now }
    ensures within { result.size ≤ length text.now }
{
    match comment_size(&text[2..]) {
        Some(size) => Piece {
            class: Class::Gap,
            size,
        },
        None => Piece {
            class: Class::UnterminatedComment,
            size: text.len(),
        },
    }
}

fn blanks(text: &[u8]) -> usize
    ensures size { result ≡ run is_blank text.now }
    ensures within { result ≤ length text.now }
{
    text.iter()
        .take_while(|byte| **byte == b' ' || **byte == b'\t' || **byte == b'\n' || **byte == b'\r')
        .count()
}

/// How many bytes stand before the end of the line.
pub fn rest_of_line(text: &[u8]) -> usize
    ensures size { result ≡ run is_within_line text.now }
    ensures within { result ≤ length text.now }
{
    text.iter()
        .take_while(|byte| !(**byte == b'\n' || **byte == b'\r'))
        .count()
}

fn gap(size: usize) -> Piece
    ensures { result ≡ record { class = Class.Gap; size = size } }
{
    Piece {
        class: Class::Gap,
        size,
    }
}

/// The comment of one line that the text begins with.
fn line_comment(text: &[u8]) -> Piece
    requires { IsTrue (begins text.now (codes "//")) }
    ensures piece { result ≡ record { class = Class.Gap; size = 2 + run is_within_line (drop 2 text.now) } }
    ensures within { result.size ≤ length text.now }
{
    gap(2 + rest_of_line(&text[2..]))
}

/// A number or a comment may begin with the byte, or it is beyond ASCII.
fn begins_beside_marks(byte: u8) -> bool
    ensures { result ≡ (is_digit byte || (byte == 46 || (byte == 47 || is_beyond_ascii byte))) }
{
    digit(byte) || (byte == b'.' || (byte == b'/' || byte >= 128))
}

/// The mark of punctuation at the front, or one byte that begins none.
fn mark(text: &[u8]) -> Piece
    requires { 0 < length text.now }
    ensures piece { result ≡ longer (record { class = Class.Mark; size = mark_size text.now }) (record { class = Class.IllegalCharacter; size = 1 }) }
    ensures within { result.size ≤ length text.now }
{
    let piece = |class, size| Piece { class, size };
    longer(
        piece(Class::Mark, mark_size(text)),
        piece(Class::IllegalCharacter, 1),
    )
}

/// The comment at the front, or else the longest lexeme.
fn comment_or_lexeme(text: &[u8]) -> Piece
    requires { 0 < length text.now }
    ensures piece { result ≡ (if begins text.now (codes "//") then record { class = Class.Gap; size = 2 + run is_within_line (drop 2 text.now) }
        else (if begins text.now (codes "/*") then comment_piece text.now else lexeme_at text.now)) }
    ensures within { result.size ≤ length text.now }
{
    if text.starts_with(b"//") {
        return line_comment(text);
    }
    if text.starts_with(b"/*") {
        return comment(text);
    }
    lexeme(text)
}

/// The first piece of a text that isn't empty and begins with no string. A byte order mark that stands
/// first of all isn't looked for. Words and white space are most pieces, and are looked for first.
#[tactic(auto, using(crate::specs::PieceLemmas::piece_least))]
pub fn piece_at(text: &[u8]) -> Piece
    requires { 0 < length text.now }
    ensures piece { result ≡ piece_at false text.now }
    ensures some { 0 < result.size }
    ensures within { result.size ≤ length text.now }
{
    let word = word_size(text);
    if word > 0 {
        return Piece {
            class: Class::Word,
            size: word,
        };
    }
    let blanks = blanks(text);
    if blanks > 0 {
        return gap(blanks);
    }
    if begins_beside_marks(text[0]) {
        return comment_or_lexeme(text);
    }
    mark(text)
}
