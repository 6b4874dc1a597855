//! A text in pieces: what of it lies in which piece, and what an edit makes of some of them.

ghost use Rattle.std.specs.Prelude.{◌≡◌, ◌⊎◌, ◌+◌, ◌-◌, ◌<◌, ◌≤◌, length, take, Err, IfOk, IfErr, IsCharBoundary, string_bytes};
ghost use Rattle.plain_text.specs.Units.{units_in};
ghost use Rattle.dart_text.specs.Edits.{edited, max_text};
ghost use Rattle.dart_text.specs.Pieces.{spelt, IsFront, IsReplacedIn, IsRefusedIn, IsChange};
ghost use Rattle.dart_text.specs.declared.edit.EditRefusal.TheVariants.{Memory};

use crate::cursor::Cursor;
use crate::edit::EditRefusal;
use crate::piece::Piece;
use crate::text::MAX_TEXT;
use std::alloc::{AllocError, Global};
use std::ops::Range;

// The bytes of a piece, but for those of the character at its end, and but for a last piece, which has up to twice as many.
const PIECE: usize = 2_048;

/// How long pieces are, one behind the other.
#[derive(Clone, Copy)]
pub(crate) struct Lengths {
    /// In bytes.
    pub(crate) bytes: usize,
    /// In UTF-16 code units.
    pub(crate) units: u64,
}

/// Some first pieces.
#[derive(Clone, Copy)]
pub(crate) struct Front {
    /// How many there are.
    pub(crate) pieces: usize,
    /// How many UTF-16 code units they have.
    pub(crate) units: u64,
}

/// What an edit makes of some pieces.
#[derive(Drop)]
pub(crate) struct Change {
    /// How many pieces stand before them.
    pub(crate) first: usize,
    /// How many stand before those behind them.
    pub(crate) last: usize,
    /// The text in their place.
    pub(crate) text: String,
}

/// The pieces of a text.
pub(crate) fn pieces_of(alloc: Global, text: &str) -> Result<Vec<Piece>, AllocError>
    ensures { IfOk result (λ pieces. spelt pieces.items ≡ text.now) }
{
    let mut pieces = Vec::new(alloc);
    let mut rest = text;
    while !rest.is_empty() {
        let (first, behind) = rest.split_at(first_len(rest));
        pieces.push(Piece::new(String::from_str(alloc, first)?))?;
        rest = behind;
    }
    Ok(pieces)
}

// The bytes of the first piece of a text.
fn first_len(text: &str) -> usize
    requires { 0 < length text.now }
    ensures some { 0 < result }
    ensures boundary { IsCharBoundary text.now result }
{
    if text.len() <= 2 * PIECE {
        return text.len();
    }
    text.ceil_char_boundary(PIECE)
}

/// The text of the pieces.
pub(crate) fn joined(alloc: Global, pieces: &[Piece]) -> Result<String, AllocError>
    requires { length (spelt pieces.now) ≤ max_text }
    ensures { IfOk result (λ text. string_bytes text ≡ spelt pieces.now) }
{
    let mut text = String::with_capacity(alloc, measured(pieces).bytes)?;
    for piece in pieces {
        text.push_str(piece.as_str())?;
    }
    Ok(text)
}

/// How long the text of the pieces is.
pub(crate) fn measured(pieces: &[Piece]) -> Lengths
    requires { length (spelt pieces.now) ≤ max_text }
    ensures bytes { result.bytes ≡ length (spelt pieces.now) }
    ensures units { result.units ≡ units_in (spelt pieces.now) }
{
    let mut bytes = 0;
    let mut units = 0;
    for piece in pieces {
        bytes += piece.as_str().len();
        units += piece.units();
    }
    Lengths { bytes, units }
}

// The pieces before the one in which the offset lies.
fn front_before(pieces: &[Piece], offset: u64) -> Front
    requires { length (spelt pieces.now) ≤ max_text }
    ensures front { IsFront pieces.now result }
    ensures reached { result.units ≤ offset }
{
    let mut front = Front {
        pieces: 0,
        units: 0,
    };
    for piece in pieces {
        let units = piece.units();
        if offset - front.units <= units {
            return front;
        }
        front = Front {
            pieces: front.pieces + 1,
            units: front.units + units,
        };
    }
    front
}

// How many pieces have the units before the end: those of the front, and one more if there is one.
fn pieces_to(pieces: &[Piece], front: Front, end: u64) -> usize
    requires short { length (spelt pieces.now) ≤ max_text }
    requires front { IsFront pieces.now front }
    requires within { end ≤ units_in (spelt pieces.now) }
    ensures onward { front.pieces ≤ result }
    ensures within { result ≤ length pieces.now }
    ensures reached { end ≤ units_in (spelt (take result pieces.now)) }
{
    let mut units = front.units;
    for last in front.pieces..pieces.len() {
        if last > front.pieces && end <= units {
            return last;
        }
        units += pieces[last].units();
    }
    pieces.len()
}

// The bytes in the middle of a text that an edit replaces, where so many units stand before the middle.
fn part_of(middle: &str, before: u64, offset: u64, end: u64) -> Result<Range<usize>, EditRefusal>
    requires short { length middle.now ≤ max_text }
    requires begins { before ≤ offset }
    requires in_order { offset ≤ end }
    requires ends { end ≤ before + units_in middle.now }
    ensures ok { IfOk result (IsReplacedIn middle.now before offset (end - offset)) }
    ensures err { IfErr result (IsRefusedIn middle.now before offset (end - offset)) }
{
    let start = Cursor::START.moved_to(middle, offset - before);
    let stop = start.moved_to(middle, end - before);
    if start.units < offset - before {
        return Err(EditRefusal::SplitsPair { at: offset });
    }
    if stop.units < end - before {
        return Err(EditRefusal::SplitsPair { at: end });
    }
    Ok(start.bytes..stop.bytes)
}

/// What an edit makes of the pieces, which stay.
pub(crate) fn change_of(
    alloc: Global,
    pieces: &[Piece],
    offset: u64,
    count: u64,
    with: &str,
) -> Result<Change, EditRefusal>
    requires { length (spelt pieces.now) ≤ max_text }
    ensures ok { IfOk result (IsChange pieces.now (edited (spelt pieces.now) offset count with.now)) }
    ensures err { IfErr result (λ refusal. (refusal ≡ Memory) ⊎ (edited (spelt pieces.now) offset count with.now ≡ Err refusal)) }
{
    let all = measured(pieces);
    let end = offset.saturating_add(count);
    if end > all.units {
        return Err(EditRefusal::OutOfRange { length: all.units });
    }
    let front = front_before(pieces, offset);
    let last = pieces_to(pieces, front, end);
    let mut text = joined(alloc, &pieces[front.pieces..last])?;
    let part = part_of(text.as_str(), front.units, offset, end)?;
    let bytes = all.bytes - (part.end - part.start) + with.len();
    if bytes > MAX_TEXT {
        return Err(EditRefusal::TooLong {
            bytes: bytes as u64,
        });
    }
    text.replace_range(part, with)?;
    Ok(Change {
        first: front.pieces,
        last,
        text,
    })
}
