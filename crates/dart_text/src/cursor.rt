//! A walk over a text that counts units, lines and columns.

ghost use Rattle.std.specs.Prelude.{◌≡◌, ◌+◌, ◌≤◌, List, ℕ, ◌++◌, length, drop, encode_utf8};
ghost use Rattle.std.specs.Char.Escape.{encode_utf16};
ghost use Rattle.dart_text.specs.Cursors.{IsAt, IsOn};
ghost use Rattle.dart_text.specs.Edits.{max_text};
ghost use Rattle.dart_text.specs.Lines.{position_of};

use crate::position::Position;

/// A place between two characters of a text, and what is counted up to it.
#[derive(Clone, Copy)]
pub(crate) struct Cursor {
    /// How many bytes stand before it.
    pub(crate) bytes: usize,
    /// How many UTF-16 code units these are.
    pub(crate) units: u64,
    /// Its line and column.
    pub(crate) position: Position,
}

impl Cursor {
    /// The start of a text.
    pub(crate) const START: Cursor = Cursor {
        bytes: 0,
        units: 0,
        position: Position::START,
    };

    /// The cursor behind a character that stands here.
    fn past(self, text: &str, character: char) -> Cursor
        requires short { length text.now ≤ max_text }
        requires on { IsOn text.now self }
        requires here { (rest : List ℕ)
            × (drop self.bytes text.now ≡ encode_utf8 character ++ rest) }
        ensures on { IsOn text.now result }
        ensures bytes { result.bytes ≡ self.bytes + length (encode_utf8 character) }
        ensures units { result.units ≡ self.units + length (encode_utf16 character) }
    {
        let bytes = character.len_utf8();
        let units = character.len_utf16();
        Cursor {
            bytes: self.bytes + bytes,
            units: self.units + units as u64,
            position: self.position.past(character),
        }
    }

    /// The cursor at an offset, in UTF-16 code units from 0: behind the last character that ends by
    /// it. It walks there from where it stands, or from the start if it stands past the offset.
    pub(crate) fn moved_to(self, text: &str, offset: u64) -> Cursor
        requires short { length text.now ≤ max_text }
        requires on { IsOn text.now self }
        ensures at { IsAt text.now offset result }
        ensures onward { self.units ≤ offset → self.bytes ≤ result.bytes }
    {
        let mut cursor = if offset < self.units {
            Cursor::START
        } else {
            self
        };
        for character in text[cursor.bytes..].chars() {
            let units = character.len_utf16();
            if offset - cursor.units < units as u64 {
                return cursor;
            }
            cursor = cursor.past(text, character);
        }
        cursor
    }

    /// The position of the offset that the cursor was moved to.
    pub(crate) fn position_at(self, text: &str, offset: u64) -> Position
        requires short { length text.now ≤ max_text }
        requires at { IsAt text.now offset self }
        ensures { result ≡ position_of offset text.now }
    {
        if self.bytes < text.len() && self.units < offset {
            return Position {
                line: self.position.line,
                column: self.position.column + 1,
            };
        }
        self.position
    }
}
