//! Lines and columns.

ghost use Rattle.std.specs.Prelude.{◌≡◌, ◌+◌, ◌^◌, ◌<◌, ℕ, List, [], ◌++◌};
ghost use Rattle.std.specs.Char.Escape.{encode_utf16};
ghost use Rattle.dart_text.specs.Lines.{position_after};

/// A line and a column, both from 1; the column in UTF-16 code units.
#[derive(Clone, Copy, Debug, PartialEq, Eq)]
pub struct Position {
    /// One more than the line feeds before it.
    pub line: u32,
    /// One more than the UTF-16 code units between the last line feed before it, or the start of
    /// the text, and it.
    pub column: u32,
}

impl Position {
    /// The position of the start of a text.
    pub(crate) const START: Position = Position { line: 1, column: 1 };

    /// The position behind a character that stands here.
    pub(crate) fn past(self, character: char) -> Position
        requires line { self.line + 1 < 2 ^ 32 }
        requires column { self.column + 2 < 2 ^ 32 }
        ensures { (front : List ℕ) → self ≡ position_after front
            → result ≡ position_after (front ++ encode_utf16 character) }
    {
        if character == '\n' {
            return Position {
                line: self.line + 1,
                column: 1,
            };
        }
        Position {
            line: self.line,
            column: self.column + character.len_utf16() as u32,
        }
    }
}
