//! Pieces of a text.

/// What a piece of a text is.
#[derive(Clone, Copy, Debug, PartialEq, Eq)]
pub enum Class {
    /// White space, a comment, or a byte order mark at the start.
    Gap,
    /// A comment that never ends.
    UnterminatedComment,
    /// An ASCII character that begins no lexeme.
    IllegalCharacter,
    /// Characters beyond ASCII.
    BeyondAscii,
    /// An identifier or a reserved word.
    Word,
    /// Decimal digits, or `0x` and hexadecimal ones.
    Integer,
    /// A number with a fraction or an exponent.
    Double,
    /// Punctuation.
    Mark,
    /// A string without interpolations.
    StringLiteral,
    /// A string up to its first interpolation.
    StringOpening,
    /// A string between two interpolations.
    StringPart,
    /// A string behind its last interpolation.
    StringClosing,
    /// A string that never ends.
    UnterminatedString,
    /// The `$` before a name in a string.
    InterpolationMark,
    /// The `${` before an expression in a string.
    InterpolationOpening,
    /// The `}` behind an expression in a string.
    InterpolationClosing,
}

/// A piece at the front of a text: what it is, and how many bytes it has.
#[derive(Clone, Copy, Debug, PartialEq, Eq)]
pub struct Piece {
    pub class: Class,
    pub size: usize,
}
