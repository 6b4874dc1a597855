//! What a scanner makes of a text.

ghost use Rattle.std.specs.Prelude.{◌≡◌};

use crate::token::Token;
use plain_text::PlainText;
use std::marker::Model;

/// What is wrong with a part of a text, whatever its tokens mean.
#[derive(Clone, Copy, Debug, PartialEq, Eq)]
pub enum LexFaultKind {
    /// A comment that never ends, from its start to the end of the text.
    UnterminatedComment,
    /// A string that never ends, from its quote to the end of its line, or of the text.
    UnterminatedString,
    /// An escape of a string without the digits that it needs, or beyond the last code point.
    BadEscape,
    /// An ASCII character that begins no lexeme.
    IllegalCharacter,
    /// Characters beyond ASCII outside comments and the parts of strings.
    ProfileIdentifier,
}

/// A part of a text with which something is wrong, from its first to past its last UTF-16 code unit,
/// from 0.
#[derive(Clone, Copy, Debug, PartialEq, Eq)]
pub struct LexFault {
    pub kind: LexFaultKind,
    pub start: u32,
    pub end: u32,
}

/// Faults of a text, in the order of their starts.
#[derive(Debug, Drop)]
pub struct LexFaults {
    faults: Vec<LexFault>,
}

impl Model for LexFaults {
    ghost use Rattle.std.specs.Prelude.{List};
    ghost use Rattle.dart_tokens.specs.declared.scanned.LexFault.{LexFault};

    ghost Value = { List LexFault };

    ghost view = { λ a. a.faults.items };
}

impl LexFaults {
    /// Those that the vector holds, which takes no memory.
    pub fn from_vec(faults: Vec<LexFault>) -> LexFaults
        ensures { result ≡ faults.items }
    {
        LexFaults { faults }
    }

    /// These themselves.
    pub fn as_slice(&self) -> &[LexFault]
        ensures { result.now ≡ self.now }
    {
        self.faults.as_slice()
    }
}

/// Tokens in the order of the text.
#[derive(Debug, Drop)]
pub struct TextTokens {
    tokens: Vec<Token>,
}

impl Model for TextTokens {
    ghost use Rattle.std.specs.Prelude.{List};
    ghost use Rattle.dart_tokens.specs.declared.token.Token.{Token};

    ghost Value = { List Token };

    ghost view = { λ a. a.tokens.items };
}

impl TextTokens {
    /// Those that the vector holds, which takes no memory.
    pub fn from_vec(tokens: Vec<Token>) -> TextTokens
        ensures { result ≡ tokens.items }
    {
        TextTokens { tokens }
    }

    /// These themselves.
    pub fn as_slice(&self) -> &[Token]
        ensures { result.now ≡ self.now }
    {
        self.tokens.as_slice()
    }
}

/// The lexemes of a text, each once, in the order of their first places.
#[derive(Debug, Drop)]
pub struct Words {
    words: Vec<PlainText>,
}

impl Model for Words {
    ghost use Rattle.std.specs.Prelude.{ℕ, List};

    ghost Value = { List (List ℕ) };

    ghost view = { λ a. a.words.items };
}

impl Words {
    /// Those that the vector holds, which takes no memory.
    pub fn from_vec(words: Vec<PlainText>) -> Words
        ensures { result ≡ words.items }
    {
        Words { words }
    }

    /// These themselves.
    pub fn as_slice(&self) -> &[PlainText]
        ensures { result.now ≡ self.now }
    {
        self.words.as_slice()
    }
}

/// The tokens of a text, its words, and what is wrong with its parts.
#[derive(Debug, Drop)]
pub struct Scanned {
    pub tokens: TextTokens,
    pub words: Words,
    pub faults: LexFaults,
}
