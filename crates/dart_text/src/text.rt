//! The text of a file.

ghost use Rattle.std.specs.Prelude.{◌≡◌, ◌≤◌, length, IfOk, IsCharBoundary, string_bytes};
ghost use Rattle.std.specs.List.{replace_range};
ghost use Rattle.dart_text.specs.Edits.{max_text, short_edit, short_text, text_in_bytes};
ghost use Rattle.dart_text.specs.Lines.{position_of};
ghost use Rattle.dart_text.specs.Results.{Edits, IsUnlessMemory};
ghost use Rattle.dart_text.specs.Units.{units_of};
ghost use Rattle.dart_text.specs.declared.text.TextRefusal.TheVariants.{Memory};

use crate::edit::EditRefusal;
use crate::position::Position;
use crate::positions::Positions;
use plain_text::utf16_len;
use std::alloc::{AllocError, Global};
use std::marker::Model;
use std::ops::Range;
use std::str;
use thiserror::Error;

/// The most bytes that the text of a file has, 4 MiB.
pub const MAX_TEXT: usize = 4_194_304;

/// Why bytes are no text of a file. Of several causes the one that stands first here is told.
#[derive(Clone, Copy, Debug, PartialEq, Eq, Drop, Error)]
pub enum TextRefusal {
    /// They aren't UTF-8.
    #[error("the bytes aren't UTF-8")]
    NotUtf8,
    /// They are so many, more than `MAX_TEXT`.
    #[error("the text has {bytes} bytes")]
    TooLong { bytes: u64 },
    /// Want of memory.
    #[error("out of memory")]
    Memory,
}

impl From<AllocError> for TextRefusal {
    ghost from_gives = { λ _ refusal. refusal ≡ Memory };

    fn from(_error: AllocError) -> TextRefusal {
        TextRefusal::Memory
    }
}

/// The text of a file: UTF-8 of at most `MAX_TEXT` bytes, which contracts see as the list of its
/// bytes.
#[derive(Debug, Drop)]
pub struct Text {
    text: String,
}

impl Model for Text {
    ghost use Rattle.std.specs.Prelude.{ℕ, List, ◌≤◌, length, string_bytes};
    ghost use Rattle.dart_text.specs.Edits.{max_text};

    ghost Value = { List ℕ };

    ghost view = { λ t. string_bytes t.text };

    ghost invariant = { λ t. length (string_bytes t.text) ≤ max_text };
}

impl Text {
    /// The text that the bytes are, in memory of its own.
    pub fn new(alloc: Global, bytes: &[u8]) -> Result<Text, TextRefusal>
        ensures { IsUnlessMemory result (text_in_bytes bytes.now) }
    {
        match str::from_utf8(bytes) {
            Ok(text) => Text::from_str(alloc, text),
            Err(_) => Err(TextRefusal::NotUtf8),
        }
    }

    /// The text, in memory of its own.
    pub fn from_str(alloc: Global, text: &str) -> Result<Text, TextRefusal>
        ensures { IsUnlessMemory result (short_text text.now) }
    {
        if text.len() > MAX_TEXT {
            return Err(TextRefusal::TooLong {
                bytes: text.len() as u64,
            });
        }
        let text = String::from_str(alloc, text)?;
        Ok(Text { text })
    }

    /// The text that the string holds, which takes no memory.
    pub(crate) fn of_short(text: String) -> Text
        requires { length (string_bytes text) ≤ max_text }
        ensures { result ≡ string_bytes text }
    {
        Text { text }
    }

    /// The text itself.
    pub fn as_str(&self) -> &str
        ensures same { result.now ≡ self.now }
        ensures bounded { length result.now ≤ max_text }
    {
        self.text.as_str()
    }

    /// Its length in UTF-16 code units.
    #[tactic(auto, using(crate::proofs::UnitLemmas::units_counted))]
    pub fn len16(&self) -> u32
        ensures { result ≡ length (units_of self.now) }
    {
        utf16_len(self.as_str().as_bytes()) as u32
    }

    /// The line and the column, both from 1, of an offset, in UTF-16 code units from 0; past the end of
    /// the text they are those of the end. It walks there from the start: for many offsets of one text
    /// take `Positions`.
    pub fn line_column(&self, offset: u32) -> Position
        ensures { result ≡ position_of offset self.now }
    {
        Positions::of(self).at(offset)
    }

    /// An equal text with memory of its own.
    pub fn copy(&self) -> Result<Text, AllocError>
        ensures { IfOk result (λ copied. copied ≡ self.now) }
    {
        let text = self.text.clone()?;
        Ok(Text { text })
    }

    /// Puts `with` in the place of these bytes, if the text is then short enough.
    pub(crate) fn replace(&mut self, part: Range<usize>, with: &str) -> Result<(), EditRefusal>
        requires in_order { part.start ≤ part.end }
        requires starts { IsCharBoundary self.old part.start }
        requires ends { IsCharBoundary self.old part.end }
        ensures { Edits result self.old self.new
            (short_edit (replace_range self.old part.start part.end with.now)) }
    {
        let kept = self.text.len() - (part.end - part.start);
        let bytes = kept + with.len();
        if bytes > MAX_TEXT {
            return Err(EditRefusal::TooLong {
                bytes: bytes as u64,
            });
        }
        self.text.replace_range(part, with)?;
        Ok(())
    }
}
