//! Edits of a text.

ghost use Rattle.std.specs.Prelude.{◌≡◌, ◌≤◌, ℕ, List, length, IfOk, IfErr};
ghost use Rattle.dart_text.specs.Edits.{edited, max_text};
ghost use Rattle.dart_text.specs.Parts.{IsReplacedBy};
ghost use Rattle.dart_text.specs.Results.{Edits};
ghost use Rattle.dart_text.specs.declared.edit.EditRefusal.TheVariants.{Memory};

use crate::cursor::Cursor;
use crate::text::{MAX_TEXT, Text};
use std::alloc::AllocError;
use std::ops::Range;
use thiserror::Error;

/// Why an edit is refused. Of several causes the one that stands first here is told.
#[derive(Clone, Copy, Debug, PartialEq, Eq, Drop, Error)]
pub enum EditRefusal {
    /// It reaches past the end of the text, which has so many UTF-16 code units.
    #[error("the edit reaches past the {length} units of the text")]
    OutOfRange { length: u64 },
    /// Its start, or else its end, lies at this offset in UTF-16 code units, inside a surrogate pair.
    #[error("the edit splits the surrogate pair at {at}")]
    SplitsPair { at: u64 },
    /// The text would have so many bytes in UTF-8, more than `MAX_TEXT`.
    #[error("the text would have {bytes} bytes")]
    TooLong { bytes: u64 },
    /// Want of memory.
    #[error("out of memory")]
    Memory,
}

impl From<AllocError> for EditRefusal {
    ghost from_gives = { λ _ refusal. refusal ≡ Memory };

    fn from(_error: AllocError) -> EditRefusal {
        EditRefusal::Memory
    }
}

// The bytes of the `count` UTF-16 code units that stand behind the first `offset` ones.
fn replaced_part(text: &str, offset: u64, count: u64) -> Result<Range<usize>, EditRefusal>
    requires { length text.now ≤ max_text }
    ensures ok { IfOk result (IsReplacedBy text.now offset count) }
    ensures err { IfErr result (λ refusal. (with : List ℕ)
        → edited text.now offset count with ≡ Err refusal) }
{
    let end_offset = offset.saturating_add(count);
    let start = Cursor::START.moved_to(text, offset);
    let end = start.moved_to(text, end_offset);
    if end.bytes == text.len() && end.units < end_offset {
        return Err(EditRefusal::OutOfRange { length: end.units });
    }
    if start.units < offset {
        return Err(EditRefusal::SplitsPair { at: offset });
    }
    if end.units < end_offset {
        return Err(EditRefusal::SplitsPair { at: end_offset });
    }
    Ok(start.bytes..end.bytes)
}

impl Text {
    /// Puts `with` in the place of the `length` UTF-16 code units that stand behind the first
    /// `offset` ones. A refused edit changes nothing.
    pub fn edit(&mut self, offset: u64, length: u64, with: &str) -> Result<(), EditRefusal>
        ensures { Edits result self.old self.new (edited self.old offset length with.now) }
    {
        let part = replaced_part(self.as_str(), offset, length)?;
        self.replace(part, with)
    }
}
