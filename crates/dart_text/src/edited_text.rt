//! A text while many edits of it apply.

ghost use Rattle.std.specs.Prelude.{◌≡◌, IfOk, IfErr};
ghost use Rattle.dart_text.specs.Edits.{edited};
ghost use Rattle.dart_text.specs.Results.{Edits};

use crate::edit::EditRefusal;
use crate::piece::Piece;
use crate::pieces::{change_of, joined, pieces_of};
use crate::text::Text;
use std::alloc::{AllocError, Global};
use std::marker::Model;

// More pieces than this are joined and cut anew.
const MOST_PIECES: usize = 4_096;

/// A text while many edits of it apply, which contracts see as the list of its bytes. It is kept in
/// pieces, so that an edit costs a walk over the pieces and some thousands of bytes beside those that
/// it replaces and puts in their place, wherever it lies.
#[derive(Drop)]
pub struct EditedText {
    pieces: Vec<Piece>,
}

impl Model for EditedText {
    ghost use Rattle.std.specs.Prelude.{ℕ, List, ◌≤◌, length};
    ghost use Rattle.dart_text.specs.Edits.{max_text};
    ghost use Rattle.dart_text.specs.Pieces.{spelt};

    ghost Value = { List ℕ };

    ghost view = { λ t. spelt t.pieces.items };

    ghost invariant = { λ t. length (spelt t.pieces.items) ≤ max_text };
}

impl EditedText {
    /// The text, in memory of its own.
    pub fn of(alloc: Global, text: &Text) -> Result<EditedText, AllocError>
        ensures { IfOk result (λ pieces. pieces ≡ text.now) }
    {
        Ok(EditedText {
            pieces: pieces_of(alloc, text.as_str())?,
        })
    }

    /// Puts `with` in the place of the `length` UTF-16 code units that stand behind the first
    /// `offset` ones. A refused edit changes nothing.
    pub fn edit(&mut self, offset: u64, length: u64, with: &str) -> Result<(), EditRefusal>
        ensures { Edits result self.old self.new (edited self.old offset length with.now) }
    {
        self.gather()?;
        let alloc = *self.pieces.allocator();
        let change = change_of(alloc, &self.pieces, offset, length, with)?;
        let pieces = pieces_of(alloc, change.text.as_str())?;
        self.pieces.splice(change.first..change.last, pieces)?;
        Ok(())
    }

    /// The text as it stands.
    pub fn to_text(&self) -> Result<Text, AllocError>
        ensures { IfOk result (λ text. text ≡ self.now) }
    {
        let text = joined(*self.pieces.allocator(), &self.pieces)?;
        Ok(Text::of_short(text))
    }

    // Joins the pieces and cuts them anew, where there are too many.
    fn gather(&mut self) -> Result<(), AllocError>
        ensures { self.new ≡ self.old }
    {
        if self.pieces.len() > MOST_PIECES {
            let alloc = *self.pieces.allocator();
            let text = joined(alloc, &self.pieces)?;
            self.pieces = pieces_of(alloc, text.as_str())?;
        }
        Ok(())
    }
}
