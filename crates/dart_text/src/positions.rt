//! Lines and columns of many offsets of one text.

ghost use Rattle.std.specs.Prelude.{◌≡◌};
ghost use Rattle.dart_text.specs.Lines.{position_of};

use crate::cursor::Cursor;
use crate::position::Position;
use crate::text::Text;
use std::marker::Model;

/// Lines and columns of many offsets of one text, which contracts see as that text. Offsets that rise
/// cost one walk over the text in all; each that lies before the one ahead of it costs another walk
/// from the start.
#[derive(Drop)]
pub struct Positions<'t> {
    text: &'t str,
    cursor: Cursor,
}

impl<'t> Model for Positions<'t> {
    ghost use Rattle.std.specs.Prelude.{ℕ, List, ◌≤◌, length};
    ghost use Rattle.dart_text.specs.Edits.{max_text};

    ghost Value = { List ℕ };

    ghost use Rattle.dart_text.specs.Cursors.{IsOn};

    ghost view = { λ p. p.text.now };

    ghost invariant = { λ p. (length p.text.now ≤ max_text) × IsOn p.text.now p.cursor };
}

impl<'t> Positions<'t> {
    /// The positions in a text.
    pub fn of(text: &'t Text) -> Positions<'t>
        ensures { result ≡ text.now }
    {
        Positions {
            text: text.as_str(),
            cursor: Cursor::START,
        }
    }

    /// The line and the column, both from 1, of an offset, in UTF-16 code units from 0; past the end of
    /// the text they are those of the end.
    pub fn at(&mut self, offset: u32) -> Position
        ensures text { self.new ≡ self.old }
        ensures position { result ≡ position_of offset self.old }
    {
        let offset = u64::from(offset);
        self.cursor = self.cursor.moved_to(self.text, offset);
        self.cursor.position_at(self.text, offset)
    }
}
