//! Laws of texts and their edits, over the definitions alone.

ghost use Rattle.std.specs.Prelude.{◌≡◌, ℕ, ◌+◌, List, ◌++◌, length, take, drop, Ok};
ghost use Rattle.plain_text.specs.Units.{units_in};
ghost use Rattle.dart_text.specs.Edits.{edited};
ghost use Rattle.dart_text.specs.Units.{units_of, text_of};

use crate::text::Text;

/// The code units of a text spell that text again.
pub fn units_spell_their_text(text: &Text)
    ensures { text_of (units_of text.now) ≡ text.now }
{
    let _text = text.as_str();
}

/// A text has as many code units as are counted over its bytes.
pub fn units_are_counted_over_bytes(text: &Text)
    ensures { length (units_of text.now) ≡ units_in text.now }
{
    let _text = text.as_str();
}

/// What an edit makes of a text has the code units of the text, but for those replaced: nothing is
/// lost on the way from units to UTF-8 and back.
pub fn an_edit_replaces_units(text: &Text, offset: u64, length: u64, with: &str)
    ensures { (new : List ℕ) → edited text.now offset length with.now ≡ Ok new
        → units_of new ≡ take offset (units_of text.now) ++ units_of with.now
        ++ drop (offset + length) (units_of text.now) }
{
    let _text = text.as_str();
}
