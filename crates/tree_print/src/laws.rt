//! Laws of printed texts, over their definitions alone.

ghost use Rattle.std.specs.Prelude.{◌≤◌, length};
ghost use Rattle.std.specs.Str.{IsUtf8};
ghost use Rattle.tree_print.specs.Seen.{printed_again, SeenAlike};

/// Scanned again, the text that is printed of the tokens of a text has the same tokens one by one, by
/// kind and lexeme, and each adjoins the next where it did. The text is no longer than the other, so
/// that it is within the limit of a file.
pub fn tokens_are_read_again(_text: &[u8])
    ensures tokens { IsUtf8 _text.now → SeenAlike (printed_again _text.now) _text.now }
    ensures short { IsUtf8 _text.now → length (printed_again _text.now) ≤ length _text.now }
{}
