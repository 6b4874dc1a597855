//! What an edit in the braces of a body leaves.

ghost use Rattle.std.specs.Prelude.{◌≡◌, ℕ, ◌≤◌, Bool, false, List, length};
ghost use Rattle.std.specs.Str.{IsUtf8};
ghost use Rattle.dart_tokens.specs.declared.token.Token.{Token};
ghost use Rattle.grammar.specs.Tokens.{grammar_tokens};
ghost use Rattle.body_laws.specs.Bodies.{Alike, Freedom, Moves};
ghost use Rattle.interface_texts.specs.TextParts.{interface_of_text};
ghost use Rattle.text_edits.specs.EditedBraces.{EditedBraces};
ghost use Rattle.text_edits.specs.EditedPieces.{EditedPieces};
ghost use Rattle.text_edits.specs.EditedTokens.{EditedTokens};

use dart_scan::tokens_rise;
use interface_texts::{edits_inside_bodies_leave_interface_parts, interface_parts_of_texts};

/// Where the tokens of two texts are the same but for what stands in the braces of one body, right
/// behind parameters, what the grammar reads of them is alike: the brackets that stand in the body,
/// balanced or not, change no group outside of it.
pub fn bodies_make_texts_alike()
    ensures { (moves : Moves) (freedom : Freedom) (tokens others : List Token) → EditedTokens moves freedom tokens others
        → (steps : ℕ) → length tokens ≤ steps → Alike moves freedom steps false (grammar_tokens tokens) (grammar_tokens others) }
{}

/// An edit in the braces of a body, right behind parameters, leaves the interface part of a text,
/// whatever tokens come to stand there: outside of the body both texts have the same lexemes, or even
/// the same pieces, white space and comments among them, and a mark stands for the body in both.
pub fn edits_in_braces_leave_interface_parts(_text: &[u8], _other: &[u8])
    ensures lexemes { (in_core : Bool) → IsUtf8 _text.now → IsUtf8 _other.now → EditedBraces in_core _text.now _other.now
        → interface_of_text in_core _text.now ≡ interface_of_text in_core _other.now }
    ensures pieces { (in_core : Bool) → IsUtf8 _text.now → IsUtf8 _other.now → EditedPieces in_core _text.now _other.now
        → interface_of_text in_core _text.now ≡ interface_of_text in_core _other.now }
{
    tokens_rise(_text);
    tokens_rise(_other);
    interface_parts_of_texts(_text);
    edits_inside_bodies_leave_interface_parts();
}
