//! What the interface part of a text keeps.

ghost use Rattle.std.specs.Prelude.{◌≡◌, ℕ, Bool, List, length};
ghost use Rattle.std.specs.List.{filter};
ghost use Rattle.std.specs.Str.{IsUtf8};
ghost use Rattle.dart_scan.specs.Scanned.{tokens_of, words_of};
ghost use Rattle.dart_tree.specs.declared.unit.Unit.{Unit};
ghost use Rattle.interface_part.specs.Interface.{interface_of};
ghost use Rattle.interface_part.specs.Order.{RangesInOrder, TokensInOrder, is_lexeme, is_mark, marked, unmarked};
ghost use Rattle.interface_texts.specs.EditedBodies.{EditedBody};
ghost use Rattle.interface_texts.specs.TextParts.{hidden_of, interface_of_text, tree_of};

use body_laws::bodies_hide_alike;
use dart_scan::tokens_rise;
use edit_laws::edits_inside_leave_the_interface_part;
use interface_part::interface_laws;
use place_laws::nodes_of_texts_stand_in_order;

/// The tokens of a text stand in its order, and so do the bodies and initializers that it hides: each
/// begins behind the end of the one before it. So the lexemes of its interface part are those of the
/// tokens that begin within no hidden part for which a mark stands, and there is a mark for each of
/// these. It is the interface part of the text's unit.
pub fn interface_parts_of_texts(_text: &[u8])
    ensures tokens { IsUtf8 _text.now → TokensInOrder 0 (tokens_of _text.now) }
    ensures hidden { (in_core : Bool) → IsUtf8 _text.now → RangesInOrder 0 (hidden_of in_core _text.now) }
    ensures lexemes { (in_core : Bool) → IsUtf8 _text.now
        → filter is_lexeme (interface_of_text in_core _text.now) ≡ unmarked (words_of _text.now) (tokens_of _text.now) (hidden_of in_core _text.now) (tokens_of _text.now) }
    ensures marks { (in_core : Bool) → IsUtf8 _text.now
        → length (filter is_mark (interface_of_text in_core _text.now)) ≡ length (marked (tokens_of _text.now) (hidden_of in_core _text.now)) }
    ensures unit { (in_core : Bool) (u : Unit) → u.tree ≡ tree_of in_core _text.now → u.tokens ≡ tokens_of _text.now → u.words ≡ words_of _text.now
        → interface_of u ≡ interface_of_text in_core _text.now }
{
    tokens_rise(_text);
    nodes_of_texts_stand_in_order();
    interface_laws();
}

/// An edit inside a body leaves the interface part of a text, however many tokens come to
/// stand in the body: what is hidden elsewhere is hidden as it was, since the grammar reads the braces
/// of a body in one step.
pub fn edits_inside_bodies_leave_interface_parts()
    ensures { (in_core : Bool) (text other : List ℕ) → EditedBody in_core text other → interface_of_text in_core text ≡ interface_of_text in_core other }
{
    bodies_hide_alike();
    edits_inside_leave_the_interface_part();
}
