//! Laws of the trees of texts, over their definitions alone.

ghost use Rattle.std.specs.Prelude.{◌≡◌, Bool, List, ℕ};
ghost use Rattle.std.specs.Str.{IsUtf8};
ghost use Rattle.dart_scan.specs.Scanned.{words_of};
ghost use Rattle.tree_print.specs.Seen.{printed_again, SeenAlike};
ghost use Rattle.print_laws.specs.TextTrees.{bare_tree};

use node_counts::grammar_tokens_rise;
use range_laws::trees_depend_on_adjacency;
use tree_print::tokens_are_read_again;

/// Two texts whose tokens are seen alike, by kind, lexeme and whether the next one adjoins, have the
/// same words and the same tree, with ranges and numbers aside. It makes no difference where the tokens
/// stand, nor what stands in the gaps between them. Brackets without counterparts may be among them.
pub fn seen_tokens_tell_the_tree()
    ensures words { (text other : List ℕ) → SeenAlike text other → words_of text ≡ words_of other }
    ensures tree { (in_core : Bool) (text other : List ℕ) → IsUtf8 text → IsUtf8 other → SeenAlike text other → bare_tree in_core text ≡ bare_tree in_core other }
{
    grammar_tokens_rise();
    trees_depend_on_adjacency();
}

/// What is printed of the tokens of a text is a text. Read again, it has the same words and the same
/// tree, with ranges and numbers aside.
pub fn printed_texts_have_the_same_tree(_text: &[u8])
    ensures text { IsUtf8 _text.now → IsUtf8 (printed_again _text.now) }
    ensures words { IsUtf8 _text.now → words_of (printed_again _text.now) ≡ words_of _text.now }
    ensures tree { (in_core : Bool) → IsUtf8 _text.now → bare_tree in_core (printed_again _text.now) ≡ bare_tree in_core _text.now }
{
    tokens_are_read_again(_text);
    seen_tokens_tell_the_tree();
}
