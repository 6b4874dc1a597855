//! What of a tree depends on where its tokens stand.

ghost use Rattle.std.specs.Prelude.{◌≡◌, Bool, List};
ghost use Rattle.dart_tokens.specs.declared.grouped_token.GroupedToken.{GroupedToken as Token};
ghost use Rattle.grammar.specs.Whole.{unit_of};
ghost use Rattle.dart_tree.specs.Bare.{bare_of};
ghost use Rattle.node_counts.specs.Rising.{Rise};
ghost use Rattle.range_laws.specs.Agreeing.{Agree, AdjoinAlike};

use grammar::{list_laws, unit_laws};

/// Two texts whose tokens rise and are the same have the same tree, with ranges and numbers aside,
/// where each `>` adjoins the next token in the one exactly where it does in the other: what a text
/// means depends on where its tokens stand through that alone, since `>>` is one operator and `> >`
/// is two.
pub fn trees_depend_on_adjacency()
    ensures { (in_core : Bool) (tokens others : List Token) → Rise tokens → Rise others → Agree tokens others → AdjoinAlike tokens others → bare_of (unit_of in_core tokens) ≡ bare_of (unit_of in_core others) }
{
    list_laws();
    unit_laws();
}
