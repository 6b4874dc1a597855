//! How many nodes the tree of a text has.

ghost use Rattle.std.specs.Prelude.{◌≤◌, ◌*◌, ◌+◌, Bool, List, length};
ghost use Rattle.dart_tokens.specs.declared.token.Token.{Token as TextToken};
ghost use Rattle.dart_tokens.specs.declared.grouped_token.GroupedToken.{GroupedToken as Token};
ghost use Rattle.grammar.specs.Tokens.{grammar_tokens};
ghost use Rattle.dart_tree.specs.Numbers.{nodes_in};
ghost use Rattle.grammar.specs.Whole.{unit_of};
ghost use Rattle.node_counts.specs.Rising.{Rise, HoldGroups, TextRises};

use grammar::{list_laws, unit_laws};

/// The tree of tokens that rise, each with its group in what is passed to come behind it, has at most
/// sixteen nodes for each of them, and one for the whole. Each name that is declared or assigned counts
/// as a node, since it has a number.
pub fn nodes_are_bounded()
    ensures { (in_core : Bool) (tokens : List Token) → Rise tokens → HoldGroups tokens → nodes_in (unit_of in_core tokens) ≤ 16 * length tokens + 1 }
{
    list_laws();
    unit_laws();
}

/// Where the tokens of a text rise, so do those that the grammar reads of them. Each has its group in
/// what is passed to come behind it, and they are no more than the text's.
pub fn grammar_tokens_rise()
    ensures rise { (tokens : List TextToken) → TextRises tokens → Rise (grammar_tokens tokens) }
    ensures hold { (tokens : List TextToken) → TextRises tokens → HoldGroups (grammar_tokens tokens) }
    ensures fewer { (tokens : List TextToken) → TextRises tokens → length (grammar_tokens tokens) ≤ length tokens }
{}

/// The tree of a text whose tokens rise has at most sixteen nodes for each of them, and one for the
/// whole: where there are at most 2^22 tokens the numbers of its nodes fit in 32 bits.
pub fn nodes_of_texts_are_bounded()
    ensures { (in_core : Bool) (tokens : List TextToken) → TextRises tokens → nodes_in (unit_of in_core (grammar_tokens tokens)) ≤ 16 * length tokens + 1 }
{
    nodes_are_bounded();
    grammar_tokens_rise();
}
