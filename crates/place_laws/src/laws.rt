//! Where the nodes of a text's tree stand.

ghost use Rattle.std.specs.Prelude.{Bool, List, ℕ};
ghost use Rattle.readings.specs.Leading.{Each};
ghost use Rattle.dart_tokens.specs.declared.token.Token.{Token as TextToken};
ghost use Rattle.dart_tokens.specs.declared.grouped_token.GroupedToken.{GroupedToken as Token};
ghost use Rattle.grammar.specs.Tokens.{grammar_tokens};
ghost use Rattle.grammar.specs.Whole.{unit_of};
ghost use Rattle.node_counts.specs.Rising.{Rise, HoldGroups, TextRises};
ghost use Rattle.place_laws.specs.Standing.{nodes_at, PartsInOrder, StandsOnTokens};

use grammar::{list_laws, unit_laws};
use node_counts::grammar_tokens_rise;

/// In the tree of tokens that rise, each with its group in what is passed to come behind it, each node
/// stands from the first to the last of the tokens that begin within it, and its parts stand within it
/// one behind the other. The parts of a node are the nodes right in it but for its names and
/// annotations, so nothing is said of where these stand. A part has a token at least; of a text without
/// tokens the unit stands at its beginning.
pub fn nodes_stand_in_order()
    ensures tokens { (in_core : Bool) (tokens : List Token) → Rise tokens → HoldGroups tokens → (level : ℕ) → Each (StandsOnTokens tokens) (nodes_at level (unit_of in_core tokens)) }
    ensures parts { (in_core : Bool) (tokens : List Token) → Rise tokens → HoldGroups tokens → (level : ℕ) → Each PartsInOrder (nodes_at level (unit_of in_core tokens)) }
{
    list_laws();
    unit_laws();
}

/// So do the nodes in the tree of a text whose tokens rise.
pub fn nodes_of_texts_stand_in_order()
    ensures tokens { (in_core : Bool) (tokens : List TextToken) → TextRises tokens
        → (level : ℕ) → Each (StandsOnTokens (grammar_tokens tokens)) (nodes_at level (unit_of in_core (grammar_tokens tokens))) }
    ensures parts { (in_core : Bool) (tokens : List TextToken) → TextRises tokens → (level : ℕ) → Each PartsInOrder (nodes_at level (unit_of in_core (grammar_tokens tokens))) }
{
    nodes_stand_in_order();
    grammar_tokens_rise();
}
