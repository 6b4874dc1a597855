//! What is hidden in texts that differ only in what stands in bodies.

ghost use Rattle.std.specs.Prelude.{◌≡◌, ℕ, Bool, List, false, map, true};
ghost use Rattle.dart_tokens.specs.declared.grouped_token.GroupedToken.{GroupedToken as Token};
ghost use Rattle.grammar.specs.Whole.{unit_of};
ghost use Rattle.interface_part.specs.Hidden.{hidden_in};
ghost use Rattle.body_laws.specs.Bodies.{Alike, Freedom, Moves, moved, suits_texts};

use grammar::unit_laws;

/// Where two texts differ only in what stands in bodies, behind parameters, the grammar hides the same
/// in both: each body and each initializer that is hidden in the one stands in the other where its
/// tokens have moved to. These may be bodies of members; and bodies of functions of the library too,
/// where no function type stands at the top level outside of groups.
pub fn bodies_hide_alike()
    ensures { (moves : Moves) (freedom : Freedom) (steps : ℕ) (in_core : Bool) (tokens others : List Token) → suits_texts freedom ≡ true → Alike moves freedom steps false tokens others
        → hidden_in (unit_of in_core others) ≡ map (moved moves) (hidden_in (unit_of in_core tokens)) }
{
    unit_laws();
}
