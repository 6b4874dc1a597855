//! Edits inside bodies and initializers.

ghost use Rattle.std.specs.Prelude.{◌≡◌, ℕ, List};
ghost use Rattle.dart_tokens.specs.declared.token.Token.{Token};
ghost use Rattle.dart_tree.specs.declared.unit.Unit.{Unit};
ghost use Rattle.interface_part.specs.declared.hidden.Hidden.{Hidden};
ghost use Rattle.interface_part.specs.Hidden.{hidden_in};
ghost use Rattle.interface_part.specs.Interface.{interface_of, parts_of};
ghost use Rattle.edit_laws.specs.Edits.{EditedInside};

/// Where other tokens come to stand in one body or one initializer, however many, and all else stays,
/// moved with the text where it stands behind, the interface part stays.
pub fn edits_inside_leave_the_interface_part()
    ensures parts { (words : List (List ℕ)) (hidden : List Hidden) (tokens : List Token) (others : List (List ℕ)) (hides : List Hidden) (edited : List Token)
        → EditedInside words hidden tokens others hides edited → parts_of words hidden tokens ≡ parts_of others hides edited }
    ensures units { (u v : Unit) → EditedInside u.words (hidden_in u.tree) u.tokens v.words (hidden_in v.tree) v.tokens → interface_of u ≡ interface_of v }
{}
