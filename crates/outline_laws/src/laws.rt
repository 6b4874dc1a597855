//! What the outline of types sees.

ghost use Rattle.std.specs.Prelude.{◌≡◌, ◌≤◌, ℕ, List, Some, None};
ghost use Rattle.readings.specs.Readings.{Reading};
ghost use Rattle.dart_tree.specs.Tree.{Tree};
ghost use Rattle.dart_tokens.specs.declared.grouped_token.GroupedToken.{GroupedToken as Token};
ghost use Rattle.grammar.specs.Outline.{over_angles, over_type, behind_arguments};
ghost use Rattle.grammar.specs.Descents.{take_type_arguments, lower};

/// Type arguments that can be read end where the outline sees their end, if it has room for as many
/// types in one another as they were read with, or for more. A parser looks with room for 200: so it
/// sees all that can be read in a room of at most 200, and where it sees none, none can be read.
pub fn readable_arguments_are_seen()
    ensures in_any_room { (room most : ℕ) (tokens : List Token) (read : Reading Token Tree) → room ≤ most → take_type_arguments (lower room) tokens ≡ Some read → over_angles (over_type most) tokens ≡ Some read.1 }
    ensures seen { (room : ℕ) (tokens : List Token) (read : Reading Token Tree) → room ≤ 200 → take_type_arguments (lower room) tokens ≡ Some read → behind_arguments tokens ≡ Some read.1 }
    ensures unseen { (room : ℕ) (tokens : List Token) → room ≤ 200 → behind_arguments tokens ≡ None → take_type_arguments (lower room) tokens ≡ None }
{}

/// With more room the outline sees the same end wherever it saw one.
pub fn more_room_sees_no_less()
    ensures { (few most : ℕ) (tokens behind : List Token) → few ≤ most → over_angles (over_type few) tokens ≡ Some behind → over_angles (over_type most) tokens ≡ Some behind }
{}
