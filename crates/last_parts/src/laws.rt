//! What is left behind an expression.

ghost use Rattle.std.specs.Prelude.{◌≡◌, ◌-◌, ℕ, List, length, drop, Some};
ghost use Rattle.readings.specs.Readings.{Reading};
ghost use Rattle.dart_tree.specs.Tree.{Tree};
ghost use Rattle.dart_tokens.specs.declared.grouped_token.GroupedToken.{GroupedToken as Token};
ghost use Rattle.grammar.specs.declared.level.Setting.{Setting};
ghost use Rattle.grammar.specs.Descents.{lower};

/// What is left behind an expression that a parser finds is the last part of the tokens that has as
/// many tokens, whatever room there is for nodes and wherever the expression stands: so the place
/// behind the expression is known by how many tokens are left.
pub fn expressions_leave_last_parts()
    ensures { (room : ℕ) (setting : Setting) (tokens : List Token) (read : Reading Token Tree)
        → (lower room).expression setting tokens ≡ Some read → read.1 ≡ drop (length tokens - length read.1) tokens }
{}
