//! Laws of trees, over their definitions alone.

ghost use Rattle.std.specs.Prelude.{◌≡◌, ℕ, suc, if◌then◌else◌};
ghost use Rattle.dart_tree.specs.Tree.{Tree};
ghost use Rattle.dart_tree.specs.Heights.{height};
ghost use Rattle.dart_tree.specs.Nodes.{counts, greatest_height, parts_of};
ghost use Rattle.dart_tree.specs.Numbers.{numbered};
ghost use Rattle.dart_tree.specs.Bare.{bare_with};

/// A node is one higher than the highest of its parts, or as high where it does not count for the
/// depth. Neither its height nor what is left of it with ranges and numbers aside depends on its
/// numbers, and without ranges and numbers it is as high as before, whatever its words are.
pub fn tree_laws()
    ensures parts { (t : Tree) → height t ≡ (if counts t then suc (greatest_height (parts_of t)) else greatest_height (parts_of t)) }
    ensures numbers { (first : ℕ) (t : Tree) → height (numbered first t) ≡ height t }
    ensures bare { (word_of : ℕ → ℕ) (first : ℕ) (t : Tree) → bare_with word_of (numbered first t) ≡ bare_with word_of t }
    ensures words { (word_of : ℕ → ℕ) (t : Tree) → height (bare_with word_of t) ≡ height t }
{}
