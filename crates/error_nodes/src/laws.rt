//! Laws of the errors of a tree, over the definitions alone.

ghost use Rattle.std.specs.Prelude.{◌≡◌, ◌↔◌, false, Contains, flat_map};
ghost use Rattle.dart_tree.specs.Tree.{Tree, error_node};
ghost use Rattle.dart_tree.specs.Nodes.{is_error, parts_of};
ghost use Rattle.dart_tree.specs.declared.places.Place.{Place};
ghost use Rattle.error_nodes.specs.Errors.{errors_of};
ghost use Rattle.error_nodes.specs.LiesIn.{LiesIn};

/// The errors of a tree are the places of just those error nodes that lie in it. A node that is no
/// error node has the errors of its parts, one part after the other.
pub fn error_laws()
    ensures places { (t : Tree) (at : Place) → Contains (errors_of t) at ↔ LiesIn (error_node at) t }
    ensures parts { (t : Tree) → is_error t ≡ false → errors_of t ≡ flat_map errors_of (parts_of t) }
{}
