//! Laws of trees whose lists of statements are read, over the definitions alone.

ghost use Rattle.std.specs.Prelude.{◌≡◌, ◌≤◌, ℕ};
ghost use Rattle.dart_tree.specs.Tree.{Tree, Trees};
ghost use Rattle.dart_tree.specs.Heights.{height};
ghost use Rattle.dart_tree.specs.Places.{place_of};
ghost use Rattle.dart_tree.specs.declared.places.Place.{Place};
ghost use Rattle.unread_lists.specs.WithLists.{with_lists};
ghost use Rattle.unread_lists.specs.EachList.{FitTheirRoom, IsKept, each_list};

/// Where no list that is read is higher than the room that it has, a tree with its lists read is no
/// higher than the room that the tree had before. The tree stands where it did; and where each list
/// of statements in it stays as it is, as an empty one does, the tree does so too.
pub fn unread_laws()
    ensures fits { (lists : ℕ → Place → Trees) → FitTheirRoom lists → (n : ℕ) (t : Tree) → height t ≤ n → height (with_lists lists n t) ≤ n }
    ensures place { (lists : ℕ → Place → Trees) (n : ℕ) (t : Tree) → place_of (with_lists lists n t) ≡ place_of t }
    ensures kept { (lists : ℕ → Place → Trees) (n : ℕ) (t : Tree) → each_list (IsKept lists) t → with_lists lists n t ≡ t }
{}
