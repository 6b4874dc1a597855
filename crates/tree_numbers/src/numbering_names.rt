//! The numbers of places, names and annotations.

ghost use Rattle.std.specs.Prelude.{◌≡◌, ◌+◌, ◌<◌, ◌^◌};
ghost use Rattle.dart_tree.specs.Tree.{trees_of, part_of};
ghost use Rattle.dart_tree.specs.Numbers.{nodes_in, nodes_in_all, nodes_in_part, numbered, all_numbered, part_numbered, place_numbered, name_numbered, constructor_name_numbered, operator_name_numbered};

use dart_tree::{Annotation, ConstructorName, ListedName, Name, NodeId, OperatorName, Place};

/// Gives a node its number, and answers the next one.
pub(crate) fn number_place(at: &mut Place, number: u32) -> u32
    requires { number + 1 < 2 ^ 32 }
    ensures place { at.new ≡ place_numbered number at.old }
    ensures next { result ≡ number + 1 }
{
    at.node = NodeId(number);
    number + 1
}

/// Gives a name its number, and answers the next one.
pub(crate) fn number_name(name: &mut Name, number: u32) -> u32
    requires { number + 1 < 2 ^ 32 }
    ensures name { name.new ≡ name_numbered number name.old }
    ensures next { result ≡ number + 1 }
{
    number_place(&mut name.at, number)
}

/// Gives the name of a constructor its number, and answers the next one.
pub(crate) fn number_constructor_name(name: &mut ConstructorName, number: u32) -> u32
    requires { number + 1 < 2 ^ 32 }
    ensures name { name.new ≡ constructor_name_numbered number name.old }
    ensures next { result ≡ number + 1 }
{
    number_place(&mut name.at, number)
}

/// Gives an operator that names a member its number, and answers the next one.
pub(crate) fn number_operator_name(name: &mut OperatorName, number: u32) -> u32
    requires { number + 1 < 2 ^ 32 }
    ensures name { name.new ≡ operator_name_numbered number name.old }
    ensures next { result ≡ number + 1 }
{
    number_place(&mut name.at, number)
}

/// Numbers an annotation's nodes from `first` on, and answers the number after the last.
pub(crate) fn number_annotation(annotation: &mut Annotation, first: u32) -> u32
    requires { first + nodes_in annotation.old < 2 ^ 32 }
    ensures tree { annotation.new ≡ numbered first annotation.old }
    ensures next { result ≡ first + nodes_in annotation.old }
{
    number_place(&mut annotation.at, first)
}

/// Numbers a listed name's nodes from `first` on, and answers the number after the last.
pub(crate) fn number_listed_name(listed_name: &mut ListedName, first: u32) -> u32
    requires { first + nodes_in listed_name.old < 2 ^ 32 }
    ensures tree { listed_name.new ≡ numbered first listed_name.old }
    ensures next { result ≡ first + nodes_in listed_name.old }
{
    number_place(&mut listed_name.at, first)
}

/// Numbers the nodes of annotations, one after the other.
pub(crate) fn number_annotations(annotations: &mut [Annotation], first: u32) -> u32
    requires { first + nodes_in_all (trees_of annotations.old) < 2 ^ 32 }
    ensures trees { trees_of annotations.new ≡ all_numbered first (trees_of annotations.old) }
    ensures next { result ≡ first + nodes_in_all (trees_of annotations.old) }
{
    let mut next = first;
    for item in annotations.iter_mut() {
        next = number_annotation(item, next);
    }
    next
}

/// Numbers the nodes of listed names, one after the other.
pub(crate) fn number_listed_names(listed_names: &mut [ListedName], first: u32) -> u32
    requires { first + nodes_in_all (trees_of listed_names.old) < 2 ^ 32 }
    ensures trees { trees_of listed_names.new ≡ all_numbered first (trees_of listed_names.old) }
    ensures next { result ≡ first + nodes_in_all (trees_of listed_names.old) }
{
    let mut next = first;
    for item in listed_names.iter_mut() {
        next = number_listed_name(item, next);
    }
    next
}

/// So of one that may be left out.
pub(crate) fn number_optional_listed_name(listed_name: &mut Option<ListedName>, first: u32) -> u32
    requires { first + nodes_in_part (part_of listed_name.old) < 2 ^ 32 }
    ensures part { part_of listed_name.new ≡ part_numbered first (part_of listed_name.old) }
    ensures next { result ≡ first + nodes_in_part (part_of listed_name.old) }
{
    match listed_name {
        None => first,
        Some(tree) => number_listed_name(tree, first),
    }
}
