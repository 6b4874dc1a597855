//! The numbers of a unit's nodes.

ghost use Rattle.std.specs.Prelude.{◌≡◌, ℕ, ◌+◌, ◌<◌, ◌^◌, List, ◌∷◌, length};
ghost use Rattle.std.specs.List.{range_with_len};
ghost use Rattle.dart_tree.specs.Tree.{Tree, trees_of};
ghost use Rattle.dart_tree.specs.Places.{place_of};
ghost use Rattle.dart_tree.specs.declared.places.Place.{Place as Where};
ghost use Rattle.dart_tree.specs.Numbers.{places_of, numbers_of, spans_of, nodes_in, nodes_in_all, numbered, all_numbered};

use crate::numbering_names::{
    number_annotations, number_constructor_name, number_listed_names, number_name,
    number_operator_name, number_optional_listed_name, number_place,
};
use crate::numbering_parts::{
    number_argument_list, number_body, number_expr, number_function, number_optional_written_type,
    number_parameter_list, number_string, number_type_parameters, number_variable_list,
    number_written_type, number_written_types,
};
use dart_tree::{
    Combinator, CombinatorNode, Initializer, InitializerNode, Item, ItemNode, Member, MemberNode,
    ReadItem, ReadMember, UnitTree,
};

/// Numbers the nodes of a unit in reading order, from 0 on, in one pass over it.
pub fn number_unit(unit: &mut UnitTree)
    requires { nodes_in unit.old < 2 ^ 32 }
    ensures { unit.new ≡ numbered 0 unit.old }
{
    let next = number_place(&mut unit.at, 0);
    let _end = number_items(unit.items.as_mut_slice(), next);
}

/// The laws of numbering. Of all nodes of a tree, those of its names among them, in reading order:
/// their numbers count up by one from the first given, their ranges stay, and a node comes before
/// the nodes in it. `nodes_in` counts them, none is lost or gained, and the numbers that were there
/// before do not matter.
pub fn numbering_laws()
    ensures in_order { (first : ℕ) (t : Tree) → numbers_of (numbered first t) ≡ range_with_len first (nodes_in t) }
    ensures ranges { (first : ℕ) (t : Tree) → spans_of (numbered first t) ≡ spans_of t }
    ensures before { (t : Tree) → (rest : List Where) × (places_of t ≡ place_of t ∷ rest) }
    ensures counted { (t : Tree) → length (places_of t) ≡ nodes_in t }
    ensures as_many { (first : ℕ) (t : Tree) → nodes_in (numbered first t) ≡ nodes_in t }
    ensures anew { (first before : ℕ) (t : Tree) → numbered first (numbered before t) ≡ numbered first t }
{}

/// Numbers a member's nodes from `first` on, and answers the number after the last.
fn number_member(member: &mut Member, first: u32) -> u32
    requires { first + nodes_in member.old < 2 ^ 32 }
    ensures tree { member.new ≡ numbered first member.old }
    ensures next { result ≡ first + nodes_in member.old }
{
    let node = match &mut member.node {
        MemberNode::Read(node) => node,
        MemberNode::Error { at } => return number_place(at, first),
    };
    match &mut **node {
        ReadMember::Constructor {
            at,
            metadata,
            name,
            parameters,
            initializers,
            body,
        } => {
            let next = number_place(at, first);
            let next = number_annotations(metadata.as_mut_slice(), next);
            let next = number_constructor_name(name, next);
            let next = number_parameter_list(parameters, next);
            let next = number_initializers(initializers.as_mut_slice(), next);
            number_body(body, next)
        }
        ReadMember::Factory {
            at,
            metadata,
            name,
            parameters,
            body,
        } => {
            let next = number_place(at, first);
            let next = number_annotations(metadata.as_mut_slice(), next);
            let next = number_constructor_name(name, next);
            let next = number_parameter_list(parameters, next);
            number_body(body, next)
        }
        ReadMember::Method {
            at,
            metadata,
            function,
            ..
        } => {
            let next = number_place(at, first);
            let next = number_annotations(metadata.as_mut_slice(), next);
            number_function(function, next)
        }
        ReadMember::Fields {
            at,
            metadata,
            variables,
            ..
        } => {
            let next = number_place(at, first);
            let next = number_annotations(metadata.as_mut_slice(), next);
            number_variable_list(variables, next)
        }
        ReadMember::Operator {
            at,
            metadata,
            result,
            name,
            parameters,
            body,
        } => {
            let next = number_place(at, first);
            let next = number_annotations(metadata.as_mut_slice(), next);
            let next = number_optional_written_type(result, next);
            let next = number_operator_name(name, next);
            let next = number_parameter_list(parameters, next);
            number_body(body, next)
        }
    }
}

/// Numbers the nodes of members, one after the other.
fn number_members(members: &mut [Member], first: u32) -> u32
    requires { first + nodes_in_all (trees_of members.old) < 2 ^ 32 }
    ensures trees { trees_of members.new ≡ all_numbered first (trees_of members.old) }
    ensures next { result ≡ first + nodes_in_all (trees_of members.old) }
{
    let mut next = first;
    for item in members.iter_mut() {
        next = number_member(item, next);
    }
    next
}

/// Numbers an initializer's nodes from `first` on, and answers the number after the last.
fn number_initializer(initializer: &mut Initializer, first: u32) -> u32
    requires { first + nodes_in initializer.old < 2 ^ 32 }
    ensures tree { initializer.new ≡ numbered first initializer.old }
    ensures next { result ≡ first + nodes_in initializer.old }
{
    match &mut initializer.node {
        InitializerNode::Field { at, value, .. } => {
            let next = number_place(at, first);
            number_expr(value, next)
        }
        InitializerNode::Super { at, arguments, .. } => {
            let next = number_place(at, first);
            number_argument_list(arguments, next)
        }
        InitializerNode::Redirection { at, arguments, .. } => {
            let next = number_place(at, first);
            number_argument_list(arguments, next)
        }
    }
}

/// Numbers the nodes of initializers, one after the other.
fn number_initializers(initializers: &mut [Initializer], first: u32) -> u32
    requires { first + nodes_in_all (trees_of initializers.old) < 2 ^ 32 }
    ensures trees { trees_of initializers.new ≡ all_numbered first (trees_of initializers.old) }
    ensures next { result ≡ first + nodes_in_all (trees_of initializers.old) }
{
    let mut next = first;
    for item in initializers.iter_mut() {
        next = number_initializer(item, next);
    }
    next
}

/// Numbers an item's nodes from `first` on, and answers the number after the last.
fn number_item(item: &mut Item, first: u32) -> u32
    requires { first + nodes_in item.old < 2 ^ 32 }
    ensures tree { item.new ≡ numbered first item.old }
    ensures next { result ≡ first + nodes_in item.old }
{
    let node = match &mut item.node {
        ItemNode::Read(node) => node,
        ItemNode::Error { at } => return number_place(at, first),
    };
    match &mut **node {
        ReadItem::Class {
            at,
            metadata,
            name,
            type_parameters,
            superclass,
            mixins,
            interfaces,
            members,
            ..
        } => {
            let next = number_place(at, first);
            let next = number_annotations(metadata.as_mut_slice(), next);
            let next = number_name(name, next);
            let next = number_type_parameters(type_parameters.as_mut_slice(), next);
            let next = number_optional_written_type(superclass, next);
            let next = number_written_types(mixins.as_mut_slice(), next);
            let next = number_written_types(interfaces.as_mut_slice(), next);
            number_members(members.as_mut_slice(), next)
        }
        ReadItem::Mixin {
            at,
            metadata,
            name,
            type_parameters,
            constraints,
            interfaces,
            members,
        } => {
            let next = number_place(at, first);
            let next = number_annotations(metadata.as_mut_slice(), next);
            let next = number_name(name, next);
            let next = number_type_parameters(type_parameters.as_mut_slice(), next);
            let next = number_written_types(constraints.as_mut_slice(), next);
            let next = number_written_types(interfaces.as_mut_slice(), next);
            number_members(members.as_mut_slice(), next)
        }
        ReadItem::TypeAlias {
            at,
            metadata,
            name,
            written,
        } => {
            let next = number_place(at, first);
            let next = number_annotations(metadata.as_mut_slice(), next);
            let next = number_name(name, next);
            number_written_type(written, next)
        }
        ReadItem::Function {
            at,
            metadata,
            function,
        } => {
            let next = number_place(at, first);
            let next = number_annotations(metadata.as_mut_slice(), next);
            number_function(function, next)
        }
        ReadItem::Variables {
            at,
            metadata,
            variables,
        } => {
            let next = number_place(at, first);
            let next = number_annotations(metadata.as_mut_slice(), next);
            number_variable_list(variables, next)
        }
        ReadItem::Library { at, names } => {
            let next = number_place(at, first);
            number_listed_names(names.as_mut_slice(), next)
        }
        ReadItem::Import {
            at,
            uri,
            prefix,
            combinators,
        } => {
            let next = number_place(at, first);
            let next = number_string(uri, next);
            let next = number_optional_listed_name(prefix, next);
            number_combinators(combinators.as_mut_slice(), next)
        }
        ReadItem::Export {
            at,
            uri,
            combinators,
        } => {
            let next = number_place(at, first);
            let next = number_string(uri, next);
            number_combinators(combinators.as_mut_slice(), next)
        }
        ReadItem::Part { at, uri } => {
            let next = number_place(at, first);
            number_string(uri, next)
        }
        ReadItem::PartOf { at, uri } => {
            let next = number_place(at, first);
            number_string(uri, next)
        }
        ReadItem::PartOfLibrary { at, names } => {
            let next = number_place(at, first);
            number_listed_names(names.as_mut_slice(), next)
        }
    }
}

/// Numbers the nodes of items, one after the other.
fn number_items(items: &mut [Item], first: u32) -> u32
    requires { first + nodes_in_all (trees_of items.old) < 2 ^ 32 }
    ensures trees { trees_of items.new ≡ all_numbered first (trees_of items.old) }
    ensures next { result ≡ first + nodes_in_all (trees_of items.old) }
{
    let mut next = first;
    for item in items.iter_mut() {
        next = number_item(item, next);
    }
    next
}

/// Numbers a combinator's nodes from `first` on, and answers the number after the last.
fn number_combinator(combinator: &mut Combinator, first: u32) -> u32
    requires { first + nodes_in combinator.old < 2 ^ 32 }
    ensures tree { combinator.new ≡ numbered first combinator.old }
    ensures next { result ≡ first + nodes_in combinator.old }
{
    match &mut combinator.node {
        CombinatorNode::Show { at, names } => {
            let next = number_place(at, first);
            number_listed_names(names.as_mut_slice(), next)
        }
        CombinatorNode::Hide { at, names } => {
            let next = number_place(at, first);
            number_listed_names(names.as_mut_slice(), next)
        }
    }
}

/// Numbers the nodes of combinators, one after the other.
fn number_combinators(combinators: &mut [Combinator], first: u32) -> u32
    requires { first + nodes_in_all (trees_of combinators.old) < 2 ^ 32 }
    ensures trees { trees_of combinators.new ≡ all_numbered first (trees_of combinators.old) }
    ensures next { result ≡ first + nodes_in_all (trees_of combinators.old) }
{
    let mut next = first;
    for item in combinators.iter_mut() {
        next = number_combinator(item, next);
    }
    next
}
